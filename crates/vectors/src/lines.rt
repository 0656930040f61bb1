// The lines of a file that comes in pieces. A file of any length takes the memory of one line.
use crate::replays::Replay;
use std::alloc::Global;
use std::str;

// How many bytes of a line are held: a part of 4,096 places, each of 16 digits and a space, with its name. Of a longer line the others
// are not read.
const HELD: usize = 0x2_0000;

// The line that is being read: its first bytes, whether it has more, and whether memory sufficed for them.
#[derive(Drop)]
pub struct Line {
    held: Vec<u8>,
    longer: bool,
    whole: bool,
}

// The text of a line; of one that is cut without the character that the cut parts, of at most four bytes.
fn text(line: &[u8], longer: bool) -> Option<&str> {
    match str::from_utf8(line) {
        Ok(text) => Some(text),
        Err(e) if longer && line.len().saturating_sub(e.valid_up_to()) < 4 => {
            str::from_utf8(line.get(..e.valid_up_to())?).ok()
        }
        Err(_) => None,
    }
}

impl Line {
    pub(crate) fn new(alloc: Global) -> Line {
        Line {
            held: Vec::new(alloc),
            longer: false,
            whole: true,
        }
    }

    // More of its bytes.
    pub(crate) fn push(&mut self, bytes: &[u8]) {
        let room = HELD.saturating_sub(self.held.len());
        let size = bytes.len().min(room);
        if size < bytes.len() {
            self.longer = true;
        }
        if self.held.extend_from_slice(&bytes[..size]).is_err() {
            self.whole = false;
        }
    }

    // Whether the library agrees with it, if it has an answer. How answers were made may be said in any bytes.
    fn judged(&self, replay: &mut Replay) -> Option<bool> {
        let line = self.held.strip_suffix(b"\r").unwrap_or(&self.held);
        match text(line, self.longer) {
            Some(text) if self.whole => replay.line(text),
            _ if line.starts_with(b"#") => None,
            _ => Some(false),
        }
    }

    // It has ended: the same, and the next one begins.
    pub(crate) fn end(&mut self, replay: &mut Replay) -> Option<bool> {
        let agrees = self.judged(replay);
        self.held.clear();
        self.longer = false;
        self.whole = true;
        agrees
    }
}
