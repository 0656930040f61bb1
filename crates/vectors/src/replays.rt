// A file of answers, line by line. A line is one call: its name, its numbers, and, behind ` = `, what it answers and a digest; or a part
// of the memory that calls are lent.
use crate::calls;
use crate::digests::Digest;
use crate::memory::Memory;
use crate::numbers::Numbers;
use std::alloc::Global;

// What is lent, and a digest of each call since the last answer that was compared: of what it answers and of the memory after it.
#[derive(Drop)]
pub struct Replay {
    alloc: Global,
    memory: Memory,
    digest: Digest,
    // Whether calls were made since then.
    waits: bool,
}

// What stands before the first space, and behind it.
fn parted(text: &str) -> (&str, &str) {
    match text.split_once(' ') {
        Some(parts) => parts,
        None => (text, ""),
    }
}

impl Replay {
    pub(crate) fn new(alloc: Global) -> Replay {
        Replay {
            alloc,
            memory: Memory::new(alloc),
            digest: Digest::new(),
            waits: false,
        }
    }

    // The call of that name, so many times, the line's first number one higher each time. Answers what it says last; none where no
    // call has the name.
    fn call(&mut self, times: u64, name: &str, numbers: &str) -> Option<u64> {
        let mut last = None;
        for step in 0..times {
            let given = Numbers::new(numbers, step).given();
            let said = calls::said(name, given, &mut self.memory)?;
            self.digest.feed(said);
            self.memory.feed(&mut self.digest);
            last = Some(said);
        }
        self.waits = true;
        last
    }

    // `NAME n1 n2 ..` or `times*NAME n1 n2 ..`.
    fn made(&mut self, head: &str, numbers: &str) -> Option<u64> {
        match head.split_once('*') {
            Some((times, name)) => self.call(Numbers::new(times, 0).length(), name, numbers),
            None => self.call(1, head, numbers),
        }
    }

    // Whether a line's answer and its digest are the library's. The next digest begins anew.
    fn agrees(&mut self, said: u64, wanted: &str) -> bool {
        let mut wanted = Numbers::new(wanted, 0);
        let agrees = said == wanted.next() && self.digest.value() == wanted.next();
        self.digest = Digest::new();
        self.waits = false;
        agrees
    }

    // Nothing is lent any more. A call that no answer was compared with is a difference.
    pub(crate) fn end(&mut self) -> Option<bool> {
        let waits = self.waits;
        *self = Replay::new(self.alloc);
        if waits { Some(false) } else { None }
    }

    // A line with an answer.
    fn judged(&mut self, call: &str, wanted: &str) -> bool {
        let (head, numbers) = parted(call);
        match self.made(head, numbers) {
            Some(said) => self.agrees(said, wanted),
            None => false,
        }
    }

    // A line without one. A name that nothing has is a difference, and so is memory that cannot be had.
    fn passed(&mut self, head: &str, numbers: &str) -> Option<bool> {
        let passes = match self.memory.lend(head, &mut Numbers::new(numbers, 0)) {
            Some(lent) => lent,
            None => self.made(head, numbers).is_some(),
        };
        if passes { None } else { Some(false) }
    }

    // Whether the library agrees with a line; none where it has no answer. A line that begins with # says how the answers were made.
    pub(crate) fn line(&mut self, text: &str) -> Option<bool> {
        let (head, numbers) = parted(text);
        match head {
            "" => self.end(),
            "#" => None,
            _ => match text.split_once(" = ") {
                Some((call, wanted)) => Some(self.judged(call, wanted)),
                None => self.passed(head, numbers),
            },
        }
    }
}
