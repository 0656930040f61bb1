// Bytes that come in pieces, cut into lines: a line that straddles pieces is held in a list, which is lent, since there is no heap.
ghost use Rattle.std.specs.Prelude.{◌≡◌, ◌==◌, length};
ghost use Rattle.std.specs.List.{position};
ghost use Rattle.answers.specs.Answers as Answers;
ghost use Rattle.answers.specs.Answers.{after};
ghost use Rattle.lists.specs.Lists.{written};
ghost use Rattle.fields.specs.Cuts.{kept, cut_call};

// Of a line that has not ended its first bytes are held, so many, which is enough to know that it is too long.
pub const HELD_MOST: usize = 81;

// What a cut came to. Of a longer line than `HELD_MOST` so many first bytes are the line here.
#[derive(Clone, Copy)]
pub enum Cutting {
    // No line feed: all of the piece was taken, and so many bytes are held.
    Open { held: usize },
    // A line that stands in the piece: its first bytes, so many. The list was not written.
    Whole { size: usize, taken: usize },
    // The end of a line that was held: it stands in the list's first places, so many.
    Joined { size: usize, taken: usize },
}

// Where the first line feed is.
#[inline(always)]
pub(crate) fn line_feed(bytes: &[u8]) -> Option<usize>
    ensures { result ≡ position (λ b. b == 10) bytes.now }
{
    bytes.iter().position(|byte| *byte == b'\n')
}

// Holds bytes of a line behind those that are held, as far as there is room, and answers how many are held then.
fn keep(line: &mut [u8], held: usize, bytes: &[u8]) -> usize
    ensures size { result ≡ length (kept line.old held bytes.now) }
    ensures holds { line.new ≡ written (kept line.old held bytes.now) line.old }
{
    let most = line.len().min(HELD_MOST);
    let held = held.min(most);
    let count = bytes.len().min(most - held);
    let size = held + count;
    line[held..size].copy_from_slice(&bytes[..count]);
    size
}

// Takes a piece up to and with its first line feed, or all where there is none; of the line so many bytes are held in the list.
pub fn cut(piece: &[u8], held: usize, line: &mut [u8]) -> Cutting
    ensures { after (Answers.result result) line.new ≡ cut_call piece.now held line.old }
{
    let Some(end) = line_feed(piece) else {
        let held = keep(line, held, piece);
        return Cutting::Open { held };
    };
    let taken = end + 1;
    if held == 0 {
        let size = end.min(line.len().min(HELD_MOST));
        return Cutting::Whole { size, taken };
    }
    let size = keep(line, held, &piece[..end]);
    Cutting::Joined { size, taken }
}
