// A session: bytes are fed in whatever pieces they come, and the answers to the lines that they end are put into a list.
ghost use Rattle.std.specs.Prelude.{◌≡◌, [], ◌≤◌, ◌<◌, ◌+◌, length, take};
ghost use Rattle.fields.specs.Cuts.{held_most};
ghost use Rattle.fields.specs.Texts.{HasRoom, SameList, Puts};
ghost use Rattle.lines.specs.Replies.{text_of};
ghost use Rattle.lines.specs.Sessions.{respond};
ghost use Rattle.lines.specs.Streams.{progress, room_for, world_of, after_call, feed_call, end_call, BuffersAfter, SameLists};
ghost use Rattle.lines.specs.InnerSessions.{Stepped, Took};

use crate::calls;
use answers::Refusal;
use fields::cuts;
use fields::cuts::{Cutting, HELD_MOST};
use fields::texts::Text;
use rounds::round::Round;

// No line of a plan is longer, and no other answer.
const PLACE_LINE: usize = 33;

const ANSWER_LINE: usize = 32;

// What a round is kept in and a plan written to: lists that are lent, since there is no heap. The list that holds a line is lent
// beside it, since a part of that is answered while the others are lent, and so is the list of what is put out.
#[derive(Drop)]
pub struct Memory<'a> {
    pub list: &'a mut [u32],
    pub table: &'a mut [u8],
    pub locations: &'a mut [u32],
    pub terminals: &'a mut [u32],
    pub scratch: &'a mut [u64],
}

// Where a session stands between two pieces: the round that an accepted open made, if there was one, and how many bytes are held of
// a line that has not ended. The list that holds them is lent to each call. A caller may make one by hand, and the list is no part
// of it, so that no more is held than there can be, and that the list has room, is tested by the calls, and asked for by the two
// functions that they use.
#[derive(Clone, Copy, Debug, PartialEq, Eq)]
pub struct Session {
    pub current: Option<Round>,
    pub held: usize,
}

// How many bytes of a piece were taken, and how many were put out.
#[derive(Clone, Copy, Debug, PartialEq, Eq)]
pub struct Fed {
    pub taken: usize,
    pub put: usize,
}

impl Session {
    // No round, and nothing held.
    pub fn new() -> Self
        ensures { result ≡ record { current = None; held = 0 } }
    {
        Self {
            current: None,
            held: 0,
        }
    }

    // ---- lines

    // Answers a line: what is put out stands behind the text so far.
    fn answer(&mut self, bytes: &[u8], memory: &mut Memory, text: &mut Text)
        requires { HasRoom text.old (room_for memory.old.locations.now) }
        ensures held { self.new.held ≡ self.old.held }
        ensures memory_lent { SameLists memory.old memory.new }
        ensures text_lent { SameList text.old text.new }
        ensures world_after { world_of self.new memory.new ≡ (respond (world_of self.old memory.old) bytes.now).left }
        ensures says { Puts text.old (text_of (respond (world_of self.old memory.old) bytes.now).answer) text.new }
    {
        calls::answer(
            &mut self.current,
            bytes,
            memory.list,
            memory.table,
            memory.locations,
            memory.terminals,
            memory.scratch,
            text,
        );
    }

    // Takes bytes up to and with their first line feed, or all where there is none, and answers how many.
    fn take_line(
        &mut self,
        bytes: &[u8],
        line: &mut [u8],
        memory: &mut Memory,
        text: &mut Text,
    ) -> usize
        requires { (0 < length bytes.now) × (self.old.held ≤ held_most) × (held_most ≤ length line.old) × HasRoom text.old (room_for memory.old.locations.now) }
        ensures memory_lent { SameLists memory.old memory.new }
        ensures text_lent { SameList text.old text.new }
        ensures steps { Stepped bytes.now (world_of self.old memory.old) line.old text.old.out.now self.old.held text.old.len (world_of self.new memory.new) line.new text.new.out.now self.new.held result text.new.len }
    {
        match cuts::cut(bytes, self.held, line) {
            Cutting::Open { held } => {
                self.held = held;
                bytes.len()
            }
            Cutting::Whole { size, taken } => {
                self.answer(&bytes[..size], memory, text);
                taken
            }
            Cutting::Joined { size, taken } => {
                self.held = 0;
                self.answer(&line[..size], memory, text);
                taken
            }
        }
    }

    // ---- feeding

    // Takes line after line, as long as the text has no more than `most` bytes, and answers how many bytes.
    fn take_lines(
        &mut self,
        piece: &[u8],
        line: &mut [u8],
        memory: &mut Memory,
        text: &mut Text,
        most: usize,
    ) -> usize
        requires held { (self.old.held ≤ held_most) × (held_most ≤ length line.old) }
        requires room { most + room_for memory.old.locations.now ≤ length text.old.out.now }
        requires empty { text.old.len ≡ 0 }
        ensures memory_lent { SameLists memory.old memory.new }
        ensures text_lent { SameList text.old text.new }
        ensures took { Took most (progress (world_of self.old memory.old) (take self.old.held line.old) []) piece.now text.old.out.now (world_of self.new memory.new) line.new text.new.out.now self.new.held result text.new.len }
    {
        let mut rest = piece;
        while !rest.is_empty() && text.len <= most {
            let taken = self.take_line(rest, line, memory, text);
            rest = &rest[taken..];
        }
        piece.len() - rest.len()
    }

    // Feeds a piece of the input, as long as there is room for the longest answer: refusals 12, 4. What is put out stands in the
    // first places of `out`; where less than the whole piece was taken, it is to be written out before the rest is fed.
    pub fn feed(
        &mut self,
        piece: &[u8],
        line: &mut [u8],
        memory: &mut Memory,
        out: &mut [u8],
    ) -> Result<Fed, Refusal>
        ensures answer { after_call result self.new (world_of self.new memory.new) line.new out.new ≡ feed_call (world_of self.old memory.old) line.old self.old.held piece.now out.old }
        ensures buffers_after { BuffersAfter result line.old line.new memory.old.scratch.now memory.new.scratch.now }
        ensures lent { SameLists memory.old memory.new }
    {
        if self.held > HELD_MOST || line.len() < self.held {
            return Err(Refusal::Misfit);
        }
        if line.len() < HELD_MOST {
            return Err(Refusal::ShortMemory);
        }
        let room = memory
            .locations
            .len()
            .saturating_mul(PLACE_LINE)
            .saturating_add(ANSWER_LINE);
        let Some(most) = out.len().checked_sub(room) else {
            return Err(Refusal::ShortMemory);
        };
        let mut text = Text { out, len: 0 };
        let taken = self.take_lines(piece, line, memory, &mut text, most);
        Ok(Fed {
            taken,
            put: text.len,
        })
    }

    // At the end of the input, answers a line that lacks its line feed.
    pub fn finish(
        &mut self,
        line: &mut [u8],
        memory: &mut Memory,
        out: &mut [u8],
    ) -> Result<Fed, Refusal>
        ensures answer { after_call result self.new (world_of self.new memory.new) line.new out.new ≡ end_call (world_of self.old memory.old) line.old self.old.held out.old }
        ensures buffers_after { BuffersAfter result line.old line.new memory.old.scratch.now memory.new.scratch.now }
        ensures lent { SameLists memory.old memory.new }
    {
        if self.held == 0 {
            return Ok(Fed { taken: 0, put: 0 });
        }
        self.feed(b"\n", line, memory, out)
    }
}
