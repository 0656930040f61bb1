// The slot map of document 01: a slot count, and a byte a slot in a table that is lent to each call.
ghost use Rattle.std.specs.Prelude.{◌≡◌, min, length, take, is_ok, IfOk, IfErr};
ghost use Rattle.answers.specs.Answers.{after};
ghost use Rattle.choosers.specs.Slots.{fed_state};
ghost use Rattle.answers.specs.Refusals.{answer_of, optional};
ghost use Rattle.answers.specs.declared.Refusal.TheVariants.{Misfit};
ghost use Rattle.choosers.specs.SlotCalls.{slot_state, map_of, slot_limit, fitting, add_call, remove_call, len_call, is_empty_call, is_active_call, look_up, get_call, ScratchFree, ScratchAfter};

use crate::{lookups, tables};
use answers::Refusal;

// How many slots there are, deleted ones too.
#[derive(Clone, Copy, Debug, PartialEq, Eq)]
pub struct ConsistentNodeMap {
    pub total: u32,
}

// A state after a number is fed to it, for whoever looks slots up by such states.
pub fn fed_state(state: u64, v: u64) -> u64
    ensures { result ≡ fed_state state v }
{
    hashes::seq_builder(state, v)
}

// The first active slot of the choice order of `count`, of as many of its numbers as the scratch has places: `get` without its
// tests, for many lookups after one test.
pub fn first_active(count: u32, table: &[u8], state: u64, scratch: &mut [u64]) -> Option<u32>
    ensures answer { optional result ≡ look_up count table.now state (length scratch.old) }
    ensures scratch { ScratchFree scratch.old scratch.new }
{
    for k in 0..scratch.len().min(count as usize) {
        let x = lookups::next_number(state, count as u64, &mut scratch[..=k]);
        if table.get(x as usize) == Some(&1) {
            return Some(x as u32);
        }
    }
    None
}

// How many places of scratch a lookup over a table may need: `get` refuses fewer.
pub fn scratch_places(table: &[u8]) -> usize
    ensures { result ≡ min (length table.now) slot_limit }
{
    table.len().min(ConsistentNodeMap::SLOT_LIMIT as usize)
}

impl ConsistentNodeMap {
    // The most slots.
    pub const SLOT_LIMIT: u32 = 65_536;

    // No slot yet.
    pub fn new() -> ConsistentNodeMap
        ensures { result ≡ map_of 0 }
    {
        ConsistentNodeMap { total: 0 }
    }

    // Whether the count fits the table: the other calls refuse one that does not.
    pub fn fits(self, table: &[u8]) -> bool
        ensures { result ≡ fitting self table.now }
    {
        let c = self.total as usize;
        c <= table.len() && self.total <= Self::SLOT_LIMIT && tables::small(&table[..c])
    }

    // The bytes of the slots, where the count fits the table.
    fn slots(self, table: &[u8]) -> Result<&[u8], Refusal>
        ensures fits { is_ok result ≡ fitting self table.now }
        ensures bytes { IfOk result (λ slots. slots.now ≡ take self.total table.now) }
        ensures misfit { IfErr result (λ why. why ≡ Misfit) }
    {
        if !self.fits(table) {
            return Err(Refusal::Misfit);
        }
        Ok(&table[..self.total as usize])
    }

    // The lowest deleted slot, else a new one: refused where there is neither.
    pub fn add(&mut self, table: &mut [u8]) -> Result<u32, Refusal>
        ensures { after (answer_of result) (slot_state self.new table.new) ≡ add_call self.old table.old }
    {
        if let Some(x) = tables::lowest(self.slots(table)?) {
            table[x] = 1;
            return Ok(x as u32);
        }
        let c = self.total;
        let end = c as usize;
        if end == table.len() || c == Self::SLOT_LIMIT {
            return Err(Refusal::NoSlotLeft);
        }
        table[end] = 1;
        self.total = c + 1;
        Ok(c)
    }

    // Takes a slot out: refused where it is not active.
    pub fn remove(&mut self, table: &mut [u8], slot: u32) -> Result<(), Refusal>
        ensures { after (answer_of result) (slot_state self.new table.new) ≡ remove_call self.old table.old slot }
    {
        if self.slots(table)?.get(slot as usize) != Some(&1) {
            return Err(Refusal::SlotNotActive);
        }
        if slot + 1 == self.total {
            self.total = slot;
        } else {
            table[slot as usize] = 0;
        }
        Ok(())
    }

    // How many slots are active.
    pub fn len(self, table: &[u8]) -> Result<u32, Refusal>
        ensures { answer_of result ≡ len_call self table.now }
    {
        Ok(tables::sum(self.slots(table)?))
    }

    // Whether none is active.
    pub fn is_empty(self, table: &[u8]) -> Result<bool, Refusal>
        ensures { answer_of result ≡ is_empty_call self table.now }
    {
        Ok(!tables::any(self.slots(table)?))
    }

    // Whether a slot is active.
    pub fn is_active(self, table: &[u8], slot: u32) -> Result<bool, Refusal>
        ensures { answer_of result ≡ is_active_call self table.now slot }
    {
        Ok(self.slots(table)?.get(slot as usize) == Some(&1))
    }

    // How many slots there are, deleted ones too.
    pub fn slot_count(self) -> u32
        ensures { result ≡ self.total }
    {
        self.total
    }

    // The first active slot of the choice order of the count: refused where the scratch is too short or no slot is active.
    pub fn get(self, table: &[u8], state: u64, scratch: &mut [u64]) -> Result<u32, Refusal>
        ensures answer { answer_of result ≡ get_call self table.now state (length scratch.old) }
        ensures scratch_after { ScratchAfter result scratch.old scratch.new }
    {
        let slots = self.slots(table)?;
        if scratch.len() < scratch_places(table) {
            return Err(Refusal::ShortMemory);
        }
        if !tables::any(slots) {
            return Err(Refusal::NoneActive);
        }
        first_active(self.total, table, state, scratch).ok_or(Refusal::NoneActive)
    }
}
