// Slot maps for C and Rust. The map is its slot count, which the caller keeps beside the table.
ghost use Rattle.std.specs.Prelude.{◌≡◌, length};
ghost use Rattle.answers.specs.Answers as Answers;
ghost use Rattle.choosers.specs.SlotCalls.{map_of, fitting, len_call, is_empty_call, is_active_call, look_up, get_call, ScratchFree};
ghost use Rattle.rounds.specs.Locations.{state_of};
ghost use Rattle.exports.specs.Coded.{truth, coded_truth, coded_number, coded_hash};
ghost use Rattle.exports.specs.Crossings.{crossed};
ghost use Rattle.exports.specs.Slots.{add_crossed, remove_crossed, ScratchAfter};

use crate::parts;
use choosers::node_map;
use choosers::node_map::ConsistentNodeMap;
use rounds::locations;

// The lowest deleted slot, else a new one.
pub fn perillajamb_slots_add(total: u32, table: &mut [u8]) -> u64
    ensures { crossed result table.new ≡ add_crossed total table.old }
{
    let mut m = ConsistentNodeMap { total };
    match m.add(table) {
        Ok(slot) => parts::joined(slot, m.total),
        Err(why) => parts::refused(why),
    }
}

// Takes a slot out.
pub fn perillajamb_slots_remove(slot: u32, total: u32, table: &mut [u8]) -> u64
    ensures { crossed result table.new ≡ remove_crossed slot total table.old }
{
    let mut m = ConsistentNodeMap { total };
    match m.remove(table, slot) {
        Ok(()) => u64::from(m.total),
        Err(why) => parts::refused(why),
    }
}

// How many slots are active.
pub fn perillajamb_slots_len(total: u32, table: &[u8]) -> u64
    ensures { result ≡ coded_number (len_call (map_of total) table.now) }
{
    parts::number(ConsistentNodeMap { total }.len(table))
}

// Whether none is active: 1 or 0.
pub fn perillajamb_slots_is_empty(total: u32, table: &[u8]) -> u64
    ensures { result ≡ coded_truth (is_empty_call (map_of total) table.now) }
{
    parts::yes_or_no(ConsistentNodeMap { total }.is_empty(table))
}

// Whether a slot is active: 1 or 0.
pub fn perillajamb_slots_is_active(slot: u32, total: u32, table: &[u8]) -> u64
    ensures { result ≡ coded_truth (is_active_call (map_of total) table.now slot) }
{
    parts::yes_or_no(ConsistentNodeMap { total }.is_active(table, slot))
}

// Whether the count fits the table: 1 or 0.
pub fn perillajamb_slots_fits(total: u32, table: &[u8]) -> u64
    ensures { result ≡ truth (fitting (map_of total) table.now) }
{
    parts::yes(ConsistentNodeMap { total }.fits(table))
}

// The first active slot of the choice order of the count.
pub fn perillajamb_slots_get(state: u64, total: u32, table: &[u8], scratch: &mut [u64]) -> u64
    ensures answer { result ≡ coded_number (get_call (map_of total) table.now state (length scratch.old)) }
    ensures scratch_after { ScratchAfter result scratch.old scratch.new }
{
    parts::number(ConsistentNodeMap { total }.get(table, state, scratch))
}

// The same without its tests, for many lookups after one test.
pub fn perillajamb_first_active(state: u64, total: u32, table: &[u8], scratch: &mut [u64]) -> u64
    ensures answer { result ≡ coded_hash (Answers.result (look_up total table.now state (length scratch.old))) }
    ensures scratch { ScratchFree scratch.old scratch.new }
{
    let found = node_map::first_active(total, table, state, scratch);
    parts::number_or_none(Ok(found))
}

// The state of a location under a key.
pub fn perillajamb_location_state(key: u64, location: u32) -> u64
    ensures { result ≡ state_of key location }
{
    locations::location_state(key, location)
}
