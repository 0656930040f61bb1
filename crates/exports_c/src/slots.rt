// Slot maps.
ghost use Rattle.std.specs.Prelude.{◌≡◌, length};
ghost use Rattle.answers.specs.Answers as Answers;
ghost use Rattle.choosers.specs.SlotCalls.{map_of, fitting, len_call, is_empty_call, is_active_call, look_up, get_call, ScratchFree};
ghost use Rattle.rounds.specs.Locations.{state_of};
ghost use Rattle.exports.specs.Coded.{truth, coded_truth, coded_number, coded_hash};
ghost use Rattle.exports.specs.Crossings.{crossed};
ghost use Rattle.exports.specs.Slots.{add_crossed, remove_crossed, ScratchAfter};

// The lowest deleted slot, else a new one.
#[unsafe(no_mangle)]
pub extern "C" fn perillajamb_slots_add(total: u32, table: &mut [u8]) -> u64
    ensures { crossed result table.new ≡ add_crossed total table.old }
{
    exports::slots::perillajamb_slots_add(total, table)
}

// Takes a slot out.
#[unsafe(no_mangle)]
pub extern "C" fn perillajamb_slots_remove(slot: u32, total: u32, table: &mut [u8]) -> u64
    ensures { crossed result table.new ≡ remove_crossed slot total table.old }
{
    exports::slots::perillajamb_slots_remove(slot, total, table)
}

// How many slots are active.
#[unsafe(no_mangle)]
pub extern "C" fn perillajamb_slots_len(total: u32, table: &[u8]) -> u64
    ensures { result ≡ coded_number (len_call (map_of total) table.now) }
{
    exports::slots::perillajamb_slots_len(total, table)
}

// Whether none is active: 1 or 0.
#[unsafe(no_mangle)]
pub extern "C" fn perillajamb_slots_is_empty(total: u32, table: &[u8]) -> u64
    ensures { result ≡ coded_truth (is_empty_call (map_of total) table.now) }
{
    exports::slots::perillajamb_slots_is_empty(total, table)
}

// Whether a slot is active: 1 or 0.
#[unsafe(no_mangle)]
pub extern "C" fn perillajamb_slots_is_active(slot: u32, total: u32, table: &[u8]) -> u64
    ensures { result ≡ coded_truth (is_active_call (map_of total) table.now slot) }
{
    exports::slots::perillajamb_slots_is_active(slot, total, table)
}

// Whether the count fits the table: 1 or 0.
#[unsafe(no_mangle)]
pub extern "C" fn perillajamb_slots_fits(total: u32, table: &[u8]) -> u64
    ensures { result ≡ truth (fitting (map_of total) table.now) }
{
    exports::slots::perillajamb_slots_fits(total, table)
}

// The first active slot of the choice order of the count.
#[unsafe(no_mangle)]
pub extern "C" fn perillajamb_slots_get(
    state: u64,
    total: u32,
    table: &[u8],
    scratch: &mut [u64],
) -> u64
    ensures answer { result ≡ coded_number (get_call (map_of total) table.now state (length scratch.old)) }
    ensures scratch_after { ScratchAfter result scratch.old scratch.new }
{
    exports::slots::perillajamb_slots_get(state, total, table, scratch)
}

// The same without its tests, for many lookups after one test.
#[unsafe(no_mangle)]
pub extern "C" fn perillajamb_first_active(
    state: u64,
    total: u32,
    table: &[u8],
    scratch: &mut [u64],
) -> u64
    ensures answer { result ≡ coded_hash (Answers.result (look_up total table.now state (length scratch.old))) }
    ensures scratch { ScratchFree scratch.old scratch.new }
{
    exports::slots::perillajamb_first_active(state, total, table, scratch)
}

// The state of a location under a key.
#[unsafe(no_mangle)]
pub extern "C" fn perillajamb_location_state(key: u64, location: u32) -> u64
    ensures { result ≡ state_of key location }
{
    exports::slots::perillajamb_location_state(key, location)
}
