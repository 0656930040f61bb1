// Rounds.
ghost use Rattle.std.specs.Prelude.{◌≡◌, length};
ghost use Rattle.rounds.specs.Plans.{plan_lists};
ghost use Rattle.rounds.specs.Replays.{replay_memory};
ghost use Rattle.exports.specs.Crossings.{crossed, words_list};
ghost use Rattle.exports.specs.Slots.{ScratchAfter};
ghost use Rattle.exports.specs.Rounds.{lent, open_crossed, admit_crossed, join_crossed, withdraw_crossed, plan_crossed, fits_crossed, replay_crossed, ReplayScratchAs, ReplayedAs};

// Open with k of n.
#[unsafe(no_mangle)]
pub extern "C" fn perillajamb_round_open(
    key: u64,
    k: u32,
    n: u32,
    words: &mut [u32],
    list: &mut [u32],
) -> u64
    ensures { crossed result (words_list words.new list.new) ≡ open_crossed key k n words.old list.old }
{
    exports::round::perillajamb_round_open(key, k, n, words, list)
}

// Admit.
#[unsafe(no_mangle)]
pub extern "C" fn perillajamb_round_admit(words: &mut [u32], list: &mut [u32], table: &[u8]) -> u64
    ensures { crossed result (lent words.new list.new table.now) ≡ admit_crossed (lent words.old list.old table.now) }
{
    exports::round::perillajamb_round_admit(words, list, table)
}

// Join: the terminal's slot.
#[unsafe(no_mangle)]
pub extern "C" fn perillajamb_round_join(words: &mut [u32], list: &[u32], table: &mut [u8]) -> u64
    ensures { crossed result (lent words.new list.now table.new) ≡ join_crossed (lent words.old list.now table.old) }
{
    exports::round::perillajamb_round_join(words, list, table)
}

// Withdraw.
#[unsafe(no_mangle)]
pub extern "C" fn perillajamb_round_withdraw(
    slot: u32,
    words: &mut [u32],
    list: &[u32],
    table: &mut [u8],
) -> u64
    ensures { crossed result (lent words.new list.now table.new) ≡ withdraw_crossed slot (lent words.old list.now table.old) }
{
    exports::round::perillajamb_round_withdraw(slot, words, list, table)
}

// The sampled locations and their slots, in the first k places of the two lists.
#[unsafe(no_mangle)]
pub extern "C" fn perillajamb_round_plan(
    words: &[u32],
    list: &[u32],
    table: &[u8],
    locations: &mut [u32],
    terminals: &mut [u32],
    scratch: &mut [u64],
) -> u64
    ensures answer { crossed result (plan_lists locations.new terminals.new) ≡ plan_crossed (lent words.now list.now table.now) locations.old terminals.old (length scratch.old) }
    ensures scratch_after { ScratchAfter result scratch.old scratch.new }
{
    exports::round::perillajamb_round_plan(words, list, table, locations, terminals, scratch)
}

// Whether the record fits its list and its table: 1 or 0.
#[unsafe(no_mangle)]
pub extern "C" fn perillajamb_round_fits(words: &[u32], list: &[u32], table: &[u8]) -> u64
    ensures { result ≡ fits_crossed (lent words.now list.now table.now) }
{
    exports::round::perillajamb_round_fits(words, list, table)
}

// An open, calls and the plan after them.
#[unsafe(no_mangle)]
pub extern "C" fn perillajamb_round_replay(
    key: u64,
    k: u32,
    n: u32,
    calls: &[u64],
    list: &mut [u32],
    table: &mut [u8],
    answers: &mut [u32],
    locations: &mut [u32],
    terminals: &mut [u32],
    scratch: &mut [u64],
) -> u64
    ensures answer { crossed result (replay_memory list.new table.new answers.new locations.new terminals.new) ≡ replay_crossed key k n calls.now list.old table.old answers.old locations.old terminals.old (length scratch.old) }
    ensures replayed_as { ReplayedAs result key k n calls.now (length table.old) (length scratch.old) answers.new locations.new terminals.new }
    ensures replay_scratch_as { ReplayScratchAs result (length calls.now) answers.new scratch.old scratch.new }
{
    exports::round::perillajamb_round_replay(
        key, k, n, calls, list, table, answers, locations, terminals, scratch,
    )
}
