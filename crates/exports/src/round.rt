// Rounds for C and Rust. The record is seven words that the caller keeps: the key's low and high 32 bits, k, n, the layer, the used
// length, the slot count.
ghost use Rattle.std.specs.Prelude.{◌≡◌, length};
ghost use Rattle.lists.specs.Lists.{written};
ghost use Rattle.rounds.specs.Plans.{plan_lists};
ghost use Rattle.rounds.specs.Replays.{replay_memory};
ghost use Rattle.exports.specs.Crossings.{crossed, words_list};
ghost use Rattle.exports.specs.Slots.{ScratchAfter};
ghost use Rattle.exports.specs.Rounds.{round_layout, round_words, round_as, lent, open_crossed, admit_crossed, join_crossed, withdraw_crossed, plan_crossed, fits_crossed, replay_crossed, ReplayScratchAs, ReplayedAs};

use crate::records::Record;
use crate::{parts, records};
use answers::Refusal;
use orders::consistent_reservoir::ConsistentReservoir;
use rounds::round::Round;
use rounds::{replays, round};

impl Record for Round {
    type Word = u32;

    const WORDS: usize = 7;

    ghost count = { round_layout.count };

    ghost over = { λ words r. written (round_words r) words };

    ghost read = { round_as };

    fn loaded(words: &[u32]) -> Self {
        Round {
            master_key: parts::joined(words[0], words[1]),
            k: words[2],
            n: words[3],
            j_max: words[4],
            used: words[5],
            total: words[6],
        }
    }

    fn store(self, words: &mut [u32]) {
        let (low, high) = parts::parted(self.master_key);
        words[0] = low;
        words[1] = high;
        words[2] = self.k;
        words[3] = self.n;
        words[4] = self.j_max;
        words[5] = self.used;
        words[6] = self.total;
    }
}

// Open with k of n.
pub fn perillajamb_round_open(key: u64, k: u32, n: u32, words: &mut [u32], list: &mut [u32]) -> u64
    ensures { crossed result (words_list words.new list.new) ≡ open_crossed key k n words.old list.old }
{
    if words.len() < Round::WORDS {
        return parts::refused(ConsistentReservoir::short_refusal(k, n));
    }
    records::store_made(round::open(key, k, n, list), words)
}

// Admit.
pub fn perillajamb_round_admit(words: &mut [u32], list: &mut [u32], table: &[u8]) -> u64
    ensures { crossed result (lent words.new list.new table.now) ≡ admit_crossed (lent words.old list.old table.now) }
{
    if words.len() < Round::WORDS {
        return parts::refused(Refusal::ShortMemory);
    }
    let mut r = Round::loaded(words);
    let said = r.admit(list, table);
    records::keep(said.is_ok(), r, words);
    parts::exchange(said)
}

// Join: the terminal's slot.
pub fn perillajamb_round_join(words: &mut [u32], list: &[u32], table: &mut [u8]) -> u64
    ensures { crossed result (lent words.new list.now table.new) ≡ join_crossed (lent words.old list.now table.old) }
{
    if words.len() < Round::WORDS {
        return parts::refused(Refusal::ShortMemory);
    }
    let mut r = Round::loaded(words);
    let said = r.join(list, table);
    records::keep(said.is_ok(), r, words);
    parts::number(said)
}

// Withdraw.
pub fn perillajamb_round_withdraw(
    slot: u32,
    words: &mut [u32],
    list: &[u32],
    table: &mut [u8],
) -> u64
    ensures { crossed result (lent words.new list.now table.new) ≡ withdraw_crossed slot (lent words.old list.now table.old) }
{
    if words.len() < Round::WORDS {
        return parts::refused(Refusal::ShortMemory);
    }
    let mut r = Round::loaded(words);
    let said = r.withdraw(list, table, slot);
    records::keep(said.is_ok(), r, words);
    parts::done(said)
}

// The sampled locations and their slots, in the first k places of the two lists.
pub fn perillajamb_round_plan(
    words: &[u32],
    list: &[u32],
    table: &[u8],
    locations: &mut [u32],
    terminals: &mut [u32],
    scratch: &mut [u64],
) -> u64
    ensures answer { crossed result (plan_lists locations.new terminals.new) ≡ plan_crossed (lent words.now list.now table.now) locations.old terminals.old (length scratch.old) }
    ensures scratch_after { ScratchAfter result scratch.old scratch.new }
{
    if words.len() < Round::WORDS {
        return parts::refused(Refusal::ShortMemory);
    }
    let r = Round::loaded(words);
    parts::done(round::plan(r, list, table, locations, terminals, scratch))
}

// Whether the record fits its list and its table: 1 or 0.
pub fn perillajamb_round_fits(words: &[u32], list: &[u32], table: &[u8]) -> u64
    ensures { result ≡ fits_crossed (lent words.now list.now table.now) }
{
    if words.len() < Round::WORDS {
        return parts::refused(Refusal::ShortMemory);
    }
    parts::yes(round::fits(Round::loaded(words), list, table))
}

// An open, calls and the plan after them.
pub fn perillajamb_round_replay(
    key: u64,
    k: u32,
    n: u32,
    calls: &[u64],
    list: &mut [u32],
    table: &mut [u8],
    answers: &mut [u32],
    locations: &mut [u32],
    terminals: &mut [u32],
    scratch: &mut [u64],
) -> u64
    ensures answer { crossed result (replay_memory list.new table.new answers.new locations.new terminals.new) ≡ replay_crossed key k n calls.now list.old table.old answers.old locations.old terminals.old (length scratch.old) }
    ensures replayed_as { ReplayedAs result key k n calls.now (length table.old) (length scratch.old) answers.new locations.new terminals.new }
    ensures replay_scratch_as { ReplayScratchAs result (length calls.now) answers.new scratch.old scratch.new }
{
    parts::done(replays::replay(
        key, k, n, calls, list, table, answers, locations, terminals, scratch,
    ))
}
