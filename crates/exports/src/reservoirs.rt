// Reservoirs for C and Rust. The record is six words that the caller keeps: the key's low and high 32 bits, k, n, the layer,
// the used length.
ghost use Rattle.std.specs.Prelude.{◌≡◌};
ghost use Rattle.lists.specs.Lists.{written};
ghost use Rattle.exports.specs.Crossings.{crossed, words_list};
ghost use Rattle.exports.specs.Reservoirs.{reservoir_layout, words_of, record_of, new_crossed, next_crossed, grow_crossed, sample_crossed, fits_crossed};

use crate::records::Record;
use crate::{parts, records};
use answers::Refusal;
use orders::consistent_reservoir::ConsistentReservoir;

impl Record for ConsistentReservoir {
    type Word = u32;

    const WORDS: usize = 6;

    ghost count = { reservoir_layout.count };

    ghost over = { λ words r. written (words_of r) words };

    ghost read = { record_of };

    fn loaded(words: &[u32]) -> Self {
        ConsistentReservoir {
            master_key: parts::joined(words[0], words[1]),
            k: words[2],
            n: words[3],
            j_max: words[4],
            used: words[5],
        }
    }

    fn store(self, words: &mut [u32]) {
        let (low, high) = parts::parted(self.master_key);
        words[0] = low;
        words[1] = high;
        words[2] = self.k;
        words[3] = self.n;
        words[4] = self.j_max;
        words[5] = self.used;
    }
}

// Open with k of n.
pub fn perillajamb_reservoir_new(
    key: u64,
    k: u32,
    n: u32,
    words: &mut [u32],
    list: &mut [u32],
) -> u64
    ensures { crossed result (words_list words.new list.new) ≡ new_crossed key k n words.old list.old }
{
    if words.len() < ConsistentReservoir::WORDS {
        return parts::refused(ConsistentReservoir::short_refusal(k, n));
    }
    records::store_made(ConsistentReservoir::new(k, n, key, list), words)
}

// Admit.
pub fn perillajamb_reservoir_next(words: &mut [u32], list: &mut [u32]) -> u64
    ensures { crossed result (words_list words.new list.new) ≡ next_crossed words.old list.old }
{
    if words.len() < ConsistentReservoir::WORDS {
        return parts::refused(Refusal::ShortMemory);
    }
    let mut r = ConsistentReservoir::loaded(words);
    let said = r.next(list);
    records::keep(said.is_ok(), r, words);
    parts::exchange(said)
}

// The step to the next layer.
pub fn perillajamb_reservoir_grow_layer(words: &mut [u32], list: &mut [u32]) -> u64
    ensures { crossed result (words_list words.new list.new) ≡ grow_crossed words.old list.old }
{
    if words.len() < ConsistentReservoir::WORDS {
        return parts::refused(Refusal::ShortMemory);
    }
    let mut r = ConsistentReservoir::loaded(words);
    let said = r.grow_layer(list);
    records::keep(said.is_ok(), r, words);
    parts::done(said)
}

// The sample, in the first k places of `out`.
pub fn perillajamb_reservoir_sample(words: &[u32], list: &[u32], out: &mut [u32]) -> u64
    ensures { crossed result out.new ≡ sample_crossed words.now list.now out.old }
{
    if words.len() < ConsistentReservoir::WORDS {
        return parts::refused(Refusal::ShortMemory);
    }
    parts::done(ConsistentReservoir::loaded(words).reservoir(list, out))
}

// Whether the record fits its list: 1 or 0.
pub fn perillajamb_reservoir_fits(words: &[u32], list: &[u32]) -> u64
    ensures { result ≡ fits_crossed words.now list.now }
{
    if words.len() < ConsistentReservoir::WORDS {
        return parts::refused(Refusal::ShortMemory);
    }
    parts::yes(ConsistentReservoir::loaded(words).fits(list))
}
