// Choosers for C and Rust. The record is three words that the caller keeps: the state, n, k.
ghost use Rattle.std.specs.Prelude.{◌≡◌};
ghost use Rattle.lists.specs.Lists.{written};
ghost use Rattle.exports.specs.Crossings.{crossed, words_list};
ghost use Rattle.exports.specs.Chooser.{chooser_layout, chooser_words, chooser_as, new_crossed, new_with_k_crossed, grow_crossed, next_crossed, shrink_crossed, fits_crossed};

use crate::records::Record;
use crate::{parts, records};
use answers::Refusal;
use choosers::choose_k::ConsistentChooseKHasher;

impl Record for ConsistentChooseKHasher {
    type Word = u64;

    const WORDS: usize = 3;

    ghost count = { chooser_layout.count };

    ghost over = { λ words c. written (chooser_words c) words };

    ghost read = { chooser_as };

    fn loaded(words: &[u64]) -> Self {
        ConsistentChooseKHasher {
            state: words[0],
            n: words[1],
            k: words[2],
        }
    }

    fn store(self, words: &mut [u64]) {
        words[0] = self.state;
        words[1] = self.n;
        words[2] = self.k;
    }
}

// No sample of 0..n yet.
pub fn perillajamb_chooser_new(state: u64, n: u64, words: &mut [u64]) -> u64
    ensures { crossed result words.new ≡ new_crossed state n words.old }
{
    if words.len() < ConsistentChooseKHasher::WORDS {
        let limit = ConsistentChooseKHasher::N_LIMIT;
        return parts::refused(answers::short_refusal(limit, 0, 0, n));
    }
    records::store_made(ConsistentChooseKHasher::new(state, n), words)
}

// The k samples of 0..n.
pub fn perillajamb_chooser_new_with_k(
    state: u64,
    k: u64,
    n: u64,
    words: &mut [u64],
    list: &mut [u64],
) -> u64
    ensures { crossed result (words_list words.new list.new) ≡ new_with_k_crossed state k n words.old list.old }
{
    if words.len() < ConsistentChooseKHasher::WORDS {
        let limit = ConsistentChooseKHasher::N_LIMIT;
        return parts::refused(answers::short_refusal(limit, 0, k, n));
    }
    records::store_made(
        ConsistentChooseKHasher::new_with_k(state, n, k, list),
        words,
    )
}

// One sample more.
pub fn perillajamb_chooser_grow_k(words: &mut [u64], list: &mut [u64]) -> u64
    ensures { crossed result (words_list words.new list.new) ≡ grow_crossed words.old list.old }
{
    if words.len() < ConsistentChooseKHasher::WORDS {
        return parts::refused(Refusal::ShortMemory);
    }
    let mut c = ConsistentChooseKHasher::loaded(words);
    let said = c.grow_k(list);
    records::keep(said.is_ok(), c, words);
    parts::wide_number(said)
}

// The next number of the choice order.
pub fn perillajamb_chooser_next(words: &mut [u64], list: &mut [u64]) -> u64
    ensures { crossed result (words_list words.new list.new) ≡ next_crossed words.old list.old }
{
    if words.len() < ConsistentChooseKHasher::WORDS {
        return parts::refused(Refusal::ShortMemory);
    }
    let mut c = ConsistentChooseKHasher::loaded(words);
    let said = c.next(list);
    records::keep(said.is_ok(), c, words);
    parts::hash(said)
}

// n becomes the last sample.
pub fn perillajamb_chooser_shrink_n(words: &mut [u64], list: &mut [u64]) -> u64
    ensures { crossed result (words_list words.new list.new) ≡ shrink_crossed words.old list.old }
{
    if words.len() < ConsistentChooseKHasher::WORDS {
        return parts::refused(Refusal::ShortMemory);
    }
    let mut c = ConsistentChooseKHasher::loaded(words);
    let said = c.shrink_n(list);
    records::keep(said.is_ok(), c, words);
    parts::wide_number(said)
}

// Whether the record fits its list: 1 or 0.
pub fn perillajamb_chooser_fits(words: &[u64], list: &[u64]) -> u64
    ensures { result ≡ fits_crossed words.now list.now }
{
    if words.len() < ConsistentChooseKHasher::WORDS {
        return parts::refused(Refusal::ShortMemory);
    }
    parts::yes(ConsistentChooseKHasher::loaded(words).fits(list))
}
