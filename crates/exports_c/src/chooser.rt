// Choosers.
ghost use Rattle.std.specs.Prelude.{◌≡◌};
ghost use Rattle.exports.specs.Crossings.{crossed, words_list};
ghost use Rattle.exports.specs.Chooser.{new_crossed, new_with_k_crossed, grow_crossed, next_crossed, shrink_crossed, fits_crossed};

// No sample of 0..n yet.
#[unsafe(no_mangle)]
pub extern "C" fn perillajamb_chooser_new(state: u64, n: u64, words: &mut [u64]) -> u64
    ensures { crossed result words.new ≡ new_crossed state n words.old }
{
    exports::chooser::perillajamb_chooser_new(state, n, words)
}

// The k samples of 0..n.
#[unsafe(no_mangle)]
pub extern "C" fn perillajamb_chooser_new_with_k(
    state: u64,
    k: u64,
    n: u64,
    words: &mut [u64],
    list: &mut [u64],
) -> u64
    ensures { crossed result (words_list words.new list.new) ≡ new_with_k_crossed state k n words.old list.old }
{
    exports::chooser::perillajamb_chooser_new_with_k(state, k, n, words, list)
}

// One sample more.
#[unsafe(no_mangle)]
pub extern "C" fn perillajamb_chooser_grow_k(words: &mut [u64], list: &mut [u64]) -> u64
    ensures { crossed result (words_list words.new list.new) ≡ grow_crossed words.old list.old }
{
    exports::chooser::perillajamb_chooser_grow_k(words, list)
}

// The next number of the choice order.
#[unsafe(no_mangle)]
pub extern "C" fn perillajamb_chooser_next(words: &mut [u64], list: &mut [u64]) -> u64
    ensures { crossed result (words_list words.new list.new) ≡ next_crossed words.old list.old }
{
    exports::chooser::perillajamb_chooser_next(words, list)
}

// n becomes the last sample.
#[unsafe(no_mangle)]
pub extern "C" fn perillajamb_chooser_shrink_n(words: &mut [u64], list: &mut [u64]) -> u64
    ensures { crossed result (words_list words.new list.new) ≡ shrink_crossed words.old list.old }
{
    exports::chooser::perillajamb_chooser_shrink_n(words, list)
}

// Whether the record fits its list: 1 or 0.
#[unsafe(no_mangle)]
pub extern "C" fn perillajamb_chooser_fits(words: &[u64], list: &[u64]) -> u64
    ensures { result ≡ fits_crossed words.now list.now }
{
    exports::chooser::perillajamb_chooser_fits(words, list)
}
