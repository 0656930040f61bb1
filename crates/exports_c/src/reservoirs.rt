// Reservoirs.
ghost use Rattle.std.specs.Prelude.{◌≡◌};
ghost use Rattle.exports.specs.Crossings.{crossed, words_list};
ghost use Rattle.exports.specs.Reservoirs.{new_crossed, next_crossed, grow_crossed, sample_crossed, fits_crossed};

// Open with k of n.
#[unsafe(no_mangle)]
pub extern "C" fn perillajamb_reservoir_new(
    key: u64,
    k: u32,
    n: u32,
    words: &mut [u32],
    list: &mut [u32],
) -> u64
    ensures { crossed result (words_list words.new list.new) ≡ new_crossed key k n words.old list.old }
{
    exports::reservoirs::perillajamb_reservoir_new(key, k, n, words, list)
}

// Admit.
#[unsafe(no_mangle)]
pub extern "C" fn perillajamb_reservoir_next(words: &mut [u32], list: &mut [u32]) -> u64
    ensures { crossed result (words_list words.new list.new) ≡ next_crossed words.old list.old }
{
    exports::reservoirs::perillajamb_reservoir_next(words, list)
}

// The step to the next layer.
#[unsafe(no_mangle)]
pub extern "C" fn perillajamb_reservoir_grow_layer(words: &mut [u32], list: &mut [u32]) -> u64
    ensures { crossed result (words_list words.new list.new) ≡ grow_crossed words.old list.old }
{
    exports::reservoirs::perillajamb_reservoir_grow_layer(words, list)
}

// The sample, in the first k places of `out`.
#[unsafe(no_mangle)]
pub extern "C" fn perillajamb_reservoir_sample(words: &[u32], list: &[u32], out: &mut [u32]) -> u64
    ensures { crossed result out.new ≡ sample_crossed words.now list.now out.old }
{
    exports::reservoirs::perillajamb_reservoir_sample(words, list, out)
}

// Whether the record fits its list: 1 or 0.
#[unsafe(no_mangle)]
pub extern "C" fn perillajamb_reservoir_fits(words: &[u32], list: &[u32]) -> u64
    ensures { result ≡ fits_crossed words.now list.now }
{
    exports::reservoirs::perillajamb_reservoir_fits(words, list)
}
