// The library for programs in C and Rust, as they link it. Each function is that of the same name of `exports`, with the same
// promises; tools/promises holds the two to each other.
#![tactic(auto)]

pub mod chooser;
pub mod permutations;
pub mod reservoirs;
pub mod round;
pub mod slots;

ghost use Rattle.std.specs.Prelude.{◌≡◌};
ghost use Rattle.words.specs.Words.{wrapping_mul, rotate_right, mix};
ghost use Rattle.layers.specs.Calls.{layer_apply};
ghost use Rattle.layers.specs.Inverses.{layer_invert};
ghost use Rattle.layers.specs.Layer.{layer};
ghost use Rattle.hashes.specs.Hashes.{feed};
ghost use Rattle.hashes.specs.Calls.{prev_call, next_call};
ghost use Rattle.hashes.specs.Walks.{fall, rise};
ghost use Rattle.exports.specs.Coded.{layer_xors, input_xors, coded_hash, coded_number, falling_digest, rising_digest};

#[unsafe(no_mangle)]
pub extern "C" fn perillajamb_wrapping_mul(a: u64, b: u64) -> u64
    ensures { result ≡ wrapping_mul a b }
{
    exports::perillajamb_wrapping_mul(a, b)
}

#[unsafe(no_mangle)]
pub extern "C" fn perillajamb_rotate_right(x: u64, places: u32) -> u64
    ensures { result ≡ rotate_right x places }
{
    exports::perillajamb_rotate_right(x, places)
}

#[unsafe(no_mangle)]
pub extern "C" fn perillajamb_splitmix64(v: u64) -> u64
    ensures { result ≡ mix v }
{
    exports::perillajamb_splitmix64(v)
}

#[unsafe(no_mangle)]
pub extern "C" fn perillajamb_layer_apply(key: u64, layer: u32, x: u32) -> u64
    ensures { result ≡ coded_number (layer_apply layer key x) }
{
    exports::perillajamb_layer_apply(key, layer, x)
}

// What one layer applied in a loop over its inputs costs: their outputs, xored. Refusal 12 where there is no such layer or n is above
// its size.
#[unsafe(no_mangle)]
pub extern "C" fn perillajamb_layer_xors(key: u64, layer: u32, n: u32) -> u64
    ensures { result ≡ coded_number (layer_xors key layer n) }
{
    exports::perillajamb_layer_xors(key, layer, n)
}

// The input of a layer whose output is y.
#[unsafe(no_mangle)]
pub extern "C" fn perillajamb_layer_invert(key: u64, layer: u32, y: u32) -> u64
    ensures { result ≡ coded_number (layer_invert layer key y) }
{
    exports::perillajamb_layer_invert(key, layer, y)
}

// The same of one layer's inverse: the inputs for its outputs 0..n, xored, with the same refusal.
#[unsafe(no_mangle)]
pub extern "C" fn perillajamb_input_xors(key: u64, layer: u32, n: u32) -> u64
    ensures { result ≡ coded_number (input_xors key layer n) }
{
    exports::perillajamb_input_xors(key, layer, n)
}

#[unsafe(no_mangle)]
pub extern "C" fn perillajamb_seq_builder(state: u64, i: u64) -> u64
    ensures { result ≡ feed state i }
{
    exports::perillajamb_seq_builder(state, i)
}

#[unsafe(no_mangle)]
pub extern "C" fn perillajamb_prev(state: u64, n: u64) -> u64
    ensures { result ≡ coded_hash (prev_call state n) }
{
    exports::perillajamb_prev(state, n)
}

#[unsafe(no_mangle)]
pub extern "C" fn perillajamb_into_prev(state: u64, n: u64) -> u64
    ensures { result ≡ coded_hash (prev_call state n) }
{
    exports::perillajamb_into_prev(state, n)
}

#[unsafe(no_mangle)]
pub extern "C" fn perillajamb_next(state: u64, n: u64) -> u64
    ensures { result ≡ coded_hash (next_call state n) }
{
    exports::perillajamb_next(state, n)
}

// A step of the falling walk: the largest hash below n. After a hash the walk's n is that hash.
#[unsafe(no_mangle)]
pub extern "C" fn perillajamb_falling_next(state: u64, n: u64) -> u64
    ensures { result ≡ coded_hash (fall (record { state = state; n = n })).answer }
{
    exports::perillajamb_falling_next(state, n)
}

// A step of the rising walk: the smallest hash of `low` or more. From n up, `low` is n first; after a hash it is one above that.
#[unsafe(no_mangle)]
pub extern "C" fn perillajamb_rising_next(state: u64, low: u64) -> u64
    ensures { result ≡ coded_hash (rise (record { state = state; low = low })).answer }
{
    exports::perillajamb_rising_next(state, low)
}

// Every hash of the falling walk from n, as one number.
#[unsafe(no_mangle)]
pub extern "C" fn perillajamb_falling_digest(state: u64, n: u64) -> u64
    ensures { result ≡ coded_number (falling_digest state n) }
{
    exports::perillajamb_falling_digest(state, n)
}

// Every hash of the rising walk from n, as one number.
#[unsafe(no_mangle)]
pub extern "C" fn perillajamb_rising_digest(state: u64, n: u64) -> u64
    ensures { result ≡ coded_number (rising_digest state n) }
{
    exports::perillajamb_rising_digest(state, n)
}
