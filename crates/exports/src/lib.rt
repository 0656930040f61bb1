// The library for programs in C and Rust, which link it as `exports_c`: functions on numbers, with the promises of what they call.
#![tactic(auto)]

pub mod chooser;
mod digests;
mod parts;
pub mod permutations;
mod records;
pub mod reservoirs;
pub mod round;
pub mod slots;

ghost use Rattle.std.specs.Prelude.{◌≡◌, ℕ, ◌≤◌};
ghost use Rattle.words.specs.Words.{wrapping_mul, rotate_right, mix};
ghost use Rattle.layers.specs.Calls.{layer_apply};
ghost use Rattle.layers.specs.Inverses.{input_of, layer_invert};
ghost use Rattle.layers.specs.Layer.{size, layer};
ghost use Rattle.layers.specs.KeyedLayers.{keyed_layer};
ghost use Rattle.hashes.specs.Hashes.{feed};
ghost use Rattle.hashes.specs.Calls.{prev_call, next_call};
ghost use Rattle.hashes.specs.Walks.{fall, rise};
ghost use Rattle.exports.specs.Coded.{xors, layer_xors, input_xors, coded_hash, coded_number, falling_digest, rising_digest};

use answers::Refusal;
use hashes::{ConsistentHashIterator, ConsistentHashRevIterator, ConsistentHasher};
use layers::KeyedLayer;

pub fn perillajamb_wrapping_mul(a: u64, b: u64) -> u64
    ensures { result ≡ wrapping_mul a b }
{
    words::wrapping_mul(a, b)
}

pub fn perillajamb_rotate_right(x: u64, places: u32) -> u64
    ensures { result ≡ rotate_right x places }
{
    words::rotate_right(x, places)
}

pub fn perillajamb_splitmix64(v: u64) -> u64
    ensures { result ≡ mix v }
{
    words::splitmix64(v)
}

pub fn perillajamb_layer_apply(key: u64, layer: u32, x: u32) -> u64
    ensures { result ≡ coded_number (layer_apply layer key x) }
{
    parts::number(layers::layer_apply(layer, key, x))
}

// The xor of a layer's outputs at 0..n.
fn xor_outputs(f: KeyedLayer, n: u32) -> u64
    ensures { (j key : ℕ) → j ≤ 14 → f ≡ keyed_layer j key → result ≡ xors (layer j key) n }
{
    let mut sum: u64 = 0;
    for x in 0..n {
        sum ^= u64::from(f.apply(x));
    }
    sum
}

// What one layer applied in a loop over its inputs costs: their outputs, xored. Refusal 12 where there is no such layer or n is above
// its size.
pub fn perillajamb_layer_xors(key: u64, layer: u32, n: u32) -> u64
    ensures { result ≡ coded_number (layer_xors key layer n) }
{
    match KeyedLayer::new(layer, key) {
        Ok(f) if n <= f.size => xor_outputs(f, n),
        Ok(_) => parts::refused(Refusal::Misfit),
        Err(why) => parts::refused(why),
    }
}

// The input of a layer whose output is y.
pub fn perillajamb_layer_invert(key: u64, layer: u32, y: u32) -> u64
    ensures { result ≡ coded_number (layer_invert layer key y) }
{
    parts::number(layers::layer_invert(layer, key, y))
}

// The xor of a layer's inputs for the outputs 0..n.
fn xor_inputs(f: KeyedLayer, n: u32) -> u64
    ensures { (j key : ℕ) → j ≤ 14 → f ≡ keyed_layer j key → n ≤ size j → result ≡ xors (input_of j key) n }
{
    let mut sum: u64 = 0;
    for y in 0..n {
        sum ^= u64::from(f.invert(y));
    }
    sum
}

// The same of one layer's inverse: the inputs for its outputs 0..n, xored, with the same refusal.
pub fn perillajamb_input_xors(key: u64, layer: u32, n: u32) -> u64
    ensures { result ≡ coded_number (input_xors key layer n) }
{
    match KeyedLayer::new(layer, key) {
        Ok(f) if n <= f.size => xor_inputs(f, n),
        Ok(_) => parts::refused(Refusal::Misfit),
        Err(why) => parts::refused(why),
    }
}

pub fn perillajamb_seq_builder(state: u64, i: u64) -> u64
    ensures { result ≡ feed state i }
{
    hashes::seq_builder(state, i)
}

pub fn perillajamb_prev(state: u64, n: u64) -> u64
    ensures { result ≡ coded_hash (prev_call state n) }
{
    parts::hash(ConsistentHasher::new(state).prev(n))
}

pub fn perillajamb_into_prev(state: u64, n: u64) -> u64
    ensures { result ≡ coded_hash (prev_call state n) }
{
    parts::hash(ConsistentHasher::new(state).into_prev(n))
}

pub fn perillajamb_next(state: u64, n: u64) -> u64
    ensures { result ≡ coded_hash (next_call state n) }
{
    parts::hash(ConsistentHasher::new(state).next(n))
}

// A step of the falling walk: the largest hash below n. After a hash the walk's n is that hash.
pub fn perillajamb_falling_next(state: u64, n: u64) -> u64
    ensures { result ≡ coded_hash (fall (record { state = state; n = n })).answer }
{
    let mut walk = ConsistentHashRevIterator { state, n };
    parts::hash(walk.next())
}

// A step of the rising walk: the smallest hash of `low` or more. From n up, `low` is n first; after a hash it is one above that.
pub fn perillajamb_rising_next(state: u64, low: u64) -> u64
    ensures { result ≡ coded_hash (rise (record { state = state; low = low })).answer }
{
    let mut walk = ConsistentHashIterator { state, low };
    parts::hash(Ok(walk.next()))
}

// Every hash of the falling walk from n, as one number.
pub fn perillajamb_falling_digest(state: u64, n: u64) -> u64
    ensures { result ≡ coded_number (falling_digest state n) }
{
    match ConsistentHashRevIterator::new(n, state) {
        Ok(walk) => digests::falling_fed(walk) % 0x8000_0000_0000_0000,
        Err(why) => parts::refused(why),
    }
}

// Every hash of the rising walk from n, as one number.
pub fn perillajamb_rising_digest(state: u64, n: u64) -> u64
    ensures { result ≡ coded_number (rising_digest state n) }
{
    match ConsistentHashIterator::new(n, state) {
        Ok(walk) => digests::rising_fed(walk) % 0x8000_0000_0000_0000,
        Err(why) => parts::refused(why),
    }
}
