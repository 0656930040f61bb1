// Words of 64 bits: a product that wraps, a rotation, and document 01's mix.
#![tactic(auto)]

ghost use Rattle.std.specs.Prelude.{◌≡◌};
ghost use Rattle.words.specs.Words.{wrapping_mul, rotate_right, mix};

// The product modulo 2^64: document 01's helper.
pub fn wrapping_mul(a: u64, b: u64) -> u64
    ensures { result ≡ wrapping_mul a b }
{
    a.wrapping_mul(b)
}

// x rotated right by any number of places, which count modulo 64.
pub fn rotate_right(x: u64, places: u32) -> u64
    ensures { result ≡ rotate_right x places }
{
    x.rotate_right(places)
}

// Document 01's mix.
pub fn splitmix64(v: u64) -> u64
    ensures { result ≡ mix v }
{
    let z = v.wrapping_add(0x9E37_79B9_7F4A_7C15);
    let y = wrapping_mul(z ^ (z >> 30), 0xBF58_476D_1CE4_E5B9);
    let x = wrapping_mul(y ^ (y >> 27), 0x94D0_49BB_1331_11EB);
    x ^ (x >> 31)
}
