// Single bits of a word: powers of two, remainders by them, the highest and the lowest bit that is set.
ghost use Rattle.std.specs.Prelude.{◌≡◌, suc, ◌%◌, ◌/◌, ◌^◌, ◌<◌, ◌≤◌};

// The power of two 2^j.
pub(crate) fn power(j: u32) -> u64
    requires { j < 64 }
    ensures { result ≡ 2 ^ j }
{
    1u64 << j
}

// The remainder of x by 2^j, as a mask.
pub(crate) fn remainder(x: u64, j: u32) -> u64
    requires { j < 64 }
    ensures { result ≡ x % 2 ^ j }
{
    x & ((1u64 << j) - 1)
}

// The place of the highest bit: by leading zeros, as document 01 asks, and not by `ilog2`.
pub(crate) fn highest(x: u64) -> u32
    requires { 0 < x }
    ensures { (2 ^ result ≤ x) × (x < 2 ^ suc result) × (result < 64) }
{
    63 - u64::leading_zeros(x)
}

// The place of the lowest bit: by trailing zeros, as document 01 asks.
pub(crate) fn lowest(x: u64) -> u32
    requires { 0 < x }
    ensures { (x % 2 ^ result ≡ 0) × (x / 2 ^ result % 2 ≡ 1) × (result < 64) }
{
    u64::trailing_zeros(x)
}
