// The hash next below a number, and the one next from a number up.
ghost use Rattle.std.specs.Prelude.{◌≡◌, ◌%◌, ◌^◌, ◌<◌, ◌≤◌};
ghost use Rattle.answers.specs.Refusals.{optional};
ghost use Rattle.hashes.specs.Next.{smallest_from};
ghost use Rattle.hashes.specs.Calls.{prev_number};
ghost use Rattle.hashes.specs.InnerSearch.{buckets_below, under, NextSet};
ghost use Rattle.hashes.specs.InnerBuckets.{place_of};

use crate::bits;
use crate::buckets::Bucket;

// Of the bits of the state, those of buckets below n.
fn bits_below(state: u64, n: u64) -> u64
    requires { 1 < n }
    ensures { result ≡ state % 2 ^ buckets_below n }
{
    state & (u64::MAX >> u64::leading_zeros(n - 1))
}

// The largest hash in the buckets below 2^k, where those are all below n: the first number of the highest of them that is
// set; 0 where none is.
fn highest_under(state: u64, k: u32, n: u64) -> u64
    requires { (k < 63) × (2 ^ k < n) }
    ensures { result ≡ under state n k }
{
    let rest = bits::remainder(state, k);
    if rest == 0 {
        return 0;
    }
    let bucket = Bucket::new(bits::highest(rest));
    bucket.first_number(bucket.opened(state))
}

// The largest hash below n; 0 for n = 0. Only the highest bucket below n can hold no hash below n, since each lower one
// lies below n whole. So there are at most 256 draws in the one, and one in the other.
pub(crate) fn largest_below(state: u64, n: u64) -> u64
    requires { n ≤ 2 ^ 63 }
    ensures { result ≡ prev_number state n }
{
    if n <= 1 {
        return 0;
    }
    let rest = bits_below(state, n);
    if rest == 0 {
        return 0;
    }
    let j = bits::highest(rest);
    let bucket = Bucket::new(j);
    let d = bucket.opened(state);
    let x = bucket.first_number(d);
    if x < n {
        return x;
    }
    // Worked out before the draws that may make it needless: the processor does both at once.
    let low = highest_under(state, j, n);
    bucket.later_below(d, n, low)
}

// The lowest bucket from 2^k up that is set, if any.
fn next_set(state: u64, k: u32) -> Option<Bucket>
    requires { k ≤ 63 }
    ensures { NextSet state k (place_of result) }
{
    // Bit 63 is set to end with.
    let place = k + bits::lowest((state % 0x8000_0000_0000_0000 + 0x8000_0000_0000_0000) >> k);
    if place < 63 {
        Some(Bucket::new(place))
    } else {
        None
    }
}

// The smallest hash of m or more, if any. Of the buckets that are opened only the first can hold none, since each higher one
// lies above m whole.
pub(crate) fn smallest_from(state: u64, m: u64) -> Option<u64>
    ensures { optional result ≡ smallest_from state m }
{
    if m == 0 {
        return Some(0);
    }
    let mut next = next_set(state, bits::highest(m));
    while let Some(bucket) = next {
        if let Some(x) = bucket.least_in(state, m) {
            return Some(x);
        }
        next = next_set(state, bucket.next_place());
    }
    None
}
