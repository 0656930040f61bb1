// One bucket of a state: its draws and the numbers that they give.
ghost use Rattle.std.specs.Prelude.{◌≡◌, cond, ◌+◌, ◌%◌, ◌^◌, ◌<◌};
ghost use Rattle.answers.specs.Refusals.{optional};
ghost use Rattle.hashes.specs.Hashes.{feed, draw, draws, later_numbers};
ghost use Rattle.hashes.specs.InnerSearch.{first_later, least_of, least_from, numbers_of};
ghost use Rattle.lists.specs.Lists.{below};

use crate::bits;

// The state with a number fed to it.
pub(crate) fn fed(state: u64, v: u64) -> u64
    ensures { result ≡ feed state v }
{
    words::splitmix64(state ^ v)
}

// The draw after d.
fn drawn(d: u64) -> u64
    ensures { result ≡ draw d }
{
    fed(d, 54387634019)
}

// What a later draw of bucket b says if its number x is below n: below b it ended the bucket, so that the answer is `low`.
fn or_low(x: u64, b: u64, low: u64) -> u64
    ensures { result ≡ cond (below b x) low x }
{
    if x < b { low } else { x }
}

// The first of two numbers where it is below n, else the second.
fn first_of(x: u64, y: u64, n: u64) -> u64
    ensures { result ≡ cond (below n x) x y }
{
    if x < n { x } else { y }
}

// The bucket from 2^place up. Bit 63 of a state stands for none.
#[derive(Clone, Copy)]
pub(crate) struct Bucket {
    place: u32,
    ghost in_range: { place < 63 },
}

impl Bucket {
    pub(crate) fn new(place: u32) -> Self
        requires { place < 63 }
        ensures { result.place ≡ place }
    {
        Bucket { place }
    }

    // The place of the next bucket up, 63 where this is the last.
    pub(crate) fn next_place(self) -> u32
        ensures { result ≡ self.place + 1 }
    {
        self.place + 1
    }

    // The first draw.
    pub(crate) fn opened(self, state: u64) -> u64
        ensures { result ≡ draw (feed state (2 ^ self.place)) }
    {
        drawn(fed(state, bits::power(self.place)))
    }

    // The number that the first draw d gives.
    pub(crate) fn first_number(self, d: u64) -> u64
        ensures { result ≡ 2 ^ self.place + d % 2 ^ self.place }
    {
        bits::power(self.place) + bits::remainder(d, self.place)
    }

    // The number that a later draw gives.
    fn later_number(self, d: u64) -> u64
        ensures { result ≡ d % 2 ^ (self.place + 1) }
    {
        bits::remainder(d, self.place + 1)
    }

    // The first number below n that the next `count` draws after d0 give, none of them the first; `low` where none does. One
    // test a draw: n is above 2^place, so that a draw of n or more neither is the answer nor ends the bucket.
    fn more_below(self, d0: u64, n: u64, low: u64, count: u32) -> u64
        requires { 2 ^ self.place < n }
        ensures { result ≡ first_later n self.place low count d0 }
    {
        let mut d = d0;
        for _ in 0..count {
            d = drawn(d);
            let x = self.later_number(d);
            if x < n {
                return or_low(x, bits::power(self.place), low);
            }
        }
        low
    }

    // The same for all later draws, d0 being the first of 256. Most buckets end with one of the two that come without a loop.
    pub(crate) fn later_below(self, d0: u64, n: u64, low: u64) -> u64
        requires { 2 ^ self.place < n }
        ensures { result ≡ first_later n self.place low 255 d0 }
    {
        let e = drawn(d0);
        let d = drawn(e);
        let x = first_of(self.later_number(e), self.later_number(d), n);
        if x < n {
            return or_low(x, bits::power(self.place), low);
        }
        self.more_below(d, n, low, 253)
    }

    // The least of x and the numbers that the draws after d0, the first, give before the first below m. One test a draw:
    // whether it ends the bucket or is below m, what came before is the answer.
    fn least_from(self, d0: u64, m: u64, x: u64) -> u64
        ensures { result ≡ least_of m x (later_numbers (2 ^ self.place) (draws 255 d0)) }
    {
        let stop = bits::power(self.place).max(m);
        let mut d = d0;
        let mut least = x;
        for _ in 0..255u32 {
            d = drawn(d);
            let y = self.later_number(d);
            if y < stop {
                return least;
            }
            least = least.min(y);
        }
        least
    }

    // The smallest hash of m or more, if any.
    pub(crate) fn least_in(self, state: u64, m: u64) -> Option<u64>
        ensures { optional result ≡ least_from m (numbers_of state self.place) }
    {
        let d = self.opened(state);
        let x = self.first_number(d);
        if x < m {
            return None;
        }
        Some(self.least_from(d, m, x))
    }
}
