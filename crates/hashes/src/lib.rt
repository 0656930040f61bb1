// The hashes of a state (document 01, "Hashes"): the largest below a number, the smallest from a number up, and both walks.
#![tactic(auto)]

mod bits;
mod buckets;
mod search;

ghost use Rattle.std.specs.Prelude.{◌≡◌};
ghost use Rattle.answers.specs.Answers as Answers;
ghost use Rattle.answers.specs.Answers.{after};
ghost use Rattle.answers.specs.Refusals.{answer_of, optional, answer_of_option};
ghost use Rattle.hashes.specs.Hashes.{feed};
ghost use Rattle.hashes.specs.Calls.{prev_call, next_call};
ghost use Rattle.hashes.specs.Walks.{falling_from, fall, rising_from, rise};

use answers::Refusal;

// The state of the i-th of many sequences.
pub fn seq_builder(state: u64, i: u64) -> u64
    ensures { result ≡ feed state i }
{
    buckets::fed(state, i)
}

// The hashes of one state.
#[derive(Clone, Copy, Debug, PartialEq, Eq)]
pub struct ConsistentHasher {
    pub state: u64,
}

impl ConsistentHasher {
    // The largest n.
    pub const N_LIMIT: u64 = 0x4000_0000_0000_0000;

    pub fn new(state: u64) -> ConsistentHasher
        ensures { result ≡ record { state = state } }
    {
        ConsistentHasher { state }
    }

    // The largest hash below n; refusal 1 for an n above the limit.
    pub fn prev(self, n: u64) -> Result<Option<u64>, Refusal>
        ensures { answer_of_option result ≡ prev_call self.state n }
    {
        if Self::N_LIMIT < n {
            return Err(Refusal::NAboveLimit);
        }
        if n == 0 {
            return Ok(None);
        }
        Ok(Some(search::largest_below(self.state, n)))
    }

    // The same. In the original it uses the hasher up.
    pub fn into_prev(self, n: u64) -> Result<Option<u64>, Refusal>
        ensures { answer_of_option result ≡ prev_call self.state n }
    {
        self.prev(n)
    }

    // The smallest hash of n or more, with which the rising walk from n begins; refusal 1 for an n above the limit.
    pub fn next(self, n: u64) -> Result<Option<u64>, Refusal>
        ensures { answer_of_option result ≡ next_call self.state n }
    {
        if Self::N_LIMIT < n {
            return Err(Refusal::NAboveLimit);
        }
        Ok(search::smallest_from(self.state, n))
    }
}

// The falling walk: every hash below n, one a call, the largest first. Afterwards n is the hash that was given.
#[derive(Clone, Copy, Debug, PartialEq, Eq)]
pub struct ConsistentHashRevIterator {
    pub state: u64,
    pub n: u64,
}

impl ConsistentHashRevIterator {
    // The largest n.
    pub const N_LIMIT: u64 = ConsistentHasher::N_LIMIT;

    // The walk from n down; refusal 1 for an n above the limit.
    pub fn new(n: u64, state: u64) -> Result<ConsistentHashRevIterator, Refusal>
        ensures { answer_of result ≡ falling_from n state }
    {
        if Self::N_LIMIT < n {
            return Err(Refusal::NAboveLimit);
        }
        Ok(ConsistentHashRevIterator { state, n })
    }

    // The next hash; refusal 1 for a walk whose n is above the limit.
    pub fn next(&mut self) -> Result<Option<u64>, Refusal>
        ensures { after (answer_of_option result) self.new ≡ fall self.old }
    {
        if Self::N_LIMIT < self.n {
            return Err(Refusal::NAboveLimit);
        }
        if self.n == 0 {
            return Ok(None);
        }
        self.n = search::largest_below(self.state, self.n);
        Ok(Some(self.n))
    }
}

// The rising walk: every hash of `low` or more, one a call, the smallest first. Afterwards `low` is one above the hash that
// was given.
#[derive(Clone, Copy, Debug, PartialEq, Eq)]
pub struct ConsistentHashIterator {
    pub state: u64,
    pub low: u64,
}

impl ConsistentHashIterator {
    // The largest n.
    pub const N_LIMIT: u64 = ConsistentHasher::N_LIMIT;

    // The walk from n up, n itself included; refusal 1 for an n above the limit.
    pub fn new(n: u64, state: u64) -> Result<ConsistentHashIterator, Refusal>
        ensures { answer_of result ≡ rising_from n state }
    {
        if Self::N_LIMIT < n {
            return Err(Refusal::NAboveLimit);
        }
        Ok(ConsistentHashIterator { state, low: n })
    }

    // The next hash.
    pub fn next(&mut self) -> Option<u64>
        ensures { after (Answers.result (optional result)) self.new ≡ rise self.old }
    {
        let x = search::smallest_from(self.state, self.low)?;
        self.low = x + 1;
        Some(x)
    }
}
