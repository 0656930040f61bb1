// The chooser of document 01: k of n numbers that stay as k and n change. The samples stand in a list that is lent to each call,
// since the project has no heap.
ghost use Rattle.std.specs.Prelude.{◌≡◌, ◌≢◌};
ghost use Rattle.answers.specs.Refusals.{answer_of, answer_of_option};
ghost use Rattle.answers.specs.Answers.{after, result};
ghost use Rattle.choosers.specs.ChooserCalls.{chooser_state, new_call, new_with_k_call, fitting, grow_call, next_call, shrink_call, Consistent, ConsistentNext};
ghost use Rattle.choosers.specs.InnerChoosers.{tests, grown};

use crate::samples;
use crate::samples::Alone;
use answers::Refusal;
use hashes::ConsistentHasher;

// A chooser's numbers: the state, n, and how many places of the list hold samples.
#[derive(Clone, Copy, Debug, PartialEq, Eq)]
pub struct ConsistentChooseKHasher {
    pub state: u64,
    pub n: u64,
    pub k: u64,
}

impl ConsistentChooseKHasher {
    // The largest n.
    pub const N_LIMIT: u64 = ConsistentHasher::N_LIMIT;

    // No sample of 0..n yet: refused where n is above the limit.
    pub fn new(state: u64, n: u64) -> Result<Self, Refusal>
        ensures { answer_of result ≡ new_call state n }
    {
        if Self::N_LIMIT < n {
            return Err(Refusal::NAboveLimit);
        }
        Ok(ConsistentChooseKHasher { state, n, k: 0 })
    }

    // The k samples of 0..n, in the first k places: refused where n is above the limit, k above n, or the list too short.
    pub fn new_with_k(state: u64, n: u64, k: u64, list: &mut [u64]) -> Result<Self, Refusal>
        ensures { after (answer_of result) list.new ≡ new_with_k_call state n k list.old }
    {
        answers::test_sizes(Self::N_LIMIT, 0, k, n)?;
        if (list.len() as u64) < k {
            return Err(Refusal::ShortMemory);
        }
        samples::choose(state, n, &mut list[..k as usize]);
        Ok(ConsistentChooseKHasher { state, n, k })
    }

    // Whether the record fits its list: the other calls refuse one that does not.
    pub fn fits(self, list: &[u64]) -> bool
        ensures { result ≡ fitting self list.now }
    {
        self.k <= list.len() as u64 && samples::rising(&list[..self.k as usize], self.n)
    }

    // The tests that every call on a record begins with.
    fn test(self, list: &[u64]) -> Result<(), Refusal>
        ensures { answer_of result ≡ tests self list.now }
    {
        if !self.fits(list) {
            return Err(Refusal::Misfit);
        }
        if Self::N_LIMIT < self.n {
            return Err(Refusal::NAboveLimit);
        }
        Ok(())
    }

    // One sample more and its index, where not all n are there: refused where the list has no place for it.
    fn grow(&mut self, list: &mut [u64]) -> Result<usize, Refusal>
        requires tested { tests self.old list.old ≡ result tt }
        requires more { self.old.k ≢ self.old.n }
        ensures { after (answer_of result) (chooser_state self.new list.new) ≡ grown self.old list.old }
    {
        let k = self.k as usize;
        if list.len() <= k {
            return Err(Refusal::ShortMemory);
        }
        let i = samples::grow::<Alone>(self.state, self.n, &mut list[..=k]);
        self.k += 1;
        Ok(i)
    }

    // One sample more, and the index where it came in: refused where all n are there, or the list has no place for it.
    pub fn grow_k(&mut self, list: &mut [u64]) -> Result<u64, Refusal>
        ensures answer { after (answer_of result) (chooser_state self.new list.new) ≡ grow_call self.old list.old }
        ensures consistent { Consistent self.old list.old (after (answer_of result) (chooser_state self.new list.new)) }
    {
        self.test(list)?;
        if self.k == self.n {
            return Err(Refusal::AllChosen);
        }
        Ok(self.grow(list)? as u64)
    }

    // The next number of the choice order, none where all n are there: refused where the list has no place for it.
    pub fn next(&mut self, list: &mut [u64]) -> Result<Option<u64>, Refusal>
        ensures answer { after (answer_of_option result) (chooser_state self.new list.new) ≡ next_call self.old list.old }
        ensures consistent_next { ConsistentNext self.old list.old (after (answer_of_option result) (chooser_state self.new list.new)) }
    {
        self.test(list)?;
        if self.k == self.n {
            return Ok(None);
        }
        let i = self.grow(list)?;
        Ok(Some(list[i]))
    }

    // n becomes the last sample, and the answer is the index where another came in: refused where no smaller n has k samples.
    pub fn shrink_n(&mut self, list: &mut [u64]) -> Result<u64, Refusal>
        ensures answer { after (answer_of result) (chooser_state self.new list.new) ≡ shrink_call self.old list.old }
        ensures consistent { Consistent self.old list.old (after (answer_of result) (chooser_state self.new list.new)) }
    {
        self.test(list)?;
        let k = self.k as usize;
        if k == 0 || self.n <= self.k || list[k - 1] < self.k {
            return Err(Refusal::CannotShrink);
        }
        let last = list[k - 1];
        let i = samples::lower::<Alone>(self.state, &mut list[..k], last);
        self.n = last;
        Ok(i as u64)
    }

    pub fn n(self) -> u64
        ensures { result ≡ self.n }
    {
        self.n
    }

    pub fn k(self) -> u64
        ensures { result ≡ self.k }
    {
        self.k
    }
}
