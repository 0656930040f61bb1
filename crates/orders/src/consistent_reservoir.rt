// The reservoir of document 01: k of n locations, and which come in as n grows. The locations stand in a list that is lent to
// each call.
ghost use Rattle.std.specs.Prelude.{◌≡◌, ◌+◌, ◌^◌, ◌<◌, ◌≤◌, true};
ghost use Rattle.answers.specs.Answers.{map_answer, after};
ghost use Rattle.answers.specs.Making.{short_refusal};
ghost use Rattle.answers.specs.Answers as Answers;
ghost use Rattle.answers.specs.Refusals.{number, answer_of};
ghost use Rattle.orders.specs.Reservoirs.{grown};
ghost use Rattle.orders.specs.ReservoirCalls.{key_of, j_of, listed, fitting, reservoir_state, open_call, answer_of_exchange, exchange, admit_call, grow_to, grow_layer_call, sample_call};
ghost use Rattle.orders.specs.InnerPasses.{wide_of, low_of, exchanged};

use crate::layer::Layer;
use crate::outputs::Outputs;
use crate::scans::Wide;
use crate::{checks, fills, scans};
use answers::Refusal;

// A reservoir's numbers: the key, k, n, the layer and how many places of the list are in use. The list is lent, since there is
// no heap, and C keeps these numbers in words; so the layer is any number here, and that record and list fit each other is tested
// by each call, and asked for by the functions that it uses.
#[derive(Clone, Copy, Debug, PartialEq, Eq)]
pub struct ConsistentReservoir {
    pub master_key: u64,
    pub k: u32,
    pub n: u32,
    pub j_max: u32,
    pub used: u32,
}

// What an admit exchanges: the location that comes in and the one that goes out.
#[derive(Clone, Copy, Debug, PartialEq, Eq)]
pub struct Exchange {
    pub enters: u32,
    pub leaves: u32,
}

impl ConsistentReservoir {
    // The largest n.
    pub const N_LIMIT: u32 = 0x4000_0000;

    // The highest layer.
    pub const LAYER_LIMIT: u32 = 14;

    // Open with k of n: refusals 1, 2, 3, 4.
    pub fn new(k: u32, n: u32, key: u64, list: &mut [u32]) -> Result<Self, Refusal>
        ensures { after (answer_of result) list.new ≡ open_call k n key list.old }
    {
        answers::test_sizes(u64::from(Self::N_LIMIT), 1, u64::from(k), u64::from(n))?;
        // The used length is at least k, so that a list too short for k is known before the scan.
        if list.len() < (k as usize) {
            return Err(Refusal::ShortMemory);
        }
        let layer = Layer::of(n);
        let used = Outputs::new(layer, key).scan(n, k).inputs;
        if list.len() < (used as usize) {
            return Err(Refusal::ShortMemory);
        }
        fills::lay(layer.number + 1, key, &mut list[..used as usize]);
        Ok(ConsistentReservoir {
            master_key: key,
            k,
            n,
            j_max: layer.number,
            used,
        })
    }

    // The refusal of an open with k of n for which some memory is too short: 1, 2, 3, else 4.
    pub fn short_refusal(k: u32, n: u32) -> Refusal
        ensures { number result ≡ short_refusal (2 ^ 30) 1 k n }
    {
        answers::short_refusal(u64::from(Self::N_LIMIT), 1, u64::from(k), u64::from(n))
    }

    // Whether the record fits its list: refusal 12 of the other calls.
    pub fn fits(self, list: &[u32]) -> bool
        ensures { result ≡ fitting self list.now }
    {
        checks::checked(self, list).is_some()
    }

    // Admit: refusals 12, 4.
    pub fn next(&mut self, list: &mut [u32]) -> Result<Option<Exchange>, Refusal>
        ensures { after (answer_of_exchange result) (reservoir_state self.new list.new) ≡ admit_call self.old list.old }
    {
        let Some(low) = checks::checked(*self, list) else {
            return Err(Refusal::Misfit);
        };
        if self.k < self.used {
            return Ok(Some(self.admit_here(list, low)));
        }
        let layer = Layer { number: self.j_max };
        let Some(wide) = scans::wider_than(layer, self.master_key, self.k) else {
            self.j_max = Self::LAYER_LIMIT;
            return Ok(None);
        };
        let exchange = self.admit_above(wide, list)?;
        Ok(Some(exchange))
    }

    // An admit that does not grow: v comes in, and nothing is written.
    fn admit_here(&mut self, list: &[u32], v: u32) -> Exchange
        requires fit { fitting self.old list.now ≡ true }
        requires more { self.old.k < self.old.used }
        requires low { v ≡ low_of self.old.n (listed self.old list.now) }
        ensures { after (Answers.result (exchanged result)) (reservoir_state self.new list.now) ≡ exchange self.old (j_of self.old) (listed self.old list.now) list.now }
    {
        let last = self.used as usize - 1;
        self.used = scans::standing(&list[..last], v, self.k);
        self.n = v + 1;
        Exchange {
            enters: v,
            leaves: list[last],
        }
    }

    // An admit from the list of a higher layer: the end first, then the fill from the back.
    fn admit_above(&mut self, w: Wide, list: &mut [u32]) -> Result<Exchange, Refusal>
        requires fit { fitting self.old list.old ≡ true }
        requires full { self.old.used ≤ self.old.k }
        requires wide { Some w ≡ wide_of (key_of self.old) self.old.k (j_of self.old) }
        ensures { after (map_answer exchanged (answer_of result)) (reservoir_state self.new list.new) ≡ exchange self.old w.layer (grown (key_of self.old) w.layer self.old.k (listed self.old list.old)) list.old }
    {
        let outputs = Outputs::new(Layer { number: w.layer }, self.master_key);
        let enters = w.low;
        let last = self.k - 1;
        let end = outputs.standing(enters, self.k, w.inputs - 1);
        if list.len() < (end as usize) {
            return Err(Refusal::ShortMemory);
        }
        let leaves = list[last as usize];
        fills::cover(outputs, last, &mut list[..end as usize]);
        self.n = enters + 1;
        self.j_max = w.layer;
        self.used = end;
        Ok(Exchange { enters, leaves })
    }

    // The step to the next layer: refusals 12, 7, 8, 4.
    pub fn grow_layer(&mut self, list: &mut [u32]) -> Result<(), Refusal>
        ensures { after (answer_of result) (reservoir_state self.new list.new) ≡ grow_layer_call self.old list.old }
    {
        if !self.fits(list) {
            return Err(Refusal::Misfit);
        }
        if self.k < self.used {
            return Err(Refusal::NumbersWait);
        }
        if self.j_max == Self::LAYER_LIMIT {
            return Err(Refusal::TopLayer);
        }
        self.raise(list)
    }

    // The list of the next layer.
    fn raise(&mut self, list: &mut [u32]) -> Result<(), Refusal>
        requires fit { fitting self.old list.old ≡ true }
        requires full { self.old.used ≤ self.old.k }
        requires layer { j_of self.old < 14 }
        ensures { after (answer_of result) (reservoir_state self.new list.new) ≡ grow_to self.old (grown (key_of self.old) (j_of self.old + 1) self.old.k (listed self.old list.old)) list.old }
    {
        let layer = Layer {
            number: self.j_max + 1,
        };
        let outputs = Outputs::new(layer, self.master_key);
        let inputs = outputs.scan(layer.quarter(), self.k).inputs;
        if list.len() < (inputs as usize) {
            return Err(Refusal::ShortMemory);
        }
        fills::cover(outputs, self.k, &mut list[..inputs as usize]);
        self.j_max = layer.number;
        self.used = inputs;
        Ok(())
    }

    // The sample, in the first k places of another list: refusals 12, 4.
    pub fn reservoir(self, list: &[u32], out: &mut [u32]) -> Result<(), Refusal>
        ensures { after (answer_of result) out.new ≡ sample_call self list.now out.old }
    {
        if !self.fits(list) {
            return Err(Refusal::Misfit);
        }
        if out.len() < (self.k as usize) {
            return Err(Refusal::ShortMemory);
        }
        fills::gather(&list[..self.used as usize], self.n, out);
        Ok(())
    }

    pub fn n(self) -> u32
        ensures { result ≡ self.n }
    {
        self.n
    }

    pub fn k(self) -> u32
        ensures { result ≡ self.k }
    {
        self.k
    }
}
