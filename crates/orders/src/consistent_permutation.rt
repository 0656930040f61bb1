// The order of document 01: each number below n once, by counters through the layers.
ghost use Rattle.std.specs.Prelude.{◌≡◌, true, ◌-◌, ◌^◌, ◌<◌, ◌≤◌};
ghost use Rattle.answers.specs.Refusals.{answer_of, answer_of_option};
ghost use Rattle.layers.specs.Layer.{size};
ghost use Rattle.orders.specs.Orders.{layer_of, counter};
ghost use Rattle.answers.specs.Answers.{after};
ghost use Rattle.orders.specs.OrderCalls.{new_call, started_call, within, first_of, next_call, tested};
ghost use Rattle.orders.specs.InnerCounters.{lower_step};

use crate::counters;
use crate::layer::Layer;
use crate::outputs::Outputs;
use answers::Refusal;

// An order and how far it was walked: a counter for each layer, the next input of that layer.
#[derive(Clone, Copy, Debug, PartialEq, Eq)]
pub struct ConsistentPermutation {
    pub master_key: u64,
    pub n: u32,
    pub counters: [u32; 15],
}

impl ConsistentPermutation {
    // The largest n.
    pub const N_LIMIT: u32 = 0x4000_0000;

    // The order of the numbers below n, from its start. n above 2^30: refused 1.
    pub fn new(n: u32, key: u64) -> Result<Self, Refusal>
        ensures { answer_of result ≡ new_call n key }
    {
        if Self::N_LIMIT < n {
            return Err(Refusal::NAboveLimit);
        }
        Ok(ConsistentPermutation {
            master_key: key,
            n,
            counters: [0; 15],
        })
    }

    // The same, for whoever keeps an order in any case: beside a refusal stands the empty order under the key.
    pub fn started(n: u32, key: u64) -> (Self, Result<(), Refusal>)
        ensures { after (answer_of result.1) result.0 ≡ started_call n key }
    {
        let empty = ConsistentPermutation {
            master_key: key,
            n: 0,
            counters: [0; 15],
        };
        if Self::N_LIMIT < n {
            return (empty, Err(Refusal::NAboveLimit));
        }
        (ConsistentPermutation { n, ..empty }, Ok(()))
    }

    // The next number, which moves the order on. A counter above its size, or met at it in a descent: refused 12; n above 2^30:
    // refused 1. A refusal leaves the order as it was. A call of its own: put into a caller, it would work on a copy of the counters.
    #[inline(never)]
    pub fn next(&mut self) -> Result<Option<u32>, Refusal>
        ensures { after (answer_of_option result) self.new ≡ next_call self.old }
    {
        self.tested()?;
        if self.n == 0 {
            return Ok(None);
        }
        let top = self.top();
        self.first(&top)
    }

    // The refusals of `next` that are known before the first output: 12, 1.
    pub(crate) fn tested(&self) -> Result<(), Refusal>
        ensures { answer_of result ≡ tested self.now }
    {
        if !counters::within_sizes(&self.counters) {
            return Err(Refusal::Misfit);
        }
        if Self::N_LIMIT < self.n {
            return Err(Refusal::NAboveLimit);
        }
        Ok(())
    }

    // The record of the layer of n.
    pub(crate) fn top(&self) -> Outputs
        requires { self.now.n ≤ 2 ^ 30 }
        ensures layer { result.layer.number ≡ layer_of self.now.n }
        ensures key { result.key ≡ self.now.master_key }
    {
        Outputs::new(Layer::of(self.n), self.master_key)
    }

    // The next number below n, n above 0, of an order that passes the tests, by the record of the layer of n.
    #[inline(always)]
    pub(crate) fn first(&mut self, top: &Outputs) -> Result<Option<u32>, Refusal>
        requires layer { top.now.layer.number ≡ layer_of self.old.n }
        requires key { top.now.key ≡ self.old.master_key }
        requires some { 0 < self.old.n }
        requires limit { self.old.n ≤ 2 ^ 30 }
        requires fit { within self.old.counters ≡ true }
        ensures { after (answer_of_option result) self.new ≡ first_of self.old top.now.layer.number (size top.now.layer.number - counter self.old.counters top.now.layer.number) self.old.counters }
    {
        let j = top.layer;
        let from = counters::counter_at(&self.counters, j);
        let w = counters::walk(top, self.n, from);
        let Some(y) = w.number else {
            counters::set_counter(&mut self.counters, j, w.input);
            return Ok(None);
        };
        if j.quarter() <= y || j.number == 0 {
            counters::set_counter(&mut self.counters, j, w.input);
            return Ok(Some(y));
        }
        self.lower(j, w.input)
    }

    // The top layer gave an output 00 and stands at the input x: the number is the next of the layer below.
    fn lower(&mut self, top: Layer, x: u32) -> Result<Option<u32>, Refusal>
        requires above { 0 < top.number }
        requires fit { within self.old.counters ≡ true }
        ensures { after (answer_of_option result) self.new ≡ lower_step self.old (top.number - 1) x }
    {
        let below = Layer {
            number: top.number - 1,
        };
        let Some(y) = counters::stop(self.master_key, below, &self.counters) else {
            return Err(Refusal::Misfit);
        };
        counters::raise(&mut self.counters, Layer::of(y + 1), top, x);
        Ok(Some(y))
    }

    // Whether no counter is above its layer's size.
    pub fn fits(self) -> bool
        ensures { result ≡ within self.counters }
    {
        counters::within_sizes(&self.counters)
    }

    pub fn n(self) -> u32
        ensures { result ≡ self.n }
    {
        self.n
    }
}
