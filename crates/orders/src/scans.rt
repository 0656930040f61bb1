// Layers looked through without writing: lengths and the numbers that an admit brings in are known before the first write.
// Each turn of a pass is without a branch on what it finds, so that the compiler takes several at once.
ghost use Rattle.std.specs.Prelude.{◌≡◌, ◌+◌, ◌-◌, ◌≤◌, ◌<◌, length};
ghost use Rattle.lists.specs.Lists.{count_below, standing};
ghost use Rattle.layers.specs.Layer.{size};
ghost use Rattle.orders.specs.Reservoirs.{counts, outputs, L};
ghost use Rattle.orders.specs.InnerPasses.{outs, scan_of, rank_of, wide_of, inputs_from};

use crate::layer::Layer;
use crate::outputs::Outputs;

// The inputs of a layer up to and with its k-th output below a bound, and the smallest output not below it, at most 2^30: there
// the minimum starts, since an Option would be no plainer, and a branch in each turn.
#[derive(Clone, Copy)]
pub(crate) struct Scan {
    pub(crate) inputs: u32,
    pub(crate) low: u32,
}

// Where a stretch of inputs begins, and which of the outputs looked for from there on is meant.
#[derive(Clone, Copy)]
struct Stretch {
    input: u32,
    left: u32,
}

// The layer that a growth goes to, as the record will have it, and what a scan by top bits 00 finds in it.
#[derive(Clone, Copy)]
pub(crate) struct Wide {
    pub(crate) layer: u32,
    pub(crate) inputs: u32,
    pub(crate) low: u32,
}

impl Outputs {
    // Up to and with the k-th output below the bound.
    pub(crate) fn scan(self, bound: u32, k: u32) -> Scan
        ensures { result ≡ scan_of self.key self.layer.number bound k }
    {
        let size = self.layer.size();
        let mut left = k;
        let mut low: u32 = 0x4000_0000;
        for x in 0..size {
            if left == 0 {
                return Scan { inputs: x, low };
            }
            let y = self.at(x);
            left -= u32::from(y < bound);
            low = if y < bound { low } else { low.min(y) };
        }
        Scan { inputs: size, low }
    }

    // How many outputs are below the bound, of the inputs from `from` up to u.
    pub(crate) fn count_below(self, bound: u32, from: u32, u: u32) -> u32
        requires { from ≤ u }
        ensures { result ≡ count_below bound (outs self.key self.layer.number from (u - from)) }
    {
        let mut t = 0;
        for x in from..u {
            t += u32::from(self.at(x) < bound);
        }
        t
    }

    // How many of the first u outputs have top bits 00.
    pub(crate) fn zeros(self, u: u32) -> u32
        ensures { result ≡ rank_of self.key self.layer.number u }
    {
        self.count_below(self.layer.quarter(), 0, u)
    }

    // In which stretch of inputs the k-th output with top bits 00 is: stretches before it are counted whole.
    fn stretch(self, k: u32) -> Stretch
        ensures within { result.input ≤ size self.layer.number }
        ensures inputs { inputs_from self.key self.layer.number result.input result.left ≡ L self.key self.layer.number k }
    {
        let quarter = self.layer.quarter();
        let count = self.layer.size() / 256;
        let mut left = k;
        for s in 0..count {
            let zeros = self.count_below(quarter, 256 * s, 256 * s + 256);
            if left <= zeros {
                return Stretch {
                    input: 256 * s,
                    left,
                };
            }
            left -= zeros;
        }
        Stretch {
            input: 256 * count,
            left,
        }
    }

    // The inputs up to and with the k-th output with top bits 00.
    pub(crate) fn inputs_to_zero(self, k: u32) -> u32
        ensures { result ≡ L self.key self.layer.number k }
    {
        let quarter = self.layer.quarter();
        let size = self.layer.size();
        let at = self.stretch(k);
        let mut left = at.left;
        for x in at.input..size {
            if left == 0 {
                return x;
            }
            left -= u32::from(self.at(x) < quarter);
        }
        size
    }

    // How many of the first u outputs stand when last ones above v are dropped while more than k stand.
    pub(crate) fn standing(self, v: u32, k: u32, u: u32) -> u32
        requires few { k ≤ u }
        requires fit { u ≤ size self.layer.number }
        ensures { result ≡ standing (counts (v + 1)) k (outputs self.key self.layer.number) u }
    {
        for p in (k..u).rev() {
            if self.at(p) <= v {
                return p + 1;
            }
        }
        k
    }
}

// The same of listed numbers. One function for both was tried, over a closure that gives the p-th number and a ghost list of
// them: the proof of its callers did not close, in the part that Rattle writes. A trait with two impls is longer than a loop.
pub(crate) fn standing(list: &[u32], v: u32, k: u32) -> u32
    requires few { k ≤ length list.now }
    requires fit { length list.now < 4294967296 }
    ensures { result ≡ standing (counts (v + 1)) k list.now (length list.now) }
{
    for p in (k..list.len() as u32).rev() {
        if list[p as usize] <= v {
            return p + 1;
        }
    }
    k
}

// The first layer above j with more than k inputs up to its k-th output 00.
pub(crate) fn wider_than(j: Layer, key: u64, k: u32) -> Option<Wide>
    ensures { result ≡ wide_of key k j.number }
{
    for number in j.number + 1..15 {
        let layer = Layer { number };
        let s = Outputs::new(layer, key).scan(layer.quarter(), k);
        if k < s.inputs {
            return Some(Wide {
                layer: number,
                inputs: s.inputs,
                low: s.low,
            });
        }
    }
    None
}
