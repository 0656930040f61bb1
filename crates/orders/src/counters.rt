// The fifteen counters of an order: read, raised, and walked by.
ghost use Rattle.std.specs.Prelude.{◌≡◌, ℕ, ◌-◌, ◌^◌, ◌<◌, ◌≤◌, get_or, set};
ghost use Rattle.layers.specs.Layer.{size};
ghost use Rattle.orders.specs.Orders.{counter};
ghost use Rattle.orders.specs.OrderCalls.{within};
ghost use Rattle.orders.specs.InnerCounters.{raises, walk_of, stop_of};

use crate::layer::Layer;
use crate::outputs::Outputs;

// Where a walk through a layer stopped: the next input, and the number found, if one was.
#[derive(Clone, Copy)]
pub(crate) struct Walked {
    pub(crate) input: u32,
    pub(crate) number: Option<u32>,
}

// The counter of layer j.
pub(crate) fn counter_at(cs: &[u32; 15], j: Layer) -> u32
    ensures { result ≡ get_or cs.now j.number 0 }
{
    cs[j.number as usize]
}

// Sets the counter of layer j to x.
pub(crate) fn set_counter(cs: &mut [u32; 15], j: Layer, x: u32)
    ensures { cs.new ≡ set cs.old j.number x }
{
    cs[j.number as usize] = x;
}

// Whether no counter is above its layer's size.
pub(crate) fn within_sizes(cs: &[u32; 15]) -> bool
    ensures { result ≡ within cs.now }
{
    for number in 0..15 {
        let j = Layer { number };
        if j.size() < counter_at(cs, j) {
            return false;
        }
    }
    true
}

// Sets the counter of layer `top` to x, and makes those from `low` up to it one higher.
pub(crate) fn raise(cs: &mut [u32; 15], low: Layer, top: Layer, x: u32)
    requires above { low.number ≤ top.number }
    requires room { (i : ℕ) → i < top.number → counter cs.old i ≤ 2 ^ 30 }
    ensures { cs.new ≡ set (raises cs.old low.number (top.number - low.number)) top.number x }
{
    set_counter(cs, top, x);
    for number in low.number..top.number {
        let i = Layer { number };
        let higher = counter_at(cs, i) + 1;
        set_counter(cs, i, higher);
    }
}

// A layer from its input `from` on, up to its first output below n.
#[inline(always)]
pub(crate) fn walk(top: &Outputs, n: u32, from: u32) -> Walked
    requires { from ≤ size top.now.layer.number }
    ensures { result ≡ walk_of top.now.key top.now.layer.number n from }
{
    let size = top.layer.size();
    for x in from..size {
        let y = top.at_by_call(x);
        if y < n {
            return Walked {
                input: x + 1,
                number: Some(y),
            };
        }
    }
    Walked {
        input: size,
        number: None,
    }
}

// The next number of layer j, none where the descent meets a counter at its size. No counter is raised here: the number tells
// how far the descent went. One output of a layer is asked for, so to make a record of it would cost more than it saves.
pub(crate) fn stop(key: u64, j: Layer, cs: &[u32; 15]) -> Option<u32>
    ensures { result ≡ stop_of key j.number cs.now }
{
    let x = counter_at(cs, j);
    if j.size() <= x {
        return None;
    }
    let y = j.output(key, x);
    let quarter = j.quarter();
    if quarter <= y {
        return Some(y);
    }
    if j.number == 0 {
        return Some(0);
    }
    let below = Layer {
        number: j.number - 1,
    };
    stop(key, below, cs)
}
