// The place of a location in the order, as document 02, §1 has it: from the location's own layer upwards, with no list of the order.
ghost use Rattle.std.specs.Prelude.{◌≡◌, ◌-◌, ◌≤◌, ◌<◌};
ghost use Rattle.answers.specs.Refusals.{answer_of};
ghost use Rattle.layers.specs.Layer.{size};
ghost use Rattle.orders.specs.InnerPasses.{climb};
ghost use Rattle.orders.specs.Places.{place_call};

use crate::consistent_permutation::ConsistentPermutation;
use crate::layer::Layer;
use crate::outputs::Outputs;
use answers::Refusal;

// The place in what layer `top` gives of a number that has place t in what layer `own` gives.
fn climbed(key: u64, own: Layer, top: Layer, place: u32) -> u32
    requires up { own.number ≤ top.number }
    requires fit { place < size own.number }
    ensures within { result < size top.number }
    ensures place { result ≡ climb key own.number place (top.number - own.number) }
{
    let mut t = place;
    for number in own.number..top.number {
        let above = Layer { number: number + 1 };
        t = Outputs::new(above, key).inputs_to_zero(t + 1) - 1;
    }
    t
}

// The place of a location in the order of the numbers below n, counted from 0. n above 2^30: refused 1; the location not below n:
// refused 13.
pub fn place(key: u64, n: u32, location: u32) -> Result<u32, Refusal>
    ensures { answer_of result ≡ place_call key n location }
{
    if ConsistentPermutation::N_LIMIT < n {
        return Err(Refusal::NAboveLimit);
    }
    if n <= location {
        return Err(Refusal::LocationNotBelowN);
    }
    let own = Layer::of(location + 1);
    let top = Layer::of(n);
    let t = climbed(key, own, top, own.input(key, location));
    if n == top.size() {
        return Ok(t);
    }
    Ok(Outputs::new(top, key).count_below(n, 0, t))
}
