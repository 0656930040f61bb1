// The numbers of a choice order, for a lookup.
ghost use Rattle.std.specs.Prelude.{◌≡◌, ◌+◌, ◌-◌, ◌*◌, ◌^◌, ◌<◌, ◌≤◌, length, get_or};
ghost use Rattle.choosers.specs.Choosers.{Q};
ghost use Rattle.choosers.specs.InnerHolding.{low, Beside, Stands};

use crate::samples;
use crate::samples::Holding;

// A place holds a sample in its low half and, in its high half, its sequence's own value below that sample or at it, so that prev is
// asked only where that value is used up.
pub(crate) struct WithOwn;

impl Holding for WithOwn {
    ghost sample = { low };

    ghost keeps = { Beside };

    ghost limit = { 2 ^ 32 };

    fn sample(held: u64) -> u64 {
        held % 0x1_0000_0000
    }

    fn own(state: u64, i: u64, held: u64, m: u64) -> u64 {
        let v = held / 0x1_0000_0000;
        if v < m {
            v
        } else {
            samples::get_sample(state, i, m)
        }
    }

    fn hold(v: u64, b: u64) -> u64 {
        v * 0x1_0000_0000 + b
    }
}

// The next number of Q(n), from those before it: a scratch of one place more.
pub(crate) fn next_number(state: u64, n: u64, scratch: &mut [u64]) -> u64
    requires some { 0 < length scratch.old }
    requires few { (length scratch.old ≤ n) × (n < 2 ^ 32) }
    requires stands { Stands state scratch.old (length scratch.old - 1) n }
    ensures number { result ≡ get_or (Q state n) (length scratch.old - 1) 0 }
    ensures stands { Stands state scratch.new (length scratch.new) n }
{
    let i = samples::grow::<WithOwn>(state, n, scratch);
    WithOwn::sample(scratch[i])
}
