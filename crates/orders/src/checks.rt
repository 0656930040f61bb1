// A record against its list (refusal 12), by one pass that also finds the smallest waiting number.
ghost use Rattle.std.specs.Prelude.{◌≡◌, ◌^◌, ◌<◌, ◌≤◌, length};
ghost use Rattle.orders.specs.InnerPasses.{survey_of, check_of};

use crate::consistent_reservoir::ConsistentReservoir;
use crate::layer::Layer;

// What one pass over the listed numbers finds: how many are below n, the smallest not below n, the or of all. The smallest is at
// most 2^30: there the minimum starts, since an Option would be no plainer, and a branch in each turn.
#[derive(Clone, Copy)]
pub(crate) struct Survey {
    pub(crate) count: u32,
    pub(crate) low: u32,
    pub(crate) high: u32,
}

// Each turn is without a branch, so that the compiler takes several at once: of the numbers less n, around 2^32, those below n
// come last.
fn survey_list(list: &[u32], n: u32) -> Survey
    requires few { length list.now < 4294967296 }
    requires limit { n ≤ 4 ^ 15 }
    ensures { result ≡ survey_of n list.now }
{
    let mut count = 0;
    let mut near = 0x4000_0000 - n;
    let mut high = 0;
    for x in list {
        count += u32::from(*x < n);
        near = near.min(x.wrapping_sub(n));
        high |= *x;
    }
    Survey {
        count,
        low: near + n,
        high,
    }
}

// The smallest listed number not below n, at most 2^30, if the record fits its list: exactly k listed numbers below n, none of
// the layer's size or more, the last below n.
pub(crate) fn checked(r: ConsistentReservoir, list: &[u32]) -> Option<u32>
    ensures { result ≡ check_of r list.now }
{
    let layer = Layer::new(r.j_max)?;
    if r.k == 0 || r.n < r.k || layer.size() < r.n || list.len() < r.used as usize {
        return None;
    }
    let listed = &list[..r.used as usize];
    let s = survey_list(listed, r.n);
    if s.count != r.k || layer.size() <= s.high || r.n <= listed[listed.len() - 1] {
        return None;
    }
    Some(s.low)
}
