// Whole walks, every hash of which is fed to one state.
ghost use Rattle.std.specs.Prelude.{◌≡◌, ◌^◌, ◌≤◌};
ghost use Rattle.hashes.specs.Walks.{hashes_below, hashes_from};
ghost use Rattle.exports.specs.Coded.{fed_all};

use hashes::{ConsistentHashIterator, ConsistentHashRevIterator};

pub(crate) fn falling_fed(from: ConsistentHashRevIterator) -> u64
    requires { from.n ≤ 2 ^ 62 }
    ensures { result ≡ fed_all 0 (hashes_below from.state from.n) }
{
    let mut walk = from;
    let mut d = 0;
    while let Some(x) = walk.next().unwrap() {
        d = hashes::seq_builder(d, x);
    }
    d
}

// A trait for both walks would be longer than these two loops: only one of them can be refused.
pub(crate) fn rising_fed(from: ConsistentHashIterator) -> u64
    ensures { result ≡ fed_all 0 (hashes_from from.state from.low) }
{
    let mut walk = from;
    let mut d = 0;
    while let Some(x) = walk.next() {
        d = hashes::seq_builder(d, x);
    }
    d
}
