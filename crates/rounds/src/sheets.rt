// The plan one sheet at a time, for loops over its places: the sampled locations in order, and the slot of each.
ghost use Rattle.std.specs.Prelude.{◌≡◌, ◌≤◌, length};
ghost use Rattle.std.specs.Iterator.{YieldsFirst, item_count};
ghost use Rattle.orders.specs.ReservoirCalls.{sample};
ghost use Rattle.rounds.specs.Rounds.{reservoir_of};
ghost use Rattle.rounds.specs.InnerRounds.{still_sampled, dealt_to};

use crate::locations;
use crate::round::Round;
use choosers::node_map;
use std::slice::Iter;

// The sampled locations of a round, from some place on.
#[derive(Drop)]
pub(crate) struct Sampled<'a> {
    rest: Iter<'a, u32>,
    n: u32,
}

impl<'a> Sampled<'a> {
    // Those of a record that fits its list, from place 0 on.
    pub(crate) fn new(r: Round, list: &'a [u32]) -> Self
        requires { r.used ≤ length list.now }
        ensures { still_sampled result ≡ sample (reservoir_of r) list.now }
    {
        Sampled {
            rest: list[..r.used as usize].iter(),
            n: r.n,
        }
    }
}

impl<'a> Iterator for Sampled<'a> {
    type Item = u32;

    ghost next_gives = { YieldsFirst still_sampled };

    ghost remaining = { item_count still_sampled };

    fn next(&mut self) -> Option<u32> {
        while let Some(x) = self.rest.next() {
            if *x < self.n {
                return Some(*x);
            }
        }
        None
    }
}

// The slot of a location, 0 where the lookup finds none.
pub(crate) fn terminal(
    key: u64,
    total: u32,
    table: &[u8],
    location: u32,
    scratch: &mut [u64],
) -> u32
    ensures { result ≡ dealt_to key total table.now (length scratch.old) location }
{
    let state = locations::location_state(key, location);
    node_map::first_active(total, table, state, scratch).unwrap_or(0)
}
