// What a location's slot goes by.
ghost use Rattle.std.specs.Prelude.{◌≡◌};
ghost use Rattle.rounds.specs.Locations.{state_of};

use choosers::node_map;

// The state of a location: the one that its slot is looked up by.
pub fn location_state(key: u64, location: u32) -> u64
    ensures { result ≡ state_of key location }
{
    node_map::fed_state(key, u64::from(location))
}
