// The round's calls by value: each takes the record, and answers what it says with the record after it.
// The lists are lent one by one, as C lends them.
ghost use Rattle.std.specs.Prelude.{◌≡◌, map, ◌≤◌, length};
ghost use Rattle.lists.specs.Lists.{written};
ghost use Rattle.answers.specs.Answers.{after};
ghost use Rattle.answers.specs.Refusals.{answer_of};
ghost use Rattle.orders.specs.ReservoirCalls.{answer_of_exchange, sample};
ghost use Rattle.rounds.specs.Rounds.{fitting, open_call, state, admit_call, join_call, withdraw_call, reservoir_of, map_of};
ghost use Rattle.rounds.specs.Plans.{plan_lists, plan_call, ScratchAfter};
ghost use Rattle.rounds.specs.InnerRounds.{begun, with_reservoir, with_map, idle_of, dealt_to};

use crate::sheets;
use crate::sheets::Sampled;
use answers::Refusal;
use choosers::node_map;
use choosers::node_map::ConsistentNodeMap;
use orders::consistent_reservoir::{ConsistentReservoir, Exchange};

// A round's numbers: those of its reservoir, and how many slots there are, deleted ones too.
// Document 01 asks for a record of numbers, which C keeps in words: the reservoir's fields stand in it, and are converted.
#[derive(Clone, Copy, Debug, PartialEq, Eq)]
pub struct Round {
    pub master_key: u64,
    pub k: u32,
    pub n: u32,
    pub j_max: u32,
    pub used: u32,
    pub total: u32,
}

// ---- the parts of a round

fn reservoir_of(r: Round) -> ConsistentReservoir
    ensures { result ≡ reservoir_of r }
{
    ConsistentReservoir {
        master_key: r.master_key,
        k: r.k,
        n: r.n,
        j_max: r.j_max,
        used: r.used,
    }
}

fn map_of(r: Round) -> ConsistentNodeMap
    ensures { result ≡ map_of r }
{
    ConsistentNodeMap { total: r.total }
}

fn begin(a: ConsistentReservoir) -> Round
    ensures { result ≡ begun a }
{
    Round {
        master_key: a.master_key,
        k: a.k,
        n: a.n,
        j_max: a.j_max,
        used: a.used,
        total: 0,
    }
}

fn with_reservoir(r: Round, a: ConsistentReservoir) -> Round
    ensures { result ≡ with_reservoir r a }
{
    Round {
        total: r.total,
        ..begin(a)
    }
}

fn with_map(r: Round, m: ConsistentNodeMap) -> Round
    ensures { result ≡ with_map r m }
{
    Round {
        total: m.total,
        ..r
    }
}

// Whether the record fits its list and its table: refusal 12 of the calls but open.
pub fn fits(r: Round, list: &[u32], table: &[u8]) -> bool
    ensures { result ≡ fitting (state r list.now table.now) }
{
    reservoir_of(r).fits(list) && map_of(r).fits(table)
}

// ---- open, admit, join, withdraw

// Open with k of n: refusals 1, 2, 3, 4.
pub fn open(key: u64, k: u32, n: u32, list: &mut [u32]) -> Result<Round, Refusal>
    ensures { after (answer_of result) list.new ≡ open_call key k n list.old }
{
    let a = ConsistentReservoir::new(k, n, key, list)?;
    Ok(begin(a))
}

// Admit: refusals 12, 4.
pub fn admitted(
    r: Round,
    list: &mut [u32],
    table: &[u8],
) -> (Round, Result<Option<Exchange>, Refusal>)
    ensures { after (answer_of_exchange result.1) (state result.0 list.new table.now) ≡ admit_call (state r list.old table.now) }
{
    if !map_of(r).fits(table) {
        return (r, Err(Refusal::Misfit));
    }
    let mut a = reservoir_of(r);
    let said = a.next(list);
    (with_reservoir(r, a), said)
}

// Join: refusals 12, 9.
pub fn joined(r: Round, list: &[u32], table: &mut [u8]) -> (Round, Result<u32, Refusal>)
    ensures { after (answer_of result.1) (state result.0 list.now table.new) ≡ join_call (state r list.now table.old) }
{
    if !reservoir_of(r).fits(list) {
        return (r, Err(Refusal::Misfit));
    }
    let mut m = map_of(r);
    let said = m.add(table);
    (with_map(r, m), said)
}

// Withdraw: refusals 12, 10.
pub fn withdrawn(
    r: Round,
    list: &[u32],
    table: &mut [u8],
    slot: u32,
) -> (Round, Result<(), Refusal>)
    ensures { after (answer_of result.1) (state result.0 list.now table.new) ≡ withdraw_call (state r list.now table.old) slot }
{
    if !reservoir_of(r).fits(list) {
        return (r, Err(Refusal::Misfit));
    }
    let mut m = map_of(r);
    let said = m.remove(table, slot);
    (with_map(r, m), said)
}

// ---- plan

// Whether no slot is active: refusal 12.
fn is_idle(r: Round, list: &[u32], table: &[u8]) -> Result<bool, Refusal>
    ensures { answer_of result ≡ idle_of (state r list.now table.now) }
{
    if !reservoir_of(r).fits(list) {
        return Err(Refusal::Misfit);
    }
    map_of(r).is_empty(table)
}

// The sampled locations with their slots, over the first k places of the two lists.
// By place: of what a loop over zipped `iter_mut`s wrote a proof knows nothing (tried).
fn deal(
    r: Round,
    list: &[u32],
    table: &[u8],
    locations: &mut [u32],
    terminals: &mut [u32],
    scratch: &mut [u64],
)
    requires { (r.used ≤ length list.now) × (length (sample (reservoir_of r) list.now) ≤ length locations.old) × (length (sample (reservoir_of r) list.now) ≤ length terminals.old) }
    ensures locations_after { locations.new ≡ written (sample (reservoir_of r) list.now) locations.old }
    ensures terminals_after { terminals.new ≡ written (map (dealt_to r.master_key r.total table.now (length scratch.old)) (sample (reservoir_of r) list.now)) terminals.old }
{
    for (place, x) in Sampled::new(r, list).enumerate() {
        locations[place] = x;
        terminals[place] = sheets::terminal(r.master_key, r.total, table, x, scratch);
    }
}

// For each place the sampled location and its slot: refusals 12, 4, 11.
pub fn plan(
    r: Round,
    list: &[u32],
    table: &[u8],
    locations: &mut [u32],
    terminals: &mut [u32],
    scratch: &mut [u64],
) -> Result<(), Refusal>
    ensures answer { after (answer_of result) (plan_lists locations.new terminals.new) ≡ plan_call (state r list.now table.now) locations.old terminals.old (length scratch.old) }
    ensures scratch_after { ScratchAfter result scratch.old scratch.new }
{
    let idle = is_idle(r, list, table)?;
    let k = r.k as usize;
    if locations.len() < k {
        return Err(Refusal::ShortMemory);
    }
    if terminals.len() < k {
        return Err(Refusal::ShortMemory);
    }
    if scratch.len() < node_map::scratch_places(table) {
        return Err(Refusal::ShortMemory);
    }
    if idle {
        return Err(Refusal::NoneActive);
    }
    deal(r, list, table, locations, terminals, scratch);
    Ok(())
}
