// An open, a list of calls and a plan in one call: what demand 3 speaks of, as code that runs.
ghost use Rattle.std.specs.Prelude.{◌≡◌, true, map, ◌+◌, ◌*◌, ◌≤◌, length};
ghost use Rattle.answers.specs.Answers.{map_answer, after};
ghost use Rattle.answers.specs.Answers as Answers;
ghost use Rattle.lists.specs.Lists.{every, written};
ghost use Rattle.answers.specs.Refusals.{answer_of};
ghost use Rattle.orders.specs.ReservoirCalls.{answer_of_exchange};
ghost use Rattle.rounds.specs.Rounds.{state};
ghost use Rattle.rounds.specs.Ledgers.{exchanged};
ghost use Rattle.rounds.specs.Histories.{slot_said, nothing_said, after_all, all_said};
ghost use Rattle.rounds.specs.Calls.{known, call_of, as_call};
ghost use Rattle.rounds.specs.Replays.{coded, coded_all, replay_memory, run_of, replay_call, ScratchRun, ReplayScratch, Replayed};
ghost use Rattle.rounds.specs.InnerReplays.{placed_at, stepped, step_of};

use crate::calls::Call;
use crate::round;
use crate::round::Round;
use answers::Refusal;
use orders::consistent_reservoir::{ConsistentReservoir, Exchange};

// What a call says: the refusal's number or 0, how many values there are, and two places for them.
// Four words, as C reads a replay's answers, and one function for each kind of answer.
fn of_exchange(said: Result<Option<Exchange>, Refusal>) -> [u32; 4]
    ensures { result ≡ coded (map_answer exchanged (answer_of_exchange said)) }
{
    match said {
        Ok(Some(e)) => [0, 2, e.enters, e.leaves],
        Ok(None) => [0; 4],
        Err(why) => [why.number(), 0, 0, 0],
    }
}

fn of_slot(said: Result<u32, Refusal>) -> [u32; 4]
    ensures { result ≡ coded (map_answer slot_said (answer_of said)) }
{
    match said {
        Ok(slot) => [0, 1, slot, 0],
        Err(why) => [why.number(), 0, 0, 0],
    }
}

fn of_nothing(said: Result<(), Refusal>) -> [u32; 4]
    ensures { result ≡ coded (map_answer nothing_said (answer_of said)) }
{
    match said {
        Ok(()) => [0; 4],
        Err(why) => [why.number(), 0, 0, 0],
    }
}

// One call.
fn step(call: Call, round: &mut Round, list: &mut [u32], table: &mut [u8]) -> [u32; 4]
    ensures { stepped result (state round.new list.new table.new) ≡ step_of (as_call call) (state round.old list.old table.old) }
{
    match call {
        Call::Admit => of_exchange(round.admit(list, table)),
        Call::Join => of_slot(round.join(list, table)),
        Call::Withdraw(slot) => of_nothing(round.withdraw(list, table, slot)),
    }
}

// An answer over the four places from p on.
fn put(answers: &mut [u32], p: usize, words: [u32; 4])
    requires { p + 4 ≤ length answers.old }
    ensures { answers.new ≡ placed_at p words answers.old }
{
    answers[p..p + 4].copy_from_slice(&words);
}

// The calls, each on what the one before left.
fn run_calls(
    round: &mut Round,
    calls: &[u64],
    list: &mut [u32],
    table: &mut [u8],
    answers: &mut [u32],
)
    requires room { 4 * length calls.now ≤ length answers.old }
    requires known { every known calls.now ≡ true }
    ensures state_after { state round.new list.new table.new ≡ after_all (state round.old list.old table.old) (map call_of calls.now) }
    ensures answers_after { answers.new ≡ written (coded_all (all_said (state round.old list.old table.old) (map call_of calls.now))) answers.old }
{
    for (i, code) in calls.iter().enumerate() {
        let call = Call::try_from(*code).unwrap();
        let words = step(call, round, list, table);
        put(answers, 4 * i, words);
    }
}

// The calls, and the plan after them.
fn run(
    r: Round,
    calls: &[u64],
    list: &mut [u32],
    table: &mut [u8],
    answers: &mut [u32],
    locations: &mut [u32],
    terminals: &mut [u32],
    scratch: &mut [u64],
)
    requires room { 4 * length calls.now + 4 ≤ length answers.old }
    requires known { every known calls.now ≡ true }
    ensures answer { after (Answers.result tt) (replay_memory list.new table.new answers.new locations.new terminals.new) ≡ run_of (state r list.old table.old) (map call_of calls.now) answers.old locations.old terminals.old (length scratch.old) }
    ensures scratch_run { ScratchRun (length calls.now) answers.new scratch.old scratch.new }
{
    let mut round = r;
    run_calls(&mut round, calls, list, table, answers);
    let planned = round::plan(round, list, table, locations, terminals, scratch);
    put(answers, 4 * calls.len(), of_nothing(planned));
}

// Whether each number is a call.
fn all_known(calls: &[u64]) -> bool
    ensures { result ≡ every known calls.now }
{
    calls.iter().all(|code| Call::try_from(*code).is_ok())
}

// Opens a round, makes the calls on it, and plans: refusals 12 for a number that is no call, then open's, 4 also for too short a list
// of answers. From then on it is not refused: the answers of the calls and of the plan stand in the list of answers.
pub fn replay(
    key: u64,
    k: u32,
    n: u32,
    calls: &[u64],
    list: &mut [u32],
    table: &mut [u8],
    answers: &mut [u32],
    locations: &mut [u32],
    terminals: &mut [u32],
    scratch: &mut [u64],
) -> Result<(), Refusal>
    ensures answer { after (answer_of result) (replay_memory list.new table.new answers.new locations.new terminals.new) ≡ replay_call key k n calls.now list.old table.old answers.old locations.old terminals.old (length scratch.old) }
    ensures replayed { Replayed result key k n calls.now (length table.old) (length scratch.old) answers.new locations.new terminals.new }
    ensures replay_scratch { ReplayScratch result (length calls.now) answers.new scratch.old scratch.new }
{
    if !all_known(calls) {
        return Err(Refusal::Misfit);
    }
    if answers.len() / 4 <= calls.len() {
        return Err(ConsistentReservoir::short_refusal(k, n));
    }
    let r = round::open(key, k, n, list)?;
    run(
        r, calls, list, table, answers, locations, terminals, scratch,
    );
    Ok(())
}
