// The round's calls on a lent record: each makes the call by value, stores the record after it, and answers.
ghost use Rattle.std.specs.Prelude.{◌≡◌};
ghost use Rattle.answers.specs.Answers.{after};
ghost use Rattle.answers.specs.Refusals.{answer_of};
ghost use Rattle.orders.specs.ReservoirCalls.{answer_of_exchange};
ghost use Rattle.rounds.specs.Rounds.{state, admit_call, join_call, withdraw_call};

use crate::round;
use crate::round::Round;
use answers::Refusal;
use orders::consistent_reservoir::Exchange;

impl Round {
    // Admit: refusals 12, 4.
    pub fn admit(&mut self, list: &mut [u32], table: &[u8]) -> Result<Option<Exchange>, Refusal>
        ensures { after (answer_of_exchange result) (state self.new list.new table.now) ≡ admit_call (state self.old list.old table.now) }
    {
        let (admitted, said) = round::admitted(*self, list, table);
        *self = admitted;
        said
    }

    // Join: refusals 12, 9.
    pub fn join(&mut self, list: &[u32], table: &mut [u8]) -> Result<u32, Refusal>
        ensures { after (answer_of result) (state self.new list.now table.new) ≡ join_call (state self.old list.now table.old) }
    {
        let (joined, said) = round::joined(*self, list, table);
        *self = joined;
        said
    }

    // Withdraw: refusals 12, 10.
    pub fn withdraw(&mut self, list: &[u32], table: &mut [u8], slot: u32) -> Result<(), Refusal>
        ensures { after (answer_of result) (state self.new list.now table.new) ≡ withdraw_call (state self.old list.now table.old) slot }
    {
        let (withdrawn, said) = round::withdrawn(*self, list, table, slot);
        *self = withdrawn;
        said
    }
}
