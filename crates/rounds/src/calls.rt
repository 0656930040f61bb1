// Calls on a round as numbers, for lists of calls that are given to code.
ghost use Rattle.std.specs.Prelude.{◌≡◌};
ghost use Rattle.rounds.specs.Calls.{number_of, as_call, Reads};

use answers::Refusal;

// A call on a round. Its number is 0 for an admit, 1 for a join, 2^32 + s for the withdraw of slot s.
#[derive(Clone, Copy, Debug, PartialEq, Eq)]
pub enum Call {
    Admit,
    Join,
    Withdraw(u32),
}

impl Call {
    // The number of the call.
    pub fn number(self) -> u64
        ensures { result ≡ number_of (as_call self) }
    {
        match self {
            Call::Admit => 0,
            Call::Join => 1,
            Call::Withdraw(slot) => 0x1_0000_0000 + u64::from(slot),
        }
    }
}

// The call that a number is: refusal 12 where it is none.
impl TryFrom<u64> for Call {
    type Error = Refusal;

    ghost try_from_gives = { Reads };

    fn try_from(code: u64) -> Result<Call, Refusal> {
        if code == 0 {
            return Ok(Call::Admit);
        }
        if code == 1 {
            return Ok(Call::Join);
        }
        if code / 0x1_0000_0000 != 1 {
            return Err(Refusal::Misfit);
        }
        Ok(Call::Withdraw((code % 0x1_0000_0000) as u32))
    }
}
