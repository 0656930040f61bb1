// Why a call is refused: the refusals of the documents, with their numbers.
#![tactic(auto)]

ghost use Rattle.std.specs.Prelude.{◌≡◌};
ghost use Rattle.answers.specs.Answers as Answers;
ghost use Rattle.answers.specs.Answers.{refusal};
ghost use Rattle.answers.specs.Refusals.{number, answer_of};
ghost use Rattle.answers.specs.Making.{by_sizes, short_refusal};

use std::error::Error;
use std::fmt;

// One of them, in the order of their numbers: 1 to 12 are document 01's, 13 document 02's.
#[derive(Clone, Copy, Debug, PartialEq, Eq, Hash)]
pub enum Refusal {
    NAboveLimit,
    KIsZero,
    KAboveN,
    ShortMemory,
    CannotShrink,
    AllChosen,
    NumbersWait,
    TopLayer,
    NoSlotLeft,
    SlotNotActive,
    NoneActive,
    Misfit,
    LocationNotBelowN,
}

impl Refusal {
    // The documents' number.
    pub fn number(self) -> u32
        ensures { result ≡ number self }
    {
        match self {
            Refusal::NAboveLimit => 1,
            Refusal::KIsZero => 2,
            Refusal::KAboveN => 3,
            Refusal::ShortMemory => 4,
            Refusal::CannotShrink => 5,
            Refusal::AllChosen => 6,
            Refusal::NumbersWait => 7,
            Refusal::TopLayer => 8,
            Refusal::NoSlotLeft => 9,
            Refusal::SlotNotActive => 10,
            Refusal::NoneActive => 11,
            Refusal::Misfit => 12,
            Refusal::LocationNotBelowN => 13,
        }
    }
}

// The tests of k and n of a call that makes a record: refusals 1, 2, 3.
pub fn test_sizes(limit: u64, least: u64, k: u64, n: u64) -> Result<(), Refusal>
    ensures { answer_of result ≡ by_sizes limit least k n refusal (Answers.result tt) }
{
    if limit < n {
        return Err(Refusal::NAboveLimit);
    }
    if k < least {
        return Err(Refusal::KIsZero);
    }
    if n < k {
        return Err(Refusal::KAboveN);
    }
    Ok(())
}

// The refusal of such a call where lent memory is too short.
pub fn short_refusal(limit: u64, least: u64, k: u64, n: u64) -> Refusal
    ensures { number result ≡ short_refusal limit least k n }
{
    match test_sizes(limit, least, k, n) {
        Ok(()) => Refusal::ShortMemory,
        Err(why) => why,
    }
}

impl fmt::Display for Refusal {
    ghost use Rattle.std.specs.Prelude.{Some};
    ghost use Rattle.answers.specs.Texts.{refusal_text};

    ghost output = { λ why. Some (refusal_text why) };

    fn fmt<W: fmt::Write>(&self, f: &mut fmt::Formatter<W>) -> fmt::Result {
        f.write_str(match self {
            Refusal::NAboveLimit => "n is above the limit",
            Refusal::KIsZero => "k is 0",
            Refusal::KAboveN => "k is above n",
            Refusal::ShortMemory => "lent memory is too short",
            Refusal::CannotShrink => "no smaller n has k samples",
            Refusal::AllChosen => "all n are chosen",
            Refusal::NumbersWait => "listed numbers still wait for an admit",
            Refusal::TopLayer => "there is no higher layer",
            Refusal::NoSlotLeft => "no slot is left",
            Refusal::SlotNotActive => "the slot is not active",
            Refusal::NoneActive => "no slot is active",
            Refusal::Misfit => "the record does not fit its memory, or the input has no known form",
            Refusal::LocationNotBelowN => "the location is not below n",
        })
    }
}

impl Error for Refusal {}
