// Answers as the one number that crosses, and the numbers of two words. Each kind of value has a `match` of its own: one over a
// closure that gives the value's number would be called in as many lines, and its promise would speak of the closure.
ghost use Rattle.std.specs.Prelude.{◌≡◌, ◌+◌, ◌*◌, ◌/◌, ◌%◌, ◌^◌, ◌<◌, OnOk};
ghost use Rattle.answers.specs.Refusals.{number, answer_of, answer_of_option};
ghost use Rattle.orders.specs.ReservoirCalls.{answer_of_exchange};
ghost use Rattle.exports.specs.Coded.{truth, coded_by, coded_done, coded_number, coded_hash, coded_truth};
ghost use Rattle.exports.specs.Reservoirs.{exchange_number};

use answers::Refusal;
use orders::consistent_reservoir::Exchange;

// No number that a call answers is so large: it stands for none, and a refusal's number is added to it.
const NONE: u64 = 0x8000_0000_0000_0000;

pub(crate) fn refused(why: Refusal) -> u64
    ensures { result ≡ 2 ^ 63 + number why }
{
    NONE + u64::from(why.number())
}

// A call with nothing to say but that it was done.
pub(crate) fn done(said: Result<(), Refusal>) -> u64
    ensures { result ≡ coded_done (answer_of said) }
{
    match said {
        Ok(()) => 0,
        Err(why) => refused(why),
    }
}

pub(crate) fn wide_number(said: Result<u64, Refusal>) -> u64
    ensures { result ≡ coded_number (answer_of said) }
{
    match said {
        Ok(x) => x,
        Err(why) => refused(why),
    }
}

// The same of a number of 32 bits. Over `Into<u64>` the promise would have to speak of what the bound gives.
pub(crate) fn number(said: Result<u32, Refusal>) -> u64
    ensures value { result ≡ coded_number (answer_of said) }
    ensures no_refusal { OnOk said (result < 2 ^ 32) }
{
    match said {
        Ok(x) => u64::from(x),
        Err(why) => refused(why),
    }
}

pub(crate) fn hash(said: Result<Option<u64>, Refusal>) -> u64
    ensures { result ≡ coded_hash (answer_of_option said) }
{
    match said {
        Ok(Some(x)) => x,
        Ok(None) => NONE,
        Err(why) => refused(why),
    }
}

// The same of a number of 32 bits.
pub(crate) fn number_or_none(said: Result<Option<u32>, Refusal>) -> u64
    ensures { result ≡ coded_hash (answer_of_option said) }
{
    match said {
        Ok(Some(x)) => u64::from(x),
        Ok(None) => NONE,
        Err(why) => refused(why),
    }
}

pub(crate) fn yes_or_no(said: Result<bool, Refusal>) -> u64
    ensures { result ≡ coded_truth (answer_of said) }
{
    match said {
        Ok(b) => yes(b),
        Err(why) => refused(why),
    }
}

pub(crate) fn exchange(said: Result<Option<Exchange>, Refusal>) -> u64
    ensures { result ≡ coded_by exchange_number (answer_of_exchange said) }
{
    match said {
        Ok(Some(e)) => joined(e.leaves, e.enters),
        Ok(None) => NONE,
        Err(why) => refused(why),
    }
}

// Two words as one number.
pub(crate) fn joined(low: u32, high: u32) -> u64
    ensures { result ≡ high * 2 ^ 32 + low }
{
    u64::from(high) * 0x1_0000_0000 + u64::from(low)
}

// A key as two words, the low one first.
pub(crate) fn parted(key: u64) -> (u32, u32)
    ensures { result ≡ (key % 2 ^ 32, key / 2 ^ 32) }
{
    ((key % 0x1_0000_0000) as u32, (key / 0x1_0000_0000) as u32)
}

// Yes as 1, no as 0.
pub(crate) fn yes(b: bool) -> u64
    ensures { result ≡ truth b }
{
    u64::from(b)
}
