// A line taken apart.
ghost use Rattle.std.specs.Prelude.{◌≡◌};
ghost use Rattle.answers.specs.Refusals.{answer_of};
ghost use Rattle.lines.specs.Commands.{word_alone, word_and_one, word_and_three, command_of, parse_call};
ghost use Rattle.lines.specs.InnerLines.{answer_of_form};

use answers::Refusal;
use fields::parts::Fields;
use fields::{numbers, parts};

// What a line asks for.
#[derive(Clone, Copy, Debug, PartialEq, Eq)]
pub enum Command {
    Open { key: u64, k: u32, n: u32 },
    Admit,
    Join,
    Withdraw(u32),
    Plan,
}

// ---- the forms, by the number of fields

fn alone(word: &[u8]) -> Option<Command>
    ensures { answer_of_form result ≡ word_alone word.now }
{
    match word {
        b"admit" => Some(Command::Admit),
        b"join" => Some(Command::Join),
        b"plan" => Some(Command::Plan),
        _ => None,
    }
}

fn with_one(word: &[u8], slot: &[u8]) -> Option<Command>
    ensures { answer_of_form result ≡ word_and_one word.now slot.now }
{
    if word != b"withdraw".as_slice() {
        return None;
    }
    let slot = numbers::number(slot)?;
    Some(Command::Withdraw(slot))
}

fn with_three(word: &[u8], a: &[u8], b: &[u8], c: &[u8]) -> Option<Command>
    ensures { answer_of_form result ≡ word_and_three word.now a.now b.now c.now }
{
    if word != b"open".as_slice() {
        return None;
    }
    let key = numbers::key(a)?;
    let k = numbers::number(b)?;
    let n = numbers::number(c)?;
    Some(Command::Open { key, k, n })
}

fn form(line: &[u8]) -> Option<Command>
    ensures { answer_of_form result ≡ command_of line.now }
{
    if line.len() > 80 {
        return None;
    }
    match parts::apart(line) {
        Fields::One(word) => alone(word),
        Fields::Two(word, slot) => with_one(word, slot),
        Fields::Four(word, key, k, n) => with_three(word, key, k, n),
        Fields::Three(_, _, _) => None,
        Fields::More => None,
    }
}

// What a line asks for: refusal 12.
pub fn parse(line: &[u8]) -> Result<Command, Refusal>
    ensures { answer_of result ≡ parse_call line.now }
{
    form(line).ok_or(Refusal::Misfit)
}
