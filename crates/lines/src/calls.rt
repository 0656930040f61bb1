// What a line asks for is done by the round's call for it, and answered.
ghost use Rattle.std.specs.Prelude.{◌≡◌, List, ℕ, length};
ghost use Rattle.fields.specs.Texts.{HasRoom, SameList, Puts};
ghost use Rattle.lines.specs.Replies.{text_of};
ghost use Rattle.lines.specs.Sessions.{site, world, open_line, admit_line, join_line, withdraw_line, plan_line, respond};
ghost use Rattle.lines.specs.Streams.{room_for};
ghost use Rattle.lines.specs.InnerLines.{reply_of};
ghost use Rattle.answers.specs.Answers.{after};

use crate::commands::Command;
use crate::texts::Accepted;
use crate::{commands, texts};
use answers::Refusal;
use fields::texts::Text;
use rounds::round;
use rounds::round::Round;

// ---- the calls: refusal 12 before an accepted open, and those of the round's

// The table is not lent to an open.
fn open(
    current: &mut Option<Round>,
    key: u64,
    k: u32,
    n: u32,
    list: &mut [u32],
) -> Result<Accepted, Refusal>
    ensures { (t ls ts : List ℕ) → after (reply_of result ls ts) (site current.new list.new t) ≡ open_line key k n (site current.old list.old t) }
{
    let opened = round::open(key, k, n, list)?;
    *current = Some(opened);
    Ok(Accepted::Opened)
}

fn admit(current: &mut Option<Round>, list: &mut [u32], table: &[u8]) -> Result<Accepted, Refusal>
    ensures { (ls ts : List ℕ) → after (reply_of result ls ts) (site current.new list.new table.now) ≡ admit_line (site current.old list.old table.now) }
{
    let round = current.as_mut().ok_or(Refusal::Misfit)?;
    let exchange = round.admit(list, table)?;
    Ok(Accepted::Admitted(exchange))
}

fn join(current: &mut Option<Round>, list: &[u32], table: &mut [u8]) -> Result<Accepted, Refusal>
    ensures { (ls ts : List ℕ) → after (reply_of result ls ts) (site current.new list.now table.new) ≡ join_line (site current.old list.now table.old) }
{
    let round = current.as_mut().ok_or(Refusal::Misfit)?;
    let slot = round.join(list, table)?;
    Ok(Accepted::Joined(slot))
}

fn withdraw(
    current: &mut Option<Round>,
    list: &[u32],
    table: &mut [u8],
    slot: u32,
) -> Result<Accepted, Refusal>
    ensures { (ls ts : List ℕ) → after (reply_of result ls ts) (site current.new list.now table.new) ≡ withdraw_line slot (site current.old list.now table.old) }
{
    let round = current.as_mut().ok_or(Refusal::Misfit)?;
    round.withdraw(list, table, slot)?;
    Ok(Accepted::Withdrawn(slot))
}

fn plan(
    current: Option<Round>,
    list: &[u32],
    table: &[u8],
    locations: &mut [u32],
    terminals: &mut [u32],
    scratch: &mut [u64],
) -> Result<Accepted, Refusal>
    ensures { after (reply_of result locations.new terminals.new) (world (site current list.now table.now) locations.new terminals.new (length scratch.old)) ≡ plan_line (world (site current list.now table.now) locations.old terminals.old (length scratch.old)) }
{
    let round = current.ok_or(Refusal::Misfit)?;
    round::plan(round, list, table, locations, terminals, scratch)?;
    Ok(Accepted::Planned(round.k))
}

// ---- lines

// Does what a line asks for.
fn act(
    current: &mut Option<Round>,
    line: &[u8],
    list: &mut [u32],
    table: &mut [u8],
    locations: &mut [u32],
    terminals: &mut [u32],
    scratch: &mut [u64],
) -> Result<Accepted, Refusal>
    ensures { after (reply_of result locations.new terminals.new) (world (site current.new list.new table.new) locations.new terminals.new (length scratch.old)) ≡ respond (world (site current.old list.old table.old) locations.old terminals.old (length scratch.old)) line.now }
{
    match commands::parse(line)? {
        Command::Open { key, k, n } => open(current, key, k, n, list),
        Command::Admit => admit(current, list, table),
        Command::Join => join(current, list, table),
        Command::Withdraw(slot) => withdraw(current, list, table, slot),
        Command::Plan => plan(*current, list, table, locations, terminals, scratch),
    }
}

// Answers a line: what is put out stands behind the text so far. The lists come one by one (tried: two shared loans out of
// fields that are themselves `&mut`, of a struct that is lent, have no rule where a proof is due, so the proof did not close).
pub(crate) fn answer(
    current: &mut Option<Round>,
    line: &[u8],
    list: &mut [u32],
    table: &mut [u8],
    locations: &mut [u32],
    terminals: &mut [u32],
    scratch: &mut [u64],
    text: &mut Text,
)
    requires { HasRoom text.old (room_for locations.old) }
    ensures lent { SameList text.old text.new }
    ensures world_after { world (site current.new list.new table.new) locations.new terminals.new (length scratch.old) ≡ (respond (world (site current.old list.old table.old) locations.old terminals.old (length scratch.old)) line.now).left }
    ensures says { Puts text.old (text_of (respond (world (site current.old list.old table.old) locations.old terminals.old (length scratch.old)) line.now).answer) text.new }
{
    let reply = act(current, line, list, table, locations, terminals, scratch);
    texts::push_reply(text, reply, locations, terminals);
}
