// The text of an answer, put behind what stands in a list so far.
ghost use Rattle.std.specs.Prelude.{◌+◌, ◌*◌, length, take};
ghost use Rattle.std.proofs.Math.Option.{some};
ghost use Rattle.rounds.specs.Ledgers.{sheet};
ghost use Rattle.rounds.specs.Plans.{sheets};
ghost use Rattle.fields.specs.Texts.{HasRoom, SameList, Puts, PutsFirst};
ghost use Rattle.lines.specs.Replies.{place_line, place_lines, reply_text, text_of};
ghost use Rattle.lines.specs.InnerLines.{admitted_reply, accepted_reply, reply_of};

use answers::Refusal;
use fields::texts::Text;
use orders::consistent_reservoir::Exchange;

// What is answered to a line that is not refused; to a plan the first k places of its two lists.
#[derive(Clone, Copy, Debug, PartialEq, Eq)]
pub enum Accepted {
    Opened,
    Admitted(Option<Exchange>),
    Joined(u32),
    Withdrawn(u32),
    Planned(u32),
}

fn push_admitted(text: &mut Text, exchange: Option<Exchange>)
    ensures lent { SameList text.old text.new }
    ensures puts { PutsFirst text.old (reply_text (admitted_reply exchange)) text.new }
{
    let Some(Exchange { enters, leaves }) = exchange else {
        text.push_bytes(b"none\n");
        return;
    };
    text.push_bytes(b"admit");
    text.push_tabbed(enters);
    text.push_tabbed(leaves);
    text.push(b'\n');
}

// ---- plans

// A line of a plan: place, location, slot.
fn push_place(text: &mut Text, place: u32, location: u32, slot: u32)
    ensures lent { SameList text.old text.new }
    ensures puts { PutsFirst text.old (place_line place (sheet location (some slot))) text.new }
{
    text.push_three(place, location, slot);
}

fn push_plan(text: &mut Text, locations: &[u32], terminals: &[u32], k: u32)
    ensures lent { SameList text.old text.new }
    ensures puts { PutsFirst text.old (place_lines 0 (sheets (take k locations.now) (take k terminals.now))) text.new }
{
    for (place, (location, slot)) in (0..k).zip(locations.iter().zip(terminals)) {
        push_place(text, place, *location, *slot);
    }
}

// ---- replies

fn push_answer(text: &mut Text, answer: Accepted, locations: &[u32], terminals: &[u32])
    ensures lent { SameList text.old text.new }
    ensures puts { PutsFirst text.old (reply_text (accepted_reply answer locations.now terminals.now)) text.new }
{
    match answer {
        Accepted::Opened => text.push_bytes(b"opened\n"),
        Accepted::Admitted(exchange) => push_admitted(text, exchange),
        Accepted::Joined(slot) => text.push_one(b"joined", slot),
        Accepted::Withdrawn(slot) => text.push_one(b"withdrawn", slot),
        Accepted::Planned(k) => push_plan(text, locations, terminals, k),
    }
}

// An answer, or a refusal by its number.
pub(crate) fn push_reply(
    text: &mut Text,
    reply: Result<Accepted, Refusal>,
    locations: &[u32],
    terminals: &[u32],
)
    requires { HasRoom text.old (33 * length locations.now + 32) }
    ensures lent { SameList text.old text.new }
    ensures puts { Puts text.old (text_of (reply_of reply locations.now terminals.now)) text.new }
{
    match reply {
        Ok(answer) => push_answer(text, answer, locations, terminals),
        Err(why) => text.push_one(b"refused", why.number()),
    }
}
