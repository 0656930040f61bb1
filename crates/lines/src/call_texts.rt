// A call as the line program takes it.
ghost use Rattle.fields.specs.Texts.{SameList, PutsFirst};
ghost use Rattle.lines.specs.CallTexts.{call_line};

use crate::commands::Command;
use fields::texts::Text;

// Puts a call's line behind what stands in a list so far, as far as there is room.
pub fn push_call(text: &mut Text, call: Command)
    ensures lent { SameList text.old text.new }
    ensures puts { PutsFirst text.old (call_line call) text.new }
{
    match call {
        Command::Open { key, k, n } => {
            text.push_bytes(b"open\t");
            text.push_key(key);
            text.push_tabbed(k);
            text.push_tabbed(n);
            text.push(b'\n');
        }
        Command::Admit => text.push_bytes(b"admit\n"),
        Command::Join => text.push_bytes(b"join\n"),
        Command::Withdraw(slot) => text.push_one(b"withdraw", slot),
        Command::Plan => text.push_bytes(b"plan\n"),
    }
}
