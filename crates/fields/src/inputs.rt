// An input of exactly one line.
ghost use Rattle.std.specs.Prelude.{◌≡◌};
ghost use Rattle.std.specs.Option.{option_copied};
ghost use Rattle.answers.specs.Refusals.{optional};
ghost use Rattle.fields.specs.Inputs.{only_line};

use crate::cuts;

// The line, without its line feed, which may be lacking. None where there is no byte at all, a second line, though it is empty, or
// more than 80 bytes before the line feed.
pub fn one_line(input: &[u8]) -> Option<&[u8]>
    ensures { optional (option_copied result) ≡ only_line input.now }
{
    let end = cuts::line_feed(input).unwrap_or(input.len());
    if input.is_empty() || end > 80 || input.len() - end > 1 {
        return None;
    }
    Some(&input[..end])
}
