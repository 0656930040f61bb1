// Records that C and Rust keep in words, and what a call writes to them.
ghost use Rattle.std.specs.Prelude.{◌≡◌, ℕ, List, cond, ◌≤◌, length};
ghost use Rattle.answers.specs.Refusals.{answer_of};
ghost use Rattle.exports.specs.Coded.{coded_done};
ghost use Rattle.exports.specs.InnerRecords.{made_over};

use crate::parts;
use answers::Refusal;

// A record that stands in words of 32 bits or of 64. C lends words of any length, so that there are enough is tested once in each
// call, by the number that its promise has, and asked for by those that read and write them.
pub(crate) trait Record: Copy {
    type Word;

    // how many words it has
    const WORDS: usize;

    ghost count: { ℕ };

    // the words with the record in their first places
    ghost over: { List Self.Word → Self → List Self.Word };

    // the record that words have in their first places
    ghost read: { List Self.Word → Self };

    fn loaded(words: &[Self::Word]) -> Self
        requires { count ≤ length words.now }
        ensures { result ≡ read words.now };

    fn store(self, words: &mut [Self::Word])
        requires { count ≤ length words.old }
        ensures { words.new ≡ over words.old self };
}

// The record after a call, where that was not refused.
pub(crate) fn keep<R: Record>(accepted: bool, r: R, words: &mut [R::Word])
    requires { R.count ≤ length words.old }
    ensures { words.new ≡ cond accepted (R.over words.old r) words.old }
{
    if accepted {
        r.store(words);
    }
}

// The record that was made goes to the words, a refusal to the answer.
pub(crate) fn store_made<R: Record>(made: Result<R, Refusal>, words: &mut [R::Word]) -> u64
    requires { R.count ≤ length words.old }
    ensures answer { result ≡ coded_done (answer_of made) }
    ensures made { words.new ≡ made_over R.over words.old (answer_of made) }
{
    match made {
        Ok(r) => {
            r.store(words);
            0
        }
        Err(why) => parts::refused(why),
    }
}
