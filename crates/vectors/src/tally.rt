// What a replay found so far.
ghost use Rattle.std.specs.Prelude.{◌≡◌};
ghost use Rattle.vectors.specs.Tallies.{judged, taken};

use std::fmt;

// The number of the line that is being read, how many answers were compared, how many differ, and the line of the first
// that does.
#[derive(Drop)]
pub struct Tally {
    line: u64,
    compared: u64,
    differ: u64,
    first: Option<u64>,
}

impl Tally {
    pub(crate) fn new() -> Tally {
        Tally {
            line: 1,
            compared: 0,
            differ: 0,
            first: None,
        }
    }

    // A line with which the library agrees, or not.
    fn judge(&mut self, agrees: bool)
        ensures { self.new ≡ judged agrees self.old }
    {
        self.compared = self.compared.saturating_add(1);
        if !agrees {
            self.differ = self.differ.saturating_add(1);
            self.first = self.first.or(Some(self.line));
        }
    }

    // A line, and whether the library agrees with it, if it has an answer.
    pub(crate) fn take(&mut self, agrees: Option<bool>)
        ensures { self.new ≡ taken agrees self.old }
    {
        if let Some(agrees) = agrees {
            self.judge(agrees);
        }
        self.line = self.line.saturating_add(1);
    }
}

impl fmt::Display for Tally {
    fn fmt<W: fmt::Write>(&self, f: &mut fmt::Formatter<W>) -> fmt::Result {
        let compared = self.compared;
        let differ = self.differ;
        match self.first {
            None => write!(f, "{compared} answers compared, all agree"),
            Some(first) => write!(
                f,
                "{compared} answers compared, {differ} differ, the first in line {first}"
            ),
        }
    }
}
