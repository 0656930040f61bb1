// Text that knows no round: bytes cut into lines, the fields of a line, numbers and keys read and printed.
#![tactic(auto)]

pub mod cuts;
pub mod inputs;
pub mod numbers;
pub mod parts;
pub mod texts;
