// The round of document 01: a reservoir and a slot map under one key. The list and the table are lent to each call.
#![tactic(auto)]

pub mod calls;
mod lent;
pub mod locations;
pub mod replays;
pub mod round;
mod sheets;
