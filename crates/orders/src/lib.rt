// The orders of document 01, and the reservoirs over them.
#![tactic(auto)]

mod checks;
pub mod consistent_permutation;
pub mod consistent_reservoir;
mod counters;
mod fills;
mod layer;
pub mod order_walk;
mod outputs;
pub mod place;
mod scans;
