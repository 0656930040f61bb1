// The choosers of document 01, and the slot maps over them.
#![tactic(auto)]

pub mod choose_k;
mod lookups;
pub mod node_map;
mod samples;
mod tables;
