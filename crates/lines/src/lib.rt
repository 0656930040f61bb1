// The line program of document 01, but for reading and writing: a line taken apart, the text of an answer, and the stream of bytes
// cut into lines, whatever pieces it comes in.
#![tactic(auto)]

pub mod call_texts;
mod calls;
pub mod commands;
pub mod sessions;
mod texts;
