// Frames read: the lines of an input, and the calls that they write.
#![tactic(auto)]

pub mod decode;
mod hex;
pub mod lines;
