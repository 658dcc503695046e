// Text written: answer lines, and frames for whoever sends them.
#![tactic(auto)]

pub mod answer;
pub mod encode;
mod hex;
