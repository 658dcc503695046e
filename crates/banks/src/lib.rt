// Scales, which are forms over rungs, and banks, which are scales side by side.
#![tactic(auto)]

pub mod beside;
pub mod scale;
