// The standard bank, over which framejoin runs.
#![tactic(auto)]

pub mod bank;
