// The standard clocks and their stamps, as people name and read them.
#![tactic(auto)]

pub mod clock;
pub mod met;
pub mod stamp;
