// What clocks mean and which laws they keep: the traits that carry both, and the proofs. The clocks' code stands in the crates above.
#![tactic(auto)]

pub mod bank;
pub mod fault;
pub mod form;
pub mod limits;
pub mod rung;
