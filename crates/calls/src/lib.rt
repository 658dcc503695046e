// What is asked of a joiner and what it answers, as values, and the bodies that records carry.
#![tactic(auto)]

pub mod call;
pub mod event;
pub mod place;
