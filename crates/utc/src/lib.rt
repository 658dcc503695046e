// What UTC's labels and rungs mean: leap, fold and smear, and the proofs that they keep the laws. The rungs' code stands in the crate above.
#![tactic(auto)]

pub mod labels;
pub mod limits;
