// The closed list of refusals: everything that the product may answer in place of a result.
#![tactic(auto)]

pub mod fault;
pub mod number;
pub mod refusal;
pub mod words;
