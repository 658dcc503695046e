// What a joiner does, call by call, and the promise about every list of calls: the definitions and the proofs. The joiner's code stands in the crate above.
#![tactic(auto)]

pub mod state;
