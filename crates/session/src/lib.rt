// A whole run of framejoin as a function from the bytes that it reads to the bytes that it writes.
#![tactic(auto)]

pub mod answer;
pub mod run;
