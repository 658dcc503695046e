// What frames and answer lines are as text: the definitions and their laws. The code that reads and writes them stands in the crate above.
#![tactic(auto)]

pub mod answer;
pub mod kind;
pub mod text;
