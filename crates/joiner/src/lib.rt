// The joiner: it keeps the records of up to 64 feeds in one order.
#![tactic(auto)]

pub mod bulletin;
pub mod call;
pub mod close;
mod feeds;
pub mod joiner;
pub mod make;
mod moves;
pub mod put;
pub mod questions;
mod queue;
pub mod shelf;
pub mod take;
