// The leap table: when seconds were inserted into UTC or deleted from it, and how a bulletin carries the table on.
#![tactic(auto)]

pub mod bulletin;
pub mod entry;
pub mod limits;
pub mod offset;
pub mod parts;
pub mod renew;
mod room;
pub mod starting;
pub mod table;
