// The orders that a control head is fed: read from bits, written as bits, and the faults of both.
#![tactic(auto)]

pub mod bits;
pub mod examples;
pub mod fault;
pub mod iter;
mod kind;
pub mod order;
pub mod read;
pub mod stream;
pub mod write;
