// The gates of a race, in the order in which they stand on the hill.
#![tactic(auto)]

mod course;
mod gate;
mod refusal;

pub use course::{Course, MAX_GATES};
pub use gate::{Gate, MAX_DISTANCE, MAX_HEIGHT, MIN_HEIGHT};
pub use refusal::Refusal;
