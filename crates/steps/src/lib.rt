// Costs counted in steps: a table of limits turns the whole numbers of another cost kind into steps.
#![tactic(auto)]

mod fault;
mod limits;
mod step;
mod steps;

pub use fault::StepFault;
pub use limits::{Limits, MAX_LIMIT, MAX_LIMITS};
pub use step::Step;
pub use steps::Steps;
