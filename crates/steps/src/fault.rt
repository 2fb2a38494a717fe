// Why limits are refused, and the number of the reason.
ghost use Rattle.std.specs.Prelude.{◌≡◌};
ghost use Rattle.steps.specs.Faults.{step_fault_number};

#[derive(Clone, Copy, Debug, PartialEq, Eq)]
pub enum StepFault {
    // There are not 1 to 8 limits, or one is out of range, or they do not rise.
    BadLimits,
}

// A `match` as the other faults have: a cast of the lone variant is no plainer.
impl StepFault {
    pub fn number(self) -> u8
        ensures numbered { result ≡ step_fault_number self }
    {
        match self {
            StepFault::BadLimits => 15,
        }
    }
}
