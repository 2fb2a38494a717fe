// A step, which is what a cost comes to under a table of limits.
ghost use Rattle.std.specs.Prelude.{Some};
ghost use Rattle.steps.specs.Texts.{step_words};

use std::fmt;

// Steps come before every cost beyond the last limit.
#[derive(Clone, Copy, Debug, PartialEq, Eq, PartialOrd, Ord)]
pub enum Step {
    // Within this limit, counted from 1, and past all before it.
    At(u8),
    // Past every limit: the cost itself.
    Beyond(u64),
}

impl fmt::Display for Step {
    ghost output = { λ s. Some (step_words s) };

    fn fmt<W: fmt::Write>(&self, f: &mut fmt::Formatter<W>) -> fmt::Result {
        match self {
            Step::At(number) => write!(f, "s{number}"),
            Step::Beyond(cost) => write!(f, "b{cost}"),
        }
    }
}
