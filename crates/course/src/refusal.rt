// Why an edit of a course is refused, and the number of each reason.
ghost use Rattle.std.specs.Prelude.{◌≡◌};
ghost use Rattle.course.specs.Edits.{refusal_number};

use std::fmt;

#[derive(Clone, Copy, Debug, PartialEq, Eq)]
pub enum Refusal {
    // The distance or the height is out of range.
    OutOfRange,
    // A gate has this number already.
    AlreadySet,
    // No gate has this number.
    NotSet,
    // The course has 200 gates already.
    Full,
    // The gate with this number, the topmost such, is neither above nor below the new place.
    Beside(u8),
}

// A `match`, since one refusal carries a value: an enum with such a variant cannot be cast to its number.
impl Refusal {
    pub fn number(self) -> u8
        ensures numbered { result ≡ refusal_number self }
    {
        match self {
            Refusal::OutOfRange => 1,
            Refusal::AlreadySet => 2,
            Refusal::NotSet => 3,
            Refusal::Full => 4,
            Refusal::Beside(_) => 5,
        }
    }
}

// Its number, and then, after a space, the number of the gate that it tells, if it tells one.
impl fmt::Display for Refusal {
    ghost use Rattle.std.specs.Prelude.{Some};
    ghost use Rattle.course.specs.Text.{refusal_words};

    ghost output = { λ r. Some (refusal_words r) };

    fn fmt<W: fmt::Write>(&self, f: &mut fmt::Formatter<W>) -> fmt::Result {
        match self {
            Refusal::Beside(gate) => write!(f, "{} {}", self.number(), gate),
            _ => write!(f, "{}", self.number()),
        }
    }
}
