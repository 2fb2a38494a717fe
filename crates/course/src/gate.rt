// A gate, and when one gate is above another.
ghost use Rattle.std.specs.Prelude.{◌≡◌};
ghost use Rattle.course.specs.Gates.{above, in_range, ordered};

use std::fmt;

// The greatest distance from the start, in centimetres.
pub const MAX_DISTANCE: u32 = 1_048_575;

// The least height against the finish, in centimetres.
pub const MIN_HEIGHT: i32 = -524_288;

// The greatest height against the finish, in centimetres.
pub const MAX_HEIGHT: i32 = 524_287;

// A gate: its number, its distance from the start and its height against the finish, both in centimetres. The orders of
// a head have a struct like it: one for both would need a crate of its own and one name for both numbers, no plainer.
#[derive(Clone, Copy, Debug, Default, PartialEq, Eq)]
pub struct Gate {
    pub number: u8,
    pub distance: u32,
    pub height: i32,
}

impl Gate {
    // Whether distance and height are those of a course.
    pub fn is_in_range(self) -> bool
        ensures within_the_bounds { result ≡ in_range self }
    {
        self.distance <= MAX_DISTANCE && (MIN_HEIGHT..=MAX_HEIGHT).contains(&self.height)
    }

    // Whether this gate is nearer the start and higher.
    pub fn is_above(self, other: Gate) -> bool
        ensures nearer_and_higher { result ≡ above self other }
    {
        self.distance < other.distance && self.height > other.height
    }

    // Whether one of the two gates is above the other.
    pub fn is_ordered_with(self, other: Gate) -> bool
        ensures one_above_the_other { result ≡ ordered self other }
    {
        self.is_above(other) || other.is_above(self)
    }
}

// Its number, its distance and its height, with a space between.
impl fmt::Display for Gate {
    ghost use Rattle.std.specs.Prelude.{Some};
    ghost use Rattle.course.specs.Text.{gate_words};

    ghost output = { λ g. Some (gate_words g) };

    fn fmt<W: fmt::Write>(&self, f: &mut fmt::Formatter<W>) -> fmt::Result {
        write!(f, "{} {} {}", self.number, self.distance, self.height)
    }
}
