// The five orders of a stream, and their text.
ghost use Rattle.std.specs.Prelude.{Some};
ghost use Rattle.orders.specs.Texts.{place_text, order_text};

use std::fmt;

// Where a gate is put: its distance along the course and its height, in whole centimetres.
// The gates of a course are a struct like it: one for both would need a crate of its own and one name for `gate` and
// `number`, and is no plainer.
#[derive(Clone, Copy, Debug, PartialEq, Eq)]
pub struct Place {
    pub gate: u8,
    pub distance: u32,
    pub height: i32,
}

// One order.
#[derive(Clone, Copy, Debug, PartialEq, Eq)]
pub enum Order {
    // Puts a new gate on the course.
    Set(Place),
    // Takes a gate off the course.
    Lift { gate: u8 },
    // Gives a gate a new place.
    Move(Place),
    // Asks for a plan of at most `zones` zones.
    PlanFor { zones: u8 },
    // Asks for a plan in which no zone costs more than `limit`.
    PlanWithin { limit: u64 },
}

impl fmt::Display for Place {
    ghost output = { λ p. Some (place_text p) };

    fn fmt<W: fmt::Write>(&self, f: &mut fmt::Formatter<W>) -> fmt::Result {
        write!(f, "{} {} {}", self.gate, self.distance, self.height)
    }
}

impl fmt::Display for Order {
    ghost output = { λ o. Some (order_text o) };

    fn fmt<W: fmt::Write>(&self, f: &mut fmt::Formatter<W>) -> fmt::Result {
        match self {
            Order::Set(place) => write!(f, "set {place}"),
            Order::Lift { gate } => write!(f, "lift {gate}"),
            Order::Move(place) => write!(f, "move {place}"),
            Order::PlanFor { zones } => write!(f, "plan for {zones}"),
            Order::PlanWithin { limit } => write!(f, "plan within {limit}"),
        }
    }
}
