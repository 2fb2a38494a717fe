// A course: at most 200 gates, from the top down.
ghost use Rattle.rows.specs.Rows.{items_of};
ghost use Rattle.course.specs.Gates.{IsCourse};

use crate::gate::Gate;
use rows::Row;

mod edits;
mod questions;

// The most gates that a course has.
pub const MAX_GATES: usize = 200;

// Gates in range, with different numbers, each above all that come after it.
#[derive(Clone, Copy)]
pub struct Course {
    gates: Row<Gate, MAX_GATES>,
    ghost course: { IsCourse (items_of gates) },
}
