// What a course is asked.
ghost use Rattle.std.specs.Prelude.{◌≡◌, [], length};
ghost use Rattle.course.specs.Gates.{IsCourse};
ghost use Rattle.course.specs.View.{gates_of};

use crate::course::Course;
use crate::gate::Gate;
use rows::Row;

impl Course {
    // A course with no gates.
    pub fn new() -> Course
        ensures no_gates { gates_of result ≡ [] }
    {
        Course {
            gates: Row::new(Gate::default()),
        }
    }

    // The gates, from the top down.
    pub fn gates(&self) -> &[Gate]
        ensures from_the_top { result.now ≡ gates_of self.now }
        ensures a_course { IsCourse result.now }
    {
        self.gates.as_slice()
    }

    // How many gates there are.
    pub fn count(&self) -> usize
        ensures count_of_gates { result ≡ length (gates_of self.now) }
    {
        self.gates().len()
    }
}
