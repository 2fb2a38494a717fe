// A trench from the topmost gate of a group to its lowest.
ghost use Rattle.std.specs.Prelude.{◌≡◌, ◌^◌, ◌<◌, true};
ghost use Rattle.course.specs.Gates.{in_range};
ghost use Rattle.course.specs.View.{gates_of};
ghost use Rattle.costs.specs.Groups.{of_span, EveryGroup, Told};
ghost use Rattle.kinds.specs.Trench.{trench, trench_span, trench_group};
ghost use Rattle.kinds.specs.Trenches.{trench_within};
ghost use Rattle.costs.proofs.Ends.{ends_laws};

use crate::{farther, higher};
use costs::{Numeric, Span};
use course::{Course, Gate};

// The kind: the length of the trench from the topmost gate of a group to its lowest.
#[derive(Clone, Copy)]
pub struct Trench;

// The cost of the span from `first` to `last`, and none where this is no span of the course. By positions: to ask for a
// `Span` would ask more of callers.
pub fn trench_cost(course: &Course, first: usize, last: usize) -> Option<u64>
    ensures from_end_to_end { result ≡ of_span (gates_of course.now) first last (trench_span (gates_of course.now) first last) }
    ensures below_two_to_43 { Told result (λ c. c < 2 ^ 43) }
    ensures every_group_below_two_to_43 { Told result (λ _. EveryGroup (gates_of course.now) (λ ps. trench_group (gates_of course.now) ps < 2 ^ 43)) }
{
    Some(span_length(&Span::of(course, first, last)?))
}

impl Numeric for Trench {
    ghost span_number = { λ _. trench_span };

    ghost group_number = { λ _. trench_group };

    ghost lawful = { ends_laws trench trench_within };

    fn number(&self, span: &Span) -> u64 {
        span_length(span)
    }
}

// The length of a trench from one gate to another.
fn length_between(upper: Gate, lower: Gate) -> u64
    ensures along_and_down { result ≡ trench upper lower }
    ensures small_in_range { in_range upper ≡ true → in_range lower ≡ true → result < 2 ^ 21 }
{
    farther(lower, upper).unsigned_abs() + higher(upper, lower).unsigned_abs()
}

// The length of the trench of a span.
#[tactic(auto, using(crate::proofs::Groups::trench_below))]
fn span_length(span: &Span) -> u64
    ensures from_end_to_end { result ≡ trench_span span.now.gates.now span.now.first span.now.last }
    ensures small { result < 2 ^ 21 }
    ensures all_small { EveryGroup span.now.gates.now (λ ps. trench_group span.now.gates.now ps < 2 ^ 43) }
{
    length_between(span.top(), span.bottom())
}
