// A mast at any place.
ghost use Rattle.std.specs.Prelude.{◌≡◌, ◌^◌, ◌<◌, Some, nat_le};
ghost use Rattle.course.specs.View.{gates_of};
ghost use Rattle.costs.specs.Groups.{of_span, span, EveryGroup, Told};
ghost use Rattle.costs.specs.Masts.{ReachesAll};
ghost use Rattle.kinds.specs.FreeMast.{free_mast_span, free_mast_group, free_mast_mast, LeastOverPlaces};
ghost use Rattle.course.specs.Distances.{apart};
ghost use Rattle.course.proofs.Squares.{apart_within};
ghost use Rattle.costs.proofs.Ends.{ends_laws};

use crate::distance_squared;
use costs::{Mast, Masted, Numeric, Span};
use course::Course;

// The kind: four times the least, over all places, of the greatest squared distance to a gate of the group.
#[derive(Clone, Copy)]
pub struct FreeMast;

// The cost of the span from `first` to `last`, and none where this is no span of the course. By positions: to ask for a
// `Span` would ask more of callers.
pub fn free_mast_cost(course: &Course, first: usize, last: usize) -> Option<u64>
    ensures squared_distance_of_the_ends { result ≡ of_span (gates_of course.now) first last (free_mast_span (gates_of course.now) first last) }
    ensures below_two_to_43 { Told result (λ c. c < 2 ^ 43) }
    ensures every_group_below_two_to_43 { Told result (λ _. EveryGroup (gates_of course.now) (λ ps. free_mast_group (gates_of course.now) ps < 2 ^ 43)) }
    ensures least_for_this_span { Told result (λ c. LeastOverPlaces (gates_of course.now) (span first last) c) }
    ensures least_for_every_group { Told result (λ _. EveryGroup (gates_of course.now) (λ ps. LeastOverPlaces (gates_of course.now) ps (free_mast_group (gates_of course.now) ps))) }
{
    Some(ends_apart(&Span::of(course, first, last)?))
}

impl Numeric for FreeMast {
    ghost span_number = { λ _. free_mast_span };

    ghost group_number = { λ _. free_mast_group };

    ghost lawful = { ends_laws apart apart_within };

    fn number(&self, span: &Span) -> u64 {
        ends_apart(span)
    }
}

impl Masted for FreeMast {
    ghost mast_of = { λ _. free_mast_mast };

    fn mast(&self, course: &Course, first: usize, last: usize) -> Option<Mast> {
        Some(halfway(&Span::of(course, first, last)?))
    }

    fn span_mast(&self, span: &Span) -> Mast {
        halfway(span)
    }
}

// The squared distance of the ends of a span.
#[tactic(auto, using(crate::proofs::Groups::apart_below, crate::proofs::Groups::free_mast_below, crate::proofs::Groups::free_mast_least, crate::proofs::Groups::free_mast_least_here))]
fn ends_apart(zone: &Span) -> u64
    ensures squared_distance { result ≡ free_mast_span zone.now.gates.now zone.now.first zone.now.last }
    ensures small { result < 2 ^ 41 }
    ensures all_small { EveryGroup zone.now.gates.now (λ ps. free_mast_group zone.now.gates.now ps < 2 ^ 43) }
    ensures least_here { LeastOverPlaces zone.now.gates.now (span zone.now.first zone.now.last) result }
    ensures least_anywhere { EveryGroup zone.now.gates.now (λ ps. LeastOverPlaces zone.now.gates.now ps (free_mast_group zone.now.gates.now ps)) }
{
    distance_squared(zone.top(), zone.bottom())
}

// The mast halfway between the ends of a span. No `From` of two gates, which would have to take gates out of range too.
fn halfway(span: &Span) -> Mast
    ensures between_the_ends { result ≡ free_mast_mast span.now.gates.now span.now.first span.now.last }
    ensures reaches_every_gate { ReachesAll nat_le (λ n. n) (free_mast_span span.now.gates.now span.now.first span.now.last) span.now.gates.now span.now.first span.now.last (Some result) }
{
    let (top, bottom) = (span.top(), span.bottom());
    Mast {
        distance: top.distance as i32 + bottom.distance as i32,
        height: top.height + bottom.height,
    }
}
