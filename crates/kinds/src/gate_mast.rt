// A mast at one of the gates of its group.
ghost use Rattle.std.specs.Prelude.{◌≡◌, ◌^◌, ◌<◌, ◌≤◌, true, Some, nat_le, refl};
ghost use Rattle.course.specs.Gates.{in_range, gate_at};
ghost use Rattle.course.specs.View.{gates_of};
ghost use Rattle.costs.specs.Groups.{of_span, EveryGroup, Told};
ghost use Rattle.costs.specs.Masts.{ReachesAll};
ghost use Rattle.kinds.specs.GateMast.{gate_mast_group, gate_mast_span, gate_mast_at, gate_mast_best, doubled, gate_mast_mast, TopmostBest};
ghost use Rattle.kinds.specs.Parts.{farther_from_first, FirstFarther};
ghost use Rattle.costs.proofs.Numbers.{number_order};
ghost use Rattle.kinds.specs.GateMastLaws.{nested, hull};

use crate::distance_squared;
use costs::{Mast, Masted, Numeric, Span};
use course::{Course, Gate};

// The kind: four times the least, over the gates of a group, of the greatest squared distance to one of its gates.
#[derive(Clone, Copy)]
pub struct GateMast;

// The least cost of the span from `first` to `last` and the gate for its mast, the topmost of equally good ones, and
// none where this is no span of the course. By positions: to ask for a `Span` would ask more of callers.
pub fn best_gate(course: &Course, first: usize, last: usize) -> Option<(u64, usize)>
    ensures least_cost_and_its_gate { result ≡ of_span (gates_of course.now) first last (gate_mast_best (gates_of course.now) first last) }
    ensures below_two_to_43 { Told result (λ b. b.0 < 2 ^ 43) }
    ensures every_group_below_two_to_43 { Told result (λ _. EveryGroup (gates_of course.now) (λ ps. gate_mast_group (gates_of course.now) ps < 2 ^ 43)) }
    ensures topmost_of_the_best { Told result (λ b. TopmostBest (gates_of course.now) first last b.0 b.1) }
{
    Some(best_of_span(&Span::of(course, first, last)?))
}

impl Numeric for GateMast {
    ghost span_number = { λ _. gate_mast_span };

    ghost group_number = { λ _. gate_mast_group };

    ghost lawful = { record {
      order = number_order;
      whole = λ _ gs i j k w. refl;
      nested = λ _ gs a i j b k w c d e. nested gs k a i j b w c d e;
      hull = λ _ gs ps k h. hull gs k ps h;
    } };

    fn number(&self, span: &Span) -> u64 {
        let (cost, _) = best_of_span(span);
        cost
    }
}

impl Masted for GateMast {
    ghost mast_of = { λ _. gate_mast_mast };

    fn mast(&self, course: &Course, first: usize, last: usize) -> Option<Mast> {
        Some(best_mast(&Span::of(course, first, last)?))
    }

    fn span_mast(&self, span: &Span) -> Mast {
        best_mast(span)
    }
}

// The mast of a span, at its best gate.
#[tactic(auto, using(crate::proofs::Reaches::best_reaches))]
fn best_mast(span: &Span) -> Mast
    ensures at_the_best_gate { result ≡ gate_mast_mast span.now.gates.now span.now.first span.now.last }
    ensures reaches_every_gate { ReachesAll nat_le (λ n. n) (gate_mast_span span.now.gates.now span.now.first span.now.last) span.now.gates.now span.now.first span.now.last (Some result) }
{
    let (_, y) = best_of_span(span);
    doubled(gate_of(span, y))
}

// The gate of a span at a position.
fn gate_of(span: &Span, position: usize) -> Gate
    requires a_gate_of_the_span { (span.now.first ≤ position) × (position ≤ span.now.last) }
    ensures in_range { in_range result ≡ true }
    ensures gate_there { result ≡ gate_at span.now.gates.now position }
{
    span.gates()[position - span.first()]
}

// Whether the gate at `y` is at least as far from the topmost gate of a span as from the lowest.
fn is_farther_from_first(span: &Span, y: usize) -> bool
    requires a_gate_of_the_span { (span.now.first ≤ y) × (y ≤ span.now.last) }
    ensures compared { result ≡ farther_from_first span.now.gates.now span.now.first span.now.last y }
{
    let gate = gate_of(span, y);
    distance_squared(span.top(), gate) >= distance_squared(gate, span.bottom())
}

// The topmost gate of a span that is at least as far from the topmost as from the lowest.
// Not by `partition_point`: it may ask of any gate, and takes half as long again.
fn first_farther(span: &Span) -> usize
    ensures first_farther { FirstFarther span.now.gates.now span.now.first span.now.last result }
{
    let mut low = span.first();
    let mut high = span.last();
    while low < high {
        let middle = low + (high - low) / 2;
        if is_farther_from_first(span, middle) {
            high = middle;
        } else {
            low = middle + 1;
        }
    }
    low
}

// The gate of a span for its mast, the topmost of equally good ones.
#[tactic(auto, using(crate::proofs::Best::best_above, crate::proofs::Best::best_there))]
fn best_position(span: &Span) -> usize
    ensures a_gate_of_the_span { (span.now.first ≤ result) × (result ≤ span.now.last) }
    ensures topmost_of_the_best { result ≡ gate_mast_at span.now.gates.now span.now.first span.now.last }
{
    let y = first_farther(span);
    if y == span.first() {
        return y;
    }
    let above = distance_squared(gate_of(span, y - 1), span.bottom());
    let there = distance_squared(span.top(), gate_of(span, y));
    if above <= there { y - 1 } else { y }
}

// The least cost of a span and the topmost gate for a mast at that cost.
#[tactic(auto, using(crate::proofs::Groups::apart_below, crate::proofs::Best::best_cost, crate::proofs::Groups::gate_mast_below, crate::proofs::Groups::gate_mast_topmost))]
fn best_of_span(span: &Span) -> (u64, usize)
    ensures least_cost_and_its_gate { result ≡ gate_mast_best span.now.gates.now span.now.first span.now.last }
    ensures small { result.0 < 2 ^ 43 }
    ensures all_small { EveryGroup span.now.gates.now (λ ps. gate_mast_group span.now.gates.now ps < 2 ^ 43) }
    ensures topmost_of_the_best { TopmostBest span.now.gates.now span.now.first span.now.last result.0 result.1 }
{
    let y = best_position(span);
    let gate = gate_of(span, y);
    let farthest = distance_squared(span.top(), gate).max(distance_squared(gate, span.bottom()));
    (4 * farthest, y)
}

// The place of a gate, doubled. No `From<Gate>`, which would have to take a gate out of range too.
fn doubled(gate: Gate) -> Mast
    requires ranged { in_range gate ≡ true }
    ensures twice { result ≡ doubled gate }
{
    Mast {
        distance: 2 * gate.distance as i32,
        height: 2 * gate.height,
    }
}
