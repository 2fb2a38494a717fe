// What every span of a course costs, as text.
ghost use Rattle.std.specs.Prelude.{◌≡◌, ℕ, ◌≤◌, List, true, Some, IfOk, string_bytes};
ghost use Rattle.course.specs.View.{gates_of};
ghost use Rattle.costs.specs.Groups.{is_span, span};
ghost use Rattle.steps.specs.View.{limits_of};
ghost use Rattle.hills.specs.Text.{mast_line, step_limits, span_text, each_text, spans_from, spans_text};

use costs::{Cost, Masted, Span};
use course::Course;
use kinds::{FreeMast, GateMast, Trench};
use std::alloc::{AllocError, Global};
use std::fmt::Display;
use steps::{Limits, Steps};

// What every span of a course costs: four lines for each, by their first positions and then by their last.
pub fn spans_text(heap: Global, course: &Course) -> Result<String, AllocError>
    ensures four_lines_for_each_span { IfOk result (λ s. string_bytes s ≡ spans_text (gates_of course.now)) }
{
    let count = course.count();
    each_position(heap, 1, count, |first| spans_from(heap, course, first))
}

// The kind of the lines of steps.
fn free_mast_steps() -> Steps<FreeMast>
    ensures limits { limits_of result.limits ≡ step_limits }
{
    Steps {
        below: FreeMast,
        limits: Limits::new(&[300_000, 1_000_000]).unwrap(),
    }
}

// The line of a span's cost and its mast under a kind. The name belongs to these lines: as a constant of each kind it
// would be no plainer.
fn masted_line<C: Masted>(
    heap: Global,
    name: &str,
    kind: &C,
    span: &Span,
) -> Result<String, AllocError>
where
    C::Value: Display,
    ensures text { (word : List ℕ) → C.Value.output (C.Cost.span_cost kind.now span.now.gates.now span.now.first span.now.last) ≡ Some word → IfOk result (λ s. string_bytes s ≡ mast_line name.now span.now.first span.now.last word (C.Masted.mast_of kind.now span.now.gates.now span.now.first span.now.last)) }
{
    let cost = kind.span_cost(span);
    let mast = kind.span_mast(span);
    format!(in heap; "{name} {span} {cost} {mast}\n")
}

// The four lines of a span.
fn span_text(heap: Global, span: &Span) -> Result<String, AllocError>
    ensures text { IfOk result (λ s. string_bytes s ≡ span_text span.now.gates.now span.now.first span.now.last) }
{
    let gate = masted_line(heap, "GATE", &GateMast, span)?;
    let free = masted_line(heap, "FREE", &FreeMast, span)?;
    let trench = Trench.span_cost(span);
    let step = masted_line(heap, "STEP", &free_mast_steps(), span)?;
    format!(in heap; "{gate}{free}TRENCH {span} {trench}\n{step}")
}

// The spans from a position on, by their last positions.
fn spans_from(heap: Global, course: &Course, first: usize) -> Result<String, AllocError>
    requires counted { 1 ≤ first }
    ensures text { IfOk result (λ s. string_bytes s ≡ spans_from (gates_of course.now) first) }
{
    each_position(heap, first, course.count(), |last| {
        span_text(heap, &Span::of(course, first, last).unwrap())
    })
}

// The texts of the positions from one to another, one after the other.
fn each_position<F: Fn(usize) -> Result<String, AllocError>>(
    heap: Global,
    from: usize,
    to: usize,
    text: F,
) -> Result<String, AllocError>
    requires has_a_text { (p : ℕ) → from ≤ p → p ≤ to → F.pre text p }
    ensures texts { (words : ℕ → List ℕ) → ((p : ℕ) (r : _) → from ≤ p → p ≤ to → F.post text p r → IfOk r (λ s. string_bytes s ≡ words p)) → IfOk result (λ s. string_bytes s ≡ each_text words (span from to)) }
{
    let mut all = String::new(heap);
    for position in from..=to {
        let words = text(position)?;
        all.push_str(words.as_str())?;
    }
    Ok(all)
}
