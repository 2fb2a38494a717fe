// The interface behind which every cost kind stands: what spans and groups of gates cost, and where masts go.
#![tactic(auto)]

ghost use Rattle.std.specs.Prelude.{◌≡◌, ℕ, Bool, List, Some, nat_le};
ghost use Rattle.course.specs.declared.gate.Gate.{Gate};
ghost use Rattle.course.specs.View.{gates_of};
ghost use Rattle.costs.specs.declared.mast.Mast.{Mast};
ghost use Rattle.costs.specs.Groups.{of_span};
ghost use Rattle.costs.specs.Laws.{Laws};
ghost use Rattle.costs.specs.Masts.{ReachesAll};

use course::Course;

mod mast;
mod numeric;
mod span;

pub use mast::Mast;
pub use numeric::Numeric;
pub use span::{Span, is_span};

// A cost kind: its values and their order, and what every span and every group of gates of a course costs.
pub trait Cost {
    // A cost value.
    type Value: Copy;

    // Whether a value is not greater than another.
    ghost not_greater: { Self.Value → Self.Value → Bool };

    // The cost of the span of the gates from one position to another.
    ghost span_cost: { Self → List Gate → ℕ → ℕ → Self.Value };

    // The cost of the group of the gates at some positions.
    ghost group_cost: { Self → List Gate → List ℕ → Self.Value };

    // The value that a whole number reads as.
    ghost reads_as: { Self → ℕ → Self.Value };

    // The cost of the span from `first` to `last`, and none where this is no span of the course. By positions: to ask
    // for a `Span` would ask more of callers.
    fn span(&self, course: &Course, first: usize, last: usize) -> Option<Self::Value>
        ensures cost_of_the_span { result ≡ of_span (gates_of course.now) first last (span_cost self.now (gates_of course.now) first last) };

    // The cost of a span. A kind may give its own, which need not test the positions again.
    fn span_cost(&self, span: &Span) -> Self::Value
        ensures cost_of_it { result ≡ span_cost self.now span.now.gates.now span.now.first span.now.last }
    {
        self.span(span.course(), span.first(), span.last()).unwrap()
    }

    // Whether `a` is not greater than `b`. No bound `Ord` on `Value`, which would ask more of a kind.
    fn not_greater(a: Self::Value, b: Self::Value) -> bool
        ensures compared { result ≡ not_greater a b };

    // The value that `n` reads as.
    fn read(&self, n: u64) -> Self::Value
        ensures value_read { result ≡ reads_as self.now n };

    // What every kind keeps.
    ghost lawful: { Laws not_greater span_cost group_cost };
}

// A kind whose values are whole numbers in their usual order.
pub trait Whole: Cost<Value = u64> {
    ghost usual: { (a b : ℕ) → Self.Cost.not_greater a b ≡ nat_le a b };
}

// A kind that also tells where the mast of a span stands.
pub trait Masted: Cost {
    // The mast of the span of the gates from one position to another.
    ghost mast_of: { Self → List Gate → ℕ → ℕ → Mast };

    // The mast of the span from `first` to `last`, and none where this is no span of the course. By positions: to ask
    // for a `Span` would ask more of callers.
    fn mast(&self, course: &Course, first: usize, last: usize) -> Option<Mast>
        ensures mast_of_the_span { result ≡ of_span (gates_of course.now) first last (mast_of self.now (gates_of course.now) first last) }
        ensures reaches_every_gate { ReachesAll Self.Cost.not_greater (Self.Cost.reads_as self.now) (Self.Cost.span_cost self.now (gates_of course.now) first last) (gates_of course.now) first last result };

    // The mast of a span. A kind may give its own, which need not test the positions again.
    fn span_mast(&self, span: &Span) -> Mast
        ensures mast_of_it { result ≡ mast_of self.now span.now.gates.now span.now.first span.now.last }
        ensures reaches_every_gate { ReachesAll Self.Cost.not_greater (Self.Cost.reads_as self.now) (Self.Cost.span_cost self.now span.now.gates.now span.now.first span.now.last) span.now.gates.now span.now.first span.now.last (Some result) }
    {
        self.mast(span.course(), span.first(), span.last()).unwrap()
    }
}
