// Kinds whose values are plain numbers.
ghost use Rattle.std.specs.Prelude.{◌≡◌, ℕ, List, nat_le};
ghost use Rattle.std.proofs.Common.{rules};
ghost use Rattle.course.specs.declared.gate.Gate.{Gate};
ghost use Rattle.costs.specs.Laws.{Laws};

use crate::{Cost, Span, Whole};
use course::Course;

// A kind whose values are whole numbers in their usual order, and in which a number reads as itself.
pub trait Numeric {
    // The number of the span of the gates from one position to another.
    ghost span_number: { Self → List Gate → ℕ → ℕ → ℕ };

    // The number of the group of the gates at some positions.
    ghost group_number: { Self → List Gate → List ℕ → ℕ };

    // The number of a span.
    fn number(&self, span: &Span) -> u64
        ensures number_of_it { result ≡ span_number self.now span.now.gates.now span.now.first span.now.last };

    // What every such kind keeps.
    ghost lawful: { Laws nat_le span_number group_number };
}

impl<K: Numeric> Cost for K {
    type Value = u64;

    ghost not_greater = { nat_le };

    ghost span_cost = { K.span_number };

    ghost group_cost = { K.group_number };

    ghost reads_as = { λ _ n. n };

    ghost lawful = { K.Numeric.lawful };

    fn span(&self, course: &Course, first: usize, last: usize) -> Option<u64> {
        Some(self.number(&Span::of(course, first, last)?))
    }

    fn span_cost(&self, span: &Span) -> u64 {
        self.number(span)
    }

    fn not_greater(a: u64, b: u64) -> bool {
        a <= b
    }

    fn read(&self, n: u64) -> u64 {
        n
    }
}

impl<K: Numeric> Whole for K {
    ghost usual = { Prim.search rules };
}
