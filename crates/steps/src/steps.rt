// A cost kind in steps, over a kind whose costs are whole numbers.
ghost use Rattle.std.proofs.Common.{sym, ap, ◌∙◌};
ghost use Rattle.steps.specs.Steps.{step_not_greater, step_of};
ghost use Rattle.steps.specs.View.{limits_of};
ghost use Rattle.steps.specs.Monotone.{step_order, steps_monotone};

use crate::limits::Limits;
use crate::step::Step;
use costs::{Cost, Mast, Masted, Span, Whole};
use course::Course;

// The kind `below`, whose costs are turned into steps by a table of limits.
#[derive(Clone, Copy)]
pub struct Steps<C: Whole> {
    pub below: C,
    pub limits: Limits,
}

impl<C: Whole> Cost for Steps<C> {
    type Value = Step;

    ghost not_greater = { step_not_greater };

    ghost span_cost = { λ s gs first last. step_of (limits_of s.limits) (C.Cost.span_cost s.below gs first last) };

    ghost group_cost = { λ s gs ps. step_of (limits_of s.limits) (C.Cost.group_cost s.below gs ps) };

    ghost reads_as = { λ s n. step_of (limits_of s.limits) (C.Cost.reads_as s.below n) };

    ghost lawful = { let below = C.Cost.lawful in
        let usual = C.Whole.usual in
        record {
          order = step_order;
          whole = λ s gs i j course span. ap (step_of (limits_of s.limits)) (below.whole s.below gs i j course span);
          nested = λ s gs a i j b course span h k l. steps_monotone (limits_of s.limits) _ _ (sym (usual _ _) ∙ below.nested s.below gs a i j b course span h k l);
          hull = λ s gs ps course group. steps_monotone (limits_of s.limits) _ _ (sym (usual _ _) ∙ below.hull s.below gs ps course group);
        } };

    fn span(&self, course: &Course, first: usize, last: usize) -> Option<Step> {
        Some(self.limits.step_of(self.below.span(course, first, last)?))
    }

    fn span_cost(&self, span: &Span) -> Step {
        self.limits.step_of(self.below.span_cost(span))
    }

    fn not_greater(a: Step, b: Step) -> bool {
        a <= b
    }

    fn read(&self, n: u64) -> Step {
        self.limits.step_of(self.below.read(n))
    }
}

impl<C: Whole + Masted> Masted for Steps<C> {
    ghost mast_of = { λ s gs first last. C.Masted.mast_of s.below gs first last };

    fn mast(&self, course: &Course, first: usize, last: usize) -> Option<Mast> {
        self.below.mast(course, first, last)
    }

    fn span_mast(&self, span: &Span) -> Mast {
        self.below.span_mast(span)
    }
}
