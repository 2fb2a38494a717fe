// Spans: the gates from one position of a course to another.
ghost use Rattle.std.specs.Prelude.{◌≡◌, ◌-◌, true, Some, slice_range, IsSome, IfSome, ◌↔◌};
ghost use Rattle.course.specs.Gates.{IsCourse, gate_at, in_range};
ghost use Rattle.course.specs.View.{gates_of};
ghost use Rattle.costs.specs.Groups.{is_span};
ghost use Rattle.costs.specs.Texts.{span_words};

use course::{Course, Gate};
use std::fmt;

// The gates of a course from the position `first` to the position `last`.
#[derive(Clone, Copy)]
pub struct Span<'a> {
    course: &'a Course,
    gates: &'a [Gate],
    first: usize,
    last: usize,
    ghost of_the_course: { gates.now ≡ gates_of course.now },
    ghost a_course: { IsCourse gates.now },
    ghost a_span: { is_span gates.now first last ≡ true },
}

impl<'a> Span<'a> {
    // The span from `first` to `last`, and none where this is no span of the course.
    pub fn of(course: &'a Course, first: usize, last: usize) -> Option<Span<'a>>
        ensures just_where_a_span { IsSome result ↔ (is_span (gates_of course.now) first last ≡ true) }
        ensures gates_of_the_course { IfSome result (λ s. s.gates.now ≡ gates_of course.now) }
        ensures from_first { IfSome result (λ s. s.first ≡ first) }
        ensures to_last { IfSome result (λ s. s.last ≡ last) }
    {
        if !is_span(course, first, last) {
            return None;
        }
        Some(Span {
            course,
            gates: course.gates(),
            first,
            last,
        })
    }

    // Its course.
    pub(crate) fn course(&self) -> &Course
        ensures its_gates { gates_of result.now ≡ self.now.gates.now }
    {
        self.course
    }

    // The position of its topmost gate.
    pub fn first(&self) -> usize
        ensures where_it_begins { result ≡ self.now.first }
    {
        self.first
    }

    // The position of its lowest gate.
    pub fn last(&self) -> usize
        ensures where_it_ends { result ≡ self.now.last }
    {
        self.last
    }

    // Its gates, from the top down.
    pub fn gates(&self) -> &[Gate]
        ensures first_to_last { result.now ≡ slice_range self.now.gates.now (self.now.first - 1) self.now.last }
    {
        &self.gates[self.first - 1..self.last]
    }

    // The topmost gate.
    pub fn top(&self) -> Gate
        ensures in_range { in_range result ≡ true }
        ensures gate_at_first { result ≡ gate_at self.now.gates.now self.now.first }
    {
        self.gates[self.first - 1]
    }

    // The lowest gate.
    pub fn bottom(&self) -> Gate
        ensures in_range { in_range result ≡ true }
        ensures gate_at_last { result ≡ gate_at self.now.gates.now self.now.last }
    {
        self.gates[self.last - 1]
    }
}

impl fmt::Display for Span<'_> {
    ghost output = { λ s. Some (span_words s.first s.last) };

    fn fmt<W: fmt::Write>(&self, f: &mut fmt::Formatter<W>) -> fmt::Result {
        write!(f, "{}-{}", self.first, self.last)
    }
}

// Whether the positions from `first` to `last` are a span of the course. By positions: a `Span` is one already.
pub fn is_span(course: &Course, first: usize, last: usize) -> bool
    ensures positions_of_the_course { result ≡ is_span (gates_of course.now) first last }
{
    1 <= first && first <= last && last <= course.count()
}
