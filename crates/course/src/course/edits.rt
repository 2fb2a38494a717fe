// The edits of a course: a gate is added, removed, or given a new place.
ghost use Rattle.std.specs.Prelude.{◌≡◌, None, OnOk, position};
ghost use Rattle.course.specs.Edits.{has_number, is_set, beside, beside_refusal, add_refusal, with_gate, answer, add_answer, after_add, remove_answer, after_remove, relocate_answer, after_relocate};
ghost use Rattle.course.specs.Causes.{add_cause, remove_cause, relocate_cause, SmallestCause};
ghost use Rattle.course.specs.Changes.{OneMore, OneLess, Replaced, RefusedRightly};
ghost use Rattle.course.specs.Parts.{count_above};
ghost use Rattle.course.specs.View.{gates_of};

use crate::course::{Course, MAX_GATES};
use crate::gate::Gate;
use crate::refusal::Refusal;

impl Course {
    // Adds a gate.
    #[tactic(auto, using(crate::proofs::Citing::adding))]
    pub fn add(&mut self, gate: Gate) -> Result<(), Refusal>
        ensures done_or_refused { result ≡ add_answer (gates_of self.old) gate }
        ensures gates_after { gates_of self.new ≡ after_add (gates_of self.old) gate }
        ensures smallest_cause { SmallestCause (add_cause (gates_of self.old) gate) (add_answer (gates_of self.old) gate) }
        ensures refused_only_if_it_must { RefusedRightly (add_answer (gates_of self.old) gate) (OneMore gate (gates_of self.old)) }
        ensures one_more { OnOk result (OneMore gate (gates_of self.old) (gates_of self.new)) }
    {
        self.may_add(gate)?;
        self.insert(gate);
        Ok(())
    }

    // Removes the gate with a number.
    #[tactic(auto, using(crate::proofs::Citing::removing))]
    pub fn remove(&mut self, number: u8) -> Result<(), Refusal>
        ensures done_or_refused { result ≡ remove_answer (gates_of self.old) number }
        ensures gates_after { gates_of self.new ≡ after_remove (gates_of self.old) number }
        ensures smallest_cause { SmallestCause (remove_cause (gates_of self.old) number) (remove_answer (gates_of self.old) number) }
        ensures refused_only_if_it_must { RefusedRightly (remove_answer (gates_of self.old) number) (OneLess number (gates_of self.old)) }
        ensures one_less { OnOk result (OneLess number (gates_of self.old) (gates_of self.new)) }
    {
        let at = index_of(self.gates(), number).ok_or(Refusal::NotSet)?;
        self.gates.remove(at);
        Ok(())
    }

    // Gives the gate with the number of `gate` the place of `gate`.
    #[tactic(auto, using(crate::proofs::Citing::relocating))]
    pub fn relocate(&mut self, gate: Gate) -> Result<(), Refusal>
        ensures done_or_refused { result ≡ relocate_answer (gates_of self.old) gate }
        ensures gates_after { gates_of self.new ≡ after_relocate (gates_of self.old) gate }
        ensures smallest_cause { SmallestCause (relocate_cause (gates_of self.old) gate) (relocate_answer (gates_of self.old) gate) }
        ensures refused_only_if_it_must { RefusedRightly (relocate_answer (gates_of self.old) gate) (Replaced gate (gates_of self.old)) }
        ensures one_replaced { OnOk result (Replaced gate (gates_of self.old) (gates_of self.new)) }
    {
        self.may_relocate(gate)?;
        self.remove(gate.number)?;
        self.insert(gate);
        Ok(())
    }

    // Whether a gate may be added.
    fn may_add(&self, gate: Gate) -> Result<(), Refusal>
        ensures allowed_or_refused { result ≡ add_answer (gates_of self.now) gate }
    {
        let gates = self.gates();
        if !gate.is_in_range() {
            return Err(Refusal::OutOfRange);
        }
        if is_set(gates, gate.number) {
            return Err(Refusal::AlreadySet);
        }
        if gates.len() >= MAX_GATES {
            return Err(Refusal::Full);
        }
        check_clear(gates, gate)
    }

    // Whether a gate may be given a new place.
    fn may_relocate(&self, gate: Gate) -> Result<(), Refusal>
        ensures allowed_or_refused { result ≡ relocate_answer (gates_of self.now) gate }
    {
        let gates = self.gates();
        if !gate.is_in_range() {
            return Err(Refusal::OutOfRange);
        }
        if !is_set(gates, gate.number) {
            return Err(Refusal::NotSet);
        }
        check_clear(gates, gate)
    }

    // Puts a gate that may be added where it belongs.
    #[tactic(auto, using(crate::proofs::Citing::inserting))]
    fn insert(&mut self, gate: Gate)
        requires allowed { add_refusal (gates_of self.old) gate ≡ None }
        ensures with_it { gates_of self.new ≡ with_gate gate (gates_of self.old) }
        ensures one_more { OneMore gate (gates_of self.old) (gates_of self.new) }
    {
        let at = count_above(self.gates(), gate);
        self.gates.insert(at, gate);
    }
}

// The index of the gate with a number.
fn index_of(gates: &[Gate], number: u8) -> Option<usize>
    ensures first_index { result ≡ position (has_number number) gates.now }
{
    gates.iter().position(|gate| gate.number == number)
}

// Whether a gate has a number. By `any`, which is plainer than an index that nobody reads.
#[tactic(auto, unfolding(crate::specs::Edits::is_set))]
fn is_set(gates: &[Gate], number: u8) -> bool
    ensures some_gate_has_it { result ≡ is_set number gates.now }
{
    gates.iter().any(|gate| gate.number == number)
}

// Whether no gate, other than the one with the number of `gate`, is neither above nor below it.
fn check_clear(gates: &[Gate], gate: Gate) -> Result<(), Refusal>
    ensures clear_or_beside { result ≡ answer (beside_refusal (beside gate gates.now)) }
{
    first_beside(gates, gate).map_or(Ok(()), |number| Err(Refusal::Beside(number)))
}

// The number of the topmost gate, other than the one with the number of `gate`, that is neither above nor below it.
// A rule of the project: this is a loop over the gates that skips the moved one.
#[tactic(auto, using(crate::proofs::Passing::beside_step, crate::proofs::Passing::beside_end))]
fn first_beside(gates: &[Gate], gate: Gate) -> Option<u8>
    ensures topmost_beside { result ≡ beside gate gates.now }
{
    for other in gates {
        if other.number == gate.number {
            continue;
        }
        if !other.is_ordered_with(gate) {
            return Some(other.number);
        }
    }
    None
}

// How many gates are above `gate`.
fn count_above(gates: &[Gate], gate: Gate) -> usize
    ensures above_it { result ≡ count_above gate gates.now }
{
    gates
        .iter()
        .map(|other| usize::from(other.is_above(gate)))
        .sum()
}
