// What an edit of a course answers and leaves, as text.
ghost use Rattle.std.specs.Prelude.{◌≡◌, Some, IfOk, string_bytes};
ghost use Rattle.std.specs.List.{join_with_byte};
ghost use Rattle.course.specs.View.{gates_of};
ghost use Rattle.hills.specs.Text.{each_text, edit_words, edit_line, edit_answer, after_edit, edit_text};
ghost use Rattle.hills.specs.Parts.{number_text};

use course::{Course, Gate, Refusal};
use std::alloc::{AllocError, Global};
use std::fmt;

// An edit of a course.
#[derive(Clone, Copy)]
pub enum Edit {
    // Adds this gate.
    Add(Gate),
    // Removes the gate with this number.
    Remove(u8),
    // Gives the gate with the number of this one its place.
    Relocate(Gate),
}

// Its words, with a space between.
impl fmt::Display for Edit {
    ghost output = { λ e. Some (join_with_byte 32 (edit_words e)) };

    fn fmt<W: fmt::Write>(&self, f: &mut fmt::Formatter<W>) -> fmt::Result {
        match self {
            Edit::Add(gate) => write!(f, "add {gate}"),
            Edit::Remove(number) => write!(f, "remove {number}"),
            Edit::Relocate(gate) => write!(f, "relocate {gate}"),
        }
    }
}

impl Edit {
    // Does the edit.
    fn apply(self, course: &mut Course) -> Result<(), Refusal>
        ensures done_or_refused { result ≡ edit_answer (gates_of course.old) self }
        ensures gates_after { gates_of course.new ≡ after_edit (gates_of course.old) self }
    {
        match self {
            Edit::Add(gate) => course.add(gate),
            Edit::Remove(number) => course.remove(number),
            Edit::Relocate(gate) => course.relocate(gate),
        }
    }
}

// Does an edit on a copy of a course, and tells the edit, whether it is done or why it is refused, and the numbers of
// the gates that it leaves, from the top down.
pub fn edit_text(heap: Global, course: &Course, edit: Edit) -> Result<String, AllocError>
    ensures answer_and_gates_left { IfOk result (λ s. string_bytes s ≡ edit_text (gates_of course.now) edit) }
{
    let mut edited = *course;
    let answer = edit.apply(&mut edited);
    edit_line(heap, edit, answer, edited.gates())
}

// The numbers of gates, with a space before each.
fn gate_numbers(heap: Global, gates: &[Gate]) -> Result<String, AllocError>
    ensures text { IfOk result (λ s. string_bytes s ≡ each_text number_text gates.now) }
{
    let mut text = String::new(heap);
    for gate in gates {
        write!(text, " {}", gate.number)?;
    }
    Ok(text)
}

// The line of an edit, its answer and the gates that it leaves.
fn edit_line(
    heap: Global,
    edit: Edit,
    answer: Result<(), Refusal>,
    gates: &[Gate],
) -> Result<String, AllocError>
    ensures text { IfOk result (λ s. string_bytes s ≡ edit_line edit answer gates.now) }
{
    let numbers = gate_numbers(heap, gates)?;
    match answer {
        Ok(()) => format!(in heap; "{edit} done leaves{numbers}\n"),
        Err(refusal) => format!(in heap; "{edit} refused {refusal} leaves{numbers}\n"),
    }
}
