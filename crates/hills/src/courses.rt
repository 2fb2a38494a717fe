// The two sample hills and a full course.
ghost use Rattle.std.specs.Prelude.{◌≡◌, ◌<◌, []};
ghost use Rattle.course.specs.View.{gates_of};
ghost use Rattle.hills.specs.Hills.{gate, hill_h, hill_v, slope_gate, slope};
ghost use Rattle.hills.specs.Parts.{added_all};

use course::{Course, Gate};
use std::array;

// Hill H.
#[tactic(auto, using(crate::proofs::Adding::hill_h_added))]
pub fn hill_h() -> Course
    ensures gates_of_h { gates_of result ≡ hill_h }
{
    course_of(&[
        gate(1, 0, 900),
        gate(2, 300, 500),
        gate(3, 600, 100),
        gate(4, 1000, -200),
    ])
}

// Hill V. It differs from hill H in its gates alone, which each states: one function of both would choose, no plainer.
#[tactic(auto, using(crate::proofs::Adding::hill_v_added))]
pub fn hill_v() -> Course
    ensures gates_of_v { gates_of result ≡ hill_v }
{
    course_of(&[
        gate(1, 0, 0),
        gate(2, 10, -10),
        gate(3, 20, -20),
        gate(4, 21, -21),
        gate(5, 22, -22),
        gate(6, 23, -23),
        gate(7, 24, -24),
    ])
}

// The first 200 gates of the slope, as many as a course may have.
pub fn full_course() -> Course
    ensures gates_of_the_slope { gates_of result ≡ slope 200 }
{
    let gates: [Gate; 200] = array::from_fn(|number| slope_gate(number as u8));
    course_of(&gates)
}

// The course of these gates, added one after another to a new one.
fn course_of(gates: &[Gate]) -> Course
    ensures added { gates_of result ≡ added_all [] gates.now }
{
    let mut course = Course::new();
    for gate in gates {
        let _ = course.add(*gate);
    }
    course
}

// A gate by its number, its distance and its height.
fn gate(number: u8, distance: u32, height: i32) -> Gate
    ensures placed { result ≡ gate number distance height }
{
    Gate {
        number,
        distance,
        height,
    }
}

// The gate with this number on the slope.
fn slope_gate(number: u8) -> Gate
    ensures placed { result ≡ slope_gate number }
{
    gate(number, u32::from(number), -i32::from(number))
}
