// Cost kinds whose values are whole numbers: the gate mast, the free mast and the trench.
#![tactic(auto)]

ghost use Rattle.std.specs.Prelude.{◌≡◌, ◌^◌, ◌<◌, true, pos, ◌-ℤ◌, unsigned_abs};
ghost use Rattle.course.specs.Gates.{in_range};
ghost use Rattle.course.specs.Distances.{apart};

use course::Gate;

// Each kind has a public cost by positions, which says more than `Cost::span`, the bound 2^43 among it: as a law of all
// numeric kinds the bound would be said once more, and asked of every other kind.
mod free_mast;
mod gate_mast;
mod trench;

pub use free_mast::{FreeMast, free_mast_cost};
pub use gate_mast::{GateMast, best_gate};
pub use trench::{Trench, trench_cost};

// How much farther from the start one gate is than another.
fn farther(a: Gate, b: Gate) -> i64
    ensures difference { result ≡ pos a.distance -ℤ pos b.distance }
    ensures short { unsigned_abs result < 2 ^ 32 }
    ensures shorter_in_range { in_range a ≡ true → in_range b ≡ true → unsigned_abs result < 2 ^ 20 }
{
    i64::from(a.distance) - i64::from(b.distance)
}

// How much higher one gate is than another. A rule of the project: differences have their sign until they are squared,
// so no `abs_diff`; and one function for both fields is no plainer.
fn higher(a: Gate, b: Gate) -> i64
    ensures difference { result ≡ a.height -ℤ b.height }
    ensures short { unsigned_abs result < 2 ^ 32 }
    ensures shorter_in_range { in_range a ≡ true → in_range b ≡ true → unsigned_abs result < 2 ^ 20 }
{
    i64::from(a.height) - i64::from(b.height)
}

// The squared distance of two gates.
#[tactic(auto, using(crate::proofs::Groups::apart_below))]
fn distance_squared(a: Gate, b: Gate) -> u64
    requires ranged { (in_range a ≡ true) × (in_range b ≡ true) }
    ensures squared_distance { result ≡ apart a b }
    ensures small { result < 2 ^ 41 }
{
    let along = farther(a, b).unsigned_abs();
    let up = higher(a, b).unsigned_abs();
    along * along + up * up
}
