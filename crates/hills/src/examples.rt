// What the definitions say of hill H.
ghost use Rattle.std.specs.Prelude.{◌≡◌};
ghost use Rattle.hills.specs.Hills.{figures_of_h, numbers_of_h};

use crate::figures::Figures;

// The figures of hill H.
#[tactic(auto, unfolding(costs::specs::Groups::positions, kinds::specs::Extremes::greatest, kinds::specs::Extremes::least, kinds::specs::Extremes::first_least))]
pub fn figures_of_h() -> Figures
    ensures as_the_definitions_say { result ≡ figures_of_h }
    ensures these_numbers { result ≡ numbers_of_h }
{
    Figures {
        gate_mast_1_to_3: (1_000_000, 2),
        gate_mast_1_to_4: (3_920_000, 2),
        gate_mast_1_and_3: 4_000_000,
        free_mast_1_to_3: 1_000_000,
        free_mast_2_to_4: 980_000,
        free_mast_1_to_4: 2_210_000,
        trench_1_to_4: 2_100,
        trench_of_one: 0,
    }
}
