// Worked examples of the format.
#![tactic(auto, unfolding(crate::specs::Bits::bit_at, crate::specs::Bits::field_at, crate::specs::Writing::bits_of, crate::specs::Writing::packed, crate::specs::Writing::bytes_in, crate::specs::Writing::encode))]

ghost use Rattle.std.specs.Prelude.{◌≡◌, [], ◌∷◌, pos, Ok};
ghost use Rattle.orders.specs.declared.order.Order.TheVariants.{Set, PlanFor};
ghost use Rattle.orders.specs.Places.{place};
ghost use Rattle.orders.specs.Reading.{read};
ghost use Rattle.orders.specs.Writing.{encode};

// Set gate 1 at distance 0 and height 900.
pub fn set_example() -> [u8; 7]
    ensures bytes { result ≡ 0x00 ∷ 0x20 ∷ 0x00 ∷ 0x00 ∷ 0x00 ∷ 0x70 ∷ 0x80 ∷ [] }
    ensures written { encode (Set (place 1 0 (pos 900))) ≡ result }
    ensures read_again { read result ≡ Ok (Set (place 1 0 (pos 900)), []) }
{
    [0x00, 0x20, 0x00, 0x00, 0x00, 0x70, 0x80]
}

// Plan for 2.
pub fn plan_example() -> [u8; 2]
    ensures bytes { result ≡ 0x61 ∷ 0x00 ∷ [] }
    ensures written { encode (PlanFor 2) ≡ result }
    ensures read_again { read result ≡ Ok (PlanFor 2, []) }
{
    [0x61, 0x00]
}
