// Reads the order at the front of a stream.
ghost use Rattle.std.specs.Prelude.{◌≡◌, ◌+◌, ◌*◌, ◌^◌, ◌<◌, ◌≤◌, [], ◌∷◌, length, IfOk, OnOk};
ghost use Rattle.orders.specs.Kinds.{code_of};
ghost use Rattle.orders.specs.Reading.{signed, width_of, fields_read, padding_after, read, plain};
ghost use Rattle.orders.specs.Parts.{place_read, padding_read};
ghost use Rattle.orders.specs.Streams.{Fronts};

use crate::bits::BitReader;
use crate::fault::{BitFault, OrderFault};
use crate::kind::Kind;
use crate::order::{Order, Place};

// A number of 20 bits in two's complement. A rule of the project: the sign is extended in the reader itself.
fn sign_extended(bits: u32) -> i32
    requires narrow { bits < 2 ^ 20 }
    ensures value { result ≡ signed bits }
{
    if bits < 1 << 19 {
        bits as i32
    } else {
        bits as i32 - (1 << 20)
    }
}

// The fields of a set or a move. Here and below a contract says that the bytes are kept: of a `&mut` no
// type can say so.
fn read_place(reader: &mut BitReader) -> Result<Place, BitFault>
    requires after_kind { reader.old.at ≡ 3 }
    ensures same { reader.new.bytes.now ≡ reader.old.bytes.now }
    ensures value { result ≡ place_read reader.old.bytes.now }
    ensures moved { OnOk result (reader.new.at ≡ 51) }
{
    let gate = reader.field(8)? as u8;
    let distance = reader.field(20)? as u32;
    let height = sign_extended(reader.field(20)? as u32);
    Ok(Place {
        gate,
        distance,
        height,
    })
}

// The order of a kind, from the fields after the kind.
fn read_fields(reader: &mut BitReader, kind: Kind) -> Result<Order, OrderFault>
    requires after_kind { reader.old.at ≡ 3 }
    ensures same { reader.new.bytes.now ≡ reader.old.bytes.now }
    ensures value { result ≡ fields_read (code_of kind) reader.old.bytes.now }
    ensures moved { OnOk result (reader.new.at ≡ width_of (code_of kind)) }
    ensures within { OnOk result (width_of (code_of kind) ≤ 8 * length reader.old.bytes.now) }
{
    match kind {
        Kind::Set => Ok(Order::Set(read_place(reader)?)),
        Kind::Lift => Ok(Order::Lift {
            gate: reader.field(8)? as u8,
        }),
        Kind::Move => Ok(Order::Move(read_place(reader)?)),
        Kind::PlanFor => Ok(Order::PlanFor {
            zones: reader.field(6)? as u8,
        }),
        Kind::PlanWithin => Ok(Order::PlanWithin {
            limit: reader.field(43)?,
        }),
    }
}

// The bits up to the next whole byte, all of which are 0.
fn read_padding(reader: &mut BitReader) -> Result<(), OrderFault>
    requires within { reader.old.at ≤ 8 * length reader.old.bytes.now }
    requires position_below_64 { reader.old.at < 64 }
    ensures same { reader.new.bytes.now ≡ reader.old.bytes.now }
    ensures value { result ≡ padding_read reader.old.at reader.old.bytes.now }
    ensures moved { OnOk result (reader.new.at ≡ reader.old.at + padding_after reader.old.at) }
{
    let bits = reader.at.next_multiple_of(8) - reader.at;
    if reader.field(bits as u32)? != 0 {
        return Err(OrderFault::Padding);
    }
    Ok(())
}

// The order at the front of a stream, and the rest of the stream.
pub fn read_order(bytes: &[u8]) -> Result<(Order, &[u8]), OrderFault>
    ensures order_and_rest_or_fault { plain result ≡ read bytes.now }
    ensures what_the_writer_makes { IfOk result (λ p. Fronts (p.0 ∷ []) p.1.now bytes.now) }
{
    let [first, rest @ ..] = bytes else {
        return Err(OrderFault::Bits(BitFault::Ends));
    };
    let kind = Kind::try_from(*first >> 5)?;
    let mut reader = BitReader { bytes, at: 3 };
    let order = read_fields(&mut reader, kind)?;
    read_padding(&mut reader)?;
    Ok((order, &rest[reader.at / 8 - 1..]))
}

#[cfg(test)]
mod tests {
    use super::*;
    use std::test::Fail;

    #[test]
    fn answers_the_order_and_the_rest(rt: HostRuntime) -> Result<(), Fail> {
        let (order, rest) = read_order(&[0x61, 0x00, 0xa0])?;
        assert_eq!(rt; order, Order::PlanFor { zones: 2 });
        assert_eq!(rt; rest, [0xa0].as_slice());
        Ok(())
    }

    #[test]
    fn names_the_faults(rt: HostRuntime) {
        assert_eq!(rt; read_order(&[]), Err(OrderFault::Bits(BitFault::Ends)));
        assert_eq!(rt; read_order(&[0xa0]), Err(OrderFault::Kind(5)));
        assert_eq!(rt; read_order(&[0xdf, 0xff]), Err(OrderFault::Kind(6)));
        assert_eq!(rt; read_order(&[0xe0]), Err(OrderFault::Kind(7)));
        assert_eq!(rt; read_order(&[0x61]), Err(OrderFault::Bits(BitFault::Ends)));
        assert_eq!(rt; read_order(&[0x61, 0x01]), Err(OrderFault::Padding));
    }
}
