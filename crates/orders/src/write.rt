// Writes orders as a stream.
ghost use Rattle.std.specs.Prelude.{◌≡◌, ◌+◌, ◌*◌, ◌^◌, ◌<◌, ◌≤◌, true, ◌&&◌, ◌++◌, length, take, drop, IfOk, nat_le, nat_lt};
ghost use Rattle.std.specs.Int.Digits.{number_from_digits};
ghost use Rattle.orders.specs.Kinds.{code_of};
ghost use Rattle.orders.specs.Numbers.{appended, number_of};
ghost use Rattle.orders.specs.Streams.{parse, WhollyRead};
ghost use Rattle.orders.specs.Writing.{twos, fields_of, size_of, encode, encode_all, in_twos, place_fields, place_fits, fits, all_fit, size_all, write_answer, write_leaves};

use crate::fault::WriteFault;
use crate::kind::Kind;
use crate::order::{Order, Place};

impl Place {
    // Whether each field holds its value.
    fn fits(&self) -> bool
        ensures value { result ≡ place_fits self.now }
    {
        number_fits(8, u64::from(self.gate))
            && number_fits(20, u64::from(self.distance))
            && height_fits(self.height)
    }

    // The number whose bits are the fields of a set or a move.
    fn as_number(&self, kind: Kind) -> u64
        requires fitting { place_fits self.now ≡ true }
        ensures value { result ≡ appended 0 (place_fields (code_of kind) self.now) }
    {
        let front = append(u64::from(kind), 8, u64::from(self.gate));
        let front = append(front, 20, u64::from(self.distance));
        let front = append(front, 20, height_bits(self.height));
        append(front, 5, 0)
    }
}

impl Order {
    // Whether each field holds its value.
    fn fits_fields(&self) -> bool
        ensures value { result ≡ fits self.now }
    {
        match self {
            Order::Set(place) | Order::Move(place) => place.fits(),
            Order::Lift { gate } => number_fits(8, u64::from(*gate)),
            Order::PlanFor { zones } => number_fits(6, u64::from(*zones)),
            Order::PlanWithin { limit } => number_fits(43, *limit),
        }
    }

    // How many bytes the order takes.
    fn size(&self) -> usize
        ensures value { result ≡ size_of self.now }
    {
        match self {
            Order::Set(_) | Order::Move(_) => 7,
            Order::Lift { .. } | Order::PlanFor { .. } => 2,
            Order::PlanWithin { .. } => 6,
        }
    }

    // The number whose bits are the order's fields and its padding.
    fn as_number(&self) -> u64
        requires fitting { fits self.now ≡ true }
        ensures value { result ≡ appended 0 (fields_of self.now) }
    {
        let kind = self.kind();
        match self {
            Order::Set(place) | Order::Move(place) => place.as_number(kind),
            Order::Lift { gate } => append(append(u64::from(kind), 8, u64::from(*gate)), 5, 0),
            Order::PlanFor { zones } => append(append(u64::from(kind), 6, u64::from(*zones)), 7, 0),
            Order::PlanWithin { limit } => append(append(u64::from(kind), 43, *limit), 2, 0),
        }
    }

    // Writes the order's bytes to a buffer of that size.
    fn write(&self, out: &mut [u8])
        requires fitting { fits self.now ≡ true }
        requires whole { length out.old ≡ size_of self.now }
        ensures after { out.new ≡ encode self.now }
    {
        let bytes = self.as_number().to_be_bytes();
        // The short orders by themselves, so that the length of their copy is known before it runs.
        match out.len() {
            2 => out.copy_from_slice(&bytes[6..]),
            6 => out.copy_from_slice(&bytes[2..]),
            _ => out.copy_from_slice(&bytes[8 - out.len()..]),
        }
    }
}

// Whether `width` bits hold a number.
#[tactic(auto, using(std::proofs::lemmas::Nat::one_shl))]
fn number_fits(width: u32, value: u64) -> bool
    requires narrow { width < 64 }
    ensures value { result ≡ nat_lt value (2 ^ width) }
{
    value < 1 << width
}

// Whether 20 bits hold a height in two's complement.
fn height_fits(height: i32) -> bool
    ensures value { result ≡ in_twos height }
{
    (-(1 << 19)..1 << 19).contains(&height)
}

// The 20 bits of a height in two's complement.
fn height_bits(height: i32) -> u64
    requires in_range { in_twos height ≡ true }
    ensures value { result ≡ twos height }
    ensures small { result < 2 ^ 20 }
{
    height.rem_euclid(1 << 20) as u64
}

// The bits so far as a number, with one more field after them.
fn append(front: u64, width: u32, value: u64) -> u64
    requires narrow { width < 64 }
    requires small { value < 2 ^ width }
    requires room { front * 2 ^ width < 2 ^ 64 }
    ensures value { result ≡ front * 2 ^ width + value }
{
    front << width | value
}

// Whether each field of each order holds its value.
fn all_fit(orders: &[Order]) -> bool
    ensures value { result ≡ all_fit orders.now }
{
    orders.iter().all(|order| order.fits_fields())
}

// Whether the orders take at most `room` bytes.
fn have_room(orders: &[Order], room: usize) -> bool
    ensures value { result ≡ nat_le (size_all orders.now) room }
{
    orders
        .iter()
        .try_fold(room, |left, order| left.checked_sub(order.size()))
        .is_some()
}

// Writes orders that fit their fields to the front of a buffer that has room for them.
fn put_all(orders: &[Order], out: &mut [u8]) -> usize
    requires fitting { all_fit orders.now ≡ true }
    requires room { size_all orders.now ≤ length out.old }
    ensures size { result ≡ size_all orders.now }
    ensures after { out.new ≡ encode_all orders.now ++ drop result out.old }
    ensures back { WhollyRead orders.now (parse (take result out.new)) }
    ensures one_number { number_from_digits 256 (take result out.new) ≡ number_of orders.now }
{
    // With `split_at_mut` in place of `at` the proof does not close: nothing is known of `out` after the loop.
    let mut at = 0;
    for order in orders {
        let end = at + order.size();
        order.write(&mut out[at..end]);
        at = end;
    }
    at
}

// Writes the orders to the front of `out`, and says how many bytes they take. Where a field cannot
// hold its value, or else `out` is too short, nothing is written.
pub fn write_orders(orders: &[Order], out: &mut [u8]) -> Result<usize, WriteFault>
    ensures length_or_refusal { result ≡ write_answer orders.now (length out.old) }
    ensures bytes_after { out.new ≡ write_leaves orders.now result out.old }
    ensures reads_back { IfOk result (λ n. WhollyRead orders.now (parse (take n out.new))) }
    ensures one_number { IfOk result (λ n. number_from_digits 256 (take n out.new) ≡ number_of orders.now) }
{
    if !all_fit(orders) {
        return Err(WriteFault::TooWide);
    }
    if !have_room(orders, out.len()) {
        return Err(WriteFault::TooShort);
    }
    Ok(put_all(orders, out))
}

#[cfg(test)]
mod tests {
    use super::*;

    const TWO_ORDERS: [Order; 2] = [
        Order::Set(Place {
            gate: 1,
            distance: 0,
            height: 900,
        }),
        Order::PlanFor { zones: 2 },
    ];

    #[test]
    fn leaves_later_bytes(rt: HostRuntime) {
        let mut out = [0xee; 10];
        assert_eq!(rt; write_orders(&TWO_ORDERS, &mut out), Ok(9));
        assert_eq!(rt;
            out,
            [0x00, 0x20, 0x00, 0x00, 0x00, 0x70, 0x80, 0x61, 0x00, 0xee]
        );
    }

    #[test]
    fn refuses_a_short_buffer(rt: HostRuntime) {
        let mut out = [0xee; 8];
        assert_eq!(rt;
            write_orders(&TWO_ORDERS, &mut out),
            Err(WriteFault::TooShort)
        );
        assert_eq!(rt; out, [0xee; 8]);
    }

    // Each value is one past what its field holds, and the buffer is too short as well.
    #[test]
    fn refuses_wide_values_before_a_short_buffer(rt: HostRuntime) {
        let wide = [
            Order::Set(Place {
                gate: 0,
                distance: 1_048_576,
                height: 0,
            }),
            Order::Set(Place {
                gate: 0,
                distance: 0,
                height: 524_288,
            }),
            Order::Move(Place {
                gate: 0,
                distance: 0,
                height: -524_289,
            }),
            Order::PlanFor { zones: 64 },
            Order::PlanWithin {
                limit: 8_796_093_022_208,
            },
        ];
        for order in wide {
            let mut out = [0xee; 3];
            let orders = [Order::Lift { gate: 1 }, order];
            assert_eq!(rt; write_orders(&orders, &mut out), Err(WriteFault::TooWide));
            assert_eq!(rt; out, [0xee; 3]);
        }
    }
}
