// Reads a whole stream.
ghost use Rattle.std.specs.Prelude.{◌≡◌, ◌*◌, ◌≤◌, [], ◌++◌, length, take, drop, IfOk, Ok};
ghost use Rattle.orders.specs.Iter.{count_to};
ghost use Rattle.orders.specs.Streams.{parse, count_answer, read_answer, read_leaves, Fronts, OneReading};
ghost use Rattle.orders.specs.Writing.{size_all};

use crate::fault::{ReadFault, StreamFault};
use crate::iter::Orders;
use crate::order::Order;

// Writes the orders of a stream, of which there are `count`, to the front of `out`.
fn fill(bytes: &[u8], count: usize, out: &mut [Order])
    requires sound { Ok count ≡ count_answer bytes.now }
    requires room { count ≤ length out.old }
    ensures after { out.new ≡ (parse bytes.now).orders ++ drop count out.old }
    ensures form { Fronts (take count out.new) [] bytes.now }
{
    // Not `out.iter_mut().zip(..)`: after that, a proof knows nothing of what the cells hold.
    for (at, (_, order)) in Orders::new(bytes).enumerate() {
        out[at] = order;
    }
}

// The orders of a stream after all of them came.
fn after_all(bytes: &[u8]) -> Orders<'_>
    ensures count { result.index ≡ length (parse bytes.now).orders }
    ensures few { 2 * result.index ≤ length bytes.now }
    ensures size { result.byte ≡ size_all (parse bytes.now).orders }
    ensures answer { count_to result.index result.byte result.rest.now ≡ count_answer bytes.now }
    ensures few_told { IfOk (count_answer bytes.now) (λ n. 2 * n ≤ length bytes.now) }
    ensures reading { OneReading bytes.now }
{
    let mut orders = Orders::new(bytes);
    // Not a `for` over `&mut orders`: after that, a proof knows nothing of what `orders` is.
    while orders.next().is_some() {}
    orders
}

// How many orders a stream has, or the first fault and where it is.
pub fn count_orders(bytes: &[u8]) -> Result<usize, StreamFault>
    ensures count_or_first_fault { result ≡ count_answer bytes.now }
    ensures at_most_one_for_two_bytes { IfOk result (λ n. 2 * n ≤ length bytes.now) }
    ensures written_up_to_the_fault { OneReading bytes.now }
{
    after_all(bytes).count_so_far()
}

// Reads the orders of a stream into the front of `out`, and says how many they are. Where the stream
// has a fault, or else `out` is too short, nothing is written.
pub fn read_orders(bytes: &[u8], out: &mut [Order]) -> Result<usize, ReadFault>
    ensures count_or_refusal { result ≡ read_answer bytes.now (length out.old) }
    ensures cells_after { out.new ≡ read_leaves (parse bytes.now).orders result out.old }
    ensures what_the_writer_makes { IfOk result (λ n. Fronts (take n out.new) [] bytes.now) }
{
    let count = count_orders(bytes)?;
    if count > out.len() {
        return Err(ReadFault::TooShort);
    }
    fill(bytes, count, out);
    Ok(count)
}

#[cfg(test)]
mod tests {
    use super::*;
    use crate::fault::OrderFault;

    // lift gate 1, and plan for 2
    const TWO_ORDERS: [u8; 4] = [0x20, 0x20, 0x61, 0x00];

    #[test]
    fn leaves_later_cells(rt: HostRuntime) {
        let mut out = [Order::Lift { gate: 7 }; 3];
        assert_eq!(rt; read_orders(&TWO_ORDERS, &mut out), Ok(2));
        assert_eq!(rt; out[0], Order::Lift { gate: 1 });
        assert_eq!(rt; out[1], Order::PlanFor { zones: 2 });
        assert_eq!(rt; out[2], Order::Lift { gate: 7 });
    }

    #[test]
    fn refuses_faults_before_few_cells(rt: HostRuntime) {
        let mut out = [Order::Lift { gate: 7 }; 1];
        assert_eq!(rt;
            read_orders(&TWO_ORDERS, &mut out),
            Err(ReadFault::TooShort)
        );
        let fault = StreamFault {
            index: 2,
            byte: 4,
            cause: OrderFault::Kind(5),
        };
        let bytes = [0x20, 0x20, 0x61, 0x00, 0xa0];
        assert_eq!(rt;
            read_orders(&bytes, &mut out),
            Err(ReadFault::Stream(fault))
        );
        assert_eq!(rt; out, [Order::Lift { gate: 7 }]);
    }
}
