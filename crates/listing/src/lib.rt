// Lists a stream of orders as text.
#![tactic(auto)]

ghost use Rattle.std.specs.Prelude.{◌≡◌, ◌+◌, ◌≤◌, length, take, IfOk, IfSome, vec_len, string_bytes};
ghost use Rattle.listing.specs.Listing.{order_lines, closing_line, longest, listing, EachStands};
ghost use Rattle.orders.specs.Streams.{parse};

use orders::fault::StreamFault;
use orders::iter::Orders;
use orders::stream::count_orders;
use std::alloc::{AllocError, Global};
use std::io;
use std::io::Read;

// How many bytes a head takes as one stream.
pub const LONGEST_STREAM: usize = 4096;

// The last line, of a stream with so many orders or with a fault. No `Display` of a fault: it has no text but this.
fn closing_line(heap: Global, count: Result<usize, StreamFault>) -> Result<String, AllocError>
    ensures text { IfOk result (λ s. string_bytes s ≡ closing_line count) }
{
    match count {
        Ok(n) => format!(in heap; "{n} orders\n"),
        Err(fault) => format!(in heap;
            "{} orders !{} {}\n",
            fault.index,
            fault.number(),
            fault.byte
        ),
    }
}

// The lines of the orders up to the first fault.
fn order_lines(heap: Global, bytes: &[u8]) -> Result<String, AllocError>
    ensures text { IfOk result (λ s. string_bytes s ≡ order_lines 0 (parse bytes.now).orders) }
{
    let mut text = String::new(heap);
    for (byte, order) in Orders::new(bytes) {
        writeln!(text, "{byte} {order}")?;
    }
    Ok(text)
}

// The listing of a stream: a line for each order up to the first fault, and a closing line. A stream
// that is too long for a head is not listed.
pub fn list_stream(heap: Global, bytes: &[u8]) -> Result<String, AllocError>
    ensures text_of_the_listing { IfOk result (λ s. string_bytes s ≡ listing bytes.now) }
    ensures each_order_stands_where_told { IfOk result (λ s. length bytes.now ≤ longest → EachStands bytes.now (string_bytes s)) }
{
    if bytes.len() > LONGEST_STREAM {
        return String::from_str(heap, "LONG\n");
    }
    let mut text = order_lines(heap, bytes)?;
    let closing = closing_line(heap, count_orders(bytes))?;
    text.push_str(closing.as_str())?;
    Ok(text)
}

// Fills a buffer from an input, and says how many bytes came before its end. Not `read_to_end`: each
// read gets all the room that is left, since an input of packets drops what has no room, and each
// error is answered at once, also an interruption.
fn fill_from<R: Read>(input: &mut R, buffer: &mut [u8]) -> io::Result<usize>
    ensures bounded { IfOk result (λ n. n ≤ length buffer.old) }
    ensures first_bytes { IfSome (R.remaining input.old) (λ xs. IfOk result (λ n. take n buffer.new ≡ take (length buffer.old) xs)) }
{
    let mut len = 0;
    while len < buffer.len() {
        let count = input.read(&mut buffer[len..])?;
        if count == 0 {
            break;
        }
        len += count;
    }
    Ok(len)
}

// Reads an input to its end, or to one byte more than the longest stream.
pub fn read_input<R: Read>(heap: Global, input: &mut R) -> io::Result<Vec<u8>>
    ensures bounded { IfOk result (λ v. vec_len v ≤ longest + 1) }
    ensures first_bytes { IfSome (R.remaining input.old) (λ xs. IfOk result (λ v. v.items ≡ take (longest + 1) xs)) }
{
    let mut bytes = vec![in heap; 0u8; LONGEST_STREAM + 1]?;
    let len = fill_from(input, &mut bytes)?;
    bytes.truncate(len);
    Ok(bytes)
}

#[cfg(test)]
mod tests {
    use super::*;
    use std::io::ErrorKind;
    use std::test::Fail;

    // Answers each read by the next of these: a packet of so many bytes, less those that have no room,
    // or an interruption. After them it is at its end.
    #[derive(Drop)]
    struct Packets<'a> {
        answers: &'a [Option<usize>],
    }

    impl Read for Packets<'_> {
        fn read(&mut self, buf: &mut [u8]) -> io::Result<usize> {
            let Some((answer, rest)) = self.answers.split_first() else {
                return Ok(0);
            };
            self.answers = rest;
            let Some(len) = *answer else {
                return Err(ErrorKind::Interrupted.into());
            };
            let count = len.min(buf.len());
            buf[..count].fill(7);
            Ok(count)
        }
    }

    #[test]
    fn hands_out_an_interruption(rt: HostRuntime) {
        let mut input = Packets {
            answers: &[Some(3), None, Some(4)],
        };
        let fault = read_input(rt.alloc(), &mut input).err();
        assert_eq!(rt; fault.map(|e| e.kind()), Some(ErrorKind::Interrupted));
    }

    #[test]
    fn reads_whole_packets_until_the_room_is_full(rt: HostRuntime) -> Result<(), Fail> {
        for (answers, len) in [([Some(600), Some(700)], 1300), ([Some(5000), None], 4097)] {
            let mut input = Packets { answers: &answers };
            let bytes = read_input(rt.alloc(), &mut input)?;
            assert_eq!(rt; bytes.len(), len);
            assert!(rt; bytes.iter().all(|b| *b == 7));
        }
        Ok(())
    }
}
