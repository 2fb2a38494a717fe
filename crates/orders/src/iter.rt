// Goes over the orders of a stream.
ghost use Rattle.std.specs.Prelude.{◌+◌, ◌^◌, ◌<◌, ◌≤◌, length};

use crate::fault::StreamFault;
use crate::order::Order;
use crate::read::read_order;

// The orders of a stream, each with the byte at which it begins. They end with the bytes, or before
// the first fault.
#[derive(Drop)]
pub struct Orders<'a> {
    // The bytes that are not read yet, how many orders came before them, and how many bytes.
    rest: &'a [u8],
    index: usize,
    byte: usize,
    ghost few: { index ≤ byte },
    ghost counted: { byte + length rest.now < 2 ^ 64 },
}

impl<'a> Orders<'a> {
    ghost use Rattle.std.specs.Prelude.{◌≡◌};
    ghost use Rattle.orders.specs.Iter.{count_to};

    // The orders of these bytes.
    pub fn new(bytes: &'a [u8]) -> Self
        ensures all_left { result.rest.now ≡ bytes.now }
        ensures none_came { result.index ≡ 0 }
        ensures at_the_start { result.byte ≡ 0 }
    {
        Orders {
            rest: bytes,
            index: 0,
            byte: 0,
        }
    }

    // How many orders came, or the fault of the bytes that are left and where it is.
    pub fn count_so_far(&self) -> Result<usize, StreamFault>
        ensures count_or_fault { result ≡ count_to self.now.index self.now.byte self.now.rest.now }
    {
        match read_order(self.rest) {
            Err(cause) if !self.rest.is_empty() => Err(StreamFault {
                index: self.index,
                byte: self.byte,
                cause,
            }),
            _ => Ok(self.index),
        }
    }
}

impl Iterator for Orders<'_> {
    ghost use Rattle.orders.specs.Iter.{GivesNext, bytes_left};

    type Item = (usize, Order);

    ghost next_gives = { GivesNext };

    ghost remaining = { bytes_left };

    #[tactic(auto, using(crate::proofs::Streams::read_size, crate::proofs::Streams::parse_stops))]
    fn next(&mut self) -> Option<(usize, Order)> {
        let (order, rest) = read_order(self.rest).ok()?;
        let byte = self.byte;
        self.index += 1;
        self.byte += self.rest.len() - rest.len();
        self.rest = rest;
        Some((byte, order))
    }
}
