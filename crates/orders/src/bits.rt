// A reader of fields of bits, the most significant bit of each byte first.
ghost use Rattle.std.specs.Prelude.{◌≡◌, ◌+◌, ◌*◌, ◌^◌, ◌<◌, ◌≤◌, length, IfOk};
ghost use Rattle.orders.specs.Bits.{bit_at, field_at, field_read, field_end};
ghost use Rattle.orders.specs.Numbers.{cut_from};
ghost use Rattle.orders.specs.Parts.{end_after};

use crate::fault::BitFault;

// Bytes, and how many of their bits are read.
#[derive(Drop)]
pub struct BitReader<'a> {
    pub bytes: &'a [u8],
    pub at: usize,
}

// Bit `i` of the bytes.
#[tactic(auto, using(std::proofs::lemmas::Nat::and_mask), unfolding(crate::specs::Bits::bit_at))]
fn bit_at(bytes: &[u8], i: usize) -> u8
    requires inside { i < 8 * length bytes.now }
    ensures value { result ≡ bit_at bytes.now i }
{
    bytes[i / 8] >> (7 - i % 8) & 1
}

// The number that the `width` bits from `from` on write.
fn number_in(bytes: &[u8], from: usize, width: u32) -> u64
    requires narrow { width ≤ 64 }
    requires inside { from + width ≤ 8 * length bytes.now }
    requires counted { from + width < 2 ^ 64 }
    ensures value { result ≡ field_at bytes.now from width }
    ensures small { result < 2 ^ width }
    ensures cut { result ≡ cut_from bytes.now from width }
{
    (from..from + width as usize).fold(0, |value, i| value << 1 | u64::from(bit_at(bytes, i)))
}

impl BitReader<'_> {
    // Where the next `width` bits end, if they can be read.
    fn end_of(&self, width: u32) -> Option<usize>
        ensures value { result ≡ end_after self.now.bytes.now self.now.at width }
    {
        let end = self.at.checked_add(width as usize)?;
        if width > 64 || end.div_ceil(8) > self.bytes.len() {
            return None;
        }
        Some(end)
    }

    // The next `width` bits as a number. Where the bytes end before, or a `u64` cannot hold the
    // number, or a `usize` cannot count its bits, nothing is read.
    pub fn field(&mut self, width: u32) -> Result<u64, BitFault>
        ensures number_of_the_next_bits { result ≡ field_read self.old.bytes.now self.old.at width }
        ensures moved_past { self.new.at ≡ field_end self.old.bytes.now self.old.at width }
        ensures bytes_kept { self.new.bytes.now ≡ self.old.bytes.now }
        ensures within_width { IfOk result (λ v. v < 2 ^ width) }
        ensures cut_from_one_number { IfOk result (λ v. v ≡ cut_from self.old.bytes.now self.old.at width) }
    {
        let end = self.end_of(width).ok_or(BitFault::Ends)?;
        let value = number_in(self.bytes, self.at, width);
        self.at = end;
        Ok(value)
    }
}

#[cfg(test)]
mod tests {
    use super::*;

    #[test]
    fn reads_fields_up_to_the_end(rt: HostRuntime) {
        let mut reader = BitReader {
            bytes: &[0b1010_0000, 0b1111_1111],
            at: 0,
        };
        assert_eq!(rt; reader.field(3), Ok(0b101));
        assert_eq!(rt; reader.field(65), Err(BitFault::Ends));
        assert_eq!(rt; reader.field(14), Err(BitFault::Ends));
        assert_eq!(rt; reader.at, 3);
        assert_eq!(rt; reader.field(13), Ok(0b0_0000_1111_1111));
        assert_eq!(rt; reader.field(0), Ok(0));
        assert_eq!(rt; reader.at, 16);
    }
}
