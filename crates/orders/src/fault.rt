// Why orders are not read or not written, and the number of each fault.
ghost use Rattle.std.specs.Prelude.{◌≡◌};
ghost use Rattle.orders.specs.declared.fault.OrderFault.TheVariants.{Bits};
ghost use Rattle.orders.specs.declared.fault.ReadFault.TheVariants.{Stream};
ghost use Rattle.orders.specs.Faults.{bit_fault_number, order_fault_number, stream_fault_number, read_fault_number, write_fault_number};

// Why a field of bits is not read.
#[derive(Clone, Copy, Debug, PartialEq, Eq)]
pub enum BitFault {
    // The bytes end before the field does, or a `u64` cannot hold it, or a `usize` cannot count its bits.
    Ends,
}

// Why bytes do not begin with an order.
#[derive(Clone, Copy, Debug, PartialEq, Eq)]
pub enum OrderFault {
    // A field is not read.
    Bits(BitFault),
    // No order has this kind.
    Kind(u8),
    // A bit after the last field is 1.
    Padding,
}

// Where a stream stops being orders, and why: `index` orders are read, and the next begins at `byte`.
#[derive(Clone, Copy, Debug, PartialEq, Eq)]
pub struct StreamFault {
    pub index: usize,
    pub byte: usize,
    pub cause: OrderFault,
}

// Why a stream is not read into a slice of orders.
#[derive(Clone, Copy, Debug, PartialEq, Eq)]
pub enum ReadFault {
    // The stream has a fault.
    Stream(StreamFault),
    // The slice has fewer cells than the stream has orders.
    TooShort,
}

// Why orders are not written.
#[derive(Clone, Copy, Debug, PartialEq, Eq)]
pub enum WriteFault {
    // A field has too few bits for its value.
    TooWide,
    // The buffer has fewer bytes than the orders take.
    TooShort,
}

impl From<BitFault> for OrderFault {
    ghost from_gives = { λ e r. r ≡ Bits e };

    fn from(below: BitFault) -> OrderFault {
        OrderFault::Bits(below)
    }
}

impl From<StreamFault> for ReadFault {
    ghost from_gives = { λ e r. r ≡ Stream e };

    fn from(below: StreamFault) -> ReadFault {
        ReadFault::Stream(below)
    }
}

// The numbers of the faults below stand in a `match` each, all alike, but that of `StreamFault`, which asks its cause:
// a fault that holds another cannot be cast to a discriminant.
impl BitFault {
    pub fn number(self) -> u8
        ensures numbered { result ≡ bit_fault_number self }
    {
        match self {
            BitFault::Ends => 11,
        }
    }
}

impl OrderFault {
    pub fn number(self) -> u8
        ensures numbered { result ≡ order_fault_number self }
    {
        match self {
            OrderFault::Kind(_) => 10,
            OrderFault::Bits(fault) => fault.number(),
            OrderFault::Padding => 12,
        }
    }
}

impl StreamFault {
    pub fn number(self) -> u8
        ensures numbered { result ≡ stream_fault_number self }
    {
        self.cause.number()
    }
}

impl ReadFault {
    pub fn number(self) -> u8
        ensures numbered { result ≡ read_fault_number self }
    {
        match self {
            ReadFault::Stream(fault) => fault.number(),
            ReadFault::TooShort => 14,
        }
    }
}

impl WriteFault {
    pub fn number(self) -> u8
        ensures numbered { result ≡ write_fault_number self }
    {
        match self {
            WriteFault::TooWide => 13,
            WriteFault::TooShort => 14,
        }
    }
}

#[cfg(test)]
mod tests {
    use super::*;

    #[test]
    fn numbers_the_faults(rt: HostRuntime) {
        let fault = StreamFault {
            index: 3,
            byte: 9,
            cause: OrderFault::Padding,
        };
        assert_eq!(rt; OrderFault::Kind(6).number(), 10);
        assert_eq!(rt; OrderFault::Bits(BitFault::Ends).number(), 11);
        assert_eq!(rt; fault.number(), 12);
        assert_eq!(rt; ReadFault::Stream(fault).number(), 12);
        assert_eq!(rt; ReadFault::TooShort.number(), 14);
        assert_eq!(rt; WriteFault::TooWide.number(), 13);
        assert_eq!(rt; WriteFault::TooShort.number(), 14);
    }
}
