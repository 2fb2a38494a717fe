// The kinds of the five orders, and the numbers that stand for them.
ghost use Rattle.std.specs.Prelude.{◌≡◌};
ghost use Rattle.orders.specs.Kinds.{code_of, kind_of, Decodes};

use crate::fault::OrderFault;
use crate::order::Order;

// The kind of an order.
#[derive(Clone, Copy, Debug, PartialEq, Eq)]
pub(crate) enum Kind {
    Set = 0,
    Lift = 1,
    Move = 2,
    PlanFor = 3,
    PlanWithin = 4,
}

impl TryFrom<u8> for Kind {
    type Error = OrderFault;

    ghost try_from_gives = { Decodes };

    fn try_from(code: u8) -> Result<Self, OrderFault> {
        match code {
            0 => Ok(Kind::Set),
            1 => Ok(Kind::Lift),
            2 => Ok(Kind::Move),
            3 => Ok(Kind::PlanFor),
            4 => Ok(Kind::PlanWithin),
            _ => Err(OrderFault::Kind(code)),
        }
    }
}

impl From<Kind> for u64 {
    ghost from_gives = { λ kind code. code ≡ code_of kind };

    fn from(kind: Kind) -> u64 {
        kind as u64
    }
}

impl Order {
    // The kind of the order.
    pub(crate) fn kind(&self) -> Kind
        ensures value { result ≡ kind_of self.now }
    {
        match self {
            Order::Set(_) => Kind::Set,
            Order::Lift { .. } => Kind::Lift,
            Order::Move(_) => Kind::Move,
            Order::PlanFor { .. } => Kind::PlanFor,
            Order::PlanWithin { .. } => Kind::PlanWithin,
        }
    }
}
