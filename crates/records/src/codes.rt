ghost use Rattle.std.specs.Prelude.{◌≡◌};
ghost use Rattle.records.specs.Codes.{direction_code, type_code, ending_code, endings_code, phase_code, direction_of, type_of, Decodes};

// The side of a ticket.
#[derive(Clone, Copy, Debug, PartialEq, Eq)]
pub enum Direction {
    Buy,
    Sell,
}

// What becomes of the part of a ticket that finds no opposite order: a Limit order's rest stays, an
// IOC (immediate or cancel) order's rest is removed, and a FOK (fill or kill) order is filled whole or removed whole.
#[derive(Clone, Copy, Debug, PartialEq, Eq)]
pub enum OrderType {
    Limit,
    Ioc,
    Fok,
}

// How an order came to its end: it was filled, its account withdrew the rest, or the market removed the rest.
#[derive(Clone, Copy, Debug, PartialEq, Eq)]
pub enum Ending {
    Filled,
    Withdrawn,
    Removed,
}

// Whether the market takes tickets now.
#[derive(Clone, Copy, Debug, PartialEq, Eq)]
pub enum Phase {
    Suspended,
    Trading,
}

// A number that no case of a list has.
#[derive(Clone, Copy, Debug, PartialEq, Eq)]
pub struct UnknownCode {
    pub code: u32,
}

// The number by which the direction is keyed.
impl From<Direction> for u32 {
    ghost from_gives = { λ direction n. n ≡ direction_code direction };

    fn from(direction: Direction) -> u32 {
        match direction {
            Direction::Buy => 1,
            Direction::Sell => 2,
        }
    }
}

// The direction keyed by this number, if there is one.
impl TryFrom<u32> for Direction {
    type Error = UnknownCode;

    ghost try_from_gives = { Decodes direction_code direction_of };

    fn try_from(code: u32) -> Result<Direction, UnknownCode> {
        match code {
            1 => Ok(Direction::Buy),
            2 => Ok(Direction::Sell),
            _ => Err(UnknownCode { code }),
        }
    }
}

// The number by which the type is keyed.
impl From<OrderType> for u32 {
    ghost from_gives = { λ order_type n. n ≡ type_code order_type };

    fn from(order_type: OrderType) -> u32 {
        match order_type {
            OrderType::Limit => 0,
            OrderType::Ioc => 3,
            OrderType::Fok => 4,
        }
    }
}

// The type keyed by this number, if there is one.
impl TryFrom<u32> for OrderType {
    type Error = UnknownCode;

    ghost try_from_gives = { Decodes type_code type_of };

    fn try_from(code: u32) -> Result<OrderType, UnknownCode> {
        match code {
            0 => Ok(OrderType::Limit),
            3 => Ok(OrderType::Ioc),
            4 => Ok(OrderType::Fok),
            _ => Err(UnknownCode { code }),
        }
    }
}

// The ending's number.
impl From<Ending> for u32 {
    ghost from_gives = { λ ending n. n ≡ ending_code ending };

    fn from(ending: Ending) -> u32 {
        match ending {
            Ending::Filled => 1,
            Ending::Withdrawn => 2,
            Ending::Removed => 3,
        }
    }
}

impl Ending {
    // The number of what became of an order: its ending's, or 0 while it has not ended.
    pub fn code_of(ending: Option<Ending>) -> u32
        ensures { result ≡ endings_code ending }
    {
        ending.map_or(0, u32::from)
    }
}

// The phase's number.
impl From<Phase> for u32 {
    ghost from_gives = { λ phase n. n ≡ phase_code phase };

    fn from(phase: Phase) -> u32 {
        match phase {
            Phase::Suspended => 0,
            Phase::Trading => 1,
        }
    }
}
