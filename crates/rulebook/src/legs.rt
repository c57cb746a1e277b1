ghost use Rattle.std.specs.Prelude.{◌≡◌};
ghost use Rattle.rulebook.specs.Legs.{taken, Each, Mapped};

use records::codes::Direction;

// One leg of an instrument: a contract, and what a purchase of the instrument does in it. A leg that a purchase buys
// weighs +1, one that a purchase sells weighs -1.
#[derive(Clone, Copy, Debug, PartialEq, Eq)]
pub struct Leg {
    pub contract: u32,
    pub in_purchase: Direction,
}

// Something for each leg of an instrument: at most two, in the order of the legs. Variants of its own, since none, one and
// two legs are what callers tell apart.
#[derive(Clone, Copy, Debug, PartialEq, Eq)]
pub enum Legs<T> {
    NoLeg,
    One(T),
    Two(T, T),
}

// One of the two legs that an instrument may have.
#[derive(Clone, Copy, Debug, PartialEq, Eq)]
pub enum LegPlace {
    First,
    Second,
}

// Two prices that others lie between: a contract's limits or an instrument's bounds.
#[derive(Clone, Copy, Debug, PartialEq, Eq)]
pub struct Bounds {
    pub lower: i32,
    pub upper: i32,
}

// A name of its own and no default: bounds of nought stand for none.
pub const NO_BOUNDS: Bounds = Bounds { lower: 0, upper: 0 };

impl Leg {
    // What an order of this direction does in the leg's contract: it buys where a purchase of the instrument does the same.
    pub fn direction_in(&self, order: Direction) -> Direction
        ensures { result ≡ taken order self.now.in_purchase }
    {
        if order == self.in_purchase {
            Direction::Buy
        } else {
            Direction::Sell
        }
    }
}

impl<T> Legs<T> {
    // What `f` makes of each, in the same order.
    pub fn map<U, F: Fn(T) -> U>(self, f: F) -> Legs<U>
        requires { Each (F.pre f) self }
        ensures { Mapped (F.post f) self result }
    {
        match self {
            Legs::NoLeg => Legs::NoLeg,
            Legs::One(a) => Legs::One(f(a)),
            Legs::Two(a, b) => Legs::Two(f(a), f(b)),
        }
    }
}
