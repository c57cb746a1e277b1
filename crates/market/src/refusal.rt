ghost use Rattle.std.specs.Prelude.{◌≡◌, Some};
ghost use Rattle.market.specs.Refusals.{ground, words};

use std::error::Error;
use std::fmt;

// Why a call or a question was turned away: a case for each of the numbered grounds.
#[derive(Clone, Copy, Debug, PartialEq, Eq)]
pub enum Refusal {
    // the call does not go with the market's phase
    WrongPhase,
    // a number without a record
    Unknown,
    // a field outside its range or rule, or a record that the instrument rule does not admit
    Inadmissible,
    // a leg past its last trading day
    PastLastDay,
    // a price outside the bounds
    OutOfBounds,
    // a full table, or as many orders as the capacity
    Full,
    // a position that could pass the clearing centre's number, in this contract
    OverLimit(u32),
    // a match with this order, which is of the ticket's own taxpayer
    OwnOrder(u32),
    // an order that belongs to another account
    AnotherAccount,
    // an order that is not active
    NotActive,
}

// The ground's number.
impl From<Refusal> for u32 {
    ghost from_gives = { λ refusal n. n ≡ ground refusal };

    fn from(refusal: Refusal) -> u32 {
        match refusal {
            Refusal::WrongPhase => 1,
            Refusal::Unknown => 2,
            Refusal::Inadmissible => 3,
            Refusal::PastLastDay => 4,
            Refusal::OutOfBounds => 5,
            Refusal::Full => 6,
            Refusal::OverLimit(_) => 7,
            Refusal::OwnOrder(_) => 8,
            Refusal::AnotherAccount => 9,
            Refusal::NotActive => 10,
        }
    }
}

impl Refusal {
    // The ground in words for a person. It stands beside `Display`, since it cannot fail.
    pub fn message(self) -> &'static str
        ensures { result.now ≡ words self }
    {
        match self {
            Refusal::WrongPhase => "not in this phase",
            Refusal::Unknown => "unknown",
            Refusal::Inadmissible => "out of range or not admitted",
            Refusal::PastLastDay => "past the last trading day",
            Refusal::OutOfBounds => "price outside the bounds",
            Refusal::Full => "full",
            Refusal::OverLimit(_) => "over the limit",
            Refusal::OwnOrder(_) => "own order",
            Refusal::AnotherAccount => "another account's order",
            Refusal::NotActive => "not active",
        }
    }
}

impl fmt::Display for Refusal {
    ghost output = { λ refusal. Some (words refusal) };

    fn fmt<W: fmt::Write>(&self, f: &mut fmt::Formatter<W>) -> fmt::Result {
        f.write_str(self.message())
    }
}

impl Error for Refusal {}
