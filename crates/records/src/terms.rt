// What is keyed for a record: plain fields with any content. `checks` says which content is in range.

// A contract as keyed. A price's value in money is the price times `w`, divided by `r`.
#[derive(Clone, Copy, Debug, Default, PartialEq, Eq)]
pub struct ContractTerms {
    pub underlying: u32,
    pub last_day: u32,
    pub lower: i32,
    pub settlement: i32,
    pub upper: i32,
    pub w: u32,
    pub r: u32,
}

// An instrument as keyed: a kind code known to the instrument rules, one or two contracts by number, and price bounds. The
// code is a number, since any can be keyed and the list of kinds is open.
#[derive(Clone, Copy, Debug, Default, PartialEq, Eq)]
pub struct InstrumentTerms {
    pub kind: u32,
    pub first: u32,
    pub second: Option<u32>,
    pub lower: i32,
    pub upper: i32,
}

// An account as keyed: the participant that it trades through and the taxpayer that it trades for.
#[derive(Clone, Copy, Debug, Default, PartialEq, Eq)]
pub struct AccountTerms {
    pub participant: u32,
    pub taxpayer: u32,
}

// A ticket as keyed. Direction and type are the numbers of `codes`, and not its enums, since any number can be keyed; an
// addressee is a participant.
#[derive(Clone, Copy, Debug, Default, PartialEq, Eq)]
pub struct Ticket {
    pub account: u32,
    pub instrument: u32,
    pub direction: u32,
    pub order_type: u32,
    pub price: i32,
    pub size: u32,
    pub addressee: Option<u32>,
    pub reference: Option<u32>,
    pub expiry: Option<u32>,
}
