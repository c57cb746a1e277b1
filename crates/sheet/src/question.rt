// A question to the market. A record is asked for by its number.
#[derive(Clone, Copy, Debug, PartialEq, Eq)]
pub enum Question {
    Contract(u32),
    Instrument(u32),
    Account(u32),
    Position { account: u32, contract: u32 },
    Money(u32),
    Order(u32),
    Trade(u32),
    Market,
}
