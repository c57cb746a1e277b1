use market::overview::Overview;
use records::rows::{OrderRow, Trade};
use records::terms::{AccountTerms, ContractTerms, InstrumentTerms};

// What a call or a question was answered with, where it was not turned away.
#[derive(Clone, Copy, Debug, PartialEq, Eq)]
pub enum Reply {
    // a contract, an instrument or an account entered under this number
    NewContract(u32),
    NewInstrument(u32),
    NewAccount(u32),
    // a call that answers nothing, taken
    Done,
    // what a question tells
    Contract(ContractTerms),
    Instrument(InstrumentTerms),
    Account(AccountTerms),
    Position(i64),
    Money(i64),
    Order(OrderRow),
    Trade(Trade),
    Market(Overview),
}
