ghost use Rattle.std.specs.Prelude.{◌≡◌, IfOk, Some, string_bytes};
ghost use Rattle.printing.specs.Replies.{reply_text, answer_text, reply_line};

use crate::reply::Reply;
use crate::texts::{
    AccountText, ContractText, InstrumentText, OrderText, OverviewText, RefusalText, TradeText,
};
use market::refusal::Refusal;
use std::alloc::{AllocError, Global};
use std::fmt;
use std::fmt::Display;

impl fmt::Display for Reply {
    ghost output = { λ r. Some (reply_text r) };

    fn fmt<W: fmt::Write>(&self, f: &mut fmt::Formatter<W>) -> fmt::Result {
        match *self {
            Reply::NewContract(number) => write!(f, "contract {number}"),
            Reply::NewInstrument(number) => write!(f, "instrument {number}"),
            Reply::NewAccount(number) => write!(f, "account {number}"),
            Reply::Done => write!(f, "done"),
            Reply::Contract(terms) => ContractText(terms).fmt(f),
            Reply::Instrument(terms) => InstrumentText(terms).fmt(f),
            Reply::Account(terms) => AccountText(terms).fmt(f),
            Reply::Position(lots) => write!(f, "{lots}"),
            Reply::Money(money) => write!(f, "{money}"),
            Reply::Order(order) => OrderText(order).fmt(f),
            Reply::Trade(trade) => TradeText(trade).fmt(f),
            Reply::Market(overview) => OverviewText(overview).fmt(f),
        }
    }
}

// The reply to a call or a question, or why it was turned away, as it is printed.
#[derive(Clone, Copy, Debug, PartialEq, Eq)]
pub struct AnswerText(pub Result<Reply, Refusal>);

impl fmt::Display for AnswerText {
    ghost output = { λ a. Some (answer_text a.0) };

    fn fmt<W: fmt::Write>(&self, f: &mut fmt::Formatter<W>) -> fmt::Result {
        match self.0 {
            Ok(reply) => reply.fmt(f),
            Err(refusal) => RefusalText(refusal).fmt(f),
        }
    }
}

// The line that is printed of an entry: the number of its line in the sheet, its name, and the answer.
pub fn line_of_reply(
    heap: Global,
    number: usize,
    name: &str,
    reply: &Result<Reply, Refusal>,
) -> Result<String, AllocError>
    ensures { IfOk result (λ text. string_bytes text ≡ reply_line number name.now reply.now) }
{
    let answer = AnswerText(*reply);
    format!(in heap; "{number}: {name}: {answer}\n")
}
