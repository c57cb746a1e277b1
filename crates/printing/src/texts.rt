ghost use Rattle.std.specs.Prelude.{Some};
ghost use Rattle.printing.specs.Texts.{optional, phase_word, ending_word, refusal_text, prices_text, contract_text, instrument_text, account_text, ticket_text, terms_text, order_text, trade_text, counts_text, quantities_text, overview_text, tail_text};

use market::overview::Overview;
use market::refusal::Refusal;
use records::codes::{Ending, Phase};
use records::rows::{OrderRow, Trade};
use records::terms::{AccountTerms, ContractTerms, InstrumentTerms, Ticket};
use std::fmt;

// A number that may be absent.
#[derive(Clone, Copy)]
struct Optional(Option<u32>);

impl fmt::Display for Optional {
    ghost output = { λ o. Some (optional o.0) };

    fn fmt<W: fmt::Write>(&self, f: &mut fmt::Formatter<W>) -> fmt::Result {
        match self.0 {
            Some(n) => write!(f, "{n}"),
            None => write!(f, "-"),
        }
    }
}

#[derive(Clone, Copy)]
struct PhaseText(Phase);

impl fmt::Display for PhaseText {
    ghost output = { λ p. Some (phase_word p.0) };

    fn fmt<W: fmt::Write>(&self, f: &mut fmt::Formatter<W>) -> fmt::Result {
        f.write_str(match self.0 {
            Phase::Suspended => "suspended",
            Phase::Trading => "trading",
        })
    }
}

#[derive(Clone, Copy)]
struct EndingText(Option<Ending>);

impl fmt::Display for EndingText {
    ghost output = { λ e. Some (ending_word e.0) };

    fn fmt<W: fmt::Write>(&self, f: &mut fmt::Formatter<W>) -> fmt::Result {
        f.write_str(match self.0 {
            None => "none",
            Some(Ending::Filled) => "filled",
            Some(Ending::Withdrawn) => "withdrawn",
            Some(Ending::Removed) => "removed",
        })
    }
}

// What a refusal tells besides its ground.
#[derive(Clone, Copy)]
struct Besides(Refusal);

impl fmt::Display for Besides {
    ghost output = { λ b. Some (tail_text b.0) };

    fn fmt<W: fmt::Write>(&self, f: &mut fmt::Formatter<W>) -> fmt::Result {
        match self.0 {
            Refusal::OverLimit(contract) => write!(f, ", contract {contract}"),
            Refusal::OwnOrder(order) => write!(f, ", order {order}"),
            _ => Ok(()),
        }
    }
}

#[derive(Clone, Copy)]
pub(crate) struct RefusalText(pub(crate) Refusal);

impl fmt::Display for RefusalText {
    ghost output = { λ r. Some (refusal_text r.0) };

    fn fmt<W: fmt::Write>(&self, f: &mut fmt::Formatter<W>) -> fmt::Result {
        let number = u32::from(self.0);
        let refusal = self.0;
        let besides = Besides(self.0);
        write!(f, "refused {number} {refusal}{besides}")
    }
}

// A contract's settlement price between its limits.
#[derive(Clone, Copy)]
struct Prices(ContractTerms);

impl fmt::Display for Prices {
    ghost output = { λ t. Some (prices_text t.0) };

    fn fmt<W: fmt::Write>(&self, f: &mut fmt::Formatter<W>) -> fmt::Result {
        let ContractTerms {
            lower,
            settlement,
            upper,
            ..
        } = self.0;
        write!(f, "lower {lower} settlement {settlement} upper {upper}")
    }
}

#[derive(Clone, Copy)]
pub(crate) struct ContractText(pub(crate) ContractTerms);

impl fmt::Display for ContractText {
    ghost output = { λ t. Some (contract_text t.0) };

    fn fmt<W: fmt::Write>(&self, f: &mut fmt::Formatter<W>) -> fmt::Result {
        let ContractTerms {
            underlying,
            last_day,
            w,
            r,
            ..
        } = self.0;
        let prices = Prices(self.0);
        write!(
            f,
            "underlying {underlying} last-day {last_day} {prices} w {w} r {r}"
        )
    }
}

#[derive(Clone, Copy)]
pub(crate) struct InstrumentText(pub(crate) InstrumentTerms);

impl fmt::Display for InstrumentText {
    ghost output = { λ t. Some (instrument_text t.0) };

    fn fmt<W: fmt::Write>(&self, f: &mut fmt::Formatter<W>) -> fmt::Result {
        let InstrumentTerms {
            kind,
            first,
            second,
            lower,
            upper,
        } = self.0;
        let second = Optional(second);
        write!(
            f,
            "kind {kind} first {first} second {second} lower {lower} upper {upper}"
        )
    }
}

#[derive(Clone, Copy)]
pub(crate) struct AccountText(pub(crate) AccountTerms);

impl fmt::Display for AccountText {
    ghost output = { λ t. Some (account_text t.0) };

    fn fmt<W: fmt::Write>(&self, f: &mut fmt::Formatter<W>) -> fmt::Result {
        let AccountTerms {
            participant,
            taxpayer,
        } = self.0;
        write!(f, "participant {participant} taxpayer {taxpayer}")
    }
}

// A ticket's account, instrument, direction, type and price.
#[derive(Clone, Copy)]
struct Keyed(Ticket);

impl fmt::Display for Keyed {
    ghost output = { λ t. Some (ticket_text t.0) };

    fn fmt<W: fmt::Write>(&self, f: &mut fmt::Formatter<W>) -> fmt::Result {
        let Ticket {
            account,
            instrument,
            direction,
            order_type,
            price,
            ..
        } = self.0;
        write!(
            f,
            "account {account} instrument {instrument} direction {direction} type {order_type} price {price}"
        )
    }
}

// What a ticket may leave out.
#[derive(Clone, Copy)]
struct Options(Ticket);

impl fmt::Display for Options {
    ghost output = { λ t. Some (terms_text t.0) };

    fn fmt<W: fmt::Write>(&self, f: &mut fmt::Formatter<W>) -> fmt::Result {
        let addressee = Optional(self.0.addressee);
        let reference = Optional(self.0.reference);
        let expiry = Optional(self.0.expiry);
        write!(
            f,
            "addressee {addressee} reference {reference} expiry {expiry}"
        )
    }
}

// What became of an order's size.
#[derive(Clone, Copy)]
struct Quantities(OrderRow);

impl fmt::Display for Quantities {
    ghost output = { λ o. Some (quantities_text o.0) };

    fn fmt<W: fmt::Write>(&self, f: &mut fmt::Formatter<W>) -> fmt::Result {
        let OrderRow {
            filled,
            remaining,
            withdrawn,
            ending,
            ..
        } = self.0;
        let ending = EndingText(ending);
        write!(
            f,
            "filled {filled} remaining {remaining} withdrawn {withdrawn} ending {ending}"
        )
    }
}

#[derive(Clone, Copy)]
pub(crate) struct OrderText(pub(crate) OrderRow);

impl fmt::Display for OrderText {
    ghost output = { λ o. Some (order_text o.0) };

    fn fmt<W: fmt::Write>(&self, f: &mut fmt::Formatter<W>) -> fmt::Result {
        let keyed = Keyed(self.0.ticket);
        let size = self.0.size;
        let options = Options(self.0.ticket);
        let quantities = Quantities(self.0);
        write!(f, "{keyed} size {size} {options} {quantities}")
    }
}

#[derive(Clone, Copy)]
pub(crate) struct TradeText(pub(crate) Trade);

impl fmt::Display for TradeText {
    ghost output = { λ t. Some (trade_text t.0) };

    fn fmt<W: fmt::Write>(&self, f: &mut fmt::Formatter<W>) -> fmt::Result {
        let Trade {
            contract,
            buying_order,
            selling_order,
            quantity,
            price,
        } = self.0;
        write!(
            f,
            "contract {contract} quantity {quantity} price {price} buyer order {buying_order} seller order {selling_order}"
        )
    }
}

// How many records of each kind there are.
#[derive(Clone, Copy)]
struct Counts(Overview);

impl fmt::Display for Counts {
    ghost output = { λ v. Some (counts_text v.0) };

    fn fmt<W: fmt::Write>(&self, f: &mut fmt::Formatter<W>) -> fmt::Result {
        let Overview {
            contracts,
            instruments,
            accounts,
            orders,
            trades,
            ..
        } = self.0;
        write!(
            f,
            "contracts {contracts} instruments {instruments} accounts {accounts} orders {orders} trades {trades}"
        )
    }
}

#[derive(Clone, Copy)]
pub(crate) struct OverviewText(pub(crate) Overview);

impl fmt::Display for OverviewText {
    ghost output = { λ v. Some (overview_text v.0) };

    fn fmt<W: fmt::Write>(&self, f: &mut fmt::Formatter<W>) -> fmt::Result {
        let Overview {
            phase,
            date,
            capacity,
            ..
        } = self.0;
        let phase = PhaseText(phase);
        let counts = Counts(self.0);
        write!(f, "{phase} date {date} capacity {capacity} {counts}")
    }
}
