ghost use Rattle.records.specs.Orders.{row_of, Checked};
ghost use Rattle.records.specs.Ranges.{contract_in_range, instrument_in_range, account_in_range};
ghost use Rattle.records.specs.Rows.{active, adds_up, ending_agrees};
ghost use Rattle.std.specs.Prelude.{◌≡◌, replicate, pos, is_some, IfSome};

use crate::account::Account;
use crate::codes::{Direction, Ending, OrderType};
use crate::contract::Contract;
use crate::holder::Holder;
use crate::instrument::Instrument;
use crate::order::{Order, UnsoundRow};
use crate::rows::OrderRow;
use crate::terms::{AccountTerms, ContractTerms, InstrumentTerms};

// Each record has a function of its own: one type over any terms would take the records' names out of every definition.

impl Contract {
    // The contract with these terms; none where they are out of range.
    pub fn new(terms: ContractTerms) -> Option<Contract>
        ensures when { is_some result ≡ contract_in_range terms }
        ensures made { IfSome result (λ c. c.terms ≡ terms) }
    {
        if !terms.are_in_range() {
            return None;
        }
        Some(Contract { terms })
    }
}

impl Instrument {
    // The instrument with these terms; none where they are out of range.
    pub fn new(terms: InstrumentTerms) -> Option<Instrument>
        ensures when { is_some result ≡ instrument_in_range terms }
        ensures made { IfSome result (λ i. i.terms ≡ terms) }
    {
        if !terms.are_in_range() {
            return None;
        }
        Some(Instrument { terms })
    }
}

impl Account {
    // The account with these terms, without positions or money; none where they are out of range.
    pub fn new(terms: AccountTerms) -> Option<Account>
        ensures when { is_some result ≡ account_in_range terms }
        ensures made { IfSome result (λ a. (a.holder.terms ≡ terms) × (a.positions ≡ replicate 32 (pos 0)) × (a.money ≡ pos 0)) }
    {
        if !terms.are_in_range() {
            return None;
        }
        Some(Account::empty(Holder { terms }))
    }
}

// Whether filled, remaining and withdrawn make up the size.
fn adds_up(row: &OrderRow) -> bool
    ensures { result ≡ adds_up row.now }
{
    u64::from(row.filled) + u64::from(row.remaining) + u64::from(row.withdrawn)
        == u64::from(row.size)
}

// Whether the ending is the one that the quantities tell.
fn ending_agrees(row: &OrderRow) -> bool
    ensures { result ≡ ending_agrees row.now.ending row.now.remaining row.now.withdrawn }
{
    match row.ending {
        None => row.remaining > 0 && row.withdrawn == 0,
        Some(Ending::Filled) => row.remaining == 0 && row.withdrawn == 0,
        Some(Ending::Withdrawn | Ending::Removed) => row.remaining == 0 && row.withdrawn > 0,
    }
}

// The order record with the row's fields; an error where the row fails the check.
impl TryFrom<OrderRow> for Order {
    type Error = UnsoundRow;

    ghost try_from_gives = { Checked };

    fn try_from(row: OrderRow) -> Result<Order, UnsoundRow> {
        let (Ok(direction), Ok(order_type)) = (
            Direction::try_from(row.ticket.direction),
            OrderType::try_from(row.ticket.order_type),
        ) else {
            return Err(UnsoundRow);
        };
        if row.ticket.size != row.size || !adds_up(&row) || !ending_agrees(&row) {
            return Err(UnsoundRow);
        }
        Ok(Order {
            ticket: row.ticket,
            direction,
            order_type,
            size: row.size,
            filled: row.filled,
            remaining: row.remaining,
            withdrawn: row.withdrawn,
            ending: row.ending,
        })
    }
}

// The row with the order's fields.
impl From<Order> for OrderRow {
    ghost from_gives = { λ order row. row ≡ row_of order };

    fn from(order: Order) -> OrderRow {
        OrderRow {
            ticket: order.ticket,
            size: order.size,
            filled: order.filled,
            remaining: order.remaining,
            withdrawn: order.withdrawn,
            ending: order.ending,
        }
    }
}

impl Order {
    // Whether something remains to be filled: the test of a row again, which is plainer than making the row.
    pub fn is_active(&self) -> bool
        ensures { result ≡ active (row_of self.now) }
    {
        self.remaining > 0
    }
}
