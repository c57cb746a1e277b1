ghost use Rattle.std.specs.Prelude.{◌≡◌, Decides};
ghost use Rattle.records.specs.Codes.{direction_of};
ghost use Rattle.orderbook.specs.Opposites.{participant_of, Opposite};
ghost use Rattle.orderbook.specs.Tests.{sides_meet, terms_meet, opposite_test, opposite};

use records::account::Account;
use records::codes::Direction;
use records::numbering::record_of;
use records::rows::OrderRow;

// Whether one order buys and the other sells, at prices that meet.
fn do_sides_meet(a: &OrderRow, b: &OrderRow) -> bool
    ensures { result ≡ sides_meet (direction_of a.now.ticket.direction) a.now.ticket.price (direction_of b.now.ticket.direction) b.now.ticket.price }
{
    match (
        Direction::try_from(a.ticket.direction),
        Direction::try_from(b.ticket.direction),
    ) {
        (Ok(Direction::Buy), Ok(Direction::Sell)) => b.ticket.price <= a.ticket.price,
        (Ok(Direction::Sell), Ok(Direction::Buy)) => a.ticket.price <= b.ticket.price,
        _ => false,
    }
}

// The participant through whom an account trades, if the account is known.
fn participant(accounts: &[Account], number: u32) -> Option<u32>
    ensures { result ≡ participant_of accounts.now number }
{
    record_of(accounts, number as usize).map(|account| account.holder.terms.participant)
}

// Whether both are order book orders, or negotiated with each other.
fn do_terms_meet(accounts: &[Account], a: &OrderRow, b: &OrderRow) -> bool
    ensures { result ≡ terms_meet accounts.now a.now b.now }
{
    match (a.ticket.addressee, b.ticket.addressee) {
        (None, None) => true,
        (Some(x), Some(y)) => {
            participant(accounts, b.ticket.account) == Some(x)
                && participant(accounts, a.ticket.account) == Some(y)
                && a.ticket.reference == b.ticket.reference
        }
        _ => false,
    }
}

// The test of two orders, by its definition.
fn test_opposite(accounts: &[Account], a: &OrderRow, b: &OrderRow) -> bool
    ensures { result ≡ opposite_test accounts.now a.now b.now }
{
    a.ticket.instrument == b.ticket.instrument
        && do_sides_meet(a, b)
        && do_terms_meet(accounts, a, b)
}

// Whether two orders are opposite.
pub fn is_opposite(accounts: &[Account], a: &OrderRow, b: &OrderRow) -> bool
    ensures value { result ≡ opposite accounts.now a.now b.now }
    ensures decides { Decides result (Opposite accounts.now a.now b.now) }
{
    test_opposite(accounts, a, b)
}
