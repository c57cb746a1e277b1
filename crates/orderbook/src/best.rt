ghost use Rattle.std.specs.Prelude.{◌≡◌, length};
ghost use Rattle.orderbook.specs.Best.{better, candidate, best_below};
ghost use Rattle.orderbook.specs.Sequence.{BestOf};

use crate::opposite::is_opposite;
use records::account::Account;
use records::codes::Direction;
use records::rows::OrderRow;

// Whether the first of two orders has the better price for an order: the lower for a purchase, the higher for a sale.
fn is_better(me: &OrderRow, x: &OrderRow, y: &OrderRow) -> bool
    ensures { result ≡ better me.now x.now y.now }
{
    match Direction::try_from(me.ticket.direction) {
        Ok(Direction::Buy) => x.ticket.price < y.ticket.price,
        Ok(Direction::Sell) => y.ticket.price < x.ticket.price,
        Err(_) => false,
    }
}

// Whether an order is active and opposite to an order. The accounts and the order that seeks go to each function as they are:
// a struct of both would be made anew at each call.
fn is_candidate(accounts: &[Account], me: &OrderRow, row: &OrderRow) -> bool
    ensures { result ≡ candidate accounts.now me.now row.now }
{
    row.is_active() && is_opposite(accounts, me, row)
}

// The place of the best opposite order, read through: the place is what is asked for, so it is kept, and a `fold` would carry
// the same.
fn best_place(accounts: &[Account], rows: &[OrderRow], me: &OrderRow) -> Option<usize>
    ensures { result ≡ best_below accounts.now me.now rows.now (length rows.now) }
{
    let mut best: Option<usize> = None;
    for (i, row) in rows.iter().enumerate() {
        if is_candidate(accounts, me, row) {
            match best {
                None => best = Some(i),
                Some(k) => {
                    if is_better(me, row, &rows[k]) {
                        best = Some(i);
                    }
                }
            }
        }
    }
    best
}

// The number of the best active order that is opposite to an order, if there is one.
pub fn best_opposite(accounts: &[Account], rows: &[OrderRow], me: &OrderRow) -> Option<usize>
    ensures { BestOf accounts.now rows.now me.now result }
{
    let at = best_place(accounts, rows, me)?;
    Some(at + 1)
}
