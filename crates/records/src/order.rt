ghost use Rattle.std.specs.Prelude.{◌≡◌, ◌+◌, true};
ghost use Rattle.records.specs.Codes.{direction_code, type_code};
ghost use Rattle.records.specs.Rows.{ending_agrees};

use crate::codes::{Direction, Ending, OrderType};
use crate::terms::Ticket;

// An order: the fields of a row that passed the check, with direction and type told by name.
#[derive(Clone, Copy, Debug, PartialEq, Eq)]
pub struct Order {
    pub ticket: Ticket,
    pub direction: Direction,
    pub order_type: OrderType,
    pub size: u32,
    pub filled: u32,
    pub remaining: u32,
    pub withdrawn: u32,
    pub ending: Option<Ending>,
    // the direction and the type are those keyed in the ticket, and so is the size
    ghost side: { direction_code direction ≡ ticket.direction },
    ghost typed: { type_code order_type ≡ ticket.order_type },
    ghost sized: { ticket.size ≡ size },
    // filled, remaining and withdrawn make up the size
    ghost whole: { filled + remaining + withdrawn ≡ size },
    // the ending is the one that the quantities tell
    ghost ended: { ending_agrees ending remaining withdrawn ≡ true },
}

// A row that fails the check, so that no order record has its fields.
#[derive(Clone, Copy, Debug, PartialEq, Eq)]
pub struct UnsoundRow;
