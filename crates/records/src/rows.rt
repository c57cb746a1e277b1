ghost use Rattle.std.specs.Prelude.{◌≡◌};
ghost use Rattle.records.specs.Rows.{active};

use crate::codes::Ending;
use crate::terms::Ticket;

// What a place of the order register holds: an order's fields with nothing promised of them.
// `Order` is made of a row that passes its check.
#[derive(Clone, Copy, Debug, Default, PartialEq, Eq)]
pub struct OrderRow {
    pub ticket: Ticket,
    pub size: u32,
    pub filled: u32,
    pub remaining: u32,
    pub withdrawn: u32,
    // none for an order that has not ended
    pub ending: Option<Ending>,
}

// What a place of the trades register holds: a quantity of a contract that passed from one order to another at a price.
#[derive(Clone, Copy, Debug, Default, PartialEq, Eq)]
pub struct Trade {
    pub contract: u32,
    pub buying_order: u32,
    pub selling_order: u32,
    pub quantity: u32,
    pub price: i32,
}

impl OrderRow {
    // Whether something remains to be filled.
    pub fn is_active(&self) -> bool
        ensures { result ≡ active self.now }
    {
        self.remaining > 0
    }
}
