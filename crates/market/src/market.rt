ghost use Rattle.std.specs.Prelude.{◌≡◌, ℕ, ◌<◌, ◌≤◌, true, length, slice_index_or};
ghost use Rattle.records.specs.Registers.{listed};
ghost use Rattle.records.specs.Rows.{sound};
ghost use Rattle.market.specs.Capacity.{capacity_of, places, blank};

use books::ledger::Ledger;
use records::codes::Phase;
use records::contract::Contract;
use records::instrument::Instrument;
use records::register::{OrderRegister, TradeRegister};
use tables::table::Table;

// A market over two pieces of memory that the host lends: the places of the order register and those of the trades
// register. Only its calls change it.
#[derive(Drop)]
pub struct Market<'a> {
    pub(crate) phase: Phase,
    pub(crate) date: u32,
    pub(crate) capacity: usize,
    pub(crate) contracts: Table<Contract, 32>,
    pub(crate) instruments: Table<Instrument, 64>,
    pub(crate) accounts: Ledger,
    pub(crate) orders: OrderRegister<'a>,
    pub(crate) trades: TradeRegister<'a>,
    // the capacity is the least of 4,096, the order places, and half the trade places
    ghost capped: { capacity ≡ capacity_of (places orders) (places trades) },
    // every registered order's row passes the check of an order record
    ghost rows_sound: { (k : ℕ) → k < length (listed orders) → sound (slice_index_or (listed orders) k blank) ≡ true },
}
