ghost use Rattle.std.specs.Prelude.{◌≡◌, length};
ghost use Rattle.records.specs.Registers.{unused};
ghost use Rattle.market.specs.Capacity.{capacity_of};
ghost use Rattle.market.specs.States.{begun};
ghost use Rattle.market.specs.Views.{view};

use crate::market::Market;
use books::ledger::Ledger;
use records::codes::Phase;
use records::contract::Contract;
use records::instrument::Instrument;
use records::register::Register;
use records::rows::{OrderRow, Trade};
use records::terms::{ContractTerms, InstrumentTerms};
use tables::table::Table;

const MOST_ORDERS: usize = 4_096;

const FIRST_DATE: u32 = 1;

// What the unused places of the tables hold; nobody is told of them.
const VACANT_CONTRACT: ContractTerms = ContractTerms {
    underlying: 1,
    last_day: 1,
    lower: 0,
    settlement: 0,
    upper: 0,
    w: 1,
    r: 1,
};

const VACANT_INSTRUMENT: InstrumentTerms = InstrumentTerms {
    kind: 1,
    first: 1,
    second: None,
    lower: 0,
    upper: 0,
};

// The most orders that are ever registered over so many places for orders and trades.
fn capacity_over(order_places: usize, trade_places: usize) -> usize
    ensures { result ≡ capacity_of order_places trade_places }
{
    MOST_ORDERS.min(order_places).min(trade_places / 2)
}

impl<'a> Market<'a> {
    // An empty market over these places, whatever they hold.
    pub fn begin(orders: &'a mut [OrderRow], trades: &'a mut [Trade]) -> Market<'a>
        ensures state { view result ≡ begun (length orders.old) (length trades.old) }
        ensures orders { unused result.orders ≡ orders.old }
        ensures trades { unused result.trades ≡ trades.old }
        ensures orders_memory { result.orders.places.ghost_name ≡ orders.entry.ghost_name }
        ensures trades_memory { result.trades.places.ghost_name ≡ trades.entry.ghost_name }
    {
        let capacity = capacity_over(orders.len(), trades.len());
        Market {
            phase: Phase::Suspended,
            date: FIRST_DATE,
            capacity,
            contracts: Table::new(Contract {
                terms: VACANT_CONTRACT,
            }),
            instruments: Table::new(Instrument {
                terms: VACANT_INSTRUMENT,
            }),
            accounts: Ledger::new(),
            orders: Register::begin(orders),
            trades: Register::begin(trades),
        }
    }
}
