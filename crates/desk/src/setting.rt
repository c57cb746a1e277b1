ghost use Rattle.std.specs.Prelude.{◌≡◌, ◌||◌, Some, Ok, nat_lt};
ghost use Rattle.records.specs.Registers.{replaced};
ghost use Rattle.sheet.specs.Faults.{told};
ghost use Rattle.sheet.specs.declared.fault.Fault.TheVariants.{OutOfRange};
ghost use Rattle.desk.specs.Settings.{unset, unless, choosing, set_memory, set_limit, set_pledge, set_margin, with_entry};

use crate::host::{CentreKind, Host};
use sheet::fault::Fault;
use sheet::key::Key;
use sheet::set_up::SetUp;

// The most places that a host lends for orders, and for trades.
const MOST_PLACES: u64 = 65_536;

const LARGEST_LIMIT: u64 = 1_000_000;

const LARGEST_PLEDGE: u64 = 1_000_000_000_000;

const LARGEST_MARGIN: u64 = 1_000_000_000;

// The value of this key, if it is in its range.
fn within<'l>(value: u64, least: u64, most: u64, key: Key) -> Result<u64, Fault<&'l [u8]>>
    ensures { told result ≡ unless (nat_lt value least || nat_lt most value) (OutOfRange key) (Ok value) }
{
    if (least..=most).contains(&value) {
        Ok(value)
    } else {
        Err(Fault::OutOfRange(key))
    }
}

// Enters a value in the place of a number; a number without a place enters nothing. By a tested index, since a slice's
// `get_mut` does not tell what the slice holds then.
fn enter(table: &mut [Option<u64>], number: u32, value: u64)
    ensures { table.new ≡ replaced table.old number (Some value) }
{
    let number = number as usize;
    if number > 0 && number <= table.len() {
        table[number - 1] = Some(value);
    }
}

impl Host {
    // Nothing set up yet: 4,096 places for orders, 8,192 for trades, and no centre chosen.
    pub fn new() -> Host
        ensures { result ≡ unset }
    {
        Host {
            order_places: 4_096,
            trade_places: 8_192,
            centre: None,
            limits: [None; 32],
            pledges: [None; 64],
            margins: [None; 32],
        }
    }

    fn with_memory<'l>(mut self, orders: u64, trades: u64) -> Result<Host, Fault<&'l [u8]>>
        ensures { told result ≡ set_memory self orders trades }
    {
        self.order_places = within(orders, 0, MOST_PLACES, Key::Orders)? as usize;
        self.trade_places = within(trades, 0, MOST_PLACES, Key::Trades)? as usize;
        Ok(self)
    }

    // The same with this centre chosen, unless it is the other one that is.
    fn choosing<'l>(self, centre: CentreKind) -> Result<Host, Fault<&'l [u8]>>
        ensures { told result ≡ choosing centre self }
    {
        if self.centre.is_some_and(|chosen| chosen != centre) {
            return Err(Fault::TwoCentres);
        }
        Ok(Host {
            centre: Some(centre),
            ..self
        })
    }

    fn with_limit<'l>(self, contract: u32, limit: u32) -> Result<Host, Fault<&'l [u8]>>
        ensures { told result ≡ set_limit self contract limit }
    {
        let limit = within(u64::from(limit), 0, LARGEST_LIMIT, Key::Limit)?;
        let mut host = self.choosing(CentreKind::Lots)?;
        enter(&mut host.limits, contract, limit);
        Ok(host)
    }

    // Not one with `with_margin`: the table that is entered would have to be handed in, which is no shorter.
    fn with_pledge<'l>(self, account: u32, amount: u64) -> Result<Host, Fault<&'l [u8]>>
        ensures { told result ≡ set_pledge self account amount }
    {
        let amount = within(amount, 0, LARGEST_PLEDGE, Key::Amount)?;
        let mut host = self.choosing(CentreKind::Pledge)?;
        enter(&mut host.pledges, account, amount);
        Ok(host)
    }

    fn with_margin<'l>(self, contract: u32, amount: u64) -> Result<Host, Fault<&'l [u8]>>
        ensures { told result ≡ set_margin self contract amount }
    {
        let amount = within(amount, 1, LARGEST_MARGIN, Key::Amount)?;
        let mut host = self.choosing(CentreKind::Pledge)?;
        enter(&mut host.margins, contract, amount);
        Ok(host)
    }

    // The same with one more set-up entry carried out, or why it cannot be.
    pub fn with<'l>(self, entry: SetUp) -> Result<Host, Fault<&'l [u8]>>
        ensures { told result ≡ with_entry self entry }
    {
        match entry {
            SetUp::Memory { orders, trades } => self.with_memory(orders, trades),
            SetUp::Lots { contract, limit } => self.with_limit(contract, limit),
            SetUp::Pledge { account, amount } => self.with_pledge(account, amount),
            SetUp::Margin { contract, amount } => self.with_margin(contract, amount),
        }
    }
}
