ghost use Rattle.std.specs.Prelude.{◌≡◌};
ghost use Rattle.market.specs.Questions.{record_told, position_told, money_told, OrderTold, overview as overview_of};
ghost use Rattle.market.specs.Views.{view};

use crate::market::Market;
use crate::overview::Overview;
use crate::refusal::Refusal;
use records::account::Account;
use records::contract::Contract;
use records::instrument::Instrument;
use records::order::Order;
use records::rows::Trade;

// A question for each kind of record: the one line of each differs in the table that it asks.
impl Market<'_> {
    // The contract of this number.
    pub fn contract(&self, number: u32) -> Result<Contract, Refusal>
        ensures { result ≡ record_told (view self.now).contracts number }
    {
        self.contracts.get(number as usize).ok_or(Refusal::Unknown)
    }

    // The instrument of this number.
    pub fn instrument(&self, number: u32) -> Result<Instrument, Refusal>
        ensures { result ≡ record_told (view self.now).instruments number }
    {
        self.instruments
            .get(number as usize)
            .ok_or(Refusal::Unknown)
    }

    // The account of this number, with its positions and money.
    pub fn account(&self, number: u32) -> Result<Account, Refusal>
        ensures { result ≡ record_told (view self.now).accounts number }
    {
        self.accounts.get(number as usize).ok_or(Refusal::Unknown)
    }

    // The lots that an account is long (above nought) or short (below) in a contract.
    pub fn position(&self, account: u32, contract: u32) -> Result<i64, Refusal>
        ensures { result ≡ position_told (view self.now) account contract }
    {
        let holder = self.account(account)?;
        let _ = self.contract(contract)?;
        Ok(holder.lots_in(contract as usize))
    }

    // An account's money.
    pub fn money(&self, account: u32) -> Result<i64, Refusal>
        ensures { result ≡ money_told (view self.now) account }
    {
        let holder = self.account(account)?;
        Ok(holder.money)
    }

    // The order of this number.
    pub fn order(&self, number: u32) -> Result<Order, Refusal>
        ensures { OrderTold (view self.now) number result }
    {
        let row = self.orders.get(number as usize).ok_or(Refusal::Unknown)?;
        Ok(Order::try_from(row).unwrap())
    }

    // The trade of this number.
    pub fn trade(&self, number: u32) -> Result<Trade, Refusal>
        ensures { result ≡ record_told (view self.now).trades number }
    {
        self.trades.get(number as usize).ok_or(Refusal::Unknown)
    }

    // The market's phase, date, capacity and counts.
    pub fn overview(&self) -> Overview
        ensures { result ≡ overview_of (view self.now) }
    {
        Overview {
            phase: self.phase,
            date: self.date,
            capacity: self.capacity,
            contracts: self.contracts.len(),
            instruments: self.instruments.len(),
            accounts: self.accounts.len(),
            orders: self.orders.len(),
            trades: self.trades.len(),
        }
    }
}
