ghost use Rattle.std.specs.Prelude.{◌≡◌, ◌^◌, ◌<◌, ◌≤◌, true, false, ◌&&◌, is_some, is_ok, Some, None};
ghost use Rattle.records.specs.Registers.{numbered};
ghost use Rattle.market.specs.Calls.{absent_or_listed, may_be_listed, listable as listable_in, Enterable, Enters, enter_contract as enter_contract_of, enter_instrument as enter_instrument_of, enter_account as enter_account_of, list_contract as list_contract_of, list_instrument as list_instrument_of, admit_account as admit_account_of};
ghost use Rattle.market.specs.Grounds.{ByTheGrounds, order, list_contract_call, list_instrument_call, admit_account_call};
ghost use Rattle.market.specs.Strikes.{ListContractStrikes, ListInstrumentStrikes, AdmitAccountStrikes};
ghost use Rattle.market.specs.Views.{view, HasOutcome};
ghost use Rattle.tables.specs.Tables.{entered};

use crate::market::Market;
use crate::refusal::Refusal;
use records::account::Account;
use records::codes::Phase;
use records::contract::Contract;
use records::instrument::Instrument;
use records::numbering::record_of;
use records::terms::{AccountTerms, ContractTerms, InstrumentTerms};
use rulebook::centre::ClearingCentre;
use rulebook::rule::InstrumentRule;
use tables::table::Table;

const MOST_ACCOUNTS: usize = 64;

// The record to be entered, or the first ground that strikes: the market is trading, there is no record to be had, or the
// table is full.
fn enterable<T: Copy>(phase: Phase, had: Option<T>, most: usize, count: usize) -> Result<T, Refusal>
    ensures { Enterable phase had most count result }
{
    if phase == Phase::Trading {
        return Err(Refusal::WrongPhase);
    }
    let new = had.ok_or(Refusal::Inadmissible)?;
    if count >= most {
        return Err(Refusal::Full);
    }
    Ok(new)
}

fn is_listed(contracts: &[Contract], number: u32) -> bool
    ensures { result ≡ is_some (numbered contracts.now number) }
{
    record_of(contracts, number as usize).is_some()
}

// Whether the second contract of an instrument is absent or listed.
fn is_absent_or_listed(contracts: &[Contract], number: Option<u32>) -> bool
    ensures { result ≡ absent_or_listed contracts.now number }
{
    number.is_none_or(|number| is_listed(contracts, number))
}

// Whether an instrument's contracts are listed and the rule admits it among the listed contracts.
fn may_be_listed<R: InstrumentRule>(
    rule: &R,
    contracts: &[Contract],
    instrument: &Instrument,
) -> bool
    ensures { result ≡ may_be_listed (R.InstrumentRule.meaning rule.now) contracts.now instrument.now }
{
    is_listed(contracts, instrument.terms.first)
        && is_absent_or_listed(contracts, instrument.terms.second)
        && rule.admits(instrument, contracts)
}

// The instrument with these terms, if it can be listed.
fn listable<R: InstrumentRule>(
    rule: &R,
    contracts: &[Contract],
    terms: InstrumentTerms,
) -> Option<Instrument>
    ensures { result ≡ listable_in (R.InstrumentRule.meaning rule.now) contracts.now terms }
{
    let instrument = Instrument::new(terms)?;
    if !may_be_listed(rule, contracts, &instrument) {
        return None;
    }
    Some(instrument)
}

// Enters a record in its table and answers its number, or the first ground that strikes.
fn enter_in<T: Copy, const N: usize>(
    phase: Phase,
    table: &mut Table<T, N>,
    had: Option<T>,
) -> Result<u32, Refusal>
    requires { N < 2 ^ 32 }
    ensures enters { Enters phase N had (entered table.old) (entered table.new) result }
    ensures unchanged { is_ok result ≡ false → table.new ≡ table.old }
{
    let new = enterable(phase, had, N, table.len())?;
    let number = table.enter(new).ok_or(Refusal::Full)?;
    Ok(number as u32)
}

impl Market<'_> {
    fn enter_contract(&mut self, had: Option<Contract>) -> Result<u32, Refusal>
        ensures outcome { HasOutcome self.old self.new result (enter_contract_of had (view self.old)) }
        ensures unchanged { is_ok result ≡ false → self.new ≡ self.old }
    {
        enter_in(self.phase, &mut self.contracts, had)
    }

    fn enter_instrument(&mut self, had: Option<Instrument>) -> Result<u32, Refusal>
        ensures outcome { HasOutcome self.old self.new result (enter_instrument_of had (view self.old)) }
        ensures unchanged { is_ok result ≡ false → self.new ≡ self.old }
    {
        enter_in(self.phase, &mut self.instruments, had)
    }

    // The ledger is no table to its callers, since it books too, so accounts are entered here.
    fn enter_account(&mut self, had: Option<Account>) -> Result<u32, Refusal>
        ensures outcome { HasOutcome self.old self.new result (enter_account_of had (view self.old)) }
        ensures unchanged { is_ok result ≡ false → self.new ≡ self.old }
    {
        let account = enterable(self.phase, had, MOST_ACCOUNTS, self.accounts.len())?;
        let number = self.accounts.admit(account).ok_or(Refusal::Full)?;
        Ok(number as u32)
    }

    // Lists a contract and answers its number. Rule and centre are shown to this call and to every other as they are: a host may
    // show others at each, and a struct of both would say no more.
    pub fn list_contract<R: InstrumentRule, C: ClearingCentre>(
        &mut self,
        _rule: &R,
        _centre: &C,
        terms: ContractTerms,
    ) -> Result<u32, Refusal>
        ensures outcome { HasOutcome self.old self.new result (list_contract_of terms (view self.old)) }
        ensures grounds { ByTheGrounds (order list_contract_call) (ListContractStrikes terms (view self.old)) result }
        ensures unchanged { is_ok result ≡ false → self.new ≡ self.old }
    {
        self.enter_contract(Contract::new(terms))
    }

    // Lists an instrument that the rule admits, and answers its number.
    pub fn list_instrument<R: InstrumentRule, C: ClearingCentre>(
        &mut self,
        rule: &R,
        _centre: &C,
        terms: InstrumentTerms,
    ) -> Result<u32, Refusal>
        ensures outcome { HasOutcome self.old self.new result (list_instrument_of (R.InstrumentRule.meaning rule.now) terms (view self.old)) }
        ensures grounds { ByTheGrounds (order list_instrument_call) (ListInstrumentStrikes (R.InstrumentRule.meaning rule.now) terms (view self.old)) result }
        ensures unchanged { is_ok result ≡ false → self.new ≡ self.old }
    {
        let had = listable(rule, self.contracts.listed(), terms);
        self.enter_instrument(had)
    }

    // Admits an account, without positions or money, and answers its number.
    pub fn admit_account<R: InstrumentRule, C: ClearingCentre>(
        &mut self,
        _rule: &R,
        _centre: &C,
        terms: AccountTerms,
    ) -> Result<u32, Refusal>
        ensures outcome { HasOutcome self.old self.new result (admit_account_of terms (view self.old)) }
        ensures grounds { ByTheGrounds (order admit_account_call) (AdmitAccountStrikes terms (view self.old)) result }
        ensures unchanged { is_ok result ≡ false → self.new ≡ self.old }
    {
        self.enter_account(Account::new(terms))
    }
}
