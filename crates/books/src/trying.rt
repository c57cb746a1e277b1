ghost use Rattle.std.specs.Prelude.{◌≡◌, true, false, ◌&&◌, map, is_ok, nat_le};
ghost use Rattle.std.specs.List.{list_all};
ghost use Rattle.records.specs.Ranges.{between, within};
ghost use Rattle.books.specs.Accounts.{booked, revalued};
ghost use Rattle.books.specs.Entries.{Balanced};
ghost use Rattle.books.specs.Ledgers.{accounts_of, KeepsAgreement, KeepsAgreementAt};
ghost use Rattle.books.specs.Trying.{roomy, has_room as has_room_in, bookable, revaluable};

use crate::ledger::Ledger;
use records::account::Account;
use records::rows::Trade;

// The most lots that an account may be long or short, and the most money that it may have or owe, before another trade.
const MOST_LOTS: u64 = 90_000_000;

const MOST_MONEY: u64 = 290_000_000_000_000_000;

// The greatest difference of value between a settlement price and a trade's price.
const MOST_DIFFERENCE: u64 = 3_000_000_000;

// The greatest change of a settlement price's value.
const MOST_CHANGE: u64 = 2_000_000_000;

// Whether a number is at most so far from nought, on either side. Prices have a test of their own, of 32 bits: one over both
// would have to be generic over numbers.
fn is_within(most: u64, n: i64) -> bool
    ensures { result ≡ within most n }
{
    n.unsigned_abs() <= most
}

// Not the test of a keyed field, which is of 32 bits.
fn is_contract(contract: usize) -> bool
    ensures { result ≡ between 1 32 contract }
{
    (1..=32).contains(&contract)
}

// Whether an account has room for another trade in a contract.
fn is_roomy(account: &Account, contract: usize) -> bool
    ensures { result ≡ roomy contract account.now }
{
    is_contract(contract)
        && is_within(MOST_LOTS, account.lots_in(contract))
        && is_within(MOST_MONEY, account.money)
}

fn is_small(trade: &Trade, difference: i64) -> bool
    ensures { result ≡ (nat_le trade.now.quantity 10000 && within 3000000000 difference) }
{
    trade.quantity <= 10_000 && is_within(MOST_DIFFERENCE, difference)
}

fn are_all_roomy(accounts: &[Account], contract: usize) -> bool
    ensures { result ≡ list_all (roomy contract) accounts.now }
{
    accounts.iter().all(|account| is_roomy(account, contract))
}

// What cannot be booked or revalued: an account is unknown or has no room, or a number is out of range.
#[derive(Clone, Copy, Debug, PartialEq, Eq)]
pub struct Unfit;

impl Ledger {
    fn has_room(&self, number: usize, contract: usize) -> bool
        ensures { result ≡ has_room_in (accounts_of self.now) number contract }
    {
        self.get(number)
            .is_some_and(|account| is_roomy(&account, contract))
    }

    // Books a trade where both accounts are known and have room for it, and quantity, contract and difference are in
    // range; where not, nothing changes.
    pub fn try_book(
        &mut self,
        trade: &Trade,
        buyer: usize,
        seller: usize,
        difference: i64,
    ) -> Result<(), Unfit>
        ensures answer { is_ok result ≡ bookable trade.now buyer seller difference (accounts_of self.old) }
        ensures taken { is_ok result ≡ true → accounts_of self.new ≡ booked trade.now buyer seller difference (accounts_of self.old) }
        ensures agrees { is_ok result ≡ true → KeepsAgreement trade.now buyer seller difference (accounts_of self.old) (accounts_of self.new) }
        ensures balanced { Balanced (accounts_of self.old) → Balanced (accounts_of self.new) }
        ensures refused { is_ok result ≡ false → self.new ≡ self.old }
    {
        let contract = trade.contract as usize;
        if !self.has_room(buyer, contract)
            || !self.has_room(seller, contract)
            || !is_small(trade, difference)
        {
            return Err(Unfit);
        }
        self.book(trade, buyer, seller, difference);
        Ok(())
    }

    // Revalues every account where all have room and contract and change are in range; where not, nothing changes.
    pub fn try_revalue(&mut self, contract: usize, change: i64) -> Result<(), Unfit>
        ensures answer { is_ok result ≡ revaluable contract change (accounts_of self.old) }
        ensures taken { is_ok result ≡ true → accounts_of self.new ≡ map (revalued contract change) (accounts_of self.old) }
        ensures agrees { is_ok result ≡ true → KeepsAgreementAt contract change (accounts_of self.old) (accounts_of self.new) }
        ensures balanced { Balanced (accounts_of self.old) → Balanced (accounts_of self.new) }
        ensures refused { is_ok result ≡ false → self.new ≡ self.old }
    {
        if !is_contract(contract)
            || !is_within(MOST_CHANGE, change)
            || !are_all_roomy(self.accounts(), contract)
        {
            return Err(Unfit);
        }
        self.revalue(contract, change);
        Ok(())
    }
}
