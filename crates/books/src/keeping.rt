ghost use Rattle.std.specs.Prelude.{◌≡◌, ◌+◌, ◌<◌, ◌≤◌, [], ◌∷◌, ◌++◌, map, length, Some, None, All, unsigned_abs};
ghost use Rattle.records.specs.Registers.{numbered};
ghost use Rattle.books.specs.Accounts.{account_at, enter_at, booked, revalued};
ghost use Rattle.books.specs.Entries.{Reading, Agrees, Balanced};
ghost use Rattle.books.specs.Known.{Known};
ghost use Rattle.books.specs.Ledgers.{accounts_of, Room, Small, Empty, NothingDue, KeepsAgreement, KeepsAgreementAt};

use crate::ledger::Ledger;
use crate::side::Side;
use records::account::Account;
use records::holder::Holder;
use records::rows::Trade;
use records::terms::AccountTerms;
use tables::table::Table;

// The terms of the account that the vacant places hold; nobody is told of it.
const VACANT: AccountTerms = AccountTerms {
    participant: 1,
    taxpayer: 1,
};

// An account whose money gains its position times a change of value.
fn revalued(mut account: Account, contract: usize, change: i64) -> Account
    requires change { unsigned_abs change ≤ 2000000000 }
    requires small { Small account contract }
    ensures { result ≡ revalued contract change account }
{
    account.money += account.lots_in(contract) * change;
    account
}

impl Ledger {
    // No account yet.
    pub fn new() -> Ledger
        ensures none { accounts_of result ≡ [] }
        ensures agrees { (r : Reading) → Agrees r (accounts_of result) [] }
        ensures balanced { Balanced (accounts_of result) }
    {
        Ledger {
            accounts: Table::new(Account::empty(Holder { terms: VACANT })),
        }
    }

    // How many accounts there are.
    pub fn len(&self) -> usize
        ensures { result ≡ length (accounts_of self.now) }
    {
        self.accounts.len()
    }

    // The accounts, in the order of their numbers.
    pub fn accounts(&self) -> &[Account]
        ensures { result.now ≡ accounts_of self.now }
    {
        self.accounts.listed()
    }

    // The account of this number, if there is one.
    pub fn get(&self, number: usize) -> Option<Account>
        ensures { result ≡ numbered (accounts_of self.now) number }
    {
        self.accounts.get(number)
    }

    // One account more, and its number; where there are 64, nothing changes.
    pub fn admit(&mut self, account: Account) -> Option<usize>
        ensures admitted { length (accounts_of self.old) < 64 → (result ≡ Some (length (accounts_of self.old) + 1)) × (accounts_of self.new ≡ accounts_of self.old ++ account ∷ []) }
        ensures agrees { Empty account → NothingDue (accounts_of self.old) (accounts_of self.new) }
        ensures full { 64 ≤ length (accounts_of self.old) → (result ≡ None) × (self.new ≡ self.old) }
    {
        self.accounts.enter(account)
    }

    // Enters one side of a trade in the account of this number; at an unknown number nothing changes.
    fn enter_at(&mut self, number: usize, side: Side)
        requires { Small (account_at (accounts_of self.old) number) side.contract }
        ensures { accounts_of self.new ≡ enter_at number side.contract side.lots side.gain (accounts_of self.old) }
    {
        if let Some(account) = self.accounts.get(number) {
            self.accounts.replace(number, side.entered_in(account));
        }
    }

    // Books a trade between two accounts: the buyer's money gains the quantity times the difference between the value of
    // the settlement price and the value of the trade's price, the seller's loses as much, and the lots pass to the buyer.
    pub fn book(&mut self, trade: &Trade, buyer: usize, seller: usize, difference: i64)
        requires accounts { (Known (accounts_of self.old) buyer) × (Known (accounts_of self.old) seller) }
        requires contract { (0 < trade.now.contract) × (trade.now.contract ≤ 32) }
        requires small { (trade.now.quantity ≤ 10000) × (unsigned_abs difference ≤ 3000000000) }
        requires room { (Room (accounts_of self.old) buyer trade.now.contract) × (Room (accounts_of self.old) seller trade.now.contract) }
        ensures booked { accounts_of self.new ≡ booked trade.now buyer seller difference (accounts_of self.old) }
        ensures agrees { KeepsAgreement trade.now buyer seller difference (accounts_of self.old) (accounts_of self.new) }
        ensures balanced { Balanced (accounts_of self.old) → Balanced (accounts_of self.new) }
    {
        let bought = Side::buying(trade, difference);
        self.enter_at(buyer, bought);
        self.enter_at(seller, bought.opposite());
    }

    // Gives every account the change of a contract's settlement value on its position. Contract and change are handed on as they
    // are: a struct of both would be made for each call and carry no more.
    pub fn revalue(&mut self, contract: usize, change: i64)
        requires change { unsigned_abs change ≤ 2000000000 }
        requires small { All (λ a. Small a contract) (accounts_of self.old) }
        ensures revalued { accounts_of self.new ≡ map (revalued contract change) (accounts_of self.old) }
        ensures agrees { KeepsAgreementAt contract change (accounts_of self.old) (accounts_of self.new) }
        ensures balanced { Balanced (accounts_of self.old) → Balanced (accounts_of self.new) }
    {
        self.accounts
            .change_each(|account| revalued(account, contract, change));
    }
}
