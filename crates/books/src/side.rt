ghost use Rattle.std.specs.Prelude.{◌≡◌, ◌<◌, ◌≤◌, pos, ◌*ℤ◌, neg_ℤ, unsigned_abs};

use records::account::Account;
use records::rows::Trade;

// One side of a trade: the lots of a contract and the money that it brings an account, below nought what it takes.
#[derive(Clone, Copy)]
pub(crate) struct Side {
    contract: usize,
    lots: i64,
    gain: i64,
    ghost listed: { (0 < contract) × (contract ≤ 32) },
    ghost few: { unsigned_abs lots ≤ 10000 },
    ghost little: { unsigned_abs gain ≤ 30000000000000 },
}

impl Side {
    ghost use Rattle.books.specs.Accounts.{entered};
    ghost use Rattle.books.specs.Ledgers.{Small};

    // The buyer's side: the quantity, and what it gains by a difference of value.
    pub(crate) fn buying(trade: &Trade, difference: i64) -> Side
        requires contract { (0 < trade.now.contract) × (trade.now.contract ≤ 32) }
        requires small { (trade.now.quantity ≤ 10000) × (unsigned_abs difference ≤ 3000000000) }
        ensures contract { result.contract ≡ trade.now.contract }
        ensures lots { result.lots ≡ pos trade.now.quantity }
        ensures gain { result.gain ≡ pos trade.now.quantity *ℤ difference }
    {
        let lots = i64::from(trade.quantity);
        Side {
            contract: trade.contract as usize,
            lots,
            gain: lots * difference,
        }
    }

    // The seller's side: what the buyer gets, the seller gives, and what the buyer gains, the seller loses.
    pub(crate) fn opposite(self) -> Side
        ensures contract { result.contract ≡ self.contract }
        ensures lots { result.lots ≡ neg_ℤ self.lots }
        ensures gain { result.gain ≡ neg_ℤ self.gain }
    {
        Side {
            contract: self.contract,
            lots: -self.lots,
            gain: -self.gain,
        }
    }

    // An account with this side entered.
    pub(crate) fn entered_in(self, mut account: Account) -> Account
        requires { Small account self.contract }
        ensures { result ≡ entered self.contract self.lots self.gain account }
    {
        account.positions[self.contract - 1] += self.lots;
        account.money += self.gain;
        account
    }
}
