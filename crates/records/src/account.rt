ghost use Rattle.std.specs.Prelude.{◌≡◌, length};

use crate::holder::Holder;
use crate::numbering::record_of;

// An account: its holder, the lots that it is long (above nought) or short (below nought) in each contract,
// contract n at place n - 1, and its money.
#[derive(Clone, Copy, Debug, PartialEq, Eq)]
pub struct Account {
    pub holder: Holder,
    pub positions: [i64; 32],
    pub money: i64,
    // it has a position in each of 32 contracts
    ghost wide: { length positions ≡ 32 },
}

impl Account {
    ghost use Rattle.std.specs.Prelude.{replicate, pos};
    ghost use Rattle.records.specs.Accounts.{holding};

    // A holder's account without positions or money.
    pub fn empty(holder: Holder) -> Account
        ensures holder { result.holder ≡ holder }
        ensures positions { result.positions ≡ replicate 32 (pos 0) }
        ensures money { result.money ≡ pos 0 }
    {
        Account {
            holder,
            positions: [0; 32],
            money: 0,
        }
    }

    // The lots that the account is long or short in a contract; none in a contract that there is not.
    pub fn lots_in(&self, contract: usize) -> i64
        ensures { result ≡ holding self.now contract }
    {
        record_of(&self.positions, contract).unwrap_or(0)
    }
}
