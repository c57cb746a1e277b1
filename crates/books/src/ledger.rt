use records::account::Account;
use tables::table::Table;

// The accounts, numbered from 1 in the order of admission. The table carries that they are at most 64, and each account
// that it has a position in each of 32 contracts, so that no call asks for either.
#[derive(Clone, Copy)]
pub struct Ledger {
    pub(crate) accounts: Table<Account, 64>,
}
