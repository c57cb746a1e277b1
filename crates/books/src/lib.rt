// The value of a price, and the table of accounts with positions and money.
#![tactic(auto)]

pub mod growth;
pub mod keeping;
pub mod ledger;
mod side;
pub mod trying;
pub mod value;
