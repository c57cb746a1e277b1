// The market's records, and registers of them in memory lent by the host.
#![tactic(auto)]

pub mod account;
pub mod checks;
pub mod codes;
pub mod contract;
pub mod entering;
pub mod holder;
pub mod instrument;
pub mod making;
pub mod numbering;
pub mod order;
pub mod register;
pub mod rows;
pub mod terms;
