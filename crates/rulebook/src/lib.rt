// Instrument rules and clearing centres: what the market asks of them, their laws, and those that the exchange has.
#![tactic(auto)]

pub mod asking;
pub mod centre;
pub mod fault;
pub mod futures;
pub mod joined;
pub mod legs;
pub mod listing;
pub mod lots;
pub mod months;
pub mod pledge;
pub mod reading;
pub mod rule;
pub mod spread;
pub mod table;
