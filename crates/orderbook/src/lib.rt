// Which orders can meet, and in which sequence an order meets them.
#![tactic(auto)]

pub mod best;
pub mod opposite;
