// The market: its calls and its questions.
#![tactic(auto)]

pub mod beginning;
pub mod listing;
pub mod market;
pub mod overview;
pub mod phases;
pub mod questions;
pub mod refusal;
