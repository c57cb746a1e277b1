// A day sheet read line by line: what a line says, or why it says nothing.
#![tactic(auto)]

mod bytes;
pub mod call;
pub mod entry;
pub mod fault;
mod fields;
pub mod key;
mod keys;
pub mod laws;
pub mod lines;
mod making;
pub mod name;
mod names;
mod naming;
mod number_kind;
mod numbers;
pub mod question;
pub mod reading;
pub mod set_up;
mod value;
mod values;
mod words;
