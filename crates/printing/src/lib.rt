// What the clerk's program prints of each answer.
#![tactic(auto)]

pub mod faults;
pub mod lines;
pub mod reply;
mod texts;
