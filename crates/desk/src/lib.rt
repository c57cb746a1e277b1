// The clerk's desk: what a sheet sets up, and what each call and question of a sheet is answered with.
#![tactic(auto)]

pub mod answer;
pub mod answering;
pub mod day;
pub mod host;
pub mod joining;
pub mod lines;
pub mod printout;
pub mod setting;
