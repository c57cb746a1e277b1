// Tables of at most a fixed number of records, numbered from 1 in the order of entry.
#![tactic(auto)]

pub mod keeping;
pub mod table;
