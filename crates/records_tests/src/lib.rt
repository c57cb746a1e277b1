// Edge cases of the records and registers: nought, the largest, one past it, and registers of no place and of one.
#![tactic(auto)]

#[cfg(test)]
mod fields;
#[cfg(test)]
mod orders;
#[cfg(test)]
mod registers;
