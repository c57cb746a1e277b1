// Edge cases of a sheet's lines: blanks and line ends, numbers at the borders of their kinds, fields in any order, and every fault.
#![tactic(auto)]

#[cfg(test)]
mod entries;
#[cfg(test)]
mod faults;
#[cfg(test)]
mod lines;
#[cfg(test)]
mod numbers;
