// Edge cases of values, booking and revaluation.
#![tactic(auto)]

#[cfg(test)]
mod booking;
#[cfg(test)]
mod values;
