// Edge cases of the instrument rules and clearing centres.
#![tactic(auto)]

#[cfg(test)]
mod centres;
#[cfg(test)]
mod rules;
