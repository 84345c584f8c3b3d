//! The tests of `fak_text`. They show what no contract says: that the definitions are those of the formats, by examples
//! of each.
#![tactic(auto)]

#[cfg(test)]
mod counts;
#[cfg(test)]
mod fault;
#[cfg(test)]
mod history;
#[cfg(test)]
mod inputs;
#[cfg(test)]
mod numbers;
#[cfg(test)]
mod ranges;
#[cfg(test)]
mod schedule;
mod script;
#[cfg(test)]
mod spread;
#[cfg(test)]
mod text;
