//! The tests of `fak_sem`: worked rows on one thread, each step by itself, and downs and ups at once.
#![tactic(auto)]

#[cfg(test)]
mod assertions;
#[cfg(test)]
mod bounded;
#[cfg(test)]
mod large;
#[cfg(test)]
mod openings;
#[cfg(test)]
mod ports;
mod rows;
#[cfg(test)]
mod steps;
#[cfg(test)]
mod stepwise;
#[cfg(test)]
mod threads;
