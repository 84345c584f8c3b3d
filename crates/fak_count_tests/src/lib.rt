//! The tests of `fak_count`: calls of one thread, in order, and of two threads at once.
#![tactic(auto)]

#[cfg(test)]
mod assertions;
mod counted;
#[cfg(test)]
mod credits;
#[cfg(test)]
mod large;
#[cfg(test)]
mod openings;
#[cfg(test)]
mod ports;
#[cfg(test)]
mod prints;
#[cfg(test)]
mod rooms;
