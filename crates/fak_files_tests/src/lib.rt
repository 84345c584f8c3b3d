//! The tests of `fak_files`: calls of one thread, in order, and of two threads at once.
#![tactic(auto)]

#[cfg(test)]
mod assertions;
mod calls;
#[cfg(test)]
mod large;
#[cfg(test)]
mod openings;
#[cfg(test)]
mod ports;
#[cfg(test)]
mod prints;
