//! The tests of `fak_channel`: calls of one thread, threads that sleep, storms of threads, and lent ends.
#![tactic(auto)]

#[cfg(test)]
mod assertions;
#[cfg(test)]
mod by_steps;
mod callers;
#[cfg(test)]
mod lenders;
#[cfg(test)]
mod openings;
#[cfg(test)]
mod owned;
#[cfg(test)]
mod prints;
#[cfg(test)]
mod rows;
#[cfg(test)]
mod sleeping;
#[cfg(test)]
mod stepper;
#[cfg(test)]
mod steps;
#[cfg(test)]
mod storms;
