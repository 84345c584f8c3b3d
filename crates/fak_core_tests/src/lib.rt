//! The tests of `fak_model` and `fak_core`: histories on both sides of each part of the checker's definition, and
//! schedules on rooms and queues as plain data, step by step.
#![tactic(auto)]

#[cfg(test)]
mod assertions;
#[cfg(test)]
mod blocks;
mod examples;
#[cfg(test)]
mod histories;
#[cfg(test)]
mod many_calls;
#[cfg(test)]
mod name_sets;
#[cfg(test)]
mod openings;
#[cfg(test)]
mod progress;
#[cfg(test)]
mod queues;
#[cfg(test)]
mod refusals;
#[cfg(test)]
mod rooms;
#[cfg(test)]
mod words;
