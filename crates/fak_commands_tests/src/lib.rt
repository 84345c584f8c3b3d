//! The tests of `fak_commands` and `fak_replay`: texts, statuses, command lines, and devices that fail; and conclusions from the
//! laws of the command line. The crate embeds the program as any other may: one line in crates.txt lists `fak_commands`.
#![tactic(auto)]

pub mod command_lines;
mod served;

pub use served::{Served, serve_bytes};

#[cfg(test)]
mod answers;
#[cfg(test)]
mod commands;
#[cfg(test)]
mod devices;
#[cfg(test)]
mod histories;
#[cfg(test)]
mod inputs;
#[cfg(test)]
mod program;
#[cfg(test)]
mod rows;
#[cfg(test)]
mod schedules;
#[cfg(test)]
mod scripts;
