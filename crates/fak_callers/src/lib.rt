//! Callers of what the crates below promise: each is a small function that names public laws, most make calls, and each
//! concludes in public words. Some have no proof of their own, most a line to a dozen; none imports another crate's proofs.
//! The module `pipelines` is a program on ports, which names no law and has no proof.
//! The module `words` asks instead what the words of those laws say of known histories, and the modules on runs and their
//! texts (`beginnings`, `entries`, `gates`, `keys`, `reports`, `runs`, `scripts`, `texts`, `turns`) what laws say of known
//! scripts, texts and numbers.
#![tactic(auto)]

pub mod beginnings;
pub mod blocks;
pub mod bundles;
pub mod bursts;
pub mod cells;
pub mod channel_ends;
pub mod credits;
pub mod entries;
pub mod files;
pub mod gates;
pub mod joins;
pub mod keys;
pub mod pipelines;
pub mod progress;
pub mod queues;
pub mod reports;
pub mod rooms;
pub mod runs;
pub mod schedules;
pub mod scripts;
pub mod semaphores;
pub mod sleeper_seats;
pub mod sleepers;
#[cfg(test)]
mod tests;
pub mod texts;
pub mod turns;
pub mod words;
