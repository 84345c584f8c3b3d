//! The place at which an input is wrong: that of its first fault, as the readers of `fak_text` find it, and what is asked there.
//! The command line of the program `fak_where` is here too, as functions of words, readers and writers.
#![tactic(auto)]

mod asked;
mod event;
mod fault;
mod fault_place;
mod ignored;
pub mod laws;
mod mark;
mod place;
mod repeated;
mod script;
mod service;
mod step;
mod stop;
mod values;
mod words;

pub use asked::{Absent, Asked, Hint, Spot};
pub use fault::WhereFault;
pub use fault_place::{Format, place_of};
pub use ignored::{Ignored, ignored_keys};
pub use place::Place;
pub use repeated::{Repeated, repeated_keys};
pub use service::{print_version, serve};
pub use stop::Next;
pub use words::{asks_version, format_of, words_of};
