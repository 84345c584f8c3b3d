//! The readers of the input formats. Each returns the value that the input is, or its first fault.

mod history;
mod schedule;
mod script;
mod step;
mod values;

pub use history::read_history;
pub use schedule::read_schedule;
pub use script::{LONGEST_QUANTUM, MOST_BIRTHS, MOST_FILES, MOST_SLOTS, read_script};
pub use step::MOST_STEPS;
pub use values::{LARGEST_INPUT, number_at, text_at};
