//! Readers of schedules, histories and scripts, and the texts of lines and journals.
#![tactic(auto)]

mod fault;
mod history;
pub mod laws;
mod names;
mod reading;
mod schedule;
mod script;
mod steps;
mod text;

pub use fault::{Field, TextFault};
pub use history::History;
pub use reading::{
    LARGEST_INPUT, LONGEST_QUANTUM, MOST_BIRTHS, MOST_FILES, MOST_SLOTS, MOST_STEPS, number_at,
    read_history, read_schedule, read_script, text_at,
};
pub use schedule::{Act, Event, Object, Schedule};
pub use script::Script;
pub use steps::{Note, Step};
pub use text::{
    append_journal, append_line, append_name, append_refusal, journal_text, line_text, name_text,
    refused_text,
};
