//! The texts of lines and journals.

mod journal;
mod line;
mod number;

pub use journal::{append_journal, append_name, journal_text, name_text};
pub use line::{append_line, append_refusal, line_text, refused_text};
