//! Marks and histories of shared objects: which histories are lawful, and the laws of the lawful ones.
#![tactic(auto)]

pub mod cell;
pub mod checker;
pub mod credit;
pub mod file;
pub mod large_fault;
pub mod laws;
pub mod limits;
pub mod name_set;
pub mod note;
pub mod queue;
pub mod room;
pub mod seating;
pub mod view;
pub mod word;

pub use cell::{cell_of, round_of};
pub use checker::first_fault;
pub use credit::{CreditKind, CreditMark};
pub use file::{FileEntry, FileField, FileKind, FileMark};
pub use large_fault::LargeFault;
pub use limits::{
    LARGE_SEATS, LARGE_SIZE, LARGE_TICKETS, LARGEST_BOUND, LARGEST_SIZE, LONGEST_STINT, MOST_SEATS,
    tested_large_seats,
};
pub use name_set::NameSet;
pub use note::{Note, NoteKind, Sign};
pub use queue::{Kind, Mark, Stage};
pub use room::{RoomKind, RoomMark};
pub use seating::{Both, Deal};
pub use view::View;
pub use word::{BIAS, count_of};
