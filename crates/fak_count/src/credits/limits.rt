//! What the table of a credit is made with.

/// The start of a credit, its number of seats and their stint.
#[derive(Drop)]
pub struct CreditLimits {
    pub start: u64,
    pub seats: u64,
    pub stint: u64,
}
