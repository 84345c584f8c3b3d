//! The marks that calls on a credit leave in its history.

/// The kind of a mark of a credit.
#[derive(Clone, Copy, Debug, PartialEq, Eq)]
pub enum CreditKind {
    /// 1 was subtracted.
    Debit,
    /// 1 was added.
    Credit,
}

/// A mark of a seat in the history of a credit.
#[derive(Clone, Copy, Debug, PartialEq, Eq)]
pub struct CreditMark {
    pub seat: u64,
    pub kind: CreditKind,
}
