//! The names that claim room together.

use crate::bursts::first_items::FirstItems;

/// The names of a bundle in the order in which they take tickets, and the items of the first of them, which claim room in one burst.
#[derive(Drop)]
pub(crate) struct Claimants<'a, T> {
    pub names: &'a [u64],
    pub items: &'a FirstItems<'a, T>,
}
