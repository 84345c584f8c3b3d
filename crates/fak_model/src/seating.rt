//! How the seats of a running object are split off when it is opened, and joined at the end.

use crate::view::View;
use atomic_table::{Join, Split};

/// The split that hands out a seat: the first name, with its share of the tickets.
#[derive(Debug)]
pub struct Deal;

impl<M, P> Split<View<M, P>> for Deal {
    ghost use Rattle.fak_model.specs.Views.{dealt, kept};

    ghost left = { kept };

    ghost right = { dealt };
}

/// The join of two views into one, which has the names of both.
#[derive(Debug)]
pub struct Both;

impl<M, P> Join<View<M, P>> for Both {
    ghost use Rattle.fak_model.specs.Views.{joined, spent};

    ghost both = { joined };

    ghost spent = { spent };
}
