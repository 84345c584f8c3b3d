//! A bundle: several seats of a queue that call together.

ghost use Rattle.std.specs.Prelude.{◌≡◌, ◌+◌, ◌<◌, length};
ghost use Rattle.fak_queue.specs.BundleCalls.{IsBundleState, drawn_by_all};
ghost use Rattle.fak_queue.specs.Queues.{AreIdle};
ghost use Rattle.fak_queue.specs.declared.bundle.BundleState.TheVariants.{Idle};

use crate::contention::SharedCounts;
use crate::steps::QueueToken;
use std::collections::VecDeque;
use std::fmt;
use std::marker::Model;

/// The state of a bundle between two calls.
#[derive(Clone, Copy, Debug, PartialEq, Eq, Drop)]
pub enum BundleState {
    /// No call is open.
    Idle,
    /// A burst of insertions was claimed; those that have not ended wait for their cells.
    Inserting {
        /// The first ticket of the burst.
        ticket: u64,
        /// How many of its insertions have ended, the first ones.
        ended: u64,
        /// How many insertions it has.
        granted: u64,
    },
    /// A burst of deletions was claimed; those that have not ended wait for their cells.
    Deleting {
        /// The first ticket of the burst.
        ticket: u64,
        /// How many of its deletions have ended, the first ones.
        ended: u64,
        /// How many deletions it has.
        granted: u64,
    },
}

impl BundleState {
    /// This state of an open burst, or idle once all granted calls have ended.
    pub(crate) fn unless_ended(self, ended: u64, granted: u64) -> BundleState
        ensures all { ended ≡ granted → result ≡ Idle }
        ensures some { ended < granted → result ≡ self }
    {
        if ended == granted {
            return BundleState::Idle;
        }
        self
    }
}

/// Seats of one queue that insert and delete together, by bursts. They share what is left of their stints. Between a claim and
/// the tries that fill the cells the bundle keeps the items. Contracts see its object, its seats' names in the order in which
/// they take tickets, its stint, its state and the history that it has seen.
#[derive(Drop)]
pub struct Bundle<T> {
    pub(crate) token: QueueToken<T>,
    /// In the order in which they take tickets.
    pub(crate) names: Vec<u64>,
    /// The seats of the queue.
    pub(crate) seats: u64,
    /// The tickets that are left, of all names together.
    pub(crate) left: u64,
    /// The items that were claimed for and wait for their cells. It has room for an item of each name.
    pub(crate) kept: VecDeque<T>,
    pub(crate) state: BundleState,
    pub(crate) counts: SharedCounts,
}

impl<T> Model for Bundle<T> {
    ghost use Rattle.std.specs.VecDeque.{deque_capacity};
    ghost use Rattle.fak_model.specs.declared.queue.Mark.{Mark};
    ghost use Rattle.fak_model.specs.Calls.{object_id};
    ghost use Rattle.fak_queue.specs.BundleCalls.{BundleInfo, IsQueueBundle, queue_bundle};

    ghost Value = { BundleInfo (Mark T) };

    ghost view = { λ b. queue_bundle (object_id b.token.table_id b.seats) b.names.items b.left b.state b.token.me };

    ghost invariant = { λ b. IsQueueBundle b.token.table_id.slots b.seats b.names.items (deque_capacity b.kept) b.kept.items b.state
        b.left b.token.me };
}

impl<T> Bundle<T> {
    /// The state of the bundle between two calls. If it is idle, no call of its seats is cut short. Otherwise the last
    /// mark of each seat whose call has not ended is the draw of its ticket.
    pub fn state(&self) -> BundleState
        ensures value { result ≡ self.now.state }
        ensures idle { result ≡ Idle → AreIdle self.now.names self.now.seen }
        ensures read_off_seen { IsBundleState self.now result }
    {
        self.state
    }

    /// How many seats it has, at least 1: its bursts have at most as many items.
    pub fn seats(&self) -> u64
        ensures { result ≡ length self.now.names }
    {
        self.names.len() as u64
    }

    /// How many tickets are left of the stint that its seats share.
    pub fn left(&self) -> u64
        ensures { result + drawn_by_all self.now ≡ self.now.stint }
    {
        self.left
    }

    /// Says whether `Queue::insert_burst` and `delete_burst` pause before their claims if others use the queue too
    /// (`Seat::set_pauses_in_calls`). At first they do.
    pub fn set_pauses_in_calls(&mut self, pauses: bool)
        ensures { self.new ≡ self.old }
    {
        self.counts.pauses_in_calls = pauses;
    }
}

impl<T> fmt::Debug for Bundle<T> {
    fn fmt<W: fmt::Write>(&self, f: &mut fmt::Formatter<W>) -> fmt::Result {
        f.debug_struct("Bundle")
            .field("names", &self.names)
            .field("state", &self.state)
            .field("left", &self.left)
            .finish_non_exhaustive()
    }
}
