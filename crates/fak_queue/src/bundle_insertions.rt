//! Bursts of insertions: the calls of a bundle.

ghost use Rattle.std.specs.Prelude.{◌≡◌, ℕ, ◌+◌, ◌<◌, drop, length, MatchResult};
ghost use Rattle.std.specs.VecDeque.{deque_capacity};
ghost use Rattle.fak_queue.specs.declared.bundle.BundleState.TheVariants.{Idle, Inserting};
ghost use Rattle.fak_queue.specs.BundleCalls.{drawn_by_all};
ghost use Rattle.fak_queue.specs.BurstCalls.{ClaimsBurst, FillsBurst, InsertsBurst, InsertsBurstAfterFull, PutsFrom};
ghost use Rattle.fak_queue.specs.BurstCalls.{RefusesBurst, RefusesWaitingBurst, TriesToFill};

use crate::bundle::{Bundle, BundleState};
use crate::burst::Burst;
use crate::bursts::admission::admit_burst;
use crate::bursts::claimants::Claimants;
use crate::bursts::filling::fill_ready;
use crate::bursts::first_items::FirstItems;
use crate::bursts::keeping::keep;
use crate::bursts::progress::Progress;
use crate::bursts::waiting::fill_all;
use crate::fault::BurstFault;
use crate::queue::Queue;
use crossbeam_utils::Backoff;
use std::collections::VecDeque;
use std::sync::Wait;

impl<T: Drop> Queue<T> {
    /// Inserts the first of these items by one claim, as many as find room. Returns their tickets, which follow one another.
    /// The other items stay, in their order. It waits until it is the turn of each cell; items before it can be deleted
    /// meanwhile.
    ///
    /// # Errors
    ///
    /// `Worn`, `Closed` or `Full`, in this order; then all items stay.
    pub fn insert_burst<R: Wait>(
        &self,
        rt: &R,
        bundle: &mut Bundle<T>,
        items: &mut VecDeque<T>,
    ) -> Result<Burst, BurstFault>
        requires object { bundle.old.object ≡ self.now.object }
        requires idle { bundle.old.state ≡ Idle }
        requires some { 0 < length items.old.items }
        ensures object { bundle.new.object ≡ bundle.old.object }
        ensures state { bundle.new.state ≡ Idle }
        ensures left { MatchResult result (λ b. drawn_by_all bundle.new ≡ drawn_by_all bundle.old + b.count)
            (λ _. drawn_by_all bundle.new ≡ drawn_by_all bundle.old) }
        ensures items { MatchResult result (λ b. items.new.items ≡ drop b.count items.old.items)
            (λ _. items.new.items ≡ items.old.items) }
        ensures capacity { deque_capacity items.new ≡ deque_capacity items.old }
        ensures call { MatchResult result
            (λ b. InsertsBurst self.now.size items.old.items b.ticket b.count bundle.old bundle.new)
            (RefusesBurst self.now.size (length items.old.items) bundle.old bundle.new) }
        ensures sums { PutsFrom items.old.items items.new.items bundle.old bundle.new }
    {
        bundle.counts.pause_in_call(self.cells.size, bundle.left);
        match self.claim_insert_burst(bundle, items) {
            Ok(burst) => {
                self.fill_claimed(rt, bundle);
                Ok(burst)
            }
            Err(fault) => Err(fault),
        }
    }

    /// Inserts the first of these items by one claim, as many as find room, and tries again while the queue is full. Returns their
    /// tickets. The other items stay, in their order.
    ///
    /// # Errors
    ///
    /// `Worn` or `Closed`, in this order, and never `Full`; then all items stay.
    pub fn wait_insert_burst<R: Wait>(
        &self,
        rt: &R,
        bundle: &mut Bundle<T>,
        items: &mut VecDeque<T>,
    ) -> Result<Burst, BurstFault>
        requires object { bundle.old.object ≡ self.now.object }
        requires idle { bundle.old.state ≡ Idle }
        requires some { 0 < length items.old.items }
        ensures object { bundle.new.object ≡ bundle.old.object }
        ensures state { bundle.new.state ≡ Idle }
        ensures left { MatchResult result (λ b. drawn_by_all bundle.new ≡ drawn_by_all bundle.old + b.count)
            (λ _. drawn_by_all bundle.new ≡ drawn_by_all bundle.old) }
        ensures items { MatchResult result (λ b. items.new.items ≡ drop b.count items.old.items)
            (λ _. items.new.items ≡ items.old.items) }
        ensures capacity { deque_capacity items.new ≡ deque_capacity items.old }
        ensures call { MatchResult result
            (λ b. InsertsBurstAfterFull self.now.size items.old.items b.ticket b.count bundle.old bundle.new)
            (RefusesWaitingBurst self.now.size (length items.old.items) bundle.old bundle.new) }
        ensures sums { PutsFrom items.old.items items.new.items bundle.old bundle.new }
    {
        let backoff = Backoff::new();
        for _ in rt.forever() {
            match self.insert_burst(rt, bundle, items) {
                Ok(burst) => return Ok(burst),
                Err(BurstFault::Worn) => return Err(BurstFault::Worn),
                Err(BurstFault::Closed) => return Err(BurstFault::Closed),
                Err(BurstFault::Full { upper: _ }) => backoff.snooze(),
            }
        }
        unreachable!()
    }

    /// Claims room for the first of these items, as many as find it, and draws their tickets, which follow one another. The
    /// bundle keeps these items until `try_fill_burst`. The other items stay, in their order. It waits for nobody.
    ///
    /// # Errors
    ///
    /// `Worn`, `Closed` or `Full`, in this order; then all items stay, and the bundle is idle.
    pub fn claim_insert_burst(
        &self,
        bundle: &mut Bundle<T>,
        items: &mut VecDeque<T>,
    ) -> Result<Burst, BurstFault>
        requires object { bundle.old.object ≡ self.now.object }
        requires idle { bundle.old.state ≡ Idle }
        requires some { 0 < length items.old.items }
        ensures object { bundle.new.object ≡ bundle.old.object }
        ensures state { MatchResult result (λ b. bundle.new.state ≡ Inserting b.ticket 0 b.count)
            (λ _. bundle.new.state ≡ Idle) }
        ensures left { MatchResult result (λ b. drawn_by_all bundle.new ≡ drawn_by_all bundle.old + b.count)
            (λ _. drawn_by_all bundle.new ≡ drawn_by_all bundle.old) }
        ensures items { MatchResult result (λ b. items.new.items ≡ drop b.count items.old.items)
            (λ _. items.new.items ≡ items.old.items) }
        ensures capacity { deque_capacity items.new ≡ deque_capacity items.old }
        ensures call { MatchResult result
            (λ b. ClaimsBurst self.now.size items.old.items b.ticket b.count bundle.old bundle.new)
            (RefusesBurst self.now.size (length items.old.items) bundle.old bundle.new) }
        ensures sums { PutsFrom items.old.items items.new.items bundle.old bundle.new }
    {
        if bundle.left == 0 {
            return Err(BurstFault::Worn);
        }
        let most = bundle.left.min(bundle.names.len() as u64);
        let count = most.min(items.len() as u64);
        let first = FirstItems::of(items, count);
        let claimants = Claimants {
            names: bundle.names.as_slice(),
            items: &first,
        };
        match admit_burst(
            &self.table.shared,
            &mut bundle.token,
            self.cells.size,
            &mut bundle.counts,
            &claimants,
        ) {
            Ok((ticket, granted)) => {
                bundle.left -= granted;
                bundle.counts.expect_insertions(granted);
                keep(items, &mut bundle.kept, granted);
                bundle.state = BundleState::Inserting {
                    ticket,
                    ended: 0,
                    granted,
                };
                Ok(Burst {
                    ticket,
                    count: granted,
                })
            }
            Err(reason) => Err(reason.refuse_burst()),
        }
    }

    /// If it is the turn of the cells, moves the items that the bundle keeps into them, in the order of their tickets, until
    /// one's turn has not come, and ends these insertions. Returns how many insertions are left; with 0 the bundle is idle. It
    /// waits for nobody.
    pub fn try_fill_burst(&self, bundle: &mut Bundle<T>) -> u64
        requires object { bundle.old.object ≡ self.now.object }
        requires inserting { (k e g : ℕ) × (bundle.old.state ≡ Inserting k e g) }
        ensures object { bundle.new.object ≡ bundle.old.object }
        ensures left { drawn_by_all bundle.new ≡ drawn_by_all bundle.old }
        ensures call { (k e g : ℕ) → bundle.old.state ≡ Inserting k e g
            → TriesToFill self.now.size k e g result bundle.old bundle.new }
    {
        let BundleState::Inserting {
            ticket,
            ended,
            granted,
        } = bundle.state
        else {
            unreachable!()
        };
        let at = Progress {
            names: bundle.names.as_slice(),
            cells: &self.cells,
            ticket,
            done: ended,
            granted,
        };
        let done = fill_ready(&self.table.shared, &mut bundle.token, &at, &mut bundle.kept);
        let open = BundleState::Inserting {
            ticket,
            ended: done,
            granted,
        };
        bundle.state = open.unless_ended(done, granted);
        granted - done
    }

    /// Fills the cells of a burst that was claimed and has filled none, and waits until it is the turn of each.
    fn fill_claimed<R: Wait>(&self, rt: &R, bundle: &mut Bundle<T>)
        requires object { bundle.old.object ≡ self.now.object }
        requires inserting { (k g : ℕ) × (bundle.old.state ≡ Inserting k 0 g) }
        ensures object { bundle.new.object ≡ bundle.old.object }
        ensures state { bundle.new.state ≡ Idle }
        ensures left { drawn_by_all bundle.new ≡ drawn_by_all bundle.old }
        ensures call { (k g : ℕ) → bundle.old.state ≡ Inserting k 0 g
            → FillsBurst self.now.size k 0 g bundle.old bundle.new }
    {
        let BundleState::Inserting {
            ticket,
            ended,
            granted,
        } = bundle.state
        else {
            unreachable!()
        };
        let at = Progress {
            names: bundle.names.as_slice(),
            cells: &self.cells,
            ticket,
            done: ended,
            granted,
        };
        fill_all(
            rt,
            &self.table.shared,
            &mut bundle.token,
            &at,
            &mut bundle.kept,
        );
        bundle.state = BundleState::Idle;
    }
}
