//! Bursts of deletions: the calls of a bundle.

ghost use Rattle.std.specs.Prelude.{◌≡◌, ℕ, ◌+◌, ◌-◌, ◌<◌, ◌≤◌, ◌++◌, List, length, MatchResult};
ghost use Rattle.std.specs.VecDeque.{deque_capacity, deque_len};
ghost use Rattle.fak_queue.specs.declared.bundle.BundleState.TheVariants.{Deleting, Idle};
ghost use Rattle.fak_queue.specs.BundleCalls.{drawn_by_all};
ghost use Rattle.fak_queue.specs.BurstCalls.{ClaimsBurstOut, DeletesBurst, DeletesBurstAfterEmpty, GetsInto};
ghost use Rattle.fak_queue.specs.BurstCalls.{RefusesBurstOut, RefusesWaitingBurstOut, TakesBurst, TriesToTake};

use crate::bundle::{Bundle, BundleState};
use crate::burst::Burst;
use crate::bursts::admission_out::admit_burst_out;
use crate::bursts::emptying::take_ready;
use crate::bursts::progress::Progress;
use crate::bursts::waiting::take_all;
use crate::fault::DeleteFault;
use crate::queue::Queue;
use crossbeam_utils::Backoff;
use std::collections::VecDeque;
use std::sync::Wait;

impl<T: Drop> Queue<T> {
    /// Deletes the oldest items by one claim, at most `most`, as many as there are, and puts them at the back of `out`, which has
    /// room for them. Returns their tickets, which follow one another. It waits until it is the turn of each cell.
    ///
    /// # Errors
    ///
    /// `Worn` or `Empty`, in this order.
    pub fn delete_burst<R: Wait>(
        &self,
        rt: &R,
        bundle: &mut Bundle<T>,
        most: u64,
        out: &mut VecDeque<T>,
    ) -> Result<Burst, DeleteFault>
        requires object { bundle.old.object ≡ self.now.object }
        requires idle { bundle.old.state ≡ Idle }
        requires some { 0 < most }
        requires room { deque_len out.old + most ≤ deque_capacity out.old }
        ensures object { bundle.new.object ≡ bundle.old.object }
        ensures state { bundle.new.state ≡ Idle }
        ensures left { MatchResult result (λ b. drawn_by_all bundle.new ≡ drawn_by_all bundle.old + b.count)
            (λ _. drawn_by_all bundle.new ≡ drawn_by_all bundle.old) }
        ensures len { MatchResult result (λ b. deque_len out.new ≡ deque_len out.old + b.count)
            (λ _. out.new.items ≡ out.old.items) }
        ensures capacity { deque_capacity out.new ≡ deque_capacity out.old }
        ensures call { MatchResult result
            (λ b. (ys : List T) × (out.new.items ≡ out.old.items ++ ys) × (length ys ≡ b.count)
            × DeletesBurst self.now.size most ys b.ticket bundle.old bundle.new)
            (RefusesBurstOut self.now.size most bundle.old bundle.new) }
        ensures sums { GetsInto out.old.items out.new.items bundle.old bundle.new }
    {
        bundle.counts.pause_in_call(self.cells.size, bundle.left);
        match self.claim_delete_burst(bundle, most) {
            Ok(burst) => {
                self.take_claimed(rt, bundle, out);
                Ok(burst)
            }
            Err(fault) => Err(fault),
        }
    }

    /// Deletes the oldest items by one claim, at most `most`, as many as there are, and tries again while the queue is empty. Puts
    /// them at the back of `out`, which has room for them, and returns their tickets.
    ///
    /// # Errors
    ///
    /// `Worn`, and never `Empty`.
    pub fn wait_delete_burst<R: Wait>(
        &self,
        rt: &R,
        bundle: &mut Bundle<T>,
        most: u64,
        out: &mut VecDeque<T>,
    ) -> Result<Burst, DeleteFault>
        requires object { bundle.old.object ≡ self.now.object }
        requires idle { bundle.old.state ≡ Idle }
        requires some { 0 < most }
        requires room { deque_len out.old + most ≤ deque_capacity out.old }
        ensures object { bundle.new.object ≡ bundle.old.object }
        ensures state { bundle.new.state ≡ Idle }
        ensures left { MatchResult result (λ b. drawn_by_all bundle.new ≡ drawn_by_all bundle.old + b.count)
            (λ _. drawn_by_all bundle.new ≡ drawn_by_all bundle.old) }
        ensures len { MatchResult result (λ b. deque_len out.new ≡ deque_len out.old + b.count)
            (λ _. out.new.items ≡ out.old.items) }
        ensures capacity { deque_capacity out.new ≡ deque_capacity out.old }
        ensures call { MatchResult result
            (λ b. (ys : List T) × (out.new.items ≡ out.old.items ++ ys) × (length ys ≡ b.count)
            × DeletesBurstAfterEmpty self.now.size most ys b.ticket bundle.old bundle.new)
            (RefusesWaitingBurstOut bundle.old bundle.new) }
        ensures sums { GetsInto out.old.items out.new.items bundle.old bundle.new }
    {
        let backoff = Backoff::new();
        for _ in rt.forever() {
            match self.delete_burst(rt, bundle, most, out) {
                Ok(burst) => return Ok(burst),
                Err(DeleteFault::Worn) => return Err(DeleteFault::Worn),
                Err(DeleteFault::Empty(_)) => backoff.snooze(),
            }
        }
        unreachable!()
    }

    /// Claims items, at most `most`, as many as there are, and draws their tickets, which follow one another. `try_take_burst`
    /// then hands the items out. It waits for nobody.
    ///
    /// # Errors
    ///
    /// `Worn` or `Empty`, in this order; the bundle is idle.
    pub fn claim_delete_burst(
        &self,
        bundle: &mut Bundle<T>,
        most: u64,
    ) -> Result<Burst, DeleteFault>
        requires object { bundle.old.object ≡ self.now.object }
        requires idle { bundle.old.state ≡ Idle }
        requires some { 0 < most }
        ensures object { bundle.new.object ≡ bundle.old.object }
        ensures state { MatchResult result (λ b. bundle.new.state ≡ Deleting b.ticket 0 b.count)
            (λ _. bundle.new.state ≡ Idle) }
        ensures left { MatchResult result (λ b. drawn_by_all bundle.new ≡ drawn_by_all bundle.old + b.count)
            (λ _. drawn_by_all bundle.new ≡ drawn_by_all bundle.old) }
        ensures call { MatchResult result
            (λ b. ClaimsBurstOut self.now.size most b.ticket b.count bundle.old bundle.new)
            (RefusesBurstOut self.now.size most bundle.old bundle.new) }
    {
        if bundle.left == 0 {
            return Err(DeleteFault::Worn);
        }
        let own = bundle.left.min(bundle.names.len() as u64);
        let count = own.min(most);
        match admit_burst_out(
            &self.table.shared,
            &mut bundle.token,
            &mut bundle.counts,
            count,
            bundle.names.as_slice(),
        ) {
            Ok((ticket, granted)) => {
                bundle.left -= granted;
                bundle.counts.expect_deletions(granted);
                bundle.state = BundleState::Deleting {
                    ticket,
                    ended: 0,
                    granted,
                };
                Ok(Burst {
                    ticket,
                    count: granted,
                })
            }
            Err(lower) => Err(DeleteFault::Empty(lower)),
        }
    }

    /// If it is the turn of the cells, moves their items to the back of `out`, in the order of their tickets, until one's turn
    /// has not come, and ends these deletions. Returns how many deletions are left; with 0 the bundle is idle. It waits for
    /// nobody. `out` has room for the items.
    pub fn try_take_burst(&self, bundle: &mut Bundle<T>, out: &mut VecDeque<T>) -> u64
        requires object { bundle.old.object ≡ self.now.object }
        requires deleting { (k e g : ℕ) × (bundle.old.state ≡ Deleting k e g)
            × (deque_len out.old + (g - e) ≤ deque_capacity out.old) }
        ensures object { bundle.new.object ≡ bundle.old.object }
        ensures left { drawn_by_all bundle.new ≡ drawn_by_all bundle.old }
        ensures capacity { deque_capacity out.new ≡ deque_capacity out.old }
        ensures call { (k e g : ℕ) → bundle.old.state ≡ Deleting k e g
            → (ys : List T) × (out.new.items ≡ out.old.items ++ ys)
            × TriesToTake self.now.size k e g result ys bundle.old bundle.new }
    {
        let BundleState::Deleting {
            ticket,
            ended,
            granted,
        } = bundle.state
        else {
            unreachable!()
        };
        let at = Progress {
            names: bundle.names.as_slice(),
            cells: &self.cells,
            ticket,
            done: ended,
            granted,
        };
        let done = take_ready(&self.table.shared, &mut bundle.token, &at, out);
        let open = BundleState::Deleting {
            ticket,
            ended: done,
            granted,
        };
        bundle.state = open.unless_ended(done, granted);
        granted - done
    }

    /// Empties the cells of a burst that was claimed and has emptied none, and waits until it is the turn of each.
    fn take_claimed<R: Wait>(&self, rt: &R, bundle: &mut Bundle<T>, out: &mut VecDeque<T>)
        requires object { bundle.old.object ≡ self.now.object }
        requires deleting { (k g : ℕ) × (bundle.old.state ≡ Deleting k 0 g)
            × (deque_len out.old + g ≤ deque_capacity out.old) }
        ensures object { bundle.new.object ≡ bundle.old.object }
        ensures state { bundle.new.state ≡ Idle }
        ensures left { drawn_by_all bundle.new ≡ drawn_by_all bundle.old }
        ensures capacity { deque_capacity out.new ≡ deque_capacity out.old }
        ensures call { (k g : ℕ) → bundle.old.state ≡ Deleting k 0 g
            → (ys : List T) × (out.new.items ≡ out.old.items ++ ys)
            × TakesBurst self.now.size k 0 g ys bundle.old bundle.new }
    {
        let BundleState::Deleting {
            ticket,
            ended,
            granted,
        } = bundle.state
        else {
            unreachable!()
        };
        let at = Progress {
            names: bundle.names.as_slice(),
            cells: &self.cells,
            ticket,
            done: ended,
            granted,
        };
        take_all(rt, &self.table.shared, &mut bundle.token, &at, out);
        bundle.state = BundleState::Idle;
    }
}
