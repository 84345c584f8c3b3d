//! The calls of a bundle. Each tests the state of the bundle.

ghost use Rattle.std.specs.Prelude.{◌≡◌, ◌↔◌, ◌<◌, IsTrue, MatchOption, length};
ghost use Rattle.std.specs.Arc.{arc_value};
ghost use Rattle.fak_handles.specs.bundle.Calls.{AsksToDeleteBurst, AsksToDeleteBurstOnce, AsksToFillBurst, AsksToInsertBurst, AsksToInsertBurstOnce, Fetches, IsInBurst, IsNotFilling, IsNotTaking, IsResting, TakesOut, next_ticket_or, state_code, waiting_or_before};

use crate::bundle::copying::{hand_out, least, take_in};
use crate::bundle::seat::BundleDesk;
use fak_queue::{BundleState, Burst, BurstFault, DeleteFault};

impl BundleDesk {
    /// `Queue::claim_insert_burst` of the first items, at most one for each seat; `None` if the bundle is in a burst.
    pub(crate) fn claim_insert(&mut self, items: &[u64]) -> Option<Result<Burst, BurstFault>>
        requires some { 0 < length items.now }
        ensures queue { arc_value self.new.queue ≡ arc_value self.old.queue }
        ensures call { MatchOption result (IsInBurst self.old self.new)
            (λ r. AsksToInsertBurst items.now r self.old self.new) }
    {
        if !self.is_idle() {
            return None;
        }
        let count = least(self.bundle.seats() as usize, items.len());
        take_in(items, &mut self.held, count);
        let claimed = self
            .queue
            .claim_insert_burst(&mut self.bundle, &mut self.held);
        self.held.clear();
        Some(claimed)
    }

    /// `Queue::try_fill_burst`; `None` if the bundle is not inserting.
    pub fn try_fill(&mut self) -> Option<u64>
        ensures queue { arc_value self.new.queue ≡ arc_value self.old.queue }
        ensures call { MatchOption result (IsNotFilling self.old self.new) (λ left. AsksToFillBurst left self.old self.new) }
    {
        match self.bundle.state() {
            BundleState::Inserting { .. } => Some(self.queue.try_fill_burst(&mut self.bundle)),
            BundleState::Idle | BundleState::Deleting { .. } => None,
        }
    }

    /// `Queue::claim_delete_burst` of at most this many items, and at most one for each seat; `None` if the bundle is in a burst.
    pub(crate) fn claim_delete(&mut self, most: usize) -> Option<Result<Burst, DeleteFault>>
        requires some { 0 < most }
        ensures queue { arc_value self.new.queue ≡ arc_value self.old.queue }
        ensures call { MatchOption result (IsInBurst self.old self.new) (λ r. AsksToDeleteBurst most r self.old self.new) }
    {
        if !self.is_idle() {
            return None;
        }
        let most = least(most, self.bundle.seats() as usize) as u64;
        let claimed = self.queue.claim_delete_burst(&mut self.bundle, most);
        if let Ok(burst) = &claimed {
            self.next = burst.ticket;
        }
        Some(claimed)
    }

    /// `Queue::try_take_burst` into the items that the bundle holds: how many deletions are left in the queue. `None` if no burst of
    /// deletions is open.
    fn fetch(&mut self) -> Option<u64>
        ensures queue { arc_value self.new.queue ≡ arc_value self.old.queue }
        ensures call { MatchOption result (IsNotTaking self.old self.new) (λ left. Fetches left self.old self.new) }
    {
        match self.bundle.state() {
            BundleState::Deleting { .. } => {
                Some(self.queue.try_take_burst(&mut self.bundle, &mut self.held))
            }
            BundleState::Idle => {
                if self.held.is_empty() {
                    return None;
                }
                Some(0)
            }
            BundleState::Inserting { .. } => None,
        }
    }

    /// Takes out of the queue what is ready of an open burst of deletions, and hands out as many items as there are places, in the order of
    /// their tickets: how many these are, and how many are left of the burst. The bundle holds the items for which there is no place.
    /// `None` if no burst of deletions is open.
    pub fn try_take(&mut self, places: &mut [u64]) -> Option<(u64, u64)>
        ensures queue { arc_value self.new.queue ≡ arc_value self.old.queue }
        ensures len { length places.new ≡ length places.old }
        ensures call { MatchOption result (IsNotTaking self.old self.new × (places.new ≡ places.old))
            (λ r. TakesOut r.0 r.1 places.old places.new self.old self.new) }
    {
        let left = self.fetch()?;
        let taken = hand_out(&mut self.held, places);
        self.next = self.next.wrapping_add(taken);
        Some((taken, left + self.held.len() as u64))
    }

    /// A claim, and if it is granted one try to fill: the burst, and how many items are left. `None` if the bundle is in a burst.
    pub fn insert(&mut self, items: &[u64]) -> Option<Result<(Burst, u64), BurstFault>>
        requires some { 0 < length items.now }
        ensures queue { arc_value self.new.queue ≡ arc_value self.old.queue }
        ensures call { MatchOption result (IsInBurst self.old self.new)
            (λ r. AsksToInsertBurstOnce items.now r self.old self.new) }
    {
        match self.claim_insert(items) {
            None => None,
            Some(Err(fault)) => Some(Err(fault)),
            Some(Ok(burst)) => match self.try_fill() {
                None => unreachable!(),
                Some(left) => Some(Ok((burst, left))),
            },
        }
    }

    /// A claim, and if it is granted one try to take into the first places: the burst, and how many items came out. `None` if the
    /// bundle is in a burst.
    pub fn delete(&mut self, places: &mut [u64]) -> Option<Result<(Burst, u64), DeleteFault>>
        requires some { 0 < length places.old }
        ensures queue { arc_value self.new.queue ≡ arc_value self.old.queue }
        ensures len { length places.new ≡ length places.old }
        ensures call { MatchOption result (IsInBurst self.old self.new × (places.new ≡ places.old))
            (λ r. AsksToDeleteBurstOnce r places.old places.new self.old self.new) }
    {
        match self.claim_delete(places.len()) {
            None => None,
            Some(Err(fault)) => Some(Err(fault)),
            Some(Ok(burst)) => match self.try_take(places) {
                None => unreachable!(),
                Some((taken, _)) => Some(Ok((burst, taken))),
            },
        }
    }

    /// Whether no burst is open.
    pub(crate) fn is_idle(&self) -> bool
        ensures { IsTrue result ↔ IsResting self.now }
    {
        match self.bundle.state() {
            BundleState::Idle => self.held.is_empty(),
            BundleState::Inserting { .. } | BundleState::Deleting { .. } => false,
        }
    }

    /// Writes the state of the bundle, 0 idle, 1 inserting, 2 deleting. If a burst is open, also the ticket of its first item that is not
    /// in its cell, or not handed out, and how many of these items there are.
    pub fn state(&self, state: &mut u32, ticket: &mut u64, waiting: &mut u64)
        ensures state { state.new ≡ state_code self.now }
        ensures ticket { ticket.new ≡ next_ticket_or ticket.old self.now }
        ensures waiting { waiting.new ≡ waiting_or_before waiting.old self.now }
    {
        match self.bundle.state() {
            BundleState::Inserting {
                ticket: first,
                ended,
                granted,
            } => {
                *state = 1;
                *ticket = first.wrapping_add(ended);
                *waiting = granted.saturating_sub(ended);
            }
            BundleState::Deleting {
                ticket: _,
                ended,
                granted,
            } => {
                *state = 2;
                *ticket = self.next;
                *waiting = granted.saturating_sub(ended) + self.held.len() as u64;
            }
            BundleState::Idle => {
                *state = 0;
                if !self.held.is_empty() {
                    *state = 2;
                    *ticket = self.next;
                    *waiting = self.held.len() as u64;
                }
            }
        }
    }
}
