//! How bundles are made of seats, broken up into seats, and joined to tallies.

ghost use Rattle.std.specs.Prelude.{◌≡◌, ◌↔◌, ◌⊎◌, ◌<◌, ◌≤◌, ℕ, IfOk, MatchResult, [], length, map};
ghost use Rattle.std.specs.List.{All};
ghost use Rattle.std.specs.Vec.{vec_capacity};
ghost use Rattle.std.specs.VecDeque.{deque_capacity};
ghost use Rattle.fak_model.specs.Limits.{large_seats};
ghost use Rattle.fak_model.specs.Calls.{IsJoinOf};
ghost use Rattle.fak_model.specs.Histories.{AreNamed};
ghost use Rattle.fak_model.specs.Names.{Has};
ghost use Rattle.fak_model.specs.Queue.{IsQueueHistory, queue_rules};
ghost use Rattle.fak_model.specs.Seats.{In};
ghost use Rattle.fak_queue.specs.declared.bundle.BundleState.TheVariants.{Idle};
ghost use Rattle.fak_queue.specs.Bundling.{AreSeatsOf, IsBundleFault, IsBundleOf, IsTokenOfSeat, name_of, tally_of_bundle};
ghost use Rattle.fak_queue.specs.Queues.{IsIdleSeat, size_of, state_of};
ghost use Rattle.fak_queue.specs.declared.state.SeatState.TheVariants as seat_is;

use crate::bundle::{Bundle, BundleState};
use crate::contention::SharedCounts;
use crate::fault::BundleFault;
use crate::parts::SeatParts;
use crate::queue::Queue;
use crate::resting::{join_rested, rest};
use crate::seat::Seat;
use crate::steps::QueueToken;
use crate::tally::Tally;
use fak_core::Phase;
use fak_model::{Deal, NameSet};
use std::alloc::{AllocError, Global};
use std::collections::VecDeque;

impl<T: Drop> Bundle<T> {
    /// The bundle of these seats, in this order: at least one, all idle and of this queue. They share what is left of their stints.
    /// The bundle pauses in its calls as a new seat does.
    ///
    /// # Errors
    ///
    /// `NoSeats` or `Memory`, in this order; the seats come back.
    pub fn of(
        alloc: Global,
        queue: &Queue<T>,
        seats: Vec<Seat<T>>,
    ) -> Result<Bundle<T>, BundleFault<T>>
        requires seats { All (IsIdleSeat queue.now.object) seats.items }
        ensures object { IfOk result (λ bundle. bundle.object ≡ queue.now.object) }
        ensures made { MatchResult result (IsBundleOf queue.now.size seats.items) (IsBundleFault seats.items) }
    {
        if seats.is_empty() {
            return Err(BundleFault::NoSeats);
        }
        let Ok(names) = names_of_seats(alloc, &seats) else {
            return Err(BundleFault::Memory { seats });
        };
        let Ok(kept) = VecDeque::with_capacity(alloc, seats.len()) else {
            return Err(BundleFault::Memory { seats });
        };
        Ok(gathered(queue, seats, names, kept))
    }

    /// Its seats, in its order, each with an equal share of the tickets that are left. If these don't come out even, some have one
    /// more. The seats pause in their calls as new ones do.
    ///
    /// # Errors
    ///
    /// There was no memory; the bundle comes back.
    pub fn into_seats(self, alloc: Global, queue: &Queue<T>) -> Result<Vec<Seat<T>>, Bundle<T>>
        requires object { self.object ≡ queue.now.object }
        requires idle { self.state ≡ Idle }
        ensures { MatchResult result (λ seats. AreSeatsOf self seats.items) (λ back. back ≡ self) }
    {
        match Vec::with_capacity(alloc, self.names.len()) {
            Ok(seats) => Ok(deal_out(queue, self, seats)),
            Err(AllocError) => Err(self),
        }
    }
}

impl<T: Drop> Queue<T> {
    /// The tally with the seats of a bundle more.
    pub fn join_bundle(&self, tally: Tally<T>, bundle: Bundle<T>) -> Tally<T>
        requires object { (tally.object ≡ self.now.object) × (bundle.object ≡ self.now.object) }
        requires idle { bundle.state ≡ Idle }
        ensures joined { IsJoinOf (queue_rules self.now.size) tally (tally_of_bundle bundle) result }
        ensures object { result.object ≡ self.now.object }
    {
        let Tally {
            mut token,
            names: mut set,
            seats,
        } = tally;
        let Bundle {
            token: other,
            names,
            seats: _,
            left: _,
            kept: _,
            state: _,
            counts: _,
        } = bundle;
        join_rested(&self.table.shared, &mut token, other);
        insert_names(&mut set, &names);
        Tally {
            token,
            names: set,
            seats,
        }
    }
}

impl<T: Drop> Tally<T> {
    /// The tally of a bundle's seats.
    pub fn of_bundle(queue: &Queue<T>, bundle: Bundle<T>) -> Tally<T>
        requires object { bundle.object ≡ queue.now.object }
        requires idle { bundle.state ≡ Idle }
        ensures tally { result ≡ tally_of_bundle bundle }
        ensures lawful { IsQueueHistory (size_of result.object) result.seen }
        ensures named { AreNamed (queue_rules (size_of result.object)) result.object.seats result.seen }
    {
        let Bundle {
            mut token,
            names,
            seats,
            left: _,
            kept: _,
            state: _,
            counts: _,
        } = bundle;
        rest(&queue.table.shared, &mut token);
        let mut set = NameSet::of(names[0]);
        insert_names(&mut set, &names);
        Tally {
            token,
            names: set,
            seats,
        }
    }
}

/// The names of the seats, in their order.
fn names_of_seats<T>(alloc: Global, seats: &[Seat<T>]) -> Result<Vec<u64>, AllocError>
    ensures { IfOk result (λ names. names.items ≡ map name_of seats.now) }
{
    let mut names = Vec::with_capacity(alloc, seats.len())?;
    for seat in seats {
        names.push(seat.parts.name())?;
    }
    Ok(names)
}

/// What a bundle takes over of a seat.
#[derive(Drop)]
struct Part<T> {
    token: QueueToken<T>,
    seats: u64,
    left: u64,
}

/// What a bundle takes over of this seat.
fn part_of<T: Drop>(seat: Seat<T>) -> Part<T>
    requires { state_of seat ≡ seat_is.Idle }
    ensures { IsTokenOfSeat seat result.token.table_id result.seats result.left result.token.me }
{
    let Seat { parts } = seat;
    let SeatParts {
        token,
        name: _,
        seats,
        left,
        phase: _,
        counts: _,
    } = parts;
    Part { token, seats, left }
}

/// The bundle of these seats, which has their names, and room for an item of each.
fn gathered<T: Drop>(
    queue: &Queue<T>,
    seats: Vec<Seat<T>>,
    names: Vec<u64>,
    kept: VecDeque<T>,
) -> Bundle<T>
    requires seats { All (IsIdleSeat queue.now.object) seats.items }
    requires some { 0 < length seats.items }
    requires names { names.items ≡ map name_of seats.items }
    requires kept { (kept.items ≡ []) × (length seats.items ≤ deque_capacity kept) }
    ensures object { result.object ≡ queue.now.object }
    ensures made { IsBundleOf queue.now.size seats.items result }
{
    let words = &queue.table.shared;
    let mut others = seats.into_iter();
    let Some(first) = others.next() else {
        unreachable!()
    };
    let Part {
        mut token,
        seats,
        mut left,
    } = part_of(first);
    for seat in others {
        let part = part_of(seat);
        join_rested(words, &mut token, part.token);
        left += part.left;
    }
    Bundle {
        token,
        names,
        seats,
        left,
        kept,
        state: BundleState::Idle,
        counts: SharedCounts::new(left),
    }
}

/// The seats of the bundle, each with its share, in `dealt`, which has room for them.
fn deal_out<T: Drop>(queue: &Queue<T>, bundle: Bundle<T>, mut dealt: Vec<Seat<T>>) -> Vec<Seat<T>>
    requires object { bundle.object ≡ queue.now.object }
    requires idle { bundle.state ≡ Idle }
    requires none { dealt.items ≡ [] }
    requires room { length bundle.names ≤ vec_capacity dealt }
    ensures { AreSeatsOf bundle result.items }
{
    let Bundle {
        mut token,
        names,
        seats,
        mut left,
        kept: _,
        state: _,
        counts: _,
    } = bundle;
    let words = &queue.table.shared;
    rest(words, &mut token);
    let mut others = names.len() as u64;
    for name in names {
        let share = left / others;
        let parts = SeatParts {
            token: words.split_seat::<Deal>(&mut token),
            name,
            seats,
            left: share,
            phase: Phase::Idle,
            counts: SharedCounts::new(share),
        };
        left -= share;
        others -= 1;
        if dealt.push(Seat { parts }).is_err() {
            unreachable!()
        }
    }
    dealt
}

/// Puts the names into the set.
fn insert_names(set: &mut NameSet, names: &[u64])
    requires { (n : ℕ) → In n names.now → n < large_seats }
    ensures { (n : ℕ) → Has set.new n ↔ (Has set.old n ⊎ In n names.now) }
{
    for name in names {
        set.insert(*name);
    }
}
