//! What each atomic step of a burst shows to the bundle. Only the proofs use these types.

ghost use Rattle.std.specs.Prelude.{ℕ, Bool, false, List, []};
ghost use Rattle.fak_queue.specs.declared.phases.Phases.TheVariants.{Each};
ghost use Rattle.fak_queue.specs.Bursts.{AddedBurst, BackBurst, BackLowBurst, DrewBurst, DrewOutBurst, EndedBurst};
ghost use Rattle.fak_queue.specs.Bursts.{EndedOutBurst, FillsCellInBurst, FreesBurst, SubbedBurst, TestedBurst};
ghost use Rattle.fak_queue.specs.Bursts.{TestedLowBurst, TurnsBurst, TurnsOutBurst};

use crate::phases::Phases;
use atomic_table::Play;
use fak_model::{Mark, View};
use std::marker::{Brand, PhantomData};

/// The burst that a step belongs to: the number of seats, the names that step, each with its item, and the posts of the
/// others.
pub trait BurstOfInsertions<T> {
    ghost use Rattle.fak_core.specs.QueueBlocks.{Posts};
    ghost use Rattle.fak_queue.specs.declared.phases.Phases.{Phases};

    ghost seats: { ℕ };

    ghost items: { List (ℕ × T) };

    ghost others: { Posts T };

    // What its view states then, since some steps leave a choice.
    ghost then: { Phases T };
}

/// The names that end their insertions or deletions, each with its ticket, and whether all names are at rest then.
pub trait EndsOfBurst {
    ghost seats: { ℕ };

    ghost items: { List (ℕ × ℕ) };

    ghost rests: { Bool };
}

/// The name that is at its cell.
pub trait OneName {
    ghost seats: { ℕ };

    ghost name: { ℕ };
}

/// The burst of deletions that a step belongs to: as `BurstOfInsertions`.
pub trait BurstOfDeletions<T> {
    ghost use Rattle.fak_core.specs.QueueBlocks.{Posts};
    ghost use Rattle.fak_queue.specs.declared.phases.Phases.{Phases};

    ghost seats: { ℕ };

    ghost items: { List (ℕ × Unit {0}) };

    ghost others: { Posts T };

    ghost then: { Phases T };
}

impl<T> BurstOfInsertions<T> for Brand {
    ghost seats = { 0 };

    ghost items = { [] };

    ghost others = { [] };

    ghost then = { Each [] };
}

impl EndsOfBurst for Brand {
    ghost seats = { 0 };

    ghost items = { [] };

    ghost rests = { false };
}

impl OneName for Brand {
    ghost seats = { 0 };

    ghost name = { 0 };
}

impl<T> BurstOfDeletions<T> for Brand {
    ghost seats = { 0 };

    ghost items = { [] };

    ghost others = { [] };

    ghost then = { Each [] };
}

/// The test for several names at once.
pub struct TestBurstPlay<J> {
    call: PhantomData<J>,
}

impl<T, J: BurstOfInsertions<T>> Play<Option<T>, View<Mark<T>, Phases<T>>> for TestBurstPlay<J> {
    ghost then = { λ s m found after. TestedBurst s.slots J.seats J.items J.others m found after };
}

/// The add to the upper count for several names at once.
pub struct AddBurstPlay<J> {
    call: PhantomData<J>,
}

impl<T, J: BurstOfInsertions<T>> Play<Option<T>, View<Mark<T>, Phases<T>>> for AddBurstPlay<J> {
    ghost then = { λ s m found after. AddedBurst s.slots J.seats J.items J.others m found after };
}

/// The withdrawal of several names at once.
pub struct BackBurstPlay<J> {
    call: PhantomData<J>,
}

impl<T, J: BurstOfInsertions<T>> Play<Option<T>, View<Mark<T>, Phases<T>>> for BackBurstPlay<J> {
    ghost then = { λ s m _ after. BackBurst s.slots J.seats J.items J.others J.then m after };
}

/// The draw of tickets that follow one another.
pub struct DrawBurstPlay<J> {
    call: PhantomData<J>,
}

impl<T, J: BurstOfInsertions<T>> Play<Option<T>, View<Mark<T>, Phases<T>>> for DrawBurstPlay<J> {
    ghost then = { λ s m found after. DrewBurst s.slots J.seats J.items J.others m found after };
}

/// One name's load of its cell's turn.
pub struct TurnBurstPlay<J> {
    call: PhantomData<J>,
}

impl<T, J: OneName> Play<Option<T>, View<Mark<T>, Phases<T>>> for TurnBurstPlay<J> {
    ghost then = { λ s m found after. TurnsBurst s.slots J.seats J.name m found after };
}

/// The store that makes one name's cell full.
pub struct FillBurstPlay<J> {
    call: PhantomData<J>,
}

impl<T, J: OneName> Play<Option<T>, View<Mark<T>, Phases<T>>> for FillBurstPlay<J> {
    ghost then = { λ s m _ after. FillsCellInBurst s.slots J.seats J.name m after };
}

/// The end of several insertions at once.
pub struct EndBurstPlay<J> {
    call: PhantomData<J>,
}

impl<T, J: EndsOfBurst> Play<Option<T>, View<Mark<T>, Phases<T>>> for EndBurstPlay<J> {
    ghost then = { λ s m _ after. EndedBurst s.slots J.seats J.items J.rests m after };
}

/// The test of the lower count for several names at once.
pub struct TestLowBurstPlay<J> {
    call: PhantomData<J>,
}

impl<T, J: BurstOfDeletions<T>> Play<Option<T>, View<Mark<T>, Phases<T>>> for TestLowBurstPlay<J> {
    ghost then = { λ s m found after. TestedLowBurst s.slots J.seats J.items J.others m found after };
}

/// The subtraction from the lower count for several names at once.
pub struct SubBurstPlay<J> {
    call: PhantomData<J>,
}

impl<T, J: BurstOfDeletions<T>> Play<Option<T>, View<Mark<T>, Phases<T>>> for SubBurstPlay<J> {
    ghost then = { λ s m found after. SubbedBurst s.slots J.seats J.items J.others m found after };
}

/// The withdrawal of several deletions at once.
pub struct BackLowBurstPlay<J> {
    call: PhantomData<J>,
}

impl<T, J: BurstOfDeletions<T>> Play<Option<T>, View<Mark<T>, Phases<T>>> for BackLowBurstPlay<J> {
    ghost then = { λ s m _ after. BackLowBurst s.slots J.seats J.items J.others J.then m after };
}

/// The draw of deletions' tickets that follow one another.
pub struct DrawOutBurstPlay<J> {
    call: PhantomData<J>,
}

impl<T, J: BurstOfDeletions<T>> Play<Option<T>, View<Mark<T>, Phases<T>>> for DrawOutBurstPlay<J> {
    ghost then = { λ s m found after. DrewOutBurst s.slots J.seats J.items J.others m found after };
}

/// One name's load of the turn of the cell that it takes from.
pub struct TurnOutBurstPlay<J> {
    call: PhantomData<J>,
}

impl<T, J: OneName> Play<Option<T>, View<Mark<T>, Phases<T>>> for TurnOutBurstPlay<J> {
    ghost then = { λ s m found after. TurnsOutBurst s.slots J.seats J.name m found after };
}

/// The store that makes one name's cell free.
pub struct FreeBurstPlay<J> {
    call: PhantomData<J>,
}

impl<T, J: OneName> Play<Option<T>, View<Mark<T>, Phases<T>>> for FreeBurstPlay<J> {
    ghost then = { λ s m _ after. FreesBurst s.slots J.seats J.name m after };
}

/// The end of several deletions at once.
pub struct EndOutBurstPlay<J> {
    call: PhantomData<J>,
}

impl<T, J: EndsOfBurst> Play<Option<T>, View<Mark<T>, Phases<T>>> for EndOutBurstPlay<J> {
    ghost then = { λ s m _ after. EndedOutBurst s.slots J.seats J.items J.rests m after };
}
