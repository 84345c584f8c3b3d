//! What each atomic step of a seat shows to it. Only the proofs use these types.

ghost use Rattle.std.specs.Prelude.{ℕ, Option, None};
ghost use Rattle.fak_queue.specs.Steps.{
  AddsUp,
  BacksLow,
  BacksUp,
  DrawsIn,
  DrawsOut,
  EndsIn,
  EndsOut,
  HeardJoin,
  Named,
  ObservesLow,
  ObservesUp,
  SetsFree,
  SetsFull,
  Shuts,
  SubtractsLow,
  TestsLow,
  TestsUp,
  TurnsIn,
  TurnsOut,
};
ghost use Rattle.fak_queue.specs.Bundling.{Settles};

use crate::phases::Phases;
use atomic_table::Play;
use fak_model::{Mark, View};
use std::marker::{Brand, PhantomData};

/// The call that a step belongs to: the number of seats, and an insertion's item.
pub trait Call<T> {
    ghost seats: { ℕ };

    ghost item: { Option T };
}

impl<T> Call<T> for Brand {
    ghost seats = { 0 };

    ghost item = { None };
}

/// The test of the upper count that begins an insertion.
pub struct TestUpPlay<J> {
    call: PhantomData<J>,
}

impl<T, J: Call<T>> Play<Option<T>, View<Mark<T>, Phases<T>>> for TestUpPlay<J> {
    ghost then = { λ s m found after. Named m (λ n. TestsUp s.slots J.seats n J.item m found after) };
}

/// The add to the upper count.
pub struct AddUpPlay<J> {
    call: PhantomData<J>,
}

impl<T, J: Call<T>> Play<Option<T>, View<Mark<T>, Phases<T>>> for AddUpPlay<J> {
    ghost then = { λ s m found after. Named m (λ n. AddsUp s.slots J.seats n m found after) };
}

/// The withdrawal of an insertion.
pub struct BackUpPlay<J> {
    call: PhantomData<J>,
}

impl<T, J: Call<T>> Play<Option<T>, View<Mark<T>, Phases<T>>> for BackUpPlay<J> {
    ghost then = { λ s m _ after. Named m (λ n. BacksUp s.slots J.seats n m after) };
}

/// The draw of an insertion's ticket.
pub struct TicketInPlay<J> {
    call: PhantomData<J>,
}

impl<T, J: Call<T>> Play<Option<T>, View<Mark<T>, Phases<T>>> for TicketInPlay<J> {
    ghost then = { λ s m found after. Named m (λ n. DrawsIn s.slots J.seats n m found after) };
}

/// An insertion's load of its cell's turn.
pub struct TurnInPlay<J> {
    call: PhantomData<J>,
}

impl<T, J: Call<T>> Play<Option<T>, View<Mark<T>, Phases<T>>> for TurnInPlay<J> {
    ghost then = { λ s m found after. Named m (λ n. TurnsIn s.slots J.seats n m found after) };
}

/// The store that makes a cell full.
pub struct SetFullPlay<J> {
    call: PhantomData<J>,
}

impl<T, J: Call<T>> Play<Option<T>, View<Mark<T>, Phases<T>>> for SetFullPlay<J> {
    ghost then = { λ s m _ after. Named m (λ n. SetsFull s.slots J.seats n m after) };
}

/// The add to the lower count that ends an insertion.
pub struct EndInPlay<J> {
    call: PhantomData<J>,
}

impl<T, J: Call<T>> Play<Option<T>, View<Mark<T>, Phases<T>>> for EndInPlay<J> {
    ghost then = { λ s m _ after. Named m (λ n. EndsIn s.slots J.seats n m after) };
}

/// The test of the lower count that begins a deletion.
pub struct TestLowPlay<J> {
    call: PhantomData<J>,
}

impl<T, J: Call<T>> Play<Option<T>, View<Mark<T>, Phases<T>>> for TestLowPlay<J> {
    ghost then = { λ s m found after. Named m (λ n. TestsLow s.slots J.seats n m found after) };
}

/// The subtraction from the lower count.
pub struct SubLowPlay<J> {
    call: PhantomData<J>,
}

impl<T, J: Call<T>> Play<Option<T>, View<Mark<T>, Phases<T>>> for SubLowPlay<J> {
    ghost then = { λ s m found after. Named m (λ n. SubtractsLow s.slots J.seats n m found after) };
}

/// The withdrawal of a deletion.
pub struct BackLowPlay<J> {
    call: PhantomData<J>,
}

impl<T, J: Call<T>> Play<Option<T>, View<Mark<T>, Phases<T>>> for BackLowPlay<J> {
    ghost then = { λ s m _ after. Named m (λ n. BacksLow s.slots J.seats n m after) };
}

/// The draw of a deletion's ticket.
pub struct TicketOutPlay<J> {
    call: PhantomData<J>,
}

impl<T, J: Call<T>> Play<Option<T>, View<Mark<T>, Phases<T>>> for TicketOutPlay<J> {
    ghost then = { λ s m found after. Named m (λ n. DrawsOut s.slots J.seats n m found after) };
}

/// A deletion's load of its cell's turn.
pub struct TurnOutPlay<J> {
    call: PhantomData<J>,
}

impl<T, J: Call<T>> Play<Option<T>, View<Mark<T>, Phases<T>>> for TurnOutPlay<J> {
    ghost then = { λ s m found after. Named m (λ n. TurnsOut s.slots J.seats n m found after) };
}

/// The store that makes a cell free.
pub struct SetFreePlay<J> {
    call: PhantomData<J>,
}

impl<T, J: Call<T>> Play<Option<T>, View<Mark<T>, Phases<T>>> for SetFreePlay<J> {
    ghost then = { λ s m _ after. Named m (λ n. SetsFree s.slots J.seats n m after) };
}

/// The subtraction from the upper count that ends a deletion.
pub struct EndOutPlay<J> {
    call: PhantomData<J>,
}

impl<T, J: Call<T>> Play<Option<T>, View<Mark<T>, Phases<T>>> for EndOutPlay<J> {
    ghost then = { λ s m _ after. Named m (λ n. EndsOut s.slots J.seats n m after) };
}

/// The setting of the shut bit.
pub struct ShutPlay<J> {
    call: PhantomData<J>,
}

impl<T, J: Call<T>> Play<Option<T>, View<Mark<T>, Phases<T>>> for ShutPlay<J> {
    ghost then = { λ s m found after. Named m (λ n. Shuts s.slots J.seats n m found after) };
}

/// The load of the upper count that observes it.
pub struct ObserveUpPlay<J> {
    call: PhantomData<J>,
}

impl<T, J: Call<T>> Play<Option<T>, View<Mark<T>, Phases<T>>> for ObserveUpPlay<J> {
    ghost then = { λ s m found after. ObservesUp s.slots J.seats m found after };
}

/// The load of the lower count that observes it.
pub struct ObserveLowPlay<J> {
    call: PhantomData<J>,
}

impl<T, J: Call<T>> Play<Option<T>, View<Mark<T>, Phases<T>>> for ObserveLowPlay<J> {
    ghost then = { λ s m found after. ObservesLow s.slots J.seats m found after };
}

/// The load of a token whose names are all at rest.
pub struct SettlePlay<J> {
    call: PhantomData<J>,
}

impl<T, J: Call<T>> Play<Option<T>, View<Mark<T>, Phases<T>>> for SettlePlay<J> {
    ghost then = { λ s m _ after. Settles s.slots J.seats m after };
}

/// The load after a join.
pub struct HearPlay<J> {
    call: PhantomData<J>,
}

impl<T, J: Call<T>> Play<Option<T>, View<Mark<T>, Phases<T>>> for HearPlay<J> {
    ghost then = { λ s m _ after. HeardJoin s.slots J.seats m after };
}
