//! What each step on the bits of sleepers shows to a seat. Only the proofs use these types.

ghost use Rattle.std.specs.Prelude.{ℕ, ◌%◌};
ghost use Rattle.fak_queue.specs.BitSteps.{ChecksDrained, Cleared, GaveUp, Looked, SawBit, SetBit, TestsDrainedAgain, TestsItemAgain, TestsRoomAgain, TookBack};
ghost use Rattle.fak_channel_core.specs.SleeperSides.{has_bit};
ghost use Rattle.fak_queue.specs.Steps.{Named};

use crate::phases::Phases;
use atomic_table::Play;
use fak_model::{Mark, View};
use std::marker::{Brand, PhantomData};

/// The bits that a step is about: the number of seats, the role, and the number of a word of bits or of another end.
pub trait OfBits {
    ghost use Rattle.fak_queue.specs.declared.role.Role.{Role};

    ghost seats: { ℕ };

    ghost role: { Role };

    ghost number: { ℕ };
}

impl OfBits for Brand {
    ghost use Rattle.fak_queue.specs.declared.role.Role.TheVariants.{Sender};

    ghost seats = { 0 };

    ghost role = { Sender };

    ghost number = { 0 };
}

/// The set of the own bit.
pub struct SetBitPlay<J> {
    call: PhantomData<J>,
}

impl<T, J: OfBits> Play<Option<T>, View<Mark<T>, Phases<T>>> for SetBitPlay<J> {
    ghost then = { λ s m _ after. Named m (λ n. SetBit s.slots J.seats n J.role m after) };
}

/// The load of the own bit.
pub struct SeeBitPlay<J> {
    call: PhantomData<J>,
}

impl<T, J: OfBits> Play<Option<T>, View<Mark<T>, Phases<T>>> for SeeBitPlay<J> {
    ghost then = { λ s m found after. Named m (λ n. SawBit s.slots J.seats n J.role (has_bit found (n % 64)) m after) };
}

/// The clear of the own bit.
pub struct TakeBackPlay<J> {
    call: PhantomData<J>,
}

impl<T, J: OfBits> Play<Option<T>, View<Mark<T>, Phases<T>>> for TakeBackPlay<J> {
    ghost then = { λ s m found after. Named m (λ n. TookBack s.slots J.seats n J.role (has_bit found (n % 64)) m
        after) };
}

/// The load by which a woken end gives up.
pub struct GiveUpPlay<J> {
    call: PhantomData<J>,
}

impl<T, J: OfBits> Play<Option<T>, View<Mark<T>, Phases<T>>> for GiveUpPlay<J> {
    ghost then = { λ s m _ after. Named m (λ n. GaveUp s.slots J.seats n J.role m after) };
}

/// The load of a word of bits.
pub struct LookPlay<J> {
    call: PhantomData<J>,
}

impl<T, J: OfBits> Play<Option<T>, View<Mark<T>, Phases<T>>> for LookPlay<J> {
    ghost then = { λ s m found after. Named m (λ n. Looked s.slots J.seats n J.role J.number found m after) };
}

/// The clear of another end's bit.
pub struct ClearPlay<J> {
    call: PhantomData<J>,
}

impl<T, J: OfBits> Play<Option<T>, View<Mark<T>, Phases<T>>> for ClearPlay<J> {
    ghost then = { λ s m found after. Named m (λ n. Cleared s.slots J.seats n J.role J.number
        (has_bit found (J.number % 64)) m after) };
}

/// The second test of a sender.
pub struct TestRoomAgainPlay<J> {
    call: PhantomData<J>,
}

impl<T, J: OfBits> Play<Option<T>, View<Mark<T>, Phases<T>>> for TestRoomAgainPlay<J> {
    ghost then = { λ s m found after. Named m (λ n. TestsRoomAgain s.slots J.seats n m found after) };
}

/// The second test of a receiver, for an item.
pub struct TestItemAgainPlay<J> {
    call: PhantomData<J>,
}

impl<T, J: OfBits> Play<Option<T>, View<Mark<T>, Phases<T>>> for TestItemAgainPlay<J> {
    ghost then = { λ s m found after. Named m (λ n. TestsItemAgain s.slots J.seats n m found after) };
}

/// The second test of a receiver, whether the channel is drained.
pub struct TestDrainedAgainPlay<J> {
    call: PhantomData<J>,
}

impl<T, J: OfBits> Play<Option<T>, View<Mark<T>, Phases<T>>> for TestDrainedAgainPlay<J> {
    ghost then = { λ s m found after. Named m (λ n. TestsDrainedAgain s.slots J.seats n m found after) };
}

/// The check whether the channel is drained.
pub struct CheckDrainedPlay<J> {
    call: PhantomData<J>,
}

impl<T, J: OfBits> Play<Option<T>, View<Mark<T>, Phases<T>>> for CheckDrainedPlay<J> {
    ghost then = { λ s m found after. Named m (λ n. ChecksDrained s.slots J.seats n m found after) };
}
