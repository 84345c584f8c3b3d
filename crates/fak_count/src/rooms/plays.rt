//! What a seat learns from each atomic step on a room's word. These types are only for the proofs.

use crate::rooms::rule::RoomView;
use atomic_table::Play;
use std::marker::{Brand, PhantomData};

/// The room that a step is on, and the amount of its call.
pub trait Call {
    ghost use Rattle.std.specs.Prelude.{ℕ};
    ghost use Rattle.fak_count.specs.declared.rooms.limits.RoomLimits.{RoomLimits};

    ghost key: { RoomLimits };

    ghost amount: { ℕ };
}

impl Call for Brand {
    ghost key = { record { bound = 0; seats = 0 } };

    ghost amount = { 0 };
}

/// The load of a claim, which its test decides on.
pub struct TestPlay<J: Call> {
    of: PhantomData<J>,
}

impl<J: Call> Play<(), RoomView> for TestPlay<J> {
    ghost use Rattle.fak_count.specs.RoomShown.{Tested};

    ghost then = { λ s m found after. Tested J.key J.amount m found after };
}

/// The add of a claim, which its retest decides on.
pub struct AddPlay<J: Call> {
    of: PhantomData<J>,
}

impl<J: Call> Play<(), RoomView> for AddPlay<J> {
    ghost use Rattle.fak_count.specs.RoomShown.{Added};

    ghost then = { λ s m found after. Added J.key J.amount m found after };
}

/// The subtraction that withdraws a claim.
pub struct WithdrawPlay<J: Call> {
    of: PhantomData<J>,
}

impl<J: Call> Play<(), RoomView> for WithdrawPlay<J> {
    ghost use Rattle.fak_model.specs.declared.room.RoomKind.TheVariants.{Back};
    ghost use Rattle.fak_count.specs.RoomShown.{Lowered};

    ghost then = { λ s m found after. Lowered J.key (Back J.amount) m found after };
}

/// The subtraction that gives an amount back.
pub struct ReleasePlay<J: Call> {
    of: PhantomData<J>,
}

impl<J: Call> Play<(), RoomView> for ReleasePlay<J> {
    ghost use Rattle.fak_model.specs.declared.room.RoomKind.TheVariants.{Release};
    ghost use Rattle.fak_count.specs.RoomShown.{Lowered};

    ghost then = { λ s m found after. Lowered J.key (Release J.amount) m found after };
}

/// The load after a join.
pub struct HearPlay<J: Call> {
    of: PhantomData<J>,
}

impl<J: Call> Play<(), RoomView> for HearPlay<J> {
    ghost use Rattle.fak_count.specs.RoomShown.{HeardJoin};

    ghost then = { λ s m found after. HeardJoin J.key m after };
}
