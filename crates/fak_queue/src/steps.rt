//! The atomic steps of a seat, on its token.

pub(crate) mod bit_plays;
pub(crate) mod bits;
pub(crate) mod deletion;
pub(crate) mod insertion;
pub(crate) mod observation;

ghost use Rattle.fak_core.specs.declared.queue.phase.Phase.TheVariants.{Idle};
ghost use Rattle.fak_queue.specs.Steps.{FitsTable, HeardJoin, ShutAs};
ghost use Rattle.fak_queue.specs.StepTokens.{IsTokenOf, StandsAt, Tells};
ghost use Rattle.fak_queue.specs.BurstTokens.{TellsAll};

use crate::limits::QueueLimits;
use crate::phases::Phases;
use crate::plays::{Call, HearPlay, ShutPlay};
use crate::rule::QueueRule;
use crate::words::{SHUT, UPPER};
use atomic_table::Shared;
use fak_model::{Mark, View};

/// A seat at a queue's table.
pub(crate) type QueueToken<T> = atomic_table::Seat<Option<T>, View<Mark<T>, Phases<T>>>;

/// The words and the slots of a queue.
pub(crate) type QueueWords<T> = Shared<Option<T>, View<Mark<T>, Phases<T>>, QueueLimits, QueueRule>;

/// Sets the shut bit, and returns whether it was not set before. It comes between two calls of the seat. It is
/// one fetch-and-or, so that only the first to shut the queue finds the bit unset, and no count changes.
pub(crate) fn shut<T, J: Call<T>>(words: &QueueWords<T>, token: &mut QueueToken<T>) -> bool
    requires { IsTokenOf words.now.table_id words.now.key J.seats (StandsAt Idle) token.old }
    ensures { Tells token.old token.new (λ n after. ShutAs words.now.table_id.slots J.seats n result token.old.me after) }
{
    let found = words.fetch_or::<ShutPlay<J>>(token, UPPER, SHUT);
    found < SHUT
}

/// Loads the upper count after a join. It follows `join_seat`, which compares two histories: the load lets the token learn
/// the result, and changes nothing.
pub(crate) fn hear<T, J: Call<T>>(words: &QueueWords<T>, token: &mut QueueToken<T>)
    requires table { FitsTable token.old.table_id words.now.table_id words.now.key J.seats }
    ensures { TellsAll token.old token.new (λ after. HeardJoin words.now.table_id.slots J.seats token.old.me after) }
{
    words.load::<HearPlay<J>>(token, UPPER);
}
