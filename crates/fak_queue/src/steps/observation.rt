//! The atomic steps that observe a count and leave no mark.

ghost use Rattle.std.specs.Prelude.{◌≡◌, Some};
ghost use Rattle.fak_core.specs.declared.queue.phase.Phase.{Phase};
ghost use Rattle.fak_queue.specs.declared.phases.Phases.TheVariants.{Alike};
ghost use Rattle.fak_queue.specs.Steps.{ObservedLow, ObservedUp};
ghost use Rattle.fak_queue.specs.StepTokens.{IsTokenOf, StandsAt};
ghost use Rattle.fak_queue.specs.BurstTokens.{TellsAll};

use crate::in_use::InUse;
use crate::plays::{Call, ObserveLowPlay, ObserveUpPlay};
use crate::steps::{QueueToken, QueueWords};
use crate::words::{LOWER, UPPER, read_in_use};
use fak_model::count_of;

/// Loads the upper count: the cells in use, and whether the queue is shut. It may come at any phase of a call, since it
/// changes neither a word nor the phase.
pub(crate) fn observe_up<T, J: Call<T>>(words: &QueueWords<T>, token: &mut QueueToken<T>) -> InUse
    requires { IsTokenOf words.now.table_id words.now.key J.seats (λ me. (p : Phase T) × StandsAt p me) token.old }
    ensures { TellsAll token.old token.new (λ after. (p : Phase T) → token.old.me.0.phase ≡ Some (Alike p)
        → ObservedUp words.now.table_id.slots J.seats p result token.old.me after) }
{
    read_in_use(words.load::<ObserveUpPlay<J>>(token, UPPER))
}

/// Loads the lower count. It may come at any phase of a call, as `observe_up` may.
pub(crate) fn observe_low<T, J: Call<T>>(words: &QueueWords<T>, token: &mut QueueToken<T>) -> i64
    requires { IsTokenOf words.now.table_id words.now.key J.seats (λ me. (p : Phase T) × StandsAt p me) token.old }
    ensures { TellsAll token.old token.new (λ after. (p : Phase T) → token.old.me.0.phase ≡ Some (Alike p)
        → ObservedLow words.now.table_id.slots J.seats p result token.old.me after) }
{
    count_of(words.load::<ObserveLowPlay<J>>(token, LOWER))
}
