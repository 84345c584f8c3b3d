//! Tokens whose names are all at rest: what a load shows to one, and a join of two.

ghost use Rattle.std.specs.Prelude.{◌≡◌, ◌≤◌, Some, []};
ghost use Rattle.fak_model.specs.Limits.{large_seats};
ghost use Rattle.fak_model.specs.Tokens.{IsTallyToken};
ghost use Rattle.fak_core.specs.declared.queue.phase.Phase.TheVariants.{Idle};
ghost use Rattle.fak_queue.specs.Bundling.{JoinsTo, Settles, StaysAtRest};
ghost use Rattle.fak_queue.specs.Queues.{seat_of};
ghost use Rattle.fak_queue.specs.declared.phases.Phases.TheVariants.{Alike};
ghost use Rattle.fak_queue.specs.StepTokens.{StandsAt};
ghost use Rattle.fak_queue.specs.BurstTokens.{IsBundleToken, TellsAll};

use crate::plays::{Call, SettlePlay};
use crate::steps::{QueueToken, QueueWords};
use crate::words::UPPER;
use fak_model::Both;
use std::marker::Brand;

/// Loads the upper count for a token whose names are all at rest, so that it learns what its history entails.
fn settle<T, J: Call<T>>(words: &QueueWords<T>, token: &mut QueueToken<T>)
    requires { IsBundleToken words.now.table_id words.now.key J.seats (StandsAt Idle) token.old }
    ensures { TellsAll token.old token.new (λ after. Settles words.now.table_id.slots J.seats token.old.me after) }
{
    words.load::<SettlePlay<J>>(token, UPPER);
}

/// Lets a token whose names are all at rest learn what a split or a join of it needs.
pub(crate) fn rest<T>(words: &QueueWords<T>, token: &mut QueueToken<T>)
    requires token { IsBundleToken words.now.table_id words.now.key words.now.key.seats (λ me. StandsAt Idle me
        × (me.1 ≡ [])) token.old }
    requires seats { words.now.key.seats ≤ large_seats }
    ensures { TellsAll token.old token.new (λ after. StaysAtRest words.now.table_id.slots words.now.key.seats
        token.old.me after) }
{
    settle::<T, Brand>(words, token);
}

/// Joins another token; the names of both are at rest.
pub(crate) fn join_rested<T>(words: &QueueWords<T>, token: &mut QueueToken<T>, other: QueueToken<T>)
    requires token { IsBundleToken words.now.table_id words.now.key words.now.key.seats
        (IsTallyToken seat_of words.now.key.seats (Alike Idle)) token.old }
    requires other { other.table_id ≡ words.now.table_id }
    requires other_rests { (other.me.0.phase ≡ Some (Alike Idle)) × (other.me.1 ≡ []) }
    ensures { TellsAll token.old token.new (λ after. JoinsTo words.now.table_id.slots words.now.key.seats token.old.me
        other.me after) }
{
    words.join_seat::<Both>(token, other);
    settle::<T, Brand>(words, token);
}
