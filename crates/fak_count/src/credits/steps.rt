//! The atomic steps of a seat on a credit's word.

ghost use Rattle.std.specs.Prelude.{◌≡◌, ◌<◌};
ghost use Rattle.fak_model.specs.declared.credit.CreditKind.TheVariants.{Debit, Credit};
ghost use Rattle.fak_count.specs.CreditShown.{MadeMark, Observed, HeardJoin};
ghost use Rattle.fak_count.specs.StepTokens.{IsTokenOf, Tells};
ghost use Rattle.fak_count.specs.Words.{FitsTable};

use crate::credits::limits::CreditLimits;
use crate::credits::plays::{Call, CreditPlay, DebitPlay, HearPlay, ObservePlay};
use crate::credits::rule::{CreditRule, CreditView};
use crate::words::COUNT;
use atomic_table::{Seat, Shared};

/// The words of a credit.
pub(crate) type CreditWords = Shared<(), CreditView, CreditLimits, CreditRule>;

/// A seat's right to take steps on them.
pub(crate) type CreditToken = Seat<(), CreditView>;

/// Subtracts 1, and returns the word before. A debit is only this step, since a credit has no bound to test. The caller
/// has checked that the stint is not used up: the stints bound how far the word can move, so it cannot wrap.
pub(crate) fn debit<J: Call>(words: &CreditWords, token: &mut CreditToken) -> u64
    requires token { IsTokenOf words.now.table_id words.now.key J.key tt token.old }
    requires left { 0 < token.old.me.0.left }
    ensures told { Tells token.old token.new (MadeMark words.now.key Debit token.old.me result) }
{
    words.fetch_sub::<DebitPlay<J>>(token, COUNT, 1)
}

/// Adds 1, and returns the word before. A credit is only this step. The caller has checked the stint, as for a debit.
pub(crate) fn credit<J: Call>(words: &CreditWords, token: &mut CreditToken) -> u64
    requires token { IsTokenOf words.now.table_id words.now.key J.key tt token.old }
    requires left { 0 < token.old.me.0.left }
    ensures told { Tells token.old token.new (MadeMark words.now.key Credit token.old.me result) }
{
    words.fetch_add::<CreditPlay<J>>(token, COUNT, 1)
}

/// Loads the count. This leaves no mark and changes nothing, so it needs no stint and may come between any two calls.
pub(crate) fn observe<J: Call>(words: &CreditWords, token: &mut CreditToken) -> u64
    requires token { IsTokenOf words.now.table_id words.now.key J.key tt token.old }
    ensures told { Tells token.old token.new (Observed words.now.key token.old.me result) }
{
    words.load::<ObservePlay<J>>(token, COUNT)
}

/// Loads the count after a join; the value is not used. Only a step on a word lets the proof see that one of the two joined
/// histories is a prefix of the other.
pub(crate) fn hear<J: Call>(words: &CreditWords, token: &mut CreditToken)
    requires table { FitsTable token.old.table_id words.now.table_id words.now.key J.key }
    ensures same { token.new.table_id ≡ token.old.table_id }
    ensures told { HeardJoin words.now.key token.old.me token.new.me }
{
    words.load::<HearPlay<J>>(token, COUNT);
}
