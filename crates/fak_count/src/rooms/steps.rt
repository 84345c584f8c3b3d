//! The atomic steps of a seat on a room's word.

ghost use Rattle.std.specs.Prelude.{◌≡◌, ◌≤◌};
ghost use Rattle.fak_model.specs.declared.room.RoomKind.TheVariants.{Back, Release};
ghost use Rattle.fak_core.specs.declared.room.phase.RoomPhase.TheVariants.{Idle, Adding, Backing};
ghost use Rattle.fak_count.specs.RoomShown.{Tested, Added, Lowered, HeardJoin, Holds};
ghost use Rattle.fak_count.specs.StepTokens.{IsTokenOf, Tells};
ghost use Rattle.fak_count.specs.Words.{FitsTable};

use crate::rooms::limits::RoomLimits;
use crate::rooms::plays::{AddPlay, Call, HearPlay, ReleasePlay, TestPlay, WithdrawPlay};
use crate::rooms::rule::{RoomRule, RoomView};
use crate::words::COUNT;
use atomic_table::{Seat, Shared};

/// The words of a room.
pub(crate) type RoomWords = Shared<(), RoomView, RoomLimits, RoomRule>;

/// A seat's right to take steps on them.
pub(crate) type RoomToken = Seat<(), RoomView>;

/// Loads the count, which the caller tests for a claim of `d`. The amount is only for the proof.
///
/// The test comes before the add, so that a claim that cannot fit leaves the count alone. Without it, claims that are
/// tried again could keep the count above the bound with their adds, and so refuse claims that would fit.
pub(crate) fn test<J: Call>(words: &RoomWords, token: &mut RoomToken, d: u64) -> u64
    requires token { IsTokenOf words.now.table_id words.now.key J.key Idle token.old }
    requires amount { (1 ≤ d) × (d ≤ 1024) × (d ≡ J.amount) }
    ensures told { Tells token.old token.new (Tested words.now.key d token.old.me result) }
{
    words.load::<TestPlay<J>>(token, COUNT)
}

/// Adds a claim of `d` to the count. It comes after a test that found room. Other claims may have been added since, so
/// the caller tests again what the add found: only that decides whether the claim is granted.
pub(crate) fn add<J: Call>(words: &RoomWords, token: &mut RoomToken, d: u64) -> u64
    requires token { IsTokenOf words.now.table_id words.now.key J.key (Adding d) token.old }
    requires amount { (1 ≤ d) × (d ≤ 1024) × (d ≡ J.amount) }
    ensures told { Tells token.old token.new (Added words.now.key d token.old.me result) }
{
    words.fetch_add::<AddPlay<J>>(token, COUNT, d)
}

/// Subtracts a claim of `d` whose add found too little room. It comes right after that add: until then the count
/// includes an amount that no seat holds, and other claims may be refused because of it.
pub(crate) fn withdraw<J: Call>(words: &RoomWords, token: &mut RoomToken, d: u64) -> u64
    requires token { IsTokenOf words.now.table_id words.now.key J.key (Backing d) token.old }
    requires amount { (1 ≤ d) × (d ≤ 1024) × (d ≡ J.amount) }
    ensures told { Tells token.old token.new (Lowered words.now.key (Back d) token.old.me result) }
{
    words.fetch_sub::<WithdrawPlay<J>>(token, COUNT, d)
}

/// Subtracts `d` of what the seat holds. From here on other claims may be granted this amount, so the seat must have
/// finished with it.
pub(crate) fn release<J: Call>(words: &RoomWords, token: &mut RoomToken, d: u64) -> u64
    requires token { IsTokenOf words.now.table_id words.now.key J.key Idle token.old }
    requires amount { (1 ≤ d) × (d ≤ 1024) × (d ≡ J.amount) }
    requires holds { Holds token.old.me.0 d }
    ensures told { Tells token.old token.new (Lowered words.now.key (Release d) token.old.me result) }
{
    words.fetch_sub::<ReleasePlay<J>>(token, COUNT, d)
}

/// Loads the count after a join; the value is not used. Only a step on a word lets the proof see that one of the two joined
/// histories is a prefix of the other.
pub(crate) fn hear<J: Call>(words: &RoomWords, token: &mut RoomToken)
    requires table { FitsTable token.old.table_id words.now.table_id words.now.key J.key }
    ensures same { token.new.table_id ≡ token.old.table_id }
    ensures told { HeardJoin words.now.key token.old.me token.new.me }
{
    words.load::<HearPlay<J>>(token, COUNT);
}
