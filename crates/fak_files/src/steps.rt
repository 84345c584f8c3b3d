//! Each atomic step of a seat on the words of a file table. What the hold is for (`_access`) is a parameter only for the proofs.

ghost use Rattle.std.specs.Prelude.{◌≡◌, ◌<◌, ◌≤◌};
ghost use Rattle.fak_files.specs.Phases.{amount_of};
ghost use Rattle.fak_files.specs.Shown.{Tested, Took, Withdrew, Gave, Got, WasSet, HeardJoin};
ghost use Rattle.fak_files.specs.StepTokens.{IsTokenOf, Tells};
ghost use Rattle.fak_files.specs.Words.{FitsTable};
ghost use Rattle.fak_files.specs.declared.phase.Access.TheVariants.{Write};
ghost use Rattle.fak_files.specs.declared.phase.FilePhase.TheVariants.{Idle, Taking, Backing, Holding};

use crate::limits::FileLimits;
use crate::phase::Access;
use crate::plays::{Call, GetPlay, GivePlay, HearPlay, SetPlay, TakePlay, TestPlay, WithdrawPlay};
use crate::rule::{FileRule, FileView};
use crate::words::{COUNT, place_of};
use atomic_table::{Seat, Shared};
use fak_model::FileField;

/// The words of a file table.
pub(crate) type FileWords = Shared<(), FileView, FileLimits, FileRule>;

/// A seat's right to take steps on them.
pub(crate) type FileToken = Seat<(), FileView>;

/// Loads the count, which the caller tests for the amount of a hold.
///
/// The test comes before the subtraction, so that a hold that cannot be granted leaves the count alone. Without it, holds
/// that are tried again could keep the count too low with their subtractions, and so refuse holds that there is enough for.
pub(crate) fn test<J: Call>(
    words: &FileWords,
    token: &mut FileToken,
    amount: u64,
    _access: Access,
) -> u64
    requires token { IsTokenOf words.now.table_id words.now.key J.key J.name Idle token.old }
    requires amount { (amount ≡ amount_of J.key.seats J.access) × (_access ≡ J.access) }
    ensures told { Tells token.old token.new (Tested J.key J.name J.access token.old.me result) }
{
    words.load::<TestPlay<J>>(token, COUNT)
}

/// Subtracts the amount of a hold. It comes after a test that found enough. Others may have taken since, so the caller tests
/// again what the subtraction found. If that is enough, the hold begins here, and its loads and stores come after this step.
pub(crate) fn take<J: Call>(
    words: &FileWords,
    token: &mut FileToken,
    amount: u64,
    _access: Access,
) -> u64
    requires token { IsTokenOf words.now.table_id words.now.key J.key J.name (Taking J.access) token.old }
    requires amount { (amount ≡ amount_of J.key.seats J.access) × (_access ≡ J.access) }
    ensures told { Tells token.old token.new (Took J.key J.name J.access token.old.me result) }
{
    words.fetch_sub::<TakePlay<J>>(token, COUNT, amount)
}

/// Adds the amount of a subtraction that found too little. It comes right after that subtraction: until then the count
/// is too low by an amount that no seat holds, and other tries may be refused because of it.
pub(crate) fn withdraw<J: Call>(
    words: &FileWords,
    token: &mut FileToken,
    amount: u64,
    _access: Access,
)
    requires token { IsTokenOf words.now.table_id words.now.key J.key J.name (Backing J.access) token.old }
    requires amount { (amount ≡ amount_of J.key.seats J.access) × (_access ≡ J.access) }
    ensures told { Tells token.old token.new (Withdrew J.key J.name J.access token.old.me) }
{
    words.fetch_add::<WithdrawPlay<J>>(token, COUNT, amount);
}

/// Adds the amount of a hold, which ends it. From here on another seat may be granted a hold, and a writer may store
/// fields. So this comes after the last load and the last store of the hold.
pub(crate) fn give<J: Call>(words: &FileWords, token: &mut FileToken, amount: u64, _access: Access)
    requires token { IsTokenOf words.now.table_id words.now.key J.key J.name (Holding J.access) token.old }
    requires amount { (amount ≡ amount_of J.key.seats J.access) × (_access ≡ J.access) }
    ensures told { Tells token.old token.new (Gave J.key J.name token.old.me) }
{
    words.fetch_add::<GivePlay<J>>(token, COUNT, amount);
}

/// Loads a field during a hold. Between the seat's take and its give no other seat stores a field, so loads of several
/// fields show one version.
pub(crate) fn get_field<J: Call>(
    words: &FileWords,
    token: &mut FileToken,
    _access: Access,
    entry: u64,
    field: FileField,
) -> u64
    requires token { IsTokenOf words.now.table_id words.now.key J.key J.name (Holding J.access) token.old }
    requires field { (entry ≡ J.entry) × (field ≡ J.field) × (entry < J.key.entries) × (J.key.entries ≤ 16) }
    requires access { _access ≡ J.access }
    ensures told { Tells token.old token.new (Got J.key J.name J.access J.entry J.field token.old.me result) }
{
    words.load::<GetPlay<J>>(token, place_of(entry, field))
}

/// Stores a field during a writer's hold. Between the writer's take and its give no other seat holds, so none loads a
/// field half way through the writer's changes.
pub(crate) fn set_field<J: Call>(
    words: &FileWords,
    token: &mut FileToken,
    entry: u64,
    field: FileField,
    to: u64,
)
    requires token { IsTokenOf words.now.table_id words.now.key J.key J.name (Holding Write) token.old }
    requires field { (entry ≡ J.entry) × (field ≡ J.field) × (to ≡ J.to) × (entry < J.key.entries)
        × (J.key.entries ≤ 16) }
    ensures told { Tells token.old token.new (WasSet J.key J.name J.entry J.field J.to token.old.me) }
{
    words.store::<SetPlay<J>>(token, place_of(entry, field), to);
}

/// Loads the count after a join; the value is not used. Only a step on a word lets the proof see that one of the two
/// joined histories is a prefix of the other.
pub(crate) fn hear<J: Call>(words: &FileWords, token: &mut FileToken)
    requires table { FitsTable token.old.table_id words.now.table_id words.now.key J.key }
    ensures same { token.new.table_id ≡ token.old.table_id }
    ensures told { HeardJoin J.key token.old.me token.new.me }
{
    words.load::<HearPlay<J>>(token, COUNT);
}
