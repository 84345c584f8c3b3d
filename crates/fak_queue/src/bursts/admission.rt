//! The claims of bursts: from the test to the draw.

ghost use Rattle.std.specs.Prelude.{◌≡◌, ◌<◌, ◌≤◌, IfErr, IfOk, MatchResult, drop, length};
ghost use Rattle.fak_model.specs.Limits.{large_seats, large_size};
ghost use Rattle.fak_model.specs.declared.queue.Kind.TheVariants.{BackIn};
ghost use Rattle.fak_core.specs.declared.queue.phase.Phase.TheVariants.{BackUp, Idle};
ghost use Rattle.fak_core.specs.QueueBlocks.{marks_back};
ghost use Rattle.fak_queue.specs.Bundles.{ClaimsOn, RefusesOn};
ghost use Rattle.fak_queue.specs.Bursts.{ClaimedBurst, LeavesMarks, RefusedBurst, RoomBurst, Says, claims_at, pair_up};
ghost use Rattle.fak_queue.specs.StepTokens.{StandsAt};
ghost use Rattle.fak_queue.specs.BurstTokens.{IsClaimToken, TellsAll};

use crate::bursts::claimants::Claimants;
use crate::bursts::insertion::{add_burst, back_burst, draw_burst, test_burst};
use crate::contention::SharedCounts;
use crate::found::NoRoom;
use crate::steps::{QueueToken, QueueWords};
use crate::words::read_upper;
use fak_model::BIAS;
use std::marker::Brand;

/// Takes back what was added for the names that are over. Only the proof uses the names and the items.
fn back_over<T>(
    words: &QueueWords<T>,
    token: &mut QueueToken<T>,
    count: u64,
    granted: u64,
    claimants: &Claimants<'_, T>,
)
    requires token { IsClaimToken words.now.table_id words.now.key claimants.now.names.now
        (length claimants.now.items.now) (λ me. Says me.0 (claims_at (λ x. BackUp x) claimants.now.names.now
        claimants.now.items.now granted)) token.old }
    requires count { (count ≡ length claimants.now.items.now) × (count ≤ large_seats) × (granted ≤ count) }
    ensures told { TellsAll token.old token.new (λ after. Says after.0 (claims_at (λ x. Idle) claimants.now.names.now
        claimants.now.items.now granted)) }
    ensures left { token.new.me.0.left ≡ token.old.me.0.left }
    ensures none { granted ≡ count → token.new.me ≡ token.old.me }
    ensures makes { granted < count → LeavesMarks words.now.table_id.slots words.now.key.seats
        (marks_back (λ x. BackIn) (drop granted (pair_up claimants.now.names.now claimants.now.items.now))) token.old.me token.new.me }
{
    if granted < count {
        back_burst::<T, Brand>(
            words,
            token,
            count - granted,
            claimants.names,
            claimants.items,
        );
    }
}

/// Claims room for these items, as many as find it, and returns their number. Only the proof uses the names and the items.
pub(crate) fn claim_room<T>(
    words: &QueueWords<T>,
    token: &mut QueueToken<T>,
    size: u64,
    counts: &mut SharedCounts,
    claimants: &Claimants<'_, T>,
) -> Result<u64, NoRoom>
    requires token { IsClaimToken words.now.table_id words.now.key claimants.now.names.now
        (length claimants.now.items.now) (StandsAt Idle) token.old }
    requires size { (size ≡ words.now.table_id.slots) × (size ≤ large_size) }
    requires some { (0 < length claimants.now.items.now) × (length claimants.now.items.now ≤ large_seats) }
    ensures { TellsAll token.old token.new (λ after. MatchResult result
        (λ j. RoomBurst words.now.table_id.slots words.now.key.seats claimants.now.names.now claimants.now.items.now j
        token.old.me after) (λ r. RefusedBurst words.now.table_id.slots words.now.key.seats claimants.now.names.now
        claimants.now.items.now r token.old.me after)) }
{
    let count = claimants.items.len();
    let tested = test_burst::<T, Brand>(words, token, claimants.names, claimants.items);
    counts.found_upper(tested);
    match read_upper(tested, size) {
        Ok(()) => {}
        Err(reason) => return Err(reason),
    }
    let found = add_burst::<T, Brand>(words, token, count, claimants.names, claimants.items);
    match read_upper(found, size) {
        Ok(()) => {
            let granted = count.min(BIAS + size - found);
            back_over(words, token, count, granted, claimants);
            Ok(granted)
        }
        Err(reason) => {
            back_burst::<T, Brand>(words, token, count, claimants.names, claimants.items);
            Err(reason)
        }
    }
}

/// Claims room for these items, as many as find it, and draws their tickets: returns the first, and their number. Only the
/// proof uses the names and the items.
pub(crate) fn admit_burst<T>(
    words: &QueueWords<T>,
    token: &mut QueueToken<T>,
    size: u64,
    counts: &mut SharedCounts,
    claimants: &Claimants<'_, T>,
) -> Result<(u64, u64), NoRoom>
    requires token { IsClaimToken words.now.table_id words.now.key claimants.now.names.now
        (length claimants.now.items.now) (StandsAt Idle) token.old }
    requires size { (size ≡ words.now.table_id.slots) × (size ≤ large_size) }
    requires some { (0 < length claimants.now.items.now) × (length claimants.now.items.now ≤ large_seats) }
    requires left { length claimants.now.items.now ≤ token.old.me.0.left }
    ensures told { TellsAll token.old token.new (λ after. MatchResult result
        (λ r. ClaimedBurst words.now.table_id.slots words.now.key.seats claimants.now.names.now claimants.now.items.now
        r.0 r.1 token.old.me after) (λ r. RefusedBurst words.now.table_id.slots words.now.key.seats
        claimants.now.names.now claimants.now.items.now r token.old.me after)) }
    ensures claims { IfOk result
        (λ r. ClaimsOn words.now.table_id.slots words.now.key.seats claimants.now.names.now claimants.now.items.now r.0 r.1 token.old.me
        token.new.me) }
    ensures refuses { IfErr result
        (λ r. RefusesOn words.now.table_id.slots words.now.key.seats claimants.now.names.now (length claimants.now.items.now) r token.old.me
        token.new.me) }
{
    match claim_room(words, token, size, counts, claimants) {
        Ok(granted) => Ok((
            draw_burst::<T, Brand>(words, token, granted, claimants.names, claimants.items),
            granted,
        )),
        Err(reason) => Err(reason),
    }
}
