//! The claim of a burst of deletions: from the test to the draw.

ghost use Rattle.std.specs.Prelude.{◌≡◌, ◌<◌, ◌≤◌, IfErr, IfOk, MatchResult, drop};
ghost use Rattle.fak_model.specs.Limits.{large_seats};
ghost use Rattle.fak_model.specs.declared.queue.Kind.TheVariants.{BackOut};
ghost use Rattle.fak_core.specs.declared.queue.phase.Phase.TheVariants.{BackLow, Idle};
ghost use Rattle.fak_core.specs.QueueBlocks.{marks_back};
ghost use Rattle.fak_queue.specs.Bundles.{ClaimsOutOn, RefusesOutOn};
ghost use Rattle.fak_queue.specs.Bursts.{ClaimedOutBurst, LeavesMarks, RefusedOutBurst, Says, StockBurst, claims_out_at, pair_up, units};
ghost use Rattle.fak_queue.specs.StepTokens.{StandsAt};
ghost use Rattle.fak_queue.specs.BurstTokens.{IsClaimToken, TellsAll};

use crate::bursts::deletion::{back_low_burst, draw_out_burst, sub_burst, test_low_burst};
use crate::contention::SharedCounts;
use crate::steps::{QueueToken, QueueWords};
use crate::words::read_lower;
use fak_model::BIAS;
use std::marker::Brand;

/// Gives back what was subtracted for the names that are over. Only the proof uses the names.
fn back_over_low<T>(
    words: &QueueWords<T>,
    token: &mut QueueToken<T>,
    count: u64,
    granted: u64,
    names: &[u64],
)
    requires token { IsClaimToken words.now.table_id words.now.key names.now count
        (λ me. Says me.0 (claims_out_at BackLow names.now (units count) granted)) token.old }
    requires count { (count ≤ large_seats) × (granted ≤ count) }
    ensures told { TellsAll token.old token.new (λ after. Says after.0 (claims_out_at Idle names.now (units count)
        granted)) }
    ensures left { token.new.me.0.left ≡ token.old.me.0.left }
    ensures none { granted ≡ count → token.new.me ≡ token.old.me }
    ensures makes { granted < count → LeavesMarks words.now.table_id.slots words.now.key.seats
        (marks_back (λ x. BackOut) (drop granted (pair_up names.now (units count)))) token.old.me
        token.new.me }
{
    if granted < count {
        back_low_burst::<T, Brand>(words, token, count - granted, names, count);
    }
}

/// Claims this many items, or as many as there are, and returns their number. Only the proof uses the names.
pub(crate) fn claim_stock<T>(
    words: &QueueWords<T>,
    token: &mut QueueToken<T>,
    counts: &mut SharedCounts,
    count: u64,
    names: &[u64],
) -> Result<u64, i64>
    requires token { IsClaimToken words.now.table_id words.now.key names.now count (StandsAt Idle) token.old }
    requires some { (0 < count) × (count ≤ large_seats) }
    ensures { TellsAll token.old token.new (λ after. MatchResult result
        (λ j. StockBurst words.now.table_id.slots words.now.key.seats names.now (units count) j token.old.me after)
        (λ l. RefusedOutBurst words.now.table_id.slots words.now.key.seats names.now (units count) l token.old.me
        after)) }
{
    let tested = test_low_burst::<T, Brand>(words, token, names, count);
    counts.found_lower(tested);
    match read_lower(tested) {
        Ok(()) => {}
        Err(lower) => return Err(lower),
    }
    let found = sub_burst::<T, Brand>(words, token, count, names, count);
    match read_lower(found) {
        Ok(()) => {
            let granted = count.min(found - BIAS);
            back_over_low(words, token, count, granted, names);
            Ok(granted)
        }
        Err(lower) => {
            back_low_burst::<T, Brand>(words, token, count, names, count);
            Err(lower)
        }
    }
}

/// Claims this many items, or as many as there are, and draws their tickets: returns the first, and their number. Only the
/// proof uses the names.
pub(crate) fn admit_burst_out<T>(
    words: &QueueWords<T>,
    token: &mut QueueToken<T>,
    counts: &mut SharedCounts,
    count: u64,
    names: &[u64],
) -> Result<(u64, u64), i64>
    requires token { IsClaimToken words.now.table_id words.now.key names.now count (StandsAt Idle) token.old }
    requires some { (0 < count) × (count ≤ large_seats) }
    requires left { count ≤ token.old.me.0.left }
    ensures told { TellsAll token.old token.new (λ after. MatchResult result
        (λ r. ClaimedOutBurst words.now.table_id.slots words.now.key.seats names.now (units count) r.0 r.1 token.old.me
        after) (λ l. RefusedOutBurst words.now.table_id.slots words.now.key.seats names.now (units count) l token.old.me
        after)) }
    ensures claims { IfOk result
        (λ r. ClaimsOutOn words.now.table_id.slots words.now.key.seats names.now count r.0 r.1 token.old.me
        token.new.me) }
    ensures refuses { IfErr result
        (λ l. RefusesOutOn words.now.table_id.slots words.now.key.seats names.now count l token.old.me token.new.me) }
{
    match claim_stock(words, token, counts, count, names) {
        Ok(granted) => Ok((
            draw_out_burst::<T, Brand>(words, token, granted, names, count),
            granted,
        )),
        Err(lower) => Err(lower),
    }
}
