//! The checker of a queue's recorded histories.

ghost use Rattle.std.specs.Prelude.{◌≤◌, MatchOption};
ghost use Rattle.fak_model.specs.Checker.{FirstFault};
ghost use Rattle.fak_model.specs.Limits.{largest_size};
ghost use Rattle.fak_model.specs.Queue.{IsQueueHistory};

pub mod counts;
pub mod judge;
pub mod look_back;

use crate::queue::Mark;
use counts::Counts;
use judge::{counts_after, may_follow};

/// The index of the first mark that makes a history of a queue of this size illegal: the marks before it are a legal
/// history, and with it they are not. None if the whole history is legal. A last call that is cut short is no fault.
///
/// The size is 1 to 4,096. It allocates nothing. For each mark it searches back for the newest mark of the seat, and
/// for at most one `Fill` or `Take`.
pub fn first_fault(size: u64, marks: &[Mark<u64>]) -> Option<usize>
    requires { (1 ≤ size) × (size ≤ largest_size) }
    ensures { MatchOption result (IsQueueHistory size marks.now) (λ i. FirstFault size marks.now i) }
{
    let mut counts = Counts {
        upper_raises: 0,
        upper_drops: 0,
        lower_raises: 0,
        lower_drops: 0,
        puts: 0,
        gots: 0,
        is_shut: false,
        oldest: 0,
    };
    for (i, m) in marks.iter().enumerate() {
        let past = &marks[..i];
        if !may_follow(size, past, &counts, m) {
            return Some(i);
        }
        counts = counts_after(past, counts, m);
    }
    None
}
