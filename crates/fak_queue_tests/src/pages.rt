//! An item of some kilobytes.

use super::steps::{A, B, C, Step, open_and_walk};

/// An item of 4 KB.
#[derive(Clone, Copy, PartialEq, Eq, Drop)]
struct Page {
    words: [u64; 512],
}

const TEN: Page = Page { words: [10; 512] };

const ELEVEN: Page = Page { words: [11; 512] };

const TWELVE: Page = Page { words: [12; 512] };

#[test]
fn a_page_waits_for_its_cell(rt: HostRuntime) {
    const STEPS: &[(usize, Step<Page>)] = &[
        (A, Step::Insert(TEN, Ok(0))),
        (B, Step::Insert(ELEVEN, Ok(1))),
        (C, Step::ClaimDelete(Ok(0))),
        (B, Step::Delete(Ok((1, ELEVEN)))),
        (B, Step::ClaimInsert(TWELVE, Ok(2))),
        (B, Step::TryFill(None)),
        (B, Step::TryFill(None)),
        (C, Step::TryTake(Some((0, TEN)))),
        (B, Step::TryFill(Some(2))),
        (A, Step::Delete(Ok((2, TWELVE)))),
    ];
    open_and_walk(&rt, (2, 3, 9), STEPS);
}
