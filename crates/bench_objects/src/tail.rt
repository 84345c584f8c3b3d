//! Percentiles of many times.

ghost use Rattle.std.specs.Prelude.{◌≡◌, IfOk, MatchOption, vec_len};
ghost use Rattle.bench_objects.specs.Tails.{IsTail};

use std::alloc::{AllocError, Global};

/// Percentiles of call times: p50, p99, p99.9 and the maximum.
#[derive(Clone, Copy)]
pub struct Tail {
    pub median: u64,
    pub p99: u64,
    pub p999: u64,
    pub worst: u64,
}

/// The percentiles of these times; `None` if there are none.
pub fn tail_of(mut times: Vec<u64>) -> Result<Option<Tail>, AllocError>
    ensures { IfOk result (λ found. MatchOption found (vec_len times ≡ 0)
        (λ t. IsTail times.items t.median t.p99 t.p999 t.worst)) }
{
    let count = times.len();
    if count == 0 {
        return Ok(None);
    }
    times.sort()?;
    let last = count - 1;
    Ok(Some(Tail {
        median: times[count / 2],
        p99: times[last - last / 100],
        p999: times[last - last / 1000],
        worst: times[last],
    }))
}

impl Tail {
    /// The figure at this place, 0 to 3 in the order of the fields.
    fn figure(&self, place: u64) -> u64 {
        match place {
            0 => self.median,
            1 => self.p99,
            2 => self.p999,
            _ => self.worst,
        }
    }
}

/// The median of the figures at this place; `None` if there are none.
fn middle_of(alloc: Global, tails: &[Tail], place: u64) -> Result<Option<u64>, AllocError> {
    let mut figures = Vec::new(alloc);
    for tail in tails {
        figures.push(tail.figure(place))?;
    }
    figures.sort()?;
    Ok(figures.get(figures.len() / 2).copied())
}

/// The medians of these tails, for each figure by itself; `None` if there are none.
pub fn middle_tail(alloc: Global, tails: &[Tail]) -> Result<Option<Tail>, AllocError> {
    let found = (
        middle_of(alloc, tails, 0)?,
        middle_of(alloc, tails, 1)?,
        middle_of(alloc, tails, 2)?,
        middle_of(alloc, tails, 3)?,
    );
    match found {
        (Some(median), Some(p99), Some(p999), Some(worst)) => Ok(Some(Tail {
            median,
            p99,
            p999,
            worst,
        })),
        _ => Ok(None),
    }
}
