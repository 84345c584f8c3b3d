//! The best, the median and the worst of several times.

ghost use Rattle.std.specs.Prelude.{◌≡◌, IfOk, MatchOption, vec_len};
ghost use Rattle.bench_objects.specs.Spreads.{IsSpread};

use std::alloc::AllocError;

/// The best, the median and the worst time.
#[derive(Clone, Copy)]
pub struct Spread {
    pub best: u64,
    pub median: u64,
    pub worst: u64,
}

/// The best, the median and the worst of these times; `None` if there are none. For an even number of times the median is the later of
/// the two in the middle.
pub fn spread_of(mut times: Vec<u64>) -> Result<Option<Spread>, AllocError>
    ensures { IfOk result (λ found. MatchOption found (vec_len times ≡ 0)
        (λ s. IsSpread times.items s.best s.median s.worst)) }
{
    let count = times.len();
    if count == 0 {
        return Ok(None);
    }
    times.sort()?;
    Ok(Some(Spread {
        best: times[0],
        median: times[count / 2],
        worst: times[count - 1],
    }))
}
