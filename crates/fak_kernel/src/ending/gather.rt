//! Joins the seats of all processors.

ghost use Rattle.std.specs.Prelude.{◌≡◌, ◌<◌, ◌≤◌, ℕ, vec_len, slice_index_or, IfOk};
ghost use Rattle.fak_processor.specs.Processors.{ProcessorOf};
ghost use Rattle.fak_processor.specs.Begun.{IsLeftBy};
ghost use Rattle.fak_kernel.specs.Gathered.{AreGathered, AreOfOne};

use crate::ending::joined::Joined;
use fak_processor::{Objects, Seats};
use fak_run::Run;
use std::alloc::{AllocError, Global};

/// Joins the seats of all processors, in the order of their numbers.
pub(crate) fn gather<K: Run>(
    alloc: Global,
    objects: &Objects<K>,
    left: Vec<Seats<K>>,
) -> Result<Joined<K>, AllocError>
    requires some { 1 ≤ vec_len left }
    requires left { (i : ℕ) (d : ProcessorOf) → i < vec_len left
        → IsLeftBy K.script objects.now i (slice_index_or left.items i d) }
    ensures gathered { IfOk result
        (λ all. AreGathered K.script objects.now (vec_len left) all.tallies all.ended.items all.halted.items) }
    ensures alone { vec_len left ≡ 1 → (d : ProcessorOf)
        → IfOk result (λ all. AreOfOne (slice_index_or left.items 0 d) all.tallies all.ended.items all.halted.items) }
{
    // Only the proof needs this field: naming it shows that the objects were opened for this script.
    let _ready = &objects.ready;
    let count = left.len();
    let mut processors = left.into_iter();
    let Some(first) = processors.next() else {
        unreachable!()
    };
    let mut all = Joined::of(alloc, first)?;
    for _joined in 1..count {
        let Some(processor) = processors.next() else {
            unreachable!()
        };
        all = all.join(alloc, objects, processor)?;
    }
    Ok(all)
}
