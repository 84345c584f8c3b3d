//! What a processor works on, known to its type.

ghost use Rattle.std.specs.Prelude.{ℕ};
ghost use Rattle.fak_processor.specs.Processors.{ObjectsOf};

use std::marker::Brand;

/// A processor's station: the objects that it shares with the others, and its number. A worker's type names its station,
/// as a context's type names its run.
pub trait Station {
    ghost objects: { ObjectsOf };

    ghost number: { ℕ };
}

impl Station for Brand {
    ghost use Rattle.std.specs.Prelude.{ℕ};
    ghost use Rattle.fak_processor.specs.Stations.{no_objects};

    ghost objects = { no_objects };

    ghost number = { 0 };
}
