//! What a seat learns from each atomic step on the words of a file table. These types are only for the proofs.

use crate::phase::Access;
use crate::rule::FileView;
use atomic_table::Play;
use fak_model::FileField;
use std::marker::{Brand, PhantomData};

/// The call that a step belongs to.
pub trait Call {
    ghost use Rattle.std.specs.Prelude.{ℕ};
    ghost use Rattle.fak_files.specs.declared.limits.FileLimits.{FileLimits};
    ghost use Rattle.fak_files.specs.declared.phase.Access.{Access};
    ghost use Rattle.fak_model.specs.declared.file.FileField.{FileField};

    ghost key: { FileLimits };

    ghost name: { ℕ };

    ghost access: { Access };

    ghost entry: { ℕ };

    ghost field: { FileField };

    ghost to: { ℕ };
}

impl Call for Brand {
    ghost use Rattle.fak_files.specs.Shown.{limits};
    ghost use Rattle.fak_files.specs.declared.phase.Access.TheVariants.{Read};
    ghost use Rattle.fak_model.specs.declared.file.FileField.TheVariants.{Inode};

    ghost key = { limits 0 0 };

    ghost name = { 0 };

    ghost access = { Read };

    ghost entry = { 0 };

    ghost field = { Inode };

    ghost to = { 0 };
}

/// The load of the count before a hold, which its test decides on.
pub struct TestPlay<J: Call> {
    of: PhantomData<J>,
}

impl<J: Call> Play<(), FileView> for TestPlay<J> {
    ghost use Rattle.fak_files.specs.Shown.{Tested};

    ghost then = { λ s m found after. Tested J.key J.name J.access m found after };
}

/// The subtraction of a hold, which its retest decides on.
pub struct TakePlay<J: Call> {
    of: PhantomData<J>,
}

impl<J: Call> Play<(), FileView> for TakePlay<J> {
    ghost use Rattle.fak_files.specs.Shown.{Took};

    ghost then = { λ s m found after. Took J.key J.name J.access m found after };
}

/// The addition that withdraws a subtraction.
pub struct WithdrawPlay<J: Call> {
    of: PhantomData<J>,
}

impl<J: Call> Play<(), FileView> for WithdrawPlay<J> {
    ghost use Rattle.fak_files.specs.Shown.{Withdrew};

    ghost then = { λ s m found after. Withdrew J.key J.name J.access m after };
}

/// The addition that gives a hold back.
pub struct GivePlay<J: Call> {
    of: PhantomData<J>,
}

impl<J: Call> Play<(), FileView> for GivePlay<J> {
    ghost use Rattle.fak_files.specs.Shown.{Gave};

    ghost then = { λ s m found after. Gave J.key J.name m after };
}

/// The load of a field.
pub struct GetPlay<J: Call> {
    of: PhantomData<J>,
}

impl<J: Call> Play<(), FileView> for GetPlay<J> {
    ghost use Rattle.fak_files.specs.Shown.{Got};

    ghost then = { λ s m found after. Got J.key J.name J.access J.entry J.field m found after };
}

/// The store of a field.
pub struct SetPlay<J: Call> {
    of: PhantomData<J>,
}

impl<J: Call> Play<(), FileView> for SetPlay<J> {
    ghost use Rattle.fak_files.specs.Shown.{WasSet};

    ghost then = { λ s m found after. WasSet J.key J.name J.entry J.field J.to m after };
}

/// The load after a join.
pub struct HearPlay<J: Call> {
    of: PhantomData<J>,
}

impl<J: Call> Play<(), FileView> for HearPlay<J> {
    ghost use Rattle.fak_files.specs.Shown.{HeardJoin};

    ghost then = { λ s m found after. HeardJoin J.key m after };
}
