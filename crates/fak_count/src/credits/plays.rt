//! What a seat learns from each atomic step on a credit's word. These types are only for the proofs.

use crate::credits::rule::CreditView;
use atomic_table::Play;
use std::marker::{Brand, PhantomData};

/// The credit that a step is on.
pub trait Call {
    ghost use Rattle.fak_count.specs.declared.credits.limits.CreditLimits.{CreditLimits};

    ghost key: { CreditLimits };
}

impl Call for Brand {
    ghost key = { record { start = 0; seats = 0; stint = 0 } };
}

/// A debit.
pub struct DebitPlay<J: Call> {
    of: PhantomData<J>,
}

impl<J: Call> Play<(), CreditView> for DebitPlay<J> {
    ghost use Rattle.fak_model.specs.declared.credit.CreditKind.TheVariants.{Debit};
    ghost use Rattle.fak_count.specs.CreditShown.{MadeMark};

    ghost then = { λ s m found after. MadeMark J.key Debit m found after };
}

/// A credit.
pub struct CreditPlay<J: Call> {
    of: PhantomData<J>,
}

impl<J: Call> Play<(), CreditView> for CreditPlay<J> {
    ghost use Rattle.fak_model.specs.declared.credit.CreditKind.TheVariants.{Credit};
    ghost use Rattle.fak_count.specs.CreditShown.{MadeMark};

    ghost then = { λ s m found after. MadeMark J.key Credit m found after };
}

/// A load that leaves no mark.
pub struct ObservePlay<J: Call> {
    of: PhantomData<J>,
}

impl<J: Call> Play<(), CreditView> for ObservePlay<J> {
    ghost use Rattle.fak_count.specs.CreditShown.{Observed};

    ghost then = { λ s m found after. Observed J.key m found after };
}

/// The load after a join.
pub struct HearPlay<J: Call> {
    of: PhantomData<J>,
}

impl<J: Call> Play<(), CreditView> for HearPlay<J> {
    ghost use Rattle.fak_count.specs.CreditShown.{HeardJoin};

    ghost then = { λ s m found after. HeardJoin J.key m after };
}
