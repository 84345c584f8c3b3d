//! The rule of a credit's table.

use crate::credits::limits::CreditLimits;
use atomic_table::TableRule;
use fak_model::{CreditMark, View};

/// What a seat of a credit knows. A call is one step, so a seat has only one phase.
pub type CreditView = View<CreditMark, ()>;

/// The rule of a credit's table.
pub struct CreditRule;

impl TableRule<(), CreditView, CreditLimits> for CreditRule {
    ghost use Rattle.fak_count.specs.CreditShown.{IsShownCredit, opened_credit};

    ghost holds = { IsShownCredit };

    ghost first = { opened_credit };
}
