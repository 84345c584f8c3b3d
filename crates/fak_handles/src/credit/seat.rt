//! A seat of a credit, with a share of the credit.

ghost use Rattle.std.specs.Prelude.{◌≡◌};
ghost use Rattle.std.specs.Arc.{arc_value};

use crate::desk::Desk;
use crate::seat_kind::SeatKind;
use fak_count::{Credit, CreditSeat};
use std::alloc::Global;
use std::sync::Arc;

/// A seat with a share of its credit.
#[derive(Drop)]
#[repr(C)]
pub struct CreditDesk {
    pub(crate) before: [u64; 8],
    pub(crate) credit: Arc<Credit, Global>,
    pub seat: CreditSeat,
    pub(crate) after: [u64; 8],
    pub ghost same: { seat.object ≡ (arc_value credit).object },
}

impl CreditDesk {
    pub(crate) fn of(credit: Arc<Credit, Global>, seat: CreditSeat) -> CreditDesk
        requires same { seat.object ≡ (arc_value credit).object }
        ensures object { arc_value result.credit ≡ arc_value credit }
        ensures seat { result.seat ≡ seat }
    {
        CreditDesk {
            before: [0; 8],
            credit,
            seat,
            after: [0; 8],
        }
    }
}

impl SeatKind for CreditDesk {
    ghost use Rattle.std.specs.Prelude.{refl};
    ghost use Rattle.fak_handles.specs.Kinds.{credit_in, with_credit};

    ghost seat_in = { credit_in };

    ghost with_seat = { with_credit };

    fn lend(desk: &mut Desk) -> Option<&mut CreditDesk> {
        match desk {
            Desk::Credit(desk) => Some(desk),
            _ => None,
        }
    }

    ghost no_desk = { refl };
}
