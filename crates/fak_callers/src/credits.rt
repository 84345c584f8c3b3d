//! What callers of a credit conclude.

ghost use Rattle.std.specs.Prelude.{◌≡◌, ◌<◌, ◌∷◌, ◌++◌, [], IfOk};
ghost use Rattle.std.specs.List.{All};
ghost use Rattle.fak_model.specs.declared.credit.CreditKind.TheVariants.{Debit};
ghost use Rattle.fak_model.specs.declared.credit.CreditMark.{CreditMark};
ghost use Rattle.fak_model.specs.Credit.{IsCreditHistory, value};
ghost use Rattle.fak_model.specs.Seats.{marks_of};
ghost use Rattle.fak_count.specs.Credits.{seat_of};
ghost use Rattle.fak_count.specs.Seats.{IsSeatOf};

use fak_count::{Credit, CreditSeat, Worn};
use fak_model::laws::credit::{
    a_beginning_of_a_credit_history_is_one, every_credit_mark_is_lawful,
};
use fak_model::laws::seats::an_only_seat_has_seen_its_own_marks;

/// Debits: what the seat had seen is lawful.
pub fn debit_lawfully(credit: &Credit, seat: &mut CreditSeat) -> Result<i64, Worn>
    requires { IsSeatOf credit.now.object seat.old }
    ensures object { IsSeatOf credit.now.object seat.new }
    ensures before { IsCreditHistory seat.old.seen }
{
    every_credit_mark_is_lawful();
    credit.debit(seat)
}

/// Loads the value: what the seat had seen begins what it has seen now, and so it is lawful.
pub fn value_lawfully(credit: &Credit, seat: &mut CreditSeat) -> i64
    requires { IsSeatOf credit.now.object seat.old }
    ensures object { IsSeatOf credit.now.object seat.new }
    ensures before { IsCreditHistory seat.old.seen }
{
    a_beginning_of_a_credit_history_is_one();
    credit.value(seat)
}

/// Debits by the only seat: what it has seen grows only by this debit, and the result is the value of what it had seen.
pub fn debit_alone(credit: &Credit, seat: &mut CreditSeat) -> Result<i64, Worn>
    requires object { IsSeatOf credit.now.object seat.old }
    requires only { (credit.now.object.seats ≡ 1) × (seat.old.name ≡ 0) }
    requires seen { All (λ (m : CreditMark). m.seat < 1) seat.old.seen }
    ensures object { IsSeatOf credit.now.object seat.new }
    ensures seen { IfOk result (λ _. seat.new.seen ≡ seat.old.seen ++ (record { seat = 0; kind = Debit }) ∷ []) }
    ensures own { IfOk result (λ _. marks_of seat_of 0 seat.new.seen ≡ seat.new.seen) }
    ensures answer { IfOk result (λ found. found ≡ value credit.now.start seat.old.seen) }
{
    an_only_seat_has_seen_its_own_marks::<fak_model::CreditMark>();
    credit.debit(seat)
}
