//! The names of steps, of marks and of refusals.

ghost use Rattle.std.specs.Prelude.{◌≡◌};
ghost use Rattle.fak_text.specs.Names as names;

use fak_core::{CoreFault, CoreMove};
use fak_model::{Kind, RoomKind};

/// The name of a step.
pub(crate) fn move_name(step: CoreMove) -> &'static str
    ensures { result.now ≡ names.move_name step }
{
    match step {
        CoreMove::Test => "test",
        CoreMove::Add => "add",
        CoreMove::Back => "back",
        CoreMove::Release => "release",
        CoreMove::TestUp => "test-up",
        CoreMove::AddUp => "add-up",
        CoreMove::BackUp => "back-up",
        CoreMove::TicketIn => "ticket-in",
        CoreMove::TurnIn => "turn-in",
        CoreMove::StoreItem => "store-item",
        CoreMove::SetFull => "set-full",
        CoreMove::EndIn => "end-in",
        CoreMove::TestLow => "test-low",
        CoreMove::SubLow => "sub-low",
        CoreMove::BackLow => "back-low",
        CoreMove::TicketOut => "ticket-out",
        CoreMove::TurnOut => "turn-out",
        CoreMove::LoadItem => "load-item",
        CoreMove::SetFree => "set-free",
        CoreMove::EndOut => "end-out",
        CoreMove::Shut => "shut",
    }
}

/// The name of a mark of a room.
pub(crate) fn room_name(kind: RoomKind) -> &'static str
    ensures { result.now ≡ names.room_name kind }
{
    match kind {
        RoomKind::Up(_) => "up",
        RoomKind::Over(_) => "over",
        RoomKind::Back(_) => "back",
        RoomKind::No(_) => "no",
        RoomKind::Release(_) => "release",
    }
}

/// The amount that a mark of a room bears.
pub(crate) fn amount(kind: RoomKind) -> u64
    ensures { result ≡ names.amount_of kind }
{
    match kind {
        RoomKind::Up(d)
        | RoomKind::Over(d)
        | RoomKind::Back(d)
        | RoomKind::No(d)
        | RoomKind::Release(d) => d,
    }
}

/// The name of a mark of a queue.
pub(crate) fn kind_name(kind: Kind<u64>) -> &'static str
    ensures { result.now ≡ names.kind_name kind }
{
    match kind {
        Kind::ClaimIn => "claim-in",
        Kind::OverIn => "over-in",
        Kind::BackIn => "back-in",
        Kind::NoRoom => "no-room",
        Kind::Put(_) => "put",
        Kind::Fill(_) => "fill",
        Kind::EndIn => "end-in",
        Kind::ClaimOut => "claim-out",
        Kind::OverOut => "over-out",
        Kind::BackOut => "back-out",
        Kind::NoItem => "no-item",
        Kind::Got(_) => "got",
        Kind::Take(_) => "take",
        Kind::EndOut => "end-out",
        Kind::Close => "close",
        Kind::Closed => "closed",
        Kind::LateIn => "late-in",
    }
}

/// The item or ticket that a mark of a queue bears.
pub(crate) fn number(kind: Kind<u64>) -> Option<u64>
    ensures { result ≡ names.number_of kind }
{
    match kind {
        Kind::Put(n) | Kind::Fill(n) | Kind::Got(n) | Kind::Take(n) => Some(n),
        _ => None,
    }
}

/// The name of the refusal of a begun call or of a step, which is one of four.
pub(crate) fn refusal_name(fault: CoreFault) -> &'static str
    requires { names.IsRefusal fault }
    ensures { result.now ≡ names.refusal_name fault }
{
    match fault {
        CoreFault::NoSuchSeat => "no-such-seat",
        CoreFault::MidCall => "mid-call",
        CoreFault::IdleSeat => "idle-seat",
        CoreFault::NotHeld => "not-held",
        CoreFault::BadSize | CoreFault::BadSeats | CoreFault::Memory => unreachable!(),
    }
}
