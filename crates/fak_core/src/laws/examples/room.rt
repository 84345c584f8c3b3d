//! Known cases on both sides of the definitions of a room's progress.

ghost use Rattle.std.specs.Prelude.{◌≡◌, [], ◌∷◌};
ghost use Rattle.fak_core.specs.declared.call.RoomCall.TheVariants.{Tir};
ghost use Rattle.fak_core.specs.declared.room.phase.RoomPhase.TheVariants.{Adding, Backing, Idle, Releasing, Testing};
ghost use Rattle.fak_core.specs.RoomProgress.{IsIdleOnce, both_claim, own_step, own_steps, phase_at, steps_left, withdrawn};
ghost use Rattle.fak_core.specs.RoomSchedule.{Advances, Begins};

/// Two claims meet in a room with one place: the one that comes too late is open before its third step and ends in it.
/// Steps of other seats and begins of calls are not steps of its own, and a seat that does not exist has no call.
pub fn the_steps_of_a_room_are_judged()
    ensures open { IsIdleOnce (Advances 1 ∷ Advances 0 ∷ []) both_claim 0 → ⊥ }
    ensures third { IsIdleOnce withdrawn both_claim 0 }
    ensures own { (own_steps 0 withdrawn ≡ 2) × (own_steps 1 withdrawn ≡ 1) × (own_step 0 (Begins 0 (Tir 1)) ≡ 0) }
    ensures found { (phase_at both_claim 0 ≡ Adding 1) × (phase_at both_claim 2 ≡ Idle) }
    ensures left { (steps_left (Testing 1) ≡ 3) × (steps_left (Backing 1) ≡ 1) × (steps_left (Releasing 1) ≡ 1) }
{}
