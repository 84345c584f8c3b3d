//! Conclusions about turns.

ghost use Rattle.std.specs.Prelude.{◌≡◌, ◌≢◌, ℕ, false, true, List, [], ◌++◌, ◌∷◌, slice_index_or, Some};
ghost use Rattle.fak_text.specs.Journal.{StandsAt, downed, no_birth, upped};
ghost use Rattle.fak_text.specs.Script.{ScriptOf, StepOf, down, say, spawn, up, yield};
ghost use Rattle.fak_run.specs.ListScheduler.{Lists, Turn, make, step, turn_over};
ghost use Rattle.fak_run.specs.SmallSteps.{on_turn, turn_after};

use fak_run::laws::small_steps::{
    each_step_of_a_turn_is_known, each_turn_is_known, only_a_yield_ends_a_turn_early,
};

/// In a turn of 1,000 steps an up may be the 999th step, and the turn is over after the 1,000th step.
pub fn a_turn_of_1000_steps_is_over_after_them()
    ensures goes_on { (script : ScriptOf) (s : Lists) (t : Turn) → script.quantum ≡ 1000 → t.made ≡ 998
        → t.has_yielded ≡ false → StandsAt script t.process (up 3) → slice_index_or s.sleepers 3 [] ≡ []
        → (step script (on_turn s t)).running ≡ Some (turn_after t (upped 3) false) }
    ensures over { (script : ScriptOf) (s : Lists) (t : Turn) (next : StepOf) → script.quantum ≡ 1000 → t.made ≡ 1000
        → StandsAt script t.process next → s.is_shut ≡ false
        → step script (on_turn s t) ≡ turn_over (record s { ready = s.ready ++ t.process ∷ [] }) }
{
    each_turn_is_known();
    each_step_of_a_turn_is_known();
}

/// A said text does not end a turn early, a yield does, and each counts as one step.
pub fn a_text_ends_no_turn()
    ensures said { (script : ScriptOf) (s : Lists) (t after : Turn) (text : List ℕ)
        → (make script s t (say text)).running ≡ Some after → after.has_yielded ≢ true }
    ensures yields { (script : ScriptOf) (s : Lists) (t after : Turn) → t.made ≡ 997
        → (make script s t yield).running ≡ Some after → (after.has_yielded ≡ true) × (after.made ≡ 998) }
{
    only_a_yield_ends_a_turn_early();
}

/// A down passes if the count is 1 and leaves 0, and a script without births starts no child.
pub fn a_down_takes_the_last_unit()
    ensures passes { (script : ScriptOf) (s : Lists) (t : Turn) → s.counts ≡ 1 ∷ []
        → make script s t (down 0) ≡ on_turn (record s { counts = 0 ∷ [] }) (turn_after t (downed 0) false) }
    ensures no_birth { (script : ScriptOf) (s : Lists) (t : Turn) → script.births ≡ 0
        → make script s t (spawn 5) ≡ on_turn s (turn_after t no_birth false) }
{
    each_step_of_a_turn_is_known();
}
