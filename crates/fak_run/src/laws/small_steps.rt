//! The laws of small steps: what the list scheduler does next, for any script, lists and turn.

ghost use Rattle.std.specs.Prelude.{◌≡◌, ◌≢◌, ℕ, ◌+◌, ◌-◌, ◌<◌, ◌≤◌, true, false, List, [], ◌∷◌, ◌++◌, length, slice_get, slice_index, slice_index_or, slice_set, Some, None};
ghost use Rattle.fak_text.specs.Journal.{Process, StandsAt, child_count, closed, downed, no_birth, no_slot, opened, said, shut_down, spawned, statted, upped, yielded};
ghost use Rattle.fak_text.specs.Script.{ScriptOf, StepOf, close_file, down, open_file, say, shutdown, spawn, stat, up, yield};
ghost use Rattle.fak_run.specs.Files.{close_change, free_entry, open_change, uses_of};
ghost use Rattle.fak_run.specs.ListScheduler.{Lists, State, Turn, enter_ready, make, next_step, opening, step, steps, turn_over};
ghost use Rattle.fak_run.specs.SmallSteps.{turn_after, on_turn, process_after};

/// The lists at the start. The started processes are ready, in order, each in the slot of its number, and the later
/// slots are free. Semaphores have their starting counts and no sleepers, and all entries are free.
pub fn the_first_lists_are_known()
    ensures running { (script : ScriptOf) → (opening script).running ≡ None }
    ensures ready { (script : ScriptOf) (i program : ℕ) → slice_get script.start i ≡ Some program
        → slice_get (opening script).lists.ready i
        ≡ Some (record { name = i ∷ []; program = program; slot = i; position = 0; journal = [] }) }
    ensures processes { (script : ScriptOf) → length (opening script).lists.ready ≡ length script.start }
    ensures free { (script : ScriptOf) (i : ℕ) → i < script.slots - length script.start
        → slice_get (opening script).lists.free_slots i ≡ Some (length script.start + i) }
    ensures slots { (script : ScriptOf)
        → length (opening script).lists.free_slots ≡ script.slots - length script.start }
    ensures counts { (script : ScriptOf) → (opening script).lists.counts ≡ script.semaphores }
    ensures sleepers { (script : ScriptOf) (n : ℕ) → slice_index_or (opening script).lists.sleepers n [] ≡ [] }
    ensures entries { (script : ScriptOf) (i : ℕ) → i < script.files
        → slice_get (opening script).lists.entries i ≡ Some free_entry }
    ensures births { (script : ScriptOf) → (opening script).lists.births ≡ 0 }
    ensures is_shut { (script : ScriptOf) → (opening script).lists.is_shut ≡ false }
    ensures ended { (script : ScriptOf) → (opening script).lists.ended ≡ [] }
    ensures halted { (script : ScriptOf) → (opening script).lists.halted ≡ [] }
{}

/// The process at the front of the ready list gets the processor, and ends at the end of its program. A turn is over
/// after a yield and after quantum steps; otherwise it takes the next step. A process that becomes ready goes to the
/// back, or halts.
pub fn each_turn_is_known()
    ensures still { (script : ScriptOf) (s : Lists) → s.ready ≡ [] → step script (turn_over s) ≡ turn_over s }
    ensures front { (script : ScriptOf) (s : Lists) (p : Process) (others : List Process) → s.ready ≡ p ∷ others
        → step script (turn_over s)
        ≡ on_turn (record s { ready = others }) (record { process = p; made = 0; has_yielded = false }) }
    ensures end { (script : ScriptOf) (s : Lists) (t : Turn) → next_step script t.process ≡ None
        → step script (on_turn s t) ≡ turn_over (record s {
          ended = s.ended ++ t.process ∷ [];
          free_slots = s.free_slots ++ t.process.slot ∷ [];
        }) }
    ensures has_yielded { (script : ScriptOf) (s : Lists) (t : Turn) (next : StepOf) → StandsAt script t.process next
        → t.has_yielded ≡ true → step script (on_turn s t) ≡ turn_over (enter_ready s t.process) }
    ensures quantum { (script : ScriptOf) (s : Lists) (t : Turn) (next : StepOf) → StandsAt script t.process next
        → t.made ≡ script.quantum → step script (on_turn s t) ≡ turn_over (enter_ready s t.process) }
    ensures goes_on { (script : ScriptOf) (s : Lists) (t : Turn) (next : StepOf) → StandsAt script t.process next
        → t.has_yielded ≡ false → t.made ≢ script.quantum → step script (on_turn s t) ≡ make script s t next }
    ensures ready { (s : Lists) (p : Process) → s.is_shut ≡ false
        → enter_ready s p ≡ record s { ready = s.ready ++ p ∷ [] } }
    ensures halted { (s : Lists) (p : Process) → s.is_shut ≡ true
        → enter_ready s p ≡ record s { halted = s.halted ++ p ∷ [] } }
    ensures none { (script : ScriptOf) (s : State) → steps 0 script s ≡ s }
    ensures more { (script : ScriptOf) (s : State) (n : ℕ) → steps (n + 1) script s ≡ step script (steps n script s) }
{}

/// A turn that goes on has taken one more step, and only a yield ends it early.
pub fn only_a_yield_ends_a_turn_early()
    ensures counted { (script : ScriptOf) (s : Lists) (t after : Turn) (next : StepOf)
        → (make script s t next).running ≡ Some after → after.made ≡ t.made + 1 }
    ensures others { (script : ScriptOf) (s : Lists) (t after : Turn) (next : StepOf)
        → (make script s t next).running ≡ Some after → after.has_yielded ≡ true → next ≡ yield }
    ensures yields { (script : ScriptOf) (s : Lists) (t after : Turn)
        → (make script s t yield).running ≡ Some after → after.has_yielded ≡ true }
{}

/// How a step of each kind changes the lists and the turn.
pub fn each_step_of_a_turn_is_known()
    ensures said { (script : ScriptOf) (s : Lists) (t : Turn) (text : List ℕ) → make script s t (say text)
        ≡ on_turn s (turn_after t (said text) false) }
    ensures yielded { (script : ScriptOf) (s : Lists) (t : Turn) → make script s t yield
        ≡ on_turn s (turn_after t yielded true) }
    ensures passed { (script : ScriptOf) (s : Lists) (t : Turn) (n count : ℕ) → slice_index s.counts n ≡ count + 1
        → make script s t (down n)
        ≡ on_turn (record s { counts = slice_set s.counts n count }) (turn_after t (downed n) false) }
    ensures asleep { (script : ScriptOf) (s : Lists) (t : Turn) (n : ℕ) → slice_index s.counts n ≡ 0
        → make script s t (down n) ≡ turn_over (record s {
          sleepers = slice_set s.sleepers n (slice_index_or s.sleepers n [] ++ t.process ∷ []);
        }) }
    ensures upped { (script : ScriptOf) (s : Lists) (t : Turn) (n count : ℕ) → slice_index_or s.sleepers n [] ≡ []
        → slice_index s.counts n ≡ count → make script s t (up n)
        ≡ on_turn (record s { counts = slice_set s.counts n (count + 1) }) (turn_after t (upped n) false) }
    ensures woken { (script : ScriptOf) (s : Lists) (t : Turn) (n : ℕ) (first : Process) (others : List Process)
        → slice_index_or s.sleepers n [] ≡ first ∷ others → make script s t (up n)
        ≡ on_turn (enter_ready (record s { sleepers = slice_set s.sleepers n others }) (process_after first (downed n)))
        (turn_after t (upped n) false) }
    ensures opened { (script : ScriptOf) (s : Lists) (t : Turn) (inode : ℕ) → make script s t (open_file inode)
        ≡ on_turn (record s { entries = (open_change s.entries inode).entries })
        (turn_after t (opened inode (open_change s.entries inode).entry) false) }
    ensures closed { (script : ScriptOf) (s : Lists) (t : Turn) (inode : ℕ) → make script s t (close_file inode)
        ≡ on_turn (record s { entries = (close_change s.entries inode).entries })
        (turn_after t (closed inode (close_change s.entries inode).entry) false) }
    ensures statted { (script : ScriptOf) (s : Lists) (t : Turn) (inode : ℕ) → make script s t (stat inode)
        ≡ on_turn s (turn_after t (statted inode (uses_of s.entries inode)) false) }
    ensures spawned { (script : ScriptOf) (s : Lists) (t : Turn) (program slot : ℕ) (free : List ℕ)
        → s.births < script.births → s.free_slots ≡ slot ∷ free → make script s t (spawn program)
        ≡ on_turn (enter_ready (record s { births = s.births + 1; free_slots = free }) (record {
          name = t.process.name ++ child_count t.process.journal ∷ [];
          program = program;
          slot = slot;
          position = 0;
          journal = [];
        })) (turn_after t (spawned (child_count t.process.journal)) false) }
    ensures no_birth { (script : ScriptOf) (s : Lists) (t : Turn) (program : ℕ) → script.births ≤ s.births
        → make script s t (spawn program) ≡ on_turn s (turn_after t no_birth false) }
    ensures no_slot { (script : ScriptOf) (s : Lists) (t : Turn) (program : ℕ) → s.births < script.births
        → s.free_slots ≡ [] → make script s t (spawn program) ≡ on_turn s (turn_after t no_slot false) }
    ensures shut_down { (script : ScriptOf) (s : Lists) (t : Turn) → make script s t shutdown
        ≡ on_turn (record s { is_shut = true }) (turn_after t shut_down false) }
{}
