//! Conclusions about scripts and the processes that run them.

ghost use Rattle.std.specs.Prelude.{◌≡◌, ℕ, ◌<◌, ◌≤◌, List, [], ◌∷◌, length, slice_get, Some};
ghost use Rattle.fak_text.specs.Journal.{FitsScript, Process, downed, new_process};
ghost use Rattle.fak_text.specs.Script.{IsInRange, ScriptOf, down, open_file, say, shutdown, spawn, steps_of};
ghost use Rattle.fak_run.specs.Examples.{ping_pong};

use fak_text::laws::{
    a_new_process_fits, a_process_that_fits_stands_in_its_program, an_allowed_note_still_fits,
    each_step_of_a_script_is_in_range,
};

/// The steps of a script name one of at most 16 semaphores, one of at most 64 programs, and inodes from 1 to
/// 4,294,967,296. They say at most 80 characters, and only scripts of version 2 shut down.
pub fn steps_name_what_a_script_may_have()
    ensures down { (script : ScriptOf) (program position n : ℕ) → IsInRange script
        → slice_get (steps_of script program) position ≡ Some (down n) → n < 16 }
    ensures spawn { (script : ScriptOf) (program position n : ℕ) → IsInRange script
        → slice_get (steps_of script program) position ≡ Some (spawn n) → n < 64 }
    ensures open { (script : ScriptOf) (program position n : ℕ) → IsInRange script
        → slice_get (steps_of script program) position ≡ Some (open_file n) → (1 ≤ n) × (n ≤ 4294967296) }
    ensures say { (script : ScriptOf) (program position : ℕ) (text : List ℕ) → IsInRange script
        → slice_get (steps_of script program) position ≡ Some (say text) → length text ≤ 80 }
    ensures shutdown { (script : ScriptOf) (program position : ℕ) → IsInRange script
        → slice_get (steps_of script program) position ≡ Some shutdown → script.version ≡ 2 }
{
    each_step_of_a_script_is_in_range();
}

/// A process of `ping_pong` fits the script at its start and after its first step, and its position is never above 3.
pub fn a_process_walks_its_program()
    ensures begins { FitsScript ping_pong (new_process (1 ∷ []) 1 1) }
    ensures moves { FitsScript ping_pong
        (record { name = 1 ∷ []; program = 1; slot = 1; position = 1; journal = downed 1 ∷ [] }) }
    ensures stands { (process : Process) → FitsScript ping_pong process → process.position ≤ 3 }
{
    a_new_process_fits();
    an_allowed_note_still_fits();
    a_process_that_fits_stands_in_its_program();
}
