//! Conclusions about the keys of inputs.

ghost use Rattle.std.specs.Prelude.{◌≡◌, Some, codes};
ghost use Rattle.serde_json.specs.Data.{Data, string};
ghost use Rattle.serde_json.specs.Find.{get};
ghost use Rattle.fak_text.specs.HistoryText.{history_from};
ghost use Rattle.fak_text.specs.ScheduleText.{schedule_from};
ghost use Rattle.fak_text.specs.ScriptText.{script_from};

use fak_places::laws::an_ignored_key_has_no_effect;

/// Two histories with the same size and marks are read alike, whatever other keys they have. The same holds of scripts
/// and of schedules, by their own keys.
pub fn inputs_with_the_same_keys_are_read_alike()
    ensures histories { (d e : Data) → get (codes "size") d ≡ get (codes "size") e
        → get (codes "marks") d ≡ get (codes "marks") e → history_from d ≡ history_from e }
    ensures scripts { (d e : Data) → get (codes "version") d ≡ get (codes "version") e
        → get (codes "slots") d ≡ get (codes "slots") e → get (codes "births") d ≡ get (codes "births") e
        → get (codes "quantum") d ≡ get (codes "quantum") e → get (codes "stint") d ≡ get (codes "stint") e
        → get (codes "semaphores") d ≡ get (codes "semaphores") e → get (codes "files") d ≡ get (codes "files") e
        → get (codes "programs") d ≡ get (codes "programs") e → get (codes "start") d ≡ get (codes "start") e
        → script_from d ≡ script_from e }
    ensures queues { (d e : Data) → get (codes "object") d ≡ Some (string (codes "queue"))
        → get (codes "object") d ≡ get (codes "object") e → get (codes "size") d ≡ get (codes "size") e
        → get (codes "seats") d ≡ get (codes "seats") e → get (codes "events") d ≡ get (codes "events") e
        → schedule_from d ≡ schedule_from e }
    ensures rooms { (d e : Data) → get (codes "object") d ≡ Some (string (codes "room"))
        → get (codes "object") d ≡ get (codes "object") e → get (codes "bound") d ≡ get (codes "bound") e
        → get (codes "seats") d ≡ get (codes "seats") e → get (codes "events") d ≡ get (codes "events") e
        → schedule_from d ≡ schedule_from e }
{
    an_ignored_key_has_no_effect();
}
