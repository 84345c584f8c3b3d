//! The laws of keys.

ghost use Rattle.fak_text.specs.HistoryText.{history_from};
ghost use Rattle.fak_text.specs.ScheduleText.{schedule_from};
ghost use Rattle.fak_text.specs.ScriptText.{script_from};
ghost use Rattle.fak_places.specs.Keys.{ReadsOnlyKeys};
ghost use Rattle.fak_places.specs.declared.fault_place.Format.TheVariants as formats;

/// What a reader returns depends on the keys of its format only, so no other key has an effect.
pub fn an_ignored_key_has_no_effect()
    ensures schedules { ReadsOnlyKeys formats.Schedule schedule_from }
    ensures histories { ReadsOnlyKeys formats.History history_from }
    ensures scripts { ReadsOnlyKeys formats.Script script_from }
{}
