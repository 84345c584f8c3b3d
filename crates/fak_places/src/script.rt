//! What is wrong with the arrays of a script.

ghost use Rattle.std.specs.Prelude.{◌≡◌, Err, IfSome, MatchOption, Ok, is_ok, not};
ghost use Rattle.std.specs.List.{position};
ghost use Rattle.serde_json.specs.Events.{items_len};
ghost use Rattle.serde_json.specs.View.{items_view, view};
ghost use Rattle.fak_text.specs.ScriptText.{number_from};
ghost use Rattle.fak_text.specs.StepText.{most_steps};
ghost use Rattle.fak_text.specs.Values.{elements_within};
ghost use Rattle.fak_text.specs.declared.fault.Field.TheVariants.{Programs, Semaphores};
ghost use Rattle.fak_text.specs.declared.fault.TextFault.TheVariants.{Range};
ghost use Rattle.fak_places.specs.Named.{program_in};
ghost use Rattle.fak_places.specs.Spots.{IsInFirst, IsInFirstProgram, IsInProgram, IsInStart, array_of, limits_in, number_of};

use crate::asked::{Absent, Asked, Hint, Spot, in_step};
use crate::step::{Limits, PROGRAM, PROGRAM_NUMBER, first_wrong_step, wrong_step};
use crate::values::{count, elements_of_key};
use fak_text::{Field, MOST_STEPS};
use serde_json::Value;

const MOST_START: u64 = 1_000_000;

/// The whole number of a key, 0 if there is none.
fn number_of_key(value: &Value, field: Field) -> u64
    ensures { result ≡ number_of field (view value.now) }
{
    match value.get(field.name()) {
        Some(found) => found.as_u64().unwrap_or(0),
        None => 0,
    }
}

/// How many elements the array of a key has.
fn count_of_key(value: &Value, field: Field) -> u64
    ensures { result ≡ items_len (array_of field (view value.now)) }
{
    count(elements_of_key(value, field)) as u64
}

/// The index of the first value that is no whole number below the bound.
fn first_wrong_number(field: Field, bound: u64, values: &[Value]) -> Option<usize>
    ensures { result ≡ position (λ v. not (is_ok (number_from field bound 0 (view v)))) values.now }
{
    values
        .iter()
        .position(|value| !matches!(value.as_u64(), Some(n) if n < bound))
}

/// The steps of a program, if it is an array of at most 1,000 steps.
#[tactic(auto, unfolding(fak_text::specs::Values::elements_within))]
fn steps_of(program: &Value) -> Option<&[Value]>
    ensures { MatchOption result (elements_within Programs most_steps (view program.now) ≡ Err (Range Programs))
        (λ steps. elements_within Programs most_steps (view program.now) ≡ Ok (items_view steps.now)) }
{
    let steps = program.as_array()?.as_slice();
    if count(steps) <= MOST_STEPS {
        Some(steps)
    } else {
        None
    }
}

/// Whether nothing is wrong with a program.
fn is_right_program(limits: Limits, program: &Value) -> bool
    ensures { result ≡ is_ok (program_in limits (view program.now)) }
{
    match steps_of(program) {
        Some(steps) => first_wrong_step(limits, steps).is_none(),
        None => false,
    }
}

/// What is wrong with a program that is wrong: all of it, or its first step that is wrong.
fn hint_in_program(limits: Limits, index: usize, program: &Value) -> Option<Hint>
    ensures { IfSome result (λ hint. IsInProgram limits index (view program.now) hint.spot) }
{
    let Some(steps) = steps_of(program) else {
        return Some(Hint {
            spot: Spot::One(index),
            asked: Asked::Words("a program is an array of at most 1000 steps"),
        });
    };
    let step = first_wrong_step(limits, steps)?;
    let wrong = wrong_step(limits, steps.get(step)?)?;
    Some(in_step(index, step, wrong))
}

/// The index of the first program that is wrong.
fn first_wrong_program(limits: Limits, programs: &[Value]) -> Option<usize>
    ensures { result ≡ position (λ v. not (is_ok (program_in limits (view v)))) programs.now }
{
    programs
        .iter()
        .position(|program| !is_right_program(limits, program))
}

/// What the steps of a script may name.
fn limits_of(script: &Value) -> Limits
    ensures { result ≡ limits_in (view script.now) }
{
    Limits {
        version: number_of_key(script, Field::Version),
        semaphores: count_of_key(script, Field::Semaphores),
        programs: count_of_key(script, Field::Programs),
    }
}

/// What is wrong in the programs of a script: the first that is wrong.
pub(crate) fn hint_in_programs(script: &Value) -> Option<Hint>
    ensures { IfSome result (λ hint. IsInFirstProgram (limits_in (view script.now)) (array_of Programs (view script.now))
        hint.spot) }
{
    let programs = elements_of_key(script, Field::Programs);
    let limits = limits_of(script);
    let index = first_wrong_program(limits, programs)?;
    let program = programs.get(index)?;
    hint_in_program(limits, index, program)
}

/// What is wrong in the values that the semaphores of a script begin at.
pub(crate) fn hint_in_semaphores(script: &Value) -> Option<Hint>
    ensures { IfSome result (λ hint. IsInFirst (λ d. not (is_ok (number_from Semaphores 1000001 0 d)))
        (array_of Semaphores (view script.now)) hint.spot) }
{
    let values = elements_of_key(script, Field::Semaphores);
    let index = first_wrong_number(Field::Semaphores, MOST_START + 1, values)?;
    Some(Hint {
        spot: Spot::One(index),
        asked: Asked::Within("a semaphore's value", 0, MOST_START),
    })
}

/// What is wrong in the programs that the first processes of a script run.
pub(crate) fn hint_in_start(script: &Value) -> Option<Hint>
    ensures { IfSome result (λ hint. IsInStart (view script.now) hint.spot) }
{
    let values = elements_of_key(script, Field::Start);
    let slots = number_of_key(script, Field::Slots);
    if slots < count(values) as u64 {
        return Some(Hint {
            spot: Spot::Key,
            asked: Asked::Starts(slots),
        });
    }
    let programs = count_of_key(script, Field::Programs);
    let index = first_wrong_number(Field::Start, programs, values)?;
    let asked = match values.get(index)?.as_u64() {
        Some(number) => Asked::Present(Absent {
            what: PROGRAM,
            number,
            count: programs,
        }),
        None => Asked::Words(PROGRAM_NUMBER),
    };
    Some(Hint {
        spot: Spot::One(index),
        asked,
    })
}
