//! The reader of scripts.

ghost use Rattle.std.specs.Prelude.{◌≤◌, IfOk};
ghost use Rattle.serde_json.specs.View.{view, items_view};
ghost use Rattle.fak_model.specs.Limits.{longest_stint};
ghost use Rattle.fak_text.specs.Gives.{Gives};
ghost use Rattle.fak_text.specs.ScriptText.{number_from, numbers_of_key, stint_of_key, script_from, script_in};
ghost use Rattle.fak_text.specs.Values.{RefusesLong, each_from};

use crate::fault::{Field, TextFault};
use crate::reading::step::programs_of_key;
use crate::reading::values::{
    elements_of_key, input_in, number_below, number_of_key, number_within,
};
use crate::script::Script;
use fak_model::LONGEST_STINT;
use serde_json::Value;
use std::alloc::Global;

/// A script has at most this many slots.
pub const MOST_SLOTS: u64 = 64;

/// A script has at most this many births.
pub const MOST_BIRTHS: u64 = 1_000;

/// A quantum has at most this many steps.
pub const LONGEST_QUANTUM: u64 = 1_000;

/// A script has at most this many files.
pub const MOST_FILES: u64 = 16;

const MOST_SEMAPHORES: usize = 16;

const SEMAPHORE_BOUND: u64 = 1_000_001;

/// The whole numbers of an array, each below the bound.
fn numbers(alloc: Global, values: &[Value], field: Field, bound: u64) -> Result<Vec<u64>, TextFault>
    ensures { Gives (λ v. v.items) result (each_from (number_from field bound) 0 (items_view values.now)) }
{
    let mut numbers = Vec::new(alloc);
    for (i, value) in values.iter().enumerate() {
        numbers.push(number_below(field, bound, value.as_u64())?)?;
    }
    Ok(numbers)
}

/// The array of a key, at most this many whole numbers below the bound.
#[tactic(auto, unfolding(crate::specs::ScriptText::numbers_of_key))]
fn numbers_of_key(
    alloc: Global,
    value: &Value,
    field: Field,
    most: usize,
    bound: u64,
) -> Result<Vec<u64>, TextFault>
    ensures { Gives (λ v. v.items) result (numbers_of_key field most bound (view value.now)) }
{
    let values = elements_of_key(value, field, most)?;
    numbers(alloc, values, field, bound)
}

/// The stint, the greatest if the key is absent.
#[tactic(auto, unfolding(crate::specs::ScriptText::stint_of_key))]
fn stint_of_key(value: &Value) -> Result<u64, TextFault>
    ensures gives { Gives (λ n. n) result (stint_of_key (view value.now)) }
    ensures range { IfOk result (λ n. (1 ≤ n) × (n ≤ longest_stint)) }
{
    match value.get(Field::Stint.name()) {
        None => Ok(LONGEST_STINT),
        Some(found) => number_within(Field::Stint, 1, LONGEST_STINT, found.as_u64()),
    }
}

#[tactic(auto, unfolding(crate::specs::ScriptText::script_from))]
fn script_from(alloc: Global, value: &Value) -> Result<Script, TextFault>
    ensures { Gives (λ s. s) result (script_from (view value.now)) }
{
    let version = number_of_key(value, Field::Version, 1, 2)?;
    let slots = number_of_key(value, Field::Slots, 1, MOST_SLOTS)?;
    let births = number_of_key(value, Field::Births, 0, MOST_BIRTHS)?;
    let quantum = number_of_key(value, Field::Quantum, 1, LONGEST_QUANTUM)?;
    let stint = stint_of_key(value)?;
    let semaphores = numbers_of_key(
        alloc,
        value,
        Field::Semaphores,
        MOST_SEMAPHORES,
        SEMAPHORE_BOUND,
    )?;
    let files = number_of_key(value, Field::Files, 1, MOST_FILES)?;
    let programs = programs_of_key(alloc, value, version, semaphores.len() as u64)?;
    let start = numbers_of_key(
        alloc,
        value,
        Field::Start,
        slots as usize,
        programs.len() as u64,
    )?;
    Ok(Script {
        version,
        slots,
        births,
        quantum,
        stint,
        semaphores,
        files,
        programs,
        start,
    })
}

/// The script that an input is.
///
/// # Errors
///
/// The input's first fault, or `Memory`. For more than 1,048,576 bytes it is `Range(Field::Input)`, even if memory runs out.
pub fn read_script(alloc: Global, bytes: &[u8]) -> Result<Script, TextFault>
    ensures gives { Gives (λ s. s) result (script_in bytes.now) }
    ensures long { RefusesLong bytes.now result }
{
    let value = input_in(alloc, bytes)?;
    script_from(alloc, &value)
}
