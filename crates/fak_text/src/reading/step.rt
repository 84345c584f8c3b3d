//! The reader of steps and programs.

ghost use Rattle.std.specs.Prelude.{◌≡◌, ◌≤◌, length, vec_len, IfOk, Option, option_map};
ghost use Rattle.std.specs.List.{list_all};
ghost use Rattle.serde_json.specs.View.{view, items_view};
ghost use Rattle.fak_text.specs.Gives.{Gives};
ghost use Rattle.fak_text.specs.StepText.{any_op_named, has_op, step_op_named, is_printable, is_sayable, said_text, lone_step, inode_argument, argument_below, step_with, step_from, program_from, programs_from, programs_of_key};
ghost use Rattle.fak_text.specs.Values.{each_from};
ghost use Rattle.fak_text.specs.Views.{step_of, steps_view, programs_of};

use crate::fault::{Field, TextFault};
use crate::reading::values::{
    count, elements_of_key, elements_within, number_at, number_below, number_within, text_at,
};
use crate::steps::{Step, StepLimits};
use serde_json::Value;
use std::alloc::Global;

const FAULT: TextFault = TextFault::Range(Field::Programs);

const MOST_PROGRAMS: usize = 64;

/// A program has at most this many steps.
pub const MOST_STEPS: usize = 1_000;

const MOST_CHARACTERS: usize = 80;

const MOST_INODE: u64 = 4_294_967_296;

/// The operations of steps.
#[derive(Clone, Copy)]
pub(crate) enum StepOp {
    Say,
    Yield,
    Down,
    Up,
    OpenFile,
    CloseFile,
    Stat,
    Spawn,
    Shutdown,
}

/// The operation of this name, in any version.
#[tactic(auto, unfolding(crate::specs::StepText::any_op_named))]
fn any_op_named(name: &str) -> Option<StepOp>
    ensures { result ≡ any_op_named name.now }
{
    match name {
        "say" => Some(StepOp::Say),
        "yield" => Some(StepOp::Yield),
        "down" => Some(StepOp::Down),
        "up" => Some(StepOp::Up),
        "open" => Some(StepOp::OpenFile),
        "close" => Some(StepOp::CloseFile),
        "stat" => Some(StepOp::Stat),
        "spawn" => Some(StepOp::Spawn),
        "shutdown" => Some(StepOp::Shutdown),
        _ => None,
    }
}

/// Whether scripts of this version have the operation.
fn has_op(version: u64, op: StepOp) -> bool
    ensures { result ≡ has_op version op }
{
    match op {
        StepOp::Shutdown => version == 2,
        _ => true,
    }
}

/// The operation of this name, in scripts of this version.
fn step_op_named(version: u64, name: &str) -> Option<StepOp>
    ensures { result ≡ step_op_named version name.now }
{
    match any_op_named(name) {
        Some(op) if has_op(version, op) => Some(op),
        _ => None,
    }
}

/// Whether each byte is from space to tilde.
fn are_printable(bytes: &[u8]) -> bool
    ensures { result ≡ list_all is_printable bytes.now }
{
    bytes.iter().all(|b| 32 <= *b && *b <= 126)
}

/// Whether a text may be said.
fn is_sayable(text: &str) -> bool
    ensures { result ≡ is_sayable text.now }
{
    text.len() <= MOST_CHARACTERS && are_printable(text.as_bytes())
}

/// The text that is said, the second of two elements.
fn said_text(size: usize, text: Option<&str>) -> Result<&str, TextFault>
    ensures { Gives (λ t. t.now) result (said_text size (option_map (λ t. t.now) text.entry)) }
{
    match text {
        Some(text) if size == 2 && is_sayable(text) => Ok(text),
        _ => Err(FAULT),
    }
}

/// A step of one element.
fn lone_step(step: Step, size: usize) -> Result<Step, TextFault>
    ensures { Gives step_of result (lone_step (step_of step) size) }
{
    if size == 1 { Ok(step) } else { Err(FAULT) }
}

/// The second of two elements, an inode.
fn inode_argument(size: usize, number: Option<u64>) -> Result<u64, TextFault>
    ensures { Gives (λ n. n) result (inode_argument size number) }
{
    if size == 2 {
        number_within(Field::Programs, 1, MOST_INODE, number)
    } else {
        Err(FAULT)
    }
}

/// The second of two elements, a number below the bound.
fn argument_below(size: usize, bound: u64, number: Option<u64>) -> Result<u64, TextFault>
    ensures { Gives (λ n. n) result (argument_below size bound number) }
{
    if size == 2 {
        number_below(Field::Programs, bound, number)
    } else {
        Err(FAULT)
    }
}

/// A step that says a text.
fn say(alloc: Global, size: usize, text: Option<&str>) -> Result<Step, TextFault>
    ensures { Gives step_of result (step_with (record { version = 0; semaphores = 0; programs = 0 }) StepOp.Say size
        (option_map (λ t. t.now) text.entry) Option.None) }
{
    let text = said_text(size, text)?;
    Ok(Step::Say(String::from_str(alloc, text)?))
}

/// The step of an operation, if it has this many elements, and this text or this number for its second.
fn step_with(
    alloc: Global,
    limits: StepLimits,
    op: StepOp,
    size: usize,
    text: Option<&str>,
    number: Option<u64>,
) -> Result<Step, TextFault>
    ensures { Gives step_of result (step_with limits op size (option_map (λ t. t.now) text.entry) number) }
{
    match op {
        StepOp::Say => say(alloc, size, text),
        StepOp::Yield => lone_step(Step::Yield, size),
        StepOp::Down => Ok(Step::Down(argument_below(size, limits.semaphores, number)?)),
        StepOp::Up => Ok(Step::Up(argument_below(size, limits.semaphores, number)?)),
        StepOp::OpenFile => Ok(Step::OpenFile(inode_argument(size, number)?)),
        StepOp::CloseFile => Ok(Step::CloseFile(inode_argument(size, number)?)),
        StepOp::Stat => Ok(Step::Stat(inode_argument(size, number)?)),
        StepOp::Spawn => Ok(Step::Spawn(argument_below(size, limits.programs, number)?)),
        StepOp::Shutdown => lone_step(Step::Shutdown, size),
    }
}

/// The step of this index among the steps of all programs.
#[tactic(auto, unfolding(crate::specs::StepText::step_from))]
fn step_from(
    alloc: Global,
    limits: StepLimits,
    index: u64,
    value: &Value,
) -> Result<Step, TextFault>
    ensures { Gives step_of result (step_from limits index (view value.now)) }
{
    let items = value.as_array().ok_or(FAULT)?;
    let name = text_at(value, 0).ok_or(FAULT)?;
    let op = step_op_named(limits.version, name).ok_or(TextFault::UnknownOp(index))?;
    let text = text_at(value, 1);
    let number = number_at(value, 1);
    step_with(alloc, limits, op, count(items), text, number)
}

/// The steps of one program, whose first has this index.
fn steps_from(
    alloc: Global,
    limits: StepLimits,
    first: u64,
    values: &[Value],
) -> Result<Vec<Step>, TextFault>
    requires first { first ≤ 64000 }
    requires few { length values.now ≤ 1000 }
    ensures gives { Gives (λ v. steps_view v.items) result
        (each_from (step_from limits) first (items_view values.now)) }
    ensures few { IfOk result (λ v. vec_len v ≤ 1000) }
{
    let mut steps = Vec::new(alloc);
    let mut index = first;
    for value in values {
        let step = step_from(alloc, limits, index, value)?;
        steps.push(step)?;
        index += 1;
    }
    Ok(steps)
}

/// The program whose first step has this index.
#[tactic(auto, unfolding(crate::specs::StepText::program_from))]
fn program_from(
    alloc: Global,
    limits: StepLimits,
    first: u64,
    value: &Value,
) -> Result<Vec<Step>, TextFault>
    requires { first ≤ 64000 }
    ensures gives { Gives (λ v. steps_view v.items) result (program_from limits first (view value.now)) }
    ensures few { IfOk result (λ v. vec_len v ≤ 1000) }
{
    let values = elements_within(value, Field::Programs, MOST_STEPS)?;
    steps_from(alloc, limits, first, values)
}

/// The programs of an array.
fn programs_from(
    alloc: Global,
    limits: StepLimits,
    values: &[Value],
) -> Result<Vec<Vec<Step>>, TextFault>
    requires { length values.now ≤ 64 }
    ensures { Gives (λ v. programs_of v.items) result (programs_from limits 0 (items_view values.now)) }
{
    let mut programs = Vec::new(alloc);
    let mut index = 0u64;
    for value in values {
        let program = program_from(alloc, limits, index, value)?;
        index += program.len() as u64;
        programs.push(program)?;
    }
    Ok(programs)
}

/// The programs of a script of this version with this many semaphores.
#[tactic(auto, unfolding(crate::specs::StepText::programs_of_key))]
pub(crate) fn programs_of_key(
    alloc: Global,
    value: &Value,
    version: u64,
    semaphores: u64,
) -> Result<Vec<Vec<Step>>, TextFault>
    ensures { Gives (λ v. programs_of v.items) result (programs_of_key version semaphores (view value.now)) }
{
    let values = elements_of_key(value, Field::Programs, MOST_PROGRAMS)?;
    let limits = StepLimits {
        version,
        semaphores,
        programs: count(values) as u64,
    };
    programs_from(alloc, limits, values)
}
