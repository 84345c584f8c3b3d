//! What is wrong with a step of a program.

ghost use Rattle.std.specs.Prelude.{◌≡◌, ◌≤◌, ◌&&◌, IfSome, Some, is_none, is_ok, nat_eq, not, option_map};
ghost use Rattle.std.specs.List.{list_all, position};
ghost use Rattle.serde_json.specs.View.{view};
ghost use Rattle.fak_text.specs.StepText.{is_printable, is_sayable, said_text, inode_argument, argument_below};
ghost use Rattle.fak_places.specs.Named.{step_named, step_in};
ghost use Rattle.fak_places.specs.Spots.{absent_at};

use crate::asked::{Absent, Wrong, element, names_nothing, outside, whole};
use crate::values::count;
use fak_text::{number_at, text_at};
use serde_json::Value;

const MOST_CHARACTERS: usize = 80;

const MOST_INODE: u64 = 4_294_967_296;

const SEMAPHORE: &'static str = "semaphore";

const SEMAPHORE_NUMBER: &'static str = "a semaphore is named by a whole number";

/// What a program is called.
pub(crate) const PROGRAM: &'static str = "program";

/// How a program is named.
pub(crate) const PROGRAM_NUMBER: &'static str = "a program is named by a whole number";

const NAMES: &'static str =
    "a step is say, yield, down, up, open, close, stat or spawn, in version 2 also shutdown";

/// What the steps of a script may name.
#[derive(Clone, Copy)]
pub(crate) struct Limits {
    pub version: u64,
    pub semaphores: u64,
    pub programs: u64,
}

/// Whether each byte is from space to tilde.
fn are_printable(bytes: &[u8]) -> bool
    ensures { result ≡ list_all is_printable bytes.now }
{
    bytes.iter().all(|b| 32 <= *b && *b <= 126)
}

/// Whether a text may be said.
fn is_sayable(text: &str) -> bool
    ensures { result ≡ is_sayable text.now }
{
    text.len() <= MOST_CHARACTERS && are_printable(text.as_bytes())
}

/// What is wrong with a step that says a text.
fn wrong_text(size: usize, text: Option<&str>) -> Option<Wrong>
    ensures { is_none result ≡ is_ok (said_text size (option_map (λ t. t.now) text.entry)) }
{
    if size != 2 {
        return Some(whole("a step of this name has two elements"));
    }
    match text {
        Some(text) if is_sayable(text) => None,
        _ => Some(element(
            1,
            "what is said is a text of 0 to 80 characters, each from space to tilde",
        )),
    }
}

/// What is wrong with a step of one element.
fn wrong_lone(size: usize) -> Option<Wrong>
    ensures { is_none result ≡ nat_eq size 1 }
{
    if size == 1 {
        None
    } else {
        Some(whole("a step of this name has one element"))
    }
}

/// What is wrong with the inode of a step, the second of two elements.
fn wrong_inode(size: usize, number: Option<u64>) -> Option<Wrong>
    ensures { is_none result ≡ is_ok (inode_argument size number) }
{
    if size != 2 {
        return Some(whole("a step of this name has two elements"));
    }
    match number {
        Some(n) if 1 <= n && n <= MOST_INODE => None,
        _ => Some(outside(1, "an inode", 1, MOST_INODE)),
    }
}

/// What is wrong with the second of two elements, the number of one of `count` semaphores or programs.
fn wrong_index(
    what: &'static str,
    named: &'static str,
    count: u64,
    size: usize,
    number: Option<u64>,
) -> Option<Wrong>
    ensures wrong { is_none result ≡ is_ok (argument_below size count number) }
    ensures absent { size ≡ 2 → IfSome number (λ n. count ≤ n
        → result ≡ Some (absent_at 1 (record { what = what.entry; number = n; count = count }))) }
{
    if size != 2 {
        return Some(whole("a step of this name has two elements"));
    }
    match number {
        Some(n) if n < count => None,
        Some(number) => Some(names_nothing(
            1,
            Absent {
                what,
                number,
                count,
            },
        )),
        None => Some(element(1, named)),
    }
}

/// What is wrong with a step that lowers or raises a semaphore.
fn wrong_semaphore(semaphores: u64, size: usize, number: Option<u64>) -> Option<Wrong>
    ensures { is_none result ≡ is_ok (argument_below size semaphores number) }
{
    wrong_index(SEMAPHORE, SEMAPHORE_NUMBER, semaphores, size, number)
}

/// What is wrong with a step that shuts the ready queue, in scripts of this version.
fn wrong_shutdown(version: u64, size: usize) -> Option<Wrong>
    ensures { is_none result ≡ (nat_eq version 2 && nat_eq size 1) }
{
    if version == 2 {
        wrong_lone(size)
    } else {
        Some(element(0, NAMES))
    }
}

/// What is wrong with a step of this name.
#[tactic(auto, unfolding(fak_text::specs::StepText::any_op_named))]
fn wrong_named(
    limits: Limits,
    name: &str,
    size: usize,
    text: Option<&str>,
    number: Option<u64>,
) -> Option<Wrong>
    ensures { is_none result ≡ is_ok (step_named limits name.now size (option_map (λ t. t.now) text.entry) number) }
{
    let semaphores = limits.semaphores;
    match name {
        "say" => wrong_text(size, text),
        "yield" => wrong_lone(size),
        "down" | "up" => wrong_semaphore(semaphores, size, number),
        "open" | "close" | "stat" => wrong_inode(size, number),
        "spawn" => wrong_index(PROGRAM, PROGRAM_NUMBER, limits.programs, size, number),
        "shutdown" => wrong_shutdown(limits.version, size),
        _ => Some(element(0, NAMES)),
    }
}

/// What is wrong with a step, if anything.
#[tactic(auto, unfolding(fak_text::specs::StepText::step_from))]
pub(crate) fn wrong_step(limits: Limits, value: &Value) -> Option<Wrong>
    ensures { is_none result ≡ is_ok (step_in limits (view value.now)) }
{
    let Some(items) = value.as_array() else {
        return Some(whole("a step is an array that begins with its name"));
    };
    let Some(name) = text_at(value, 0) else {
        return Some(element(0, NAMES));
    };
    wrong_named(
        limits,
        name,
        count(items),
        text_at(value, 1),
        number_at(value, 1),
    )
}

/// The index of the first step that is wrong.
pub(crate) fn first_wrong_step(limits: Limits, values: &[Value]) -> Option<usize>
    ensures { result ≡ position (λ v. not (is_ok (step_in limits (view v)))) values.now }
{
    values
        .iter()
        .position(|value| wrong_step(limits, value).is_some())
}
