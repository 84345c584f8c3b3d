ghost use Rattle.std.specs.Prelude.{◌+◌, ◌≤◌, IfOk, length, string_bytes};

#[cfg(test)]
use crate::inputs::{Input, have_faults, holds_at};
use fak_text::{Field, Script, Step, TextFault, read_script};
use std::alloc::{AllocError, Global};
use std::process::Abort;

const PROGRAMS: TextFault = TextFault::Range(Field::Programs);

const BEFORE: &str =
    r#"{"version":1,"slots":2,"births":0,"quantum":1,"semaphores":[0,1000000],"files":1,"programs":["#;

const BEFORE_2: &str =
    r#"{"version":2,"slots":2,"births":0,"quantum":1,"semaphores":[0,1000000],"files":1,"programs":["#;

const AFTER: &str = r#"],"start":[0]}"#;

#[cfg(test)]
fn script_of(rt: &(impl Abort + AllocGlobal), text: &str) -> Script {
    read_script(rt.alloc(), text.as_bytes())
        .ok()
        .expect(rt, "a script")
}

/// Whether these are a step of each kind of version 1.
#[cfg(test)]
fn are_of_version_1(rt: &(impl Abort + AllocGlobal), steps: &[Step]) -> bool {
    let said = String::from_str(rt.alloc(), " ~").expect(rt, "memory");
    let kinds = [
        Step::Say(said),
        Step::Say(String::new(rt.alloc())),
        Step::Yield,
        Step::Down(0),
        Step::Up(1),
        Step::OpenFile(1),
        Step::CloseFile(4294967296),
        Step::Stat(7),
    ];
    steps == kinds.as_slice()
}

/// Whether these are the steps that only version 2 has.
#[cfg(test)]
fn are_of_version_2(steps: &[Step]) -> bool {
    steps == [Step::Spawn(1), Step::Shutdown].as_slice()
}

/// The version, the slots, the births, the quantum, the stint and the files.
#[cfg(test)]
fn numbers(script: &Script) -> [u64; 6] {
    [
        script.version(),
        script.slots(),
        script.births(),
        script.quantum(),
        script.stint(),
        script.files(),
    ]
}

/// Whether these are two programs of a step of each kind.
#[cfg(test)]
fn are_of_each_kind(rt: &(impl Abort + AllocGlobal), programs: &[Vec<Step>]) -> bool {
    match programs {
        [first, second] => are_of_version_1(rt, first) && are_of_version_2(second),
        _ => false,
    }
}

/// Checks that the script has the numbers, the lists and the programs of the input with each kind of step.
#[cfg(test)]
fn has_parts(rt: &(impl Abort + AllocGlobal), script: &Script) {
    const SEMAPHORES: &[u64] = &[0, 1000000];
    const START: &[u64] = &[1, 0, 1];
    holds_at(rt, numbers(script) == [2, 64, 1000, 1000, 7, 16], "numbers");
    holds_at(rt, script.semaphores() == SEMAPHORES, "semaphores");
    holds_at(rt, script.start() == START, "start");
    holds_at(rt, are_of_each_kind(rt, script.programs()), "programs");
}

#[test]
fn a_script_of_each_kind_of_step(rt: HostRuntime) {
    let text =
        r#"{"version":2,"slots":64,"births":1000,"quantum":1000,"stint":7,"semaphores":[0,1000000],"files":16,"programs":[
        [["say"," ~"],["say",""],["yield"],["down",0],["up",1],["open",1],["close",4294967296],["stat",7]],[["spawn",1],["shutdown"]]],"start":[1,0,1]}"#;
    has_parts(&rt, &script_of(&rt, text));
}

/// The version, the stint, and how many semaphores, programs and processes at the start there are.
#[cfg(test)]
fn extent(script: &Script) -> (u64, u64, [usize; 3]) {
    (
        script.version(),
        script.stint(),
        [
            script.semaphores().len(),
            script.programs().len(),
            script.start().len(),
        ],
    )
}

#[test]
fn a_script_of_version_1(rt: HostRuntime) {
    const ROWS: &[(&str, [usize; 3])] = &[
        (
            r#"{"version":1,"slots":1,"births":0,"quantum":4,"semaphores":[],"files":1,"programs":[[]],"start":[0],"other":{}}"#,
            [0, 1, 1],
        ),
        (
            r#"{"version":1,"slots":1,"births":0,"quantum":4,"semaphores":[],"files":1,"programs":[],"start":[]}"#,
            [0, 0, 0],
        ),
    ];
    for &(text, counts) in ROWS {
        let is_so = extent(&script_of(&rt, text)) == (1, 1_099_511_627_776, counts);
        holds_at(&rt, is_so, text);
    }
}

#[test]
fn the_first_fault_of_the_keys(rt: HostRuntime) {
    const ROWS: &[(&str, TextFault)] = &[
        (r#"{"slots":0}"#, TextFault::Missing(Field::Version)),
        (r#"{"version":0}"#, TextFault::Range(Field::Version)),
        (r#"{"version":3}"#, TextFault::Range(Field::Version)),
        (
            r#"{"version":1,"births":1001}"#,
            TextFault::Missing(Field::Slots),
        ),
        (r#"{"version":1,"slots":0}"#, TextFault::Range(Field::Slots)),
        (
            r#"{"version":1,"slots":65}"#,
            TextFault::Range(Field::Slots),
        ),
        (
            r#"{"version":1,"slots":1,"quantum":0}"#,
            TextFault::Missing(Field::Births),
        ),
        (
            r#"{"version":1,"slots":1,"births":1001}"#,
            TextFault::Range(Field::Births),
        ),
        (
            r#"{"version":1,"slots":1,"births":0,"stint":0}"#,
            TextFault::Missing(Field::Quantum),
        ),
        (
            r#"{"version":1,"slots":1,"births":0,"quantum":0,"stint":0}"#,
            TextFault::Range(Field::Quantum),
        ),
        (
            r#"{"version":1,"slots":1,"births":0,"quantum":1001}"#,
            TextFault::Range(Field::Quantum),
        ),
        (
            r#"{"version":1,"slots":1,"births":0,"quantum":1,"stint":0}"#,
            TextFault::Range(Field::Stint),
        ),
        (
            r#"{"version":1,"slots":1,"births":0,"quantum":1,"stint":null}"#,
            TextFault::Range(Field::Stint),
        ),
        (
            r#"{"version":1,"slots":1,"births":0,"quantum":1,"stint":1099511627777}"#,
            TextFault::Range(Field::Stint),
        ),
        (
            r#"{"version":1,"slots":1,"births":0,"quantum":1,"files":0}"#,
            TextFault::Missing(Field::Semaphores),
        ),
        (
            r#"{"version":1,"slots":1,"births":0,"quantum":1,"semaphores":0}"#,
            TextFault::Range(Field::Semaphores),
        ),
        (
            r#"{"version":1,"slots":1,"births":0,"quantum":1,"semaphores":[1000001]}"#,
            TextFault::Range(Field::Semaphores),
        ),
        (
            r#"{"version":1,"slots":1,"births":0,"quantum":1,"semaphores":[0,-1]}"#,
            TextFault::Range(Field::Semaphores),
        ),
        (
            r#"{"version":1,"slots":1,"births":0,"quantum":1,"semaphores":[0,0,0,0,0,0,0,0,0,0,0,0,0,0,0,0,0]}"#,
            TextFault::Range(Field::Semaphores),
        ),
        (
            r#"{"version":1,"slots":1,"births":0,"quantum":1,"semaphores":[],"programs":7}"#,
            TextFault::Missing(Field::Files),
        ),
        (
            r#"{"version":1,"slots":1,"births":0,"quantum":1,"semaphores":[],"files":0}"#,
            TextFault::Range(Field::Files),
        ),
        (
            r#"{"version":1,"slots":1,"births":0,"quantum":1,"semaphores":[],"files":17}"#,
            TextFault::Range(Field::Files),
        ),
        (
            r#"{"version":1,"slots":1,"births":0,"quantum":1,"semaphores":[],"files":1,"start":7}"#,
            TextFault::Missing(Field::Programs),
        ),
        (
            r#"{"version":1,"slots":1,"births":0,"quantum":1,"semaphores":[],"files":1,"programs":{}}"#,
            PROGRAMS,
        ),
        (
            r#"{"version":1,"slots":1,"births":0,"quantum":1,"semaphores":[],"files":1,"programs":[]}"#,
            TextFault::Missing(Field::Start),
        ),
        (
            r#"{"version":1,"slots":1,"births":0,"quantum":1,"semaphores":[],"files":1,"programs":[],"start":0}"#,
            TextFault::Range(Field::Start),
        ),
        (
            r#"{"version":1,"slots":1,"births":0,"quantum":1,"semaphores":[],"files":1,"programs":[],"start":[0]}"#,
            TextFault::Range(Field::Start),
        ),
        (
            r#"{"version":1,"slots":1,"births":0,"quantum":1,"semaphores":[],"files":1,"programs":[[]],"start":[0,0]}"#,
            TextFault::Range(Field::Start),
        ),
    ];
    have_faults(&rt, Input::Script, "", "", ROWS);
}

#[test]
fn the_first_fault_of_the_programs(rt: HostRuntime) {
    const OF_VERSION_1: &[(&str, TextFault)] = &[
        (r#"7"#, PROGRAMS),
        (r#"[7]"#, PROGRAMS),
        (r#"[[]]"#, PROGRAMS),
        (r#"[[7]]"#, PROGRAMS),
        (r#"[["say","a"],["jump",1]]"#, TextFault::UnknownOp(1)),
        (
            r#"[["yield"],["yield"]],[["yield"],["jump",1]]"#,
            TextFault::UnknownOp(3),
        ),
        (r#"[],[],[["shutdown"]]"#, TextFault::UnknownOp(0)),
        (r#"[["shutdown",1]]"#, TextFault::UnknownOp(0)),
        (r#"[["down",2],["jump"]]"#, PROGRAMS),
        (r#"[["say"]]"#, PROGRAMS),
        (r#"[["say",7]]"#, PROGRAMS),
        (r#"[["say","a","b"]]"#, PROGRAMS),
        (r#"[["say","\u001f"]]"#, PROGRAMS),
        (r#"[["say","\u007f"]]"#, PROGRAMS),
        (r#"[["say","\u00e9"]]"#, PROGRAMS),
        (
            r#"[["say","123456789012345678901234567890123456789012345678901234567890123456789012345678901"]]"#,
            PROGRAMS,
        ),
        (r#"[["yield",1]]"#, PROGRAMS),
        (r#"[["down"]]"#, PROGRAMS),
        (r#"[["down",0,0]]"#, PROGRAMS),
        (r#"[["down","0"]]"#, PROGRAMS),
        (r#"[["up",2]]"#, PROGRAMS),
        (r#"[["open",0]]"#, PROGRAMS),
        (r#"[["close",4294967297]]"#, PROGRAMS),
        (r#"[["stat",0]]"#, PROGRAMS),
        (r#"[["stat"]]"#, PROGRAMS),
        (r#"[["spawn",1]]"#, PROGRAMS),
        (r#"[["spawn",2]],[]"#, PROGRAMS),
    ];
    have_faults(&rt, Input::Script, BEFORE, AFTER, OF_VERSION_1);
    const OF_VERSION_2: &[(&str, TextFault)] = &[
        (r#"[["shutdown",1]]"#, PROGRAMS),
        (r#"[["shutdown"],["jump"]]"#, TextFault::UnknownOp(1)),
    ];
    have_faults(&rt, Input::Script, BEFORE_2, AFTER, OF_VERSION_2);
    let made = [BEFORE_2, r#"[["shutdown"]]"#, AFTER].concat(rt.alloc());
    let fault = Input::Script.fault_of(rt.alloc(), made);
    holds_at(&rt, fault == None, "shutdown");
}

/// This many items, between commas; none is left out.
pub fn repeated(rt: &impl AllocGlobal, item: &str, count: usize) -> Result<String, AllocError>
    ensures { IfOk result (λ text. count ≤ length (string_bytes text) + 1) }
{
    let mut text = String::from_str(rt.alloc(), item)?;
    for _made in 1..count {
        text.push(',')?;
        text.push_str(item)?;
    }
    Ok(text)
}

/// This many items, or none, between commas and between these texts.
#[cfg(test)]
pub fn with_many(
    rt: &impl AllocGlobal,
    before: &str,
    item: &str,
    count: usize,
    after: &str,
) -> Result<String, AllocError> {
    if count == 0 {
        return [before, after].concat(rt.alloc());
    }
    let items = repeated(rt, item, count)?;
    [before, &items, after].concat(rt.alloc())
}

/// Many of an item: the text before them, the item, how many they are, the text after them, and the fault.
#[cfg(test)]
type Many = (
    &'static str,
    &'static str,
    usize,
    &'static str,
    Option<TextFault>,
);

#[cfg(test)]
const BEFORE_STEPS: &str =
    r#"{"version":1,"slots":2,"births":0,"quantum":1,"semaphores":[0,1000000],"files":1,"programs":[["#;

/// Checks that a script with many of an item has its fault.
#[cfg(test)]
fn has_fault(rt: &(impl Abort + AllocGlobal), many: &Many) {
    let made = with_many(rt, many.0, many.1, many.2, many.3);
    let fault = Input::Script.fault_of(rt.alloc(), made);
    holds_at(rt, fault == many.4, many.1);
}

#[test]
fn a_script_has_at_most_64_programs_of_1000_steps(rt: HostRuntime) {
    const AFTER_PROGRAMS: &str = r#"],"start":[]}"#;
    const AFTER_STEPS: &str = r#"]],"start":[]}"#;
    const ROWS: &[Many] = &[
        (BEFORE, "[]", 64, AFTER_PROGRAMS, None),
        (BEFORE, "[]", 65, AFTER_PROGRAMS, Some(PROGRAMS)),
        (BEFORE_STEPS, r#"["yield"]"#, 1000, AFTER_STEPS, None),
        (
            BEFORE_STEPS,
            r#"["jump"]"#,
            1001,
            AFTER_STEPS,
            Some(PROGRAMS),
        ),
        (
            BEFORE_STEPS,
            r#"["yield"]"#,
            1000,
            r#"],[["jump"]]],"start":[]}"#,
            Some(TextFault::UnknownOp(1000)),
        ),
    ];
    for row in ROWS {
        has_fault(&rt, row);
    }
}
