//! Stints that are used up, at each object of a run: with one call more in the stint the run ends.

use super::examples::{assert_with, fault_with, is_left, run_on, run_on_to_text, script_of};
use super::gates::Chosen;
use fak_kernel::Fault;
use fak_text::Script;
use std::alloc::Global;
use std::process::Abort;
use std::sync::Wait;
use std::thread::Threads;

/// A script, except for its stint, and the least stint with which it ends.
type Case = (&'static str, u64);

/// One process performs its calls in one turn, or processor 0 performs them before the first turn. So one seat of the
/// object has all the calls, on any number of processors. The objects are the free slots, a semaphore that is raised, one
/// that lets processes pass, and the births. The last three cases are the file table, by each of its steps.
const IN_ONE_TURN: [Case; 7] = [
    (
        r#"{"version":1,"slots":5,"births":0,"quantum":9,"semaphores":[],"files":1,"programs":[],"start":[],"#,
        5,
    ),
    (
        r#"{"version":1,"slots":1,"births":0,"quantum":9,"semaphores":[0],"files":1,"programs":[[["up",0],["up",0],["up",0],["up",0],["up",0]]],"start":[0],"#,
        5,
    ),
    (
        r#"{"version":1,"slots":1,"births":0,"quantum":9,"semaphores":[9],"files":1,"programs":[[["down",0],["down",0],["down",0],["down",0],["down",0]]],"start":[0],"#,
        5,
    ),
    (
        r#"{"version":1,"slots":1,"births":9,"quantum":9,"semaphores":[],"files":1,"programs":[[["spawn",0],["spawn",0],["spawn",0],["spawn",0],["spawn",0]]],"start":[0],"#,
        5,
    ),
    (
        r#"{"version":1,"slots":1,"births":0,"quantum":9,"semaphores":[],"files":1,"programs":[[["open",7],["open",7],["open",7],["open",7],["open",7]]],"start":[0],"#,
        5,
    ),
    (
        r#"{"version":1,"slots":1,"births":0,"quantum":9,"semaphores":[],"files":1,"programs":[[["close",7],["close",7],["close",7],["close",7],["close",7]]],"start":[0],"#,
        5,
    ),
    (
        r#"{"version":1,"slots":1,"births":0,"quantum":9,"semaphores":[],"files":1,"programs":[[["stat",7],["stat",7],["stat",7],["stat",7],["stat",7]]],"start":[0],"#,
        5,
    ),
];

/// A process of many turns. The processor that has it uses up its seat at the ready queue, by a look or by the end of a turn.
const OF_TURNS: &str = r#"{"version":1,"slots":1,"births":0,"quantum":9,"semaphores":[],"files":1,
"programs":[[["yield"],["yield"],["yield"],["yield"],["yield"],["yield"]]],"start":[0],"#;

/// A processor is held this many turns at most.
const MANY: u64 = 100_000_000;

/// One processor performs all calls, and each stint runs out at another call. The first script enters and leaves the
/// ready queue twice, and looks at it once more. The next ones give a slot back, take one for a child, and enter the
/// child. In the last ones processes change busy: five times when they sleep, and ten times when they are woken after the
/// shutdown. Then an end, a sleep, or a child that halts changes it once more.
const ALONE: [Case; 7] = [
    (
        r#"{"version":1,"slots":1,"births":0,"quantum":9,"semaphores":[],"files":1,"programs":[[["yield"],["yield"]]],"start":[0],"#,
        5,
    ),
    (
        r#"{"version":1,"slots":1,"births":0,"quantum":9,"semaphores":[],"files":1,"programs":[[]],"start":[0],"#,
        3,
    ),
    (
        r#"{"version":1,"slots":2,"births":1,"quantum":9,"semaphores":[],"files":1,"programs":[[["spawn",1]],[]],"start":[0],"#,
        6,
    ),
    (
        r#"{"version":1,"slots":2,"births":1,"quantum":9,"semaphores":[],"files":1,"programs":[[["yield"],["spawn",1]],[]],"start":[0],"#,
        7,
    ),
    (
        r#"{"version":2,"slots":6,"births":0,"quantum":9,"semaphores":[0,0,0,0,0],"files":1,"programs":[
[["down",0]],[["down",1]],[["down",2]],[["down",3]],[["down",4]],
[["shutdown"],["up",0],["up",1],["up",2],["up",3],["up",4]]],"start":[0,1,2,3,4,5],"#,
        16,
    ),
    (
        r#"{"version":2,"slots":6,"births":0,"quantum":9,"semaphores":[0,0,0,0,0,0],"files":1,"programs":[
[["down",0]],[["down",1]],[["down",2]],[["down",3]],[["down",4]],
[["shutdown"],["up",0],["up",1],["up",2],["up",3],["up",4],["down",5]]],"start":[0,1,2,3,4,5],"#,
        16,
    ),
    (
        r#"{"version":2,"slots":7,"births":1,"quantum":9,"semaphores":[0,0,0,0,0],"files":1,"programs":[
[["down",0]],[["down",1]],[["down",2]],[["down",3]],[["down",4]],
[["shutdown"],["up",0],["up",1],["up",2],["up",3],["up",4],["spawn",0]]],"start":[0,1,2,3,4,5],"#,
        18,
    ),
];

fn with_stint(rt: &impl Abort, alloc: Global, front: &str, stint: u64) -> Script {
    let text = format!(in alloc; "{front}\"stint\":{stint}}}").expect(rt, "a script");
    script_of(rt, alloc, &text)
}

/// The faults of the script with this stint, as a report and as a text; without threads if the number is 0.
fn faults_on<R: Abort + Threads + Wait + Sync>(
    rt: &R,
    alloc: Global,
    front: &str,
    stint: u64,
    processors: u64,
) -> (Option<Fault>, Option<Fault>) {
    let script = with_stint(rt, alloc, front, stint);
    let whole = run_on(rt, alloc, &script, processors).err();
    let printed = run_on_to_text(rt, alloc, &script, processors).err();
    (whole, printed)
}

/// Checks that both are this fault, or that there is none.
fn has_fault<R: Abort + Threads + Wait + Sync>(
    rt: &R,
    alloc: Global,
    front: &str,
    stint: u64,
    processors: u64,
    wanted: Option<Fault>,
) {
    let (whole, printed) = faults_on(rt, alloc, front, stint, processors);
    let is_so = whole == wanted && printed == wanted;
    assert_with(rt, is_so, front, (whole, printed), stint, processors);
}

/// Checks that the script is worn with each stint below the least, and ends with the least.
fn is_worn_below<R: Abort + Threads + Wait + Sync>(
    rt: &R,
    alloc: Global,
    (front, least): Case,
    processors: u64,
) {
    for stint in 1..least {
        has_fault(rt, alloc, front, stint, processors, Some(Fault::Worn));
    }
    has_fault(rt, alloc, front, least, processors, None);
}

#[test]
fn a_seat_is_worn_in_one_turn(rt: HostRuntime) {
    for &case in &IN_ONE_TURN {
        for &processors in &[0u64, 1] {
            is_worn_below(&rt, rt.alloc(), case, processors);
        }
        let (front, least) = case;
        for processors in 2..9u64 {
            has_fault(
                &rt,
                rt.alloc(),
                front,
                least - 1,
                processors,
                Some(Fault::Worn),
            );
        }
    }
}

#[test]
fn a_seat_is_worn_by_many_turns(rt: HostRuntime) {
    for &case in &ALONE {
        for &processors in &[0u64, 1] {
            is_worn_below(&rt, rt.alloc(), case, processors);
        }
    }
}

/// Checks that the script is worn if only one of these processors works.
fn is_worn_by<R: Abort + Threads + Wait + Sync>(
    rt: &R,
    alloc: Global,
    script: &Script,
    processors: u64,
    chosen: u64,
) {
    let fault = fault_with(rt, alloc, script, processors, &Chosen::new(chosen, MANY));
    is_left(rt, fault, Fault::Worn, false, chosen, processors);
}

#[test]
fn whoever_works_is_worn_by_many_turns(rt: HostRuntime) {
    for &stint in &[4u64, 5] {
        let script = with_stint(&rt, rt.alloc(), OF_TURNS, stint);
        for processors in 2..9u64 {
            for chosen in 0..processors {
                is_worn_by(&rt, rt.alloc(), &script, processors, chosen);
            }
        }
    }
}
