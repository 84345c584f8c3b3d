//! What a gate is told: the number of the processor, and the number of its look, counted from 0.

use super::examples::{assert_with, fault_with, script_in_parts};
use super::gates::Alone;
use fak_kernel::{Fault, Gate};
use fak_text::Script;
use std::alloc::Global;
use std::marker::Sync;
use std::process::Abort;
use std::sync::Wait;
use std::sync::atomic::{AtomicBool, AtomicU64, Ordering};
use std::thread::Threads;

/// A processor is held this many turns at most.
const MANY: u64 = 100_000_000;

/// Expects the looks of each processor in their order, and those of no other.
#[derive(Drop)]
struct Counting {
    made: Vec<AtomicU64>,
    is_wrong: AtomicBool,
}

impl Counting {
    fn new(rt: &impl Abort, alloc: Global, processors: u64) -> Counting {
        let mut made = Vec::new(alloc);
        for _ in 0..processors {
            made.push(AtomicU64::new(0)).expect(rt, "a gate");
        }
        Counting {
            made,
            is_wrong: AtomicBool::new(false),
        }
    }

    /// Each look came in its order, and each processor made some.
    fn is_right(&self) -> bool {
        for made in &self.made {
            if made.load(Ordering::SeqCst) == 0 {
                return false;
            }
        }
        !self.is_wrong.load(Ordering::SeqCst)
    }

    /// The most looks of a processor; 0 if there is a fault, or if the gate was told wrongly.
    fn answer(&self, fault: Option<Fault>) -> u64 {
        if fault.is_none() && self.is_right() {
            return self.most();
        }
        0
    }

    /// The most looks of a processor.
    fn most(&self) -> u64 {
        let mut most = 0;
        for made in &self.made {
            most = made.load(Ordering::SeqCst).max(most);
        }
        most
    }
}

impl Gate for Counting {
    fn may_refuse(&self) -> bool {
        true
    }

    fn pass(&self, processor: u64, step: u64) -> bool {
        match self.made.get(processor as usize) {
            Some(made) if made.load(Ordering::SeqCst) == step => {
                made.store(step.saturating_add(1), Ordering::SeqCst)
            }
            _ => self.is_wrong.store(true, Ordering::SeqCst),
        }
        true
    }
}

const YIELD: &str = r#"["yield"],"#;

/// A script of this many processes, each of which takes 1,000 turns.
fn many_turns(processes: u64) -> [(u64, &'static str); 5] {
    [
        (
            1,
            r#"{"version":1,"slots":64,"births":0,"quantum":1,"semaphores":[],"files":1,"programs":[["#,
        ),
        (999, YIELD),
        (1, r#"["say",""]]],"start":[0"#),
        (processes.saturating_sub(1), ",0"),
        (1, "]}"),
    ]
}

/// A script of 140,000 turns and 162: two processes start 40 children each, one after the other, and each child takes 1,000
/// turns, as 60 processes more do.
const VERY_MANY_TURNS: [(u64, &str); 9] = [
    (
        1,
        r#"{"version":1,"slots":64,"births":80,"quantum":1,"semaphores":[0],"files":1,"programs":[["#,
    ),
    (40, r#"["spawn",1],["down",0],"#),
    (1, r#"["say",""]],["#),
    (999, YIELD),
    (1, r#"["up",0]],["#),
    (999, YIELD),
    (1, r#"["yield"]]],"start":[0,0"#),
    (60, ",2"),
    (1, "]}"),
];

/// A script of 63 turns: the first process shuts the ready queue, and each process halts after its turn. Half of the turns
/// are longer by a step.
const MANY_HALTS: [(u64, &str); 3] = [
    (
        1,
        r#"{"version":2,"slots":64,"births":0,"quantum":9,"semaphores":[],"files":1,
"programs":[[["shutdown"],["yield"],["yield"]],[["yield"],["yield"]],[["say",""],["yield"],["yield"]]],"start":[0"#,
    ),
    (31, ",1,2"),
    (1, "]}"),
];

/// The most looks of a processor; 0 if there is no report, or if the gate was told wrongly.
fn most_looks<R: Abort + Threads + Wait + Sync>(
    rt: &R,
    alloc: Global,
    script: &[(u64, &str)],
    processors: u64,
) -> u64 {
    let script = script_in_parts(rt, alloc, script);
    let gate = Counting::new(rt, alloc, processors);
    let fault = fault_with(rt, alloc, &script, processors, &gate);
    gate.answer(fault)
}

#[test]
fn each_processor_tells_its_own_number_and_its_looks(rt: HostRuntime) {
    for processors in 1..9u64 {
        let looks = most_looks(&rt, rt.alloc(), &many_turns(2 * processors), processors);
        assert_with(&rt, looks > 1_024, "more looks", looks, 0, processors);
    }
}

/// Checks the looks of the processor that did all the work: one for each turn, and the last, which finds no process.
fn has_looked(rt: &impl Abort, looks: u64, turns: u64, chosen: u64, processors: u64) {
    let is_so = looks == turns.saturating_add(1);
    assert_with(
        rt,
        is_so,
        "a look for each turn and one",
        looks,
        chosen,
        processors,
    );
}

/// Checks that one processor asks before each of its looks.
fn asks_before_each<R: Abort + Threads + Wait + Sync>(
    rt: &R,
    alloc: Global,
    script: &[(u64, &str)],
    turns: u64,
) {
    let looks = most_looks(rt, alloc, script, 1);
    has_looked(rt, looks, turns, 0, 1);
}

#[test]
fn a_processor_asks_before_each_look(rt: HostRuntime) {
    for &processes in &[1u64, 2, 64] {
        let turns = processes.saturating_mul(1_000);
        asks_before_each(&rt, rt.alloc(), &many_turns(processes), turns);
    }
    asks_before_each(&rt, rt.alloc(), &VERY_MANY_TURNS, 140_162);
    asks_before_each(&rt, rt.alloc(), &MANY_HALTS, 63);
}

/// The looks of a processor that does all the work among this many; 0 if there is no report.
fn looks_alone<R: Abort + Threads + Wait + Sync>(
    rt: &R,
    alloc: Global,
    script: &Script,
    turns: u64,
    chosen: u64,
    processors: u64,
) -> u64 {
    let gate = Alone::new(chosen, turns, MANY);
    match fault_with(rt, alloc, script, processors, &gate) {
        None => gate.looks(),
        Some(_) => 0,
    }
}

/// Checks the same of each of 2 to 8 processors that does all the work.
fn asks_wherever_it_works<R: Abort + Threads + Wait + Sync>(
    rt: &R,
    alloc: Global,
    script: &[(u64, &str)],
    turns: u64,
) {
    let script = script_in_parts(rt, alloc, script);
    for processors in 2..9u64 {
        for chosen in 0..processors {
            let looks = looks_alone(rt, alloc, &script, turns, chosen, processors);
            has_looked(rt, looks, turns, chosen, processors);
        }
    }
}

#[test]
fn whoever_works_asks_before_each_look(rt: HostRuntime) {
    asks_wherever_it_works(&rt, rt.alloc(), &many_turns(1), 1_000);
    asks_wherever_it_works(&rt, rt.alloc(), &MANY_HALTS, 63);
}
