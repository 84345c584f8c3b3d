//! A thread for each processor.

ghost use Rattle.std.specs.Prelude.{◌≡◌, ◌<◌, ◌++◌, ◌∷◌, [], ℕ, vec_len, slice_index_or, IfOk, IsOkAnd};
ghost use Rattle.fak_kernel.specs.Threads.{HasBegun, HasReturned};

use crate::fault::StartFault;
use fak_processor::{LoopFault, Objects, Plan, Processor, Seats};
use fak_run::{Gate, Run};
use std::alloc::Global;
use std::marker::{Send, Sync};
use std::sync::Wait;
use std::thread;
use std::thread::{Promise, Threads};

/// What a run lends to each of its threads.
#[derive(Drop)]
pub(crate) struct Lent<'r, K: Run, G> {
    /// The plan of the run.
    pub(crate) plan: &'r Plan<'r, K>,
    /// What the processors share.
    pub(crate) objects: &'r Objects<K>,
    /// The gate that each processor passes before it looks at the ready queue.
    pub(crate) gate: &'r G,
}

/// What the thread of a processor returns: its seats, or nothing if another processor met a fault.
pub(crate) type ThreadResult<K> = Result<Option<Seats<K>>, LoopFault>;

/// What is promised of the result of a thread: it is that of the processor of this number.
#[derive(Drop)]
struct ThreadPromise<'l, 'r, K: Run, G> {
    lent: &'l Lent<'r, K, G>,
    number: u64,
}

impl<'l, 'r, K: Run, G: Gate> Promise<ThreadResult<K>> for ThreadPromise<'l, 'r, K, G> {
    ghost kept_by = { λ p r. HasReturned K.script p.lent.now.objects.now p.lent.now.plan.now.processors
        (G.refuses p.lent.now.gate.now) (G.answers p.lent.now.gate.now) p.number r };
}

/// The processor of this number works with these seats until the run is over.
fn run_thread<K: Run, R: Wait, G: Gate>(
    rt: &R,
    lent: &Lent<'_, K, G>,
    number: u64,
    seats: Seats<K>,
) -> ThreadResult<K>
    requires begun { HasBegun K.script lent.now.objects.now lent.now.plan.now.processors number seats }
    ensures { HasReturned K.script lent.now.objects.now lent.now.plan.now.processors (G.refuses lent.now.gate.now)
        (G.answers lent.now.gate.now) number result }
{
    let plan = lent.plan;
    let processor = Processor::new(lent.objects, plan.script, plan.alloc, number, seats);
    let (seats, done) = processor.work(rt, lent.gate);
    match done {
        Ok(true) => Ok(Some(seats)),
        Ok(false) => {
            drop(seats);
            Ok(None)
        }
        Err(fault) => {
            drop(seats);
            Err(fault)
        }
    }
}

/// Appends the handle of a thread that has begun.
fn keep<H: Drop, E: Drop>(handles: &mut Vec<H>, begun: Result<H, E>) -> Result<(), StartFault>
    ensures kept { IfOk result (λ _. IsOkAnd begun (λ h. handles.new.items ≡ handles.old.items ++ h ∷ [])) }
{
    match begun {
        Ok(handle) => Ok(handles.push(handle)?),
        Err(_) => Err(StartFault::NoThread),
    }
}

/// Runs each processor in a thread of its own. Returns what the threads returned, in the order of the processors'
/// numbers.
///
/// # Errors
///
/// `NoThread` if the system gave no thread, and `Memory`. The threads that have begun are told by the alarm, so that
/// they end too.
pub(crate) fn run_all_threads<K: Run + Send + Sync, R: Threads + Wait + Sync, G: Gate + Sync>(
    rt: &R,
    alloc: Global,
    lent: &Lent<'_, K, G>,
    all: Vec<Seats<K>>,
) -> Result<Vec<ThreadResult<K>>, StartFault>
    requires begun { (i : ℕ) (d : _) → i < vec_len all
        → HasBegun K.script lent.now.objects.now lent.now.plan.now.processors i (slice_index_or all.items i d) }
    ensures len { IfOk result (λ v. vec_len v ≡ vec_len all) }
    ensures returned { IfOk result (λ v. (i : ℕ) (d : _) → i < vec_len v
        → HasReturned K.script lent.now.objects.now lent.now.plan.now.processors (G.refuses lent.now.gate.now)
        (G.answers lent.now.gate.now) i (slice_index_or v.items i d)) }
{
    thread::scope(
        thread::scope_env(),
        rt,
        move |scope| -> Result<Vec<ThreadResult<K>>, StartFault>
            requires begun { (i : ℕ) (d : _) → i < vec_len all
                → HasBegun K.script lent.now.objects.now lent.now.plan.now.processors i
                (slice_index_or all.items i d) }
            ensures len { IfOk result (λ v. vec_len v ≡ vec_len all) }
            ensures returned { IfOk result (λ v. (i : ℕ) (d : _) → i < vec_len v
                → HasReturned K.script lent.entry.now.objects.now lent.entry.now.plan.now.processors
                (G.refuses lent.entry.now.gate.now) (G.answers lent.entry.now.gate.now) i
                (slice_index_or v.items i d)) }
        {
            let objects = lent.objects;
            let Ok(mut handles) = Vec::with_capacity(alloc, all.len()) else {
                drop(all);
                return Err(StartFault::Memory);
            };
            for seats in all {
                let number = handles.len() as u64;
                let promise = ThreadPromise { lent, number };
                let begun = scope.spawn_with(promise, move || run_thread(rt, lent, number, seats));
                if let Err(fault) = keep(&mut handles, begun) {
                    objects.alarm.ring();
                    drop(handles);
                    return Err(fault);
                }
            }
            let Ok(results) = thread::join_promised(rt, handles) else {
                objects.alarm.ring();
                return Err(StartFault::Memory);
            };
            Ok(results)
        },
    )
}
