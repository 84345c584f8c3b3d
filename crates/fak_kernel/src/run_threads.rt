//! Runs on several processors, a thread for each.

ghost use Rattle.std.specs.Prelude.{◌≡◌, ◌<◌, ℕ, Err, true, vec_len, slice_index_or, IfOk, IfErr};
ghost use Rattle.fak_processor.specs.Opened.{AreProcessors};
ghost use Rattle.fak_run.specs.Report.{ListSchedulerReports};
ghost use Rattle.fak_run.specs.ReportText.{ListSchedulerPrints, RunPrints};
ghost use Rattle.fak_run.specs.RunReports.{RunReports};
ghost use Rattle.fak_processor.specs.Processors.{ProcessorOf};
ghost use Rattle.fak_kernel.specs.Threads.{HasBegun, HasLeft, IsOfRun, OneIsRefused};
ghost use Rattle.fak_run.specs.Told.{told_report};
ghost use Rattle.fak_run.specs.Views.{report_of};

mod collecting;
mod threads;

use crate::ending::report_of_run;
use crate::fault::RunFault;
use collecting::all_left;
use fak_processor::{LoopFault, Plan, Seats};
use fak_run::{Fault, Gate, Printed, Report, Run, print_brief, told_in_full};
use fak_text::Script;
use std::alloc::Global;
use std::marker::{Brand, Send, Sync};
use std::sync::Wait;
use std::thread::Threads;
use threads::{Lent, run_all_threads};

/// The most processors of a run.
pub const MOST_PROCESSORS: u64 = 8;

/// Runs a script on 1 to 8 processors, each in a thread of its own. A processor passes the gate before each look at
/// the ready queue. On one processor the report is the list scheduler's.
///
/// # Errors
///
/// `BadProcessors` before anything else, for any other number. `NoThread` if the system gave no thread, whatever the
/// processors met; otherwise the fault of the lowest-numbered processor that met one. `Gate`, only if the gate may refuse,
/// and refused a look of one of the processors after it let the looks of that processor before it pass.
pub fn run<G: Gate + Sync>(
    rt: &(impl Threads + Wait + Sync),
    alloc: Global,
    script: &Script,
    processors: u64,
    gate: &G,
) -> Result<Report, Fault>
    ensures report { IfOk result (λ report. RunReports script.now (report_of report)) }
    ensures one { processors ≡ 1 → IfOk result (λ report. ListSchedulerReports script.now (report_of report)) }
    ensures outside { (AreProcessors processors → ⊥) → result ≡ Err Fault.BadProcessors }
    ensures fault { AreProcessors processors → IfErr result (λ fault. IsOfRun (G.refuses gate.now) fault) }
    ensures refused { IfErr result (λ fault. fault ≡ Fault.Gate → OneIsRefused processors (G.answers gate.now)) }
{
    let brief = run_briefly(rt, alloc, script, processors, gate)?;
    told_in_full(alloc, script, brief)
}

/// Runs a script as `run` does. Returns the report as text, without building a `Report`.
///
/// # Errors
///
/// Those of `run`.
pub fn run_to_text<G: Gate + Sync>(
    rt: &(impl Threads + Wait + Sync),
    alloc: Global,
    script: &Script,
    processors: u64,
    gate: &G,
) -> Result<Printed, Fault>
    ensures report { IfOk result (λ printed. RunPrints script.now printed.text.items printed.status) }
    ensures one { processors ≡ 1 → IfOk result (λ printed. ListSchedulerPrints script.now printed.text.items
        printed.status) }
    ensures outside { (AreProcessors processors → ⊥) → result ≡ Err Fault.BadProcessors }
    ensures fault { AreProcessors processors → IfErr result (λ fault. IsOfRun (G.refuses gate.now) fault) }
    ensures refused { IfErr result (λ fault. fault ≡ Fault.Gate → OneIsRefused processors (G.answers gate.now)) }
{
    let brief = run_briefly(rt, alloc, script, processors, gate)?;
    print_brief(alloc, script, &brief)
}

/// The report, without its said texts.
fn run_briefly<G: Gate + Sync, R: Threads + Wait + Sync>(
    rt: &R,
    alloc: Global,
    script: &Script,
    processors: u64,
    gate: &G,
) -> Result<Report, Fault>
    ensures report { IfOk result (λ brief. RunReports script.now (told_report script.now (report_of brief))) }
    ensures one { processors ≡ 1 → IfOk result (λ brief. ListSchedulerReports script.now
        (told_report script.now (report_of brief))) }
    ensures outside { (AreProcessors processors → ⊥) → result ≡ Err Fault.BadProcessors }
    ensures fault { AreProcessors processors → IfErr result (λ fault. IsOfRun (G.refuses gate.now) fault) }
    ensures refused { IfErr result (λ fault. fault ≡ Fault.Gate → OneIsRefused processors (G.answers gate.now)) }
{
    if processors < 1 || processors > MOST_PROCESSORS {
        return Err(Fault::BadProcessors);
    }
    Ok(run_as::<Brand, G, R>(rt, alloc, script, processors, gate)?)
}

/// The same, if the number of processors is in range.
fn run_as<K: Run + Send + Sync, G: Gate + Sync, R: Threads + Wait + Sync>(
    rt: &R,
    alloc: Global,
    script: &Script,
    processors: u64,
    gate: &G,
) -> Result<Report, RunFault>
    requires script { script.now ≡ K.script }
    requires processors { AreProcessors processors }
    ensures report { IfOk result (λ report. RunReports K.script (told_report K.script (report_of report))) }
    ensures alone { processors ≡ 1 → IfOk result (λ report. ListSchedulerReports K.script
        (told_report K.script (report_of report))) }
    ensures refused { IfErr result (λ fault. fault ≡ RunFault.Loop LoopFault.Gate
        → (G.refuses gate.now ≡ true) × OneIsRefused processors (G.answers gate.now)) }
{
    let plan: Plan<'_, K> = Plan::new(alloc, script, processors);
    let opened = plan.open(rt)?;
    let objects = opened.objects;
    let all = opened.processors;
    let lent = Lent {
        plan: &plan,
        objects: &objects,
        gate,
    };
    match work_all(rt, alloc, &lent, all) {
        Ok(left) => Ok(report_of_run(&plan, objects, left)?),
        Err(fault) => {
            drop(objects);
            Err(fault)
        }
    }
}

/// All processors work, each in a thread of its own, until the run is over. Returns the seats of all, in the order of
/// their numbers.
fn work_all<K: Run + Send + Sync, G: Gate + Sync, R: Threads + Wait + Sync>(
    rt: &R,
    alloc: Global,
    lent: &Lent<'_, K, G>,
    all: Vec<Seats<K>>,
) -> Result<Vec<Seats<K>>, RunFault>
    requires len { vec_len all ≡ lent.now.plan.now.processors }
    requires begun { (i : ℕ) (d : _) → i < vec_len all
        → HasBegun K.script lent.now.objects.now lent.now.plan.now.processors i (slice_index_or all.items i d) }
    ensures len { IfOk result (λ left. vec_len left ≡ vec_len all) }
    ensures left { IfOk result (λ left. (i : ℕ) (d : ProcessorOf) → i < vec_len left
        → HasLeft K.script lent.now.objects.now lent.now.plan.now.processors i (slice_index_or left.items i d)) }
    ensures refused { IfErr result (λ fault. fault ≡ RunFault.Loop LoopFault.Gate
        → (G.refuses lent.now.gate.now ≡ true)
        × OneIsRefused lent.now.plan.now.processors (G.answers lent.now.gate.now)) }
{
    let results = run_all_threads(rt, alloc, lent, all)?;
    match all_left(alloc, results) {
        Ok(left) => Ok(left),
        Err(fault) => Err(RunFault::Loop(fault)),
    }
}
