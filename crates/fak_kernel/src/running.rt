//! Runs of scripts on one processor.

ghost use Rattle.std.specs.Prelude.{◌≡◌, ◌<◌, vec_len, slice_index_or, IfOk, IfErr};
ghost use Rattle.fak_processor.specs.Faults.{IsOfStep};
ghost use Rattle.fak_processor.specs.Opened.{AreSeated};
ghost use Rattle.fak_processor.specs.Processors.{ProcessorOf};
ghost use Rattle.fak_run.specs.Report.{ListSchedulerReports};
ghost use Rattle.fak_run.specs.ReportText.{ListSchedulerPrints, RunPrints};
ghost use Rattle.fak_run.specs.RunReports.{RunReports};
ghost use Rattle.fak_kernel.specs.Threads.{HasBegun, HasLeft};
ghost use Rattle.fak_run.specs.Told.{told_report};
ghost use Rattle.fak_run.specs.Views.{report_of};

use crate::ending::report_of_run;
use fak_processor::{LoopFault, Objects, Plan, Processor, Seats, StepFault};
use fak_run::{Fault, FreeGate, Printed, Report, Run, print_brief, told_in_full};
use fak_text::Script;
use std::alloc::Global;
use std::marker::Brand;
use std::sync::Wait;

/// Runs a script on one processor. The report is the list scheduler's.
///
/// # Errors
///
/// `Worn`, if the script's stint is used up, and `Memory`.
pub fn run_one(rt: &impl Wait, alloc: Global, script: &Script) -> Result<Report, Fault>
    ensures report { IfOk result (λ report. ListSchedulerReports script.now (report_of report)) }
    ensures conserved { IfOk result (λ report. RunReports script.now (report_of report)) }
    ensures fault { IfErr result (λ fault. IsOfStep fault) }
{
    let brief = run_alone::<Brand, _>(rt, alloc, script)?;
    told_in_full(alloc, script, brief)
}

/// Runs a script on one processor. Returns the report as text, without building a `Report`.
///
/// # Errors
///
/// `Worn`, if the script's stint is used up, and `Memory`.
pub fn run_one_to_text(rt: &impl Wait, alloc: Global, script: &Script) -> Result<Printed, Fault>
    ensures report { IfOk result (λ printed. ListSchedulerPrints script.now printed.text.items printed.status) }
    ensures conserved { IfOk result (λ printed. RunPrints script.now printed.text.items printed.status) }
    ensures fault { IfErr result (λ fault. IsOfStep fault) }
{
    let brief = run_alone::<Brand, _>(rt, alloc, script)?;
    print_brief(alloc, script, &brief)
}

/// The report, without its said texts.
fn run_alone<K: Run, R: Wait>(rt: &R, alloc: Global, script: &Script) -> Result<Report, StepFault>
    requires { script.now ≡ K.script }
    ensures report { IfOk result (λ report. ListSchedulerReports K.script (told_report K.script (report_of report))) }
    ensures conserved { IfOk result (λ report. RunReports K.script (told_report K.script (report_of report))) }
{
    let plan: Plan<'_, K> = Plan::new(alloc, script, 1);
    let opened = plan.open(rt)?;
    let objects = opened.objects;
    let only = opened.processors;
    match work_alone(rt, &plan, &objects, only) {
        Ok(left) => Ok(report_of_run(&plan, objects, left)?),
        Err(fault) => {
            drop(objects);
            Err(fault)
        }
    }
}

/// The only processor works until the run is over.
fn work_alone<K: Run, R: Wait>(
    rt: &R,
    plan: &Plan<'_, K>,
    objects: &Objects<K>,
    only: Vec<Seats<K>>,
) -> Result<Vec<Seats<K>>, StepFault>
    requires seated { AreSeated 1 objects.now }
    requires one { vec_len only ≡ 1 }
    requires begun { (d : ProcessorOf) → HasBegun K.script objects.now 1 0 (slice_index_or only.items 0 d) }
    ensures one { IfOk result (λ left. vec_len left ≡ 1) }
    ensures left { IfOk result (λ left. (d : ProcessorOf)
        → HasLeft K.script objects.now 1 0 (slice_index_or left.items 0 d)) }
{
    let mut only = only;
    let processor = Processor::new(objects, plan.script, plan.alloc, 0, only.remove(0));
    let (seats, done) = processor.work(rt, &FreeGate);
    match done {
        Ok(true) => {
            only.push(seats)?;
            Ok(only)
        }
        Ok(false) => unreachable!(),
        Err(LoopFault::Gate) => unreachable!(),
        Err(LoopFault::Step(fault)) => {
            drop(seats);
            drop(only);
            Err(fault)
        }
    }
}
