//! A text, compiled, run and printed.

ghost use Rattle.std.specs.Prelude.{◌≡◌, ◌≢◌, ◌++◌, map};
ghost use Rattle.std.specs.Prelude.{IfErr, IfOk, IsTrue, None, OnOk};
ghost use Rattle.id_record.specs.declared.kept.Keeps.TheVariants as keeps;
ghost use Rattle.id_build.specs.Own.{IsOwn};
ghost use Rattle.id_print.specs.Reports.{report_text};
ghost use Rattle.id_sink.specs.Told.{Prints};
ghost use Rattle.id_trace.specs.Traces.{trace_text};
ghost use Rattle.id_print.specs.RunReports.{IsReportFrom};
ghost use Rattle.id_elements.specs.Runs.{IsByPositions, IsRun, MovesOn};
ghost use Rattle.id_engine.specs.Commands.{ShowsAll, ShowsFront};
ghost use Rattle.id_engine.specs.Commands as command;
ghost use Rattle.id_compile.specs.Refusals.{IsInsideOf, IsRefusedRun, IsTakenRun};
ghost use Rattle.id_engine.specs.Reports.{AreAllowed, IsUnallowed};
ghost use Rattle.id_engine.specs.Reports.{PrintsEvents, PrintsMachine, PrintsRun, RunsSo, status_of};
ghost use Rattle.id_engine.specs.Runs.{IsTraceOf, Ran, RanFront, keeps_for};

use id_compile::{EngineError, Prepared, prepare};
use id_core::{Gate, Keeps, Merged, merge_records};
use id_elements::{Run, RunError, Settings};
use id_print::{Ending, PrintError, Report, Sink, report, write_report};
use id_trace::write_trace;
use id_valid::Valid;
use std::alloc::{AllocError, Global};
use std::sync::Wait;
use std::thread::Threads;

/// What is asked for of a run beside its report: the value of each name, and all events.
#[derive(Clone, Copy)]
pub(crate) struct Asked {
    pub names: bool,
    pub trace: bool,
}

impl Asked {
    /// As much as is kept of the events of a run of which this is asked for.
    pub(crate) fn keeps(self) -> Keeps
        ensures { result ≡ keeps_for self.trace self.names }
    {
        if self.trace {
            Keeps::All
        } else if self.names {
            Keeps::Names
        } else {
            Keeps::Tellings
        }
    }
}

/// The report of a run of the graph, with what names have where that is asked for. Before it is made, the memory of the
/// run is given back.
fn report_of(
    alloc: Global,
    run: &mut Run<'_>,
    graph: &Valid,
    named: bool,
) -> Result<Report, EngineError>
    requires graph { run.old.graph ≡ graph.now }
    requires kept { IsTrue named → run.old.keeps ≢ keeps.Tellings }
    ensures same { run.new ≡ run.old }
    ensures report { IfOk result (IsReportFrom run.new named) }
    ensures memory { IfErr result (λ e. e ≡ EngineError.Memory) }
{
    run.give_back(alloc);
    match report(alloc, run, graph, named) {
        Ok(report) => Ok(report),
        Err(_) => Err(EngineError::Memory),
    }
}

/// All events of a run, by stamp, and at one stamp by element, where they are asked for, and else none.
fn trace_of<'a>(alloc: Global, run: &'a Run<'_>, trace: bool) -> Result<Merged<'a>, AllocError>
    requires { IsTrue trace → run.now.keeps ≡ keeps.All }
    ensures { IfOk result (IsTraceOf trace run.now.world) }
{
    if trace {
        run.order(alloc)
    } else {
        merge_records(alloc, &[])
    }
}

/// Writes the line of each event, and then the report.
fn write_run<W: Sink>(
    events: &Merged<'_>,
    report: &Report,
    prepared: &Prepared<'_>,
    names: bool,
    out: &mut W,
) -> Result<(), PrintError>
    ensures { Prints (W.told out.old) (W.told out.new)
        (trace_text events.now ++ report_text prepared.now.compiled.text names report.now) result }
{
    write_trace(events, out)?;
    write_report(report, prepared.compiled.text(), names, out)
}

/// Writes the line of each event, and then the report, and answers the status. The events are let go.
fn print_events<W: Sink>(
    events: Merged<'_>,
    report: &Report,
    prepared: &Prepared<'_>,
    names: bool,
    out: &mut W,
) -> Result<u8, EngineError>
    ensures { PrintsEvents prepared.now.compiled.text names events.entry report.now (W.told out.old) (W.told out.new)
        result }
{
    match write_run(&events, report, prepared, names, out) {
        Ok(()) => Ok(status_of(&report.ending)),
        Err(_) => Err(EngineError::Write),
    }
}

/// Writes the trace of a run, where it is asked for, and the report, and answers the status. All that is written is
/// made before the first byte.
fn print_run<W: Sink>(
    alloc: Global,
    run: &Run<'_>,
    report: &Report,
    prepared: &Prepared<'_>,
    asked: Asked,
    out: &mut W,
) -> Result<u8, EngineError>
    requires { IsTrue asked.trace → run.now.keeps ≡ keeps.All }
    ensures { PrintsRun prepared.now.compiled.text asked.trace asked.names run.now.world report.now (W.told out.old)
        (W.told out.new) result }
{
    match trace_of(alloc, run, asked.trace) {
        Ok(events) => print_events(events, report, prepared, asked.names, out),
        Err(_) => Err(EngineError::Memory),
    }
}

/// Writes what is asked for of a run of the graph.
fn print_ended<W: Sink>(
    alloc: Global,
    run: &mut Run<'_>,
    prepared: &Prepared<'_>,
    asked: Asked,
    out: &mut W,
) -> Result<u8, EngineError>
    requires graph { run.old.graph ≡ prepared.now.compiled.graph }
    requires kept { run.old.keeps ≡ keeps_for asked.trace asked.names }
    ensures { PrintsMachine run.old prepared.now.compiled.text asked.trace asked.names (W.told out.old)
        (W.told out.new) result }
{
    match report_of(alloc, run, prepared.compiled.valid(), asked.names) {
        Ok(report) => print_run(alloc, run, &report, prepared, asked, out),
        Err(error) => Err(error),
    }
}

/// The run of a compiled program with its inputs. No run of such a graph is `Stuck`.
fn run_for<'a, R: Threads + Wait + Sync, G: Gate + Sync>(
    rt: &R,
    alloc: Global,
    prepared: &'a Prepared<'_>,
    settings: Settings,
    gate: &G,
) -> Result<Run<'a>, EngineError>
    ensures own { IsOwn prepared.now.compiled.checked prepared.now.compiled.graph }
    ensures run { IfOk result (IsRun prepared.now.compiled.graph prepared.now.inputs.values settings.elements
        settings.steps) }
    ensures kept { IfOk result (λ r. r.keeps ≡ settings.keeps) }
    ensures moves { IfOk result (λ r. MovesOn r.world) }
    ensures positions { IfOk result (λ r. settings.order ≢ None → IsByPositions prepared.now.compiled.graph
        prepared.now.inputs.values settings.elements r.world) }
    ensures allowed { OnOk result (AreAllowed settings.elements settings.steps) }
    ensures refused { IfErr result (IsUnallowed settings.elements settings.steps) }
{
    id_laws::inputs_fit();
    id_laws::never_stuck();
    match id_elements::run(
        rt,
        alloc,
        prepared.compiled.valid(),
        &prepared.inputs,
        settings,
        gate,
    ) {
        Ok(run) => Ok(run),
        Err(RunError::BadElements) => Err(EngineError::BadElements),
        Err(RunError::BadSteps) => Err(EngineError::BadSteps),
        Err(RunError::Stuck) => unreachable!(),
        Err(RunError::Memory) => Err(EngineError::Memory),
    }
}

/// Runs a compiled program with its inputs, where so many elements and so many steps are allowed, and writes what is
/// asked for.
fn run_prepared<R: Threads + Wait + Sync, G: Gate + Sync, W: Sink>(
    rt: &R,
    alloc: Global,
    prepared: &Prepared<'_>,
    settings: Settings,
    asked: Asked,
    gate: &G,
    out: &mut W,
) -> Result<u8, EngineError>
    ensures { RunsSo prepared.now.compiled.checked prepared.now.inputs.values prepared.now.compiled.text
        settings.elements asked.trace settings.steps settings.order asked.names (W.told out.old) (W.told out.new)
        result }
{
    id_laws::sound();
    id_laws::complete();
    let kept = Settings {
        keeps: asked.keeps(),
        ..settings
    };
    match run_for(rt, alloc, prepared, kept, gate) {
        Ok(run) => {
            let mut run = run;
            print_ended(alloc, &mut run, prepared, asked, out)
        }
        Err(error) => Err(error),
    }
}

/// The status of a run that ended so.
pub(crate) fn status_of(ending: &Ending) -> u8
    ensures { result ≡ status_of ending.now }
{
    match ending {
        Ending::Quiet => 0,
        Ending::Fault(_) => 1,
        Ending::Stopped => 3,
    }
}

/// Compiles a text, runs it on the inputs that the words give, on `settings.elements` elements, each worked by a thread
/// of its own and each for at most `settings.steps` messages, and writes what `idc run` prints: all events where
/// `trace` asks for them, and then the report, with what names have where `names` asks for it. The gate may hold each
/// handling of a message for as long as it likes; no clause says that it is asked to. Where `settings.order` is a seed,
/// the calling thread delivers the messages in the order that it gives, and no gate holds it. Of events no more is kept
/// than what is asked for needs, whatever `settings.keeps` says. It answers the status: 0 after a quiet run, 1 after a
/// fault, 3 at the step limit.
pub fn engine<R: Threads + Wait + Sync, G: Gate + Sync, W: Sink>(
    rt: &R,
    alloc: Global,
    text: &str,
    inputs: &[&str],
    settings: Settings,
    names: bool,
    trace: bool,
    gate: &G,
    out: &mut W,
) -> Result<u8, EngineError>
    // What is printed is what a run of the text's program on its inputs shows, and the source's equations give it.
    ensures shown { IfOk result
        (ShowsAll (command.Run names trace (map (λ w. w.now) inputs.now)) text.now (W.told out.old) (W.told out.new)) }

    // It is a run, that has come to its end: its events are a legal list, and each message left is held back, or there
    // was a fault. Where a seed gives its order, it is one by positions.
    ensures ran { IfOk result
        (Ran text.now (map (λ w. w.now) inputs.now) settings.elements trace settings.steps settings.order names
        (W.told out.old) (W.told out.new)) }

    // After a failed write a front of such a text is out, that of a run, and after any other error nothing.
    ensures cut { result ≡ Err EngineError.Write
        → ShowsFront (command.Run names trace (map (λ w. w.now) inputs.now)) text.now (W.told out.old)
        (W.told out.new) }
    ensures front { result ≡ Err EngineError.Write
        → RanFront text.now (map (λ w. w.now) inputs.now) settings.elements trace settings.steps settings.order
        names (W.told out.old) (W.told out.new) }
    ensures silent { IfErr result (λ e. e ≢ EngineError.Write → W.told out.new ≡ W.told out.old) }

    // A refusal comes for its cause alone, at a place of the text.
    ensures taken { OnOk result
        (IsTakenRun text.now (map (λ w. w.now) inputs.now) settings.elements settings.steps) }
    ensures refused { IfErr result
        (IsRefusedRun text.now (map (λ w. w.now) inputs.now) settings.elements settings.steps) }
    ensures inside { IfErr result (IsInsideOf text.now) }
{
    match prepare(alloc, text, inputs) {
        Ok(prepared) => {
            let asked = Asked { names, trace };
            run_prepared(rt, alloc, &prepared, settings, asked, gate, out)
        }
        Err(error) => Err(error),
    }
}
