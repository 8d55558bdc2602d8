//! A log, or a trace in memory, judged as one of a text.

ghost use Rattle.std.specs.Prelude.{◌≡◌, ◌≢◌, ◌<◌, false, map};
ghost use Rattle.std.specs.Prelude.{[], Err, IfErr, IfOk, OnOk, ◌++◌};
ghost use Rattle.id_build.specs.Own.{IsOwn};
ghost use Rattle.id_print.specs.Reports.{report_text};
ghost use Rattle.id_sink.specs.Told.{Prints};
ghost use Rattle.id_log.specs.Logs.{Hears};
ghost use Rattle.id_judge.specs.Judging.{HasRead, IsReady, JudgesOn};
ghost use Rattle.id_judge.specs.Lines.{IsLineVerdict};
ghost use Rattle.id_compile.specs.Refusals.{IsInsideOf, IsRefusedRun, IsTakenRun};
ghost use Rattle.id_engine.specs.Commands.{ShowsAll, ShowsFront};
ghost use Rattle.id_engine.specs.Commands as command;
ghost use Rattle.id_engine.specs.Judged.{cause_text, legal_text, other_text};
ghost use Rattle.id_engine.specs.Judgements.{IsPrintedSo, PrintsJudged, PrintsLegal};
ghost use Rattle.id_engine.specs.Listening.{IsInsideFor, IsUnheard, IsUnjudged, Listens, refused_so};
ghost use Rattle.id_engine.specs.Reports.{AreAllowed, IsUnallowed};
ghost use Rattle.id_engine.specs.Runs.{keeps_for};

use crate::run::{Asked, status_of};
use id_compile::{EngineError, Prepared, prepare};
use id_core::{Machine, MachineError};
use id_judge::{Cause, Judge, Verdict, hear};
use id_log::{InMemory, Log, LogFault};
use id_print::{PrintError, Report, Sink, put, run_report, write_report};
use id_sink::put_long;
use std::alloc::Global;

/// The status where a trace is none of a run.
const NO_RUN: u8 = 6;

/// Why a log was not judged.
#[derive(Drop)]
pub enum Unjudged {
    /// The program is refused, or what was to be printed of it.
    Refused(EngineError),
    /// The log broke off.
    Broken(LogFault),
}

/// What is said of a cause.
fn cause_bytes(cause: Cause) -> &'static [u8]
    ensures { result.now ≡ cause_text cause }
{
    match cause {
        Cause::NotInFlight => b"no such message is in flight",
        Cause::OtherElement => b"its message is for another element",
        Cause::NoStamp => b"no stamp is left for its message",
        Cause::OtherStamp => b"its stamp is not the next",
        Cause::OtherOutcome => b"the element makes another event of its message",
        Cause::NoLine => b"this is no line of an event",
    }
}

/// Writes that a trace is one of a run, with the number of its events.
fn put_legal<W: Sink>(sink: &mut W, events: usize) -> Result<(), PrintError>
    ensures { Prints (W.told sink.old) (W.told sink.new) (legal_text events) result }
{
    put(sink, b"legal ")?;
    put_long(sink, events as u64)?;
    put(sink, b"\n")
}

/// Writes that the event at this position, from 0, can't follow, and why.
fn put_other<W: Sink>(sink: &mut W, position: usize, why: &[u8]) -> Result<(), PrintError>
    requires { position < 18446744073709551615 }
    ensures { Prints (W.told sink.old) (W.told sink.new) (other_text position why.now) result }
{
    put(sink, b"event ")?;
    put_long(sink, position as u64 + 1)?;
    put(sink, b": ")?;
    put(sink, why)?;
    put(sink, b"\n")
}

/// What writing an output whose status is this came to.
fn printed(written: Result<(), PrintError>, status: u8) -> Result<u8, EngineError>
    ensures { IsPrintedSo written status result }
{
    match written {
        Ok(()) => Ok(status),
        Err(_) => Err(EngineError::Write),
    }
}

/// Writes that a trace is one of a run, with the number of its events, and then the report.
fn write_legal<W: Sink>(
    events: usize,
    report: &Report,
    prepared: &Prepared<'_>,
    names: bool,
    out: &mut W,
) -> Result<(), PrintError>
    ensures { Prints (W.told out.old) (W.told out.new)
        (legal_text events ++ report_text prepared.now.compiled.text names report.now) result }
{
    put_legal(out, events)?;
    write_report(report, prepared.compiled.text(), names, out)
}

/// Writes that a trace is one of a run of so many events, which has come to this machine, and what that shows, and
/// answers the status.
fn print_shown<W: Sink>(
    alloc: Global,
    machine: &Machine<'_>,
    events: usize,
    prepared: &Prepared<'_>,
    names: bool,
    out: &mut W,
) -> Result<u8, EngineError>
    requires { machine.now.keeps ≡ keeps_for false names }
    ensures { PrintsLegal machine.now events prepared.now.compiled.text names (W.told out.old) (W.told out.new) result }
{
    match run_report(alloc, machine, names) {
        Ok(report) => {
            let written = write_legal(events, &report, prepared, names, out);
            printed(written, status_of(&report.ending))
        }
        Err(_) => Err(EngineError::Memory),
    }
}

/// The same, and lets the machine go. Before its report is made, the memory of what was in flight is given back.
fn print_machine<W: Sink>(
    alloc: Global,
    machine: Machine<'_>,
    events: usize,
    prepared: &Prepared<'_>,
    names: bool,
    out: &mut W,
) -> Result<u8, EngineError>
    requires { machine.keeps ≡ keeps_for false names }
    ensures { PrintsLegal machine.entry events prepared.now.compiled.text names (W.told out.old) (W.told out.new)
        result }
{
    let mut machine = machine;
    machine.give_back(alloc);
    print_shown(alloc, &machine, events, prepared, names, out)
}

/// Writes that the event at this position can't follow, and why, and answers the status. No number is left for an event
/// behind all that can be counted.
fn print_other<W: Sink>(position: usize, cause: Cause, out: &mut W) -> Result<u8, EngineError>
    ensures { PrintsJudged (other_text position (cause_text cause)) 6 (W.told out.old) (W.told out.new) result }
{
    if position == usize::MAX {
        return Err(EngineError::Memory);
    }
    let why = cause_bytes(cause);
    let written = put_other(out, position, why);
    printed(written, NO_RUN)
}

/// A judge of traces of a compiled program with its inputs, which has read nothing.
fn start_judge<'a>(
    alloc: Global,
    prepared: &'a Prepared<'_>,
    count: u32,
    names: bool,
) -> Result<Judge<'a>, EngineError>
    ensures own { IsOwn prepared.now.compiled.checked prepared.now.compiled.graph }
    ensures ready { IfOk result IsReady }
    ensures judges { IfOk result (JudgesOn prepared.now.compiled.graph count (keeps_for false names)) }
    ensures read { IfOk result (HasRead prepared.now.inputs.values []) }
    ensures allowed { OnOk result (AreAllowed count 1) }
    ensures refused { IfErr result (IsUnallowed count 1) }
{
    id_laws::inputs_fit();
    let keeps = Asked {
        names,
        trace: false,
    }
    .keeps();
    let graph = prepared.compiled.valid();
    match Judge::new(alloc, graph, &prepared.inputs, count, keeps) {
        Ok(judge) => Ok(judge),
        Err(MachineError::BadElements) => Err(EngineError::BadElements),
        Err(MachineError::Memory) => Err(EngineError::Memory),
    }
}

/// What the judge says of a log, as of the trace of a run of a compiled program with its inputs.
fn verdict_of<'a, L: Log>(
    alloc: Global,
    prepared: &'a Prepared<'_>,
    log: &mut L,
    count: u32,
    names: bool,
) -> Result<Verdict<'a>, Unjudged>
    ensures own { IsOwn prepared.now.compiled.checked prepared.now.compiled.graph }
    ensures verdict { IfOk result (λ v. Hears (L.ahead log.old) (λ trace. IsLineVerdict prepared.now.compiled.graph
        prepared.now.inputs.values count (keeps_for false names) trace v)) }
    ensures allowed { OnOk result (AreAllowed count 1) }
    ensures refused { IfErr result (IsUnheard (L.ahead log.old) count) }
{
    match start_judge(alloc, prepared, count, names) {
        Ok(judge) => match hear(alloc, judge, log) {
            Ok(verdict) => Ok(verdict),
            Err(fault) => Err(Unjudged::Broken(fault)),
        },
        Err(error) => Err(Unjudged::Refused(error)),
    }
}

/// The status that was answered, or why there is none.
fn refused(answer: Result<u8, EngineError>) -> Result<u8, Unjudged>
    ensures { result ≡ refused_so answer }
{
    match answer {
        Ok(status) => Ok(status),
        Err(error) => Err(Unjudged::Refused(error)),
    }
}

/// Judges a log as the trace of a run of a compiled program with its inputs, and writes what comes of that.
fn judge_prepared<L: Log, W: Sink>(
    alloc: Global,
    prepared: &Prepared<'_>,
    log: &mut L,
    count: u32,
    names: bool,
    out: &mut W,
) -> Result<u8, Unjudged>
    ensures { Listens prepared.now.compiled.checked prepared.now.inputs.values prepared.now.compiled.text
        (L.ahead log.old) count names (W.told out.old) (W.told out.new) result }
{
    id_laws::sound();
    id_laws::complete();
    id_laws::legal_lists();
    match verdict_of(alloc, prepared, log, count, names) {
        Ok(Verdict::Legal(machine, events)) => refused(print_machine(
            alloc, machine, events, prepared, names, out,
        )),
        Ok(Verdict::CannotFollow(position, cause)) => refused(print_other(position, cause, out)),
        Err(error) => Err(error),
    }
}

/// Compiles a text, judges whether what a log has is the trace of a run of it on the inputs that the words give, on so
/// many elements, and writes what `idc judge` prints: that it is, and the report of that run, with what names have
/// where `names` asks for it; or which event is the first that can't follow, and why. It answers the status: that of
/// the report, 0 where the run is quiet, 1 where it has a fault, 3 where messages are left; and 6 where there is no
/// such run. The log is read as it comes, and no line of it is kept: a line from which on there is no run is told when
/// it is there, and nothing behind it is read.
pub fn judge_log<L: Log, W: Sink>(
    alloc: Global,
    text: &str,
    log: &mut L,
    inputs: &[&str],
    count: u32,
    names: bool,
    out: &mut W,
) -> Result<u8, Unjudged>
    // What is printed is what the judge says of all that the log has, and of a run what it shows; the source's
    // equations give it.
    ensures shown { IfOk result (λ status. Hears (L.ahead log.old)
        (λ trace. ShowsAll (command.Judge names (map (λ w. w.now) inputs.now) count trace) text.now (W.told out.old)
        (W.told out.new) status)) }

    // After a failed write a front of such a text is out, and after any other error nothing.
    ensures cut { result ≡ Err (Unjudged.Refused EngineError.Write) → Hears (L.ahead log.old)
        (λ trace. ShowsFront (command.Judge names (map (λ w. w.now) inputs.now) count trace) text.now (W.told out.old)
        (W.told out.new)) }
    ensures silent { IfErr result
        (λ e. e ≢ Unjudged.Refused EngineError.Write → W.told out.new ≡ W.told out.old) }

    // A refusal comes for its cause alone, at a place of the text: as that of a run of one step, or of the log's.
    ensures taken { OnOk result (IsTakenRun text.now (map (λ w. w.now) inputs.now) count 1) }
    ensures refused { IfErr result (IsUnjudged (L.ahead log.old) text.now (map (λ w. w.now) inputs.now) count) }
    ensures inside { IfErr result (IsInsideFor text.now) }
{
    match prepare(alloc, text, inputs) {
        Ok(prepared) => judge_prepared(alloc, &prepared, log, count, names, out),
        Err(error) => Err(Unjudged::Refused(error)),
    }
}

/// The same of bytes in memory.
pub fn judge_text<W: Sink>(
    alloc: Global,
    text: &str,
    trace: &[u8],
    inputs: &[&str],
    count: u32,
    names: bool,
    out: &mut W,
) -> Result<u8, EngineError>
    // What is printed is what the judge says of the bytes, and of a run what it shows; the source's equations give it.
    ensures shown { IfOk result
        (ShowsAll (command.Judge names (map (λ w. w.now) inputs.now) count trace.now) text.now (W.told out.old)
        (W.told out.new)) }

    // After a failed write a front of such a text is out, and after any other error nothing.
    ensures cut { result ≡ Err EngineError.Write
        → ShowsFront (command.Judge names (map (λ w. w.now) inputs.now) count trace.now) text.now (W.told out.old)
        (W.told out.new) }
    ensures silent { IfErr result (λ e. e ≢ EngineError.Write → W.told out.new ≡ W.told out.old) }

    // A refusal comes for its cause alone, at a place of the text: as that of a run of one step.
    ensures taken { OnOk result (IsTakenRun text.now (map (λ w. w.now) inputs.now) count 1) }
    ensures refused { IfErr result (IsRefusedRun text.now (map (λ w. w.now) inputs.now) count 1) }
    ensures inside { IfErr result (IsInsideOf text.now) }
{
    let mut log = InMemory { bytes: trace };
    match judge_log(alloc, text, &mut log, inputs, count, names, out) {
        Ok(status) => Ok(status),
        Err(Unjudged::Refused(error)) => Err(error),
        // bytes in memory end as they are
        Err(Unjudged::Broken(_)) => Err(EngineError::Memory),
    }
}
