//! The whole program over any source of texts, any logs and any sinks.

ghost use Rattle.std.specs.Prelude.{◌≡◌, [], map, option_map, IfErr, IfOk, List, ℕ, Option, Result};
ghost use Rattle.id_engine.specs.Asked.{IsToJudge, PrintsAsked};
ghost use Rattle.id_compile.specs.Refusals.{IsInsideOf, IsPrintedLine, IsToldRefusal, plain, row_of};
ghost use Rattle.id_engine.specs.Served.{Answers, Drives, DrivesBy, HasHelped, Serves, file_of, log_fault, logs_of};
ghost use Rattle.id_engine.specs.Served.{words_of};
ghost use Rattle.id_log.specs.Logs.{Ahead, MayBreak};
ghost use Rattle.id_merge.specs.Merging.{logs_ahead};
ghost use Rattle.id_sink.specs.Reading.{IsToldText};
ghost use Rattle.id_sink.specs.declared.source.SourceFault.{SourceFault};

use crate::commands::{check_text, draw_text, facts_text, graph_text};
use crate::judge::{Unjudged, judge_log, judge_text};
use crate::run::engine;
use crate::why::reasons_text;
use id_args::{Request, Unasked};
use id_compile::{Cause, EngineError, Source, of_engine_error, of_source_fault, plain, refuse};
use id_core::{Gate, Keeps, Open};
use id_elements::Settings;
use id_log::{Log, LogFault, Logs};
use id_merge::open_merged;
use id_print::{Sink, put};
use id_sink::SourceFault;
use std::alloc::Global;
use std::sync::Wait;
use std::thread::Threads;

/// The status of a command line that is refused.
const BAD_WORDS: u8 = 4;

/// Refuses for a cause that has no place.
fn refuse_plainly<E: Sink>(cause: Cause, err: &mut E) -> u8
    ensures status { result ≡ (row_of cause).2 }
    ensures printed { IsPrintedLine [] (plain cause) (E.told err.old) (E.told err.new) }
{
    refuse(&plain(cause), "", err)
}

/// Prints the help.
fn help<O: Sink, E: Sink>(text: &str, out: &mut O, err: &mut E) -> u8
    ensures { HasHelped text.now (O.told out.old) (O.told out.new) (E.told err.old) (E.told err.new) result }
{
    match put(out, text.as_bytes()) {
        Ok(()) => 0,
        Err(_) => refuse_plainly(Cause::Write, err),
    }
}

/// Answers words that ask for nothing.
fn answer<O: Sink, E: Sink>(unasked: &Unasked, out: &mut O, err: &mut E) -> u8
    ensures { Answers (O.told out.old) (O.told out.new) (E.told err.old) (E.told err.new) unasked.now result }
{
    match unasked {
        Unasked::Memory => refuse_plainly(Cause::Memory, err),
        Unasked::Refused(text) => {
            let _ = put(err, text.as_str().as_bytes());
            BAD_WORDS
        }
        Unasked::Help(text) => help(text.as_str(), out, err),
    }
}

/// Prints what a request asks for of a text, and of a trace, and answers the status.
fn print_asked<R: Threads + Wait + Sync, G: Gate + Sync, O: Sink>(
    rt: &R,
    alloc: Global,
    request: &Request<'_>,
    text: &str,
    trace: &[u8],
    gate: &G,
    out: &mut O,
) -> Result<u8, EngineError>
    ensures { PrintsAsked text.now trace.now request.now (O.told out.old) (O.told out.new) result }
{
    match request {
        Request::Check { .. } => check_text(alloc, text, out),
        Request::Graph { .. } => graph_text(alloc, text, out),
        Request::Draw { .. } => draw_text(alloc, text, out),
        Request::Run {
            inputs,
            count,
            trace: events,
            steps,
            order,
            names,
            ..
        } => {
            let settings = Settings {
                elements: *count,
                steps: *steps,
                order: *order,
                keeps: Keeps::Tellings,
            };
            let words = inputs.as_slice();
            engine(rt, alloc, text, words, settings, *names, *events, gate, out)
        }
        Request::Facts { rounds, inputs, .. } => {
            facts_text(alloc, text, inputs.as_slice(), *rounds, out)
        }
        Request::Why { rounds, inputs, .. } => {
            reasons_text(alloc, text, inputs.as_slice(), *rounds, out)
        }
        Request::Judge {
            inputs,
            count,
            names,
            ..
        } => judge_text(alloc, text, trace, inputs.as_slice(), *count, *names, out),
    }
}

/// The words of a request's inputs.
fn words_of<'a>(request: &'a Request<'a>) -> &'a [&'a str]
    ensures { map (λ w. w.now) result.now ≡ words_of request.now }
{
    match request {
        Request::Run { inputs, .. }
        | Request::Facts { inputs, .. }
        | Request::Why { inputs, .. }
        | Request::Judge { inputs, .. } => inputs.as_slice(),
        Request::Check { .. } | Request::Graph { .. } | Request::Draw { .. } => &[],
    }
}

/// Writes the line for an error of a request on a text, and answers the status.
fn tell<E: Sink>(request: &Request<'_>, error: &EngineError, text: &str, err: &mut E) -> u8
    requires { IsInsideOf text.now error.now }
    ensures { IsToldRefusal text.now (words_of request.now) error.now (E.told err.old) (E.told err.new) result }
{
    refuse(&of_engine_error(words_of(request), error), text, err)
}

/// Does what a request asks for with a text, and with the bytes of the trace that it asks to judge, and answers the
/// status. A run's gate holds each handling of a message for as long as it likes.
pub fn serve<R: Threads + Wait + Sync, G: Gate + Sync, O: Sink, E: Sink>(
    rt: &R,
    alloc: Global,
    request: &Request<'_>,
    text: &str,
    trace: &[u8],
    gate: &G,
    out: &mut O,
    err: &mut E,
) -> u8
    ensures { Serves text.now trace.now request.now (O.told out.old) (O.told out.new) (E.told err.old)
        (E.told err.new) result }
{
    match print_asked(rt, alloc, request, text, trace, gate, out) {
        Ok(status) => status,
        Err(error) => tell(request, &error, text, err),
    }
}

/// The file that a request names.
fn file_of<'a>(request: &Request<'a>) -> &'a str
    ensures { result.now ≡ file_of request.now }
{
    match request {
        Request::Check { file }
        | Request::Graph { file }
        | Request::Draw { file }
        | Request::Run { file, .. }
        | Request::Facts { file, .. }
        | Request::Why { file, .. }
        | Request::Judge { file, .. } => file,
    }
}

/// The logs that a request asks to judge.
fn logs_of<'a>(request: &'a Request<'a>) -> Option<&'a [&'a str]>
    ensures { option_map (λ names. map (λ name. name.now) names.now) result ≡ logs_of request.now }
{
    match request {
        Request::Judge { logs, .. } => Some(logs.as_slice()),
        Request::Check { .. }
        | Request::Graph { .. }
        | Request::Draw { .. }
        | Request::Run { .. }
        | Request::Facts { .. }
        | Request::Why { .. } => None,
    }
}

/// Why there is no text where a log can't be read.
fn log_fault(fault: LogFault) -> SourceFault
    ensures { result ≡ log_fault fault }
{
    match fault {
        LogFault::File => SourceFault::File,
        LogFault::Memory => SourceFault::Memory,
    }
}

/// Judges a log as a request asks for, and answers the status.
fn judge_asked<L: Log, O: Sink, E: Sink>(
    alloc: Global,
    request: &Request<'_>,
    text: &str,
    log: &mut L,
    out: &mut O,
    err: &mut E,
) -> u8
    requires { IsToJudge request.now }
    ensures { DrivesBy text.now (L.ahead log.old) request.now (O.told out.old) (O.told out.new) (E.told err.old)
        (E.told err.new) result }
{
    match request {
        Request::Judge {
            inputs,
            count,
            names,
            ..
        } => match judge_log(alloc, text, log, inputs.as_slice(), *count, *names, out) {
            Ok(status) => status,
            Err(Unjudged::Refused(error)) => tell(request, &error, text, err),
            Err(Unjudged::Broken(fault)) => refuse_plainly(of_source_fault(log_fault(fault)), err),
        },
        _ => unreachable!(),
    }
}

/// Judges a log that was to be opened as a request asks for, and answers the status.
fn judge_opened<L: Log + Drop, O: Sink, E: Sink>(
    alloc: Global,
    request: &Request<'_>,
    text: &str,
    opened: Result<L, LogFault>,
    out: &mut O,
    err: &mut E,
) -> u8
    requires { IsToJudge request.now }
    ensures { (a : Option Ahead) → IfOk opened (λ log. L.ahead log ≡ a) → IfErr opened (MayBreak a)
        → DrivesBy text.now a request.now (O.told out.old) (O.told out.new) (E.told err.old) (E.told err.new) result }
{
    match opened {
        Ok(log) => {
            let mut log = log;
            judge_asked(alloc, request, text, &mut log, out, err)
        }
        Err(fault) => refuse_plainly(of_source_fault(log_fault(fault)), err),
    }
}

/// Judges the logs of these names as a request asks for, and answers the status.
fn judge_logs<T: Logs, O: Sink, E: Sink>(
    alloc: Global,
    request: &Request<'_>,
    text: &str,
    names: &[&str],
    logs: &mut T,
    out: &mut O,
    err: &mut E,
) -> u8
    requires { IsToJudge request.now }
    ensures { DrivesBy text.now (logs_ahead (T.told logs.old) (map (λ name. name.now) names.now)) request.now
        (O.told out.old) (O.told out.new) (E.told err.old) (E.told err.new) result }
{
    if names.len() == 1 {
        judge_opened(alloc, request, text, logs.open(alloc, names[0]), out, err)
    } else {
        judge_opened(
            alloc,
            request,
            text,
            open_merged(alloc, logs, names),
            out,
            err,
        )
    }
}

/// Serves a request with its text, and with the logs that it asks to judge, where it asks for that.
fn serve_text<R: Threads + Wait + Sync, T: Logs, O: Sink, E: Sink>(
    rt: &R,
    alloc: Global,
    request: &Request<'_>,
    text: &str,
    logs: &mut T,
    out: &mut O,
    err: &mut E,
) -> u8
    ensures { (told : Option (Result (List ℕ) SourceFault)) → IsToldText told text.now
        → Drives told (T.told logs.old) request.now (O.told out.old) (O.told out.new) (E.told err.old)
        (E.told err.new) result }
{
    match logs_of(request) {
        Some(names) => judge_logs(alloc, request, text, names, logs, out, err),
        None => serve(rt, alloc, request, text, &[], &Open, out, err),
    }
}

/// Reads the text of a request, and serves it.
fn serve_file<R: Threads + Wait + Sync, S: Source, T: Logs, O: Sink, E: Sink>(
    rt: &R,
    alloc: Global,
    request: &Request<'_>,
    source: &mut S,
    logs: &mut T,
    out: &mut O,
    err: &mut E,
) -> u8
    ensures { Drives (S.told source.old (file_of request.now)) (T.told logs.old) request.now (O.told out.old)
        (O.told out.new) (E.told err.old) (E.told err.new) result }
{
    match source.read(alloc, file_of(request)) {
        Ok(text) => serve_text(rt, alloc, request, text.as_str(), logs, out, err),
        Err(fault) => refuse_plainly(of_source_fault(fault), err),
    }
}

/// Does what words were read to ask for, or answers why they ask for nothing, and answers the status. It reads texts
/// from `source` and logs from `logs`, writes what was asked for to `out` and refusals to `err`.
pub fn drive_asked<R: Threads + Wait + Sync, S: Source, T: Logs, O: Sink, E: Sink>(
    rt: &R,
    alloc: Global,
    asked: &Result<Request<'_>, Unasked>,
    source: &mut S,
    logs: &mut T,
    out: &mut O,
    err: &mut E,
) -> u8
    ensures asked { IfOk asked.now
        (λ r. Drives (S.told source.old (file_of r)) (T.told logs.old) r (O.told out.old) (O.told out.new)
        (E.told err.old) (E.told err.new) result) }
    ensures unasked { IfErr asked.now
        (λ u. Answers (O.told out.old) (O.told out.new) (E.told err.old) (E.told err.new) u result) }
{
    match asked {
        Ok(request) => serve_file(rt, alloc, request, source, logs, out, err),
        Err(unasked) => answer(unasked, out, err),
    }
}
