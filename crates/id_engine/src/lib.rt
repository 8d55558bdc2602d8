//! Words, or a request on a text, to printed bytes and a status; a program with its inputs, run on worker threads; and
//! a trace, judged as one of a run of a program.
//!
//! Keeps: standard output has what was asked for or nothing, standard error one refusal. What is printed of a run is a
//! report of one that has come to its end, or a front of it.
//! Errors: `EngineError`.
//! Read first: `specs/Commands.antt`, `specs/Runs.antt`, then `engine`; `specs/Judged.antt`, then `judge_text`;
//! `specs/Served.antt`, then `serve`, `drive_asked` and `drive`; docs/PROMISES.md.
//! Not here: which words ask for what (`id_args`), the streams of the process (`idc`), what comes of a text and how a
//! refusal is told (`id_compile`), runs (`id_elements`), which traces are those of runs (`id_judge`), and every step
//! between, which have a crate each; the laws of all that one text shows (`id_promises`).
#![tactic(auto)]

mod commands;
mod judge;
mod memory;
mod program;
mod run;
mod stream;
mod why;
mod words;

pub use commands::{check_text, draw_text, facts_text, graph_text};
pub use id_args::{Request, Unasked};
pub use id_compile::{
    Cause, CompileError, Compiled, Detail, EngineError, Refusal, compile, put_refusal,
};
pub use id_elements::{MAX_STEPS, Settings};
pub use id_log::{InMemory, Log, LogFault, Logs, Opened, SystemLogs};
pub use id_sink::{
    Device, Disk, Folder, ReadFault, Source, SourceFault, Stream, SystemFolder, read_text,
    write_some,
};
pub use judge::{Unjudged, judge_log, judge_text};
pub use program::{drive_asked, serve};
pub use run::engine;
pub use stream::settle;
pub use why::reasons_text;
pub use words::{drive, drive_settled};
