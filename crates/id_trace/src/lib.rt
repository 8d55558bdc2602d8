//! Traces: a line for each event of a run.
//!
//! Keeps: a failed write ends a text at once, so what went out is a front of it.
//! Errors: `PrintError`, only where a write failed.
//! Read first: `specs/Traces.antt`, then `write_trace`; `put_payload` and `end_bytes`, by which a judge tells lines.
//! Not here: sinks and the texts of values (`id_sink`), reports (`id_print`), the judge of traces (`id_judge`).
#![tactic(auto)]

mod trace;

pub use trace::{end_bytes, put_payload, write_trace};
