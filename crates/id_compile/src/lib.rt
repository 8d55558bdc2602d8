//! What comes of a text: its program and graph, or a refusal; and of its inputs.
//!
//! Keeps: a `Compiled` has a graph that the schemas give its program.
//! Errors: `CompileError`, `EngineError`; each refusal has its number, name and status in `refusal`, and nowhere else.
//! Read first: `specs/Programs.antt`, then `compile` and `prepare`; `specs/Refusals.antt`, then `put_refusal`.
//! Not here: what a request makes of the program (`id_engine`), what one word gives (`id_source`), and every step from
//! the text to the graph, which have a crate each.
#![tactic(auto)]

mod compiled;
mod error;
mod prepared;
mod refusal;

pub use compiled::{CompileError, Compiled, accept, compile};
pub use error::EngineError;
pub use id_sink::{Disk, Folder, ReadFault, Source, SourceFault, SystemFolder, read_text};
pub use prepared::{Prepared, prepare};
pub use refusal::{
    Cause, Detail, Refusal, of_engine_error, of_source_fault, plain, put_refusal, refuse,
};
