//! Logs: bytes that come as they are read, such as a trace while its machine still runs.
//!
//! Keeps: of a log no more than a piece, and what a caller has not done with.
//! Errors: `LogFault`, of an opening or a read.
//! Read first: `specs/Logs.antt`, then `Log`, `Logs` and `read_on`.
//! Not here: what the bytes say (`id_judge`), texts (`id_sink`).
#![tactic(auto)]

mod ahead;
mod log;
mod system;

pub use ahead::{PIECE, keep_last, read_on};
pub use log::{InMemory, Log, LogFault, Logs, Opened};
pub use system::{SystemLog, SystemLogs};
