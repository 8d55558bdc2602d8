//! What the program prints: reports of runs, the lines of names, structures, facts and faults.
//!
//! Keeps: a failed write ends a text at once, so what went out is a front of it.
//! Errors: `PrintError`, only where a write failed; of a report that is put in order, want of memory.
//! Read first: `specs/Endings.antt`, `specs/Names.antt`, `specs/RunReports.antt`, then `run_report`;
//! `specs/Texts.antt`, then `report` and `write_report`.
//! Not here: sinks and the texts of values (`id_sink`), traces (`id_trace`), runs (`id_elements`), refusals
//! (`id_compile`).
#![tactic(auto)]

mod ending;
mod helds;
mod names;
mod reasons;
mod reports;
mod rows;
mod run_reports;

pub use ending::Ending;
pub use helds::{Held, Helds};
pub use id_sink::{PrintError, Sink, SinkFault, put, put_number, put_place};
pub use reasons::write_reasons;
pub use reports::{report, write_fault, write_report};
pub use rows::write_round;
pub use run_reports::{Report, run_report};
