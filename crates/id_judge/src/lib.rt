//! The judges: whether a list of events, of whatever machine, is that of a run, and whether a text is its trace.
//!
//! Keeps: what is in flight stands in no order; where a message stands is found by what it names, and else by a look at
//! each.
//! Errors: `MachineError`, and `LogFault` of a log; nothing is left of a judge then.
//! Read first: `specs/Verdicts.antt`, then `judge_events`; `specs/Lines.antt`, `specs/Judging.antt`, then `Judge`;
//! `specs/Listening.antt`, then `hear`.
//! Not here: the machine's step (`id_step`), legal lists and their laws (`id_runs`), the lines (`id_trace`), logs
//! (`id_log`).
#![tactic(auto)]

mod bench;
mod clear;
mod events;
mod given;
mod hint;
mod judge;
mod line;
mod lines;
mod listen;
mod pool;
mod said;
mod same;
mod small;
#[cfg(test)]
mod tests;
mod verdict;

pub use clear::clear_lines;
pub use events::judge_events;
pub use given::Given;
pub use id_core::{Keeps, Machine, MachineError};
pub use judge::{Judge, MAX_LINE, judge_lines};
pub use listen::hear;
pub use verdict::{Cause, Verdict};
