//! Why there is no answer: the things that lack a value in a round, and what each of them needs.
//!
//! Keeps: nothing beyond its values.
//! Errors: `RoundsError`, of the rounds, or want of memory.
//! Read first: docs/MEANING.md ("Why there is none"), `specs/Needs.antt`, `specs/Lines.antt`, then `find_reasons`.
//! Not here: how the lines are printed (`id_print`), which facts those of a round are (`id_meaning`).
#![tactic(auto)]

mod known;
mod lines;
mod needs;
mod reasons;
mod things;

pub use known::{Cell, Known};
pub use lines::{Line, explain};
pub use reasons::{Reasons, find_reasons};
