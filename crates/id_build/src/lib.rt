//! The graph that the schemas give a checked program, row by row: which instructions each row makes (its pieces), where
//! these and the imports of heads stand (`Slots`), where each operand comes from, and what each name joins.
//!
//! Keeps: the numbers and the slots of a `Slots` are those of its kernel, whose graph is not too large; what else the
//! passes rest on is kept by `Kernel` (`id_desugar`).
//! Errors: `BuildError`, the refusal 14 or want of memory.
//! Read first: docs/GRAPH.md ("Schemas"), `specs/Rows.antt`, `specs/Schemas.antt` and `specs/Made.antt`, then
//! `push_pieces`, `feeds::push_feeds` and `build`.
//! Not here: the order of blocks and imports (`id_desugar`), which graphs are sound (`id_valid`).
#![tactic(auto)]

mod arc;
mod calls;
mod error;
mod feeds;
mod joined;
mod loops;
mod operators;
mod origins;
mod pieces;
mod program;
mod size;
mod slots;

pub use error::BuildError;
pub use program::build;
pub use size::{is_small, is_small_and_plain, is_surely_small};
