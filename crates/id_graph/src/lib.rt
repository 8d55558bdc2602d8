//! How a graph is told: its listing, and its picture. Graphs themselves are those of `id_instr`, handed on.
//!
//! Keeps: nothing beyond its values.
//! Errors: want of memory alone.
//! Read first: docs/GRAPH.md ("Listing"), `specs/Listing.antt`, then `list`; `specs/Dot.antt`, then `draw`.
//! Not here: instructions, their ports and graphs (`id_instr`), how a program becomes a graph (`id_build`), which graphs
//! are sound (`id_valid`).
#![tactic(auto)]

mod dot;
mod listing;
mod looks;

pub use dot::draw;
pub use id_instr::{
    Block, Dest, Dests, Dyadic, Graph, GraphCause, GraphError, Instr, Op, Others, Port, PortKind,
    kind_at,
};
pub use id_value::{Arithmetic, Comparison, Constant, Truth, UnaryOp};
pub use listing::list;
