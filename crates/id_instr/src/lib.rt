//! The instructions of a dataflow graph: their operators, ports and destinations, and the graph of them.
//!
//! Keeps: every destination is a port that exists, and there are fewer than 2^32 instructions.
//! Errors: `GraphError`, the refusal 27, with both lists handed back.
//! Read first: `specs/Ports.antt`, `specs/Graph.antt`, then `Graph`.
//! Not here: the listing and the picture (`id_graph`), what operators give (`id_value`), how a program becomes a graph
//! (`id_build`), which graphs are sound (`id_valid`).
#![tactic(auto)]

mod dests;
mod graph;
mod instr;

pub use dests::{Dest, Dests, Others, Port};
pub use graph::{Graph, GraphCause, GraphError, kind_at};
pub use instr::{Block, Dyadic, Instr, Op, PortKind};
