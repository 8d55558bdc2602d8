//! The regions of a checked program (`Kernel`): in which order its rows are made into instructions, where what begins
//! at a row ends, which `next` each variable of a loop has, and which names each region imports. The program itself
//! stays as it is.
//!
//! Keeps: all that a `Kernel` has is its program's; the order is that of the graph's blocks; each head has exactly its
//! imports, in order of first use, and the switches of a loop its variables before them.
//! Errors: want of memory alone.
//! Read first: docs/GRAPH.md ("Imports"), `specs/Regions.antt`, `specs/Ends.antt`, then `Kernel` and `regions`.
//! Not here: instructions and arcs (`id_build`).
#![tactic(auto)]

mod access;
mod column;
mod ends;
mod imports;
mod kernel;
mod list;
mod order;

pub use access::{binder_at, carried_count, first_variable, has_index, row_at};
pub use column::{Column, MOST};
pub use ends::{Ends, find_ends};
pub use kernel::{Kernel, regions};
pub use list::AllImports;
