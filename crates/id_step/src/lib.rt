//! Elements: each message is handled in one step, and recorded.
//!
//! Keeps: an element's state, its store, its cells and its numbers, is what its record leads to.
//! Errors: `TakeError`; after each of them nothing has changed.
//! Read first: `specs/Steps.antt` and `specs/Takes.antt`, then `Element::take`; `specs/Firings.antt`, then
//! `outcome::react`; `specs/Storage.antt`, then `Storage::take_token`.
//! Not here: what an operator does (`id_ops`), matching (`id_match`), how events are kept (`id_record`), runs
//! (`id_core`).
#![tactic(auto)]

mod cells;
mod element;
mod fitting;
mod gate;
mod near;
mod outcome;
mod sending;
mod step;
mod storage;
mod stretch;
mod taking;

pub use element::Element;
pub use fitting::{fits, op_at};
pub use gate::{Gate, Handling, Open};
pub use step::TakeError;
