//! Facts by path and row, each once, what they are looked up by, and their order as facts of the source.
//!
//! Keeps: each fact of a `Facts` is found in its chain, behind all that it speaks of.
//! Errors: want of memory alone; then no fact is lost, and what was there stays.
//! Read first: `specs/RowFacts.antt`, then `Facts`; `specs/Firsts.antt`, then `first_facts`; `specs/Cells.antt` and
//! `specs/Waits.antt`, then `Cells` and `wait_all`; `specs/Listed.antt` and `specs/Depths.antt`, then `sorted`.
//! Not here: which facts follow from them, and those of a round (`id_meaning`).
#![tactic(auto)]

mod cells;
mod compare;
mod facts;
mod firsts;
mod found;
mod listing;
mod order;
mod queues;
mod tree;
mod waits;

pub use cells::{Bounds, Cells, Point, QUEUES, next_of, queue_of};
pub use facts::{
    CHAINS, Facts, RowFact, RowValue, Sort, Trail, chain_at, chain_by, chain_of, is_on, path_of,
    row_of, same_trail,
};
pub use firsts::first_facts;
pub use found::{add_has, add_on, add_ons, add_values, row_value};
pub use listing::facts_in;
pub use order::sorted;
pub use queues::{Queues, Wait};
pub use tree::{Tree, last_step, place_of};
pub use waits::wait_all;
