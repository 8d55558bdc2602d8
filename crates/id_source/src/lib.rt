//! Sources: checked programs with inputs, what their facts, rounds and faults are, and which rows' facts lead to
//! which.
//!
//! Keeps: nothing beyond its values.
//! Errors: `InputError`, the refusals 15 to 18, or want of memory.
//! Read first: docs/MEANING.md, `specs/Sources.antt`, `specs/Facts.antt` and `specs/Rounds.antt`; `specs/Inputs.antt`,
//! then `read_inputs`; `specs/Links.antt`, then `link`.
//! Not here: the facts of rows (`id_facts`), how the facts of a round are found (`id_meaning`).
#![tactic(auto)]

mod edges;
mod inputs;
mod links;
mod nodes;
mod params;

pub use edges::Edges;
use id_value::{FaultKind, Sequence};
pub use inputs::{InputError, Inputs, param_name, read_inputs};
pub use links::{
    Links, awaited, beyond, binder_of, distance, far, link, lower_at, test_of_loop, upper_at,
};
pub use nodes::{block_of, node_of};
pub use params::{main_body, main_params};

/// One step of a path: the call (number 0) or the loop (its iteration, from 0) at a place.
#[derive(Clone, Copy, PartialEq, Eq, PartialOrd, Ord)]
pub struct PathStep {
    pub place: usize,
    pub number: u64,
}

/// The calls and iterations that lead to an evaluation, the outermost first.
#[derive(Drop)]
pub struct Path {
    pub steps: Sequence<PathStep>,
}

/// A path and a place: where a structure was made, which is its name, where a fetch or a store is On, or where a fault
/// came.
#[derive(Drop)]
pub struct Site {
    pub path: Path,
    pub place: usize,
}

/// A value of the source.
#[derive(Drop)]
pub enum SourceValue {
    /// A whole number.
    Int(i64),
    /// A truth value.
    Bool(bool),
    /// A structure: the path and place of its `array`.
    Name(Site),
}

/// A structure and its bounds.
#[derive(Drop)]
pub struct Shape {
    pub name: Site,
    pub low: i64,
    pub high: i64,
}

/// What a store puts into a cell of a structure.
#[derive(Drop)]
pub struct Put {
    pub name: Site,
    pub index: i64,
    pub value: SourceValue,
    pub store: Site,
}

/// That a fetch asks for a cell of a structure.
#[derive(Drop)]
pub struct Ask {
    pub fetch: Site,
    pub name: Site,
    pub index: i64,
}

/// A fact of the source.
#[derive(Drop)]
pub enum Fact {
    /// The expression or store at the place is evaluated at the path.
    On {
        path: Path,
        place: usize,
    },
    /// The expression or binder at the place has the value at the path.
    Has {
        path: Path,
        place: usize,
        value: SourceValue,
    },
    /// The structure is there, with these bounds.
    Shape(Shape),
    /// The store puts the value into the cell.
    Put(Put),
    /// The fetch asks for the cell.
    Ask(Ask),
}

/// A fault of the source.
#[derive(Drop)]
pub enum SourceFault {
    /// What went wrong, and at which operator, `array`, fetch or store.
    Operator {
        kind: FaultKind,
        site: Site,
    },
    /// Two stores put a value into one cell, the first of them first by path and place.
    SecondStore {
        name: Site,
        index: i64,
        first: Site,
        second: Site,
    },
}

/// What a binder Has at a path.
#[derive(Drop)]
pub struct NameValue {
    pub path: Path,
    /// The place of the binder.
    pub place: usize,
    pub value: SourceValue,
}
