//! The table of the parts of a program, made once from its tree: its rows, its names, and what is so of the table of
//! each tree.
//!
//! Keeps: each part stands before its row, within the row's interval; the intervals nest; the rows of a `Rows` are
//! those of a program's tree.
//! Errors: want of memory, as which a number of more than 32 bits is told too. After one the rows and the names of a
//! `Maker` are of no use.
//! Read first: `Node` (which forms have which rows), `specs/Rows.antt`, then `specs/Turns.antt`; `specs/Making.antt`,
//! then `table_of`; docs/GRAPH.md ("Parts").
//! Not here: the tree (`id_tree`), binders and kinds (`id_check`).
//!
//! Rows stand in the order in which the text finishes its parts; a **marker** row stands wherever a region or a
//! scope begins that has no row of its own, or where instructions are made between parts. A row's own parts are
//! the rows from `first` up to it. The rows of each form:
//!
//! | Form | Its rows, in order |
//! |---|---|
//! | definition | `Head`, a `Param` each, the body's rows, `Def` |
//! | literal, name, unary, binary | the parts' rows, then its own |
//! | block | each statement's rows, the body's rows, `Block` |
//! | binding | its expression's rows, `Binding` |
//! | conditional | the predicate's rows, `Split`, the `then` arm's, the `else` arm's, `If` |
//! | call | `Enter`, for each argument its rows and `Arg`, then `Call` |
//! | array | lo, hi, `Array` |
//! | fetch | target, index, `Fetch` |
//! | store | target, index, `Address`, value, `Store` |
//! | loop, to its body | `Start`, `LoopHead`, a `Variable` each, `Entries`, the predicate's rows, `Switches`, `Turn` |
//! | loop, from there on | each statement's rows, `Body`, the last expression's rows, `Reset`, `Span`, `Loop` |
//! | `for`, to its variables | lo, hi, `Bounds`, `Start`, `LoopHead`, three `Carried` |
//! | `for`, to its body | a `Variable` each, `Entries`, `Within`, `Switches`, `Count`, `Turn`, `Index` |
//! | `next` | `NextUse`, its expression's rows, `Next` |
//! | program | the definitions' rows, then `Program` |
#![tactic(auto)]

mod maker;
mod names;
mod node;
mod room;
mod row;
mod rows;
mod spelled;
mod walk;

pub use names::{main_alone, names_of};
pub use node::{
    Pairing, arg_node, def_node, if_node, in_arm, next_node, other_side, pair_node, short, stand_in,
};
pub use room::{about_names, about_rows};
pub use row::{Node, Region, Row, Stand, Table};
pub use rows::Rows;
pub use spelled::Spelled;
pub use walk::table_of;
