//! The checked program.

ghost use Rattle.std.specs.Prelude.{◌≡◌, [], length};
ghost use Rattle.std.proofs.Props.{props};
ghost use Rattle.id_tree.specs.Distinct.{Distinct};
ghost use Rattle.id_check.specs.Kept.{Distinct-prop};
ghost use Rattle.id_check.specs.Literals.{AreLiterals};
ghost use Rattle.id_check.specs.Noted.{tree_in};
ghost use Rattle.id_table.specs.Rows.{parts_of, rows_of};
ghost use Rattle.id_check.specs.Causes.{IsMain, causes};
ghost use Rattle.id_check.specs.Kinds.{AreKinds};
ghost use Rattle.id_check.specs.Scopes.{AreBinders, HasDepths, column};

use id_table::Table;
use id_tree::{Kind, Program};
use once_cell::race::Note;

/// A program that has been checked: its table, and the columns of binders, kinds and depths by row. The tree has given
/// its memory back; the note of it, which clauses read, takes none.
#[derive(Drop)]
pub struct Checked {
    pub tree: Note<Program>,
    pub table: Table,
    /// The row of the definition of `main`.
    pub main: usize,
    /// For each row that uses a name, the row of its binder.
    pub binders: Vec<Option<u32>>,
    /// For each row its kind, if it has one.
    pub kinds: Vec<Option<Kind>>,
    /// For each row, how many loops of its procedure it is in.
    pub depths: Vec<u32>,
    pub ghost tabled: { table.rows.items ≡ rows_of (tree_in tree.known) } by { Prim.hlevel props },
    pub ghost named: { table.names.items ≡ (parts_of (tree_in tree.known)).names } by { Prim.hlevel props },
    pub ghost distinct: { Distinct (tree_in tree.known) } by { Distinct-prop (tree_in tree.known) },
    pub ghost is_main: { IsMain table.rows.items main } by { Prim.hlevel props },
    pub ghost bound: { AreBinders table.rows.items (column binders.items) } by { Prim.hlevel props },
    pub ghost kinded: { AreKinds table.rows.items (column binders.items)
        (column kinds.items) } by { Prim.hlevel props },
    pub ghost deep: { HasDepths table.rows.items depths.items } by { Prim.hlevel props },
    pub ghost accepted: { causes table.rows.items (column binders.items)
        (column kinds.items) ≡ [] } by { Prim.hlevel props },
    pub ghost literals: { AreLiterals table.rows.items (length table.rows.items) } by { Prim.hlevel props },
}
