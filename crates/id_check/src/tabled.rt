//! The table of a program whose tree has been given back.

ghost use Rattle.std.specs.Prelude.{◌≡◌};
ghost use Rattle.std.proofs.Props.{props};
ghost use Rattle.id_tree.specs.Distinct.{Distinct};
ghost use Rattle.id_table.specs.Rows.{parts_of, rows_of};
ghost use Rattle.id_check.specs.Kept.{Distinct-prop};
ghost use Rattle.id_check.specs.Noted.{tree_in};

use id_table::Table;
use id_tree::Program;
use once_cell::race::Note;

/// The table of a program. The tree has given its memory back; the note of it, which clauses read, takes none.
#[derive(Drop)]
pub struct Tabled {
    pub tree: Note<Program>,
    pub table: Table,
    pub ghost tabled: { table.rows.items ≡ rows_of (tree_in tree.known) } by { Prim.hlevel props },
    pub ghost named: { table.names.items ≡ (parts_of (tree_in tree.known)).names } by { Prim.hlevel props },
    pub ghost distinct: { Distinct (tree_in tree.known) } by { Distinct-prop (tree_in tree.known) },
}
