//! The rows of a program, with what is so of them.

ghost use Rattle.std.specs.Prelude.{◌≡◌, ◌≤◌, length, IfOk};
ghost use Rattle.std.proofs.Props.{props};
ghost use Rattle.id_grammar.specs.Tree.{Tree};
ghost use Rattle.id_table.specs.Rows.{at, rows_of};
ghost use Rattle.id_table.specs.Tables.{AreInBlocks};
ghost use Rattle.id_table.specs.Trees.{IsProgramTree};
ghost use Rattle.id_table.specs.Turns.{IsTable};

use crate::row::{Node, Region, Row, Table};
use std::alloc::AllocError;

/// The most rows that a program may have. No text comes near it.
const MOST: usize = 0xffff_ffff;

/// What stands past the end of a table.
const NO_ROW: Row = Row {
    place: 0,
    first: 0,
    block: 0,
    region: Region {
        head: 0,
        side: false,
    },
    value: 0,
    node: Node::Head,
};

/// A table, lent, whose rows are those of a program's tree, and no more than have numbers of 32 bits.
#[derive(Clone, Copy)]
pub struct Rows<'t> {
    pub table: &'t Table,
    pub ghost tabled: { ∥ IsTable table.now.rows.items ∥₁ },
    pub ghost in_blocks: { AreInBlocks table.now.rows.items } by { Prim.hlevel props },
    pub ghost few: { length table.now.rows.items ≤ 0xffff_ffff },
}

impl<'t> Rows<'t> {
    ghost use Rattle.id_table.specs.Lent.{list_of};

    /// The rows of a table of a program's tree. More than `MOST` are told as want of memory. Takes no memory.
    pub fn new(table: &'t Table) -> Result<Rows<'t>, AllocError>
        requires { (t : Tree) × IsProgramTree t × (table.now.rows.items ≡ rows_of t) }
        ensures { IfOk result (λ r. r.table.now ≡ table.now) }
    {
        if table.rows.len() > MOST {
            return Err(AllocError);
        }
        Ok(Rows { table })
    }

    /// How many rows there are. Takes no memory.
    pub fn len(&self) -> usize
        ensures { result ≡ length (list_of self.now) }
    {
        self.table.rows.len()
    }

    /// The row of this number; past the end what stands there. Takes no memory.
    pub fn at(&self, i: usize) -> Row
        ensures { result ≡ at (list_of self.now) i }
    {
        match self.table.rows.get(i) {
            Some(row) => *row,
            None => NO_ROW,
        }
    }
}
