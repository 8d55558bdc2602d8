//! What the rules read.

ghost use Rattle.std.specs.Prelude.{◌≡◌, IfOk};
ghost use Rattle.id_facts.specs.Cells.{values};
ghost use Rattle.id_meaning.specs.Given.{seen};

use id_check::Checked;
use id_facts::{Cells, Queues, RowFact, RowValue, Trail};
use id_source::Links;
use std::alloc::{AllocError, Global};

/// What the rules read, whose methods add to `found` what follows: the program, what its rows lead to, what waits for
/// values, and the facts that are followed.
#[derive(Clone, Copy)]
pub struct Rules<'a> {
    pub checked: &'a Checked,
    pub links: &'a Links,
    pub waits: &'a Queues,
    pub cells: &'a Cells,
}

/// What values are looked up in: the facts, and the one that is followed.
#[derive(Clone, Copy)]
pub struct Lookup<'a> {
    pub alloc: Global,
    pub cells: &'a Cells,
    pub followed: RowFact,
}

impl Rules<'_> {
    /// What values are looked up in, where this fact is followed.
    pub fn lookup(&self, alloc: Global, followed: RowFact) -> Lookup<'_>
        ensures cells { result.cells.now ≡ self.now.cells.now }
        ensures followed { result.followed ≡ followed }
    {
        Lookup {
            alloc,
            cells: self.cells,
            followed,
        }
    }
}

impl Lookup<'_> {
    /// What the row Has at the path; of the row that the fact is of that is followed, that value alone.
    pub fn values(&self, path: Trail, row: usize) -> Result<Vec<RowValue>, AllocError>
        ensures { IfOk result (λ v. v.items ≡ values self.now.cells.now self.now.followed path row) }
    {
        self.cells.values(self.alloc, self.followed, path, row)
    }

    /// What the row Has at the path, if there is one.
    pub fn seen(&self, path: Trail, row: Option<usize>) -> Result<Vec<RowValue>, AllocError>
        ensures { IfOk result (λ v. v.items ≡ seen self.now.cells.now self.now.followed path row) }
    {
        match row {
            Some(row) => self.values(path, row),
            None => Ok(Vec::new(self.alloc)),
        }
    }
}
