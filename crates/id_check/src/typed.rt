//! The rows of a program with what is found of them, read by row. Nothing here takes memory.

ghost use Rattle.std.specs.Prelude.{◌≡◌, length};
ghost use Rattle.std.proofs.Props.{props};
ghost use Rattle.id_table.specs.Lent.{list_of};
ghost use Rattle.id_check.specs.Causes as causes;
ghost use Rattle.id_check.specs.Counts.{AreCounts};

use crate::rows::wide;
use id_table::{Node, Rows};
use id_tree::Kind;

/// The rows of a program, lent, with what is found in them: by row the binders and the kinds, and by `Enter` the
/// numbers of arguments.
#[derive(Clone, Copy)]
pub struct Typed<'t> {
    pub rows: &'t Rows<'t>,
    pub binders: &'t [Option<u32>],
    pub kinds: &'t [Option<Kind>],
    pub counts: &'t [Option<u32>],
    pub ghost counted: { AreCounts (list_of rows.now) (length (list_of rows.now))
        counts.now } by { Prim.hlevel props },
}

impl Typed<'_> {
    ghost use Rattle.std.specs.Prelude.{get_or, None};
    ghost use Rattle.id_table.specs.Rows.{at};
    ghost use Rattle.id_check.specs.Typed as typed;

    /// The place of the row.
    pub fn place(&self, i: usize) -> usize
        ensures { result ≡ (at (typed.rows self.now) i).place }
    {
        self.rows.at(i).place as usize
    }

    /// The binder of the name at the row, if it has one.
    pub fn binder(&self, i: usize) -> Option<usize>
        ensures { result ≡ typed.binder self.now i }
    {
        if i < self.binders.len() {
            wide(self.binders[i])
        } else {
            None
        }
    }

    /// The kind of the row, if it has one.
    pub fn kind(&self, i: usize) -> Option<Kind>
        ensures { result ≡ typed.kind self.now i }
    {
        if i < self.kinds.len() {
            self.kinds[i]
        } else {
            None
        }
    }

    /// The number of arguments of the call with this `Enter`, if it has one.
    pub fn count(&self, enter: usize) -> Option<usize>
        ensures { result ≡ get_or self.now.counts.now enter None }
    {
        if enter < self.counts.len() {
            wide(self.counts[enter])
        } else {
            None
        }
    }

    /// The head of the procedure that the call with this `Enter` calls.
    pub fn callee(&self, enter: usize) -> Option<u32>
        ensures { result ≡ causes.callee (typed.rows self.now) (typed.binder self.now enter) }
    {
        match self.binder(enter) {
            Some(row) => head_in(self.rows.at(row).node),
            None => None,
        }
    }
}

/// The head of the definition at a row of this node.
fn head_in(node: Node) -> Option<u32>
    ensures { result ≡ causes.head_in node }
{
    match node {
        Node::Def { head, .. } => Some(head),
        _ => None,
    }
}
