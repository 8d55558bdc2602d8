//! Where what begins at a row ends, and which `next` each variable of a loop has (docs/GRAPH.md, "Imports").

ghost use Rattle.std.specs.Prelude.{◌≡◌, ◌<◌, ◌^◌, ℕ, length, get_or, IfOk, None};
ghost use Rattle.std.proofs.Props.{props};
ghost use Rattle.id_table.specs.Rows.{at};
ghost use Rattle.id_check.specs.Programs.{rows};
ghost use Rattle.id_desugar.specs.Ends.{AreEnds, AreNexts, IsNoted, begun_at, end_of, next_of};
ghost use Rattle.id_desugar.specs.Ends as ends;

use crate::access::row_at;
use crate::column::{Column, MOST};
use id_check::Checked;
use id_table::Node;
use std::alloc::{AllocError, Global};

/// A checked program, lent, with for each row the row where what begins there ends, if something does.
///
/// Keeps: the column is the program's, whose rows are few enough for columns.
#[derive(Drop)]
pub struct Ends<'t> {
    pub checked: &'t Checked,
    pub column: Column,
    pub ghost few: { length (rows checked.now) < 2 ^ 32 } by { Prim.hlevel props },
    pub ghost ended: { AreEnds checked.now column } by { Prim.hlevel props },
}

impl Ends<'_> {
    /// The row where what begins at a row ends, or 0. Takes no memory.
    pub fn end_of(&self, head: usize) -> usize
        ensures { result ≡ end_of self.now.checked.now head }
    {
        self.column.get_or_first(head) as usize
    }
}

/// The ends of a program, with for each row of a variable of a loop the row of its `next`.
#[derive(Drop)]
pub struct EndsAndNexts<'t> {
    pub ends: Ends<'t>,
    pub nexts: Column,
    pub ghost nexted: { AreNexts ends.checked.now nexts } by { Prim.hlevel props },
}

impl EndsAndNexts<'_> {
    /// The row of the `next` of the variable at a row, or 0. Takes no memory.
    pub fn next_of(&self, variable: usize) -> u32
        ensures { result ≡ next_of self.now.ends.checked.now variable }
    {
        self.nexts.get_or_first(variable)
    }
}

/// The program with where what begins at its rows ends.
pub fn find_ends<'t>(alloc: Global, checked: &'t Checked) -> Result<Ends<'t>, AllocError>
    ensures { IfOk result (λ e. e.checked.now ≡ checked.now) }
{
    let count = checked.table.rows.len();
    if count > MOST {
        return Err(AllocError);
    }
    let mut column = Column::none(alloc, count)?;
    for n in 0..count {
        note(&mut column, n as u32, begun_at(row_at(checked, n).node));
    }
    Ok(Ends { checked, column })
}

/// Both, found in one pass over the rows.
pub fn find_ends_and_nexts<'t>(
    alloc: Global,
    checked: &'t Checked,
) -> Result<EndsAndNexts<'t>, AllocError>
    ensures { IfOk result (λ f. f.ends.checked.now ≡ checked.now) }
{
    let count = checked.table.rows.len();
    if count > MOST {
        return Err(AllocError);
    }
    let mut column = Column::none(alloc, count)?;
    let mut nexts = Column::none(alloc, count)?;
    for n in 0..count {
        note(&mut column, n as u32, begun_at(row_at(checked, n).node));
        note(&mut nexts, n as u32, variable_at(checked, n));
    }
    let ends = Ends { checked, column };
    Ok(EndsAndNexts { ends, nexts })
}

/// Where what ends at a row of this node begins, if something does. Takes no memory.
pub fn begun_at(node: Node) -> Option<usize>
    ensures { result ≡ begun_at node }
{
    match node {
        Node::Def { head, .. } | Node::Loop { head, .. } => Some(head as usize),
        Node::If { split, .. } => Some(split as usize),
        Node::Call { enter, .. } => Some(enter),
        _ => None,
    }
}

/// The row of the variable of the `next` at a row, if one stands there: they stand behind the loop's head, by index.
/// Takes no memory.
fn variable_at(checked: &Checked, n: usize) -> Option<usize>
    ensures { result ≡ ends.variable_of (at (rows checked.now) n).block (at (rows checked.now) n).node }
{
    let row = row_at(checked, n);
    match row.node {
        Node::Next { index, .. } => Some(row.block as usize + 1 + index as usize),
        _ => None,
    }
}

/// Notes the row n for this row, if there is one and nothing is noted for it yet. Takes no memory.
fn note(noted: &mut Column, n: u32, row: Option<usize>)
    requires below { n < MOST }
    ensures long { length noted.new ≡ length noted.old }
    ensures each { (h : ℕ) → h < length noted.old
        → IsNoted n row h (get_or noted.old h None) (get_or noted.new h None) }
{
    if let Some(row) = row {
        if row < noted.len() && noted.get(row).is_none() {
            noted.set(row, Some(n));
        }
    }
}
