//! What follows by one rule, row by row (docs/MEANING.md, "Rules").

ghost use Rattle.std.specs.Prelude.{◌≡◌, ◌++◌, OnOk};
ghost use Rattle.id_facts.specs.declared.facts.RowFact.TheVariants.{Has};
ghost use Rattle.id_facts.specs.Cells.{named};
ghost use Rattle.id_meaning.specs.Effects.{all_woken, effects, exit_at, exit_by, gain, gains, is_end, is_row, reached};
ghost use Rattle.id_meaning.specs.Effects.{turned};

use crate::calls::body_called;
use crate::rules::Rules;
use crate::structures::{add_asked, add_put};
use id_check::Checked;
use id_facts::{Point, RowFact, RowValue, Trail, Wait, add_has, add_ons, queue_of};
use id_source::node_of;
use id_table::Node;
use std::alloc::{AllocError, Global};

impl Rules<'_> {
    /// Adds the facts that follow from this one, with others that the cells have, where this waits.
    pub fn add_effects(
        &self,
        alloc: Global,
        found: &mut Vec<RowFact>,
        fact: RowFact,
    ) -> Result<(), AllocError>
        ensures { OnOk result (found.new.items ≡ found.old.items
            ++ effects self.now.checked.now self.now.links.now self.now.waits.now self.now.cells.now fact) }
    {
        match fact {
            RowFact::On { path, row } => { self.add_from_turned(alloc, found, Point { path, row }) }
            RowFact::Has { path, row, value } => {
                self.add_from_value(alloc, found, Point { path, row }, value)
            }
            RowFact::Shape { name, .. } => self.add_from_shape(alloc, found, name),
            RowFact::Put {
                name,
                index,
                value,
                ..
            } => add_put(alloc, found, self.cells, name, index, value),
            RowFact::Ask {
                path,
                row,
                name,
                index,
            } => add_asked(alloc, found, self.cells, Point { path, row }, name, index),
        }
    }

    /// Adds the facts that follow from this, that the row is On at the path.
    fn add_from_turned(
        &self,
        alloc: Global,
        found: &mut Vec<RowFact>,
        point: Point,
    ) -> Result<(), AllocError>
        ensures { OnOk result (found.new.items ≡ found.old.items
            ++ turned self.now.checked.now self.now.links.now self.now.cells.now point.path point.row) }
    {
        let Point { path, row } = point;
        let lookup = self.lookup(alloc, RowFact::On { path, row });
        add_ons(found, path, self.links.turns.of(row))?;
        self.add_given(found, &lookup, point)?;
        self.add_call(found, &lookup, point)?;
        self.add_start(found, &lookup, point)?;
        self.add_begin(found, &lookup, point)
    }

    /// Adds the facts that follow from this, that the row Has the value at the path.
    fn add_from_value(
        &self,
        alloc: Global,
        found: &mut Vec<RowFact>,
        point: Point,
        value: RowValue,
    ) -> Result<(), AllocError>
        ensures { OnOk result (found.new.items ≡ found.old.items
            ++ effects self.now.checked.now self.now.links.now self.now.waits.now self.now.cells.now
            (Has point.path point.row value)) }
    {
        let rows = self.links.reads.of(point.row);
        self.add_gains(alloc, found, point, value, rows)?;
        let waits = self.waits.of(queue_of(point.path, point.row));
        self.add_all_woken(alloc, found, point, value, waits)?;
        self.add_exit(found, point, value)?;
        self.add_index(alloc, found, point, value)
    }

    /// Adds the facts that come where the structure, which has new bounds, is a value.
    fn add_from_shape(
        &self,
        alloc: Global,
        found: &mut Vec<RowFact>,
        name: usize,
    ) -> Result<(), AllocError>
        ensures { OnOk result (found.new.items ≡ found.old.items
            ++ reached self.now.checked.now self.now.links.now self.now.cells.now name
            (named self.now.cells.now name)) }
    {
        let points = self.cells.named(alloc, name)?;
        self.add_reached(alloc, found, name, points.as_slice())
    }

    /// Adds the facts that come where the row Has the value, at these rows, which read it.
    fn add_gains(
        &self,
        alloc: Global,
        found: &mut Vec<RowFact>,
        point: Point,
        value: RowValue,
        rows: &[usize],
    ) -> Result<(), AllocError>
        ensures { OnOk result (found.new.items ≡ found.old.items
            ++ gains self.now.checked.now self.now.links.now self.now.cells.now point.path point.row value rows.now) }
    {
        for reader in rows {
            self.add_gain(alloc, found, point, value, *reader)?;
        }
        Ok(())
    }

    /// Adds the facts that come where the row Has the value, at a row that reads it, and at the calls whose argument
    /// and the loops whose predicate, `next` or bound this is.
    fn add_gain(
        &self,
        alloc: Global,
        found: &mut Vec<RowFact>,
        point: Point,
        value: RowValue,
        reader: usize,
    ) -> Result<(), AllocError>
        ensures { OnOk result (found.new.items ≡ found.old.items
            ++ gain self.now.checked.now self.now.links.now self.now.cells.now point.path point.row value reader) }
    {
        let Point { path, row } = point;
        let lookup = self.lookup(alloc, RowFact::Has { path, row, value });
        let reading = Point { path, row: reader };
        self.add_given(found, &lookup, reading)?;
        let node = node_of(self.checked, reader);
        self.add_pass(found, point, value, node)?;
        self.add_loop(found, point, value, reader)?;
        self.add_begin(found, &lookup, reading)
    }

    /// Adds the facts that come where the structure, which has new bounds, is a value.
    fn add_reached(
        &self,
        alloc: Global,
        found: &mut Vec<RowFact>,
        name: usize,
        points: &[Point],
    ) -> Result<(), AllocError>
        ensures { OnOk result (found.new.items ≡ found.old.items
            ++ reached self.now.checked.now self.now.links.now self.now.cells.now name points.now) }
    {
        for point in points {
            let rows = self.links.reads.of(point.row);
            self.add_gains(alloc, found, *point, RowValue::Name(name), rows)?;
        }
        Ok(())
    }

    /// Adds the facts that come where the binder has the value that these wait for.
    fn add_all_woken(
        &self,
        alloc: Global,
        found: &mut Vec<RowFact>,
        point: Point,
        value: RowValue,
        waits: &[Wait],
    ) -> Result<(), AllocError>
        ensures { OnOk result (found.new.items ≡ found.old.items
            ++ all_woken self.now.checked.now self.now.links.now self.now.cells.now point.path point.row value
            waits.now) }
    {
        for wait in waits {
            self.add_woken(alloc, found, point, value, *wait)?;
        }
        Ok(())
    }

    /// Adds the fact that comes by the call or the loop that the path begins with, where the row is its callee's body
    /// or its last expression.
    fn add_exit(
        &self,
        found: &mut Vec<RowFact>,
        point: Point,
        value: RowValue,
    ) -> Result<(), AllocError>
        ensures { OnOk result (found.new.items ≡ found.old.items
            ++ exit_at self.now.checked.now self.now.cells.now point.path point.row value) }
    {
        match point.path {
            Trail::Below { spot, number } => {
                let began = self.cells.fact(spot);
                add_exit_by(found, self.checked, number, point.row, value, began)
            }
            Trail::Outermost => Ok(()),
        }
    }
}

/// Adds the fact that comes by the call or the loop that is On by this one, where the row is its end at the path of
/// this number.
fn add_exit_by(
    found: &mut Vec<RowFact>,
    checked: &Checked,
    number: u64,
    row: usize,
    value: RowValue,
    began: RowFact,
) -> Result<(), AllocError>
    ensures { OnOk result (found.new.items ≡ found.old.items
        ++ exit_by checked.now number row value began) }
{
    match began {
        RowFact::On { path, row: head } if is_end(checked, node_of(checked, head), number, row) => {
            add_has(found, path, head, value)
        }
        _ => Ok(()),
    }
}

/// Whether the row is the body of the procedure, or the last expression, of the call or loop of this node, whose path
/// has this number: 0 at a call.
fn is_end(checked: &Checked, node: Node, number: u64, row: usize) -> bool
    ensures { result ≡ is_end checked.now node number row }
{
    match node {
        Node::Call { enter, .. } => number == 0 && is_row(body_called(checked, enter), row),
        Node::Loop { last, .. } => last as usize == row,
        _ => false,
    }
}

/// Whether it is this row.
pub fn is_row(one: Option<usize>, row: usize) -> bool
    ensures { result ≡ is_row one row }
{
    match one {
        Some(one) => one == row,
        None => false,
    }
}
