//! What follows by the rules of loops with an index (docs/MEANING.md, "Rules").

ghost use Rattle.std.specs.Prelude.{◌≡◌, ◌∷◌, ◌++◌, [], pos, ◌+ℤ◌, int_le, int_lt, OnOk};
ghost use Rattle.id_table.specs.Loops.{lower_at, upper_at};
ghost use Rattle.id_table.specs.Rows.{at};
ghost use Rattle.id_check.specs.Programs.{rows};
ghost use Rattle.id_meaning.specs.Given.{seen};
ghost use Rattle.id_meaning.specs.Effects.{begin_at, begin_by, counted, counted_by, counted_on, counted_with};
ghost use Rattle.id_meaning.specs.Effects.{counting_by, counting_of, goes_on, index_at, index_woken};

use crate::loops::{Iteration, iteration_of};
use crate::rules::{Lookup, Rules};
use id_check::Checked;
use id_facts::{Cells, Point, RowFact, RowValue, Trail, Wait, add_has, add_ons, next_of};
use id_source::{Links, awaited, block_of, distance, lower_at, node_of, upper_at};
use id_table::Node;
use std::alloc::{AllocError, Global};

/// Where a loop with an index may go on.
#[derive(Clone, Copy)]
pub struct Counting {
    /// The path of the iteration that may begin.
    pub path: Trail,
    /// The rows of the index, of the loop's switches and of its last expression.
    pub index: usize,
    pub switches: usize,
    pub last: usize,
    /// Whether it is the first iteration.
    pub first: bool,
}

impl Rules<'_> {
    /// Adds the facts that come by the bounds of the loop at the row at the path, where it is On.
    pub fn add_begin(
        &self,
        found: &mut Vec<RowFact>,
        lookup: &Lookup<'_>,
        point: Point,
    ) -> Result<(), AllocError>
        ensures { OnOk result (found.new.items ≡ found.old.items
            ++ begin_at self.now.checked.now self.now.links.now lookup.now.cells.now lookup.now.followed point.path
            point.row) }
    {
        let spot = lookup.cells.find(point.path, point.row);
        match (spot, node_of(self.checked, point.row)) {
            (
                Some(spot),
                Node::Loop {
                    head,
                    switches,
                    last,
                },
            ) => {
                let counting = Counting {
                    path: Trail::Below { spot, number: 0 },
                    index: switches as usize + 3,
                    switches: switches as usize,
                    last: last as usize,
                    first: true,
                };
                self.add_bounded(found, lookup, point.path, head as usize, counting)
            }
            _ => Ok(()),
        }
    }

    /// Adds the facts that come by the bounds of the loop with this head at the path, where it may begin.
    fn add_bounded(
        &self,
        found: &mut Vec<RowFact>,
        lookup: &Lookup<'_>,
        path: Trail,
        head: usize,
        counting: Counting,
    ) -> Result<(), AllocError>
        ensures { OnOk result (found.new.items ≡ found.old.items
            ++ counted self.now.links.now counting
            (seen lookup.now.cells.now lookup.now.followed path (lower_at (rows self.now.checked.now) head))
            (seen lookup.now.cells.now lookup.now.followed path (upper_at (rows self.now.checked.now) head))) }
    {
        let rows = self.checked.table.rows.as_slice();
        let lowers = lookup.seen(path, lower_at(rows, head))?;
        let uppers = lookup.seen(path, upper_at(rows, head))?;
        add_counted(
            found,
            self.links,
            counting,
            lowers.as_slice(),
            uppers.as_slice(),
        )
    }

    /// Adds the facts that come where the row Has the value at the path, if it is an index.
    pub fn add_index(
        &self,
        alloc: Global,
        found: &mut Vec<RowFact>,
        point: Point,
        value: RowValue,
    ) -> Result<(), AllocError>
        ensures { OnOk result (found.new.items ≡ found.old.items
            ++ index_at self.now.checked.now self.now.links.now self.now.cells.now point.path point.row value) }
    {
        let Point { path, row } = point;
        match node_of(self.checked, row) {
            Node::Index { .. } => {
                let lookup = self.lookup(alloc, RowFact::Has { path, row, value });
                let upper = awaited(self.checked, row);
                let outside = self.cells.out_of(path, distance(self.checked, row, upper));
                let uppers = lookup.seen(outside, upper)?;
                let counting = counting_of(self.checked, self.cells, path, row);
                add_counted_on(found, self.links, counting, &[value], uppers.as_slice())
            }
            _ => Ok(()),
        }
    }

    /// Adds the facts that come where what this waits for has the value, by the fact that is followed, if it is an
    /// index at a row of this node.
    pub fn add_index_woken(
        &self,
        found: &mut Vec<RowFact>,
        lookup: &Lookup<'_>,
        wait: Wait,
        value: RowValue,
        node: Node,
    ) -> Result<(), AllocError>
        ensures { OnOk result (found.new.items ≡ found.old.items
            ++ index_woken self.now.checked.now self.now.links.now lookup.now.cells.now lookup.now.followed wait value
            node) }
    {
        match node {
            Node::Index { .. } if wait.user == wait.row => {
                let values = lookup.values(wait.path, wait.row)?;
                let counting = counting_of(self.checked, lookup.cells, wait.path, wait.row);
                add_counted_on(found, self.links, counting, values.as_slice(), &[value])
            }
            _ => Ok(()),
        }
    }
}

/// Where the loop of the index at the row may go on behind the iteration that the path ends in.
fn counting_of(checked: &Checked, cells: &Cells, path: Trail, row: usize) -> Option<Counting>
    ensures { result ≡ counting_of checked.now cells.now path row }
{
    counting_by(
        checked,
        row,
        iteration_of(checked, cells, path),
        next_of(path),
    )
}

/// Where it may go on behind this iteration, whose next one is at this path.
fn counting_by(
    checked: &Checked,
    row: usize,
    iteration: Option<Iteration>,
    next: Option<Trail>,
) -> Option<Counting>
    ensures { result ≡ counting_by checked.now row iteration next }
{
    match (iteration, next) {
        (Some(iteration), Some(path)) if block_of(checked, row) == iteration.head => {
            Some(Counting {
                path,
                index: row,
                switches: iteration.switches,
                last: iteration.last,
                first: false,
            })
        }
        _ => None,
    }
}

/// Adds the facts that come by these values of an index with these of its upper bound, if it counts.
fn add_counted_on(
    found: &mut Vec<RowFact>,
    links: &Links,
    counting: Option<Counting>,
    values: &[RowValue],
    uppers: &[RowValue],
) -> Result<(), AllocError>
    ensures { OnOk result (found.new.items ≡ found.old.items
        ++ counted_on links.now counting values.now uppers.now) }
{
    match counting {
        Some(counting) => add_counted(found, links, counting, values, uppers),
        None => Ok(()),
    }
}

/// Adds the facts that come by these values, lower bounds of an index or its last ones, with these upper bounds.
fn add_counted(
    found: &mut Vec<RowFact>,
    links: &Links,
    counting: Counting,
    values: &[RowValue],
    uppers: &[RowValue],
) -> Result<(), AllocError>
    ensures { OnOk result (found.new.items ≡ found.old.items
        ++ counted links.now counting values.now uppers.now) }
{
    for value in values {
        add_counted_with(found, links, counting, *value, uppers)?;
    }
    Ok(())
}

/// Adds the facts that come by this value with these upper bounds.
fn add_counted_with(
    found: &mut Vec<RowFact>,
    links: &Links,
    counting: Counting,
    value: RowValue,
    uppers: &[RowValue],
) -> Result<(), AllocError>
    ensures { OnOk result (found.new.items ≡ found.old.items
        ++ counted_with links.now counting value uppers.now) }
{
    for upper in uppers {
        add_counted_by(found, links, counting, value, *upper)?;
    }
    Ok(())
}

/// Adds the facts that come by this value with this upper bound.
fn add_counted_by(
    found: &mut Vec<RowFact>,
    links: &Links,
    counting: Counting,
    value: RowValue,
    upper: RowValue,
) -> Result<(), AllocError>
    ensures { OnOk result (found.new.items ≡ found.old.items
        ++ counted_by links.now counting value upper) }
{
    match (value, upper) {
        (RowValue::Int(value), RowValue::Int(upper)) => {
            if counting.first {
                add_going_on(found, links, counting, value, value <= upper)
            } else if value < upper {
                add_going_on(found, links, counting, value + 1, true)
            } else {
                add_going_on(found, links, counting, value, false)
            }
        }
        _ => Ok(()),
    }
}

/// Adds the facts that come where a loop goes on with this value of its index, or does not.
fn add_going_on(
    found: &mut Vec<RowFact>,
    links: &Links,
    counting: Counting,
    value: i64,
    going: bool,
) -> Result<(), AllocError>
    ensures { OnOk result (found.new.items ≡ found.old.items
        ++ goes_on links.now counting value going) }
{
    if going {
        add_has(found, counting.path, counting.index, RowValue::Int(value))?;
        add_ons(found, counting.path, links.turns.of(counting.switches))
    } else {
        found.push(RowFact::On {
            path: counting.path,
            row: counting.last,
        })?;
        Ok(())
    }
}
