//! What follows by the rules of loops (docs/MEANING.md, "Rules").

ghost use Rattle.std.specs.Prelude.{◌≡◌, ◌++◌, OnOk};
ghost use Rattle.id_table.specs.Rows.{at};
ghost use Rattle.id_check.specs.Programs.{rows};
ghost use Rattle.id_meaning.specs.Effects.{first_of, firsts, has_at, is_awaited, iteration_by, iteration_in};
ghost use Rattle.id_meaning.specs.Effects.{iteration_of, loop_by, next_by, on_at};
ghost use Rattle.id_meaning.specs.Effects.{start_at, switches_by, turn_by, woken};
ghost use Rattle.id_meaning.specs.Effects.{woken_by};
ghost use Rattle.id_source.specs.Links.{test_of_loop};

use crate::effects::is_row;
use crate::given::add_seen;
use crate::rules::{Lookup, Rules};
use id_check::Checked;
use id_facts::{
    Cells, Point, RowFact, RowValue, Trail, Wait, add_has, add_on, add_ons, next_of, same_trail,
};
use id_source::{Links, awaited, binder_of, block_of, distance, node_of, test_of_loop};
use id_table::Node;
use std::alloc::{AllocError, Global};

/// An iteration of a loop.
#[derive(Clone, Copy)]
pub struct Iteration {
    /// The rows of the loop's head, its switches and its last expression.
    pub head: usize,
    pub switches: usize,
    pub last: usize,
}

impl Rules<'_> {
    /// Adds the facts that come by the loop at the row at the path, where it is On.
    pub fn add_start(
        &self,
        found: &mut Vec<RowFact>,
        lookup: &Lookup<'_>,
        point: Point,
    ) -> Result<(), AllocError>
        ensures { OnOk result (found.new.items ≡ found.old.items
            ++ start_at self.now.checked.now self.now.links.now lookup.now.cells.now lookup.now.followed point.path
            point.row) }
    {
        let spot = lookup.cells.find(point.path, point.row);
        match (spot, node_of(self.checked, point.row)) {
            (Some(spot), Node::Loop { head, switches, .. }) => {
                let first = Trail::Below { spot, number: 0 };
                let test = test_of(self.checked, node_of(self.checked, switches as usize));
                add_on(found, first, test)?;
                let nexts = self.links.args.of(head as usize);
                let head = Point {
                    path: first,
                    row: head as usize,
                };
                self.add_firsts(found, lookup, point, head, nexts)
            }
            _ => Ok(()),
        }
    }

    /// Adds the facts that variables of the loop with this head, in its first iteration, Have their first values, whose
    /// `next`s are at these rows.
    fn add_firsts(
        &self,
        found: &mut Vec<RowFact>,
        lookup: &Lookup<'_>,
        point: Point,
        head: Point,
        nexts: &[usize],
    ) -> Result<(), AllocError>
        ensures { OnOk result (found.new.items ≡ found.old.items
            ++ firsts self.now.checked.now lookup.now.cells.now lookup.now.followed point.path point.row head.path
            head.row nexts.now) }
    {
        for next in nexts {
            self.add_first(found, lookup, point, head, *next)?;
        }
        Ok(())
    }

    /// Adds the facts that the variable of the loop with this head, in its first iteration, Has its first values, whose
    /// `next` is at this row.
    fn add_first(
        &self,
        found: &mut Vec<RowFact>,
        lookup: &Lookup<'_>,
        point: Point,
        head: Point,
        next: usize,
    ) -> Result<(), AllocError>
        ensures { OnOk result (found.new.items ≡ found.old.items
            ++ first_of self.now.checked.now lookup.now.cells.now lookup.now.followed point.path point.row head.path
            head.row next (at (rows self.now.checked.now) next).node) }
    {
        match node_of(self.checked, next) {
            Node::Next { outer, .. } if block_of(self.checked, next) == head.row => {
                let binder = binder_of(self.checked, outer as usize);
                let away = distance(self.checked, point.row, binder);
                let outside = lookup.cells.out_of(point.path, away);
                let variable = Point {
                    path: head.path,
                    row: next,
                };
                add_seen(found, lookup, variable, outside, binder)
            }
            _ => Ok(()),
        }
    }

    /// Adds the facts that come where the row Has the value at the path, if this waits for it.
    pub fn add_woken(
        &self,
        alloc: Global,
        found: &mut Vec<RowFact>,
        point: Point,
        value: RowValue,
        wait: Wait,
    ) -> Result<(), AllocError>
        ensures { OnOk result (found.new.items ≡ found.old.items
            ++ woken self.now.checked.now self.now.links.now self.now.cells.now point.path point.row value wait) }
    {
        if self.is_awaited(point, wait) {
            let spot = self.cells.find(wait.path, wait.row);
            let node = node_of(self.checked, wait.row);
            add_woken_by(found, self.checked, wait, value, spot, node)?;
            let Point { path, row } = point;
            let lookup = self.lookup(alloc, RowFact::Has { path, row, value });
            self.add_index_woken(found, &lookup, wait, value, node)
        } else {
            Ok(())
        }
    }

    /// Whether this waits for the row at the path.
    fn is_awaited(&self, point: Point, wait: Wait) -> bool
        ensures { result ≡ is_awaited self.now.checked.now self.now.cells.now point.path point.row wait }
    {
        match awaited(self.checked, wait.user) {
            Some(there) => {
                let far = distance(self.checked, wait.row, Some(there));
                there == point.row && same_trail(self.cells.out_of(wait.path, far), point.path)
            }
            None => false,
        }
    }

    /// Adds the facts that come where the row Has the value at the path, by the row `reader`, if that is the switches
    /// or a `next` of the iteration that the path ends in.
    pub fn add_loop(
        &self,
        found: &mut Vec<RowFact>,
        point: Point,
        value: RowValue,
        reader: usize,
    ) -> Result<(), AllocError>
        ensures { OnOk result (found.new.items ≡ found.old.items
            ++ loop_by self.now.checked.now self.now.links.now self.now.cells.now point.path point.row value reader
            (at (rows self.now.checked.now) reader).node) }
    {
        let reading = Point {
            path: point.path,
            row: reader,
        };
        match node_of(self.checked, reader) {
            Node::Switches { test }
                if is_row(test_of(self.checked, Node::Switches { test }), point.row) => {
                let iteration = iteration_of(self.checked, self.cells, point.path);
                add_switches(found, self.links, reading, iteration, test, value)
            }
            Node::Next { value: read, .. } if read as usize == point.row => {
                let iteration = iteration_of(self.checked, self.cells, point.path);
                add_next(found, self.checked, reading, iteration, value)
            }
            _ => Ok(()),
        }
    }
}

/// The predicate that a row of this node follows, if it is the switches of a loop that has one.
fn test_of(checked: &Checked, node: Node) -> Option<usize>
    ensures { result ≡ test_of_loop (rows checked.now) node }
{
    test_of_loop(checked.table.rows.as_slice(), node)
}

/// Adds the fact that comes where a name or a loop of this node, which may be On by the fact of this number, gets the
/// value that it waits for.
fn add_woken_by(
    found: &mut Vec<RowFact>,
    checked: &Checked,
    wait: Wait,
    value: RowValue,
    spot: Option<usize>,
    node: Node,
) -> Result<(), AllocError>
    ensures { OnOk result (found.new.items ≡ found.old.items
        ++ woken_by checked.now wait value spot node (at (rows checked.now) wait.user).node) }
{
    match (spot, node, node_of(checked, wait.user)) {
        (Some(_), Node::Name { .. }, _) if wait.user == wait.row => {
            add_has(found, wait.path, wait.row, value)
        }
        (Some(spot), Node::Loop { head, .. }, Node::Next { .. })
            if block_of(checked, wait.user) == head as usize => {
            let first = Trail::Below { spot, number: 0 };
            add_has(found, first, wait.user, value)
        }
        _ => Ok(()),
    }
}

/// The iteration that the path ends in, if it ends in one.
pub fn iteration_of(checked: &Checked, cells: &Cells, path: Trail) -> Option<Iteration>
    ensures { result ≡ iteration_of checked.now cells.now path }
{
    match path {
        Trail::Below { spot, .. } => iteration_in(checked, cells.fact(spot)),
        Trail::Outermost => None,
    }
}

/// The iteration of the loop that is On by the fact.
fn iteration_in(checked: &Checked, fact: RowFact) -> Option<Iteration>
    ensures { result ≡ iteration_in checked.now fact }
{
    match fact {
        RowFact::On { row, .. } => iteration_by(node_of(checked, row)),
        _ => None,
    }
}

/// The iteration of a loop at a row of this node.
fn iteration_by(node: Node) -> Option<Iteration>
    ensures { result ≡ iteration_by node }
{
    match node {
        Node::Loop {
            head,
            switches,
            last,
        } => Some(Iteration {
            head: head as usize,
            switches: switches as usize,
            last: last as usize,
        }),
        _ => None,
    }
}

/// Adds the facts that come by this value of the predicate, if the switches at the row are those of the iteration.
fn add_switches(
    found: &mut Vec<RowFact>,
    links: &Links,
    point: Point,
    iteration: Option<Iteration>,
    test: usize,
    value: RowValue,
) -> Result<(), AllocError>
    ensures { OnOk result (found.new.items ≡ found.old.items
        ++ switches_by links.now point.path iteration point.row test value) }
{
    match iteration {
        Some(iteration) if point.row == iteration.switches => {
            add_turn(found, links, point.path, iteration, test, value)
        }
        _ => Ok(()),
    }
}

/// Adds the facts that come by this value of the predicate in an iteration.
fn add_turn(
    found: &mut Vec<RowFact>,
    links: &Links,
    path: Trail,
    iteration: Iteration,
    test: usize,
    value: RowValue,
) -> Result<(), AllocError>
    ensures { OnOk result (found.new.items ≡ found.old.items
        ++ turn_by links.now path iteration test value) }
{
    match value {
        RowValue::Bool(true) => {
            add_on_at(found, next_of(path), test)?;
            add_ons(found, path, links.turns.of(iteration.switches))
        }
        RowValue::Bool(false) => {
            found.push(RowFact::On {
                path,
                row: iteration.last,
            })?;
            Ok(())
        }
        _ => Ok(()),
    }
}

/// Adds that the variable Has the value in the next iteration, if the `next` at the row is one of the iteration's loop.
fn add_next(
    found: &mut Vec<RowFact>,
    checked: &Checked,
    point: Point,
    iteration: Option<Iteration>,
    value: RowValue,
) -> Result<(), AllocError>
    ensures { OnOk result (found.new.items ≡ found.old.items
        ++ next_by checked.now point.path iteration point.row value) }
{
    match iteration {
        Some(iteration) if block_of(checked, point.row) == iteration.head => {
            add_has_at(found, next_of(point.path), point.row, value)
        }
        _ => Ok(()),
    }
}

/// Adds that the row is On at the path, if there is one.
fn add_on_at(found: &mut Vec<RowFact>, path: Option<Trail>, row: usize) -> Result<(), AllocError>
    ensures { OnOk result (found.new.items ≡ found.old.items
        ++ on_at path row) }
{
    if let Some(path) = path {
        found.push(RowFact::On { path, row })?;
    }
    Ok(())
}

/// Adds that the row Has the value at the path, if there is one.
fn add_has_at(
    found: &mut Vec<RowFact>,
    path: Option<Trail>,
    row: usize,
    value: RowValue,
) -> Result<(), AllocError>
    ensures { OnOk result (found.new.items ≡ found.old.items
        ++ has_at path row value) }
{
    match path {
        Some(path) => add_has(found, path, row, value),
        None => Ok(()),
    }
}
