//! What comes at a row from what it reads (docs/MEANING.md, "Rules").

ghost use Rattle.std.specs.Prelude.{◌≡◌, ◌++◌, OnOk};
ghost use Rattle.id_meaning.specs.Given.{arm_by, arms, chosen, from_found, from_on, given, seen};
ghost use Rattle.id_facts.specs.Firsts.{haves};
ghost use Rattle.id_source.specs.Links.{arm_of};

use crate::operators::{add_binary_at, add_unary_at};
use crate::rules::{Lookup, Rules};
use crate::structures::{add_array_at, add_fetch_at, add_store};
use id_facts::{Point, RowFact, RowValue, Trail, add_has, add_values, row_value};
use id_source::{beyond, far, node_of};
use id_table::Node;
use std::alloc::AllocError;

impl Rules<'_> {
    /// Adds the facts that come at the row at the path.
    pub fn add_given(
        &self,
        found: &mut Vec<RowFact>,
        lookup: &Lookup<'_>,
        point: Point,
    ) -> Result<(), AllocError>
        ensures { OnOk result (found.new.items ≡ found.old.items
            ++ given self.now.checked.now lookup.now.cells.now lookup.now.followed point.path point.row) }
    {
        match node_of(self.checked, point.row) {
            Node::Binding { value, .. } => add_seen(found, lookup, point, point.path, Some(value)),
            node => {
                let spot = lookup.cells.find(point.path, point.row);
                self.add_found(found, lookup, point, node, spot)
            }
        }
    }

    /// Adds the facts that come at the row of this node at the path, if it is On, by the fact of this number.
    fn add_found(
        &self,
        found: &mut Vec<RowFact>,
        lookup: &Lookup<'_>,
        point: Point,
        node: Node,
        spot: Option<usize>,
    ) -> Result<(), AllocError>
        ensures { OnOk result (found.new.items ≡ found.old.items
            ++ from_found self.now.checked.now lookup.now.cells.now lookup.now.followed point.path point.row node
            spot) }
    {
        match spot {
            Some(spot) => self.add_from_on(found, lookup, point, spot, node),
            None => Ok(()),
        }
    }

    /// Adds the facts that come at the row of this node at the path, which is On by the fact of number `spot`.
    fn add_from_on(
        &self,
        found: &mut Vec<RowFact>,
        lookup: &Lookup<'_>,
        point: Point,
        spot: usize,
        node: Node,
    ) -> Result<(), AllocError>
        ensures { OnOk result (found.new.items ≡ found.old.items
            ++ from_on self.now.checked.now lookup.now.cells.now lookup.now.followed point.path point.row spot
            node) }
    {
        match node {
            Node::Literal { value } => add_has(found, point.path, point.row, row_value(value)),
            Node::Name { .. } => {
                let away = far(self.checked, point.row, node);
                let outer = lookup.cells.out_of(point.path, away);
                let there = beyond(self.checked, point.row, node);
                add_seen(found, lookup, point, outer, there)
            }
            Node::Unary { op, operand } => add_unary_at(found, lookup, point, op, operand),
            Node::Binary { op, left, right } => {
                add_binary_at(found, lookup, point, op, left, right)
            }
            Node::If {
                then,
                otherwise,
                ..
            } => {
                let test = beyond(self.checked, point.row, node);
                add_if(
                    found,
                    lookup,
                    point,
                    then as usize,
                    otherwise as usize,
                    test,
                )
            }
            Node::Block { body } => add_seen(found, lookup, point, point.path, Some(body)),
            Node::Array { low, high, .. } => add_array_at(found, lookup, point, spot, low, high),
            Node::Fetch { target, index } => add_fetch_at(found, lookup, point, target, index),
            Node::Store { address, value } => {
                add_store(found, lookup, point, node_of(self.checked, address), value)
            }
            _ => Ok(()),
        }
    }
}

/// Adds that the row Has at the path what the row `there` Has at the path `outer`, if there is one.
pub fn add_seen(
    found: &mut Vec<RowFact>,
    lookup: &Lookup<'_>,
    point: Point,
    outer: Trail,
    there: Option<usize>,
) -> Result<(), AllocError>
    ensures { OnOk result (found.new.items ≡ found.old.items
        ++ haves point.path point.row (seen lookup.now.cells.now lookup.now.followed outer there)) }
{
    let values = lookup.seen(outer, there)?;
    add_values(found, point.path, point.row, values.as_slice())
}

/// Adds what comes at a conditional with these arms, whose predicate is at the row `test`, if there is one.
fn add_if(
    found: &mut Vec<RowFact>,
    lookup: &Lookup<'_>,
    point: Point,
    then: usize,
    otherwise: usize,
    test: Option<usize>,
) -> Result<(), AllocError>
    ensures { OnOk result (found.new.items ≡ found.old.items
        ++ arms lookup.now.cells.now lookup.now.followed point.path point.row then otherwise
        (seen lookup.now.cells.now lookup.now.followed point.path test)) }
{
    let tests = lookup.seen(point.path, test)?;
    add_arms(found, lookup, point, then, otherwise, tests.as_slice())
}

/// Adds, for each of these values of the predicate, that its arm is On, and what that Has.
fn add_arms(
    found: &mut Vec<RowFact>,
    lookup: &Lookup<'_>,
    point: Point,
    then: usize,
    otherwise: usize,
    tests: &[RowValue],
) -> Result<(), AllocError>
    ensures { OnOk result (found.new.items ≡ found.old.items
        ++ arms lookup.now.cells.now lookup.now.followed point.path point.row then otherwise tests.now) }
{
    for test in tests {
        add_arm(found, lookup, point, then, otherwise, *test)?;
    }
    Ok(())
}

/// Adds that the arm of this value of the predicate is On, and what that Has.
fn add_arm(
    found: &mut Vec<RowFact>,
    lookup: &Lookup<'_>,
    point: Point,
    then: usize,
    otherwise: usize,
    test: RowValue,
) -> Result<(), AllocError>
    ensures { OnOk result (found.new.items ≡ found.old.items
        ++ arm_by lookup.now.cells.now lookup.now.followed point.path point.row then otherwise test) }
{
    match test {
        RowValue::Bool(truth) => {
            add_chosen(found, lookup, point, arm_of(truth, then, otherwise))
        }
        _ => Ok(()),
    }
}

/// Adds that the arm at this row is On, and what that Has.
fn add_chosen(
    found: &mut Vec<RowFact>,
    lookup: &Lookup<'_>,
    point: Point,
    arm: usize,
) -> Result<(), AllocError>
    ensures { OnOk result (found.new.items ≡ found.old.items
        ++ chosen lookup.now.cells.now lookup.now.followed point.path point.row arm) }
{
    found.push(RowFact::On {
        path: point.path,
        row: arm,
    })?;
    add_seen(found, lookup, point, point.path, Some(arm))
}

/// The arm that this truth value turns On.
fn arm_of(truth: bool, then: usize, otherwise: usize) -> usize
    ensures { result ≡ arm_of truth then otherwise }
{
    if truth { then } else { otherwise }
}
