//! Names, loops and indices that wait for values (docs/MEANING.md, "Rules").
//!
//! A name that is On waits in a queue for its binder, a loop for those of its variables' names outside, and an index
//! that has a value for its upper bound, so that a value leads to those alone that are On or count.

ghost use Rattle.std.specs.Prelude.{[], ◌∷◌, OnOk};
ghost use Rattle.id_facts.specs.Cells.{items};
ghost use Rattle.id_facts.specs.Waits.{Waits, WaitsFor};

use crate::cells::{Cells, queue_of};
use crate::facts::{RowFact, Trail};
use crate::queues::{Queues, Wait};
use id_check::Checked;
use id_source::{Links, awaited, distance, node_of};
use id_table::Node;
use std::alloc::AllocError;

/// Lets all wait that wait by these facts.
pub fn wait_all(
    waits: &mut Queues,
    checked: &Checked,
    links: &Links,
    cells: &Cells,
    facts: &[RowFact],
) -> Result<(), AllocError>
    ensures { OnOk result (Waits checked.now links.now (items cells.now) waits.old waits.new facts.now) }
{
    for fact in facts {
        wait(waits, checked, links, cells, *fact)?;
    }
    Ok(())
}

/// Lets all wait that wait by this fact.
fn wait(
    waits: &mut Queues,
    checked: &Checked,
    links: &Links,
    cells: &Cells,
    fact: RowFact,
) -> Result<(), AllocError>
    ensures { OnOk result (Waits checked.now links.now (items cells.now) waits.old waits.new (fact ∷ [])) }
{
    match fact {
        RowFact::On { path, row } => match node_of(checked, row) {
            Node::Name { .. } => wait_for(waits, checked, cells, path, row, row),
            Node::Loop { head, .. } => {
                wait_each(
                    waits,
                    checked,
                    cells,
                    path,
                    row,
                    links.args.of(head as usize),
                )
            }
            _ => Ok(()),
        },
        RowFact::Has { path, row, .. } => match node_of(checked, row) {
            Node::Index { .. } => wait_for(waits, checked, cells, path, row, row),
            _ => Ok(()),
        },
        _ => Ok(()),
    }
}

/// Lets these wait where the row is On at the path.
fn wait_each(
    waits: &mut Queues,
    checked: &Checked,
    cells: &Cells,
    path: Trail,
    row: usize,
    users: &[usize],
) -> Result<(), AllocError>
    ensures { OnOk result (WaitsFor checked.now (items cells.now) waits.old waits.new path row users.now) }
{
    for user in users {
        wait_for(waits, checked, cells, path, row, *user)?;
    }
    Ok(())
}

/// Lets this one wait for its binder, if there is one.
fn wait_for(
    waits: &mut Queues,
    checked: &Checked,
    cells: &Cells,
    path: Trail,
    row: usize,
    user: usize,
) -> Result<(), AllocError>
    ensures { OnOk result (WaitsFor checked.now (items cells.now) waits.old waits.new path row (user ∷ [])) }
{
    let binder = awaited(checked, user);
    match binder {
        Some(there) => {
            let outside = cells.out_of(path, distance(checked, row, binder));
            waits.add(queue_of(outside, there), Wait { path, row, user })
        }
        None => Ok(()),
    }
}
