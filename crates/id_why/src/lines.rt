//! The things that lack a value, from the answer and the fetches that wait on.

ghost use Rattle.std.specs.Prelude.{◌≡◌, ◌∷◌, ◌++◌, [], IfOk, OnOk};
ghost use Rattle.id_source.specs.Links.{AreArgs};
ghost use Rattle.id_why.specs.Known.{AreIndexed, known_facts};
ghost use Rattle.id_why.specs.Lines.{Explain};
ghost use Rattle.id_why.specs.Found.{lacking};
ghost use Rattle.id_why.specs.Walks.{AreApart, IsLineOf, asking, roots, values_of};

use crate::known::{Cell, Known};
use crate::needs::{add_lacking, needs_of};
use crate::things::Things;
use id_check::Checked;
use id_facts::{Point, RowFact, RowValue, Trail};
use id_source::{Links, main_body};
use std::alloc::{AllocError, Global};

/// A thing that lacks a value, the cells that it asks for, what it needs that lacks one too, and the values of what it
/// needs that has one.
#[derive(Drop)]
pub struct Line {
    pub thing: Point,
    pub cells: Vec<Cell>,
    pub needs: Vec<Point>,
    pub values: Vec<RowValue>,
}

/// The things that lack a value and on which the answer hangs, or a fetch that waits, each once, and each behind one
/// that needs it. More things than a machine word counts, for which no memory has room, are told as want of memory.
pub fn explain(
    alloc: Global,
    checked: &Checked,
    links: &Links,
    known: &Known,
) -> Result<Vec<Line>, AllocError>
    requires indexed { AreIndexed checked.now known.now }
    requires args { AreArgs checked.now links.now.args }
    requires apart { AreApart (known_facts known.now) }
    ensures { IfOk result (λ v. Explain checked.now (known_facts known.now) v.items) }
{
    let mut things = Things::new(alloc)?;
    let first = first_things(alloc, checked, known)?;
    things.add_all(first.as_slice())?;
    let mut lines = Vec::new(alloc);
    for number in 0..usize::MAX {
        if number >= things.len() {
            return Ok(lines);
        }
        let line = line_of(alloc, checked, links, known, things.thing(number))?;
        things.add_all(line.needs.as_slice())?;
        lines.push(line)?;
    }
    Err(AllocError)
}

/// The answer and the fetches that wait, those that lack a value.
fn first_things(alloc: Global, checked: &Checked, known: &Known) -> Result<Vec<Point>, AllocError>
    ensures { IfOk result (λ v. v.items ≡ lacking known.now (roots checked.now (known_facts known.now))) }
{
    let mut all = Vec::new(alloc);
    all.push(Point {
        path: Trail::Outermost,
        row: main_body(checked),
    })?;
    add_asking(&mut all, known.cells.items.as_slice())?;
    let mut found = Vec::new(alloc);
    add_lacking(&mut found, known, all.as_slice())?;
    Ok(found)
}

/// Adds the fetches that ask for a cell by these facts.
fn add_asking(found: &mut Vec<Point>, facts: &[RowFact]) -> Result<(), AllocError>
    ensures { OnOk result (found.new.items ≡ found.old.items ++ asking facts.now) }
{
    for fact in facts {
        if let RowFact::Ask { path, row, .. } = *fact {
            found.push(Point { path, row })?;
        }
    }
    Ok(())
}

/// The line of the thing.
fn line_of(
    alloc: Global,
    checked: &Checked,
    links: &Links,
    known: &Known,
    thing: Point,
) -> Result<Line, AllocError>
    ensures { IfOk result (IsLineOf checked.now links.now known.now thing) }
{
    let cells = known.asks(alloc, thing)?;
    let all = needs_of(alloc, checked, links, known, thing, cells.as_slice())?;
    let mut needs = Vec::new(alloc);
    add_lacking(&mut needs, known, all.as_slice())?;
    let values = values_of(alloc, known, all.as_slice())?;
    Ok(Line {
        thing,
        cells,
        needs,
        values,
    })
}

/// The values of these things.
fn values_of(alloc: Global, known: &Known, points: &[Point]) -> Result<Vec<RowValue>, AllocError>
    ensures { IfOk result (λ v. v.items ≡ values_of known.now points.now) }
{
    let mut found = Vec::new(alloc);
    for point in points {
        let values = known.values(alloc, point.path, point.row)?;
        found.extend_from_slice(values.as_slice())?;
    }
    Ok(found)
}
