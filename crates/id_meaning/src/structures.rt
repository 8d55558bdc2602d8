//! What follows by the rules of arrays, fetches and stores (docs/MEANING.md, "Rules").

ghost use Rattle.std.specs.Prelude.{◌≡◌, ◌++◌, OnOk};
ghost use Rattle.id_facts.specs.Cells.{asks, puts, values};
ghost use Rattle.id_meaning.specs.Given.{answered, array_by, arrays, asked, asked_by, fetch_by, fetches};
ghost use Rattle.id_facts.specs.Firsts.{haves};
ghost use Rattle.id_meaning.specs.Given.{is_in_some, made, made_by, put_in, store_at};
ghost use Rattle.id_meaning.specs.Given.{store_by, stored, stored_by, stores};

use crate::rules::Lookup;
use id_facts::{Bounds, Cells, Point, RowFact, RowValue, add_has, add_values};
use id_table::Node;
use id_value::{bounds_are_good, is_inside};
use std::alloc::{AllocError, Global};

/// Adds what comes of the bounds at these rows at an `array`, which is On by the fact of number `spot`.
pub fn add_array_at(
    found: &mut Vec<RowFact>,
    lookup: &Lookup<'_>,
    point: Point,
    spot: usize,
    low: usize,
    high: usize,
) -> Result<(), AllocError>
    ensures { OnOk result (found.new.items ≡ found.old.items
        ++ arrays point.path point.row spot (values lookup.now.cells.now lookup.now.followed point.path low)
        (values lookup.now.cells.now lookup.now.followed point.path high)) }
{
    let lows = lookup.values(point.path, low)?;
    let highs = lookup.values(point.path, high)?;
    add_array(found, point, spot, lows.as_slice(), highs.as_slice())
}

/// Adds the structures that come of these bounds: the `array` at the path and row is On by the fact of number `spot`.
fn add_array(
    found: &mut Vec<RowFact>,
    point: Point,
    spot: usize,
    lows: &[RowValue],
    highs: &[RowValue],
) -> Result<(), AllocError>
    ensures { OnOk result (found.new.items ≡ found.old.items
        ++ arrays point.path point.row spot lows.now highs.now) }
{
    for low in lows {
        add_array_by(found, point, spot, *low, highs)?;
    }
    Ok(())
}

/// Adds the structures that come of this lower bound with these upper ones.
fn add_array_by(
    found: &mut Vec<RowFact>,
    point: Point,
    spot: usize,
    low: RowValue,
    highs: &[RowValue],
) -> Result<(), AllocError>
    ensures { OnOk result (found.new.items ≡ found.old.items
        ++ array_by point.path point.row spot low highs.now) }
{
    match low {
        RowValue::Int(low) => add_made(found, point, spot, low, highs),
        _ => Ok(()),
    }
}

/// Adds the structures that come of this lower bound with these upper ones.
fn add_made(
    found: &mut Vec<RowFact>,
    point: Point,
    spot: usize,
    low: i64,
    highs: &[RowValue],
) -> Result<(), AllocError>
    ensures { OnOk result (found.new.items ≡ found.old.items
        ++ made point.path point.row spot low highs.now) }
{
    for high in highs {
        add_made_by(found, point, spot, low, *high)?;
    }
    Ok(())
}

/// Adds the structure that comes of these bounds, if they are good.
fn add_made_by(
    found: &mut Vec<RowFact>,
    point: Point,
    spot: usize,
    low: i64,
    high: RowValue,
) -> Result<(), AllocError>
    ensures { OnOk result (found.new.items ≡ found.old.items
        ++ made_by point.path point.row spot low high) }
{
    match high {
        RowValue::Int(high) if bounds_are_good(low, high) => {
            found.push(RowFact::Shape {
                name: spot,
                low,
                high,
            })?;
            add_has(found, point.path, point.row, RowValue::Name(spot))
        }
        _ => Ok(()),
    }
}

/// Adds what comes of the target and the index at these rows at a fetch.
pub fn add_fetch_at(
    found: &mut Vec<RowFact>,
    lookup: &Lookup<'_>,
    point: Point,
    target: usize,
    index: usize,
) -> Result<(), AllocError>
    ensures { OnOk result (found.new.items ≡ found.old.items
        ++ fetches lookup.now.cells.now point.path point.row
        (values lookup.now.cells.now lookup.now.followed point.path target)
        (values lookup.now.cells.now lookup.now.followed point.path index)) }
{
    let targets = lookup.values(point.path, target)?;
    let indices = lookup.values(point.path, index)?;
    add_fetch(found, lookup, point, targets.as_slice(), indices.as_slice())
}

/// Adds that the fetch at the path and row asks for the cells of these structures with these indices.
fn add_fetch(
    found: &mut Vec<RowFact>,
    lookup: &Lookup<'_>,
    point: Point,
    targets: &[RowValue],
    indices: &[RowValue],
) -> Result<(), AllocError>
    ensures { OnOk result (found.new.items ≡ found.old.items
        ++ fetches lookup.now.cells.now point.path point.row targets.now indices.now) }
{
    for target in targets {
        add_fetch_by(found, lookup, point, *target, indices)?;
    }
    Ok(())
}

/// Adds that the fetch asks for the cells of the structure that the value is with these indices.
fn add_fetch_by(
    found: &mut Vec<RowFact>,
    lookup: &Lookup<'_>,
    point: Point,
    target: RowValue,
    indices: &[RowValue],
) -> Result<(), AllocError>
    ensures { OnOk result (found.new.items ≡ found.old.items
        ++ fetch_by lookup.now.cells.now point.path point.row target indices.now) }
{
    match target {
        RowValue::Name(name) => {
            let shapes = lookup.cells.shapes(lookup.alloc, name)?;
            add_fetched(found, point, name, shapes.as_slice(), indices)
        }
        _ => Ok(()),
    }
}

/// Adds that the fetch asks for the cells of this structure with these indices.
fn add_fetched(
    found: &mut Vec<RowFact>,
    point: Point,
    name: usize,
    shapes: &[Bounds],
    indices: &[RowValue],
) -> Result<(), AllocError>
    ensures { OnOk result (found.new.items ≡ found.old.items
        ++ asked point.path point.row name shapes.now indices.now) }
{
    for index in indices {
        add_fetched_by(found, point, name, shapes, *index)?;
    }
    Ok(())
}

/// Adds that the fetch asks for the cell of this structure with this index, if there is one.
fn add_fetched_by(
    found: &mut Vec<RowFact>,
    point: Point,
    name: usize,
    shapes: &[Bounds],
    index: RowValue,
) -> Result<(), AllocError>
    ensures { OnOk result (found.new.items ≡ found.old.items
        ++ asked_by point.path point.row name shapes.now index) }
{
    match index {
        RowValue::Int(index) if is_in_some(shapes, index) => {
            found.push(RowFact::Ask {
                path: point.path,
                row: point.row,
                name,
                index,
            })?;
            Ok(())
        }
        _ => Ok(()),
    }
}

/// Whether the index is inside some of these bounds.
fn is_in_some(shapes: &[Bounds], index: i64) -> bool
    ensures { result ≡ is_in_some shapes.now index }
{
    for bounds in shapes {
        if is_inside(bounds.low, bounds.high, index) {
            return true;
        }
    }
    false
}

/// Adds what the store at the path and row puts into cells, whose address has this node.
pub fn add_store(
    found: &mut Vec<RowFact>,
    lookup: &Lookup<'_>,
    point: Point,
    address: Node,
    value: usize,
) -> Result<(), AllocError>
    ensures { OnOk result (found.new.items ≡ found.old.items
        ++ store_at lookup.now.cells.now lookup.now.followed point.path point.row address value) }
{
    match address {
        Node::Address { target, index } => {
            let targets = lookup.values(point.path, target)?;
            let indices = lookup.values(point.path, index)?;
            let values = lookup.values(point.path, value)?;
            add_stored(
                found,
                lookup,
                point,
                targets.as_slice(),
                indices.as_slice(),
                values.as_slice(),
            )
        }
        _ => Ok(()),
    }
}

/// Adds that the store puts these values into the cells of these structures with these indices.
fn add_stored(
    found: &mut Vec<RowFact>,
    lookup: &Lookup<'_>,
    point: Point,
    targets: &[RowValue],
    indices: &[RowValue],
    values: &[RowValue],
) -> Result<(), AllocError>
    ensures { OnOk result (found.new.items ≡ found.old.items
        ++ stores lookup.now.cells.now point.path point.row targets.now indices.now values.now) }
{
    for target in targets {
        add_store_by(found, lookup, point, *target, indices, values)?;
    }
    Ok(())
}

/// Adds that the store puts these values into the cells of the structure that the value is with these indices.
fn add_store_by(
    found: &mut Vec<RowFact>,
    lookup: &Lookup<'_>,
    point: Point,
    target: RowValue,
    indices: &[RowValue],
    values: &[RowValue],
) -> Result<(), AllocError>
    ensures { OnOk result (found.new.items ≡ found.old.items
        ++ store_by lookup.now.cells.now point.path point.row target indices.now values.now) }
{
    match target {
        RowValue::Name(name) => {
            let shapes = lookup.cells.shapes(lookup.alloc, name)?;
            add_stored_in(found, point, name, shapes.as_slice(), indices, values)
        }
        _ => Ok(()),
    }
}

/// Adds that the store puts these values into the cells of this structure with these indices.
fn add_stored_in(
    found: &mut Vec<RowFact>,
    point: Point,
    name: usize,
    shapes: &[Bounds],
    indices: &[RowValue],
    values: &[RowValue],
) -> Result<(), AllocError>
    ensures { OnOk result (found.new.items ≡ found.old.items
        ++ stored point.path point.row name shapes.now indices.now values.now) }
{
    for index in indices {
        add_stored_by(found, point, name, shapes, *index, values)?;
    }
    Ok(())
}

/// Adds that the store puts these values into the cell of this structure with this index, if there is one.
fn add_stored_by(
    found: &mut Vec<RowFact>,
    point: Point,
    name: usize,
    shapes: &[Bounds],
    index: RowValue,
    values: &[RowValue],
) -> Result<(), AllocError>
    ensures { OnOk result (found.new.items ≡ found.old.items
        ++ stored_by point.path point.row name shapes.now values.now index) }
{
    match index {
        RowValue::Int(index) if is_in_some(shapes, index) => {
            add_puts(found, point, name, index, values)
        }
        _ => Ok(()),
    }
}

/// Adds that the store puts these values into the cell.
fn add_puts(
    found: &mut Vec<RowFact>,
    point: Point,
    name: usize,
    index: i64,
    values: &[RowValue],
) -> Result<(), AllocError>
    ensures { OnOk result (found.new.items ≡ found.old.items
        ++ put_in point.path point.row name index values.now) }
{
    for value in values {
        found.push(RowFact::Put {
            path: point.path,
            row: point.row,
            name,
            index,
            value: *value,
        })?;
    }
    Ok(())
}

/// Adds that the fetches that ask for the cell Have this value, which is put there.
pub fn add_put(
    alloc: Global,
    found: &mut Vec<RowFact>,
    cells: &Cells,
    name: usize,
    index: i64,
    value: RowValue,
) -> Result<(), AllocError>
    ensures { OnOk result (found.new.items ≡ found.old.items
        ++ answered value (asks cells.now name index)) }
{
    let asks = cells.asks(alloc, name, index)?;
    add_answered(found, value, asks.as_slice())
}

/// Adds that these fetches Have the value.
fn add_answered(found: &mut Vec<RowFact>, value: RowValue, asks: &[Point]) -> Result<(), AllocError>
    ensures { OnOk result (found.new.items ≡ found.old.items
        ++ answered value asks.now) }
{
    for ask in asks {
        add_has(found, ask.path, ask.row, value)?;
    }
    Ok(())
}

/// Adds that the fetch at the path and row Has what is put into the cell, for which it asks.
pub fn add_asked(
    alloc: Global,
    found: &mut Vec<RowFact>,
    cells: &Cells,
    point: Point,
    name: usize,
    index: i64,
) -> Result<(), AllocError>
    ensures { OnOk result (found.new.items ≡ found.old.items
        ++ haves point.path point.row (puts cells.now name index)) }
{
    let values = cells.puts(alloc, name, index)?;
    add_values(found, point.path, point.row, values.as_slice())
}
