//! The lines of a report about structures and their cells, which are kept as two lists in order.

ghost use Rattle.std.specs.Prelude.{◌≡◌, ◌↔◌, ◌<◌, ◌+◌, ◌++◌, IfOk, IsTrue, IsPermutation};
ghost use Rattle.std.specs.Prelude.{drop, length, map};
ghost use Rattle.id_source.specs.Orders.{Rises};
ghost use Rattle.id_print.specs.declared.helds.Held.TheVariants as held;
ghost use Rattle.id_print.specs.Helds.{AreCellsUp, AreShapesUp, is_cell_first, joined};
ghost use Rattle.id_print.specs.Names.{AreApartBy, HeldBefore, IsOrderOf, OfOneThing, held_cmp};

use crate::names::compare_sites;
use id_core::CellValue;
use id_source::Shape;
use id_value::Sequence;
use std::alloc::AllocError;
use std::cmp::Ordering;
use std::marker::Model;

/// A line about a structure.
#[derive(Drop)]
pub enum Held {
    /// Its bounds.
    Array(Shape),
    /// A cell of it, and what it holds.
    Cell(CellValue),
}

/// Lines about structures and their cells. Clauses see one list of them, in which each line of one kind stands before
/// those of the other kind that it comes before.
#[derive(Drop)]
pub struct Helds {
    shapes: Sequence<Shape>,
    cells: Sequence<CellValue>,
}

impl Model for Helds {
    ghost use Rattle.std.specs.Prelude.{List};
    ghost use Rattle.id_print.specs.declared.helds.Held.{Held};
    ghost use Rattle.id_print.specs.Helds.{joined};

    ghost Value = { List Held };

    ghost view = { λ h. joined h.shapes h.cells };
}

impl Helds {
    /// The lines of these structures and cells by name and index, a structure before its cells. Both come in runs that
    /// are in order; to merge those takes as much memory as they do.
    pub fn new(shapes: Sequence<Shape>, cells: Sequence<CellValue>) -> Result<Helds, AllocError>
        ensures sorted { IfOk result
            (λ r. IsOrderOf HeldBefore r (map held.Array shapes ++ map held.Cell cells)) }
        ensures rise { IfOk result
            (λ r. AreApartBy OfOneThing (map held.Array shapes ++ map held.Cell cells) → Rises HeldBefore r) }
    {
        let shapes = sorted_shapes(shapes)?;
        let cells = sorted_cells(cells)?;
        Ok(Helds { shapes, cells })
    }

    /// The structures and the cells, both in order.
    pub fn parts(&self) -> (&[Shape], &[CellValue])
        ensures { self.now ≡ joined result.0.now result.1.now }
    {
        (self.shapes.as_slice(), self.cells.as_slice())
    }
}

/// The structures by name.
fn sorted_shapes(shapes: Sequence<Shape>) -> Result<Sequence<Shape>, AllocError>
    ensures same { IfOk result (λ r. IsPermutation shapes r) }
    ensures up { IfOk result AreShapesUp }
{
    let mut shapes = shapes.into_vec();
    shapes.sort_by(|a, b| compare_shapes(a, b))?;
    Ok(Sequence::new(shapes))
}

/// The cells by the names of their structures, and then by index.
fn sorted_cells(cells: Sequence<CellValue>) -> Result<Sequence<CellValue>, AllocError>
    ensures same { IfOk result (λ r. IsPermutation cells r) }
    ensures up { IfOk result AreCellsUp }
{
    let mut cells = cells.into_vec();
    cells.sort_by(|a, b| compare_cells(a, b))?;
    Ok(Sequence::new(cells))
}

/// How the lines of two structures compare.
fn compare_shapes(a: &Shape, b: &Shape) -> Ordering
    ensures { result ≡ held_cmp (held.Array a.now) (held.Array b.now) }
{
    compare_sites(&a.name, &b.name).then(Ordering::Equal)
}

/// How the lines of two cells compare.
fn compare_cells(a: &CellValue, b: &CellValue) -> Ordering
    ensures { result ≡ held_cmp (held.Cell a.now) (held.Cell b.now) }
{
    compare_sites(&a.name, &b.name).then(a.index.cmp(&b.index))
}

/// Whether there is any line of these.
pub fn has_lines(shapes: &[Shape], cells: &[CellValue]) -> bool
    ensures { IsTrue result ↔ (0 < length shapes.now + length cells.now) }
{
    !shapes.is_empty() || !cells.is_empty()
}

/// Whether the first line of these is that of a cell.
pub fn is_cell_first(shapes: &[Shape], cells: &[CellValue]) -> bool
    ensures { result ≡ is_cell_first shapes.now cells.now }
{
    match (shapes.first(), cells.first()) {
        (Some(shape), Some(cell)) => compare_sites(&cell.name, &shape.name).is_lt(),
        (None, Some(_)) => true,
        (_, None) => false,
    }
}

/// The list without its first element.
pub fn behind_first<T>(list: &[T]) -> &[T]
    requires { 0 < length list.now }
    ensures { result.now ≡ drop 1 list.now }
{
    &list[1..]
}
