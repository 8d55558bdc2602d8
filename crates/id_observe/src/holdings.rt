//! What a run shows of its answer and of structures, for who asks for nothing else (docs/MACHINE.md, "Observed").

ghost use Rattle.std.specs.Prelude.{◌≡◌, ◌++◌, ◌↔◌, [], map, option_and_then, slice_get, IfOk, OnOk};
ghost use Rattle.std.specs.Prelude.{IsTrue};
ghost use Rattle.std.specs.List.{cons_option, filter_map, flat_map};
ghost use Rattle.id_bank.specs.Cells.{cells_of, deferred_of};
ghost use Rattle.id_observe.specs.Observed.{HaveNoCells, MakesNone, IsNamed, answer_in, ask_of, cell_value_of};
ghost use Rattle.id_observe.specs.Observed.{cell_values_in, shape_at, structures_in};
ghost use Rattle.id_observe.specs.Sourced.{source_value};
ghost use Rattle.id_observe.specs.Paths.{structure_by};
ghost use Rattle.id_observe.specs.Observed.{waiting_in};
ghost use Rattle.id_observe.specs.Paths.{path_by};

use crate::answered::answer;
use crate::paths::is_alloc;
use crate::records::{Paths, Records};
use crate::shown::{CellValue, Named, all_structures, all_waiting};
use crate::sourced::{source_value, value_in};
use id_bank::{Cells, Filled};
use id_instr::Graph;
use id_source::{Ask, Path, Shape, Site, SourceValue};
use id_step::Element;
use id_tag::Structure;
use id_value::Sequence;
use std::alloc::{AllocError, Global};

/// What a run shows of its answer and of structures, named by paths and places of the text alone.
#[derive(Drop)]
pub struct Holdings {
    /// The value of the first token that instruction 0 handled under main's tag.
    pub answer: Option<SourceValue>,
    /// For each `alloc` that made one, one element's record after another's: the structure and its bounds.
    pub structures: Sequence<Shape>,
    /// For each cell that holds a value, one element's cells after another's.
    pub cells: Sequence<CellValue>,
    /// For each reply that waits for a cell's value, one element's cells after another's: which fetch asks for which
    /// cell.
    pub waiting: Sequence<Ask>,
}

/// What these elements show of the answer and of structures, for who asks for nothing else. The records are looked
/// through once; where no instruction makes structures and no cell was read or written, for the answer alone.
pub fn observe_holdings(alloc: Global, records: &Records<'_>) -> Result<Holdings, AllocError>
    ensures answer { IfOk result
        (λ o. o.answer ≡ answer_in records.now.graph.now (map (λ e. e.state) records.now.elements.now)) }
    ensures structures { IfOk result
        (λ o. o.structures ≡ structures_in records.now.graph.now (map (λ e. e.state) records.now.elements.now)) }
    ensures cells { IfOk result
        (λ o. o.cells ≡ cell_values_in records.now.graph.now (map (λ e. e.state) records.now.elements.now)) }
    ensures waiting { IfOk result
        (λ o. o.waiting ≡ waiting_in records.now.graph.now (map (λ e. e.state) records.now.elements.now)) }
{
    if hold_nothing(records.graph, records.elements) {
        return Ok(no_holdings(alloc, answer(alloc, records)?));
    }
    held(alloc, records)
}

/// The same where there may be structures or cells.
fn held(alloc: Global, records: &Records<'_>) -> Result<Holdings, AllocError>
    ensures answer { IfOk result
        (λ o. o.answer ≡ answer_in records.now.graph.now (map (λ e. e.state) records.now.elements.now)) }
    ensures structures { IfOk result
        (λ o. o.structures ≡ structures_in records.now.graph.now (map (λ e. e.state) records.now.elements.now)) }
    ensures cells { IfOk result
        (λ o. o.cells ≡ cell_values_in records.now.graph.now (map (λ e. e.state) records.now.elements.now)) }
    ensures waiting { IfOk result
        (λ o. o.waiting ≡ waiting_in records.now.graph.now (map (λ e. e.state) records.now.elements.now)) }
{
    let paths = Paths::new(alloc, records)?;
    held_by(alloc, &paths)
}

/// What elements show of the answer and of structures, by these paths and names.
fn held_by(alloc: Global, paths: &Paths<'_>) -> Result<Holdings, AllocError>
    ensures answer { IfOk result (λ o. o.answer
        ≡ option_and_then (source_value (structure_by paths.now)) (slice_get paths.now.values.items 0)) }
    ensures structures { IfOk result (λ o. o.structures
        ≡ map (shape_at paths.now.graph.now (path_by paths.now)) paths.now.makings.items) }
    ensures cells { IfOk result (λ o. o.cells
        ≡ filter_map (cell_value_of (structure_by paths.now))
        (flat_map (λ e. cells_of e.cells) (map (λ e. e.state) paths.now.elements.now))) }
    ensures waiting { IfOk result (λ o. o.waiting
        ≡ map (ask_of paths.now.graph.now (path_by paths.now) (structure_by paths.now))
        (flat_map (λ e. deferred_of e.cells) (map (λ e. e.state) paths.now.elements.now))) }
{
    let structures = all_structures(alloc, paths)?;
    let cells = all_cell_values(alloc, paths)?;
    let waiting = all_waiting(alloc, paths)?;
    let answer = value_in(alloc, paths, paths.first_value())?;
    Ok(Holdings {
        answer,
        structures: Sequence::new(structures),
        cells: Sequence::new(cells),
        waiting: Sequence::new(waiting),
    })
}

/// Whether no instruction makes structures, and no cell was read or written at these elements.
fn hold_nothing(graph: &Graph, elements: &[Element<'_>]) -> bool
    ensures { IsTrue result ↔ (MakesNone graph.now × HaveNoCells elements.now) }
{
    makes_none(graph) && have_no_cells(elements)
}

/// Whether no instruction makes structures.
fn makes_none(graph: &Graph) -> bool
    ensures { IsTrue result ↔ MakesNone graph.now }
{
    graph.instrs().iter().all(|instr| !is_alloc(Some(instr.op)))
}

/// Whether no cell was read or written at these elements.
fn have_no_cells(elements: &[Element<'_>]) -> bool
    ensures { IsTrue result ↔ HaveNoCells elements.now }
{
    elements.iter().all(|element| element.has_no_cells())
}

/// This answer, and nothing of structures.
fn no_holdings(alloc: Global, answer: Option<SourceValue>) -> Holdings
    ensures answer { result.answer ≡ answer }
    ensures structures { result.structures ≡ [] }
    ensures cells { result.cells ≡ [] }
    ensures waiting { result.waiting ≡ [] }
{
    Holdings {
        answer,
        structures: Sequence::new(Vec::new(alloc)),
        cells: Sequence::new(Vec::new(alloc)),
        waiting: Sequence::new(Vec::new(alloc)),
    }
}

/// What the cells of the elements hold.
fn all_cell_values(alloc: Global, paths: &Paths<'_>) -> Result<Vec<CellValue>, AllocError>
    ensures { IfOk result
        (λ v. v.items
        ≡ filter_map (cell_value_of (structure_by paths.now))
        (flat_map (λ e. cells_of e.cells) (map (λ e. e.state) paths.now.elements.now))) }
{
    let mut values = Vec::new(alloc);
    for element in paths.elements {
        add_cell_values(alloc, paths, element.cells(alloc)?, &mut values)?;
    }
    Ok(values)
}

/// Adds what these cells hold. Where many of one structure stand together, its name is looked up once for them.
fn add_cell_values(
    alloc: Global,
    paths: &Paths<'_>,
    cells: Cells<'_>,
    values: &mut Vec<CellValue>,
) -> Result<(), AllocError>
    ensures { OnOk result (values.new.items ≡ values.old.items
        ++ filter_map (cell_value_of (structure_by paths.now)) cells.entry) }
{
    values.reserve(cells.len())?;
    let at_hand = with_name(alloc, paths, NOTHING)?;
    add_each_named(alloc, paths, at_hand, cells, values)
}

/// The same, with a structure at hand.
fn add_each_named(
    alloc: Global,
    paths: &Paths<'_>,
    at_hand: Named,
    cells: Cells<'_>,
    values: &mut Vec<CellValue>,
) -> Result<(), AllocError>
    requires { IsNamed paths.now at_hand }
    ensures { OnOk result (values.new.items ≡ values.old.items
        ++ filter_map (cell_value_of (structure_by paths.now)) cells.entry) }
{
    let mut cells = cells;
    let mut at_hand = at_hand;
    while let Some(cell) = cells.next() {
        at_hand = add_named(alloc, paths, at_hand, cell, values)?;
    }
    Ok(())
}

/// Adds what a cell holds, and gives its structure with the name, which is that at hand if it is the same one.
fn add_named(
    alloc: Global,
    paths: &Paths<'_>,
    at_hand: Named,
    cell: Filled,
    values: &mut Vec<CellValue>,
) -> Result<Named, AllocError>
    requires { IsNamed paths.now at_hand }
    ensures name { IfOk result (IsNamed paths.now) }
    ensures values { OnOk result (values.new.items ≡ values.old.items
        ++ cons_option (cell_value_of (structure_by paths.now) cell) []) }
{
    let named = named_for(alloc, paths, at_hand, cell.cell.structure)?;
    add_cell_value(cell_value_of(alloc, paths, &named, cell)?, values)?;
    Ok(named)
}

/// A structure whose name is looked up before there is a cell.
const NOTHING: Structure = Structure {
    element: 0,
    serial: 0,
    low: 0,
    high: 0,
    nested: false,
};

/// The structure with its name.
fn with_name(alloc: Global, paths: &Paths<'_>, structure: Structure) -> Result<Named, AllocError>
    ensures structure { IfOk result (λ n. n.structure ≡ structure) }
    ensures name { IfOk result (IsNamed paths.now) }
{
    Ok(Named {
        structure,
        name: paths.name(alloc, structure)?,
    })
}

/// The structure with its name, which is that at hand if it is the same one.
fn named_for(
    alloc: Global,
    paths: &Paths<'_>,
    at_hand: Named,
    structure: Structure,
) -> Result<Named, AllocError>
    requires { IsNamed paths.now at_hand }
    ensures structure { IfOk result (λ n. n.structure ≡ structure) }
    ensures name { IfOk result (IsNamed paths.now) }
{
    if at_hand.structure == structure {
        Ok(at_hand)
    } else {
        with_name(alloc, paths, structure)
    }
}

/// What a cell of this structure holds.
fn cell_value_of(
    alloc: Global,
    paths: &Paths<'_>,
    named: &Named,
    filled: Filled,
) -> Result<Option<CellValue>, AllocError>
    requires named { IsNamed paths.now named.now }
    requires structure { named.now.structure ≡ filled.cell.structure }
    ensures { IfOk result (λ o. o ≡ cell_value_of (structure_by paths.now) filled) }
{
    match source_value(alloc, paths, filled.value)? {
        Some(value) => Ok(Some(CellValue {
            name: copy_site(alloc, &named.name)?,
            index: filled.cell.index,
            value,
        })),
        None => Ok(None),
    }
}

/// A site like this one.
fn copy_site(alloc: Global, site: &Site) -> Result<Site, AllocError>
    ensures { IfOk result (λ s. s ≡ site.now) }
{
    Ok(Site {
        path: Path {
            steps: Sequence::new(Vec::from_slice(alloc, site.path.steps.as_slice())?),
        },
        place: site.place,
    })
}

/// Adds what a cell holds, if that is a value of the source.
fn add_cell_value(value: Option<CellValue>, values: &mut Vec<CellValue>) -> Result<(), AllocError>
    ensures { OnOk result (values.new.items ≡ values.old.items ++ cons_option value []) }
{
    match value {
        Some(value) => {
            values.push(value)?;
            Ok(())
        }
        None => Ok(()),
    }
}
