//! What a run shows: the answer, what binders have, structures and their cells, fetches that wait, and the faults
//! (docs/MACHINE.md, "Observed").

ghost use Rattle.std.specs.Prelude.{◌≡◌, ◌<◌, ◌-◌, map};
ghost use Rattle.std.specs.Prelude.{slice_get};
ghost use Rattle.std.specs.Prelude.{IfOk, option_and_then};
ghost use Rattle.std.specs.List.{filter_map, flat_map};
ghost use Rattle.id_bank.specs.Cells.{cells_of, deferred_of};
ghost use Rattle.id_observe.specs.Observed.{answer_in, ask_of, asks_in, asks_of, cells_in};
ghost use Rattle.id_observe.specs.Paths.{events_of};
ghost use Rattle.id_observe.specs.Sourced.{faults_in, faults_of};
ghost use Rattle.id_observe.specs.Observed.{first_value};
ghost use Rattle.id_observe.specs.Observed.{names_in, names_of, put_of};
ghost use Rattle.id_observe.specs.Sourced.{source_value};
ghost use Rattle.id_observe.specs.Observed.{shape_at};
ghost use Rattle.id_observe.specs.Paths.{structure_by};
ghost use Rattle.id_observe.specs.Observed.{structures_in, waiting_in};
ghost use Rattle.id_observe.specs.Paths.{path_by};
ghost use Rattle.id_observe.specs.Elements.{AreOf, KeepAll, KeepNames};

use crate::asks::all_asks;
use crate::faults::all_faults;
use crate::records::{Paths, Records, Whole};
use crate::shown::{all_cells, all_names, all_structures, all_waiting};
use crate::sourced::value_in;
use id_source::{Ask, NameValue, Put, Shape, SourceFault, SourceValue};
use id_step::Element;
use id_valid::Valid;
use id_value::Sequence;
use std::alloc::{AllocError, Global};

/// What a run shows, named by paths and places of the text alone.
#[derive(Drop)]
pub struct Observed {
    /// The value of the first token that instruction 0 handled under main's tag.
    pub answer: Option<SourceValue>,
    /// For each token that a label handled, one element's record after another's: what its binder Has.
    pub names: Sequence<NameValue>,
    /// For each `alloc` that made one, one element's record after another's: the structure and its bounds.
    pub structures: Sequence<Shape>,
    /// For each cell that holds a value, one element's cells after another's: what is put into it, and by which store.
    pub cells: Sequence<Put>,
    /// For each read that was handled, one element's record after another's: which fetch asks for which cell.
    pub asks: Sequence<Ask>,
    /// For each reply that waits for a cell's value, one element's cells after another's: which fetch asks for which
    /// cell.
    pub waiting: Sequence<Ask>,
    /// For each event that was a fault, one element's record after another's: what went wrong, and at which place.
    pub faults: Sequence<SourceFault>,
}

/// What the records of these elements show: `Memory` aside there is always an answer.
pub fn observe_records(
    alloc: Global,
    graph: &Valid,
    elements: &[Element<'_>],
) -> Result<Observed, AllocError>
    requires of { AreOf graph.now elements.now }
    requires kept { KeepAll elements.now }
    ensures answer { IfOk result (λ o. o.answer ≡ answer_in graph.now (map (λ e. e.state) elements.now)) }
    ensures names { IfOk result (λ o. o.names ≡ names_in graph.now (map (λ e. e.state) elements.now)) }
    ensures structures { IfOk result
        (λ o. o.structures ≡ structures_in graph.now (map (λ e. e.state) elements.now)) }
    ensures cells { IfOk result (λ o. o.cells ≡ cells_in graph.now (map (λ e. e.state) elements.now)) }
    ensures asks { IfOk result (λ o. o.asks ≡ asks_in graph.now (map (λ e. e.state) elements.now)) }
    ensures waiting { IfOk result (λ o. o.waiting ≡ waiting_in graph.now (map (λ e. e.state) elements.now)) }
    ensures faults { IfOk result (λ o. o.faults ≡ faults_in graph.now (map (λ e. e.state) elements.now)) }
{
    let records = Records {
        graph: graph.graph(),
        elements,
    };
    let paths = Paths::new(alloc, &records)?;
    shown_by(alloc, &Whole { paths })
}

/// What these records show that binders have, for who asks for nothing else.
pub fn observe_names(alloc: Global, records: &Records<'_>) -> Result<Vec<NameValue>, AllocError>
    requires { KeepNames records.now.elements.now }
    ensures { IfOk result
        (λ v. v.items ≡ names_in records.now.graph.now (map (λ e. e.state) records.now.elements.now)) }
{
    let paths = Paths::new(alloc, records)?;
    all_names(alloc, &paths)
}

/// What the records show, by these paths and names.
fn shown_by(alloc: Global, whole: &Whole<'_>) -> Result<Observed, AllocError>
    ensures answer { IfOk result (λ o. o.answer ≡ option_and_then (source_value (structure_by whole.now.paths))
        (slice_get whole.now.paths.values.items 0)) }
    ensures names { IfOk result (λ o. o.names
        ≡ names_of whole.now.paths.graph.now (path_by whole.now.paths) (structure_by whole.now.paths)
        (events_of (map (λ e. e.state) whole.now.paths.elements.now))) }
    ensures structures { IfOk result (λ o. o.structures
        ≡ map (shape_at whole.now.paths.graph.now (path_by whole.now.paths)) whole.now.paths.makings.items) }
    ensures cells { IfOk result (λ o. o.cells
        ≡ filter_map (put_of whole.now.paths.graph.now (path_by whole.now.paths) (structure_by whole.now.paths))
        (flat_map (λ e. cells_of e.cells) (map (λ e. e.state) whole.now.paths.elements.now))) }
    ensures asks { IfOk result (λ o. o.asks
        ≡ asks_of whole.now.paths.graph.now (path_by whole.now.paths) (structure_by whole.now.paths)
        (events_of (map (λ e. e.state) whole.now.paths.elements.now))) }
    ensures waiting { IfOk result (λ o. o.waiting
        ≡ map (ask_of whole.now.paths.graph.now (path_by whole.now.paths) (structure_by whole.now.paths))
        (flat_map (λ e. deferred_of e.cells) (map (λ e. e.state) whole.now.paths.elements.now))) }
    ensures faults { IfOk result (λ o. o.faults
        ≡ faults_of whole.now.paths.graph.now (path_by whole.now.paths) (structure_by whole.now.paths)
        (events_of (map (λ e. e.state) whole.now.paths.elements.now))) }
{
    let told = told_by(alloc, whole)?;
    let held = held_by(alloc, &whole.paths)?;
    Ok(Observed {
        answer: told.answer,
        names: told.names,
        structures: held.structures,
        cells: held.cells,
        asks: told.asks,
        waiting: held.waiting,
        faults: told.faults,
    })
}

/// The answer, what binders have, what fetches ask for, and the faults.
#[derive(Drop)]
struct Told {
    answer: Option<SourceValue>,
    names: Sequence<NameValue>,
    asks: Sequence<Ask>,
    faults: Sequence<SourceFault>,
}

/// The answer that the records show, what binders have, what fetches ask for, and their faults, by these paths and
/// names.
fn told_by(alloc: Global, whole: &Whole<'_>) -> Result<Told, AllocError>
    ensures answer { IfOk result (λ o. o.answer ≡ option_and_then (source_value (structure_by whole.now.paths))
        (slice_get whole.now.paths.values.items 0)) }
    ensures names { IfOk result (λ o. o.names
        ≡ names_of whole.now.paths.graph.now (path_by whole.now.paths) (structure_by whole.now.paths)
        (events_of (map (λ e. e.state) whole.now.paths.elements.now))) }
    ensures asks { IfOk result (λ o. o.asks
        ≡ asks_of whole.now.paths.graph.now (path_by whole.now.paths) (structure_by whole.now.paths)
        (events_of (map (λ e. e.state) whole.now.paths.elements.now))) }
    ensures faults { IfOk result (λ o. o.faults
        ≡ faults_of whole.now.paths.graph.now (path_by whole.now.paths) (structure_by whole.now.paths)
        (events_of (map (λ e. e.state) whole.now.paths.elements.now))) }
{
    let paths = &whole.paths;
    let names = all_names(alloc, paths)?;
    let asks = all_asks(alloc, whole)?;
    let faults = all_faults(alloc, whole)?;
    let answer = value_in(alloc, paths, paths.first_value())?;
    Ok(Told {
        answer,
        names: Sequence::new(names),
        asks: Sequence::new(asks),
        faults: Sequence::new(faults),
    })
}

/// Structures, what is put into their cells, and the fetches that wait.
#[derive(Drop)]
struct Held {
    structures: Sequence<Shape>,
    cells: Sequence<Put>,
    waiting: Sequence<Ask>,
}

/// What the elements show of structures, by these paths and names.
fn held_by(alloc: Global, paths: &Paths<'_>) -> Result<Held, AllocError>
    ensures structures { IfOk result (λ o. o.structures
        ≡ map (shape_at paths.now.graph.now (path_by paths.now)) paths.now.makings.items) }
    ensures cells { IfOk result (λ o. o.cells
        ≡ filter_map (put_of paths.now.graph.now (path_by paths.now) (structure_by paths.now))
        (flat_map (λ e. cells_of e.cells) (map (λ e. e.state) paths.now.elements.now))) }
    ensures waiting { IfOk result (λ o. o.waiting
        ≡ map (ask_of paths.now.graph.now (path_by paths.now) (structure_by paths.now))
        (flat_map (λ e. deferred_of e.cells) (map (λ e. e.state) paths.now.elements.now))) }
{
    let structures = all_structures(alloc, paths)?;
    let cells = all_cells(alloc, paths)?;
    let waiting = all_waiting(alloc, paths)?;
    Ok(Held {
        structures: Sequence::new(structures),
        cells: Sequence::new(cells),
        waiting: Sequence::new(waiting),
    })
}
