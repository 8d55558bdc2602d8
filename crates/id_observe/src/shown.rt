//! What binders have, structures and their cells, and fetches that wait, as records and cells show them
//! (docs/MACHINE.md, "Observed").

ghost use Rattle.std.specs.Prelude.{◌≡◌, ◌==◌, ◌&&◌, ◌<◌, ◌+◌, ◌-◌, ◌^◌, ◌++◌, []};
ghost use Rattle.std.specs.Prelude.{ℕ, false, count_by, map};
ghost use Rattle.std.specs.Prelude.{nat_eq, slice_get, unwrap_or};
ghost use Rattle.std.specs.Prelude.{IfOk, OnOk, None, Some, if◌then◌else◌};
ghost use Rattle.std.specs.HashMap.{get};
ghost use Rattle.std.specs.List.{cons_option, filter_map, flat_map};
ghost use Rattle.id_bank.specs.Cells.{cells_of, deferred_of};
ghost use Rattle.id_observe.specs.Observed.{ask_of, claims};
ghost use Rattle.id_observe.specs.Paths.{events_of};
ghost use Rattle.id_record.specs.Tellings.{is_value_merge};
ghost use Rattle.id_observe.specs.Elements.{KeepNames};
ghost use Rattle.id_observe.specs.Observed.{is_label, is_next};
ghost use Rattle.id_observe.specs.Observed.{label_marks, name_at, name_in, names_of, put_of};
ghost use Rattle.id_observe.specs.Sourced.{source_value};
ghost use Rattle.id_observe.specs.Observed.{shape_at};
ghost use Rattle.id_observe.specs.Paths.{structure_by};
ghost use Rattle.id_observe.specs.Paths.{path_by, place_of};

use crate::paths::{Making, place_of};
use crate::records::Paths;
use crate::sourced::source_value;
use id_bank::{Cells, Filled, Reader};
use id_instr::{Graph, Instr, Op};
use id_record::is_value_merge;
use id_source::{Ask, NameValue, Put, Shape, Site, SourceValue};
use id_tag::{Payload, Structure, Tag, Value};
use std::alloc::{AllocError, Global};
use std::collections::HashMap;

/// What a cell holds.
#[derive(Drop)]
pub struct CellValue {
    /// The name of its structure.
    pub name: Site,
    pub index: i64,
    pub value: SourceValue,
}

/// A structure and its name.
#[derive(Drop)]
pub struct Named {
    pub structure: Structure,
    pub name: Site,
}

/// What the records show that binders have.
pub fn all_names(alloc: Global, paths: &Paths<'_>) -> Result<Vec<NameValue>, AllocError>
    requires { KeepNames paths.now.elements.now }
    ensures { IfOk result
        (λ v. v.items
        ≡ names_of paths.now.graph.now (path_by paths.now) (structure_by paths.now)
        (events_of (map (λ e. e.state) paths.now.elements.now))) }
{
    let marks = label_marks(alloc, paths.graph())?;
    let mut names = Vec::new(alloc);
    for element in paths.elements {
        add_names(alloc, paths, marks.as_slice(), element.merged(), &mut names)?;
    }
    Ok(names)
}

/// For each instruction, by number, whether it is a label.
fn label_marks(alloc: Global, graph: &Graph) -> Result<Vec<bool>, AllocError>
    ensures { IfOk result (λ v. v.items ≡ label_marks graph.now) }
{
    let counts = counts_by_place(alloc, graph)?;
    let mut marks = Vec::with_capacity(alloc, graph.instrs().len())?;
    for instr in graph.instrs() {
        marks.push(is_counted_label(&counts, instr))?;
    }
    Ok(marks)
}

/// Whether an instruction is a label, where these are the counts of the graph.
fn is_counted_label(counts: &HashMap<usize, u32>, instr: &Instr) -> bool
    ensures { result ≡ (is_value_merge instr.now.op && (unwrap_or (get nat_eq counts.now instr.now.place) 0 == 1)) }
{
    is_value_merge(instr.op) && counts.get(&instr.place).copied().unwrap_or(0) == 1
}

/// How many instructions have each place, `next` aside.
fn counts_by_place(alloc: Global, graph: &Graph) -> Result<HashMap<usize, u32>, AllocError>
    ensures { IfOk result (λ m. (p : ℕ) → unwrap_or (get nat_eq m p) 0 ≡ count_by (claims p) graph.now.instrs) }
{
    let mut counts = HashMap::new(alloc);
    for instr in graph.instrs() {
        if !is_next(instr.op) {
            add_count(instr.place, &mut counts)?;
        }
    }
    Ok(counts)
}

/// Counts one more instruction of this place.
fn add_count(place: usize, counts: &mut HashMap<usize, u32>) -> Result<(), AllocError>
    requires { unwrap_or (get nat_eq counts.old place) 0 < 2 ^ 32 - 1 }
    ensures { OnOk result ((p : ℕ) → unwrap_or (get nat_eq counts.new p) 0
        ≡ unwrap_or (get nat_eq counts.old p) 0 + (if place == p then 1 else 0)) }
{
    *counts.entry(place)?.or_insert(0) += 1;
    Ok(())
}

/// Whether the instruction is a `next`.
fn is_next(op: Op) -> bool
    ensures { result ≡ is_next op }
{
    matches!(op, Op::Next(_))
}

/// Adds what binders have where these came to merges.
fn add_names(
    alloc: Global,
    paths: &Paths<'_>,
    marks: &[bool],
    merged: &[Payload],
    names: &mut Vec<NameValue>,
) -> Result<(), AllocError>
    requires { marks.now ≡ label_marks paths.now.graph.now }
    ensures { OnOk result (names.new.items ≡ names.old.items
        ++ filter_map (name_in paths.now.graph.now (path_by paths.now) (structure_by paths.now)) merged.now) }
{
    for payload in merged {
        add_name(name_in(alloc, paths, marks, payload)?, names)?;
    }
    Ok(())
}

/// Adds what a binder has, if it has something.
fn add_name(name: Option<NameValue>, names: &mut Vec<NameValue>) -> Result<(), AllocError>
    ensures { OnOk result (names.new.items ≡ names.old.items ++ cons_option name []) }
{
    match name {
        Some(name) => {
            names.push(name)?;
            Ok(())
        }
        None => Ok(()),
    }
}

/// What a binder has where its label handled this token.
fn name_in(
    alloc: Global,
    paths: &Paths<'_>,
    marks: &[bool],
    payload: &Payload,
) -> Result<Option<NameValue>, AllocError>
    requires { marks.now ≡ label_marks paths.now.graph.now }
    ensures { IfOk result
        (λ o. o ≡ name_in paths.now.graph.now (path_by paths.now) (structure_by paths.now) payload.now) }
{
    match *payload {
        Payload::Token { tag, value, .. } => { name_if_label(alloc, paths, marks, tag, value) }
        Payload::Read { .. } | Payload::Write { .. } => Ok(None),
    }
}

/// What the binder of the label of this tag has, where there is such a label, and a token brought it
/// that value.
fn name_if_label(
    alloc: Global,
    paths: &Paths<'_>,
    marks: &[bool],
    tag: Tag,
    value: Value,
) -> Result<Option<NameValue>, AllocError>
    requires { marks.now ≡ label_marks paths.now.graph.now }
    ensures { IfOk result (λ o. o ≡
        (if is_label paths.now.graph.now tag.instr
        then name_at paths.now.graph.now tag.instr (path_by paths.now tag) (source_value (structure_by paths.now) value)
        else None)) }
{
    if mark_at(marks, tag.instr) {
        let value = source_value(alloc, paths, value)?;
        let name = name_at(alloc, paths, tag, value)?;
        Ok(name)
    } else {
        Ok(None)
    }
}

/// The mark of this number, where there is one.
fn mark_at(marks: &[bool], number: u32) -> bool
    ensures { result ≡ unwrap_or (slice_get marks.now number) false }
{
    marks.get(number as usize).copied().unwrap_or(false)
}

/// What the binder of the label of this tag has, where a token brought it that value.
fn name_at(
    alloc: Global,
    paths: &Paths<'_>,
    tag: Tag,
    value: Option<SourceValue>,
) -> Result<Option<NameValue>, AllocError>
    ensures { IfOk result (λ o. o ≡ name_at paths.now.graph.now tag.instr (path_by paths.now tag) value) }
{
    match value {
        Some(value) => Ok(Some(NameValue {
            path: paths.path(alloc, tag)?,
            place: place_of(paths.graph(), tag.instr),
            value,
        })),
        None => Ok(None),
    }
}

/// The structures that were made.
pub fn all_structures(alloc: Global, paths: &Paths<'_>) -> Result<Vec<Shape>, AllocError>
    ensures { IfOk result
        (λ v. v.items ≡ map (shape_at paths.now.graph.now (path_by paths.now)) paths.now.makings.items) }
{
    let mut shapes = Vec::with_capacity(alloc, paths.makings().len())?;
    for making in paths.makings() {
        shapes.push(shape_at(alloc, paths, *making)?)?;
    }
    Ok(shapes)
}

/// The structure that was made so.
fn shape_at(alloc: Global, paths: &Paths<'_>, making: Making) -> Result<Shape, AllocError>
    ensures { IfOk result (λ s. s ≡ shape_at paths.now.graph.now (path_by paths.now) making) }
{
    Ok(Shape {
        name: paths.site(alloc, making.tag)?,
        low: making.structure.low,
        high: making.structure.high,
    })
}

/// What the cells of the elements show that is put into them.
pub fn all_cells(alloc: Global, paths: &Paths<'_>) -> Result<Vec<Put>, AllocError>
    ensures { IfOk result
        (λ v. v.items
        ≡ filter_map (put_of paths.now.graph.now (path_by paths.now) (structure_by paths.now))
        (flat_map (λ e. cells_of e.cells) (map (λ e. e.state) paths.now.elements.now))) }
{
    let mut puts = Vec::new(alloc);
    for element in paths.elements {
        add_puts(alloc, paths, element.cells(alloc)?, &mut puts)?;
    }
    Ok(puts)
}

/// Adds what these cells hold.
fn add_puts(
    alloc: Global,
    paths: &Paths<'_>,
    cells: Cells<'_>,
    puts: &mut Vec<Put>,
) -> Result<(), AllocError>
    ensures { OnOk result (puts.new.items ≡ puts.old.items
        ++ filter_map (put_of paths.now.graph.now (path_by paths.now) (structure_by paths.now)) cells.entry) }
{
    let mut cells = cells;
    puts.reserve(cells.len())?;
    while let Some(cell) = cells.next() {
        add_put(alloc, paths, cell, puts)?;
    }
    Ok(())
}

/// Adds what is put into a cell, if that is a value of the source.
fn add_put(
    alloc: Global,
    paths: &Paths<'_>,
    filled: Filled,
    puts: &mut Vec<Put>,
) -> Result<(), AllocError>
    ensures { OnOk result (puts.new.items ≡ puts.old.items
        ++ cons_option (put_of paths.now.graph.now (path_by paths.now) (structure_by paths.now) filled) []) }
{
    match put_of(alloc, paths, filled)? {
        Some(put) => {
            puts.push(put)?;
            Ok(())
        }
        None => Ok(()),
    }
}

/// What is put into a cell, and by which store.
fn put_of(alloc: Global, paths: &Paths<'_>, filled: Filled) -> Result<Option<Put>, AllocError>
    ensures { IfOk result (λ o. o ≡ put_of paths.now.graph.now (path_by paths.now) (structure_by paths.now) filled) }
{
    match source_value(alloc, paths, filled.value)? {
        Some(value) => Ok(Some(Put {
            name: paths.name(alloc, filled.cell.structure)?,
            index: filled.cell.index,
            value,
            store: paths.site(alloc, filled.origin)?,
        })),
        None => Ok(None),
    }
}

/// The fetches whose replies wait in the cells of the elements.
pub fn all_waiting(alloc: Global, paths: &Paths<'_>) -> Result<Vec<Ask>, AllocError>
    ensures { IfOk result
        (λ v. v.items
        ≡ map (ask_of paths.now.graph.now (path_by paths.now) (structure_by paths.now))
        (flat_map (λ e. deferred_of e.cells) (map (λ e. e.state) paths.now.elements.now))) }
{
    let mut asks = Vec::new(alloc);
    for element in paths.elements {
        add_asks(alloc, paths, element.deferred(alloc)?.as_slice(), &mut asks)?;
    }
    Ok(asks)
}

/// Adds the fetches of these replies.
fn add_asks(
    alloc: Global,
    paths: &Paths<'_>,
    readers: &[Reader],
    asks: &mut Vec<Ask>,
) -> Result<(), AllocError>
    ensures { OnOk result (asks.new.items ≡ asks.old.items
        ++ map (ask_of paths.now.graph.now (path_by paths.now) (structure_by paths.now)) readers.now) }
{
    asks.reserve(readers.len())?;
    for reader in readers {
        asks.push(ask_of(alloc, paths, *reader)?)?;
    }
    Ok(())
}

/// The cell that the fetch of a reply asks for.
pub(crate) fn ask_of(alloc: Global, paths: &Paths<'_>, reader: Reader) -> Result<Ask, AllocError>
    ensures { IfOk result (λ a. a ≡ ask_of paths.now.graph.now (path_by paths.now) (structure_by paths.now) reader) }
{
    Ok(Ask {
        fetch: paths.site(alloc, reader.reply)?,
        name: paths.name(alloc, reader.cell.structure)?,
        index: reader.cell.index,
    })
}
