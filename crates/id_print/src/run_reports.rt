//! Reports of runs: how a run ended, and what it has shown, in order.

ghost use Rattle.std.specs.Prelude.{◌≡◌, ◌≢◌, [], false, IsTrue, IsFalse, IfOk};
ghost use Rattle.id_record.specs.declared.kept.Keeps.TheVariants as keeps;
ghost use Rattle.id_core.specs.Observed.{answer, cell_values, faults, names, structures, waiting};
ghost use Rattle.id_source.specs.Orders.{NamesRise, Rises};
ghost use Rattle.id_print.specs.Endings.{EndsSo};
ghost use Rattle.id_print.specs.Names.{IsOrderOf, IsSortedOf, AreApart, AreApartBy, HeldBefore, WaitBefore};
ghost use Rattle.id_print.specs.Names.{OfOneThing, OfOneFetch, held_lines};
ghost use Rattle.id_print.specs.RunReports.{IsReportFrom};

use crate::ending::Ending;
use crate::helds::Helds;
use crate::names::{sorted_asks, sorted_names};
use id_core::{CellValue, Machine};
use id_source::{Ask, NameValue, Shape, SourceValue};
use id_value::Sequence;
use std::alloc::{AllocError, Global};

/// What a run has shown: how it ended, the answer, what binders have, by path and place, where that was asked for, the
/// structures with their cells, by name and index, and the fetches that wait, by path and place.
#[derive(Drop)]
pub struct Report {
    pub ending: Ending,
    pub answer: Option<SourceValue>,
    pub names: Sequence<NameValue>,
    pub structures: Helds,
    pub waiting: Sequence<Ask>,
}

/// The report of a run: it ended at its first fault, by stamp and then by element, where there is one, else it is quiet
/// or it was stopped. What binders have is looked up only where `named` asks for it: else the report has no names.
pub fn run_report(alloc: Global, machine: &Machine<'_>, named: bool) -> Result<Report, AllocError>
    requires { IsTrue named → machine.now.keeps ≢ keeps.Tellings }
    ensures { IfOk result (IsReportFrom machine.now named) }
{
    let names = asked_names(alloc, machine, named)?;
    let mut report = unnamed_report(alloc, machine)?;
    report.names = names;
    Ok(report)
}

/// What binders have where that is asked for, and else no names.
fn asked_names(
    alloc: Global,
    machine: &Machine<'_>,
    named: bool,
) -> Result<Sequence<NameValue>, AllocError>
    requires { IsTrue named → machine.now.keeps ≢ keeps.Tellings }
    ensures names { IfOk result (λ ns. IsTrue named → IsSortedOf ns (names machine.now.graph machine.now.world)) }
    ensures rise { IfOk result
        (λ ns. IsTrue named → AreApart (names machine.now.graph machine.now.world) → NamesRise ns) }
    ensures none { IfOk result (λ ns. IsFalse named → ns ≡ []) }
{
    if named {
        machine_names(alloc, machine)
    } else {
        Ok(Sequence::new(Vec::new(alloc)))
    }
}

/// The report of a run without what binders have.
fn unnamed_report(alloc: Global, machine: &Machine<'_>) -> Result<Report, AllocError>
    ensures { IfOk result (IsReportFrom machine.now false) }
{
    let ending = ending_of(alloc, machine)?;
    let held = machine_held(alloc, machine)?;
    Ok(Report {
        ending,
        answer: held.answer,
        names: Sequence::new(Vec::new(alloc)),
        structures: held.lines,
        waiting: held.waiting,
    })
}

/// The answer, the lines of structures and cells, and the fetches that wait, in order.
#[derive(Drop)]
struct InOrder {
    answer: Option<SourceValue>,
    lines: Helds,
    waiting: Sequence<Ask>,
}

/// What a run shows of its answer and of structures, in order.
fn machine_held(alloc: Global, machine: &Machine<'_>) -> Result<InOrder, AllocError>
    ensures answer { IfOk result (λ r. r.answer ≡ answer machine.now.graph machine.now.world) }
    ensures held { let m = machine.now in
        let all = held_lines (structures m.graph m.world) (cell_values m.graph m.world) in
        IfOk result (λ r. IsOrderOf HeldBefore r.lines all) }
    ensures held_rise { let m = machine.now in
        let all = held_lines (structures m.graph m.world) (cell_values m.graph m.world) in
        IfOk result (λ r. AreApartBy OfOneThing all → Rises HeldBefore r.lines) }
    ensures waiting { IfOk result
        (λ r. IsOrderOf WaitBefore r.waiting (waiting machine.now.graph machine.now.world)) }
    ensures waiting_rise { IfOk result
        (λ r. AreApartBy OfOneFetch (waiting machine.now.graph machine.now.world) → Rises WaitBefore r.waiting) }
{
    let holdings = machine.holdings(alloc)?;
    in_order(
        holdings.answer,
        holdings.structures,
        holdings.cells,
        holdings.waiting,
    )
}

/// An answer with the lines of these structures and cells and with these fetches, both in order.
fn in_order(
    answer: Option<SourceValue>,
    shapes: Sequence<Shape>,
    cells: Sequence<CellValue>,
    waiting: Sequence<Ask>,
) -> Result<InOrder, AllocError>
    ensures answer { IfOk result (λ r. r.answer ≡ answer) }
    ensures held { IfOk result (λ r. IsOrderOf HeldBefore r.lines (held_lines shapes cells)) }
    ensures held_rise { IfOk result (λ r. AreApartBy OfOneThing (held_lines shapes cells) → Rises HeldBefore r.lines) }
    ensures waiting { IfOk result (λ r. IsOrderOf WaitBefore r.waiting waiting) }
    ensures waiting_rise { IfOk result (λ r. AreApartBy OfOneFetch waiting → Rises WaitBefore r.waiting) }
{
    let lines = Helds::new(shapes, cells)?;
    let waiting = sorted_asks(waiting)?;
    Ok(InOrder {
        answer,
        lines,
        waiting,
    })
}

/// What binders have in a run, by path and place.
fn machine_names(alloc: Global, machine: &Machine<'_>) -> Result<Sequence<NameValue>, AllocError>
    requires { machine.now.keeps ≢ keeps.Tellings }
    ensures sorted { IfOk result (λ ns. IsSortedOf ns (names machine.now.graph machine.now.world)) }
    ensures rise { IfOk result (λ ns. AreApart (names machine.now.graph machine.now.world) → NamesRise ns) }
{
    let names = machine.names(alloc)?;
    Ok(sorted_names(Sequence::new(names)))
}

/// How a run ended. The records are looked at only where there is a fault.
fn ending_of(alloc: Global, machine: &Machine<'_>) -> Result<Ending, AllocError>
    ensures { IfOk result (EndsSo machine.now) }
{
    match machine.first_fault(alloc)? {
        Some(fault) => Ok(Ending::Fault(fault)),
        None => Ok(ending_without_fault(machine)),
    }
}

/// How a run ended that met no fault.
fn ending_without_fault(machine: &Machine<'_>) -> Ending
    requires { faults machine.now.graph machine.now.world ≡ [] }
    ensures { EndsSo machine.now result }
{
    if machine.is_quiet() {
        Ending::Quiet
    } else {
        Ending::Stopped
    }
}
