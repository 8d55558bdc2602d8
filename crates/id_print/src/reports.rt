//! Reports of runs, and how they are printed.

ghost use Rattle.std.specs.Prelude.{◌≡◌, ◌≢◌, ◌++◌, [], codes, IfOk, IsTrue};
ghost use Rattle.id_record.specs.declared.kept.Keeps.TheVariants as keeps;
ghost use Rattle.id_sink.specs.Told.{Prints, PrintsWith};
ghost use Rattle.id_print.specs.Texts.{kind_text, fault_head_text, fault_text, answer_text, answer_value_text};
ghost use Rattle.id_print.specs.Texts.{name_text, names_text, helds_text, waiting_text, waitings_text};
ghost use Rattle.id_print.specs.Texts.{shown_text, quiet_text, stopped_text, stores_text, second_text};
ghost use Rattle.id_sink.specs.Texts.{site_text};
ghost use Rattle.id_sink.specs.Texts.{shape_text, filled_text};
ghost use Rattle.id_print.specs.Helds.{joined};
ghost use Rattle.id_print.specs.Reports.{asked, report_text};
ghost use Rattle.id_print.specs.RunReports.{IsReportFrom};

use crate::ending::Ending;
use crate::helds::{Helds, behind_first, has_lines, is_cell_first};
use crate::run_reports::{Report, run_report};
use id_elements::Run;
use id_observe::CellValue;
use id_sink::{
    Cursor, PrintError, Sink, put, put_ask, put_cell, put_content, put_point_value, put_shape,
    put_site, put_value,
};
use id_source::{Ask, NameValue, Shape, Site, SourceFault, SourceValue};
use id_valid::Valid;
use id_value::FaultKind;
use std::alloc::{AllocError, Global};

/// The report of a run of the graph, with what names have where that is asked for, of a run that keeps that.
pub fn report(
    alloc: Global,
    run: &Run<'_>,
    _graph: &Valid,
    named: bool,
) -> Result<Report, AllocError>
    requires graph { run.now.graph ≡ _graph.now }
    requires kept { IsTrue named → run.now.keeps ≢ keeps.Tellings }
    ensures { IfOk result (IsReportFrom run.now named) }
{
    run_report(alloc, run.machine(), named)
}

fn put_kind<W: Sink>(kind: FaultKind, sink: &mut W) -> Result<(), PrintError>
    ensures { Prints (W.told sink.old) (W.told sink.new) (kind_text kind) result }
{
    match kind {
        FaultKind::Overflow => put(sink, b"overflow"),
        FaultKind::DivisionByZero => put(sink, b"division by zero"),
        FaultKind::BadBounds => put(sink, b"bad bounds"),
        FaultKind::OutOfBounds => put(sink, b"out of bounds"),
    }
}

fn put_fault_head<W: Sink>(kind: FaultKind, sink: &mut W) -> Result<(), PrintError>
    ensures { Prints (W.told sink.old) (W.told sink.new) (fault_head_text kind) result }
{
    put(sink, b"fault ")?;
    put_kind(kind, sink)?;
    put(sink, b" at ")
}

/// Writes the line of a fault. Takes no memory.
pub fn write_fault<W: Sink>(fault: &SourceFault, text: &str, sink: &mut W) -> Result<(), PrintError>
    ensures { Prints (W.told sink.old) (W.told sink.new) (fault_text text.now fault.now) result }
{
    let mut cursor = Cursor::new(text);
    match fault {
        SourceFault::Operator { kind, site } => put_failed(sink, &mut cursor, *kind, site),
        SourceFault::SecondStore {
            name,
            index,
            first,
            second,
        } => put_second(sink, &mut cursor, name, *index, first, second),
    }
}

fn put_failed<W: Sink>(
    sink: &mut W,
    cursor: &mut Cursor<'_>,
    kind: FaultKind,
    site: &Site,
) -> Result<(), PrintError>
    ensures { PrintsWith (W.told sink.old) (W.told sink.new) cursor.old cursor.new
        (fault_head_text kind ++ (site_text cursor.old site.now ++ codes "\n")) result }
{
    put_fault_head(kind, sink)?;
    put_site(sink, cursor, site)?;
    put(sink, b"\n")
}

fn put_second<W: Sink>(
    sink: &mut W,
    cursor: &mut Cursor<'_>,
    name: &Site,
    index: i64,
    first: &Site,
    second: &Site,
) -> Result<(), PrintError>
    ensures { PrintsWith (W.told sink.old) (W.told sink.new) cursor.old cursor.new
        (codes "fault second store of " ++ second_text cursor.old name.now index first.now second.now) result }
{
    put(sink, b"fault second store of ")?;
    put_cell(sink, cursor, name, index)?;
    put_stores(sink, cursor, first, second)
}

/// Two stores behind a cell, and the end of the line.
fn put_stores<W: Sink>(
    sink: &mut W,
    cursor: &mut Cursor<'_>,
    first: &Site,
    second: &Site,
) -> Result<(), PrintError>
    ensures { PrintsWith (W.told sink.old) (W.told sink.new) cursor.old cursor.new
        (codes " at " ++ stores_text cursor.old first.now second.now) result }
{
    put(sink, b" at ")?;
    put_site(sink, cursor, first)?;
    put_other_store(sink, cursor, second)
}

/// The second of two stores, and the end of the line.
fn put_other_store<W: Sink>(
    sink: &mut W,
    cursor: &mut Cursor<'_>,
    store: &Site,
) -> Result<(), PrintError>
    ensures { PrintsWith (W.told sink.old) (W.told sink.new) cursor.old cursor.new
        (codes " and " ++ (site_text cursor.old store.now ++ codes "\n")) result }
{
    put(sink, b" and ")?;
    put_site(sink, cursor, store)?;
    put(sink, b"\n")
}

fn put_answer_value<W: Sink>(
    sink: &mut W,
    cursor: &mut Cursor<'_>,
    answer: &Option<SourceValue>,
) -> Result<(), PrintError>
    ensures { PrintsWith (W.told sink.old) (W.told sink.new) cursor.old cursor.new
        (answer_value_text cursor.old answer.now) result }
{
    match answer {
        None => put(sink, b"none"),
        Some(value) => put_value(sink, cursor, value),
    }
}

fn put_answer<W: Sink>(
    sink: &mut W,
    cursor: &mut Cursor<'_>,
    answer: &Option<SourceValue>,
) -> Result<(), PrintError>
    ensures { PrintsWith (W.told sink.old) (W.told sink.new) cursor.old cursor.new
        (answer_text cursor.old answer.now) result }
{
    put(sink, b"answer ")?;
    put_answer_value(sink, cursor, answer)?;
    put(sink, b"\n")
}

/// The line of each name, in order.
fn put_names<W: Sink>(
    sink: &mut W,
    cursor: &mut Cursor<'_>,
    names: &[NameValue],
) -> Result<(), PrintError>
    ensures { PrintsWith (W.told sink.old) (W.told sink.new) cursor.old cursor.new
        (names_text cursor.old names.now) result }
{
    for name in names {
        put_name(sink, cursor, name)?;
    }
    Ok(())
}

fn put_name<W: Sink>(
    sink: &mut W,
    cursor: &mut Cursor<'_>,
    name: &NameValue,
) -> Result<(), PrintError>
    ensures { PrintsWith (W.told sink.old) (W.told sink.new) cursor.old cursor.new
        (name_text cursor.old name.now) result }
{
    put(sink, b"name ")?;
    put_point_value(sink, cursor, &name.path, name.place, &name.value)
}

/// The line of each structure and cell, in order.
fn put_helds<W: Sink>(
    sink: &mut W,
    cursor: &mut Cursor<'_>,
    helds: &Helds,
) -> Result<(), PrintError>
    ensures { PrintsWith (W.told sink.old) (W.told sink.new) cursor.old cursor.new
        (helds_text cursor.old helds.now) result }
{
    let (shapes, cells) = helds.parts();
    put_joined(sink, cursor, shapes, cells)
}

/// The lines of structures and of cells, each before those of the other kind that it comes before.
fn put_joined<W: Sink>(
    sink: &mut W,
    cursor: &mut Cursor<'_>,
    shapes: &[Shape],
    cells: &[CellValue],
) -> Result<(), PrintError>
    ensures { PrintsWith (W.told sink.old) (W.told sink.new) cursor.old cursor.new
        (helds_text cursor.old (joined shapes.now cells.now)) result }
{
    let mut shapes = shapes;
    let mut cells = cells;
    while has_lines(shapes, cells) {
        if is_cell_first(shapes, cells) {
            put_present(sink, cursor, &cells[0])?;
            cells = behind_first(cells);
        } else {
            put_array(sink, cursor, &shapes[0])?;
            shapes = behind_first(shapes);
        }
    }
    Ok(())
}

fn put_array<W: Sink>(
    sink: &mut W,
    cursor: &mut Cursor<'_>,
    shape: &Shape,
) -> Result<(), PrintError>
    ensures { PrintsWith (W.told sink.old) (W.told sink.new) cursor.old cursor.new
        (codes "array " ++ shape_text cursor.old shape.now) result }
{
    put(sink, b"array ")?;
    put_shape(sink, cursor, shape)
}

fn put_present<W: Sink>(
    sink: &mut W,
    cursor: &mut Cursor<'_>,
    cell: &CellValue,
) -> Result<(), PrintError>
    ensures { PrintsWith (W.told sink.old) (W.told sink.new) cursor.old cursor.new
        (codes "cell " ++ (filled_text cursor.old cell.now.name cell.now.index cell.now.value ++ codes "\n")) result }
{
    put(sink, b"cell ")?;
    put_site(sink, cursor, &cell.name)?;
    put_content(sink, cursor, cell.index, &cell.value)
}

/// The line of each fetch that waits, in order.
fn put_waitings<W: Sink>(
    sink: &mut W,
    cursor: &mut Cursor<'_>,
    asks: &[Ask],
) -> Result<(), PrintError>
    ensures { PrintsWith (W.told sink.old) (W.told sink.new) cursor.old cursor.new
        (waitings_text cursor.old asks.now) result }
{
    for ask in asks {
        put_waiting(sink, cursor, ask)?;
    }
    Ok(())
}

fn put_waiting<W: Sink>(sink: &mut W, cursor: &mut Cursor<'_>, ask: &Ask) -> Result<(), PrintError>
    ensures { PrintsWith (W.told sink.old) (W.told sink.new) cursor.old cursor.new
        (waiting_text cursor.old ask.now) result }
{
    put(sink, b"waiting ")?;
    put_ask(sink, cursor, ask)
}

fn put_shown<W: Sink>(
    sink: &mut W,
    cursor: &mut Cursor<'_>,
    report: &Report,
    names: &[NameValue],
) -> Result<(), PrintError>
    ensures { PrintsWith (W.told sink.old) (W.told sink.new) cursor.old cursor.new
        (shown_text cursor.old report.now.answer names.now report.now.structures) result }
{
    put_answer(sink, cursor, &report.answer)?;
    put_names(sink, cursor, names)?;
    put_helds(sink, cursor, &report.structures)
}

fn put_quiet<W: Sink>(
    sink: &mut W,
    cursor: &mut Cursor<'_>,
    report: &Report,
    names: &[NameValue],
) -> Result<(), PrintError>
    ensures { PrintsWith (W.told sink.old) (W.told sink.new) cursor.old cursor.new
        (quiet_text cursor.old report.now.answer names.now report.now.structures report.now.waiting) result }
{
    put_shown(sink, cursor, report, names)?;
    put_waitings(sink, cursor, report.waiting.as_slice())
}

fn put_stopped<W: Sink>(
    sink: &mut W,
    cursor: &mut Cursor<'_>,
    report: &Report,
    names: &[NameValue],
) -> Result<(), PrintError>
    ensures { PrintsWith (W.told sink.old) (W.told sink.new) cursor.old cursor.new
        (stopped_text cursor.old report.now.answer names.now report.now.structures) result }
{
    put(sink, b"stopped\n")?;
    put_shown(sink, cursor, report, names)
}

/// The names where they are asked for, and none where they are not.
fn asked(names: bool, all: &[NameValue]) -> &[NameValue]
    ensures { result.now ≡ asked names all.now }
{
    if names { all } else { &[] }
}

/// Writes the lines of a report on a run of the text: of a fault its line alone, else the answer, where `names` asks
/// for them a line for each name, and a line for each structure and cell; of a quiet run then one for each fetch that
/// waits. Takes no memory.
///
/// The places of the lines are found from one another, and so are those of the names of structures behind them: those
/// that rise take one pass over the text.
pub fn write_report<W: Sink>(
    report: &Report,
    text: &str,
    names: bool,
    sink: &mut W,
) -> Result<(), PrintError>
    ensures { Prints (W.told sink.old) (W.told sink.new) (report_text text.now names report.now) result }
{
    let shown = asked(names, report.names.as_slice());
    let mut cursor = Cursor::new(text);
    match &report.ending {
        Ending::Quiet => put_quiet(sink, &mut cursor, report, shown),
        Ending::Stopped => put_stopped(sink, &mut cursor, report, shown),
        Ending::Fault(fault) => write_fault(fault, text, sink),
    }
}
