//! What lacks a value in a round, a line for each thing.

ghost use Rattle.std.specs.Prelude.{◌≡◌};
ghost use Rattle.id_sink.specs.Told.{Prints, PrintsWith};
ghost use Rattle.id_print.specs.Texts.{answer_text, answer_value_text};
ghost use Rattle.id_print.specs.Reasons.{answer_in, asked_text, body_text, cells_text, end_text, fails_text};
ghost use Rattle.id_print.specs.Reasons.{given_text, has_all};
ghost use Rattle.id_print.specs.Reasons.{line_text, lines_text, stores_text, thing_text, things_text};
ghost use Rattle.id_print.specs.Reasons.{values_text, waits_text, wanted_text, reasons_text};

use crate::rows::{Pen, put_cell_behind, put_site_behind, put_value};
use id_check::Checked;
use id_facts::{Point, RowValue};
use id_sink::{Cursor, PrintError, Sink, put, put_number};
use id_why::{Cell, Line, Reasons};

/// Writes the answer of round n of the text, a line for each thing that lacks a value, and one that says so where the
/// next round has more facts. Takes no memory.
pub fn write_reasons<W: Sink>(
    reasons: Reasons,
    checked: &Checked,
    n: u32,
    text: &str,
    sink: &mut W,
) -> Result<(), PrintError>
    ensures { Prints (W.told sink.old) (W.told sink.new)
        (reasons_text (record { text = text.now; checked = checked.now; facts = reasons.paths }) n reasons) result }
{
    let Reasons {
        paths,
        answer,
        lines,
        ended,
    } = reasons;
    let (tree, steps) = paths.into_parts();
    let mut pen = Pen {
        cursor: Cursor::new(text),
        checked,
        tree,
        steps,
    };
    put_answer(sink, &mut pen, answer)?;
    put_lines(sink, &mut pen, lines.as_slice())?;
    put_end(sink, ended, n)
}

/// The line of the answer.
fn put_answer<W: Sink>(
    sink: &mut W,
    pen: &mut Pen<'_>,
    answer: Option<RowValue>,
) -> Result<(), PrintError>
    ensures { PrintsWith (W.told sink.old) (W.told sink.new) pen.old pen.new
        (answer_text pen.old.text (answer_in pen.old answer)) result }
{
    put(sink, b"answer ")?;
    put_answer_value(sink, pen, answer)?;
    put(sink, b"\n")
}

fn put_answer_value<W: Sink>(
    sink: &mut W,
    pen: &mut Pen<'_>,
    answer: Option<RowValue>,
) -> Result<(), PrintError>
    ensures { PrintsWith (W.told sink.old) (W.told sink.new) pen.old pen.new
        (answer_value_text pen.old.text (answer_in pen.old answer)) result }
{
    match answer {
        None => put(sink, b"none"),
        Some(value) => put_value(sink, pen, value),
    }
}

/// The line of each thing, in order.
fn put_lines<W: Sink>(sink: &mut W, pen: &mut Pen<'_>, lines: &[Line]) -> Result<(), PrintError>
    ensures { PrintsWith (W.told sink.old) (W.told sink.new) pen.old pen.new (lines_text pen.old lines.now) result }
{
    for line in lines {
        put_line(sink, pen, line)?;
    }
    Ok(())
}

fn put_line<W: Sink>(sink: &mut W, pen: &mut Pen<'_>, line: &Line) -> Result<(), PrintError>
    ensures { PrintsWith (W.told sink.old) (W.told sink.new) pen.old pen.new (line_text pen.old line.now) result }
{
    put_body(sink, pen, line)?;
    put(sink, b"\n")
}

/// The line of a thing that fails or waits, without its end.
fn put_body<W: Sink>(sink: &mut W, pen: &mut Pen<'_>, line: &Line) -> Result<(), PrintError>
    ensures { PrintsWith (W.told sink.old) (W.told sink.new) pen.old pen.new (body_text pen.old line.now) result }
{
    if has_all(line.cells.as_slice(), line.needs.as_slice()) {
        put_fails(sink, pen, line)
    } else {
        put_waits(sink, pen, line)
    }
}

/// Whether a thing that asks for these cells, and waits for these things, has all that it needs.
fn has_all(cells: &[Cell], needs: &[Point]) -> bool
    ensures { result ≡ has_all cells.now needs.now }
{
    cells.is_empty() && needs.is_empty()
}

/// A thing that fails, and the values that it has.
fn put_fails<W: Sink>(sink: &mut W, pen: &mut Pen<'_>, line: &Line) -> Result<(), PrintError>
    ensures { PrintsWith (W.told sink.old) (W.told sink.new) pen.old pen.new (fails_text pen.old line.now) result }
{
    put(sink, b"fails")?;
    put_thing(sink, pen, line.thing)?;
    put(sink, b" on")?;
    put_values(sink, pen, line.values.as_slice())
}

/// A thing that waits, and for what.
fn put_waits<W: Sink>(sink: &mut W, pen: &mut Pen<'_>, line: &Line) -> Result<(), PrintError>
    ensures { PrintsWith (W.told sink.old) (W.told sink.new) pen.old pen.new (waits_text pen.old line.now) result }
{
    put(sink, b"waits")?;
    put_thing(sink, pen, line.thing)?;
    put(sink, b" for")?;
    put_wanted(sink, pen, line.cells.as_slice(), line.needs.as_slice())
}

/// What a thing waits for: of a fetch its cell, and the stores that may fill that.
fn put_wanted<W: Sink>(
    sink: &mut W,
    pen: &mut Pen<'_>,
    cells: &[Cell],
    needs: &[Point],
) -> Result<(), PrintError>
    ensures { PrintsWith (W.told sink.old) (W.told sink.new) pen.old pen.new
        (wanted_text pen.old cells.now needs.now) result }
{
    if cells.is_empty() {
        put_things(sink, pen, needs)
    } else {
        put_cells(sink, pen, cells)?;
        put_stores(sink, pen, needs)
    }
}

/// The stores that may fill a cell.
fn put_stores<W: Sink>(sink: &mut W, pen: &mut Pen<'_>, stores: &[Point]) -> Result<(), PrintError>
    ensures { PrintsWith (W.told sink.old) (W.told sink.new) pen.old pen.new (stores_text pen.old stores.now) result }
{
    if stores.is_empty() {
        put(sink, b" of none")
    } else {
        put(sink, b" of")?;
        put_things(sink, pen, stores)
    }
}

/// Things, each behind a blank.
fn put_things<W: Sink>(sink: &mut W, pen: &mut Pen<'_>, things: &[Point]) -> Result<(), PrintError>
    ensures { PrintsWith (W.told sink.old) (W.told sink.new) pen.old pen.new (things_text pen.old things.now) result }
{
    for thing in things {
        put_thing(sink, pen, *thing)?;
    }
    Ok(())
}

fn put_thing<W: Sink>(sink: &mut W, pen: &mut Pen<'_>, thing: Point) -> Result<(), PrintError>
    ensures { PrintsWith (W.told sink.old) (W.told sink.new) pen.old pen.new (thing_text pen.old thing) result }
{
    put(sink, b" ")?;
    put_site_behind(sink, pen, thing.path, thing.row)
}

/// Cells, each behind a blank.
fn put_cells<W: Sink>(sink: &mut W, pen: &mut Pen<'_>, cells: &[Cell]) -> Result<(), PrintError>
    ensures { PrintsWith (W.told sink.old) (W.told sink.new) pen.old pen.new (cells_text pen.old cells.now) result }
{
    for cell in cells {
        put_asked(sink, pen, *cell)?;
    }
    Ok(())
}

fn put_asked<W: Sink>(sink: &mut W, pen: &mut Pen<'_>, cell: Cell) -> Result<(), PrintError>
    ensures { PrintsWith (W.told sink.old) (W.told sink.new) pen.old pen.new (asked_text pen.old cell) result }
{
    put(sink, b" ")?;
    put_cell_behind(sink, pen, cell.name, cell.index)
}

/// Values, each behind a blank.
fn put_values<W: Sink>(
    sink: &mut W,
    pen: &mut Pen<'_>,
    values: &[RowValue],
) -> Result<(), PrintError>
    ensures { PrintsWith (W.told sink.old) (W.told sink.new) pen.old pen.new (values_text pen.old values.now) result }
{
    for value in values {
        put_given(sink, pen, *value)?;
    }
    Ok(())
}

fn put_given<W: Sink>(sink: &mut W, pen: &mut Pen<'_>, value: RowValue) -> Result<(), PrintError>
    ensures { PrintsWith (W.told sink.old) (W.told sink.new) pen.old pen.new (given_text pen.old value) result }
{
    put(sink, b" ")?;
    put_value(sink, pen, value)
}

/// Whether these are all facts.
fn put_end<W: Sink>(sink: &mut W, ended: bool, n: u32) -> Result<(), PrintError>
    ensures { Prints (W.told sink.old) (W.told sink.new) (end_text ended n) result }
{
    if ended {
        Ok(())
    } else {
        put(sink, b"more facts follow behind round ")?;
        put_number(sink, n)?;
        put(sink, b"\n")
    }
}
