//! The parts of lines: numbers, places, points and values.

ghost use Rattle.std.specs.Prelude.{◌≡◌, ◌≤◌, ◌++◌, length, decimal, codes};
ghost use Rattle.std.specs.Fmt.{signed_decimal};
ghost use Rattle.id_sink.specs.Told.{Prints, PrintsWith};
ghost use Rattle.id_sink.specs.Texts.{iteration_text, line_column_text, place_text, step_text, steps_text};
ghost use Rattle.id_sink.specs.Texts.{point_text, point_value_text, truth_text, value_text, site_text, equal_text};
ghost use Rattle.id_sink.specs.Texts.{bounds_text, shape_text, cell_text, filled_text, ask_text};
ghost use Rattle.id_sink.specs.Texts.{content_text, number_content_text};

use crate::cursor::Cursor;
use crate::line::Piece;
use crate::sink::{PrintError, Sink, put};
use id_source::{Ask, Path, PathStep, Shape, Site, SourceValue};
use id_text::{MAX_BYTES, line_col};
use itoa::Buffer;

/// A number.
pub fn put_number<W: Sink>(sink: &mut W, n: u32) -> Result<(), PrintError>
    ensures { Prints (W.told sink.old) (W.told sink.new) (decimal n) result }
{
    let mut buffer = Buffer::new();
    put(sink, buffer.format(n).as_bytes())
}

/// A number of 64 bits.
pub fn put_long<W: Sink>(sink: &mut W, n: u64) -> Result<(), PrintError>
    ensures { Prints (W.told sink.old) (W.told sink.new) (decimal n) result }
{
    let mut buffer = Buffer::new();
    put(sink, buffer.format(n).as_bytes())
}

/// Two numbers, with these bytes between them.
pub fn put_numbers<W: Sink>(
    sink: &mut W,
    first: u64,
    between: &[u8],
    second: u64,
) -> Result<(), PrintError>
    ensures { Prints (W.told sink.old) (W.told sink.new) (decimal first ++ (between.now ++ decimal second)) result }
{
    put_long(sink, first)?;
    put(sink, between)?;
    put_long(sink, second)
}

/// A line and a column.
fn put_line_column<W: Sink>(sink: &mut W, line: usize, column: usize) -> Result<(), PrintError>
    ensures { Prints (W.told sink.old) (W.told sink.new) (line_column_text line column) result }
{
    put_numbers(sink, line as u64, b":", column as u64)
}

/// A place of the text, as its line and column.
pub fn put_place<W: Sink>(sink: &mut W, text: &str, at: usize) -> Result<(), PrintError>
    requires fits { length text.now ≤ MAX_BYTES }
    requires inside { at ≤ length text.now }
    ensures { Prints (W.told sink.old) (W.told sink.new) (place_text text.now at) result }
{
    let (line, column) = line_col(text, at);
    put_line_column(sink, line as usize, column as usize)
}

/// A step of a path.
fn put_step<W: Sink>(
    sink: &mut W,
    cursor: &mut Cursor<'_>,
    step: &PathStep,
) -> Result<(), PrintError>
    ensures { PrintsWith (W.told sink.old) (W.told sink.new) cursor.old cursor.new
        (step_text cursor.old step.now) result }
{
    let (line, column) = cursor.step_line_col(step.place);
    put(sink, b"/")?;
    put_line_column(sink, line, column)?;
    put_iteration(sink, cursor.has_brace(step.place), step.number)
}

/// The iteration of a step of a loop, and nothing of one of a call.
fn put_iteration<W: Sink>(sink: &mut W, in_loop: bool, number: u64) -> Result<(), PrintError>
    ensures { Prints (W.told sink.old) (W.told sink.new) (iteration_text in_loop number) result }
{
    if in_loop {
        put(sink, b"#")?;
        put_long(sink, number)
    } else {
        Ok(())
    }
}

/// The steps of a path, one after another.
pub fn put_steps<W: Sink>(
    sink: &mut W,
    cursor: &mut Cursor<'_>,
    steps: &[PathStep],
) -> Result<(), PrintError>
    ensures { PrintsWith (W.told sink.old) (W.told sink.new) cursor.old cursor.new
        (steps_text cursor.old steps.now) result }
{
    for step in steps {
        put_step(sink, cursor, step)?;
    }
    Ok(())
}

/// A place after `@`.
pub fn put_at<W: Sink>(sink: &mut W, cursor: &mut Cursor<'_>, at: usize) -> Result<(), PrintError>
    ensures { PrintsWith (W.told sink.old) (W.told sink.new) cursor.old cursor.new
        (codes "@" ++ place_text cursor.old at) result }
{
    let (line, column) = cursor.line_col(at);
    let mut piece = Piece::new();
    piece.number(column as u64);
    piece.byte(b':');
    piece.number(line as u64);
    piece.byte(b'@');
    put(sink, piece.as_slice())
}

/// Where something is: its path and its place.
pub fn put_point<W: Sink>(
    sink: &mut W,
    cursor: &mut Cursor<'_>,
    path: &Path,
    place: usize,
) -> Result<(), PrintError>
    ensures { PrintsWith (W.told sink.old) (W.told sink.new) cursor.old cursor.new
        (point_text cursor.old path.now place) result }
{
    put_steps(sink, cursor, path.steps.as_slice())?;
    put_at(sink, cursor, place)
}

/// A path and a place: the name of a structure.
pub fn put_site<W: Sink>(
    sink: &mut W,
    cursor: &mut Cursor<'_>,
    site: &Site,
) -> Result<(), PrintError>
    ensures { PrintsWith (W.told sink.old) (W.told sink.new) cursor.old cursor.new
        (site_text cursor.old site.now) result }
{
    put_point(sink, cursor, &site.path, site.place)
}

/// The same, behind something else on the line.
pub fn put_site_behind<W: Sink>(
    sink: &mut W,
    cursor: &mut Cursor<'_>,
    site: &Site,
) -> Result<(), PrintError>
    ensures { PrintsWith (W.told sink.old) (W.told sink.new) cursor.old cursor.new
        (site_text cursor.old site.now) result }
{
    cursor.turn();
    let done = put_site(sink, cursor, site);
    cursor.turn();
    done
}

/// A point, its value and the end of the line.
pub fn put_point_value<W: Sink>(
    sink: &mut W,
    cursor: &mut Cursor<'_>,
    path: &Path,
    place: usize,
    value: &SourceValue,
) -> Result<(), PrintError>
    ensures { PrintsWith (W.told sink.old) (W.told sink.new) cursor.old cursor.new
        (point_value_text cursor.old path.now place value.now) result }
{
    put_point(sink, cursor, path, place)?;
    put_equal(sink, cursor, value)?;
    put(sink, b"\n")
}

/// A value after `=`.
fn put_equal<W: Sink>(
    sink: &mut W,
    cursor: &mut Cursor<'_>,
    value: &SourceValue,
) -> Result<(), PrintError>
    ensures { PrintsWith (W.told sink.old) (W.told sink.new) cursor.old cursor.new
        (equal_text cursor.old value.now) result }
{
    put(sink, b" = ")?;
    put_value(sink, cursor, value)
}

/// A structure and its bounds, and the end of the line.
pub fn put_shape<W: Sink>(
    sink: &mut W,
    cursor: &mut Cursor<'_>,
    shape: &Shape,
) -> Result<(), PrintError>
    ensures { PrintsWith (W.told sink.old) (W.told sink.new) cursor.old cursor.new
        (shape_text cursor.old shape.now) result }
{
    put_site(sink, cursor, &shape.name)?;
    put(sink, b" ")?;
    put_bounds(sink, shape.low, shape.high)
}

/// Two bounds, and the end of the line.
pub fn put_bounds<W: Sink>(sink: &mut W, low: i64, high: i64) -> Result<(), PrintError>
    ensures { Prints (W.told sink.old) (W.told sink.new) (bounds_text low high) result }
{
    put_int(sink, low)?;
    put(sink, b"..")?;
    put_int(sink, high)?;
    put(sink, b"\n")
}

/// An index in brackets.
pub fn put_index<W: Sink>(sink: &mut W, index: i64) -> Result<(), PrintError>
    ensures { Prints (W.told sink.old) (W.told sink.new) (codes "[" ++ (signed_decimal index ++ codes "]")) result }
{
    put(sink, b"[")?;
    put_int(sink, index)?;
    put(sink, b"]")
}

/// A cell of a structure.
pub fn put_cell<W: Sink>(
    sink: &mut W,
    cursor: &mut Cursor<'_>,
    name: &Site,
    index: i64,
) -> Result<(), PrintError>
    ensures { PrintsWith (W.told sink.old) (W.told sink.new) cursor.old cursor.new
        (cell_text cursor.old name.now index) result }
{
    put_site(sink, cursor, name)?;
    put_index(sink, index)
}

/// The same, behind something else on the line.
fn put_cell_behind<W: Sink>(
    sink: &mut W,
    cursor: &mut Cursor<'_>,
    name: &Site,
    index: i64,
) -> Result<(), PrintError>
    ensures { PrintsWith (W.told sink.old) (W.told sink.new) cursor.old cursor.new
        (cell_text cursor.old name.now index) result }
{
    cursor.turn();
    let done = put_cell(sink, cursor, name, index);
    cursor.turn();
    done
}

/// A cell and the value that it holds.
pub fn put_filled<W: Sink>(
    sink: &mut W,
    cursor: &mut Cursor<'_>,
    name: &Site,
    index: i64,
    value: &SourceValue,
) -> Result<(), PrintError>
    ensures { PrintsWith (W.told sink.old) (W.told sink.new) cursor.old cursor.new
        (filled_text cursor.old name.now index value.now) result }
{
    put_cell(sink, cursor, name, index)?;
    put_equal(sink, cursor, value)
}

/// Behind the name of a structure an index, the value that its cell holds, and the end of the line.
pub fn put_content<W: Sink>(
    sink: &mut W,
    cursor: &mut Cursor<'_>,
    index: i64,
    value: &SourceValue,
) -> Result<(), PrintError>
    ensures { PrintsWith (W.told sink.old) (W.told sink.new) cursor.old cursor.new
        (content_text cursor.old index value.now) result }
{
    match value {
        SourceValue::Int(n) => put_number_content(sink, index, *n),
        SourceValue::Bool(_) | SourceValue::Name(_) => {
            put_other_content(sink, cursor, index, value)
        }
    }
}

/// The same of a number, in one piece.
fn put_number_content<W: Sink>(sink: &mut W, index: i64, n: i64) -> Result<(), PrintError>
    ensures { Prints (W.told sink.old) (W.told sink.new) (number_content_text index n) result }
{
    let mut piece = Piece::new();
    piece.byte(b'\n');
    piece.int(n);
    piece.byte(b' ');
    piece.byte(b'=');
    piece.byte(b' ');
    piece.byte(b']');
    piece.int(index);
    piece.byte(b'[');
    put(sink, piece.as_slice())
}

/// The same of any value.
fn put_other_content<W: Sink>(
    sink: &mut W,
    cursor: &mut Cursor<'_>,
    index: i64,
    value: &SourceValue,
) -> Result<(), PrintError>
    ensures { PrintsWith (W.told sink.old) (W.told sink.new) cursor.old cursor.new
        (content_text cursor.old index value.now) result }
{
    put_index(sink, index)?;
    put_equal(sink, cursor, value)?;
    put(sink, b"\n")
}

/// A fetch and the cell that it asks for, and the end of the line.
pub fn put_ask<W: Sink>(sink: &mut W, cursor: &mut Cursor<'_>, ask: &Ask) -> Result<(), PrintError>
    ensures { PrintsWith (W.told sink.old) (W.told sink.new) cursor.old cursor.new
        (ask_text cursor.old ask.now) result }
{
    put_site(sink, cursor, &ask.fetch)?;
    put_asked_cell(sink, cursor, &ask.name, ask.index)
}

/// The cell that a fetch asks for, and the end of the line.
fn put_asked_cell<W: Sink>(
    sink: &mut W,
    cursor: &mut Cursor<'_>,
    name: &Site,
    index: i64,
) -> Result<(), PrintError>
    ensures { PrintsWith (W.told sink.old) (W.told sink.new) cursor.old cursor.new
        (codes " of " ++ (cell_text cursor.old name.now index ++ codes "\n")) result }
{
    put(sink, b" of ")?;
    put_cell_behind(sink, cursor, name, index)?;
    put(sink, b"\n")
}

/// Writes a whole number in decimal, with its sign where it is below zero. Takes no memory.
pub fn put_int<W: Sink>(sink: &mut W, n: i64) -> Result<(), PrintError>
    ensures { Prints (W.told sink.old) (W.told sink.new) (signed_decimal n) result }
{
    let mut buffer = Buffer::new();
    let text = buffer.format(n);
    put(sink, text.as_bytes())
}

/// The word for a truth value.
pub fn truth_bytes(truth: bool) -> &'static [u8]
    ensures { result.now ≡ truth_text truth }
{
    if truth { b"true" } else { b"false" }
}

/// A value.
pub fn put_value<W: Sink>(
    sink: &mut W,
    cursor: &mut Cursor<'_>,
    value: &SourceValue,
) -> Result<(), PrintError>
    ensures { PrintsWith (W.told sink.old) (W.told sink.new) cursor.old cursor.new
        (value_text cursor.old value.now) result }
{
    match value {
        SourceValue::Int(n) => put_int(sink, *n),
        SourceValue::Bool(truth) => put(sink, truth_bytes(*truth)),
        SourceValue::Name(name) => put_site_behind(sink, cursor, name),
    }
}
