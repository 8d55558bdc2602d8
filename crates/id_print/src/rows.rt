//! The facts of a round by path and row, a line for each, without their paths.

ghost use Rattle.std.specs.Prelude.{◌≡◌, ◌++◌, codes};
ghost use Rattle.id_sink.specs.Told.{Prints, PrintsWith};
ghost use Rattle.id_sink.specs.Texts.{bounds_text, cell_text, equal_text, filled_text, point_value_text};
ghost use Rattle.id_sink.specs.Texts.{site_text, value_text};
ghost use Rattle.id_facts.specs.Listed.{facts_in};
ghost use Rattle.id_source.specs.Facts.{ask, put, shape};
ghost use Rattle.id_print.specs.Texts.{fact_text, facts_text};
ghost use Rattle.id_print.specs.Pens.{fact_in, name_in, path_in, place_in, site_in, value_in};

use id_check::Checked;
use id_facts::{RowFact, RowValue, Trail, Tree, path_of, place_of, row_of};
use id_meaning::{Round, write_steps};
use id_sink::{
    Cursor, PrintError, Sink, put, put_at, put_bounds, put_index, put_int, put_steps, truth_bytes,
};
use id_source::PathStep;
use std::marker::Model;

/// A cursor of the text, its program, the facts, and room for the steps of a path of them.
///
/// Keeps: no path of the facts has more steps than there is room for. Clauses see the text, the program and the facts.
#[derive(Drop)]
pub(crate) struct Pen<'a> {
    pub(crate) cursor: Cursor<'a>,
    pub(crate) checked: &'a Checked,
    pub(crate) tree: Tree,
    pub(crate) steps: Vec<PathStep>,
}

impl<'a> Model for Pen<'a> {
    ghost use Rattle.std.specs.Prelude.{◌<◌, length};
    ghost use Rattle.id_print.specs.Pens.{PenView, coded_pen};

    ghost Value = { PenView };

    ghost coded = { coded_pen };

    ghost view = { λ p. record { text = p.cursor; checked = p.checked.now; facts = p.tree } };

    ghost invariant = { λ p. length p.tree < length p.steps.items };
}

impl<'a> Pen<'a> {
    ghost use Rattle.std.specs.Prelude.{◌≡◌};

    /// Goes on with the other series of places.
    fn turn(&mut self)
        ensures { self.new ≡ self.old }
    {
        self.cursor.turn();
    }
}

/// Writes a line for each fact of a round of the text, in order. Takes no memory.
///
/// The places of the facts are found from one another: those that rise take one pass over the text.
pub fn write_round<W: Sink>(
    round: Round,
    checked: &Checked,
    text: &str,
    sink: &mut W,
) -> Result<(), PrintError>
    ensures { Prints (W.told sink.old) (W.told sink.new)
        (facts_text text.now (facts_in checked.now round.paths round.rows.items)) result }
{
    let Round { paths, rows } = round;
    let (tree, steps) = paths.into_parts();
    let mut pen = Pen {
        cursor: Cursor::new(text),
        checked,
        tree,
        steps,
    };
    put_rows(sink, &mut pen, rows.as_slice())
}

/// The lines of facts, in order.
fn put_rows<W: Sink>(sink: &mut W, pen: &mut Pen<'_>, rows: &[RowFact]) -> Result<(), PrintError>
    ensures { PrintsWith (W.told sink.old) (W.told sink.new) pen.old pen.new
        (facts_text pen.old.text (facts_in pen.old.checked pen.old.facts rows.now)) result }
{
    for row in rows {
        put_row(sink, pen, *row)?;
    }
    Ok(())
}

fn put_row<W: Sink>(sink: &mut W, pen: &mut Pen<'_>, fact: RowFact) -> Result<(), PrintError>
    ensures { PrintsWith (W.told sink.old) (W.told sink.new) pen.old pen.new
        (fact_text pen.old.text (fact_in pen.old fact)) result }
{
    match fact {
        RowFact::On { path, row } => put_on(sink, pen, path, row),
        RowFact::Has { path, row, value } => put_has(sink, pen, path, row, value),
        RowFact::Shape { name, low, high } => put_shape(sink, pen, name, low, high),
        RowFact::Put {
            path,
            row,
            name,
            index,
            value,
        } => put_stored(sink, pen, path, row, name, index, value),
        RowFact::Ask {
            path,
            row,
            name,
            index,
        } => put_asked(sink, pen, path, row, name, index),
    }
}

fn put_on<W: Sink>(
    sink: &mut W,
    pen: &mut Pen<'_>,
    path: Trail,
    row: usize,
) -> Result<(), PrintError>
    ensures { PrintsWith (W.told sink.old) (W.told sink.new) pen.old pen.new
        (codes "on " ++ (site_text pen.old.text (site_in pen.old path row) ++ codes "\n")) result }
{
    put(sink, b"on ")?;
    put_site(sink, pen, path, row)?;
    put(sink, b"\n")
}

fn put_has<W: Sink>(
    sink: &mut W,
    pen: &mut Pen<'_>,
    path: Trail,
    row: usize,
    value: RowValue,
) -> Result<(), PrintError>
    ensures { PrintsWith (W.told sink.old) (W.told sink.new) pen.old pen.new
        (codes "has " ++ point_value_text pen.old.text (path_in pen.old path) (place_in pen.old row)
        (value_in pen.old value)) result }
{
    put(sink, b"has ")?;
    put_site(sink, pen, path, row)?;
    put_equal(sink, pen, value)?;
    put(sink, b"\n")
}

fn put_shape<W: Sink>(
    sink: &mut W,
    pen: &mut Pen<'_>,
    name: usize,
    low: i64,
    high: i64,
) -> Result<(), PrintError>
    ensures { PrintsWith (W.told sink.old) (W.told sink.new) pen.old pen.new
        (codes "shape " ++ (site_text pen.old.text (name_in pen.old name) ++ (codes " " ++ bounds_text low high)))
        result }
{
    put(sink, b"shape ")?;
    put_name(sink, pen, name)?;
    put(sink, b" ")?;
    put_bounds(sink, low, high)
}

fn put_stored<W: Sink>(
    sink: &mut W,
    pen: &mut Pen<'_>,
    path: Trail,
    row: usize,
    name: usize,
    index: i64,
    value: RowValue,
) -> Result<(), PrintError>
    ensures { PrintsWith (W.told sink.old) (W.told sink.new) pen.old pen.new
        (codes "put " ++ (filled_text pen.old.text (name_in pen.old name) index (value_in pen.old value)
        ++ (codes " by " ++ (site_text pen.old.text (site_in pen.old path row) ++ codes "\n")))) result }
{
    put(sink, b"put ")?;
    put_filled(sink, pen, name, index, value)?;
    put_store(sink, pen, path, row)
}

/// The store that puts a value into a cell, and the end of the line.
fn put_store<W: Sink>(
    sink: &mut W,
    pen: &mut Pen<'_>,
    path: Trail,
    row: usize,
) -> Result<(), PrintError>
    ensures { PrintsWith (W.told sink.old) (W.told sink.new) pen.old pen.new
        (codes " by " ++ (site_text pen.old.text (site_in pen.old path row) ++ codes "\n")) result }
{
    put(sink, b" by ")?;
    put_site_behind(sink, pen, path, row)?;
    put(sink, b"\n")
}

fn put_asked<W: Sink>(
    sink: &mut W,
    pen: &mut Pen<'_>,
    path: Trail,
    row: usize,
    name: usize,
    index: i64,
) -> Result<(), PrintError>
    ensures { PrintsWith (W.told sink.old) (W.told sink.new) pen.old pen.new
        (codes "ask " ++ (site_text pen.old.text (site_in pen.old path row)
        ++ (codes " of " ++ (cell_text pen.old.text (name_in pen.old name) index ++ codes "\n")))) result }
{
    put(sink, b"ask ")?;
    put_site(sink, pen, path, row)?;
    put_asked_cell(sink, pen, name, index)
}

/// The cell that a fetch asks for, and the end of the line.
fn put_asked_cell<W: Sink>(
    sink: &mut W,
    pen: &mut Pen<'_>,
    name: usize,
    index: i64,
) -> Result<(), PrintError>
    ensures { PrintsWith (W.told sink.old) (W.told sink.new) pen.old pen.new
        (codes " of " ++ (cell_text pen.old.text (name_in pen.old name) index ++ codes "\n")) result }
{
    put(sink, b" of ")?;
    put_cell_behind(sink, pen, name, index)?;
    put(sink, b"\n")
}

/// A cell of a structure, behind something else on the line.
pub(crate) fn put_cell_behind<W: Sink>(
    sink: &mut W,
    pen: &mut Pen<'_>,
    name: usize,
    index: i64,
) -> Result<(), PrintError>
    ensures { PrintsWith (W.told sink.old) (W.told sink.new) pen.old pen.new
        (cell_text pen.old.text (name_in pen.old name) index) result }
{
    pen.turn();
    let done = put_cell(sink, pen, name, index);
    pen.turn();
    done
}

/// A cell and the value that it holds.
fn put_filled<W: Sink>(
    sink: &mut W,
    pen: &mut Pen<'_>,
    name: usize,
    index: i64,
    value: RowValue,
) -> Result<(), PrintError>
    ensures { PrintsWith (W.told sink.old) (W.told sink.new) pen.old pen.new
        (filled_text pen.old.text (name_in pen.old name) index (value_in pen.old value)) result }
{
    put_cell(sink, pen, name, index)?;
    put_equal(sink, pen, value)
}

/// A cell of a structure.
fn put_cell<W: Sink>(
    sink: &mut W,
    pen: &mut Pen<'_>,
    name: usize,
    index: i64,
) -> Result<(), PrintError>
    ensures { PrintsWith (W.told sink.old) (W.told sink.new) pen.old pen.new
        (cell_text pen.old.text (name_in pen.old name) index) result }
{
    put_name(sink, pen, name)?;
    put_index(sink, index)
}

/// A value after `=`.
fn put_equal<W: Sink>(sink: &mut W, pen: &mut Pen<'_>, value: RowValue) -> Result<(), PrintError>
    ensures { PrintsWith (W.told sink.old) (W.told sink.new) pen.old pen.new
        (equal_text pen.old.text (value_in pen.old value)) result }
{
    put(sink, b" = ")?;
    put_value(sink, pen, value)
}

/// A value.
pub(crate) fn put_value<W: Sink>(
    sink: &mut W,
    pen: &mut Pen<'_>,
    value: RowValue,
) -> Result<(), PrintError>
    ensures { PrintsWith (W.told sink.old) (W.told sink.new) pen.old pen.new
        (value_text pen.old.text (value_in pen.old value)) result }
{
    match value {
        RowValue::Int(n) => put_int(sink, n),
        RowValue::Bool(truth) => put(sink, truth_bytes(truth)),
        RowValue::Name(name) => put_name_behind(sink, pen, name),
    }
}

/// The name of a structure, behind something else on the line.
fn put_name_behind<W: Sink>(sink: &mut W, pen: &mut Pen<'_>, name: usize) -> Result<(), PrintError>
    ensures { PrintsWith (W.told sink.old) (W.told sink.new) pen.old pen.new
        (site_text pen.old.text (name_in pen.old name)) result }
{
    let made = pen.tree.fact(name);
    put_site_behind(sink, pen, path_of(made), row_of(made))
}

/// The name of a structure: the path and the place of its `array`.
fn put_name<W: Sink>(sink: &mut W, pen: &mut Pen<'_>, name: usize) -> Result<(), PrintError>
    ensures { PrintsWith (W.told sink.old) (W.told sink.new) pen.old pen.new
        (site_text pen.old.text (name_in pen.old name)) result }
{
    let made = pen.tree.fact(name);
    put_site(sink, pen, path_of(made), row_of(made))
}

/// A path and a row, behind something else on the line.
pub(crate) fn put_site_behind<W: Sink>(
    sink: &mut W,
    pen: &mut Pen<'_>,
    path: Trail,
    row: usize,
) -> Result<(), PrintError>
    ensures { PrintsWith (W.told sink.old) (W.told sink.new) pen.old pen.new
        (site_text pen.old.text (site_in pen.old path row)) result }
{
    pen.turn();
    let done = put_site(sink, pen, path, row);
    pen.turn();
    done
}

/// Where something is: its path, and where its row stands.
fn put_site<W: Sink>(
    sink: &mut W,
    pen: &mut Pen<'_>,
    path: Trail,
    row: usize,
) -> Result<(), PrintError>
    ensures { PrintsWith (W.told sink.old) (W.told sink.new) pen.old pen.new
        (site_text pen.old.text (site_in pen.old path row)) result }
{
    let start = write_steps(&mut pen.steps, pen.checked, &pen.tree, path);
    put_steps(sink, &mut pen.cursor, &pen.steps[start..])?;
    put_at(sink, &mut pen.cursor, place_of(pen.checked, row))
}
