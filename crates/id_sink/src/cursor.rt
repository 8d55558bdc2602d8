//! The lines and columns of many places of a text, one after another, without memory for the lines.

ghost use Rattle.std.specs.Prelude.{◌≡◌, ◌≤◌, length, take};
ghost use Rattle.id_text.specs.Places.{line_of, column_of};
ghost use Rattle.id_sink.specs.Cursors.{IsSeries, IsSpot};
ghost use Rattle.id_sink.specs.Texts.{has_brace};

use std::marker::Model;

/// A place of a text, with its line and column.
#[derive(Clone, Copy, Drop)]
pub struct Spot {
    at: usize,
    line: usize,
    column: usize,
}

/// A series of places: the last of them, and the last that stood before the one that it followed.
#[derive(Clone, Copy, Drop)]
pub struct Series {
    last: Spot,
    back: Spot,
}

/// A text, with the places of it that were looked up, and those of the steps of paths; and both of other places, which
/// `turn` takes in their stead: those of the names that stand behind something else on a line.
///
/// From a place to a later one only the bytes between them are read; places that rise take one pass over the text in
/// all. So do places that rise again and again from one that they come back to.
///
/// Keeps: each place that was looked up lies in the text and has its line and column. Clauses see the text alone.
#[derive(Drop)]
pub struct Cursor<'a> {
    text: &'a str,
    step: Series,
    place: Series,
    other_step: Series,
    other_place: Series,
}

impl<'a> Model for Cursor<'a> {
    ghost use Rattle.std.specs.Prelude.{List, ℕ};
    ghost use Rattle.id_sink.specs.Cursors.{IsCursor};

    ghost Value = { List ℕ };

    ghost view = { λ c. c.text.now };

    ghost invariant = { λ c. IsCursor c.text.now c.step c.place c.other_step c.other_place };
}

impl<'a> Cursor<'a> {
    /// A cursor at the start of the text.
    pub fn new(text: &'a str) -> Cursor<'a>
        ensures { result ≡ text.now }
    {
        Cursor {
            text,
            step: fresh(),
            place: fresh(),
            other_step: fresh(),
            other_place: fresh(),
        }
    }

    /// The line and column of a place. One behind the end of the text has those of the end.
    pub fn line_col(&mut self, at: usize) -> (usize, usize)
        ensures line { result.0 ≡ line_of self.old at }
        ensures column { result.1 ≡ column_of self.old at }
        ensures same { self.new ≡ self.old }
    {
        let text = self.text.as_bytes();
        self.place = series_at(text, self.place, inside(text, at));
        (self.place.last.line, self.place.last.column)
    }

    /// The line and column of the place of a step of a path.
    pub fn step_line_col(&mut self, at: usize) -> (usize, usize)
        ensures line { result.0 ≡ line_of self.old at }
        ensures column { result.1 ≡ column_of self.old at }
        ensures same { self.new ≡ self.old }
    {
        let text = self.text.as_bytes();
        self.step = series_at(text, self.step, inside(text, at));
        (self.step.last.line, self.step.last.column)
    }

    /// Goes on with the other series of places.
    pub fn turn(&mut self)
        ensures { self.new ≡ self.old }
    {
        let step = self.step;
        let place = self.place;
        self.step = self.other_step;
        self.place = self.other_place;
        self.other_step = step;
        self.other_place = place;
    }

    /// Whether a `{` stands at a place.
    pub fn has_brace(&self, at: usize) -> bool
        ensures { result ≡ has_brace self.now at }
    {
        match self.text.as_bytes().get(at) {
            Some(byte) => *byte == b'{',
            None => false,
        }
    }
}

/// The place, or the end of the text where that comes before it.
fn inside(text: &[u8], at: usize) -> usize
    ensures inside { result ≤ length text.now }
    ensures same { take result text.now ≡ take at text.now }
{
    at.min(text.len())
}

/// The start of a text.
fn start() -> Spot
    ensures at { result.at ≡ 0 }
    ensures line { result.line ≡ 1 }
    ensures column { result.column ≡ 1 }
{
    Spot {
        at: 0,
        line: 1,
        column: 1,
    }
}

/// A series without a place.
fn fresh() -> Series
    ensures last { result.last.at ≡ 0 }
    ensures last_line { result.last.line ≡ 1 }
    ensures last_column { result.last.column ≡ 1 }
    ensures back { result.back ≡ result.last }
{
    Series {
        last: start(),
        back: start(),
    }
}

/// The series with this place as its last. A place before the last is found from the one that was such before.
fn series_at(text: &[u8], from: Series, at: usize) -> Series
    requires from { IsSeries text.now from }
    requires inside { at ≤ length text.now }
    ensures at { result.last.at ≡ at }
    ensures series { IsSeries text.now result }
{
    if from.last.at <= at {
        Series {
            last: spot_after(text, from.last, at),
            back: from.back,
        }
    } else {
        let back = spot_at(text, from.back, at);
        Series { last: back, back }
    }
}

/// The spot at this place, found from another one.
fn spot_at(text: &[u8], from: Spot, at: usize) -> Spot
    requires from { IsSpot text.now from }
    requires inside { at ≤ length text.now }
    ensures at { result.at ≡ at }
    ensures spot { IsSpot text.now result }
{
    if from.at <= at {
        spot_after(text, from, at)
    } else {
        spot_after(text, start(), at)
    }
}

/// The spot at this place, found from one that is not behind it.
fn spot_after(text: &[u8], from: Spot, at: usize) -> Spot
    requires from { IsSpot text.now from }
    requires behind { from.at ≤ at }
    requires inside { at ≤ length text.now }
    ensures at { result.at ≡ at }
    ensures spot { IsSpot text.now result }
{
    let mut line = from.line;
    let mut column = from.column;
    for i in from.at..at {
        if text[i] == b'\n' {
            line += 1;
            column = 1;
        } else {
            column += 1;
        }
    }
    Spot { at, line, column }
}
