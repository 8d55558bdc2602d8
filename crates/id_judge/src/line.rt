//! Texts of lines: what a message says, and what stands behind a text's words.

ghost use Rattle.std.specs.Prelude.{◌≡◌, ◌++◌, ◌↔◌, IfNone, IfOk, IfSome, IsTrue, OnOk, codes, decimal};
ghost use Rattle.id_record.specs.declared.step.Step.{Step};
ghost use Rattle.id_trace.specs.Traces.{end_text, payload_text};
ghost use Rattle.id_judge.specs.Lines.{Begins, IsSaid, behind};
ghost use Rattle.std.specs.Prelude.{List, ℕ};

use id_sink::{Piece, Sink, SinkFault};
use id_tag::{Message, Payload};
use id_trace::put_payload;
use std::alloc::{AllocError, Global};

/// Bytes that were put one behind another, in memory.
#[derive(Drop)]
pub struct Line {
    bytes: Vec<u8>,
}

impl Sink for Line {
    ghost use Rattle.std.specs.Prelude.{None, Some};

    ghost told = { λ line. record { told = None; contents = Some line.bytes.items } };

    fn write(&mut self, bytes: &[u8]) -> Result<usize, SinkFault> {
        match self.bytes.extend_from_slice(bytes) {
            Ok(()) => Ok(bytes.len()),
            Err(_) => Err(SinkFault),
        }
    }
}

impl Line {
    ghost use Rattle.std.specs.Prelude.{◌≡◌};

    /// The bytes.
    pub fn as_slice(&self) -> &[u8]
        ensures { result.now ≡ self.now.bytes.items }
    {
        self.bytes.as_slice()
    }
}

/// A line without a byte. Takes no memory.
pub fn empty_line(alloc: Global) -> Line {
    Line {
        bytes: Vec::new(alloc),
    }
}

/// Makes the line what this says.
pub fn say(line: &mut Line, payload: &Payload) -> Result<(), AllocError>
    ensures { OnOk result (line.new.bytes.items ≡ payload_text payload.now) }
{
    line.bytes.clear();
    match put_payload(line, payload) {
        Ok(()) => Ok(()),
        Err(_) => Err(AllocError),
    }
}

/// What stands behind what a message says, where a text begins with that and the end of a line comes next.
pub fn said<'t>(
    body: &'t [u8],
    message: &Message,
    line: &mut Line,
) -> Result<Option<&'t [u8]>, AllocError>
    ensures some { IfOk result (λ o. IfSome o (λ past. IsSaid body.now message.now past.now)) }
    ensures none { IfOk result (λ o. IfNone o ((past : List ℕ) → IsSaid body.now message.now past → ⊥)) }
{
    say(line, &message.payload)?;
    let Some(rest) = past(body, line.as_slice()) else {
        return Ok(None);
    };
    if begins_end(rest) {
        return Ok(Some(rest));
    }
    Ok(None)
}

/// What stands behind these bytes, where a text begins with them. Takes no memory.
pub fn past<'t>(text: &'t [u8], bytes: &[u8]) -> Option<&'t [u8]>
    ensures some { IfSome result (λ rest. text.now ≡ bytes.now ++ rest.now) }
    ensures none { IfNone result (Begins text.now bytes.now → ⊥) }
{
    text.strip_prefix(bytes)
}

/// Whether a text begins with these bytes.
fn begins(text: &[u8], bytes: &[u8]) -> bool
    ensures { IsTrue result ↔ Begins text.now bytes.now }
{
    past(text, bytes).is_some()
}

/// Whether a text begins with the end of a line.
fn begins_end(text: &[u8]) -> bool
    ensures { IsTrue result ↔ ((step : Step) × Begins text.now (end_text step)) }
{
    if begins(text, b"\n") {
        return true;
    }
    if begins(text, b" fault\n") {
        return true;
    }
    begins(text, b" stuck\n")
}

/// Whether a text begins with this number and a space. Takes no memory.
pub fn begins_number(text: &[u8], number: u64) -> bool
    ensures { IsTrue result ↔ Begins text.now (decimal number ++ codes " ") }
{
    let mut piece = Piece::new();
    piece.byte(b' ');
    piece.number(number);
    begins(text, piece.as_slice())
}

/// What stands behind the first space of a text's first line, and nothing where that has none. Takes no memory.
pub fn behind(text: &[u8]) -> &[u8]
    ensures { result.now ≡ behind text.now }
{
    for at in 0..text.len() {
        if text[at] == b' ' {
            return &text[at + 1..];
        }
        if text[at] == b'\n' {
            return &text[text.len()..];
        }
    }
    &text[text.len()..]
}
