//! The judge of a trace, line by line.

ghost use Rattle.std.specs.Prelude.{◌≡◌, ◌<◌, ◌↔◌, ◌⊎◌, [], Err, IfErr, IfOk, IfSome, List, None, Ok, ℕ, length, take};
ghost use Rattle.id_value.specs.declared.Constant.{Constant};
ghost use Rattle.id_instr.specs.Graph.{Parts};
ghost use Rattle.id_record.specs.declared.kept.Keeps.{Keeps};
ghost use Rattle.id_core.specs.Machines.{TakesInputs};
ghost use Rattle.id_core.specs.declared.machine.MachineError.TheVariants.{BadElements};
ghost use Rattle.id_judge.specs.declared.verdict.Verdict.TheVariants.{Legal};
ghost use Rattle.id_judge.specs.Ends.{begin_with_digit, has_end, is_line};
ghost use Rattle.id_judge.specs.Lines.{IsLineVerdict};
ghost use Rattle.id_judge.specs.Judging.{HasRead, IsReady, JudgesOn, ReadsAll, ReadsLine, Refuses, RefusesAt};
ghost use Rattle.id_judge.specs.Judging.{cause_for};

use crate::bench::{Bench, end_bench, start_bench, tell_small};
use crate::line::{Line, empty_line};
use crate::lines::{first_stamps, follow_line};
use crate::verdict::{Cause, Verdict};
use id_core::{Count, Keeps, Machine, MachineError, Start};
use id_source::Inputs;
use id_valid::Valid;
use std::alloc::{AllocError, Global};

/// More bytes than the line of any event has.
pub const MAX_LINE: usize = 4096;

/// A machine that reads a trace: it has made the events of all lines that it has read, and keeps none of those lines.
#[derive(Drop)]
pub struct Judge<'a> {
    bench: Bench<'a>,
    stamps: Vec<u64>,
    line: Line,
    lines: usize,
}

impl<'a> Judge<'a> {
    /// The judge that has read nothing, of traces of so many elements of a graph, from its start with these inputs. Its
    /// elements keep so much of their events. `BadElements` comes where the count is not from 1 to 64.
    pub fn new(
        alloc: Global,
        graph: &'a Valid,
        inputs: &Inputs,
        count: u32,
        keeps: Keeps,
    ) -> Result<Judge<'a>, MachineError>
        requires { TakesInputs graph.now inputs.now.values }
        ensures ready { IfOk result IsReady }
        ensures judges { IfOk result (JudgesOn graph.now count keeps) }
        ensures read { IfOk result (HasRead inputs.now.values []) }
        ensures refused { (result ≡ Err BadElements) ↔ ((count ≡ 0) ⊎ (64 < count)) }
    {
        let Some(count) = Count::new(count) else {
            return Err(MachineError::BadElements);
        };
        let bench = start_bench(alloc, Start { graph, inputs }, count, keeps)?;
        tell_small(&bench);
        let stamps = first_stamps(alloc, count)?;
        Ok(Judge {
            bench,
            stamps,
            line: empty_line(alloc),
            lines: 0,
        })
    }

    /// How many lines it has read. Takes no memory.
    pub fn lines(&self) -> usize
        ensures { result ≡ self.now.lines }
    {
        self.lines
    }

    /// Reads the first line of a text, and answers what stands behind it; or says why no event of it can follow, and is
    /// not to be asked again then. Where the text is longer than `MAX_LINE`, or ends the trace, or has a line feed, it
    /// is enough, and what stands behind it in the trace changes no answer.
    pub fn line<'t>(&mut self, text: &'t [u8]) -> Result<Result<&'t [u8], Cause>, AllocError>
        requires ready { IsReady self.old }
        requires some { 0 < length text.now }
        ensures ready { IfOk result (λ r. IfOk r (λ tail. IsReady self.new)) }
        ensures reads { IfOk result (λ r. IfOk r (λ tail. ReadsLine self.old text.now tail.now self.new)) }
        ensures refuses { IfOk result (λ r. IfErr r (Refuses self.old text.now)) }
        ensures lines { IfOk result (λ r. IfErr r (λ cause. self.new.lines ≡ self.old.lines)) }
    {
        let Some(lines) = self.lines.checked_add(1) else {
            return Err(AllocError);
        };
        match follow_line(&mut self.bench, &mut self.stamps, &mut self.line, text)? {
            Ok(tail) => {
                tell_small(&self.bench);
                self.lines = lines;
                Ok(Ok(tail))
            }
            Err(cause) => Ok(Err(cause_for(text, cause))),
        }
    }

    /// The machine that all lines have come to.
    pub fn end(self, alloc: Global) -> Result<Machine<'a>, AllocError>
        ensures { (g : Parts) (vs : List Constant) (count : ℕ) (keeps : Keeps) (text : List ℕ)
            → JudgesOn g count keeps self.entry → HasRead vs text self.entry
            → IfOk result (λ m. IsLineVerdict g vs count keeps text (Legal m self.entry.lines)) }
    {
        let Judge { bench, .. } = self;
        end_bench(alloc, bench)
    }
}

/// Whether a line feed is among the bytes.
fn has_end(bytes: &[u8]) -> bool
    ensures { result ≡ has_end bytes.now }
{
    bytes.contains(&b'\n')
}

/// Whether the bytes begin with a digit.
fn begin_with_digit(bytes: &[u8]) -> bool
    ensures { result ≡ begin_with_digit bytes.now }
{
    match bytes.first() {
        Some(first) => b'0' <= *first && *first <= b'9',
        None => false,
    }
}

/// The first bytes of a text, as many as the line of an event has at the most.
fn front(text: &[u8]) -> &[u8]
    ensures { result.now ≡ take 4096 text.now }
{
    if text.len() < MAX_LINE {
        return text;
    }
    &text[..MAX_LINE]
}

/// Whether the first line of a text may be that of an event.
fn is_line(text: &[u8]) -> bool
    ensures { result ≡ is_line text.now }
{
    begin_with_digit(text) && has_end(front(text))
}

/// The cause, where the first line of a text may be that of an event.
fn cause_for(text: &[u8], cause: Cause) -> Cause
    ensures { result ≡ cause_for text.now cause }
{
    if is_line(text) { cause } else { Cause::NoLine }
}

/// Reads all lines of a text, which ends with a line or ends the trace; or says why no event of one of them can follow,
/// which is the next one behind those that were read.
pub fn read_lines(judge: &mut Judge<'_>, text: &[u8]) -> Result<Option<Cause>, AllocError>
    requires ready { IsReady judge.old }
    ensures ready { result ≡ Ok None → IsReady judge.new }
    ensures reads { result ≡ Ok None → ReadsAll judge.old text.now judge.new }
    ensures refuses { IfOk result (λ o. IfSome o (RefusesAt judge.old text.now judge.new.lines)) }
{
    let mut rest = text;
    while !rest.is_empty() {
        match judge.line(rest)? {
            Ok(tail) => rest = tail,
            Err(cause) => return Ok(Some(cause)),
        }
    }
    Ok(None)
}

/// Judges a trace, which is a line for each event as `idc run --trace` prints it, on so many elements of a graph, from
/// its start with these inputs: whether it is that of a legal list, and else which is the first line from which on it
/// is none, and why. The elements of the machine that it gives keep so much of their events. `BadElements` comes where
/// the count is not from 1 to 64.
pub fn judge_lines<'a>(
    alloc: Global,
    graph: &'a Valid,
    inputs: &Inputs,
    count: u32,
    keeps: Keeps,
    text: &[u8],
) -> Result<Verdict<'a>, MachineError>
    requires { TakesInputs graph.now inputs.now.values }
    ensures verdict { IfOk result (IsLineVerdict graph.now inputs.now.values count keeps text.now) }
    ensures refused { (result ≡ Err BadElements) ↔ ((count ≡ 0) ⊎ (64 < count)) }
{
    let mut judge = Judge::new(alloc, graph, inputs, count, keeps)?;
    match read_lines(&mut judge, text)? {
        None => {
            let lines = judge.lines();
            let machine = judge.end(alloc)?;
            Ok(Verdict::Legal(machine, lines))
        }
        Some(cause) => Ok(Verdict::CannotFollow(judge.lines(), cause)),
    }
}
