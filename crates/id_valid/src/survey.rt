//! One pass over a graph: the roles of each instruction, and how many arcs feed each port.

ghost use Rattle.std.specs.Prelude.{◌≡◌, ◌<◌, ◌==◌, length, min, All, IfOk, cond, count_by};
ghost use Rattle.std.specs.List.{list_any};
ghost use Rattle.id_instr.specs.Graph.{arcs};
ghost use Rattle.id_valid.specs.Roles.{arcs_into, is_dest, is_entry, is_first, is_reply, is_second, replies_to};
ghost use Rattle.id_valid.specs.Survey.{Adds, Counts, Marks, Notes};

use id_instr::{Dest, Graph, Instr, Op, Port};
use std::alloc::{AllocError, Global};
use std::marker::Model;

/// A graph with what was noted of each of its instructions, by number: whether it is the first of a
/// block, whether it is an entry, whether replies come to it, and how many arcs feed its ports, where
/// 2 stands for any more.
#[derive(Drop)]
pub struct Survey<'a> {
    graph: &'a Graph,
    firsts: Vec<bool>,
    entries: Vec<bool>,
    replies: Vec<bool>,
    zero: Vec<u8>,
    one: Vec<u8>,
}

impl<'a> Model for Survey<'a> {
    ghost use Rattle.id_instr.specs.Graph.{Parts};

    ghost Value = { Parts };

    ghost view = { λ s. s.graph.now };

    ghost use Rattle.id_valid.specs.Survey.{IsSurvey};

    ghost invariant = { λ s. IsSurvey s.graph.now s.firsts.items s.entries.items s.replies.items s.zero.items
        s.one.items };
}

impl<'a> Survey<'a> {
    /// The survey of a graph.
    pub fn new(alloc: Global, graph: &'a Graph) -> Result<Survey<'a>, AllocError>
        ensures { IfOk result (λ s. s ≡ graph.now) }
    {
        let firsts = firsts(alloc, graph)?;
        let entries = entries(alloc, graph)?;
        let replies = replies(alloc, graph)?;
        let zero = arcs_into(alloc, graph, Port::Zero)?;
        let one = arcs_into(alloc, graph, Port::One)?;
        Ok(Survey {
            graph,
            firsts,
            entries,
            replies,
            zero,
            one,
        })
    }

    /// The graph.
    pub fn graph(&self) -> &Graph
        ensures { result.now ≡ self.now }
    {
        self.graph
    }

    /// Whether the instruction is the first of a block.
    pub fn is_first(&self, number: usize) -> bool
        requires { number < length self.now.instrs }
        ensures { result ≡ is_first self.now number }
    {
        self.firsts[number]
    }

    /// Whether the instruction is the second of a block.
    pub fn is_second(&self, number: usize) -> bool
        requires { number < length self.now.instrs }
        ensures { result ≡ is_second self.now number }
    {
        number > 0 && self.firsts[number - 1]
    }

    /// Whether the instruction is an entry of a block.
    pub fn is_entry(&self, number: usize) -> bool
        requires { number < length self.now.instrs }
        ensures { result ≡ is_entry self.now number }
    {
        self.entries[number]
    }

    /// Whether replies come to the instruction.
    pub fn is_reply(&self, number: usize) -> bool
        requires { number < length self.now.instrs }
        ensures { result ≡ is_reply self.now number }
    {
        self.replies[number]
    }

    /// How many arcs feed the port, where 2 stands for any more.
    pub fn arcs_into(&self, number: usize, port: Port) -> u8
        requires { number < length self.now.instrs }
        ensures { result ≡ min 2 (arcs_into self.now number port) }
    {
        match port {
            Port::Zero => self.zero[number].min(2),
            Port::One => self.one[number].min(2),
        }
    }
}

/// For each instruction, whether it is the first of a block.
fn firsts(alloc: Global, graph: &Graph) -> Result<Vec<bool>, AllocError>
    ensures { IfOk result (λ v. Notes (is_first graph.now) (length graph.now.instrs) v.items) }
{
    let mut marks = vec![in alloc; false; graph.instrs().len()]?;
    for block in graph.blocks() {
        mark(&mut marks, block.first);
    }
    Ok(marks)
}

/// For each instruction, whether it is an entry of a block.
fn entries(alloc: Global, graph: &Graph) -> Result<Vec<bool>, AllocError>
    ensures { IfOk result (λ v. Notes (is_entry graph.now) (length graph.now.instrs) v.items) }
{
    let mut marks = vec![in alloc; false; graph.instrs().len()]?;
    for block in graph.blocks() {
        mark_all(&mut marks, block.entries.as_slice());
    }
    Ok(marks)
}

/// For each instruction, whether replies come to it.
fn replies(alloc: Global, graph: &Graph) -> Result<Vec<bool>, AllocError>
    ensures { IfOk result (λ v. Notes (is_reply graph.now) (length graph.now.instrs) v.items) }
{
    let mut marks = vec![in alloc; false; graph.instrs().len()]?;
    for instr in graph.instrs() {
        mark_reply(&mut marks, instr.op);
    }
    Ok(marks)
}

/// Marks the place that the operator names for replies, if it names one below the length.
fn mark_reply(marks: &mut [bool], op: Op)
    ensures { Marks marks.old marks.new (replies_to op) }
{
    if let Op::Enter { reply, .. } | Op::Fetch { reply, .. } = op {
        mark(marks, reply);
    }
}

/// Marks the place of each number that is below the length.
fn mark_all(marks: &mut [bool], numbers: &[u32])
    ensures { Marks marks.old marks.new (λ k. list_any (λ e. e == k) numbers.now) }
{
    for number in numbers {
        mark(marks, *number);
    }
}

/// Marks the place of a number, if the number is below the length.
fn mark(marks: &mut [bool], number: u32)
    ensures { Marks marks.old marks.new (λ k. number == k) }
{
    if (number as usize) < marks.len() {
        marks[number as usize] = true;
    }
}

/// For each instruction, how many arcs feed this port of it, where 2 stands for any more.
fn arcs_into(alloc: Global, graph: &Graph, port: Port) -> Result<Vec<u8>, AllocError>
    ensures { IfOk result
        (λ v. Counts (λ n. arcs_into graph.now n port) (length graph.now.instrs) v.items) }
{
    let instrs = graph.instrs();
    let mut counts = vec![in alloc; 0; instrs.len()]?;
    for instr in instrs {
        feed_from(&mut counts, port, instr);
    }
    Ok(counts)
}

/// Adds the arcs from an instruction that feed this port.
fn feed_from(counts: &mut [u8], port: Port, instr: &Instr)
    requires { All (λ d. d.instr < length counts.old) (arcs instr.now) }
    ensures { Adds counts.old counts.new (λ k. count_by (is_dest k port) (arcs instr.now)) }
{
    feed(counts, port, instr.dests.as_slice());
    feed(counts, port, instr.false_arcs());
}

/// Adds the arcs to these destinations that feed this port.
fn feed(counts: &mut [u8], port: Port, dests: &[Dest])
    requires { All (λ d. d.instr < length counts.old) dests.now }
    ensures { Adds counts.old counts.new (λ k. count_by (is_dest k port) dests.now) }
{
    for dest in dests {
        feed_one(counts, port, *dest);
    }
}

/// Adds the arc to this destination, if it feeds this port.
fn feed_one(counts: &mut [u8], port: Port, dest: Dest)
    requires { dest.instr < length counts.old }
    ensures { Adds counts.old counts.new (λ k. cond (is_dest k port dest) 1 0) }
{
    if dest.port == port {
        let count = &mut counts[dest.instr as usize];
        *count = count.saturating_add(1);
    }
}
