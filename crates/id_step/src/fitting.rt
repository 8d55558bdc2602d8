//! Which messages fit a graph: what `Element::take` asks of a message, its route aside.

ghost use Rattle.std.specs.Prelude.{◌≡◌, ◌↔◌, IsTrue};
ghost use Rattle.id_instr.specs.declared.instr.PortKind.{PortKind};
ghost use Rattle.id_instr.specs.declared.instr.Op.TheVariants.{Back, Merge, Store};
ghost use Rattle.id_instr.specs.Graph.{kind_at};
ghost use Rattle.id_tag.specs.Kinds.{kind_of};
ghost use Rattle.id_valid.specs.Roles.{is_second, op_at};
ghost use Rattle.id_step.specs.Fits.{AddressFits, ContinuationFits, Fits, IsCell, ReadFits, ReplyFits, held_in};
ghost use Rattle.id_step.specs.Fits.{TakesReturn, TokenFits, WriteFits};

use id_instr::{Dest, Graph, Op, Port, PortKind, kind_at};
use id_tag::{Cell, Message, Payload, Tag, Value};
use id_valid::Valid;
use id_value::is_inside;

/// Whether a message fits a graph: its port exists and takes a value of its kind, a continuation comes
/// to port 0 of a block's `back` and names a merge of that block's result kind, a cell lies inside its
/// structure's bounds, a reply names a merge for what the cell holds, a write is of that and names a `store` to such
/// cells, and no iteration in it is above its stamp. Takes no memory. A continuation is looked for among the graph's
/// blocks; every other message takes constant time (docs/MACHINE.md, "Element step").
pub fn fits(graph: &Valid, message: &Message) -> bool
    ensures { IsTrue result ↔ Fits graph.now message.now }
{
    match message.payload {
        Payload::Token { tag, port, value } => {
            token_fits(graph.graph(), message.stamp, tag, port, value)
        }
        Payload::Read { cell, reply } => read_fits(graph.graph(), message.stamp, cell, reply),
        Payload::Write {
            cell,
            value,
            origin,
        } => write_fits(graph.graph(), message.stamp, cell, value, origin),
    }
}

/// Whether a token fits at a stamp.
fn token_fits(graph: &Graph, stamp: u64, tag: Tag, port: Port, value: Value) -> bool
    ensures { IsTrue result ↔ TokenFits graph.now stamp tag port value }
{
    has_kind(graph, tag, port, value)
        && tag.iteration <= stamp
        && continuation_fits(graph, stamp, tag, port, value)
        && address_fits(value)
}

/// Whether a read fits at a stamp.
fn read_fits(graph: &Graph, stamp: u64, cell: Cell, reply: Tag) -> bool
    ensures { IsTrue result ↔ ReadFits graph.now stamp cell reply }
{
    is_cell(cell) && reply_fits(graph, stamp, cell, reply)
}

/// Whether a reply fits the cell at a stamp.
fn reply_fits(graph: &Graph, stamp: u64, cell: Cell, reply: Tag) -> bool
    ensures { IsTrue result ↔ ReplyFits graph.now stamp cell reply }
{
    op_at(graph, reply.instr) == Some(Op::Merge(held_in(cell))) && reply.iteration <= stamp
}

/// The kind of what the cell holds.
fn held_in(cell: Cell) -> PortKind
    ensures { result ≡ held_in cell }
{
    PortKind::of_held(cell.structure.nested)
}

/// Whether a write fits at a stamp.
fn write_fits(graph: &Graph, stamp: u64, cell: Cell, value: Value, origin: Tag) -> bool
    ensures { IsTrue result ↔ WriteFits graph.now stamp cell value origin }
{
    is_cell(cell)
        && value.kind() == held_in(cell)
        && op_at(graph, origin.instr) == Some(store_to(cell))
        && origin.iteration <= stamp
}

/// The operator that stores in cells like this one.
fn store_to(cell: Cell) -> Op
    ensures { result ≡ Store cell.structure.nested }
{
    Op::Store {
        nested: cell.structure.nested,
    }
}

/// Whether the cell's index is inside its structure's bounds.
fn is_cell(cell: Cell) -> bool
    ensures { IsTrue result ↔ IsCell cell }
{
    is_inside(cell.structure.low, cell.structure.high, cell.index)
}

/// Whether the value is no address, or that of a cell.
fn address_fits(value: Value) -> bool
    ensures { IsTrue result ↔ AddressFits value }
{
    match value {
        Value::Address(cell) => is_cell(cell),
        _ => true,
    }
}

/// Whether the port exists and takes a value of this kind.
fn has_kind(graph: &Graph, tag: Tag, port: Port, value: Value) -> bool
    ensures { IsTrue result ↔
        (kind_at graph.now.instrs (record { instr = tag.instr; port = port }) ≡ Some (kind_of value)) }
{
    let dest = Dest {
        instr: tag.instr,
        port,
    };
    match kind_at(graph.instrs(), dest) {
        Some(kind) => kind == value.kind(),
        None => false,
    }
}

/// Whether the value is no continuation, or is one that may come there.
fn continuation_fits(graph: &Graph, stamp: u64, tag: Tag, port: Port, value: Value) -> bool
    ensures { IsTrue result ↔ ContinuationFits graph.now stamp tag port value }
{
    match value {
        Value::Continuation(target) => {
            port == Port::Zero
                && takes_return(graph, tag.instr, target.instr)
                && target.iteration <= stamp
        }
        _ => true,
    }
}

/// Whether one instruction is the `back` of a block, and the other a merge of that block's result kind.
fn takes_return(graph: &Graph, back: u32, target: u32) -> bool
    ensures { IsTrue result ↔ ((k : PortKind) × TakesReturn graph.now back target k) }
{
    is_second(graph, back) && back_meets_merge(op_at(graph, back), op_at(graph, target))
}

/// Whether the operators are a `back` and a merge of one kind.
fn back_meets_merge(back: Option<Op>, target: Option<Op>) -> bool
    ensures { IsTrue result ↔ ((k : PortKind) × (back ≡ Some (Back k)) × (target ≡ Some (Merge k))) }
{
    match (back, target) {
        (Some(Op::Back(kind)), Some(Op::Merge(other))) => kind == other,
        _ => false,
    }
}

/// Whether the instruction is the second of a block.
fn is_second(graph: &Graph, number: u32) -> bool
    ensures { result ≡ is_second graph.now number }
{
    graph
        .blocks()
        .iter()
        .any(|block| u64::from(block.first) + 1 == u64::from(number))
}

/// What the instruction of this number does, if there is one.
pub fn op_at(graph: &Graph, number: u32) -> Option<Op>
    ensures { result ≡ op_at graph.now number }
{
    graph.instrs().get(number as usize).map(|instr| instr.op)
}
