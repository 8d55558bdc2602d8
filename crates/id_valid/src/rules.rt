//! The rules of the validator, a function for each (docs/GRAPH.md, "Validator").

ghost use Rattle.std.specs.Prelude.{◌≡◌, ◌<◌, ◌↔◌, length, Some, All, IsTrue, IsSome};
ghost use Rattle.id_instr.specs.Graph.{arcs};
ghost use Rattle.id_instr.specs.Ports.{port_kind};
ghost use Rattle.id_valid.specs.Roles.{needs_no_arc, op_at};
ghost use Rattle.id_valid.specs.Validator.{is_value, AreFed, AreNamed, FillsRoles, IsAnswer, IsEntered, IsFed};
ghost use Rattle.id_valid.specs.Validator.{IsSentTo, IsSound, IsTaken};

use crate::roles::{back_kind, main_block, merge_kind, op_at, result_kind};
use crate::survey::Survey;
use id_instr::{Dest, Graph, Instr, Op, Port, PortKind, kind_at};

/// Whether no rule makes the instruction faulty.
pub fn is_sound(survey: &Survey<'_>, number: usize) -> bool
    requires { number < length survey.now.instrs }
    ensures { IsTrue result ↔ IsSound survey.now number }
{
    let graph = survey.graph();
    let instr = &graph.instrs()[number];
    if number == 0 && !is_answer(graph) {
        return false;
    }
    fills_roles(survey, number, instr.op)
        && are_taken(graph.instrs(), instr)
        && are_named(survey, instr.op)
        && are_fed(survey, number, instr.op)
}

/// Whether instruction 0 is a merge for values, of the result kind of the one block with its place.
fn is_answer(graph: &Graph) -> bool
    ensures { IsTrue result ↔ IsAnswer graph.now }
{
    let Some(block) = main_block(graph) else {
        return false;
    };
    let Some(Op::Merge(kind)) = op_at(graph, 0) else {
        return false;
    };
    is_value(kind) && result_kind(graph, block) == Some(kind)
}

/// Whether the kind is one of values of the language.
fn is_value(kind: PortKind) -> bool
    ensures { result ≡ is_value kind }
{
    match kind {
        PortKind::Int | PortKind::Bool | PortKind::Structure | PortKind::Structures => true,
        PortKind::Signal | PortKind::Address | PortKind::Addresses => false,
        PortKind::Context | PortKind::Continuation => false,
    }
}

/// Whether the instruction, which does `op`, is what its place in a block asks for.
fn fills_roles(survey: &Survey<'_>, number: usize, op: Op) -> bool
    requires within { number < length survey.now.instrs }
    requires op { op_at survey.now number ≡ Some op }
    ensures { IsTrue result ↔ FillsRoles survey.now number }
{
    (!survey.is_first(number) || op == Op::Merge(PortKind::Signal))
        && (!survey.is_second(number) || back_kind(op).is_some())
        && (!survey.is_entry(number) || merge_kind(op).is_some())
}

/// Whether each destination of an instruction takes what the instruction sends.
fn are_taken(instrs: &[Instr], instr: &Instr) -> bool
    ensures { IsTrue result ↔ All (IsTaken instrs.now instr.now.op) (arcs instr.now) }
{
    all_take(instrs, instr.op, instr.dests.as_slice())
        && all_take(instrs, instr.op, instr.false_arcs())
}

/// Whether each of the destinations takes what the operator sends.
fn all_take(instrs: &[Instr], op: Op, dests: &[Dest]) -> bool
    ensures { IsTrue result ↔ All (IsTaken instrs.now op) dests.now }
{
    dests.iter().all(|dest| is_taken(instrs, op, *dest))
}

/// Whether the port at a destination takes the kind that an operator sends.
fn is_taken(instrs: &[Instr], op: Op, dest: Dest) -> bool
    ensures { IsTrue result ↔ IsTaken instrs.now op dest }
{
    match op.sends() {
        Some(kind) => kind_at(instrs, dest) == Some(kind),
        None => false,
    }
}

/// Whether the instructions that an operator names are what it asks of them.
fn are_named(survey: &Survey<'_>, op: Op) -> bool
    ensures { IsTrue result ↔ AreNamed survey.now op }
{
    match op {
        Op::Enter { block, reply } => is_entered(survey, block, reply),
        Op::Send { kind, target } => is_sent_to(survey, kind, target),
        Op::Fetch { nested, reply } => {
            op_at(survey.graph(), reply as usize) == Some(Op::Merge(PortKind::of_held(nested)))
        }
        Op::Const(_) | Op::Unary(_) | Op::Binary(_) | Op::Merge(_) | Op::Switch(_) => true,
        Op::Back(_) | Op::Next(_) | Op::Reset(_) => true,
        Op::Alloc { .. } | Op::Address { .. } | Op::Store { .. } => true,
    }
}

/// Whether the first is the first of a block, and the other a merge of the kind of its result.
fn is_entered(survey: &Survey<'_>, first: u32, reply: u32) -> bool
    ensures { IsTrue result ↔ IsEntered survey.now first reply }
{
    let back = op_at(survey.graph(), first as usize + 1);
    let reply = op_at(survey.graph(), reply as usize);
    match (back, reply) {
        (Some(Op::Back(kind)), Some(Op::Merge(other))) => {
            kind == other && survey.is_first(first as usize)
        }
        _ => false,
    }
}

/// Whether the instruction is an entry of a block, and a merge of this kind.
fn is_sent_to(survey: &Survey<'_>, kind: PortKind, target: u32) -> bool
    ensures { IsTrue result ↔ IsSentTo survey.now kind target }
{
    match op_at(survey.graph(), target as usize) {
        Some(Op::Merge(other)) => kind == other && survey.is_entry(target as usize),
        _ => false,
    }
}

/// Whether each port of the operator is fed.
fn are_fed(survey: &Survey<'_>, number: usize, op: Op) -> bool
    requires { number < length survey.now.instrs }
    ensures { IsTrue result ↔ AreFed survey.now number op }
{
    is_fed(survey, number, op, Port::Zero) && is_fed(survey, number, op, Port::One)
}

/// Whether the port, if the operator has it, is fed by an arc or needs none, and by several only
/// at a merge.
fn is_fed(survey: &Survey<'_>, number: usize, op: Op, port: Port) -> bool
    requires { number < length survey.now.instrs }
    ensures { IsTrue result ↔ (IsSome (port_kind op port) → IsFed survey.now number op port) }
{
    if op.port_kind(port).is_none() {
        return true;
    }
    let arcs = survey.arcs_into(number, port);
    (arcs > 0 || needs_no_arc(survey, number, port)) && (arcs < 2 || merge_kind(op).is_some())
}

/// Whether the port is fed by a result, by entering, by a send or by a reply, and needs no arc.
fn needs_no_arc(survey: &Survey<'_>, number: usize, port: Port) -> bool
    requires { number < length survey.now.instrs }
    ensures { result ≡ needs_no_arc survey.now number port }
{
    number == 0
        || survey.is_first(number)
        || survey.is_entry(number)
        || (survey.is_second(number) && port == Port::Zero)
        || survey.is_reply(number)
}
