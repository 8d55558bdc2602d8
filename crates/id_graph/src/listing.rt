//! The listing of a graph, a line for each instruction (docs/GRAPH.md, "Listing").

ghost use Rattle.std.specs.Prelude.{◌≡◌, ◌<◌, ◌≤◌, ◌^◌, ◌++◌, length, All, IfOk, OnOk, codes};
ghost use Rattle.std.specs.Prelude.{string_bytes, true};
ghost use Rattle.std.specs.List.{flat_map};
ghost use Rattle.std.specs.Fmt.{decimal, signed_decimal};
ghost use Rattle.id_instr.specs.Graph.{arcs_on};
ghost use Rattle.id_text.specs.Places.{column_of, line_of};
ghost use Rattle.id_graph.specs.Listing.{constant_text, dest_text, dests_text, dyadic_name, false_text};
ghost use Rattle.id_graph.specs.Listing.{head_text, in_order, kind_name, line_text, lines_text, listing, op_name};
ghost use Rattle.id_graph.specs.Listing.{op_text, port_number, unary_name};

use id_instr::{Dest, Dyadic, Graph, Instr, Op, Port, PortKind};
use id_text::{Lines, MAX_BYTES};
use id_value::{Arithmetic, Comparison, Constant, Truth, UnaryOp};
use itoa::Buffer;
use std::alloc::{AllocError, Global};

/// About how many bytes a line takes.
const LINE_BYTES: usize = 44;

/// The listing of a graph of this text: a line for each instruction, in order, each ending in LF.
pub fn list(alloc: Global, graph: &Graph, text: &str) -> Result<String, AllocError>
    requires fits { length text.now ≤ MAX_BYTES }
    requires places { All (λ i. i.place ≤ length text.now) graph.now.instrs }
    ensures { IfOk result (λ s. string_bytes s ≡ listing text.now graph.now) }
{
    let lines = Lines::new(alloc, text)?;
    list_by(alloc, graph.instrs(), &lines)
}

/// The listing of these instructions, where the text has these lines.
#[inline]
fn list_by(alloc: Global, instrs: &[Instr], lines: &Lines<'_>) -> Result<String, AllocError>
    requires few { length instrs.now < 2 ^ 32 }
    requires places { All (λ i. i.place ≤ length lines.now) instrs.now }
    ensures { IfOk result (λ s. string_bytes s ≡ lines_text lines.now 0 instrs.now) }
{
    let mut out = String::with_capacity(alloc, instrs.len() * LINE_BYTES)?;
    write_lines(alloc, &mut out, lines, instrs)?;
    Ok(out)
}

/// Appends the lines of all instructions.
fn write_lines(
    alloc: Global,
    out: &mut String,
    lines: &Lines<'_>,
    instrs: &[Instr],
) -> Result<(), AllocError>
    requires { All (λ i. i.place ≤ length lines.now) instrs.now }
    ensures { OnOk result
        (string_bytes out.new ≡ string_bytes out.old ++ lines_text lines.now 0 instrs.now) }
{
    let mut row = Vec::new(alloc);
    let mut near = 0;
    for (number, instr) in instrs.iter().enumerate() {
        write_line(out, &mut row, &mut near, lines, number, instr)?;
    }
    Ok(())
}

/// Appends the line of an instruction. `row` serves to put destinations in order, and `near` is the line of the last
/// place.
fn write_line(
    out: &mut String,
    row: &mut Vec<Dest>,
    near: &mut u32,
    lines: &Lines<'_>,
    number: usize,
    instr: &Instr,
) -> Result<(), AllocError>
    requires { instr.now.place ≤ length lines.now }
    ensures { OnOk result
        (string_bytes out.new ≡ string_bytes out.old ++ line_text lines.now number instr.now) }
{
    write_head(out, near, lines, number, instr)?;
    write_arcs(out, row, instr)
}

/// Appends an arrow, the destinations of an instruction, and the end of its line.
#[inline]
fn write_arcs(out: &mut String, row: &mut Vec<Dest>, instr: &Instr) -> Result<(), AllocError>
    ensures { OnOk result (string_bytes out.new ≡ string_bytes out.old
        ++ codes " ->" ++ dests_text (arcs_on true instr.now) ++ false_text instr.now ++ codes "\n") }
{
    put(out, " ->")?;
    write_sorted(out, row, instr.dests.as_slice())?;
    write_false(out, row, instr)?;
    put(out, "\n")
}

/// Appends the destinations on the false side after a space and `|`, where there are two sides.
fn write_false(out: &mut String, row: &mut Vec<Dest>, instr: &Instr) -> Result<(), AllocError>
    ensures { OnOk result
        (string_bytes out.new ≡ string_bytes out.old ++ false_text instr.now) }
{
    if instr.op.two_sides() {
        put(out, " |")?;
        write_sorted(out, row, instr.others.as_slice())?;
    }
    Ok(())
}

/// Appends an instruction with its number and place; `near` is the line of the last place.
pub fn write_head(
    out: &mut String,
    near: &mut u32,
    lines: &Lines<'_>,
    number: usize,
    instr: &Instr,
) -> Result<(), AllocError>
    requires { instr.now.place ≤ length lines.now }
    ensures { OnOk result
        (string_bytes out.new ≡ string_bytes out.old ++ head_text lines.now number instr.now) }
{
    write_number(out, number as u64)?;
    put(out, " ")?;
    write_op(out, instr.op)?;
    write_place(out, " @", near, lines, instr.place)
}

/// Appends a place after a text; `near` is the line of the last place, and then of this one.
pub fn write_place(
    out: &mut String,
    before: &str,
    near: &mut u32,
    lines: &Lines<'_>,
    place: usize,
) -> Result<(), AllocError>
    requires { place ≤ length lines.now }
    ensures { OnOk result (string_bytes out.new ≡ string_bytes out.old
        ++ (before.now ++ decimal (line_of lines.now place) ++ codes ":" ++ decimal (column_of lines.now place))) }
{
    let (line, column) = lines.line_col_near(place, *near);
    *near = line;
    write_after(out, before, line)?;
    write_after(out, ":", column)
}

/// Appends a number after a text.
#[inline(always)]
fn write_after(out: &mut String, before: &str, number: u32) -> Result<(), AllocError>
    ensures { OnOk result
        (string_bytes out.new ≡ string_bytes out.old ++ before.now ++ decimal number) }
{
    put(out, before)?;
    write_number(out, number as u64)
}

/// Appends a number.
#[inline(always)]
fn write_number(out: &mut String, number: u64) -> Result<(), AllocError>
    ensures { OnOk result (string_bytes out.new ≡ string_bytes out.old ++ decimal number) }
{
    let mut buffer = Buffer::new();
    put(out, buffer.format(number))
}

/// Appends a text.
#[inline(always)]
pub fn put(out: &mut String, text: &str) -> Result<(), AllocError>
    ensures { OnOk result (string_bytes out.new ≡ string_bytes out.old ++ text.now) }
{
    out.push_str(text)
}

/// Appends an operator with its parameters.
pub fn write_op(out: &mut String, op: Op) -> Result<(), AllocError>
    ensures { OnOk result (string_bytes out.new ≡ string_bytes out.old ++ op_text op) }
{
    match op {
        Op::Const(constant) => write_const(out, constant),
        Op::Enter { block, reply } => write_enter(out, block, reply),
        Op::Send { kind, target } => write_send(out, kind, target),
        Op::Fetch {
            nested: false,
            reply,
        } => write_after(out, "fetch ", reply),
        Op::Fetch {
            nested: true,
            reply,
        } => write_after(out, "fetch nested ", reply),
        Op::Merge(kind) | Op::Switch(kind) | Op::Back(kind) | Op::Next(kind) | Op::Reset(kind) => {
            write_kind(out, op_name(op), kind)
        }
        Op::Unary(_) | Op::Binary(_) => put(out, op_name(op)),
        Op::Alloc { .. } | Op::Address { .. } | Op::Store { .. } => put(out, op_name(op)),
    }
}

/// The name of an operator that has no parameter, or a kind alone: then with the space between.
#[inline(always)]
fn op_name(op: Op) -> &'static str
    ensures { result.now ≡ op_name op }
{
    match op {
        Op::Unary(operator) => unary_name(operator),
        Op::Binary(operator) => dyadic_name(operator),
        Op::Merge(_) => "merge ",
        Op::Switch(_) => "switch ",
        Op::Back(_) => "back ",
        Op::Next(_) => "next ",
        Op::Reset(_) => "reset ",
        Op::Alloc { nested: false } => "alloc",
        Op::Alloc { nested: true } => "alloc nested",
        Op::Address { nested: false } => "address",
        Op::Address { nested: true } => "address nested",
        Op::Store { nested: false } => "store",
        Op::Store { nested: true } => "store nested",
        Op::Const(_) | Op::Enter { .. } | Op::Send { .. } | Op::Fetch { .. } => "",
    }
}

/// Appends a kind after the name of its operator.
#[inline(always)]
fn write_kind(out: &mut String, name: &str, kind: PortKind) -> Result<(), AllocError>
    ensures { OnOk result
        (string_bytes out.new ≡ string_bytes out.old ++ name.now ++ kind_name kind) }
{
    put(out, name)?;
    put(out, kind_name(kind))
}

/// Appends an `enter` with its two instructions.
fn write_enter(out: &mut String, block: u32, reply: u32) -> Result<(), AllocError>
    ensures { OnOk result (string_bytes out.new
        ≡ string_bytes out.old ++ codes "enter " ++ decimal block ++ codes " " ++ decimal reply) }
{
    write_after(out, "enter ", block)?;
    write_after(out, " ", reply)
}

/// Appends a `send` with its kind and its entry.
fn write_send(out: &mut String, kind: PortKind, target: u32) -> Result<(), AllocError>
    ensures { OnOk result (string_bytes out.new
        ≡ string_bytes out.old ++ codes "send " ++ kind_name kind ++ codes " " ++ decimal target) }
{
    write_kind(out, "send ", kind)?;
    write_after(out, " ", target)
}

/// Appends a `const` with its constant.
fn write_const(out: &mut String, constant: Constant) -> Result<(), AllocError>
    ensures { OnOk result
        (string_bytes out.new ≡ string_bytes out.old ++ codes "const " ++ constant_text constant) }
{
    match constant {
        Constant::Int(number) => write_int(out, number),
        Constant::Bool(true) => put(out, "const true"),
        Constant::Bool(false) => put(out, "const false"),
    }
}

/// Appends a `const` with a number.
fn write_int(out: &mut String, number: i64) -> Result<(), AllocError>
    ensures { OnOk result
        (string_bytes out.new ≡ string_bytes out.old ++ codes "const " ++ signed_decimal number) }
{
    let mut buffer = Buffer::new();
    put(out, "const ")?;
    put(out, buffer.format(number))
}

/// The name of an operator on one value.
fn unary_name(operator: UnaryOp) -> &'static str
    ensures { result.now ≡ unary_name operator }
{
    match operator {
        UnaryOp::Neg => "neg",
        UnaryOp::Not => "not",
    }
}

/// The name of an operator on two values.
fn dyadic_name(operator: Dyadic) -> &'static str
    ensures { result.now ≡ dyadic_name operator }
{
    match operator {
        Dyadic::Arithmetic(Arithmetic::Add) => "add",
        Dyadic::Arithmetic(Arithmetic::Sub) => "sub",
        Dyadic::Arithmetic(Arithmetic::Mul) => "mul",
        Dyadic::Arithmetic(Arithmetic::Div) => "div",
        Dyadic::Arithmetic(Arithmetic::Rem) => "rem",
        Dyadic::Comparison(Comparison::Lt) => "lt",
        Dyadic::Comparison(Comparison::Le) => "le",
        Dyadic::Comparison(Comparison::Gt) => "gt",
        Dyadic::Comparison(Comparison::Ge) => "ge",
        Dyadic::Comparison(Comparison::Eq) => "eq",
        Dyadic::Comparison(Comparison::Ne) => "ne",
        Dyadic::Truth(Truth::Eqb) => "eqb",
        Dyadic::Truth(Truth::Neb) => "neb",
        Dyadic::Truth(Truth::And) => "and",
        Dyadic::Truth(Truth::Or) => "or",
    }
}

/// The name of a kind.
fn kind_name(kind: PortKind) -> &'static str
    ensures { result.now ≡ kind_name kind }
{
    match kind {
        PortKind::Signal => "signal",
        PortKind::Int => "int",
        PortKind::Bool => "bool",
        PortKind::Structure => "structure",
        PortKind::Structures => "structures",
        PortKind::Address => "address",
        PortKind::Addresses => "addresses",
        PortKind::Context => "context",
        PortKind::Continuation => "continuation",
    }
}

/// Appends destinations in order, each after a space.
fn write_sorted(out: &mut String, row: &mut Vec<Dest>, dests: &[Dest]) -> Result<(), AllocError>
    ensures { OnOk result
        (string_bytes out.new ≡ string_bytes out.old ++ dests_text dests.now) }
{
    if dests.len() < 2 {
        return write_dests(out, dests);
    }
    put_in_order(row, dests)?;
    write_dests(out, row)
}

/// Makes the list of these destinations in order.
pub fn put_in_order(row: &mut Vec<Dest>, dests: &[Dest]) -> Result<(), AllocError>
    ensures { OnOk result (row.new.items ≡ in_order dests.now) }
{
    row.clear();
    row.extend_from_slice(dests)?;
    row.sort_unstable();
    Ok(())
}

/// Appends destinations, each after a space.
fn write_dests(out: &mut String, dests: &[Dest]) -> Result<(), AllocError>
    ensures { OnOk result
        (string_bytes out.new ≡ string_bytes out.old ++ flat_map dest_text dests.now) }
{
    for dest in dests {
        write_after(out, " ", dest.instr)?;
        put(out, port_text(dest.port))?;
    }
    Ok(())
}

/// The number of a port after a dot.
fn port_text(port: Port) -> &'static str
    ensures { result.now ≡ codes "." ++ decimal (port_number port) }
{
    match port {
        Port::Zero => ".0",
        Port::One => ".1",
    }
}

/// The number of a port.
pub fn port_number(port: Port) -> u32
    ensures { result ≡ port_number port }
{
    match port {
        Port::Zero => 0,
        Port::One => 1,
    }
}
