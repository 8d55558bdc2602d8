//! The picture of a graph, in the language of Graphviz (docs/GRAPH.md, "Picture").

ghost use Rattle.std.specs.Prelude.{[], ◌≡◌, ◌<◌, ◌≤◌, ◌++◌, ◌==◌, All, length, IfOk, OnOk};
ghost use Rattle.std.specs.Prelude.{codes, string_bytes};
ghost use Rattle.std.specs.Fmt.{decimal};
ghost use Rattle.std.specs.List.{flat_map};
ghost use Rattle.id_instr.specs.declared.dests.Port.TheVariants.{Zero};
ghost use Rattle.id_graph.specs.Begun.{Marks, TellsBegun};
ghost use Rattle.id_graph.specs.Listing.{head_text, place_text};
ghost use Rattle.id_graph.specs.Looks.{name_at, name_text};
ghost use Rattle.id_graph.specs.Dot.{arrow_text, arrows_text, box_text, cluster_text, dot_text, frame_text};
ghost use Rattle.id_graph.specs.Dot.{links_text, names_text, node_text, nodes_text, point_text, ports_text};
ghost use Rattle.id_graph.specs.Dot.{sent_text, shape_text, sides_text, start_text};

use crate::listing::{port_number, put, put_in_order, write_head, write_op, write_place};
use crate::looks::{is_point, look, name_at, name_text};
use id_instr::{Block, Dest, Graph, Instr, Op, Port};
use id_text::{Lines, MAX_BYTES};
use std::alloc::{AllocError, Global};

/// The picture of a graph of this text: a box or point for each instruction, a cluster for each block, an arrow for
/// each destination.
pub fn draw(alloc: Global, graph: &Graph, text: &str) -> Result<String, AllocError>
    requires fits { length text.now ≤ MAX_BYTES }
    requires places { All (λ i. i.place ≤ length text.now) graph.now.instrs }
    ensures { IfOk result (λ s. string_bytes s ≡ dot_text text.now graph.now) }
{
    let lines = Lines::new(alloc, text)?;
    let marks = find_begun(alloc, graph.blocks(), graph.instrs().len())?;
    draw_marked(alloc, marks.as_slice(), graph, text, &lines)
}

/// The picture of a graph of this text, which has these lines, where there is a mark at each beginning of a block.
fn draw_marked(
    alloc: Global,
    marks: &[bool],
    graph: &Graph,
    text: &str,
    lines: &Lines<'_>,
) -> Result<String, AllocError>
    requires begun { TellsBegun graph.now.blocks (length graph.now.instrs) marks.now }
    requires same { text.now ≡ lines.now }
    requires places { All (λ i. i.place ≤ length lines.now) graph.now.instrs }
    ensures { IfOk result (λ s. string_bytes s ≡ dot_text lines.now graph.now) }
{
    let mut out = String::new(alloc);
    write_all(alloc, &mut out, marks, graph, text, lines)?;
    Ok(out)
}

/// Appends the picture of a graph, where there is a mark at each beginning of a block.
fn write_all(
    alloc: Global,
    out: &mut String,
    marks: &[bool],
    graph: &Graph,
    text: &str,
    lines: &Lines<'_>,
) -> Result<(), AllocError>
    requires begun { TellsBegun graph.now.blocks (length graph.now.instrs) marks.now }
    requires same { text.now ≡ lines.now }
    requires places { All (λ i. i.place ≤ length lines.now) graph.now.instrs }
    ensures { OnOk result (string_bytes out.new ≡ string_bytes out.old ++ dot_text lines.now graph.now) }
{
    put(
        out,
        "digraph {\n\
        graph [nodesep=0.15, ranksep=0.25];\n\
        edge [arrowsize=0.5];\n\
        node [shape=record, fontsize=10, height=0.2, margin=\"0.05,0.02\"];\n\
        {\n",
    )?;
    write_nodes(out, marks, graph, text, lines)?;
    put(out, "}\n")?;
    write_links(alloc, out, graph.instrs())?;
    put(out, "}\n")
}

/// Whether a block begins there, for each number below `count`.
fn find_begun(alloc: Global, blocks: &[Block], count: usize) -> Result<Vec<bool>, AllocError>
    ensures { IfOk result (λ v. TellsBegun blocks.now count v.items) }
{
    let mut marks = vec![in alloc; false; count]?;
    for block in blocks {
        mark(&mut marks, block.first);
    }
    Ok(marks)
}

/// Marks the place of a number, if the number is below the length.
fn mark(marks: &mut [bool], number: u32)
    ensures { Marks marks.old marks.new (λ k. number == k) }
{
    if (number as usize) < marks.len() {
        marks[number as usize] = true;
    }
}

/// Appends the boxes and points in the clusters of their blocks, which begin where there is a mark.
fn write_nodes(
    out: &mut String,
    marks: &[bool],
    graph: &Graph,
    text: &str,
    lines: &Lines<'_>,
) -> Result<(), AllocError>
    requires begun { TellsBegun graph.now.blocks (length graph.now.instrs) marks.now }
    requires same { text.now ≡ lines.now }
    requires places { All (λ i. i.place ≤ length lines.now) graph.now.instrs }
    ensures { OnOk result
        (string_bytes out.new ≡ string_bytes out.old ++ nodes_text lines.now graph.now.blocks 0 graph.now.instrs) }
{
    let mut near = 0;
    for (number, instr) in graph.instrs().iter().enumerate() {
        write_start(out, text, lines, marks[number], number, instr.place)?;
        write_node(out, &mut near, text, lines, number, instr)?;
    }
    Ok(())
}

/// Appends what goes before an instruction of this place.
fn write_start(
    out: &mut String,
    text: &str,
    lines: &Lines<'_>,
    begun: bool,
    number: usize,
    place: usize,
) -> Result<(), AllocError>
    requires same { text.now ≡ lines.now }
    requires inside { place ≤ length lines.now }
    ensures { OnOk result
        (string_bytes out.new ≡ string_bytes out.old ++ start_text lines.now begun number place) }
{
    if begun {
        write_cluster(out, text, lines, number, place)
    } else {
        Ok(())
    }
}

/// Appends the end of a cluster and the head of the next.
fn write_cluster(
    out: &mut String,
    text: &str,
    lines: &Lines<'_>,
    number: usize,
    place: usize,
) -> Result<(), AllocError>
    requires same { text.now ≡ lines.now }
    requires inside { place ≤ length lines.now }
    ensures { OnOk result
        (string_bytes out.new ≡ string_bytes out.old ++ cluster_text lines.now number place) }
{
    write!(out, "}}\nsubgraph cluster_{number} {{\nlabel=\"")?;
    write_frame(out, text, lines, place)?;
    put(out, "\";\n")
}

/// Appends the name of the block whose trigger has this place.
fn write_frame(
    out: &mut String,
    text: &str,
    lines: &Lines<'_>,
    place: usize,
) -> Result<(), AllocError>
    requires same { text.now ≡ lines.now }
    requires inside { place ≤ length lines.now }
    ensures { OnOk result (string_bytes out.new ≡ string_bytes out.old ++ frame_text lines.now place) }
{
    let name = name_at(text, place);
    if name.len() == 0 {
        write_place(out, "loop ", &mut 0, lines, place)
    } else {
        put(out, name)
    }
}

/// Appends an instruction as it is drawn; `near` is the line of the last place.
fn write_node(
    out: &mut String,
    near: &mut u32,
    text: &str,
    lines: &Lines<'_>,
    number: usize,
    instr: &Instr,
) -> Result<(), AllocError>
    requires same { text.now ≡ lines.now }
    requires inside { instr.now.place ≤ length lines.now }
    ensures { OnOk result
        (string_bytes out.new ≡ string_bytes out.old ++ node_text lines.now number instr.now) }
{
    write!(out, "{number} [label=\"")?;
    write_shape(out, near, text, lines, number, instr)?;
    put(out, ", tooltip=\"")?;
    write_head(out, near, lines, number, instr)?;
    writeln!(out, "\"{}];", look(instr.op))
}

/// Appends a point or a box.
fn write_shape(
    out: &mut String,
    near: &mut u32,
    text: &str,
    lines: &Lines<'_>,
    number: usize,
    instr: &Instr,
) -> Result<(), AllocError>
    requires same { text.now ≡ lines.now }
    requires inside { instr.now.place ≤ length lines.now }
    ensures { OnOk result
        (string_bytes out.new ≡ string_bytes out.old ++ shape_text lines.now number instr.now) }
{
    let name = name_text(text, instr);
    if is_point(instr) {
        write_point(out, number, name)
    } else {
        write_box(out, near, name, lines, number, instr)
    }
}

/// Appends a point with a number and name.
fn write_point(out: &mut String, number: usize, name: &str) -> Result<(), AllocError>
    ensures { OnOk result (string_bytes out.new ≡ string_bytes out.old ++ point_text number name.now) }
{
    write!(
        out,
        "<0>\", xlabel=\"{number} {name}\", shape=Mrecord, style=filled, color=black, fixedsize=true, \
        width=0.1, height=0.1"
    )
}

/// Appends a box with this name.
fn write_box(
    out: &mut String,
    near: &mut u32,
    name: &str,
    lines: &Lines<'_>,
    number: usize,
    instr: &Instr,
) -> Result<(), AllocError>
    requires named { name.now ≡ name_text lines.now instr.now }
    requires inside { instr.now.place ≤ length lines.now }
    ensures { OnOk result
        (string_bytes out.new ≡ string_bytes out.old ++ box_text lines.now number instr.now) }
{
    let op = instr.op;
    write!(out, "{{{}{number} ", ports_text(op))?;
    write_op(out, op)?;
    write!(out, "\\n{name}")?;
    write_place(out, " @", near, lines, instr.place)?;
    write!(out, "{}}}\"", sides_text(op))
}

/// The field for each port.
fn ports_text(op: Op) -> &'static str
    ensures { result.now ≡ ports_text op }
{
    if op.two_ports() {
        "{<0>0|<1>1}|"
    } else {
        "<0>"
    }
}

/// The field for each side of what has two.
fn sides_text(op: Op) -> &'static str
    ensures { result.now ≡ sides_text op }
{
    if op.two_sides() { "|{<T>T|<F>F}" } else { "" }
}

/// Appends the arrows of all instructions.
fn write_links(alloc: Global, out: &mut String, instrs: &[Instr]) -> Result<(), AllocError>
    ensures { OnOk result (string_bytes out.new ≡ string_bytes out.old ++ links_text 0 instrs.now) }
{
    let mut row = Vec::new(alloc);
    for (number, instr) in instrs.iter().enumerate() {
        write_sent(out, &mut row, number, instr)?;
        write_names(out, number, instr.op)?;
    }
    Ok(())
}

/// Appends the arrows of an instruction. `row` serves to put destinations in order.
fn write_sent(
    out: &mut String,
    row: &mut Vec<Dest>,
    number: usize,
    instr: &Instr,
) -> Result<(), AllocError>
    ensures { OnOk result
        (string_bytes out.new ≡ string_bytes out.old ++ sent_text number instr.now) }
{
    let dests = instr.dests.as_slice();
    let looks = look(instr.op);
    if instr.op.two_sides() {
        write_arrows(out, row, number, ":T", "solid", looks, dests)?;
        write_arrows(
            out,
            row,
            number,
            ":F",
            "dashed",
            looks,
            instr.others.as_slice(),
        )
    } else {
        write_arrows(out, row, number, "", "solid", looks, dests)
    }
}

/// Appends an arrow for each destination, in order.
fn write_arrows(
    out: &mut String,
    row: &mut Vec<Dest>,
    number: usize,
    field: &str,
    style: &str,
    looks: &str,
    dests: &[Dest],
) -> Result<(), AllocError>
    ensures { OnOk result
        (string_bytes out.new ≡ string_bytes out.old ++ arrows_text number field.now style.now looks.now dests.now) }
{
    put_in_order(row, dests)?;
    write_each(out, number, field, style, looks, row)
}

/// Appends an arrow for each destination, as they come.
fn write_each(
    out: &mut String,
    number: usize,
    field: &str,
    style: &str,
    looks: &str,
    dests: &[Dest],
) -> Result<(), AllocError>
    ensures { OnOk result (string_bytes out.new
        ≡ string_bytes out.old ++ flat_map (arrow_text number field.now style.now looks.now) dests.now) }
{
    for dest in dests {
        write_arrow(out, number, field, style, looks, *dest)?;
    }
    Ok(())
}

/// Appends an arrow.
fn write_arrow(
    out: &mut String,
    number: usize,
    field: &str,
    style: &str,
    looks: &str,
    dest: Dest,
) -> Result<(), AllocError>
    ensures { OnOk result
        (string_bytes out.new ≡ string_bytes out.old ++ arrow_text number field.now style.now looks.now dest) }
{
    writeln!(
        out,
        "{number}{field} -> {}:{} [style={style}{looks}];",
        dest.instr,
        port_number(dest.port)
    )
}

/// Appends dotted arrows to the instructions that an operator names.
fn write_names(out: &mut String, number: usize, op: Op) -> Result<(), AllocError>
    ensures { OnOk result (string_bytes out.new ≡ string_bytes out.old ++ names_text number op) }
{
    match op {
        Op::Enter { block, reply } => {
            write_named(out, number, "dotted, constraint=false", block)?;
            write_named(out, number, "dotted", reply)
        }
        Op::Send { target, .. } => write_named(out, number, "dotted, constraint=false", target),
        Op::Fetch { reply, .. } => write_named(out, number, "dotted", reply),
        _ => Ok(()),
    }
}

/// Appends an arrow in this style to the left port of the instruction of this number.
fn write_named(out: &mut String, number: usize, style: &str, named: u32) -> Result<(), AllocError>
    ensures { OnOk result (string_bytes out.new
        ≡ string_bytes out.old ++ arrow_text number [] style.now [] (record { instr = named; port = Zero })) }
{
    let dest = Dest {
        instr: named,
        port: Port::Zero,
    };
    write_arrow(out, number, "", style, "", dest)
}
