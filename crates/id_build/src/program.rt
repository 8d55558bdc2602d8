//! The graph of a program (docs/GRAPH.md, "Schemas").

ghost use Rattle.std.specs.Prelude.{◌≡◌, ◌++◌, ◌∷◌, [], true, ◌+◌, ◌<◌, ◌≤◌, length, map};
ghost use Rattle.std.specs.Prelude.{◌^◌, All, IfOk, IfErr, OnOk, fold};
ghost use Rattle.id_check.specs.Programs as programs;
ghost use Rattle.id_desugar.specs.Regions as regions;
ghost use Rattle.id_desugar.specs.Regions.{carried, first_variable, imports_of, loop_heads, nexts_of, order_of};
ghost use Rattle.id_instr.specs.Graph.{parts};
ghost use Rattle.id_table.specs.Tables as tables;
ghost use Rattle.id_table.specs.Turns.{heads_below};
ghost use Rattle.id_build.specs.Rows as rows;
ghost use Rattle.id_build.specs.Rows.{feeds, import_entries, made, param_entry, size, variable_entries};
ghost use Rattle.id_build.specs.Own.{IsOwn};
ghost use Rattle.id_build.specs.Passes.{arcs_of, block_at, firsts_of, program_of};
ghost use Rattle.id_build.specs.Schemas.{all_heads};
ghost use Rattle.id_build.specs.Made.{AreFirsts, IsBetween, connected, graph_by};
ghost use Rattle.id_build.specs.Made.{instrs_from, number_by, pieces_in};

use crate::arc::{Arc, Piece};
use crate::calls::is_param;
use crate::error::BuildError;
use crate::feeds::push_feeds;
use crate::joined::{connect_all, push_bare};
use crate::loops::{entries_row, imports_at};
use crate::pieces::push_pieces;
use crate::size::made_count;
use crate::slots::{Slots, find_slots, number_at};
use id_desugar::{Kernel, row_at};
use id_instr::{Block, Graph, Instr};
use id_table::Node;
use id_value::Sequence;
use std::alloc::{AllocError, Global};

/// The program's graph: one that the schemas give it, numbered in the order of its rows (docs/GRAPH.md, "Schemas").
///
/// `TooLarge` where the schemas give more than 1,000,000 instructions, and `Memory` where a growth was refused.
pub fn build(alloc: Global, kernel: &Kernel<'_>) -> Result<Graph, BuildError>
    ensures own { IfOk result (λ g. IsOwn kernel.now.checked.now g) }
    ensures small { OnOk result (size kernel.now.checked.now ≤ 1000000) }
    ensures large { IfErr result (λ e. e ≡ BuildError.TooLarge → 1000000 < size kernel.now.checked.now) }
{
    let (blocks, instrs) = build_parts(alloc, kernel)?;
    Ok(Graph::known(blocks, instrs))
}

/// The blocks and instructions of the program.
fn build_parts(alloc: Global, kernel: &Kernel<'_>) -> Result<(Vec<Block>, Vec<Instr>), BuildError>
    ensures parts { IfOk result (λ g. IsOwn kernel.now.checked.now (parts g.0.items g.1.items)) }
    ensures few { IfOk result (λ g. length g.1.items ≤ 1000000) }
    ensures small { OnOk result (size kernel.now.checked.now ≤ 1000000) }
    ensures large { IfErr result (λ e. e ≡ BuildError.TooLarge → 1000000 < size kernel.now.checked.now) }
{
    let numbers = number(alloc, kernel)?;
    let Numbers { firsts, count } = numbers;
    let slots = find_slots(alloc, kernel, firsts)?;
    let parts = parts_by(alloc, &slots, count)?;
    Ok(parts)
}

/// The blocks and instructions of the program with these slots. There is to be room for `count` instructions; no claim
/// rests on it.
fn parts_by(
    alloc: Global,
    slots: &Slots<'_>,
    count: usize,
) -> Result<(Vec<Block>, Vec<Instr>), AllocError>
    ensures parts { IfOk result (λ g. IsOwn (program_of slots.now) (parts g.0.items g.1.items)) }
    ensures few { IfOk result (λ g. length g.1.items ≤ 1000000) }
{
    let blocks = blocks(alloc, slots)?;
    let bare = bare_instrs(alloc, slots, count)?;
    let instrs = with_arcs(alloc, slots, bare)?;
    Ok((blocks, instrs))
}

/// The numbers of the first instructions of rows, and how many instructions there are.
#[derive(Drop)]
struct Numbers {
    firsts: Vec<u32>,
    count: usize,
}

/// The numbers of the first instructions of a kernel's rows.
fn number(alloc: Global, kernel: &Kernel<'_>) -> Result<Numbers, BuildError>
    ensures firsts { IfOk result
        (λ d. AreFirsts kernel.now.checked.now (order_of kernel.now.checked.now) d.firsts.items) }
    ensures count { IfOk result (λ d. d.count ≡ size kernel.now.checked.now) }
    ensures small { OnOk result (size kernel.now.checked.now ≤ 1000000) }
    ensures large { IfErr result (λ e. e ≡ BuildError.TooLarge → 1000000 < size kernel.now.checked.now) }
{
    let order = kernel.order.as_slice();
    let mut firsts = vec![in alloc; 0u32; kernel.checked.table.rows.len()]?;
    let mut count = 0usize;
    for n in order {
        firsts[*n as usize] = count as u32;
        count += made_count(kernel, *n as usize);
        if count > 1_000_000 {
            return Err(BuildError::TooLarge);
        }
    }
    Ok(Numbers { firsts, count })
}

/// The instructions of the rows in order, without arcs. There is to be room for `count` of them; no claim rests on it.
fn bare_instrs(alloc: Global, slots: &Slots<'_>, count: usize) -> Result<Vec<Instr>, AllocError>
    ensures { let P = program_of slots.now in
        IfOk result (λ v. v.items ≡ instrs_from (firsts_of slots.now) 0 (pieces_in P (order_of P)) []) }
{
    let order = slots.kernel.order.as_slice();
    let mut instrs = Vec::with_capacity(alloc, count)?;
    let mut pieces = Vec::new(alloc);
    for n in order {
        add_bare(alloc, slots, *n as usize, &mut pieces, &mut instrs)?;
    }
    Ok(instrs)
}

/// Adds the instructions of the row n without arcs. `pieces` serves to hold them.
#[inline(always)]
fn add_bare(
    alloc: Global,
    slots: &Slots<'_>,
    n: usize,
    pieces: &mut Vec<Piece>,
    instrs: &mut Vec<Instr>,
) -> Result<(), AllocError>
    requires { pieces.old.items ≡ [] }
    ensures empty { OnOk result (pieces.new.items ≡ []) }
    ensures bare { OnOk result (instrs.new.items
        ≡ instrs.old.items ++ instrs_from (firsts_of slots.now) 0 (made (program_of slots.now) n) []) }
{
    push_pieces(slots.kernel, n, pieces)?;
    push_bare(alloc, slots, pieces.as_slice(), instrs)?;
    pieces.clear();
    Ok(())
}

/// These instructions, which have no arcs, with their arcs, row by row.
fn with_arcs(alloc: Global, slots: &Slots<'_>, bare: Vec<Instr>) -> Result<Vec<Instr>, AllocError>
    requires { let P = program_of slots.now in
        bare.items ≡ instrs_from (firsts_of slots.now) 0 (pieces_in P (order_of P)) [] }
    ensures { let P = program_of slots.now in
        IfOk result (λ v. v.items ≡ (graph_by P (order_of P) (firsts_of slots.now)).instrs) }
{
    let order = slots.kernel.order.as_slice();
    let mut instrs = bare;
    let mut arcs = Vec::new(alloc);
    for n in order {
        connect_row(alloc, slots, *n as usize, &mut arcs, &mut instrs)?;
    }
    Ok(instrs)
}

/// Adds the arcs to the instructions of the row n to those that they come from. `arcs` serves to hold them.
#[inline(always)]
fn connect_row(
    alloc: Global,
    slots: &Slots<'_>,
    n: usize,
    arcs: &mut Vec<Arc>,
    instrs: &mut Vec<Instr>,
) -> Result<(), AllocError>
    requires few { length instrs.old.items < 2 ^ 32 }
    requires between { All (IsBetween (length instrs.old.items))
        (arcs_of slots.now n (feeds (program_of slots.now) n)) }
    requires empty { arcs.old.items ≡ [] }
    ensures empty { OnOk result (arcs.new.items ≡ []) }
    ensures instrs { OnOk result (instrs.new.items
        ≡ fold connected instrs.old.items (arcs_of slots.now n (feeds (program_of slots.now) n))) }
{
    push_feeds(slots, n, arcs)?;
    connect_all(alloc, instrs, arcs.as_slice())?;
    arcs.clear();
    Ok(())
}

/// The blocks of the program: those of the procedures, and then those of the loops.
fn blocks(alloc: Global, slots: &Slots<'_>) -> Result<Vec<Block>, AllocError>
    ensures { IfOk result (λ v. v.items
        ≡ map (block_at slots.now) (all_heads (program_of slots.now))) }
{
    let mut blocks = Vec::new(alloc);
    for head in 0..slots.kernel.checked.table.rows.len() {
        add_head(alloc, slots, head, &mut blocks)?;
    }
    push_loops(alloc, slots, &mut blocks)?;
    Ok(blocks)
}

/// Adds the block of the procedure that begins at a row, if one does.
#[inline]
fn add_head(
    alloc: Global,
    slots: &Slots<'_>,
    head: usize,
    blocks: &mut Vec<Block>,
) -> Result<(), AllocError>
    requires { blocks.old.items
        ≡ map (block_at slots.now) (heads_below (programs.rows (program_of slots.now)) head) }
    ensures { OnOk result (blocks.new.items
        ≡ map (block_at slots.now) (heads_below (programs.rows (program_of slots.now)) (head + 1))) }
{
    if is_head(row_at(slots.kernel.checked, head).node) {
        return add_procedure(alloc, slots, head, blocks);
    }
    Ok(())
}

/// Adds the block of the procedure with this head.
#[inline]
fn add_procedure(
    alloc: Global,
    slots: &Slots<'_>,
    head: usize,
    blocks: &mut Vec<Block>,
) -> Result<(), AllocError>
    requires { tables.is_head (rows.node (program_of slots.now) head) ≡ true }
    ensures { OnOk result (blocks.new.items
        ≡ blocks.old.items ++ block_at slots.now head ∷ []) }
{
    let entries = params(alloc, slots, head)?;
    add_block(slots, head, entries, blocks)
}

/// Adds the blocks of all loops.
fn push_loops(alloc: Global, slots: &Slots<'_>, blocks: &mut Vec<Block>) -> Result<(), AllocError>
    ensures { OnOk result (blocks.new.items
        ≡ blocks.old.items ++ map (block_at slots.now) (loop_heads (program_of slots.now))) }
{
    let heads = slots.kernel.loops.as_slice();
    for head in heads {
        add_loop(alloc, slots, *head as usize, blocks)?;
    }
    Ok(())
}

/// Adds the block of the loop with this head.
#[inline]
fn add_loop(
    alloc: Global,
    slots: &Slots<'_>,
    head: usize,
    blocks: &mut Vec<Block>,
) -> Result<(), AllocError>
    requires { regions.is_loop_head (rows.node (program_of slots.now) head) ≡ true }
    ensures { OnOk result (blocks.new.items
        ≡ blocks.old.items ++ block_at slots.now head ∷ []) }
{
    let entries = loop_entries(alloc, slots, head)?;
    add_block(slots, head, entries, blocks)
}

/// Adds the block with this head and these entries.
fn add_block(
    slots: &Slots<'_>,
    head: usize,
    entries: Vec<u32>,
    blocks: &mut Vec<Block>,
) -> Result<(), AllocError>
    ensures { OnOk result (blocks.new.items
        ≡ blocks.old.items ++ record { first = number_by (firsts_of slots.now) head 0; entries = entries.items } ∷ []) }
{
    blocks.push(Block {
        first: number_at(slots, head) as u32,
        entries: Sequence::new(entries),
    })?;
    Ok(())
}

/// The numbers of the entries of the procedure with this head.
fn params(alloc: Global, slots: &Slots<'_>, head: usize) -> Result<Vec<u32>, AllocError>
    requires { tables.is_head (rows.node (program_of slots.now) head) ≡ true }
    ensures { IfOk result
        (λ v. v.items ≡ map (λ q. number_by (firsts_of slots.now) q.row q.part)
        (rows.entries (program_of slots.now) head)) }
{
    let mut entries = Vec::new(alloc);
    let end = slots.kernel.end_of(head);
    if end <= head {
        return Ok(entries);
    }
    for n in head + 1..end {
        if !is_param(row_at(slots.kernel.checked, n).node) {
            break;
        }
        push_param(&mut entries, slots, n)?;
    }
    Ok(entries)
}

/// Adds the parameter at the row n as an entry.
#[inline(always)]
fn push_param(entries: &mut Vec<u32>, slots: &Slots<'_>, n: usize) -> Result<(), AllocError>
    ensures { OnOk result (entries.new.items ≡ entries.old.items ++ number_by (firsts_of slots.now) n 0 ∷ []) }
{
    entries.push(number_at(slots, n) as u32)?;
    Ok(())
}

/// The numbers of the entries of the loop with this head: what it carries on, its variables, and then its imports.
fn loop_entries(alloc: Global, slots: &Slots<'_>, head: usize) -> Result<Vec<u32>, AllocError>
    requires { regions.is_loop_head (rows.node (program_of slots.now) head) ≡ true }
    ensures { IfOk result
        (λ v. v.items ≡ map (λ q. number_by (firsts_of slots.now) q.row q.part)
        (rows.entries (program_of slots.now) head)) }
{
    let mut entries = Vec::new(alloc);
    let imported = entries_row(slots.kernel, head);
    push_variables(slots, head, imported, &mut entries)?;
    push_imported(slots, head, imported, &mut entries)?;
    Ok(entries)
}

/// Adds the entries of what the loop with this head carries on and of its variables, up to the row of those of its
/// imports.
#[inline]
fn push_variables(
    slots: &Slots<'_>,
    head: usize,
    imported: usize,
    entries: &mut Vec<u32>,
) -> Result<(), AllocError>
    requires { imported ≡ rows.entries_row (program_of slots.now) head }
    ensures { let P = program_of slots.now in OnOk result (entries.new.items ≡ entries.old.items
        ++ map (λ q. number_by (firsts_of slots.now) q.row q.part) (map param_entry (carried P head)
        ++ variable_entries (first_variable P head) (nexts_of P head))) }
{
    for variable in head + 1..imported {
        entries.push(number_at(slots, variable) as u32)?;
    }
    Ok(())
}

/// Adds the entries of the imports of the loop with this head, which are the parts of the row `imported`.
#[inline]
fn push_imported(
    slots: &Slots<'_>,
    head: usize,
    imported: usize,
    entries: &mut Vec<u32>,
) -> Result<(), AllocError>
    requires { number_by (firsts_of slots.now) imported (length (imports_of (program_of slots.now) head)) ≤ 2 ^ 32 }
    ensures { OnOk result (entries.new.items ≡ entries.old.items
        ++ map (λ q. number_by (firsts_of slots.now) q.row q.part)
        (import_entries imported 0 (imports_of (program_of slots.now) head))) }
{
    let first = number_at(slots, imported);
    for part in 0..imports_at(slots.kernel, head).len() {
        entries.push((first + part) as u32)?;
    }
    Ok(())
}

fn is_head(node: Node) -> bool
    ensures { result ≡ tables.is_head node }
{
    matches!(node, Node::Head)
}
