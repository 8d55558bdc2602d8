//! The order in which rows are made into instructions (docs/GRAPH.md, "Schemas").

ghost use Rattle.std.specs.Prelude.{◌≡◌, ◌<◌, ◌+◌, ◌++◌, ℕ, None, get_or, length, IfOk};
ghost use Rattle.std.specs.Prelude.{OnOk};
ghost use Rattle.std.proofs.Props.{props};
ghost use Rattle.id_check.specs.Programs.{rows};
ghost use Rattle.id_desugar.specs.Gathering.{AreChains};
ghost use Rattle.id_desugar.specs.Regions.{head_at, in_block, in_procedure, loop_heads, loops_by, order_of, reach};
ghost use Rattle.id_desugar.specs.Regions.{those};
ghost use Rattle.id_value.specs.List.{Among};
ghost use Rattle.std.specs.Option.{option_or};

use crate::access::{is_loop_head, row_at};
use crate::column::{Column, MOST};
use id_check::Checked;
use std::alloc::{AllocError, Global};

/// The rows of each block, as chains.
#[derive(Drop)]
struct Chains {
    /// By head, the first row of its block.
    firsts: Column,
    /// For each row the next of its block.
    nexts: Column,
}

/// A checked program, lent, with the heads of its loops, in order of place.
#[derive(Drop)]
pub struct Loops<'t> {
    pub checked: &'t Checked,
    pub heads: Vec<u32>,
    pub ghost headed: { heads.items ≡ loop_heads checked.now } by { Prim.hlevel props },
}

/// The program with the heads of its loops.
pub fn find_loops<'t>(alloc: Global, checked: &'t Checked) -> Result<Loops<'t>, AllocError>
    ensures { IfOk result (λ l. l.checked.now ≡ checked.now) }
{
    let count = checked.table.rows.len();
    let reach = reach(checked);
    if count > MOST || reach > MOST {
        return Err(AllocError);
    }
    let mut heads = Vec::new(alloc);
    if reach == 0 {
        return Ok(Loops { checked, heads });
    }
    let mut placed = Column::none(alloc, reach)?;
    for row in 0..count {
        place_head(checked, &mut placed, row);
    }
    for place in 0..reach {
        if let Some(head) = placed.get(place) {
            heads.push(head)?;
        }
    }
    Ok(Loops { checked, heads })
}

/// One more than the greatest place of a loop, or 0. Takes no memory.
fn reach(checked: &Checked) -> usize
    ensures { result ≡ reach checked.now (length (rows checked.now)) }
{
    let mut reach = 0usize;
    for row in 0..checked.table.rows.len() {
        let row = row_at(checked, row);
        if is_loop_head(row.node) {
            reach = reach.max(row.place as usize + 1);
        }
    }
    reach
}

/// Notes the row by its place, if a loop's block begins there and none is noted there yet. Takes no memory.
fn place_head(checked: &Checked, placed: &mut Column, n: usize)
    requires few { n < MOST }
    ensures long { length placed.new ≡ length placed.old }
    ensures each { (p : ℕ) → p < length placed.old
        → get_or placed.new p None ≡ option_or (get_or placed.old p None) (head_at checked.now p n) }
{
    let row = row_at(checked, n);
    let place = row.place as usize;
    if is_loop_head(row.node) && place < placed.len() && placed.get(place).is_none() {
        placed.set(place, Some(n as u32));
    }
}

/// The order in which the rows are made: the last, then those of procedures, then those of each loop's block.
pub fn order_of(alloc: Global, loops: &Loops<'_>) -> Result<Vec<u32>, AllocError>
    ensures { IfOk result (λ v. v.items ≡ order_of loops.now.checked.now) }
{
    let checked = loops.checked;
    let count = checked.table.rows.len();
    if count > MOST {
        return Err(AllocError);
    }
    let mut order = Vec::with_capacity(alloc, count)?;
    if count > 0 {
        let last = (count - 1) as u32;
        order.push(last)?;
        push_procedures(checked, &mut order, last)?;
        push_loops(alloc, checked, &mut order, loops.heads.as_slice(), last)?;
    }
    Ok(order)
}

/// Those of the first `last` rows that stand in blocks of procedures.
fn push_procedures(checked: &Checked, order: &mut Vec<u32>, last: u32) -> Result<(), AllocError>
    ensures { OnOk result (order.new.items ≡ order.old.items ++ those (in_procedure checked.now) last) }
{
    for row in 0..last {
        if is_in_procedure(checked, row as usize) {
            order.push(row)?;
        }
    }
    Ok(())
}

/// Whether a row stands in the block of a procedure.
fn is_in_procedure(checked: &Checked, row: usize) -> bool
    ensures { result ≡ in_procedure checked.now row }
{
    !is_loop_head(row_at(checked, row_at(checked, row).block as usize).node)
}

/// Those of the first `last` rows that stand in the blocks of the loops with these heads, block by block.
fn push_loops(
    alloc: Global,
    checked: &Checked,
    order: &mut Vec<u32>,
    loops: &[u32],
    last: u32,
) -> Result<(), AllocError>
    requires last { last + 1 ≡ length (rows checked.now) }
    requires loops { (h : ℕ) → Among h loops.now → h < last }
    ensures { OnOk result (order.new.items ≡ order.old.items ++ loops_by checked.now last loops.now) }
{
    if loops.is_empty() {
        return Ok(());
    }
    let chains = find_chains(alloc, checked, last)?;
    for head in loops {
        push_block(checked, &chains, order, last, *head as usize)?;
    }
    Ok(())
}

/// Those that stand in the block with this head.
fn push_block(
    checked: &Checked,
    chains: &Chains,
    order: &mut Vec<u32>,
    last: u32,
    head: usize,
) -> Result<(), AllocError>
    requires last { last + 1 ≡ length (rows checked.now) }
    requires head { head < last }
    requires chains { AreChains checked.now 0 last chains.now.firsts chains.now.nexts }
    ensures { OnOk result (order.new.items ≡ order.old.items ++ those (in_block checked.now head) last) }
{
    let _ = checked;
    let _ = last;
    let mut at = chains.firsts.get(head);
    while let Some(row) = at {
        order.push(row)?;
        at = chains.nexts.get(row as usize);
    }
    Ok(())
}

/// The chains of the first `last` rows.
fn find_chains(alloc: Global, checked: &Checked, last: u32) -> Result<Chains, AllocError>
    requires last { last + 1 ≡ length (rows checked.now) }
    ensures { IfOk result (λ c. AreChains checked.now 0 last c.firsts c.nexts) }
{
    let count = checked.table.rows.len();
    let mut chains = Chains {
        firsts: Column::none(alloc, count)?,
        nexts: Column::none(alloc, count)?,
    };
    let mut row = last;
    while row > 0 {
        row -= 1;
        link(checked, &mut chains, last, row);
    }
    Ok(chains)
}

/// Puts a row at the beginning of the chain of its block. Takes no memory.
fn link(checked: &Checked, chains: &mut Chains, last: u32, row: u32)
    requires last { last + 1 ≡ length (rows checked.now) }
    requires row { row < last }
    requires chains { AreChains checked.now (row + 1) last chains.old.firsts chains.old.nexts }
    ensures { AreChains checked.now row last chains.new.firsts chains.new.nexts }
{
    let _ = last;
    let block = row_at(checked, row as usize).block as usize;
    let next = chains.firsts.get(block);
    chains.nexts.set(row as usize, next);
    chains.firsts.set(block, Some(row));
}
