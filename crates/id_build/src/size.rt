//! How many instructions the schemas give a program, found without making them (docs/GRAPH.md, "Schemas").

ghost use Rattle.std.specs.Prelude.{ℕ, ◌≡◌, ◌+◌, ◌-◌, ◌<◌, ◌≤◌, ◌^◌, ◌↔◌, true};
ghost use Rattle.std.specs.Prelude.{IsTrue, IsSome, IfOk, IfSome, length};
ghost use Rattle.std.proofs.Props.{props};
ghost use Rattle.id_check.specs.declared.checked.Checked.{Checked};
ghost use Rattle.id_check.specs.Programs as programs;
ghost use Rattle.id_desugar.specs.Ends.{end_of};
ghost use Rattle.id_build.specs.Rows.{HasNoSplit, is_plain, made, made_of, size};

use crate::loops::{imports_at, nexts_at};
use id_check::Checked;
use id_desugar::{Ends, Kernel, carried_count, find_ends, row_at};
use id_table::Node;
use std::alloc::{AllocError, Global};

/// A program, lent, with what bounds its instructions without its regions.
///
/// Keeps: there are at most 1,000,000 rows.
#[derive(Drop)]
struct Spans<'t> {
    ends: Ends<'t>,
    ghost few: { length (programs.rows ends.checked.now) ≤ 1000000 } by { Prim.hlevel props },
}

/// Whether the schemas give the program at most 1,000,000 instructions: `build` refuses it otherwise. Takes no memory.
pub fn is_small(kernel: &Kernel<'_>) -> bool
    ensures { IsTrue result ↔ (size kernel.now.checked.now ≤ 1000000) }
{
    let checked = kernel.checked;
    let mut size = 0usize;
    for n in 0..checked.table.rows.len() {
        size += made_count(kernel, n);
        if size > 1_000_000 {
            return false;
        }
    }
    true
}

/// Whether the program has no conditional and no loop, and the schemas give it at most 1,000,000 instructions: that is
/// told without its regions. Takes no memory.
pub fn is_small_and_plain(checked: &Checked) -> bool
    ensures { IsTrue result ↔ (HasNoSplit checked.now × (size checked.now ≤ 1000000)) }
{
    let mut size = 0usize;
    for n in 0..checked.table.rows.len() {
        let Some(count) = plain_count(row_at(checked, n).node) else {
            return false;
        };
        size += count;
        if size > 1_000_000 {
            return false;
        }
    }
    true
}

/// Whether the schemas give the program at most 1,000,000 instructions even if each conditional and each loop imports
/// as many names as it has rows: that is told without its regions. Where it does not hold, `is_small` tells.
pub fn is_surely_small(alloc: Global, checked: &Checked) -> Result<bool, AllocError>
    ensures { IfOk result (λ b. b ≡ true → size checked.now ≤ 1000000) }
{
    if checked.table.rows.len() > 1_000_000 {
        return Ok(false);
    }
    let ends = find_ends(alloc, checked)?;
    let spans = Spans { ends };
    let mut most = 0usize;
    for n in 0..checked.table.rows.len() {
        most += most_made(&spans, n);
        if most > 1_000_000 {
            return Ok(false);
        }
    }
    Ok(true)
}

/// How many instructions the row n makes at most. Takes no memory.
fn most_made(spans: &Spans<'_>, n: usize) -> usize
    ensures most { length (made spans.now.ends.checked.now n) ≤ result }
    ensures few { result ≤ 2000004 }
{
    let row = row_at(spans.ends.checked, n);
    match row.node {
        Node::Split { .. } => rows_in(spans, n) + 1,
        Node::Switches { .. } => 2 * rows_in(spans, row.block as usize) + 2,
        Node::Start => 2 * rows_in(spans, n + 1) + 4,
        Node::Entries => rows_in(spans, row.block as usize),
        Node::Turn => rows_in(spans, row.block as usize) + 4,
        node => plain_count(node).unwrap_or(0),
    }
}

/// How many rows stand between this one and the one where what begins here ends. Takes no memory.
fn rows_in(spans: &Spans<'_>, head: usize) -> usize
    ensures rows { result ≡ end_of spans.now.ends.checked.now head - (head + 1) }
    ensures few { result ≤ 1000000 }
{
    let end = spans.ends.end_of(head);
    end.saturating_sub(head).saturating_sub(1)
}

/// How many instructions the row n makes. Takes no memory.
#[inline(always)]
pub fn made_count(kernel: &Kernel<'_>, n: usize) -> usize
    ensures count { result ≡ length (made kernel.now.checked.now n) }
    ensures few { result < 2 ^ 63 }
{
    let checked = kernel.checked;
    let row = row_at(checked, n);
    match row.node {
        Node::Split { .. } => imports_at(kernel, n).len() + 1,
        Node::Switches { .. } => imports_at(kernel, n).len() + 1,
        Node::Start => {
            let head = n + 1;
            let nexts = nexts_at(kernel, head);
            let carried = carried_count(checked, head);
            nexts.len() + imports_at(kernel, head).len() + carried + 1
        }
        Node::Entries => imports_at(kernel, row.block as usize).len(),
        Node::Turn => {
            let head = row.block as usize;
            imports_at(kernel, head).len() + carried_count(checked, head) + 1
        }
        node => plain_count(node).unwrap_or(0),
    }
}

/// How many instructions a row of this node makes, unless that depends on what is imported. Takes no memory.
fn plain_count(node: Node) -> Option<usize>
    ensures some { IfSome result (λ k. (P : Checked) (n e : ℕ) → length (made_of P n e node) ≡ k) }
    ensures few { IfSome result (λ k. k ≤ 5) }
    ensures exact { IsSome result ↔ (is_plain node ≡ true) }
{
    match node {
        Node::Head | Node::LoopHead { .. } => Some(2),
        Node::Param { .. } | Node::Binding { .. } | Node::If { .. } => Some(1),
        Node::Literal { .. } | Node::Unary { .. } | Node::Binary { .. } => Some(1),
        Node::Enter { .. } | Node::Arg { .. } | Node::Call { .. } => Some(1),
        Node::Variable | Node::Next { .. } | Node::Reset { .. } | Node::Loop { .. } => Some(1),
        Node::Name { .. } | Node::Block { .. } | Node::Def { .. } => Some(0),
        Node::NextUse { .. } | Node::Body | Node::Span => Some(0),
        Node::Within { .. } | Node::Index { .. } => Some(0),
        Node::Carried { .. } => Some(1),
        Node::Bounds { .. } => Some(2),
        Node::Count => Some(5),
        Node::Array { .. } | Node::Address { .. } | Node::Store { .. } => Some(1),
        Node::Fetch { .. } => Some(3),
        Node::Split { .. } | Node::Switches { .. } => None,
        Node::Start | Node::Entries | Node::Turn => None,
        Node::Program => Some(1),
    }
}
