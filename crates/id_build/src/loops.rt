//! What a head imports, and the rows of a loop, found from its head (docs/GRAPH.md, "Schemas"). Nothing here takes
//! memory.

ghost use Rattle.std.specs.Prelude.{◌≡◌, ◌<◌, ◌^◌, true, length};
ghost use Rattle.id_desugar.specs.Ends.{end_of};
ghost use Rattle.id_desugar.specs.Regions.{imports_of, is_loop_head, nexts_of};
ghost use Rattle.id_build.specs.Rows as rows;
ghost use Rattle.id_build.specs.Rows.{first_binder, entries_row, home, label, outer_at, switches_at, turn_row};

use id_check::Checked;
use id_desugar::{Kernel, binder_at, first_variable, has_index, row_at};
use id_table::Node;

/// The binders that the head at a row imports.
pub fn imports_at<'a>(kernel: &'a Kernel<'_>, row: usize) -> &'a [u32]
    ensures { result.now ≡ imports_of kernel.now.checked.now row }
{
    kernel.imports.get(row)
}

/// The `next` statements of the loop with this head, in order: the first of what its switches hand on, but for the
/// upper bound of its index.
pub fn nexts_at<'a>(kernel: &'a Kernel<'_>, head: usize) -> &'a [u32]
    requires { is_loop_head (rows.node kernel.now.checked.now head) ≡ true }
    ensures nexts { result.now ≡ nexts_of kernel.now.checked.now head }
    ensures few { length result.now < 2 ^ 61 }
{
    let handed = imports_at(kernel, switches_row(kernel, head));
    let inner = imports_at(kernel, head);
    let first = if has_index(kernel.checked, head) {
        1
    } else {
        0
    };
    &handed[first..handed.len() - inner.len()]
}

/// The row of the entries of what the loop with this head imports.
pub fn entries_row(kernel: &Kernel<'_>, head: usize) -> usize
    requires { is_loop_head (rows.node kernel.now.checked.now head) ≡ true }
    ensures { result ≡ entries_row kernel.now.checked.now head }
{
    first_variable(kernel.checked, head) + nexts_at(kernel, head).len()
}

/// The row of the switches of the loop with this head.
fn switches_row(kernel: &Kernel<'_>, head: usize) -> usize
    ensures { result ≡ switches_at (rows.node kernel.now.checked.now (end_of kernel.now.checked.now head)) }
{
    switches_at(row_at(kernel.checked, kernel.end_of(head)).node)
}

/// The row of what hands on what the loop with this head imports.
pub fn turn_row(kernel: &Kernel<'_>, head: usize) -> usize
    ensures { result ≡ turn_row kernel.now.checked.now head }
{
    let behind = if has_index(kernel.checked, head) {
        2
    } else {
        1
    };
    switches_row(kernel, head) + behind
}

/// The switches of the loop that ends at a row of this node.
fn switches_at(node: Node) -> usize
    ensures { result ≡ switches_at node }
{
    match node {
        Node::Loop { switches, .. } => switches as usize,
        _ => 0,
    }
}

/// The binder of the first value of the variable of a `next` statement.
pub fn first_binder(checked: &Checked, next: usize) -> usize
    ensures { result ≡ first_binder checked.now next }
{
    binder_at(checked, outer_at(row_at(checked, next).node)).unwrap_or(0)
}

/// The use of the outer name, of the `next` statement at a row of this node.
fn outer_at(node: Node) -> usize
    ensures { result ≡ outer_at node }
{
    match node {
        Node::Next { outer, .. } => outer as usize,
        _ => 0,
    }
}

/// The row of the label of a binder.
pub fn label(checked: &Checked, binder: usize) -> usize
    ensures { result ≡ label checked.now binder }
{
    let row = row_at(checked, binder);
    match row.node {
        Node::Next { index, .. } => row.block as usize + 1 + index as usize,
        Node::Index { .. } => row.block as usize + 1,
        _ => binder,
    }
}

/// The row in whose region a binder has what its label gives.
pub fn home(checked: &Checked, binder: usize) -> usize
    ensures { result ≡ home checked.now binder }
{
    let row = row_at(checked, binder);
    match row.node {
        Node::Next { index, .. } => row.block as usize + 1 + index as usize,
        _ => binder,
    }
}
