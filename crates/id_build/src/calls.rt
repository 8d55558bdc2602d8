//! What a call names: its procedure, and the parameters that its arguments go to (docs/GRAPH.md, "Schemas").
//! Nothing here takes memory.

ghost use Rattle.std.specs.Prelude.{◌≡◌, ◌≤◌, ◌+◌, ◌^◌, IfSome, IfNone};
ghost use Rattle.id_table.specs.Tables.{is_param};
ghost use Rattle.id_build.specs.Rows.{called, head_of, param_at, param_of};

use id_check::Checked;
use id_desugar::{binder_at, row_at};
use id_table::Node;

/// The head of the procedure that the `Enter` at a row calls.
pub fn called(checked: &Checked, enter: usize) -> usize
    ensures { result ≡ called checked.now enter }
{
    head_of(row_at(checked, binder_at(checked, enter).unwrap_or(0)).node)
}

/// The row of the parameter of this index of the procedure that the `Enter` at a row calls.
pub fn param_of(checked: &Checked, enter: usize, index: usize) -> usize
    ensures { result ≡ param_of checked.now enter index }
{
    match behind(called(checked, enter), index) {
        Some(row) => param_at(checked, row),
        None => 0,
    }
}

/// The row, if a parameter stands there, and else row 0.
fn param_at(checked: &Checked, row: usize) -> usize
    ensures { result ≡ param_at checked.now row }
{
    if is_param(row_at(checked, row).node) {
        row
    } else {
        0
    }
}

/// The row of this index behind a head.
fn behind(head: usize, index: usize) -> Option<usize>
    ensures some { IfSome result (λ n. n ≡ head + 1 + index) }
    ensures none { IfNone result (2 ^ 64 ≤ head + 1 + index) }
{
    head.checked_add(1)?.checked_add(index)
}

/// The head of the definition at a row of this node.
fn head_of(node: Node) -> usize
    ensures { result ≡ head_of node }
{
    match node {
        Node::Def { head, .. } => head as usize,
        _ => 0,
    }
}

/// Whether a parameter stands at a row of this node.
pub fn is_param(node: Node) -> bool
    ensures { result ≡ is_param node }
{
    matches!(node, Node::Param { .. })
}
