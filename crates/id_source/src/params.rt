//! Main's parameters and its body, by row.

ghost use Rattle.std.specs.Prelude.{◌≡◌, IfOk};
ghost use Rattle.id_table.specs.Tables.{is_param};
ghost use Rattle.id_table.specs.Turns.{params_at};
ghost use Rattle.id_check.specs.Programs.{rows};
ghost use Rattle.id_source.specs.Sources.{body_of, head_of, main_body, main_params};

use crate::nodes::node_of;
use id_check::Checked;
use id_table::{Node, Row};
use std::alloc::{AllocError, Global};

/// The rows of main's parameters, in order.
pub fn main_params(alloc: Global, checked: &Checked) -> Result<Vec<usize>, AllocError>
    ensures { IfOk result (λ v. v.items ≡ main_params checked.now) }
{
    params_at(
        alloc,
        checked.table.rows.as_slice(),
        head_of(node_of(checked, checked.main)),
    )
}

/// The row of main's body.
pub fn main_body(checked: &Checked) -> usize
    ensures { result ≡ main_body checked.now }
{
    body_of(node_of(checked, checked.main))
}

/// The rows of the parameters of the procedure with this head, in order.
fn params_at(alloc: Global, rows: &[Row], head: usize) -> Result<Vec<usize>, AllocError>
    ensures { IfOk result (λ v. v.items ≡ params_at rows.now head) }
{
    let mut params = Vec::new(alloc);
    for (n, row) in rows.iter().enumerate() {
        if is_param(row.node) && row.block as usize == head {
            params.push(n)?;
        }
    }
    Ok(params)
}

fn is_param(node: Node) -> bool
    ensures { result ≡ is_param node }
{
    matches!(node, Node::Param { .. })
}

fn head_of(node: Node) -> usize
    ensures { result ≡ head_of node }
{
    match node {
        Node::Def { head, .. } => head as usize,
        _ => 0,
    }
}

fn body_of(node: Node) -> usize
    ensures { result ≡ body_of node }
{
    match node {
        Node::Def { body, .. } => body as usize,
        _ => 0,
    }
}
