//! The parameters of a definition, which stand right behind its head.

ghost use Rattle.std.specs.Prelude.{◌≡◌, ℕ, length, nat_eq, nat_lt};
ghost use Rattle.id_table.specs.Lent.{list_of};
ghost use Rattle.id_table.specs.Turns.{IsDefOf, params_at};
ghost use Rattle.id_check.specs.Causes as causes;
ghost use Rattle.id_check.specs.Params as params;

use id_table::{Node, Rows};

/// The most parameters that a definition may have.
pub const MAX_PARAMS: usize = 16;

/// Whether the definition with this head has a parameter of this index. Takes no memory.
pub fn has_param(rows: &Rows<'_>, head: usize, index: usize) -> bool
    requires { (n : ℕ) × IsDefOf (list_of rows.now) n head }
    ensures { result ≡ nat_lt index (length (params_at (list_of rows.now) head)) }
{
    index < rows.len() - head - 1 && is_param_of(rows, head, head + 1 + index)
}

/// Whether a parameter of the definition with this head stands at the row. Takes no memory.
fn is_param_of(rows: &Rows<'_>, head: usize, i: usize) -> bool
    ensures { result ≡ params.is_param_of (list_of rows.now) head i }
{
    let row = rows.at(i);
    matches!(row.node, Node::Param { .. }) && row.block as usize == head
}

/// Whether this is the number of the parameters of the definition with this head: the last of them is its own, and the
/// row behind that is not. Takes no memory.
pub fn has_params(rows: &Rows<'_>, head: usize, count: usize) -> bool
    requires { (n : ℕ) × IsDefOf (list_of rows.now) n head }
    ensures { result ≡ nat_eq count (length (params_at (list_of rows.now) head)) }
{
    (count == 0 || has_param(rows, head, count - 1)) && !has_param(rows, head, count)
}

/// The place of the first parameter of the definition with this head that is an array. Takes no memory.
pub fn first_array(rows: &Rows<'_>, head: usize) -> Option<u32>
    requires { (n : ℕ) × IsDefOf (list_of rows.now) n head }
    ensures { params.array_cause result ≡ causes.array_param (list_of rows.now) (params_at (list_of rows.now) head) }
{
    let count = rows.len();
    for i in head + 1..count {
        if !is_param_of(rows, head, i) {
            return None;
        }
        let row = rows.at(i);
        if is_array_param(row.node) {
            return Some(row.place);
        }
    }
    None
}

/// Whether an array is a parameter at a row of this node.
fn is_array_param(node: Node) -> bool
    ensures { result ≡ causes.is_array_param node }
{
    match node {
        Node::Param { kind, .. } => kind.is_array(),
        _ => false,
    }
}
