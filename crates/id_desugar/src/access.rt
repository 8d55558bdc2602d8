//! The columns of a checked program, read by row. Nothing here takes memory.

ghost use Rattle.std.specs.Prelude.{◌≡◌, ◌≤◌, ◌+◌, true, length};
ghost use Rattle.id_check.specs.Programs as programs;
ghost use Rattle.id_table.specs.Rows as table;
ghost use Rattle.id_table.specs.Tables.{is_variable};
ghost use Rattle.id_desugar.specs.Gathering.{is_own, is_opening, may_import, used_in};
ghost use Rattle.id_desugar.specs.Regions.{carried, first_variable, has_index, is_loop_head, is_right_in};

use id_check::Checked;
use id_table::{Node, Region, Row};

/// What stands past the end of a table.
const NO_ROW: Row = Row {
    place: 0,
    first: 0,
    block: 0,
    region: Region {
        head: 0,
        side: false,
    },
    value: 0,
    node: Node::Head,
};

/// The row of a number.
pub fn row_at(checked: &Checked, n: usize) -> Row
    ensures { result ≡ table.at (programs.rows checked.now) n }
{
    match checked.table.rows.get(n) {
        Some(row) => *row,
        None => NO_ROW,
    }
}

/// The row behind the row `n`, `count` rows on.
fn row_behind(checked: &Checked, n: usize, count: usize) -> Row
    ensures { result ≡ table.at (programs.rows checked.now) (n + count) }
{
    match n.checked_add(count) {
        Some(n) => row_at(checked, n),
        None => NO_ROW,
    }
}

/// The binder of the name at a row, if a name stands there.
pub fn binder_at(checked: &Checked, n: usize) -> Option<usize>
    ensures { result ≡ programs.binder checked.now n }
{
    checked.binder(n)
}

/// The binder of the value that a row uses, if it uses one: a procedure's name is none of a value. First values of the
/// loop with the head `own`, if one is given, do not count.
pub fn used_at(checked: &Checked, own: Option<usize>, n: usize) -> Option<u32>
    ensures { result ≡ used_in checked.now own n }
{
    match row_at(checked, n).node {
        Node::Name { .. } => noted_at(checked, n),
        Node::NextUse { .. } if !is_own(checked, own, n) => noted_at(checked, n),
        _ => None,
    }
}

/// The binder of the name at a row, if a name stands there, as it is noted.
fn noted_at(checked: &Checked, n: usize) -> Option<u32>
    ensures { result ≡ programs.binder checked.now n }
{
    match checked.binders.get(n) {
        Some(binder) => *binder,
        None => None,
    }
}

/// Whether a row stands right in a side of the switches of the loop with the head `own`, if one is given.
fn is_own(checked: &Checked, own: Option<usize>, n: usize) -> bool
    ensures { result ≡ is_own checked.now own n }
{
    match own {
        Some(head) => is_right_in(checked, head, n),
        None => false,
    }
}

/// Whether a row stands right in a side of the switches of the loop with this head.
fn is_right_in(checked: &Checked, head: usize, n: usize) -> bool
    ensures { result ≡ is_right_in checked.now head n }
{
    let switches = row_at(checked, row_at(checked, n).region.head as usize);
    matches!(switches.node, Node::Switches { .. }) && switches.block as usize == head
}

/// Whether a loop's block begins at a row of this node.
pub fn is_loop_head(node: Node) -> bool
    ensures { result ≡ is_loop_head node }
{
    matches!(node, Node::LoopHead { .. })
}

/// Whether the entry of a loop's variable is made at a row of this node.
pub fn is_variable(node: Node) -> bool
    ensures { result ≡ is_variable node }
{
    matches!(node, Node::Variable)
}

/// Whether the loop with this head has an index.
pub fn has_index(checked: &Checked, head: usize) -> bool
    ensures { result ≡ has_index checked.now head }
{
    matches!(row_behind(checked, head, 1).node, Node::Carried { .. })
}

/// How many entries the loop with this head carries on beside those of its variables: none, or three with an index.
pub fn carried_count(checked: &Checked, head: usize) -> usize
    ensures count { result ≡ length (carried checked.now head) }
    ensures few { result ≤ 3 }
{
    if has_index(checked, head) { 3 } else { 0 }
}

/// The row of the first variable of the loop with this head.
pub fn first_variable(checked: &Checked, head: usize) -> usize
    requires { is_loop_head (table.at (programs.rows checked.now) head).node ≡ true }
    ensures { result ≡ first_variable checked.now head }
{
    head + 1 + carried_count(checked, head)
}

/// Whether a construct that uses names from outside begins at a row of this node: a conditional's arms or a loop.
pub fn is_opening(node: Node) -> bool
    ensures { result ≡ is_opening node }
{
    matches!(node, Node::Split { .. } | Node::LoopHead { .. })
}

/// Whether a row of this node may import something: one where such a construct begins, or the switches of a loop.
pub fn may_import(node: Node) -> bool
    ensures { result ≡ may_import node }
{
    is_opening(node) || matches!(node, Node::Switches { .. })
}
