//! What stands at a row, and in which block.

ghost use Rattle.std.specs.Prelude.{◌≡◌};
ghost use Rattle.id_table.specs.Rows.{at};
ghost use Rattle.id_check.specs.Programs.{rows};

use id_check::Checked;
use id_table::Node;

/// The row of the head of the block that the row stands in; past the last one, 0.
pub fn block_of(checked: &Checked, row: usize) -> usize
    ensures { result ≡ (at (rows checked.now) row).block }
{
    if row < checked.table.rows.len() {
        checked.table.rows[row].block as usize
    } else {
        0
    }
}

/// What stands at the row; past the last one, a head.
pub fn node_of(checked: &Checked, row: usize) -> Node
    ensures { result ≡ (at (rows checked.now) row).node }
{
    if row < checked.table.rows.len() {
        checked.table.rows[row].node
    } else {
        Node::Head
    }
}
