//! That the number of each literal is one of the language.

ghost use Rattle.std.specs.Prelude.{◌≡◌, ℤ, length, true};
ghost use Rattle.id_value.specs.declared.Constant.TheVariants.{Int};
ghost use Rattle.id_value.specs.Results.{is_whole};
ghost use Rattle.id_table.specs.declared.row.Node.TheVariants.{Literal};
ghost use Rattle.id_check.specs.Literals.{AreLiterals};

use id_table::{Node, Row};
use id_value::Constant;

/// Sees that the number of each literal in these rows is one of the language, as every number of 64 bits is. Nothing
/// is computed. Takes no memory.
pub fn see_literals(rows: &[Row])
    ensures { AreLiterals rows.now (length rows.now) }
{
    for i in 0..rows.len() {
        see_literal(rows[i].node);
    }
}

/// Sees it of a row of this node.
fn see_literal(node: Node)
    ensures { (z : ℤ) → node ≡ Literal (Int z) → is_whole z ≡ true }
{
    if let Node::Literal {
        value: Constant::Int(number),
    } = node
    {
        see_number(number);
    }
}

/// Sees it of a number.
fn see_number(number: i64)
    ensures { is_whole number ≡ true }
{}
