//! Kinds of ports, and the operators of expressions (docs/GRAPH.md, "Schemas").

ghost use Rattle.std.specs.Prelude.{◌≡◌};
ghost use Rattle.id_check.specs.Programs as programs;
ghost use Rattle.id_build.specs.Rows.{binary_op, holds_array, port_at, port_of};

use id_check::Checked;
use id_instr::{Dyadic, PortKind};
use id_value::{BinaryOp, Comparison, Kind, Logic, Truth};

/// The kind of the ports that take values of this kind.
pub fn port_of(kind: Kind) -> PortKind
    ensures { result ≡ port_of kind }
{
    match kind {
        Kind::Int => PortKind::Int,
        Kind::Bool => PortKind::Bool,
        Kind::Array => PortKind::Structure,
        Kind::Nested => PortKind::Structures,
    }
}

/// The kind of the ports that take the value of this row.
pub fn port_at(checked: &Checked, n: usize) -> PortKind
    ensures { result ≡ port_at checked.now n }
{
    port_of(kind_at(checked, n).unwrap_or(Kind::Int))
}

/// Whether the row, which is a fetch or a store's address, is about a cell that holds an array.
pub fn holds_array(checked: &Checked, n: usize) -> bool
    ensures { result ≡ holds_array checked.now n }
{
    kind_at(checked, n).unwrap_or(Kind::Int).is_array()
}

/// The kind of a row.
fn kind_at(checked: &Checked, n: usize) -> Option<Kind>
    ensures { result ≡ programs.kind checked.now n }
{
    match checked.kinds.get(n) {
        Some(kind) => *kind,
        None => None,
    }
}

/// The operator of a binary expression, by the kind of the ports that take its left operand.
pub fn binary_op(op: BinaryOp, kind: PortKind) -> Dyadic
    ensures { result ≡ binary_op op kind }
{
    match (op, kind) {
        (BinaryOp::Arithmetic(op), _) => Dyadic::Arithmetic(op),
        (BinaryOp::Comparison(Comparison::Eq), PortKind::Bool) => Dyadic::Truth(Truth::Eqb),
        (BinaryOp::Comparison(Comparison::Ne), PortKind::Bool) => Dyadic::Truth(Truth::Neb),
        (BinaryOp::Comparison(op), _) => Dyadic::Comparison(op),
        (BinaryOp::Logic(Logic::And), _) => Dyadic::Truth(Truth::And),
        (BinaryOp::Logic(Logic::Or), _) => Dyadic::Truth(Truth::Or),
    }
}
