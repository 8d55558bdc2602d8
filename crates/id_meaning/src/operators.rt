//! What follows by the rules of operators (docs/MEANING.md, "Rules").

ghost use Rattle.std.specs.Prelude.{◌≡◌, ◌++◌, OnOk};
ghost use Rattle.id_facts.specs.Cells.{values};
ghost use Rattle.id_meaning.specs.Given.{all_rights, binaries, binary_by, constant_of, gives, rights_of, unaries};
ghost use Rattle.id_meaning.specs.Given.{unary_by};

use crate::rules::Lookup;
use id_facts::{Point, RowFact, RowValue, add_has, row_value};
use id_value::{BinaryOp, Constant, Outcome, UnaryOp, binary_result, unary_result};
use std::alloc::AllocError;

/// Adds what the operator gives of the operand at this row.
pub fn add_unary_at(
    found: &mut Vec<RowFact>,
    lookup: &Lookup<'_>,
    point: Point,
    op: UnaryOp,
    operand: usize,
) -> Result<(), AllocError>
    ensures { OnOk result (found.new.items ≡ found.old.items
        ++ unaries point.path point.row op (values lookup.now.cells.now lookup.now.followed point.path operand)) }
{
    let operands = lookup.values(point.path, operand)?;
    add_unary(found, point, op, operands.as_slice())
}

/// Adds what the operator gives of these operands.
fn add_unary(
    found: &mut Vec<RowFact>,
    point: Point,
    op: UnaryOp,
    operands: &[RowValue],
) -> Result<(), AllocError>
    ensures { OnOk result (found.new.items ≡ found.old.items
        ++ unaries point.path point.row op operands.now) }
{
    for operand in operands {
        add_unary_by(found, point, op, constant_of(*operand))?;
    }
    Ok(())
}

/// Adds what the operator gives of this operand, if it is a constant.
fn add_unary_by(
    found: &mut Vec<RowFact>,
    point: Point,
    op: UnaryOp,
    operand: Option<Constant>,
) -> Result<(), AllocError>
    ensures { OnOk result (found.new.items ≡ found.old.items
        ++ unary_by point.path point.row op operand) }
{
    match operand {
        Some(operand) => add_given_value(found, point, unary_result(op, operand)),
        None => Ok(()),
    }
}

/// Adds what the operator gives of the operands at these rows.
pub fn add_binary_at(
    found: &mut Vec<RowFact>,
    lookup: &Lookup<'_>,
    point: Point,
    op: BinaryOp,
    left: usize,
    right: usize,
) -> Result<(), AllocError>
    ensures { OnOk result (found.new.items ≡ found.old.items
        ++ binaries point.path point.row op (values lookup.now.cells.now lookup.now.followed point.path left)
        (values lookup.now.cells.now lookup.now.followed point.path right)) }
{
    let lefts = lookup.values(point.path, left)?;
    let rights = lookup.values(point.path, right)?;
    add_binary(found, point, op, lefts.as_slice(), rights.as_slice())
}

/// Adds what the operator gives of these left operands with these right ones.
fn add_binary(
    found: &mut Vec<RowFact>,
    point: Point,
    op: BinaryOp,
    lefts: &[RowValue],
    rights: &[RowValue],
) -> Result<(), AllocError>
    ensures { OnOk result (found.new.items ≡ found.old.items
        ++ binaries point.path point.row op lefts.now rights.now) }
{
    for left in lefts {
        add_rights_of(found, point, op, constant_of(*left), rights)?;
    }
    Ok(())
}

/// Adds what the operator gives of this left operand, if it is a constant, with these right ones.
fn add_rights_of(
    found: &mut Vec<RowFact>,
    point: Point,
    op: BinaryOp,
    left: Option<Constant>,
    rights: &[RowValue],
) -> Result<(), AllocError>
    ensures { OnOk result (found.new.items ≡ found.old.items
        ++ rights_of point.path point.row op left rights.now) }
{
    match left {
        Some(left) => add_rights(found, point, op, left, rights),
        None => Ok(()),
    }
}

/// Adds what the operator gives of this left operand with these right ones.
fn add_rights(
    found: &mut Vec<RowFact>,
    point: Point,
    op: BinaryOp,
    left: Constant,
    rights: &[RowValue],
) -> Result<(), AllocError>
    ensures { OnOk result (found.new.items ≡ found.old.items
        ++ all_rights point.path point.row op left rights.now) }
{
    for right in rights {
        add_binary_by(found, point, op, left, constant_of(*right))?;
    }
    Ok(())
}

/// Adds what the operator gives of this left operand with this right one, if that is a constant.
fn add_binary_by(
    found: &mut Vec<RowFact>,
    point: Point,
    op: BinaryOp,
    left: Constant,
    right: Option<Constant>,
) -> Result<(), AllocError>
    ensures { OnOk result (found.new.items ≡ found.old.items
        ++ binary_by point.path point.row op left right) }
{
    match right {
        Some(right) => add_given_value(found, point, binary_result(op, left, right)),
        None => Ok(()),
    }
}

/// Adds the value that an operator gives, if it gives one.
fn add_given_value(
    found: &mut Vec<RowFact>,
    point: Point,
    outcome: Outcome,
) -> Result<(), AllocError>
    ensures { OnOk result (found.new.items ≡ found.old.items
        ++ gives point.path point.row outcome) }
{
    match outcome {
        Outcome::Gives(constant) => add_has(found, point.path, point.row, row_value(constant)),
        _ => Ok(()),
    }
}

/// The constant that a value of a row is, if it is one.
fn constant_of(value: RowValue) -> Option<Constant>
    ensures { result ≡ constant_of value }
{
    match value {
        RowValue::Int(number) => Some(Constant::Int(number)),
        RowValue::Bool(truth) => Some(Constant::Bool(truth)),
        RowValue::Name(_) => None,
    }
}
