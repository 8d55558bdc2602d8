//! Facts that rows are On, and Have values.

ghost use Rattle.std.specs.Prelude.{◌≡◌, [], ◌∷◌, ◌++◌, OnOk};
ghost use Rattle.id_facts.specs.declared.facts.RowFact.TheVariants.{Has};
ghost use Rattle.id_facts.specs.Firsts.{haves, ons, row_value};
ghost use Rattle.id_source.specs.Links.{some_row};

use crate::facts::{RowFact, RowValue, Trail};
use id_value::Constant;
use std::alloc::AllocError;

/// Adds that these rows are On at the path.
pub fn add_ons(found: &mut Vec<RowFact>, path: Trail, rows: &[usize]) -> Result<(), AllocError>
    ensures { OnOk result (found.new.items ≡ found.old.items
        ++ ons path rows.now) }
{
    for row in rows {
        found.push(RowFact::On { path, row: *row })?;
    }
    Ok(())
}

/// Adds that the row is On at the path, if there is one.
pub fn add_on(found: &mut Vec<RowFact>, path: Trail, row: Option<usize>) -> Result<(), AllocError>
    ensures { OnOk result (found.new.items ≡ found.old.items
        ++ ons path (some_row row)) }
{
    if let Some(row) = row {
        found.push(RowFact::On { path, row })?;
    }
    Ok(())
}

/// Adds that the row Has the value at the path.
pub fn add_has(
    found: &mut Vec<RowFact>,
    path: Trail,
    row: usize,
    value: RowValue,
) -> Result<(), AllocError>
    ensures { OnOk result (found.new.items ≡ found.old.items
        ++ Has path row value ∷ []) }
{
    found.push(RowFact::Has { path, row, value })?;
    Ok(())
}

/// Adds that the row Has these values at the path.
pub fn add_values(
    found: &mut Vec<RowFact>,
    path: Trail,
    row: usize,
    values: &[RowValue],
) -> Result<(), AllocError>
    ensures { OnOk result (found.new.items ≡ found.old.items
        ++ haves path row values.now) }
{
    for value in values {
        add_has(found, path, row, *value)?;
    }
    Ok(())
}

/// The value of a row that a constant is.
pub fn row_value(constant: Constant) -> RowValue
    ensures { result ≡ row_value constant }
{
    match constant {
        Constant::Int(number) => RowValue::Int(number),
        Constant::Bool(truth) => RowValue::Bool(truth),
    }
}
