//! The facts that follow from none (docs/MEANING.md, "Rules").

ghost use Rattle.std.specs.Prelude.{◌≡◌, ◌++◌, slice_get, IfOk, OnOk};
ghost use Rattle.id_facts.specs.Firsts.{first_facts, input_fact, input_facts};

use crate::facts::{RowFact, Trail};
use crate::found::{add_has, row_value};
use id_check::Checked;
use id_source::{main_body, main_params};
use id_value::Constant;
use std::alloc::{AllocError, Global};

/// The facts that follow from none: main's body is On, and its parameters Have their inputs.
pub fn first_facts(
    alloc: Global,
    checked: &Checked,
    inputs: &[Constant],
) -> Result<Vec<RowFact>, AllocError>
    ensures { IfOk result (λ v. v.items ≡ first_facts checked.now inputs.now) }
{
    let mut facts = Vec::new(alloc);
    facts.push(RowFact::On {
        path: Trail::Outermost,
        row: main_body(checked),
    })?;
    let params = main_params(alloc, checked)?;
    add_inputs(&mut facts, params.as_slice(), inputs)?;
    Ok(facts)
}

/// Adds the facts that parameters at these rows have their inputs.
fn add_inputs(
    facts: &mut Vec<RowFact>,
    params: &[usize],
    inputs: &[Constant],
) -> Result<(), AllocError>
    ensures { OnOk result (facts.new.items ≡ facts.old.items ++ input_facts 0 params.now inputs.now) }
{
    for (number, row) in params.iter().enumerate() {
        add_input(facts, *row, input(inputs, number))?;
    }
    Ok(())
}

/// Adds the fact that the parameter at the row Has its input, if there is one.
fn add_input(
    found: &mut Vec<RowFact>,
    row: usize,
    input: Option<Constant>,
) -> Result<(), AllocError>
    ensures { OnOk result (found.new.items ≡ found.old.items ++ input_fact row input) }
{
    match input {
        Some(constant) => add_has(found, Trail::Outermost, row, row_value(constant)),
        None => Ok(()),
    }
}

/// The input of this number.
fn input(inputs: &[Constant], number: usize) -> Option<Constant>
    ensures { result ≡ slice_get inputs.now number }
{
    match inputs.get(number) {
        Some(constant) => Some(*constant),
        None => None,
    }
}
