//! The facts of a round as a list (docs/MEANING.md, "Order").

ghost use Rattle.std.specs.Prelude.{◌≡◌, IfOk};
ghost use Rattle.id_check.specs.Programs.{place};
ghost use Rattle.id_facts.specs.declared.facts.RowFact.TheVariants.{Ask as RowAsk, Has as RowHas, Put as RowPut};
ghost use Rattle.id_facts.specs.Listed.{fact_of, facts_in, name_at, path_at, site_at, step_at, value_at};

use crate::facts::{Facts, RowFact, RowValue, Trail, path_of, row_of};
use crate::tree::place_of;
use id_check::Checked;
use id_source::{Ask, Fact, Path, PathStep, Put, Shape, Site, SourceValue};
use id_value::Sequence;
use std::alloc::{AllocError, Global};

/// The facts of the source that these are, of all of them. Takes memory for each fact and for each step of its path.
pub fn facts_in(
    alloc: Global,
    checked: &Checked,
    facts: &Facts,
    these: &[RowFact],
) -> Result<Vec<Fact>, AllocError>
    ensures { IfOk result (λ v. v.items ≡ facts_in checked.now facts.now these.now) }
{
    let mut all = Vec::new(alloc);
    for fact in these {
        let one = fact_of(alloc, checked, facts, *fact)?;
        all.push(one)?;
    }
    Ok(all)
}

/// The fact of the source that this one is.
fn fact_of(
    alloc: Global,
    checked: &Checked,
    facts: &Facts,
    fact: RowFact,
) -> Result<Fact, AllocError>
    ensures { IfOk result (λ v. v ≡ fact_of checked.now facts.now fact) }
{
    match fact {
        RowFact::On { path, row } => Ok(Fact::On {
            path: path_at(alloc, checked, facts, path)?,
            place: place_of(checked, row),
        }),
        RowFact::Has { path, row, value } => has_of(alloc, checked, facts, path, row, value),
        RowFact::Shape { name, low, high } => Ok(Fact::Shape(Shape {
            name: name_at(alloc, checked, facts, name)?,
            low,
            high,
        })),
        RowFact::Put {
            path,
            row,
            name,
            index,
            value,
        } => put_of(alloc, checked, facts, path, row, name, index, value),
        RowFact::Ask {
            path,
            row,
            name,
            index,
        } => ask_of(alloc, checked, facts, path, row, name, index),
    }
}

/// That the row Has the value at the path, as a fact of the source.
fn has_of(
    alloc: Global,
    checked: &Checked,
    facts: &Facts,
    path: Trail,
    row: usize,
    value: RowValue,
) -> Result<Fact, AllocError>
    ensures { IfOk result (λ v. v ≡ fact_of checked.now facts.now (RowHas path row value)) }
{
    let path = path_at(alloc, checked, facts, path)?;
    let value = source_value(alloc, checked, facts, value)?;
    Ok(Fact::Has {
        path,
        place: place_of(checked, row),
        value,
    })
}

/// That the store at the path and row puts the value into the cell, as a fact of the source.
fn put_of(
    alloc: Global,
    checked: &Checked,
    facts: &Facts,
    path: Trail,
    row: usize,
    name: usize,
    index: i64,
    value: RowValue,
) -> Result<Fact, AllocError>
    ensures { IfOk result (λ v. v ≡ fact_of checked.now facts.now (RowPut path row name index value)) }
{
    let name = name_at(alloc, checked, facts, name)?;
    let value = source_value(alloc, checked, facts, value)?;
    let store = site_at(alloc, checked, facts, path, row)?;
    Ok(Fact::Put(Put {
        name,
        index,
        value,
        store,
    }))
}

/// That the fetch at the path and row asks for the cell, as a fact of the source.
fn ask_of(
    alloc: Global,
    checked: &Checked,
    facts: &Facts,
    path: Trail,
    row: usize,
    name: usize,
    index: i64,
) -> Result<Fact, AllocError>
    ensures { IfOk result (λ v. v ≡ fact_of checked.now facts.now (RowAsk path row name index)) }
{
    let fetch = site_at(alloc, checked, facts, path, row)?;
    let name = name_at(alloc, checked, facts, name)?;
    Ok(Fact::Ask(Ask { fetch, name, index }))
}

/// The value of the source that this one is.
fn source_value(
    alloc: Global,
    checked: &Checked,
    facts: &Facts,
    value: RowValue,
) -> Result<SourceValue, AllocError>
    ensures { IfOk result (λ v. v ≡ value_at checked.now facts.now value) }
{
    match value {
        RowValue::Int(number) => Ok(SourceValue::Int(number)),
        RowValue::Bool(truth) => Ok(SourceValue::Bool(truth)),
        RowValue::Name(name) => Ok(SourceValue::Name(name_at(alloc, checked, facts, name)?)),
    }
}

/// The path and place of the `array` that is On by the fact of this number.
fn name_at(alloc: Global, checked: &Checked, facts: &Facts, name: usize) -> Result<Site, AllocError>
    ensures { IfOk result (λ v. v ≡ name_at checked.now facts.now name) }
{
    let made = facts.fact(name);
    site_at(alloc, checked, facts, path_of(made), row_of(made))
}

/// The path of the source that it is, with where the row stands.
fn site_at(
    alloc: Global,
    checked: &Checked,
    facts: &Facts,
    path: Trail,
    row: usize,
) -> Result<Site, AllocError>
    ensures { IfOk result (λ v. v ≡ site_at checked.now facts.now path row) }
{
    Ok(Site {
        path: path_at(alloc, checked, facts, path)?,
        place: place_of(checked, row),
    })
}

/// The path of the source that it is. Takes memory for each step.
fn path_at(
    alloc: Global,
    checked: &Checked,
    facts: &Facts,
    trail: Trail,
) -> Result<Path, AllocError>
    ensures { IfOk result (λ v. v ≡ path_at checked.now facts.now trail) }
{
    let mut steps = Vec::new(alloc);
    let mut rest = trail;
    while let Trail::Below { spot, number } = rest {
        let began = facts.fact(spot);
        steps.push(step_at(checked, row_of(began), number))?;
        rest = path_of(began);
    }
    steps.reverse();
    Ok(Path {
        steps: Sequence::new(steps),
    })
}

/// The step to the call or the iteration of this number at the row.
fn step_at(checked: &Checked, row: usize, number: u64) -> PathStep
    ensures { result ≡ step_at checked.now row number }
{
    PathStep {
        place: place_of(checked, row),
        number,
    }
}
