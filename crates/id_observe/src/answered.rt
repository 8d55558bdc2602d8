//! The answer that a run shows, for who asks for nothing else (docs/MACHINE.md, "Observed").

ghost use Rattle.std.specs.Prelude.{◌≡◌, map, slice_get, IfOk};
ghost use Rattle.std.specs.List.{filter_map};
ghost use Rattle.id_observe.specs.Observed.{answer_in, first_value};
ghost use Rattle.id_observe.specs.Paths.{structure_in};
ghost use Rattle.id_observe.specs.Sourced.{source_value};
ghost use Rattle.id_observe.specs.Tellings.{value_told};

use crate::paths::value_by;
use crate::records::{Paths, Records};
use id_record::Tellings;
use id_source::{Site, SourceValue};
use id_step::Element;
use id_tag::{Structure, Value};
use std::alloc::{AllocError, Global};

/// The answer that these records show, for who asks for nothing else. Memory is wanted only where it is a structure.
pub fn answer(alloc: Global, records: &Records<'_>) -> Result<Option<SourceValue>, AllocError>
    ensures { IfOk result
        (λ o. o ≡ answer_in records.now.graph.now (map (λ e. e.state) records.now.elements.now)) }
{
    match first_value(records.elements) {
        Some(value) => told_value(alloc, records, value),
        None => Ok(None),
    }
}

/// The value as one of the source, where these records tell under which tag each structure was made.
fn told_value(
    alloc: Global,
    records: &Records<'_>,
    value: Value,
) -> Result<Option<SourceValue>, AllocError>
    ensures { IfOk result (λ o. o
        ≡ source_value (structure_in records.now.graph.now (map (λ e. e.state) records.now.elements.now)) value) }
{
    match value {
        Value::Int(number) => Ok(Some(SourceValue::Int(number))),
        Value::Bool(truth) => Ok(Some(SourceValue::Bool(truth))),
        Value::Structure(structure) => {
            let name = told_name(alloc, records, structure)?;
            Ok(Some(SourceValue::Name(name)))
        }
        _ => Ok(None),
    }
}

/// The name of the structure, where these records tell under which tag each was made.
fn told_name(alloc: Global, records: &Records<'_>, structure: Structure) -> Result<Site, AllocError>
    ensures { IfOk result (λ a. a
        ≡ structure_in records.now.graph.now (map (λ e. e.state) records.now.elements.now) structure) }
{
    let paths = Paths::new(alloc, records)?;
    paths.name(alloc, structure)
}

/// The first value that these records brought to the answer.
fn first_value(elements: &[Element<'_>]) -> Option<Value>
    ensures { result ≡ first_value (map (λ e. e.state) elements.now) }
{
    for element in elements {
        let value = first_answer(element.tellings());
        if value.is_some() {
            return value;
        }
    }
    None
}

/// The first value that came to the answer, of what is told.
fn first_answer(tellings: &Tellings) -> Option<Value>
    ensures { result ≡ slice_get (filter_map value_told tellings.now.items) 0 }
{
    for position in 0..tellings.len() {
        let value = value_by(tellings.telling(position));
        if value.is_some() {
            return value;
        }
    }
    None
}
