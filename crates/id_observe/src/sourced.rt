//! Values, faults and places as those of the source, by the paths of tags and the names of structures.

ghost use Rattle.std.specs.Prelude.{◌≡◌, ◌<◌, ◌-◌};
ghost use Rattle.std.specs.Prelude.{IfOk, None, Some, option_and_then};
ghost use Rattle.id_observe.specs.Sourced.{fault_of};
ghost use Rattle.id_observe.specs.Sourced.{second_store, site_cmp, source_value};
ghost use Rattle.id_observe.specs.Paths.{site_at};
ghost use Rattle.id_observe.specs.Paths.{structure_by};
ghost use Rattle.id_observe.specs.Paths.{path_by};

use crate::records::Paths;
use id_record::{Fault, Step};
use id_source::{Site, SourceFault, SourceValue};
use id_tag::{Cell, Structure, Tag, Value};
use std::alloc::{AllocError, Global};
use std::cmp::Ordering;

/// The value as one of the source.
pub fn source_value(
    alloc: Global,
    paths: &Paths<'_>,
    value: Value,
) -> Result<Option<SourceValue>, AllocError>
    ensures { IfOk result (λ o. o ≡ source_value (structure_by paths.now) value) }
{
    match value {
        Value::Int(number) => Ok(Some(SourceValue::Int(number))),
        Value::Bool(truth) => Ok(Some(SourceValue::Bool(truth))),
        Value::Structure(structure) => {
            Ok(Some(SourceValue::Name(paths.name(alloc, structure)?)))
        }
        _ => Ok(None),
    }
}

/// The value, if there is one, as one of the source.
pub fn value_in(
    alloc: Global,
    paths: &Paths<'_>,
    value: Option<Value>,
) -> Result<Option<SourceValue>, AllocError>
    ensures { IfOk result (λ o. o ≡ option_and_then (source_value (structure_by paths.now)) value) }
{
    match value {
        Some(value) => source_value(alloc, paths, value),
        None => Ok(None),
    }
}

/// The fault of the source that a step shows.
pub fn source_fault(
    alloc: Global,
    paths: &Paths<'_>,
    step: Step,
) -> Result<Option<SourceFault>, AllocError>
    ensures { IfOk result (λ o. o ≡ fault_of paths.now.graph.now (path_by paths.now) (structure_by paths.now) step) }
{
    match step {
        Step::Fault(Fault::Operator { fault, tag }) => Ok(Some(SourceFault::Operator {
            kind: fault,
            site: paths.site(alloc, tag)?,
        })),
        Step::Fault(
            Fault::SecondStore {
                cell,
                first,
                second,
            },
        ) => Ok(Some(stores_fault(alloc, paths, cell, first, second)?)),
        Step::Went | Step::Stuck => Ok(None),
    }
}

/// The fault of the stores of these tags into one cell.
fn stores_fault(
    alloc: Global,
    paths: &Paths<'_>,
    cell: Cell,
    first: Tag,
    second: Tag,
) -> Result<SourceFault, AllocError>
    ensures { IfOk result (λ f. f ≡ second_store (structure_by paths.now cell.structure) cell.index
        (site_at paths.now.graph.now (path_by paths.now) first)
        (site_at paths.now.graph.now (path_by paths.now) second)) }
{
    let name = paths.name(alloc, cell.structure)?;
    let held = paths.site(alloc, first)?;
    let came = paths.site(alloc, second)?;
    Ok(second_store(name, cell.index, held, came))
}

/// The fault of two stores into one cell of the structure of this name: the smaller of them first.
fn second_store(name: Site, index: i64, a: Site, b: Site) -> SourceFault
    ensures { result ≡ second_store name index a b }
{
    match site_cmp(&a, &b) {
        Ordering::Less | Ordering::Equal => SourceFault::SecondStore {
            name,
            index,
            first: a,
            second: b,
        },
        Ordering::Greater => SourceFault::SecondStore {
            name,
            index,
            first: b,
            second: a,
        },
    }
}

/// How two sites compare: by path, a front of a path first, then by place.
fn site_cmp(a: &Site, b: &Site) -> Ordering
    ensures { result ≡ site_cmp a.now b.now }
{
    let paths = a.path.steps.as_slice().cmp(&b.path.steps.as_slice());
    paths.then(a.place.cmp(&b.place))
}
