//! The first fault of several elements (docs/MACHINE.md, "Observed").

ghost use Rattle.std.specs.Prelude.{◌≡◌, [], map, All, IfOk, MatchOption};
ghost use Rattle.std.specs.List.Sorted.{IsStrictlyIncreasing};
ghost use Rattle.id_record.specs.declared.step.Step.TheVariants as steps;
ghost use Rattle.id_step.specs.Replays.{Replays};
ghost use Rattle.id_observe.specs.Firsts.{IsFirstFault, earlier_of, earliest_in};
ghost use Rattle.id_observe.specs.Paths.{path_in, structure_in};
ghost use Rattle.id_observe.specs.Sourced.{fault_of, faults_in};

use crate::records::{Paths, Records};
use crate::sourced::source_fault;
use id_record::{Fault, Faulted, Step};
use id_source::SourceFault;
use id_step::Element;
use std::alloc::{AllocError, Global};

/// The first fault of all events of these elements, whose numbers rise, by stamp and then by element, if there is one.
pub fn first_fault(alloc: Global, records: &Records<'_>) -> Result<Option<SourceFault>, AllocError>
    requires { IsStrictlyIncreasing (map (λ e. e.number) records.now.elements.now) }
    ensures { IfOk result (λ o. MatchOption o
        (faults_in records.now.graph.now (map (λ e. e.state) records.now.elements.now) ≡ [])
        (IsFirstFault records.now.graph.now (map (λ e. e.state) records.now.elements.now))) }
{
    match earliest(records.elements) {
        Some(first) => shown(alloc, records, first.fault),
        None => Ok(None),
    }
}

/// The fault as one of the source, where these records tell under which tags contexts and structures were made.
fn shown(
    alloc: Global,
    records: &Records<'_>,
    fault: Fault,
) -> Result<Option<SourceFault>, AllocError>
    ensures { IfOk result (λ o. o ≡ fault_of records.now.graph.now
        (path_in records.now.graph.now (map (λ e. e.state) records.now.elements.now))
        (structure_in records.now.graph.now (map (λ e. e.state) records.now.elements.now)) (steps.Fault fault)) }
{
    let paths = Paths::new(alloc, records)?;
    source_fault(alloc, &paths, Step::Fault(fault))
}

/// The first fault of these elements, by stamp and then by element, if there is one.
fn earliest(elements: &[Element<'_>]) -> Option<Faulted>
    ensures first { result ≡ earliest_in (map (λ e. e.state) elements.now) }
    // Their records lead to their states, so that each is in order.
    ensures kept { All Replays elements.now }
{
    let mut first = None;
    for element in elements {
        let _handled = element.handled();
        first = earlier(first, element.fault());
    }
    first
}

/// The fault of the lower stamp, or the first of these.
fn earlier(first: Option<Faulted>, next: Option<Faulted>) -> Option<Faulted>
    ensures { result ≡ earlier_of first next }
{
    match (first, next) {
        (Some(held), Some(came)) if came.stamp < held.stamp => next,
        (None, Some(_)) => next,
        _ => first,
    }
}
