//! A run that is delivered on past its fault: at each moment it shows no fault but the source's.

use crate::kept::observed;
use crate::rows::started;
use crate::workers::graph_of;
use id_core::{Machine, TakeError};
use id_source::{Site, SourceFault};
use std::alloc::{AllocError, Global};
use std::process::Abort;
use std::test::Fail;

/// Two iterations store into one cell, of which nothing else is said.
const TEXT: &str = "def main(): int = { a = array(1, 1); i = 0; in \
    { while i < 2 do a[1] = 5; next i = i + 1; finally i } };";

/// Whether the site is that of the store in this iteration.
fn is_store(site: &Site, iteration: u64) -> bool {
    match site.path.steps.as_slice() {
        [step] => step.place == 47 && step.number == iteration && site.place == 65,
        _ => false,
    }
}

/// Whether it is the one fault of the source.
fn is_sourced(fault: &SourceFault) -> bool {
    match fault {
        SourceFault::SecondStore {
            name,
            index,
            first,
            second,
        } => name.place == 24 && *index == 1 && is_store(first, 0) && is_store(second, 1),
        SourceFault::Operator { .. } => false,
    }
}

/// Whether the run shows faults of the source alone, and how many.
fn shown(alloc: Global, machine: &Machine<'_>) -> Result<(bool, usize), AllocError> {
    let shown = observed(alloc, machine)?;
    let faults = shown.faults.as_slice();
    Ok((faults.iter().all(is_sourced), faults.len()))
}

/// Delivers the first message, where there is one.
fn go_on(machine: &mut Machine<'_>) -> Result<(), TakeError> {
    if !machine.in_flight().is_empty() {
        let _ = machine.deliver(0)?;
    }
    Ok(())
}

/// Whether a run shows faults of the source alone after each delivery, and one of them when nothing is in flight.
fn is_run_on(alloc: Global, machine: &mut Machine<'_>) -> Result<bool, Fail> {
    let mut sourced = true;
    for _ in 0..200 {
        go_on(machine)?;
        let (all, _) = shown(alloc, machine)?;
        sourced = sourced && all;
    }
    let (_, count) = shown(alloc, machine)?;
    Ok(sourced && count == 1 && machine.in_flight().is_empty())
}

#[test]
fn a_run_shows_the_faults_of_its_source_alone(rt: HostRuntime) -> Result<(), Fail> {
    let graph = graph_of(rt.alloc(), TEXT)?;
    for count in [1, 4] {
        let mut machine = started(&rt, rt.alloc(), &graph, count)?;
        let sourced = is_run_on(rt.alloc(), &mut machine)?;
        assert!(rt; sourced, "on {count} elements");
    }
    Ok(())
}
