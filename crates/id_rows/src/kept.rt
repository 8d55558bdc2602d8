//! How much a run keeps of its events: its reports are the same.

use crate::rows::Expected;
use crate::workers::{graph_of, run_with};
use id_core::{Keeps, Machine, Merged, Observed, Open, merge_records};
use id_elements::Settings;
use id_print::{Report, run_report, write_report};
use id_valid::Valid;
use std::alloc::{AllocError, Global};
use std::process::Abort;
use std::sync::Wait;
use std::test::Fail;
use std::thread::Threads;

/// What a machine shows that keeps all events.
pub(crate) fn observed(alloc: Global, machine: &Machine<'_>) -> Result<Observed, AllocError> {
    match machine.keeps() {
        Keeps::All => machine.observe(alloc),
        Keeps::Names | Keeps::Tellings => Err(AllocError),
    }
}

/// All events of a machine that keeps them.
pub(crate) fn merged<'a>(
    alloc: Global,
    machine: &'a Machine<'_>,
) -> Result<Merged<'a>, AllocError> {
    match machine.keeps() {
        Keeps::All => merge_records(alloc, machine.elements()),
        Keeps::Names | Keeps::Tellings => Err(AllocError),
    }
}

const TEXT: &str = "def main(): int = { a = array(1, 2); a[1] = 5; in a[1] + a[1] };";

const REPORT: &str = "answer 10
array @1:25 1..2
cell @1:25[1] = 5
";

const NAMED: &str = "answer 10
name @1:21 = @1:25
array @1:25 1..2
cell @1:25[1] = 5
";

/// Whether the report is printed so.
fn is_printed(rt: &impl Abort, report: &Report, named: bool, lines: &str) -> bool {
    assert!(rt; TEXT.len() <= 1_000_000);
    let mut sink = Expected {
        rest: lines.as_bytes(),
    };
    write_report(report, TEXT, named, &mut sink).is_ok() && sink.rest.is_empty()
}

/// Whether a machine has the report without names, and with them where it keeps them.
fn is_reported(rt: &impl Abort, alloc: Global, machine: &Machine<'_>) -> Result<bool, AllocError> {
    let report = run_report(alloc, machine, false)?;
    let printed = is_printed(rt, &report, false, REPORT);
    let named = machine.keeps() != Keeps::Tellings;
    let report = run_report(alloc, machine, named)?;
    let lines = if named { NAMED } else { REPORT };
    Ok(printed && is_printed(rt, &report, named, lines))
}

/// Whether a run of the text that keeps so much has these reports.
fn is_run_so<R: Abort + AllocGlobal + Threads + Wait + Sync>(
    rt: &R,
    graph: &Valid,
    settings: Settings,
) -> Result<bool, AllocError> {
    match run_with(rt, graph, settings, settings.elements, &Open) {
        Ok(run) => is_reported(rt, rt.alloc(), run.machine()),
        Err(_) => Ok(false),
    }
}

#[test]
fn reports_are_the_same_however_much_is_kept(rt: HostRuntime) -> Result<(), Fail> {
    let graph = graph_of(rt.alloc(), TEXT)?;
    for keeps in [Keeps::Tellings, Keeps::Names, Keeps::All] {
        for elements in [1, 2] {
            let settings = Settings {
                keeps,
                ..Settings::new(elements, 1_000_000)
            };
            let same = is_run_so(&rt, &graph, settings)?;
            assert!(rt; same, "on {elements} elements");
        }
    }
    Ok(())
}
