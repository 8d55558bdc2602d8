//! A loop by hand: the graph of docs/GRAPH.md, its listing, one run of it and what that run shows.

use crate::graphs::countdown;
use crate::rows::{Expected, deliver, is_traced};
use id_core::{Keeps, Machine, takes_inputs};
use id_graph::{Constant, Graph, list};
use id_print::{Report, run_report, write_report};
use id_source::Inputs;
use id_valid::Valid;
use id_value::Sequence;
use std::alloc::{AllocError, Global};
use std::process::Abort;
use std::test::Fail;

const TEXT: &str = "def main(n: int): int = { while n > 0 do next n = n - 1; finally n };";

const LISTING: &str = "0 merge int @1:5 ->
1 merge signal @1:5 -> 4.0
2 back int @1:5 ->
3 merge int @1:10 -> 5.1
4 enter 7 6 @1:25 -> 5.0
5 send int 9 @1:25 ->
6 merge int @1:25 -> 2.1
7 merge signal @1:25 -> 10.0 12.1
8 back int @1:25 ->
9 merge int @1:42 -> 11.0 13.1
10 const 0 @1:37 -> 11.1
11 gt @1:35 -> 12.0 13.0
12 switch signal @1:25 -> 14.0 15.0 |
13 switch int @1:25 -> 16.0 | 18.0
14 next signal @1:25 -> 7.0
15 const 1 @1:55 -> 16.1
16 sub @1:53 -> 17.0
17 next int @1:42 -> 9.0
18 reset int @1:25 -> 8.1
";

/// Whether the graph is listed so.
fn is_listed(rt: &impl Abort, alloc: Global, graph: &Graph) -> Result<bool, AllocError> {
    assert!(rt; TEXT.len() <= 1_000_000);
    assert!(rt; graph.instrs().iter().all(|instr| instr.place <= TEXT.len()));
    let listing = list(alloc, graph, TEXT)?;
    Ok(listing.as_str() == LISTING)
}

#[test]
fn the_loop_is_listed(rt: HostRuntime) -> Result<(), Fail> {
    let graph = countdown(&rt, rt.alloc())?;
    let listed = is_listed(&rt, rt.alloc(), graph.graph())?;
    assert!(rt; listed);
    Ok(())
}

/// The machine of so many elements at its start, for this `n`.
pub(crate) fn counting<'a>(
    rt: &impl Abort,
    alloc: Global,
    graph: &'a Valid,
    n: i64,
    count: u32,
) -> Result<Machine<'a>, AllocError> {
    let values = vec![in alloc; Constant::Int(n)]?;
    let inputs = Inputs {
        values: Sequence::new(values),
    };
    assert!(rt; takes_inputs(graph, &inputs));
    Machine::new(alloc, graph, &inputs, count).map_err(|_| AllocError)
}

const TRACE: &str = "1 0 token c0.0#0 1.0 signal
2 0 token c0.0#0 2.0 k0.0#0:0
3 0 token c0.0#0 3.0 1
4 0 token c0.0#0 4.0 signal
5 0 token c0.0#0 5.1 1
6 0 token c0.0#0 5.0 c0.1
7 0 token c0.1#0 7.0 signal
8 0 token c0.1#0 8.0 k0.0#0:6
9 0 token c0.1#0 9.0 1
10 0 token c0.1#0 10.0 signal
11 0 token c0.1#0 12.1 signal
12 0 token c0.1#0 11.0 1
13 0 token c0.1#0 13.1 1
14 0 token c0.1#0 11.1 0
15 0 token c0.1#0 12.0 true
16 0 token c0.1#0 13.0 true
17 0 token c0.1#0 14.0 signal
18 0 token c0.1#0 15.0 signal
19 0 token c0.1#0 16.0 1
20 0 token c0.1#1 7.0 signal
21 0 token c0.1#0 16.1 1
22 0 token c0.1#1 10.0 signal
23 0 token c0.1#1 12.1 signal
24 0 token c0.1#0 17.0 0
25 0 token c0.1#1 11.1 0
26 0 token c0.1#1 9.0 0
27 0 token c0.1#1 11.0 0
28 0 token c0.1#1 13.1 0
29 0 token c0.1#1 12.0 false
30 0 token c0.1#1 13.0 false
31 0 token c0.1#1 18.0 0
32 0 token c0.1#0 8.1 0
33 0 token c0.0#0 6.0 0
34 0 token c0.0#0 2.1 0
35 0 token c0.0#0 0.0 0
";

const REPORT: &str = "answer 0
name @1:10 = 1
name /1:25#0@1:42 = 1
name /1:25#1@1:42 = 0
";

/// Whether the report is printed so.
fn is_printed(rt: &impl Abort, report: &Report) -> bool {
    assert!(rt; TEXT.len() <= 1_000_000);
    let mut sink = Expected {
        rest: REPORT.as_bytes(),
    };
    write_report(report, TEXT, true, &mut sink).is_ok() && sink.rest.is_empty()
}

/// Whether the names of the run are printed so.
fn is_reported(rt: &impl Abort, alloc: Global, machine: &Machine<'_>) -> Result<bool, AllocError> {
    assert!(rt; machine.keeps() != Keeps::Tellings);
    let report = run_report(alloc, machine, true)?;
    Ok(is_printed(rt, &report))
}

/// Whether 35 deliveries make the machine quiet, with the trace and the report of the run.
fn is_run_so(rt: &impl Abort, alloc: Global, machine: &mut Machine<'_>) -> Result<bool, Fail> {
    let quiet = deliver(machine, 35)?;
    let traced = is_traced(alloc, machine, TRACE)?;
    let reported = is_reported(rt, alloc, machine)?;
    Ok(quiet && traced && reported)
}

/// Whether a machine of the graph runs so.
fn is_counted_down(rt: &impl Abort, alloc: Global, graph: &Valid) -> Result<bool, Fail> {
    let mut machine = counting(rt, alloc, graph, 1, 1)?;
    is_run_so(rt, alloc, &mut machine)
}

#[test]
fn the_loop_counts_down(rt: HostRuntime) -> Result<(), Fail> {
    let graph = countdown(&rt, rt.alloc())?;
    let run = is_counted_down(&rt, rt.alloc(), &graph)?;
    assert!(rt; run);
    Ok(())
}
