//! Runs on worker threads: two of them in the element step at once, fewer threads than elements, and a run that is
//! stuck.

use crate::graphs::thrice;
use crate::kept::observed;
use id_compile::compile;
use id_core::{Gate, Handling, Open, takes_inputs};
use id_elements::{Run, RunError, Settings, run_limited};
use id_source::{Inputs, SourceValue};
use id_valid::Valid;
use id_value::Sequence;
use std::alloc::{AllocError, Global};
use std::process::Abort;
use std::sync::Wait;
use std::sync::atomic::{AtomicU64, Ordering};
use std::test::Fail;
use std::thread;
use std::thread::Threads;

/// The graph of a text without inputs.
pub(crate) fn graph_of(alloc: Global, text: &str) -> Result<Valid, AllocError> {
    match compile(alloc, text) {
        Ok(compiled) => Ok(compiled.into_valid()),
        Err(_) => Err(AllocError),
    }
}

/// The run of a graph without inputs, on so many elements, by at most so many threads.
pub(crate) fn run_on<'a, R: Abort + AllocGlobal + Threads + Wait + Sync, G: Gate + Sync>(
    rt: &R,
    graph: &'a Valid,
    elements: u32,
    workers: u32,
    gate: &G,
) -> Result<Run<'a>, RunError> {
    run_with(rt, graph, Settings::new(elements, 1_000_000), workers, gate)
}

/// The same with these settings.
pub(crate) fn run_with<'a, R: Abort + AllocGlobal + Threads + Wait + Sync, G: Gate + Sync>(
    rt: &R,
    graph: &'a Valid,
    settings: Settings,
    workers: u32,
    gate: &G,
) -> Result<Run<'a>, RunError> {
    let alloc = rt.alloc();
    let inputs = Inputs {
        values: Sequence::new(Vec::new(alloc)),
    };
    assert!(rt; takes_inputs(graph, &inputs));
    run_limited(rt, alloc, graph, &inputs, settings, workers, gate)
}

/// Whether a run shows this answer.
fn shows(alloc: Global, run: &Run<'_>, number: i64) -> Result<bool, AllocError> {
    let shown = observed(alloc, run.machine())?;
    match shown.answer {
        Some(SourceValue::Int(answer)) => Ok(answer == number),
        _ => Ok(false),
    }
}

/// Whether the run of a graph shows this answer.
fn answers<R: Abort + AllocGlobal + Threads + Wait + Sync, G: Gate + Sync>(
    rt: &R,
    graph: &Valid,
    elements: u32,
    workers: u32,
    gate: &G,
    number: i64,
) -> Result<bool, AllocError> {
    match run_on(rt, graph, elements, workers, gate) {
        Ok(run) => shows(rt.alloc(), &run, number),
        Err(_) => Ok(false),
    }
}

/// A gate that holds the handling of the 301st message of each of two elements until that of the other has come too: by
/// then each has sent the other what it had for it.
#[derive(Drop)]
struct Meeting {
    come: AtomicU64,
    met: AtomicU64,
}

/// So many looks at whether the other has come, at the most.
const LOOKS: u32 = 100_000_000;

impl Meeting {
    /// Comes, and stays until the other has come too.
    fn meet(&self) {
        self.come.fetch_add(1, Ordering::SeqCst);
        for _ in 0..LOOKS {
            if self.come.load(Ordering::SeqCst) == 2 {
                self.met.fetch_add(1, Ordering::SeqCst);
                return;
            }
            thread::yield_now();
        }
    }
}

impl Gate for Meeting {
    fn hold(&self, at: &Handling) {
        if at.handled() == 300 {
            self.meet();
        }
    }
}

/// Eight calls of a sum of a hundred ones: of two elements each has four of them.
fn eight_sums(alloc: Global) -> Result<String, AllocError> {
    let mut text = String::from_str(alloc, "def f(): int = 1")?;
    for _ in 0..99 {
        text.push_str(" + 1")?;
    }
    text.push_str(";\ndef main(): int = f() + f() + f() + f() + f() + f() + f() + f();")?;
    Ok(text)
}

#[test]
fn two_workers_are_in_the_element_step_at_once(rt: HostRuntime) -> Result<(), Fail> {
    let text = eight_sums(rt.alloc())?;
    let graph = graph_of(rt.alloc(), text.as_str())?;
    let gate = Meeting {
        come: AtomicU64::new(0),
        met: AtomicU64::new(0),
    };
    let answered = answers(&rt, &graph, 2, 2, &gate, 800)?;
    let met = gate.met.load(Ordering::SeqCst);
    assert!(rt; answered && met == 2);
    Ok(())
}

/// Two loops that know nothing of each other.
const TWO_LOOPS: &str = "def main(): int = { i = 0; \
x = { while i < 1000 do next i = i + 1; finally i }; \
y = { while i < 1000 do next i = i + 2; finally i }; in x + y };";

#[test]
fn the_calling_thread_does_what_threads_leave(rt: HostRuntime) -> Result<(), Fail> {
    let graph = graph_of(rt.alloc(), TWO_LOOPS)?;
    for workers in [0, 1, 3] {
        let answered = answers(&rt, &graph, 4, workers, &Open, 2000)?;
        assert!(rt; answered, "with {workers} threads");
    }
    Ok(())
}

/// Whether the run of a graph on one element is stuck.
fn is_stuck<R: Abort + AllocGlobal + Threads + Wait + Sync>(rt: &R, graph: &Valid) -> bool {
    matches!(run_on(rt, graph, 1, 1, &Open), Err(RunError::Stuck))
}

#[test]
fn three_tokens_for_one_port_are_stuck(rt: HostRuntime) -> Result<(), Fail> {
    let graph = thrice(&rt, rt.alloc())?;
    let stuck = is_stuck(&rt, &graph);
    assert!(rt; stuck);
    Ok(())
}
