//! A run on worker threads.

ghost use Rattle.std.specs.Prelude.{◌≡◌, ◌≢◌, ◌<◌, ◌≤◌, ◌+◌, ◌-◌, ◌++◌, ◌∷◌};
ghost use Rattle.std.specs.Prelude.{◌⊎◌, ◌↔◌, [], ℕ, All, IfOk, IfErr, List, OnOk};
ghost use Rattle.std.specs.Prelude.{length, slice_index_or, vec_len, Err, IsTrue, None};
ghost use Rattle.std.specs.List.{sum_by};
ghost use denote.Param.Send.{IsSend};
ghost use Rattle.id_inbox.specs.Hands.{weight_in};
ghost use Rattle.id_inbox.specs.contracts.door.Door as the_door;
ghost use Rattle.id_tag.specs.declared.Message.{Message};
ghost use Rattle.id_step.specs.Fits.{Fits};
ghost use Rattle.id_core.specs.Machines.{TakesInputs, start_messages};
ghost use Rattle.id_runs.specs.Accounts.{IsAccounted};
ghost use Rattle.id_runs.specs.Orders.{AreReplayed};
ghost use Rattle.id_elements.specs.Doors.{HaveParts, queues_of};
ghost use Rattle.id_elements.specs.Gathered.{AreGathered, IsWhole, states_of};
ghost use Rattle.id_elements.specs.Runs.{AllMove, AreBadSteps, IsByPositions, IsRefusedRun, IsRun};
ghost use Rattle.id_elements.specs.Runs.{MovesOn, StopAtFaults};
ghost use Rattle.id_elements.specs.Workers.{AreWorkers, IsSameWithin, StopsAtFault, WorkerView, sent_in};
ghost use Rattle.id_elements.specs.declared.settings.RunError.TheVariants.{BadElements, BadSteps};

use crate::doors::{absorb_all, drain_all, keep_rest, open_all, send_start, split_all};
use crate::drawn::run_in_order;
use crate::ended::Run;
use crate::finish::finish;
use crate::home::Home;
use crate::settings::{Allowed, MAX_STEPS, RunError, Settings};
use crate::shared::Shared;
use crate::worker::{Left, Worker};
use id_core::{Count, Element, Gate, Keeps, Machine, Start, start_flight};
use id_flight::Queue;
use id_inbox::Door;
use id_source::Inputs;
use id_valid::Valid;
use std::alloc::{AllocError, Global};
use std::sync::Wait;
use std::thread;
use std::thread::Threads;

/// Lets a worker work, if its place is below the limit.
fn work_below<R: Wait, G: Gate>(
    rt: &R,
    index: usize,
    limit: usize,
    worker: &mut Worker<'_>,
    steps: u64,
    shared: &Shared,
    gate: &G,
)
    requires { length worker.old.element.state.events ≤ steps }
    ensures { IsSameWithin steps worker.old worker.new }
{
    if index < limit {
        worker.work(rt, steps, shared, gate);
    }
}

/// Lets the first of these workers work, up to the limit, each on a thread of its own where one can be made.
fn work_all<R: Threads + Wait + Sync, G: Gate + Sync>(
    rt: &R,
    workers: &mut [Worker<'_>],
    limit: usize,
    steps: u64,
    shared: &Shared,
    gate: &G,
)
    requires some { 0 < length workers.old }
    requires few { All (λ w. length w.element.state.events ≤ steps) workers.old }
    ensures { (i : ℕ) (d : WorkerView) → i < length workers.old
        → IsSameWithin steps (slice_index_or workers.old i d) (slice_index_or workers.new i d) }
{
    let count = workers.len();
    // For the proof that a worker may go to another thread (proofs/SendLemmas.antt).
    doors_cross();
    thread::for_each_mut(
        rt,
        workers,
        count,
        &|index, worker| { work_below(rt, index, limit, worker, steps, shared, gate) },
    );
}

/// Says in a clause that a value of this type may go to another thread. Does nothing.
#[inline(always)]
fn may_cross<T: Send>()
    ensures { IsSend T.row }
{}

/// The same of a door.
#[inline(always)]
fn doors_cross()
    ensures { IsSend the_door.the_row }
{
    may_cross::<Door>();
}

/// The workers, one for each inbox.
fn make_workers<'a>(
    alloc: Global,
    count: Count,
    doors: &mut Vec<Door>,
    graph: &'a Valid,
    keeps: Keeps,
) -> Result<Vec<Worker<'a>>, AllocError>
    requires len { vec_len doors.old ≡ count.number }
    requires parts { HaveParts 1024 doors.old.items }
    ensures workers { IfOk result
        (λ ws. AreWorkers graph.now count.number 0 keeps (queues_of doors.new.items) ws.items) }
    ensures len { IfOk result (λ ws. vec_len ws ≡ count.number) }
    ensures parts { OnOk result (HaveParts (1024 - count.number) doors.new.items) }
    ensures whole { OnOk result ((start : List Message)
        → IsWhole start doors.old.items [] [] → IsWhole start doors.new.items [] []) }
{
    let mut workers = Vec::new(alloc);
    for number in 0..count.number {
        let theirs = split_all(alloc, doors)?;
        let worker = Worker::new(alloc, Home { number, count }, theirs, graph, keeps)?;
        workers.push(worker)?;
    }
    Ok(workers)
}

/// Keeps all messages of some letters.
fn keep_all(left: &mut Queue, mut letters: Vec<Queue>) -> Result<(), AllocError>
    ensures { OnOk result ((f : Message → ℕ)
        → sum_by f left.new.messages ≡ sum_by f left.old.messages + weight_in f letters.items) }
{
    while let Some(letter) = letters.pop() {
        keep_rest(left, letter)?;
    }
    Ok(())
}

/// Takes in what a worker has.
fn gather_one<'a>(
    worker: Worker<'a>,
    doors: &mut Vec<Door>,
    elements: &mut Vec<Element<'a>>,
    left: &mut Queue,
) -> Result<(), AllocError>
    requires { queues_of worker.doors ≡ queues_of doors.old.items }
    ensures queues { OnOk result (queues_of doors.new.items ≡ queues_of doors.old.items) }
    ensures parts { OnOk result ((n : ℕ) → HaveParts n doors.old.items → HaveParts (n + 1) doors.new.items) }
    ensures elements { OnOk result (elements.new.items ≡ worker.entry.element ∷ elements.old.items) }
    ensures stops { OnOk result (StopsAtFault worker.entry.element.state.events) }
    ensures sent { OnOk result
        (All (Fits worker.entry.element.graph) (sent_in worker.entry.element.state)) }
    ensures whole { OnOk result ((start : List Message)
        → IsWhole start doors.old.items (states_of elements.old.items) left.old.messages
        → IsWhole start doors.new.items (states_of elements.new.items) left.new.messages) }
{
    let Left {
        doors: theirs,
        element,
        own,
        came,
        back,
        stray,
        letters,
    } = worker.into_parts();
    absorb_all(doors, theirs);
    keep_rest(left, own)?;
    keep_rest(left, came)?;
    keep_rest(left, back)?;
    keep_rest(left, stray)?;
    keep_all(left, letters)?;
    elements.insert(0, element)?;
    Ok(())
}

/// What is gathered from workers: their elements, in order of their numbers, and what is left.
#[derive(Drop)]
struct Gathered<'a> {
    elements: Vec<Element<'a>>,
    left: Queue,
}

/// Takes in what all workers have.
fn gather<'a>(
    alloc: Global,
    doors: &mut Vec<Door>,
    mut workers: Vec<Worker<'a>>,
    graph: &'a Valid,
    allowed: Allowed,
) -> Result<Gathered<'a>, AllocError>
    requires len { vec_len workers ≡ allowed.count.number }
    requires workers { AreWorkers graph.now allowed.count.number allowed.steps allowed.keeps
        (queues_of doors.old.items) workers.items }
    requires parts { HaveParts (1024 - vec_len workers) doors.old.items }
    ensures parts { OnOk result (HaveParts 1024 doors.new.items) }
    ensures elements { IfOk result
        (λ r. AreGathered graph.now allowed.count.number allowed.steps allowed.keeps 0 r.elements.items) }
    ensures len { IfOk result (λ r. length r.elements.items ≡ allowed.count.number) }
    ensures whole { IfOk result (λ r. (start : List Message) → IsWhole start doors.old.items [] []
        → IsWhole start doors.new.items (states_of r.elements.items) r.left.messages) }
{
    let mut elements = Vec::new(alloc);
    let mut left = Queue::new(alloc);
    while let Some(worker) = workers.pop() {
        gather_one(worker, doors, &mut elements, &mut left)?;
    }
    Ok(Gathered { elements, left })
}

/// How many threads can run at one time, where that is known.
fn processors<R: Threads>(rt: &R) -> usize {
    match thread::available_parallelism(rt) {
        Ok(count) => count.get(),
        Err(_) => 1,
    }
}

/// Lets workers run the machine from its start, and takes in what they have once they have stopped.
fn run_workers<'a, R: Threads + Wait + Sync, G: Gate + Sync>(
    rt: &R,
    alloc: Global,
    graph: &'a Valid,
    start: &Queue,
    allowed: Allowed,
    limit: u32,
    gate: &G,
) -> Result<Gathered<'a>, AllocError>
    ensures elements { IfOk result
        (λ r. AreGathered graph.now allowed.count.number allowed.steps allowed.keeps 0 r.elements.items) }
    ensures len { IfOk result (λ r. length r.elements.items ≡ allowed.count.number) }
    ensures accounted { IfOk result
        (λ r. IsAccounted start.now.messages (states_of r.elements.items) r.left.messages) }
{
    let mut doors = open_all(alloc, allowed.count.number)?;
    send_start(rt, alloc, &mut doors, start)?;
    let mut workers = make_workers(alloc, allowed.count, &mut doors, graph, allowed.keeps)?;
    let shared = Shared::new(alloc, allowed.count.number, start.len(), processors(rt))?;
    work_all(
        rt,
        workers.as_mut_slice(),
        limit as usize,
        allowed.steps,
        &shared,
        gate,
    );
    if shared.was_refused() {
        return Err(AllocError);
    }
    let mut gathered = gather(alloc, &mut doors, workers, graph, allowed)?;
    drain_all(rt, &mut doors, &mut gathered.left)?;
    Ok(gathered)
}

/// The machine that workers have come to, with what they have left.
fn machine_of<'a, R: Threads + Wait + Sync, G: Gate + Sync>(
    rt: &R,
    alloc: Global,
    from: Start<'a, '_>,
    allowed: Allowed,
    limit: u32,
    gate: &G,
) -> Result<Machine<'a>, AllocError>
    ensures graph { IfOk result (λ m. m.graph ≡ from.entry.graph.now) }
    ensures count { IfOk result (λ m. m.count ≡ allowed.count.number) }
    ensures kept { IfOk result (λ m. m.keeps ≡ allowed.keeps) }
    ensures few { IfOk result (λ m. All (λ s. length s.events ≤ allowed.steps) m.world.elements) }
    ensures stops { IfOk result (λ m. StopAtFaults m.world) }
    ensures accounted { IfOk result (λ m. IsAccounted (start_messages from.entry.graph.now from.entry.inputs.now.values)
        m.world.elements m.world.flight) }
{
    id_runs::orders_are_runs();
    let graph = from.graph;
    let start = start_flight(alloc, from)?;
    let Gathered { elements, left } = run_workers(rt, alloc, graph, &start, allowed, limit, gate)?;
    Ok(Machine::resume(graph, allowed.keeps, elements, left))
}

/// Whether no event of the machine was `Stuck`.
pub fn moves_on(machine: &Machine<'_>) -> bool
    ensures { IsTrue result ↔ MovesOn machine.now.world }
{
    all_move_in(machine.elements())
}

/// Whether no event of these elements was `Stuck`.
fn all_move_in(elements: &[Element<'_>]) -> bool
    ensures { IsTrue result ↔ All (λ e. AllMove e.state.events) elements.now }
{
    elements.iter().all(|element| moves_at(element))
}

/// Whether no event of an element was `Stuck`.
fn moves_at(element: &Element<'_>) -> bool
    ensures { IsTrue result ↔ AllMove element.now.state.events }
{
    !element.is_stuck()
}

/// The elements of a machine are what their records lead to.
pub fn replay_all(machine: &Machine<'_>)
    ensures { AreReplayed machine.now.graph machine.now.count machine.now.world.elements }
{
    let elements = machine.elements();
    for element in elements {
        let _handled = element.handled();
    }
}

/// Runs the machine from its start to its end.
fn run_allowed<'a, R: Threads + Wait + Sync, G: Gate + Sync>(
    rt: &R,
    alloc: Global,
    from: Start<'a, '_>,
    allowed: Allowed,
    limit: u32,
    gate: &G,
) -> Result<Run<'a>, RunError>
    ensures run { IfOk result
        (IsRun from.entry.graph.now from.entry.inputs.now.values allowed.count.number allowed.steps) }
    ensures kept { IfOk result (λ r. r.keeps ≡ allowed.keeps) }
    ensures moves { IfOk result (λ r. MovesOn r.world) }
    ensures refused { IfErr result
        (IsRefusedRun from.entry.graph.now from.entry.inputs.now.values allowed.count.number allowed.steps) }
{
    id_runs::orders_are_runs();
    let mut machine = machine_of(rt, alloc, from, allowed, limit, gate)?;
    finish(rt, &mut machine, allowed.steps)?;
    replay_all(&machine);
    if !moves_on(&machine) {
        return Err(RunError::Stuck);
    }
    Ok(Run::of(machine))
}

/// Runs the graph on these inputs, on so many elements of which each is worked by a thread of its own and handles at
/// most so many messages, until no message is left, or each that is left is held back, or at a fault. At most `workers`
/// threads work; what they leave, the calling thread does. `BadElements` comes where there is none or more than
/// `MAX_ELEMENTS`, then `BadSteps` where no step or more than `MAX_STEPS` are allowed, then `Stuck` where an element
/// answered so. The gate holds each handling of a message for as long as it likes.
pub fn run_limited<'a, R: Threads + Wait + Sync, G: Gate + Sync>(
    rt: &R,
    alloc: Global,
    graph: &'a Valid,
    inputs: &Inputs,
    settings: Settings,
    workers: u32,
    gate: &G,
) -> Result<Run<'a>, RunError>
    requires { TakesInputs graph.now inputs.now.values }
    // It is a run of the machine, and it has come to its end: where every event went well, each message left is held
    // back.
    ensures run { IfOk result (IsRun graph.now inputs.now.values settings.elements settings.steps) }
    ensures kept { IfOk result (λ r. r.keeps ≡ settings.keeps) }
    ensures moves { IfOk result (λ r. MovesOn r.world) }
    ensures elements { (result ≡ Err BadElements) ↔ ((settings.elements ≡ 0) ⊎ (64 < settings.elements)) }
    ensures steps { (result ≡ Err BadSteps) ↔ AreBadSteps settings.elements settings.steps }
    ensures refused { IfErr result (IsRefusedRun graph.now inputs.now.values settings.elements settings.steps) }
{
    let Some(count) = Count::new(settings.elements) else {
        return Err(RunError::BadElements);
    };
    if settings.steps == 0 || settings.steps > MAX_STEPS {
        return Err(RunError::BadSteps);
    }
    let allowed = Allowed {
        count,
        steps: settings.steps,
        keeps: settings.keeps,
    };
    run_allowed(rt, alloc, Start { graph, inputs }, allowed, workers, gate)
}

/// Runs the graph on these inputs, with a thread for each element, as `run_limited` does with that limit, or, where the
/// settings have a seed for the order, on the calling thread, as `run_in_order` does; then no gate holds anything.
pub fn run<'a, R: Threads + Wait + Sync, G: Gate + Sync>(
    rt: &R,
    alloc: Global,
    graph: &'a Valid,
    inputs: &Inputs,
    settings: Settings,
    gate: &G,
) -> Result<Run<'a>, RunError>
    requires { TakesInputs graph.now inputs.now.values }
    ensures run { IfOk result (IsRun graph.now inputs.now.values settings.elements settings.steps) }
    ensures kept { IfOk result (λ r. r.keeps ≡ settings.keeps) }
    ensures moves { IfOk result (λ r. MovesOn r.world) }
    // A seed has one message after another delivered.
    ensures positions { IfOk result (λ r. settings.order ≢ None
        → IsByPositions graph.now inputs.now.values settings.elements r.world) }
    ensures elements { (result ≡ Err BadElements) ↔ ((settings.elements ≡ 0) ⊎ (64 < settings.elements)) }
    ensures steps { (result ≡ Err BadSteps) ↔ AreBadSteps settings.elements settings.steps }
    ensures refused { IfErr result (IsRefusedRun graph.now inputs.now.values settings.elements settings.steps) }
{
    match settings.order {
        Some(seed) => run_in_order(alloc, graph, inputs, settings, seed),
        None => run_limited(rt, alloc, graph, inputs, settings, settings.elements, gate),
    }
}
