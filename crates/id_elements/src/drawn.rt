//! A run whose order a seed gives: the calling thread delivers messages that a generator draws.

ghost use Rattle.std.specs.Prelude.{◌≡◌, ◌<◌, ◌≤◌, ◌⊎◌, ◌↔◌, All, length, Err, IfErr, IfOk};
ghost use Rattle.std.specs.Prelude.{IfSome, IsFalse, IsTrue, OnOk};
ghost use Rattle.id_core.specs.Machines.{TakesInputs, delivered};
ghost use Rattle.id_elements.specs.Runs.{AreBadSteps, HasWent, IsByPositions, IsDelivered, IsFinished};
ghost use Rattle.id_elements.specs.Runs.{IsFree, IsRefusedRun, IsRun, MovesOn, StopAtFaults};
ghost use Rattle.id_elements.specs.declared.settings.RunError.TheVariants.{BadElements, BadSteps};

use crate::ended::Run;
use crate::finish::{deliver, first_free, is_held_back};
use crate::running::{moves_on, replay_all};
use crate::settings::{Allowed, MAX_STEPS, RunError, Settings};
use id_core::{Count, Machine, Start};
use id_source::Inputs;
use id_valid::Valid;
use rand_core::{Rng, SeedableRng};
use rand_pcg::Pcg64Mcg;
use std::alloc::{AllocError, Global};

/// So many messages are drawn, at the most, until one is not held back.
const DRAWS: u32 = 16;

/// A position that is drawn from those below the end, from this one on.
fn draw(rng: &mut Pcg64Mcg, from: usize, end: usize) -> usize
    requires { from < end }
    ensures from { from ≤ result }
    ensures end { result < end }
{
    let choices = (end - from) as u64;
    from + (rng.next_u64() % choices) as usize
}

/// A position from this one on that was drawn, and whose message is not held back, if one was drawn soon.
fn draw_free(machine: &Machine<'_>, rng: &mut Pcg64Mcg, from: usize, steps: u64) -> Option<usize>
    requires { from < length machine.now.world.flight }
    ensures from { IfSome result (λ k. from ≤ k) }
    ensures free { IfSome result (IsFree machine.now.count steps machine.now.world) }
{
    let end = machine.in_flight().len();
    for _ in 0..DRAWS {
        let position = draw(rng, from, end);
        if !is_held_back(machine, position, steps) {
            return Some(position);
        }
    }
    None
}

/// A position from this one on whose message is not held back: one that was drawn, or this one.
fn choose(machine: &Machine<'_>, rng: &mut Pcg64Mcg, from: usize, steps: u64) -> usize
    requires from { from < length machine.now.world.flight }
    requires free { IsFree machine.now.count steps machine.now.world from }
    ensures from { from ≤ result }
    ensures free { IsFree machine.now.count steps machine.now.world result }
{
    match draw_free(machine, rng, from, steps) {
        Some(position) => position,
        None => from,
    }
}

/// Delivers messages that are drawn until a fault, or until each that is left is held back. Where those that were drawn
/// are held back, the first that is not takes their place; no message in front of that is looked at again, since what
/// is held back stays so.
fn deliver_drawn(
    machine: &mut Machine<'_>,
    rng: &mut Pcg64Mcg,
    steps: u64,
) -> Result<(), AllocError>
    requires few { All (λ s. length s.events ≤ steps) machine.old.world.elements }
    requires went { HasWent machine.old.world }
    ensures finished { OnOk result (IsFinished steps machine.old machine.new) }
    ensures delivered { OnOk result
        (IsDelivered machine.old.graph machine.old.count machine.old.world machine.new.world) }
{
    let mut from = 0usize;
    loop {
        from = first_free(machine, from, steps);
        if from == machine.in_flight().len() {
            return Ok(());
        }
        let position = choose(machine, rng, from, steps);
        if !deliver(machine, position, steps)? {
            return Ok(());
        }
    }
}

/// The run of the machine in the order that the seed gives.
fn run_drawn<'a>(
    alloc: Global,
    from: Start<'a, '_>,
    allowed: Allowed,
    seed: u64,
) -> Result<Run<'a>, RunError>
    ensures run { IfOk result
        (IsRun from.entry.graph.now from.entry.inputs.now.values allowed.count.number allowed.steps) }
    ensures kept { IfOk result (λ r. r.keeps ≡ allowed.keeps) }
    ensures moves { IfOk result (λ r. MovesOn r.world) }
    ensures positions { IfOk result
        (λ r. IsByPositions from.entry.graph.now from.entry.inputs.now.values allowed.count.number r.world) }
    ensures refused { IfErr result
        (IsRefusedRun from.entry.graph.now from.entry.inputs.now.values allowed.count.number allowed.steps) }
{
    id_runs::orders_are_runs();
    let mut machine = Machine::begin(alloc, from, allowed.count, allowed.keeps)?;
    let mut rng = Pcg64Mcg::seed_from_u64(seed);
    deliver_drawn(&mut machine, &mut rng, allowed.steps)?;
    replay_all(&machine);
    if !moves_on(&machine) {
        return Err(RunError::Stuck);
    }
    Ok(Run::of(machine))
}

/// Runs the graph on these inputs as `run` does, but on the calling thread, in the order that the seed gives: each time
/// it delivers a message that the generator draws of those that are not held back. The same seed gives the same order
/// again. Whatever the seed, it returns, since each delivery is one of the messages that an element may handle.
pub fn run_in_order<'a>(
    alloc: Global,
    graph: &'a Valid,
    inputs: &Inputs,
    settings: Settings,
    seed: u64,
) -> Result<Run<'a>, RunError>
    requires { TakesInputs graph.now inputs.now.values }
    // It is a run of the machine, and it has come to its end: where every event went well, each message left is held
    // back.
    ensures run { IfOk result (IsRun graph.now inputs.now.values settings.elements settings.steps) }
    ensures kept { IfOk result (λ r. r.keeps ≡ settings.keeps) }
    ensures moves { IfOk result (λ r. MovesOn r.world) }
    // It delivered one message after another.
    ensures positions { IfOk result (λ r. IsByPositions graph.now inputs.now.values settings.elements r.world) }
    ensures elements { (result ≡ Err BadElements) ↔ ((settings.elements ≡ 0) ⊎ (64 < settings.elements)) }
    ensures steps { (result ≡ Err BadSteps) ↔ AreBadSteps settings.elements settings.steps }
    ensures refused { IfErr result (IsRefusedRun graph.now inputs.now.values settings.elements settings.steps) }
{
    let Some(count) = Count::new(settings.elements) else {
        return Err(RunError::BadElements);
    };
    if settings.steps == 0 || settings.steps > MAX_STEPS {
        return Err(RunError::BadSteps);
    }
    let allowed = Allowed {
        count,
        steps: settings.steps,
        keeps: settings.keeps,
    };
    run_drawn(alloc, Start { graph, inputs }, allowed, seed)
}
