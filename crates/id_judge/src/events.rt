//! The judge of events.

ghost use Rattle.std.specs.Prelude.{◌≡◌, ◌<◌, ◌↔◌, ◌⊎◌, Err, IfOk};
ghost use Rattle.id_core.specs.Machines.{TakesInputs};
ghost use Rattle.id_core.specs.declared.machine.MachineError.TheVariants.{BadElements};
ghost use Rattle.id_judge.specs.Verdicts.{IsVerdict};

use crate::bench::{end_bench, follow, start_bench};
use crate::given::Given;
use crate::verdict::Verdict;
use id_core::{Count, Keeps, MachineError, Start};
use id_source::Inputs;
use id_valid::Valid;
use std::alloc::Global;

/// Judges events on so many elements of a graph, from its start with these inputs: whether they are a legal list, and
/// else which is the first that cannot follow, and why. `BadElements` comes where the count is not from 1 to 64.
pub fn judge_events<'a>(
    alloc: Global,
    graph: &'a Valid,
    inputs: &Inputs,
    count: u32,
    events: &[Given],
) -> Result<Verdict<'a>, MachineError>
    requires { TakesInputs graph.now inputs.now.values }
    ensures verdict { IfOk result (IsVerdict graph.now inputs.now.values count events.now) }
    ensures refused { (result ≡ Err BadElements) ↔ ((count ≡ 0) ⊎ (64 < count)) }
{
    let Some(count) = Count::new(count) else {
        return Err(MachineError::BadElements);
    };
    let mut bench = start_bench(alloc, Start { graph, inputs }, count, Keeps::All)?;
    let many = events.len();
    for position in 0..many {
        if let Some(cause) = follow(&mut bench, &events[position])? {
            return Ok(Verdict::CannotFollow(position, cause));
        }
    }
    let machine = end_bench(alloc, bench)?;
    Ok(Verdict::Legal(machine, many))
}
