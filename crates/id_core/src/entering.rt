//! Which inputs are for a graph: what `Machine::new` asks of them, and a graph with such inputs.

ghost use Rattle.std.specs.Prelude.{◌≡◌, ◌↔◌, IsTrue, length};
ghost use Rattle.id_instr.specs.declared.instr.Op.TheVariants.{Merge};
ghost use Rattle.id_core.specs.Kept.{TakesInputs-prop};
ghost use Rattle.id_core.specs.Machines.{AreTaken, TakesInputs};

use id_instr::{Graph, Op, PortKind};
use id_ops::value_of;
use id_source::Inputs;
use id_step::op_at;
use id_valid::Valid;
use id_value::Constant;

/// A graph with inputs, lent: what a machine starts with.
///
/// Keeps: these are inputs for the graph: one for each entry of main's block, of its kind.
#[derive(Clone, Copy)]
pub struct Start<'a, 'i> {
    pub graph: &'a Valid,
    pub inputs: &'i Inputs,
    pub ghost taken: { TakesInputs graph.now inputs.now.values } by { TakesInputs-prop graph.now inputs.now.values },
}

/// Whether these are inputs for the graph: one for each entry of main's block, of its kind. It tests the condition of
/// `Machine::new`. Takes no memory.
pub fn takes_inputs(graph: &Valid, inputs: &Inputs) -> bool
    ensures { IsTrue result ↔ TakesInputs graph.now inputs.now.values }
{
    let entries = graph.main_block().entries.as_slice();
    let values = inputs.values.as_slice();
    entries.len() == values.len() && are_taken(graph.graph(), entries, values)
}

/// Whether each of these instructions is a merge of its input's kind, where there are as many inputs.
fn are_taken(graph: &Graph, entries: &[u32], inputs: &[Constant]) -> bool
    requires { length entries.now ≡ length inputs.now }
    ensures { IsTrue result ↔ AreTaken graph.now entries.now inputs.now }
{
    for (index, entry) in entries.iter().enumerate() {
        let value = value_of(inputs[index]);
        if !is_merge(op_at(graph, *entry), value.kind()) {
            return false;
        }
    }
    true
}

/// Whether the operator is a merge of this kind.
fn is_merge(op: Option<Op>, kind: PortKind) -> bool
    ensures { IsTrue result ↔ (op ≡ Some (Merge kind)) }
{
    match op {
        Some(Op::Merge(other)) => other == kind,
        _ => false,
    }
}
