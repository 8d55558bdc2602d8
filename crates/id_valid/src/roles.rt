//! What blocks make of the instructions of a graph (docs/GRAPH.md, "Validator").

ghost use Rattle.std.specs.Prelude.{◌≡◌, MatchOption};
ghost use Rattle.id_instr.specs.declared.instr.Block.{Block};
ghost use Rattle.id_valid.specs.Roles.{back_kind, merge_kind, op_at, result_kind, has_main_place, IsMain};

use id_instr::{Block, Graph, Instr, Op, PortKind};

/// What the instruction of this number does, if there is one.
pub fn op_at(graph: &Graph, number: usize) -> Option<Op>
    ensures { result ≡ op_at graph.now number }
{
    graph.instrs().get(number).map(|instr| instr.op)
}

/// The kind of a merge.
pub fn merge_kind(op: Op) -> Option<PortKind>
    ensures { result ≡ merge_kind op }
{
    match op {
        Op::Merge(kind) => Some(kind),
        _ => None,
    }
}

/// The kind of a `back`.
pub fn back_kind(op: Op) -> Option<PortKind>
    ensures { result ≡ back_kind op }
{
    match op {
        Op::Back(kind) => Some(kind),
        _ => None,
    }
}

/// The kind of a block's result, if the block has one.
pub fn result_kind(graph: &Graph, block: &Block) -> Option<PortKind>
    ensures { result ≡ result_kind graph.now block.now }
{
    back_kind(op_at(graph, block.first as usize + 1)?)
}

/// Whether the first instruction of a block has the place of instruction 0.
pub fn has_main_place(graph: &Graph, block: &Block) -> bool
    ensures { result ≡ has_main_place graph.now block.now }
{
    let instrs = graph.instrs();
    match (instrs.get(block.first as usize), instrs.get(0)) {
        (Some(first), Some(answer)) => first.place == answer.place,
        _ => false,
    }
}

/// The one block whose first instruction has the place of instruction 0, unless none has it or
/// several have it.
pub fn main_block(graph: &Graph) -> Option<&Block>
    ensures { MatchOption result
        ((b : Block) → ¬ IsMain graph.now b) (λ b. IsMain graph.now b.now) }
{
    let mut found = None;
    for block in graph.blocks() {
        if has_main_place(graph, block) {
            if let Some(_) = found {
                return None;
            }
            found = Some(block);
        }
    }
    found
}
