//! Facts whose paths are told, one after another, in room that was taken before.

ghost use Rattle.std.specs.Prelude.{◌≡◌, ◌≤◌, ◌<◌, drop, length, IfOk};
ghost use Rattle.id_facts.specs.Listed.{path_at};

use id_check::Checked;
use id_facts::{Facts, Trail, Tree, last_step};
use id_source::PathStep;
use std::alloc::{AllocError, Global};
use std::marker::Model;

/// Facts, and room for the steps of a path of them.
#[derive(Drop)]
pub struct Paths {
    tree: Tree,
    steps: Vec<PathStep>,
}

impl Model for Paths {
    ghost use Rattle.std.specs.Prelude.{◌<◌, List, length};
    ghost use Rattle.id_facts.specs.declared.facts.RowFact.{RowFact};

    ghost Value = { List RowFact };

    ghost view = { λ p. p.tree };

    ghost invariant = { λ p. length p.tree < length p.steps.items };
}

impl Paths {
    ghost use Rattle.std.specs.Prelude.{◌≡◌, ◌<◌, length, IfOk};
    ghost use Rattle.id_facts.specs.RowFacts.{AreBefore};

    /// These facts. Takes memory for each.
    pub fn new(alloc: Global, facts: Facts) -> Result<Paths, AllocError>
        requires { AreBefore facts }
        ensures { IfOk result (λ p. p ≡ facts) }
    {
        let steps = room_for(alloc, &facts)?;
        let tree = Tree::new(alloc, facts)?;
        Ok(Paths { tree, steps })
    }

    /// The facts, each with how many steps its path has.
    pub fn tree(&self) -> &Tree
        ensures { result.now ≡ self.now }
    {
        &self.tree
    }

    /// The facts, each with how many steps its path has, and the room.
    pub fn into_parts(self) -> (Tree, Vec<PathStep>)
        ensures facts { result.0 ≡ self }
        ensures room { length self < length result.1.items }
    {
        let Paths { tree, steps } = self;
        (tree, steps)
    }
}

/// Room for the steps of any path of these facts.
fn room_for(alloc: Global, facts: &Facts) -> Result<Vec<PathStep>, AllocError>
    ensures { IfOk result (λ v. length facts.now < length v.items) }
{
    let step = PathStep {
        place: 0,
        number: 0,
    };
    let mut steps = Vec::new(alloc);
    steps.resize(facts.len(), step)?;
    steps.push(step)?;
    Ok(steps)
}

/// Writes the steps of a path at the end of the room, and says where they begin. Takes no memory.
pub fn write_steps(steps: &mut Vec<PathStep>, checked: &Checked, tree: &Tree, trail: Trail) -> usize
    requires { length tree.now < length steps.old.items }
    ensures steps { drop result steps.new.items ≡ (path_at checked.now tree.now trail).steps }
    ensures within { result ≤ length steps.new.items }
    ensures same { length steps.new.items ≡ length steps.old.items }
{
    let mut start = steps.len();
    let mut rest = trail;
    while tree.depth(rest) > 0 {
        start -= 1;
        steps[start] = last_step(checked, tree, rest);
        rest = tree.outside(rest);
    }
    start
}
