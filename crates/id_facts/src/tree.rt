//! Facts with the depths of their paths.

ghost use Rattle.std.specs.Prelude.{◌≡◌, ◌≤◌, ◌<◌, length, get_or, IfOk};
ghost use Rattle.id_facts.specs.RowFacts.{AreBefore};
ghost use Rattle.id_check.specs.Programs.{place};
ghost use Rattle.id_facts.specs.Depths.{AreDepths, depth_by, last_step};

use crate::facts::{Facts, RowFact, Trail, path_of, row_of};
use id_check::Checked;
use id_source::PathStep;
use std::alloc::{AllocError, Global};
use std::marker::Model;

/// Facts, and how many steps the path of each has.
#[derive(Drop)]
pub struct Tree {
    facts: Facts,
    depths: Vec<usize>,
}

impl Model for Tree {
    ghost use Rattle.std.specs.Prelude.{List};
    ghost use Rattle.id_facts.specs.declared.facts.RowFact.{RowFact};
    ghost use Rattle.id_facts.specs.Depths.{IsTree};

    ghost Value = { List RowFact };

    ghost view = { λ t. t.facts };

    ghost invariant = { λ t. IsTree t.facts t.depths.items };
}

impl Tree {
    ghost use Rattle.std.specs.Prelude.{◌≡◌, IfOk};
    ghost use Rattle.id_facts.specs.RowFacts.{AreBefore, fact_at};
    ghost use Rattle.id_facts.specs.Depths.{depth_at, outside};

    /// These facts.
    pub fn new(alloc: Global, facts: Facts) -> Result<Tree, AllocError>
        requires { AreBefore facts }
        ensures { IfOk result (λ t. t ≡ facts) }
    {
        let depths = find_depths(alloc, &facts)?;
        Ok(Tree { facts, depths })
    }

    /// The facts, without their depths.
    pub fn facts(&self) -> &Facts
        ensures { result.now ≡ self.now }
    {
        &self.facts
    }

    /// The facts, in the order in which they came.
    pub fn as_slice(&self) -> &[RowFact]
        ensures { result.now ≡ self.now }
    {
        self.facts.as_slice()
    }

    /// The fact of this number; past the last one, that the first row is On at the empty path.
    pub fn fact(&self, number: usize) -> RowFact
        ensures is { result ≡ fact_at self.now number }
        ensures kept { AreBefore self.now }
    {
        self.facts.fact(number)
    }

    /// How many steps the path has.
    pub fn depth(&self, trail: Trail) -> usize
        ensures is { result ≡ depth_at self.now trail }
        ensures kept { AreBefore self.now }
    {
        depth_of(self.depths.as_slice(), trail)
    }

    /// The path without its last step.
    pub fn outside(&self, trail: Trail) -> Trail
        ensures { result ≡ outside self.now trail }
    {
        match trail {
            Trail::Outermost => Trail::Outermost,
            Trail::Below { spot, .. } => path_of(self.fact(spot)),
        }
    }
}

/// How many steps the path of each fact has.
fn find_depths(alloc: Global, facts: &Facts) -> Result<Vec<usize>, AllocError>
    requires { AreBefore facts.now }
    ensures { IfOk result (λ v. AreDepths facts.now (length facts.now) v.items) }
{
    let mut depths = Vec::new(alloc);
    for number in 0..facts.len() {
        let depth = depth_of(depths.as_slice(), path_of(facts.fact(number)));
        depths.push(depth)?;
    }
    Ok(depths)
}

/// How many steps the path has, by those of the paths of facts.
fn depth_of(depths: &[usize], trail: Trail) -> usize
    requires { (i : _) → i < length depths.now → get_or depths.now i 0 ≤ i }
    ensures { result ≡ depth_by depths.now trail }
{
    match trail {
        Trail::Outermost => 0,
        Trail::Below { spot, .. } => {
            if spot < depths.len() {
                depths[spot] + 1
            } else {
                1
            }
        }
    }
}

/// The last step of the path; of the empty path, that to the call at 0.
pub fn last_step(checked: &Checked, tree: &Tree, trail: Trail) -> PathStep
    ensures { result ≡ last_step checked.now tree.now trail }
{
    match trail {
        Trail::Outermost => PathStep {
            place: 0,
            number: 0,
        },
        Trail::Below { spot, number } => PathStep {
            place: place_of(checked, row_of(tree.fact(spot))),
            number,
        },
    }
}

/// Where the row stands; past the last one, 0.
pub fn place_of(checked: &Checked, row: usize) -> usize
    ensures { result ≡ place checked.now row }
{
    if row < checked.table.rows.len() {
        checked.table.rows[row].place as usize
    } else {
        0
    }
}
