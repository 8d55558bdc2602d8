//! The facts of a round in order (docs/MEANING.md, "Order").

ghost use Rattle.std.specs.Prelude.{◌≡◌, IfOk};
ghost use Rattle.id_facts.specs.Listed.{AreShown, facts_in};

use crate::compare::compare;
use crate::facts::RowFact;
use crate::tree::Tree;
use id_check::Checked;
use std::alloc::{AllocError, Global};

/// The facts in the order of the facts of the source that they are.
pub fn sorted(alloc: Global, checked: &Checked, tree: &Tree) -> Result<Vec<RowFact>, AllocError>
    ensures { IfOk result (λ v. AreShown checked.now tree.now (facts_in checked.now tree.now v.items)) }
{
    let mut all = all_rows(alloc, tree)?;
    all.sort_unstable_by(|a, b| compare(checked, tree, *a, *b));
    Ok(all)
}

/// The facts, in the order in which they came.
fn all_rows(alloc: Global, tree: &Tree) -> Result<Vec<RowFact>, AllocError>
    ensures { IfOk result (λ v. v.items ≡ tree.now) }
{
    let mut all = Vec::new(alloc);
    all.extend_from_slice(tree.as_slice())?;
    Ok(all)
}
