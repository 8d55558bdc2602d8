//! A checked program with its regions.

ghost use Rattle.std.specs.Prelude.{◌≡◌, IfOk};
ghost use Rattle.std.proofs.Props.{props};
ghost use Rattle.id_desugar.specs.Ends.{AreEnds, AreNexts, end_of, next_of};
ghost use Rattle.id_desugar.specs.Regions.{all_imports, loop_heads, order_of};

use crate::column::Column;
use crate::ends::{Ends, EndsAndNexts, find_ends_and_nexts};
use crate::imports::all_imports;
use crate::list::AllImports;
use crate::order::{Loops, find_loops, order_of};
use id_check::Checked;
use std::alloc::{AllocError, Global};

/// A checked program, lent, with the order in which its rows are made, and by row where what begins there ends, the
/// `next` of the variable there, and the binders that it imports.
#[derive(Drop)]
pub struct Kernel<'a> {
    pub checked: &'a Checked,
    pub order: Vec<u32>,
    /// The heads of loops, in order of place.
    pub loops: Vec<u32>,
    /// For each row the row where what begins there ends, if something does.
    pub ends: Column,
    /// For each row of a variable of a loop the row of its `next`.
    pub nexts: Column,
    pub imports: AllImports,
    pub ghost ordered: { order.items ≡ order_of checked.now } by { Prim.hlevel props },
    pub ghost headed: { loops.items ≡ loop_heads checked.now } by { Prim.hlevel props },
    pub ghost ended: { AreEnds checked.now ends } by { Prim.hlevel props },
    pub ghost nexted: { AreNexts checked.now nexts } by { Prim.hlevel props },
    pub ghost imported: { imports ≡ all_imports checked.now } by { Prim.hlevel props },
}

impl Kernel<'_> {
    /// The row where what begins at a row ends, or 0. Takes no memory.
    pub fn end_of(&self, head: usize) -> usize
        ensures { result ≡ end_of self.now.checked.now head }
    {
        self.ends.get_or_first(head) as usize
    }

    /// The row of the `next` of the variable at a row, or 0. Takes no memory.
    pub fn next_of(&self, variable: usize) -> u32
        ensures { result ≡ next_of self.now.checked.now variable }
    {
        self.nexts.get_or_first(variable)
    }
}

/// The program with its regions (docs/GRAPH.md, "Imports").
pub fn regions<'a>(alloc: Global, checked: &'a Checked) -> Result<Kernel<'a>, AllocError>
    ensures { IfOk result (λ k. k.checked.now ≡ checked.now) }
{
    let loops = find_loops(alloc, checked)?;
    let order = order_of(alloc, &loops)?;
    let spans = find_ends_and_nexts(alloc, checked)?;
    let imports = all_imports(alloc, &spans)?;
    let Loops { heads, .. } = loops;
    let EndsAndNexts { ends, nexts } = spans;
    let Ends { column, .. } = ends;
    Ok(Kernel {
        checked,
        order,
        loops: heads,
        ends: column,
        nexts,
        imports,
    })
}
