//! The laws that join what a program means to what its graph does, and those that say how much a run does.
//!
//! Keeps: nothing; each function is a law, and has no code.
//! Errors: none.
//! Read first: `specs/Laws.antt`; then `specs/Bounded.antt`, `specs/ByBlock.antt` and `specs/Rest.antt`.
//! Not here: the facts of a source (`id_meaning`), the graphs of the schemas (`id_build`), runs (`id_runs`).
#![tactic(auto)]

ghost use Rattle.id_laws.specs.Determinate.{Determinate};
ghost use Rattle.id_laws.specs.Laws.{Coherence, InputsFit, Kinded, Labels, NeverStuck, QuietIsComplete, Soundness};
ghost use Rattle.id_laws.specs.Laws.{Serials, Suited, Validity};
ghost use Rattle.id_runs.specs.Legal.{LegalLists};

mod bounds;

pub use bounds::{bounded, bounded_by_block, comes_to_rest, ended_facts, rest_is_the_end};
/// *Sound*: what any run of a schemas' graph shows is of the source. The answer is the source's, each
/// fault is one of the source at its path, what a binder is shown to have at a path it Has there, and
/// each value that the instruction of an expression sends under a tag is one that the expression Has at
/// the tag's path (docs/MEANING.md, "Laws"). Takes no memory.
pub fn sound()
    ensures { Soundness }
{}

/// *Never stuck*: no event of any run of a schemas' graph is `Stuck`, no port gets two tokens under
/// one tag, and no two contexts, nor two iterations of one, have one path (docs/MEANING.md, "Laws"). Takes
/// no memory.
pub fn never_stuck()
    ensures { NeverStuck }
{}

/// *Quiet is complete*: a run of a schemas' graph that falls quiet shows exactly the source's answer
/// and what its binders Have, and the source has no fault (docs/MEANING.md, "Laws"). Takes no memory.
pub fn complete()
    ensures { QuietIsComplete }
{}

/// *Coherence*: each source without a fault gives each path and place at most one value, each structure
/// one shape and each cell one value (docs/MEANING.md, "Laws"). Takes
/// no memory.
pub fn coherent()
    ensures { Coherence }
{}

/// *Determinate*: two runs of one source that fall quiet show the same, whatever the numberings of their
/// graphs, the numbers of their elements and the orders of their deliveries, and where a run falls quiet no
/// run of its source shows a fault (docs/MEANING.md, "Laws"). Takes no memory.
pub fn determinate()
    ensures { Determinate }
{}

/// *Validity*: every graph that the schemas give a program is valid (docs/GRAPH.md, "Validator"). Takes
/// no memory.
pub fn valid()
    ensures { Validity }
{}

/// *Suited*: operands that meet an operator in any run of a valid graph suit it, so none answers
/// `Nothing` (docs/MEANING.md, "Laws"). Takes no memory.
pub fn suited()
    ensures { Suited }
{}

/// *Serials*: in any run of any graph no two events enter the same context or make the same structure, and
/// none enters main's context (docs/MEANING.md, "Laws"). Takes no memory.
pub fn serials()
    ensures { Serials }
{}

/// *Legal lists*: the events of any list of deliveries to any machine are a legal list of events, which leads to
/// the same state; and each legal list is that of a list of deliveries, which leads to the same state but for the
/// order of what is in flight (docs/MEANING.md, "Laws"). Takes no memory.
pub fn legal_lists()
    ensures { LegalLists }
{}

/// *Inputs fit*: every graph that the schemas give a program takes the inputs of the program: one for each
/// entry of main's block, of its kind (docs/MEANING.md, "Laws"). Takes no memory.
pub fn inputs_fit()
    ensures { InputsFit }
{}

/// *Labels*: the labels of every graph that the schemas give a program are the first instructions of the
/// program's binders, one each, and have their places (docs/MEANING.md, "Laws"). Takes no memory.
pub fn labels()
    ensures { Labels }
{}

/// *Kinded*: what a thing of a source Has is of the thing's kind (docs/MEANING.md, "Laws"). Takes no memory.
pub fn kinded()
    ensures { Kinded }
{}
