//! The laws that say how much a run does, by what its program means.

ghost use Rattle.id_laws.specs.Bounded.{Bounded, RestIsTheEnd};
ghost use Rattle.id_laws.specs.ByBlock.{BoundedByBlock};
ghost use Rattle.id_laws.specs.Ended.{EndedFacts};
ghost use Rattle.id_laws.specs.Rest.{Rest};

/// *Bounded*: every message is paid for by a fact. What any run of a schemas' graph has handled and has in
/// flight is at most so much for each active path of the source, one at which something is On or an index Has a
/// value or that is the first iteration of an On `for`: a message for each port, each read of a fetch and each
/// write of a store in the graph (docs/MEANING.md, "Laws"). Takes no memory.
pub fn bounded()
    ensures { Bounded }
{}

/// *Bounded by block*: each active path pays for the ports, reads and writes of its own block alone, and one
/// message more is the answer's. What any run of a schemas' graph has handled and has in flight is no more than
/// that (docs/MEANING.md, "Laws"). Takes no memory.
pub fn bounded_by_block()
    ensures { BoundedByBlock }
{}

/// *Rest is the end*: where a run of a schemas' graph falls quiet, finitely many paths of the source are active,
/// no more than the run has events (docs/MEANING.md, "Laws"). Takes no memory.
pub fn rest_is_the_end()
    ensures { RestIsTheEnd }
{}

/// *Ended facts*: where a round of a source has the facts of the round before it, they are all facts of the
/// source, and the paths that are active by them alone are so (docs/MEANING.md, "Laws"). Takes no memory.
pub fn ended_facts()
    ensures { EndedFacts }
{}

/// *Comes to rest*: where finitely many paths of a source are active, every run of a schemas' graph comes
/// to an end after as many messages as *Bounded* allows, whichever messages are delivered. It is quiet then
/// where the source has no fault, and has shown one where it has one (docs/MEANING.md, "Laws"). Takes no memory.
pub fn comes_to_rest()
    ensures { Rest }
{
    bounded();
    crate::sound();
    crate::never_stuck();
    crate::complete();
}
