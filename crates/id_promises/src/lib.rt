//! The laws of texts: what all runs, rounds and judged traces of one text have in common, and what the status of a run
//! tells of its program.
//!
//! Keeps: nothing; each function is a law, and has no code.
//! Errors: none.
//! Read first: `specs/OneAnswer.antt`, then `one_answer`; docs/PROMISES.md ("The run", "The judge").
//! Not here: what a request shows and how a run is reported, of which these speak (`id_engine`); the laws of runs and
//! sources, from which they follow (`id_laws`).
#![tactic(auto)]

ghost use Rattle.id_promises.specs.Alike.{PrintedAlike};
ghost use Rattle.id_promises.specs.AtOnce.{AtOnce};
ghost use Rattle.id_promises.specs.JudgedAlike.{JudgedAlike};
ghost use Rattle.id_promises.specs.LastRound.{LastRound};
ghost use Rattle.id_promises.specs.Moments.{AllMoments};
ghost use Rattle.id_promises.specs.OneAnswer.{OneAnswer};
ghost use Rattle.id_promises.specs.OneProgram.{OneProgram};
ghost use Rattle.id_promises.specs.OneRound.{OneRound};
ghost use Rattle.id_promises.specs.Status.{StatusTold};
ghost use Rattle.id_promises.specs.Stopped.{StoppedShort};

/// *Printed alike*, a law: all runs of one source that fall quiet print the same bytes, whatever the
/// numberings of their graphs, the numbers of their elements and the orders of their deliveries, and where
/// one falls quiet none ends at a fault (docs/PROMISES.md, "The run"). Takes no memory.
pub fn printed_alike()
    ensures { PrintedAlike }
{
    id_laws::sound();
    id_laws::determinate();
}

/// *One program*, a law: two programs of one text are alike, whatever the places of their lists in memory: they have
/// the same rows, names, `main`, binders and kinds, the schemas give them the same graphs, the same words the same
/// inputs, and with these they have the same facts, faults and answer (docs/PROMISES.md, "The run"). Takes no memory.
pub fn one_program()
    ensures { OneProgram }
{}

/// *One answer*, a law: all runs of one text on the same words for which `engine` answers and that fall quiet have the
/// same report, on any numbers of elements and in any orders, but that names may be left out of it; and where one
/// falls quiet none ends at a fault (docs/PROMISES.md, "The run"). Takes no memory.
pub fn one_answer()
    ensures { OneAnswer }
{
    id_laws::sound();
    id_laws::complete();
}

/// *At every moment*, a law: after each front of its events, in their order, a run for which `engine` answers has shown
/// facts and faults of the text's source alone, whatever its status (docs/PROMISES.md, "The run"). Takes no memory.
pub fn at_every_moment()
    ensures { AllMoments }
{
    id_laws::sound();
    id_laws::legal_lists();
}

/// *Stopped short*, a law: a run that stops because no element may handle more messages shows that its source
/// needs more: so many different paths are active that the graph may need more messages than these
/// (docs/PROMISES.md, "The run"). Takes no memory.
pub fn stopped_short()
    ensures { StoppedShort }
{
    id_laws::bounded();
}

/// *Status told*, a law: where finitely many paths are active, and each element may handle as many
/// messages as the graph may need for them, a run ends with status 0 exactly where its source has no fault, and
/// with status 1 exactly where it has one (docs/PROMISES.md, "The run"). Takes no memory.
pub fn status_told()
    ensures { StatusTold }
{
    id_laws::bounded();
    id_laws::sound();
    id_laws::complete();
}

/// *One round*, a law: all calls of `facts_text` on one text, the same words and the same number print the same facts
/// in the same bytes; two rounds with the same bytes have the same facts, on any words; each line tells its fact; and
/// where a round adds no bytes to the round before it these are all facts of the text's source
/// (docs/PROMISES.md, "The run"). Takes no memory.
pub fn one_round()
    ensures { OneRound }
{}

/// *At once*, a law: all graphs that the schemas give a program may have as many messages at once, as many as its rows
/// say. So where a round of a text adds no bytes to the round before it, the status of each run of the text whose
/// elements may handle that many messages for each path that is active by those facts tells whether its source has a
/// fault, and all such runs have one status (docs/PROMISES.md, "The run"). Takes no memory.
pub fn at_once()
    ensures { AtOnce }
{
    id_laws::bounded();
    id_laws::sound();
    id_laws::complete();
}

/// *Last round*, a law: where a run falls quiet, all facts of its source are of one round, to which the next round of
/// the text adds no bytes (docs/PROMISES.md, "The run"). Takes no memory.
pub fn last_round()
    ensures { LastRound }
{
    id_laws::complete();
}

/// *Judged alike*, a law: the trace of a run, as `engine` prints it, is judged legal on as many elements, with the
/// report and the status of the run; and all judges of one trace say the same (docs/PROMISES.md, "The judge"). Takes no
/// memory.
pub fn judged_alike()
    ensures { JudgedAlike }
{
    id_laws::sound();
    id_laws::legal_lists();
    id_judge::clear_lines();
}
