//! What handling a message comes to (docs/MACHINE.md, "Element step").

ghost use Rattle.std.specs.Prelude.{◌≡◌};
ghost use Rattle.id_record.specs.Events.{full_step, second_store};

use crate::payload::tag_of;
use id_tag::{Cell, Payload, Tag};
use id_value::FaultKind;

/// What went wrong in an event.
#[derive(Clone, Copy, Debug, PartialEq, Eq)]
pub enum Fault {
    /// The operator of the tag's instruction has no result on its operands.
    Operator { fault: FaultKind, tag: Tag },
    /// The cell has the value of the store of the tag `first`, and that of the tag `second` stores into it too.
    SecondStore { cell: Cell, first: Tag, second: Tag },
}

/// What an event came to. A fault and `Stuck` send nothing.
#[derive(Clone, Copy, Debug, PartialEq, Eq)]
pub enum Step {
    /// The message was handled: it waits for its partner or for a value, or its outputs were sent.
    Went,
    /// An operator has no result, or a cell has a value already.
    Fault(Fault),
    /// A token came to a port that has one already, or a write to the cell that it filled.
    Stuck,
}

/// What an event came to, without what its message names.
#[derive(Clone, Copy)]
pub enum Verdict {
    Went,
    Failed(FaultKind),
    Stuck,
    /// The cell of the write has the value of the store of this tag.
    Second(Tag),
}

/// What a verdict on a message says in full. Takes no memory.
#[inline(always)]
pub fn full_step(payload: &Payload, verdict: Verdict) -> Step
    ensures { result ≡ full_step payload.now verdict }
{
    match verdict {
        Verdict::Went => Step::Went,
        Verdict::Failed(fault) => Step::Fault(Fault::Operator {
            fault,
            tag: tag_of(payload),
        }),
        Verdict::Stuck => Step::Stuck,
        Verdict::Second(first) => second_store(payload, first),
    }
}

/// What a second store comes to: its cell has the value of the store of this tag.
fn second_store(payload: &Payload, first: Tag) -> Step
    ensures { result ≡ second_store payload.now first }
{
    match *payload {
        Payload::Write { cell, origin, .. } => Step::Fault(Fault::SecondStore {
            cell,
            first,
            second: origin,
        }),
        Payload::Token { .. } | Payload::Read { .. } => Step::Stuck,
    }
}
