//! What events tell of the names of a run, and what of its faults.

ghost use Rattle.std.specs.Prelude.{◌≡◌};
ghost use Rattle.id_record.specs.Tellings.{came_in, fault_in, is_merged, is_value, is_value_merge, is_number, made_in};
ghost use Rattle.id_record.specs.Tellings.{is_stuck};

use crate::payload::{tag_of, value_of};
use crate::step::{Fault, Step};
use id_instr::{Graph, Op, PortKind};
use id_ops::Fired;
use id_tag::{Context, Payload, Structure, Tag, Value};

/// What an event tells: that under this tag a context was entered, a structure was made, or a value came to
/// instruction 0.
#[derive(Clone, Copy)]
pub struct Telling {
    pub tag: Tag,
    pub told: Told,
}

/// What is told of a tag.
#[derive(Clone, Copy)]
pub enum Told {
    /// The context that was entered.
    Entered(Context),
    /// The structure that was made.
    Made(Structure),
    /// The value that came.
    Came(Value),
}

/// A fault, and the stamp of its event.
#[derive(Clone, Copy)]
pub struct Faulted {
    pub stamp: u64,
    pub fault: Fault,
}

/// What a token for instruction 0 tells. Takes no memory.
#[inline(always)]
pub(crate) fn came_in(payload: &Payload) -> Option<Telling>
    ensures { result ≡ came_in payload.now }
{
    match *payload {
        Payload::Token { tag, value, .. } => {
            if tag.instr == 0 {
                Some(Telling {
                    tag,
                    told: Told::Came(value),
                })
            } else {
                None
            }
        }
        Payload::Read { .. } | Payload::Write { .. } => None,
    }
}

/// What the firing for such a message tells. Takes no memory.
#[inline(always)]
pub(crate) fn made_in(payload: &Payload, fired: &Fired) -> Option<Telling>
    ensures { result ≡ made_in payload.now fired.now }
{
    match *fired {
        Fired::Entered(context) => Some(Telling {
            tag: tag_of(payload),
            told: Told::Entered(context),
        }),
        Fired::Out(Value::Structure(structure)) => {
            if is_number(value_of(payload)) {
                Some(Telling {
                    tag: tag_of(payload),
                    told: Told::Made(structure),
                })
            } else {
                None
            }
        }
        _ => None,
    }
}

/// Whether a value is a number.
#[inline(always)]
fn is_number(value: Value) -> bool
    ensures { result ≡ is_number value }
{
    matches!(value, Value::Int(_))
}

/// Whether it is a token for a merge of values of the source. Takes no memory.
pub(crate) fn is_merged(graph: &Graph, payload: &Payload) -> bool
    ensures { result ≡ is_merged graph.now payload.now }
{
    match *payload {
        Payload::Token { tag, .. } => match graph.instrs().get(tag.instr as usize) {
            Some(instr) => is_value_merge(instr.op),
            None => false,
        },
        Payload::Read { .. } | Payload::Write { .. } => false,
    }
}

/// Whether the instruction is a merge for values of the source. Takes no memory.
pub fn is_value_merge(op: Op) -> bool
    ensures { result ≡ is_value_merge op }
{
    match op {
        Op::Merge(kind) => is_value(kind),
        _ => false,
    }
}

/// Whether the kind is one of values of the source.
fn is_value(kind: PortKind) -> bool
    ensures { result ≡ is_value kind }
{
    match kind {
        PortKind::Int | PortKind::Bool | PortKind::Structure | PortKind::Structures => true,
        PortKind::Signal | PortKind::Address | PortKind::Addresses => false,
        PortKind::Context | PortKind::Continuation => false,
    }
}

/// The fault of an event that came to this at this stamp, if it is one. Takes no memory.
pub(crate) fn fault_in(stamp: u64, step: Step) -> Option<Faulted>
    ensures { result ≡ fault_in stamp step }
{
    match step {
        Step::Fault(fault) => Some(Faulted { stamp, fault }),
        Step::Went | Step::Stuck => None,
    }
}

/// Whether an event came to `Stuck`. Takes no memory.
pub(crate) fn is_stuck(step: Step) -> bool
    ensures { result ≡ is_stuck step }
{
    matches!(step, Step::Stuck)
}
