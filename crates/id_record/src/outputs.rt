//! What an event sent, which contracts see as a list of messages.

ghost use Rattle.std.specs.Prelude.{◌≡◌, ◌<◌, ◌++◌, length, map, slice_get, Some};
ghost use Rattle.id_instr.specs.declared.dests.Port.TheVariants.{Zero};
ghost use Rattle.id_tag.specs.declared.Payload.TheVariants.{Token};
ghost use Rattle.id_tag.specs.declared.Sender.TheVariants.{Element};
ghost use Rattle.id_ops.specs.declared.Fired.TheVariants.{Entered};
ghost use Rattle.id_instr.specs.Graph.{arcs_on};
ghost use Rattle.id_ops.specs.Operators.{side_of};
ghost use Rattle.id_record.specs.Sends.{HasSecond, beside, count_started, moved_to, replies, sent, started};
ghost use Rattle.id_record.specs.Sends.{token_to};

use id_instr::{Dest, Instr, Op, Port};
use id_ops::{Fired, tag_within};
use id_tag::{Context, Message, Payload, Sender, Tag, Value};
use std::marker::Model;

/// What each output of an event carries: the element, the event's position in its record, and its stamp.
#[derive(Clone, Copy)]
pub struct Envelope {
    pub number: u32,
    pub position: usize,
    pub stamp: u64,
}

/// The messages that an event sent, in the order of their numbers: what was fired, and then a value to replies. Each is
/// made when it is asked for.
#[derive(Drop)]
pub struct Outputs<'a> {
    op: Option<Op>,
    dests: &'a [Dest],
    tag: Tag,
    fired: Fired,
    value: Value,
    readers: &'a [Tag],
    envelope: Envelope,
}

impl<'a> Model for Outputs<'a> {
    ghost use Rattle.std.specs.Prelude.{List, ◌++◌};
    ghost use Rattle.id_tag.specs.declared.Message.{Message};
    ghost use Rattle.id_record.specs.Sends.{HasSecond, numbered, replies, sent};

    ghost Value = { List Message };

    ghost view = { λ o. numbered o.envelope.number o.envelope.position o.envelope.stamp 0
        (sent o.op o.dests.now o.tag o.fired ++ replies o.value o.readers.now) };

    ghost invariant = { λ o. HasSecond o.op };
}

impl<'a> Outputs<'a> {
    ghost use Rattle.std.specs.Prelude.{◌≡◌, ◌<◌, ◌==◌, ◌++◌, length, slice_get, Some};
    ghost use Rattle.id_record.specs.Sends.{HasSecond, numbered, replies, sent};

    /// What is sent where the operator of an instruction fires under this tag, with these destinations on the side of
    /// the firing, and the value goes to these replies. Takes no memory.
    #[inline(always)]
    pub fn new(
        op: Option<Op>,
        dests: &'a [Dest],
        tag: Tag,
        fired: Fired,
        value: Value,
        readers: &'a [Tag],
        envelope: Envelope,
    ) -> Outputs<'a>
        requires { HasSecond op }
        ensures { result ≡ numbered envelope.number envelope.position envelope.stamp 0
            (sent op dests.now tag fired ++ replies value readers.now) }
    {
        Outputs {
            op,
            dests,
            tag,
            fired,
            value,
            readers,
            envelope,
        }
    }

    /// How many messages there are. Takes no memory.
    pub fn len(&self) -> usize
        ensures { result ≡ length self.now }
    {
        count_sent(self.op, self.dests, self.tag, &self.fired) + self.readers.len()
    }

    /// Whether there is none. Takes no memory.
    pub fn is_empty(&self) -> bool
        ensures { result ≡ (length self.now == 0) }
    {
        self.len() == 0
    }

    /// The message of this number, from 0. Takes no memory.
    pub fn message(&self, number: usize) -> Message
        requires { number < length self.now }
        ensures { slice_get self.now number ≡ Some result }
    {
        let fired = count_sent(self.op, self.dests, self.tag, &self.fired);
        let said = if number < fired {
            payload(self.op, self.dests, self.tag, &self.fired, number)
        } else {
            reply(self.readers, self.value, number - fired)
        };
        message(self.envelope, number, said)
    }
}

/// How many messages are sent where the operator fires.
fn count_sent(op: Option<Op>, dests: &[Dest], tag: Tag, fired: &Fired) -> usize
    ensures { result ≡ length (sent op dests.now tag fired.now) }
{
    match *fired {
        Fired::Out(_) | Fired::Side(..) | Fired::Moved(..) => dests.len(),
        Fired::Entered(_) => dests.len() + count_started(op),
        Fired::Sent(..) | Fired::Asked { .. } | Fired::Stored { .. } => 1,
        Fired::Failed(_) | Fired::Nothing => 0,
    }
}

/// The destinations on the side to which an instruction fired. Takes no memory.
#[inline(always)]
pub fn chosen<'i>(instr: &'i Instr, fired: &Fired) -> &'i [Dest]
    ensures { result.now ≡ arcs_on (side_of fired.now) instr.now }
{
    match *fired {
        Fired::Side(false, _) => instr.others.as_slice(),
        _ => instr.dests.as_slice(),
    }
}

/// What the message of this number says.
fn payload(op: Option<Op>, dests: &[Dest], tag: Tag, fired: &Fired, number: usize) -> Payload
    requires second { HasSecond op }
    requires number { number < length (sent op dests.now tag fired.now) }
    ensures { slice_get (sent op dests.now tag fired.now) number ≡ Some result }
{
    match *fired {
        Fired::Out(value) | Fired::Side(_, value) => going_out(dests, tag, value, number),
        Fired::Moved(iteration, value) => going_out(dests, moved_to(tag, iteration), value, number),
        Fired::Entered(context) => entering(op, dests, tag, context, number),
        Fired::Sent(target, value) => token_at(target, value),
        Fired::Asked { cell, reply } => Payload::Read { cell, reply },
        Fired::Stored {
            cell,
            value,
            origin,
        } => Payload::Write {
            cell,
            value,
            origin,
        },
        Fired::Failed(_) | Fired::Nothing => unreachable!(),
    }
}

/// What the message of this number says where a value goes to each destination, under the context and
/// iteration of the tag.
fn going_out(dests: &[Dest], tag: Tag, value: Value, number: usize) -> Payload
    requires { number < length dests.now }
    ensures { slice_get (map (token_to tag value) dests.now) number ≡ Some result }
{
    let dest = dests[number];
    token_to(tag, value, dest)
}

/// What the message of this number says where a block is entered in this context: the context, for
/// each destination, and then what starts the block.
fn entering(op: Option<Op>, dests: &[Dest], tag: Tag, context: Context, number: usize) -> Payload
    requires second { HasSecond op }
    requires number { number < length (sent op dests.now tag (Entered context)) }
    ensures { slice_get (sent op dests.now tag (Entered context)) number ≡ Some result }
{
    if number < dests.len() {
        let dest = dests[number];
        token_to(tag, Value::Context(context), dest)
    } else {
        start(op, tag, context, number - dests.len())
    }
}

/// How many messages start the block that the operator names.
pub fn count_started(op: Option<Op>) -> usize
    ensures { result ≡ count_started op }
{
    match op {
        Some(Op::Enter { .. }) => 2,
        _ => 0,
    }
}

/// What the message of this number says, of those that start the block that the operator names.
pub fn start(op: Option<Op>, tag: Tag, context: Context, number: usize) -> Payload
    requires second { HasSecond op }
    requires number { number < length (started op tag context) }
    ensures { slice_get (started op tag context) number ≡ Some result }
{
    match op {
        Some(Op::Enter { block, reply }) => {
            if number == 0 {
                token_at(tag_within(context, block), Value::Signal)
            } else {
                let caller = beside(tag, reply);
                token_at(tag_within(context, block + 1), Value::Continuation(caller))
            }
        }
        _ => unreachable!(),
    }
}

/// The tag of another instruction, under the same context and iteration.
fn beside(tag: Tag, instr: u32) -> Tag
    ensures { result ≡ beside tag instr }
{
    Tag { instr, ..tag }
}

/// The tag of the same instruction in the same context, at this iteration.
#[inline(always)]
pub fn moved_to(tag: Tag, iteration: u64) -> Tag
    ensures { result ≡ moved_to tag iteration }
{
    Tag { iteration, ..tag }
}

/// What the message of this number says, of those that bring a value to replies.
fn reply(readers: &[Tag], value: Value, number: usize) -> Payload
    requires { number < length readers.now }
    ensures { slice_get (replies value readers.now) number ≡ Some result }
{
    token_at(readers[number], value)
}

/// A token with this value for port 0 of a tag.
#[inline(always)]
pub fn token_at(tag: Tag, value: Value) -> Payload
    ensures { result ≡ Token tag Zero value }
{
    Payload::Token {
        tag,
        port: Port::Zero,
        value,
    }
}

/// A token with this value for a destination, under the context and iteration of the tag.
#[inline(always)]
pub fn token_to(tag: Tag, value: Value, dest: Dest) -> Payload
    ensures { result ≡ token_to tag value dest }
{
    let tag = Tag {
        instr: dest.instr,
        ..tag
    };
    Payload::Token {
        tag,
        port: dest.port,
        value,
    }
}

/// The message of this number of those that the envelope is for.
#[inline(always)]
pub fn message(envelope: Envelope, number: usize, payload: Payload) -> Message
    ensures { result ≡ record {
      payload = payload;
      sender = Element envelope.number;
      position = envelope.position;
      output = number;
      stamp = envelope.stamp;
    } }
{
    Message {
        payload,
        sender: Sender::Element(envelope.number),
        position: envelope.position,
        output: number,
        stamp: envelope.stamp,
    }
}
