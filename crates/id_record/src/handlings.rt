//! The list of what was handled, most of which takes 88 bytes.

ghost use Rattle.std.specs.Prelude.{◌≡◌, ◌<◌, ◌≤◌, ◌+◌, List, vec_capacity, vec_len};
ghost use Rattle.std.specs.Prelude.{IfSome, IsTrue};
ghost use Rattle.id_tag.specs.Plains.{message_of, tag_in};
ghost use Rattle.id_ops.specs.PlainFired.{fired_of, target_tag};
ghost use Rattle.id_record.specs.declared.handled.Handled.{Handled};
ghost use Rattle.id_record.specs.Handlings.{no_replies};
ghost use Rattle.id_record.specs.Sends.{beside};
ghost use Rattle.id_record.specs.declared.step.Verdict.TheVariants.{Went};
ghost use Rattle.id_record.specs.ShortHandlings.{IsThere, handled_of, near_handled, read_by, written_by};

use crate::handled::{Handled, NO_REPLIES, Replies, went};
use crate::room::widen;
use crate::step::Verdict;
use crate::tellings::context_by;
use id_instr::Port;
use id_ops::{Fired, PlainFired, Target};
use id_tag::{
    Message, Payload, Plain, PlainCell, PlainToken, Sender, Tag, plain_cell, plain_of, small, tiny,
};
use std::alloc::{AllocError, Global};
use std::marker::Model;

/// What was handled, in order: what went well in 88 bytes where its numbers are small, and all else whole, in a list
/// aside.
#[derive(Drop)]
pub(crate) struct Handlings {
    shorts: Vec<ShortHandled>,
    asides: Vec<Handled>,
}

/// What was handled once: the stamp of its event, a token of the tag that its message names, which is else like it, and
/// what came of it.
#[derive(Clone, Copy)]
enum ShortHandled {
    /// The token, which fired this.
    Fired(u32, PlainToken, PlainFired),
    /// The token, which entered the context of this element with this serial number.
    Entered(u32, PlainToken, u8, u32),
    /// A read of this cell, which waits.
    Deferred(u32, PlainToken, PlainCell),
    /// A read of this cell, which got this value.
    Answered(u32, PlainToken, PlainCell, Plain),
    /// A write of the token's value to this cell, and where its replies stand: from where on, and how many.
    Filled(u32, PlainToken, PlainCell, u32, u32),
    /// It stands aside, at this place.
    Aside(usize),
}

impl Model for Handlings {
    ghost use Rattle.std.specs.Prelude.{◌-◌, All, map, vec_capacity, vec_len};
    ghost use Rattle.id_record.specs.ShortHandlings.{IsThere, HandlingsView, handled_of};

    ghost Value = { HandlingsView };

    ghost view = { λ h. record {
      items = map (handled_of h.asides.items) h.shorts.items;
      room = vec_capacity h.shorts - vec_len h.shorts;
      room_aside = vec_capacity h.asides - vec_len h.asides;
    } };

    ghost invariant = { λ h. All (IsThere h.asides.items) h.shorts.items };
}

impl Handlings {
    ghost use Rattle.std.specs.Prelude.{◌≡◌, ◌<◌, ◌≤◌, ◌+◌, ◌++◌, ◌∷◌, [], length, slice_get};
    ghost use Rattle.std.specs.Prelude.{OnOk, Some};

    /// Nothing was handled. Takes no memory.
    pub(crate) fn new(alloc: Global) -> Handlings
        ensures { result ≡ record { items = []; room = 0; room_aside = 0 } }
    {
        Handlings {
            shorts: Vec::new(alloc),
            asides: Vec::new(alloc),
        }
    }

    /// What was handled at a position, from 0. Takes no memory.
    #[inline(always)]
    pub(crate) fn handled(&self, position: usize) -> Handled
        requires { position < length self.now.items }
        ensures { slice_get self.now.items position ≡ Some result }
    {
        let short = self.shorts[position];
        handled_of(self.asides.as_slice(), short)
    }

    /// Makes room for so many more.
    pub(crate) fn reserve(&mut self, count: usize) -> Result<(), AllocError>
        ensures items { self.new.items ≡ self.old.items }
        ensures room { OnOk result (count ≤ self.new.room) }
        ensures room_aside { OnOk result (count ≤ self.new.room_aside) }
    {
        widen(&mut self.shorts, count)?;
        widen(&mut self.asides, count)
    }

    /// Adds what was handled. Takes no memory.
    pub(crate) fn push_reserved(&mut self, event: &Handled)
        requires room { 0 < self.old.room }
        requires room_aside { 0 < self.old.room_aside }
        ensures items { self.new.items ≡ self.old.items ++ event.now ∷ [] }
        ensures room { self.old.room ≤ self.new.room + 1 }
        ensures room_aside { self.old.room_aside ≤ self.new.room_aside + 1 }
    {
        let short = short_for(&mut self.asides, event);
        self.shorts.push_reserved(short);
    }
}

/// What was handled, in short: where its numbers are not small, or something failed, it goes aside.
fn short_for(asides: &mut Vec<Handled>, event: &Handled) -> ShortHandled
    requires { vec_len asides.old < vec_capacity asides.old }
    ensures is { handled_of asides.new.items result ≡ event.now }
    ensures within { IsThere asides.new.items result }
    ensures others { (s : ShortHandled) → IsThere asides.old.items s →
        IsThere asides.new.items s × (handled_of asides.new.items s ≡ handled_of asides.old.items s) }
    ensures room { vec_len asides.new ≤ vec_len asides.old + 1 }
    ensures capacity { vec_capacity asides.new ≡ vec_capacity asides.old }
{
    match shortened(event) {
        Some(short) => short,
        None => {
            let place = asides.len();
            asides.push_reserved(*event);
            ShortHandled::Aside(place)
        }
    }
}

/// What was handled, in short, where it went well and its numbers are small.
fn shortened(event: &Handled) -> Option<ShortHandled>
    ensures is { IfSome result (λ s. (asides : List Handled) → handled_of asides s ≡ event.now) }
    ensures within { IfSome result (λ s. (asides : List Handled) → IsThere asides s) }
{
    let Verdict::Went = event.reaction.verdict else {
        return None;
    };
    match event.message.payload {
        Payload::Token { tag, port, value } => {
            let token = narrowed(&event.message, tag, port, plain_of(&value)?)?;
            short_token(event, token)
        }
        Payload::Read { cell, reply } => {
            let token = narrowed(&event.message, reply, Port::Zero, Plain::Signal)?;
            short_read(event, token, plain_cell(cell)?)
        }
        Payload::Write {
            cell,
            value,
            origin,
        } => {
            let token = narrowed(&event.message, origin, Port::Zero, plain_of(&value)?)?;
            short_write(event, token, plain_cell(cell)?)
        }
    }
}

/// The event of this token in short.
fn short_token(event: &Handled, token: PlainToken) -> Option<ShortHandled>
    requires went { event.now.reaction.verdict ≡ Went }
    requires token { message_of token ≡ event.now.message }
    ensures is { IfSome result (λ s. (asides : List Handled) → handled_of asides s ≡ event.now) }
    ensures within { IfSome result (λ s. (asides : List Handled) → IsThere asides s) }
{
    if !is_none(event.replies) {
        return None;
    }
    let stamp = small(event.stamp)?;
    match event.reaction.fired {
        Fired::Entered(context) => Some(ShortHandled::Entered(
            stamp,
            token,
            tiny(context.element)?,
            small(context.serial)?,
        )),
        fired => Some(ShortHandled::Fired(stamp, token, plain_fired(token.tag(), fired)?)),
    }
}

/// The event of a read of this cell for the token's tag in short.
fn short_read(event: &Handled, token: PlainToken, cell: PlainCell) -> Option<ShortHandled>
    requires went { event.now.reaction.verdict ≡ Went }
    requires token { record (message_of token) { payload = read_by token cell } ≡ event.now.message }
    ensures is { IfSome result (λ s. (asides : List Handled) → handled_of asides s ≡ event.now) }
    ensures within { IfSome result (λ s. (asides : List Handled) → IsThere asides s) }
{
    if !is_none(event.replies) {
        return None;
    }
    let stamp = small(event.stamp)?;
    match event.reaction.fired {
        Fired::Nothing => Some(ShortHandled::Deferred(stamp, token, cell)),
        Fired::Sent(target, value) => {
            if target == token.tag() {
                Some(ShortHandled::Answered(stamp, token, cell, plain_of(&value)?))
            } else {
                None
            }
        }
        _ => None,
    }
}

/// The event of a write of the token's value to this cell in short.
fn short_write(event: &Handled, token: PlainToken, cell: PlainCell) -> Option<ShortHandled>
    requires went { event.now.reaction.verdict ≡ Went }
    requires token { record (message_of token) { payload = written_by token cell } ≡ event.now.message }
    ensures is { IfSome result (λ s. (asides : List Handled) → handled_of asides s ≡ event.now) }
    ensures within { IfSome result (λ s. (asides : List Handled) → IsThere asides s) }
{
    let Fired::Nothing = event.reaction.fired else {
        return None;
    };
    Some(ShortHandled::Filled(
        small(event.stamp)?,
        token,
        cell,
        small(event.replies.from as u64)?,
        small(event.replies.count as u64)?,
    ))
}

/// Whether these are the replies of an event that has none.
fn is_none(replies: Replies) -> bool
    ensures { IsTrue result → replies ≡ no_replies }
{
    replies.from == 0 && replies.count == 0
}

/// What was fired on operands of this tag, in small numbers.
fn plain_fired(tag: Tag, fired: Fired) -> Option<PlainFired>
    ensures { IfSome result (λ p. fired_of tag p ≡ fired) }
{
    match fired {
        Fired::Nothing => Some(PlainFired::Nothing),
        Fired::Out(value) => Some(PlainFired::Out(plain_of(&value)?)),
        Fired::Side(side, value) => Some(PlainFired::Side(side, plain_of(&value)?)),
        Fired::Moved(iteration, value) => {
            Some(PlainFired::Moved(small(iteration)?, plain_of(&value)?))
        }
        Fired::Sent(target, value) => {
            Some(PlainFired::Sent(short_tag(target)?, plain_of(&value)?))
        }
        Fired::Asked { cell, reply } if reply == moved(tag, reply.instr) => {
            Some(PlainFired::Asked(plain_cell(cell)?, reply.instr))
        }
        Fired::Stored {
            cell,
            value,
            origin,
        } if origin == tag => Some(PlainFired::Stored(plain_cell(cell)?, plain_of(&value)?)),
        _ => None,
    }
}

/// The tag of another instruction, under the same context and iteration.
fn moved(tag: Tag, instr: u32) -> Tag
    ensures { result ≡ beside tag instr }
{
    Tag { instr, ..tag }
}

/// The tag in small numbers.
fn short_tag(tag: Tag) -> Option<Target>
    ensures { IfSome result (λ t. target_tag t ≡ tag) }
{
    Some(Target {
        serial: small(tag.context.serial)?,
        iteration: small(tag.iteration)?,
        instr: tag.instr,
        element: tiny(tag.context.element)?,
    })
}

/// The token of this tag, port and plain value that is else like the message, where the numbers are small.
fn narrowed(message: &Message, tag: Tag, port: Port, value: Plain) -> Option<PlainToken>
    ensures value { IfSome result (λ t. t.value ≡ value) }
    ensures port { IfSome result (λ t. t.port ≡ port) }
    ensures tag { IfSome result (λ t. tag_in t ≡ tag) }
    ensures message { IfSome result (λ t. record (message_of t) { payload = message.now.payload } ≡ message.now) }
{
    let Sender::Element(sender) = message.sender else {
        return None;
    };
    Some(PlainToken {
        value,
        serial: small(tag.context.serial)?,
        iteration: small(tag.iteration)?,
        instr: tag.instr,
        position: small(message.position as u64)?,
        stamp: small(message.stamp)?,
        element: tiny(tag.context.element)?,
        sender: tiny(sender)?,
        output: tiny(small(message.output as u64)?)?,
        port,
    })
}

/// What was handled, with these that stand aside.
#[inline(always)]
fn handled_of(asides: &[Handled], short: ShortHandled) -> Handled
    requires { IsThere asides.now short }
    ensures { result ≡ handled_of asides.now short }
{
    match short {
        ShortHandled::Fired(stamp, token, fired) => {
            let fired = fired.fired(token.tag());
            near_handled(stamp, &token, token.message().payload, fired, NO_REPLIES)
        }
        ShortHandled::Entered(stamp, token, element, serial) => {
            let fired = Fired::Entered(context_by(element, serial));
            near_handled(stamp, &token, token.message().payload, fired, NO_REPLIES)
        }
        ShortHandled::Deferred(stamp, token, cell) => {
            near_handled(
                stamp,
                &token,
                read(&token, cell),
                Fired::Nothing,
                NO_REPLIES,
            )
        }
        ShortHandled::Answered(stamp, token, cell, value) => {
            let fired = Fired::Sent(token.tag(), value.value());
            near_handled(stamp, &token, read(&token, cell), fired, NO_REPLIES)
        }
        ShortHandled::Filled(stamp, token, cell, from, count) => {
            let replies = Replies {
                from: from as usize,
                count: count as usize,
            };
            near_handled(stamp, &token, write(&token, cell), Fired::Nothing, replies)
        }
        ShortHandled::Aside(place) => asides[place],
    }
}

/// A read of this cell for the token's tag.
#[inline(always)]
fn read(token: &PlainToken, cell: PlainCell) -> Payload
    ensures { result ≡ read_by token.now cell }
{
    Payload::Read {
        cell: cell.cell(),
        reply: token.tag(),
    }
}

/// A write of the token's value to this cell.
#[inline(always)]
fn write(token: &PlainToken, cell: PlainCell) -> Payload
    ensures { result ≡ written_by token.now cell }
{
    Payload::Write {
        cell: cell.cell(),
        value: token.value.value(),
        origin: token.tag(),
    }
}

/// The event at this stamp of a message that says this and is else like the token, where this was fired.
#[inline(always)]
fn near_handled(
    stamp: u32,
    token: &PlainToken,
    payload: Payload,
    fired: Fired,
    replies: Replies,
) -> Handled
    ensures { result ≡ near_handled stamp token.now payload fired replies }
{
    Handled {
        message: Message {
            payload,
            ..token.message()
        },
        stamp: u64::from(stamp),
        reaction: went(fired),
        replies,
    }
}

const _: () = prove!(size_of::<ShortHandled>() == 88);
