//! The list of messages in flight, each in a parcel of 64 bytes.

ghost use Rattle.std.specs.Prelude.{◌≡◌, ◌<◌, ◌≤◌, ◌+◌, vec_capacity, vec_len};
ghost use Rattle.id_flight.specs.declared.parcel.Parcel.{Parcel};
ghost use Rattle.id_flight.specs.Parcels.{IsWithin, unpacked};

use crate::access::Access;
use crate::buffer::Buffer;
use crate::parcel::{
    Parcel, access_in, context_in, packed, packed_plain, packed_read, packed_write, parcel_aside,
    plain_in, unpack,
};
use id_tag::{Context, Message, Plain, PlainCell, PlainToken};
use std::alloc::{AllocError, Global};
use std::marker::Model;

/// Room aside is asked for as many messages as there is room for in the row, but for so many at the most, since both
/// lists are asked again where one has none left.
const MANY: usize = 128;

/// Messages in the order in which they were sent, in 64 bytes each, but for the few whose numbers don't fit: those
/// stand aside until the queue is empty. A message leaves at any position.
#[derive(Drop)]
pub struct Queue {
    parcels: Buffer,
    asides: Vec<Message>,
    // For how many messages more both lists have room, when they were last asked: so an event asks one number.
    room: usize,
}

impl Model for Queue {
    ghost use Rattle.std.specs.Prelude.{◌≤◌, ◌+◌, All, map, vec_capacity, vec_len};
    ghost use Rattle.id_flight.specs.Parcels.{IsWithin, unpacked};
    ghost use Rattle.id_flight.specs.Queues.{QueueView};

    ghost Value = { QueueView };

    ghost view = { λ q. record {
      messages = map (unpacked q.asides.items) q.parcels.items;
      room = q.room;
    } };

    ghost invariant = { λ q. All (IsWithin q.asides.items) q.parcels.items
        × (q.room ≤ q.parcels.room) × (q.room + vec_len q.asides ≤ vec_capacity q.asides) };
}

impl Queue {
    ghost use Rattle.std.specs.Prelude.{◌≡◌, ◌<◌, ◌≤◌, ◌+◌, ◌^◌, ◌==◌, ◌++◌, ◌∷◌};
    ghost use Rattle.std.specs.Prelude.{◌↔◌, []};
    ghost use Rattle.std.specs.Prelude.{length, slice_get, MatchOption, Some};
    ghost use Rattle.std.specs.List.{remove};
    ghost use Rattle.id_flight.specs.Queues.{AreOthers, IsFirstOf, context_at};
    ghost use Rattle.std.specs.Prelude.{option_to_list, IfOk, IfSome, IsSome, OnErr, OnOk};
    ghost use Rattle.id_flight.specs.Accesses.{accessed};
    ghost use Rattle.id_tag.specs.Plains.{cell_of, message_of, tag_in, whole};
    ghost use Rattle.id_tag.specs.declared.Payload.TheVariants.{Read, Write};

    /// The empty queue. Takes no memory.
    pub fn new(alloc: Global) -> Queue
        ensures { result.messages ≡ [] }
    {
        Queue {
            parcels: Buffer::new(alloc),
            asides: Vec::new(alloc),
            room: 0,
        }
    }

    /// How many messages there are. Takes no memory.
    #[inline(always)]
    pub fn len(&self) -> usize
        ensures { result ≡ length self.now.messages }
    {
        self.parcels.len()
    }

    /// Whether there is none. Takes no memory.
    #[inline(always)]
    pub fn is_empty(&self) -> bool
        ensures { result ≡ (length self.now.messages == 0) }
    {
        self.parcels.len() == 0
    }

    /// The message at a position, from 0. Takes no memory.
    #[inline(always)]
    pub fn message(&self, position: usize) -> Message
        requires { position < length self.now.messages }
        ensures { slice_get self.now.messages position ≡ Some result }
    {
        let parcel = self.parcels.at(position);
        unpack(self.asides.as_slice(), parcel)
    }

    /// The plain token at a position, from 0, where it stands, if one is kept there so. Takes no memory.
    #[inline(always)]
    pub fn token(&self, position: usize) -> Option<&PlainToken>
        requires { position < length self.now.messages }
        ensures { IfSome result (λ t. slice_get self.now.messages position ≡ Some (message_of t.now)) }
    {
        plain_in(self.parcels.at(position))
    }

    /// The read or the write of a cell at a position, from 0, if one is kept there in short. Takes no memory.
    #[inline(always)]
    pub fn access(&self, position: usize) -> Option<Access>
        requires { position < length self.now.messages }
        ensures { IfSome result (λ d. slice_get self.now.messages position ≡ Some (accessed d)) }
    {
        access_in(self.parcels.at(position))
    }

    /// The context of the message at a position, from 0. Takes no memory.
    #[inline(always)]
    pub fn context(&self, position: usize) -> Context
        requires { position < length self.now.messages }
        ensures { context_at self.now.messages position ≡ Some result }
    {
        let parcel = self.parcels.at(position);
        context_in(self.asides.as_slice(), parcel)
    }

    /// The first position from this one on whose message is of this context, if there is one. Takes no memory.
    #[inline(always)]
    pub fn first_of(&self, from: usize, context: Context) -> Option<usize>
        requires { from ≤ length self.now.messages }
        ensures { MatchOption result (AreOthers self.now.messages from (length self.now.messages) (Some context))
            (IsFirstOf context self.now.messages from) }
    {
        // Most often it is the very next.
        if from < self.len() && self.context(from) == context {
            return Some(from);
        }
        self.first_behind(from, context)
    }

    /// The same where it may be any.
    #[inline(never)]
    fn first_behind(&self, from: usize, context: Context) -> Option<usize>
        requires { from ≤ length self.now.messages }
        ensures { MatchOption result (AreOthers self.now.messages from (length self.now.messages) (Some context))
            (IsFirstOf context self.now.messages from) }
    {
        for position in from..self.len() {
            if self.context(position) == context {
                return Some(position);
            }
        }
        None
    }

    /// For how many messages more there is room, at least. Takes no memory.
    #[inline(always)]
    pub fn room(&self) -> usize
        ensures { result ≡ self.now.room }
    {
        self.room
    }

    /// Makes room for so many messages more.
    #[inline(always)]
    pub fn reserve(&mut self, more: usize) -> Result<(), AllocError>
        ensures messages { self.new.messages ≡ self.old.messages }
        ensures room { OnOk result (more ≤ self.new.room) }
    {
        // Asked here first, so that the lists' growth is not inlined.
        if self.room < more {
            self.widen(more)?;
        }
        Ok(())
    }

    /// The same where it is missing.
    #[inline(never)]
    fn widen(&mut self, more: usize) -> Result<(), AllocError>
        ensures messages { self.new.messages ≡ self.old.messages }
        ensures room { OnOk result (more ≤ self.new.room) }
    {
        self.room = 0;
        self.parcels.reserve(more)?;
        let room = self.parcels.room();
        self.asides.reserve(more.max(room.min(MANY)))?;
        self.room = room.min(self.asides.capacity() - self.asides.len());
        Ok(())
    }

    /// Adds a message at the end.
    pub fn push_back(&mut self, message: Message) -> Result<(), AllocError>
        ensures messages { OnOk result (self.new.messages ≡ self.old.messages ++ message ∷ []) }
        ensures err { OnErr result (self.new.messages ≡ self.old.messages) }
    {
        self.reserve(1)?;
        self.push_back_reserved(message);
        Ok(())
    }

    /// Adds a message at the end, for which there is room. Takes no memory.
    #[inline(always)]
    pub fn push_back_reserved(&mut self, message: Message)
        requires { 0 < self.old.room }
        ensures messages { self.new.messages ≡ self.old.messages ++ message ∷ [] }
        ensures room { self.old.room ≤ self.new.room + 1 }
    {
        self.room -= 1;
        let parcel = parcel_for(&mut self.asides, message);
        self.parcels.push_back_reserved(parcel);
    }

    /// Adds a plain token at the end, for which there is room. Takes no memory.
    #[inline(always)]
    pub fn push_plain_reserved(&mut self, token: &PlainToken)
        requires { 0 < self.old.room }
        ensures messages { self.new.messages ≡ self.old.messages ++ message_of token.now ∷ [] }
        ensures room { self.old.room ≤ self.new.room + 1 }
    {
        self.room -= 1;
        self.parcels.push_back_reserved(packed_plain(token));
    }

    /// Adds a read of a cell at the end, whose reply is to go to this token's tag, and which is else like it. There is
    /// room for it. Takes no memory.
    #[inline(always)]
    pub fn push_read_reserved(&mut self, like: &PlainToken, cell: PlainCell)
        requires { 0 < self.old.room }
        ensures messages { self.new.messages ≡ self.old.messages ++ record (message_of like.now) {
          payload = Read (cell_of cell) (tag_in like.now);
        } ∷ [] }
        ensures room { self.old.room ≤ self.new.room + 1 }
    {
        self.room -= 1;
        self.parcels.push_back_reserved(packed_read(like, cell));
    }

    /// Adds a write of a value to a cell at the end, from the store of this token's tag, and else like it. There is
    /// room for it. Takes no memory.
    #[inline(always)]
    pub fn push_write_reserved(&mut self, like: &PlainToken, cell: PlainCell, value: Plain)
        requires { 0 < self.old.room }
        ensures messages { self.new.messages ≡ self.old.messages ++ record (message_of like.now) {
          payload = Write (cell_of cell) (whole value) (tag_in like.now);
        } ∷ [] }
        ensures room { self.old.room ≤ self.new.room + 1 }
    {
        self.room -= 1;
        self.parcels
            .push_back_reserved(packed_write(like, cell, value));
    }

    /// Makes ready for the message at a position to be removed in short time, which moves no message: those that are
    /// removed at positions that rise are moved once each, however many there are.
    #[inline(always)]
    pub fn open(&mut self, position: usize) -> Result<(), AllocError>
        requires { position < length self.old.messages }
        ensures { self.new.messages ≡ self.old.messages }
    {
        if self.parcels.is_open_at(position) {
            return Ok(());
        }
        self.room = 0;
        self.parcels.move_to(position)
    }

    /// Removes the message at a position, from 0: the list closes up. Takes no memory.
    #[inline(always)]
    pub fn remove(&mut self, position: usize)
        requires { position < length self.old.messages }
        ensures messages { self.new.messages ≡ remove self.old.messages position }
        ensures room { self.old.room ≤ self.new.room }
    {
        if self.parcels.remove(position) {
            self.asides.clear();
        }
    }

    /// Takes out the first message, if there is one. Takes no memory.
    pub fn pop_front(&mut self) -> Option<Message>
        ensures messages { self.old.messages ≡ option_to_list result ++ self.new.messages }
        ensures variant { IsSome result ↔ (0 < length self.old.messages) }
    {
        let parcel = self.parcels.pop_front()?;
        let message = unpack(self.asides.as_slice(), &parcel);
        if self.parcels.len() == 0 {
            self.asides.clear();
        }
        Some(message)
    }

    /// Takes out the last message, if there is one. Takes no memory.
    #[inline(always)]
    pub fn pop_back(&mut self) -> Option<Message>
        ensures messages { self.old.messages ≡ self.new.messages ++ option_to_list result }
        ensures variant { IsSome result ↔ (0 < length self.old.messages) }
    {
        let parcel = self.parcels.pop_back()?;
        let message = unpack(self.asides.as_slice(), &parcel);
        if self.parcels.len() == 0 {
            self.asides.clear();
        }
        Some(message)
    }
}

/// A parcel for the message, which stands aside where it does not fit. Takes no memory.
#[inline(always)]
fn parcel_for(asides: &mut Vec<Message>, message: Message) -> Parcel
    requires { vec_len asides.old < vec_capacity asides.old }
    ensures is { unpacked asides.new.items result ≡ message }
    ensures within { IsWithin asides.new.items result }
    ensures others { (p : Parcel) → IsWithin asides.old.items p →
        IsWithin asides.new.items p × (unpacked asides.new.items p ≡ unpacked asides.old.items p) }
    ensures room { vec_len asides.new ≤ vec_len asides.old + 1 }
    ensures capacity { vec_capacity asides.new ≡ vec_capacity asides.old }
{
    match packed(&message) {
        Some(parcel) => parcel,
        None => {
            let index = asides.len();
            asides.push_reserved(message);
            parcel_aside(index)
        }
    }
}
