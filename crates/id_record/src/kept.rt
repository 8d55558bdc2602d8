//! What a record keeps of its events: what they tell, always; the rest as far as it is asked for.

ghost use Rattle.std.specs.Prelude.{◌≡◌, ◌<◌, ◌≤◌, ◌+◌, ◌-◌, ◌||◌, ◌++◌, ◌∷◌, []};
ghost use Rattle.std.specs.Prelude.{if◌then◌else◌};
ghost use Rattle.std.specs.Prelude.{IsTrue, OnOk, vec_capacity, vec_len};
ghost use Rattle.std.specs.List.{cons_option};
ghost use Rattle.std.specs.Option.{option_or};
ghost use Rattle.id_record.specs.Kept.{keeps_all, keeps_names, merged_by};
ghost use Rattle.id_record.specs.Tellings.{fault_in, merged_in, told_in};

use crate::handled::Handled;
use crate::handlings::Handlings;
use crate::room::widen;
use crate::step::{Step, full_step};
use crate::telling::{Faulted, Telling, came_in, fault_in, is_merged, is_stuck, made_in};
use crate::tellings::Tellings;
use id_instr::Graph;
use id_tag::{Payload, Tag};
use std::alloc::{AllocError, Global};
use std::marker::Model;

/// How much of its events a record keeps.
#[derive(Clone, Copy, Debug, PartialEq, Eq)]
pub enum Keeps {
    /// What they tell of contexts, of structures and of the answer, and the first fault.
    Tellings,
    /// That, and what came to merges, which are the labels of names.
    Names,
    /// That, and all events.
    All,
}

impl Keeps {
    ghost use Rattle.std.specs.Prelude.{◌≡◌};
    ghost use Rattle.id_record.specs.Kept.{keeps_all, keeps_names};

    /// Whether all events are kept. Takes no memory.
    #[inline(always)]
    pub fn all(self) -> bool
        ensures { result ≡ keeps_all self }
    {
        matches!(self, Keeps::All)
    }

    /// Whether what came to merges is kept. Takes no memory.
    #[inline(always)]
    pub fn names(self) -> bool
        ensures { result ≡ keeps_names self }
    {
        matches!(self, Keeps::Names | Keeps::All)
    }
}

/// What is kept of events.
#[derive(Drop)]
pub struct Kept {
    keeps: Keeps,
    // How many events there are, and how many there may be until room is made again.
    len: usize,
    end: usize,
    // How many replies they have, and how many more may come until room is made again.
    replied: usize,
    spare: usize,
    tellings: Tellings,
    merged: Vec<Payload>,
    events: Handlings,
    replies: Vec<Tag>,
    fault: Option<Faulted>,
    stuck: bool,
}

/// For so many events more room is made at once.
const MANY: usize = 32;

impl Model for Kept {
    ghost use Rattle.std.specs.Prelude.{◌≡◌, ◌≤◌, ◌<◌, ◌+◌, ◌-◌, ◌*◌, ◌^◌};
    ghost use Rattle.std.specs.Prelude.{true, vec_len, vec_capacity};
    ghost use Rattle.id_record.specs.Kept.{KeptView, keeps_all, keeps_names};

    ghost Value = { KeptView };

    ghost view = { λ k. record {
      keeps = k.keeps;
      len = k.len;
      room = k.end - k.len;
      replied = k.replied;
      room_for_replies = k.spare;
      tellings = k.tellings.items;
      merged = k.merged.items;
      events = k.events.items;
      replies = k.replies.items;
      fault = k.fault;
      stuck = k.stuck;
    } };

    ghost invariant = { λ k. (k.len ≤ k.end)
        × (k.replied + k.spare < 2 ^ 64)
        × (2 * (k.end - k.len) ≤ k.tellings.room) × (2 * (k.end - k.len) ≤ k.tellings.room_aside)
        × (keeps_names k.keeps ≡ true → vec_len k.merged + (k.end - k.len) ≤ vec_capacity k.merged)
        × (keeps_all k.keeps ≡ true → k.end - k.len ≤ k.events.room)
        × (keeps_all k.keeps ≡ true → k.end - k.len ≤ k.events.room_aside)
        × (keeps_all k.keeps ≡ true → vec_len k.replies + k.spare ≤ vec_capacity k.replies) };
}

impl Kept {
    ghost use Rattle.std.specs.Prelude.{◌≡◌, ◌<◌, ◌≤◌, ◌+◌, ◌-◌, [], None, Some};
    ghost use Rattle.std.specs.Prelude.{false, OnOk, length, slice_get};
    ghost use Rattle.id_record.specs.Kept.{noted, replied};

    /// Nothing of no event, of which so much will be kept. Takes no memory.
    pub fn new(alloc: Global, keeps: Keeps) -> Kept
        ensures { result ≡ record {
          keeps = keeps;
          len = 0;
          room = 0;
          replied = 0;
          room_for_replies = 0;
          tellings = [];
          merged = [];
          events = [];
          replies = [];
          fault = None;
          stuck = false;
        } }
    {
        Kept {
            keeps,
            len: 0,
            end: 0,
            replied: 0,
            spare: 0,
            tellings: Tellings::new(alloc),
            merged: Vec::new(alloc),
            events: Handlings::new(alloc),
            replies: Vec::new(alloc),
            fault: None,
            stuck: false,
        }
    }

    /// Makes room for one more event.
    #[inline(always)]
    pub fn reserve(&mut self) -> Result<(), AllocError>
        ensures same { self.new ≡ record self.old { room = self.new.room } }
        ensures room { OnOk result (0 < self.new.room) }
    {
        if self.len == self.end {
            self.make_room()?;
        }
        Ok(())
    }

    /// The same where there is none.
    #[inline(never)]
    fn make_room(&mut self) -> Result<(), AllocError>
        requires { self.old.room ≡ 0 }
        ensures same { self.new ≡ record self.old { room = self.new.room } }
        ensures room { OnOk result (0 < self.new.room) }
    {
        let Some(end) = self.len.checked_add(MANY) else {
            return Err(AllocError);
        };
        make_room(
            self.keeps,
            &mut self.tellings,
            &mut self.merged,
            &mut self.events,
        )?;
        self.end = end;
        Ok(())
    }

    /// Makes room for so many replies.
    pub fn reserve_replies(&mut self, count: usize) -> Result<(), AllocError>
        ensures same { self.new ≡ record self.old { room_for_replies = self.new.room_for_replies } }
        ensures room { OnOk result (count ≤ self.new.room_for_replies) }
    {
        if count <= self.spare {
            return Ok(());
        }
        if self.replied.checked_add(count).is_none() {
            return Err(AllocError);
        }
        self.spare = 0;
        make_room_for_replies(self.keeps, &mut self.replies, count)?;
        self.spare = count;
        Ok(())
    }

    /// Counts an event of which nothing is kept. Takes no memory.
    #[inline(always)]
    pub fn pass(&mut self)
        requires { 0 < self.old.room }
        ensures { self.new ≡ record self.old { len = self.old.len + 1; room = self.old.room - 1 } }
    {
        self.len += 1;
    }

    /// Counts an event, and keeps of it what is to be kept. Takes no memory.
    #[inline(never)]
    pub fn note(&mut self, graph: &Graph, event: &Handled)
        requires { 0 < self.old.room }
        ensures { self.new ≡ noted graph.now self.old event.now }
    {
        let step = full_step(&event.message.payload, event.reaction.verdict);
        keep_told(&mut self.tellings, event);
        keep_merged(self.keeps, &mut self.merged, graph, &event.message.payload);
        keep_event(self.keeps, &mut self.events, event);
        self.fault = first_of(self.fault, event.stamp, step);
        self.stuck = self.stuck || is_stuck(step);
        self.len += 1;
    }

    /// Counts a reply of the next event, and keeps it where all events are kept. Takes no memory.
    pub fn add_reply(&mut self, reply: Tag)
        requires { 0 < self.old.room_for_replies }
        ensures { self.new ≡ replied self.old reply }
    {
        if self.keeps.all() {
            self.replies.push_reserved(reply);
        }
        self.replied += 1;
        self.spare -= 1;
    }

    /// How much is kept. Takes no memory.
    #[inline(always)]
    pub fn keeps(&self) -> Keeps
        ensures { result ≡ self.now.keeps }
    {
        self.keeps
    }

    /// How many events there are. Takes no memory.
    #[inline(always)]
    pub fn len(&self) -> usize
        ensures { result ≡ self.now.len }
    {
        self.len
    }

    /// How many replies they have. Takes no memory.
    pub fn count_replies(&self) -> usize
        ensures { result ≡ self.now.replied }
    {
        self.replied
    }

    /// What they tell. Takes no memory.
    pub fn tellings(&self) -> &Tellings
        ensures { result.now.items ≡ self.now.tellings }
    {
        &self.tellings
    }

    /// What came to merges. Takes no memory.
    pub fn merged(&self) -> &[Payload]
        ensures { result.now ≡ self.now.merged }
    {
        self.merged.as_slice()
    }

    /// The event at a position, of those that are kept. Takes no memory.
    #[inline(always)]
    pub fn event(&self, position: usize) -> Handled
        requires { position < length self.now.events }
        ensures { slice_get self.now.events position ≡ Some result }
    {
        self.events.handled(position)
    }

    /// Their replies. Takes no memory.
    pub fn replies(&self) -> &[Tag]
        ensures { result.now ≡ self.now.replies }
    {
        self.replies.as_slice()
    }

    /// The first fault. Takes no memory.
    pub fn fault(&self) -> Option<Faulted>
        ensures { result ≡ self.now.fault }
    {
        self.fault
    }

    /// Whether an event came to `Stuck`. Takes no memory.
    pub fn stuck(&self) -> bool
        ensures { result ≡ self.now.stuck }
    {
        self.stuck
    }
}

/// Makes room in these for what is to be kept of more events.
fn make_room(
    keeps: Keeps,
    tellings: &mut Tellings,
    merged: &mut Vec<Payload>,
    events: &mut Handlings,
) -> Result<(), AllocError>
    ensures told { tellings.new.items ≡ tellings.old.items }
    ensures merged { merged.new.items ≡ merged.old.items }
    ensures events { events.new.items ≡ events.old.items }
    ensures room_told { OnOk result (64 ≤ tellings.new.room) }
    ensures room_aside { OnOk result (64 ≤ tellings.new.room_aside) }
    ensures room_merged { OnOk result
        (IsTrue (keeps_names keeps) → vec_len merged.new + 32 ≤ vec_capacity merged.new) }
    ensures room_events { OnOk result
        (IsTrue (keeps_all keeps) → 32 ≤ events.new.room) }
    ensures room_events_aside { OnOk result
        (IsTrue (keeps_all keeps) → 32 ≤ events.new.room_aside) }
{
    tellings.reserve(2 * MANY)?;
    reserve_if(keeps.names(), merged, MANY)?;
    if keeps.all() {
        events.reserve(MANY)
    } else {
        Ok(())
    }
}

/// Makes room for so many more, where they are kept.
fn reserve_if<T: Drop>(kept: bool, list: &mut Vec<T>, count: usize) -> Result<(), AllocError>
    ensures same { list.new.items ≡ list.old.items }
    ensures room { OnOk result (IsTrue kept → vec_len list.new + count ≤ vec_capacity list.new) }
{
    if kept { widen(list, count) } else { Ok(()) }
}

/// Makes room for so many replies, where they are kept.
fn make_room_for_replies(
    keeps: Keeps,
    replies: &mut Vec<Tag>,
    count: usize,
) -> Result<(), AllocError>
    ensures same { replies.new.items ≡ replies.old.items }
    ensures room { OnOk result
        (IsTrue (keeps_all keeps) → vec_len replies.new + count ≤ vec_capacity replies.new) }
{
    reserve_if(keeps.all(), replies, count)
}

/// Keeps what an event tells. Takes no memory.
fn keep_told(tellings: &mut Tellings, event: &Handled)
    requires room { 2 ≤ tellings.old.room }
    requires room_aside { 2 ≤ tellings.old.room_aside }
    ensures items { tellings.new.items
        ≡ tellings.old.items ++ told_in event.now.message.payload event.now.reaction.fired }
    ensures room { tellings.old.room ≤ tellings.new.room + 2 }
    ensures room_aside { tellings.old.room_aside ≤ tellings.new.room_aside + 2 }
{
    add(tellings, came_in(&event.message.payload));
    add(
        tellings,
        made_in(&event.message.payload, &event.reaction.fired),
    );
}

/// Adds what is told, if something is. Takes no memory.
fn add(tellings: &mut Tellings, telling: Option<Telling>)
    requires room { 1 ≤ tellings.old.room }
    requires room_aside { 1 ≤ tellings.old.room_aside }
    ensures items { tellings.new.items ≡ tellings.old.items ++ cons_option telling [] }
    ensures room { tellings.old.room ≤ tellings.new.room + 1 }
    ensures room_aside { tellings.old.room_aside ≤ tellings.new.room_aside + 1 }
{
    if let Some(telling) = telling {
        tellings.push_reserved(telling);
    }
}

/// Keeps what came to a merge, where that is asked for. Takes no memory.
fn keep_merged(keeps: Keeps, merged: &mut Vec<Payload>, graph: &Graph, payload: &Payload)
    requires { IsTrue (keeps_names keeps) → vec_len merged.old + 1 ≤ vec_capacity merged.old }
    ensures items { merged.new.items ≡ merged.old.items ++ merged_by graph.now keeps payload.now }
    ensures len { vec_len merged.new ≤ vec_len merged.old + 1 }
    ensures capacity { vec_capacity merged.new ≡ vec_capacity merged.old }
{
    if keeps.names() && is_merged(graph, payload) {
        merged.push_reserved(*payload);
    }
}

/// Keeps an event, where all are kept. Takes no memory.
fn keep_event(keeps: Keeps, events: &mut Handlings, event: &Handled)
    requires room { IsTrue (keeps_all keeps) → 1 ≤ events.old.room }
    requires room_aside { IsTrue (keeps_all keeps) → 1 ≤ events.old.room_aside }
    ensures items { events.new.items
        ≡ (if keeps_all keeps then events.old.items ++ event.now ∷ [] else events.old.items) }
    ensures room { events.old.room ≤ events.new.room + 1 }
    ensures room_aside { events.old.room_aside ≤ events.new.room_aside + 1 }
{
    if keeps.all() {
        events.push_reserved(event);
    }
}

/// The first fault, where one more event came to this.
fn first_of(fault: Option<Faulted>, stamp: u64, step: Step) -> Option<Faulted>
    ensures { result ≡ option_or fault (fault_in stamp step) }
{
    match fault {
        Some(_) => fault,
        None => fault_in(stamp, step),
    }
}
