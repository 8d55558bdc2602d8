//! The record of an element, seen as a list of events.

ghost use Rattle.std.specs.Prelude.{◌≡◌};
ghost use Rattle.id_ops.specs.Operators.{side_of};
ghost use Rattle.id_record.specs.Handlings.{AreThere};
ghost use Rattle.id_record.specs.Records.{dests_at, replies_in};
ghost use Rattle.id_valid.specs.Roles.{op_at};
ghost use Rattle.id_instr.specs.Graph.{IsGraph};

use crate::cell_event::{CellEvent, cell_handled};
use crate::handled::{Handled, Handling, Replies, whole};
use crate::kept::{Keeps, Kept};
use crate::outputs::{Envelope, Outputs, chosen};
use crate::past::History;
use crate::payload::{tag_of, value_of};
use crate::plain_firing::{PlainFiring, plain_handled};
use crate::step::{Step, full_step};
use crate::telling::Faulted;
use crate::tellings::Tellings;
use id_instr::{Dest, Graph, Op};
use id_ops::Fired;
use id_tag::{Message, Payload, Tag};
use id_valid::Valid;
use std::alloc::{AllocError, Global};
use std::marker::Model;

/// The events of one element of a graph, in order.
#[derive(Drop)]
pub struct Record<'a> {
    graph: &'a Valid,
    element: u32,
    // All that was handled, and the replies of all events.
    handled: History<Handled>,
    replies: History<Tag>,
    kept: Kept,
}

impl<'a> Model for Record<'a> {
    ghost use Rattle.id_record.specs.Records.{AreKept, RecordView, events_from};

    ghost Value = { RecordView };

    ghost view = { λ r. record {
      element = r.element;
      graph = r.graph.now;
      keeps = r.kept.keeps;
      events = events_from r.graph.now r.element r.replies 0 r.handled;
      replies = r.replies;
      room = r.kept.room;
      room_for_replies = r.kept.room_for_replies;
    } };

    ghost invariant = { λ r. AreKept r.graph.now r.element r.replies r.handled r.kept };
}

/// An event: the element that handled the message, the stamp that it gave it, what it fired and sent, and what
/// it came to.
#[derive(Drop)]
pub struct Event<'a> {
    pub element: u32,
    pub stamp: u64,
    pub message: Message,
    pub fired: Fired,
    pub outputs: Outputs<'a>,
    pub step: Step,
}

/// The events of a record that keeps them all, in order.
#[derive(Drop)]
pub struct Events<'a> {
    record: &'a Record<'a>,
}

impl<'a> Model for Events<'a> {
    ghost use Rattle.std.specs.Prelude.{List, ◌≡◌};
    ghost use Rattle.id_record.specs.Events.{EventView};
    ghost use Rattle.id_record.specs.declared.kept.Keeps.TheVariants.{All};

    ghost Value = { List EventView };

    ghost view = { λ e. e.record.now.events };

    ghost invariant = { λ e. e.record.now.keeps ≡ All };
}

impl<'a> Record<'a> {
    ghost use Rattle.std.specs.Prelude.{◌≡◌, ◌≢◌, ◌<◌, ◌≤◌, ◌+◌, ◌++◌, ◌∷◌, []};
    ghost use Rattle.std.specs.Prelude.{length};
    ghost use Rattle.std.specs.Prelude.{option_map, slice_get, true, Some, OnOk};
    ghost use Rattle.id_record.specs.declared.kept.Keeps.TheVariants as keeps;
    ghost use Rattle.id_record.specs.Handlings.{AreThere, handled};
    ghost use Rattle.id_record.specs.Records.{GoesOn, HasPlace, event_of_handled};
    ghost use Rattle.id_record.specs.PlainFirings.{plain_firing};
    ghost use Rattle.id_record.specs.Tellings.{any_stuck, first_fault, merged, tellings};
    ghost use Rattle.id_record.specs.CellEvents.{cell_event};
    ghost use Rattle.id_ops.specs.PlainFired.{MakesNone};

    /// The empty record of the element of this number, which will keep so much. Takes no memory.
    pub fn new(alloc: Global, element: u32, graph: &'a Valid, keeps: Keeps) -> Record<'a>
        ensures events { result.events ≡ [] }
        ensures element { result.element ≡ element }
        ensures graph { result.graph ≡ graph.now }
        ensures keeps { result.keeps ≡ keeps }
    {
        Record {
            graph,
            element,
            handled: History::new(),
            replies: History::new(),
            kept: Kept::new(alloc, keeps),
        }
    }

    /// Makes room for one more event, and for so many replies.
    #[inline(always)]
    pub fn reserve(&mut self, replies: usize) -> Result<(), AllocError>
        ensures events { self.new.events ≡ self.old.events }
        ensures replies { self.new.replies ≡ self.old.replies }
        ensures element { self.new.element ≡ self.old.element }
        ensures graph { self.new.graph ≡ self.old.graph }
        ensures keeps { self.new.keeps ≡ self.old.keeps }
        ensures room { OnOk result (0 < self.new.room) }
        ensures room_for_replies { OnOk result (replies ≤ self.new.room_for_replies) }
    {
        self.kept.reserve()?;
        if replies > 0 {
            self.kept.reserve_replies(replies)
        } else {
            Ok(())
        }
    }

    /// Adds a reply to those of the next event. Takes no memory.
    pub fn add_reply(&mut self, reply: Tag)
        requires { 0 < self.old.room_for_replies }
        ensures events { self.new.events ≡ self.old.events }
        ensures replies { self.new.replies ≡ self.old.replies ++ reply ∷ [] }
        ensures element { self.new.element ≡ self.old.element }
        ensures graph { self.new.graph ≡ self.old.graph }
        ensures keeps { self.new.keeps ≡ self.old.keeps }
        ensures room { self.new.room ≡ self.old.room }
        ensures room_for_replies { self.new.room_for_replies + 1 ≡ self.old.room_for_replies }
    {
        self.replies.push(&reply);
        self.kept.add_reply(reply);
    }

    /// How many replies there are, of all events. Takes no memory.
    pub fn count_replies(&self) -> usize
        ensures { result ≡ length self.now.replies }
    {
        self.kept.count_replies()
    }

    /// Adds an event at the end. Takes no memory.
    #[inline(always)]
    pub fn push(&mut self, event: Handling<'_>)
        requires room { 0 < self.old.room }
        requires replies { AreThere self.old.replies event.replies }
        ensures { GoesOn self.old (handled event.entry) self.new }
    {
        self.note(&whole(&event));
    }

    /// Adds this event at the end, and keeps of it what is to be kept. Takes no memory.
    #[inline(never)]
    fn note(&mut self, event: &Handled)
        requires place { HasPlace self.old }
        requires replies { AreThere self.old.replies event.now.replies }
        ensures { GoesOn self.old event.now self.new }
    {
        self.handled.push(event);
        self.kept.note(self.graph.graph(), event);
    }

    /// Adds the event of a plain token at the end. Takes no memory.
    #[inline(always)]
    pub fn push_plain(&mut self, event: PlainFiring<'_>)
        requires room { 0 < self.old.room }
        requires makes_none { MakesNone event.fired event.token.now.value }
        ensures { GoesOn self.old (plain_firing event.entry) self.new }
    {
        if self.keeps_little() && event.token.instr != 0 {
            self.handled.push(&plain_handled(&event));
            self.kept.pass();
        } else {
            self.note_plain(event);
        }
    }

    /// The same where something is to be kept of it. Takes no memory.
    #[inline(never)]
    fn note_plain(&mut self, event: PlainFiring<'_>)
        requires { HasPlace self.old }
        ensures { GoesOn self.old (plain_firing event.entry) self.new }
    {
        self.note(&plain_handled(&event));
    }

    /// Adds the event of a read or a write of a cell at the end. Takes no memory.
    #[inline(always)]
    pub fn push_cell_event(&mut self, event: CellEvent<'_>)
        requires room { 0 < self.old.room }
        requires replies { AreThere self.old.replies (cell_event event).replies }
        ensures { GoesOn self.old (cell_event event.entry) self.new }
    {
        if self.keeps_little() {
            self.handled.push(&cell_handled(&event));
            self.kept.pass();
        } else {
            self.note_cell_event(event);
        }
    }

    /// The same where something is to be kept of it. Takes no memory.
    #[inline(never)]
    fn note_cell_event(&mut self, event: CellEvent<'_>)
        requires place { HasPlace self.old }
        requires replies { AreThere self.old.replies (cell_event event).replies }
        ensures { GoesOn self.old (cell_event event.entry) self.new }
    {
        self.note(&cell_handled(&event));
    }

    /// Whether it keeps tellings alone. Takes no memory.
    #[inline(always)]
    fn keeps_little(&self) -> bool
        ensures { result ≡ true → self.now.keeps ≡ keeps.Tellings }
    {
        matches!(self.kept.keeps(), Keeps::Tellings)
    }

    /// The events, in order, of a record that keeps them all. Takes no memory.
    #[inline(always)]
    pub fn events(&self) -> Events<'_>
        requires { self.now.keeps ≡ keeps.All }
        ensures { result ≡ self.now.events }
    {
        Events { record: self }
    }

    /// How much it keeps. Takes no memory.
    #[inline(always)]
    pub fn keeps(&self) -> Keeps
        ensures { result ≡ self.now.keeps }
    {
        self.kept.keeps()
    }

    /// What the events tell, in order. Takes no memory.
    pub fn tellings(&self) -> &Tellings
        ensures { result.now.items ≡ tellings self.now.events }
    {
        self.kept.tellings()
    }

    /// What came to merges for values of the source, in order, where that is kept. Takes no memory.
    pub fn merged(&self) -> &[Payload]
        requires { self.now.keeps ≢ keeps.Tellings }
        ensures { result.now ≡ merged self.now.graph self.now.events }
    {
        self.kept.merged()
    }

    /// The first event that was a fault. Takes no memory.
    pub fn fault(&self) -> Option<Faulted>
        ensures { result ≡ first_fault self.now.events }
    {
        self.kept.fault()
    }

    /// Whether an event came to `Stuck`. Takes no memory.
    pub fn is_stuck(&self) -> bool
        ensures { result ≡ any_stuck self.now.events }
    {
        self.kept.stuck()
    }

    /// The number of the element. Takes no memory.
    pub fn element(&self) -> u32
        ensures { result ≡ self.now.element }
    {
        self.element
    }

    /// The graph. Takes no memory.
    pub fn graph(&self) -> &'a Valid
        ensures { result.now ≡ self.now.graph }
    {
        self.graph
    }

    /// How many events there are. Takes no memory.
    #[inline(always)]
    pub fn len(&self) -> usize
        ensures { result ≡ length self.now.events }
    {
        self.kept.len()
    }

    /// What the message of the event at a position says, where all are kept.
    #[inline(always)]
    fn payload(&self, position: usize) -> Payload
        requires keeps { self.now.keeps ≡ keeps.All }
        requires position { position < length self.now.events }
        ensures { option_map (λ e. e.message.payload) (slice_get self.now.events position) ≡ Some result }
    {
        self.kept.event(position).message.payload
    }

    /// The event at a position, where all are kept.
    #[inline(always)]
    fn event(&self, position: usize) -> Event<'_>
        requires keeps { self.now.keeps ≡ keeps.All }
        requires position { position < length self.now.events }
        ensures { slice_get self.now.events position ≡ Some (record {
          element = result.element;
          stamp = result.stamp;
          message = result.message;
          fired = result.fired;
          outputs = result.outputs;
          step = result.step;
        }) }
    {
        let handled = self.kept.event(position);
        let tag = tag_of(&handled.message.payload);
        let envelope = Envelope {
            number: self.element,
            position,
            stamp: handled.stamp,
        };
        let graph = self.graph.graph();
        Event {
            element: self.element,
            stamp: handled.stamp,
            message: handled.message,
            fired: handled.reaction.fired,
            outputs: Outputs::new(
                op_at(graph, tag.instr),
                dests_at(graph, tag.instr, &handled.reaction.fired),
                tag,
                handled.reaction.fired,
                value_of(&handled.message.payload),
                replies_in(self.kept.replies(), handled.replies),
                envelope,
            ),
            step: full_step(&handled.message.payload, handled.reaction.verdict),
        }
    }
}

impl<'a> Events<'a> {
    ghost use Rattle.std.specs.Prelude.{◌≡◌, ◌<◌, length, option_map, slice_get, Some};

    /// How many events there are. Takes no memory.
    pub fn len(&self) -> usize
        ensures { result ≡ length self.now }
    {
        self.record.len()
    }

    /// What the message of the event at a position says, without the rest of the event. Takes no memory.
    #[inline(always)]
    pub fn payload(&self, position: usize) -> Payload
        requires { position < length self.now }
        ensures { option_map (λ e. e.message.payload) (slice_get self.now position) ≡ Some result }
    {
        self.record.payload(position)
    }

    /// The event at a position, from 0. Takes no memory.
    #[inline(always)]
    pub fn event(&self, position: usize) -> Event<'a>
        requires { position < length self.now }
        ensures { slice_get self.now position ≡ Some (record {
          element = result.element;
          stamp = result.stamp;
          message = result.message;
          fired = result.fired;
          outputs = result.outputs;
          step = result.step;
        }) }
    {
        let held = self.record;
        held.event(position)
    }
}

/// What the instruction of this number does, if there is one.
#[inline(always)]
fn op_at(graph: &Graph, number: u32) -> Option<Op>
    ensures op { result ≡ op_at graph.now number }
    ensures graph { IsGraph graph.now }
{
    let instrs = graph.instrs();
    instrs.get(number as usize).map(|instr| instr.op)
}

/// The destinations of the instruction of this number, on the side to which it fired.
#[inline(always)]
fn dests_at<'g>(graph: &'g Graph, number: u32, fired: &Fired) -> &'g [Dest]
    ensures { result.now ≡ dests_at graph.now number (side_of fired.now) }
{
    match graph.instrs().get(number as usize) {
        Some(instr) => chosen(instr, fired),
        None => &[],
    }
}

/// The replies of an event, among all those of its record.
#[inline(always)]
fn replies_in(all: &[Tag], replies: Replies) -> &[Tag]
    requires { AreThere all.now replies }
    ensures { result.now ≡ replies_in all.now replies }
{
    &all[replies.from..replies.from + replies.count]
}
