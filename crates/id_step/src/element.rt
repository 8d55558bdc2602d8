//! An element: what waits at it, its cells, its last stamp and its record (docs/MACHINE.md, "Element step").

use crate::cells::take_access;
use crate::gate::{Gate, Open};
use crate::near::Near;
use crate::outcome::bound;
use crate::step::{Short, TakeError};
use crate::storage::Storage;
use crate::stretch::{Ran, run};
use crate::taking::take;
use id_bank::{Cells, Reader};
use id_flight::{Access, Queue};
use id_record::{Events, Fault, Faulted, Keeps, Step, Tellings, full_step, tag_of};
use id_tag::{Message, Payload, PlainToken};
use id_valid::Valid;
use std::alloc::{AllocError, Global};
use std::marker::Model;

/// Room for a stretch is made for so many messages more than one sends at the most.
const MANY: usize = 128;

/// An element of the machine: it handles the messages that are routed to it, one at a time.
#[derive(Drop)]
pub struct Element<'a> {
    storage: Storage<'a>,
    // What a message sends at the most, at any instruction of the graph, and more than 256 where the number of the
    // element is not small: asked for once.
    most: usize,
    // What comes next in a stretch, and nothing outside of one.
    near: Near,
}

impl<'a> Model for Element<'a> {
    ghost use Rattle.std.specs.Prelude.{◌≡◌, []};
    ghost use Rattle.id_step.specs.Codes.{coded_element};
    ghost use Rattle.id_step.specs.Storage.{element_at};
    ghost use Rattle.id_step.specs.Kept.{IsKept};
    ghost use Rattle.id_step.specs.Replays.{ElementView};

    ghost Value = { ElementView };

    ghost coded = { coded_element };

    ghost view = { λ e. element_at e.storage };

    ghost invariant = { λ e. IsKept (element_at e.storage) e.most × (e.near.messages ≡ []) };
}

impl<'a> Element<'a> {
    ghost use Rattle.std.specs.Prelude.{◌≡◌, ◌≢◌, ◌<◌, ◌≤◌, ◌-◌, ◌^◌, ◌↔◌};
    ghost use Rattle.std.specs.Prelude.{◌==◌, ◌||◌, All, IfOk, IsTrue, length};
    ghost use Rattle.std.specs.FinMap.{empty};
    ghost use Rattle.id_tag.specs.Plains.{message_of, tag_in};
    ghost use Rattle.id_flight.specs.Accesses.{accessed};
    ghost use Rattle.id_bank.specs.Cells.{cells_of, deferred_of};
    ghost use Rattle.id_record.specs.declared.kept.Keeps.TheVariants as keeps;
    ghost use Rattle.id_record.specs.Events.{AllWent};
    ghost use Rattle.id_record.specs.Tellings.{any_stuck, first_fault, merged, tellings};
    ghost use Rattle.id_step.specs.declared.step.TakeError.TheVariants.{StampEnd};
    ghost use Rattle.id_step.specs.Fits.{Fits, IsFor};
    ghost use Rattle.id_step.specs.Replays.{Replays};
    ghost use Rattle.id_step.specs.Shorts.{HandlesShortAt, came_short};
    ghost use Rattle.id_step.specs.Steps.{fresh, is_ended, outputs_of};
    ghost use Rattle.id_step.specs.Stretches.{GoesOn};
    ghost use Rattle.id_step.specs.Takes.{Becomes, GoesAt, Handles, HandlesAt, IsForAt};

    /// The element of this number, of so many, that has handled nothing and keeps all events. Takes no memory, and
    /// looks at each instruction once.
    pub fn new(alloc: Global, number: u32, count: u32, graph: &'a Valid) -> Element<'a>
        requires at_least_one { 0 < count }
        requires at_most_64 { count ≤ 64 }
        requires number { number < count }
        ensures { result
            ≡ record { number = number; count = count; graph = graph.now; keeps = keeps.All; state = fresh } }
    {
        Element::keeping(alloc, number, count, graph, Keeps::All)
    }

    /// The same, of one that keeps so much of its events.
    pub fn keeping(
        alloc: Global,
        number: u32,
        count: u32,
        graph: &'a Valid,
        keeps: Keeps,
    ) -> Element<'a>
        requires at_least_one { 0 < count }
        requires at_most_64 { count ≤ 64 }
        requires number { number < count }
        ensures { result
            ≡ record { number = number; count = count; graph = graph.now; keeps = keeps; state = fresh } }
    {
        Element {
            storage: Storage::new(alloc, number, count, graph, keeps),
            most: bound(number, graph.graph()),
            near: Near::new(alloc),
        }
    }

    /// Handles a message that is for this element: appends what is sent for it, and answers what it came to
    /// (docs/MACHINE.md, "Element step"). After an error nothing has changed, and the same message can be given again.
    #[inline(always)]
    pub fn take(&mut self, message: &Message, outputs: &mut Queue) -> Result<Step, TakeError>
        requires { IsFor self.old.graph self.old.count self.old.number message.now }
        ensures { Handles self.old self.new message.now outputs.old.messages outputs.old.messages
            outputs.new.messages result }
    {
        self.take_held(message, outputs, &Open)
    }

    /// Handles a message as `take` does, and calls the gate's `hold` once, after the last growth and before the event
    /// is recorded: its implementation is the caller's and is assumed to return. A call that answers an error makes
    /// none.
    #[inline(always)]
    pub fn take_held<G: Gate>(
        &mut self,
        message: &Message,
        outputs: &mut Queue,
        gate: &G,
    ) -> Result<Step, TakeError>
        requires { IsFor self.old.graph self.old.count self.old.number message.now }
        ensures { Handles self.old self.new message.now outputs.old.messages outputs.old.messages
            outputs.new.messages result }
    {
        let graph = self.storage.log.graph();
        let verdict = take(&mut self.storage, graph.graph(), message, outputs, gate)?;
        Ok(full_step(&message.payload, verdict))
    }

    /// Handles the message at a position of a list, from 0, which is for this element, as `take_held` does: it leaves
    /// the list, which closes up, and what is sent for it goes to the end. After an error nothing has changed.
    pub fn take_at<G: Gate>(
        &mut self,
        list: &mut Queue,
        position: usize,
        gate: &G,
    ) -> Result<Step, TakeError>
        requires there { position < length list.old.messages }
        requires for_it { IsForAt self.old list.old.messages position }
        ensures { HandlesAt position self.old self.new list.old.messages list.new.messages result }
    {
        let message = list.message(position);
        self.open(list, position, message.stamp)?;
        let step = self.take_held(&message, list, gate)?;
        list.remove(position);
        Ok(step)
    }

    /// Handles the message at a position of a list, from 0, which is for this element, and what follows from it under
    /// its context and iteration, one message after another, at most so many, and answers whether all went well. Behind
    /// each of the first `turns` messages, and where it is the only element, it goes on with what stands in that
    /// message's place then, as long as that is of the same context. What has been handled has left the list, and what
    /// else was sent for it stands at the end. After an error no stamp is left for one of these messages, or a growth
    /// was refused, and that one has not been handled.
    #[inline(always)]
    pub fn run_from<G: Gate>(
        &mut self,
        list: &mut Queue,
        position: usize,
        turns: u64,
        limit: u64,
        gate: &G,
    ) -> Result<bool, TakeError>
        requires there { position < length list.old.messages }
        requires for_it { IsForAt self.old list.old.messages position }
        requires fit { 0 < turns → All (Fits self.old.graph) list.old.messages }
        requires some { 0 < limit }
        ensures { GoesOn limit position self.old self.new list.old.messages list.new.messages result }
    {
        if self.most > 0x100 {
            return self.take_from(list, position, gate);
        }
        let token = match list.token(position) {
            Some(token) => *token,
            None => return self.take_from(list, position, gate),
        };
        self.open(list, position, u64::from(token.stamp))?;
        list.reserve(self.most + MANY)?;
        self.near.reserve(self.most + MANY)?;
        match run(
            &mut self.storage,
            self.most,
            &mut self.near,
            list,
            position,
            token,
            turns,
            limit,
            gate,
        ) {
            Ran::Went => Ok(true),
            Ran::Failed => Ok(false),
            Ran::Refused(error) => Err(error),
            Ran::Apart => {
                let last = list.len() - 1;
                self.take_from(list, last, gate)
            }
        }
    }

    /// Handles the message at a position of a list as `take_at` does, where it is no plain token or is not handled in
    /// short, and answers whether it went well.
    #[inline(never)]
    #[tactic(auto, using(crate::proofs::TakesLemmas::goes_well, crate::proofs::TakesLemmas::goes_not))]
    fn take_from<G: Gate>(
        &mut self,
        list: &mut Queue,
        position: usize,
        gate: &G,
    ) -> Result<bool, TakeError>
        requires there { position < length list.old.messages }
        requires for_it { IsForAt self.old list.old.messages position }
        ensures { GoesAt position self.old self.new list.old.messages list.new.messages result }
    {
        match self.take_other(list, position, gate)? {
            Short::Went => Ok(true),
            Short::Failed(_) => Ok(false),
            Short::Apart => self.take_apart(list, position, gate),
        }
    }

    /// The same of what is not handled in short.
    #[inline(never)]
    fn take_apart<G: Gate>(
        &mut self,
        list: &mut Queue,
        position: usize,
        gate: &G,
    ) -> Result<bool, TakeError>
        requires there { position < length list.old.messages }
        requires for_it { IsForAt self.old list.old.messages position }
        ensures { GoesAt position self.old self.new list.old.messages list.new.messages result }
    {
        match self.take_at(list, position, gate)? {
            Step::Went => Ok(true),
            Step::Fault(_) | Step::Stuck => Ok(false),
        }
    }

    /// Handles the message at a position of a list as `take_at` does, where it is a read or a write in small numbers,
    /// and says what became of it.
    #[inline(never)]
    fn take_other<G: Gate>(
        &mut self,
        list: &mut Queue,
        position: usize,
        gate: &G,
    ) -> Result<Short, TakeError>
        requires there { position < length list.old.messages }
        requires for_it { IsForAt self.old list.old.messages position }
        ensures { HandlesShortAt position self.old self.new list.old.messages list.new.messages result }
    {
        let access = match list.access(position) {
            Some(access) => access,
            None => return Ok(Short::Apart),
        };
        self.open(list, position, u64::from(access.like.stamp))?;
        let short = self.take_short_access(&access, list, gate)?;
        if !matches!(short, Short::Apart) {
            list.remove(position);
        }
        Ok(short)
    }

    /// Makes a list ready for its message at a position, which has this stamp, to leave it, where a stamp is left.
    #[inline(always)]
    fn open(&self, list: &mut Queue, position: usize, stamp: u64) -> Result<(), TakeError>
        requires { position < length list.old.messages }
        ensures same { list.new.messages ≡ list.old.messages }
        ensures end { (result ≡ Err StampEnd)
            ↔ IsTrue ((self.now.state.stamp == 2 ^ 64 - 1) || (stamp == 2 ^ 64 - 1)) }
    {
        if self.storage.stamp == u64::MAX || stamp == u64::MAX {
            return Err(TakeError::StampEnd);
        }
        list.open(position)?;
        Ok(())
    }

    /// The same of a read or a write of a cell.
    #[inline(always)]
    fn take_short_access<G: Gate>(
        &mut self,
        access: &Access,
        outputs: &mut Queue,
        gate: &G,
    ) -> Result<Short, TakeError>
        requires { IsFor self.old.graph self.old.count self.old.number (accessed access.now) }
        ensures becomes { Becomes self.old self.new (accessed access.now) outputs.old.messages outputs.old.messages
            outputs.new.messages (came_short (tag_in access.now.like) result) }
        ensures fits { All (Fits self.old.graph)
            (outputs_of self.old.graph self.old.number self.old.state (accessed access.now)) }
        ensures end { (result ≡ Err StampEnd) ↔ IsTrue (is_ended self.old.state (accessed access.now)) }
    {
        take_access(&mut self.storage, access, outputs, gate)
    }

    /// Gives back the memory of what waits, where nothing does: it shows the same as before.
    pub fn give_back(&mut self, alloc: Global)
        ensures { self.new ≡ self.old }
    {
        self.storage.give_back(alloc);
    }

    /// Whether no stamp is left for the message. Takes no memory.
    #[inline(always)]
    pub fn is_ended(&self, message: &Message) -> bool
        ensures { result ≡ is_ended self.now.state message.now }
    {
        self.storage.stamp == u64::MAX || message.stamp == u64::MAX
    }

    /// Whether no event was a fault or `Stuck`. Takes no memory.
    pub fn all_went(&self) -> bool
        ensures { IsTrue result ↔ AllWent self.now.state.events }
    {
        !self.storage.log.is_stuck() && self.storage.log.fault().is_none()
    }

    /// Whether no cell was read or written here. Takes no memory.
    pub fn has_no_cells(&self) -> bool
        ensures { IsTrue result ↔ (self.now.state.cells ≡ empty) }
    {
        self.storage.cells.is_empty()
    }

    /// The cells that hold a value, in the order of cells.
    pub fn cells(&self, alloc: Global) -> Result<Cells<'_>, AllocError>
        ensures { IfOk result (λ cs. cs ≡ cells_of self.now.state.cells) }
    {
        self.storage.cells.cells(alloc)
    }

    /// The replies that wait for the value of a cell, in the order of their cells, and of one cell in order of arrival.
    pub fn deferred(&self, alloc: Global) -> Result<Vec<Reader>, AllocError>
        ensures { IfOk result (λ rs. rs.items ≡ deferred_of self.now.state.cells) }
    {
        self.storage.cells.deferred(alloc)
    }

    /// The graph that it runs. Takes no memory.
    pub fn graph(&self) -> &'a Valid
        ensures { result.now ≡ self.now.graph }
    {
        self.storage.log.graph()
    }

    /// How much it keeps of its events. Takes no memory.
    #[inline(always)]
    pub fn keeps(&self) -> Keeps
        ensures { result ≡ self.now.keeps }
    {
        self.storage.log.keeps()
    }

    /// The record: the events, in order, of an element that keeps them all. Takes no memory.
    pub fn events(&self) -> Events<'_>
        requires { self.now.keeps ≡ keeps.All }
        ensures value { result ≡ self.now.state.events }
        // The record leads to the element's state, by legal events.
        ensures kept { Replays self.now }
    {
        self.storage.log.events()
    }

    /// How many messages it has handled, which is how many events its record has. Takes no memory.
    #[inline(always)]
    pub fn handled(&self) -> usize
        ensures value { result ≡ length self.now.state.events }
        // The record leads to the element's state, by legal events.
        ensures kept { Replays self.now }
    {
        self.storage.log.len()
    }

    /// What its events tell of contexts, of structures and of instruction 0, in order. Takes no memory.
    pub fn tellings(&self) -> &Tellings
        ensures { result.now.items ≡ tellings self.now.state.events }
    {
        self.storage.log.tellings()
    }

    /// What came to merges for values of the source, in order, where that is kept. Takes no memory.
    pub fn merged(&self) -> &[Payload]
        requires { self.now.keeps ≢ keeps.Tellings }
        ensures { result.now ≡ merged self.now.graph self.now.state.events }
    {
        self.storage.log.merged()
    }

    /// The first event that was a fault. Takes no memory.
    pub fn fault(&self) -> Option<Faulted>
        ensures { result ≡ first_fault self.now.state.events }
    {
        self.storage.log.fault()
    }

    /// Whether an event came to `Stuck`. Takes no memory.
    pub fn is_stuck(&self) -> bool
        ensures { result ≡ any_stuck self.now.state.events }
    {
        self.storage.log.is_stuck()
    }
}
