//! What an element works on: what waits, its cells, the last stamp, how many contexts and structures it has made, and
//! the record.

ghost use Rattle.std.specs.Prelude.{◌≡◌};

use crate::gate::Gate;
use crate::outcome::{
    allocated_by, fresh_numbers, made_by, most_sent, react, react_operands, send, short_of,
};
use crate::step::{PlainOperands, Short, TakeError};
use id_bank::Bank;
use id_flight::Queue;
use id_instr::{Graph, Instr, Port};
use id_match::Waiting;
use id_ops::PlainFired;
use id_record::{
    Envelope, Handling, Keeps, NO_REPLIES, PlainFiring, Reaction, Record, Verdict, message, tag_of,
};
use id_tag::{Message, Payload, PlainToken, Tag, Value};
use id_valid::Valid;
use std::alloc::{AllocError, Global};

/// What waits at an element, its cells, its last stamp, how many contexts and structures it has made, its record, which
/// knows its number, and how many elements there are.
#[derive(Drop)]
pub struct Storage<'a> {
    pub count: u32,
    pub waiting: Waiting,
    pub cells: Bank,
    pub stamp: u64,
    pub contexts: u64,
    pub structures: u64,
    pub log: Record<'a>,
}

impl<'a> Storage<'a> {
    ghost use Rattle.std.specs.Prelude.{◌≡◌, ◌+◌, ◌^◌, ◌-◌, ◌<◌, ◌≤◌, ◌↔◌};
    ghost use Rattle.std.specs.Prelude.{IfErr, IfOk, IfSome, IsTrue, OnErr, OnOk, Some, slice_get};
    ghost use Rattle.id_instr.specs.Graph.{arcs_on, IsGraph};
    ghost use Rattle.id_valid.specs.Validator.{IsValid};
    ghost use Rattle.id_tag.specs.Plains.{message_of, tag_in};
    ghost use Rattle.id_tag.specs.declared.Payload.TheVariants.{Token};
    ghost use Rattle.id_match.specs.Waiting.{Store};
    ghost use Rattle.id_ops.specs.Operators.{side_of};
    ghost use Rattle.id_ops.specs.PlainFired.{MakesNone, fired_of};
    ghost use Rattle.id_record.specs.declared.step.Step.TheVariants.{Went};
    ghost use Rattle.id_record.specs.Events.{full_step, tag_of};
    ghost use Rattle.id_record.specs.Sends.{sent};
    ghost use Rattle.id_step.specs.declared.step.TakeError.TheVariants.{StampEnd};
    ghost use Rattle.id_step.specs.Storage.{IsShort, IsToken, MayRecord, Treats, TreatsFrom, element_at, fired_by};
    ghost use Rattle.id_step.specs.Storage.{state_of};
    ghost use Rattle.id_step.specs.Firings.{IsBound, most_sent};
    ghost use Rattle.id_step.specs.Fits.{Fits};
    ghost use Rattle.id_step.specs.Handled.{IsRecorded, IsSent, token_outcome, token_sends};
    ghost use Rattle.id_step.specs.Shorts.{came_full, came_short, short_step};
    ghost use Rattle.id_step.specs.Steps.{allocated_by, at_instr, fired_verdict, fresh, is_ended, made_by};
    ghost use Rattle.id_step.specs.Steps.{next_numbers, next_stamp};

    /// The storage of the element of this number, of so many, that has handled nothing and will keep so much of its
    /// events. Takes no memory.
    pub fn new(
        alloc: Global,
        number: u32,
        count: u32,
        graph: &'a Valid,
        keeps: Keeps,
    ) -> Storage<'a>
        ensures { element_at result
            ≡ record { number = number; count = count; graph = graph.now; keeps = keeps; state = fresh } }
    {
        Storage {
            count,
            waiting: Waiting::new(alloc),
            cells: Bank::new(alloc),
            stamp: 0,
            contexts: 0,
            structures: 0,
            log: Record::new(alloc, number, graph, keeps),
        }
    }

    /// Gives back the memory of the waiting store, where nothing waits.
    pub fn give_back(&mut self, alloc: Global)
        ensures { element_at self.new ≡ element_at self.old }
    {
        if self.waiting.len() == 0 {
            self.waiting = Waiting::new(alloc);
        }
    }

    /// Handles a token that fits the graph: the element step where a stamp is left, which is this one.
    #[inline(always)]
    pub fn take_token<G: Gate>(
        &mut self,
        graph: &Graph,
        message: &Message,
        stamp: u64,
        outputs: &mut Queue,
        gate: &G,
    ) -> Result<Verdict, TakeError>
        requires is { IsToken message.now.payload }
        requires stamp { stamp ≡ next_stamp (state_of self.old) message.now }
        requires own { graph.now ≡ self.old.log.graph }
        requires valid { IsValid graph.now }
        requires contexts { self.old.contexts + 1 < 2 ^ 64 }
        requires structures { self.old.structures + 1 < 2 ^ 64 }
        requires fits { Fits graph.now message.now }

        ensures treats { Treats self.old self.new message.now outputs.old.messages outputs.new.messages
            (came_full message.now.payload result) }
        ensures memory { IfErr result (λ e. e ≡ TakeError.Memory) }
    {
        let Payload::Token { tag, port, value } = message.payload else {
            unreachable!()
        };
        let instr = &graph.instrs()[tag.instr as usize];
        let reaction = self.react_with_room(instr, tag, port, value, outputs)?;
        self.hold(gate);
        Ok(self.conclude(instr, tag, message, stamp, &reaction, outputs))
    }

    /// Makes room for the event of a token, and lets it come to its instruction. After an error nothing has changed.
    #[inline(always)]
    fn react_with_room(
        &mut self,
        instr: &Instr,
        tag: Tag,
        port: Port,
        value: Value,
        outputs: &mut Queue,
    ) -> Result<Reaction, TakeError>
        requires iteration { tag.iteration < 2 ^ 64 - 1 }
        requires contexts { self.old.contexts + 1 < 2 ^ 64 }
        requires structures { self.old.structures + 1 < 2 ^ 64 }

        ensures outcome { IfOk result (λ r. at_instr (next_numbers self.old.log.element (state_of self.old))
            self.old.waiting self.old.cells tag port value (Some instr.now) ≡ record {
              fired = r.fired;
              sends = sent (Some instr.now.op) (arcs_on (side_of r.fired) instr.now) tag r.fired;
              step = full_step (Token tag port value) r.verdict;
              waiting = self.new.waiting;
              cells = self.old.cells;
              made = made_by r.fired;
              allocated = allocated_by instr.now.op r.fired;
            }) }
        ensures element { OnOk result (element_at self.new ≡ record (element_at self.old) {
          state = record (state_of self.old) { waiting = self.new.waiting };
        }) }
        ensures messages { outputs.new.messages ≡ outputs.old.messages }

        ensures room { OnOk result (0 < self.new.log.room) }
        ensures room_in_outputs { OnOk result (most_sent instr.now ≤ outputs.new.room) }

        ensures memory { IfErr result (λ e. e ≡ TakeError.Memory) }
        ensures err { OnErr result (element_at self.new ≡ element_at self.old) }
    {
        self.reserve(most_sent(instr), 0, outputs)?;
        let next = fresh_numbers(self.log.element(), self.contexts, self.structures);
        let reaction = react(&mut self.waiting, instr, next, tag, port, value)?;
        Ok(reaction)
    }

    /// Whether all numbers of this event are small, which sends at most so many messages.
    #[inline(always)]
    pub fn is_short(&self, most: usize, token: &PlainToken, stamp: u64) -> bool
        ensures { IsTrue result → IsShort self.now most token.now stamp }
    {
        // All at once, without a branch for each: nearly all of them hold.
        (stamp <= 0xffff_ffff)
            & (self.log.len() <= 0xffff_ffff)
            & (self.log.element() <= 0xff)
            & (token.iteration < 0xffff_ffff)
            & (most <= 0x100)
    }

    /// The same of a token that fits the graph, at the stamp after this one, which is not below the token's, where the
    /// most is large too unless the number of the element is small: that the iteration is small follows.
    #[inline(always)]
    pub fn is_short_after(&self, graph: &Graph, most: usize, token: &PlainToken, last: u64) -> bool
        requires bound { IsBound graph.now self.now.log.element most }
        requires fits { Fits graph.now (message_of token.now) }
        requires above { token.now.stamp ≤ last }
        ensures small { IsTrue result → last < 2 ^ 32 - 1 }
        ensures short { IsTrue result → IsShort self.now most token.now (last + 1) }
    {
        // What has 32 bits alike is asked at once: nearly all of it has.
        ((last | self.log.len() as u64) < 0xffff_ffff) & (most <= 0x100)
    }

    /// Makes room for an event that sends so many messages, to so many replies.
    #[inline(always)]
    pub fn reserve(
        &mut self,
        sent: usize,
        replies: usize,
        outputs: &mut Queue,
    ) -> Result<(), AllocError>
        ensures element { element_at self.new ≡ element_at self.old }
        ensures messages { outputs.new.messages ≡ outputs.old.messages }

        ensures room { OnOk result (0 < self.new.log.room) }
        ensures room_for_replies { OnOk result (replies ≤ self.new.log.room_for_replies) }
        ensures room_in_outputs { OnOk result (sent ≤ outputs.new.room) }
    {
        outputs.reserve(sent)?;
        self.log.reserve(replies)?;
        Ok(())
    }

    /// Sends what was fired, and records the event. There is room for it. Takes no memory.
    #[inline(never)]
    fn conclude(
        &mut self,
        instr: &Instr,
        tag: Tag,
        message: &Message,
        stamp: u64,
        reaction: &Reaction,
        outputs: &mut Queue,
    ) -> Verdict
        requires ready { MayRecord self.old instr.now (tag_of message.now.payload).instr }
        requires tag { tag ≡ tag_of message.now.payload }
        requires room_in_outputs { most_sent instr.now ≤ outputs.old.room }

        ensures verdict { result ≡ reaction.now.verdict }
        ensures recorded { IsRecorded self.old self.new message.now stamp (token_outcome self.old instr.now
            tag reaction.now.fired (full_step message.now.payload reaction.now.verdict)) }
        ensures sent { IsSent self.old outputs.old.messages outputs.new.messages stamp
            (token_sends instr.now tag reaction.now.fired) }
    {
        let envelope = Envelope {
            number: self.log.element(),
            position: self.log.len(),
            stamp,
        };
        send(instr, tag, &reaction.fired, envelope, outputs);
        self.note(instr, message, stamp, reaction);
        reaction.verdict
    }

    /// Records the event of a token at the instruction, and counts what it made. There is room for it. Takes no memory.
    #[inline(always)]
    pub fn note(&mut self, instr: &Instr, message: &Message, stamp: u64, reaction: &Reaction)
        requires ready { MayRecord self.old instr.now (tag_of message.now.payload).instr }

        ensures { IsRecorded self.old self.new message.now stamp (token_outcome self.old instr.now
            (tag_of message.now.payload) reaction.now.fired
            (full_step message.now.payload reaction.now.verdict)) }
    {
        self.log.push(Handling {
            message,
            stamp,
            reaction,
            replies: NO_REPLIES,
        });
        self.stamp = stamp;
        self.contexts += made_by(&reaction.fired);
        self.structures += allocated_by(instr.op, &reaction.fired);
    }

    /// Fires the operands of which a plain token is one, sends what comes of them, and records the event. There is room
    /// for it. Takes no memory.
    #[inline(never)]
    pub fn conclude_full(
        &mut self,
        instr: &Instr,
        token: &PlainToken,
        stamp: u32,
        operands: PlainOperands,
        outputs: &mut Queue,
    ) -> Short
        requires ready { MayRecord self.old instr.now token.now.instr }
        requires short { IsShort self.old (most_sent instr.now) token.now stamp }
        requires room_in_outputs { most_sent instr.now ≤ outputs.old.room }

        ensures step { short_step (tag_in token.now) result ≡ Some (full_step
            (message_of token.now).payload (fired_verdict (fired_by self.old instr.now token.now operands))) }
        ensures recorded { IsRecorded self.old self.new (message_of token.now) stamp (token_outcome self.old instr.now
            (tag_in token.now) (fired_by self.old instr.now token.now operands) (full_step
            (message_of token.now).payload (fired_verdict (fired_by self.old instr.now token.now operands)))) }
        ensures sent { IsSent self.old outputs.old.messages outputs.new.messages stamp
            (token_sends instr.now (tag_in token.now) (fired_by self.old instr.now token.now operands)) }
    {
        let reaction = self.fire_full(instr, token, stamp, operands, outputs);
        self.note(instr, &token.message(), u64::from(stamp), &reaction);
        short_of(&reaction.fired)
    }

    /// Fires the operands of which a plain token is one, and sends what comes of them. There is room for it. Takes no
    /// memory.
    #[inline(always)]
    fn fire_full(
        &self,
        instr: &Instr,
        token: &PlainToken,
        stamp: u32,
        operands: PlainOperands,
        outputs: &mut Queue,
    ) -> Reaction
        requires ready { MayRecord self.now instr.now token.now.instr }
        requires short { IsShort self.now (most_sent instr.now) token.now stamp }
        requires room_in_outputs { most_sent instr.now ≤ outputs.old.room }

        ensures fired { result.fired ≡ fired_by self.now instr.now token.now operands }
        ensures verdict { result.verdict ≡ fired_verdict (fired_by self.now instr.now token.now operands) }
        ensures sent { IsSent self.now outputs.old.messages outputs.new.messages stamp
            (token_sends instr.now (tag_in token.now) (fired_by self.now instr.now token.now operands)) }
    {
        let next = fresh_numbers(self.log.element(), self.contexts, self.structures);
        let reaction = react_operands(instr, next, token.tag(), operands);
        let envelope = Envelope {
            number: self.log.element(),
            position: self.log.len(),
            stamp: u64::from(stamp),
        };
        send(instr, token.tag(), &reaction.fired, envelope, outputs);
        reaction
    }
}
