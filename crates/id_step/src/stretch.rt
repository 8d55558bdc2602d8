//! A stretch of events: a plain token of a list, and what follows from it under its context and iteration, one after
//! another. This is the loop in which an element spends its time (docs/PIPELINE.md): an arm for each operator
//! (`take_one`, `take_two`), which fires, records and sends by itself, and the last of what it sends under the same tag
//! takes the token's place.

ghost use Rattle.std.specs.Prelude.{◌≡◌, ◌<◌, ◌≤◌, ◌+◌, ◌++◌, ◌∷◌, [], All, IsTrue, Some, false, length, slice_get};
ghost use Rattle.std.specs.List.{remove};
ghost use Rattle.id_tag.specs.Plains.{message_of};
ghost use Rattle.id_step.specs.Fits.{Fits};
ghost use Rattle.id_step.specs.Kept.{IsKept};
ghost use Rattle.id_step.specs.Storage.{element_at};
ghost use Rattle.id_step.specs.Stretches.{RanSo};
ghost use Rattle.id_step.specs.Takes.{IsForAt};

use crate::gate::Gate;
use crate::near::Near;
use crate::outcome::{by_port, enters, fires_one, fires_two, fresh_numbers, offer, operand_of};
use crate::sending::{Mark, like, put_near, send_plain, send_start, send_to};
use crate::step::{PlainOperands, Short, TakeError, Taken};
use crate::storage::Storage;
use id_flight::Queue;
use id_instr::{Dest, Graph, Instr, Op};
use id_match::Met;
use id_ops::{Fired, PlainFired, Target};
use id_record::{PlainFiring, Reaction, Verdict};
use id_tag::{Plain, PlainCell, PlainToken, name_of};

/// How a stretch ended.
#[derive(Clone, Copy)]
pub enum Ran {
    /// All went well.
    Went,
    /// The last event did not go well.
    Failed,
    /// What stands at the end of the list is to be handled in full.
    Apart,
    /// No stamp is left for what stands at the end of the list, or a growth was refused.
    Refused(TakeError),
}

/// Handles the plain token at a position of a list, and what follows from it under its context and iteration, at most
/// so many messages, and says how that ended. Behind each of the first messages, as many as it may turn behind, and
/// where its element is the only one, it goes on with what stands in the token's place then, as long as that is a plain
/// token of the same context: the next iteration of a loop, say. Nothing is near before and afterwards. The list is
/// ready for the message to leave it, and both have room for what one message sends, and the list for one more.
#[inline(always)]
pub fn run<G: Gate>(
    storage: &mut Storage<'_>,
    most: usize,
    near: &mut Near,
    list: &mut Queue,
    position: usize,
    first: PlainToken,
    turns: u64,
    limit: u64,
    gate: &G,
) -> Ran
    requires kept { IsKept (element_at storage.old) most }
    requires few { most ≤ 256 }
    requires empty { near.old.messages ≡ [] }
    requires there { position < length list.old.messages }
    requires for_it { IsForAt (element_at storage.old) list.old.messages position }
    requires first { slice_get list.old.messages position ≡ Some (message_of first) }
    requires fit { 0 < turns → All (Fits storage.old.log.graph) list.old.messages }
    requires some { 0 < limit }
    requires room { most < list.old.room }
    requires room_near { most ≤ near.old.room }
    ensures kept { IsKept (element_at storage.new) most }
    ensures empty { near.new.messages ≡ [] }
    ensures ran { RanSo limit position (element_at storage.old) (element_at storage.new) list.old.messages
        list.new.messages result }
{
    let valid = storage.log.graph();
    let graph = valid.graph();
    let mut token = first;
    list.remove(position);
    let turns = may_turn(storage, turns);
    for done in 0..limit {
        match storage.go_on(graph, &mut token, most, near, list, gate) {
            Taken::Next => {}
            Taken::Went => {
                if !turn(turns, done, most, list, position, &mut token) {
                    return Ran::Went;
                }
            }
            Taken::Failed => {
                near.give_back(list);
                return Ran::Failed;
            }
            Taken::Apart => {
                leave(near, list, &token);
                return Ran::Apart;
            }
            Taken::Memory => {
                leave(near, list, &token);
                return Ran::Refused(TakeError::Memory);
            }
        }
        if !has_room(near, list, most) {
            leave(near, list, &token);
            return Ran::Went;
        }
    }
    leave(near, list, &token);
    Ran::Went
}

/// Behind how many messages a stretch may turn: none, unless its element is the only one. Takes no memory.
#[inline(always)]
fn may_turn(storage: &Storage<'_>, turns: u64) -> u64
    ensures asked { 0 < result → 0 < turns }
    ensures alone { 0 < result → storage.now.count ≡ 1 }
{
    if storage.count == 1 { turns } else { 0 }
}

/// Takes the message at a position of a list in the place of a token, where a stretch turns behind this message, from
/// 0, there is room for what one message sends, and that is a plain token of the same context, and says whether it did.
/// Takes no memory.
#[inline(always)]
fn turn(
    turns: u64,
    done: u64,
    most: usize,
    list: &mut Queue,
    position: usize,
    token: &mut PlainToken,
) -> bool
    ensures turns { IsTrue result → done < turns }
    ensures took { IsTrue result → slice_get list.old.messages position ≡ Some (message_of token.new) }
    ensures left { IsTrue result → list.new.messages ≡ remove list.old.messages position }
    ensures room { IsTrue result → most < list.new.room }
    ensures same { result ≡ false → list.new.messages ≡ list.old.messages }
{
    if done >= turns || position >= list.len() || most >= list.room() {
        return false;
    }
    let next = match list.token(position) {
        Some(next) => *next,
        None => return false,
    };
    if next.serial != token.serial || next.element != token.element {
        return false;
    }
    list.remove(position);
    *token = next;
    true
}

/// Whether there is room for what one message sends and for what is near. Takes no memory.
#[inline(always)]
fn has_room(near: &Near, list: &Queue, most: usize) -> bool
    requires { most ≤ 256 }
    ensures near { IsTrue result → most ≤ near.now.room }
    ensures list { IsTrue result → length near.now.messages + most < list.now.room }
{
    most <= near.room() && near.len() + most < list.room()
}

/// Moves what is near to the end of a list, and this token behind it. There is room for them. Takes no memory.
#[inline(never)]
fn leave(near: &mut Near, list: &mut Queue, token: &PlainToken)
    requires { length near.old.messages < list.old.room }
    ensures empty { near.new.messages ≡ [] }
    ensures messages { list.new.messages ≡ (list.old.messages ++ near.old.messages) ++ message_of token.now ∷ [] }
{
    near.give_back(list);
    list.push_plain_reserved(token);
}

impl<'a> Storage<'a> {
    ghost use Rattle.std.specs.Prelude.{◌≡◌, ◌≢◌, ◌<◌, ◌≤◌, Some, [], false, length, slice_get, true};
    ghost use Rattle.id_instr.specs.Ports.{two_ports};
    ghost use Rattle.id_tag.specs.Plains.{message_of, tag_in};
    ghost use Rattle.id_ops.specs.PlainFired.{MakesNone, fired_of};
    ghost use Rattle.id_ops.specs.declared.plain_fired.PlainFired.TheVariants as fired;
    ghost use Rattle.id_record.specs.declared.step.Step.TheVariants.{Went};
    ghost use Rattle.id_step.specs.declared.step.Taken.TheVariants as taken;
    ghost use Rattle.id_step.specs.declared.step.PlainOperands.TheVariants as operands;
    ghost use Rattle.id_step.specs.Storage.{IsShort, MayMake, element_at};
    ghost use Rattle.id_step.specs.Firings.{Enters, most_sent};
    ghost use Rattle.id_step.specs.Handled.{IsRecorded, token_outcome};
    ghost use Rattle.id_step.specs.Steps.{allocated_by};
    ghost use Rattle.id_step.specs.Stretches.{Became, HasFired, HasMet, IsReady, LeavesRoom, MayGoOn};
    ghost use Rattle.id_step.specs.Stretches.{PutsTo, Shoots, ShootsFull};

    /// Handles the token at hand as `take_near` does, and where nothing takes its place, the last of what is near does.
    #[inline(always)]
    fn go_on<G: Gate>(
        &mut self,
        graph: &Graph,
        token: &mut PlainToken,
        most: usize,
        near: &mut Near,
        list: &mut Queue,
        gate: &G,
    ) -> Taken
        requires own { graph.now ≡ self.old.log.graph }
        requires goes { MayGoOn self.old most token.old near.old list.old }

        ensures became { Became result (element_at self.old) (element_at self.new) near.old.messages near.new.messages
            list.old.messages list.new.messages token.old token.new }
        ensures left { LeavesRoom result near.new list.new }
        ensures empty { result ≡ taken.Went → near.new.messages ≡ [] }
    {
        let taken = self.take_near(graph, token, most, near, list, gate);
        if let Taken::Went = taken {
            if near.take_last(token) {
                return Taken::Next;
            }
        }
        taken
    }

    /// Handles a plain token that fits the graph, where that is short, and says what became of it: the element step.
    /// What it sends under its own context and iteration comes near, the last of it in its place, and all else to the
    /// end of the list. There is room for what it sends, and in the list for what is near and for one more.
    #[inline(always)]
    fn take_near<G: Gate>(
        &mut self,
        graph: &Graph,
        token: &mut PlainToken,
        most: usize,
        near: &mut Near,
        list: &mut Queue,
        gate: &G,
    ) -> Taken
        requires own { graph.now ≡ self.old.log.graph }
        requires goes { MayGoOn self.old most token.old near.old list.old }

        ensures became { Became result (element_at self.old) (element_at self.new) near.old.messages near.new.messages
            list.old.messages list.new.messages token.old token.new }
        ensures left { LeavesRoom result near.new list.new }
    {
        let last = self.stamp.max(u64::from(token.stamp));
        if !self.is_short_after(graph, most, token, last) {
            return Taken::Apart;
        }
        let stamp = last + 1;
        if self.log.reserve(0).is_err() {
            return Taken::Memory;
        }
        let instr = &graph.instrs()[token.instr as usize];
        self.take_at(instr, token, stamp as u32, near, list, gate)
    }

    /// The same at its instruction and at this stamp, which is the next. There is room for it.
    #[inline(always)]
    fn take_at<G: Gate>(
        &mut self,
        instr: &Instr,
        token: &mut PlainToken,
        stamp: u32,
        near: &mut Near,
        list: &mut Queue,
        gate: &G,
    ) -> Taken
        requires ready { IsReady self.old instr.now token.old stamp near.old list.old }
        requires makes { MayMake self.old }

        ensures became { Became result (element_at self.old) (element_at self.new) near.old.messages near.new.messages
            list.old.messages list.new.messages token.old token.new }
        ensures left { LeavesRoom result near.new list.new }
    {
        if instr.op.two_ports() {
            self.take_second(instr, token, stamp, near, list, gate)
        } else {
            self.take_one(instr, token, stamp, near, list, gate)
        }
    }

    /// The arms of the operators of one port: each fires the token and sends what comes of it, or has it fired in full.
    #[inline(always)]
    fn take_one<G: Gate>(
        &mut self,
        instr: &Instr,
        token: &mut PlainToken,
        stamp: u32,
        near: &mut Near,
        list: &mut Queue,
        gate: &G,
    ) -> Taken
        requires ready { IsReady self.old instr.now token.old stamp near.old list.old }
        requires makes { MayMake self.old }
        requires port { two_ports instr.now.op ≡ false }

        ensures became { Became result (element_at self.old) (element_at self.new) near.old.messages near.new.messages
            list.old.messages list.new.messages token.old token.new }
        ensures left { LeavesRoom result near.new list.new }
    {
        let op = instr.op;
        match op {
            // A value goes out under the tag.
            Op::Const(_) | Op::Unary(_) | Op::Merge(_) => {
                if let Some(PlainFired::Out(value)) = fires_one(op, token) {
                    let fired = PlainFired::Out(value);
                    let dests = instr.dests.as_slice();
                    return self.put_out(instr, token, stamp, fired, dests, value, near, list, gate);
                }
            }
            // It goes on at another iteration.
            Op::Next(_) | Op::Reset(_) => {
                if let Some(PlainFired::Moved(iteration, value)) = fires_one(op, token) {
                    return self.move_to(instr, token, stamp, iteration, value, near, list, gate);
                }
            }
            // A cell is asked for its value.
            Op::Fetch { .. } => {
                if let Some(PlainFired::Asked(cell, reply)) = fires_one(op, token) {
                    return self.ask(instr, token, stamp, cell, reply, near, list, gate);
                }
            }
            // A block is entered, in a context of its own.
            Op::Enter { .. } => {
                if let Some((block, reply)) = enters(op, token) {
                    return self.enter(instr, token, stamp, block, reply, near, list, gate);
                }
            }
            _ => {}
        }
        let operands = operand_of(op, token);
        self.take_full(instr, token, stamp, operands, near, list, gate)
    }

    /// The same at an instruction of two ports: the token waits for its partner, or has met it.
    #[inline(always)]
    fn take_second<G: Gate>(
        &mut self,
        instr: &Instr,
        token: &mut PlainToken,
        stamp: u32,
        near: &mut Near,
        list: &mut Queue,
        gate: &G,
    ) -> Taken
        requires ready { IsReady self.old instr.now token.old stamp near.old list.old }
        requires makes { MayMake self.old }
        requires port { two_ports instr.now.op ≡ true }

        ensures became { Became result (element_at self.old) (element_at self.new) near.old.messages near.new.messages
            list.old.messages list.new.messages token.old token.new }
        ensures left { LeavesRoom result near.new list.new }
    {
        match offer(&mut self.waiting, instr.op, token) {
            Ok(Met::Kept) => self.keep(instr, token, stamp, near, list, gate),
            Ok(Met::Partner(partner)) => {
                let (left, right) = by_port(token.port, token.value, partner);
                self.take_two(instr, token, stamp, left, right, near, list, gate)
            }
            Ok(Met::Apart) => Taken::Apart,
            Err(_) => Taken::Memory,
        }
    }

    /// The arms of the operators of two ports, on these operands.
    #[inline(always)]
    fn take_two<G: Gate>(
        &mut self,
        instr: &Instr,
        token: &mut PlainToken,
        stamp: u32,
        left: Plain,
        right: Plain,
        near: &mut Near,
        list: &mut Queue,
        gate: &G,
    ) -> Taken
        requires ready { IsReady self.old instr.now token.old stamp near.old list.old }
        requires makes { MayMake self.old }
        requires port { two_ports instr.now.op ≡ true }
        requires came { HasMet self.old instr.now token.old (operands.Two left right) }

        ensures comes { ShootsFull result (operands.Two left right) self.old self.new instr.now
            near.old.messages near.new.messages list.old.messages list.new.messages token.old token.new }
        ensures left { LeavesRoom result near.new list.new }
    {
        let op = instr.op;
        match op {
            // A value goes out under the tag.
            Op::Binary(_) => {
                if let Some(PlainFired::Out(value)) = fires_two(op, token, left, right) {
                    let fired = PlainFired::Out(value);
                    let dests = instr.dests.as_slice();
                    return self.put_out(instr, token, stamp, fired, dests, value, near, list, gate);
                }
            }
            // It goes to one of two sides.
            Op::Switch(_) => {
                if let Some(PlainFired::Side(side, value)) = fires_two(op, token, left, right) {
                    let fired = PlainFired::Side(side, value);
                    let dests = if side {
                        instr.dests.as_slice()
                    } else {
                        instr.others.as_slice()
                    };
                    return self.put_out(instr, token, stamp, fired, dests, value, near, list, gate);
                }
            }
            // The address of a cell does.
            Op::Address { .. } => {
                if let Some(PlainFired::Addressed(cell)) = fires_two(op, token, left, right) {
                    let fired = PlainFired::Addressed(cell);
                    let dests = instr.dests.as_slice();
                    let value = cell.address();
                    return self.put_out(instr, token, stamp, fired, dests, value, near, list, gate);
                }
            }
            // It goes into another context, or back from it.
            Op::Send { .. } | Op::Back(_) => {
                if let Some(PlainFired::Sent(target, value)) = fires_two(op, token, left, right) {
                    return self.send_on(instr, token, stamp, target, value, near, list, gate);
                }
            }
            // It goes to a cell.
            Op::Store { .. } => {
                if let Some(PlainFired::Stored(cell, value)) = fires_two(op, token, left, right) {
                    return self.fill(instr, token, stamp, cell, value, near, list, gate);
                }
            }
            _ => {}
        }
        let operands = PlainOperands::Two(left, right);
        self.take_full(instr, token, stamp, operands, near, list, gate)
    }

    /// The same of a token that waits from now on.
    #[inline(always)]
    fn keep<G: Gate>(
        &mut self,
        instr: &Instr,
        token: &mut PlainToken,
        stamp: u32,
        near: &mut Near,
        list: &mut Queue,
        gate: &G,
    ) -> Taken
        requires ready { IsReady self.old instr.now token.old stamp near.old list.old }
        requires came { HasFired self.old instr.now token.old fired.Nothing }

        ensures comes { Shoots result fired.Nothing self.old self.new instr.now near.old.messages near.new.messages
            list.old.messages list.new.messages token.old token.new }
        ensures left { LeavesRoom result near.new list.new }
    {
        self.note_fired(instr, token, stamp, PlainFired::Nothing, gate);
        Taken::Went
    }

    /// The same of one of which this value goes under its tag to these destinations.
    #[inline(always)]
    fn put_out<G: Gate>(
        &mut self,
        instr: &Instr,
        token: &mut PlainToken,
        stamp: u32,
        fired: PlainFired,
        dests: &[Dest],
        value: Plain,
        near: &mut Near,
        list: &mut Queue,
        gate: &G,
    ) -> Taken
        requires ready { IsReady self.old instr.now token.old stamp near.old list.old }
        requires came { HasFired self.old instr.now token.old fired }
        requires puts { PutsTo fired instr.now dests.now value }

        ensures comes { Shoots result fired self.old self.new instr.now near.old.messages near.new.messages
            list.old.messages list.new.messages token.old token.new }
        ensures left { LeavesRoom result near.new list.new }
    {
        let mark = self.note_fired(instr, token, stamp, fired, gate);
        if put_near(dests, value, mark, token, near) {
            Taken::Next
        } else {
            Taken::Went
        }
    }

    /// The same of one that goes on at this iteration with this value.
    #[inline(always)]
    fn move_to<G: Gate>(
        &mut self,
        instr: &Instr,
        token: &mut PlainToken,
        stamp: u32,
        iteration: u32,
        value: Plain,
        near: &mut Near,
        list: &mut Queue,
        gate: &G,
    ) -> Taken
        requires ready { IsReady self.old instr.now token.old stamp near.old list.old }
        requires came { HasFired self.old instr.now token.old (fired.Moved iteration value) }

        ensures comes { Shoots result (fired.Moved iteration value) self.old self.new instr.now
            near.old.messages near.new.messages list.old.messages list.new.messages token.old token.new }
        ensures left { LeavesRoom result near.new list.new }
    {
        let mark = self.note_fired(
            instr,
            token,
            stamp,
            PlainFired::Moved(iteration, value),
            gate,
        );
        let moved = PlainToken {
            iteration,
            ..like(token, value, mark)
        };
        send_plain(instr.dests.as_slice(), &moved, list);
        Taken::Went
    }

    /// The same of one of which this value goes to another tag.
    #[inline(always)]
    fn send_on<G: Gate>(
        &mut self,
        instr: &Instr,
        token: &mut PlainToken,
        stamp: u32,
        target: Target,
        value: Plain,
        near: &mut Near,
        list: &mut Queue,
        gate: &G,
    ) -> Taken
        requires ready { IsReady self.old instr.now token.old stamp near.old list.old }
        requires came { HasFired self.old instr.now token.old (fired.Sent target value) }

        ensures comes { Shoots result (fired.Sent target value) self.old self.new instr.now
            near.old.messages near.new.messages list.old.messages list.new.messages token.old token.new }
        ensures left { LeavesRoom result near.new list.new }
    {
        let mark = self.note_fired(instr, token, stamp, PlainFired::Sent(target, value), gate);
        send_to(target, &like(token, value, mark), list);
        Taken::Went
    }

    /// The same of one that asks a cell, with the reply to this instruction.
    #[inline(always)]
    fn ask<G: Gate>(
        &mut self,
        instr: &Instr,
        token: &mut PlainToken,
        stamp: u32,
        cell: PlainCell,
        reply: u32,
        near: &mut Near,
        list: &mut Queue,
        gate: &G,
    ) -> Taken
        requires ready { IsReady self.old instr.now token.old stamp near.old list.old }
        requires came { HasFired self.old instr.now token.old (fired.Asked cell reply) }

        ensures comes { Shoots result (fired.Asked cell reply) self.old self.new instr.now
            near.old.messages near.new.messages list.old.messages list.new.messages token.old token.new }
        ensures left { LeavesRoom result near.new list.new }
    {
        let mark = self.note_fired(instr, token, stamp, PlainFired::Asked(cell, reply), gate);
        let asks = PlainToken {
            instr: reply,
            ..like(token, token.value, mark)
        };
        list.push_read_reserved(&asks, cell);
        Taken::Went
    }

    /// The same of one of which this value goes to a cell.
    #[inline(always)]
    fn fill<G: Gate>(
        &mut self,
        instr: &Instr,
        token: &mut PlainToken,
        stamp: u32,
        cell: PlainCell,
        value: Plain,
        near: &mut Near,
        list: &mut Queue,
        gate: &G,
    ) -> Taken
        requires ready { IsReady self.old instr.now token.old stamp near.old list.old }
        requires came { HasFired self.old instr.now token.old (fired.Stored cell value) }

        ensures comes { Shoots result (fired.Stored cell value) self.old self.new instr.now
            near.old.messages near.new.messages list.old.messages list.new.messages token.old token.new }
        ensures left { LeavesRoom result near.new list.new }
    {
        let mark = self.note_fired(instr, token, stamp, PlainFired::Stored(cell, value), gate);
        list.push_write_reserved(&like(token, token.value, mark), cell, value);
        Taken::Went
    }

    /// The same of a signal that enters this block, which is to reply to this instruction, at an operator of one port:
    /// in full where the names of the contexts are not small.
    #[inline(never)]
    fn enter<G: Gate>(
        &mut self,
        instr: &Instr,
        token: &mut PlainToken,
        stamp: u32,
        block: u32,
        reply: u32,
        near: &mut Near,
        list: &mut Queue,
        gate: &G,
    ) -> Taken
        requires ready { IsReady self.old instr.now token.old stamp near.old list.old }
        requires makes { MayMake self.old }
        requires port { two_ports instr.now.op ≡ false }
        requires enters { Enters instr.now.op token.old block reply }

        ensures became { Became result (element_at self.old) (element_at self.new) near.old.messages near.new.messages
            list.old.messages list.new.messages token.old token.new }
        ensures left { LeavesRoom result near.new list.new }
    {
        let context = fresh_numbers(self.log.element(), self.contexts, self.structures).context;
        let name = name_of(context.element, context.serial);
        let own = name_of(u32::from(token.element), u64::from(token.serial));
        let (Some(name), Some(own)) = (name, own) else {
            let operands = operand_of(instr.op, token);
            return self.take_full(instr, token, stamp, operands, near, list, gate);
        };
        let mark = Mark {
            position: self.log.len() as u32,
            stamp,
            sender: self.log.element() as u8,
        };
        self.hold(gate);
        let reaction = Reaction {
            fired: Fired::Entered(context),
            verdict: Verdict::Went,
        };
        self.note(instr, &token.message(), u64::from(stamp), &reaction);
        let dests = instr.dests.as_slice();
        let caller = Plain::Continuation(own, token.iteration, reply);
        send_start(&like(token, caller, mark), name, block, dests.len(), list);
        if put_near(dests, Plain::Context(name), mark, token, near) {
            Taken::Next
        } else {
            Taken::Went
        }
    }

    /// Lets the gate hold what was fired in small numbers, records the event, and says where it sends from. There is
    /// room for it. Takes no memory.
    #[inline(always)]
    fn note_fired<G: Gate>(
        &mut self,
        _instr: &Instr,
        token: &PlainToken,
        stamp: u32,
        fired: PlainFired,
        gate: &G,
    ) -> Mark
        requires room { 0 < self.old.log.room }
        requires short { IsShort self.old (most_sent _instr.now) token.now stamp }
        requires own { slice_get self.old.log.graph.instrs token.now.instr ≡ Some _instr.now }
        requires makes_none { MakesNone fired token.now.value }
        requires takes_none { allocated_by _instr.now.op (fired_of (tag_in token.now) fired) ≡ 0 }

        ensures recorded { IsRecorded self.old self.new (message_of token.now) stamp
            (token_outcome self.old _instr.now (tag_in token.now) (fired_of (tag_in token.now) fired) Went) }
        ensures mark { result
            ≡ record { position = length self.old.log.events; stamp = stamp; sender = self.old.log.element } }
    {
        let mark = Mark {
            position: self.log.len() as u32,
            stamp,
            sender: self.log.element() as u8,
        };
        self.hold(gate);
        self.log.push_plain(PlainFiring {
            token,
            stamp,
            fired,
        });
        self.stamp = u64::from(stamp);
        mark
    }

    /// Lets the gate hold what these operands fire in full, sends it behind what is near, and records the event. There
    /// is room for it. Takes no memory.
    #[inline(never)]
    fn take_full<G: Gate>(
        &mut self,
        instr: &Instr,
        token: &PlainToken,
        stamp: u32,
        operands: PlainOperands,
        near: &mut Near,
        list: &mut Queue,
        gate: &G,
    ) -> Taken
        requires ready { IsReady self.old instr.now token.now stamp near.old list.old }
        requires makes { MayMake self.old }
        requires came { HasMet self.old instr.now token.now operands }

        ensures comes { ShootsFull result operands self.old self.new instr.now near.old.messages near.new.messages
            list.old.messages list.new.messages token.now token.now }
        ensures left { LeavesRoom result near.new list.new }
    {
        self.hold(gate);
        near.give_back(list);
        match self.conclude_full(instr, token, stamp, operands, list) {
            Short::Went => Taken::Went,
            Short::Failed(_) => Taken::Failed,
            Short::Apart => unreachable!(),
        }
    }
}
