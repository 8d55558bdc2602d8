//! What a token does at its instruction, and what is sent for it (docs/MACHINE.md, "Element step").

ghost use Rattle.std.specs.Prelude.{Some, ◌≡◌, ◌≢◌, ◌+◌, ◌-◌, ◌^◌, ◌<◌, ◌≤◌};
ghost use Rattle.std.specs.Prelude.{◌++◌, ◌∷◌, [], ◌||◌, ◌==◌, length, max};
ghost use Rattle.std.specs.Prelude.{IfOk, IfSome, OnOk, OnErr, IfErr, IsTrue, true, false, if◌then◌else◌, map};
ghost use Rattle.id_bank.specs.Cells.{Cells};
ghost use Rattle.id_step.specs.Steps.{allocated_by, answer_fired, arrival, at_instr, fill_verdict, fresh_numbers};
ghost use Rattle.id_step.specs.Steps.{fired_verdict, made_by, waiting_after};
ghost use Rattle.id_step.specs.Shorts.{short_step};
ghost use Rattle.id_record.specs.Sends.{HasSecond, count_started, sent, started, numbered, replies, token_to};
ghost use Rattle.id_tag.specs.declared.Sender.TheVariants.{Element};
ghost use Rattle.id_tag.specs.declared.Payload.TheVariants.{Token};
ghost use Rattle.id_record.specs.declared.step.Verdict.TheVariants as verdict;
ghost use Rattle.id_record.specs.Events.{full_step};
ghost use Rattle.id_tag.specs.Tags.{same_tag};
ghost use Rattle.id_step.specs.declared.step.Arrival.TheVariants.{Fires};
ghost use Rattle.id_step.specs.Firings.{Enters, IsBound, IsFiring, IsMet, IsMost, IsPlainFiring};
ghost use Rattle.id_step.specs.declared.step.PlainOperands.TheVariants as operands;
ghost use Rattle.id_step.specs.Firings.{firing_of, most_sent, operands_in, verdict_of};
ghost use Rattle.id_instr.specs.Ports.{two_ports};
ghost use Rattle.id_match.specs.Waiting.{Store, offer_after, offer_answer, pair_of};
ghost use Rattle.id_match.specs.declared.meeting.Offered.TheVariants.{Pair};
ghost use Rattle.id_tag.specs.Plains.{context_of, message_of, tag_in, whole};
ghost use Rattle.id_tag.specs.declared.plain.Plain.{Plain};
ghost use Rattle.id_instr.specs.declared.dests.Port.TheVariants.{Zero};
ghost use Rattle.id_ops.specs.PlainFired.{MakesNone, fired_of, target_tag};
ghost use Rattle.id_instr.specs.declared.instr.Instr.{Instr};
ghost use Rattle.id_tag.specs.declared.Tag.{Tag};
ghost use Rattle.id_ops.specs.declared.Fresh.{Fresh};
ghost use Rattle.id_ops.specs.declared.Operands.TheVariants.{One, Two};
ghost use Rattle.id_ops.specs.Operators.{fired};
ghost use Rattle.id_ops.specs.declared.Fired.TheVariants.{Entered};
ghost use Rattle.id_instr.specs.Graph.{arcs_on};
ghost use Rattle.id_ops.specs.Operators.{side_of, tag_within};

use crate::step::{Arrival, PlainOperands, Short, TakeError};
use id_bank::{ReadAnswer, WriteAnswer};
use id_flight::Queue;
use id_instr::{Dest, Graph, Instr, Op, Port};
use id_match::{Met, Offered, Waiting};
use id_ops::{Fired, Fresh, Operands, PlainFired, Target, fire, fire_one, fire_two};
use id_record::{
    Envelope, Reaction, Record, Verdict, chosen, count_started, message, moved_to, start, token_at,
    token_to,
};
use id_tag::{Context, Payload, Plain, PlainToken, Tag, Value, element_of, name_of, serial_of};
use std::alloc::AllocError;

/// The stamp of the next event, one above both, where there is one.
#[inline(always)]
pub fn next_stamp(last: u64, message: u64) -> Result<u64, TakeError>
    ensures ok { IfOk result (λ stamp. stamp ≡ max last message + 1) }
    ensures below { OnOk result (message < 2 ^ 64 - 1) }
    ensures last_below { OnOk result (last < 2 ^ 64 - 1) }
    ensures left { OnOk result ((last == 2 ^ 64 - 1) || (message == 2 ^ 64 - 1) ≡ false) }
    ensures end { IfErr result
        (λ e. (e ≡ TakeError.StampEnd) × IsTrue ((last == 2 ^ 64 - 1) || (message == 2 ^ 64 - 1))) }
{
    if last == u64::MAX || message == u64::MAX {
        return Err(TakeError::StampEnd);
    }
    Ok(last.max(message) + 1)
}

/// An upper bound on what one message at this instruction sends.
#[inline(always)]
pub fn most_sent(instr: &Instr) -> usize
    ensures { result ≡ most_sent instr.now }
{
    instr.dests.as_slice().len() + instr.others.as_slice().len() + 3
}

/// An upper bound on what one message sends at any instruction of the graph.
pub fn greatest(graph: &Graph) -> usize
    ensures { IsMost graph.now result }
{
    let instrs = graph.instrs();
    let mut most = 0;
    for i in 0..instrs.len() {
        let own = most_sent(&instrs[i]);
        if own > most {
            most = own;
        }
    }
    most
}

/// An upper bound on what one message sends at any instruction of the graph: above 256 too where the number of the
/// element is not small, so that one number tells of both.
pub fn bound(number: u32, graph: &Graph) -> usize
    ensures { IsBound graph.now number result }
{
    let most = greatest(graph);
    if number <= 0xff || most > 0x100 {
        most
    } else {
        0x101
    }
}

/// Lets a token come to its instruction, at an element with these next numbers. After an error nothing has changed.
pub fn react(
    waiting: &mut Waiting,
    instr: &Instr,
    next: Fresh,
    tag: Tag,
    port: Port,
    value: Value,
) -> Result<Reaction, AllocError>
    requires { tag.iteration < 2 ^ 64 - 1 }
    ensures outcome { IfOk result (λ r. (b : Cells) → at_instr next waiting.old b tag port value (Some instr.now)
        ≡ record {
          fired = r.fired;
          sends = sent (Some instr.now.op) (arcs_on (side_of r.fired) instr.now) tag r.fired;
          step = full_step (Token tag port value) r.verdict;
          waiting = waiting.new;
          cells = b;
          made = made_by r.fired;
          allocated = allocated_by instr.now.op r.fired;
        }) }
    ensures err { OnErr result (waiting.new ≡ waiting.old) }
{
    let arrival = arrive(waiting, instr.op, tag, port, value)?;
    Ok(react_full(instr, next, tag, &arrival))
}

/// What comes of what arrived, in full.
fn react_full(instr: &Instr, next: Fresh, tag: Tag, arrival: &Arrival) -> Reaction
    requires { tag.iteration < 2 ^ 64 - 1 }
    ensures fired { result.fired ≡ firing_of instr.now tag next arrival.now }
    ensures verdict { result.verdict ≡ verdict_of arrival.now result.fired }
{
    let fired = firing(instr, tag, next, arrival);
    let verdict = verdict(arrival, &fired);
    Reaction { fired, verdict }
}

/// What comes of plain operands, in full.
pub fn react_operands(instr: &Instr, next: Fresh, tag: Tag, operands: PlainOperands) -> Reaction
    requires { tag.iteration < 2 ^ 64 - 1 }
    ensures fired { result.fired ≡ firing_of instr.now tag next (Fires (operands_in operands)) }
    ensures verdict { result.verdict ≡ verdict_of (Fires (operands_in operands)) result.fired }
{
    let arrival = Arrival::Fires(match operands {
        PlainOperands::One(value) => Operands::One(value.value()),
        PlainOperands::Two(left, right) => Operands::Two(left.value(), right.value()),
    });
    react_full(instr, next, tag, &arrival)
}

/// What an operator of one port fires on a plain token, where that is in small numbers. Takes no memory.
#[inline(always)]
pub fn fires_one(op: Op, token: &PlainToken) -> Option<PlainFired>
    requires port { two_ports op ≡ false }
    requires iteration { token.now.iteration < 2 ^ 32 - 1 }
    ensures { IfSome result (λ p. (w : Store) → IsPlainFiring op w w token.now p) }
{
    fire_one(op, token.iteration, token.value)
}

/// What an operator of two ports fires on these plain values, of which a plain token is one, where that is in small
/// numbers. Takes no memory.
#[inline(always)]
pub fn fires_two(op: Op, token: &PlainToken, left: Plain, right: Plain) -> Option<PlainFired>
    requires { two_ports op ≡ true }
    ensures { IfSome result (λ p. (w later : Store)
        → IsFiring op w later token.now (operands.Two left right) → IsPlainFiring op w later token.now p) }
{
    fire_two(op, left, right)
}

/// The block that the operator enters and the instruction to which that replies, where a plain token is a signal at an
/// operator that enters one. Takes no memory.
#[inline(always)]
pub fn enters(op: Op, token: &PlainToken) -> Option<(u32, u32)>
    ensures { IfSome result (λ b. Enters op token.now b.0 b.1) }
{
    match (op, token.value) {
        (Op::Enter { block, reply }, Plain::Signal) => Some((block, reply)),
        _ => None,
    }
}

/// Offers a plain token at an operator of two ports to what waits, in short where that is in reach. After an error
/// nothing has changed.
#[inline(always)]
pub fn offer(waiting: &mut Waiting, op: Op, token: &PlainToken) -> Result<Met, AllocError>
    requires { two_ports op ≡ true }
    ensures met { IfOk result (IsMet op waiting.old waiting.new token.now) }
    ensures err { OnErr result (waiting.new ≡ waiting.old) }
{
    match waiting.offer_plain(token)? {
        Met::Kept => Ok(Met::Kept),
        Met::Partner(partner) => Ok(Met::Partner(partner)),
        Met::Apart => Ok(Met::Apart),
    }
}

/// The operand of a plain token at an operator of one port. Takes no memory.
#[inline(always)]
pub fn operand_of(op: Op, token: &PlainToken) -> PlainOperands
    requires { two_ports op ≡ false }
    ensures { (w : Store) → IsFiring op w w token.now result }
{
    PlainOperands::One(token.value)
}

/// The two values by port, of which `value` came to this port.
#[inline(always)]
pub fn by_port(port: Port, value: Plain, partner: Plain) -> (Plain, Plain)
    ensures { Pair (whole result.0) (whole result.1) ≡ pair_of port (whole value) (whole partner) }
{
    match port {
        Port::Zero => (value, partner),
        Port::One => (partner, value),
    }
}

/// Fires an instruction of one port, and offers a token for one of two ports. After an error nothing has changed.
fn arrive(
    waiting: &mut Waiting,
    op: Op,
    tag: Tag,
    port: Port,
    value: Value,
) -> Result<Arrival, AllocError>
    ensures arrival { IfOk result (λ a. a ≡ arrival op waiting.old tag port value) }
    ensures after { OnOk result (waiting.new ≡ waiting_after op waiting.old tag port value) }
    ensures err { OnErr result (waiting.new ≡ waiting.old) }
{
    if !op.two_ports() {
        return Ok(Arrival::Fires(Operands::One(value)));
    }
    match waiting.offer(tag, port, value)? {
        Offered::Kept => Ok(Arrival::Waits),
        Offered::Pair(left, right) => Ok(Arrival::Fires(Operands::Two(left, right))),
        Offered::Taken => Ok(Arrival::Blocked),
    }
}

/// What the instruction does with what arrived: nothing where the token waits or is blocked.
fn firing(instr: &Instr, tag: Tag, next: Fresh, arrival: &Arrival) -> Fired
    requires { tag.iteration < 2 ^ 64 - 1 }
    ensures { result ≡ firing_of instr.now tag next arrival.now }
{
    match *arrival {
        Arrival::Fires(operands) => fire(instr, tag, operands, next),
        Arrival::Waits | Arrival::Blocked => Fired::Nothing,
    }
}

/// The numbers that an element gives next, where it has made so many contexts and so many structures. Takes no memory.
#[inline(always)]
pub fn fresh_numbers(number: u32, contexts: u64, structures: u64) -> Fresh
    requires contexts { contexts + 1 < 2 ^ 64 }
    requires structures { structures + 1 < 2 ^ 64 }
    ensures { result ≡ fresh_numbers number contexts structures }
{
    Fresh {
        context: Context {
            element: number,
            serial: contexts + 1,
        },
        element: number,
        structure: structures + 1,
    }
}

/// How many contexts a firing takes. Takes no memory.
pub fn made_by(fired: &Fired) -> u64
    ensures { result ≡ made_by fired.now }
{
    match *fired {
        Fired::Entered(_) => 1,
        _ => 0,
    }
}

/// How many structures a firing of the operator takes. Takes no memory.
pub fn allocated_by(op: Op, fired: &Fired) -> u64
    ensures { result ≡ allocated_by op fired.now }
{
    match op {
        Op::Alloc { .. } => match *fired {
            Fired::Out(_) => 1,
            _ => 0,
        },
        _ => 0,
    }
}

/// What the answer to a read fires. Takes no memory.
pub fn answer_fired(reply: Tag, answer: ReadAnswer) -> Fired
    ensures { result ≡ answer_fired reply answer }
{
    match answer {
        ReadAnswer::Now(value) => Fired::Sent(reply, value),
        ReadAnswer::Deferred => Fired::Nothing,
    }
}

/// What a write of this origin comes to. Takes no memory.
pub fn fill_verdict(origin: Tag, answer: &WriteAnswer) -> Verdict
    ensures { result ≡ fill_verdict origin answer.now }
{
    match answer {
        WriteAnswer::Readers(_) => Verdict::Went,
        WriteAnswer::Second(first) => second_verdict(*first, origin),
    }
}

/// What a write comes to that finds the value of a store of this tag: a write never comes twice.
fn second_verdict(first: Tag, origin: Tag) -> Verdict
    ensures { result ≡ (if same_tag first origin then verdict.Stuck else verdict.Second first) }
{
    if first == origin {
        Verdict::Stuck
    } else {
        Verdict::Second(first)
    }
}

/// What the record keeps of an event.
fn verdict(arrival: &Arrival, fired: &Fired) -> Verdict
    ensures { result ≡ verdict_of arrival.now fired.now }
{
    match *arrival {
        Arrival::Blocked => Verdict::Stuck,
        Arrival::Fires(_) | Arrival::Waits => match *fired {
            Fired::Failed(fault) => Verdict::Failed(fault),
            _ => Verdict::Went,
        },
    }
}

/// What becomes of a plain token that fired this: it went well, or its instruction failed. Takes no memory.
#[inline(always)]
pub fn short_of(fired: &Fired) -> Short
    ensures { (t : Tag) (p : Port) (v : Value)
        → short_step t result ≡ Some (full_step (Token t p v) (fired_verdict fired.now)) }
{
    match *fired {
        Fired::Failed(fault) => Short::Failed(fault),
        _ => Short::Went,
    }
}

/// Appends the outputs of a firing, for which there is room. Takes no memory.
pub fn send(instr: &Instr, tag: Tag, fired: &Fired, envelope: Envelope, outputs: &mut Queue)
    requires room { most_sent instr.now ≤ outputs.old.room }
    requires second { HasSecond (Some instr.now.op) }
    ensures { outputs.new.messages ≡ outputs.old.messages
        ++ numbered envelope.number envelope.position envelope.stamp 0
        (sent (Some instr.now.op) (arcs_on (side_of fired.now) instr.now) tag fired.now) }
{
    let dests = chosen(instr, fired);
    match *fired {
        Fired::Out(value) | Fired::Side(_, value) => send_all(dests, tag, value, envelope, outputs),
        Fired::Moved(iteration, value) => {
            send_all(dests, moved_to(tag, iteration), value, envelope, outputs)
        }
        Fired::Entered(context) => {
            send_all(dests, tag, Value::Context(context), envelope, outputs);
            send_start(instr.op, tag, context, dests.len(), envelope, outputs);
        }
        Fired::Sent(target, value) => {
            outputs.push_back_reserved(message(envelope, 0, token_at(target, value)));
        }
        Fired::Asked { cell, reply } => {
            outputs.push_back_reserved(message(envelope, 0, Payload::Read { cell, reply }));
        }
        Fired::Stored {
            cell,
            value,
            origin,
        } => {
            let write = Payload::Write {
                cell,
                value,
                origin,
            };
            outputs.push_back_reserved(message(envelope, 0, write));
        }
        Fired::Failed(_) | Fired::Nothing => {}
    }
}

/// Appends what starts the block that the operator names, with numbers from this one on.
#[inline(never)]
fn send_start(
    op: Op,
    tag: Tag,
    context: Context,
    number: usize,
    envelope: Envelope,
    outputs: &mut Queue,
)
    requires room { count_started (Some op) ≤ outputs.old.room }
    requires number { number < 2 ^ 63 }
    requires second { HasSecond (Some op) }
    ensures { outputs.new.messages ≡ outputs.old.messages
        ++ numbered envelope.number envelope.position envelope.stamp number (started (Some op) tag context) }
{
    if let Op::Enter { .. } = op {
        let signal = start(Some(op), tag, context, 0);
        outputs.push_back_reserved(message(envelope, number, signal));
        let continuation = start(Some(op), tag, context, 1);
        outputs.push_back_reserved(message(envelope, number + 1, continuation));
    }
}

/// Appends one token for each destination, in order.
fn send_all(dests: &[Dest], tag: Tag, value: Value, envelope: Envelope, outputs: &mut Queue)
    requires { length dests.now ≤ outputs.old.room }
    ensures messages { outputs.new.messages
        ≡ outputs.old.messages
        ++ numbered envelope.number envelope.position envelope.stamp 0 (map (token_to tag value) dests.now) }
    ensures room { outputs.old.room ≤ outputs.new.room + length dests.now }
{
    for (number, dest) in dests.iter().enumerate() {
        outputs.push_back_reserved(message(envelope, number, token_to(tag, value, *dest)));
    }
}

/// Appends a token with this value for each reply, in order, and adds the replies to those of the next event of the
/// record. There is room for both. Takes no memory.
pub fn send_replies(
    readers: &[Tag],
    value: Value,
    envelope: Envelope,
    log: &mut Record<'_>,
    outputs: &mut Queue,
)
    requires room { length readers.now ≤ outputs.old.room }
    requires room_for_replies { length readers.now ≤ log.old.room_for_replies }
    ensures messages { outputs.new.messages ≡ outputs.old.messages
        ++ numbered envelope.number envelope.position envelope.stamp 0 (replies value readers.now) }
    ensures replies { log.new.replies ≡ log.old.replies ++ readers.now }
    ensures events { log.new.events ≡ log.old.events }
    ensures number { log.new.element ≡ log.old.element }
    ensures graph { log.new.graph ≡ log.old.graph }
    ensures keeps { log.new.keeps ≡ log.old.keeps }
    ensures room_in_log { log.new.room ≡ log.old.room }
{
    for (number, reader) in readers.iter().enumerate() {
        outputs.push_back_reserved(message(envelope, number, token_at(*reader, value)));
        log.add_reply(*reader);
    }
}
