//! A machine whose messages in flight stand in no order.

ghost use Rattle.std.specs.Prelude.{◌≡◌, ◌<◌, ◌++◌, [], All, length, slice_get};
ghost use Rattle.std.specs.Prelude.{Some, None, Ok, Err, IfOk, IfSome, OnOk};
ghost use Rattle.id_instr.specs.Graph.{Parts};
ghost use Rattle.id_step.specs.declared.step.TakeError.TheVariants.{StampEnd};
ghost use Rattle.id_step.specs.Fits.{Fits};
ghost use Rattle.id_record.specs.declared.kept.Keeps.TheVariants as kept;
ghost use Rattle.id_core.specs.Machines.{start};
ghost use Rattle.id_record.specs.Events.{EventView};
ghost use Rattle.id_tag.specs.declared.Message.{Message};
ghost use Rattle.id_judge.specs.Benches.{Delivers, Differs, IsEnded, IsLast, Replaces};
ghost use Rattle.id_judge.specs.Benches.{world_in};
ghost use Rattle.id_judge.specs.Lines.{AreSmall};
ghost use Rattle.id_judge.specs.Verdicts.{Follows, IsCause, told};

use crate::given::{Given, is_given};
use crate::pool::Pool;
use crate::verdict::Cause;
use id_core::{
    Count, Element, Event, Keeps, Machine, Start, Step, TakeError, fresh_elements, start_flight,
};
use id_flight::Queue;
use id_tag::{Message, route};
use id_valid::Valid;
use std::alloc::{AllocError, Global};
use std::marker::Model;

/// The elements of a machine, what is in flight, and room for what an event sends.
///
/// Keeps: it is a machine, and all that was sent is in flight.
#[derive(Drop)]
pub struct Bench<'a> {
    graph: &'a Valid,
    keeps: Keeps,
    pub elements: Vec<Element<'a>>,
    pub flight: Pool,
    sent: Queue,
}

impl<'a> Model for Bench<'a> {
    ghost use Rattle.std.specs.Prelude.{◌≡◌, []};
    ghost use Rattle.id_core.specs.Machines.{IsMachine};
    ghost use Rattle.id_judge.specs.Benches.{BenchView};
    ghost use Rattle.id_judge.specs.Codes.{coded_bench};

    ghost Value = { BenchView };

    ghost coded = { coded_bench };

    ghost view = { λ b. record {
      graph = b.graph.now;
      keeps = b.keeps;
      elements = b.elements.items;
      flight = b.flight;
    } };

    ghost invariant = { λ b. IsMachine b.graph.now b.keeps b.elements.items b.flight × (b.sent.messages ≡ []) };
}

/// The machine of so many elements at its start, each of which keeps so much of its events.
pub fn start_bench<'a>(
    alloc: Global,
    from: Start<'a, '_>,
    count: Count,
    keeps: Keeps,
) -> Result<Bench<'a>, AllocError>
    ensures graph { IfOk result (λ b. b.graph ≡ from.entry.graph.now) }
    ensures keeps { IfOk result (λ b. b.keeps ≡ keeps) }
    ensures count { IfOk result (λ b. length b.elements ≡ count.number) }
    ensures world { IfOk result
        (λ b. world_in b ≡ start from.entry.graph.now from.entry.inputs.now.values count.number) }
{
    let elements = fresh_elements(alloc, from.graph, count, keeps)?;
    let mut sent = start_flight(alloc, from)?;
    let mut flight = Pool::new(alloc);
    send(&mut flight, &mut sent)?;
    Ok(Bench {
        graph: from.graph,
        keeps,
        elements,
        flight,
        sent,
    })
}

/// Moves what was sent to what is in flight: where memory is wanting, what of it there is memory for.
fn send(flight: &mut Pool, sent: &mut Queue) -> Result<(), AllocError>
    ensures flight { OnOk result (flight.new ≡ flight.old ++ sent.old.messages) }
    ensures sent { sent.new.messages ≡ [] }
    ensures fit { (g : Parts) → All (Fits g) flight.old → All (Fits g) sent.old.messages → All (Fits g) flight.new }
{
    let mut is_lost = false;
    while let Some(message) = sent.pop_front() {
        if flight.add(message).is_err() {
            is_lost = true;
        }
    }
    if is_lost {
        return Err(AllocError);
    }
    Ok(())
}

/// Takes out the message at a position, and moves what was sent to what is in flight.
fn replace(flight: &mut Pool, position: usize, sent: &mut Queue) -> Result<(), AllocError>
    requires { position < length flight.old }
    ensures replaces { OnOk result ((m : Message) → slice_get flight.old position ≡ Some m
        → Replaces m flight.old sent.old.messages flight.new) }
    ensures sent { sent.new.messages ≡ [] }
    ensures fit { (g : Parts) → All (Fits g) flight.old → All (Fits g) sent.old.messages → All (Fits g) flight.new }
{
    flight.take(position);
    send(flight, sent)
}

/// Delivers the message at a position, and answers what it came to: it leaves, its element handles it, and what is sent
/// is in flight.
pub fn deliver(bench: &mut Bench<'_>, position: usize, message: &Message) -> Result<Step, TakeError>
    requires { slice_get bench.old.flight position ≡ Some message.now }
    ensures delivers { IfOk result (λ step. Delivers bench.old message.now step bench.new) }
    ensures end { result ≡ Err StampEnd → IsEnded bench.old message.now }
{
    let number = route(message, bench.elements.len() as u32) as usize;
    match bench.elements[number].take(message, &mut bench.sent) {
        Ok(step) => {
            replace(&mut bench.flight, position, &mut bench.sent)?;
            Ok(step)
        }
        Err(error) => Err(error),
    }
}

/// Lets an event follow, or says why it cannot.
pub fn follow(bench: &mut Bench<'_>, given: &Given) -> Result<Option<Cause>, AllocError>
    requires { bench.old.keeps ≡ kept.All }
    ensures graph { result ≡ Ok None → bench.new.graph ≡ bench.old.graph }
    ensures keeps { result ≡ Ok None → bench.new.keeps ≡ bench.old.keeps }
    ensures count { result ≡ Ok None → length bench.new.elements ≡ length bench.old.elements }
    ensures follows { result ≡ Ok None
        → Follows bench.old.graph (length bench.old.elements) (world_in bench.old) given.now (world_in bench.new) }
    ensures cause { IfOk result (λ o. IfSome o
        (IsCause bench.old.graph (length bench.old.elements) (world_in bench.old) given.now)) }
{
    let message = &given.message;
    let Some(position) = bench.flight.find(message) else {
        return Ok(Some(Cause::NotInFlight));
    };
    let number = route(message, bench.elements.len() as u32);
    if given.element != number {
        return Ok(Some(Cause::OtherElement));
    }
    match deliver(bench, position, message) {
        Ok(_) => Ok(difference(bench, given)),
        Err(TakeError::StampEnd) => Ok(Some(Cause::NoStamp)),
        Err(TakeError::Memory) => Err(AllocError),
    }
}

/// The last event that the element of a message has recorded.
fn last_event<'b>(bench: &'b Bench<'_>, message: &Message) -> Event<'b>
    requires keeps { bench.now.keeps ≡ kept.All }
    requires recorded { (v : EventView) × IsLast bench.now message.now v }
    ensures { (v : EventView) → IsLast bench.now message.now v → told result ≡ v }
{
    let number = route(message, bench.elements.len() as u32) as usize;
    let events = bench.elements[number].events();
    events.event(events.len() - 1)
}

/// In what the event that was delivered differs from the one that was given, where they are of the same message and
/// element.
fn difference(bench: &Bench<'_>, given: &Given) -> Option<Cause>
    requires keeps { bench.now.keeps ≡ kept.All }
    requires recorded { (v : EventView) × IsLast bench.now given.now.message v }
    ensures { (v : EventView) → IsLast bench.now given.now.message v → Differs v given.now result }
{
    let event = last_event(bench, &given.message);
    if event.stamp != given.stamp {
        return Some(Cause::OtherStamp);
    }
    if is_given(&event, given) {
        return None;
    }
    Some(Cause::OtherOutcome)
}

/// Tells that what is in flight is what a machine has. Does nothing.
pub fn tell_small(bench: &Bench<'_>)
    ensures { AreSmall bench.now.flight }
{
    bench.flight.tell_small();
}

/// The machine, with what is in flight in the order in which it stands.
pub fn end_bench<'a>(alloc: Global, bench: Bench<'a>) -> Result<Machine<'a>, AllocError>
    ensures { IfOk result (λ m. m ≡ record {
      graph = bench.entry.graph;
      count = length bench.entry.elements;
      keeps = bench.entry.keeps;
      world = world_in bench.entry;
    }) }
{
    let queue = queue_of(alloc, &bench.flight)?;
    Ok(Machine::resume(bench.graph, bench.keeps, bench.elements, queue))
}

/// Messages in a queue, in the order in which they stand.
fn queue_of(alloc: Global, flight: &Pool) -> Result<Queue, AllocError>
    ensures { IfOk result (λ q. q.messages ≡ flight.now) }
{
    let mut queue = Queue::new(alloc);
    for position in 0..flight.len() {
        let message = flight.message(position);
        queue.push_back(message)?;
    }
    Ok(queue)
}
