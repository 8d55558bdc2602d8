//! What is left after the joins: the calling thread goes on with it.

ghost use Rattle.std.specs.Prelude.{◌≡◌, ◌≢◌, ◌<◌, ◌≤◌, ◌⊎◌, ◌↔◌, All, length};
ghost use Rattle.std.specs.Prelude.{slice_get, IfOk, IsFalse, IsTrue, OnOk};
ghost use Rattle.std.specs.Prelude.{Some};
ghost use Rattle.id_core.specs.Machines.{delivered};
ghost use Rattle.id_core.specs.Steps.{is_ended};
ghost use Rattle.id_record.specs.Events.{AllWent};
ghost use Rattle.id_tag.specs.Routes.{route_of};
ghost use Rattle.id_elements.specs.Runs.{AreHeldBefore, GoesOn, HasWent, IsFinished, IsFree, IsHeldBack};
ghost use Rattle.id_elements.specs.Runs.{StopAtFaults};

use id_core::{Element, Machine, Step, TakeError};
use id_tag::{Message, route};
use std::alloc::AllocError;
use std::sync::Wait;

/// The element that a message is for.
#[inline(always)]
fn element_for<'a, 'b>(machine: &'b Machine<'a>, message: &Message) -> &'b Element<'a>
    ensures { slice_get machine.now.world.elements (route_of message.now.payload machine.now.count)
        ≡ Some result.now.state }
{
    let count = machine.count();
    match machine
        .elements()
        .get(route(message, count.number) as usize)
    {
        Some(element) => element,
        None => unreachable!(),
    }
}

/// Whether an element takes a message no more: it has handled `steps` messages, or no stamp is left for it there.
#[inline(always)]
fn takes_no_more(element: &Element<'_>, message: &Message, steps: u64) -> bool
    ensures held { IsTrue result
        → (length element.now.state.events ≡ steps) ⊎ IsTrue (is_ended element.now.state message.now) }
    ensures some { IsFalse result → length element.now.state.events ≢ steps }
    ensures stamp { IsFalse result → IsFalse (is_ended element.now.state message.now) }
{
    element.handled() as u64 == steps || element.is_ended(message)
}

/// Whether the message at a position is held back: the element that it is for has handled `steps` messages, or no stamp
/// is left for it there.
pub fn is_held_back(machine: &Machine<'_>, position: usize, steps: u64) -> bool
    requires { position < length machine.now.world.flight }
    ensures held { IsTrue result → (m : Message) → slice_get machine.now.world.flight position ≡ Some m
        → IsHeldBack machine.now.count steps machine.now.world m }
    ensures free { IsFalse result → IsFree machine.now.count steps machine.now.world position }
{
    let message = machine.in_flight().message(position);
    takes_no_more(element_for(machine, &message), &message, steps)
}

/// The first position from this one on whose message is not held back, or how many messages are in flight, if there is
/// none.
pub fn first_free(machine: &Machine<'_>, from: usize, steps: u64) -> usize
    requires from { from ≤ length machine.now.world.flight }
    requires held { AreHeldBefore machine.now.count steps machine.now.world from }
    ensures bound { result ≤ length machine.now.world.flight }
    ensures held { AreHeldBefore machine.now.count steps machine.now.world result }
    ensures free { result ≢ length machine.now.world.flight
        → IsFree machine.now.count steps machine.now.world result }
{
    let len = machine.in_flight().len();
    for position in from..len {
        if !is_held_back(machine, position, steps) {
            return position;
        }
    }
    len
}

/// Whether every event of these elements went well.
fn all_went_in(elements: &[Element<'_>]) -> bool
    ensures { IsTrue result ↔ All (λ e. AllWent e.state.events) elements.now }
{
    elements.iter().all(|element| element.all_went())
}

/// Whether every event of a machine went well.
fn all_went(machine: &Machine<'_>) -> bool
    ensures { IsTrue result ↔ HasWent machine.now.world }
{
    all_went_in(machine.elements())
}

/// Delivers the message at a position, which is not held back, and says whether its event went well.
pub fn deliver(machine: &mut Machine<'_>, position: usize, steps: u64) -> Result<bool, AllocError>
    requires { IsFree machine.old.count steps machine.old.world position }
    ensures world { OnOk result (machine.new ≡ record machine.old {
      world = delivered machine.old.graph machine.old.count machine.old.world position;
    }) }
    ensures failed { IfOk result (λ b. IsFalse b → HasWent machine.new.world → ⊥) }
    ensures went { IfOk result (λ b. HasWent machine.old.world
        → (IsTrue b → HasWent machine.new.world) × StopAtFaults machine.new.world) }
{
    match machine.deliver(position) {
        Ok(Step::Went) => Ok(true),
        Ok(Step::Fault(_)) => Ok(false),
        Ok(Step::Stuck) => Ok(false),
        Err(TakeError::StampEnd) => unreachable!(),
        Err(TakeError::Memory) => Err(AllocError),
    }
}

/// Goes on with the messages that are left until a fault, or until each that is left is held back. It takes the first
/// that is not held back, and looks at no message in front of that again: what is held back stays so, and what is sent
/// goes last. Where an event was a fault already, it delivers nothing.
pub fn finish<R: Wait>(rt: &R, machine: &mut Machine<'_>, steps: u64) -> Result<(), AllocError>
    requires { All (λ s. length s.events ≤ steps) machine.old.world.elements }
    ensures { OnOk result (IsFinished steps machine.old machine.new) }
{
    if !all_went(machine) {
        return Ok(());
    }
    let mut position = 0usize;
    for _ in rt.forever() {
        position = first_free(machine, position, steps);
        if position == machine.in_flight().len() {
            return Ok(());
        }
        if !deliver(machine, position, steps)? {
            return Ok(());
        }
    }
    unreachable!()
}
