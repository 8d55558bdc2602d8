//! The doors to all inboxes.

ghost use Rattle.std.specs.Prelude.{◌≡◌, ◌<◌, ◌≤◌, ◌+◌, ◌∷◌, [], ℕ, All, IfOk, List, OnErr};
ghost use Rattle.std.specs.Prelude.{length, vec_len, OnOk};
ghost use Rattle.id_tag.specs.declared.Message.{Message};
ghost use Rattle.std.specs.List.{sum_by};
ghost use Rattle.id_step.specs.Steps.{State};
ghost use Rattle.id_inbox.specs.Hands.{sending};
ghost use Rattle.id_elements.specs.Doors.{AreUnused, HaveParts, IsCut, IsDrained, IsMerged, queues_of};
ghost use Rattle.id_elements.specs.Gathered.{IsWhole};
ghost use Rattle.id_runs.specs.Accounts.{IsAccounted};

use id_flight::Queue;
use id_inbox::Door;
use id_tag::{Message, route};
use std::alloc::{AllocError, Global};
use std::sync::Wait;

/// The first doors to so many new inboxes.
pub fn open_all(alloc: Global, count: u32) -> Result<Vec<Door>, AllocError>
    ensures len { IfOk result (λ ds. vec_len ds ≡ count) }
    ensures parts { IfOk result (λ ds. HaveParts 1024 ds.items) }
    ensures unused { IfOk result (λ ds. AreUnused ds.items) }
{
    let mut doors = Vec::new(alloc);
    for _number in 0..count {
        doors.push(Door::open(alloc)?)?;
    }
    Ok(doors)
}

/// Puts a message into an inbox, in a letter of its own.
fn put<R: Wait>(rt: &R, alloc: Global, door: &mut Door, message: Message) -> Result<(), AllocError>
    requires { 0 < door.old.hand.parts }
    ensures ok { OnOk result
        (door.new ≡ record door.old { hand = sending door.old.hand (message ∷ []); saw = door.new.saw }) }
    ensures err { OnErr result (door.new ≡ record door.old { saw = door.new.saw }) }
{
    let mut letter = Queue::new(alloc);
    letter.push_back(message)?;
    match door.push(rt, letter) {
        Ok(()) => Ok(()),
        Err(_) => Err(AllocError),
    }
}

/// Puts the start messages into the inboxes of the elements that they are for.
pub fn send_start<R: Wait>(
    rt: &R,
    alloc: Global,
    doors: &mut Vec<Door>,
    start: &Queue,
) -> Result<(), AllocError>
    requires some { 0 < vec_len doors.old }
    requires few { vec_len doors.old ≤ 64 }
    requires parts { HaveParts 1024 doors.old.items }
    requires unused { AreUnused doors.old.items }
    ensures len { vec_len doors.new ≡ vec_len doors.old }
    ensures parts { HaveParts 1024 doors.new.items }
    ensures whole { OnOk result (IsWhole start.now.messages doors.new.items [] []) }
{
    let count = doors.len() as u32;
    for position in 0..start.len() {
        let message = start.message(position);
        let to = route(&message, count) as usize;
        put(rt, alloc, &mut doors[to], message)?;
    }
    Ok(())
}

/// Another door to each inbox.
pub fn split_all(alloc: Global, doors: &mut Vec<Door>) -> Result<Vec<Door>, AllocError>
    requires { All (λ d. 1 < d.hand.parts) doors.old.items }
    ensures queues { IfOk result (λ ds. queues_of ds.items ≡ queues_of doors.old.items) }
    ensures parts { IfOk result (λ ds. HaveParts 1 ds.items) }
    ensures unused { IfOk result (λ ds. AreUnused ds.items) }
    ensures cut { OnOk result (IsCut doors.old.items doors.new.items) }
{
    let mut theirs = Vec::new(alloc);
    for number in 0..doors.len() {
        theirs.push(doors[number].split()?)?;
    }
    Ok(theirs)
}

/// Takes in a door to each inbox.
pub fn absorb_all(doors: &mut Vec<Door>, mut theirs: Vec<Door>)
    requires queues { queues_of theirs.items ≡ queues_of doors.old.items }
    requires parts { HaveParts 1 theirs.items }
    ensures { IsMerged doors.old.items theirs.items doors.new.items }
{
    while let Some(other) = theirs.pop() {
        let number = theirs.len();
        doors[number].absorb(other);
    }
}

/// Keeps all messages of a list.
pub fn keep_rest(left: &mut Queue, rest: Queue) -> Result<(), AllocError>
    ensures { OnOk result ((f : Message → ℕ)
        → sum_by f left.new.messages ≡ sum_by f left.old.messages + sum_by f rest.messages) }
{
    let mut rest = rest;
    left.reserve(rest.len())?;
    while let Some(message) = rest.pop_front() {
        left.push_back_reserved(message);
    }
    Ok(())
}

/// Takes out what is left in an inbox, of which this is the one door.
pub fn drain<R: Wait>(rt: &R, door: &mut Door, left: &mut Queue) -> Result<(), AllocError>
    requires { door.old.hand.parts ≡ 1024 }
    ensures { OnOk result (IsDrained door.old left.old.messages door.new left.new.messages) }
{
    for _ in rt.forever() {
        match door.pop(rt) {
            Some(letter) => keep_rest(left, letter)?,
            None => return Ok(()),
        }
    }
    unreachable!()
}

/// Takes out what is left in all inboxes.
pub fn drain_all<R: Wait>(rt: &R, doors: &mut Vec<Door>, left: &mut Queue) -> Result<(), AllocError>
    requires { HaveParts 1024 doors.old.items }
    ensures { OnOk result ((start : List Message) (ss : List State)
        → IsWhole start doors.old.items ss left.old.messages → IsAccounted start ss left.new.messages) }
{
    for number in 0..doors.len() {
        drain(rt, &mut doors[number], left)?;
    }
    Ok(())
}
