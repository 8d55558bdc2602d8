// What no clause says: that letters and doors cross threads, that allocations succeed, and in which order letters come.
ghost use Rattle.std.specs.Prelude.{◌≡◌, ◌<◌, ℕ, All, IfOk, OnOk, length, slice_index_or, vec_len};
ghost use Rattle.id_inbox.specs.Doors.{DoorView};

use crate::door::Door;
use id_flight::Queue;
use id_instr::Port;
use id_tag::{Cell, Context, Message, Payload, Sender, Structure, Tag, Value};
use std::alloc::{AllocError, Global};
use std::sync::Wait;
use std::test::Fail;
use std::thread;
use std::thread::Threads;

fn crosses<T: Send + Drop>(_value: T) {}

/// The tag of an instruction in the context of this serial number.
fn tag(serial: u64) -> Tag {
    Tag {
        context: Context { element: 3, serial },
        iteration: 2,
        instr: 5,
    }
}

fn cell(low: i64) -> Cell {
    Cell {
        structure: Structure {
            element: 1,
            serial: 4,
            low,
            high: 9,
            nested: false,
        },
        index: 7,
    }
}

/// A message from element 6, of a stamp.
fn message(payload: Payload, stamp: u64) -> Message {
    Message {
        payload,
        sender: Sender::Element(6),
        position: 8,
        output: 1,
        stamp,
    }
}

fn token(value: Value, stamp: u64) -> Message {
    let payload = Payload::Token {
        tag: tag(2),
        port: Port::One,
        value,
    };
    message(payload, stamp)
}

fn start() -> Message {
    Message {
        sender: Sender::Start,
        ..token(Value::Signal, 0)
    }
}

fn read() -> Message {
    let payload = Payload::Read {
        cell: cell(0),
        reply: tag(2),
    };
    message(payload, 10)
}

fn write() -> Message {
    let payload = Payload::Write {
        cell: cell(0),
        value: Value::Bool(true),
        origin: tag(2),
    };
    message(payload, 10)
}

/// The letter of one message.
fn letter_of(alloc: Global, message: &Message) -> Result<Queue, AllocError> {
    let mut letter = Queue::new(alloc);
    letter.push_back(*message)?;
    Ok(letter)
}

/// The message that comes out of a letter.
fn posted(alloc: Global, message: &Message) -> Result<Option<Message>, Fail> {
    let mut letter = letter_of(alloc, message)?;
    Ok(letter.pop_front())
}

/// Sends a message through a door.
fn send<R: Wait>(
    rt: &R,
    alloc: Global,
    door: &mut Door,
    message: &Message,
) -> Result<(), AllocError>
    requires { 0 < door.old.hand.parts }
    ensures queue { door.new.queue ≡ door.old.queue }
    ensures parts { door.new.hand.parts ≡ door.old.hand.parts }
{
    let letter = letter_of(alloc, message)?;
    match door.push(rt, letter) {
        Ok(()) => Ok(()),
        Err(_) => Err(AllocError),
    }
}

/// Takes a message through a door.
fn take<R: Wait>(rt: &R, door: &mut Door) -> Option<Message>
    requires { 0 < door.old.hand.parts }
    ensures queue { door.new.queue ≡ door.old.queue }
    ensures parts { door.new.hand.parts ≡ door.old.hand.parts }
{
    let mut letter = door.pop(rt)?;
    letter.pop_front()
}

#[test]
fn a_letter_keeps_its_message(rt: HostRuntime) -> Result<(), Fail> {
    let far = -0x1_0000_0000;
    let messages = [
        token(Value::Int(-1), 10),
        token(Value::Structure(cell(far).structure), 10),
        token(Value::Address(cell(far)), 10),
        read(),
        write(),
        // No parcel has room for these.
        start(),
        token(Value::Continuation(tag(0x1_0000_0000)), 10),
        token(Value::Signal, 0x1_0000_0000),
    ];
    for message in &messages {
        assert!(rt; posted(rt.alloc(), message)? == Some(*message));
    }
    Ok(())
}

#[test]
fn a_door_and_its_twin_share_an_inbox(rt: HostRuntime) -> Result<(), Fail> {
    let mut door = Door::open(rt.alloc())?;
    let mut twin = door.split()?;
    send(&rt, rt.alloc(), &mut door, &start())?;
    send(&rt, rt.alloc(), &mut twin, &read())?;
    let first = take(&rt, &mut twin);
    let second = take(&rt, &mut door);
    let third = take(&rt, &mut twin);
    door.absorb(twin);
    assert!(rt; first == Some(start()));
    assert!(rt; second == Some(read()));
    assert!(rt; third.is_none());
    assert!(rt; take(&rt, &mut door).is_none());
    Ok(())
}

#[test]
fn letters_and_doors_cross_threads(rt: HostRuntime) -> Result<(), Fail> {
    crosses(letter_of(rt.alloc(), &start())?);
    crosses(Door::open(rt.alloc())?);
    Ok(())
}

/// The message that the pusher of this number alone sends.
fn own_of(number: usize) -> Message {
    token(Value::Signal, number as u64)
}

/// Sends the message that the pusher of this number alone sends, twice, and between them one that all send.
fn push_three<R: Wait>(
    rt: &R,
    alloc: Global,
    number: usize,
    door: &mut Door,
) -> Result<(), AllocError>
    requires { 0 < door.old.hand.parts }
    ensures { door.new.queue ≡ door.old.queue }
{
    send(rt, alloc, door, &own_of(number))?;
    send(rt, alloc, door, &start())?;
    send(rt, alloc, door, &own_of(number))
}

/// So many other doors to an inbox.
fn split_off(alloc: Global, door: &mut Door, count: u64) -> Result<Vec<Door>, AllocError>
    requires { count < door.old.hand.parts }
    ensures len { IfOk result (λ ds. vec_len ds ≡ count) }
    ensures queues { IfOk result (λ ds. All (λ (d : DoorView). d.queue ≡ door.new.queue) ds.items) }
    ensures parts { IfOk result (λ ds. All (λ (d : DoorView). 0 < d.hand.parts) ds.items) }
    ensures left { OnOk result (0 < door.new.hand.parts) }
{
    let mut others = Vec::new(alloc);
    for _number in 0..count {
        others.push(door.split()?)?;
    }
    Ok(others)
}

/// Lets each of these doors push on a thread of its own. What a thread could not push is missed when all is counted.
fn push_all<R: Threads + Wait + Sync>(rt: &R, alloc: Global, doors: &mut [Door])
    requires some { 0 < length doors.old }
    requires parts { All (λ (d : DoorView). 0 < d.hand.parts) doors.old }
    ensures { (i : ℕ) (d : DoorView) → i < length doors.old
        → (slice_index_or doors.new i d).queue ≡ (slice_index_or doors.old i d).queue }
{
    let count = doors.len();
    thread::for_each_mut(
        rt,
        doors,
        count,
        &|number, door| {
            let _pushed = push_three(rt, alloc, number, door);
        },
    );
}

/// Takes in all other doors to an inbox.
fn absorb_all(door: &mut Door, others: Vec<Door>)
    requires left { 0 < door.old.hand.parts }
    requires queues { All (λ (d : DoorView). d.queue ≡ door.old.queue) others.items }
    ensures { 0 < door.new.hand.parts }
{
    let mut others = others;
    while let Some(other) = others.pop() {
        door.absorb(other);
    }
}

/// All that comes out of an inbox.
fn take_all<R: Wait>(rt: &R, alloc: Global, door: &mut Door) -> Result<Vec<Message>, AllocError>
    requires { 0 < door.old.hand.parts }
{
    let mut taken = Vec::new(alloc);
    for _ in rt.forever() {
        match take(rt, door) {
            Some(message) => taken.push(message)?,
            None => return Ok(taken),
        }
    }
    unreachable!()
}

/// All that comes out of an inbox that so many doors push to at once.
fn pushed_at_once<R: Threads + Wait + Sync>(
    rt: &R,
    alloc: Global,
    count: u64,
) -> Result<Vec<Message>, AllocError>
    requires some { 0 < count }
    requires few { count < 1024 }
{
    let mut door = Door::open(alloc)?;
    let mut others = split_off(alloc, &mut door, count)?;
    push_all(rt, alloc, others.as_mut_slice());
    absorb_all(&mut door, others);
    take_all(rt, alloc, &mut door)
}

/// How often a message is among these.
fn times(messages: &[Message], message: &Message) -> usize {
    messages.iter().filter(|one| *one == message).count()
}

#[test]
fn what_63_doors_push_is_taken_as_often(rt: HostRuntime) -> Result<(), Fail> {
    let taken = pushed_at_once(&rt, rt.alloc(), 63)?;
    assert_eq!(rt; taken.len(), 189);
    assert_eq!(rt; times(taken.as_slice(), &start()), 63);
    for number in 0..63 {
        assert_eq!(rt;
            times(taken.as_slice(), &own_of(number)),
            2,
            "door {number}"
        );
    }
    Ok(())
}
