//! Want of memory: a call that it refuses has changed nothing, and goes well when it is made once more.
//!
//! With ample memory nothing is refused here. `rt try --test --fail-alloc N` refuses the Nth allocation of each test.

ghost use Rattle.std.specs.Prelude.{◌<◌};

use crate::countdown::counting;
use crate::graphs::countdown;
use crate::rows::main_tag;
use id_bank::{Bank, ReadAnswer, WriteAnswer};
use id_core::Machine;
use id_graph::Port;
use id_match::{Offered, Waiting};
use id_tag::{Cell, Structure, Tag, Value};
use id_valid::Valid;
use std::alloc::{AllocError, Global};
use std::process::Abort;
use std::test::Fail;

/// An offer of 3, once more where memory refused it and what waits is as before.
fn offered(waiting: &mut Waiting, tag: Tag, port: Port) -> Option<Offered> {
    let before = (waiting.len(), waiting.frames());
    match waiting.offer(tag, port, Value::Int(3)) {
        Ok(answer) => Some(answer),
        Err(_) if (waiting.len(), waiting.frames()) == before => {
            waiting.offer(tag, port, Value::Int(3)).ok()
        }
        Err(_) => None,
    }
}

/// Whether these offers to so many iterations, of small numbers and of large ones, are all answered so.
fn are_offered(waiting: &mut Waiting, port: Port, wanted: Offered) -> bool {
    (0..300).all(|i| {
        let small = Tag {
            iteration: i,
            ..main_tag(7)
        };
        let large = Tag {
            iteration: i + 0x1_0000_0000,
            ..small
        };
        offered(waiting, small, port) == Some(wanted)
            && offered(waiting, large, port) == Some(wanted)
    })
}

#[test]
fn an_offer_that_memory_refuses_changes_nothing(rt: HostRuntime) {
    let three = Value::Int(3);
    let mut waiting = Waiting::new(rt.alloc());
    assert!(rt; are_offered(&mut waiting, Port::Zero, Offered::Kept));
    assert!(rt; waiting.len() == 600);
    assert!(rt; are_offered(&mut waiting, Port::One, Offered::Pair(three, three)));
    assert!(rt; waiting.len() == 0);
}

/// The cell of an index of a structure with the bounds 0 and 99.
fn cell(index: i64) -> Cell {
    Cell {
        structure: Structure {
            element: 0,
            serial: 1,
            low: 0,
            high: 99,
            nested: false,
        },
        index,
    }
}

/// Whether a read of the cell waits behind so many others, once more where memory refused it and nothing changed.
fn waits_behind(bank: &mut Bank, cell: Cell, others: usize) -> bool
    requires { others < 4 }
{
    let read = match bank.read(cell, main_tag(5)) {
        Err(_) if bank.readers(cell) == others => bank.read(cell, main_tag(5)),
        read => read,
    };
    matches!(read, Ok(ReadAnswer::Deferred)) && bank.readers(cell) == others + 1
}

/// Whether a write to the cell is for so many replies, once more where memory refused it and nothing changed.
fn is_for(bank: &mut Bank, cell: Cell, replies: usize) -> bool {
    let write = match bank.write(cell, Value::Int(3), main_tag(7)) {
        Err(_) if bank.readers(cell) == replies => bank.write(cell, Value::Int(3), main_tag(7)),
        write => write,
    };
    match write {
        Ok(WriteAnswer::Readers(all)) => all.len() == replies && bank.readers(cell) == 0,
        _ => false,
    }
}

#[test]
fn a_read_or_write_that_memory_refuses_changes_nothing(rt: HostRuntime) {
    let mut bank = Bank::new(rt.alloc());
    for index in 0..40 {
        for others in 0..4 {
            assert!(rt; waits_behind(&mut bank, cell(index), others));
        }
    }
    for index in 0..80 {
        assert!(rt; is_for(&mut bank, cell(index), if index < 40 { 4 } else { 0 }));
    }
}

/// How many messages are in flight, and how many each of two elements has handled.
fn counts(machine: &Machine<'_>) -> (usize, usize, usize) {
    match machine.elements() {
        [first, second] => (machine.in_flight().len(), first.handled(), second.handled()),
        _ => (0, 0, 0),
    }
}

/// Whether the first message is delivered, once more where memory refused it and nothing left, came or was handled.
fn is_delivered(machine: &mut Machine<'_>) -> bool {
    if machine.in_flight().is_empty() {
        return false;
    }
    let before = counts(machine);
    match machine.deliver(0) {
        Ok(_) => true,
        Err(_) => counts(machine) == before && before.0 > 0 && machine.deliver(0).is_ok(),
    }
}

/// Whether so many deliveries make a machine of the graph on two elements quiet, where `n` is 20.
fn is_quiet_after(
    rt: &impl Abort,
    alloc: Global,
    graph: &Valid,
    deliveries: u32,
) -> Result<bool, AllocError> {
    let mut machine = counting(rt, alloc, graph, 20, 2)?;
    Ok((0..deliveries).all(|_| is_delivered(&mut machine)) && machine.is_quiet())
}

#[test]
fn a_delivery_that_memory_refuses_changes_nothing(rt: HostRuntime) -> Result<(), Fail> {
    let graph = countdown(&rt, rt.alloc())?;
    // 14 messages for each iteration, and 21 for the rest.
    let quiet = is_quiet_after(&rt, rt.alloc(), &graph, 301)?;
    assert!(rt; quiet);
    Ok(())
}
