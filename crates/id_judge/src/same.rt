//! Whether two messages are one, and so of what was fired and what an event came to.

ghost use Rattle.std.specs.Prelude.{◌≡◌, ◌↔◌, IsTrue};
ghost use Rattle.id_tag.specs.declared.Payload.TheVariants.{Token, Read, Write};

use id_instr::Port;
use id_ops::Fired;
use id_record::{Fault, Step};
use id_tag::{Cell, Message, Payload, Sender, Structure, Tag, Value};

/// Whether two cells are one. Takes no memory.
fn same_cell(a: Cell, b: Cell) -> bool
    ensures { IsTrue result ↔ (a ≡ b) }
{
    same_structure(a.structure, b.structure) && a.index == b.index
}

fn same_structure(a: Structure, b: Structure) -> bool
    ensures { IsTrue result ↔ (a ≡ b) }
{
    a == b
}

/// Whether two values are one. Takes no memory.
fn same_value(a: Value, b: Value) -> bool
    ensures { IsTrue result ↔ (a ≡ b) }
{
    match a {
        Value::Signal => matches!(b, Value::Signal),
        Value::Int(x) => match b {
            Value::Int(y) => x == y,
            _ => false,
        },
        Value::Bool(x) => match b {
            Value::Bool(y) => x == y,
            _ => false,
        },
        Value::Structure(x) => match b {
            Value::Structure(y) => x == y,
            _ => false,
        },
        Value::Address(x) => match b {
            Value::Address(y) => same_cell(x, y),
            _ => false,
        },
        Value::Context(x) => match b {
            Value::Context(y) => x == y,
            _ => false,
        },
        Value::Continuation(x) => match b {
            Value::Continuation(y) => x == y,
            _ => false,
        },
    }
}

fn same_sender(a: Sender, b: Sender) -> bool
    ensures { IsTrue result ↔ (a ≡ b) }
{
    match a {
        Sender::Start => matches!(b, Sender::Start),
        Sender::Element(x) => match b {
            Sender::Element(y) => x == y,
            _ => false,
        },
    }
}

fn same_token(tag: Tag, port: Port, value: Value, other: Payload) -> bool
    ensures { IsTrue result ↔ (Token tag port value ≡ other) }
{
    match other {
        Payload::Token {
            tag: t,
            port: p,
            value: v,
        } => tag == t && port == p && same_value(value, v),
        _ => false,
    }
}

fn same_read(cell: Cell, reply: Tag, other: Payload) -> bool
    ensures { IsTrue result ↔ (Read cell reply ≡ other) }
{
    match other {
        Payload::Read { cell: c, reply: r } => same_cell(cell, c) && reply == r,
        _ => false,
    }
}

fn same_write(cell: Cell, value: Value, origin: Tag, other: Payload) -> bool
    ensures { IsTrue result ↔ (Write cell value origin ≡ other) }
{
    match other {
        Payload::Write {
            cell: c,
            value: v,
            origin: o,
        } => same_cell(cell, c) && origin == o && same_value(value, v),
        _ => false,
    }
}

fn same_payload(a: Payload, b: Payload) -> bool
    ensures { IsTrue result ↔ (a ≡ b) }
{
    match a {
        Payload::Token { tag, port, value } => same_token(tag, port, value, b),
        Payload::Read { cell, reply } => same_read(cell, reply, b),
        Payload::Write {
            cell,
            value,
            origin,
        } => same_write(cell, value, origin, b),
    }
}

/// Whether two messages are one. Takes no memory.
pub fn same_message(a: &Message, b: &Message) -> bool
    ensures { IsTrue result ↔ (a.now ≡ b.now) }
{
    a.position == b.position
        && a.output == b.output
        && a.stamp == b.stamp
        && same_sender(a.sender, b.sender)
        && same_payload(a.payload, b.payload)
}

/// Whether the same was fired. Takes no memory.
pub fn same_fired(a: Fired, b: Fired) -> bool
    ensures { IsTrue result ↔ (a ≡ b) }
{
    match a {
        Fired::Out(x) => match b {
            Fired::Out(y) => same_value(x, y),
            _ => false,
        },
        Fired::Side(c, x) => match b {
            Fired::Side(d, y) => c == d && same_value(x, y),
            _ => false,
        },
        Fired::Moved(i, x) => match b {
            Fired::Moved(j, y) => i == j && same_value(x, y),
            _ => false,
        },
        Fired::Entered(x) => match b {
            Fired::Entered(y) => x == y,
            _ => false,
        },
        Fired::Sent(t, x) => match b {
            Fired::Sent(u, y) => t == u && same_value(x, y),
            _ => false,
        },
        Fired::Asked { cell, reply } => match b {
            Fired::Asked { cell: c, reply: r } => same_cell(cell, c) && reply == r,
            _ => false,
        },
        Fired::Stored {
            cell,
            value,
            origin,
        } => match b {
            Fired::Stored {
                cell: c,
                value: v,
                origin: o,
            } => same_cell(cell, c) && origin == o && same_value(value, v),
            _ => false,
        },
        Fired::Failed(x) => match b {
            Fired::Failed(y) => x == y,
            _ => false,
        },
        Fired::Nothing => matches!(b, Fired::Nothing),
    }
}

fn same_fault(a: Fault, b: Fault) -> bool
    ensures { IsTrue result ↔ (a ≡ b) }
{
    match a {
        Fault::Operator { fault, tag } => match b {
            Fault::Operator { fault: f, tag: t } => fault == f && tag == t,
            _ => false,
        },
        Fault::SecondStore {
            cell,
            first,
            second,
        } => match b {
            Fault::SecondStore {
                cell: c,
                first: f,
                second: s,
            } => same_cell(cell, c) && first == f && second == s,
            _ => false,
        },
    }
}

/// Whether two events came to the same. Takes no memory.
pub fn same_step(a: Step, b: Step) -> bool
    ensures { IsTrue result ↔ (a ≡ b) }
{
    match a {
        Step::Went => matches!(b, Step::Went),
        Step::Fault(x) => match b {
            Step::Fault(y) => same_fault(x, y),
            _ => false,
        },
        Step::Stuck => matches!(b, Step::Stuck),
    }
}
