// What no clause says: that a text names what its message names, so that the message is found at once.
use crate::hint::name_said;
use crate::line::{empty_line, say};
use crate::pool::name_of;
use id_instr::Port;
use id_tag::{Cell, Context, Payload, Structure, Tag, Value};
use std::alloc::{AllocError, Global};
use std::test::Fail;

const TAG: Tag = Tag {
    context: Context {
        element: 3,
        serial: 70,
    },
    iteration: 12,
    instr: 5,
};

const CELL: Cell = Cell {
    structure: Structure {
        element: 1,
        serial: 40,
        low: -9,
        high: 9,
        nested: false,
    },
    index: -7,
};

/// Whether what a message says names what the message names.
fn is_named(alloc: Global, payload: &Payload) -> Result<bool, AllocError> {
    let mut line = empty_line(alloc);
    say(&mut line, payload)?;
    Ok(name_said(line.as_slice()) == name_of(payload))
}

#[test]
fn a_text_names_what_its_message_names(rt: HostRuntime) -> Result<(), Fail> {
    let token = |value| Payload::Token {
        tag: TAG,
        port: Port::One,
        value,
    };
    let write = |value| Payload::Write {
        cell: CELL,
        value,
        origin: TAG,
    };
    for payload in [
        token(Value::Signal),
        token(Value::Int(-81)),
        token(Value::Address(CELL)),
        token(Value::Continuation(TAG)),
        Payload::Read {
            cell: CELL,
            reply: TAG,
        },
        write(Value::Int(81)),
        write(Value::Structure(CELL.structure)),
    ] {
        assert!(rt; is_named(rt.alloc(), &payload)?);
    }
    Ok(())
}
