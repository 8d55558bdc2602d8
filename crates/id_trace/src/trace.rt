//! Traces: the events of a run, a line for each.

ghost use Rattle.std.specs.Prelude.{◌≡◌, ◌++◌};
ghost use Rattle.id_sink.specs.Told.{Prints};
ghost use Rattle.id_trace.specs.Traces.{carried_text, context_text, continuation_text, delivery_text, end_text};
ghost use Rattle.id_trace.specs.Traces.{entry_text, goal_text, handled_text, moment_text, opened_text, payload_text};
ghost use Rattle.id_trace.specs.Traces.{port_text, tag_text, token_text, trace_text, turn_text};
ghost use Rattle.id_trace.specs.Traces.{structure_text, cell_text, from_text, read_text, write_text};

use id_instr::Port;
use id_observe::Merged;
use id_record::{Event, Step};
use id_sink::{
    PrintError, Sink, put, put_index, put_int, put_long, put_number, put_numbers, truth_bytes,
};
use id_tag::{Cell, Context, Payload, Structure, Tag, Value};

/// Writes a line for each event, in order. Takes no memory.
pub fn write_trace<W: Sink>(events: &Merged<'_>, sink: &mut W) -> Result<(), PrintError>
    ensures { Prints (W.told sink.old) (W.told sink.new) (trace_text events.now) result }
{
    for position in 0..events.len() {
        let event = events.event(position);
        put_line(sink, &event)?;
    }
    Ok(())
}

fn put_line<W: Sink>(sink: &mut W, event: &Event<'_>) -> Result<(), PrintError>
    ensures { Prints (W.told sink.old) (W.told sink.new)
        (handled_text event.now.stamp event.now.element event.now.message.payload ++ end_text event.now.step) result }
{
    put_handled(sink, event.stamp, event.element, &event.message.payload)?;
    put(sink, end_bytes(event.step))
}

/// What ends the line of an event that came to this. Takes no memory.
pub fn end_bytes(step: Step) -> &'static [u8]
    ensures { result.now ≡ end_text step }
{
    match step {
        Step::Went => b"\n",
        Step::Fault(_) => b" fault\n",
        Step::Stuck => b" stuck\n",
    }
}

fn put_handled<W: Sink>(
    sink: &mut W,
    stamp: u64,
    element: u32,
    payload: &Payload,
) -> Result<(), PrintError>
    ensures { Prints (W.told sink.old) (W.told sink.new) (handled_text stamp element payload.now) result }
{
    put_moment(sink, stamp, element)?;
    put(sink, b" ")?;
    put_payload(sink, payload)
}

fn put_moment<W: Sink>(sink: &mut W, stamp: u64, element: u32) -> Result<(), PrintError>
    ensures { Prints (W.told sink.old) (W.told sink.new) (moment_text stamp element) result }
{
    put_numbers(sink, stamp, b" ", element as u64)
}

/// Writes what a message says, as it stands in the line of its event. Takes no memory.
pub fn put_payload<W: Sink>(sink: &mut W, payload: &Payload) -> Result<(), PrintError>
    ensures { Prints (W.told sink.old) (W.told sink.new) (payload_text payload.now) result }
{
    match *payload {
        Payload::Token { tag, port, value } => put_token(sink, tag, port, value),
        Payload::Read { cell, reply } => put_read(sink, cell, reply),
        Payload::Write {
            cell,
            value,
            origin,
        } => put_write(sink, cell, value, origin),
    }
}

fn put_read<W: Sink>(sink: &mut W, cell: Cell, reply: Tag) -> Result<(), PrintError>
    ensures { Prints (W.told sink.old) (W.told sink.new) (read_text cell reply) result }
{
    put(sink, b"read ")?;
    put_cell(sink, cell)?;
    put_from(sink, reply)
}

fn put_write<W: Sink>(sink: &mut W, cell: Cell, value: Value, origin: Tag) -> Result<(), PrintError>
    ensures { Prints (W.told sink.old) (W.told sink.new) (write_text cell value origin) result }
{
    put(sink, b"write ")?;
    put_cell(sink, cell)?;
    put(sink, b" ")?;
    put_carried(sink, value)?;
    put_from(sink, origin)
}

fn put_from<W: Sink>(sink: &mut W, tag: Tag) -> Result<(), PrintError>
    ensures { Prints (W.told sink.old) (W.told sink.new) (from_text tag) result }
{
    put(sink, b" c")?;
    put_turn(sink, tag)?;
    put(sink, b" ")?;
    put_number(sink, tag.instr)
}

fn put_structure<W: Sink>(sink: &mut W, structure: Structure) -> Result<(), PrintError>
    ensures { Prints (W.told sink.old) (W.told sink.new) (structure_text structure) result }
{
    put(sink, b"s")?;
    put_numbers(sink, structure.element as u64, b".", structure.serial)
}

fn put_cell<W: Sink>(sink: &mut W, cell: Cell) -> Result<(), PrintError>
    ensures { Prints (W.told sink.old) (W.told sink.new) (cell_text cell) result }
{
    put_structure(sink, cell.structure)?;
    put_index(sink, cell.index)
}

fn put_token<W: Sink>(sink: &mut W, tag: Tag, port: Port, value: Value) -> Result<(), PrintError>
    ensures { Prints (W.told sink.old) (W.told sink.new) (token_text tag port value) result }
{
    put(sink, b"token c")?;
    put_delivery(sink, tag, port, value)
}

fn put_delivery<W: Sink>(sink: &mut W, tag: Tag, port: Port, value: Value) -> Result<(), PrintError>
    ensures { Prints (W.told sink.old) (W.told sink.new) (delivery_text tag port value) result }
{
    put_goal(sink, tag, port)?;
    put(sink, b" ")?;
    put_carried(sink, value)
}

fn put_goal<W: Sink>(sink: &mut W, tag: Tag, port: Port) -> Result<(), PrintError>
    ensures { Prints (W.told sink.old) (W.told sink.new) (goal_text tag port) result }
{
    put_turn(sink, tag)?;
    put(sink, b" ")?;
    put_entry(sink, tag.instr, port)
}

fn put_entry<W: Sink>(sink: &mut W, instr: u32, port: Port) -> Result<(), PrintError>
    ensures { Prints (W.told sink.old) (W.told sink.new) (entry_text instr port) result }
{
    put_number(sink, instr)?;
    put(sink, b".")?;
    put(sink, port_bytes(port))
}

/// The number of a port.
fn port_bytes(port: Port) -> &'static [u8]
    ensures { result.now ≡ port_text port }
{
    match port {
        Port::Zero => b"0",
        Port::One => b"1",
    }
}

fn put_carried<W: Sink>(sink: &mut W, value: Value) -> Result<(), PrintError>
    ensures { Prints (W.told sink.old) (W.told sink.new) (carried_text value) result }
{
    match value {
        Value::Signal => put(sink, b"signal"),
        Value::Int(n) => put_int(sink, n),
        Value::Bool(truth) => put(sink, truth_bytes(truth)),
        Value::Structure(structure) => put_structure(sink, structure),
        Value::Address(cell) => put_cell(sink, cell),
        Value::Context(context) => put_opened(sink, context),
        Value::Continuation(tag) => put_continuation(sink, tag),
    }
}

fn put_opened<W: Sink>(sink: &mut W, context: Context) -> Result<(), PrintError>
    ensures { Prints (W.told sink.old) (W.told sink.new) (opened_text context) result }
{
    put(sink, b"c")?;
    put_context(sink, context)
}

fn put_continuation<W: Sink>(sink: &mut W, tag: Tag) -> Result<(), PrintError>
    ensures { Prints (W.told sink.old) (W.told sink.new) (continuation_text tag) result }
{
    put(sink, b"k")?;
    put_tag(sink, tag)
}

fn put_tag<W: Sink>(sink: &mut W, tag: Tag) -> Result<(), PrintError>
    ensures { Prints (W.told sink.old) (W.told sink.new) (tag_text tag) result }
{
    put_turn(sink, tag)?;
    put(sink, b":")?;
    put_number(sink, tag.instr)
}

fn put_turn<W: Sink>(sink: &mut W, tag: Tag) -> Result<(), PrintError>
    ensures { Prints (W.told sink.old) (W.told sink.new) (turn_text tag) result }
{
    put_context(sink, tag.context)?;
    put(sink, b"#")?;
    put_long(sink, tag.iteration)
}

fn put_context<W: Sink>(sink: &mut W, context: Context) -> Result<(), PrintError>
    ensures { Prints (W.told sink.old) (W.told sink.new) (context_text context) result }
{
    put_numbers(sink, context.element as u64, b".", context.serial)
}
