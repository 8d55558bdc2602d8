//! One test for each row.

ghost use Rattle.std.specs.Prelude.{◌≡◌};

use crate::graphs::{block, call, called_blocks, either, seven, sum_and_product};
use crate::kept::{merged, observed};
use id_bank::{Bank, Cells, ReadAnswer, Reader, WriteAnswer};
use id_core::{Element, Keeps, Machine, MachineError, Step, TakeError, fits, takes_inputs};
use id_flight::Queue;
use id_graph::{Block, Constant, Graph, GraphCause, Instr, Op, Port, PortKind};
use id_match::{Entry, Offered, Waiting};
use id_print::{Sink, SinkFault};
use id_source::{Inputs, SourceValue};
use id_tag::{Cell, Context, Message, Payload, Sender, Structure, Tag, Value, route};
use id_trace::write_trace;
use id_valid::{InvalidCause, Valid, validate};
use id_value::Sequence;
use std::alloc::{AllocError, Global};
use std::process::Abort;
use std::test::Fail;

/// The tag of an instruction in main's context.
pub(crate) fn main_tag(instr: u32) -> Tag {
    Tag {
        context: Context {
            element: 0,
            serial: 0,
        },
        iteration: 0,
        instr,
    }
}

/// Whether 3 alone is listed, at port 0 of instruction 7.
fn is_three(entries: &[Entry]) -> bool {
    match entries {
        [entry] => {
            entry.tag == main_tag(7) && entry.port == Port::Zero && entry.value == Value::Int(3)
        }
        _ => false,
    }
}

/// Whether the offers of the row have its answers.
fn are_answered(alloc: Global, waiting: &mut Waiting) -> Result<bool, AllocError> {
    let tag = main_tag(7);
    let three = Value::Int(3);
    let four = Value::Int(4);
    let kept = waiting.offer(tag, Port::Zero, three)? == Offered::Kept;
    let one = waiting.len() == 1;
    let listed = is_three(waiting.entries(alloc)?.as_slice());
    let taken = waiting.offer(tag, Port::Zero, Value::Int(9))? == Offered::Taken;
    let paired = waiting.offer(tag, Port::One, four)? == Offered::Pair(three, four);
    Ok(kept && one && listed && taken && paired && waiting.len() == 0)
}

#[test]
fn offers_are_kept_taken_and_paired(rt: HostRuntime) -> Result<(), Fail> {
    let mut waiting = Waiting::new(rt.alloc());
    let answered = are_answered(rt.alloc(), &mut waiting)?;
    assert!(rt; answered);
    Ok(())
}

/// Whether the offers of the row to iterations and instructions have its answers, and leave its frames.
fn are_counted(waiting: &mut Waiting) -> Result<bool, AllocError> {
    let three = Value::Int(3);
    let table = [
        (0, 5, Port::Zero, Offered::Kept, 1),
        (0, 6, Port::Zero, Offered::Kept, 1),
        (1, 5, Port::Zero, Offered::Kept, 2),
        (1, 5, Port::One, Offered::Pair(three, three), 1),
        (0, 5, Port::Zero, Offered::Taken, 1),
    ];
    for (iteration, instr, port, answer, frames) in table {
        let tag = Tag {
            iteration,
            ..main_tag(instr)
        };
        if waiting.offer(tag, port, three)? != answer || waiting.frames() != frames {
            return Ok(false);
        }
    }
    Ok(true)
}

#[test]
fn a_frame_is_an_iteration_in_which_values_wait(rt: HostRuntime) -> Result<(), Fail> {
    let mut waiting = Waiting::new(rt.alloc());
    let counted = are_counted(&mut waiting)?;
    assert!(rt; counted && waiting.len() == 2);
    Ok(())
}

/// Cell 1 of a structure with the bounds 1 and 3.
fn first_cell() -> Cell {
    Cell {
        structure: Structure {
            element: 0,
            serial: 1,
            low: 1,
            high: 3,
            nested: false,
        },
        index: 1,
    }
}

/// Whether instructions 5 and 6 wait for the cell, in this order.
fn are_two_readers(readers: &[Reader]) -> bool {
    match readers {
        [first, second] => {
            first.cell == first_cell() && first.reply == main_tag(5) && second.reply == main_tag(6)
        }
        _ => false,
    }
}

/// Whether the cell alone is to come, with the 5 of instruction 7.
fn is_five(cells: Cells<'_>) -> bool {
    let mut cells = cells;
    match (cells.next(), cells.next()) {
        (Some(filled), None) => {
            filled.cell == first_cell()
                && filled.value == Value::Int(5)
                && filled.origin == main_tag(7)
        }
        _ => false,
    }
}

/// Whether the write is for two replies.
fn is_for_two(answer: WriteAnswer) -> bool {
    match answer {
        WriteAnswer::Readers(replies) => replies.len() == 2,
        WriteAnswer::Second(_) => false,
    }
}

/// Whether two reads before the write have the answers of the row.
fn are_put_off(alloc: Global, bank: &mut Bank) -> Result<bool, AllocError> {
    let cell = first_cell();
    let first = bank.read(cell, main_tag(5))?;
    let second = bank.read(cell, main_tag(6))?;
    let late = matches!(first, ReadAnswer::Deferred) && matches!(second, ReadAnswer::Deferred);
    let waiting = bank.deferred(alloc)?;
    Ok(late && bank.readers(cell) == 2 && are_two_readers(waiting.as_slice()))
}

/// Whether the write, and a read after it, have the answers of the row.
fn is_filled(bank: &mut Bank) -> Result<bool, AllocError> {
    let cell = first_cell();
    let filled = is_for_two(bank.write(cell, Value::Int(5), main_tag(7))?);
    let read = bank.read(cell, main_tag(8))?;
    let now = matches!(read, ReadAnswer::Now(Value::Int(5))) && bank.readers(cell) == 0;
    Ok(filled && now)
}

/// Whether a second write has the answer of the row, and changes nothing.
fn is_kept(alloc: Global, bank: &mut Bank) -> Result<bool, AllocError> {
    let again = bank.write(first_cell(), Value::Int(5), main_tag(9))?;
    let second = matches!(again, WriteAnswer::Second(first) if first == main_tag(7));
    let cells = bank.cells(alloc)?;
    Ok(second && is_five(cells))
}

/// Whether two reads, two writes and a read between these have the answers of the row.
fn is_stored_once(alloc: Global, bank: &mut Bank) -> Result<bool, AllocError> {
    let late = are_put_off(alloc, bank)?;
    let filled = is_filled(bank)?;
    let kept = is_kept(alloc, bank)?;
    Ok(late && filled && kept)
}

#[test]
fn a_cell_is_stored_into_once_and_may_be_read_before(rt: HostRuntime) -> Result<(), Fail> {
    let mut bank = Bank::new(rt.alloc());
    let stored = is_stored_once(rt.alloc(), &mut bank)?;
    assert!(rt; stored);
    Ok(())
}

/// A signal to the instruction of this tag.
fn signal(tag: Tag, stamp: u64) -> Message {
    Message {
        payload: Payload::Token {
            tag,
            port: Port::Zero,
            value: Value::Signal,
        },
        sender: Sender::Start,
        position: 0,
        output: 0,
        stamp,
    }
}

#[test]
fn routes_by_context_and_iteration(rt: HostRuntime) {
    let context = Context {
        element: 0,
        serial: 1,
    };
    let tag = Tag {
        context,
        iteration: 2,
        instr: 3,
    };
    assert!(rt; route(&signal(tag, 0), 2) == 1);
}

#[test]
fn routes_by_structure_and_offset(rt: HostRuntime) {
    let structure = Structure {
        element: 1,
        serial: 3,
        ..first_cell().structure
    };
    for (index, wanted) in [(4, 3), (0, 3), (-5, 2), (i64::MIN, 3)] {
        let cell = Cell { structure, index };
        let reply = main_tag(7);
        let payload = Payload::Read { cell, reply };
        let read = Message {
            payload,
            ..signal(reply, 0)
        };
        assert!(rt; route(&read, 4) == wanted);
    }
}

/// The first faulty instruction of the graph of these blocks and instructions, of which there are few, if there is one;
/// or that for which there is no such graph, and 1000 more.
fn faulty(
    rt: &impl Abort,
    alloc: Global,
    blocks: Vec<Block>,
    list: Vec<Instr>,
) -> Result<Option<u64>, AllocError> {
    assert!(rt; list.len() < 100);
    match Graph::new(blocks, list) {
        Ok(graph) => first_faulty(alloc, graph),
        Err(error) => {
            let GraphCause::BadArc { instr } = error.cause;
            Ok(Some(instr as u64 + 1000))
        }
    }
}

/// The first faulty instruction of a graph, if there is one.
fn first_faulty(alloc: Global, graph: Graph) -> Result<Option<u64>, AllocError> {
    match validate(alloc, graph) {
        Ok(_) => Ok(None),
        Err(invalid) => match invalid.cause {
            InvalidCause::Faulty { instr } => Ok(Some(instr)),
            InvalidCause::Memory => Err(AllocError),
        },
    }
}

#[test]
fn an_invalid_graph_is_refused_at_an_instruction(rt: HostRuntime) -> Result<(), Fail> {
    let three = Op::Const(Constant::Int(3));
    let truth = Op::Const(Constant::Bool(true));
    let table = [
        (three, 1, 7, None),
        (truth, 1, 7, Some(4)),
        (three, 3, 7, Some(0)),
        (three, 1, 8, Some(1006)),
    ];
    for (four, first, sum, wanted) in table {
        let list = sum_and_product(rt.alloc(), four, sum)?;
        let found = faulty(&rt, rt.alloc(), block(rt.alloc(), first)?, list)?;
        assert!(rt; found == wanted);
    }
    Ok(())
}

#[test]
fn both_lists_of_a_switch_are_looked_at(rt: HostRuntime) -> Result<(), Fail> {
    for (second, wanted) in [(6, None), (5, Some(5)), (8, Some(1004))] {
        let list = either(rt.alloc(), second)?;
        let found = faulty(&rt, rt.alloc(), block(rt.alloc(), 1)?, list)?;
        assert!(rt; found == wanted);
    }
    Ok(())
}

// In the graph of a call 1 is the first of a block, 3 its entry, both merges; 7 is no merge, 9 a merge and no entry, 10
// past the end.

/// The first faulty instruction of the graph of a call with these operators, if there is one.
fn faulty_call(
    rt: &impl Abort,
    alloc: Global,
    enter: Op,
    send: Op,
) -> Result<Option<u64>, AllocError> {
    let list = call(alloc, enter, send)?;
    faulty(rt, alloc, called_blocks(alloc)?, list)
}

#[test]
fn an_enter_names_a_block_and_a_merge(rt: HostRuntime) -> Result<(), Fail> {
    let send = Op::Send {
        kind: PortKind::Int,
        target: 3,
    };
    let table = [
        (1, 9, None),
        (4, 9, None),
        (0, 9, Some(6)),
        (3, 9, Some(6)),
        (10, 9, Some(6)),
        (1, 1, Some(6)),
        (1, 7, Some(6)),
        (1, 10, Some(6)),
    ];
    for (block, reply, wanted) in table {
        let found = faulty_call(&rt, rt.alloc(), Op::Enter { block, reply }, send)?;
        assert!(rt; found == wanted);
    }
    Ok(())
}

#[test]
fn a_send_names_an_entry_of_its_kind(rt: HostRuntime) -> Result<(), Fail> {
    let table = [
        (3, PortKind::Int, 3, Some(9)),
        (9, PortKind::Bool, 3, Some(7)),
        (9, PortKind::Int, 1, Some(8)),
        (9, PortKind::Int, 9, Some(8)),
        (9, PortKind::Int, 10, Some(8)),
    ];
    for (reply, kind, target, wanted) in table {
        let enter = Op::Enter { block: 1, reply };
        let found = faulty_call(&rt, rt.alloc(), enter, Op::Send { kind, target })?;
        assert!(rt; found == wanted);
    }
    Ok(())
}

/// The machine of so many elements at its start, without inputs.
fn machine<'a>(
    rt: &impl Abort,
    alloc: Global,
    graph: &'a Valid,
    count: u32,
) -> Result<Machine<'a>, MachineError> {
    let inputs = Inputs {
        values: Sequence::new(Vec::new(alloc)),
    };
    assert!(rt; takes_inputs(graph, &inputs));
    Machine::new(alloc, graph, &inputs, count)
}

/// The machine of so many elements, where there is one.
pub(crate) fn started<'a>(
    rt: &impl Abort,
    alloc: Global,
    graph: &'a Valid,
    count: u32,
) -> Result<Machine<'a>, TakeError> {
    match machine(rt, alloc, graph, count) {
        Ok(machine) => Ok(machine),
        Err(_) => Err(TakeError::Memory),
    }
}

/// Delivers the first message so many times, and says whether the machine is quiet then.
pub(crate) fn deliver(machine: &mut Machine<'_>, count: u32) -> Result<bool, TakeError> {
    for _ in 0..count {
        if machine.in_flight().is_empty() {
            return Ok(false);
        }
        let _ = machine.deliver(0)?;
    }
    Ok(machine.is_quiet())
}

/// Whether there is no machine of so many elements.
fn is_refused(rt: &impl Abort, alloc: Global, graph: &Valid, count: u32) -> bool {
    matches!(
        machine(rt, alloc, graph, count),
        Err(MachineError::BadElements)
    )
}

/// Whether five deliveries make a machine of so many elements quiet.
fn is_quiet_on(
    rt: &impl Abort,
    alloc: Global,
    graph: &Valid,
    count: u32,
) -> Result<bool, TakeError> {
    let mut machine = started(rt, alloc, graph, count)?;
    deliver(&mut machine, 5)
}

#[test]
fn a_machine_has_1_to_64_elements(rt: HostRuntime) -> Result<(), Fail> {
    let graph = seven(&rt, rt.alloc())?;
    assert!(rt; is_refused(&rt, rt.alloc(), &graph, 0) && is_refused(&rt, rt.alloc(), &graph, 65));
    let quiet = is_quiet_on(&rt, rt.alloc(), &graph, 64)?;
    assert!(rt; quiet);
    Ok(())
}

const TRACE: &str = "1 0 token c0.0#0 1.0 signal
2 0 token c0.0#0 2.0 k0.0#0:0
3 0 token c0.0#0 3.0 signal
4 0 token c0.0#0 2.1 7
5 0 token c0.0#0 0.0 7
";

/// A sink that takes these bytes and no others.
#[derive(Drop)]
pub(crate) struct Expected<'a> {
    pub(crate) rest: &'a [u8],
}

impl Sink for Expected<'_> {
    ghost use Rattle.std.specs.Prelude.{None};

    ghost told = { λ _. record { told = None; contents = None } };

    fn write(&mut self, bytes: &[u8]) -> Result<usize, SinkFault> {
        match self.rest.strip_prefix(bytes) {
            Some(rest) => {
                self.rest = rest;
                Ok(bytes.len())
            }
            None => Err(SinkFault),
        }
    }
}

/// Whether the trace of the machine is this one.
pub(crate) fn is_traced(
    alloc: Global,
    machine: &Machine<'_>,
    trace: &str,
) -> Result<bool, AllocError> {
    let events = merged(alloc, machine)?;
    let mut sink = Expected {
        rest: trace.as_bytes(),
    };
    Ok(write_trace(&events, &mut sink).is_ok() && sink.rest.is_empty())
}

/// Whether the one element is traced so, and five events are merged.
fn are_recorded(alloc: Global, machine: &Machine<'_>) -> Result<bool, AllocError> {
    let events = merged(alloc, machine)?;
    let traced = is_traced(alloc, machine, TRACE)?;
    Ok(traced && events.len() == 5 && machine.elements().len() == 1)
}

/// Whether 7 is observed.
fn is_seven(alloc: Global, machine: &Machine<'_>) -> Result<bool, AllocError> {
    let shown = observed(alloc, machine)?;
    Ok(matches!(shown.answer, Some(SourceValue::Int(7))))
}

/// Whether five deliveries make the machine quiet, are recorded, and bring 7.
fn is_run_to_seven(alloc: Global, machine: &mut Machine<'_>) -> Result<bool, Fail> {
    let quiet = deliver(machine, 5)?;
    let recorded = are_recorded(alloc, machine)?;
    let seven = is_seven(alloc, machine)?;
    Ok(quiet && recorded && seven)
}

/// Whether a machine of one element runs to 7.
fn is_seven_on_one(rt: &impl Abort, alloc: Global, graph: &Valid) -> Result<bool, Fail> {
    let mut machine = started(rt, alloc, graph, 1)?;
    is_run_to_seven(alloc, &mut machine)
}

#[test]
fn five_deliveries_bring_7(rt: HostRuntime) -> Result<(), Fail> {
    let graph = seven(&rt, rt.alloc())?;
    let run = is_seven_on_one(&rt, rt.alloc(), &graph)?;
    assert!(rt; run);
    Ok(())
}

/// An integer to a port of instruction 2.
fn token(port: Port) -> Message {
    Message {
        payload: Payload::Token {
            tag: main_tag(2),
            port,
            value: Value::Int(1),
        },
        ..signal(main_tag(2), 0)
    }
}

/// Gives a message that fits to the one element of the graph.
fn give(
    rt: &impl Abort,
    alloc: Global,
    graph: &Valid,
    element: &mut Element<'_>,
    message: Message,
) -> Result<Step, TakeError>
    requires number { element.old.number ≡ 0 }
    requires count { element.old.count ≡ 1 }
    requires graph { element.old.graph ≡ graph.now }
    ensures number { element.new.number ≡ 0 }
    ensures count { element.new.count ≡ 1 }
    ensures graph { element.new.graph ≡ graph.now }
{
    assert!(rt; fits(graph, &message));
    assert!(rt; route(&message, 1) == 0);
    let mut outputs = Queue::new(alloc);
    element.take(&message, &mut outputs)
}

/// How many events an element that keeps all has recorded, and the stamp of the last of them.
fn recorded(element: &Element<'_>) -> (usize, Option<u64>) {
    let Keeps::All = element.keeps() else {
        return (usize::MAX, None);
    };
    let events = element.events();
    let count = events.len();
    if count == 0 {
        return (0, None);
    }
    (count, Some(events.event(count - 1).stamp))
}

/// What a fresh element answers to the second of two messages, and what it has recorded then.
fn second_taken(
    rt: &impl Abort,
    alloc: Global,
    graph: &Valid,
    first: Message,
    second: Message,
) -> (Result<Step, TakeError>, (usize, Option<u64>)) {
    let mut element = Element::new(alloc, 0, 1, graph);
    let _ = give(rt, alloc, graph, &mut element, first);
    let answer = give(rt, alloc, graph, &mut element, second);
    (answer, recorded(&element))
}

#[test]
fn an_element_takes_what_fits(rt: HostRuntime) -> Result<(), Fail> {
    let graph = seven(&rt, rt.alloc())?;
    let one = token(Port::One);
    let early = signal(main_tag(1), 0);
    let late = signal(main_tag(1), u64::MAX - 1);
    let last = signal(main_tag(1), u64::MAX);
    let table = [
        (early, one, Ok(Step::Went), (2, Some(2))),
        (one, one, Ok(Step::Stuck), (2, Some(2))),
        (early, last, Err(TakeError::StampEnd), (1, Some(1))),
        (late, one, Err(TakeError::StampEnd), (1, Some(u64::MAX))),
        (last, last, Err(TakeError::StampEnd), (0, None)),
    ];
    for (first, second, wanted, record) in table {
        let taken = second_taken(&rt, rt.alloc(), &graph, first, second);
        assert!(rt; taken.0 == wanted);
        assert!(rt; taken.1 == record);
    }
    Ok(())
}

#[test]
fn a_number_does_not_fit_where_a_continuation_goes(rt: HostRuntime) -> Result<(), Fail> {
    let graph = seven(&rt, rt.alloc())?;
    assert!(rt; !fits(&graph, &token(Port::Zero)));
    Ok(())
}
