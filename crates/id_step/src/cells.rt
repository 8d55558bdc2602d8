//! What an element does with reads and writes of its cells, in full and in short.

ghost use Rattle.std.specs.Prelude.{◌≡◌, ◌<◌, ◌≤◌, ◌↔◌, Some, length};
ghost use Rattle.std.specs.Prelude.{IfErr, IfOk, OnOk, OnErr, IsTrue};
ghost use Rattle.std.specs.FinMap as map;
ghost use Rattle.id_tag.specs.Plains.{tag_in, whole};
ghost use Rattle.id_flight.specs.Accesses.{accessed};
ghost use Rattle.id_bank.specs.Cells.{count_expected, write_after, write_answer};
ghost use Rattle.id_record.specs.declared.step.Step.TheVariants.{Went};
ghost use Rattle.id_record.specs.declared.step.Verdict.TheVariants as verdict;
ghost use Rattle.id_record.specs.Events.{full_step, tag_of, value_of};
ghost use Rattle.id_record.specs.Handlings.{AreThere};
ghost use Rattle.id_record.specs.CellEvents.{cell_content};
ghost use Rattle.id_step.specs.declared.step.TakeError.TheVariants.{StampEnd};
ghost use Rattle.id_step.specs.Storage.{IsShort, Treats, element_at, state_of};
ghost use Rattle.id_step.specs.Handled.{IsRecorded, IsSent};
ghost use Rattle.id_step.specs.Shorts.{came_full, came_short};
ghost use Rattle.id_step.specs.Steps.{answer_sends, fill_sends, fill_verdict, is_ended, next_stamp, readers_of};
ghost use Rattle.id_step.specs.Accesses.{IsRead, IsWrite, answer_outcome, fill_outcome};
ghost use Rattle.id_step.specs.Accesses.{recorded_message, access_outcome};

use crate::gate::Gate;
use crate::outcome::{answer_fired, fill_verdict, next_stamp, send_replies};
use crate::step::{Short, TakeError};
use crate::storage::Storage;
use id_bank::{ReadAnswer, WriteAnswer};
use id_flight::{Access, Queue};
use id_instr::Port;
use id_ops::Fired;
use id_record::{
    CellAnswer, CellEvent, Envelope, Handling, NO_REPLIES, Reaction, Replies, Verdict, message,
    tag_of, token_at, value_of,
};
use id_tag::{Cell, Message, Payload, Plain, PlainToken, Tag, Value, plain_of};

/// Handles a read: the element step where a stamp is left, which is this one.
#[inline(never)]
pub fn take_read<G: Gate>(
    storage: &mut Storage<'_>,
    read: &Message,
    stamp: u64,
    outputs: &mut Queue,
    gate: &G,
) -> Result<Verdict, TakeError>
    requires is { IsRead read.now.payload }
    requires stamp { stamp ≡ next_stamp (state_of storage.old) read.now }

    ensures treats { Treats storage.old storage.new read.now outputs.old.messages outputs.new.messages
        (came_full read.now.payload result) }
    ensures memory { IfErr result (λ e. e ≡ TakeError.Memory) }
{
    let Payload::Read { cell, reply } = read.payload else {
        unreachable!()
    };
    storage.reserve(1, 0, outputs)?;
    let answer = storage.cells.read(cell, reply)?;
    storage.hold(gate);
    Ok(answer_read(storage, read, stamp, answer, outputs))
}

/// Handles a write: the element step where a stamp is left, which is this one.
#[inline(never)]
pub fn take_write<G: Gate>(
    storage: &mut Storage<'_>,
    write: &Message,
    stamp: u64,
    outputs: &mut Queue,
    gate: &G,
) -> Result<Verdict, TakeError>
    requires is { IsWrite write.now.payload }
    requires stamp { stamp ≡ next_stamp (state_of storage.old) write.now }

    ensures treats { Treats storage.old storage.new write.now outputs.old.messages outputs.new.messages
        (came_full write.now.payload result) }
    ensures memory { IfErr result (λ e. e ≡ TakeError.Memory) }
{
    let Payload::Write {
        cell,
        value,
        origin,
    } = write.payload
    else {
        unreachable!()
    };
    let readers = storage.cells.readers(cell);
    let answer = write_cell(storage, cell, value, origin, readers, outputs)?;
    storage.hold(gate);
    Ok(fill(storage, write, stamp, &answer, outputs))
}

/// Handles a read or a write of a cell, where that is short, and says what became of it: the element step.
#[inline(always)]
pub fn take_access<G: Gate>(
    storage: &mut Storage<'_>,
    access: &Access,
    outputs: &mut Queue,
    gate: &G,
) -> Result<Short, TakeError>
    ensures treats { Treats storage.old storage.new (accessed access.now) outputs.old.messages outputs.new.messages
        (came_short (tag_in access.now.like) result) }
    ensures end { (result ≡ Err StampEnd) ↔ IsTrue (is_ended (state_of storage.old) (accessed access.now)) }
{
    let stamp = next_stamp(storage.stamp, u64::from(access.like.stamp))?;
    if !storage.is_short(1, &access.like, stamp) {
        return Ok(Short::Apart);
    }
    ask_or_put(storage, access, stamp as u32, outputs, gate)
}

/// Handles a read in small numbers, and a write where it is the first, and says what became of it: the element step at
/// this stamp, which is the next.
#[inline(always)]
fn ask_or_put<G: Gate>(
    storage: &mut Storage<'_>,
    access: &Access,
    stamp: u32,
    outputs: &mut Queue,
    gate: &G,
) -> Result<Short, TakeError>
    requires stamp { stamp ≡ next_stamp (state_of storage.old) (accessed access.now) }
    requires short { IsShort storage.old 1 access.now.like stamp }

    ensures treats { Treats storage.old storage.new (accessed access.now) outputs.old.messages outputs.new.messages
        (came_short (tag_in access.now.like) result) }
    ensures memory { IfErr result (λ e. e ≡ TakeError.Memory) }
{
    match access.stored {
        None => ask(storage, access, stamp, outputs, gate),
        Some(value) => put(storage, access, value, stamp, outputs, gate),
    }
}

/// Handles a read in small numbers: the element step at this stamp, which is the next.
#[inline(always)]
fn ask<G: Gate>(
    storage: &mut Storage<'_>,
    read: &Access,
    stamp: u32,
    outputs: &mut Queue,
    gate: &G,
) -> Result<Short, TakeError>
    requires is { read.now.stored ≡ None }
    requires stamp { stamp ≡ next_stamp (state_of storage.old) (accessed read.now) }
    requires short { IsShort storage.old 1 read.now.like stamp }

    ensures treats { Treats storage.old storage.new (accessed read.now) outputs.old.messages outputs.new.messages
        (came_short (tag_in read.now.like) result) }
    ensures memory { IfErr result (λ e. e ≡ TakeError.Memory) }
{
    storage.reserve(1, 0, outputs)?;
    let answer = storage.cells.read(read.cell, read.like.tag())?;
    storage.hold(gate);
    answer_access(storage, read, stamp, answer, outputs);
    Ok(Short::Went)
}

/// Sends the answer to a read in small numbers, if it has one, and records the event. There is room for it. Takes no
/// memory.
#[inline(always)]
fn answer_access(
    storage: &mut Storage<'_>,
    read: &Access,
    stamp: u32,
    answer: ReadAnswer,
    outputs: &mut Queue,
)
    requires is { read.now.stored ≡ None }
    requires short { IsShort storage.old 1 read.now.like stamp }
    requires room { 0 < storage.old.log.room }
    requires room_in_outputs { 1 ≤ outputs.old.room }

    ensures recorded { IsRecorded storage.old storage.new (accessed read.now) stamp
        (answer_outcome storage.old (tag_in read.now.like) answer) }
    ensures sent { IsSent storage.old outputs.old.messages outputs.new.messages stamp
        (answer_sends (tag_in read.now.like) answer) }
{
    match answer {
        ReadAnswer::Deferred => record_access(storage, read, stamp, CellAnswer::Deferred),
        ReadAnswer::Now(value) => {
            let Some(value) = plain_of(&value) else {
                return answer_full(storage, read, stamp, answer, outputs);
            };
            let reply = PlainToken {
                value,
                position: storage.log.len() as u32,
                stamp,
                sender: storage.log.element() as u8,
                output: 0,
                port: Port::Zero,
                ..read.like
            };
            outputs.push_plain_reserved(&reply);
            record_access(storage, read, stamp, CellAnswer::Answered(value));
        }
    }
}

/// The same as for any read.
#[inline(never)]
fn answer_full(
    storage: &mut Storage<'_>,
    read: &Access,
    stamp: u32,
    answer: ReadAnswer,
    outputs: &mut Queue,
)
    requires is { read.now.stored ≡ None }
    requires room { 0 < storage.old.log.room }
    requires room_in_outputs { 1 ≤ outputs.old.room }

    ensures recorded { IsRecorded storage.old storage.new (accessed read.now) stamp
        (answer_outcome storage.old (tag_in read.now.like) answer) }
    ensures sent { IsSent storage.old outputs.old.messages outputs.new.messages stamp
        (answer_sends (tag_in read.now.like) answer) }
{
    let message = read.message();
    answer_read(storage, &message, u64::from(stamp), answer, outputs);
}

/// Handles a write of this value in small numbers, where it is the first, and says what became of it: the element step
/// at this stamp, which is the next.
#[inline(always)]
fn put<G: Gate>(
    storage: &mut Storage<'_>,
    write: &Access,
    value: Plain,
    stamp: u32,
    outputs: &mut Queue,
    gate: &G,
) -> Result<Short, TakeError>
    requires is { write.now.stored ≡ Some value }
    requires stamp { stamp ≡ next_stamp (state_of storage.old) (accessed write.now) }
    requires short { IsShort storage.old 1 write.now.like stamp }

    ensures treats { Treats storage.old storage.new (accessed write.now) outputs.old.messages outputs.new.messages
        (came_short (tag_in write.now.like) result) }
    ensures memory { IfErr result (λ e. e ≡ TakeError.Memory) }
{
    match storage.cells.expected(write.cell) {
        Some(readers) => put_first(storage, write, value, readers, stamp, outputs, gate),
        None => Ok(Short::Apart),
    }
}

/// Handles a write of this value in small numbers, the first to its cell, for whose value so many replies wait: the
/// element step at this stamp, which is the next.
#[inline(always)]
fn put_first<G: Gate>(
    storage: &mut Storage<'_>,
    write: &Access,
    value: Plain,
    readers: usize,
    stamp: u32,
    outputs: &mut Queue,
    gate: &G,
) -> Result<Short, TakeError>
    requires is { write.now.stored ≡ Some value }
    requires first { count_expected (map.get storage.old.cells write.now.cell) ≡ Some readers }
    requires stamp { stamp ≡ next_stamp (state_of storage.old) (accessed write.now) }
    requires short { IsShort storage.old 1 write.now.like stamp }

    ensures treats { Treats storage.old storage.new (accessed write.now) outputs.old.messages outputs.new.messages
        (came_short (tag_in write.now.like) result) }
    ensures memory { IfErr result (λ e. e ≡ TakeError.Memory) }
{
    let tag = write.like.tag();
    let answer = write_cell(storage, write.cell, value.value(), tag, readers, outputs)?;
    storage.hold(gate);
    fill_access(storage, write, value, stamp, &answer, outputs);
    Ok(Short::Went)
}

/// Writes a value to a cell for whose value at most so many replies wait, and makes room for its event. After an error
/// nothing has changed.
#[inline(always)]
fn write_cell(
    storage: &mut Storage<'_>,
    cell: Cell,
    value: Value,
    origin: Tag,
    readers: usize,
    outputs: &mut Queue,
) -> Result<WriteAnswer, TakeError>
    requires { length (readers_of (write_answer (map.get storage.old.cells cell))) ≤ readers }

    ensures answer { IfOk result (λ a. a ≡ write_answer (map.get storage.old.cells cell)) }
    ensures element { OnOk result (element_at storage.new ≡ record (element_at storage.old) {
      state = record (state_of storage.old) { cells = write_after storage.old.cells cell value origin };
    }) }
    ensures messages { outputs.new.messages ≡ outputs.old.messages }

    ensures room { OnOk result (0 < storage.new.log.room) }
    ensures room_for_replies { IfOk result (λ a. length (readers_of a) ≤ storage.new.log.room_for_replies) }
    ensures room_in_outputs { IfOk result (λ a. length (readers_of a) ≤ outputs.new.room) }

    ensures memory { IfErr result (λ e. e ≡ TakeError.Memory) }
    ensures err { OnErr result (element_at storage.new ≡ element_at storage.old) }
{
    storage.reserve(readers, readers, outputs)?;
    let answer = storage.cells.write(cell, value, origin)?;
    Ok(answer)
}

/// Sends the value of a write in small numbers to the replies that waited for it, and records the event. There is room
/// for it. Takes no memory.
#[inline(always)]
fn fill_access(
    storage: &mut Storage<'_>,
    write: &Access,
    value: Plain,
    stamp: u32,
    answer: &WriteAnswer,
    outputs: &mut Queue,
)
    requires is { write.now.stored ≡ Some value }
    requires short { IsShort storage.old 1 write.now.like stamp }
    requires room { 0 < storage.old.log.room }
    requires room_for_replies { length (readers_of answer.now) ≤ storage.old.log.room_for_replies }
    requires room_in_outputs { length (readers_of answer.now) ≤ outputs.old.room }

    ensures recorded { IsRecorded storage.old storage.new (accessed write.now) stamp
        (fill_outcome storage.old (whole value) answer.now Went) }
    ensures sent { IsSent storage.old outputs.old.messages outputs.new.messages stamp
        (fill_sends (whole value) answer.now) }
{
    let envelope = Envelope {
        number: storage.log.element(),
        position: storage.log.len(),
        stamp: u64::from(stamp),
    };
    let from = storage.log.count_replies();
    let readers = readers_of(answer);
    send_replies(readers, value.value(), envelope, &mut storage.log, outputs);
    let replies = Replies {
        from,
        count: readers.len(),
    };
    record_access(storage, write, stamp, CellAnswer::Filled(value, replies));
}

/// Records the event of a read or a write in small numbers that came to this. There is room for it. Takes no memory.
#[inline(always)]
fn record_access(storage: &mut Storage<'_>, access: &Access, stamp: u32, answer: CellAnswer)
    requires room { 0 < storage.old.log.room }
    requires replies { AreThere storage.old.log.replies
        (cell_content answer access.now.cell (tag_in access.now.like)).replies }

    ensures { IsRecorded storage.old storage.new (recorded_message access.now answer) stamp
        (access_outcome storage.old access.now answer) }
{
    storage.log.push_cell_event(CellEvent {
        token: &access.like,
        stamp,
        cell: access.cell,
        answer,
    });
    storage.stamp = u64::from(stamp);
}

/// Sends the answer to a read, if it has one, and records the event. There is room for it. Takes no memory.
#[inline(never)]
fn answer_read(
    storage: &mut Storage<'_>,
    read: &Message,
    stamp: u64,
    answer: ReadAnswer,
    outputs: &mut Queue,
) -> Verdict
    requires room { 0 < storage.old.log.room }
    requires room_in_outputs { 1 ≤ outputs.old.room }

    ensures verdict { result ≡ verdict.Went }
    ensures recorded { IsRecorded storage.old storage.new read.now stamp
        (answer_outcome storage.old (tag_of read.now.payload) answer) }
    ensures sent { IsSent storage.old outputs.old.messages outputs.new.messages stamp
        (answer_sends (tag_of read.now.payload) answer) }
{
    let envelope = Envelope {
        number: storage.log.element(),
        position: storage.log.len(),
        stamp,
    };
    let reply = tag_of(&read.payload);
    let fired = answer_fired(reply, answer);
    if let ReadAnswer::Now(value) = answer {
        outputs.push_back_reserved(message(envelope, 0, token_at(reply, value)));
    }
    storage.log.push(Handling {
        message: read,
        stamp,
        reaction: &Reaction {
            fired,
            verdict: Verdict::Went,
        },
        replies: NO_REPLIES,
    });
    storage.stamp = stamp;
    Verdict::Went
}

/// Sends the value of a write to the replies that waited for it, and records the event. There is room for it. Takes no
/// memory.
#[inline(never)]
fn fill(
    storage: &mut Storage<'_>,
    write: &Message,
    stamp: u64,
    answer: &WriteAnswer,
    outputs: &mut Queue,
) -> Verdict
    requires room { 0 < storage.old.log.room }
    requires room_for_replies { length (readers_of answer.now) ≤ storage.old.log.room_for_replies }
    requires room_in_outputs { length (readers_of answer.now) ≤ outputs.old.room }

    ensures verdict { result ≡ fill_verdict (tag_of write.now.payload) answer.now }
    ensures recorded { IsRecorded storage.old storage.new write.now stamp
        (fill_outcome storage.old (value_of write.now.payload) answer.now
        (full_step write.now.payload (fill_verdict (tag_of write.now.payload) answer.now))) }
    ensures sent { IsSent storage.old outputs.old.messages outputs.new.messages stamp
        (fill_sends (value_of write.now.payload) answer.now) }
{
    let envelope = Envelope {
        number: storage.log.element(),
        position: storage.log.len(),
        stamp,
    };
    let from = storage.log.count_replies();
    let verdict = fill_verdict(tag_of(&write.payload), answer);
    let readers = readers_of(answer);
    send_replies(
        readers,
        value_of(&write.payload),
        envelope,
        &mut storage.log,
        outputs,
    );
    storage.log.push(Handling {
        message: write,
        stamp,
        reaction: &Reaction {
            fired: Fired::Nothing,
            verdict,
        },
        replies: Replies {
            from,
            count: readers.len(),
        },
    });
    storage.stamp = stamp;
    verdict
}

/// The replies that a write releases.
fn readers_of(answer: &WriteAnswer) -> &[Tag]
    ensures { result.now ≡ readers_of answer.now }
{
    match answer {
        WriteAnswer::Readers(readers) => readers.as_slice(),
        WriteAnswer::Second(_) => &[],
    }
}
