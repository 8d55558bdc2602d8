//! How a queue keeps a message: in one parcel of 64 bytes, or aside where it does not fit in one.

ghost use Rattle.std.specs.Prelude.{◌≡◌, IfSome, List, Some};
ghost use Rattle.id_tag.specs.declared.Message.{Message};
ghost use Rattle.id_tag.specs.declared.Tag.{Tag};
ghost use Rattle.id_tag.specs.declared.Value.TheVariants as value;
ghost use Rattle.id_tag.specs.declared.Payload.TheVariants.{Token, Read, Write};
ghost use Rattle.id_tag.specs.declared.Sender.TheVariants.{Element};
ghost use Rattle.id_instr.specs.declared.dests.Port.{Port};
ghost use Rattle.id_flight.specs.declared.parcel.What.TheVariants.{Aside};
ghost use Rattle.id_flight.specs.Parcels.{IsPacked, IsWithin, cell_in, index_in, own, said, unpacked};
ghost use Rattle.id_flight.specs.Queues.{context_of};
ghost use Rattle.id_flight.specs.Accesses.{accessed};
ghost use Rattle.id_tag.specs.declared.plain.Plain.{Plain};
ghost use Rattle.id_tag.specs.Plains.{cell_of, made_by, message_of, tag_in as tag_of, whole};

use crate::access::Access;
use id_instr::Port;
use id_tag::{
    Cell, Context, Message, Payload, Plain, PlainCell, PlainToken, Sender, Structure, Tag, Value,
    made_by, maker_of, plain_cell, plain_of, small, tiny,
};

/// A message in 64 bytes: most numbers of a run need no more than 32 bits, and there are no more than 64 elements. It
/// holds a plain token, so that one comes and leaves as one block of memory, and another message is told by what else
/// the parcel says.
#[derive(Clone, Copy)]
pub(crate) struct Parcel {
    pub(crate) token: PlainToken,
    pub(crate) what: What,
}

const _: () = prove!(size_of::<Parcel>() == 64);

/// What a message is: the plain token; a token of its tag and port with a structure or an address; a read whose reply
/// is to go to its tag; a write of its value from its tag; or that the whole message stands aside. A structure is told
/// by its maker, serial number and bounds, and a cell of it by the index too, which is the token's value. The cell of
/// a write is told in small numbers, the name of its structure and its place.
#[derive(Clone, Copy)]
pub(crate) enum What {
    Plain,
    Structure(u8, u32, i64, i64),
    Address(u8, u32, i64, i64),
    Read(u8, u32, i64, i64),
    Write(u32, u64),
    Aside(usize),
}

/// The message in a parcel, where it fits in one.
#[inline(always)]
pub(crate) fn packed(message: &Message) -> Option<Parcel>
    ensures { IfSome result (λ p. IsPacked message.now p) }
{
    match message.payload {
        Payload::Token { tag, port, value } => match carried(value) {
            Some((value, what)) => narrowed(message, tag, port, value, what),
            None => None,
        },
        Payload::Read { cell, reply } => match asked(cell) {
            Some((index, what)) => narrowed(message, reply, Port::Zero, index, what),
            None => None,
        },
        Payload::Write {
            cell,
            value,
            origin,
        } => match stored(cell, value) {
            Some((value, what)) => narrowed(message, origin, Port::Zero, value, what),
            None => None,
        },
    }
}

/// The parcel of a plain token.
#[inline(always)]
pub(crate) fn packed_plain(token: &PlainToken) -> Parcel
    ensures { IsPacked (message_of token.now) result }
{
    Parcel {
        token: *token,
        what: What::Plain,
    }
}

/// The parcel of a read of a cell, whose reply is to go to this token's tag, and which is else like it.
#[inline(always)]
pub(crate) fn packed_read(like: &PlainToken, cell: PlainCell) -> Parcel
    ensures { IsPacked (record (message_of like.now) { payload = Read (cell_of cell) (tag_of like.now) }) result }
{
    let value = Plain::Int(i64::from(cell.index()));
    Parcel {
        token: PlainToken { value, ..*like },
        what: What::Read(
            cell.maker(),
            cell.serial(),
            i64::from(cell.low()),
            i64::from(cell.high()),
        ),
    }
}

/// The parcel of a write of a value to a cell, from the store of this token's tag, and else like it.
#[inline(always)]
pub(crate) fn packed_write(like: &PlainToken, cell: PlainCell, value: Plain) -> Parcel
    ensures { IsPacked (record (message_of like.now) {
      payload = Write (cell_of cell) (whole value) (tag_of like.now);
    }) result }
{
    Parcel {
        token: PlainToken { value, ..*like },
        what: What::Write(cell.name, cell.place),
    }
}

/// The plain token of a parcel, where it is one.
#[inline(always)]
pub(crate) fn plain_in(parcel: &Parcel) -> Option<&PlainToken>
    ensures { IfSome result (λ t. (asides : List Message) → unpacked asides parcel.now ≡ message_of t.now) }
{
    match parcel.what {
        What::Plain => Some(&parcel.token),
        _ => None,
    }
}

/// The read of a cell, or the write to one, that a parcel is, if it is one.
#[inline(always)]
pub(crate) fn access_in(parcel: &Parcel) -> Option<Access>
    ensures { IfSome result (λ d. (asides : List Message) → unpacked asides parcel.now ≡ accessed d) }
{
    match (parcel.what, parcel.token.value) {
        (What::Read(element, serial, low, high), value) => Some(Access {
            like: parcel.token,
            cell: cell(element, serial, low, high, value),
            stored: None,
        }),
        (What::Write(name, place), value) => Some(Access {
            like: parcel.token,
            cell: PlainCell { name, place }.cell(),
            stored: Some(value),
        }),
        _ => None,
    }
}

/// The context of a parcel's message.
#[inline(always)]
pub(crate) fn context_in(asides: &[Message], parcel: &Parcel) -> Context
    requires { IsWithin asides.now parcel.now }
    ensures { result ≡ context_of (unpacked asides.now parcel.now) }
{
    match parcel.what {
        What::Aside(index) => context_of(&asides[index]),
        _ => parcel.token.tag().context,
    }
}

/// The context of a message.
fn context_of(message: &Message) -> Context
    ensures { result ≡ context_of message.now }
{
    match message.payload {
        Payload::Token { tag, .. } => tag.context,
        Payload::Read { reply, .. } => reply.context,
        Payload::Write { origin, .. } => origin.context,
    }
}

/// The parcel of a message that stands aside at this index.
pub(crate) fn parcel_aside(index: usize) -> Parcel
    ensures { result.what ≡ Aside index }
{
    Parcel {
        token: PlainToken {
            value: Plain::Signal,
            serial: 0,
            iteration: 0,
            instr: 0,
            position: 0,
            stamp: 0,
            element: 0,
            sender: 0,
            output: 0,
            port: Port::Zero,
        },
        what: What::Aside(index),
    }
}

/// The message of a parcel.
#[inline(always)]
pub(crate) fn unpack(asides: &[Message], parcel: &Parcel) -> Message
    requires { IsWithin asides.now parcel.now }
    ensures { result ≡ unpacked asides.now parcel.now }
{
    let token = &parcel.token;
    let tag = token.tag();
    match parcel.what {
        What::Plain => token.message(),
        What::Structure(element, serial, low, high) => Message {
            payload: Payload::Token {
                tag,
                port: token.port,
                value: Value::Structure(made_by(u32::from(element), u64::from(serial), low, high)),
            },
            ..token.message()
        },
        What::Address(element, serial, low, high) => Message {
            payload: Payload::Token {
                tag,
                port: token.port,
                value: Value::Address(cell(element, serial, low, high, token.value)),
            },
            ..token.message()
        },
        What::Read(element, serial, low, high) => Message {
            payload: Payload::Read {
                cell: cell(element, serial, low, high, token.value),
                reply: tag,
            },
            ..token.message()
        },
        What::Write(name, place) => Message {
            payload: Payload::Write {
                cell: PlainCell { name, place }.cell(),
                value: token.value.value(),
                origin: tag,
            },
            ..token.message()
        },
        What::Aside(index) => asides[index],
    }
}

/// The cell of the structure of these numbers and bounds at the index that this value is.
#[inline(always)]
fn cell(element: u8, serial: u32, low: i64, high: i64, value: Plain) -> Cell
    ensures { result ≡ cell_in element serial low high (index_in value) }
{
    let index = match value {
        Plain::Int(index) => index,
        _ => 0,
    };
    Cell {
        structure: made_by(u32::from(element), u64::from(serial), low, high),
        index,
    }
}

/// What a token with this value says, where a parcel has room for it: its plain value, and what it is.
#[inline(always)]
fn carried(value: Value) -> Option<(Plain, What)>
    ensures { IfSome result (λ w. (t : Tag) (q : Port) → said t q w.0 w.1 ≡ Some (Token t q value)) }
{
    match value {
        Value::Structure(structure) => match plain_of(&value) {
            Some(plain) => Some((plain, What::Plain)),
            None => carried_structure(structure),
        },
        Value::Address(cell) => match plain_of(&value) {
            Some(plain) => Some((plain, What::Plain)),
            None => carried_cell(cell),
        },
        _ => Some((plain_of(&value)?, What::Plain)),
    }
}

/// The same of a structure.
#[inline(always)]
fn carried_structure(structure: Structure) -> Option<(Plain, What)>
    ensures { IfSome result (λ w. (t : Tag) (q : Port) →
        said t q w.0 w.1 ≡ Some (Token t q (value.Structure structure))) }
{
    let (element, serial) = short_structure(structure)?;
    let Structure { low, high, .. } = structure;
    Some((Plain::Signal, What::Structure(element, serial, low, high)))
}

/// The same of the address of a cell.
#[inline(always)]
fn carried_cell(cell: Cell) -> Option<(Plain, What)>
    ensures { IfSome result
        (λ w. (t : Tag) (q : Port) → said t q w.0 w.1 ≡ Some (Token t q (value.Address cell))) }
{
    let (element, serial) = short_structure(cell.structure)?;
    let Structure { low, high, .. } = cell.structure;
    Some((
        Plain::Int(cell.index),
        What::Address(element, serial, low, high),
    ))
}

/// The same of a read of this cell.
#[inline(always)]
fn asked(cell: Cell) -> Option<(Plain, What)>
    ensures { IfSome result (λ w. (t : Tag) (q : Port) → said t q w.0 w.1 ≡ Some (Read cell t)) }
{
    let (element, serial) = short_structure(cell.structure)?;
    let Structure { low, high, .. } = cell.structure;
    Some((
        Plain::Int(cell.index),
        What::Read(element, serial, low, high),
    ))
}

/// The same of a write of this value to a cell.
#[inline(always)]
fn stored(cell: Cell, value: Value) -> Option<(Plain, What)>
    ensures { IfSome result (λ w. (t : Tag) (q : Port) → said t q w.0 w.1 ≡ Some (Write cell value t)) }
{
    let PlainCell { name, place } = plain_cell(cell)?;
    Some((plain_of(&value)?, What::Write(name, place)))
}

/// The maker and the serial number of a structure, where they are short.
#[inline(always)]
fn short_structure(structure: Structure) -> Option<(u8, u32)>
    ensures { IfSome result (λ s. made_by s.0 s.1 structure.low structure.high ≡ structure) }
{
    Some((maker_of(structure)?, small(structure.serial)?))
}

/// The message in a parcel that says this of this tag, port and value, where its numbers fit.
#[inline(always)]
fn narrowed(message: &Message, tag: Tag, port: Port, value: Plain, what: What) -> Option<Parcel>
    ensures what { IfSome result (λ p. p.what ≡ what) }
    ensures value { IfSome result (λ p. p.token.value ≡ value) }
    ensures port { IfSome result (λ p. p.token.port ≡ port) }
    ensures tag { IfSome result (λ p. tag_of p.token ≡ tag) }
    ensures message { IfSome result (λ p. own p message.now.payload ≡ message.now) }
{
    let (sender, output, position, stamp) = short_origin(message)?;
    let (element, serial, iteration) = short_tag(tag)?;
    Some(Parcel {
        token: PlainToken {
            value,
            serial,
            iteration,
            instr: tag.instr,
            position,
            stamp,
            element,
            sender,
            output,
            port,
        },
        what,
    })
}

/// The sender of a message, its output, the position and the stamp, where they are short.
#[inline(always)]
fn short_origin(message: &Message) -> Option<(u8, u8, u32, u32)>
    ensures sender { IfSome result (λ s. message.now.sender ≡ Element s.0) }
    ensures others { IfSome result (λ s. (s.1 ≡ message.now.output) × (s.2 ≡ message.now.position)
        × (s.3 ≡ message.now.stamp)) }
{
    let Sender::Element(sender) = message.sender else {
        return None;
    };
    Some((
        tiny(sender)?,
        tiniest(message.output)?,
        small(message.position as u64)?,
        small(message.stamp)?,
    ))
}

/// The element and the serial number of a tag's context, and its iteration, where they are short.
#[inline(always)]
fn short_tag(tag: Tag) -> Option<(u8, u32, u32)>
    ensures { IfSome result
        (λ s. (s.0 ≡ tag.context.element) × (s.1 ≡ tag.context.serial) × (s.2 ≡ tag.iteration)) }
{
    Some((
        tiny(tag.context.element)?,
        small(tag.context.serial)?,
        small(tag.iteration)?,
    ))
}

/// The number in 8 bits, where it fits in them.
#[inline(always)]
fn tiniest(number: usize) -> Option<u8>
    ensures { IfSome result (λ n. n ≡ number) }
{
    if number <= 0xff {
        Some(number as u8)
    } else {
        None
    }
}
