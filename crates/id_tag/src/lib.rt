//! Tags, values and messages of the machine, and the element that a message goes to.
//!
//! Keeps: nothing beyond its values.
//! Errors: none; nothing here takes memory.
//! Read first: `Tag`, then docs/MACHINE.md ("Messages").
//! Not here: waiting for a partner (`id_match`), firing (`id_ops`).
#![tactic(auto)]

ghost use Rattle.std.specs.Prelude.{◌≡◌, ◌<◌, ◌%◌, ◌↔◌, IsTrue, pos};
ghost use Rattle.std.specs.Int.{int_rem_euclid};
ghost use Rattle.std.specs.Int.RustNames.{unsigned_abs};
ghost use Rattle.id_tag.specs.Kinds.{kind_of, same_kind};
ghost use Rattle.id_tag.specs.Routes.{offset_of, tag_route, cell_route, route_of};

mod near;
mod plain;

use id_instr::{Port, PortKind};
pub use near::{NearHasher, mix};
pub use plain::{
    Plain, PlainCell, PlainToken, element_of, made_by, maker_of, name_of, plain_cell,
    plain_cell_in, plain_of, plain_truth, serial_of, small, tiny,
};

/// The context of an activation: the element that made it, and the number that it gave it.
/// Main's context is element 0, number 0; each element numbers those that it makes from 1.
#[derive(Clone, Copy, Debug, Default, PartialEq, Eq, PartialOrd, Ord, Hash)]
pub struct Context {
    pub element: u32,
    pub serial: u64,
}

/// A tag: the context, the iteration (from 0) and the instruction that a value is for.
#[derive(Clone, Copy, Debug, Default, PartialEq, Eq, PartialOrd, Ord, Hash)]
pub struct Tag {
    pub context: Context,
    pub iteration: u64,
    pub instr: u32,
}

/// A structure: the element that made it, the number that it gave it, its bounds, and whether its cells hold structures
/// in place of numbers. Each element numbers those that it makes from 1.
#[derive(Clone, Copy, Debug, PartialEq, Eq, PartialOrd, Ord, Hash)]
pub struct Structure {
    pub element: u32,
    pub serial: u64,
    pub low: i64,
    pub high: i64,
    pub nested: bool,
}

/// A cell of a structure. Where a message names it, `index` is inside the structure's bounds.
#[derive(Clone, Copy, Debug, PartialEq, Eq, PartialOrd, Ord, Hash)]
pub struct Cell {
    pub structure: Structure,
    pub index: i64,
}

/// A value that a token carries.
#[derive(Clone, Copy, PartialEq, Eq)]
pub enum Value {
    Signal,
    Int(i64),
    Bool(bool),
    Structure(Structure),
    Address(Cell),
    Context(Context),
    Continuation(Tag),
}

/// Who sent a message.
#[derive(Clone, Copy, PartialEq, Eq)]
pub enum Sender {
    /// No element: the message was there at the start.
    Start,
    /// The element of this number.
    Element(u32),
}

/// What a message says.
#[derive(Clone, Copy, PartialEq, Eq)]
pub enum Payload {
    /// A value for a port of the tag's instruction.
    Token {
        tag: Tag,
        port: Port,
        value: Value,
    },
    /// A read of a cell, whose value is to go to port 0 of the tag `reply`.
    Read {
        cell: Cell,
        reply: Tag,
    },
    /// A value for a cell, from the store instruction of the tag `origin`.
    Write {
        cell: Cell,
        value: Value,
        origin: Tag,
    },
}

/// A message, with its sender, the position in the sender's record of the event that sent it, its
/// number among that event's outputs (both from 0), and the stamp of that event.
#[derive(Clone, Copy, PartialEq, Eq)]
pub struct Message {
    pub payload: Payload,
    pub sender: Sender,
    pub position: usize,
    pub output: usize,
    pub stamp: u64,
}

impl Value {
    /// The kind of the ports that take this value. Takes no memory.
    pub fn kind(self) -> PortKind
        ensures { result ≡ kind_of self }
    {
        match self {
            Value::Signal => PortKind::Signal,
            Value::Int(_) => PortKind::Int,
            Value::Bool(_) => PortKind::Bool,
            Value::Structure(structure) => PortKind::of_structure(structure.nested),
            Value::Address(cell) => PortKind::of_address(cell.structure.nested),
            Value::Context(_) => PortKind::Context,
            Value::Continuation(_) => PortKind::Continuation,
        }
    }

    /// Whether ports of this kind take this value. Takes no memory.
    pub fn has_kind(self, kind: PortKind) -> bool
        ensures test { result ≡ same_kind (kind_of self) kind }
        ensures decides { IsTrue result ↔ (kind_of self ≡ kind) }
    {
        self.kind() == kind
    }
}

/// The number of the element, of `count`, that handles the message. Takes no memory.
#[inline(always)]
pub fn route(message: &Message, count: u32) -> u32
    requires { 0 < count }
    ensures exact { result ≡ route_of message.now.payload count }
    ensures below { result < count }
{
    match message.payload {
        Payload::Token { tag, .. } => route_tag(tag, count),
        Payload::Read { cell, .. } | Payload::Write { cell, .. } => route_cell(cell, count),
    }
}

/// The number of the element, of `count`, that handles a token of this tag. Takes no memory.
#[inline(always)]
pub fn route_tag(tag: Tag, count: u32) -> u32
    requires { 0 < count }
    ensures exact { result ≡ tag_route tag count }
    ensures below { result < count }
{
    if count == 1 {
        return 0;
    }
    let made = u128::from(tag.context.element) + u128::from(tag.context.serial);
    let sum = made + u128::from(tag.iteration);
    modulo(sum, count)
}

#[inline(always)]
fn route_cell(cell: Cell, count: u32) -> u32
    requires { 0 < count }
    ensures exact { result ≡ cell_route cell count }
    ensures below { result < count }
{
    if count == 1 {
        return 0;
    }
    let made = i128::from(cell.structure.element) + i128::from(cell.structure.serial);
    rest(made + offset_of(cell), count)
}

// How far the cell is above the lower bound of its structure, which is a number below 0 where it is below that.
#[inline(always)]
fn offset_of(cell: Cell) -> i128
    ensures { result ≡ offset_of cell }
{
    i128::from(cell.index) - i128::from(cell.structure.low)
}

// What is left of a sum of such numbers, which is a number from 0 on even where the sum is below 0.
#[inline(always)]
fn rest(sum: i128, count: u32) -> u32
    requires { 0 < count }
    ensures exact { result ≡ unsigned_abs (int_rem_euclid sum (pos count)) }
    ensures below { result < count }
{
    if sum >= 0 {
        modulo(sum as u128, count)
    } else {
        sum.rem_euclid(i128::from(count)) as u32
    }
}

// 128 bits hold the sum of any three such numbers, and mostly 64 bits do.
fn modulo(sum: u128, count: u32) -> u32
    requires { 0 < count }
    ensures exact { result ≡ sum % count }
    ensures below { result < count }
{
    if sum <= u128::from(u64::MAX) {
        (sum as u64 % u64::from(count)) as u32
    } else {
        (sum % u128::from(count)) as u32
    }
}
