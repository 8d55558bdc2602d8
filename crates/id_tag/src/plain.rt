//! Plain values: those of small numbers, which most tokens carry.

ghost use Rattle.std.specs.Prelude.{◌≡◌, ◌≢◌, ◌≤◌, ◌<◌, ◌+◌, ◌^◌, ◌/◌, ◌%◌, ℤ};
ghost use Rattle.std.specs.Prelude.{◌-ℤ◌, ◌≤ℤ◌, ◌<ℤ◌, neg_ℤ, pos, None, IfSome, IsSome, true};
ghost use Rattle.id_tag.specs.Kinds.{kind_of};
ghost use Rattle.id_tag.specs.Plains.{HasPlace, cell_of, context_of, element_of};
ghost use Rattle.id_tag.specs.Plains.{high_of, index_of, is_word};
ghost use Rattle.id_tag.specs.Plains.{low_of, made_by, serial_of, structure_of, truth_of, whole, word_of};
ghost use Rattle.id_tag.specs.declared.Cell.{Cell};
ghost use Rattle.id_tag.specs.declared.Value.TheVariants as value;

use crate::{Cell, Context, Message, Payload, Sender, Structure, Tag, Value};
use id_instr::{Port, PortKind};

/// A word, which is a signal, a number or a truth value; or a context, a continuation, a structure or an address in
/// small numbers. Beside its kind it has at most a number of 32 bits and one of 64, or two more of 32 in its place, so
/// that it is copied in three parts.
#[derive(Clone, Copy)]
pub enum Plain {
    Signal,
    /// A truth value: 0 for false, and any other number for true.
    Bool(u32),
    Int(i64),
    /// The name of a context.
    Context(u32),
    /// The name of a tag's context, its iteration and its instruction.
    Continuation(u32, u32, u32),
    /// The name of a structure, and its bounds.
    Structure(u32, i32, i32),
    /// The name of a structure, and its bounds with the index of its cell.
    Address(u32, u64),
}

/// The name of a context in one number, where its element has 8 bits and its serial number 24: 256 times the serial
/// number, and the element. That of a structure has its maker in place of the element. Takes no memory.
#[inline(always)]
pub fn name_of(element: u32, serial: u64) -> Option<u32>
    ensures element { IfSome result (λ n. element_of n ≡ element) }
    ensures serial { IfSome result (λ n. serial_of n ≡ serial) }
    ensures fits { element < 2 ^ 8 → serial < 2 ^ 24 → IsSome result }
{
    if element <= 0xff && serial <= 0xff_ffff {
        Some(serial as u32 * 256 + element)
    } else {
        None
    }
}

/// The maker of a structure: its element, which has 7 bits, and 128 more where the structure is nested. Takes no
/// memory.
#[inline(always)]
pub fn maker_of(structure: Structure) -> Option<u8>
    ensures made { IfSome result (λ m. made_by m structure.serial structure.low structure.high ≡ structure) }
    ensures fits { structure.element < 2 ^ 7 → IsSome result }
{
    if structure.element > 0x7f {
        return None;
    }
    let element = structure.element as u8;
    if structure.nested {
        Some(element + 0x80)
    } else {
        Some(element)
    }
}

/// The structure of this maker with this serial number and these bounds. Takes no memory.
#[inline(always)]
pub fn made_by(maker: u32, serial: u64, low: i64, high: i64) -> Structure
    ensures { result ≡ made_by maker serial low high }
{
    Structure {
        element: maker % 0x80,
        serial,
        low,
        high,
        nested: maker / 0x80 != 0,
    }
}

/// The element of a name, or the maker of a structure's. Takes no memory.
#[inline(always)]
pub fn element_of(name: u32) -> u8
    ensures { result ≡ element_of name }
{
    (name % 256) as u8
}

/// The serial number of a name. Takes no memory.
#[inline(always)]
pub fn serial_of(name: u32) -> u32
    ensures { result ≡ serial_of name }
{
    name / 256
}

/// The plain value of a truth value. Takes no memory.
#[inline(always)]
pub fn plain_truth(truth: bool) -> Plain
    ensures whole { whole result ≡ value.Bool truth }
    ensures word { is_word result ≡ true }
{
    Plain::Bool(u32::from(truth))
}

impl Plain {
    /// The same as a value that a token carries. Takes no memory.
    #[inline(always)]
    pub fn value(self) -> Value
        ensures { result ≡ whole self }
    {
        match self {
            Plain::Signal => Value::Signal,
            Plain::Int(number) => Value::Int(number),
            Plain::Bool(truth) => Value::Bool(truth != 0),
            Plain::Context(name) => Value::Context(context(name)),
            Plain::Continuation(name, iteration, instr) => Value::Continuation(Tag {
                context: context(name),
                iteration: u64::from(iteration),
                instr,
            }),
            Plain::Structure(name, low, high) => { Value::Structure(structure(name, low, high)) }
            Plain::Address(name, place) => Value::Address(PlainCell { name, place }.cell()),
        }
    }

    /// The cell whose address it is, if it is one. Takes no memory.
    #[inline(always)]
    pub fn cell(self) -> Option<PlainCell>
        ensures some { IfSome result (λ c. whole self ≡ value.Address (cell_of c)) }
        ensures none { result ≡ None → (c : Cell) → whole self ≢ value.Address c }
    {
        match self {
            Plain::Address(name, place) => Some(PlainCell { name, place }),
            _ => None,
        }
    }

    /// The truth value that it is, if it is one. Takes no memory.
    #[inline(always)]
    pub fn truth(self) -> Option<bool>
        ensures { result ≡ truth_of self }
    {
        match self {
            Plain::Bool(truth) => Some(truth != 0),
            _ => None,
        }
    }

    /// The kind of the ports that take it. Takes no memory.
    #[inline(always)]
    pub fn kind(self) -> PortKind
        ensures { result ≡ kind_of (whole self) }
    {
        match self {
            Plain::Signal => PortKind::Signal,
            Plain::Int(_) => PortKind::Int,
            Plain::Bool(_) => PortKind::Bool,
            Plain::Context(_) => PortKind::Context,
            Plain::Continuation(_, _, _) => PortKind::Continuation,
            Plain::Structure(name, _, _) => PortKind::of_structure(is_nested(name)),
            Plain::Address(name, _) => PortKind::of_address(is_nested(name)),
        }
    }
}

/// A cell in small numbers.
#[derive(Clone, Copy)]
pub struct PlainCell {
    /// The name of its structure.
    pub name: u32,
    /// The bounds of its structure, and its index.
    pub place: u64,
}

impl PlainCell {
    /// The maker of its structure. Takes no memory.
    #[inline(always)]
    pub fn maker(self) -> u8
        ensures { result ≡ element_of self.name }
    {
        element_of(self.name)
    }

    /// Whether its structure is nested. Takes no memory.
    #[inline(always)]
    pub fn is_nested(self) -> bool
        ensures { result ≡ (cell_of self).structure.nested }
    {
        is_nested(self.name)
    }

    /// The serial number of its structure. Takes no memory.
    #[inline(always)]
    pub fn serial(self) -> u32
        ensures { result ≡ serial_of self.name }
    {
        serial_of(self.name)
    }

    /// The lower bound of its structure. Takes no memory.
    #[inline(always)]
    pub fn low(self) -> i32
        ensures { result ≡ low_of self.place }
    {
        (self.place / 0x1000_0000_0000) as i32 - 0x8_0000
    }

    /// The upper bound of its structure. Takes no memory.
    #[inline(always)]
    pub fn high(self) -> i32
        ensures { result ≡ high_of self.place }
    {
        (self.place / 0x40_0000 % 0x40_0000) as i32 - 0x20_0000
    }

    /// Its index. Takes no memory.
    #[inline(always)]
    pub fn index(self) -> i32
        ensures { result ≡ index_of self.place }
    {
        (self.place % 0x40_0000) as i32 - 0x20_0000
    }

    /// The same as any cell. Takes no memory.
    #[inline(always)]
    pub fn cell(self) -> Cell
        ensures { result ≡ cell_of self }
    {
        Cell {
            structure: structure(self.name, self.low(), self.high()),
            index: i64::from(self.index()),
        }
    }

    /// Its address. Takes no memory.
    #[inline(always)]
    pub fn address(self) -> Plain
        ensures { whole result ≡ value.Address (cell_of self) }
    {
        Plain::Address(self.name, self.place)
    }
}

/// The cell in small numbers, where it has those. Takes no memory.
#[inline(always)]
pub fn plain_cell(cell: Cell) -> Option<PlainCell>
    ensures same { IfSome result (λ c. cell_of c ≡ cell) }
    ensures fits { cell.structure.element < 2 ^ 7 → cell.structure.serial < 2 ^ 24
        → HasPlace cell.structure.low cell.structure.high cell.index → IsSome result }
{
    let structure = cell.structure;
    Some(PlainCell {
        name: name_of(u32::from(maker_of(structure)?), structure.serial)?,
        place: place_of(structure.low, structure.high, cell.index)?,
    })
}

/// The cell with this index of the structure of a name, with these bounds, where the numbers are small. Takes no
/// memory.
#[inline(always)]
pub fn plain_cell_in(name: u32, low: i32, high: i32, index: i64) -> Option<PlainCell>
    ensures same { IfSome result
        (λ c. cell_of c ≡ record { structure = structure_of name low high; index = index }) }
    ensures fits { HasPlace low high index → IsSome result }
{
    Some(PlainCell {
        name,
        place: place_of(i64::from(low), i64::from(high), index)?,
    })
}

/// The bounds of a structure and an index in one number, where they fit in 20, 22 and 22 bits with a sign: as
/// all do of a structure whose lower bound has 20, since no structure has more than 1,000,000 cells.
#[inline(always)]
fn place_of(low: i64, high: i64, index: i64) -> Option<u64>
    ensures low { IfSome result (λ p. low_of p ≡ low) }
    ensures high { IfSome result (λ p. high_of p ≡ high) }
    ensures index { IfSome result (λ p. index_of p ≡ index) }
    ensures fits { HasPlace low high index → IsSome result }
{
    Some(joined(
        above(low, 0x8_0000)?,
        above(high, 0x20_0000)?,
        above(index, 0x20_0000)?,
    ))
}

/// How far the number stands above the least of twice so many numbers, half of them below 0, where it is one of them.
#[inline(always)]
fn above(number: i64, half: u32) -> Option<u64>
    ensures exact { IfSome result (λ n. pos n -ℤ pos half ≡ number) }
    ensures below { IfSome result (λ n. n < half + half) }
    ensures fits { neg_ℤ (pos half) ≤ℤ number → number <ℤ pos half → IsSome result }
{
    let half = i64::from(half);
    if (number >= -half) & (number < half) {
        Some((number + half) as u64)
    } else {
        None
    }
}

/// Numbers of 20, 22 and 22 bits in one.
#[inline(always)]
fn joined(first: u64, second: u64, third: u64) -> u64
    requires first { first < 2 ^ 20 }
    requires second { second < 2 ^ 22 }
    requires third { third < 2 ^ 22 }
    ensures first { result / 2 ^ 44 ≡ first }
    ensures second { result / 2 ^ 22 % 2 ^ 22 ≡ second }
    ensures third { result % 2 ^ 22 ≡ third }
{
    first * 0x1000_0000_0000 + second * 0x40_0000 + third
}

/// The context of a name.
#[inline(always)]
fn context(name: u32) -> Context
    ensures { result ≡ context_of name }
{
    Context {
        element: u32::from(element_of(name)),
        serial: u64::from(serial_of(name)),
    }
}

/// The structure of a name, with these bounds.
#[inline(always)]
fn structure(name: u32, low: i32, high: i32) -> Structure
    ensures { result ≡ structure_of name low high }
{
    made_by(
        u32::from(element_of(name)),
        u64::from(serial_of(name)),
        i64::from(low),
        i64::from(high),
    )
}

/// Whether the structure of a name is nested.
#[inline(always)]
fn is_nested(name: u32) -> bool
    ensures { (low : ℤ) (high : ℤ) → result ≡ (structure_of name low high).nested }
{
    element_of(name) / 0x80 != 0
}

/// The value as a plain one, where it is a word, or a context, a continuation, a structure or an address in small
/// numbers. Takes no memory.
#[inline(always)]
pub fn plain_of(value: &Value) -> Option<Plain>
    ensures whole { IfSome result (λ p. whole p ≡ value.now) }
    ensures none { result ≡ None → word_of value.now ≡ None }
{
    match *value {
        Value::Signal => Some(Plain::Signal),
        Value::Int(number) => Some(Plain::Int(number)),
        Value::Bool(truth) => Some(plain_truth(truth)),
        Value::Structure(structure) => Some(Plain::Structure(
            name_of(u32::from(maker_of(structure)?), structure.serial)?,
            near(structure.low)?,
            near(structure.high)?,
        )),
        Value::Address(cell) => Some(plain_cell(cell)?.address()),
        Value::Context(context) => Some(Plain::Context(name_of(context.element, context.serial)?)),
        Value::Continuation(tag) => Some(Plain::Continuation(
            name_of(tag.context.element, tag.context.serial)?,
            small(tag.iteration)?,
            tag.instr,
        )),
    }
}

/// The number in 32 bits, where it fits in them. Takes no memory.
#[inline(always)]
pub fn small(number: u64) -> Option<u32>
    ensures fits { IfSome result (λ n. n ≡ number) }
    ensures none { result ≡ None → 2 ^ 32 ≤ number }
{
    if number <= 0xffff_ffff {
        Some(number as u32)
    } else {
        None
    }
}

/// The number in 32 bits with a sign, where it fits in them.
#[inline(always)]
fn near(number: i64) -> Option<i32>
    ensures { IfSome result (λ n. n ≡ number) }
{
    if (number >= -0x8000_0000) & (number <= 0x7fff_ffff) {
        Some(number as i32)
    } else {
        None
    }
}

/// The number in 8 bits, where it fits in them. Takes no memory.
#[inline(always)]
pub fn tiny(number: u32) -> Option<u8>
    ensures fits { IfSome result (λ n. n ≡ number) }
    ensures none { result ≡ None → 2 ^ 8 ≤ number }
{
    if number <= 0xff {
        Some(number as u8)
    } else {
        None
    }
}

/// A token with a plain value that an element sent, whose numbers are small: what most messages are.
#[derive(Clone, Copy)]
pub struct PlainToken {
    pub value: Plain,
    /// The serial number of the tag's context.
    pub serial: u32,
    pub iteration: u32,
    pub instr: u32,
    pub position: u32,
    pub stamp: u32,
    /// The element of the tag's context.
    pub element: u8,
    pub sender: u8,
    pub output: u8,
    pub port: Port,
}

impl PlainToken {
    ghost use Rattle.std.specs.Prelude.{◌≡◌};
    ghost use Rattle.id_tag.specs.Plains.{message_of, tag_in};

    /// The same as any message. Takes no memory.
    #[inline(always)]
    pub fn message(&self) -> Message
        ensures { result ≡ message_of self.now }
    {
        Message {
            payload: Payload::Token {
                tag: self.tag(),
                port: self.port,
                value: self.value.value(),
            },
            sender: Sender::Element(u32::from(self.sender)),
            position: self.position as usize,
            output: usize::from(self.output),
            stamp: u64::from(self.stamp),
        }
    }

    /// Its tag. Takes no memory.
    #[inline(always)]
    pub fn tag(&self) -> Tag
        ensures { result ≡ tag_in self.now }
    {
        Tag {
            context: Context {
                element: u32::from(self.element),
                serial: u64::from(self.serial),
            },
            iteration: u64::from(self.iteration),
            instr: self.instr,
        }
    }
}
