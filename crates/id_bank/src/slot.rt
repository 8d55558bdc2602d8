//! How a cell is kept, and what a read and a write make of it.

ghost use Rattle.std.specs.Prelude.{◌≡◌, ◌++◌, ◌∷◌, ◌↔◌, [], IsTrue, IfOk, IfSome, OnOk, OnErr};
ghost use Rattle.std.specs.Prelude.{map as map_list, None, Ok, Some};
ghost use Rattle.std.specs.List.{flat_map};
ghost use Rattle.id_bank.specs.declared.cell.ReadAnswer.TheVariants.{Deferred as PutOff};
ghost use Rattle.id_bank.specs.Cells.{Present, Deferred, read_answer, state_read, write_answer, state_written};
ghost use Rattle.id_bank.specs.Cells.{count_expected, count_readers, readers_at};
ghost use Rattle.id_bank.specs.Slots.{tag_of, kept_state, state_of, origin_of, replies_of, held_in, filled_by};

use crate::cell::{Filled, ReadAnswer, Reader, Replies, WriteAnswer};
use id_tag::{Cell, Context, Plain, Tag, Value, plain_of, small, tiny};
use std::alloc::{AllocError, Global};
use std::mem;

/// A tag besides its element, in small numbers.
#[derive(Clone, Copy)]
pub struct Numbers {
    pub serial: u32,
    pub iteration: u32,
    pub instr: u32,
}

// The element and the other numbers of a tag, where they are small.
#[inline(always)]
fn small_tag(tag: &Tag) -> Option<(u8, Numbers)>
    ensures { IfSome result (λ p. tag_of p.0 p.1 ≡ tag.now) }
{
    Some((
        tiny(tag.context.element)?,
        Numbers {
            serial: small(tag.context.serial)?,
            iteration: small(tag.iteration)?,
            instr: tag.instr,
        },
    ))
}

// The tag of small numbers.
#[inline(always)]
fn tag_of(element: u8, numbers: Numbers) -> Tag
    ensures { result ≡ tag_of element numbers }
{
    Tag {
        context: Context {
            element: u32::from(element),
            serial: u64::from(numbers.serial),
        },
        iteration: u64::from(numbers.iteration),
        instr: numbers.instr,
    }
}

/// What a cell holds: up to two replies, or a number or a structure in small numbers, if the tags are of small numbers,
/// take no memory of their own.
#[derive(Drop)]
pub enum Slot {
    /// Nothing: the cell was neither read nor written.
    Absent,
    /// A plain value, with the tag of its store.
    Filled(u8, Numbers, Plain),
    /// One reply that waits.
    One(u8, Numbers),
    /// Two replies that wait: their elements, and their other numbers.
    Two(u8, u8, Numbers, Numbers),
    /// Anything else.
    Wide(Box<Kept>),
}

/// What a cell holds in memory of its own.
#[derive(Drop)]
pub enum Kept {
    Present { value: Value, origin: Tag },
    Deferred(Replies),
}

impl Slot {
    // A value from a store.
    #[inline(always)]
    fn present(alloc: Global, value: Value, origin: Tag) -> Result<Slot, AllocError>
        ensures { IfOk result (λ s. state_of s ≡ Some (Present value origin)) }
    {
        match (plain_of(&value), small_tag(&origin)) {
            (Some(plain), Some((element, numbers))) => Ok(Slot::Filled(element, numbers, plain)),
            _ => Slot::wide(alloc, Kept::Present { value, origin }),
        }
    }

    #[cold]
    #[inline(never)]
    fn wide(alloc: Global, kept: Kept) -> Result<Slot, AllocError>
        ensures { IfOk result (λ s. state_of s ≡ Some (kept_state kept)) }
    {
        Ok(Slot::Wide(Box::new(alloc, kept)?))
    }

    // One reply.
    #[inline(always)]
    fn one(alloc: Global, reply: Tag) -> Result<Slot, AllocError>
        ensures { IfOk result (λ s. state_of s ≡ Some (Deferred (reply ∷ []))) }
    {
        match small_tag(&reply) {
            Some((element, numbers)) => Ok(Slot::One(element, numbers)),
            None => Slot::wide(alloc, Kept::Deferred(Replies::one(alloc, reply))),
        }
    }

    // A reply of small numbers, and one more.
    #[inline(always)]
    fn two(alloc: Global, element: u8, first: Numbers, reply: Tag) -> Result<Slot, AllocError>
        ensures { IfOk result (λ s. state_of s ≡ Some (Deferred (tag_of element first ∷ reply ∷ []))) }
    {
        match small_tag(&reply) {
            Some((other, second)) => Ok(Slot::Two(element, other, first, second)),
            None => Slot::wide(
                alloc,
                Kept::Deferred(Replies::two(alloc, tag_of(element, first), reply)),
            ),
        }
    }

    // Three replies.
    #[cold]
    #[inline(never)]
    fn three(alloc: Global, first: Tag, second: Tag, third: Tag) -> Result<Slot, AllocError>
        ensures { IfOk result (λ s. state_of s ≡ Some (Deferred (first ∷ second ∷ third ∷ []))) }
    {
        let mut replies = Replies::two(alloc, first, second);
        replies.push(third)?;
        Slot::wide(alloc, Kept::Deferred(replies))
    }

    /// Whether the cell was neither read nor written. Takes no memory.
    #[inline(always)]
    pub fn is_absent(&self) -> bool
        ensures { IsTrue result ↔ (state_of self.now ≡ None) }
    {
        match self {
            Slot::Absent => true,
            Slot::Filled(_, _, _) | Slot::One(_, _) | Slot::Two(_, _, _, _) | Slot::Wide(_) =>
                false,
        }
    }

    /// Reads the cell for this reply. After an error nothing has changed.
    #[inline(always)]
    pub fn read(&mut self, alloc: Global, reply: Tag) -> Result<ReadAnswer, AllocError>
        ensures answer { IfOk result (λ answer. answer ≡ read_answer (state_of self.old)) }
        ensures after { OnOk result (state_of self.new ≡ Some (state_read reply (state_of self.old))) }
        ensures grows { OnErr result (read_answer (state_of self.old) ≡ PutOff) }
        ensures err { OnErr result (state_of self.new ≡ state_of self.old) }
    {
        match self {
            Slot::Filled(_, _, plain) => Ok(ReadAnswer::Now(plain.value())),
            Slot::Wide(kept) => kept.read(reply),
            Slot::Absent => self.defer(Slot::one(alloc, reply)),
            Slot::One(element, first) => {
                let next = Slot::two(alloc, *element, *first, reply);
                self.defer(next)
            }
            Slot::Two(element, other, first, second) => {
                let next = Slot::three(
                    alloc,
                    tag_of(*element, *first),
                    tag_of(*other, *second),
                    reply,
                );
                self.defer(next)
            }
        }
    }

    // Holds what it is to hold now that a reply waits, if there was memory for that.
    #[inline(always)]
    fn defer(&mut self, next: Result<Slot, AllocError>) -> Result<ReadAnswer, AllocError>
        ensures answer { IfOk result (λ answer. answer ≡ PutOff) }
        ensures after { OnOk result (next ≡ Ok self.new) }
        ensures err { OnErr result (self.new ≡ self.old) }
    {
        *self = next?;
        Ok(ReadAnswer::Deferred)
    }

    /// Writes a value to the cell. After an error nothing has changed.
    #[inline(always)]
    pub fn write(
        &mut self,
        alloc: Global,
        value: Value,
        origin: Tag,
    ) -> Result<WriteAnswer, AllocError>
        ensures answer { IfOk result (λ answer. answer ≡ write_answer (state_of self.old)) }
        ensures after { OnOk result (state_of self.new ≡ Some (state_written value origin (state_of self.old))) }
        ensures err { OnErr result (state_of self.new ≡ state_of self.old) }
    {
        if let Some(first) = self.origin() {
            return Ok(WriteAnswer::Second(first));
        }
        let next = Slot::present(alloc, value, origin)?;
        let before = mem::replace(self, next);
        Ok(WriteAnswer::Readers(before.replies(alloc)))
    }

    // The origin of the value, if there is one.
    #[inline(always)]
    fn origin(&self) -> Option<Tag>
        ensures { result ≡ origin_of (state_of self.now) }
    {
        match self {
            Slot::Filled(element, numbers, _) => Some(tag_of(*element, *numbers)),
            Slot::Wide(kept) => kept.origin(),
            Slot::Absent | Slot::One(_, _) | Slot::Two(_, _, _, _) => None,
        }
    }

    // The replies that wait.
    #[inline(always)]
    fn replies(self, alloc: Global) -> Replies
        ensures { result ≡ replies_of (state_of self) }
    {
        match self {
            Slot::Absent | Slot::Filled(_, _, _) => Replies::none(alloc),
            Slot::One(element, numbers) => Replies::one(alloc, tag_of(element, numbers)),
            Slot::Two(element, other, first, second) => {
                Replies::two(alloc, tag_of(element, first), tag_of(other, second))
            }
            Slot::Wide(kept) => Box::into_inner(kept).replies(alloc),
        }
    }

    /// How many replies wait for the cell's value. Takes no memory.
    #[inline(always)]
    pub fn readers(&self) -> usize
        ensures { result ≡ count_readers (state_of self.now) }
    {
        match self {
            Slot::Absent | Slot::Filled(_, _, _) => 0,
            Slot::One(_, _) => 1,
            Slot::Two(_, _, _, _) => 2,
            Slot::Wide(kept) => kept.readers(),
        }
    }

    /// How many replies wait for the cell's value, unless it has one. Takes no memory.
    #[inline(always)]
    pub fn expected(&self) -> Option<usize>
        ensures { result ≡ count_expected (state_of self.now) }
    {
        match self {
            Slot::Filled(_, _, _) => None,
            Slot::Absent => Some(0),
            Slot::One(_, _) => Some(1),
            Slot::Two(_, _, _, _) => Some(2),
            Slot::Wide(kept) => kept.expected(),
        }
    }
}

impl Kept {
    fn read(&mut self, reply: Tag) -> Result<ReadAnswer, AllocError>
        ensures answer { IfOk result (λ answer. answer ≡ read_answer (Some (kept_state self.old))) }
        ensures after { OnOk result (kept_state self.new ≡ state_read reply (Some (kept_state self.old))) }
        ensures grows { OnErr result (read_answer (Some (kept_state self.old)) ≡ PutOff) }
        ensures err { OnErr result (kept_state self.new ≡ kept_state self.old) }
    {
        match self {
            Kept::Present { value, .. } => Ok(ReadAnswer::Now(*value)),
            Kept::Deferred(replies) => {
                replies.push(reply)?;
                Ok(ReadAnswer::Deferred)
            }
        }
    }

    fn origin(&self) -> Option<Tag>
        ensures { result ≡ origin_of (Some (kept_state self.now)) }
    {
        match self {
            Kept::Present { origin, .. } => Some(*origin),
            Kept::Deferred(_) => None,
        }
    }

    fn replies(self, alloc: Global) -> Replies
        ensures { result ≡ replies_of (Some (kept_state self)) }
    {
        match self {
            Kept::Present { .. } => Replies::none(alloc),
            Kept::Deferred(replies) => replies,
        }
    }

    fn readers(&self) -> usize
        ensures { result ≡ count_readers (Some (kept_state self.now)) }
    {
        match self {
            Kept::Present { .. } => 0,
            Kept::Deferred(replies) => replies.len(),
        }
    }

    fn expected(&self) -> Option<usize>
        ensures { result ≡ count_expected (Some (kept_state self.now)) }
    {
        match self {
            Kept::Present { .. } => None,
            Kept::Deferred(replies) => Some(replies.len()),
        }
    }
}

/// The cell, if it holds a value. Takes no memory.
#[inline(always)]
pub fn filled_by(cell: Cell, slot: &Slot) -> Option<Filled>
    ensures { result ≡ filled_by cell (state_of slot.now) }
{
    match slot {
        Slot::Filled(element, numbers, plain) => Some(Filled {
            cell,
            value: plain.value(),
            origin: tag_of(*element, *numbers),
        }),
        Slot::Wide(kept) => filled_kept(cell, kept),
        Slot::Absent | Slot::One(_, _) | Slot::Two(_, _, _, _) => None,
    }
}

fn filled_kept(cell: Cell, kept: &Kept) -> Option<Filled>
    ensures { result ≡ filled_by cell (Some (kept_state kept.now)) }
{
    match kept {
        Kept::Present { value, origin } => Some(Filled {
            cell,
            value: *value,
            origin: *origin,
        }),
        Kept::Deferred(_) => None,
    }
}

/// The replies that wait at the cells.
pub fn waiting(alloc: Global, slots: &[(Cell, &Slot)]) -> Result<Vec<Reader>, AllocError>
    ensures { IfOk result (λ rs. rs.items ≡ flat_map (λ e. readers_at (e.0, held_in e.1.now)) slots.now) }
{
    let mut readers = Vec::new(alloc);
    for entry in slots {
        add_waiting(&mut readers, entry.0, entry.1)?;
    }
    Ok(readers)
}

fn add_waiting(readers: &mut Vec<Reader>, cell: Cell, slot: &Slot) -> Result<(), AllocError>
    ensures { OnOk result (readers.new.items ≡ readers.old.items ++ readers_at (cell, held_in slot.now)) }
{
    match slot {
        Slot::Absent | Slot::Filled(_, _, _) => Ok(()),
        Slot::One(element, numbers) => add_readers(readers, cell, &[tag_of(*element, *numbers)]),
        Slot::Two(element, other, first, second) => add_readers(
            readers,
            cell,
            &[tag_of(*element, *first), tag_of(*other, *second)],
        ),
        Slot::Wide(kept) => add_kept_readers(readers, cell, kept),
    }
}

fn add_kept_readers(readers: &mut Vec<Reader>, cell: Cell, kept: &Kept) -> Result<(), AllocError>
    ensures { OnOk result (readers.new.items ≡ readers.old.items ++ readers_at (cell, kept_state kept.now)) }
{
    match kept {
        Kept::Present { .. } => Ok(()),
        Kept::Deferred(replies) => add_readers(readers, cell, replies.as_slice()),
    }
}

fn add_readers(readers: &mut Vec<Reader>, cell: Cell, replies: &[Tag]) -> Result<(), AllocError>
    ensures { OnOk result
        (readers.new.items ≡ readers.old.items ++ map_list (λ t. record { cell = cell; reply = t }) replies.now) }
{
    for reply in replies {
        readers.push(Reader {
            cell,
            reply: *reply,
        })?;
    }
    Ok(())
}
