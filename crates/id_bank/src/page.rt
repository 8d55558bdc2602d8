//! Pages, of eight neighbouring cells each, and where they are found.

ghost use Rattle.std.specs.Prelude.{◌≡◌, ℕ, ℤ, ◌+◌, ◌<◌, ◌&&◌, ◌≢◌, ◌↔◌, IsTrue};
ghost use Rattle.std.specs.Prelude.{nat_eq, false, length};
ghost use Rattle.std.specs.Prelude.{IfOk, IfSome, IfNone, OnOk, OnErr};
ghost use Rattle.std.specs.Prelude.{None, Some, slice_get};
ghost use Rattle.std.specs.List.{flat_map};
ghost use Rattle.indexmap.specs.IndexMap.{keys, get, IsUnique};
ghost use Rattle.id_tag.specs.declared.Structure.{Structure};
ghost use Rattle.id_bank.specs.declared.cell.ReadAnswer.TheVariants.{Deferred as PutOff};
ghost use Rattle.id_bank.specs.Cells.{read_answer, state_read, write_answer, state_written, count_expected};
ghost use Rattle.id_bank.specs.Cells.{count_readers, filled_at};
ghost use Rattle.id_bank.specs.Slots.{page_of, offset_of, cell_in, same_page, state_in, state_at};
ghost use Rattle.id_bank.specs.Slots.{HasNone, HasNoReaders, cells_below, filled_by};

use crate::cell::{Filled, ReadAnswer, WriteAnswer};
use crate::slot::{Slot, filled_by};
use id_tag::{Cell, NearHasher, Structure, Tag, Value};
use indexmap::IndexMap;
use std::alloc::{AllocError, Global};
use std::marker::Model;

/// A page: the eight neighbours of a structure whose indexes have one quotient by 8, its number. Clauses see the two as
/// a pair.
///
/// Keeps: the indexes of all eight have 64 bits.
#[derive(Clone, Copy, PartialEq, Eq, Hash)]
pub(crate) struct Page {
    number: i64,
    structure: Structure,
}

impl Model for Page {
    ghost use Rattle.std.specs.Prelude.{ℤ};
    ghost use Rattle.id_tag.specs.declared.Structure.{Structure};
    ghost use Rattle.id_bank.specs.Slots.{IsPage};

    ghost Value = { ℤ × Structure };

    ghost view = { λ p. (p.number, p.structure) };

    ghost invariant = { λ p. IsPage (p.number, p.structure) };

    ghost inverse = { λ p. record { number = p.0; structure = p.1 } };
}

impl Page {
    /// The page of a cell. Takes no memory.
    #[inline(always)]
    pub(crate) fn of(cell: Cell) -> Page
        ensures { result ≡ page_of cell }
    {
        Page {
            number: cell.index.div_euclid(8),
            structure: cell.structure,
        }
    }

    /// What pages are sorted by, so that their cells are in order. Takes no memory.
    pub(crate) fn rank(self) -> (Structure, i64)
        ensures { result ≡ (self.1, self.0) }
    {
        (self.structure, self.number)
    }

    // Of which of 64 sorts it is: neighbouring pages, and the same pages of neighbouring structures, are of different
    // ones.
    #[inline(always)]
    fn sort(self) -> usize
        ensures { result < 64 }
    {
        let number = self
            .number
            .cast_unsigned()
            .wrapping_add(self.structure.serial.wrapping_mul(5));
        (number % 64) as usize
    }

    /// The cell at a place of the page. Takes no memory.
    #[inline(always)]
    pub(crate) fn cell(self, offset: usize) -> Cell
        requires { offset < 8 }
        ensures { result ≡ cell_in self offset }
    {
        Cell {
            structure: self.structure,
            index: self.number * 8 + offset as i64,
        }
    }
}

/// Where pages were found of late: for each of 64 sorts of pages one place, which may be another page's.
#[derive(Clone, Copy)]
pub(crate) struct Recent {
    places: [u32; 64],
}

impl Recent {
    /// No page was found. Takes no memory.
    pub(crate) fn new() -> Recent {
        Recent { places: [0; 64] }
    }

    // Where this page may be.
    #[inline(always)]
    fn place(&self, page: Page) -> usize {
        self.places[page.sort()] as usize
    }

    // Notes where this page was found.
    #[inline(always)]
    fn note(&mut self, page: Page, place: usize) {
        if place <= 0xffff_ffff {
            self.places[page.sort()] = place as u32;
        }
    }
}

/// The place of a cell in its page. Takes no memory.
#[inline(always)]
pub(crate) fn offset_of(cell: Cell) -> usize
    ensures value { result ≡ offset_of cell }
    ensures bound { result < 8 }
{
    cell.index.rem_euclid(8) as usize
}

/// The place of a page among the pages, if it is there. Takes no memory.
#[inline(always)]
pub(crate) fn place(
    pages: &IndexMap<Page, Vec<Slot>, NearHasher>,
    recent: &Recent,
    page: Page,
) -> Option<usize>
    ensures found { IfSome result (λ i. slice_get (keys pages.now) i ≡ Some page) }
    ensures absent { IfNone result (get same_page pages.now page ≡ None) }
    ensures unique { IsUnique same_page pages.now }
{
    let guess = recent.place(page);
    if guess < pages.len()
        && let Some((found, _)) = pages.get_index(guess)
        && *found == page
    {
        return Some(guess);
    }
    pages.get_index_of(&page)
}

/// Reads the cell at a place of a page.
pub(crate) fn read_at(
    pages: &mut IndexMap<Page, Vec<Slot>, NearHasher>,
    recent: &mut Recent,
    alloc: Global,
    page: Page,
    offset: usize,
    reply: Tag,
) -> Result<ReadAnswer, AllocError>
    ensures answer { IfOk result (λ answer. answer ≡ read_answer (state_at pages.old.entries page offset)) }
    ensures at { OnOk result (state_at pages.new.entries page offset ≡
        Some (state_read reply (state_at pages.old.entries page offset))) }
    ensures others { (p : ℤ × Structure) (k : ℕ) → (same_page page p && nat_eq offset k) ≡ false →
        state_at pages.new.entries p k ≡ state_at pages.old.entries p k }
    ensures grows { OnErr result (read_answer (state_at pages.old.entries page offset) ≡ PutOff) }
    ensures err { OnErr result (state_at pages.new.entries page offset ≡ state_at pages.old.entries page offset) }
    ensures unique { IsUnique same_page pages.new }
    ensures was_unique { IsUnique same_page pages.old }
{
    let i = reach_page(pages, recent, alloc, page)?;
    let (_, slots) = pages.pair_mut(i);
    read_in(slots, alloc, offset, reply)
}

/// Writes to the cell at a place of a page.
pub(crate) fn write_at(
    pages: &mut IndexMap<Page, Vec<Slot>, NearHasher>,
    recent: &mut Recent,
    alloc: Global,
    page: Page,
    offset: usize,
    value: Value,
    origin: Tag,
) -> Result<WriteAnswer, AllocError>
    ensures answer { IfOk result (λ answer. answer ≡ write_answer (state_at pages.old.entries page offset)) }
    ensures at { OnOk result (state_at pages.new.entries page offset ≡
        Some (state_written value origin (state_at pages.old.entries page offset))) }
    ensures others { (p : ℤ × Structure) (k : ℕ) → (same_page page p && nat_eq offset k) ≡ false →
        state_at pages.new.entries p k ≡ state_at pages.old.entries p k }
    ensures err { OnErr result (state_at pages.new.entries page offset ≡ state_at pages.old.entries page offset) }
    ensures unique { IsUnique same_page pages.new }
    ensures was_unique { IsUnique same_page pages.old }
{
    let i = reach_page(pages, recent, alloc, page)?;
    let (_, slots) = pages.pair_mut(i);
    write_in(slots, alloc, offset, value, origin)
}

// The place of a page among the pages, where it comes last if it is new.
#[inline(always)]
fn reach_page(
    pages: &mut IndexMap<Page, Vec<Slot>, NearHasher>,
    recent: &mut Recent,
    alloc: Global,
    page: Page,
) -> Result<usize, AllocError>
    ensures found { IfOk result (λ i. slice_get (keys pages.new) i ≡ Some page) }
    ensures same { (p : ℤ × Structure) (k : ℕ)
        → state_at pages.new.entries p k ≡ state_at pages.old.entries p k }
    ensures absent { OnErr result ((k : ℕ) → state_at pages.old.entries page k ≡ None) }
    ensures unique { IsUnique same_page pages.new }
    ensures was_unique { IsUnique same_page pages.old }
{
    let i = match place(pages, recent, page) {
        Some(i) => i,
        None => add_page(pages, alloc, page)?,
    };
    recent.note(page, i);
    Ok(i)
}

// Adds a page, none of whose cells was read or written.
#[cold]
#[inline(never)]
fn add_page(
    pages: &mut IndexMap<Page, Vec<Slot>, NearHasher>,
    alloc: Global,
    page: Page,
) -> Result<usize, AllocError>
    requires { get same_page pages.old page ≡ None }
    ensures found { IfOk result (λ i. slice_get (keys pages.new) i ≡ Some page) }
    ensures same { (p : ℤ × Structure) (k : ℕ)
        → state_at pages.new.entries p k ≡ state_at pages.old.entries p k }
    ensures unique { IsUnique same_page pages.new }
{
    let i = pages.len();
    pages.insert(page, Vec::new(alloc))?;
    Ok(i)
}

#[inline(always)]
fn read_in(
    slots: &mut Vec<Slot>,
    alloc: Global,
    offset: usize,
    reply: Tag,
) -> Result<ReadAnswer, AllocError>
    ensures answer { IfOk result (λ answer. answer ≡ read_answer (state_in slots.old.items offset)) }
    ensures at { OnOk result
        (state_in slots.new.items offset ≡ Some (state_read reply (state_in slots.old.items offset))) }
    ensures others { (k : ℕ) → k ≢ offset → state_in slots.new.items k ≡ state_in slots.old.items k }
    ensures grows { OnErr result (read_answer (state_in slots.old.items offset) ≡ PutOff) }
    ensures err { OnErr result (state_in slots.new.items offset ≡ state_in slots.old.items offset) }
{
    reach(slots, offset)?;
    slots[offset].read(alloc, reply)
}

#[inline(always)]
fn write_in(
    slots: &mut Vec<Slot>,
    alloc: Global,
    offset: usize,
    value: Value,
    origin: Tag,
) -> Result<WriteAnswer, AllocError>
    ensures answer { IfOk result (λ answer. answer ≡ write_answer (state_in slots.old.items offset)) }
    ensures at { OnOk result
        (state_in slots.new.items offset ≡ Some (state_written value origin (state_in slots.old.items offset))) }
    ensures others { (k : ℕ) → k ≢ offset → state_in slots.new.items k ≡ state_in slots.old.items k }
    ensures err { OnErr result (state_in slots.new.items offset ≡ state_in slots.old.items offset) }
{
    reach(slots, offset)?;
    slots[offset].write(alloc, value, origin)
}

// Makes slots up to this place.
#[inline(always)]
fn reach(slots: &mut Vec<Slot>, offset: usize) -> Result<(), AllocError>
    ensures ok { OnOk result (offset < length slots.new.items) }
    ensures same { (k : ℕ) → state_in slots.new.items k ≡ state_in slots.old.items k }
    ensures absent { OnErr result (state_in slots.old.items offset ≡ None) }
{
    if offset < slots.len() {
        return Ok(());
    }
    add_slots(slots, offset)
}

#[inline(never)]
fn add_slots(slots: &mut Vec<Slot>, offset: usize) -> Result<(), AllocError>
    ensures ok { OnOk result (offset < length slots.new.items) }
    ensures same { (k : ℕ) → state_in slots.new.items k ≡ state_in slots.old.items k }
{
    slots.reserve(offset.saturating_sub(slots.len()).saturating_add(1))?;
    while slots.len() <= offset {
        slots.push(Slot::Absent)?;
    }
    Ok(())
}

/// How many replies wait for the value of the cell at a place of a page. Takes no memory.
#[inline(always)]
pub(crate) fn readers_in(slots: &[Slot], offset: usize) -> usize
    ensures { result ≡ count_readers (state_in slots.now offset) }
{
    if offset < slots.len() {
        slots[offset].readers()
    } else {
        0
    }
}

/// How many replies wait for the value of the cell at a place of a page, unless it has one. Takes no memory.
#[inline(always)]
pub(crate) fn expected_in(slots: &[Slot], offset: usize) -> Option<usize>
    ensures { result ≡ count_expected (state_in slots.now offset) }
{
    if offset < slots.len() {
        slots[offset].expected()
    } else {
        Some(0)
    }
}

/// The cell at a place of a page, if it holds a value. Takes no memory.
#[inline(always)]
pub(crate) fn filled_in(page: Page, slots: &[Slot], offset: usize) -> Option<Filled>
    requires { offset < 8 }
    ensures { result ≡ filled_by (cell_in page offset) (state_in slots.now offset) }
{
    if offset < slots.len() {
        filled_by(page.cell(offset), &slots[offset])
    } else {
        None
    }
}

/// How many cells of a page hold a value. Takes no memory.
pub(crate) fn count_filled_in(slots: &[Slot]) -> usize
    ensures { (p : ℤ × Structure) → result ≡ length (flat_map filled_at (cells_below 8 p slots.now)) }
{
    let mut count = 0;
    for offset in 0..8 {
        if expected_in(slots, offset).is_none() {
            count += 1;
        }
    }
    count
}

/// Whether no cell of a page was read or written. Takes no memory.
pub(crate) fn has_none(slots: &[Slot]) -> bool
    ensures { IsTrue result ↔ HasNone slots.now }
{
    for offset in 0..8 {
        if !is_absent_in(slots, offset) {
            return false;
        }
    }
    true
}

// Whether the cell at a place of a page was neither read nor written.
#[inline(always)]
fn is_absent_in(slots: &[Slot], offset: usize) -> bool
    ensures { IsTrue result ↔ (state_in slots.now offset ≡ None) }
{
    offset >= slots.len() || slots[offset].is_absent()
}

/// Whether no reply waits at the cells of a page. Takes no memory.
pub(crate) fn has_no_readers(slots: &[Slot]) -> bool
    ensures { IsTrue result ↔ HasNoReaders slots.now }
{
    for offset in 0..8 {
        if readers_in(slots, offset) > 0 {
            return false;
        }
    }
    true
}
