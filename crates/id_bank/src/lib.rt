//! The bank, the I-structure store: the cells of structures, each of which is stored into once and may be read before.
//!
//! Keeps: of each cell that was read or written the value with the tag of its store, or the replies that wait
//!     for it, in order of arrival: in pages of eight neighbours, and where these were found of late. Clauses see a
//!     finite map.
//! Errors: want of memory alone, and then nothing has changed.
//! Read first: `specs/Cells.antt`, `specs/Slots.antt`, then `read` and `write`.
//! Not here: addresses and their bounds (`id_ops`), who sends the replies (`id_step`).
#![tactic(auto)]

ghost use Rattle.std.specs.Prelude.{◌≡◌, ◌↔◌, ◌++◌, ◌<◌, length, All, IsTrue, IfOk, OnOk, OnErr};
ghost use Rattle.std.specs.Prelude.{map as map_list};
ghost use Rattle.std.specs.FinMap as map;
ghost use Rattle.std.specs.List.{flat_map};
ghost use Rattle.indexmap.specs.IndexMap.{IsUnique};
ghost use Rattle.id_tag.specs.Tags.{cell_cmp};
ghost use Rattle.id_bank.specs.declared.cell.ReadAnswer.TheVariants.{Deferred as PutOff};
ghost use Rattle.id_bank.specs.Cells.{filled_at, read_answer, write_answer};
ghost use Rattle.id_bank.specs.Slots.{HasNone, HasNoReaders, same_page, state_in, held_in, entry_at, cell_in};
ghost use Rattle.id_bank.specs.Slots.{cells_below, cells_in, page_cells};

mod cell;
mod page;
mod slot;

use crate::page::{
    Page, Recent, count_filled_in, expected_in, filled_in, has_no_readers, has_none, offset_of,
    place, read_at, readers_in, write_at,
};
use crate::slot::{Slot, waiting};
pub use cell::{Filled, ReadAnswer, Reader, Replies, WriteAnswer};
use id_tag::{Cell, NearHasher, Tag, Value};
use indexmap::IndexMap;
use std::alloc::{AllocError, Global};
use std::marker::Model;

/// The cells that were read or written.
#[derive(Drop)]
pub struct Bank {
    alloc: Global,
    pages: IndexMap<Page, Vec<Slot>, NearHasher>,
    recent: Recent,
}

impl Model for Bank {
    ghost use Rattle.std.specs.FinMap as map;
    ghost use Rattle.id_bank.specs.Cells.{Cells};
    ghost use Rattle.id_bank.specs.Codes.{coded_cells};
    ghost use Rattle.id_bank.specs.Slots.{cells_in};

    ghost Value = { Cells };

    ghost coded = { coded_cells };

    ghost view = { λ b. map.from_entries (cells_in b.pages.entries) };
}

impl Bank {
    ghost use Rattle.std.specs.Prelude.{◌↔◌, IsTrue};
    ghost use Rattle.id_bank.specs.Cells.{read_after, write_after, cells_of, deferred_of};
    ghost use Rattle.id_bank.specs.Cells.{count_expected, count_readers};

    /// The bank of which no cell was read or written. Takes no memory.
    pub fn new(alloc: Global) -> Bank
        ensures { result ≡ map.empty }
    {
        Bank {
            alloc,
            pages: IndexMap::with_hasher(alloc, NearHasher::new()),
            recent: Recent::new(),
        }
    }

    /// Reads a cell for this reply: its value is there, or the reply waits for it, behind those that wait
    /// already. Memory is wanted only where the reply waits; after an error nothing has changed.
    pub fn read(&mut self, cell: Cell, reply: Tag) -> Result<ReadAnswer, AllocError>
        ensures answer { IfOk result (λ answer. answer ≡ read_answer (map.get self.old cell)) }
        ensures after { OnOk result (self.new ≡ read_after self.old cell reply) }
        ensures grows { OnErr result (read_answer (map.get self.old cell) ≡ PutOff) }
        ensures err { OnErr result (self.new ≡ self.old) }
    {
        read_at(
            &mut self.pages,
            &mut self.recent,
            self.alloc,
            Page::of(cell),
            offset_of(cell),
            reply,
        )
    }

    /// Writes the value of the store `origin` to a cell: the cell holds it from now on, and all that waited for
    /// it get it; or the cell holds a value already, and nothing changes. After an error nothing has changed.
    pub fn write(
        &mut self,
        cell: Cell,
        value: Value,
        origin: Tag,
    ) -> Result<WriteAnswer, AllocError>
        ensures answer { IfOk result (λ answer. answer ≡ write_answer (map.get self.old cell)) }
        ensures after { OnOk result (self.new ≡ write_after self.old cell value origin) }
        ensures err { OnErr result (self.new ≡ self.old) }
    {
        write_at(
            &mut self.pages,
            &mut self.recent,
            self.alloc,
            Page::of(cell),
            offset_of(cell),
            value,
            origin,
        )
    }

    /// Whether no cell was read or written. Takes no memory.
    pub fn is_empty(&self) -> bool
        ensures { IsTrue result ↔ (self.now ≡ map.empty) }
    {
        none_held(&self.pages)
    }

    /// How many replies wait for the value of a cell. Takes no memory.
    pub fn readers(&self, cell: Cell) -> usize
        ensures { result ≡ count_readers (map.get self.now cell) }
    {
        let key = Page::of(cell);
        match place(&self.pages, &self.recent, key) {
            Some(i) => readers_in(&self.pages[i], offset_of(cell)),
            None => 0,
        }
    }

    /// How many replies wait for the value of a cell, unless it has one. Takes no memory.
    pub fn expected(&self, cell: Cell) -> Option<usize>
        ensures { result ≡ count_expected (map.get self.now cell) }
    {
        let key = Page::of(cell);
        match place(&self.pages, &self.recent, key) {
            Some(i) => expected_in(&self.pages[i], offset_of(cell)),
            None => Some(0),
        }
    }

    /// The cells that hold a value, in the order of cells: memory is wanted for that of their pages.
    pub fn cells(&self, alloc: Global) -> Result<Cells<'_>, AllocError>
        ensures items { IfOk result (λ cs. cs ≡ cells_of self.now) }
    {
        let pages = ordered(alloc, &self.pages)?;
        let count = count_filled(&pages)?;
        Ok(Cells {
            pages,
            page: 0,
            left: 8,
            count,
        })
    }

    /// The replies that wait, in the order of their cells, and of one cell in order of arrival. Memory is wanted only
    /// where there are some.
    pub fn deferred(&self, alloc: Global) -> Result<Vec<Reader>, AllocError>
        ensures items { IfOk result (λ rs. rs.items ≡ deferred_of self.now) }
    {
        if none_waits(&self.pages) {
            return Ok(Vec::new(alloc));
        }
        let slots = in_order(alloc, &self.pages)?;
        waiting(alloc, &slots)
    }
}

/// The cells that hold a value, in the order of cells: those that are still to come.
#[derive(Drop)]
pub struct Cells<'a> {
    pages: Vec<(Page, &'a Vec<Slot>)>,
    // The page that is gone through.
    page: usize,
    // How many of its places are still to come.
    left: usize,
    // How many cells are still to come.
    count: usize,
}

impl<'a> Model for Cells<'a> {
    ghost use Rattle.std.specs.Prelude.{◌≡◌, ◌≤◌, List, drop, length, map};
    ghost use Rattle.std.specs.List.{flat_map};
    ghost use Rattle.id_bank.specs.Cells.{filled_at};
    ghost use Rattle.id_bank.specs.declared.cell.Filled.{Filled};
    ghost use Rattle.id_bank.specs.Slots.{cells_left};

    ghost Value = { List Filled };

    ghost view = { λ c.
        flat_map filled_at (cells_left c.left (map (λ e. (e.0, e.1.now)) (drop c.page c.pages.items))) };

    ghost invariant = { λ c. (c.left ≤ 8) × (c.count ≡ length (flat_map filled_at (cells_left c.left
        (map (λ e. (e.0, e.1.now)) (drop c.page c.pages.items))))) };
}

impl<'a> Cells<'a> {
    ghost use Rattle.std.specs.Prelude.{[], ◌∷◌, IfSome, IfNone};

    /// How many cells are still to come. Takes no memory.
    pub fn len(&self) -> usize
        ensures { result ≡ length self.now }
    {
        self.count
    }

    /// The next cell, which is then no longer to come. Takes no memory.
    pub fn next(&mut self) -> Option<Filled>
        ensures some { IfSome result (λ f. self.old ≡ f ∷ self.new) }
        ensures none { IfNone result (self.old ≡ []) }
    {
        while self.page < self.pages.len() {
            if self.left > 0 {
                let offset = 8 - self.left;
                self.left -= 1;
                let entry = &self.pages[self.page];
                if let Some(filled) = filled_in(entry.0, entry.1, offset) {
                    self.count -= 1;
                    return Some(filled);
                }
            } else {
                self.page += 1;
                self.left = 8;
            }
        }
        None
    }
}

// Whether no cell was read or written: mostly the first page decides.
fn none_held(pages: &IndexMap<Page, Vec<Slot>, NearHasher>) -> bool
    ensures { IsTrue result ↔ All (λ e. HasNone e.1.items) pages.now.entries }
{
    pages.iter().all(|(_, slots)| has_none(slots))
}

// Whether no reply waits for a cell's value.
fn none_waits(pages: &IndexMap<Page, Vec<Slot>, NearHasher>) -> bool
    ensures { IsTrue result ↔ All (λ e. HasNoReaders e.1.items) pages.now.entries }
{
    pages.iter().all(|(_, slots)| has_no_readers(slots))
}

// The cells with what they hold, in their order.
fn in_order(
    alloc: Global,
    pages: &IndexMap<Page, Vec<Slot>, NearHasher>,
) -> Result<Vec<(Cell, &Slot)>, AllocError>
    ensures { IfOk result (λ es. map_list (λ e. (e.0, held_in e.1.now)) es.items ≡
        map.entries (map.from_entries {R = cell_cmp} (cells_in pages.now.entries))) }
{
    let order = ordered(alloc, pages)?;
    spread(alloc, &order)
}

// The pages with their slots, in the order of their cells.
fn ordered(
    alloc: Global,
    pages: &IndexMap<Page, Vec<Slot>, NearHasher>,
) -> Result<Vec<(Page, &Vec<Slot>)>, AllocError>
    ensures { IfOk result (λ es. cells_in (map_list (λ e. (e.0, e.1.now)) es.items) ≡
        map.entries (map.from_entries {R = cell_cmp} (cells_in pages.now.entries))) }
{
    let mut order = shown(alloc, pages)?;
    order.sort_by_key(|e| e.0.rank())?;
    Ok(order)
}

// The pages with their slots.
fn shown(
    alloc: Global,
    pages: &IndexMap<Page, Vec<Slot>, NearHasher>,
) -> Result<Vec<(Page, &Vec<Slot>)>, AllocError>
    ensures items { IfOk result (λ es. map_list (λ e. (e.0, e.1.now)) es.items ≡ pages.now.entries) }
    ensures unique { IsUnique same_page pages.now }
{
    pages
        .iter()
        .map(|(page, slots)| (*page, slots))
        .collect(alloc)
}

// How many cells of pages hold a value. More than a machine word counts, which no memory has, would be told as want of
// memory.
fn count_filled(pages: &[(Page, &Vec<Slot>)]) -> Result<usize, AllocError>
    ensures { IfOk result
        (λ n. n ≡ length (flat_map filled_at (flat_map (λ e. page_cells (e.0, e.1.now)) pages.now))) }
{
    let mut count = 0usize;
    for entry in pages {
        match count.checked_add(count_filled_in(entry.1)) {
            Some(sum) => count = sum,
            None => return Err(AllocError),
        }
    }
    Ok(count)
}

// The cells of pages.
fn spread<'a>(
    alloc: Global,
    pages: &[(Page, &'a Vec<Slot>)],
) -> Result<Vec<(Cell, &'a Slot)>, AllocError>
    ensures { IfOk result (λ es. map_list (λ e. (e.0, held_in e.1.now)) es.items ≡
        flat_map (λ e. page_cells (e.0, e.1.now)) pages.now) }
{
    let mut cells = Vec::new(alloc);
    for entry in pages {
        add_cells(&mut cells, entry.0, entry.1)?;
    }
    Ok(cells)
}

// Those of a page's cells that were read or written.
fn add_cells<'a>(
    cells: &mut Vec<(Cell, &'a Slot)>,
    page: Page,
    slots: &'a [Slot],
) -> Result<(), AllocError>
    ensures { OnOk result (map_list (λ e. (e.0, held_in e.1.now)) cells.new.items ≡
        map_list (λ e. (e.0, held_in e.1.now)) cells.old.items ++ cells_below 8 page slots.now) }
{
    for offset in 0..8 {
        add_cell(cells, page, slots, offset)?;
    }
    Ok(())
}

// The cell at a place of a page, if it was read or written.
#[inline(always)]
fn add_cell<'a>(
    cells: &mut Vec<(Cell, &'a Slot)>,
    page: Page,
    slots: &'a [Slot],
    offset: usize,
) -> Result<(), AllocError>
    requires { offset < 8 }
    ensures { OnOk result (map_list (λ e. (e.0, held_in e.1.now)) cells.new.items ≡
        map_list (λ e. (e.0, held_in e.1.now)) cells.old.items ++
        entry_at (cell_in page offset) (state_in slots.now offset)) }
{
    if offset < slots.len() && !slots[offset].is_absent() {
        cells.push((page.cell(offset), &slots[offset]))?;
    }
    Ok(())
}
