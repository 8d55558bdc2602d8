//! A gap buffer of parcels: those in front of the gap, and those behind it. Parcels leave at the gap, so where the
//! positions of those that leave rise, as they do while others are held back, each moves once, however many there are.

ghost use Rattle.std.specs.Prelude.{◌≡◌, ◌≤◌, ◌+◌, ◌++◌, length, OnOk};

use crate::parcel::Parcel;
use crate::row::Row;
use std::alloc::{AllocError, Global};
use std::marker::Model;

/// Parcels in order, with a gap.
#[derive(Drop)]
pub(crate) struct Buffer {
    before: Row,
    after: Row,
}

impl Model for Buffer {
    ghost use Rattle.std.specs.Prelude.{◌++◌};
    ghost use Rattle.id_flight.specs.Rows.{RowView};

    ghost Value = { RowView };

    ghost view = { λ b. record { items = b.before.items ++ b.after.items; room = b.after.room } };
}

impl Buffer {
    ghost use Rattle.std.specs.Prelude.{◌≡◌, ◌<◌, ◌≤◌, ◌+◌, ◌++◌, ◌∷◌};
    ghost use Rattle.std.specs.Prelude.{◌↔◌, [], drop, length, slice_get};
    ghost use Rattle.std.specs.Prelude.{option_to_list, IsTrue, IsSome, OnOk, Some};
    ghost use Rattle.std.specs.List.{remove};

    /// The empty buffer. Takes no memory.
    pub(crate) fn new(alloc: Global) -> Buffer
        ensures { result.items ≡ [] }
    {
        Buffer {
            before: Row::new(alloc),
            after: Row::new(alloc),
        }
    }

    /// How many parcels there are. Takes no memory.
    #[inline(always)]
    pub(crate) fn len(&self) -> usize
        ensures { result ≡ length self.now.items }
    {
        self.before.len() + self.after.len()
    }

    /// The parcel at a position, from 0. Takes no memory.
    #[inline(always)]
    pub(crate) fn at(&self, position: usize) -> &Parcel
        requires { position < length self.now.items }
        ensures { slice_get self.now.items position ≡ Some result.now }
    {
        let gap = self.before.len();
        if position < gap {
            self.before.at(position)
        } else {
            self.after.at(position - gap)
        }
    }

    /// For how many parcels more there is room at the end. Takes no memory.
    #[inline(always)]
    pub(crate) fn room(&self) -> usize
        ensures { result ≡ self.now.room }
    {
        self.after.room()
    }

    /// Makes room for so many parcels more at the end.
    #[inline(always)]
    pub(crate) fn reserve(&mut self, more: usize) -> Result<(), AllocError>
        ensures items { self.new.items ≡ self.old.items }
        ensures room { OnOk result (more ≤ self.new.room) }
    {
        self.after.reserve(more)
    }

    /// Adds a parcel at the end, for which there is room. Takes no memory.
    #[inline(always)]
    pub(crate) fn push_back_reserved(&mut self, parcel: Parcel)
        requires { 0 < self.old.room }
        ensures items { self.new.items ≡ self.old.items ++ parcel ∷ [] }
        ensures room { self.old.room ≡ self.new.room + 1 }
    {
        self.after.push_back_reserved(parcel);
    }

    /// Whether the gap is in front of the parcel at a position, or behind it. Takes no memory.
    #[inline(always)]
    pub(crate) fn is_open_at(&self, position: usize) -> bool {
        let gap = self.before.len();
        position == gap || position < gap && gap - position == 1
    }

    /// Moves the gap in front of the parcel at a position. Room may be lost.
    #[inline(never)]
    pub(crate) fn move_to(&mut self, position: usize) -> Result<(), AllocError>
        requires { position < length self.old.items }
        ensures { self.new.items ≡ self.old.items }
    {
        let gap = self.before.len();
        if position < gap {
            move_back(&mut self.before, &mut self.after, gap - position)?;
        } else {
            self.before.reserve(position - gap)?;
            move_on(&mut self.before, &mut self.after, position - gap);
        }
        Ok(())
    }

    /// Drops the parcel at a position: at once where the gap is beside it, and else those behind it on its side move
    /// up. It answers whether none is left, where the first of its side left. Takes no memory.
    #[inline(always)]
    pub(crate) fn remove(&mut self, position: usize) -> bool
        requires { position < length self.old.items }
        ensures items { self.new.items ≡ remove self.old.items position }
        ensures empty { IsTrue result → self.new.items ≡ [] }
        ensures room { self.old.room ≤ self.new.room }
    {
        let gap = self.before.len();
        let is_last = if position < gap {
            self.before.remove(position)
        } else {
            self.after.remove(position - gap)
        };
        is_last && self.len() == 0
    }

    /// Takes out the first parcel, if there is one. Takes no memory.
    pub(crate) fn pop_front(&mut self) -> Option<Parcel>
        ensures items { self.old.items ≡ option_to_list result ++ self.new.items }
        ensures room { self.old.room ≤ self.new.room }
        ensures some { IsSome result ↔ (0 < length self.old.items) }
    {
        if self.before.len() > 0 {
            self.before.pop_front()
        } else {
            self.after.pop_front()
        }
    }

    /// Takes out the last parcel, if there is one. Takes no memory.
    #[inline(always)]
    pub(crate) fn pop_back(&mut self) -> Option<Parcel>
        ensures items { self.old.items ≡ self.new.items ++ option_to_list result }
        ensures room { self.old.room ≤ self.new.room }
        ensures some { IsSome result ↔ (0 < length self.old.items) }
    {
        if self.after.len() > 0 {
            self.after.pop_back()
        } else {
            self.before.pop_back()
        }
    }
}

/// Moves so many parcels, one after another, from the front of the second row to the end of the first.
fn move_on(before: &mut Row, after: &mut Row, count: usize)
    requires there { count ≤ length after.old.items }
    requires room { count ≤ before.old.room }
    ensures { before.new.items ++ after.new.items ≡ before.old.items ++ after.old.items }
{
    for _ in 0..count {
        before.push_back_reserved(*after.at(0));
        after.drop_front();
    }
}

/// Moves so many parcels, one after another, from the end of the first row to the front of the second. Where memory is
/// wanting, some of them have moved.
fn move_back(before: &mut Row, after: &mut Row, count: usize) -> Result<(), AllocError>
    requires there { count ≤ length before.old.items }
    ensures { before.new.items ++ after.new.items ≡ before.old.items ++ after.old.items }
{
    for _ in 0..count {
        let last = *before.at(before.len() - 1);
        after.push_front(last)?;
        before.pop_back();
    }
    Ok(())
}
