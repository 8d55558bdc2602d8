//! Parcels in a row, in one list: those that have left stay in it until there is no room behind the others, and as many
//! of them as of the others. So each parcel is moved once for each that has left, on an average, where the list is made
//! shorter.

ghost use Rattle.std.specs.Prelude.{◌≡◌, ◌≤◌, ◌<◌, ◌+◌, ◌-◌, ◌^◌, [], drop, length};
ghost use Rattle.std.specs.Prelude.{vec_capacity, IfOk};

use crate::parcel::Parcel;
use std::alloc::{AllocError, Global};
use std::marker::Model;

/// So many parcels that have left are not worth a move of the others.
const FEW: usize = 64;

/// Parcels in a row.
#[derive(Drop)]
pub(crate) struct Row {
    // For a wider list.
    alloc: Global,
    parcels: Vec<Parcel>,
    // How many of the list have left.
    left: usize,
}

impl Model for Row {
    ghost use Rattle.std.specs.Prelude.{◌-◌, ◌≤◌, drop, vec_capacity, vec_len};
    ghost use Rattle.id_flight.specs.Rows.{RowView};

    ghost Value = { RowView };

    ghost view = { λ r. record {
      items = drop r.left r.parcels.items;
      room = vec_capacity r.parcels - vec_len r.parcels;
    } };

    ghost invariant = { λ r. r.left ≤ vec_len r.parcels };
}

impl Row {
    ghost use Rattle.std.specs.Prelude.{◌≡◌, ◌<◌, ◌≤◌, ◌+◌, ◌^◌, ◌++◌, ◌∷◌, ◌==◌};
    ghost use Rattle.std.specs.Prelude.{◌↔◌, [], drop, length, slice_get};
    ghost use Rattle.std.specs.Prelude.{option_to_list, IsTrue, IsSome, OnErr, OnOk, Some};
    ghost use Rattle.std.specs.List.{remove};

    /// The empty row. Takes no memory.
    pub(crate) fn new(alloc: Global) -> Row
        ensures { result.items ≡ [] }
    {
        Row {
            alloc,
            parcels: Vec::new(alloc),
            left: 0,
        }
    }

    /// How many parcels there are. Takes no memory.
    #[inline(always)]
    pub(crate) fn len(&self) -> usize
        ensures len { result ≡ length self.now.items }
        ensures bound { result < 2 ^ 63 }
    {
        self.parcels.len() - self.left
    }

    /// The parcel at a position, from 0. Takes no memory.
    #[inline(always)]
    pub(crate) fn at(&self, position: usize) -> &Parcel
        requires { position < length self.now.items }
        ensures { slice_get self.now.items position ≡ Some result.now }
    {
        &self.parcels[self.left + position]
    }

    /// For how many parcels more there is room at the end. Takes no memory.
    #[inline(always)]
    pub(crate) fn room(&self) -> usize
        ensures { result ≡ self.now.room }
    {
        self.parcels.capacity() - self.parcels.len()
    }

    /// Makes room for so many parcels more at the end.
    #[inline(always)]
    pub(crate) fn reserve(&mut self, more: usize) -> Result<(), AllocError>
        ensures items { self.new.items ≡ self.old.items }
        ensures room { OnOk result (more ≤ self.new.room) }
    {
        // Asked here first, so that the list's growth is not inlined.
        if self.room() < more {
            self.grow(more)?;
        }
        Ok(())
    }

    /// The same where it is missing.
    #[inline(never)]
    fn grow(&mut self, more: usize) -> Result<(), AllocError>
        ensures items { self.new.items ≡ self.old.items }
        ensures room { OnOk result (more ≤ self.new.room) }
    {
        if self.left >= FEW && self.left >= self.len() {
            shorten(&mut self.parcels, self.left);
            self.left = 0;
        }
        self.parcels.reserve(more)?;
        Ok(())
    }

    /// Adds a parcel at the end, for which there is room. Takes no memory.
    #[inline(always)]
    pub(crate) fn push_back_reserved(&mut self, parcel: Parcel)
        requires { 0 < self.old.room }
        ensures items { self.new.items ≡ self.old.items ++ parcel ∷ [] }
        ensures room { self.old.room ≡ self.new.room + 1 }
    {
        self.parcels.push_reserved(parcel);
    }

    /// Adds a parcel at the front. After an error nothing has changed.
    pub(crate) fn push_front(&mut self, parcel: Parcel) -> Result<(), AllocError>
        ensures items { OnOk result (self.new.items ≡ parcel ∷ self.old.items) }
        ensures err { OnErr result (self.new.items ≡ self.old.items) }
    {
        if self.left == 0 {
            let more = self.parcels.len() + 4;
            self.parcels = widened(self.alloc, self.parcels.as_slice(), more, parcel)?;
            self.left = more;
        }
        self.left -= 1;
        self.parcels[self.left] = parcel;
        Ok(())
    }

    /// Drops the first parcel, if there is one, and answers whether none is left. Takes no memory.
    #[inline(always)]
    pub(crate) fn drop_front(&mut self) -> bool
        ensures items { self.new.items ≡ drop 1 self.old.items }
        ensures empty { IsTrue result → self.new.items ≡ [] }
        ensures room { self.old.room ≤ self.new.room }
    {
        let next = self.left + 1;
        if next < self.parcels.len() {
            self.left = next;
            return false;
        }
        self.empty();
        true
    }

    /// Drops all parcels. Takes no memory.
    #[inline(never)]
    fn empty(&mut self)
        ensures items { self.new.items ≡ [] }
        ensures room { self.old.room ≤ self.new.room }
    {
        self.parcels.clear();
        self.left = 0;
    }

    /// Takes out the first parcel, if there is one. Takes no memory.
    pub(crate) fn pop_front(&mut self) -> Option<Parcel>
        ensures items { self.old.items ≡ option_to_list result ++ self.new.items }
        ensures room { self.old.room ≤ self.new.room }
        ensures some { IsSome result ↔ (0 < length self.old.items) }
    {
        if self.len() == 0 {
            return None;
        }
        let first = *self.at(0);
        self.drop_front();
        Some(first)
    }

    /// Takes out the last parcel, if there is one. Takes no memory.
    pub(crate) fn pop_back(&mut self) -> Option<Parcel>
        ensures items { self.old.items ≡ self.new.items ++ option_to_list result }
        ensures room { self.old.room ≤ self.new.room }
        ensures some { IsSome result ↔ (0 < length self.old.items) }
    {
        if self.left == self.parcels.len() {
            return None;
        }
        self.parcels.pop()
    }

    /// Drops the parcel at a position, from 0: those behind it move up, unless it is the first, and then it answers
    /// whether none is left. Takes no memory.
    #[inline(always)]
    pub(crate) fn remove(&mut self, position: usize) -> bool
        requires { position < length self.old.items }
        ensures items { self.new.items ≡ remove self.old.items position }
        ensures empty { IsTrue result → self.new.items ≡ [] }
        ensures room { self.old.room ≤ self.new.room }
    {
        if position == 0 {
            return self.drop_front();
        }
        self.parcels.remove(self.left + position);
        false
    }
}

/// Takes so many parcels away in front of the others.
fn shorten(parcels: &mut Vec<Parcel>, left: usize)
    requires { left ≤ length parcels.old.items }
    ensures { parcels.new.items ≡ drop left parcels.old.items }
{
    let len = parcels.len();
    parcels.copy_within(left..len, 0);
    parcels.truncate(len - left);
}

/// These parcels, behind so many more, for which the filler stands.
fn widened(
    alloc: Global,
    parcels: &[Parcel],
    more: usize,
    filler: Parcel,
) -> Result<Vec<Parcel>, AllocError>
    requires { length parcels.now + 4 ≡ more }
    ensures behind { IfOk result (λ w. drop more w.items ≡ parcels.now) }
    ensures len { IfOk result (λ w. length w.items ≡ more + length parcels.now) }
{
    let mut wider = Vec::new(alloc);
    wider.resize(more, filler)?;
    wider.extend_from_slice(parcels)?;
    Ok(wider)
}
