//! The list of what events tell, most of which takes 20 bytes.

ghost use Rattle.std.specs.Prelude.{◌≡◌, ◌<◌, ◌≤◌, ◌+◌, List, length, slice_index_or, vec_capacity, vec_len};
ghost use Rattle.std.specs.Prelude.{IfSome};
ghost use Rattle.id_record.specs.Shorts.{IsWithin, context_by, place_by, telling_of, untold};
ghost use Rattle.id_record.specs.declared.telling.Telling.{Telling};
ghost use Rattle.id_record.specs.declared.telling.Told.TheVariants.{Entered};

use crate::room::widen;
use crate::telling::{Telling, Told};
use id_tag::{Context, Tag, small, tiny};
use std::alloc::{AllocError, Global};
use std::marker::Model;

/// What events tell, in order: that a context was entered in 20 bytes where its numbers are small, and all else whole,
/// in a list aside.
#[derive(Drop)]
pub struct Tellings {
    shorts: Vec<ShortTelling>,
    asides: Vec<Telling>,
}

/// What is told once.
#[derive(Clone, Copy)]
enum ShortTelling {
    /// A context was entered.
    Entered {
        /// The element of the tag's context, and that of the context.
        element: u8,
        maker: u8,
        /// The serial number of the tag's context, the iteration and the instruction.
        serial: u32,
        iteration: u32,
        instr: u32,
        /// The serial number of the context.
        entered: u32,
    },
    /// It stands aside, at the place of these two halves.
    Aside(u32, u32),
}

impl Model for Tellings {
    ghost use Rattle.std.specs.Prelude.{◌-◌, All, map, vec_capacity, vec_len};
    ghost use Rattle.id_record.specs.Shorts.{IsWithin, TellingsView, telling_of};

    ghost Value = { TellingsView };

    ghost view = { λ t. record {
      items = map (telling_of t.asides.items) t.shorts.items;
      room = vec_capacity t.shorts - vec_len t.shorts;
      room_aside = vec_capacity t.asides - vec_len t.asides;
    } };

    ghost invariant = { λ t. All (IsWithin t.asides.items) t.shorts.items };
}

impl Tellings {
    ghost use Rattle.std.specs.Prelude.{◌≡◌, ◌<◌, ◌≤◌, ◌+◌, ◌++◌, ◌∷◌, [], length, slice_get};
    ghost use Rattle.std.specs.Prelude.{OnOk, Some};

    /// Nothing is told. Takes no memory.
    pub(crate) fn new(alloc: Global) -> Tellings
        ensures { result ≡ record { items = []; room = 0; room_aside = 0 } }
    {
        Tellings {
            shorts: Vec::new(alloc),
            asides: Vec::new(alloc),
        }
    }

    /// How much is told. Takes no memory.
    pub fn len(&self) -> usize
        ensures { result ≡ length self.now.items }
    {
        self.shorts.len()
    }

    /// What is told at a position, from 0. Takes no memory.
    pub fn telling(&self, position: usize) -> Telling
        requires { position < length self.now.items }
        ensures { slice_get self.now.items position ≡ Some result }
    {
        let short = self.shorts[position];
        telling_of(self.asides.as_slice(), short)
    }

    /// Makes room for so many more.
    pub(crate) fn reserve(&mut self, count: usize) -> Result<(), AllocError>
        ensures items { self.new.items ≡ self.old.items }
        ensures room { OnOk result (count ≤ self.new.room) }
        ensures room_aside { OnOk result (count ≤ self.new.room_aside) }
    {
        widen(&mut self.shorts, count)?;
        widen(&mut self.asides, count)
    }

    /// Adds what is told. Takes no memory.
    #[inline(always)]
    pub(crate) fn push_reserved(&mut self, telling: Telling)
        requires room { 0 < self.old.room }
        requires room_aside { 0 < self.old.room_aside }
        ensures items { self.new.items ≡ self.old.items ++ telling ∷ [] }
        ensures room { self.old.room ≤ self.new.room + 1 }
        ensures room_aside { self.old.room_aside ≤ self.new.room_aside + 1 }
    {
        let short = short_for(&mut self.asides, &telling);
        self.shorts.push_reserved(short);
    }
}

/// What is told once, in short: where its numbers are not small, it goes aside.
#[inline(always)]
fn short_for(asides: &mut Vec<Telling>, telling: &Telling) -> ShortTelling
    requires { vec_len asides.old < vec_capacity asides.old }
    ensures is { telling_of asides.new.items result ≡ telling.now }
    ensures within { IsWithin asides.new.items result }
    ensures others { (s : ShortTelling) → IsWithin asides.old.items s →
        IsWithin asides.new.items s × (telling_of asides.new.items s ≡ telling_of asides.old.items s) }
    ensures room { vec_len asides.new ≤ vec_len asides.old + 1 }
    ensures capacity { vec_capacity asides.new ≡ vec_capacity asides.old }
{
    match shortened(telling) {
        Some(short) => short,
        None => {
            let place = asides.len();
            asides.push_reserved(*telling);
            short_aside(place)
        }
    }
}

/// What is told in short, where it is a context and the numbers are small.
#[inline(always)]
fn shortened(telling: &Telling) -> Option<ShortTelling>
    ensures is { IfSome result (λ s. (asides : List Telling) → telling_of asides s ≡ telling.now) }
    ensures within { IfSome result (λ s. (asides : List Telling) → IsWithin asides s) }
{
    match telling.told {
        Told::Entered(context) => entered(telling.tag, context),
        Told::Made(_) | Told::Came(_) => None,
    }
}

/// The same where this context was entered.
#[inline(always)]
fn entered(tag: Tag, context: Context) -> Option<ShortTelling>
    ensures is { IfSome result (λ s. (asides : List Telling) →
        telling_of asides s ≡ record { tag = tag; told = Entered context }) }
    ensures within { IfSome result (λ s. (asides : List Telling) → IsWithin asides s) }
{
    Some(ShortTelling::Entered {
        element: tiny(tag.context.element)?,
        maker: tiny(context.element)?,
        serial: small(tag.context.serial)?,
        iteration: small(tag.iteration)?,
        instr: tag.instr,
        entered: small(context.serial)?,
    })
}

/// What stands aside at this place.
fn short_aside(place: usize) -> ShortTelling
    ensures is { (asides : List Telling) → telling_of asides result ≡ slice_index_or asides place untold }
    ensures within { (asides : List Telling) → place < length asides → IsWithin asides result }
{
    ShortTelling::Aside(
        (place / 0x1_0000_0000) as u32,
        (place % 0x1_0000_0000) as u32,
    )
}

/// What is told in short, with these that stand aside.
fn telling_of(asides: &[Telling], short: ShortTelling) -> Telling
    requires { IsWithin asides.now short }
    ensures { result ≡ telling_of asides.now short }
{
    match short {
        ShortTelling::Entered {
            element,
            maker,
            serial,
            iteration,
            instr,
            entered,
        } => Telling {
            tag: Tag {
                context: context_by(element, serial),
                iteration: u64::from(iteration),
                instr,
            },
            told: Told::Entered(context_by(maker, entered)),
        },
        ShortTelling::Aside(high, low) => asides[place_by(high, low)],
    }
}

/// The context of these numbers.
#[inline(always)]
pub(crate) fn context_by(element: u8, serial: u32) -> Context
    ensures { result ≡ context_by element serial }
{
    Context {
        element: u32::from(element),
        serial: u64::from(serial),
    }
}

/// The place of these two halves.
fn place_by(high: u32, low: u32) -> usize
    ensures { result ≡ place_by high low }
{
    high as usize * 0x1_0000_0000 + low as usize
}

const _: () = prove!(size_of::<ShortTelling>() == 20);
