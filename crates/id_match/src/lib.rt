//! The waiting-matching store: values that wait for their partner.
//!
//! Keeps: at most one value for each tag, with its port. Clauses see a finite map. A value stands in one of the two
//! slots of the front that its tag's numbers tell, where it fits and one is free, and else in the rear: in the frame of
//! its context and iteration, one of those in a slab.
//! Errors: want of memory alone, and then nothing has changed.
//! Read first: `specs/Waiting.antt`, `specs/Front.antt`, then `offer`.
//! Not here: which operators have two ports (`id_graph`), firing (`id_ops`).
#![tactic(auto)]

ghost use Rattle.std.specs.Prelude.{◌≡◌, ◌<◌, ◌+◌, ◌-◌, ◌^◌, false, None, Some, IsTrue};
ghost use Rattle.std.specs.Prelude.{IfOk, IfSome, OnOk, OnErr};
ghost use Rattle.std.specs.FinMap as map;
ghost use Rattle.id_tag.specs.Tags.{same_tag};
ghost use Rattle.id_tag.specs.declared.Tag.{Tag};
ghost use Rattle.id_tag.specs.declared.Value.{Value};
ghost use Rattle.id_instr.specs.declared.dests.Port.{Port};
ghost use Rattle.id_tag.specs.declared.plain.Plain.{Plain};
ghost use Rattle.id_match.specs.declared.meeting.Met.TheVariants as meeting;
ghost use Rattle.id_match.specs.declared.meeting.Offered.TheVariants.{Kept, Taken, Pair as Both};
ghost use Rattle.id_match.specs.Halves.{answer_at, half_after};
ghost use Rattle.id_match.specs.Meetings.{told};
ghost use Rattle.id_tag.specs.Plains.{tag_in, whole};
ghost use Rattle.std.specs.Map.{lookup};
ghost use Rattle.id_match.specs.Front.{HoldsSame, IsMarked, IsPlaced, MarksSame, OthersSame, Puts};
ghost use Rattle.id_match.specs.Front.{front_entries, front_half, slot_half, slot_tag};

mod frames;
mod front;
mod meeting;
mod rear;

use crate::front::{
    Behind, Pair, Slot, count, has, has_room, in_front, larger, leave_behind, mark, meet, put,
    slot_for, slot_in, stands_behind, step_behind, take,
};
use crate::meeting::pair;
use id_instr::Port;
use id_tag::{Plain, PlainToken, Tag, Value};
pub use meeting::{Entry, Half, Met, Offered};
use rear::{Rear, sort_by_tag};
use std::alloc::{AllocError, Global};
use std::marker::Model;

/// Below so many pairs a front is small: one of two mebibytes is not.
const SMALL: usize = 0x8000;

/// The values that wait for their partner, by tag and port.
#[derive(Drop)]
pub struct Waiting {
    // For a larger front.
    alloc: Global,
    front: Vec<Pair>,
    // Since the front grew: sixteen for each value that came to stand behind it, less fifteen for each that met what
    // stands there. So both what stands there and what comes and goes tell that it is too small. What fits in no slot
    // doesn't count.
    crowded: usize,
    // What waits in no slot of the front.
    rear: Rear,
}

impl Model for Waiting {
    ghost use Rattle.std.specs.FinMap as map;
    ghost use Rattle.id_tag.specs.Tags.{tag_cmp};
    ghost use Rattle.id_match.specs.declared.meeting.Half.{Half};
    ghost use Rattle.id_match.specs.Codes.{coded_store};
    ghost use Rattle.id_match.specs.Front.{IsKept, all_entries};

    ghost Value = { map.FinMap tag_cmp Half };

    ghost coded = { coded_store };

    ghost view = { λ s. map.from_entries (all_entries s.front.items (map.entries s.rear)) };

    ghost invariant = { λ s. IsKept s.front.items (map.entries s.rear) };
}

impl Waiting {
    ghost use Rattle.std.specs.Prelude.{◌↔◌, length};
    ghost use Rattle.std.specs.List.{Contains};
    ghost use Rattle.id_match.specs.declared.meeting.Entry.{Entry};
    ghost use Rattle.id_match.specs.Waiting.{waits, offer_answer, offer_after, entries_of};
    ghost use Rattle.id_match.specs.Keyed.{keyed_after};

    /// The store in which nothing waits. Takes no memory.
    pub fn new(alloc: Global) -> Waiting
        ensures empty { result ≡ map.empty }
        ensures keyed { (t : Tag) (p : Port) → waits result t p ≡ None }
    {
        Waiting {
            alloc,
            front: Vec::new(alloc),
            crowded: 0,
            rear: Rear::new(alloc),
        }
    }

    /// Offers a value to a port of a tag: it is kept until the value of the other port comes, and then
    /// both leave. Memory is wanted only where the value is kept; after an error nothing has changed.
    pub fn offer(&mut self, tag: Tag, port: Port, value: Value) -> Result<Offered, AllocError>
        ensures answer { IfOk result (λ answer. answer ≡ offer_answer self.old tag port value) }
        ensures after { OnOk result (self.new ≡ offer_after self.old tag port value) }
        // The store is a map keyed by tag and port.
        ensures keyed { OnOk result ((t : Tag) (p : Port) →
            waits self.new t p ≡ keyed_after (waits self.old) tag port value t p) }

        ensures grows { OnErr result (offer_answer self.old tag port value ≡ Kept) }
        ensures err { OnErr result (self.new ≡ self.old) }
    {
        self.make_room();
        if let Some(answer) = take(&mut self.front, tag, port, value) {
            Ok(answer)
        } else if put_value_before(&mut self.front, &self.rear, tag, port, value) {
            Ok(Offered::Kept)
        } else {
            offer_to(
                &mut self.front,
                &mut self.rear,
                &mut self.crowded,
                tag,
                port,
                value,
            )
        }
    }

    /// Offers a plain token to its port of its tag, where that is short. Memory is wanted only where the value is kept;
    /// after an error, and where it was not offered, nothing has changed.
    #[inline(always)]
    pub fn offer_plain(&mut self, token: &PlainToken) -> Result<Met, AllocError>
        ensures answer { IfOk result (λ met. IfSome (told met token.now)
            (λ answer. answer ≡ offer_answer self.old (tag_in token.now) token.now.port (whole token.now.value))) }
        ensures after { IfOk result (λ met. IfSome (told met token.now)
            (λ answer. self.new ≡ offer_after self.old (tag_in token.now) token.now.port (whole token.now.value))) }
        ensures apart { IfOk result (λ met. told met token.now ≡ None → self.new ≡ self.old) }
        ensures err { OnErr result (self.new ≡ self.old) }
    {
        if let Some(met) = meet(&mut self.front, token) {
            Ok(met)
        } else {
            self.offer_apart(token)
        }
    }

    // The same where it is long: where both slots are taken, or something stands behind them. The copy stands in the
    // place of the caller's token, which can stand in registers so.
    #[inline(always)]
    fn offer_apart(&mut self, token: &PlainToken) -> Result<Met, AllocError>
        ensures answer { IfOk result (λ met. IfSome (told met token.now)
            (λ answer. answer ≡ offer_answer self.old (tag_in token.now) token.now.port (whole token.now.value))) }
        ensures after { IfOk result (λ met. IfSome (told met token.now)
            (λ answer. self.new ≡ offer_after self.old (tag_in token.now) token.now.port (whole token.now.value))) }
        ensures apart { IfOk result (λ met. told met token.now ≡ None → self.new ≡ self.old) }
        ensures err { OnErr result (self.new ≡ self.old) }
    {
        let copy = *token;
        self.offer_behind(&copy)
    }

    // The same out of line.
    #[inline(never)]
    fn offer_behind(&mut self, token: &PlainToken) -> Result<Met, AllocError>
        ensures answer { IfOk result (λ met. IfSome (told met token.now)
            (λ answer. answer ≡ offer_answer self.old (tag_in token.now) token.now.port (whole token.now.value))) }
        ensures after { IfOk result (λ met. IfSome (told met token.now)
            (λ answer. self.new ≡ offer_after self.old (tag_in token.now) token.now.port (whole token.now.value))) }
        ensures apart { IfOk result (λ met. told met token.now ≡ None → self.new ≡ self.old) }
        ensures err { OnErr result (self.new ≡ self.old) }
    {
        self.make_room();
        if has(&self.front, token.tag()) {
            Ok(Met::Apart)
        } else if put_token_before(&mut self.front, &self.rear, token) {
            Ok(Met::Kept)
        } else {
            let met = offer_plain_to(&mut self.front, &mut self.rear, token)?;
            self.crowded = crowded_after(self.crowded, met);
            Ok(met)
        }
    }

    // Makes the front larger where many values stand behind it since their slots are taken, or came and went, or there
    // is none. A small one is made larger early, since that takes little memory.
    #[inline(always)]
    fn make_room(&mut self)
        ensures { self.new ≡ self.old }
    {
        let len = self.front.len();
        let most = if len < SMALL { len / 8 } else { len };
        if self.crowded > most || self.front.is_empty() {
            self.grow();
        }
    }

    // Makes the front larger, but where few values wait for so many pairs: a larger front would be as crowded. Where
    // memory is wanting, all stays as it is, so this never makes an error.
    #[inline(never)]
    fn grow(&mut self)
        ensures { self.new ≡ self.old }
    {
        self.crowded = 0;
        let len = self.front.len();
        let least = if len < SMALL { len / 2 } else { len };
        if count(&self.front) + self.rear.len() >= least {
            if let Some(front) = larger_front(self.alloc, &self.front, &self.rear) {
                self.front = front;
            }
        }
    }

    /// How many values wait. Takes no memory.
    pub fn len(&self) -> usize
        ensures len { result ≡ map.len self.now }
        ensures listed { result ≡ length (entries_of self.now) }
    {
        count(&self.front) + self.rear.len()
    }

    /// The values that wait, in the order of their tags.
    pub fn entries(&self, alloc: Global) -> Result<Vec<Entry>, AllocError>
        ensures items { IfOk result (λ es. es.items ≡ entries_of self.now) }
        ensures keyed { IfOk result (λ es. (e : Entry) →
            Contains es.items e ↔ (waits self.now e.tag e.port ≡ Some e.value)) }
    {
        let mut entries = in_front(alloc, &self.front)?;
        entries.append(&mut self.rear.entries(alloc)?)?;
        sort_by_tag(&mut entries);
        Ok(entries)
    }
}

// A larger front for the same values, if there is memory for it.
fn larger_front(alloc: Global, front: &[Pair], rear: &Rear) -> Option<Vec<Pair>>
    ensures placed { IfSome result (λ m. IsPlaced m.items) }
    ensures same { IfSome result (λ m. (t : Tag) →
        front_half m.items t ≡ lookup (same_tag t) (front_entries front.now)) }
    ensures marked { IfSome result (λ m. IsMarked m.items (map.entries rear.now)) }
{
    let mut more = larger(alloc, front)?;
    match rear.unordered(alloc) {
        Ok(entries) => {
            mark(&mut more, &entries);
            Some(more)
        }
        Err(_) => None,
    }
}

// Puts the slot into its pair, if there is room, and nothing waits under its tag in the front or the rear.
fn put_before(front: &mut Vec<Pair>, rear: &Rear, slot: Slot) -> bool
    ensures apart { IsMarked front.old.items (map.entries rear.now) → IsTrue result
        → lookup (same_tag (slot_tag slot)) (map.entries rear.now) ≡ None }
    ensures free { IsTrue result → front_half front.old.items (slot_tag slot) ≡ None }
    ensures put { IsTrue result → Puts front.old.items front.new.items (slot_tag slot) (slot_half slot) }
    ensures full { result ≡ false → front.new.items ≡ front.old.items }
    ensures marks { MarksSame front.old.items front.new.items }
{
    let tag = slot.tag();
    // Without room nothing is looked up behind.
    if !has_room(front, tag) || (stands_behind(front, tag) != Behind::Nothing && rear.has(tag)) {
        return false;
    }
    put(front, slot)
}

// The same for a plain token. Without room no slot is made.
#[inline(always)]
fn put_token_before(front: &mut Vec<Pair>, rear: &Rear, token: &PlainToken) -> bool
    ensures apart { IsMarked front.old.items (map.entries rear.now) → IsTrue result
        → lookup (same_tag (tag_in token.now)) (map.entries rear.now) ≡ None }
    ensures free { IsTrue result → front_half front.old.items (tag_in token.now) ≡ None }
    ensures put { IsTrue result → Puts front.old.items front.new.items (tag_in token.now)
        (Some (record { port = token.now.port; value = whole token.now.value })) }
    ensures full { result ≡ false → front.new.items ≡ front.old.items }
    ensures marks { MarksSame front.old.items front.new.items }
{
    has_room(front, token.tag()) && put_before(front, rear, slot_in(token))
}

// The same for a value, if it fits a slot.
fn put_value_before(front: &mut Vec<Pair>, rear: &Rear, tag: Tag, port: Port, value: Value) -> bool
    ensures apart { IsMarked front.old.items (map.entries rear.now) → IsTrue result
        → lookup (same_tag tag) (map.entries rear.now) ≡ None }
    ensures free { IsTrue result → front_half front.old.items tag ≡ None }
    ensures put { IsTrue result →
        Puts front.old.items front.new.items tag (Some (record { port = port; value = value })) }
    ensures full { result ≡ false → front.new.items ≡ front.old.items }
    ensures marks { MarksSame front.old.items front.new.items }
{
    match slot_for(tag, port, value) {
        Some(slot) => put_before(front, rear, slot),
        None => false,
    }
}

// An offer to the rear. The front is told of it, and it counts where the value would fit a slot.
fn offer_to(
    front: &mut Vec<Pair>,
    rear: &mut Rear,
    crowded: &mut usize,
    tag: Tag,
    port: Port,
    value: Value,
) -> Result<Offered, AllocError>
    ensures answer { IfOk result (λ answer.
        answer ≡ answer_at (lookup (same_tag tag) (map.entries rear.old)) port value) }
    ensures at { OnOk result (lookup (same_tag tag) (map.entries rear.new) ≡
        half_after (lookup (same_tag tag) (map.entries rear.old)) port value) }
    ensures others { OnOk result (OthersSame tag (map.entries rear.old) (map.entries rear.new)) }
    ensures holds { HoldsSame front.old.items front.new.items }
    ensures marked { IsMarked front.old.items (map.entries rear.old)
        → IsMarked front.new.items (map.entries rear.new) }

    ensures grows { OnErr result (answer_at (lookup (same_tag tag) (map.entries rear.old)) port value ≡ Kept) }
    ensures err { OnErr result (rear.new ≡ rear.old) }
    ensures err_front { OnErr result (front.new.items ≡ front.old.items) }
{
    let answer = rear.offer(tag, port, value)?;
    *crowded = crowded_by(*crowded, slot_for(tag, port, value).is_some(), answer);
    match answer {
        Offered::Kept => step_behind(front, tag),
        Offered::Pair(_, _) => leave_behind(front, tag),
        Offered::Taken => (),
    }
    Ok(answer)
}

// An offer of a plain token to the rear. The front is told of it.
#[inline(always)]
fn offer_plain_to(
    front: &mut Vec<Pair>,
    rear: &mut Rear,
    token: &PlainToken,
) -> Result<Met, AllocError>
    ensures answer { IfOk result (λ met. IfSome (told met token.now) (λ answer. answer ≡ answer_at
        (lookup (same_tag (tag_in token.now)) (map.entries rear.old)) token.now.port (whole token.now.value))) }
    ensures at { IfOk result (λ met. IfSome (told met token.now) (λ _.
        lookup (same_tag (tag_in token.now)) (map.entries rear.new) ≡ half_after
        (lookup (same_tag (tag_in token.now)) (map.entries rear.old)) token.now.port (whole token.now.value))) }
    ensures others { OnOk result (OthersSame (tag_in token.now) (map.entries rear.old) (map.entries rear.new)) }
    ensures holds { HoldsSame front.old.items front.new.items }
    ensures marked { IsMarked front.old.items (map.entries rear.old)
        → IsMarked front.new.items (map.entries rear.new) }
    ensures apart { IfOk result (λ met. told met token.now ≡ None → rear.new ≡ rear.old) }
    ensures apart_front { IfOk result (λ met. told met token.now ≡ None → front.new.items ≡ front.old.items) }

    ensures err { OnErr result (rear.new ≡ rear.old) }
    ensures err_front { OnErr result (front.new.items ≡ front.old.items) }
{
    let met = rear.offer_plain(token)?;
    match met {
        Met::Kept => step_behind(front, token.tag()),
        Met::Partner(_) => leave_behind(front, token.tag()),
        Met::Apart => (),
    }
    Ok(met)
}

// How crowded a front is after an offer behind it.
fn crowded_after(crowded: usize, met: Met) -> usize
    ensures kept { met ≡ meeting.Kept → crowded < 2 ^ 64 - 16 → result ≡ crowded + 16 }
    ensures apart { met ≡ meeting.Apart → result ≡ crowded }
    ensures partner { (v : Plain) → met ≡ meeting.Partner v → result ≡ crowded - 15 }
{
    match met {
        Met::Kept => crowded.saturating_add(16),
        Met::Partner(_) => crowded.saturating_sub(15),
        Met::Apart => crowded,
    }
}

// The same after an offer in full, which counts where the value fits a slot.
fn crowded_by(crowded: usize, fits: bool, answer: Offered) -> usize
    ensures kept { IsTrue fits → answer ≡ Kept → crowded < 2 ^ 64 - 16 → result ≡ crowded + 16 }
    ensures pair { (v w : Value) → IsTrue fits → answer ≡ Both v w → result ≡ crowded - 15 }
    ensures taken { answer ≡ Taken → result ≡ crowded }
    ensures wide { fits ≡ false → result ≡ crowded }
{
    match answer {
        Offered::Kept if fits => crowded.saturating_add(16),
        Offered::Pair(_, _) if fits => crowded.saturating_sub(15),
        _ => crowded,
    }
}
