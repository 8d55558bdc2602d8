//! The front of the store: slots of 32 bytes, each for one value that waits under a tag with small numbers.
//!
//! A tag's value stands in one of two slots alone, the pair at the place that the tag's numbers tell, so a look-up
//! looks at one pair. A pair also tells whether anything stands behind it, in the rear under tags with its place.

ghost use Rattle.std.specs.Prelude.{◌≡◌, ◌≢◌, ◌<◌, ◌↔◌, ◌≤◌, ◌*◌, IsTrue, false, Some};
ghost use Rattle.std.specs.Prelude.{None, IfSome, is_some};
ghost use Rattle.std.specs.Prelude.{IsSome, IfOk, OnOk, List, [], ◌∷◌, ◌++◌, length, replicate};
ghost use Rattle.std.specs.Prelude.{map as map_list};
ghost use Rattle.std.specs.Prelude.{slice_index_or, ◌%◌, ◌/◌, ◌^◌};
ghost use Rattle.std.specs.List.{filter_map};
ghost use Rattle.std.specs.Option.{option_map, option_or};
ghost use Rattle.std.specs.Map.{lookup};
ghost use Rattle.id_tag.specs.Plains.{tag_in, whole};
ghost use Rattle.id_tag.specs.Tags.{same_tag};
ghost use Rattle.id_match.specs.declared.meeting.Half.{Half};
ghost use Rattle.id_match.specs.Meetings.{told};
ghost use Rattle.id_match.specs.Waiting.{entry_at};
ghost use Rattle.id_match.specs.Front.{IsPlaced, Meets, Puts, empty_pair, front_entries, front_half, held};
ghost use Rattle.id_match.specs.Front.{key_of, place, place_in, slot_entry, slot_half, slot_port, slot_tag, state_of};
ghost use Rattle.id_match.specs.Ports.{other_port};
ghost use Rattle.id_match.specs.Front.{IsSingle, MeetsIn, PutsIn, pair_entries, pair_half};
ghost use Rattle.id_match.specs.Front.{HoldsSame, IsKept, IsMarked, MarksSame, OthersSame, half_entry, mark_at};
ghost use Rattle.id_match.specs.Front.{one_less, one_more};
ghost use Rattle.id_match.specs.declared.front.Behind.TheVariants.{Nothing};

use crate::meeting::{Entry, Half, Met, Offered, pair};
use id_instr::Port;
use id_tag::{Context, Plain, PlainToken, Tag, Value, plain_of, small, tiny};
use std::alloc::{AllocError, Global};

/// How many values stand behind a pair, under tags with the pair's place.
#[derive(Clone, Copy, PartialEq, Eq)]
pub enum Behind {
    Nothing,
    /// One at the most.
    One,
    /// Any number.
    Many,
}

impl Behind {
    /// Where one more comes to stand there.
    fn more(self) -> Behind
        ensures { result ≡ one_more self }
    {
        match self {
            Behind::Nothing => Behind::One,
            Behind::One | Behind::Many => Behind::Many,
        }
    }

    /// Where one of them leaves.
    fn less(self) -> Behind
        ensures { result ≡ one_less self }
    {
        match self {
            Behind::Nothing | Behind::One => Behind::Nothing,
            Behind::Many => Behind::Many,
        }
    }
}

/// A value that waits, with its tag and port, or none, and in the first slot of a pair what stands behind the pair.
#[derive(Clone, Copy)]
pub struct Slot {
    value: Plain,
    // The iteration and the serial number of the tag's context, which are compared at once.
    key: u64,
    instr: u32,
    // The element of the tag's context and the port, which are compared at once, or 0 where it keeps nothing.
    state: u16,
    behind: Behind,
}

/// The two slots at a place.
#[derive(Clone, Copy)]
pub struct Pair {
    pub first: Slot,
    pub second: Slot,
}

const _: () = prove!(size_of::<Pair>() == 64);

/// The slot that keeps nothing, with nothing behind.
const EMPTY: Slot = Slot {
    value: Plain::Signal,
    key: 0,
    instr: 0,
    state: 0,
    behind: Behind::Nothing,
};

/// The pair that keeps nothing, with nothing behind.
const EMPTY_PAIR: Pair = Pair {
    first: EMPTY,
    second: EMPTY,
};

/// By what a key is scrambled, to 64 bits of which the upper half tells where the places of its context and iteration
/// begin. The upper half of this one is that of 2^64 by the golden ratio, so that those of contexts that follow one
/// another lie evenly apart. The lower half tells how many places further the next iteration stands: near, where memory
/// is at hand still. It is odd, so that an instruction's values of as many iterations as there are places stand at a
/// place each.
const SCRAMBLE: u64 = 0x9e37_79b9_0000_0029;

/// The place of an instruction under a key among so many pairs.
#[inline(always)]
fn place_in(key: u64, instr: u32, len: usize) -> usize
    requires { 0 < len }
    ensures exact { result ≡ place_in key instr len }
    ensures below { result < len }
{
    let begin = key.wrapping_mul(SCRAMBLE) >> 32;
    ((begin + u64::from(instr)) & (len as u64 - 1)) as usize
}

/// The place of a tag among so many pairs.
fn place_of(tag: Tag, len: usize) -> usize
    requires { 0 < len }
    ensures exact { result ≡ place tag len }
    ensures below { result < len }
{
    let key = tag
        .iteration
        .wrapping_mul(0x1_0000_0000)
        .wrapping_add(tag.context.serial);
    place_in(key, tag.instr, len)
}

/// The key of a context with this serial number and an iteration.
#[inline(always)]
fn key_of(serial: u32, iteration: u32) -> u64
    ensures exact { result ≡ key_of serial iteration }
    ensures serial { result % 2 ^ 32 ≡ serial }
    ensures iteration { result / 2 ^ 32 ≡ iteration }
{
    u64::from(iteration) * 0x1_0000_0000 + u64::from(serial)
}

/// The state of a slot that keeps a value at this port, in a context of this element.
#[inline(always)]
fn state_of(element: u8, port: Port) -> u16
    ensures { result ≡ state_of element port }
{
    u16::from(element) * 4 + 2 + port as u16
}

impl Slot {
    /// The tag of what it keeps.
    #[inline(always)]
    pub fn tag(&self) -> Tag
        ensures { result ≡ slot_tag self.now }
    {
        Tag {
            context: Context {
                element: u32::from(self.state / 4),
                serial: self.key % 0x1_0000_0000,
            },
            iteration: self.key / 0x1_0000_0000,
            instr: self.instr,
        }
    }

    /// The port of what it keeps.
    fn port(&self) -> Port
        ensures { result ≡ slot_port self.now }
    {
        if self.state % 2 == 0 {
            Port::Zero
        } else {
            Port::One
        }
    }

    /// The value that it keeps, with its port.
    fn half(&self) -> Option<Half>
        ensures { result ≡ slot_half self.now }
    {
        if self.is_empty() {
            None
        } else {
            Some(Half {
                port: self.port(),
                value: self.value.value(),
            })
        }
    }

    /// The value that it keeps, if that waits under this tag.
    fn held(&self, tag: Tag) -> Option<Half>
        ensures { result ≡ held self.now tag }
    {
        if tag == self.tag() { self.half() } else { None }
    }

    /// Whether it keeps a value under this tag.
    fn holds(&self, tag: Tag) -> bool
        ensures { result ≡ is_some (held self.now tag) }
    {
        !self.is_empty() && tag == self.tag()
    }

    /// Whether it keeps the partner of the token.
    #[inline(always)]
    fn is_partner(&self, token: &PlainToken) -> bool
        ensures { IsTrue result → held self.now (tag_in token.now)
            ≡ Some (record { port = other_port token.now.port; value = whole self.now.value }) }
    {
        self.state == state_of(token.element, token.port) ^ 1
            && self.instr == token.instr
            && self.key == key_of(token.serial, token.iteration)
    }

    /// Whether it keeps nothing under the tag of the token, as its numbers tell but the element.
    #[inline(always)]
    fn is_other(&self, token: &PlainToken) -> bool
        ensures { IsTrue result → held self.now (tag_in token.now) ≡ None }
    {
        self.instr != token.instr
            || self.key != key_of(token.serial, token.iteration)
            || self.is_empty()
    }

    /// Whether it keeps nothing.
    #[inline(always)]
    pub fn is_empty(&self) -> bool
        ensures { IsTrue result ↔ (slot_half self.now ≡ None) }
    {
        self.state == 0
    }

    /// What it keeps, as an entry.
    fn entry(&self) -> Option<Entry>
        ensures { result ≡ option_map entry_at (slot_entry self.now) }
    {
        let half = self.half()?;
        Some(Entry {
            tag: self.tag(),
            port: half.port,
            value: half.value,
        })
    }

    /// Keeps the token's value.
    #[inline(always)]
    fn keep(&mut self, token: &PlainToken)
        ensures tag { slot_tag self.new ≡ tag_in token.now }
        ensures half { slot_half self.new ≡ Some (record { port = token.now.port; value = whole token.now.value }) }
        ensures mark { self.new.behind ≡ self.old.behind }
    {
        self.value = token.value;
        self.key = key_of(token.serial, token.iteration);
        self.instr = token.instr;
        self.state = state_of(token.element, token.port);
    }

    /// Lets the value leave that it keeps.
    #[inline(always)]
    fn leave(&mut self) -> Plain
        ensures value { result ≡ self.old.value }
        ensures empty { slot_half self.new ≡ None }
        ensures mark { self.new.behind ≡ self.old.behind }
    {
        self.state = 0;
        self.value
    }
}

impl Pair {
    /// What waits in it under this tag.
    fn half(&self, tag: Tag) -> Option<Half>
        ensures { result ≡ pair_half self.now tag }
    {
        self.first.held(tag).or(self.second.held(tag))
    }

    /// Whether it keeps a value under this tag.
    fn holds(&self, tag: Tag) -> bool
        ensures { result ≡ is_some (pair_half self.now tag) }
    {
        self.first.holds(tag) || self.second.holds(tag)
    }

    /// How many values it keeps.
    fn count(&self) -> usize
        ensures exact { result ≡ length (pair_entries self.now) }
        ensures most { result ≤ 2 }
    {
        usize::from(!self.first.is_empty()) + usize::from(!self.second.is_empty())
    }

    /// Takes away what waits under this tag.
    fn clear(&mut self, tag: Tag)
        ensures put { IsSingle self.old → PutsIn self.old self.new tag None }
        ensures mark { self.new.first.behind ≡ self.old.first.behind }
    {
        if self.first.holds(tag) {
            self.first.state = 0;
        } else if self.second.holds(tag) {
            self.second.state = 0;
        }
    }

    /// Offers any value, if it has the tag's value.
    #[inline(always)]
    fn take(&mut self, tag: Tag, port: Port, value: Value) -> Option<Offered>
        ensures met { IsSingle self.old → IfSome result (λ a. MeetsIn self.old self.new tag port value a) }
        ensures found { IfSome result (λ _. IsSome (pair_half self.old tag)) }
        ensures none { result ≡ None → self.new ≡ self.old }
        ensures free { result ≡ None → pair_half self.old tag ≡ None }
        ensures mark { self.new.first.behind ≡ self.old.first.behind }
    {
        let half = self.half(tag)?;
        if half.port == port {
            return Some(Offered::Taken);
        }
        self.clear(tag);
        Some(pair(port, value, half.value))
    }

    /// Puts the slot, under whose tag it keeps nothing, in the place of one that keeps nothing, if there is one.
    #[inline(always)]
    fn put(&mut self, slot: Slot) -> bool
        ensures put { pair_half self.old (slot_tag slot) ≡ None → IsTrue result
            → PutsIn self.old self.new (slot_tag slot) (slot_half slot) }
        ensures full { result ≡ false → self.new ≡ self.old }
        ensures mark { self.new.first.behind ≡ self.old.first.behind }
    {
        if self.first.is_empty() {
            self.first = Slot {
                behind: self.first.behind,
                ..slot
            };
            true
        } else if self.second.is_empty() {
            self.second = slot;
            true
        } else {
            false
        }
    }

    /// Whether the first slot is to keep a token's value: it keeps nothing, the second has nothing under the tag, and
    /// nothing stands behind.
    #[inline(always)]
    fn is_first_free(&self, token: &PlainToken) -> bool
        ensures empty { IsTrue result → slot_half self.now.first ≡ None }
        ensures other { IsTrue result → held self.now.second (tag_in token.now) ≡ None }
        ensures alone { IsTrue result → self.now.first.behind ≡ Nothing }
    {
        self.first.is_empty() && self.first.behind == Behind::Nothing && self.second.is_other(token)
    }

    /// Whether the second slot is to keep a token's value, as the first one.
    #[inline(always)]
    fn is_second_free(&self, token: &PlainToken) -> bool
        ensures empty { IsTrue result → slot_half self.now.second ≡ None }
        ensures other { IsTrue result → held self.now.first (tag_in token.now) ≡ None }
        ensures alone { IsTrue result → self.now.first.behind ≡ Nothing }
    {
        self.second.is_empty() && self.first.behind == Behind::Nothing && self.first.is_other(token)
    }

    /// Offers the token, where that is short: it keeps the partner, or has room for the value, and nothing stands
    /// behind. That nothing waits in the first slot is asked first, since half of the tokens find that.
    #[inline(always)]
    fn meet(&mut self, token: &PlainToken) -> Option<Met>
        ensures met { IsSingle self.old → IfSome result (λ met. IfSome (told met token.now) (λ a.
            MeetsIn self.old self.new (tag_in token.now) token.now.port (whole token.now.value) a)) }
        ensures found { IfSome result (λ _. self.old.first.behind ≢ Nothing
            → IsSome (pair_half self.old (tag_in token.now))) }
        ensures apart { IfSome result (λ met. told met token.now ≡ None → self.new ≡ self.old) }
        ensures none { result ≡ None → self.new ≡ self.old }
        ensures mark { self.new.first.behind ≡ self.old.first.behind }
    {
        if self.is_first_free(token) {
            self.first.keep(token);
            Some(Met::Kept)
        } else if self.first.is_partner(token) {
            Some(Met::Partner(self.first.leave()))
        } else if self.second.is_partner(token) {
            Some(Met::Partner(self.second.leave()))
        } else if self.is_second_free(token) {
            self.second.keep(token);
            Some(Met::Kept)
        } else {
            None
        }
    }
}

/// The slot for a value that waits, if it fits.
pub fn slot_for(tag: Tag, port: Port, value: Value) -> Option<Slot>
    ensures { IfSome result
        (λ s. (slot_tag s ≡ tag) × (slot_half s ≡ Some (record { port = port; value = value }))) }
{
    Some(Slot {
        value: plain_of(&value)?,
        key: key_of(small(tag.context.serial)?, small(tag.iteration)?),
        instr: tag.instr,
        state: state_of(tiny(tag.context.element)?, port),
        behind: Behind::Nothing,
    })
}

/// The slot for a plain token.
#[inline(always)]
pub fn slot_in(token: &PlainToken) -> Slot
    ensures tag { slot_tag result ≡ tag_in token.now }
    ensures half { slot_half result ≡ Some (record { port = token.now.port; value = whole token.now.value }) }
{
    Slot {
        value: token.value,
        key: key_of(token.serial, token.iteration),
        instr: token.instr,
        state: state_of(token.element, token.port),
        behind: Behind::Nothing,
    }
}

/// Offers a plain token to the front, where that is short: where its pair keeps the tag's value, or has room for it and
/// nothing behind.
#[inline(always)]
pub fn meet(front: &mut Vec<Pair>, token: &PlainToken) -> Option<Met>
    ensures met { IsPlaced front.old.items → IfSome result (λ met. IfSome (told met token.now) (λ a.
        Meets front.old.items front.new.items (tag_in token.now) token.now.port (whole token.now.value) a)) }
    ensures alone { (es : List (Tag × Half)) → IsKept front.old.items es → IsSome result
        → lookup (same_tag (tag_in token.now)) es ≡ None }
    ensures apart { IfSome result (λ met. told met token.now ≡ None → front.new.items ≡ front.old.items) }
    ensures none { result ≡ None → front.new.items ≡ front.old.items }
    ensures marks { MarksSame front.old.items front.new.items }
{
    if front.is_empty() {
        return None;
    }
    let key = key_of(token.serial, token.iteration);
    let at = place_in(key, token.instr, front.len());
    front[at].meet(token)
}

/// Offers any value to the front, if that has the tag's value.
pub fn take(front: &mut Vec<Pair>, tag: Tag, port: Port, value: Value) -> Option<Offered>
    ensures met { IsPlaced front.old.items
        → IfSome result (λ a. Meets front.old.items front.new.items tag port value a) }
    ensures found { IfSome result (λ _. IsSome (front_half front.old.items tag)) }
    ensures none { result ≡ None → front.new.items ≡ front.old.items }
    ensures free { result ≡ None → front_half front.old.items tag ≡ None }
    ensures marks { MarksSame front.old.items front.new.items }
{
    if front.is_empty() {
        return None;
    }
    let at = place_of(tag, front.len());
    front[at].take(tag, port, value)
}

/// Whether a value waits in the front under a tag.
pub fn has(front: &[Pair], tag: Tag) -> bool
    ensures { result ≡ is_some (front_half front.now tag) }
{
    if front.is_empty() {
        return false;
    }
    front[place_of(tag, front.len())].holds(tag)
}

/// Puts the slot into its pair, if there is room, and nothing waits under its tag in the front.
pub fn put(front: &mut Vec<Pair>, slot: Slot) -> bool
    ensures free { IsTrue result → front_half front.old.items (slot_tag slot) ≡ None }
    ensures put { IsTrue result → Puts front.old.items front.new.items (slot_tag slot) (slot_half slot) }
    ensures full { result ≡ false → front.new.items ≡ front.old.items }
    ensures marks { MarksSame front.old.items front.new.items }
{
    if front.is_empty() {
        return false;
    }
    let tag = slot.tag();
    let at = place_of(tag, front.len());
    !front[at].holds(tag) && front[at].put(slot)
}

/// What stands behind the pair of a tag.
pub fn stands_behind(front: &[Pair], tag: Tag) -> Behind
    ensures { result ≡ Nothing → (0 < length front.now) × (mark_at front.now tag ≡ Nothing) }
{
    if front.is_empty() {
        return Behind::Many;
    }
    front[place_of(tag, front.len())].first.behind
}

/// Whether the pair of a tag has room for one more value.
pub fn has_room(front: &[Pair], tag: Tag) -> bool
    ensures { IsTrue result ↔ (0 < length front.now)
        × (length (pair_entries (slice_index_or front.now (place tag (length front.now)) empty_pair)) < 2) }
{
    !front.is_empty() && front[place_of(tag, front.len())].count() < 2
}

/// Tells the pair of a tag that a value comes to stand behind it.
pub fn step_behind(front: &mut Vec<Pair>, tag: Tag)
    ensures holds { HoldsSame front.old.items front.new.items }
    ensures marked { (es fs : List (Tag × Half)) → IsMarked front.old.items es → OthersSame tag es fs
        → IsMarked front.new.items fs }
{
    if front.is_empty() {
        return;
    }
    let at = place_of(tag, front.len());
    front[at].first.behind = front[at].first.behind.more();
}

/// Tells the pair of a tag that the value under that tag leaves from behind it.
pub fn leave_behind(front: &mut Vec<Pair>, tag: Tag)
    ensures holds { HoldsSame front.old.items front.new.items }
    ensures marked { (es fs : List (Tag × Half)) → IsMarked front.old.items es → OthersSame tag es fs
        → IsSome (lookup (same_tag tag) es) → lookup (same_tag tag) fs ≡ None → IsMarked front.new.items fs }
{
    if front.is_empty() {
        return;
    }
    let at = place_of(tag, front.len());
    front[at].first.behind = front[at].first.behind.less();
}

/// Tells the pairs that these values stand behind them, and no others.
pub fn mark(front: &mut Vec<Pair>, entries: &[Entry])
    ensures holds { HoldsSame front.old.items front.new.items }
    ensures marked { IsMarked front.new.items (map_list half_entry entries.now) }
{
    for i in 0..entries.len() {
        step_behind(front, entries[i].tag);
    }
}

/// A front with no value, of so many pairs.
fn empty(alloc: Global, len: usize) -> Option<Vec<Pair>>
    ensures items { IfSome result (λ f. f.items ≡ replicate len empty_pair) }
{
    let mut front = Vec::new(alloc);
    if front.resize(len, EMPTY_PAIR).is_err() {
        return None;
    }
    Some(front)
}

/// Moves what the slot keeps into the front, where nothing waits under its tag, if there is room.
fn put_moved(front: &mut Vec<Pair>, slot: Slot) -> bool
    ensures placed { IsTrue result → IsPlaced front.old.items → IsPlaced front.new.items }
    ensures under { IsTrue result → (t : Tag) →
        front_half front.new.items t ≡ option_or (front_half front.old.items t) (held slot t) }
{
    slot.is_empty() || put(front, slot)
}

/// A front of 512 pairs, or of twice as many as before, up to 2 ^ 23, which holds the same.
pub fn larger(alloc: Global, front: &[Pair]) -> Option<Vec<Pair>>
    ensures placed { IfSome result (λ m. IsPlaced m.items) }
    ensures same { IfSome result (λ m. (t : Tag) →
        front_half m.items t ≡ lookup (same_tag t) (front_entries front.now)) }
{
    if front.len() > 0x40_0000 {
        return None;
    }
    let len = if front.is_empty() {
        512
    } else {
        front.len() * 2
    };
    let mut more = empty(alloc, len)?;
    for i in 0..front.len() {
        // No two pairs come to one place, since each place is that before, or so many more.
        let pair = front[i];
        if !put_moved(&mut more, pair.first) || !put_moved(&mut more, pair.second) {
            return None;
        }
    }
    Some(more)
}

/// How many values the slots keep.
pub fn count(front: &[Pair]) -> usize
    ensures exact { result ≡ length (front_entries front.now) }
    ensures most { result ≤ 2 * length front.now }
{
    let mut count = 0;
    for i in 0..front.len() {
        count += front[i].count();
    }
    count
}

/// Lists what the slot keeps.
fn list(entries: &mut Vec<Entry>, slot: &Slot) -> Result<(), AllocError>
    ensures { OnOk result (entries.new.items ≡
        entries.old.items ++ map_list entry_at (filter_map slot_entry (slot.now ∷ []))) }
{
    if let Some(entry) = slot.entry() {
        entries.push(entry)?;
    }
    Ok(())
}

/// What the slots keep, in their order.
pub fn in_front(alloc: Global, front: &[Pair]) -> Result<Vec<Entry>, AllocError>
    ensures { IfOk result (λ es. es.items ≡ map_list entry_at (front_entries front.now)) }
{
    let mut entries = Vec::new(alloc);
    for i in 0..front.len() {
        list(&mut entries, &front[i].first)?;
        list(&mut entries, &front[i].second)?;
    }
    Ok(entries)
}
