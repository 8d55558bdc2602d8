//! The rear of the store: what waits behind its front, because its slots were taken or it fits no slot.
//!
//! It waits in frames, one for each context and iteration. The frames stand in a slab, and a table tells the key of
//! each by its name. A frame is made when a value comes to wait in it, and given back when its last value leaves; a
//! value finds its frame, and in it its partner, by one look-up in the table, and where its frame is made or given back
//! by two.

ghost use Rattle.std.specs.Prelude.{◌≡◌, ◌≢◌, ◌+◌, ◌<◌, ◌↔◌, ◌≤◌, ◌^◌, ◌++◌};
ghost use Rattle.std.specs.Prelude.{true, false, None, Some, IsTrue};
ghost use Rattle.std.specs.Prelude.{IsPermutation, IsSortedByKey, IfOk, IfSome, OnOk, OnErr, is_some, length, nat_eq};
ghost use Rattle.std.specs.Prelude.{Bool, IsSome, [], ◌∷◌, ℕ, slice_index_or, map as map_list, ◌*◌};
ghost use Rattle.std.specs.Prelude.{◌-◌};
ghost use Rattle.std.specs.FinMap as map;
ghost use Rattle.std.specs.Map.{lookup};
ghost use Rattle.id_tag.specs.Tags.{same_tag, tag_cmp};
ghost use Rattle.id_tag.specs.declared.Tag.{Tag};
ghost use Rattle.id_tag.specs.declared.Value.{Value};
ghost use Rattle.id_tag.specs.declared.plain.Plain.{Plain};
ghost use Rattle.id_match.specs.declared.meeting.Half.{Half};
ghost use Rattle.id_match.specs.declared.meeting.Offered.TheVariants.{Kept, Taken};
ghost use Rattle.id_match.specs.declared.rear.Came.TheVariants as coming;
ghost use Rattle.id_match.specs.Front.{half_entry};
ghost use Rattle.id_match.specs.Waiting.{entry_at, pair_of};
ghost use Rattle.id_match.specs.Meetings.{told};
ghost use Rattle.id_match.specs.Rear.{IsFramed, IsOffered, IsOfferedAt, Sets, after_came, frame_entries, halves_in};
ghost use Rattle.id_match.specs.Rear.{TellsOf, WritesFrame, name_of, rear_entries, rear_half, said, same_name, tag_at};
ghost use Rattle.slab.specs.Slab.{ContainsKey, HasRoomFor, Updates, get};
ghost use Rattle.id_tag.specs.Plains.{tag_in, whole};

use crate::meeting::{Entry, Half, Met, Offered, pair};
use id_instr::Port;
use id_tag::{Context, NearHasher, Plain, PlainToken, Tag, Value, plain_of};
use slab::Slab;
use std::alloc::{AllocError, Global};
use std::collections::HashMap;
use std::marker::Model;

/// The name of a frame.
#[derive(Clone, Copy, PartialEq, Eq, Hash)]
pub(crate) struct Name {
    context: Context,
    iteration: u64,
}

/// What waits behind the front in one context and iteration, by instruction.
#[derive(Drop)]
pub(crate) struct Frame {
    pub(crate) halves: Vec<(u32, Half)>,
}

/// What the offer of a value comes to.
#[derive(Clone, Copy)]
enum Came {
    /// The value waits for its partner.
    Kept,
    /// This is the value of the other port, a plain one: neither waits any longer.
    Plain(Plain),
    /// This is the value of the other port, and no plain one: neither waits any longer.
    Partner(Value),
    /// Nothing has changed: a value waits at that port, or one at the other that isn't plain, where it was to be.
    Apart,
}

/// What waits behind the front, by tag and port.
#[derive(Drop)]
pub(crate) struct Rear {
    // For the frames.
    alloc: Global,
    pub(crate) keys: HashMap<Name, usize, NearHasher>,
    pub(crate) frames: Slab<Frame>,
    // How many values wait.
    count: usize,
}

/// How many values may wait, more than any memory holds: so the number of all that wait fits.
const MOST: usize = 0x4000_0000_0000_0000;

impl Model for Rear {
    ghost use Rattle.std.specs.Prelude.{◌≡◌, ◌≤◌, ◌^◌};
    ghost use Rattle.std.specs.FinMap as map;
    ghost use Rattle.id_tag.specs.Tags.{tag_cmp};
    ghost use Rattle.id_match.specs.declared.meeting.Half.{Half};
    ghost use Rattle.id_match.specs.Codes.{coded_store};
    ghost use Rattle.id_match.specs.Rear.{IsFramed, rear_entries};

    ghost Value = { map.FinMap tag_cmp Half };

    ghost coded = { coded_store };

    ghost view = { λ s. map.from_entries (rear_entries s.keys.entries s.frames) };

    ghost invariant = { λ s. IsFramed s.keys.entries s.frames
        × (s.count ≡ map.len (map.from_entries {R = tag_cmp} (rear_entries s.keys.entries s.frames)))
        × (s.count ≤ 2 ^ 62) };
}

fn name_of(tag: Tag) -> Name
    ensures { result ≡ name_of tag }
{
    Name {
        context: tag.context,
        iteration: tag.iteration,
    }
}

impl Name {
    // The tag of an instruction in its frame.
    pub(crate) fn tag(self, instr: u32) -> Tag
        ensures { result ≡ tag_at self instr }
    {
        Tag {
            context: self.context,
            iteration: self.iteration,
            instr,
        }
    }
}

impl Frame {
    // Where the value of an instruction stands.
    fn find(&self, instr: u32) -> Option<usize>
        ensures none { result ≡ None → lookup (nat_eq instr) self.now.halves.items ≡ None }
        ensures has { is_some result ≡ is_some (lookup (nat_eq instr) self.now.halves.items) }
        ensures within { IfSome result (λ i. i < length self.now.halves.items) }
        ensures found { IfSome result
            (λ i. (d : ℕ × Half) → ((slice_index_or self.now.halves.items i d).0 ≡ instr)
            × (lookup (nat_eq instr) self.now.halves.items ≡ Some (slice_index_or self.now.halves.items i d).1)) }
    {
        for i in 0..self.halves.len() {
            if self.halves[i].0 == instr {
                return Some(i);
            }
        }
        None
    }

    // Whether nothing waits in it.
    fn is_empty(&self) -> bool
        ensures { IsTrue result ↔ (self.now.halves.items ≡ []) }
    {
        self.halves.is_empty()
    }

    // Offers a value to the port of an instruction. Where it is to be short, a partner that isn't plain stays.
    fn offer(&mut self, instr: u32, half: Half, short: bool, room: bool) -> Result<Came, AllocError>
        ensures tells { TellsOf result half short room (lookup (nat_eq instr) self.old.halves.items) }
        ensures sets { Sets self.old.halves.items self.new.halves.items instr
            (after_came result half (lookup (nat_eq instr) self.old.halves.items)) }
    {
        let Some(at) = self.find(instr) else {
            if !room {
                return Err(AllocError);
            }
            self.halves.push((instr, half))?;
            return Ok(Came::Kept);
        };
        let partner = self.halves[at].1;
        if partner.port == half.port {
            return Ok(Came::Apart);
        }
        match leaving(partner.value, short) {
            Some(came) => {
                self.halves.swap_remove(at);
                Ok(came)
            }
            None => Ok(Came::Apart),
        }
    }
}

// What an offer comes to whose partner is this, if it may leave.
fn leaving(partner: Value, short: bool) -> Option<Came>
    ensures partner { IfSome result (λ came. (h : Half) → said came h ≡ Some (pair_of h.port h.value partner)) }
    ensures plain { IsTrue short → IfSome result (λ came. (v : Value) → came ≢ coming.Partner v) }
    ensures left { IfSome result (λ came. came ≢ coming.Kept) }
    ensures any { short ≡ false → IsSome result }
{
    match plain_of(&partner) {
        Some(plain) => Some(Came::Plain(plain)),
        None => {
            if short {
                None
            } else {
                Some(Came::Partner(partner))
            }
        }
    }
}

// A frame in which a value alone waits, if there is to be room for one more.
fn new_frame(
    alloc: Global,
    frames: &mut Slab<Frame>,
    instr: u32,
    half: Half,
    room: bool,
) -> Result<Frame, AllocError>
    ensures only { IfOk result (λ f. f.halves.items ≡ (instr, half) ∷ []) }
    ensures has_room { OnOk result (HasRoomFor frames.new 1) }
    ensures room { OnOk result (IsTrue room) }
    ensures same { frames.new ≡ record (frames.old) { capacity = frames.new.capacity } }
{
    if !room {
        return Err(AllocError);
    }
    frames.reserve(1)?;
    let mut halves = Vec::new(alloc);
    halves.push((instr, half))?;
    Ok(Frame { halves })
}

// Offers a value to the frame with this key.
fn offer_in(
    frames: &mut Slab<Frame>,
    key: usize,
    instr: u32,
    half: Half,
    short: bool,
    room: bool,
) -> Result<Came, AllocError>
    requires { ContainsKey frames.old key }
    ensures tells { TellsOf result half short room (lookup (nat_eq instr) (halves_in (get frames.old key))) }
    ensures writes { WritesFrame frames.old frames.new key instr
        (after_came result half (lookup (nat_eq instr) (halves_in (get frames.old key)))) }
{
    frames[key].offer(instr, half, short, room)
}

// Gives the frame with this key back, if nothing waits in it, and answers whether it did.
fn give_back(frames: &mut Slab<Frame>, key: usize) -> bool
    requires { ContainsKey frames.old key }
    ensures left { IsTrue result → (halves_in (get frames.old key) ≡ []) × Updates frames.old frames.new key None }
    ensures stays { result ≡ false → frames.new ≡ frames.old }
{
    let is_left = frames[key].is_empty();
    if is_left {
        frames.remove(key);
    }
    is_left
}

// Offers a value to the frame with this key, gives the frame back once nothing waits in it, and answers whether it did.
#[inline(always)]
fn offer_at(
    frames: &mut Slab<Frame>,
    key: usize,
    instr: u32,
    half: Half,
    short: bool,
    room: bool,
) -> (Result<Came, AllocError>, bool)
    requires { ContainsKey frames.old key }
    ensures { IsOfferedAt frames.old frames.new key instr half short room result.0 result.1 }
{
    let came = offer_in(frames, key, instr, half, short, room);
    let is_left = give_back(frames, key);
    (came, is_left)
}

// Keeps a value under a name that the table has not, if there is to be room for it. Memory is had before any change.
fn keep_first(
    alloc: Global,
    keys: &mut HashMap<Name, usize, NearHasher>,
    frames: &mut Slab<Frame>,
    name: Name,
    tag: Tag,
    half: Half,
    room: bool,
) -> Result<Came, AllocError>
    requires framed { IsFramed keys.old.entries frames.old }
    requires own { name ≡ name_of tag }
    requires absent { lookup (same_name name) keys.old.entries ≡ None }
    ensures { (short : Bool)
        → IsOffered keys.old.entries frames.old keys.new.entries frames.new tag half short room result }
{
    match new_frame(alloc, frames, tag.instr, half, room) {
        Err(e) => Err(e),
        Ok(frame) => match keys.insert(name, frames.vacant_key()) {
            Err(_) => Err(AllocError),
            Ok(_) => {
                frames.insert_reserved(frame);
                Ok(Came::Kept)
            }
        },
    }
}

// An offer to the frame of a name, which leaves the table once nothing waits in it.
#[inline(always)]
fn offer_held(
    keys: &mut HashMap<Name, usize, NearHasher>,
    frames: &mut Slab<Frame>,
    name: Name,
    key: usize,
    tag: Tag,
    half: Half,
    short: bool,
    room: bool,
) -> Result<Came, AllocError>
    requires framed { IsFramed keys.old.entries frames.old }
    requires own { name ≡ name_of tag }
    requires found { lookup (same_name name) keys.old.entries ≡ Some key }
    ensures { IsOffered keys.old.entries frames.old keys.new.entries frames.new tag half short room result }
{
    let (came, is_left) = offer_at(frames, key, tag.instr, half, short, room);
    if is_left {
        keys.remove(&name);
    }
    came
}

// An offer to the frames. The name is looked up once, and once more where its frame is made or given back. Room is made
// where the name is new, and only there, before any change.
fn offer_to(
    alloc: Global,
    keys: &mut HashMap<Name, usize, NearHasher>,
    frames: &mut Slab<Frame>,
    tag: Tag,
    half: Half,
    short: bool,
    room: bool,
) -> Result<Came, AllocError>
    requires { IsFramed keys.old.entries frames.old }
    ensures { IsOffered keys.old.entries frames.old keys.new.entries frames.new tag half short room result }
{
    let name = name_of(tag);
    match keys.get(&name).copied() {
        Some(key) => offer_held(keys, frames, name, key, tag, half, short, room),
        None => keep_first(alloc, keys, frames, name, tag, half, room),
    }
}

impl Rear {
    ghost use Rattle.std.specs.Prelude.{length, is_some};
    ghost use Rattle.id_match.specs.Waiting.{offer_answer, offer_after, entries_of};

    /// The store in which nothing waits. Takes no memory.
    pub(crate) fn new(alloc: Global) -> Rear
        ensures empty { result ≡ map.empty }
    {
        Rear {
            alloc,
            keys: HashMap::with_hasher(alloc, NearHasher::new()),
            frames: Slab::new(alloc),
            count: 0,
        }
    }

    /// Offers a value to a port of a tag: it is kept until the value of the other port comes, and then
    /// both leave. Memory is wanted only where the value is kept; after an error nothing has changed.
    pub(crate) fn offer(
        &mut self,
        tag: Tag,
        port: Port,
        value: Value,
    ) -> Result<Offered, AllocError>
        ensures answer { IfOk result (λ answer. answer ≡ offer_answer self.old tag port value) }
        ensures after { OnOk result (self.new ≡ offer_after self.old tag port value) }
        ensures grows { OnErr result (offer_answer self.old tag port value ≡ Kept) }
        ensures err { OnErr result (self.new ≡ self.old) }
    {
        match self.meet(tag, Half { port, value }, false)? {
            Came::Kept => Ok(Offered::Kept),
            Came::Plain(partner) => Ok(pair(port, value, partner.value())),
            Came::Partner(partner) => Ok(pair(port, value, partner)),
            Came::Apart => Ok(Offered::Taken),
        }
    }

    /// Offers a plain token to its port of its tag, where that is short. Memory is wanted only where the value is kept;
    /// after an error, and where it was not offered, nothing has changed.
    #[inline(always)]
    pub(crate) fn offer_plain(&mut self, token: &PlainToken) -> Result<Met, AllocError>
        ensures answer { IfOk result (λ met. IfSome (told met token.now)
            (λ answer. answer ≡ offer_answer self.old (tag_in token.now) token.now.port (whole token.now.value))) }
        ensures after { IfOk result (λ met. IfSome (told met token.now)
            (λ answer. self.new ≡ offer_after self.old (tag_in token.now) token.now.port (whole token.now.value))) }
        ensures apart { IfOk result (λ met. told met token.now ≡ None → self.new ≡ self.old) }
        ensures err { OnErr result (self.new ≡ self.old) }
    {
        let half = Half {
            port: token.port,
            value: token.value.value(),
        };
        match self.meet(token.tag(), half, true)? {
            Came::Kept => Ok(Met::Kept),
            Came::Plain(partner) => Ok(Met::Partner(partner)),
            Came::Partner(_) | Came::Apart => Ok(Met::Apart),
        }
    }

    // Offers a value to a port of a tag. Where it is to be short, a partner that isn't plain stays.
    fn meet(&mut self, tag: Tag, half: Half, short: bool) -> Result<Came, AllocError>
        ensures answer { IfOk result (λ came. IfSome (said came half)
            (λ answer. answer ≡ offer_answer self.old tag half.port half.value)) }
        ensures after { IfOk result (λ came. IfSome (said came half)
            (λ answer. self.new ≡ offer_after self.old tag half.port half.value)) }
        ensures apart { IfOk result (λ came. said came half ≡ None → self.new ≡ self.old) }
        ensures taken { short ≡ false → IfOk result (λ came. said came half ≡ None
            → offer_answer self.old tag half.port half.value ≡ Taken) }
        ensures plain { IsTrue short → IfOk result (λ came. (v : Value) → came ≢ coming.Partner v) }
        ensures grows { OnErr result (offer_answer self.old tag half.port half.value ≡ Kept) }
        ensures err { OnErr result (self.new ≡ self.old) }
    {
        let room = self.count < MOST;
        let came = offer_to(
            self.alloc,
            &mut self.keys,
            &mut self.frames,
            tag,
            half,
            short,
            room,
        )?;
        self.count = counted(self.count, came);
        Ok(came)
    }

    /// Whether something waits under a tag. Takes no memory.
    pub(crate) fn has(&self, tag: Tag) -> bool
        ensures { result ≡ is_some (lookup (same_tag tag) (map.entries self.now)) }
    {
        has_behind(&self.keys, &self.frames, tag)
    }

    /// How many values wait. Takes no memory.
    pub(crate) fn len(&self) -> usize
        ensures len { result ≡ map.len self.now }
        ensures most { result < 2 ^ 63 }
        ensures listed { result ≡ length (entries_of self.now) }
    {
        self.count
    }

    /// The values that wait, in no order, for what only looks them up.
    pub(crate) fn unordered(&self, alloc: Global) -> Result<Vec<Entry>, AllocError>
        ensures { IfOk result (λ es. (t : Tag) →
            lookup (same_tag t) (map_list half_entry es.items) ≡ lookup (same_tag t) (map.entries self.now)) }
    {
        listed(alloc, &self.keys, &self.frames)
    }

    /// The values that wait, in the order of their tags.
    pub(crate) fn entries(&self, alloc: Global) -> Result<Vec<Entry>, AllocError>
        ensures items { IfOk result (λ es. es.items ≡ entries_of self.now) }
    {
        let mut entries = listed(alloc, &self.keys, &self.frames)?;
        sort_by_tag(&mut entries);
        Ok(entries)
    }
}

// How many values wait after an offer that comes to this.
fn counted(count: usize, came: Came) -> usize
    ensures kept { came ≡ coming.Kept → count < 2 ^ 64 - 1 → result ≡ count + 1 }
    ensures plain { (v : Plain) → came ≡ coming.Plain v → result ≡ count - 1 }
    ensures partner { (v : Value) → came ≡ coming.Partner v → result ≡ count - 1 }
    ensures apart { came ≡ coming.Apart → result ≡ count }
{
    match came {
        Came::Kept => count.saturating_add(1),
        Came::Plain(_) | Came::Partner(_) => count.saturating_sub(1),
        Came::Apart => count,
    }
}

// Whether something waits in the frames under a tag.
fn has_behind(keys: &HashMap<Name, usize, NearHasher>, frames: &Slab<Frame>, tag: Tag) -> bool
    ensures { result ≡ is_some (rear_half keys.now.entries frames.now tag) }
{
    match keys.get(&name_of(tag)) {
        Some(key) => match frames.get(*key) {
            Some(frame) => frame.find(tag.instr).is_some(),
            None => false,
        },
        None => false,
    }
}

// What waits in the frames, in the order of the table.
fn listed(
    alloc: Global,
    keys: &HashMap<Name, usize, NearHasher>,
    frames: &Slab<Frame>,
) -> Result<Vec<Entry>, AllocError>
    ensures { IfOk result (λ es. es.items ≡ map_list entry_at (rear_entries keys.now.entries frames.now)) }
{
    let mut entries = Vec::new(alloc);
    for (name, key) in keys {
        if let Some(frame) = frames.get(*key) {
            list(&mut entries, *name, frame)?;
        }
    }
    Ok(entries)
}

// Lists what waits in a frame.
fn list(entries: &mut Vec<Entry>, name: Name, frame: &Frame) -> Result<(), AllocError>
    ensures { OnOk result (entries.new.items ≡
        entries.old.items ++ map_list entry_at (frame_entries name frame.now.halves.items)) }
{
    for i in 0..frame.halves.len() {
        let (instr, half) = frame.halves[i];
        entries.push(Entry {
            tag: name.tag(instr),
            port: half.port,
            value: half.value,
        })?;
    }
    Ok(())
}

pub(crate) fn sort_by_tag(entries: &mut Vec<Entry>)
    ensures permutation { IsPermutation entries.old.items entries.new.items }
    ensures sorted { IsSortedByKey (λ e. e.tag) tag_cmp entries.new.items }
{
    entries.sort_unstable_by_key(|e| e.tag);
}
