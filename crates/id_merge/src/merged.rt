//! Logs that are merged.

ghost use Rattle.std.specs.Prelude.{◌≡◌, ◌≤◌, ◌<◌, ◌↔◌, ◌⊎◌, IfErr, IfNone, IfOk, IfSome, IsSomeAnd, IsTrue, Option};
ghost use Rattle.std.specs.Prelude.{[], None, drop, false, length, map, slice_get, take, true};
ghost use Rattle.std.specs.List.{All};
ghost use Rattle.id_log.specs.Logs.{Gives, IsLost, IsOver, MayBreak};
ghost use Rattle.id_merge.specs.Heads.{IsStill, IsWithin, are_enough, told_behind};
ghost use Rattle.id_merge.specs.Merging.{first_least, inside, merged_ahead, source, text_at};

use crate::head::Head;
use crate::lines::NONE;
use id_log::{Log, LogFault, Logs};
use std::alloc::Global;

/// Logs that are merged as they are read: whole lines, always the first of those with the least rank.
#[derive(Drop)]
pub struct Merged<L: Log + Drop> {
    heads: Vec<Head<L>>,
    /// The log in the midst of whose line the bytes are that were given on last.
    inside: Option<usize>,
}

/// The first of logs of which more has to be read to tell its first line.
fn first_unready<L: Log + Drop>(heads: &[Head<L>]) -> Option<usize>
    ensures some { IfSome result (λ i. IsSomeAnd (slice_get heads.now i) (λ h. h.over ≡ false)) }
    ensures none { IfNone result (All (λ h. are_enough (drop h.from h.bytes.items) h.over ≡ true) heads.now) }
{
    for i in 0..heads.len() {
        if !heads[i].is_ready() {
            return Some(i);
        }
    }
    None
}

/// The first of logs with the least rank of what was read.
fn first_least<L: Log + Drop>(heads: &[Head<L>]) -> usize
    ensures { result ≡ first_least (map (λ h. drop h.from h.bytes.items) heads.now) }
{
    let mut place = 0;
    let mut least = NONE;
    for i in 0..heads.len() {
        let rank = heads[i].rank();
        if rank < least {
            place = i;
            least = rank;
        }
    }
    place
}

/// The log in the midst of whose line the bytes are behind this byte of the log at a place.
fn inside(place: usize, byte: u8) -> Option<usize>
    ensures { result ≡ inside place byte }
{
    if byte == b'\n' { None } else { Some(place) }
}

impl<L: Log + Drop> Merged<L> {
    /// Whether bytes of the line were read in whose midst the bytes are that were given on.
    fn is_within(&self) -> bool
        ensures { IsTrue result
            ↔ IsWithin self.now.inside (map (λ h. drop h.from h.bytes.items) self.now.heads.items) }
    {
        match self.inside {
            Some(i) if i < self.heads.len() => !self.heads[i].rest().is_empty(),
            _ => false,
        }
    }

    /// The log that has to be read before the next byte is known, if one has to.
    fn waits_for(&self) -> Option<usize>
        ensures some { IfSome result (λ i. IsSomeAnd (slice_get self.now.heads.items i) (λ h. h.over ≡ false)) }
        ensures none { IfNone result
            (IsWithin self.now.inside (map (λ h. drop h.from h.bytes.items) self.now.heads.items)
            ⊎ All (λ h. are_enough (drop h.from h.bytes.items) h.over ≡ true) self.now.heads.items) }
    {
        if self.is_within() {
            return None;
        }
        first_unready(self.heads.as_slice())
    }

    /// The place of the log whose bytes come next, by what was read.
    fn place(&self) -> usize
        ensures { result ≡ source self.now.inside (map (λ h. drop h.from h.bytes.items) self.now.heads.items) }
    {
        match self.inside {
            Some(i) if self.is_within() => i,
            _ => first_least(self.heads.as_slice()),
        }
    }

    /// The place of the log whose bytes come next, by what was read, where such bytes were read.
    fn source(&self) -> Option<usize>
        ensures some { IfSome result (λ i.
            i ≡ source self.now.inside (map (λ h. drop h.from h.bytes.items) self.now.heads.items)) }
        ensures bytes { IfSome result (λ i. IsSomeAnd (slice_get self.now.heads.items i)
            (λ h. 0 < length (drop h.from h.bytes.items))) }
        ensures none { IfNone result (text_at (map (λ h. drop h.from h.bytes.items) self.now.heads.items)
            (source self.now.inside (map (λ h. drop h.from h.bytes.items) self.now.heads.items)) ≡ []) }
    {
        let place = self.place();
        if place < self.heads.len() && !self.heads[place].rest().is_empty() {
            return Some(place);
        }
        None
    }

    /// Reads on in the logs until the next byte is known.
    fn fill(&mut self) -> Result<(), LogFault>
        ensures ready { IfOk result (λ _.
            IsWithin self.new.inside (map (λ h. drop h.from h.bytes.items) self.new.heads.items)
            ⊎ All (λ h. are_enough (drop h.from h.bytes.items) h.over ≡ true) self.new.heads.items) }
        ensures still { IfOk result (λ _. IsStill
            (merged_ahead self.old.inside
            (map (λ h. told_behind (L.ahead h.log) (drop h.from h.bytes.items) h.over) self.old.heads.items))
            (merged_ahead self.new.inside
            (map (λ h. told_behind (L.ahead h.log) (drop h.from h.bytes.items) h.over) self.new.heads.items))) }
        ensures lost { IfErr result (IsLost (merged_ahead self.old.inside
            (map (λ h. told_behind (L.ahead h.log) (drop h.from h.bytes.items) h.over) self.old.heads.items))) }
    {
        for _ in 0..u64::MAX {
            match self.waits_for() {
                Some(i) => match self.heads[i].read_on() {
                    Ok(()) => {}
                    Err(fault) => return Err(fault),
                },
                None => return Ok(()),
            }
        }
        Err(LogFault::Memory)
    }

    /// Gives on bytes of the next line, as far as there is room, and says how many: none only at the end.
    fn give(&mut self, room: &mut [u8]) -> usize
        requires { IsWithin self.old.inside (map (λ h. drop h.from h.bytes.items) self.old.heads.items)
            ⊎ All (λ h. are_enough (drop h.from h.bytes.items) h.over ≡ true) self.old.heads.items }
        ensures within { result ≤ length room.new }
        ensures room { length room.new ≡ length room.old }
        ensures gives { Gives
            (merged_ahead self.old.inside
            (map (λ h. told_behind (L.ahead h.log) (drop h.from h.bytes.items) h.over) self.old.heads.items))
            (merged_ahead self.new.inside
            (map (λ h. told_behind (L.ahead h.log) (drop h.from h.bytes.items) h.over) self.new.heads.items))
            (take result room.new) }
        ensures over { result ≡ 0 → 0 < length room.new → IsOver (merged_ahead self.new.inside
            (map (λ h. told_behind (L.ahead h.log) (drop h.from h.bytes.items) h.over) self.new.heads.items)) }
    {
        if room.is_empty() {
            return 0;
        }
        let Some(place) = self.source() else {
            return 0;
        };
        let count = self.heads[place].give(room);
        self.inside = inside(place, room[count - 1]);
        count
    }
}

impl<L: Log + Drop> Log for Merged<L> {
    ghost use Rattle.std.specs.Prelude.{drop, map};
    ghost use Rattle.id_merge.specs.Heads.{told_behind};
    ghost use Rattle.id_merge.specs.Merging.{merged_ahead};

    ghost ahead = { λ m. merged_ahead m.inside
        (map (λ h. told_behind (L.ahead h.log) (drop h.from h.bytes.items) h.over) m.heads.items) };

    fn read(&mut self, room: &mut [u8]) -> Result<usize, LogFault> {
        match self.fill() {
            Ok(()) => Ok(self.give(room)),
            Err(fault) => Err(fault),
        }
    }
}

/// The logs of these names, opened and merged.
pub fn open_merged<T: Logs>(
    alloc: Global,
    logs: &mut T,
    names: &[&str],
) -> Result<Merged<T::Log>, LogFault>
    ensures opened { IfOk result (λ m.
        merged_ahead m.inside
        (map (λ h. told_behind (T.Log.ahead h.log) (drop h.from h.bytes.items) h.over) m.heads.items)
        ≡ merged_ahead None (map (λ n. T.told logs.old n.now) names.now)) }
    ensures lost { IfErr result (MayBreak (merged_ahead None (map (λ n. T.told logs.old n.now) names.now))) }
{
    let mut heads = Vec::new(alloc);
    for i in 0..names.len() {
        let log = match logs.open(alloc, names[i]) {
            Ok(log) => log,
            Err(fault) => return Err(fault),
        };
        let head = Head {
            log,
            bytes: Vec::new(alloc),
            from: 0,
            over: false,
        };
        if heads.push(head).is_err() {
            return Err(LogFault::Memory);
        }
    }
    Ok(Merged {
        heads,
        inside: None,
    })
}
