//! The records of some elements as one list of events, by stamp, then by element (docs/MACHINE.md, "The record").

ghost use Rattle.std.specs.Prelude.{◌≡◌, ◌+◌, ◌-◌, ◌^◌, ◌<◌, ℕ, List, map, length, min};
ghost use Rattle.std.specs.Prelude.{IsPermutation, IfOk};
ghost use Rattle.std.specs.Prelude.{MatchOption};
ghost use Rattle.std.specs.List.{flat_map};
ghost use Rattle.std.specs.List.Sorted.{IsStrictlyIncreasing, IsStrictlySortedBy};
ghost use Rattle.id_record.specs.Events.{EventView};
ghost use Rattle.id_observe.specs.Elements.{KeepAll};
ghost use Rattle.id_observe.specs.Merged.{by_moment, AreRecords, AreMerged, IsEarliest, IsMerge, earlier_of, head_of};

use id_record::{Event, Events};
use id_step::Element;
use std::alloc::{AllocError, Global};
use std::marker::Model;

/// Where an event stands: the index of its record, and its position in that.
#[derive(Clone, Copy)]
struct Place {
    index: usize,
    position: usize,
}

/// How far a record is merged: the position of its next event, and the stamp of that, if there is one.
#[derive(Clone, Copy)]
struct Head {
    position: usize,
    stamp: Option<u64>,
}

/// The events of some elements in the order of their stamps, and of the elements at one stamp. It
/// keeps where each event stands, and copies none.
#[derive(Drop)]
pub struct Merged<'a> {
    records: Vec<Events<'a>>,
    places: Vec<Place>,
}

impl<'a> Model for Merged<'a> {
    ghost use Rattle.std.specs.Prelude.{List, All};
    ghost use Rattle.id_record.specs.Events.{EventView};
    ghost use Rattle.id_observe.specs.Merged.{IsPlace, events_at};

    ghost Value = { List EventView };

    ghost view = { λ m. events_at m.records.items m.places.items };

    ghost invariant = { λ m. All (IsPlace m.records.items) m.places.items };
}

impl<'a> Merged<'a> {
    ghost use Rattle.std.specs.Prelude.{◌≡◌, ◌<◌, length, slice_get, Some};

    /// How many events there are. Takes no memory.
    pub fn len(&self) -> usize
        ensures { result ≡ length self.now }
    {
        self.places.len()
    }

    /// The event at a position, from 0. Takes no memory.
    pub fn event(&self, position: usize) -> Event<'a>
        requires { position < length self.now }
        ensures { slice_get self.now position ≡ Some (record {
          element = result.element;
          stamp = result.stamp;
          message = result.message;
          fired = result.fired;
          outputs = result.outputs;
          step = result.step;
        }) }
    {
        let place = self.places[position];
        let events = &self.records[place.index];
        events.event(place.position)
    }
}

/// All events of these elements, whose numbers rise: by stamp, and at one stamp by element.
pub fn merge_records<'a>(
    alloc: Global,
    elements: &'a [Element<'_>],
) -> Result<Merged<'a>, AllocError>
    requires kept { KeepAll elements.now }
    requires rise { IsStrictlyIncreasing (map (λ e. e.number) elements.now) }
    ensures sorted { IfOk result (λ m. IsStrictlySortedBy by_moment m) }
    ensures all { IfOk result (λ m. IsPermutation (flat_map (λ e. e.state.events) elements.now) m) }
    // There is one such list.
    ensures only { IfOk result
        (λ m. (es : List EventView) → IsStrictlySortedBy by_moment es
        → IsPermutation (flat_map (λ e. e.state.events) elements.now) es → es ≡ m) }
{
    let records = records_of(alloc, elements)?;
    let merged = merge(alloc, records)?;
    Ok(merged)
}

/// The records of these elements.
fn records_of<'a>(alloc: Global, elements: &'a [Element<'_>]) -> Result<Vec<Events<'a>>, AllocError>
    requires kept { KeepAll elements.now }
    requires rise { IsStrictlyIncreasing (map (λ e. e.number) elements.now) }
    ensures records { IfOk result (λ rs. rs.items ≡ map (λ e. e.state.events) elements.now) }
    ensures are { IfOk result (λ rs. AreRecords rs.items) }
{
    let mut records = Vec::with_capacity(alloc, elements.len())?;
    for element in elements {
        records.push_reserved(element.events());
    }
    Ok(records)
}

/// The events of these records by stamp, and at one stamp by record.
fn merge(alloc: Global, records: Vec<Events<'_>>) -> Result<Merged<'_>, AllocError>
    requires { AreRecords records.items }
    ensures sorted { IfOk result (λ m. IsStrictlySortedBy by_moment m) }
    ensures all { IfOk result (λ m. IsPermutation (flat_map (λ r. r) records.entry.items) m) }
{
    let places = merged_places(alloc, records.as_slice())?;
    Ok(Merged { records, places })
}

/// The places of the events of these records by stamp, and at one stamp by record.
fn merged_places(alloc: Global, records: &[Events<'_>]) -> Result<Vec<Place>, AllocError>
    requires { AreRecords records.now }
    ensures { IfOk result (λ ps. IsMerge records.now ps.items) }
{
    let mut heads = heads(alloc, records)?;
    let mut places = Vec::with_capacity(alloc, room(records))?;
    loop {
        match earliest(heads.as_slice()) {
            Some(index) => {
                let position = heads[index].position;
                let events = &records[index];
                places.push(Place { index, position })?;
                heads[index] = next_head(events, position);
            }
            None => return Ok(places),
        }
    }
}

/// The heads of records of which nothing is merged.
fn heads(alloc: Global, records: &[Events<'_>]) -> Result<Vec<Head>, AllocError>
    ensures { IfOk result (λ hs. hs.items ≡ map (λ r. head_of r 0) records.now) }
{
    records
        .iter()
        .map(|events| head_at(events, 0))
        .collect(alloc)
}

/// How many places the events of these records have: no list is longer than 2^64 - 1.
fn room(records: &[Events<'_>]) -> usize
    ensures { result ≡ min (length (flat_map (λ r. r) records.now)) (2 ^ 64 - 1) }
{
    let mut count: usize = 0;
    for events in records {
        count = count.saturating_add(events.len());
    }
    count
}

/// The head of a record that is merged up to a position.
fn head_at(events: &Events<'_>, position: usize) -> Head
    ensures { result ≡ head_of events.now position }
{
    let mut stamp = None;
    if position < events.len() {
        stamp = Some(events.event(position).stamp);
    }
    Head { position, stamp }
}

/// The head of a record that is merged up to a position and one event more.
fn next_head(events: &Events<'_>, position: usize) -> Head
    requires { position < length events.now }
    ensures { result ≡ head_of events.now (position + 1) }
{
    let within = position < events.len();
    prove!(within);
    head_at(events, position + 1)
}

/// The index of the first head of those with the least stamp, if there is an event left.
fn earliest(heads: &[Head]) -> Option<usize>
    ensures { MatchOption result (AreMerged heads.now) (λ k. (s : ℕ) × IsEarliest heads.now s k) }
{
    let mut first: Option<Candidate> = None;
    for (index, head) in heads.iter().enumerate() {
        first = earlier(first, index, head.stamp);
    }
    match first {
        Some(candidate) => Some(candidate.index),
        None => None,
    }
}

/// The head with the least stamp so far.
#[derive(Clone, Copy)]
struct Candidate {
    index: usize,
    stamp: u64,
}

/// The candidate, or the head of this index, where that has a lower stamp.
fn earlier(first: Option<Candidate>, index: usize, stamp: Option<u64>) -> Option<Candidate>
    ensures { result ≡ earlier_of first index stamp }
{
    match (first, stamp) {
        (Some(candidate), Some(stamp)) if stamp < candidate.stamp => Some(Candidate {
            index,
            stamp,
        }),
        (None, Some(stamp)) => Some(Candidate { index, stamp }),
        _ => first,
    }
}
