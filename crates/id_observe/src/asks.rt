//! What fetches ask for, as the reads in records show it (docs/MACHINE.md, "Observed").

ghost use Rattle.std.specs.Prelude.{◌≡◌, ◌++◌, [], map, option_map, IfOk, OnOk};
ghost use Rattle.std.specs.List.{cons_option};
ghost use Rattle.id_observe.specs.Observed.{ask_of, asks_of, reader_in};
ghost use Rattle.id_observe.specs.Paths.{events_of, path_by, structure_by};

use crate::records::{Paths, Whole};
use crate::shown::ask_of;
use id_bank::Reader;
use id_record::Events;
use id_source::Ask;
use id_tag::Payload;
use std::alloc::{AllocError, Global};

/// What the fetches ask for whose reads the records show.
pub fn all_asks(alloc: Global, whole: &Whole<'_>) -> Result<Vec<Ask>, AllocError>
    ensures { IfOk result
        (λ v. v.items
        ≡ asks_of whole.now.paths.graph.now (path_by whole.now.paths) (structure_by whole.now.paths)
        (events_of (map (λ e. e.state) whole.now.paths.elements.now))) }
{
    let mut asks = Vec::new(alloc);
    for element in whole.paths.elements {
        add_handled(alloc, &whole.paths, &element.events(), &mut asks)?;
    }
    Ok(asks)
}

/// Adds what the fetches ask for whose reads these events are.
fn add_handled(
    alloc: Global,
    paths: &Paths<'_>,
    events: &Events<'_>,
    asks: &mut Vec<Ask>,
) -> Result<(), AllocError>
    ensures { OnOk result
        (asks.new.items ≡ asks.old.items
        ++ asks_of paths.now.graph.now (path_by paths.now) (structure_by paths.now) events.now) }
{
    for position in 0..events.len() {
        let payload = events.payload(position);
        add_ask(alloc, paths, reader_in(&payload), asks)?;
    }
    Ok(())
}

/// The cell that a message asks for, with its reply.
fn reader_in(payload: &Payload) -> Option<Reader>
    ensures { result ≡ reader_in payload.now }
{
    match *payload {
        Payload::Read { cell, reply } => Some(Reader { cell, reply }),
        Payload::Token { .. } | Payload::Write { .. } => None,
    }
}

/// Adds what the fetch of a reply asks for, if there is one.
fn add_ask(
    alloc: Global,
    paths: &Paths<'_>,
    reader: Option<Reader>,
    asks: &mut Vec<Ask>,
) -> Result<(), AllocError>
    ensures { OnOk result (asks.new.items ≡ asks.old.items
        ++ cons_option
        (option_map (ask_of paths.now.graph.now (path_by paths.now) (structure_by paths.now)) reader) []) }
{
    match reader {
        Some(reader) => {
            asks.push(ask_of(alloc, paths, reader)?)?;
            Ok(())
        }
        None => Ok(()),
    }
}
