//! Messages in flight that a text says.

ghost use Rattle.std.specs.Prelude.{◌≡◌, ◌<◌, IfNone, IfOk, IfSome, List, ℕ, Some, length, slice_get};
ghost use Rattle.id_tag.specs.declared.Message.{Message};
ghost use Rattle.id_value.specs.List.{Among};
ghost use Rattle.id_judge.specs.Lines.{IsFound, IsSaid};

use crate::hint::name_said;
use crate::line::{Line, said};
use crate::pool::Pool;
use id_tag::Message;
use std::alloc::AllocError;

/// A message in flight that a text says: its position, and what stands behind what it says.
#[derive(Drop)]
pub struct Found<'t> {
    pub position: usize,
    pub message: Message,
    pub past: &'t [u8],
}

/// A message in flight that a text says, if there is one.
pub fn find_said<'t>(
    flight: &Pool,
    body: &'t [u8],
    line: &mut Line,
) -> Result<Option<Found<'t>>, AllocError>
    ensures some { IfOk result (λ o. IfSome o (λ s. IsFound flight.now body.now s.position s.message s.past.now)) }
    ensures none { IfOk result (λ o. IfNone o ((m : Message) (past : List ℕ) → Among m flight.now
        → IsSaid body.now m past → ⊥)) }
{
    if let Some(place) = flight.hinted(name_said(body)) {
        if let Some(found) = said_at(flight, place, body, line)? {
            return Ok(Some(found));
        }
    }
    search_said(flight, body, line)
}

/// The first message in flight that a text says, found by a look at each.
fn search_said<'t>(
    flight: &Pool,
    body: &'t [u8],
    line: &mut Line,
) -> Result<Option<Found<'t>>, AllocError>
    ensures some { IfOk result (λ o. IfSome o (λ s. IsFound flight.now body.now s.position s.message s.past.now)) }
    ensures none { IfOk result (λ o. IfNone o ((m : Message) (past : List ℕ) → Among m flight.now
        → IsSaid body.now m past → ⊥)) }
{
    for position in 0..flight.len() {
        if let Some(found) = said_at(flight, position, body, line)? {
            return Ok(Some(found));
        }
    }
    Ok(None)
}

/// The message at a position, if a text says it.
fn said_at<'t>(
    flight: &Pool,
    position: usize,
    body: &'t [u8],
    line: &mut Line,
) -> Result<Option<Found<'t>>, AllocError>
    requires { position < length flight.now }
    ensures some { IfOk result (λ o. IfSome o (λ s. IsFound flight.now body.now s.position s.message s.past.now)) }
    ensures none { IfOk result (λ o. IfNone o ((m : Message) (past : List ℕ)
        → slice_get flight.now position ≡ Some m → IsSaid body.now m past → ⊥)) }
{
    let message = flight.message(position);
    match said(body, &message, line)? {
        Some(past) => Ok(Some(Found {
            position,
            message,
            past,
        })),
        None => Ok(None),
    }
}
