//! One line of a trace: the event of it follows, or why none can.

ghost use Rattle.std.specs.Prelude.{◌≡◌, ◌<◌, ◌+◌, ◌-◌, ◌^◌, ◌==◌};
ghost use Rattle.std.specs.Prelude.{◌||◌};
ghost use Rattle.std.specs.Prelude.{ℕ, false, max};
ghost use Rattle.std.specs.Prelude.{IfErr, IfOk, Some, length, set, slice_get, replicate};
ghost use Rattle.id_judge.specs.Benches.{world_in};
ghost use Rattle.id_judge.specs.Lines.{Advances, AreStamps, Compares, IsLineCause, IsOther};

use crate::bench::{Bench, deliver};
use crate::line::{Line, begins_number, behind, past};
use crate::said::find_said;
use crate::verdict::Cause;
use id_core::{Count, Step, TakeError};
use id_tag::route;
use id_trace::end_bytes;
use std::alloc::{AllocError, Global};

/// The last stamps of so many elements at the start.
pub fn first_stamps(alloc: Global, count: Count) -> Result<Vec<u64>, AllocError>
    ensures { IfOk result (λ v. v.items ≡ replicate count.number 0) }
{
    let mut stamps = Vec::with_capacity(alloc, count.number as usize)?;
    for number in 0..count.number {
        stamps.push_reserved(0);
    }
    Ok(stamps)
}

/// Lets the event of the first line of a text follow, and answers what stands behind that line; or says why no event of
/// it can follow.
pub fn follow_line<'t>(
    bench: &mut Bench<'_>,
    stamps: &mut Vec<u64>,
    line: &mut Line,
    text: &'t [u8],
) -> Result<Result<&'t [u8], Cause>, AllocError>
    requires { AreStamps stamps.old.items (world_in bench.old) }
    ensures follows { IfOk result (λ r. IfOk r (λ tail. Advances bench.old text.now tail.now bench.new)) }
    ensures stamps { IfOk result (λ r. IfOk r (λ tail. AreStamps stamps.new.items (world_in bench.new))) }
    ensures cause { IfOk result (λ r. IfErr r
        (IsLineCause bench.old.graph (length bench.old.elements) (world_in bench.old) text.now)) }
{
    let second = behind(text);
    let body = behind(second);
    let Some(said) = find_said(&bench.flight, body, line)? else {
        return Ok(Err(Cause::NotInFlight));
    };
    let number = route(&said.message, bench.elements.len() as u32);
    if !begins_number(second, u64::from(number)) {
        return Ok(Err(Cause::OtherElement));
    }
    match deliver(bench, said.position, &said.message) {
        Ok(step) => {
            let stamp = advance(stamps, number as usize, said.message.stamp);
            Ok(compare(text, said.past, stamp, step))
        }
        Err(TakeError::StampEnd) => Ok(Err(Cause::NoStamp)),
        Err(TakeError::Memory) => Err(AllocError),
    }
}

/// Gives an element its next stamp, that of the event of a message with this one.
fn advance(stamps: &mut Vec<u64>, number: usize, stamp: u64) -> u64
    requires there { number < length stamps.old.items }
    requires left { (s : ℕ) → slice_get stamps.old.items number ≡ Some s
        → ((s == 2 ^ 64 - 1) || (stamp == 2 ^ 64 - 1)) ≡ false }
    ensures next { (s : ℕ) → slice_get stamps.old.items number ≡ Some s → result ≡ max s stamp + 1 }
    ensures stamps { stamps.new.items ≡ set stamps.old.items number result }
{
    let last = stamps[number];
    let next = if last < stamp { stamp + 1 } else { last + 1 };
    stamps[number] = next;
    next
}

/// What stands behind the line, where the text begins with this stamp and the end of the line is that of what came.
fn compare<'t>(
    text: &[u8],
    past_message: &'t [u8],
    stamp: u64,
    step: Step,
) -> Result<&'t [u8], Cause>
    ensures same { IfOk result (λ tail. Compares text.now past_message.now stamp step tail.now) }
    ensures other { IfErr result (IsOther text.now past_message.now stamp step) }
{
    if !begins_number(text, stamp) {
        return Err(Cause::OtherStamp);
    }
    match past(past_message, end_bytes(step)) {
        Some(tail) => Ok(tail),
        None => Err(Cause::OtherOutcome),
    }
}
