//! The numbers of tags, which have at most 64 bits.

ghost use Rattle.std.specs.Prelude.{◌<◌, ◌^◌};
ghost use Rattle.id_record.specs.Events.{tag_of};
ghost use Rattle.id_judge.specs.Lines.{IsSmall};

use id_tag::{Payload, Tag};

/// Tells of what a message says that the numbers of its tag are those that a machine has. Does nothing.
pub fn tell_small(payload: &Payload)
    ensures { IsSmall (tag_of payload.now) }
{
    match *payload {
        Payload::Token { tag, .. } => small_tag(tag),
        Payload::Read { reply, .. } => small_tag(reply),
        Payload::Write { origin, .. } => small_tag(origin),
    }
}

fn small_tag(tag: Tag)
    ensures { IsSmall tag }
{
    let element = tag.context.element;
    let serial = tag.context.serial;
    small_numbers(element, serial, tag.iteration, tag.instr);
}

fn small_numbers(element: u32, serial: u64, iteration: u64, instr: u32)
    ensures element { element < 2 ^ 64 }
    ensures serial { serial < 2 ^ 64 }
    ensures iteration { iteration < 2 ^ 64 }
    ensures instr { instr < 2 ^ 64 }
{}
