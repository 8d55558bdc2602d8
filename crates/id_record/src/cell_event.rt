//! Events of reads and writes of cells in small numbers.

ghost use Rattle.std.specs.Prelude.{◌≡◌};
ghost use Rattle.id_record.specs.CellEvents.{cell_content, cell_event};

use crate::handled::{Handled, NO_REPLIES, Replies, went};
use id_ops::Fired;
use id_tag::{Cell, Message, Payload, Plain, PlainToken, Sender, Tag};

/// A read or a write of a cell that is being handled, the stamp of that event, and what became of it.
#[derive(Clone, Copy)]
pub struct CellEvent<'a> {
    /// A token of the tag that the message names, which is else like it.
    pub token: &'a PlainToken,
    pub stamp: u32,
    pub cell: Cell,
    pub answer: CellAnswer,
}

/// What became of a read or a write of a cell.
#[derive(Clone, Copy)]
pub enum CellAnswer {
    /// The read waits for the cell's value.
    Deferred,
    /// The read's reply gets this value.
    Answered(Plain),
    /// The value was written, and these replies get it.
    Filled(Plain, Replies),
}

/// What an event says: its message, what was fired, and the replies to which it sent its value.
#[derive(Clone, Copy)]
struct Content {
    payload: Payload,
    fired: Fired,
    replies: Replies,
}

/// What a record keeps of the event. Takes no memory.
#[inline(always)]
pub fn cell_handled(event: &CellEvent<'_>) -> Handled
    ensures { result ≡ cell_event event.now }
{
    let token = event.token;
    let content = content_of(event.answer, event.cell, token.tag());
    Handled {
        message: Message {
            payload: content.payload,
            sender: Sender::Element(u32::from(token.sender)),
            position: token.position as usize,
            output: usize::from(token.output),
            stamp: u64::from(token.stamp),
        },
        stamp: u64::from(event.stamp),
        reaction: went(content.fired),
        replies: content.replies,
    }
}

/// What the event of this answer says, with the cell and the tag that the message names.
#[inline(always)]
fn content_of(answer: CellAnswer, cell: Cell, tag: Tag) -> Content
    ensures { result ≡ cell_content answer cell tag }
{
    match answer {
        CellAnswer::Deferred => Content {
            payload: Payload::Read { cell, reply: tag },
            fired: Fired::Nothing,
            replies: NO_REPLIES,
        },
        CellAnswer::Answered(value) => Content {
            payload: Payload::Read { cell, reply: tag },
            fired: Fired::Sent(tag, value.value()),
            replies: NO_REPLIES,
        },
        CellAnswer::Filled(value, replies) => Content {
            payload: Payload::Write {
                cell,
                value: value.value(),
                origin: tag,
            },
            fired: Fired::Nothing,
            replies,
        },
    }
}
