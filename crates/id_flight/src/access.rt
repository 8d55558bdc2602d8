//! Reads and writes of cells in small numbers.

ghost use Rattle.std.specs.Prelude.{◌≡◌};
ghost use Rattle.id_flight.specs.Accesses.{accessed};

use id_tag::{Cell, Message, Payload, Plain, PlainToken, Sender};

/// A read or a write of a cell that an element sent, whose numbers are small: what most messages to cells are.
#[derive(Clone, Copy)]
pub struct Access {
    /// A token of the tag that the message names, which is else like it.
    pub like: PlainToken,
    pub cell: Cell,
    /// The value that is written, or none where the cell is read.
    pub stored: Option<Plain>,
}

impl Access {
    /// The same as any message. Takes no memory.
    #[inline(always)]
    pub fn message(&self) -> Message
        ensures { result ≡ accessed self.now }
    {
        let cell = self.cell;
        let tag = self.like.tag();
        let payload = match self.stored {
            None => Payload::Read { cell, reply: tag },
            Some(value) => Payload::Write {
                cell,
                value: value.value(),
                origin: tag,
            },
        };
        Message {
            payload,
            sender: Sender::Element(u32::from(self.like.sender)),
            position: self.like.position as usize,
            output: usize::from(self.like.output),
            stamp: u64::from(self.like.stamp),
        }
    }
}
