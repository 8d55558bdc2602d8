//! Which of the three a message is, and what it comes to.

ghost use Rattle.std.specs.Prelude.{◌≡◌, ◌≤◌, ◌↔◌, IsTrue};
ghost use Rattle.id_valid.specs.Validator.{IsValid};
ghost use Rattle.id_step.specs.declared.step.TakeError.TheVariants.{StampEnd};
ghost use Rattle.id_step.specs.Storage.{Treats, state_of};
ghost use Rattle.id_step.specs.Fits.{Fits};
ghost use Rattle.id_step.specs.Shorts.{came_full};
ghost use Rattle.id_step.specs.Steps.{is_ended};

use crate::cells::{take_read, take_write};
use crate::gate::Gate;
use crate::outcome::next_stamp;
use crate::step::TakeError;
use crate::storage::Storage;
use id_flight::Queue;
use id_instr::Graph;
use id_record::Verdict;
use id_tag::{Message, Payload};

/// Handles a message that fits the graph, and says what it came to: the element step.
#[inline(never)]
pub fn take<G: Gate>(
    storage: &mut Storage<'_>,
    graph: &Graph,
    message: &Message,
    outputs: &mut Queue,
    gate: &G,
) -> Result<Verdict, TakeError>
    requires own { graph.now ≡ storage.old.log.graph }
    requires valid { IsValid graph.now }
    requires counted { storage.old.contexts ≤ storage.old.stamp }
    requires numbered { storage.old.structures ≤ storage.old.stamp }
    requires fits { Fits graph.now message.now }

    ensures treats { Treats storage.old storage.new message.now outputs.old.messages outputs.new.messages
        (came_full message.now.payload result) }
    ensures end { (result ≡ Err StampEnd) ↔ IsTrue (is_ended (state_of storage.old) message.now) }
{
    let stamp = next_stamp(storage.stamp, message.stamp)?;
    match message.payload {
        Payload::Token { .. } => storage.take_token(graph, message, stamp, outputs, gate),
        Payload::Read { .. } => take_read(storage, message, stamp, outputs, gate),
        Payload::Write { .. } => take_write(storage, message, stamp, outputs, gate),
    }
}
