//! Events as someone gives them.

ghost use Rattle.std.specs.Prelude.{◌≡◌, ◌<◌, ◌↔◌, IsTrue, Some, length, slice_get};
ghost use Rattle.id_judge.specs.Verdicts.{told};

use crate::same::{same_fired, same_message, same_step};
use id_core::{Event, Outputs, Step};
use id_ops::Fired;
use id_tag::Message;
use std::marker::Model;

/// An event as someone gives it: which element handled which message at which stamp, what it fired and sent, and what
/// it came to.
#[derive(Drop)]
pub struct Given {
    pub element: u32,
    pub stamp: u64,
    pub message: Message,
    pub fired: Fired,
    pub outputs: Vec<Message>,
    pub step: Step,
}

impl Model for Given {
    ghost use Rattle.id_record.specs.Events.{EventView};
    ghost use Rattle.id_step.specs.Codes.{coded_event};

    ghost Value = { EventView };

    ghost coded = { coded_event };

    ghost view = { λ g. record {
      element = g.element;
      stamp = g.stamp;
      message = g.message;
      fired = g.fired;
      outputs = g.outputs.items;
      step = g.step;
    } };
}

/// Whether an event is the one that is given.
pub fn is_given(event: &Event<'_>, given: &Given) -> bool
    ensures { IsTrue result ↔ (told event.now ≡ given.now) }
{
    if event.element != given.element {
        return false;
    }
    if event.stamp != given.stamp {
        return false;
    }
    if !same_message(&event.message, &given.message) {
        return false;
    }
    if !same_fired(event.fired, given.fired) {
        return false;
    }
    if !same_step(event.step, given.step) {
        return false;
    }
    are_sent(&event.outputs, given.outputs.as_slice())
}

/// Whether these messages were sent.
fn are_sent(outputs: &Outputs<'_>, messages: &[Message]) -> bool
    ensures { IsTrue result ↔ (outputs.now ≡ messages.now) }
{
    if outputs.len() != messages.len() {
        return false;
    }
    for number in 0..messages.len() {
        let sent = outputs.message(number);
        let wanted = message_at(messages, number);
        if !same_message(&sent, &wanted) {
            return false;
        }
    }
    true
}

fn message_at(messages: &[Message], number: usize) -> Message
    requires { number < length messages.now }
    ensures { slice_get messages.now number ≡ Some result }
{
    messages[number]
}
