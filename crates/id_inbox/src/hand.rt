//! What a door has sent and taken, and the rule of an inbox. These types are for the proofs alone.

use crossbeam_queue::protocol::{Join, Lesson, Outcome, Protocol, Split};
use id_flight::Queue;
use id_tag::Message;
use std::collections::LinkedList;

/// What a door has sent and taken, message by message, and its parts of the right to know the whole. No value of it is
/// made.
pub struct Hand {
    pub parts: u64,
    pub sent: LinkedList<Message>,
    pub taken: LinkedList<Message>,
}

/// The rule: what was sent is what was taken and what the letters in the queue hold, each message as often.
pub struct Fair;

impl Protocol<Queue, Hand> for Fair {
    ghost use Rattle.id_inbox.specs.Hands.{IsBalanced, first_hand};

    ghost holds = { IsBalanced };

    ghost first = { first_hand };
}

/// A new door gets one part.
pub struct Cut;

impl Split<Hand> for Cut {
    ghost use Rattle.id_inbox.specs.Hands.{kept_of, new_hand};

    ghost left = { kept_of };

    ghost right = { λ v. new_hand };
}

impl Join<Hand> for Cut {
    ghost use Rattle.id_inbox.specs.Hands.{both_of, spent_hand};

    ghost both = { both_of };

    ghost spent = { spent_hand };
}

/// A push adds to what was sent.
pub struct Sends;

impl Outcome<Queue, Hand> for Sends {
    ghost use Rattle.std.specs.Prelude.{◌≡◌};
    ghost use Rattle.id_inbox.specs.Hands.{sending};

    ghost then = { λ v x w. w ≡ sending v x.messages };
}

/// A pop adds to what was taken. Where it finds none, the one door with all parts has seen the queue empty.
pub struct Takes;

impl Outcome<Queue, Hand> for Takes {
    ghost use Rattle.std.specs.Prelude.{◌≡◌};
    ghost use Rattle.id_inbox.specs.Hands.{taking};

    ghost then = { λ v x w. w ≡ taking v x.messages };
}

impl Lesson<Queue, Hand> for Takes {
    ghost use Rattle.id_inbox.specs.Hands.{KnowsAll};

    ghost fact = { KnowsAll };
}
