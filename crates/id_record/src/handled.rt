//! A message that was handled, and what came of it.

ghost use Rattle.std.specs.Prelude.{◌≡◌};
ghost use Rattle.id_record.specs.Handlings.{handled, went};

use crate::step::Verdict;
use id_ops::Fired;
use id_tag::Message;

/// What comes of a message: what is fired, and what the event comes to.
#[derive(Clone, Copy)]
pub struct Reaction {
    pub fired: Fired,
    pub verdict: Verdict,
}

/// Where the replies to which an event sent its value stand among those of all events of its record: so many, from this
/// one on.
#[derive(Clone, Copy)]
pub struct Replies {
    pub from: usize,
    pub count: usize,
}

/// No replies.
pub const NO_REPLIES: Replies = Replies { from: 0, count: 0 };

/// A message that was handled, the stamp of that event, what came of it, and the replies to which it sent its value.
#[derive(Clone, Copy)]
pub struct Handled {
    pub message: Message,
    pub stamp: u64,
    pub reaction: Reaction,
    pub replies: Replies,
}

/// A message that is being handled, with what `Handled` keeps of it. It is too large to be passed around by value.
#[derive(Clone, Copy)]
pub struct Handling<'a> {
    pub message: &'a Message,
    pub stamp: u64,
    pub reaction: &'a Reaction,
    pub replies: Replies,
}

/// What a record keeps of a message that is being handled. Takes no memory.
#[inline(always)]
pub fn whole(event: &Handling<'_>) -> Handled
    ensures { result ≡ handled event.now }
{
    Handled {
        message: *event.message,
        stamp: event.stamp,
        reaction: *event.reaction,
        replies: event.replies,
    }
}

/// The reaction of an event that fired this and went well. Takes no memory.
#[inline(always)]
pub fn went(fired: Fired) -> Reaction
    ensures { result ≡ went fired }
{
    Reaction {
        fired,
        verdict: Verdict::Went,
    }
}
