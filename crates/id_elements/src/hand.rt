//! Which of its own messages a worker takes next: one of the context at hand, as long as there is one.

ghost use Rattle.std.specs.Prelude.{◌≡◌, ◌<◌, ◌≤◌, length, not, IsTrue};

use id_flight::Queue;
use id_tag::Context;

/// What a worker has at hand: the position at which its last message stood, its context, and whether the one right in
/// front of it may be of the same context.
#[derive(Clone, Copy)]
pub struct Hand {
    position: usize,
    context: Context,
    may_be_in_front: bool,
}

impl Hand {
    /// The hand at a run's start: main's context.
    pub fn new() -> Hand {
        Hand {
            position: 0,
            context: Context {
                element: 0,
                serial: 0,
            },
            may_be_in_front: false,
        }
    }

    /// The position of the message at hand.
    #[inline(always)]
    pub fn position(&self) -> usize
        ensures { result ≡ self.now.position }
    {
        self.position
    }

    /// Whether what comes to stand in the place of the message at hand is next, where it is of the same context.
    #[inline(always)]
    pub fn turns(&self) -> bool
        ensures { result ≡ not self.now.may_be_in_front }
    {
        !self.may_be_in_front
    }

    /// Takes the next message behind what is at hand to hand, if there is any.
    #[inline(always)]
    pub fn turn(&mut self, own: &Queue) -> bool
        ensures { IsTrue result → self.new.position < length own.now.messages }
    {
        let len = own.len();
        if self.position > len {
            return self.turn_to_last(own);
        }
        if self.may_be_in_front && is_in_front(own, self.position, self.context) {
            self.position -= 1;
            return true;
        }
        match own.first_of(self.position, self.context) {
            Some(position) => {
                self.position = position;
                self.may_be_in_front = false;
                true
            }
            None => self.turn_to_last(own),
        }
    }

    /// Takes the last message to hand, if there is one.
    #[inline(always)]
    fn turn_to_last(&mut self, own: &Queue) -> bool
        ensures { IsTrue result → self.new.position < length own.now.messages }
    {
        let len = own.len();
        if len == 0 {
            self.position = 0;
            return false;
        }
        self.position = len - 1;
        self.context = own.context(len - 1);
        self.may_be_in_front = true;
        true
    }
}

/// Whether the message right in front of a position is of this context.
#[inline(never)]
fn is_in_front(own: &Queue, position: usize, context: Context) -> bool
    requires { position ≤ length own.now.messages }
    ensures { IsTrue result → 0 < position }
{
    position > 0 && own.context(position - 1) == context
}
