//! A door to an inbox: the inbox, with a pass of it.

ghost use Rattle.std.specs.Prelude.{◌≡◌};

use crate::hand::{Cut, Fair, Hand, Sends, Takes};
use crossbeam_queue::{RuledSegQueue, SegPass};
use id_flight::Queue;
use std::alloc::{AllocError, Global};
use std::marker::Model;
use std::sync::{Arc, Wait};

type Line = RuledSegQueue<Queue, Hand, Fair>;

// An inbox, which several doors own.
struct Inbox {
    line: Line,
}

impl Drop for Inbox {
    fn drop(self) {
        let Inbox { line } = self;
        line.destroy();
    }
}

/// A door to an inbox, by which one thread uses it.
#[derive(Drop)]
pub struct Door {
    inbox: Arc<Inbox>,
    pass: SegPass<Queue, Hand>,
}

impl Model for Door {
    ghost use Rattle.std.specs.Arc.{arc_value};
    ghost use Rattle.id_inbox.specs.Doors.{DoorView, seen_at};
    ghost use Rattle.crossbeam_queue.specs.SegTies.{IsSegPassOf};

    ghost Value = { DoorView };

    ghost view = { λ d. record {
      queue = (arc_value d.inbox).line;
      hand = d.pass.me.view.client;
      saw = seen_at d.pass.me.view.stage d.pass.me.view.at;
    } };

    ghost invariant = { λ d. IsSegPassOf (arc_value d.inbox).line d.pass };
}

impl Door {
    ghost use Rattle.std.specs.Prelude.{◌≡◌, ◌<◌, [], IfOk, OnErr, MatchOption, MatchResult};
    ghost use Rattle.id_inbox.specs.Doors.{WantsMore};
    ghost use Rattle.id_inbox.specs.Hands.{KnowsAll, both_of, first_hand, kept_of, new_hand, sending, taking};

    /// The first door to a new inbox.
    pub fn open(alloc: Global) -> Result<Door, AllocError>
        ensures { IfOk result (λ d. d.hand ≡ first_hand) }
    {
        let (line, pass) = Line::with_rule(alloc)?;
        let inbox = Arc::new(alloc, Inbox { line })?;
        Ok(Door { inbox, pass })
    }

    /// Sends the messages of a letter, all at once. The letter comes back where there is no memory for a block of the
    /// queue, or its places are used up: it has seen that another block is wanted, or that no place is left, and nothing
    /// else has changed.
    pub fn push<R: Wait>(&mut self, rt: &R, letter: Queue) -> Result<(), Queue>
        requires { 0 < self.old.hand.parts }
        ensures { MatchResult result
            (λ _. self.new ≡ record self.old { hand = sending self.old.hand letter.messages; saw = self.new.saw })
            (λ back. (back ≡ letter) × (self.new ≡ record self.old { saw = self.new.saw }) × WantsMore self.new.saw) }
    {
        let line = &self.inbox.line;
        line.push_as::<Sends, R>(rt, &mut self.pass, letter)
    }

    /// Takes the letter that was sent first, if the inbox was found to have one. Where it was not, and the door has all
    /// parts, what it has sent is what it has taken. Takes no memory.
    pub fn pop<R: Wait>(&mut self, rt: &R) -> Option<Queue>
        requires { 0 < self.old.hand.parts }
        ensures { MatchOption result
            ((self.new ≡ record self.old { saw = self.new.saw }) × KnowsAll self.old.hand [])
            (λ letter. self.new ≡ record self.old { hand = taking self.old.hand letter.messages; saw = self.new.saw }) }
    {
        self.inbox.line.pop_as::<Takes, R>(rt, &mut self.pass)
    }

    /// Another door to the same inbox, for another thread, with one of the parts. After an error nothing has changed.
    pub fn split(&mut self) -> Result<Door, AllocError>
        requires { 1 < self.old.hand.parts }
        ensures new { IfOk result (λ d. d ≡ record { queue = self.old.queue; hand = new_hand; saw = d.saw }) }
        ensures old { IfOk result
            (λ d. self.new ≡ record self.old { hand = kept_of self.old.hand; saw = self.new.saw }) }
        ensures err { OnErr result (self.new ≡ self.old) }
    {
        let inbox = Arc::try_clone(&self.inbox)?;
        let pass = self.inbox.line.another::<Cut>(&mut self.pass);
        Ok(Door { inbox, pass })
    }

    /// Takes in another door to the same inbox, with its parts, and with what it has sent and taken. Takes no memory.
    pub fn absorb(&mut self, other: Door)
        requires { other.queue ≡ self.old.queue }
        ensures { self.new ≡ record self.old { hand = both_of self.old.hand other.hand; saw = self.new.saw } }
    {
        let Door { inbox: _, pass } = other;
        self.inbox.line.absorb::<Cut>(&mut self.pass, pass);
    }
}
