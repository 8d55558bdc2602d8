//! Messages in flight, in no order, each of which is found by what it names.

use crate::same::same_message;
use crate::small::tell_small;
use id_instr::Port;
use id_tag::{Message, NearHasher, Payload, Tag, mix};
use indexmap::IndexMap;
use std::alloc::{AllocError, Global};
use std::marker::Model;

/// Messages, and where one that names something was put last. That is a hint: who follows it looks at what stands
/// there.
#[derive(Drop)]
pub struct Pool {
    messages: Vec<Message>,
    places: IndexMap<u64, usize, NearHasher>,
}

impl Model for Pool {
    ghost use Rattle.std.specs.Prelude.{List};
    ghost use Rattle.id_tag.specs.declared.Message.{Message};

    ghost Value = { List Message };

    ghost view = { λ p. p.messages.items };

    ghost use Rattle.id_judge.specs.Lines.{AreSmall};

    ghost invariant = { λ p. AreSmall p.messages.items };
}

impl Pool {
    ghost use Rattle.std.specs.Prelude.{◌≡◌, ◌<◌, ◌++◌, ◌∷◌, [], length, slice_get};
    ghost use Rattle.std.specs.Prelude.{Some, IfNone, IfSome, OnOk, OnErr};
    ghost use Rattle.id_value.specs.List.{Among};
    ghost use Rattle.id_runs.specs.Legal.{InSomeOrder};
    ghost use Rattle.id_tag.specs.declared.Message.{Message};
    ghost use Rattle.id_judge.specs.Lines.{AreSmall};

    /// No message. Takes no memory.
    pub fn new(alloc: Global) -> Pool
        ensures { result ≡ [] }
    {
        Pool {
            messages: Vec::new(alloc),
            places: IndexMap::with_hasher(alloc, NearHasher::new()),
        }
    }

    /// How many messages there are. Takes no memory.
    pub fn len(&self) -> usize
        ensures { result ≡ length self.now }
    {
        self.messages.len()
    }

    /// The message at a position, from 0. Takes no memory.
    pub fn message(&self, position: usize) -> Message
        requires { position < length self.now }
        ensures { slice_get self.now position ≡ Some result }
    {
        self.messages[position]
    }

    /// Adds a message at the end. After an error nothing has changed.
    pub fn add(&mut self, message: Message) -> Result<(), AllocError>
        ensures ok { OnOk result (self.new ≡ self.old ++ message ∷ []) }
        ensures err { OnErr result (self.new ≡ self.old) }
    {
        let place = self.messages.len();
        tell_small(&message.payload);
        self.messages.push(message)?;
        self.note(&message, place);
        Ok(())
    }

    // Notes where a message was put, where there is memory for that.
    fn note(&mut self, message: &Message, place: usize)
        ensures { self.new ≡ self.old }
    {
        let _ = self.places.insert(name_of(&message.payload), place);
    }

    /// Tells that the numbers of each tag are those that a machine has. Does nothing.
    pub fn tell_small(&self)
        ensures { AreSmall self.now }
    {
        self.messages.len();
    }

    /// Where a message of this name was put last, where something stands there. Takes no memory.
    pub fn hinted(&self, name: u64) -> Option<usize>
        ensures { IfSome result (λ k. k < length self.now) }
    {
        match self.places.get(&name) {
            Some(place) if *place < self.messages.len() => Some(*place),
            _ => None,
        }
    }

    /// A position at which this message stands, if there is one. Takes no memory.
    pub fn find(&self, message: &Message) -> Option<usize>
        ensures some { IfSome result (λ k. slice_get self.now k ≡ Some message.now) }
        ensures none { IfNone result (¬ Among message.now self.now) }
    {
        match self.hinted(name_of(&message.payload)) {
            Some(place) => self.find_from(place, message),
            None => self.search(message),
        }
    }

    /// The same, where the message may stand at this place.
    fn find_from(&self, place: usize, message: &Message) -> Option<usize>
        requires { place < length self.now }
        ensures some { IfSome result (λ k. slice_get self.now k ≡ Some message.now) }
        ensures none { IfNone result (¬ Among message.now self.now) }
    {
        let stands = self.message(place);
        if same_message(&stands, message) {
            return Some(place);
        }
        self.search(message)
    }

    /// The first position at which a message stands, found by a look at each.
    fn search(&self, message: &Message) -> Option<usize>
        ensures some { IfSome result (λ k. slice_get self.now k ≡ Some message.now) }
        ensures none { IfNone result (¬ Among message.now self.now) }
    {
        for position in 0..self.len() {
            let stands = self.message(position);
            if same_message(&stands, message) {
                return Some(position);
            }
        }
        None
    }

    /// Takes out the message at a position: the last one stands there then.
    pub fn take(&mut self, position: usize)
        requires { position < length self.old }
        ensures { (m : Message) → slice_get self.old position ≡ Some m → InSomeOrder self.old (m ∷ self.new) }
    {
        let taken = self.messages.swap_remove(position);
        self.places.swap_remove(&name_of(&taken.payload));
        if position < self.messages.len() {
            let moved = self.messages[position];
            self.note(&moved, position);
        }
    }
}

/// What a message names, in one number: the port of a tag, the tag of a read's reply or of a write's store.
pub fn name_of(payload: &Payload) -> u64 {
    match *payload {
        Payload::Token { tag, port, .. } => match port {
            Port::Zero => name(tag, 0),
            Port::One => name(tag, 1),
        },
        Payload::Read { reply, .. } => name(reply, 2),
        Payload::Write { origin, .. } => name(origin, 3),
    }
}

/// A tag and what is to happen there, in one number.
fn name(tag: Tag, what: u64) -> u64 {
    name_by([
        u64::from(tag.context.element),
        tag.context.serial,
        tag.iteration,
        u64::from(tag.instr),
        what,
    ])
}

/// The numbers of a tag and what is to happen there, in one number.
pub fn name_by(numbers: [u64; 5]) -> u64 {
    let context = mix(mix(0, numbers[0]), numbers[1]);
    let turn = mix(context, numbers[2]);
    mix(mix(turn, numbers[3]), numbers[4])
}
