//! What is near: tokens that come next, in place of those of a list.

ghost use Rattle.std.specs.Prelude.{◌≡◌, ◌≤◌, ◌+◌, ◌++◌, length, map};
ghost use Rattle.id_tag.specs.Plains.{message_of};

use id_flight::Queue;
use id_tag::PlainToken;
use std::alloc::{AllocError, Global};
use std::marker::Model;

/// Plain tokens that come next, the last one first: they are for the element as what was handled was, so nobody routes
/// them, and they are neither packed nor looked for.
#[derive(Drop)]
pub struct Near {
    tokens: Vec<PlainToken>,
}

impl Model for Near {
    ghost use Rattle.std.specs.Prelude.{◌-◌, map, vec_capacity, vec_len};
    ghost use Rattle.id_tag.specs.Plains.{message_of};
    ghost use Rattle.id_flight.specs.Queues.{QueueView};

    ghost Value = { QueueView };

    ghost view = { λ n. record {
      messages = map message_of n.tokens.items;
      room = vec_capacity n.tokens - vec_len n.tokens;
    } };
}

impl Near {
    ghost use Rattle.std.specs.Prelude.{◌≡◌, ◌<◌, ◌≤◌, ◌+◌, ◌^◌, ◌++◌, ◌∷◌, []};
    ghost use Rattle.std.specs.Prelude.{IsTrue, OnOk, false, length};
    ghost use Rattle.id_tag.specs.Plains.{message_of};

    /// None. Takes no memory.
    pub fn new(alloc: Global) -> Near
        ensures { result.messages ≡ [] }
    {
        Near {
            tokens: Vec::new(alloc),
        }
    }

    /// How many there are. Takes no memory.
    #[inline(always)]
    pub fn len(&self) -> usize
        ensures len { result ≡ length self.now.messages }
        ensures bound { result < 2 ^ 63 }
    {
        self.tokens.len()
    }

    /// For how many more there is room. Takes no memory.
    #[inline(always)]
    pub fn room(&self) -> usize
        ensures { result ≡ self.now.room }
    {
        self.tokens.capacity() - self.tokens.len()
    }

    /// Makes room for so many more.
    #[inline(always)]
    pub fn reserve(&mut self, more: usize) -> Result<(), AllocError>
        ensures messages { self.new.messages ≡ self.old.messages }
        ensures room { OnOk result (more ≤ self.new.room) }
    {
        if self.room() < more {
            self.tokens.reserve(more)?;
        }
        Ok(())
    }

    /// Adds a token, for which there is room. Takes no memory.
    #[inline(always)]
    pub fn push_reserved(&mut self, token: &PlainToken)
        requires { 0 < self.old.room }
        ensures messages { self.new.messages ≡ self.old.messages ++ message_of token.now ∷ [] }
        ensures room { self.old.room ≡ self.new.room + 1 }
    {
        self.tokens.push_reserved(*token);
    }

    /// Puts the last one in the place of a token, if there is one, and says whether. Takes no memory.
    #[inline(always)]
    pub fn take_last(&mut self, token: &mut PlainToken) -> bool
        ensures some { IsTrue result → self.old.messages ≡ self.new.messages ++ message_of token.new ∷ [] }
        ensures none { result ≡ false → self.old.messages ≡ [] }
        ensures empty { result ≡ false → self.new.messages ≡ [] }
        ensures same { result ≡ false → token.new ≡ token.old }
        ensures len { length self.new.messages ≤ length self.old.messages }
    {
        match self.tokens.pop() {
            Some(last) => {
                *token = last;
                true
            }
            None => false,
        }
    }

    /// Moves all to the end of a list, in order, in which there is room for them. Takes no memory.
    pub fn give_back(&mut self, list: &mut Queue)
        requires { length self.old.messages ≤ list.old.room }
        ensures empty { self.new.messages ≡ [] }
        ensures messages { list.new.messages ≡ list.old.messages ++ self.old.messages }
        ensures room { list.old.room ≤ list.new.room + length self.old.messages }
    {
        push_all(self.tokens.as_slice(), list);
        self.tokens.clear();
    }
}

/// Adds tokens at the end of a list, in order, in which there is room for them. Takes no memory.
fn push_all(tokens: &[PlainToken], list: &mut Queue)
    requires { length tokens.now ≤ list.old.room }
    ensures messages { list.new.messages ≡ list.old.messages ++ map message_of tokens.now }
    ensures room { list.old.room ≤ list.new.room + length tokens.now }
{
    for token in tokens {
        list.push_plain_reserved(token);
    }
}
