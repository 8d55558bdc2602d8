//! The frames of the store: the contexts and iterations in which something waits.
//!
//! They are counted when they are asked for: a value counts where nothing waits in its frame at a smaller instruction.

ghost use Rattle.std.specs.Prelude.{◌≡◌, ◌≤◌, ◌<◌, ◌*◌, ◌^◌, length};
ghost use Rattle.std.specs.FinMap.{contains_key};
ghost use Rattle.std.specs.List.{count_by};
ghost use Rattle.std.specs.Map.{keys_of};
ghost use Rattle.id_match.specs.Front.{front_entries};
ghost use Rattle.id_match.specs.Frames.{is_first, is_first_in};
ghost use Rattle.id_match.specs.Rear.{frame_entries, rear_entries};
ghost use Rattle.id_match.specs.Waiting.{frames_of};

use crate::Waiting;
use crate::front::{Pair, Slot, has};
use crate::rear::{Frame, Name};
use id_tag::{NearHasher, Tag};
use slab::Slab;
use std::collections::HashMap;

impl Waiting {
    /// How many frames there are: different contexts and iterations among what waits. They are counted when it is
    /// called, in a look at each pair of slots and each value behind, and for each frame as many look-ups as the number
    /// of the greatest instruction that waits in it. Takes no memory.
    pub fn frames(&self) -> usize
        ensures frames { result ≡ frames_of self.now }
    {
        let rear = &self.rear;
        self.firsts_in_front(&self.front) + self.firsts_behind(&rear.keys, &rear.frames)
    }

    // How many of the values in the slots are the first of their frame.
    fn firsts_in_front(&self, front: &[Pair]) -> usize
        ensures exact { result ≡ count_by (is_first self.now) (keys_of (front_entries front.now)) }
        ensures most { result ≤ 2 * length front.now }
    {
        let mut firsts = 0;
        for i in 0..front.len() {
            firsts += usize::from(self.is_first_in(&front[i].first));
            firsts += usize::from(self.is_first_in(&front[i].second));
        }
        firsts
    }

    // How many of the values in the rear's frames are the first of their frame.
    fn firsts_behind(&self, keys: &HashMap<Name, usize, NearHasher>, frames: &Slab<Frame>) -> usize
        requires { length (rear_entries keys.now.entries frames.now) < 2 ^ 63 }
        ensures exact { result ≡ count_by (is_first self.now) (keys_of (rear_entries keys.now.entries frames.now)) }
        ensures most { result < 2 ^ 63 }
    {
        let mut firsts = 0;
        for (name, key) in keys {
            if let Some(frame) = frames.get(*key) {
                firsts += self.firsts_within(*name, frame);
            }
        }
        firsts
    }

    // How many of the values in a frame of the rear are the first of their frame in the store.
    fn firsts_within(&self, name: Name, frame: &Frame) -> usize
        ensures { result ≡ count_by (is_first self.now) (keys_of (frame_entries name frame.now.halves.items)) }
    {
        let mut firsts = 0;
        for i in 0..frame.halves.len() {
            firsts += usize::from(self.is_first(name.tag(frame.halves[i].0)));
        }
        firsts
    }

    // Whether the slot keeps a value that is the first of its frame.
    fn is_first_in(&self, slot: &Slot) -> bool
        ensures { result ≡ is_first_in self.now slot.now }
    {
        !slot.is_empty() && self.is_first(slot.tag())
    }

    // Whether nothing waits in the frame of a tag at a smaller instruction. It looks at the greater ones first, and no
    // further than the next at which something waits, so that no instruction is looked at for two values of a frame.
    fn is_first(&self, tag: Tag) -> bool
        ensures { result ≡ is_first self.now tag }
    {
        for instr in (0..tag.instr).rev() {
            if self.is_waiting(Tag { instr, ..tag }) {
                return false;
            }
        }
        true
    }

    // Whether something waits under a tag.
    fn is_waiting(&self, tag: Tag) -> bool
        ensures { result ≡ contains_key self.now tag }
    {
        has(&self.front, tag) || self.rear.has(tag)
    }
}
