//! A worker: an element, a door to each inbox, and the messages that are at hand.

ghost use Rattle.std.specs.Prelude.{◌≡◌, [], map, replicate, IfOk};

use crate::goals::near_of;
use crate::hand::Hand;
use crate::home::Home;
use crate::passing::{send_on, sort};
use crate::shared::Shared;
use id_core::Keeps;
use id_flight::Queue;
use id_inbox::Door;
use id_step::{Element, Gate, TakeError};
use id_valid::Valid;
use std::alloc::{AllocError, Global};
use std::marker::Model;
use std::mem;
use std::sync::Wait;

/// So many messages a worker handles before it looks into its inbox and whether it is to stop, and so many letters it
/// takes out at a time.
const BURST: u32 = 64;

/// A letter of so many messages is sent at once.
const FULL: usize = 64;

/// After so many bursts all letters are sent, however few messages they have.
const BURSTS: u32 = 16;

/// A worker keeps so many lists without messages for its next letters.
const SPARES: usize = 16;

/// What works one element.
#[derive(Drop)]
pub struct Worker<'a> {
    alloc: Global,
    // The element's number, and how many elements there are.
    home: Home,
    // Whether it may handle more: each event went well, and memory sufficed.
    goes: bool,
    doors: Vec<Door>,
    element: Element<'a>,
    // What is for the element, in order.
    own: Queue,
    // What is left of the letter that came last.
    came: Queue,
    // What is moved from the end of its own and back.
    back: Queue,
    // What came and is not for the element, or does not fit.
    stray: Queue,
    // What is to be sent to each element.
    letters: Vec<Queue>,
    // Lists without messages, which have their memory still.
    spare: Vec<Queue>,
    // What each other worker told of its hunger when it was last sent a letter for that.
    fed: Vec<u64>,
    // How many letters it has sent.
    sent: u64,
}

impl<'a> Model for Worker<'a> {
    ghost use Rattle.std.specs.Prelude.{◌≡◌, map};
    ghost use Rattle.id_elements.specs.Codes.{coded_worker};
    ghost use Rattle.id_elements.specs.Workers.{WorkerView, IsKept};

    ghost Value = { WorkerView };

    ghost coded = { coded_worker };

    ghost view = { λ w. record {
      goes = w.goes;
      doors = w.doors.items;
      element = w.element;
      own = w.own.messages;
      came = w.came.messages;
      back = w.back.messages;
      stray = w.stray.messages;
      letters = map (λ q. q.messages) w.letters.items;
    } };

    ghost invariant = { λ w. IsKept (record {
      goes = w.goes;
      doors = w.doors.items;
      element = w.element;
      own = w.own.messages;
      came = w.came.messages;
      back = w.back.messages;
      stray = w.stray.messages;
      letters = map (λ q. q.messages) w.letters.items;
    }) × (w.home.number ≡ w.element.number) × (w.home.count.number ≡ w.element.count) };
}

/// What a worker leaves that has stopped.
#[derive(Drop)]
pub struct Left<'a> {
    /// Its doors.
    pub doors: Vec<Door>,
    /// Its element.
    pub element: Element<'a>,
    /// What is for the element.
    pub own: Queue,
    /// What is left of the letter that came last.
    pub came: Queue,
    /// What was moved from the end of its own and not moved back.
    pub back: Queue,
    /// What came and is not for the element.
    pub stray: Queue,
    /// What is to be sent to each element.
    pub letters: Vec<Queue>,
}

/// What a worker does next.
#[derive(Clone, Copy, PartialEq, Eq)]
enum Turn {
    /// It goes on.
    Goes,
    /// It can handle nothing more of its own.
    Empty,
    /// It stops.
    Stops,
}

impl<'a> Worker<'a> {
    ghost use Rattle.std.specs.Prelude.{◌≡◌, ◌<◌, ◌≤◌, ◌+◌, [], length, map, vec_len, IfOk, IfSome};
    ghost use Rattle.std.specs.Prelude.{IsTrue, Ok, OnOk, true};
    ghost use Rattle.id_elements.specs.Doors.{AreUnused, HaveParts};
    ghost use Rattle.id_elements.specs.Workers.{IsKept, IsSame, IsSameWithin, fresh_worker};
    ghost use Rattle.id_elements.specs.declared.worker.Turn.TheVariants.{Goes};

    /// The worker of this element, with a door to each inbox. The element has handled nothing and keeps so much of its
    /// events.
    pub fn new(
        alloc: Global,
        home: Home,
        doors: Vec<Door>,
        graph: &'a Valid,
        keeps: Keeps,
    ) -> Result<Worker<'a>, AllocError>
        requires count { vec_len doors ≡ home.count.number }
        requires parts { HaveParts 1 doors.items }
        requires unused { AreUnused doors.items }
        ensures { IfOk result (λ w. w ≡ fresh_worker graph.now home.count.number keeps home.number doors.items) }
    {
        let count = home.count.number;
        let letters = no_letters(alloc, count)?;
        let spare = Vec::with_capacity(alloc, SPARES)?;
        let fed = vec![in alloc; 0u64; doors.len()]?;
        Ok(Worker {
            alloc,
            home,
            goes: true,
            doors,
            element: Element::keeping(alloc, home.number, count, graph, keeps),
            own: Queue::new(alloc),
            came: Queue::new(alloc),
            back: Queue::new(alloc),
            stray: Queue::new(alloc),
            letters,
            spare,
            fed,
            sent: 0,
        })
    }

    /// What it leaves, once it has stopped.
    pub fn into_parts(self) -> Left<'a>
        ensures doors { result.doors.items ≡ self.entry.doors }
        ensures element { result.element ≡ self.entry.element }
        ensures own { result.own.messages ≡ self.entry.own }
        ensures came { result.came.messages ≡ self.entry.came }
        ensures back { result.back.messages ≡ self.entry.back }
        ensures stray { result.stray.messages ≡ self.entry.stray }
        ensures letters { map (λ q. q.messages) result.letters.items ≡ self.entry.letters }
        ensures kept { IsKept self.entry }
    {
        let Worker {
            alloc: _,
            home: _,
            goes: _,
            doors,
            element,
            own,
            came,
            back,
            stray,
            letters,
            spare: _,
            fed: _,
            sent: _,
        } = self;
        Left {
            doors,
            element,
            own,
            came,
            back,
            stray,
            letters,
        }
    }

    /// How many messages its element has handled.
    #[inline(always)]
    fn handled(&self) -> u64
        ensures { result ≡ length self.now.element.state.events }
    {
        self.element.handled() as u64
    }

    /// Takes a letter out of its inbox, if it is found to have one, and says whether it was. What is left of the last
    /// one comes first.
    fn receive<R: Wait>(&mut self, rt: &R) -> Result<bool, AllocError>
        ensures same { IsSame self.old self.new }
        ensures state { self.new.element ≡ self.old.element }
        ensures goes { self.new.goes ≡ self.old.goes }
    {
        self.sort_letter()?;
        match self.doors[self.home.number as usize].pop(rt) {
            Some(letter) => {
                self.came = letter;
                self.sort_letter()?;
                self.put_by();
                Ok(true)
            }
            None => Ok(false),
        }
    }

    /// Handles the message at a position of its own, and what follows from it under its context and iteration, at most
    /// so many messages, and says whether the run goes on after that. What else is sent goes to the end of its own, and
    /// from there to the letters for others, and those go on at once that are to. After an error of the element it
    /// handles nothing more.
    #[inline(always)]
    fn handle<R: Wait, G: Gate>(
        &mut self,
        rt: &R,
        shared: &Shared,
        position: usize,
        turns: u64,
        limit: u64,
        gate: &G,
    ) -> Result<bool, TakeError>
        requires there { position < length self.old.own }
        requires goes { IsTrue self.old.goes }
        requires some { 0 < limit }
        ensures same { IsSame self.old self.new }
        ensures few { length self.new.element.state.events ≤ length self.old.element.state.events + limit }
        ensures goes { result ≡ Ok true → IsTrue self.new.goes }
    {
        let others = self.own.len() - 1;
        let near = near_of(&self.own, position, self.home);
        let went = match self
            .element
            .run_from(&mut self.own, position, turns, limit, gate)
        {
            Ok(went) => went,
            Err(error) => {
                self.goes = false;
                return Err(error);
            }
        };
        if !went {
            self.goes = false;
            return Ok(false);
        }
        if self.home.count.number == 1 {
            return Ok(true);
        }
        let sent = self.own.len() - others;
        let mut touched = 0u64;
        match send_on(
            &mut self.own,
            &mut self.back,
            &mut self.letters,
            near,
            sent,
            &mut touched,
        ) {
            Ok(()) => self.post_touched(rt, shared, touched),
            Err(_) => {
                self.goes = false;
                Err(TakeError::Memory)
            }
        }
    }

    /// A list without messages: one that was put by, if there is any.
    fn empty_list(&mut self) -> Queue
        ensures same { self.new ≡ self.old }
        ensures empty { result.messages ≡ [] }
    {
        match self.spare.pop() {
            Some(list) if list.is_empty() => list,
            _ => Queue::new(self.alloc),
        }
    }

    /// Puts the list of the last letter by, where nothing is left of it.
    fn put_by(&mut self)
        ensures { self.new ≡ self.old }
    {
        if self.came.is_empty() && self.spare.len() < self.spare.capacity() {
            let list = mem::replace(&mut self.came, Queue::new(self.alloc));
            self.spare.push_reserved(list);
        }
    }

    /// Puts the letters for the elements of these bits into their inboxes, where they are to go on at once, if there
    /// are any bits.
    #[inline(always)]
    fn post_touched<R: Wait>(
        &mut self,
        rt: &R,
        shared: &Shared,
        touched: u64,
    ) -> Result<bool, TakeError>
        ensures same { IsSame self.old self.new }
        ensures state { self.new.element ≡ self.old.element }
        ensures goes { self.new.goes ≡ self.old.goes }
    {
        if touched != 0 && self.post_at_once(rt, shared, touched).is_err() {
            return Err(TakeError::Memory);
        }
        Ok(true)
    }

    /// The same where there are some: a letter is to go on at once where it is full, or its worker looks for letters
    /// and has been sent none for that.
    #[inline(never)]
    fn post_at_once<R: Wait>(
        &mut self,
        rt: &R,
        shared: &Shared,
        touched: u64,
    ) -> Result<(), AllocError>
        ensures same { IsSame self.old self.new }
        ensures state { self.new.element ≡ self.old.element }
        ensures goes { self.new.goes ≡ self.old.goes }
    {
        let mut rest = touched;
        while rest != 0 {
            let to = rest.trailing_zeros() as usize;
            rest = rest & (rest - 1);
            if to < self.doors.len() {
                let least = self.least_for(shared, to);
                self.post(rt, shared, to, least)?;
            }
        }
        Ok(())
    }

    /// How many messages a letter for an element has at least, where it is to go on at once.
    #[inline(always)]
    fn least_for(&mut self, shared: &Shared, to: usize) -> usize
        ensures { self.new ≡ self.old }
    {
        let hunger = shared.hunger(to);
        if let Some(fed) = self.fed.get_mut(to) {
            if hunger != 0 && *fed != hunger {
                *fed = hunger;
                return 1;
            }
        }
        FULL
    }

    /// Puts the letter for an element into its inbox, if it has at least so many messages.
    fn post<R: Wait>(
        &mut self,
        rt: &R,
        shared: &Shared,
        to: usize,
        least: usize,
    ) -> Result<(), AllocError>
        requires to { to < length self.old.doors }
        ensures same { IsSame self.old self.new }
        ensures state { self.new.element ≡ self.old.element }
        ensures goes { self.new.goes ≡ self.old.goes }
    {
        if self.letters[to].len() < least {
            return Ok(());
        }
        let empty = self.empty_list();
        let letter = mem::replace(&mut self.letters[to], empty);
        self.sent = self.sent.saturating_add(1);
        shared.count_sent(self.home.number as usize, self.sent);
        match self.doors[to].push(rt, letter) {
            Ok(()) => {
                shared.wake(to);
                Ok(())
            }
            Err(back) => {
                self.letters[to] = back;
                Err(AllocError)
            }
        }
    }

    /// Puts all letters that have at least so many messages into the inboxes that they are for.
    fn post_all<R: Wait>(&mut self, rt: &R, shared: &Shared, least: usize) -> Result<(), AllocError>
        ensures same { IsSame self.old self.new }
        ensures state { self.new.element ≡ self.old.element }
        ensures goes { self.new.goes ≡ self.old.goes }
    {
        for to in 0..self.doors.len() {
            self.post(rt, shared, to, least)?;
        }
        Ok(())
    }

    /// The position of the message of its own that is next, if there is one: in the first half of its steps one of the
    /// context at hand, as long as there is one, and from then on the oldest, so that a part that never ends keeps
    /// nothing else from its turn.
    #[inline(always)]
    fn next(&self, steps: u64, hand: &mut Hand) -> Option<usize>
        ensures { IfSome result (λ k. k < length self.now.own) }
    {
        if self.handled() < steps - steps / 2 {
            if hand.turn(&self.own) {
                return Some(hand.position());
            }
            return None;
        }
        if self.own.is_empty() { None } else { Some(0) }
    }

    /// Behind how many messages a stretch may turn to what stands in its first one's place: those of the first half of
    /// its steps, as long as nothing else is to be looked at first.
    #[inline(always)]
    fn turns(&self, steps: u64, hand: &Hand) -> u64
        ensures { 0 < result → length self.now.element.state.events < steps }
    {
        let half = steps - steps / 2;
        let handled = self.handled();
        if hand.turns() && handled < half {
            half - handled - 1
        } else {
            0
        }
    }

    /// Handles the next message of its own, if there is one, and what follows from it.
    #[inline(always)]
    fn step<R: Wait, G: Gate>(
        &mut self,
        rt: &R,
        shared: &Shared,
        steps: u64,
        hand: &mut Hand,
        gate: &G,
    ) -> Result<Turn, TakeError>
        requires goes { IsTrue self.old.goes }
        requires some { length self.old.element.state.events < steps }
        ensures same { IsSame self.old self.new }
        ensures few { length self.new.element.state.events ≤ steps }
        ensures goes { result ≡ Ok Goes → IsTrue self.new.goes }
    {
        match self.next(steps, hand) {
            Some(position) => {
                let turns = self.turns(steps, hand);
                let left = steps - self.handled();
                if self.handle(rt, shared, position, turns, left, gate)? {
                    Ok(Turn::Goes)
                } else {
                    Ok(Turn::Stops)
                }
            }
            None => Ok(Turn::Empty),
        }
    }

    /// Handles some messages of its own, one after another, as long as its element has handled fewer than `steps`.
    fn burst<R: Wait, G: Gate>(
        &mut self,
        rt: &R,
        shared: &Shared,
        steps: u64,
        hand: &mut Hand,
        gate: &G,
    ) -> Result<Turn, TakeError>
        requires { length self.old.element.state.events ≤ steps }
        ensures { IsSameWithin steps self.old self.new }
    {
        if !self.goes {
            return Ok(Turn::Stops);
        }
        for _ in 0..BURST {
            if self.handled() >= steps {
                return Ok(Turn::Empty);
            }
            let turn = self.step(rt, shared, steps, hand, gate)?;
            if turn != Turn::Goes {
                return Ok(turn);
            }
        }
        Ok(Turn::Goes)
    }

    /// Takes what is in its inbox to its own, and says whether memory sufficed. It counts the letters that it took.
    fn receive_all<R: Wait>(&mut self, rt: &R, taken: &mut u64) -> Result<(), AllocError>
        ensures same { IsSame self.old self.new }
        ensures state { self.new.element ≡ self.old.element }
        ensures goes { self.new.goes ≡ self.old.goes }
    {
        for _ in 0..BURST {
            if !self.receive(rt)? {
                return Ok(());
            }
            *taken = taken.saturating_add(1);
        }
        Ok(())
    }

    /// Handles messages until the workers stop, at most `steps` of them in all.
    pub fn work<R: Wait, G: Gate>(&mut self, rt: &R, steps: u64, shared: &Shared, gate: &G)
        requires few { length self.old.element.state.events ≤ steps }
        ensures { IsSameWithin steps self.old self.new }
    {
        shared.begin();
        let number = self.home.number as usize;
        let mut hand = Hand::new();
        let mut looks = 0u32;
        let mut taken = 0u64;
        let mut done = 0u64;
        let mut bursts = 0u32;
        for _ in rt.forever() {
            if shared.is_stopped() {
                return;
            }
            let before = taken;
            if self.receive_all(rt, &mut taken).is_err() {
                shared.refuse();
                return;
            }
            if taken != before {
                shared.tell_hunger(number, 0);
            }
            match self.burst(rt, shared, steps, &mut hand, gate) {
                Ok(Turn::Goes) => {
                    looks = 0;
                    bursts = bursts.saturating_add(1);
                    let mut least = FULL;
                    if bursts >= BURSTS {
                        bursts = 0;
                        least = 1;
                    }
                    if self.post_all(rt, shared, least).is_err() {
                        shared.refuse();
                        return;
                    }
                }
                Ok(Turn::Empty) => {
                    bursts = 0;
                    if self.post_all(rt, shared, 1).is_err() {
                        shared.refuse();
                        return;
                    }
                    if taken != done {
                        looks = 0;
                        shared.rise(number);
                        done = taken;
                        shared.count_done(number, done);
                    } else if looks == 1 {
                        shared.stop_if_done();
                    }
                    looks = looks.saturating_add(1);
                    shared.tell_hunger(number, taken.saturating_add(1));
                    if !shared.wait(rt, number, looks) {
                        return;
                    }
                }
                Ok(Turn::Stops) => {
                    shared.stop();
                    return;
                }
                Err(TakeError::StampEnd) => {
                    shared.stop();
                    return;
                }
                Err(TakeError::Memory) => {
                    shared.refuse();
                    return;
                }
            }
        }
        unreachable!()
    }

    /// Moves what is left of the last letter to its own.
    fn sort_letter(&mut self) -> Result<(), AllocError>
        ensures same { IsSame self.old self.new }
        ensures state { self.new.element ≡ self.old.element }
        ensures goes { self.new.goes ≡ self.old.goes }
        ensures empty { OnOk result (self.new.came ≡ []) }
    {
        sort(
            &mut self.own,
            &mut self.stray,
            &self.element,
            self.home,
            &mut self.came,
        )
    }
}

/// For so many elements a letter without messages.
fn no_letters(alloc: Global, count: u32) -> Result<Vec<Queue>, AllocError>
    ensures { IfOk result (λ qs. map (λ q. q.messages) qs.items ≡ replicate count []) }
{
    let mut letters = Vec::with_capacity(alloc, count as usize)?;
    for _ in 0..count {
        letters.push_reserved(Queue::new(alloc));
    }
    Ok(letters)
}
