//! How messages move between a worker's lists.

ghost use Rattle.std.specs.Prelude.{◌≡◌, ◌<◌, ◌≤◌, ◌+◌, ◌++◌, [], ℕ, length};
ghost use Rattle.std.specs.Prelude.{◌↔◌, reverse, vec_len, IsTrue, OnOk, Some};
ghost use Rattle.std.specs.List.{sum_by};
ghost use Rattle.id_tag.specs.declared.Message.{Message};
ghost use Rattle.id_instr.specs.Graph.{kind_at};
ghost use Rattle.id_tag.specs.Plains.{message_of};
ghost use Rattle.id_step.specs.Fits.{Fits};
ghost use Rattle.id_elements.specs.Passing.{AreFor, IsLastMoved, IsLastSent, IsSentOn};

use crate::goals::{first_for_others, goal_at, goal_of};
use crate::home::{Home, Near};
use id_flight::Queue;
use id_instr::{Dest, PortKind, kind_at};
use id_step::{Element, fits};
use id_tag::{Plain, PlainToken, route};
use id_valid::Valid;
use std::alloc::AllocError;

/// Moves the messages of a letter that came out of an element's inbox: to its own, where they are for the element and
/// fit the graph, or else apart. What stands in an inbox is known by its type alone, so that is tested. After an error
/// the rest is still in the letter.
pub fn sort(
    own: &mut Queue,
    stray: &mut Queue,
    element: &Element<'_>,
    home: Home,
    letter: &mut Queue,
) -> Result<(), AllocError>
    requires number { home.number ≡ element.now.number }
    requires count { home.count.number ≡ element.now.count }
    ensures own { AreFor element.now own.old.messages → AreFor element.now own.new.messages }
    ensures weight { (f : Message → ℕ)
        → sum_by f own.new.messages + sum_by f stray.new.messages + sum_by f letter.new.messages
        ≡ sum_by f own.old.messages + sum_by f stray.old.messages + sum_by f letter.old.messages }
    ensures empty { OnOk result (letter.new.messages ≡ []) }
{
    while !letter.is_empty() {
        own.reserve(1)?;
        stray.reserve(1)?;
        sort_first(own, stray, element, home, letter);
    }
    Ok(())
}

/// Moves the first message of a letter: in few steps where it is a plain token for the element. There is room for it.
/// Takes no memory.
#[inline(always)]
fn sort_first(
    own: &mut Queue,
    stray: &mut Queue,
    element: &Element<'_>,
    home: Home,
    letter: &mut Queue,
)
    requires there { 0 < length letter.old.messages }
    requires room { 0 < own.old.room }
    requires room_apart { 0 < stray.old.room }
    requires number { home.number ≡ element.now.number }
    requires count { home.count.number ≡ element.now.count }
    ensures own { AreFor element.now own.old.messages → AreFor element.now own.new.messages }
    ensures weight { (f : Message → ℕ)
        → sum_by f own.new.messages + sum_by f stray.new.messages + sum_by f letter.new.messages
        ≡ sum_by f own.old.messages + sum_by f stray.old.messages + sum_by f letter.old.messages }
    ensures shorter { length letter.new.messages < length letter.old.messages }
{
    if let Some(token) = letter.token(0) {
        if goal_of(token, home.near()) == home.number && fits_plain(element.graph(), token) {
            own.push_plain_reserved(token);
            letter.remove(0);
            return;
        }
    }
    sort_message(own, stray, element, home, letter);
}

/// The same of any message.
#[inline(never)]
fn sort_message(
    own: &mut Queue,
    stray: &mut Queue,
    element: &Element<'_>,
    home: Home,
    letter: &mut Queue,
)
    requires there { 0 < length letter.old.messages }
    requires room { 0 < own.old.room }
    requires room_apart { 0 < stray.old.room }
    requires number { home.number ≡ element.now.number }
    requires count { home.count.number ≡ element.now.count }
    ensures own { AreFor element.now own.old.messages → AreFor element.now own.new.messages }
    ensures weight { (f : Message → ℕ)
        → sum_by f own.new.messages + sum_by f stray.new.messages + sum_by f letter.new.messages
        ≡ sum_by f own.old.messages + sum_by f stray.old.messages + sum_by f letter.old.messages }
    ensures shorter { length letter.new.messages < length letter.old.messages }
{
    let message = letter.message(0);
    letter.remove(0);
    if route(&message, home.count.number) == home.number && fits(element.graph(), &message) {
        own.push_back_reserved(message);
    } else {
        stray.push_back_reserved(message);
    }
}

/// Whether a plain token fits a graph, as any message does: in few steps, where it carries neither a continuation nor an
/// address.
#[inline(always)]
fn fits_plain(graph: &Valid, token: &PlainToken) -> bool
    ensures { IsTrue result ↔ Fits graph.now (message_of token.now) }
{
    match token.value {
        Plain::Continuation(_, _, _) | Plain::Address(_, _) => fits(graph, &token.message()),
        value => {
            let dest = Dest {
                instr: token.instr,
                port: token.port,
            };
            token.iteration <= token.stamp && has_kind(graph, dest, value.kind())
        }
    }
}

/// Whether the port exists and takes a value of this kind.
#[inline(always)]
fn has_kind(graph: &Valid, dest: Dest, kind: PortKind) -> bool
    ensures { IsTrue result ↔ (kind_at graph.now.instrs dest ≡ Some kind) }
{
    match kind_at(graph.graph().instrs(), dest) {
        Some(taken) => taken == kind,
        None => false,
    }
}

/// Moves those of the last so many messages of an element's own that are for others to the letters for them, and sets
/// the bits of these. After an error some of the last may stand in `back`, or still be for others.
#[inline(always)]
pub fn send_on(
    own: &mut Queue,
    back: &mut Queue,
    letters: &mut Vec<Queue>,
    near: Near,
    sent: usize,
    touched: &mut u64,
) -> Result<(), AllocError>
    requires count { vec_len letters.old ≡ near.home.count.number }
    requires sent { sent ≤ length own.old.messages }
    ensures { IsSentOn near.home.number sent own.old.messages back.old.messages letters.old.items
        own.new.messages back.new.messages letters.new.items result }
{
    let len = own.len();
    let position = first_for_others(own, len - sent, near);
    if position == len {
        return Ok(());
    }
    send_some(own, back, letters, near, len - position, touched)
}

/// The same where some of them are.
#[inline(never)]
fn send_some(
    own: &mut Queue,
    back: &mut Queue,
    letters: &mut Vec<Queue>,
    near: Near,
    sent: usize,
    touched: &mut u64,
) -> Result<(), AllocError>
    requires count { vec_len letters.old ≡ near.home.count.number }
    requires sent { sent ≤ length own.old.messages }
    ensures { IsSentOn near.home.number sent own.old.messages back.old.messages letters.old.items
        own.new.messages back.new.messages letters.new.items result }
{
    back.reserve(sent)?;
    for _ in 0..sent {
        send_last(own, back, letters, near, touched)?;
    }
    own.reserve(back.len())?;
    take_back(own, back);
    Ok(())
}

/// Moves the last message of an element's own, which is there, to the letter for its element, whose bit it sets, or to
/// `back`, in which there is room for it, where that is this one. After an error it has not moved.
#[inline(always)]
fn send_last(
    own: &mut Queue,
    back: &mut Queue,
    letters: &mut Vec<Queue>,
    near: Near,
    touched: &mut u64,
) -> Result<(), AllocError>
    requires count { vec_len letters.old ≡ near.home.count.number }
    requires there { 0 < length own.old.messages }
    requires room { 0 < back.old.room }
    ensures sent { IsLastSent near.home.number own.old.messages back.old.messages letters.old.items
        own.new.messages back.new.messages letters.new.items result }
    ensures room { back.old.room ≤ back.new.room + 1 }
{
    let last = own.len() - 1;
    let to = goal_at(own, last, near);
    if to == near.home.number {
        move_last(own, back);
        return Ok(());
    }
    let letter = &mut letters[to as usize];
    letter.reserve(1)?;
    move_last(own, letter);
    *touched = *touched | bit(to);
    Ok(())
}

/// The bit of an element.
#[inline(always)]
fn bit(number: u32) -> u64 {
    1 << u64::from(number % 64)
}

/// Moves the last message of a list, which is there, to the end of another, in which there is room for it. Takes no
/// memory.
#[inline(always)]
fn move_last(from: &mut Queue, to: &mut Queue)
    requires there { 0 < length from.old.messages }
    requires room { 0 < to.old.room }
    ensures moved { IsLastMoved from.old.messages to.old.messages from.new.messages to.new.messages }
    ensures room { to.old.room ≤ to.new.room + 1 }
{
    let last = from.len() - 1;
    match from.token(last) {
        Some(token) => to.push_plain_reserved(token),
        None => to.push_back_reserved(from.message(last)),
    }
    from.pop_back();
}

/// Moves all messages of a list, for which there is room, to the end of an element's own, the last one first. Takes no
/// memory.
fn take_back(own: &mut Queue, back: &mut Queue)
    requires { length back.old.messages ≤ own.old.room }
    ensures own { own.new.messages ≡ own.old.messages ++ reverse back.old.messages }
    ensures empty { back.new.messages ≡ [] }
{
    while !back.is_empty() {
        move_last(back, own);
    }
}
