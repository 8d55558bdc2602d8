//! Which element, of so many, a worker's messages are for.

ghost use Rattle.std.specs.Prelude.{◌≡◌, ◌<◌, ◌≤◌, ◌+◌, ◌%◌, ◌^◌, ℕ, length, take, IsTrue};
ghost use Rattle.id_tag.specs.Plains.{message_of};
ghost use Rattle.id_tag.specs.Routes.{route_of};
ghost use Rattle.id_elements.specs.Passing.{AreRouted, IsGoalAt};

use crate::home::{Home, Near};
use id_core::Count;
use id_flight::Queue;
use id_tag::{PlainToken, route};

/// What is left of a sum that is divided by so many: its last bits, where that is a power of two.
#[inline(always)]
#[tactic(auto, using(crate::proofs::GoalsLemmas::last_bits))]
fn rest(sum: u64, count: Count) -> u32
    ensures { result ≡ sum % count.number }
{
    if is_power(count) {
        return (sum & u64::from(count.number - 1)) as u32;
    }
    (sum % u64::from(count.number)) as u32
}

/// Whether it is a power of two.
#[inline(always)]
#[tactic(auto, using(crate::proofs::GoalsLemmas::power))]
fn is_power(count: Count) -> bool
    ensures { IsTrue result → (k : ℕ) × (count.number ≡ 2 ^ k) }
{
    count.number & (count.number - 1) == 0
}

/// The sum by which a plain token is routed.
#[inline(always)]
fn sum_of(token: &PlainToken) -> u64
    ensures { result ≡ token.now.element + token.now.serial + token.now.iteration }
{
    u64::from(token.element) + u64::from(token.serial) + u64::from(token.iteration)
}

/// The element, with a sum that is routed to it: its number, or, where a division is needed, that of the message at a
/// position of its own, if that is a plain token.
#[inline(always)]
pub fn near_of(own: &Queue, position: usize, home: Home) -> Near
    requires there { position < length own.now.messages }
    requires routed { AreRouted home.count.number home.number own.now.messages }
    ensures { result.home ≡ home }
{
    if is_power(home.count) {
        return home.near();
    }
    match own.token(position) {
        Some(token) => Near {
            home,
            sum: sum_of(token),
        },
        None => home.near(),
    }
}

/// The element that a plain token is for. One is given with a sum that is routed to it: most of what an event sends has
/// the tag of what it took, and so the same sum.
#[inline(always)]
pub fn goal_of(token: &PlainToken, near: Near) -> u32
    ensures { result ≡ route_of (message_of token.now).payload near.home.count.number }
{
    let sum = sum_of(token);
    if sum == near.sum {
        near.home.number
    } else {
        rest(sum, near.home.count)
    }
}

/// The element that the message at a position is for. One is given with a sum that is routed to it.
#[inline(always)]
pub fn goal_at(own: &Queue, position: usize, near: Near) -> u32
    requires { position < length own.now.messages }
    ensures { IsGoalAt near.home.count.number own.now.messages position result }
{
    match own.token(position) {
        Some(token) => goal_of(token, near),
        None => route(&own.message(position), near.home.count.number),
    }
}

/// The first position from this one on whose message is for another element than this one, or how many messages there
/// are, if there is none.
#[inline(always)]
pub fn first_for_others(own: &Queue, from: usize, near: Near) -> usize
    requires { from ≤ length own.now.messages }
    ensures bound { result ≤ length own.now.messages }
    ensures routed { AreRouted near.home.count.number near.home.number (take from own.now.messages)
        → AreRouted near.home.count.number near.home.number (take result own.now.messages) }
{
    let len = own.len();
    for position in from..len {
        if goal_at(own, position, near) != near.home.number {
            return position;
        }
    }
    len
}
