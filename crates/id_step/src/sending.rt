//! What is sent for a plain token (docs/MACHINE.md, "Element step"): under its tag, where the last of it takes the
//! token's place, or to the end of a list.

ghost use Rattle.std.specs.Prelude.{◌≡◌, ◌≤◌, ◌<◌, ◌+◌, ◌^◌, ◌++◌, ◌∷◌, [], length, map};
ghost use Rattle.id_record.specs.Sends.{numbered, token_to};
ghost use Rattle.id_tag.specs.declared.Sender.TheVariants.{Element};
ghost use Rattle.id_tag.specs.declared.Payload.TheVariants.{Token};
ghost use Rattle.id_tag.specs.Plains.{context_of, message_of, tag_in, whole};
ghost use Rattle.id_tag.specs.declared.Value.TheVariants.{Signal};
ghost use Rattle.id_ops.specs.Operators.{tag_within};
ghost use Rattle.id_instr.specs.declared.dests.Port.TheVariants.{Zero};
ghost use Rattle.id_ops.specs.PlainFired.{target_tag};
ghost use Rattle.id_step.specs.Stretches.{with_next};

use crate::near::Near;
use id_flight::Queue;
use id_instr::{Dest, Port};
use id_ops::Target;
use id_tag::{Plain, PlainToken, element_of, serial_of};

/// Where a message was sent: by which event, of which element, at which stamp.
#[derive(Clone, Copy)]
pub struct Mark {
    pub position: u32,
    pub stamp: u32,
    pub sender: u8,
}

/// A plain token with this value and this mark and with number 0, and else like this one.
#[inline(always)]
pub fn like(token: &PlainToken, value: Plain, mark: Mark) -> PlainToken
    ensures { result ≡ record token.now {
      value = value;
      position = mark.position;
      stamp = mark.stamp;
      sender = mark.sender;
      output = 0;
    } }
{
    PlainToken {
        value,
        position: mark.position,
        stamp: mark.stamp,
        sender: mark.sender,
        output: 0,
        ..*token
    }
}

/// Adds one plain token with this value for each destination, in order, under a token's tag and with this mark, to what
/// is near, the last of them in the token's place, if there is one, and says whether.
#[inline(always)]
pub fn put_near(
    dests: &[Dest],
    value: Plain,
    mark: Mark,
    token: &mut PlainToken,
    near: &mut Near,
) -> bool
    requires room { length dests.now ≤ near.old.room }
    requires few { length dests.now ≤ 256 }
    ensures messages { with_next result near.new.messages token.new ≡ near.old.messages
        ++ numbered mark.sender mark.position mark.stamp 0
        (map (token_to (tag_in token.old) (whole value)) dests.now) }
    ensures len { length near.new.messages ≤ length near.old.messages + length dests.now }
{
    let len = dests.len();
    if len == 0 {
        return false;
    }
    let last = len - 1;
    for number in 0..last {
        near.push_reserved(&plain_under(token, value, mark, dests[number], number));
    }
    put_next(dests[last], value, mark, last, token);
    true
}

/// A plain token for a destination, with this value, this mark and this number, under the tag of another one.
#[inline(always)]
fn plain_under(
    token: &PlainToken,
    value: Plain,
    mark: Mark,
    dest: Dest,
    number: usize,
) -> PlainToken
    requires { number < 256 }
    ensures { message_of result ≡ record {
      payload = token_to (tag_in token.now) (whole value) dest;
      sender = Element mark.sender;
      position = mark.position;
      output = number;
      stamp = mark.stamp;
    } }
{
    plain_to(&like(token, value, mark), dest, number)
}

/// Puts a plain token for a destination, with this value, this mark and this number, in the place of the token under
/// whose tag it is. What stays as it is is not written again.
#[inline(always)]
fn put_next(dest: Dest, value: Plain, mark: Mark, number: usize, token: &mut PlainToken)
    requires { number < 256 }
    ensures { message_of token.new ≡ record {
      payload = token_to (tag_in token.old) (whole value) dest;
      sender = Element mark.sender;
      position = mark.position;
      output = number;
      stamp = mark.stamp;
    } }
{
    token.value = value;
    token.instr = dest.instr;
    token.port = dest.port;
    token.position = mark.position;
    token.stamp = mark.stamp;
    token.sender = mark.sender;
    token.output = number as u8;
}

/// Appends a token for port 0 of a tag, else like this plain one.
#[inline(always)]
pub fn send_to(target: Target, like: &PlainToken, outputs: &mut Queue)
    requires room { 0 < outputs.old.room }
    ensures messages { outputs.new.messages ≡ outputs.old.messages
        ++ numbered like.now.sender like.now.position like.now.stamp 0
        (Token (target_tag target) Zero (whole like.now.value) ∷ []) }
    ensures room { outputs.old.room ≤ outputs.new.room + 1 }
{
    outputs.push_plain_reserved(&PlainToken {
        serial: target.serial,
        iteration: target.iteration,
        instr: target.instr,
        element: target.element,
        port: Port::Zero,
        output: 0,
        ..*like
    });
}

/// Appends one plain token for each destination, in order, each like this one.
#[inline(always)]
pub fn send_plain(dests: &[Dest], like: &PlainToken, outputs: &mut Queue)
    requires room { length dests.now ≤ outputs.old.room }
    requires few { length dests.now ≤ 256 }
    ensures messages { outputs.new.messages ≡ outputs.old.messages
        ++ numbered like.now.sender like.now.position like.now.stamp 0
        (map (token_to (tag_in like.now) (whole like.now.value)) dests.now) }
    ensures room { outputs.old.room ≤ outputs.new.room + length dests.now }
{
    for (number, dest) in dests.iter().enumerate() {
        outputs.push_plain_reserved(&plain_to(like, *dest, number));
    }
}

/// A plain token for a destination, with this number, and else like this one.
#[inline(always)]
fn plain_to(like: &PlainToken, dest: Dest, number: usize) -> PlainToken
    requires { number < 256 }
    ensures { message_of result ≡ record {
      payload = token_to (tag_in like.now) (whole like.now.value) dest;
      sender = Element like.now.sender;
      position = like.now.position;
      output = number;
      stamp = like.now.stamp;
    } }
{
    PlainToken {
        instr: dest.instr,
        port: dest.port,
        output: number as u8,
        ..*like
    }
}

/// Appends what starts this block in the context of this name: a signal, and behind it what goes to the next
/// instruction, which is like this token, with numbers from this one on.
#[inline(always)]
pub fn send_start(like: &PlainToken, name: u32, block: u32, number: usize, outputs: &mut Queue)
    requires room { 2 ≤ outputs.old.room }
    requires number { number + 1 < 256 }
    requires second { block + 1 < 2 ^ 32 }
    ensures messages { outputs.new.messages ≡ outputs.old.messages
        ++ numbered like.now.sender like.now.position like.now.stamp number
        (Token (tag_within (context_of name) block) Zero Signal
        ∷ Token (tag_within (context_of name) (block + 1)) Zero (whole like.now.value) ∷ []) }
    ensures room { outputs.old.room ≤ outputs.new.room + 2 }
{
    let first = plain_within(like, name, block, Plain::Signal, number);
    outputs.push_plain_reserved(&first);
    let second = plain_within(like, name, block + 1, like.value, number + 1);
    outputs.push_plain_reserved(&second);
}

/// A plain token for port 0 of an instruction in the context of this name, with this value and this number, and else
/// like this one.
fn plain_within(like: &PlainToken, name: u32, instr: u32, value: Plain, number: usize) -> PlainToken
    requires { number < 256 }
    ensures { message_of result ≡ record {
      payload = Token (tag_within (context_of name) instr) Zero (whole value);
      sender = Element like.now.sender;
      position = like.now.position;
      output = number;
      stamp = like.now.stamp;
    } }
{
    let output = number as u8;
    PlainToken {
        value,
        serial: serial_of(name),
        iteration: 0,
        instr,
        element: element_of(name),
        port: Port::Zero,
        output,
        ..*like
    }
}
