//! What a payload names and carries.

ghost use Rattle.std.specs.Prelude.{◌≡◌};
ghost use Rattle.id_record.specs.Events.{tag_of, value_of};

use id_tag::{Payload, Tag, Value};

/// The tag that a payload names: that of a token, of a read's reply, of a write's origin.
#[inline(always)]
pub fn tag_of(payload: &Payload) -> Tag
    ensures { result ≡ tag_of payload.now }
{
    match *payload {
        Payload::Token { tag, .. } => tag,
        Payload::Read { reply, .. } => reply,
        Payload::Write { origin, .. } => origin,
    }
}

/// The value that a payload carries: a read carries none, and a signal stands for it.
#[inline(always)]
pub fn value_of(payload: &Payload) -> Value
    ensures { result ≡ value_of payload.now }
{
    match *payload {
        Payload::Token { value, .. } | Payload::Write { value, .. } => value,
        Payload::Read { .. } => Value::Signal,
    }
}
