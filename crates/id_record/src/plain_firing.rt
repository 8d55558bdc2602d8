//! Events of plain tokens that fire in small numbers: most events.

ghost use Rattle.std.specs.Prelude.{◌≡◌};
ghost use Rattle.id_record.specs.PlainFirings.{plain_firing};

use crate::handled::{Handled, NO_REPLIES, went};
use id_ops::PlainFired;
use id_tag::PlainToken;

/// A plain token that is being handled, the stamp of that event, and what its instruction fires.
#[derive(Clone, Copy)]
pub struct PlainFiring<'a> {
    pub token: &'a PlainToken,
    pub stamp: u32,
    pub fired: PlainFired,
}

/// What a record keeps of that event. Takes no memory.
#[inline(always)]
pub fn plain_handled(event: &PlainFiring<'_>) -> Handled
    ensures { result ≡ plain_firing event.now }
{
    Handled {
        message: event.token.message(),
        stamp: u64::from(event.stamp),
        reaction: went(event.fired.fired(event.token.tag())),
        replies: NO_REPLIES,
    }
}
