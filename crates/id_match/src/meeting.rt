//! The front of the waiting-matching store: slots in pairs, in which a value that fits waits for its partner.

ghost use Rattle.std.specs.Prelude.{◌≡◌};
ghost use Rattle.id_match.specs.Waiting.{pair_of};

use crate::front::Pair;
use id_instr::Port;
use id_tag::{Plain, Tag, Value};

/// A value that waits, with its port.
#[derive(Clone, Copy)]
pub struct Half {
    pub port: Port,
    pub value: Value,
}

/// What an offer comes to.
#[derive(Clone, Copy, PartialEq, Eq)]
pub enum Offered {
    /// The value waits for its partner.
    Kept,
    /// The values of port 0 and port 1, neither of which waits any longer.
    Pair(Value, Value),
    /// A value waits at that port already.
    Taken,
}

/// What an offer of a plain value comes to, in short.
#[derive(Clone, Copy)]
pub enum Met {
    /// The value waits for its partner.
    Kept,
    /// The plain value of the other port: neither waits any longer.
    Partner(Plain),
    /// The value was not offered: what waits under its tag is no plain value, or waits at its port.
    Apart,
}

/// A value that waits, with its tag and port.
#[derive(Clone, Copy)]
pub struct Entry {
    pub tag: Tag,
    pub port: Port,
    pub value: Value,
}

/// The two values by port, of which `value` came to this port.
pub fn pair(port: Port, value: Value, partner: Value) -> Offered
    ensures { result ≡ pair_of port value partner }
{
    match port {
        Port::Zero => Offered::Pair(value, partner),
        Port::One => Offered::Pair(partner, value),
    }
}
