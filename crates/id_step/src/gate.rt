//! A gate in the element step, at which its caller may hold it.

use crate::storage::Storage;

/// What is called once in each handling of a message, after its last growth and before its event is recorded; its
/// implementation is the caller's and is assumed to return.
pub trait Gate {
    /// Holds the handling for as long as it likes.
    fn hold(&self, at: &Handling);
}

/// A handling of a message: at which element, and how many it has handled before. Only the element step makes one.
#[derive(Drop)]
pub struct Handling {
    element: u32,
    handled: u64,
}

impl Handling {
    ghost use Rattle.std.specs.Prelude.{◌≡◌};

    /// The number of the element. Takes no memory.
    pub fn element(&self) -> u32
        ensures { result ≡ self.now.element }
    {
        self.element
    }

    /// How many messages it has handled so far, which is how many events its record has. Takes no memory.
    pub fn handled(&self) -> u64
        ensures { result ≡ self.now.handled }
    {
        self.handled
    }
}

/// The gate that holds nothing.
#[derive(Clone, Copy)]
pub struct Open;

impl Gate for Open {
    #[inline(always)]
    fn hold(&self, _at: &Handling) {}
}

impl<'a> Storage<'a> {
    ghost use Rattle.std.specs.Prelude.{◌≡◌, length};

    /// Lets the gate hold the handling of a message whose event is not recorded yet. Takes no memory.
    #[inline(always)]
    pub fn hold<G: Gate>(&self, gate: &G) {
        gate.hold(&self.handling());
    }

    /// The handling of a message whose event is not recorded yet. Takes no memory.
    #[inline(always)]
    pub fn handling(&self) -> Handling
        ensures element { result.element ≡ self.now.log.element }
        ensures handled { result.handled ≡ length self.now.log.events }
    {
        Handling {
            element: self.log.element(),
            handled: self.log.len() as u64,
        }
    }
}
