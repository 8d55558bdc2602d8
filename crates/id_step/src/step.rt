//! What becomes of a message, and why a message is not handled (docs/MACHINE.md, "Element step").

use id_ops::Operands;
use id_tag::Plain;
use id_value::FaultKind;
use std::alloc::{AllocError, AllocFailed};
use thiserror::Error;

/// Why an element does not take a message. Nothing has changed then.
#[derive(Clone, Copy, Debug, PartialEq, Eq, Error)]
pub enum TakeError {
    /// The element's last stamp or the message's is 2^64 - 1: no stamp is above it.
    #[error("no stamp is left")]
    StampEnd,
    /// A growth was refused.
    #[error("out of memory")]
    Memory,
}

impl From<AllocError> for TakeError {
    ghost use Rattle.std.specs.Prelude.{◌≡◌};
    ghost use Rattle.id_step.specs.declared.step.TakeError.TheVariants.{Memory};

    ghost from_gives = { λ _ e. e ≡ Memory };

    fn from(_error: AllocError) -> TakeError {
        TakeError::Memory
    }
}

impl<T: Drop> From<AllocFailed<T>> for TakeError {
    ghost use Rattle.std.specs.Prelude.{◌≡◌};
    ghost use Rattle.id_step.specs.declared.step.TakeError.TheVariants.{Memory};

    ghost from_gives = { λ _ e. e ≡ Memory };

    fn from(_error: AllocFailed<T>) -> TakeError {
        TakeError::Memory
    }
}

/// What becomes of a token at its instruction.
#[derive(Clone, Copy)]
pub enum Arrival {
    /// It fires the instruction.
    Fires(Operands),
    /// It waits for its partner.
    Waits,
    /// Its port was filled already.
    Blocked,
}

/// Operands that are plain values, by port.
#[derive(Clone, Copy)]
pub enum PlainOperands {
    One(Plain),
    Two(Plain, Plain),
}

/// What became of a plain token.
#[derive(Clone, Copy)]
pub enum Short {
    /// It was handled, and all went well.
    Went,
    /// It was handled, and its instruction failed.
    Failed(FaultKind),
    /// It was not handled, and nothing has changed: it is to be handled as any message.
    Apart,
}

/// What became of a plain token at hand.
#[derive(Clone, Copy)]
pub enum Taken {
    /// It was handled, all went well, and what goes on stands in its place.
    Next,
    /// It was handled, all went well, and nothing stands in its place.
    Went,
    /// It was handled, and its instruction failed.
    Failed,
    /// It was not handled, and nothing has changed: it is to be handled as any message.
    Apart,
    /// It was not handled, since a growth was refused, and nothing has changed.
    Memory,
}
