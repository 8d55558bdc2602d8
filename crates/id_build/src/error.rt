//! Why a program has no graph.

use std::alloc::AllocError;
use thiserror::Error;

/// Why a program has no graph.
#[derive(Clone, Copy, Debug, PartialEq, Eq, Error)]
pub enum BuildError {
    /// The schemas give more than 1,000,000 instructions: a text of so many long sums.
    #[error("too large")]
    TooLarge,
    /// A growth was refused.
    #[error("out of memory")]
    Memory,
}

impl From<AllocError> for BuildError {
    ghost use Rattle.std.specs.Prelude.{◌≡◌};
    ghost use Rattle.id_build.specs.declared.error.BuildError.TheVariants.{Memory};

    ghost from_gives = { λ _ e. e ≡ Memory };

    fn from(_error: AllocError) -> BuildError {
        BuildError::Memory
    }
}
