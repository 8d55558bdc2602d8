//! Why a command printed nothing, or not all.

use crate::compiled::CompileError;
use id_text::Identifier;
use std::alloc::AllocError;

/// Why a command printed nothing, or not all.
#[derive(Drop)]
pub enum EngineError {
    /// The text has no graph: refusals 1 to 14.
    Compile(CompileError),
    /// The first parameter of main that has no input, by name, refusal 15: `def main(n: int): int = n;` with no
    /// words.
    MissingInput { param: Identifier },
    /// The input word of this number, from 0, names no parameter, refusal 16: `def main(): int = 1;` with `n`.
    UnknownInput { word: usize },
    /// The input word of this number is a second one for its parameter, refusal 17:
    /// `def main(n: int): int = n;` with `n=1 n=`.
    RepeatedInput { word: usize },
    /// The input word of this number has no value of its parameter's kind, refusal 18:
    /// `def main(n: int): int = n;` with `n=`.
    BadInput { word: usize },
    /// No element, or more than 64, refusal 19: `def main(): int = 1;` on 0 elements.
    BadElements,
    /// No step, or more than 100,000,000, refusal 20: `def main(): int = 1;` with 0 steps.
    BadSteps,
    /// More rounds than 10,000, refusal 24: `def main(): int = 1;` with 10,001 rounds.
    BadRounds,
    /// A round has more than 1,000,000 facts, refusal 25: 2,700 bindings of 190 signs and a number, in round 10,000.
    TooManyFacts,
    /// A growth was refused: no text brings it.
    Memory,
    /// A write failed: no text brings it.
    Write,
}

impl From<AllocError> for EngineError {
    ghost use Rattle.std.specs.Prelude.{◌≡◌};
    ghost use Rattle.id_compile.specs.declared.error.EngineError.TheVariants.{Memory};

    ghost from_gives = { λ _ e. e ≡ Memory };

    fn from(_error: AllocError) -> EngineError {
        EngineError::Memory
    }
}
