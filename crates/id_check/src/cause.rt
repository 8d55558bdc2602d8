//! Why a program is refused (docs/LANGUAGE.md, "Refusals"), and the first of the causes found so far.

ghost use Rattle.std.specs.Prelude.{[], ◌∷◌, ◌≡◌, ◌↔◌, IsTrue};
ghost use Rattle.id_check.specs.Causes.{IsBefore, number_of, place_of};
ghost use Rattle.id_check.specs.Firsts.{Notes};

use id_tree::{Kind, Program};

/// Why a program is refused.
#[derive(Clone, Copy)]
pub enum CheckCause {
    /// No procedure is called `main`: the empty text.
    NoMain,
    /// The first parameter of `main` that is an array: `def main(a: array): int = 0;`
    MainKind {
        at: usize,
    },
    /// A second procedure, parameter of a definition, or binder of a block or right in a loop's body, with one name,
    /// at the later; `first` is the place of the first: `{ x = 1; x = 2; in x }`
    Duplicate {
        at: usize,
        first: usize,
    },
    /// A name, of a value or of a procedure, without binder, or that of a `next` without one outside of its loop,
    /// at the `next`: `def main(): int = x;`
    Unknown {
        at: usize,
    },
    /// A call with another number of arguments than its procedure has parameters, at the call: `f(1)`, where `f` has
    /// none.
    WrongCount {
        at: usize,
    },
    /// An expression of another kind than is wanted, at its place: `1 + true`
    WrongKind {
        at: usize,
        wanted: Kind,
        found: Kind,
    },
    /// More than 16 parameters, at the definition's name.
    TooManyParams {
        at: usize,
    },
    /// A growth was refused.
    Memory,
}

/// A refusal, with the program handed back.
#[derive(Drop)]
pub struct CheckError {
    pub program: Program,
    pub cause: CheckCause,
}

impl CheckCause {
    /// Whether this cause is named, where the two are found.
    fn is_before(self, other: CheckCause) -> bool
        ensures { IsTrue result ↔ IsBefore self other }
    {
        let (place, other_place) = (self.place(), other.place());
        place < other_place || (place == other_place && self.number() <= other.number())
    }

    /// Where the cause is.
    fn place(self) -> usize
        ensures { result ≡ place_of self }
    {
        match self {
            CheckCause::MainKind { at }
            | CheckCause::Duplicate { at, .. }
            | CheckCause::Unknown { at }
            | CheckCause::WrongCount { at }
            | CheckCause::WrongKind { at, .. }
            | CheckCause::TooManyParams { at } => at,
            CheckCause::NoMain | CheckCause::Memory => 0,
        }
    }

    /// Its number among the refusals.
    fn number(self) -> u8
        ensures { result ≡ number_of self }
    {
        match self {
            CheckCause::NoMain => 7,
            CheckCause::MainKind { .. } => 8,
            CheckCause::Duplicate { .. } => 9,
            CheckCause::Unknown { .. } => 10,
            CheckCause::WrongCount { .. } => 11,
            CheckCause::WrongKind { .. } => 12,
            CheckCause::TooManyParams { .. } => 13,
            CheckCause::Memory => 0,
        }
    }
}

/// Notes a cause: the first one stays. Takes no memory.
pub fn note(first: &mut Option<CheckCause>, cause: CheckCause)
    ensures { Notes first.old (cause ∷ []) first.new }
{
    let earlier = match *first {
        Some(earlier) if earlier.is_before(cause) => earlier,
        _ => cause,
    };
    *first = Some(earlier);
}
