//! What a token is (docs/LANGUAGE.md, "Tokens").

use crate::identifier::Identifier;
use std::alloc::{AllocError, AllocFailed};

/// The most bytes that a text may have.
pub const MAX_BYTES: usize = 1_048_576;

/// A reserved word. `for` and `to` are reserved, and no rule uses them yet.
#[derive(Clone, Copy, PartialEq, Eq)]
pub enum Keyword {
    Def,
    If,
    Then,
    Else,
    While,
    Do,
    Next,
    Finally,
    In,
    True,
    False,
    Int,
    Bool,
    Array,
    Div,
    Rem,
    And,
    Or,
    Not,
    For,
    To,
}

/// A sign.
#[derive(Clone, Copy, PartialEq, Eq)]
pub enum Symbol {
    LeftParen,
    RightParen,
    LeftBrace,
    RightBrace,
    LeftBracket,
    RightBracket,
    Comma,
    Semicolon,
    Colon,
    Becomes,
    Equal,
    NotEqual,
    Less,
    LessEqual,
    Greater,
    GreaterEqual,
    Arrow,
    Plus,
    Minus,
    Star,
}

/// What a token is.
#[derive(Drop)]
pub enum TokenKind {
    /// A name that is no reserved word.
    Name(Identifier),
    /// A number, with its value.
    Number(i64),
    /// A reserved word.
    Key(Keyword),
    /// A sign.
    Sign(Symbol),
    /// The end of the text.
    End,
}

/// A token with the bytes that it takes: from `start` up to `end`, both counted from 0.
#[derive(Drop)]
pub struct Token {
    pub kind: TokenKind,
    pub start: u32,
    pub end: u32,
}

/// Why a text has no tokens.
#[derive(Clone, Copy)]
pub enum TextError {
    /// More than `MAX_BYTES` bytes.
    TooLong,
    /// The first byte of a character that begins no token: `$`
    BadByte { at: usize },
    /// The first digit of a number above 9223372036854775807: `9223372036854775808`
    NumberTooLarge { at: usize },
    /// A growth was refused.
    Memory,
}

impl From<AllocError> for TextError {
    ghost use Rattle.std.specs.Prelude.{◌≡◌};
    ghost use Rattle.id_text.specs.declared.token.TextError.TheVariants.{Memory};

    ghost from_gives = { λ _ e. e ≡ Memory };

    fn from(_error: AllocError) -> TextError {
        TextError::Memory
    }
}

impl<T: Drop> From<AllocFailed<T>> for TextError {
    ghost use Rattle.std.specs.Prelude.{◌≡◌};
    ghost use Rattle.id_text.specs.declared.token.TextError.TheVariants.{Memory};

    ghost from_gives = { λ _ e. e ≡ Memory };

    fn from(_error: AllocFailed<T>) -> TextError {
        TextError::Memory
    }
}
