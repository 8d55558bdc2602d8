//! The tokens of a text, and the line and column of a place in it.
//!
//! Keeps: nothing beyond its values.
//! Errors: `TextError`, the refusals 1 to 3 or want of memory.
//! Read first: `token`, then `specs/Lexes.antt`, then `lex`.
//! Not here: lists (`id_value`), which tokens make a program (`id_tree`).
#![tactic(auto)]

mod bytes;
mod identifier;
mod lexer;
mod numbers;
mod places;
mod signs;
mod token;
mod words;

pub use id_value::Sequence;
pub use identifier::Identifier;
pub use lexer::lex;
pub use places::{Lines, line_col};
pub use token::{Keyword, MAX_BYTES, Symbol, TextError, Token, TokenKind};
