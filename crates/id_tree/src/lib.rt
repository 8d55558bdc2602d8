//! The program that tokens are, read off them definition by definition, a function for each production.
//!
//! Keeps: in a `Reader` there is room for an expression; that the places of a program differ, and are starts of
//! tokens, are clauses of `parse`.
//! Errors: `TreeError`, the refusals 5 and 6 or want of memory.
//! Read first: docs/LANGUAGE.md ("Grammar", "Nesting", "Place"), `specs/Grammar.antt` and `specs/Readers.antt`
//! (`id_grammar`), `specs/Accepted.antt`, then `parse`; for expressions and statements `specs/Reading.antt`, then
//! `Reader::parse_enclosed`.
//! Not here: trees and the grammar (`id_grammar`), names and kinds (`id_check`).
#![tactic(auto)]

/// What is found, unless it is an error, which is the answer then.
macro_rules! found {
    ($result:expr) => {
        match $result {
            Ok(found) => found,
            Err(error) => return Err(error),
        }
    };
}

mod blocks;
mod heads;
mod parser;
mod program;
mod reader;

pub use id_grammar::{
    Block, Call, Def, Expr, For, Loop, MAX_NESTING, Pair, Param, Program, Stmt, TreeError, Triple,
};
pub use id_value::{BinaryOp, Constant, Kind, UnaryOp};
pub use program::parse;
