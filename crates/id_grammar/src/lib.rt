//! The grammar: trees, the productions of each, and the parts that a parser makes, one token at a time (`Tokens`).
//!
//! Keeps: `End` is the last of `Tokens`, and no other is `End`.
//! Errors: `TreeError`, the refusals 5 and 6 or want of memory.
//! Read first: docs/LANGUAGE.md ("Grammar", "Nesting", "Place"), `specs/Tree.antt`, `specs/Grammar.antt`,
//! then `Expr`.
//! Not here: tokens (`id_text`), operators (`id_value`), the productions' readers (`id_tree`).
#![tactic(auto)]

/// What is found, unless it is an error, which is the answer then.
macro_rules! found {
    ($result:expr) => {
        match $result {
            Ok(found) => found,
            Err(error) => return Err(error),
        }
    };
}

mod operators;
mod part;
mod phrase;
mod tokens;
mod tree;

pub use operators::{open_behind, open_first};
pub use part::{
    ArgumentList, IndexPart, Part, Statement, StatementList, add_argument, add_statement, array,
    binary, binding, block, call, conditional, fetch, first_argument, fitted, indexed, name, next,
    no_arguments, no_statements, number, store, truth, unary, whole_for, whole_loop, with_rest,
};
pub use phrase::{Level, Scope};
pub use tokens::{Tokens, Word, copied, is_sign, truth_of};
pub use tree::{
    Block, Call, Def, Expr, For, Loop, MAX_NESTING, Pair, Param, Program, Stmt, TreeError, Triple,
};
