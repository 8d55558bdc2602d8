//! The checked program: each name has its binder, and each row its kind.
//!
//! Keeps: which rows are held, and which uses wait, as far as the rows are passed (`Scopes`); that a binder is a row
//! (`Bindings`). Of the checked program: the rows are those of its tree; which definition is `main`; which binder each
//! use of a name has, which kind each row, and how many loops are round it; that no cause to refuse the program holds;
//! that no two things have one place; that the number of each literal is one of the language.
//! Errors: `CheckError`, the refusals 7 to 13 or want of memory, with the program handed back: the first of those found
//! stays.
//! Read first: `Checked`, `specs/Programs.antt`, then `check`; of binders, kinds and causes `specs/Scopes.antt`,
//! `specs/Kinds.antt`, `specs/Causes.antt`; docs/LANGUAGE.md ("Names", "Kinds").
//! Not here: the table of parts (`id_table`), the graph (`id_build`).
#![tactic(auto)]

mod access;
mod cause;
mod checked;
mod kinds;
mod literals;
mod numbers;
mod params;
mod program;
mod rows;
mod scope;
mod tabled;
mod typed;
mod wants;

pub use cause::{CheckCause, CheckError};
pub use checked::Checked;
pub use program::{check, check_table, into_table};
pub use tabled::Tabled;
