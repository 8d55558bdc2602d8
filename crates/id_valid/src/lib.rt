//! The validator: which graphs have no operand of a wrong kind and no port without an arc.
//!
//! Keeps: no instruction of a `Valid` graph is faulty.
//! Errors: `Invalid`, the refusal 23 or want of memory, with the graph handed back.
//! Read first: `specs/Validator.antt`, then `validate`.
//! Not here: ports and what operators send (`id_graph`), which graph a program has (`id_build`).
#![tactic(auto)]

mod past;
mod roles;
mod rules;
mod survey;
mod valid;

pub use valid::{Invalid, InvalidCause, Valid, validate};
