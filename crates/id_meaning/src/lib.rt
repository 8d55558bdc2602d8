//! What a program means: what follows from a fact by each rule, and the facts of each of its rounds.
//!
//! Keeps: what rules read (`Followed`), and room for the steps of a path (`Paths`).
//! Errors: `RoundsError`, the refusals 24 and 25, or want of memory.
//! Read first: docs/MEANING.md ("Facts", "Rules", "Rounds"), `specs/Given.antt` and `specs/Effects.antt`, then
//! `find_round`.
//! Not here: sources, their inputs and their facts as definitions (`id_source`); how facts compare (`id_facts`);
//! graphs, tags and messages, which the meaning does not speak of.
#![tactic(auto)]

mod calls;
mod counts;
mod effects;
mod followed;
mod given;
mod loops;
mod operators;
mod paths;
mod round;
mod rules;
mod run;
mod structures;

pub use id_source::{
    Ask, Fact, InputError, Inputs, NameValue, Path, PathStep, Put, Shape, Site, SourceFault,
    SourceValue, param_name, read_inputs,
};
pub use paths::{Paths, write_steps};
pub use round::{MAX_FACTS, MAX_ROUNDS, Round, RoundsError, find_round, rounds};
pub use run::facts_of_round;
