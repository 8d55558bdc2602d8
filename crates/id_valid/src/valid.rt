//! Graphs without a faulty instruction (docs/GRAPH.md, "Validator").

ghost use Rattle.std.specs.Prelude.{◌≡◌, IfOk, IfErr};
ghost use Rattle.id_valid.specs.Roles.{IsMain};
ghost use Rattle.id_valid.specs.Validator.{FirstFaulty, IsMainBlock, IsValid, TellsFault};

use crate::past::first_past;
use crate::roles::main_block;
use crate::rules::is_sound;
use crate::survey::Survey;
use id_instr::{Block, Graph};
use std::alloc::{AllocError, Global};
use std::fmt;
use std::marker::Model;
use thiserror::Error;

/// Why a graph is not known to be valid.
#[derive(Clone, Copy, Debug, PartialEq, Eq, Error)]
pub enum InvalidCause {
    /// The first faulty instruction by number, where a block may name one past the end.
    #[error("instruction {instr} is faulty")]
    Faulty { instr: u64 },
    /// A growth was refused.
    #[error("out of memory")]
    Memory,
}

/// A graph that is not known to be valid, as it was passed, and why.
#[derive(Drop, Error)]
#[error("{cause}")]
pub struct Invalid {
    pub graph: Graph,
    pub cause: InvalidCause,
}

// The cause tells all that a reader wants; the graph is long.
impl fmt::Debug for Invalid {
    fn fmt<W: fmt::Write>(&self, f: &mut fmt::Formatter<W>) -> fmt::Result {
        fmt::Debug::fmt(&self.cause, f)
    }
}

/// The graph, if no instruction of it is faulty.
pub fn validate(alloc: Global, graph: Graph) -> Result<Valid, Invalid>
    ensures ok { IfOk result (λ v. v ≡ graph) }
    ensures accepts { IfOk result IsValid }

    // A refusal tells the first faulty instruction, and hands the graph back.
    ensures faulty { IfErr result (λ e. TellsFault graph e.cause) }
    ensures back { IfErr result (λ e. e.graph ≡ graph) }
{
    let cause = match first_faulty(alloc, &graph) {
        Ok(None) => return Ok(Valid { graph }),
        Ok(Some(instr)) => InvalidCause::Faulty { instr },
        Err(_) => InvalidCause::Memory,
    };
    Err(Invalid { graph, cause })
}

/// The first faulty instruction of a graph, if there is one.
fn first_faulty(alloc: Global, graph: &Graph) -> Result<Option<u64>, AllocError>
    ensures { IfOk result (FirstFaulty graph.now) }
{
    let survey = Survey::new(alloc, graph)?;
    for number in 0..graph.instrs().len() {
        if !is_sound(&survey, number) {
            return Ok(Some(number as u64));
        }
    }
    Ok(first_past(graph))
}

/// A graph of which no instruction is faulty.
#[derive(Drop)]
pub struct Valid {
    graph: Graph,
}

impl Model for Valid {
    ghost use Rattle.id_instr.specs.Graph.{Parts};
    ghost use Rattle.id_valid.specs.Validator.{IsValid};

    ghost Value = { Parts };

    ghost view = { λ v. v.graph };

    ghost invariant = { λ v. IsValid v.graph };
}

impl Valid {
    /// A graph of which it is known that no instruction is faulty. Tests nothing, and takes no memory.
    pub fn known(graph: Graph) -> Valid
        requires { IsValid graph }
        ensures { result ≡ graph }
    {
        Valid { graph }
    }

    /// The graph. Takes no memory.
    pub fn graph(&self) -> &Graph
        ensures value { result.now ≡ self.now }
        ensures kept { IsValid self.now }
    {
        &self.graph
    }

    /// The block of main: the one whose first instruction has the place of instruction 0.
    /// Takes no memory.
    pub fn main_block(&self) -> &Block
        ensures main { IsMain self.now result.now }
        ensures kept { IsMainBlock self.now result.now }
    {
        match main_block(&self.graph) {
            Some(block) => block,
            None => unreachable!(),
        }
    }
}
