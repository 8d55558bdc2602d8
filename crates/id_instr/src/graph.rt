//! The graph, whose destinations are ports that exist (docs/GRAPH.md, "Operators").

ghost use Rattle.std.specs.Prelude.{◌≡◌, ◌<◌, ◌^◌, ◌↔◌, length, vec_len, IfOk, IfErr, IsOk, IsTrue};
ghost use Rattle.std.specs.Prelude.{All};
ghost use Rattle.std.specs.Prelude.{MatchOption};
ghost use Rattle.id_instr.specs.Graph.{parts, kind_at, ArcsExist, IsFirstBad, IsGraph, IsPort, PortsExist, TellsBadArc};

use crate::dests::Dest;
use crate::instr::{Block, Instr, PortKind};
use id_value::Sequence;
use std::fmt;
use std::marker::Model;
use thiserror::Error;

/// Why blocks and instructions are no graph.
#[derive(Clone, Copy, Debug, PartialEq, Eq, Error)]
pub enum GraphCause {
    /// The first instruction with a destination that is no port of the graph.
    #[error("instruction {instr} has a destination that is no port")]
    BadArc { instr: u32 },
}

/// Blocks and instructions that are no graph, as they were passed, and why.
#[derive(Drop, Error)]
#[error("{cause}")]
pub struct GraphError {
    pub blocks: Vec<Block>,
    pub instrs: Vec<Instr>,
    pub cause: GraphCause,
}

// The cause tells all that a reader wants; the lists are long.
impl fmt::Debug for GraphError {
    fn fmt<W: fmt::Write>(&self, f: &mut fmt::Formatter<W>) -> fmt::Result {
        fmt::Debug::fmt(&self.cause, f)
    }
}

/// The kind of what the port at a destination takes, if there is such a port. Takes no memory.
pub fn kind_at(instrs: &[Instr], dest: Dest) -> Option<PortKind>
    ensures { result ≡ kind_at instrs.now dest }
{
    let instr = instrs.get(dest.instr as usize)?;
    instr.op.port_kind(dest.port)
}

/// A graph: its blocks, and its instructions, whose numbers are their places in the list.
#[derive(Drop)]
pub struct Graph {
    blocks: Sequence<Block>,
    instrs: Sequence<Instr>,
}

impl Model for Graph {
    ghost use Rattle.id_instr.specs.Graph.{Parts, IsGraph};

    ghost Value = { Parts };

    ghost view = { λ g. record { blocks = g.blocks; instrs = g.instrs } };

    ghost invariant = { λ g. IsGraph (record { blocks = g.blocks; instrs = g.instrs }) };
}

impl Graph {
    /// The graph of these blocks and instructions, or `BadArc` at the first instruction with a
    /// destination that is no port. Takes no memory.
    pub fn new(blocks: Vec<Block>, instrs: Vec<Instr>) -> Result<Graph, GraphError>
        requires { vec_len instrs < 2 ^ 32 }
        ensures ok { IfOk result (λ g. g ≡ parts blocks.items instrs.items) }
        ensures accepts { IsOk result ↔ PortsExist (parts blocks.items instrs.items) }

        // A refusal hands both lists back.
        ensures cause { IfErr result (λ e. TellsBadArc instrs.items e.cause) }
        ensures blocks_back { IfErr result (λ e. e.blocks ≡ blocks) }
        ensures instrs_back { IfErr result (λ e. e.instrs ≡ instrs) }
    {
        match first_bad_arc(instrs.as_slice()) {
            None => Ok(Graph {
                blocks: Sequence::new(blocks),
                instrs: Sequence::new(instrs),
            }),
            Some(instr) => Err(GraphError {
                blocks,
                instrs,
                cause: GraphCause::BadArc { instr },
            }),
        }
    }

    /// The graph of these blocks and instructions, whose destinations are known to be ports. Tests nothing, and takes
    /// no memory.
    pub fn known(blocks: Vec<Block>, instrs: Vec<Instr>) -> Graph
        requires few { vec_len instrs < 2 ^ 32 }
        requires exist { PortsExist (parts blocks.items instrs.items) }
        ensures { result ≡ parts blocks.items instrs.items }
    {
        Graph {
            blocks: Sequence::new(blocks),
            instrs: Sequence::new(instrs),
        }
    }

    /// The blocks, in order. Takes no memory.
    pub fn blocks(&self) -> &[Block]
        ensures { result.now ≡ self.now.blocks }
    {
        self.blocks.as_slice()
    }

    /// The instructions, by number. Takes no memory.
    pub fn instrs(&self) -> &[Instr]
        ensures value { result.now ≡ self.now.instrs }
        ensures kept { IsGraph self.now }
    {
        self.instrs.as_slice()
    }
}

/// The first instruction with a destination that is no port, if there is one.
fn first_bad_arc(instrs: &[Instr]) -> Option<u32>
    requires { length instrs.now < 2 ^ 32 }
    ensures { MatchOption result (All (ArcsExist instrs.now) instrs.now) (IsFirstBad instrs.now) }
{
    for (number, instr) in instrs.iter().enumerate() {
        if !arcs_exist(instrs, instr) {
            return Some(number as u32);
        }
    }
    None
}

/// Whether every destination of an instruction is a port that exists.
fn arcs_exist(instrs: &[Instr], instr: &Instr) -> bool
    ensures { IsTrue result ↔ ArcsExist instrs.now instr.now }
{
    are_ports(instrs, instr.dests.as_slice()) && are_ports(instrs, instr.false_arcs())
}

/// Whether each of the destinations is a port that exists.
fn are_ports(instrs: &[Instr], dests: &[Dest]) -> bool
    ensures { IsTrue result ↔ All (IsPort instrs.now) dests.now }
{
    dests.iter().all(|dest| kind_at(instrs, *dest).is_some())
}
