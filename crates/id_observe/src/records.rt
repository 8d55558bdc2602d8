//! The elements whose records are looked at, and what those tell.

ghost use Rattle.std.proofs.Props.{props};
ghost use Rattle.id_observe.specs.Elements.{AreOf, KeepAll};

use crate::paths::Making;
use id_instr::Graph;
use id_step::Element;
use id_tag::{Context, NearHasher, Structure, Tag, Value};
use std::collections::HashMap;

/// Elements and their graph, lent.
///
/// Keeps: the elements are of the graph.
#[derive(Clone, Copy)]
pub struct Records<'t> {
    pub graph: &'t Graph,
    pub elements: &'t [Element<'t>],
    pub ghost of: { AreOf graph.now elements.now } by { Prim.hlevel props },
}

/// What the records of elements tell of the paths of tags and the names of structures: under which tag each context was
/// entered and each structure was made, those structures one element's record after another's, how many steps a path
/// has at most, and which values came to the answer.
///
/// Keeps: the elements are of the graph.
#[derive(Drop)]
pub struct Paths<'t> {
    pub graph: &'t Graph,
    pub elements: &'t [Element<'t>],
    pub enters: HashMap<Context, Tag, NearHasher>,
    pub makers: HashMap<Structure, Tag, NearHasher>,
    pub makings: Vec<Making>,
    pub most: u128,
    pub values: Vec<Value>,
    pub ghost of: { AreOf graph.now elements.now } by { Prim.hlevel props },
}

/// What the records tell of elements that keep all their events.
#[derive(Drop)]
pub struct Whole<'t> {
    pub paths: Paths<'t>,
    pub ghost kept: { KeepAll paths.elements.now } by { Prim.hlevel props },
}
