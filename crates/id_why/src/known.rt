//! The facts of a round, to be looked up by things.

ghost use Rattle.std.specs.Prelude.{◌≡◌, ◌∷◌, ◌++◌, [], IfOk, OnOk};
ghost use Rattle.id_source.specs.Links.{GainsFrom};
ghost use Rattle.id_facts.specs.Cells.{items};
ghost use Rattle.id_why.specs.Known.{AreIndexed, Indexes, ask_by, asks, gives, is_given, spot_of, store_number, values};

use id_check::Checked;
use id_facts::{
    CHAINS, Cells, Facts, Point, RowFact, RowValue, Trail, chain_at, path_of, row_of, same_trail,
};
use id_source::{Edges, node_of};
use id_table::Node;
use std::alloc::{AllocError, Global};

/// A cell of a structure.
#[derive(Clone, Copy)]
pub struct Cell {
    pub name: usize,
    pub index: i64,
}

/// Facts, with what finds them by things.
#[derive(Drop)]
pub struct Known {
    pub cells: Cells,
    /// For each chain the numbers of the facts of paths and rows in it.
    pub points: Edges,
    /// For the number of each fact those of the facts by which rows are On at paths that begin there.
    pub turns: Edges,
    /// The numbers of the facts by which stores are On.
    pub stores: Vec<usize>,
}

impl Known {
    /// These facts.
    pub fn new(alloc: Global, checked: &Checked, facts: &Facts) -> Result<Known, AllocError>
        ensures facts { IfOk result (λ k. items k.cells ≡ facts.now) }
        ensures indexed { IfOk result (AreIndexed checked.now) }
    {
        let mut cells = Cells::new(alloc)?;
        cells.add_all(facts.as_slice())?;
        let mut known = Known {
            cells,
            points: Edges::new(alloc, CHAINS)?,
            turns: Edges::new(alloc, facts.len())?,
            stores: Vec::new(alloc),
        };
        for number in 0..facts.len() {
            known.add(checked, number, facts.fact(number))?;
        }
        Ok(known)
    }

    /// Adds the number of this fact where it is looked up.
    fn add(&mut self, checked: &Checked, number: usize, fact: RowFact) -> Result<(), AllocError>
        ensures { OnOk result (Indexes checked.now self.old self.new number fact) }
    {
        self.points
            .add(chain_at(path_of(fact), row_of(fact)), number)?;
        match fact {
            RowFact::On { path, row } => {
                add_turn(&mut self.turns, path, number)?;
                add_store(&mut self.stores, node_of(checked, row), number)
            }
            _ => Ok(()),
        }
    }

    /// Whether the thing has a value, or is a store that has put one into a cell.
    pub fn is_given(&self, point: Point) -> bool
        ensures { result ≡ is_given self.now point }
    {
        for number in self.points.of(chain_at(point.path, point.row)) {
            if gives(self.cells.fact(*number), point) {
                return true;
            }
        }
        false
    }

    /// The cells that the thing asks for.
    pub fn asks(&self, alloc: Global, point: Point) -> Result<Vec<Cell>, AllocError>
        ensures { IfOk result (λ v. v.items ≡ asks self.now point) }
    {
        let mut cells = Vec::new(alloc);
        for number in self.points.of(chain_at(point.path, point.row)) {
            if let Some(cell) = ask_by(self.cells.fact(*number), point) {
                cells.push(cell)?;
            }
        }
        Ok(cells)
    }

    /// What the row Has at the path.
    pub fn values(
        &self,
        alloc: Global,
        path: Trail,
        row: usize,
    ) -> Result<Vec<RowValue>, AllocError>
        ensures { IfOk result (λ v. v.items ≡ values self.now path row) }
    {
        let none = RowFact::On {
            path: Trail::Outermost,
            row: 0,
        };
        self.cells.values(alloc, none, path, row)
    }
}

/// Adds the number of a fact at a path to those of the fact where the path begins, if it has a step.
fn add_turn(turns: &mut Edges, path: Trail, number: usize) -> Result<(), AllocError>
    ensures { OnOk result (GainsFrom turns.old turns.new (spot_of path) (number ∷ [])) }
{
    match path {
        Trail::Below { spot, .. } => turns.add(spot, number),
        Trail::Outermost => Ok(()),
    }
}

/// Adds the number of a fact that something of this node is On, if it is a store.
fn add_store(stores: &mut Vec<usize>, node: Node, number: usize) -> Result<(), AllocError>
    ensures { OnOk result (stores.new.items ≡ stores.old.items ++ store_number node number) }
{
    match node {
        Node::Store { .. } => {
            stores.push(number)?;
            Ok(())
        }
        _ => Ok(()),
    }
}

/// Whether the fact gives the thing a value, or tells that it has put one into a cell.
fn gives(fact: RowFact, point: Point) -> bool
    ensures { result ≡ gives point fact }
{
    match fact {
        RowFact::Has { path, row, .. } | RowFact::Put { path, row, .. } => {
            same_trail(path, point.path) && row == point.row
        }
        _ => false,
    }
}

/// The cell that the thing asks for by the fact, if it is one of that.
fn ask_by(fact: RowFact, point: Point) -> Option<Cell>
    ensures { result ≡ ask_by point fact }
{
    match fact {
        RowFact::Ask {
            path,
            row,
            name,
            index,
        } if same_trail(path, point.path) && row == point.row => Some(Cell { name, index }),
        _ => None,
    }
}
