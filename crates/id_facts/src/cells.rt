//! What finds facts by path and row.

ghost use Rattle.std.specs.Prelude.{◌≡◌, ◌<◌, [], ◌∷◌, IfOk, OnOk};
ghost use Rattle.id_facts.specs.Cells.{AddsFacts, AreChained, ask_by, asks, bounds_by, find, items};
ghost use Rattle.id_facts.specs.RowFacts.{fact_at};
ghost use Rattle.id_facts.specs.Cells.{name_of, named, named_by, next_of, out_of, outer, put_by, puts, queue_of};
ghost use Rattle.id_facts.specs.Cells.{shapes, value_by, values};

use crate::facts::{
    CHAINS, RowFact, RowValue, Sort, Trail, chain_at, chain_by, chain_of, is_on, path_of,
    same_trail,
};
use id_source::Edges;
use std::alloc::{AllocError, Global};

/// A path and a row.
#[derive(Clone, Copy)]
pub struct Point {
    pub path: Trail,
    pub row: usize,
}

/// The bounds of a structure.
#[derive(Clone, Copy)]
pub struct Bounds {
    pub low: i64,
    pub high: i64,
}

/// In how many queues names and loops wait.
pub const QUEUES: usize = 65_536;

/// Facts in the order in which they came, to be looked up: On and Has by path and row, Has that give a structure by
/// that, Shape by structure, Put and Ask by cell.
#[derive(Drop)]
pub struct Cells {
    pub items: Vec<RowFact>,
    /// For each chain the numbers of its facts.
    pub chains: Edges,
}

impl Cells {
    /// No facts.
    pub fn new(alloc: Global) -> Result<Cells, AllocError>
        ensures none { IfOk result (λ c. items c ≡ []) }
        ensures chained { IfOk result AreChained }
    {
        Ok(Cells {
            items: Vec::new(alloc),
            chains: Edges::new(alloc, CHAINS)?,
        })
    }

    /// Adds these facts.
    pub fn add_all(&mut self, facts: &[RowFact]) -> Result<(), AllocError>
        ensures { OnOk result (AddsFacts self.old self.new facts.now) }
    {
        for fact in facts {
            self.add(*fact)?;
        }
        Ok(())
    }

    /// Adds a fact.
    fn add(&mut self, fact: RowFact) -> Result<(), AllocError>
        ensures { OnOk result (AddsFacts self.old self.new (fact ∷ [])) }
    {
        let number = self.items.len();
        self.items.push(fact)?;
        self.chains.add(chain_of(fact), number)?;
        match name_of(fact) {
            Some(name) => self.chains.add(chain_by(Sort::Named, name, 0), number)?,
            None => {}
        }
        Ok(())
    }

    /// The number of the fact that the row is On at the path, if it is.
    pub fn find(&self, path: Trail, row: usize) -> Option<usize>
        ensures { result ≡ find self.now path row }
    {
        for number in self.chains.of(chain_at(path, row)) {
            if is_on(self.fact(*number), path, row) {
                return Some(*number);
            }
        }
        None
    }

    /// The fact of this number; past the last one, that the first row is On at the empty path.
    pub fn fact(&self, number: usize) -> RowFact
        ensures { result ≡ fact_at (items self.now) number }
    {
        if number < self.items.len() {
            self.items[number]
        } else {
            RowFact::On {
                path: Trail::Outermost,
                row: 0,
            }
        }
    }

    /// The path without its last d steps.
    pub fn out_of(&self, path: Trail, d: usize) -> Trail
        ensures { result ≡ out_of (items self.now) d path }
    {
        let mut rest = path;
        for _step in 0..d {
            rest = self.outer(rest);
        }
        rest
    }

    /// The path without its last step.
    fn outer(&self, path: Trail) -> Trail
        ensures { result ≡ outer (items self.now) path }
    {
        match path {
            Trail::Below { spot, .. } => path_of(self.fact(spot)),
            Trail::Outermost => Trail::Outermost,
        }
    }

    /// What the row Has at the path; of the row that a fact is of that is followed, that value alone.
    pub fn values(
        &self,
        alloc: Global,
        followed: RowFact,
        path: Trail,
        row: usize,
    ) -> Result<Vec<RowValue>, AllocError>
        ensures { IfOk result (λ v. v.items ≡ values self.now followed path row) }
    {
        let mut values = Vec::new(alloc);
        if let Some(value) = value_at(followed, path, row) {
            values.push(value)?;
            return Ok(values);
        }
        for number in self.chains.of(chain_at(path, row)) {
            if let Some(value) = value_at(self.fact(*number), path, row) {
                values.push(value)?;
            }
        }
        Ok(values)
    }

    /// The bounds of the structure.
    pub fn shapes(&self, alloc: Global, name: usize) -> Result<Vec<Bounds>, AllocError>
        ensures { IfOk result (λ v. v.items ≡ shapes self.now name) }
    {
        let mut shapes = Vec::new(alloc);
        for number in self.chains.of(chain_by(Sort::Shapes, name, 0)) {
            if let Some(bounds) = bounds_at(self.fact(*number), name) {
                shapes.push(bounds)?;
            }
        }
        Ok(shapes)
    }

    /// Where the structure is a value.
    pub fn named(&self, alloc: Global, name: usize) -> Result<Vec<Point>, AllocError>
        ensures { IfOk result (λ v. v.items ≡ named self.now name) }
    {
        let mut points = Vec::new(alloc);
        for number in self.chains.of(chain_by(Sort::Named, name, 0)) {
            if let Some(point) = named_at(self.fact(*number), name) {
                points.push(point)?;
            }
        }
        Ok(points)
    }

    /// What is put into the cell.
    pub fn puts(&self, alloc: Global, name: usize, index: i64) -> Result<Vec<RowValue>, AllocError>
        ensures { IfOk result (λ v. v.items ≡ puts self.now name index) }
    {
        let mut values = Vec::new(alloc);
        for number in self.chains.of(chain_by(Sort::Puts, name, index)) {
            if let Some(value) = put_at(self.fact(*number), name, index) {
                values.push(value)?;
            }
        }
        Ok(values)
    }

    /// The fetches that ask for the cell.
    pub fn asks(&self, alloc: Global, name: usize, index: i64) -> Result<Vec<Point>, AllocError>
        ensures { IfOk result (λ v. v.items ≡ asks self.now name index) }
    {
        let mut points = Vec::new(alloc);
        for number in self.chains.of(chain_by(Sort::Asks, name, index)) {
            if let Some(point) = ask_at(self.fact(*number), name, index) {
                points.push(point)?;
            }
        }
        Ok(points)
    }
}

/// The value that the row Has at the path by the fact, if it is one of that.
fn value_at(fact: RowFact, path: Trail, row: usize) -> Option<RowValue>
    ensures { result ≡ value_by path row fact }
{
    match fact {
        RowFact::Has {
            path: there,
            row: other,
            value,
        } if same_trail(there, path) && other == row => Some(value),
        _ => None,
    }
}

/// The bounds of the structure by the fact, if it is one of them.
fn bounds_at(fact: RowFact, name: usize) -> Option<Bounds>
    ensures { result ≡ bounds_by name fact }
{
    match fact {
        RowFact::Shape {
            name: other,
            low,
            high,
        } if other == name => Some(Bounds { low, high }),
        _ => None,
    }
}

/// Where the structure is a value by the fact, if it is one of that.
fn named_at(fact: RowFact, name: usize) -> Option<Point>
    ensures { result ≡ named_by name fact }
{
    match fact {
        RowFact::Has {
            path,
            row,
            value: RowValue::Name(other),
        } if other == name => Some(Point { path, row }),
        _ => None,
    }
}

/// The structure that the fact gives, if it gives one.
fn name_of(fact: RowFact) -> Option<usize>
    ensures { result ≡ name_of fact }
{
    match fact {
        RowFact::Has {
            value: RowValue::Name(name),
            ..
        } => Some(name),
        _ => None,
    }
}

/// What is put into the cell by the fact, if it is one of that.
fn put_at(fact: RowFact, name: usize, index: i64) -> Option<RowValue>
    ensures { result ≡ put_by name index fact }
{
    match fact {
        RowFact::Put {
            name: other,
            index: there,
            value,
            ..
        } if other == name && there == index => Some(value),
        _ => None,
    }
}

/// The fetch that asks for the cell by the fact, if it is one of that.
fn ask_at(fact: RowFact, name: usize, index: i64) -> Option<Point>
    ensures { result ≡ ask_by name index fact }
{
    match fact {
        RowFact::Ask {
            path,
            row,
            name: other,
            index: there,
        } if other == name && there == index => Some(Point { path, row }),
        _ => None,
    }
}

/// The path of the next iteration, if there may be one.
pub fn next_of(path: Trail) -> Option<Trail>
    ensures { result ≡ next_of path }
{
    match path {
        Trail::Below { spot, number } if number < u64::MAX => Some(Trail::Below {
            spot,
            number: number + 1,
        }),
        _ => None,
    }
}

/// The queue in which names wait for the binder with this path and row.
pub fn queue_of(path: Trail, row: usize) -> usize
    ensures queue { result ≡ queue_of path row }
    ensures within { result < 65536 }
{
    chain_at(path, row) % QUEUES
}
