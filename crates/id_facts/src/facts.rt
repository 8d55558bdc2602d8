//! Facts by path and row, each once (docs/MEANING.md, "Rounds").

ghost use Rattle.std.specs.Prelude.{◌≡◌, ◌<◌, [], IfOk, OnOk};
ghost use Rattle.id_facts.specs.declared.facts.RowFact.TheVariants.{Ask, Has, Put, Shape};
ghost use Rattle.id_facts.specs.RowFacts.{chain_at, chain_by, chain_of, fact_at, index_mark, is_inside, is_on};
ghost use Rattle.id_facts.specs.RowFacts.{is_path_inside, is_value_inside, mark_of, member_chain, path_of, row_of};
ghost use Rattle.id_facts.specs.RowFacts.{same_fact, same_trail, same_value, sort_mark, value_mark};

use id_source::Edges;
use std::alloc::{AllocError, Global};
use std::marker::Model;

/// A path.
#[derive(Clone, Copy)]
pub enum Trail {
    /// The empty one.
    Outermost,
    /// One whose last step is to the call or the loop that is On by the fact of this number: the call, or this
    /// iteration, from 0.
    Below { spot: usize, number: u64 },
}

/// A value of a row.
#[derive(Clone, Copy)]
pub enum RowValue {
    Int(i64),
    Bool(bool),
    /// The structure of the `array` that is On by the fact of this number.
    Name(usize),
}

/// A fact by path and row.
#[derive(Clone, Copy)]
pub enum RowFact {
    On {
        path: Trail,
        row: usize,
    },
    Has {
        path: Trail,
        row: usize,
        value: RowValue,
    },
    /// The structure has these bounds.
    Shape {
        name: usize,
        low: i64,
        high: i64,
    },
    /// The store at the path and row puts the value into the cell.
    Put {
        path: Trail,
        row: usize,
        name: usize,
        index: i64,
        value: RowValue,
    },
    /// The fetch at the path and row asks for the cell.
    Ask {
        path: Trail,
        row: usize,
        name: usize,
        index: i64,
    },
}

/// In how many chains facts hang.
pub const CHAINS: usize = 262_144;

/// What facts are looked up by.
#[derive(Clone, Copy)]
pub enum Sort {
    Shapes,
    Named,
    Puts,
    Asks,
}

/// Whether the fact is that the row is On at the path.
pub fn is_on(fact: RowFact, path: Trail, row: usize) -> bool
    ensures { result ≡ is_on path row fact }
{
    match fact {
        RowFact::On {
            path: there,
            row: other,
        } => same_trail(there, path) && other == row,
        _ => false,
    }
}

/// Whether the two paths are one.
pub fn same_trail(a: Trail, b: Trail) -> bool
    ensures { result ≡ same_trail a b }
{
    match (a, b) {
        (Trail::Outermost, Trail::Outermost) => true,
        (
            Trail::Below { spot, number },
            Trail::Below {
                spot: other,
                number: second,
            },
        ) => spot == other && number == second,
        _ => false,
    }
}

/// Whether the two values are one.
fn same_value(a: RowValue, b: RowValue) -> bool
    ensures { result ≡ same_value a b }
{
    match (a, b) {
        (RowValue::Int(m), RowValue::Int(n)) => m == n,
        (RowValue::Bool(m), RowValue::Bool(n)) => m == n,
        (RowValue::Name(m), RowValue::Name(n)) => m == n,
        _ => false,
    }
}

/// Whether the two facts are one.
fn same_fact(a: RowFact, b: RowFact) -> bool
    ensures { result ≡ same_fact a b }
{
    match a {
        RowFact::On { path, row } => is_on(b, path, row),
        RowFact::Has { path, row, value } => is_has(b, path, row, value),
        RowFact::Shape { name, low, high } => is_shape(b, name, low, high),
        RowFact::Put {
            path,
            row,
            name,
            index,
            value,
        } => is_put(b, path, row, name, index, value),
        RowFact::Ask {
            path,
            row,
            name,
            index,
        } => is_ask(b, path, row, name, index),
    }
}

/// Whether the fact is that the row Has the value at the path.
fn is_has(fact: RowFact, path: Trail, row: usize, value: RowValue) -> bool
    ensures { result ≡ same_fact (Has path row value) fact }
{
    match fact {
        RowFact::Has {
            path: there,
            row: other,
            value: last,
        } => same_trail(path, there) && row == other && same_value(value, last),
        _ => false,
    }
}

/// Whether the fact is that the structure has these bounds.
fn is_shape(fact: RowFact, name: usize, low: i64, high: i64) -> bool
    ensures { result ≡ same_fact (Shape name low high) fact }
{
    match fact {
        RowFact::Shape {
            name: other,
            low: first,
            high: last,
        } => name == other && low == first && high == last,
        _ => false,
    }
}

/// Whether the fact is that the store puts the value into the cell.
fn is_put(fact: RowFact, path: Trail, row: usize, name: usize, index: i64, value: RowValue) -> bool
    ensures { result ≡ same_fact (Put path row name index value) fact }
{
    match fact {
        RowFact::Put {
            path: there,
            row: other,
            name: second,
            index: next,
            value: last,
        } => {
            same_trail(path, there)
                && row == other
                && name == second
                && index == next
                && same_value(value, last)
        }
        _ => false,
    }
}

/// Whether the fact is that the fetch asks for the cell.
fn is_ask(fact: RowFact, path: Trail, row: usize, name: usize, index: i64) -> bool
    ensures { result ≡ same_fact (Ask path row name index) fact }
{
    match fact {
        RowFact::Ask {
            path: there,
            row: other,
            name: second,
            index: next,
        } => same_trail(path, there) && row == other && name == second && index == next,
        _ => false,
    }
}

/// The path of the fact; of a Shape, the empty one.
pub fn path_of(fact: RowFact) -> Trail
    ensures { result ≡ path_of fact }
{
    match fact {
        RowFact::On { path, .. }
        | RowFact::Has { path, .. }
        | RowFact::Put { path, .. }
        | RowFact::Ask { path, .. } => path,
        RowFact::Shape { .. } => Trail::Outermost,
    }
}

/// The row of the fact; of a Shape, the first.
pub fn row_of(fact: RowFact) -> usize
    ensures { result ≡ row_of fact }
{
    match fact {
        RowFact::On { row, .. }
        | RowFact::Has { row, .. }
        | RowFact::Put { row, .. }
        | RowFact::Ask { row, .. } => row,
        RowFact::Shape { .. } => 0,
    }
}

/// A number for the path, by which facts and queues are found.
fn mark_of(path: Trail) -> usize
    ensures mark { result ≡ mark_of path }
    ensures within { result < 60000000000 }
{
    match path {
        Trail::Outermost => 0,
        Trail::Below { spot, number } => {
            (spot % CHAINS + 1) * 40_503 + (number % CHAINS as u64) as usize * 162_013
        }
    }
}

/// The chain of facts by which a row is On, or Has values, at a path.
pub fn chain_at(path: Trail, row: usize) -> usize
    ensures chain { result ≡ chain_at path row }
    ensures within { result < 262144 }
{
    (row % CHAINS + mark_of(path)) % CHAINS
}

/// The chain of facts of this sort about a structure, or a cell of it.
pub fn chain_by(sort: Sort, name: usize, index: i64) -> usize
    ensures chain { result ≡ chain_by sort name index }
    ensures within { result < 262144 }
{
    (sort_mark(sort) + name % CHAINS * 40_503 + index_mark(index) * 162_013) % CHAINS
}

/// A number for the sort of facts.
fn sort_mark(sort: Sort) -> usize
    ensures mark { result ≡ sort_mark sort }
    ensures within { result < 262144 }
{
    match sort {
        Sort::Shapes => 65_537,
        Sort::Named => 98_317,
        Sort::Puts => 131_101,
        Sort::Asks => 196_613,
    }
}

/// A number for an index or a whole number.
fn index_mark(index: i64) -> usize
    ensures mark { result ≡ index_mark index }
    ensures within { result < 262144 }
{
    (index.unsigned_abs() % CHAINS as u64) as usize
}

/// The chain in which the fact is looked up.
pub fn chain_of(fact: RowFact) -> usize
    ensures chain { result ≡ chain_of fact }
    ensures within { result < 262144 }
{
    match fact {
        RowFact::On { path, row } => chain_at(path, row),
        RowFact::Has { path, row, .. } => chain_at(path, row),
        RowFact::Shape { name, .. } => chain_by(Sort::Shapes, name, 0),
        RowFact::Put { name, index, .. } => chain_by(Sort::Puts, name, index),
        RowFact::Ask { name, index, .. } => chain_by(Sort::Asks, name, index),
    }
}

/// All facts that are found, each once.
#[derive(Drop)]
pub struct Facts {
    items: Vec<RowFact>,
    /// For each chain the numbers of its facts.
    chains: Edges,
}

impl Model for Facts {
    ghost use Rattle.std.specs.Prelude.{List};
    ghost use Rattle.id_facts.specs.declared.facts.RowFact.{RowFact};
    ghost use Rattle.id_facts.specs.RowFacts.{AreHeld};

    ghost Value = { List RowFact };

    ghost view = { λ f. f.items.items };

    ghost invariant = { λ f. AreHeld f.items.items f.chains };
}

impl Facts {
    ghost use Rattle.std.specs.Prelude.{◌≡◌, [], length, true, OnOk, IfOk};
    ghost use Rattle.id_facts.specs.RowFacts.{AreBefore, all_learnt, is_among, learnt};

    /// No facts.
    pub fn new(alloc: Global) -> Result<Facts, AllocError>
        ensures { IfOk result (λ f. f ≡ []) }
    {
        Ok(Facts {
            items: Vec::new(alloc),
            chains: Edges::new(alloc, CHAINS)?,
        })
    }

    /// The facts, in the order in which they came.
    pub fn as_slice(&self) -> &[RowFact]
        ensures { result.now ≡ self.now }
    {
        self.items.as_slice()
    }

    /// How many facts there are.
    pub fn len(&self) -> usize
        ensures { result ≡ length self.now }
    {
        self.items.len()
    }

    /// The fact of this number; past the last one, that the first row is On at the empty path.
    pub fn fact(&self, number: usize) -> RowFact
        ensures is { result ≡ fact_at self.now number }
        ensures before { is_path_inside number (path_of result) ≡ true }
        ensures kept { AreBefore self.now }
    {
        if number < self.items.len() {
            self.items[number]
        } else {
            RowFact::On {
                path: Trail::Outermost,
                row: 0,
            }
        }
    }

    /// Adds those of the facts that are not there.
    pub fn learn_all(&mut self, facts: &[RowFact]) -> Result<(), AllocError>
        ensures { OnOk result (self.new ≡ all_learnt self.old facts.now) }
    {
        for fact in facts {
            self.learn(*fact)?;
        }
        Ok(())
    }

    /// Adds the fact, if it is not there, and all is there that it speaks of.
    fn learn(&mut self, fact: RowFact) -> Result<(), AllocError>
        ensures { OnOk result (self.new ≡ learnt self.old fact) }
    {
        if is_inside(self.items.len(), fact) && !self.has(fact) {
            self.chains.add(member_chain(fact), self.items.len())?;
            self.items.push(fact)?;
        }
        Ok(())
    }

    /// Whether the fact is there.
    fn has(&self, fact: RowFact) -> bool
        ensures { result ≡ is_among fact self.now }
    {
        for number in self.chains.of(member_chain(fact)) {
            if *number < self.items.len() && same_fact(self.items[*number], fact) {
                return true;
            }
        }
        false
    }
}

/// Whether the path and the structures of the fact are there, where there are so many facts.
fn is_inside(count: usize, fact: RowFact) -> bool
    ensures { result ≡ is_inside count fact }
{
    match fact {
        RowFact::On { path, .. } => is_path_inside(count, path),
        RowFact::Has { path, value, .. } => {
            is_path_inside(count, path) && is_value_inside(count, value)
        }
        RowFact::Shape { name, .. } => name < count,
        RowFact::Put {
            path,
            name,
            value,
            ..
        } => is_path_inside(count, path) && name < count && is_value_inside(count, value),
        RowFact::Ask { path, name, .. } => is_path_inside(count, path) && name < count,
    }
}

/// Whether the path is there, where there are so many facts.
fn is_path_inside(count: usize, path: Trail) -> bool
    ensures { result ≡ is_path_inside count path }
{
    match path {
        Trail::Outermost => true,
        Trail::Below { spot, .. } => spot < count,
    }
}

/// Whether the value is there, where there are so many facts.
fn is_value_inside(count: usize, value: RowValue) -> bool
    ensures { result ≡ is_value_inside count value }
{
    match value {
        RowValue::Name(name) => name < count,
        _ => true,
    }
}

/// The chain in which the fact is among all.
fn member_chain(fact: RowFact) -> usize
    ensures chain { result ≡ member_chain fact }
    ensures within { result < 262144 }
{
    match fact {
        RowFact::On { .. } => chain_of(fact),
        RowFact::Has { value, .. } => (chain_of(fact) + value_mark(value) * 77_041) % CHAINS,
        RowFact::Shape { low, high, .. } => {
            (chain_of(fact) + index_mark(low) * 77_041 + index_mark(high) * 29_327) % CHAINS
        }
        RowFact::Put {
            path,
            row,
            value,
            ..
        } => { (chain_of(fact) + chain_at(path, row) * 3 + value_mark(value) * 77_041) % CHAINS }
        RowFact::Ask { path, row, .. } => (chain_of(fact) + chain_at(path, row) * 3) % CHAINS,
    }
}

/// A number for a value.
fn value_mark(value: RowValue) -> usize
    ensures mark { result ≡ value_mark value }
    ensures within { result < 262147 }
{
    match value {
        RowValue::Int(number) => index_mark(number) + 2,
        RowValue::Bool(true) => 1,
        RowValue::Bool(false) => 0,
        RowValue::Name(name) => name % CHAINS,
    }
}
