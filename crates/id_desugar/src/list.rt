//! The list of what a row imports. Most rows import nothing, and such a list takes two words. Where all rows import
//! nothing, none of them has a list.

ghost use Rattle.std.specs.Prelude.{◌≡◌, ◌≤◌, ℕ, [], get_or, replicate, IfOk};

use std::alloc::{AllocError, Global};
use std::marker::Model;

/// Rows, in order. A list with none takes no memory of its own.
#[derive(Drop)]
pub struct Imports {
    rows: Option<Box<Vec<u32>>>,
}

impl Model for Imports {
    ghost use Rattle.std.specs.Prelude.{List, ℕ};
    ghost use Rattle.id_desugar.specs.Lists.{listed};

    ghost Value = { List ℕ };

    ghost view = { λ i. listed i.rows };
}

impl Imports {
    /// No row. Takes no memory.
    pub fn none() -> Imports
        ensures { result ≡ [] }
    {
        Imports { rows: None }
    }

    /// The list of these rows.
    pub fn new(alloc: Global, rows: Vec<u32>) -> Result<Imports, AllocError>
        ensures { IfOk result (λ i. i ≡ rows.items) }
    {
        if rows.is_empty() {
            return Ok(Imports::none());
        }
        let rows = Box::new(alloc, rows)?;
        Ok(Imports { rows: Some(rows) })
    }

    /// The rows, in order. Takes no memory.
    pub fn as_slice(&self) -> &[u32]
        ensures { result.now ≡ self.now }
    {
        match &self.rows {
            Some(rows) => rows.as_slice(),
            None => &[],
        }
    }
}

/// What each row imports.
#[derive(Drop)]
pub struct AllImports {
    /// How many rows there are.
    count: usize,
    /// The list of each row, unless all rows import nothing.
    lists: Option<Vec<Imports>>,
}

impl Model for AllImports {
    ghost use Rattle.std.specs.Prelude.{List, ℕ};
    ghost use Rattle.id_desugar.specs.Lists.{each_listed};

    ghost Value = { List (List ℕ) };

    ghost view = { λ a. each_listed a.count a.lists };
}

impl AllImports {
    /// So many rows that import nothing. Takes no memory.
    pub fn none(count: usize) -> AllImports
        ensures { result ≡ replicate count [] }
    {
        AllImports { count, lists: None }
    }

    /// The rows with these lists.
    pub fn new(lists: Vec<Imports>) -> AllImports
        ensures { result ≡ lists.items }
    {
        AllImports {
            count: lists.len(),
            lists: Some(lists),
        }
    }

    /// What a row imports. Takes no memory.
    pub fn get(&self, row: usize) -> &[u32]
        ensures { result.now ≡ get_or self.now row [] }
    {
        match &self.lists {
            Some(lists) if row < lists.len() => lists[row].as_slice(),
            _ => &[],
        }
    }

    /// How many rows have lists, from the first on: those behind them import nothing. Takes no memory.
    pub fn listed(&self) -> usize
        ensures { (row : ℕ) → result ≤ row → get_or self.now row [] ≡ [] }
    {
        match &self.lists {
            Some(lists) => lists.len(),
            None => 0,
        }
    }
}
