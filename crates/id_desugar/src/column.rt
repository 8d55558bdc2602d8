//! For each row another row, or none, in four bytes.

ghost use Rattle.std.specs.Prelude.{◌≡◌, ◌<◌, ℕ, length, get_or, slice_set, replicate, unwrap_or, IfOk, IfSome};
ghost use Rattle.std.specs.Prelude.{None};
ghost use Rattle.id_desugar.specs.Lists.{row_of};

use std::alloc::{AllocError, Global};
use std::marker::Model;

/// The most rows that are noted. No text comes near it.
pub const MOST: usize = 0xffff_ffff;

/// For each row another row, or none.
#[derive(Drop)]
pub struct Column {
    /// For each row 0 for none, or the other row's number and 1.
    numbers: Vec<u32>,
}

impl Model for Column {
    ghost use Rattle.std.specs.Prelude.{List, ℕ, Option, map};
    ghost use Rattle.id_desugar.specs.Lists.{row_of};

    ghost Value = { List (Option ℕ) };

    ghost view = { λ c. map row_of c.numbers.items };
}

impl Column {
    /// So many rows with none.
    pub fn none(alloc: Global, count: usize) -> Result<Column, AllocError>
        ensures { IfOk result (λ c. c ≡ replicate count None) }
    {
        let numbers = vec![in alloc; 0u32; count]?;
        Ok(Column { numbers })
    }

    /// How many rows there are. Takes no memory.
    pub fn len(&self) -> usize
        ensures { result ≡ length self.now }
    {
        self.numbers.len()
    }

    /// What stands at a row. Takes no memory.
    pub fn get(&self, row: usize) -> Option<u32>
        ensures row { result ≡ get_or self.now row None }
        ensures below { IfSome result (λ r. r < MOST) }
    {
        match self.numbers.get(row) {
            Some(number) => row_of(*number),
            None => None,
        }
    }

    /// What stands at a row, or 0. Takes no memory.
    pub fn get_or_first(&self, row: usize) -> u32
        ensures { result ≡ unwrap_or (get_or self.now row None) 0 }
    {
        match self.get(row) {
            Some(other) => other,
            None => 0,
        }
    }

    /// Puts this at a row. Takes no memory.
    pub fn set(&mut self, row: usize, other: Option<u32>)
        requires within { row < length self.old }
        requires below { IfSome other (λ r. r < MOST) }
        ensures { self.new ≡ slice_set self.old row other }
    {
        self.numbers[row] = number_of(other);
    }
}

/// The row that a number stands for, if it stands for one.
fn row_of(number: u32) -> Option<u32>
    ensures row { result ≡ row_of number }
    ensures below { IfSome result (λ r. r < MOST) }
{
    if number == 0 { None } else { Some(number - 1) }
}

/// The number that stands for this row, or for none.
fn number_of(row: Option<u32>) -> u32
    requires { IfSome row (λ r. r < MOST) }
    ensures { row_of result ≡ row }
{
    match row {
        Some(row) => row + 1,
        None => 0,
    }
}
