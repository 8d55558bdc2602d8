//! Things, each once.

ghost use Rattle.std.specs.Prelude.{◌≡◌, ◌<◌, [], length, slice_get, Some, IfOk, OnOk};
ghost use Rattle.id_why.specs.Things.{is_thing, same_point, with_all, with_one};

use id_facts::{CHAINS, Point, chain_at, same_trail};
use id_source::Edges;
use std::alloc::{AllocError, Global};
use std::marker::Model;

/// Things in the order in which they were added, each once.
#[derive(Drop)]
pub struct Things {
    items: Vec<Point>,
    /// For each chain the numbers of its things.
    chains: Edges,
}

impl Model for Things {
    ghost use Rattle.std.specs.Prelude.{List};
    ghost use Rattle.id_facts.specs.declared.cells.Point.{Point};
    ghost use Rattle.id_why.specs.Things.{AreHeld};

    ghost Value = { List Point };

    ghost view = { λ t. t.items.items };

    ghost invariant = { λ t. AreHeld t.items.items t.chains };
}

impl Things {
    /// No things.
    pub fn new(alloc: Global) -> Result<Things, AllocError>
        ensures { IfOk result (λ t. t ≡ []) }
    {
        Ok(Things {
            items: Vec::new(alloc),
            chains: Edges::new(alloc, CHAINS)?,
        })
    }

    /// How many there are.
    pub fn len(&self) -> usize
        ensures { result ≡ length self.now }
    {
        self.items.len()
    }

    /// The thing of this number.
    pub fn thing(&self, number: usize) -> Point
        requires { number < length self.now }
        ensures { slice_get self.now number ≡ Some result }
    {
        self.items[number]
    }

    /// Adds those of the things that are not there.
    pub fn add_all(&mut self, points: &[Point]) -> Result<(), AllocError>
        ensures { OnOk result (self.new ≡ with_all self.old points.now) }
    {
        for point in points {
            self.add(*point)?;
        }
        Ok(())
    }

    /// Adds the thing, if it is not there.
    fn add(&mut self, point: Point) -> Result<(), AllocError>
        ensures { OnOk result (self.new ≡ with_one self.old point) }
    {
        if !self.has(point) {
            self.chains
                .add(chain_at(point.path, point.row), self.items.len())?;
            self.items.push(point)?;
        }
        Ok(())
    }

    /// Whether the thing is there.
    fn has(&self, point: Point) -> bool
        ensures { result ≡ is_thing point self.now }
    {
        for number in self.chains.of(chain_at(point.path, point.row)) {
            if *number < self.items.len() && same_point(self.items[*number], point) {
                return true;
            }
        }
        false
    }
}

/// Whether the two things are one.
fn same_point(a: Point, b: Point) -> bool
    ensures { result ≡ same_point a b }
{
    same_trail(a.path, b.path) && a.row == b.row
}
