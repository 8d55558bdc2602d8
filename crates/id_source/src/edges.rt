//! Edges from row to row.

ghost use Rattle.std.specs.Prelude.{◌≡◌, ℕ, [], ◌∷◌, IfOk, OnOk};
ghost use Rattle.id_source.specs.Links.{AreNone, Gains, Leads, targets, width};

use std::alloc::{AllocError, Global};

/// To which rows there are edges from each row.
#[derive(Drop)]
pub struct Edges {
    pub rows: Vec<Vec<usize>>,
}

impl Edges {
    /// No edges, for so many rows.
    pub fn new(alloc: Global, count: usize) -> Result<Edges, AllocError>
        ensures { IfOk result (λ e. AreNone e count) }
    {
        let mut rows = Vec::new(alloc);
        for _row in 0..count {
            rows.push(Vec::new(alloc))?;
        }
        Ok(Edges { rows })
    }

    /// Adds an edge; past the rows, nothing. Those that are there stay, also where a growth is refused.
    pub fn add(&mut self, from: usize, to: usize) -> Result<(), AllocError>
        ensures gains { OnOk result (Gains self.old self.new from (to ∷ [])) }
        ensures wide { width self.new ≡ width self.old }
        ensures kept { (row there : ℕ) → Leads self.old row there → Leads self.new row there }
    {
        if from < self.rows.len() {
            self.rows[from].push(to)?;
        }
        Ok(())
    }

    /// The rows to which there are edges from the row.
    pub fn of(&self, from: usize) -> &[usize]
        ensures { result.now ≡ targets self.now.rows.items from }
    {
        if from < self.rows.len() {
            self.rows[from].as_slice()
        } else {
            &[]
        }
    }

    /// How many rows there are.
    pub fn width(&self) -> usize
        ensures { result ≡ width self.now }
    {
        self.rows.len()
    }
}
