//! The facts from which all has been followed (docs/MEANING.md, "Rounds").

ghost use Rattle.std.specs.Prelude.{◌≡◌, length, IfOk};
ghost use Rattle.id_facts.specs.Cells.{items};
ghost use Rattle.id_facts.specs.RowFacts.{AreBefore};
ghost use Rattle.id_meaning.specs.Following.{Follows, IsFresh, StartsWith, read_of};
ghost use Rattle.id_meaning.specs.Read.{AreRead};

use crate::rules::Rules;
use id_check::Checked;
use id_facts::{Cells, Facts, QUEUES, Queues, wait_all};
use id_source::{Links, link};
use std::alloc::{AllocError, Global};
use std::marker::Model;

/// A program, what its rows lead to, the facts from which all has been followed, and what waits by them.
///
/// Keeps: the links are those of the rows, each fact is found in its chain, behind all that it speaks of, and all that
/// waits by the facts is in its queue. Clauses see what rules read.
#[derive(Drop)]
pub struct Followed<'a> {
    checked: &'a Checked,
    links: Links,
    waits: Queues,
    cells: Cells,
}

impl<'a> Model for Followed<'a> {
    ghost use Rattle.id_meaning.specs.Read.{AreRead, Read, coded_read};

    ghost Value = { Read };

    ghost coded = { coded_read };

    ghost view = { λ f. record { checked = f.checked.now; links = f.links; waits = f.waits; cells = f.cells } };

    ghost invariant = { λ f.
        AreRead (record { checked = f.checked.now; links = f.links; waits = f.waits; cells = f.cells }) };
}

impl<'a> Followed<'a> {
    /// The program, with no facts.
    pub fn new(alloc: Global, checked: &'a Checked) -> Result<Followed<'a>, AllocError>
        ensures { IfOk result (IsFresh checked.now) }
    {
        let links = link(alloc, checked)?;
        let waits = Queues::new(alloc, QUEUES)?;
        let cells = Cells::new(alloc)?;
        Ok(Followed {
            checked,
            links,
            waits,
            cells,
        })
    }

    /// How many facts there are.
    pub fn len(&self) -> usize
        ensures { result ≡ length (items self.now.cells) }
    {
        self.cells.items.len()
    }

    /// What rules read.
    pub fn rules(&self) -> Rules<'_>
        ensures is { read_of result ≡ self.now }
        ensures kept { AreRead self.now }
    {
        Rules {
            checked: self.checked,
            links: &self.links,
            waits: &self.waits,
            cells: &self.cells,
        }
    }

    /// With all of these facts, which begin with those that are there.
    pub fn with(self, facts: &Facts) -> Result<Followed<'a>, AllocError>
        requires front { StartsWith (items self.cells) facts.now }
        requires before { AreBefore facts.now }
        ensures { IfOk result (Follows self.entry facts.now) }
    {
        let Followed {
            checked,
            links,
            mut waits,
            mut cells,
        } = self;
        let news = &facts.as_slice()[cells.items.len()..];
        cells.add_all(news)?;
        wait_all(&mut waits, checked, &links, &cells, news)?;
        Ok(Followed {
            checked,
            links,
            waits,
            cells,
        })
    }
}
