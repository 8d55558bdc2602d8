//! Destinations, and the short lists that an instruction keeps of them.

ghost use Rattle.std.specs.Prelude.{◌≡◌, [], ◌∷◌, ◌++◌, IfOk, OnOk, OnErr, box_value};

use smallvec::SmallVec;
use std::alloc::{AllocError, Global};
use std::marker::Model;

/// A port of an instruction: each has one or two.
#[derive(Clone, Copy, Debug, Default, PartialEq, Eq, PartialOrd, Ord, Hash)]
pub enum Port {
    #[default]
    Zero,
    One,
}

/// Where a value is sent: an instruction, by its number, and a port of it.
#[derive(Clone, Copy, Default, PartialEq, Eq, PartialOrd, Ord)]
pub struct Dest {
    pub instr: u32,
    pub port: Port,
}

/// A list of destinations, of which the first two take no memory of their own.
#[derive(Drop)]
pub struct Dests {
    list: SmallVec<Dest, 2>,
}

impl Model for Dests {
    ghost use Rattle.std.specs.Prelude.{List};
    ghost use Rattle.id_instr.specs.declared.dests.Dest.{Dest};

    ghost Value = { List Dest };

    ghost view = { λ d. d.list.items };
}

impl Dests {
    /// No destination. Takes no memory.
    pub fn new(alloc: Global) -> Dests
        ensures { result ≡ [] }
    {
        Dests {
            list: SmallVec::new(alloc),
        }
    }

    /// Adds a destination at the end.
    pub fn push(&mut self, dest: Dest) -> Result<(), AllocError>
        ensures ok { OnOk result (self.new ≡ self.old ++ dest ∷ []) }
        ensures err { OnErr result (self.new ≡ self.old) }
    {
        self.list.push(dest)?;
        Ok(())
    }

    /// The destinations, in order. Takes no memory.
    pub fn as_slice(&self) -> &[Dest]
        ensures { result.now ≡ self.now }
    {
        self.list.as_slice()
    }
}

/// A list of destinations that most instructions have none of: then it takes two words, and no memory of its own.
#[derive(Drop)]
pub struct Others {
    list: Option<Box<Dests>>,
}

impl Model for Others {
    ghost use Rattle.std.specs.Prelude.{List};
    ghost use Rattle.id_instr.specs.declared.dests.Dest.{Dest};
    ghost use Rattle.id_instr.specs.Dests.{in_box};

    ghost Value = { List Dest };

    ghost view = { λ o. in_box o.list };
}

impl Others {
    /// No destination. Takes no memory.
    pub fn none() -> Others
        ensures { result ≡ [] }
    {
        Others { list: None }
    }

    /// Adds a destination at the end.
    pub fn push(&mut self, alloc: Global, dest: Dest) -> Result<(), AllocError>
        ensures ok { OnOk result (self.new ≡ self.old ++ dest ∷ []) }
        ensures err { OnErr result (self.new ≡ self.old) }
    {
        if let Some(list) = &mut self.list {
            return list.push(dest);
        }
        let list = one_dest(alloc, dest)?;
        self.list = Some(list);
        Ok(())
    }

    /// The destinations, in order. Takes no memory.
    pub fn as_slice(&self) -> &[Dest]
        ensures { result.now ≡ self.now }
    {
        match &self.list {
            Some(list) => list.as_slice(),
            None => &[],
        }
    }
}

/// A list of one destination, in a box.
fn one_dest(alloc: Global, dest: Dest) -> Result<Box<Dests>, AllocError>
    ensures { IfOk result (λ b. box_value b ≡ dest ∷ []) }
{
    let mut list = Dests::new(alloc);
    list.push(dest)?;
    match Box::new(alloc, list) {
        Ok(list) => Ok(list),
        Err(_) => Err(AllocError),
    }
}
