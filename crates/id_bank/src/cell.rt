//! A cell's slot in the bank: empty, filled, or with the replies that wait for its value.

ghost use Rattle.std.specs.Prelude.{◌≡◌, length};

use id_tag::{Cell, Tag, Value};
use smallvec::SmallVec;
use std::alloc::{AllocError, Global};
use std::marker::Model;

/// Replies that wait for one value, in order of arrival. Two take no memory of their own.
#[derive(Drop)]
pub struct Replies {
    list: SmallVec<Tag, 2>,
}

impl Model for Replies {
    ghost use Rattle.std.specs.Prelude.{List};
    ghost use Rattle.id_tag.specs.declared.Tag.{Tag};

    ghost Value = { List Tag };

    ghost view = { λ r. r.list.items };
}

impl Replies {
    ghost use Rattle.std.specs.Prelude.{◌++◌, [], ◌∷◌, OnOk, OnErr};

    // No reply. Takes no memory.
    pub(crate) fn none(alloc: Global) -> Replies
        ensures { result ≡ [] }
    {
        Replies {
            list: SmallVec::new(alloc),
        }
    }

    // One reply. Takes no memory.
    pub(crate) fn one(alloc: Global, reply: Tag) -> Replies
        ensures { result ≡ reply ∷ [] }
    {
        let mut list = SmallVec::new(alloc);
        list.push_reserved(reply);
        Replies { list }
    }

    // Two replies. Takes no memory.
    pub(crate) fn two(alloc: Global, first: Tag, second: Tag) -> Replies
        ensures { result ≡ first ∷ second ∷ [] }
    {
        let mut list = SmallVec::new(alloc);
        list.push_reserved(first);
        list.push_reserved(second);
        Replies { list }
    }

    // Adds a reply at the end. After an error nothing has changed.
    pub(crate) fn push(&mut self, reply: Tag) -> Result<(), AllocError>
        ensures ok { OnOk result (self.new ≡ self.old ++ reply ∷ []) }
        ensures err { OnErr result (self.new ≡ self.old) }
    {
        self.list.push(reply)?;
        Ok(())
    }

    /// How many replies there are. Takes no memory.
    pub fn len(&self) -> usize
        ensures { result ≡ length self.now }
    {
        self.list.len()
    }

    /// The replies, in order. Takes no memory.
    pub fn as_slice(&self) -> &[Tag]
        ensures { result.now ≡ self.now }
    {
        self.list.as_slice()
    }
}

/// What a read comes to.
#[derive(Clone, Copy)]
pub enum ReadAnswer {
    /// The cell holds this value.
    Now(Value),
    /// The reply waits for the cell's value.
    Deferred,
}

/// What a write comes to.
#[derive(Drop)]
pub enum WriteAnswer {
    /// The cell holds the value from now on, and these replies, which waited for it, get it.
    Readers(Replies),
    /// The cell holds a value already, which came from this store, and nothing has changed.
    Second(Tag),
}

/// A cell that holds a value, which came from the store `origin`.
#[derive(Clone, Copy)]
pub struct Filled {
    pub cell: Cell,
    pub value: Value,
    pub origin: Tag,
}

/// A reply that waits for the value of a cell.
#[derive(Clone, Copy)]
pub struct Reader {
    pub cell: Cell,
    pub reply: Tag,
}
