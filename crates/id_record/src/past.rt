//! A history: a list that contracts read and of which no byte is kept.

ghost use Rattle.std.specs.Prelude.{◌≡◌, ◌++◌, ◌∷◌, []};

use std::marker::Model;
use std::snapshot::Snapshot;

#[derive(Drop)]
enum Past<E> {
    Start,
    After(Snapshot<Past<E>>, Snapshot<E>),
}

/// What came, in order. It takes no bytes, and its calls do nothing when the program runs.
#[derive(Drop)]
pub struct History<E> {
    past: Snapshot<Past<E>>,
}

impl<E> Model for History<E> {
    ghost use Rattle.std.specs.Prelude.{List};
    ghost use Rattle.id_record.specs.Pasts.{items_of};

    ghost Value = { List E };

    ghost view = { λ h. items_of h.past.value };
}

impl<E> History<E> {
    ghost use Rattle.std.specs.Prelude.{◌≡◌, ◌++◌, ◌∷◌, []};

    /// Nothing has come. Takes no memory.
    pub fn new() -> History<E>
        ensures { result ≡ [] }
    {
        History {
            past: Snapshot::of(&Past::Start),
        }
    }

    /// One more has come. Takes no memory.
    #[inline(always)]
    pub fn push(&mut self, item: &E)
        ensures { self.new ≡ self.old ++ item.now ∷ [] }
    {
        let before = std::mem::replace(&mut self.past, Snapshot::of(&Past::Start));
        self.past = Snapshot::of(&Past::After(before, Snapshot::of(item)));
    }
}

const _: () = prove!(size_of::<History<u64>>() == 0);
