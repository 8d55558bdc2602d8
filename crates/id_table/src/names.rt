//! The names of a program, each once, by where they first stand.

ghost use Rattle.std.specs.Prelude.{◌≡◌, codes, IfOk};
ghost use Rattle.id_table.specs.Names.{first_names};
ghost use Rattle.id_table.specs.Texts.{texts};

use crate::spelled::Spelled;
use id_text::Identifier;
use indexmap::IndexSet;
use std::alloc::{AllocError, Global};

/// The name `main` alone, with room for so many names.
pub fn main_alone<'a>(
    alloc: Global,
    names: usize,
    main: &'a Identifier,
) -> Result<IndexSet<Spelled<'a>>, AllocError>
    requires { main.now ≡ codes "main" }
    ensures { IfOk result (λ n. texts n.keys ≡ first_names) }
{
    let mut numbers = IndexSet::with_capacity(alloc, names)?;
    numbers.insert(Spelled { name: main })?;
    Ok(numbers)
}

/// The names of the set, in order: they take the memory that the set gives back before.
pub fn names_of(
    alloc: Global,
    numbers: IndexSet<Spelled<'_>>,
) -> Result<Vec<Identifier>, AllocError>
    ensures { IfOk result (λ names. names.items ≡ texts numbers.entry.keys) }
{
    let keys = keys_of(alloc, numbers)?;
    copy_names(alloc, keys.as_slice())
}

/// The keys of the set, in order, without what they are found by.
fn keys_of<'a>(
    alloc: Global,
    numbers: IndexSet<Spelled<'a>>,
) -> Result<Vec<Spelled<'a>>, AllocError>
    ensures { IfOk result (λ keys. keys.items ≡ numbers.entry.keys) }
{
    Vec::from_slice(alloc, numbers.as_slice())
}

/// These names, in order.
fn copy_names(alloc: Global, keys: &[Spelled<'_>]) -> Result<Vec<Identifier>, AllocError>
    ensures { IfOk result (λ names. names.items ≡ texts keys.now) }
{
    let mut names = Vec::with_capacity(alloc, keys.len())?;
    for key in keys {
        names.push(key.name.copy(alloc)?)?;
    }
    Ok(names)
}
