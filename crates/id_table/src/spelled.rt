//! A name of the tree, which is told from others by its text.

ghost use Rattle.std.specs.Hash as fed;
ghost use Rattle.std.specs.Str.{bytes_eq};
ghost use Rattle.std.proofs.Common.{rules};
ghost use Rattle.std.specs.Cmp.Rules.{comparing, hashing};

use id_text::Identifier;
use std::hash::{Hash, Hasher};

/// A name that stands in the tree. It takes 8 bytes.
#[derive(Clone, Copy)]
pub struct Spelled<'a> {
    pub name: &'a Identifier,
}

impl PartialEq for Spelled<'_> {
    ghost eq = { λ a b. bytes_eq a.name.now b.name.now };

    ghost laws = { Prim.search (comparing, rules) };

    #[inline(always)]
    fn eq(&self, other: &Self) -> bool {
        self.name.as_str() == other.name.as_str()
    }
}

impl Eq for Spelled<'_> {
    ghost laws = { Prim.search (comparing, rules) };
}

impl Hash for Spelled<'_> {
    ghost hash_input = { λ a. fed.str a.name.now };

    ghost respects_eq = { Prim.search (hashing, rules) };

    #[inline(always)]
    fn hash<H: Hasher>(&self, state: &mut H) {
        self.name.as_str().hash(state);
    }
}
