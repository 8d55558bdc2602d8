//! A name of the text, which contracts see as its bytes. A short one takes no memory of its own.

ghost use Rattle.std.specs.Prelude.{◌≡◌, ◌≤◌, [], length, IfOk};
ghost use Rattle.id_text.specs.Spellings.{spelled, IsSound};

use std::alloc::{AllocError, Global};
use std::marker::Model;

/// The most bytes of a short name.
const SHORT: usize = 14;

/// How a name is kept.
#[derive(Drop)]
enum Spelling {
    /// So many bytes at the front.
    Short { len: u8, bytes: [u8; SHORT] },
    Long(Box<String>),
}

/// A name as it is spelled: a letter or `_`, then letters, digits and `_`.
#[derive(Drop)]
pub struct Identifier {
    spelling: Spelling,
}

impl Model for Identifier {
    ghost use Rattle.std.specs.Prelude.{List, ℕ};
    ghost use Rattle.id_text.specs.Spellings.{spelled, IsSound};

    ghost Value = { List ℕ };

    ghost view = { λ n. spelled n.spelling };

    ghost invariant = { λ n. IsSound n.spelling };
}

impl Identifier {
    /// The name spelled so.
    pub fn new(alloc: Global, text: &str) -> Result<Identifier, AllocError>
        ensures { IfOk result (λ n. n ≡ text.now) }
    {
        let spelling = if text.len() <= SHORT {
            short(text)
        } else {
            Spelling::Long(Box::new(alloc, String::from_str(alloc, text)?)?)
        };
        Ok(Identifier { spelling })
    }

    /// The empty name. Takes no memory.
    pub fn empty() -> Identifier
        ensures { result ≡ [] }
    {
        Identifier {
            spelling: short(""),
        }
    }

    /// The name's text. Takes no memory.
    pub fn as_str(&self) -> &str
        ensures { result.now ≡ self.now }
    {
        match &self.spelling {
            Spelling::Short { len, bytes } => {
                let name = &bytes[..*len as usize];
                unsafe { str::from_utf8_unchecked(name) }
            }
            Spelling::Long(text) => text.as_str(),
        }
    }

    /// The same name again.
    pub fn copy(&self, alloc: Global) -> Result<Identifier, AllocError>
        ensures { IfOk result (λ n. n ≡ self.now) }
    {
        let spelling = match &self.spelling {
            Spelling::Short { len, bytes } => Spelling::Short {
                len: *len,
                bytes: *bytes,
            },
            Spelling::Long(text) => Spelling::Long(Box::new(
                alloc,
                String::from_str(alloc, text.as_str())?,
            )?),
        };
        Ok(Identifier { spelling })
    }
}

/// The short name spelled so.
fn short(text: &str) -> Spelling
    requires { length text.now ≤ SHORT }
    ensures sound { IsSound result }
    ensures spelled { spelled result ≡ text.now }
{
    let len = text.len();
    let mut bytes = [0; SHORT];
    bytes[..len].copy_from_slice(text.as_bytes());
    Spelling::Short {
        len: len as u8,
        bytes,
    }
}
