//! Where a part is to be read: the tokens from there on, and how many expressions stand round it.

ghost use Rattle.std.specs.Prelude.{◌≡◌, ◌≢◌, ◌+◌, ◌<◌, ◌≤◌, ◌∷◌, IfOk, IfErr};
ghost use Rattle.id_grammar.specs.Readers.{first_kind, first_start};

use id_grammar::{MAX_NESTING, Tokens, TreeError};
use id_text::{Token, TokenKind};

/// The tokens from a part on, and how many expressions stand round the part: there is room for one more.
#[derive(Clone, Copy)]
pub struct Reader<'t> {
    pub tokens: Tokens<'t>,
    pub depth: usize,
    pub ghost room: { depth < 200 },
}

impl<'t> Reader<'t> {
    /// The first token and those behind it, unless an expression round a part of this height and the token is too deep.
    pub fn enter(self, height: usize) -> Result<(&'t Token, Tokens<'t>), TreeError>
        ensures whole { IfOk result (λ x. first_kind self.entry.tokens.list.now ≢ TokenKind.End
            → self.entry.tokens.list.now ≡ x.0.now ∷ x.1.list.now) }
        ensures fits { IfOk result (λ _. self.entry.depth + height + 1 ≤ MAX_NESTING) }
        ensures deep { IfErr result (λ _. MAX_NESTING < self.entry.depth + height + 1) }
        ensures err { IfErr result (λ e. e ≡ TreeError.TooDeep (first_start self.entry.tokens.list.now)) }
    {
        if height >= MAX_NESTING - self.depth {
            return Err(self.tokens.too_deep());
        }
        Ok(self.tokens.split())
    }
}
