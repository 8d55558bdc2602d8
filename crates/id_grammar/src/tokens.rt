//! One token at a time, at the front of a list that ends in `End`.

ghost use Rattle.std.specs.Prelude.{◌≡◌, ◌≢◌, List, ◌∷◌, ◌↔◌, IsTrue, IfOk};
ghost use Rattle.std.specs.Prelude.{IfErr, MatchResult};
ghost use Rattle.id_text.specs.Tokens.{EndsOnce};
ghost use Rattle.id_text.specs.declared.token.Token.{Token};
ghost use Rattle.id_grammar.specs.Ends.{EndsOnce-prop};
ghost use Rattle.id_grammar.specs.Readers.{
  first_kind,
  first_start,
  IsBehind,
  Takes,
  Misses,
  BeginsWithName,
  LacksName,
  truth_in,
  begins_expression,
  no_room_at,
};
ghost use Rattle.id_grammar.specs.Grammar.{word, kind_of};

use crate::tree::TreeError;
use id_text::{Identifier, Keyword, Symbol, Token, TokenKind};
use std::alloc::Global;

/// A reserved word or a sign, which a production fixes.
#[derive(Clone, Copy)]
pub enum Word {
    Key(Keyword),
    Sign(Symbol),
}

/// Tokens from one on: `End` is the last, and no other is `End`.
#[derive(Clone, Copy)]
pub struct Tokens<'t> {
    pub list: &'t [Token],
    pub ghost ends: { EndsOnce list.now } by { EndsOnce-prop list.now },
}

impl<'t> Tokens<'t> {
    /// The first token.
    pub fn first(self) -> &'t Token
        ensures kind { result.now.kind ≡ first_kind self.entry.list.now }
        ensures start { result.now.start ≡ first_start self.entry.list.now }
    {
        &self.list[0]
    }

    /// The first token and those behind it. Behind `End` comes `End` again.
    pub fn split(self) -> (&'t Token, Tokens<'t>)
        ensures head { (us : List Token) × (self.entry.list.now ≡ result.0.now ∷ us) }
        ensures kind { first_kind self.entry.list.now ≡ result.0.now.kind }
        ensures whole { result.0.now.kind ≢ TokenKind.End
            → self.entry.list.now ≡ result.0.now ∷ result.1.list.now }
    {
        let first = &self.list[0];
        match &first.kind {
            TokenKind::End => (first, self),
            _ => (
                first,
                Tokens {
                    list: &self.list[1..],
                },
            ),
        }
    }

    /// Whether the tokens begin with this word.
    pub fn begins_with(self, wanted: Keyword) -> bool
        ensures { IsTrue result ↔ (first_kind self.entry.list.now ≡ TokenKind.Key wanted) }
    {
        is_key(self.first(), wanted)
    }

    /// Whether the tokens begin with this sign.
    pub fn begins_with_sign(self, wanted: Symbol) -> bool
        ensures { IsTrue result ↔ (first_kind self.entry.list.now ≡ TokenKind.Sign wanted) }
    {
        is_sign(self.first(), wanted)
    }

    /// The refusal of the first token, since no program goes on with it.
    pub fn unexpected(self) -> TreeError
        ensures { result ≡ TreeError.Unexpected (first_start self.entry.list.now) }
    {
        TreeError::Unexpected {
            at: self.first().start as usize,
        }
    }

    /// The refusal of the first token, since it makes too much nesting.
    pub fn too_deep(self) -> TreeError
        ensures { result ≡ TreeError.TooDeep (first_start self.entry.list.now) }
    {
        TreeError::TooDeep {
            at: self.first().start as usize,
        }
    }

    /// The refusal of the first token where an expression is wanted, but has no room.
    pub fn no_room(self) -> TreeError
        ensures { result ≡ no_room_at (begins_expression (first_kind self.entry.list.now))
            (first_start self.entry.list.now) }
    {
        if begins_expression(self.first()) {
            self.too_deep()
        } else {
            self.unexpected()
        }
    }

    /// The tokens behind this word or sign.
    pub fn expect_word(self, wanted: Word) -> Result<Tokens<'t>, TreeError>
        ensures behind { IfOk result (λ rest. IsBehind rest.list.now self.entry.list.now) }
        ensures ok { IfOk result (λ rest. Takes (word wanted) self.entry.list.now rest.list.now) }
        ensures err { IfErr result (Misses (word wanted) self.entry.list.now) }
    {
        let (first, rest) = self.split();
        if is_word(first, wanted) {
            Ok(rest)
        } else {
            Err(self.unexpected())
        }
    }

    /// The name that the tokens begin with, its place, and the tokens behind it.
    pub fn expect_name(self, alloc: Global) -> Result<(Identifier, u32, Tokens<'t>), TreeError>
        ensures behind { IfOk result (λ x. IsBehind x.2.list.now self.entry.list.now) }
        ensures ok { IfOk result (λ x. BeginsWithName self.entry.list.now x.0 x.1 x.2.list.now) }
        ensures err { IfErr result (LacksName self.entry.list.now) }
    {
        let (first, rest) = self.split();
        match &first.kind {
            TokenKind::Name(name) => Ok((name.copy(alloc)?, first.start, rest)),
            TokenKind::Number(_) => Err(self.unexpected()),
            TokenKind::Key(_) => Err(self.unexpected()),
            TokenKind::Sign(_) => Err(self.unexpected()),
            TokenKind::End => Err(self.unexpected()),
        }
    }
}

/// Whether the token is this sign.
pub fn is_sign(token: &Token, wanted: Symbol) -> bool
    ensures { IsTrue result ↔ (token.now.kind ≡ TokenKind.Sign wanted) }
{
    match &token.kind {
        TokenKind::Sign(found) => *found == wanted,
        TokenKind::Name(_) => false,
        TokenKind::Number(_) => false,
        TokenKind::Key(_) => false,
        TokenKind::End => false,
    }
}

/// Whether the token is this word.
pub fn is_key(token: &Token, wanted: Keyword) -> bool
    ensures { IsTrue result ↔ (token.now.kind ≡ TokenKind.Key wanted) }
{
    match &token.kind {
        TokenKind::Key(found) => *found == wanted,
        TokenKind::Name(_) => false,
        TokenKind::Number(_) => false,
        TokenKind::Sign(_) => false,
        TokenKind::End => false,
    }
}

/// Whether the token is this word or sign.
pub fn is_word(token: &Token, wanted: Word) -> bool
    ensures { IsTrue result ↔ (token.now.kind ≡ kind_of wanted) }
{
    match wanted {
        Word::Key(key) => is_key(token, key),
        Word::Sign(sign) => is_sign(token, sign),
    }
}

/// The truth value that the token is.
pub fn truth_of(token: &Token) -> Option<bool>
    ensures { result ≡ truth_in token.now.kind }
{
    match &token.kind {
        TokenKind::Key(Keyword::True) => Some(true),
        TokenKind::Key(Keyword::False) => Some(false),
        _ => None,
    }
}

/// Whether an expression begins with the token.
pub fn begins_expression(token: &Token) -> bool
    ensures { result ≡ begins_expression token.now.kind }
{
    match &token.kind {
        TokenKind::Key(Keyword::If) => true,
        TokenKind::Key(Keyword::Not) => true,
        TokenKind::Key(Keyword::True) => true,
        TokenKind::Key(Keyword::False) => true,
        TokenKind::Key(Keyword::Array) => true,
        TokenKind::Number(_) => true,
        TokenKind::Name(_) => true,
        TokenKind::Sign(Symbol::Minus) => true,
        TokenKind::Sign(Symbol::LeftParen) => true,
        TokenKind::Sign(Symbol::LeftBrace) => true,
        _ => false,
    }
}

/// The same name, in memory of its own.
#[inline(always)]
pub fn copied(alloc: Global, name: &Identifier) -> Result<Identifier, TreeError>
    ensures { MatchResult result (λ n. n ≡ name.now) (λ e. e ≡ TreeError.Memory) }
{
    let copy = name.copy(alloc)?;
    Ok(copy)
}
