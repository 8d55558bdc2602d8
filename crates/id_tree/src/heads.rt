//! What stands in headings alone, and at the end of a text: kinds, and the last token.

ghost use Rattle.std.specs.Prelude.{◌≡◌, ◌≢◌, ◌↔◌, IsTrue, IfOk, IfErr};
ghost use Rattle.id_grammar.specs.Grammar.{kind_named};
ghost use Rattle.id_grammar.specs.Readers.{first_kind, first_start, IsBehind, Types, Untypes};

use id_grammar::{Tokens, TreeError, Word};
use id_text::{Keyword, Symbol, TokenKind};
use id_value::Kind;

/// The kind that the first token names.
fn kind_at(tokens: Tokens<'_>) -> Option<Kind>
    ensures { result ≡ kind_named (first_kind tokens.entry.list.now) }
{
    match &tokens.first().kind {
        TokenKind::Key(Keyword::Int) => Some(Kind::Int),
        TokenKind::Key(Keyword::Bool) => Some(Kind::Bool),
        TokenKind::Key(Keyword::Array) => Some(Kind::Array),
        _ => None,
    }
}

/// `":" kind`, and the tokens behind it.
pub fn expect_kind(tokens: Tokens<'_>) -> Result<(Kind, Tokens<'_>), TreeError>
    ensures behind { IfOk result (λ x. IsBehind x.1.list.now tokens.entry.list.now) }
    ensures ok { IfOk result (λ x. Types tokens.entry.list.now x.1.list.now x.0) }
    ensures err { IfErr result (Untypes tokens.entry.list.now) }
{
    let named = tokens.expect_word(Word::Sign(Symbol::Colon))?;
    let (_, rest) = named.split();
    match kind_at(named) {
        Some(kind) => {
            if is_deeper(kind, rest) {
                let (_, behind) = rest.split();
                Ok((Kind::Nested, behind))
            } else {
                Ok((kind, rest))
            }
        }
        None => Err(named.unexpected()),
    }
}

/// Whether a second word `array` comes behind this kind.
fn is_deeper(kind: Kind, rest: Tokens<'_>) -> bool
    ensures { IsTrue result ↔ ((kind ≡ Kind.Array) × (first_kind rest.entry.list.now ≡ TokenKind.Key Keyword.Array)) }
{
    match kind {
        Kind::Array => rest.begins_with(Keyword::Array),
        Kind::Int | Kind::Bool | Kind::Nested => false,
    }
}

/// Refuses the first token unless it is the end.
pub fn expect_end(tokens: Tokens<'_>) -> Result<(), TreeError>
    ensures ok { IfOk result (λ _. first_kind tokens.entry.list.now ≡ TokenKind.End) }
    ensures some { IfErr result (λ _. first_kind tokens.entry.list.now ≢ TokenKind.End) }
    ensures err { IfErr result (λ e. e ≡ TreeError.Unexpected (first_start tokens.entry.list.now)) }
{
    match &tokens.first().kind {
        TokenKind::End => Ok(()),
        TokenKind::Name(_) => Err(tokens.unexpected()),
        TokenKind::Number(_) => Err(tokens.unexpected()),
        TokenKind::Key(_) => Err(tokens.unexpected()),
        TokenKind::Sign(_) => Err(tokens.unexpected()),
    }
}
