//! The tokens of a text, piece by piece.

ghost use Rattle.std.specs.Prelude.{◌≡◌, ◌+◌, ◌<◌, ◌≤◌, ◌↔◌, ◌⊎◌, ℕ, List, length};
ghost use Rattle.std.specs.Prelude.{drop, All, IfOk, IfErr, IsErrOf};
ghost use Rattle.std.specs.Prelude.{MatchResult, IsTrue, slice_index};
ghost use Rattle.std.specs.Char.{is_ascii_digit};
ghost use Rattle.id_text.specs.Bytes.{is_letter, is_other};
ghost use Rattle.id_text.specs.Tokens.{EndsOnce, Rises, IsWithin, IsPlaceWithin};
ghost use Rattle.id_text.specs.Lexes.Ending.{Whole, Refused};
ghost use Rattle.id_text.specs.declared.token.Token.{Token};
ghost use Rattle.id_text.specs.Lexes.{Opens, Begins, Lexes, Ending, IsReadOn, IsRefusal, IsRefusedAt};

use crate::bytes::{comment_len, digits_len, is_blank, is_letter};
use crate::identifier::Identifier;
use crate::numbers::number_of;
use crate::signs::longest_sign;
use crate::token::{MAX_BYTES, TextError, Token, TokenKind};
use crate::words::{keyword_of, word_at};
use std::alloc::Global;

/// What stands at the front of a text: the kind of the token, if it is one, and how many bytes it has.
#[derive(Drop)]
struct Piece {
    kind: Option<TokenKind>,
    len: usize,
}

/// The tokens of the text in order, then one `End` at its length.
///
/// `TooLong`: the text has more than `MAX_BYTES` bytes. `BadByte`, `NumberTooLarge`: the first such place in the text
/// (docs/LANGUAGE.md, "Tokens").
pub fn lex(alloc: Global, text: &str) -> Result<Vec<Token>, TextError>
    // The tokens are the text's, or the text is refused so.
    ensures too_long { IsErrOf result TextError.TooLong ↔ (MAX_BYTES < length text.now) }
    ensures tokens { IfOk result (λ v. Lexes 0 text.now v.items Whole) }
    ensures refused { IfErr result (IsRefusal text.now) }

    // However the text may be read, this is what came back, unless memory was refused.
    ensures only { (ts : List Token) (e : Ending) → length text.now ≤ MAX_BYTES → Lexes 0 text.now ts e →
        MatchResult result (λ v. (v.items ≡ ts) × (e ≡ Whole))
        (λ x. (x ≡ TextError.Memory) ⊎ (e ≡ Refused x)) }

    // What a parser and a printer rest on.
    ensures ends { IfOk result (λ v. EndsOnce v.items) }
    ensures rises { IfOk result (λ v. Rises v.items) }
    ensures within { IfOk result (λ v. All (IsWithin (length text.now)) v.items) }
    ensures refused_within { IfErr result (IsPlaceWithin (length text.now)) }
{
    if text.len() > MAX_BYTES {
        return Err(TextError::TooLong);
    }
    read_all(alloc, text)
}

/// About how many bytes of the text a token stands for, or a little less. No claim rests on it.
const TOKEN_BYTES: usize = 2;

/// The tokens of a text that is not too long, in order, and the `End`.
fn read_all(alloc: Global, text: &str) -> Result<Vec<Token>, TextError>
    requires { length text.now ≤ MAX_BYTES }
    ensures { MatchResult result (λ v. Lexes 0 text.now v.items Whole) (IsRefusal text.now) }
{
    let mut tokens = Vec::with_capacity(alloc, text.len() / TOKEN_BYTES + 1)?;
    let mut at = 0;
    while at < text.len() {
        at = read_on(alloc, text, at, &mut tokens)?;
    }
    tokens.push(Token {
        kind: TokenKind::End,
        start: at as u32,
        end: at as u32,
    })?;
    Ok(tokens)
}

/// Appends the token of the piece at this place, if it is one, and gives the place behind the piece.
#[inline]
fn read_on(
    alloc: Global,
    text: &str,
    at: usize,
    tokens: &mut Vec<Token>,
) -> Result<usize, TextError>
    requires fits { length text.now ≤ MAX_BYTES }
    requires before_end { at < length text.now }
    ensures { MatchResult result (λ stop. IsReadOn text.now at stop tokens.old.items tokens.new.items)
        (IsRefusedAt at (drop at text.now)) }
{
    let piece = read_piece(alloc, text, at)?;
    let stop = at + piece.len;
    if let Some(kind) = piece.kind {
        tokens.push(Token {
            kind,
            start: at as u32,
            end: stop as u32,
        })?;
    }
    Ok(stop)
}

/// The piece at this place, which is before the text's end.
fn read_piece(alloc: Global, text: &str, at: usize) -> Result<Piece, TextError>
    requires { at < length text.now }
    ensures { MatchResult result (λ p. Begins (drop at text.now) p.kind p.len) (IsRefusedAt at (drop at text.now)) }
{
    let rest = &text.as_bytes()[at..];
    let first = rest[0];
    if is_blank(first) {
        Ok(Piece { kind: None, len: 1 })
    } else if first == b'%' {
        Ok(Piece {
            kind: None,
            len: comment_len(rest),
        })
    } else if is_letter(first) {
        read_word(alloc, text, at)
    } else if first.is_ascii_digit() {
        read_number(rest, at)
    } else {
        read_sign(rest, at)
    }
}

/// The name or reserved word at this place, where a letter stands.
fn read_word(alloc: Global, text: &str, at: usize) -> Result<Piece, TextError>
    requires before_end { at < length text.now }
    requires letter { IsTrue (is_letter (slice_index text.now at)) }
    ensures { MatchResult result (λ p. Begins (drop at text.now) p.kind p.len) (IsRefusedAt at (drop at text.now)) }
{
    let word = word_at(text, at);
    let kind = match keyword_of(word) {
        Some(keyword) => TokenKind::Key(keyword),
        None => TokenKind::Name(Identifier::new(alloc, word)?),
    };
    Ok(Piece {
        kind: Some(kind),
        len: word.len(),
    })
}

/// The number at the front, where a digit stands. The front has the place `at`.
fn read_number(rest: &[u8], at: usize) -> Result<Piece, TextError>
    requires before_end { 0 < length rest.now }
    requires digit { IsTrue (is_ascii_digit (slice_index rest.now 0)) }
    ensures { MatchResult result (λ p. Begins rest.now p.kind p.len) (IsRefusedAt at rest.now) }
{
    let len = digits_len(rest);
    match number_of(&rest[..len]) {
        Some(value) => Ok(Piece {
            kind: Some(TokenKind::Number(value)),
            len,
        }),
        None => Err(TextError::NumberTooLarge { at }),
    }
}

/// The sign at the front, where nothing else can stand. The front has the place `at`.
fn read_sign(rest: &[u8], at: usize) -> Result<Piece, TextError>
    requires { Opens is_other rest.now }
    ensures { MatchResult result (λ p. Begins rest.now p.kind p.len) (IsRefusedAt at rest.now) }
{
    match longest_sign(rest) {
        Some((sign, len)) => Ok(Piece {
            kind: Some(TokenKind::Sign(sign)),
            len,
        }),
        None => Err(TextError::BadByte { at }),
    }
}
