//! The signs.

ghost use Rattle.std.specs.Prelude.{◌≡◌, ◌≢◌, ◌∷◌, [], length, MatchOption, IfSome};
ghost use Rattle.id_text.specs.Bytes.{sign_of};
ghost use Rattle.id_text.specs.Lexes.{HasSign, HasSignOf, HasLongestSign};
ghost use Rattle.id_text.specs.declared.token.Symbol.{Symbol};

use crate::token::Symbol;

/// The longest sign at the front, and how many bytes it has, if a sign stands there.
pub fn longest_sign(bytes: &[u8]) -> Option<(Symbol, usize)>
    ensures sign { MatchOption result ((s : Symbol) → ¬ (HasSign bytes.now s)) (λ r. HasLongestSign bytes.now r.0) }
    ensures len { IfSome result (λ r. r.1 ≡ length (sign_of r.0)) }
{
    if let Some(sign) = pair_at(bytes) {
        return Some((sign, 2));
    }
    let sign = single_at(bytes)?;
    Some((sign, 1))
}

/// The sign of two bytes at the front, if one stands there.
fn pair_at(bytes: &[u8]) -> Option<Symbol>
    ensures { MatchOption result ((s : Symbol) → ¬ (HasSignOf 2 bytes.now s)) (HasSignOf 2 bytes.now) }
{
    if bytes.len() < 2 {
        None
    } else {
        pair_of(bytes[0], bytes[1])
    }
}

/// The sign of one byte at the front, if one stands there.
fn single_at(bytes: &[u8]) -> Option<Symbol>
    ensures { MatchOption result ((s : Symbol) → ¬ (HasSignOf 1 bytes.now s)) (HasSignOf 1 bytes.now) }
{
    if bytes.is_empty() {
        None
    } else {
        single_of(bytes[0])
    }
}

/// The sign of these two bytes, if they are one.
fn pair_of(first: u8, second: u8) -> Option<Symbol>
    ensures { MatchOption result ((s : Symbol) → sign_of s ≢ (first ∷ second ∷ []))
        (λ s. sign_of s ≡ first ∷ second ∷ []) }
{
    match (first, second) {
        (b'=', b'=') => Some(Symbol::Equal),
        (b'<', b'>') => Some(Symbol::NotEqual),
        (b'<', b'=') => Some(Symbol::LessEqual),
        (b'<', b'-') => Some(Symbol::Arrow),
        (b'>', b'=') => Some(Symbol::GreaterEqual),
        _ => None,
    }
}

/// The sign of this one byte, if it is one.
fn single_of(byte: u8) -> Option<Symbol>
    ensures { MatchOption result ((s : Symbol) → sign_of s ≢ (byte ∷ [])) (λ s. sign_of s ≡ byte ∷ []) }
{
    match byte {
        b'(' => Some(Symbol::LeftParen),
        b')' => Some(Symbol::RightParen),
        b'{' => Some(Symbol::LeftBrace),
        b'}' => Some(Symbol::RightBrace),
        b'[' => Some(Symbol::LeftBracket),
        b']' => Some(Symbol::RightBracket),
        b',' => Some(Symbol::Comma),
        b';' => Some(Symbol::Semicolon),
        b':' => Some(Symbol::Colon),
        b'=' => Some(Symbol::Becomes),
        b'<' => Some(Symbol::Less),
        b'>' => Some(Symbol::Greater),
        b'+' => Some(Symbol::Plus),
        b'-' => Some(Symbol::Minus),
        b'*' => Some(Symbol::Star),
        _ => None,
    }
}
