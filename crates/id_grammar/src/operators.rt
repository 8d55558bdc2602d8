//! The operator that a token is, and the levels of operators round it.

ghost use Rattle.std.specs.Prelude.{◌≡◌, ◌↔◌, IsTrue};
ghost use Rattle.id_grammar.specs.Readers.{
  first_kind,
  may_deny,
  open_behind,
  open_first,
  rank,
  operator_within,
  kept_within,
  operator_in,
  IsBracket,
};

use crate::phrase::Level;
use crate::tokens::Tokens;
use id_text::{Keyword, Symbol, Token, TokenKind};
use id_value::{Arithmetic, BinaryOp, Comparison, Logic};

/// The innermost level that is open behind the first operand, by whether that is denied.
pub fn open_first(denied: bool) -> Level
    ensures { result ≡ open_first denied }
{
    if denied { Level::And } else { Level::Product }
}

/// The innermost level that is open behind an operator of this one and its operands: of comparisons there is one.
pub fn open_behind(level: Level) -> Level
    ensures { result ≡ open_behind level }
{
    match level {
        Level::Or => Level::Or,
        Level::And | Level::Comparison => Level::And,
        Level::Sum => Level::Sum,
        Level::Product => Level::Product,
    }
}

impl<'t> Tokens<'t> {
    /// Whether the tokens begin with `not`, where an operand of this level may.
    pub fn denies(self, level: Level) -> bool
        ensures { IsTrue result ↔
            (may_deny level × (first_kind self.entry.list.now ≡ TokenKind.Key Keyword.Not)) }
    {
        match level {
            Level::Or | Level::And => self.begins_with(Keyword::Not),
            Level::Comparison | Level::Sum | Level::Product => false,
        }
    }

    /// Whether the tokens begin with a bracket, behind which the arguments of a call or the index of a fetch stand.
    pub fn begins_with_bracket(self) -> bool
        ensures { IsTrue result ↔ IsBracket (first_kind self.entry.list.now) }
    {
        self.begins_with_sign(Symbol::LeftParen) || self.begins_with_sign(Symbol::LeftBracket)
    }

    /// The operator that the tokens begin with, and its level, where that is not tighter than the inner
    /// level and not looser than the outer one.
    pub fn operator_within(self, inner: Level, outer: Level) -> Option<(Level, BinaryOp)>
        ensures { result ≡ operator_within inner outer (first_kind self.entry.list.now) }
    {
        kept_within(operator_in(self.first()), inner, outer)
    }
}

/// How tight a level is.
fn rank(level: Level) -> usize
    ensures { result ≡ rank level }
{
    match level {
        Level::Or => 0,
        Level::And => 1,
        Level::Comparison => 2,
        Level::Sum => 3,
        Level::Product => 4,
    }
}

/// The operator with its level, if there is one, where that is not tighter than the inner level and
/// not looser than the outer one.
#[inline(always)]
fn kept_within(
    found: Option<(Level, BinaryOp)>,
    inner: Level,
    outer: Level,
) -> Option<(Level, BinaryOp)>
    ensures { result ≡ kept_within inner outer found }
{
    let (at, op) = found?;
    if rank(at) <= rank(inner) && rank(outer) <= rank(at) {
        Some((at, op))
    } else {
        None
    }
}

/// The operator that the token is, and its level.
fn operator_in(token: &Token) -> Option<(Level, BinaryOp)>
    ensures { result ≡ operator_in token.now.kind }
{
    match &token.kind {
        TokenKind::Key(Keyword::Or) => Some((Level::Or, BinaryOp::Logic(Logic::Or))),
        TokenKind::Key(Keyword::And) => Some((Level::And, BinaryOp::Logic(Logic::And))),
        TokenKind::Key(Keyword::Div) => {
            Some((Level::Product, BinaryOp::Arithmetic(Arithmetic::Div)))
        }
        TokenKind::Key(Keyword::Rem) => {
            Some((Level::Product, BinaryOp::Arithmetic(Arithmetic::Rem)))
        }
        TokenKind::Sign(sign) => operator_of_sign(*sign),
        _ => None,
    }
}

/// The operator that the sign is, and its level.
fn operator_of_sign(sign: Symbol) -> Option<(Level, BinaryOp)>
    ensures { result ≡ operator_in (TokenKind.Sign sign) }
{
    match sign {
        Symbol::Star => Some((Level::Product, BinaryOp::Arithmetic(Arithmetic::Mul))),
        Symbol::Plus => Some((Level::Sum, BinaryOp::Arithmetic(Arithmetic::Add))),
        Symbol::Minus => Some((Level::Sum, BinaryOp::Arithmetic(Arithmetic::Sub))),
        Symbol::Equal => Some((Level::Comparison, BinaryOp::Comparison(Comparison::Eq))),
        Symbol::NotEqual => Some((Level::Comparison, BinaryOp::Comparison(Comparison::Ne))),
        Symbol::Less => Some((Level::Comparison, BinaryOp::Comparison(Comparison::Lt))),
        Symbol::LessEqual => Some((Level::Comparison, BinaryOp::Comparison(Comparison::Le))),
        Symbol::Greater => Some((Level::Comparison, BinaryOp::Comparison(Comparison::Gt))),
        Symbol::GreaterEqual => Some((Level::Comparison, BinaryOp::Comparison(Comparison::Ge))),
        _ => None,
    }
}
