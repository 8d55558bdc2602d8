//! The parser of expressions, a function for each production (docs/LANGUAGE.md, "Grammar").
//!
//! A reader gives its part back with the tokens behind it.

ghost use Rattle.std.specs.Prelude.{Some, ◌≡◌, ◌≢◌, ◌+◌, ◌<◌, ◌≤◌, ◌↔◌, ◌∷◌};
ghost use Rattle.std.specs.Prelude.{length, IsTrue, MatchResult};
ghost use Rattle.id_grammar.specs.Tree.{tree_of, none};
ghost use Rattle.id_grammar.specs.Grammar.{Expression, Grouped, Negation, Unary, Postfix, Atom, Arguments, operand};
ghost use Rattle.id_grammar.specs.Grammar.{operator_of};
ghost use Rattle.id_grammar.specs.Readers.{first_kind, may_deny, open_first, IsPrefix, Leads, Fails, Grows, Stunts};
ghost use Rattle.id_grammar.specs.Readers.{Encloses, Exposes, Surrounds, Bares, Indexes, Misindexes, IsGathered};
ghost use Rattle.id_grammar.specs.Readers.{Applies, Misapplies, Hands, passed, Rises};
ghost use Rattle.id_tree.specs.Reading.{text_of, HasRead, Finds, Reads, Refuses};

use crate::reader::Reader;
use id_grammar::{
    ArgumentList, Level, MAX_NESTING, Part, Tokens, TreeError, Word, add_argument, array, binary,
    call, conditional, copied, fetch, first_argument, is_sign, name, no_arguments, number,
    open_behind, open_first, truth, truth_of, unary, with_rest,
};
use id_text::{Identifier, Keyword, Symbol, Token, TokenKind};
use id_value::{BinaryOp, UnaryOp};
use std::alloc::Global;

impl<'t> Reader<'t> {
    /// `expr = conditional | or`
    #[cycle(expr)]
    pub fn parse_expression(self, alloc: Global) -> Result<(Part, Tokens<'t>), TreeError>
        ensures { MatchResult result (Reads self.entry Expression) (Refuses self.entry Expression) }
    {
        if self.tokens.begins_with(Keyword::If) {
            self.parse_conditional(alloc)
        } else {
            self.parse_grouped(alloc, Level::Or)
        }
    }

    /// `conditional = "if" expr "then" expr "else" expr`
    #[cycle(expr)]
    fn parse_conditional(self, alloc: Global) -> Result<(Part, Tokens<'t>), TreeError>
        requires begins { first_kind self.tokens.list.now ≡ TokenKind.Key Keyword.If }
        ensures { MatchResult result (Reads self.entry Expression) (Refuses self.entry Expression) }
    {
        let depth = self.depth + 1;
        let (first, tokens) = found!(self.enter(1));
        let (test, tokens) = found!(Reader { tokens, depth }.parse_enclosed(
            alloc,
            Word::Key(Keyword::Then)
        ));
        let (then, tokens) = found!(Reader { tokens, depth }.parse_enclosed(
            alloc,
            Word::Key(Keyword::Else)
        ));
        let (otherwise, rest) = found!(Reader { tokens, depth }.parse_expression(alloc));
        with_rest(conditional(alloc, test, then, otherwise, first.start), rest)
    }

    /// `or = and { "or" and }`, `and = not { "and" not }`,
    /// `cmp = sum [ ("==" | "<>" | "<" | "<=" | ">" | ">=") sum ]`, `sum = product { ("+" | "-") product }`,
    /// `product = unary { ("*" | "div" | "rem") unary }`
    ///
    /// The first operand is read at once, and the levels round it are left from the inside, so that an
    /// operand with no operator behind it costs one look at the token there.
    #[cycle(expr)]
    fn parse_grouped(self, alloc: Global, level: Level) -> Result<(Part, Tokens<'t>), TreeError>
        ensures { MatchResult result (Reads self.entry (Grouped level)) (Refuses self.entry (Grouped level)) }
    {
        let depth = self.depth;
        let denied = self.tokens.denies(level);
        let (mut left, mut tokens) = found!(self.parse_first(alloc, denied, level));
        let mut inner = open_first(denied);
        'operators: while let Some((at, op)) = tokens.operator_within(inner, level) {
            let (grown, behind) = found!(Reader { tokens, depth }.parse_right(alloc, left, op, at));
            left = grown;
            inner = open_behind(at);
            tokens = behind;
        }
        Ok((left, tokens))
    }

    /// The first operand of a level, which begins with a `not` if it is denied.
    #[inline(always)]
    #[cycle(expr)]
    fn parse_first(
        self,
        alloc: Global,
        denied: bool,
        level: Level,
    ) -> Result<(Part, Tokens<'t>), TreeError>
        requires denied { IsTrue denied ↔
            (may_deny level × (first_kind self.tokens.list.now ≡ TokenKind.Key Keyword.Not)) }
        ensures { MatchResult result
            (Finds self.entry (Rises (text_of self.entry) level self.entry.depth (open_first denied)))
            (Refuses self.entry (Grouped level)) }
    {
        if denied {
            self.parse_prefixed(alloc, UnaryOp::Not, Level::And)
        } else {
            self.parse_unary(alloc)
        }
    }

    /// An operator and its right operand, behind its left one.
    #[cycle(expr)]
    fn parse_right(
        self,
        alloc: Global,
        left: Part,
        op: BinaryOp,
        level: Level,
    ) -> Result<(Part, Tokens<'t>), TreeError>
        requires operator { operator_of level (first_kind self.tokens.list.now) ≡ Some op }
        requires some { 0 < left.height }
        requires fits { self.depth + left.height ≤ MAX_NESTING }
        ensures { MatchResult result
            (Finds self.entry (Grows (text_of self.entry) level self.entry.depth (tree_of left.expr) left.height))
            (Stunts (text_of self.entry) level self.entry.depth (tree_of left.expr) left.height) }
    {
        let depth = self.depth + 1;
        let (first, tokens) = found!(self.enter(left.height));
        let (right, rest) = found!(Reader { tokens, depth }.parse_operand(alloc, level));
        with_rest(binary(alloc, op, left, right, first.start), rest)
    }

    /// An operand of a level.
    #[inline(always)]
    #[cycle(expr)]
    fn parse_operand(self, alloc: Global, level: Level) -> Result<(Part, Tokens<'t>), TreeError>
        ensures { MatchResult result (Reads self.entry (operand level)) (Refuses self.entry (operand level)) }
    {
        match level {
            Level::Or => self.parse_grouped(alloc, Level::And),
            Level::And => self.parse_negation(alloc),
            Level::Comparison => self.parse_grouped(alloc, Level::Sum),
            Level::Sum => self.parse_grouped(alloc, Level::Product),
            Level::Product => self.parse_unary(alloc),
        }
    }

    /// `not = "not" not | cmp`
    #[cycle(expr)]
    fn parse_negation(self, alloc: Global) -> Result<(Part, Tokens<'t>), TreeError>
        ensures { MatchResult result (Reads self.entry Negation) (Refuses self.entry Negation) }
    {
        if self.tokens.begins_with(Keyword::Not) {
            self.parse_prefixed(alloc, UnaryOp::Not, Level::And)
        } else {
            self.parse_grouped(alloc, Level::Comparison)
        }
    }

    /// A prefix operator and its operand, where an operand of the level stands.
    #[cycle(expr)]
    fn parse_prefixed(
        self,
        alloc: Global,
        op: UnaryOp,
        level: Level,
    ) -> Result<(Part, Tokens<'t>), TreeError>
        requires prefix { IsPrefix level op (first_kind self.tokens.list.now) }
        ensures { MatchResult result (Reads self.entry (operand level)) (Refuses self.entry (operand level)) }
    {
        let depth = self.depth + 1;
        let (first, tokens) = found!(self.enter(1));
        let (operand, rest) = found!(Reader { tokens, depth }.parse_operand(alloc, level));
        with_rest(unary(alloc, op, operand, first.start), rest)
    }

    /// `unary = "-" unary | postfix`
    ///
    /// Most operands are a number or a name alone, and are read on the spot.
    #[inline(always)]
    #[cycle(expr)]
    fn parse_unary(self, alloc: Global) -> Result<(Part, Tokens<'t>), TreeError>
        ensures { MatchResult result (Reads self.entry Unary) (Refuses self.entry Unary) }
    {
        let (first, rest) = self.tokens.split();
        match &first.kind {
            TokenKind::Number(value) => {
                if !rest.begins_with_sign(Symbol::LeftBracket) {
                    return Ok((number(value, first.start), rest));
                }
            }
            TokenKind::Name(x) => {
                if !rest.begins_with_bracket() {
                    let whole = name(found!(copied(alloc, x)), first.start);
                    return Ok((whole, rest));
                }
            }
            TokenKind::Key(_) => (),
            TokenKind::Sign(_) => (),
            TokenKind::End => (),
        }
        self.parse_signed(alloc)
    }

    /// The same, of an operand of any form.
    #[cycle(expr)]
    fn parse_signed(self, alloc: Global) -> Result<(Part, Tokens<'t>), TreeError>
        ensures { MatchResult result (Reads self.entry Unary) (Refuses self.entry Unary) }
    {
        if self.tokens.begins_with_sign(Symbol::Minus) {
            self.parse_prefixed(alloc, UnaryOp::Neg, Level::Product)
        } else {
            self.parse_postfix(alloc)
        }
    }

    /// `postfix = atom { "[" expr "]" }`
    #[cycle(expr)]
    fn parse_postfix(self, alloc: Global) -> Result<(Part, Tokens<'t>), TreeError>
        ensures { MatchResult result (Reads self.entry Postfix) (Refuses self.entry Postfix) }
    {
        let depth = self.depth;
        let (mut target, mut tokens) = found!(self.parse_atom(alloc));
        'fetches: while tokens.begins_with_sign(Symbol::LeftBracket) {
            let (whole, behind) = found!(Reader { tokens, depth }.parse_fetch(alloc, target));
            target = whole;
            tokens = behind;
        }
        Ok((target, tokens))
    }

    /// A fetch, from behind its target: `"[" expr "]"`
    #[cycle(expr)]
    fn parse_fetch(self, alloc: Global, target: Part) -> Result<(Part, Tokens<'t>), TreeError>
        requires begins { first_kind self.tokens.list.now ≡ TokenKind.Sign Symbol.LeftBracket }
        requires some { 0 < target.height }
        requires fits { self.depth + target.height ≤ MAX_NESTING }
        ensures { MatchResult result
            (Finds self.entry (Indexes (text_of self.entry) self.entry.depth (tree_of target.expr) target.height))
            (Misindexes (text_of self.entry) self.entry.depth (tree_of target.expr) target.height) }
    {
        let depth = self.depth + 1;
        let (first, tokens) = found!(self.enter(target.height));
        let bracket = Word::Sign(Symbol::RightBracket);
        let (index, rest) = found!(Reader { tokens, depth }.parse_enclosed(alloc, bracket));
        with_rest(fetch(alloc, target, index, first.start), rest)
    }

    /// `atom = "(" expr ")" | block | loop | for | array | leaf`
    #[cycle(expr)]
    fn parse_atom(self, alloc: Global) -> Result<(Part, Tokens<'t>), TreeError>
        ensures { MatchResult result (Reads self.entry Atom) (Refuses self.entry Atom) }
    {
        if self.tokens.begins_with_sign(Symbol::LeftParen) {
            self.parse_parens(alloc)
        } else if self.tokens.begins_with_sign(Symbol::LeftBrace) {
            self.parse_braces(alloc)
        } else if self.tokens.begins_with(Keyword::Array) {
            self.parse_array(alloc)
        } else {
            self.parse_leaf(alloc)
        }
    }

    /// `array = "array" [ "array" ] "(" expr "," expr ")"`
    #[cycle(expr)]
    fn parse_array(self, alloc: Global) -> Result<(Part, Tokens<'t>), TreeError>
        requires begins { first_kind self.tokens.list.now ≡ TokenKind.Key Keyword.Array }
        ensures { MatchResult result (Reads self.entry Atom) (Refuses self.entry Atom) }
    {
        let depth = self.depth + 1;
        let (first, behind) = found!(self.enter(1));
        let nested = behind.begins_with(Keyword::Array);
        let tokens = behind_array(behind);
        let (low, tokens) = found!(Reader { tokens, depth }.parse_between(
            alloc,
            Symbol::LeftParen,
            Symbol::Comma
        ));
        let (high, rest) = found!(Reader { tokens, depth }.parse_enclosed(
            alloc,
            Word::Sign(Symbol::RightParen)
        ));
        with_rest(array(alloc, nested, low, high, first.start), rest)
    }

    /// `"(" expr ")"`
    #[cycle(expr)]
    fn parse_parens(self, alloc: Global) -> Result<(Part, Tokens<'t>), TreeError>
        requires begins { first_kind self.tokens.list.now ≡ TokenKind.Sign Symbol.LeftParen }
        ensures { MatchResult result (Reads self.entry Atom) (Refuses self.entry Atom) }
    {
        let depth = self.depth + 1;
        let (_, tokens) = found!(self.enter(1));
        let (mut inside, rest) = found!(Reader { tokens, depth }.parse_enclosed(
            alloc,
            Word::Sign(Symbol::RightParen)
        ));
        inside.height += 1;
        Ok((inside, rest))
    }

    /// An expression and the word or sign behind it.
    #[cycle(expr)]
    pub fn parse_enclosed(
        self,
        alloc: Global,
        closing: Word,
    ) -> Result<(Part, Tokens<'t>), TreeError>
        ensures { MatchResult result
            (Finds self.entry (Encloses (text_of self.entry) self.entry.depth closing))
            (Exposes (text_of self.entry) self.entry.depth closing) }
    {
        let (inside, closed) = found!(self.parse_expression(alloc));
        let rest = found!(closed.expect_word(closing));
        Ok((inside, rest))
    }

    /// A sign, an expression, and the sign behind it.
    #[inline(always)]
    #[cycle(expr)]
    pub fn parse_between(
        self,
        alloc: Global,
        opening: Symbol,
        closing: Symbol,
    ) -> Result<(Part, Tokens<'t>), TreeError>
        ensures { MatchResult result
            (Finds self.entry (Surrounds (text_of self.entry) self.entry.depth (Word.Sign opening) (Word.Sign closing)))
            (Bares (text_of self.entry) self.entry.depth (Word.Sign opening) (Word.Sign closing)) }
    {
        let depth = self.depth;
        let tokens = found!(self.tokens.expect_word(Word::Sign(opening)));
        Reader { tokens, depth }.parse_enclosed(alloc, Word::Sign(closing))
    }

    /// `leaf = NUMBER | "true" | "false" | NAME | call`
    #[cycle(expr)]
    fn parse_leaf(self, alloc: Global) -> Result<(Part, Tokens<'t>), TreeError>
        requires no_paren { first_kind self.tokens.list.now ≢ TokenKind.Sign Symbol.LeftParen }
        requires no_brace { first_kind self.tokens.list.now ≢ TokenKind.Sign Symbol.LeftBrace }
        requires no_array { first_kind self.tokens.list.now ≢ TokenKind.Key Keyword.Array }
        ensures { MatchResult result (Reads self.entry Atom) (Refuses self.entry Atom) }
    {
        let depth = self.depth;
        let (first, tokens) = self.tokens.split();
        match &first.kind {
            TokenKind::Number(value) => {
                let whole = number(value, first.start);
                Ok((whole, tokens))
            }
            TokenKind::Name(x) => {
                let name = found!(copied(alloc, x));
                Reader { tokens, depth }.parse_named(alloc, name, first.start)
            }
            TokenKind::Key(_) => match truth_of(first) {
                Some(value) => {
                    let whole = truth(value, first.start);
                    Ok((whole, tokens))
                }
                None => Err(self.tokens.unexpected()),
            },
            TokenKind::Sign(_) => Err(self.tokens.unexpected()),
            TokenKind::End => Err(self.tokens.unexpected()),
        }
    }

    /// A name or a call, from behind its name: `call = NAME "(" [ expr { "," expr } ] ")"`
    #[cycle(expr)]
    fn parse_named(
        self,
        alloc: Global,
        x: Identifier,
        place: u32,
    ) -> Result<(Part, Tokens<'t>), TreeError>
        ensures { MatchResult result
            (λ y. (0 < y.0.height) × IsGathered (text_of self.entry) y.1.list.now self.entry.depth y.0.height
            × Applies (text_of self.entry) self.entry.depth x place y.1.list.now (tree_of y.0.expr) y.0.height)
            (Misapplies (text_of self.entry) self.entry.depth x place) }
    {
        let depth = self.depth;
        if self.tokens.begins_with_sign(Symbol::LeftParen) {
            let (_, tokens) = self.tokens.split();
            let (args, rest) = found!(Reader { tokens, depth }.parse_arguments(alloc));
            with_rest(call(alloc, x, args, place), rest)
        } else {
            let whole = name(x, place);
            Ok((whole, self.tokens))
        }
    }

    /// `[ expr { "," expr } ] ")"`, in one expression more, for which there may be no room
    #[cycle(expr)]
    fn parse_arguments(self, alloc: Global) -> Result<(ArgumentList, Tokens<'t>), TreeError>
        ensures { MatchResult result
            (λ x. IsGathered (text_of self.entry) x.1.list.now (self.entry.depth + 1) x.0.height
            × Leads (text_of self.entry) Arguments (self.entry.depth + 1) x.1.list.now
            (passed x.0.list.items none) x.0.height)
            (Fails (text_of self.entry) Arguments (self.entry.depth + 1)) }
    {
        let (first, closed) = self.tokens.split();
        if is_sign(first, Symbol::RightParen) {
            return Ok((no_arguments(alloc), closed));
        }
        let depth = self.depth + 1;
        if depth >= MAX_NESTING {
            return Err(self.tokens.no_room());
        }
        let tokens = self.tokens;
        let (args, rest) = found!(Reader { tokens, depth }.parse_some_arguments(alloc));
        let (last, closed) = rest.split();
        if is_sign(last, Symbol::RightParen) {
            Ok((args, closed))
        } else {
            Err(rest.unexpected())
        }
    }

    /// `expr { "," expr }`
    #[cycle(expr)]
    fn parse_some_arguments(self, alloc: Global) -> Result<(ArgumentList, Tokens<'t>), TreeError>
        requires not_closed { first_kind self.tokens.list.now ≢ TokenKind.Sign Symbol.RightParen }
        ensures { MatchResult result
            (λ x. HasRead self.entry x.1 x.0.height
            × first_kind x.1.list.now ≢ TokenKind.Sign Symbol.Comma
            × Hands (text_of self.entry) self.entry.depth x.1.list.now x.0.list.items x.0.height)
            (Refuses self.entry Arguments) }
    {
        let depth = self.depth;
        let (first, begun) = found!(self.parse_expression(alloc));
        let mut args = found!(first_argument(alloc, first));
        let mut rest = begun;
        'arguments: while rest.begins_with_sign(Symbol::Comma) {
            let (_, tokens) = rest.split();
            let (arg, behind) = found!(Reader { tokens, depth }.parse_expression(alloc));
            found!(add_argument(&mut args, arg));
            rest = behind;
        }
        Ok((args, rest))
    }
}

/// The tokens, or those behind the word `array` where they begin with it.
fn behind_array(tokens: Tokens<'_>) -> Tokens<'_>
    ensures shorter { length result.list.now ≤ length tokens.entry.list.now }
    ensures word { first_kind tokens.entry.list.now ≡ TokenKind.Key Keyword.Array
        → (t : Token) × (tokens.entry.list.now ≡ t ∷ result.list.now) }
    ensures none { first_kind tokens.entry.list.now ≢ TokenKind.Key Keyword.Array
        → result.list.now ≡ tokens.entry.list.now }
{
    if tokens.begins_with(Keyword::Array) {
        let (_, behind) = tokens.split();
        behind
    } else {
        tokens
    }
}
