//! The parser of blocks, loops and their statements, a function for each production (docs/LANGUAGE.md, "Grammar").
//!
//! A reader gives its part back with the tokens behind it.

ghost use Rattle.std.specs.Prelude.{◌≡◌, ◌≢◌, ◌+◌, ◌≤◌, ◌↔◌, max, IsTrue};
ghost use Rattle.std.specs.Prelude.{MatchResult};
ghost use Rattle.id_grammar.specs.Tree.{tree_of};
ghost use Rattle.id_grammar.specs.Grammar.{Atom, Tail};
ghost use Rattle.id_grammar.specs.Readers.{first_kind, second_kind, last_word, Adds, Assigns, Misassigns, Gathers};
ghost use Rattle.id_grammar.specs.Readers.{IsGathered, Stores, Misstores, Ranges, Misranges};
ghost use Rattle.id_tree.specs.Reading.{text_of, HasRead, FindsStatement, Reads, Refuses};

use crate::reader::Reader;
use id_grammar::{
    IndexPart, MAX_NESTING, Part, Scope, Statement, StatementList, Tokens, TreeError, Word,
    add_statement, binding, block, fetch, indexed, name, next, no_statements, store, whole_for,
    whole_loop, with_rest,
};
use id_text::{Identifier, Keyword, Symbol, TokenKind};
use std::alloc::Global;

impl<'t> Reader<'t> {
    /// `block | loop | for`
    #[cycle(expr)]
    pub fn parse_braces(self, alloc: Global) -> Result<(Part, Tokens<'t>), TreeError>
        requires begins { first_kind self.tokens.list.now ≡ TokenKind.Sign Symbol.LeftBrace }
        ensures { MatchResult result (Reads self.entry Atom) (Refuses self.entry Atom) }
    {
        let (_, opened) = self.tokens.split();
        if opened.begins_with(Keyword::While) {
            self.parse_loop(alloc)
        } else if opened.begins_with(Keyword::For) {
            self.parse_for(alloc)
        } else {
            self.parse_block(alloc)
        }
    }

    /// `block = "{" { stmt } "in" expr "}"`
    #[cycle(expr)]
    fn parse_block(self, alloc: Global) -> Result<(Part, Tokens<'t>), TreeError>
        requires begins { first_kind self.tokens.list.now ≡ TokenKind.Sign Symbol.LeftBrace }
        requires no_while { second_kind self.tokens.list.now ≢ TokenKind.Key Keyword.While }
        requires no_for { second_kind self.tokens.list.now ≢ TokenKind.Key Keyword.For }
        ensures { MatchResult result (Reads self.entry Atom) (Refuses self.entry Atom) }
    {
        let depth = self.depth + 1;
        let (first, tokens) = found!(self.enter(1));
        let (statements, last) = found!(Reader { tokens, depth }.parse_statements(
            alloc,
            Scope::Block
        ));
        let (_, tokens) = last.split();
        let (body, rest) = found!(Reader { tokens, depth }.parse_enclosed(
            alloc,
            Word::Sign(Symbol::RightBrace)
        ));
        with_rest(block(alloc, statements, body, first.start), rest)
    }

    /// `loop = "{" "while" expr "do" { stmt | next } "finally" expr "}"`
    #[cycle(expr)]
    fn parse_loop(self, alloc: Global) -> Result<(Part, Tokens<'t>), TreeError>
        requires begins { first_kind self.tokens.list.now ≡ TokenKind.Sign Symbol.LeftBrace }
        requires loops { second_kind self.tokens.list.now ≡ TokenKind.Key Keyword.While }
        ensures { MatchResult result (Reads self.entry Atom) (Refuses self.entry Atom) }
    {
        let depth = self.depth + 1;
        let (first, opened) = found!(self.enter(1));
        let (_, tokens) = opened.split();
        let (test, tokens) = found!(Reader { tokens, depth }.parse_enclosed(
            alloc,
            Word::Key(Keyword::Do)
        ));
        let (statements, ending) = found!(Reader { tokens, depth }.parse_statements(
            alloc,
            Scope::Loop
        ));
        let (_, tokens) = ending.split();
        let (last, rest) = found!(Reader { tokens, depth }.parse_enclosed(
            alloc,
            Word::Sign(Symbol::RightBrace)
        ));
        with_rest(whole_loop(alloc, test, statements, last, first.start), rest)
    }

    /// `for = "{" "for" NAME "<-" expr "to" expr "do" { stmt | next } "finally" expr "}"`
    #[cycle(expr)]
    fn parse_for(self, alloc: Global) -> Result<(Part, Tokens<'t>), TreeError>
        requires begins { first_kind self.tokens.list.now ≡ TokenKind.Sign Symbol.LeftBrace }
        requires counts { second_kind self.tokens.list.now ≡ TokenKind.Key Keyword.For }
        ensures { MatchResult result (Reads self.entry Atom) (Refuses self.entry Atom) }
    {
        let depth = self.depth + 1;
        let (first, opened) = found!(self.enter(1));
        let (_, tokens) = opened.split();
        let (index, tokens) = found!(Reader { tokens, depth }.parse_index(alloc));
        let (statements, ending) = found!(Reader { tokens, depth }.parse_statements(
            alloc,
            Scope::Loop
        ));
        let (_, tokens) = ending.split();
        let (last, rest) = found!(Reader { tokens, depth }.parse_enclosed(
            alloc,
            Word::Sign(Symbol::RightBrace)
        ));
        with_rest(whole_for(alloc, index, statements, last, first.start), rest)
    }

    /// The index of a `for` and its bounds, from behind the word: `NAME "<-" expr "to" expr "do"`
    #[cycle(expr)]
    fn parse_index(self, alloc: Global) -> Result<(IndexPart, Tokens<'t>), TreeError>
        ensures { MatchResult result
            (λ x. HasRead self.entry x.1 x.0.height
            × Ranges (text_of self.entry) self.entry.depth x.1.list.now x.0.name x.0.place (tree_of x.0.low)
            (tree_of x.0.high) x.0.height)
            (Misranges (text_of self.entry) self.entry.depth) }
    {
        let depth = self.depth;
        let (x, place, named) = found!(self.tokens.expect_name(alloc));
        let tokens = found!(named.expect_word(Word::Sign(Symbol::Arrow)));
        let (low, tokens) = found!(Reader { tokens, depth }.parse_enclosed(
            alloc,
            Word::Key(Keyword::To)
        ));
        let (high, rest) = found!(Reader { tokens, depth }.parse_enclosed(
            alloc,
            Word::Key(Keyword::Do)
        ));
        Ok((indexed(x, place, low, high), rest))
    }

    /// `{ stmt }` or `{ stmt | next }`, and the tokens from the last word on.
    #[cycle(expr)]
    fn parse_statements(
        self,
        alloc: Global,
        scope: Scope,
    ) -> Result<(StatementList, Tokens<'t>), TreeError>
        ensures { MatchResult result
            (λ x. IsGathered (text_of self.entry) x.1.list.now self.entry.depth x.0.height
            × first_kind x.1.list.now ≡ TokenKind.Key (last_word scope)
            × Gathers (text_of self.entry) scope self.entry.depth x.1.list.now x.0.list.items x.0.height)
            (Refuses self.entry (Tail scope)) }
    {
        let depth = self.depth;
        let mut statements = no_statements(alloc);
        let mut tokens = self.tokens;
        'stmts: while !tokens.begins_with(last_word(scope)) {
            let (statement, behind) = found!(Reader { tokens, depth }.parse_statement(
                alloc, scope
            ));
            found!(add_statement(&mut statements, statement));
            tokens = behind;
        }
        Ok((statements, tokens))
    }

    /// `stmt = NAME "=" expr ";" | store`, or `next` in a loop.
    #[cycle(expr)]
    fn parse_statement(
        self,
        alloc: Global,
        scope: Scope,
    ) -> Result<(Statement, Tokens<'t>), TreeError>
        requires not_last { first_kind self.tokens.list.now ≢ TokenKind.Key (last_word scope) }
        ensures { MatchResult result
            (FindsStatement self.entry (Adds (text_of self.entry) scope self.entry.depth))
            (Refuses self.entry (Tail scope)) }
    {
        let depth = self.depth;
        if begins_next(self.tokens, scope) {
            return self.parse_next(alloc);
        }
        let (x, place, tokens) = found!(self.tokens.expect_name(alloc));
        if tokens.begins_with_sign(Symbol::LeftBracket) {
            return Reader { tokens, depth }.parse_store(alloc, x, place, scope);
        }
        let (value, rest) = found!(Reader { tokens, depth }.parse_between(
            alloc,
            Symbol::Becomes,
            Symbol::Semicolon
        ));
        Ok((binding(x, value, place), rest))
    }

    /// A store, from behind its name: `store = NAME "[" expr "]" [ "[" expr "]" ] "=" expr ";"`
    #[cycle(expr)]
    fn parse_store(
        self,
        alloc: Global,
        x: Identifier,
        place: u32,
        scope: Scope,
    ) -> Result<(Statement, Tokens<'t>), TreeError>
        requires begins { first_kind self.tokens.list.now ≡ TokenKind.Sign Symbol.LeftBracket }
        ensures { MatchResult result
            (FindsStatement self.entry (Assigns (text_of self.entry) scope self.entry.depth x place))
            (Misassigns (text_of self.entry) scope self.entry.depth x place) }
    {
        let depth = self.depth;
        let (first, tokens) = self.tokens.split();
        let bracket = Word::Sign(Symbol::RightBracket);
        let (index, read) = found!(Reader { tokens, depth }.parse_expression(alloc));
        let tokens = found!(read.expect_word(bracket));
        let target = name(x, place);
        if tokens.begins_with_sign(Symbol::LeftBracket) {
            let (last, tokens) = found!(Reader { tokens, depth }.enter(index.height));
            let inner = found!(fetch(alloc, target, index, first.start));
            let (index, tokens) = found!(Reader { tokens, depth }.parse_enclosed(alloc, bracket));
            Reader { tokens, depth }.parse_stored(alloc, inner, index, last.start)
        } else {
            Reader { tokens, depth }.parse_stored(alloc, target, index, first.start)
        }
    }

    /// The rest of a store with this target and this index, whose last `[` is at this place: `"=" expr ";"`
    #[inline(always)]
    #[cycle(expr)]
    fn parse_stored(
        self,
        alloc: Global,
        target: Part,
        index: Part,
        place: u32,
    ) -> Result<(Statement, Tokens<'t>), TreeError>
        requires target { self.depth + target.height ≤ MAX_NESTING }
        requires index { self.depth + index.height ≤ MAX_NESTING }
        ensures { MatchResult result
            (FindsStatement self.entry (λ us s h. (o : Scope) → Stores (text_of self.entry) o self.entry.depth
            (tree_of target.expr) (tree_of index.expr) place (max target.height index.height) us s h))
            (λ e. (o : Scope) → Misstores (text_of self.entry) o self.entry.depth
            (tree_of target.expr) (tree_of index.expr) place (max target.height index.height) e) }
    {
        let (value, rest) = found!(self.parse_between(alloc, Symbol::Becomes, Symbol::Semicolon));
        let statement = found!(store(alloc, target, index, value, place));
        Ok((statement, rest))
    }

    /// `next = "next" NAME "=" expr ";"`
    #[cycle(expr)]
    fn parse_next(self, alloc: Global) -> Result<(Statement, Tokens<'t>), TreeError>
        requires begins { first_kind self.tokens.list.now ≡ TokenKind.Key Keyword.Next }
        ensures { MatchResult result
            (FindsStatement self.entry (Adds (text_of self.entry) Scope.Loop self.entry.depth))
            (Refuses self.entry (Tail Scope.Loop)) }
    {
        let depth = self.depth;
        let (first, rest) = self.tokens.split();
        let (name, _, tokens) = found!(rest.expect_name(alloc));
        let (value, behind) = found!(Reader { tokens, depth }.parse_between(
            alloc,
            Symbol::Becomes,
            Symbol::Semicolon
        ));
        Ok((next(name, value, first.start), behind))
    }
}

/// The word behind the statements.
fn last_word(scope: Scope) -> Keyword
    ensures { result ≡ last_word scope }
{
    match scope {
        Scope::Block => Keyword::In,
        Scope::Loop => Keyword::Finally,
    }
}

/// Whether the tokens begin with `next`, where such a statement may stand.
fn begins_next(tokens: Tokens<'_>, scope: Scope) -> bool
    ensures { IsTrue result ↔
        ((scope ≡ Scope.Loop) × (first_kind tokens.entry.list.now ≡ TokenKind.Key Keyword.Next)) }
{
    match scope {
        Scope::Block => false,
        Scope::Loop => tokens.begins_with(Keyword::Next),
    }
}
