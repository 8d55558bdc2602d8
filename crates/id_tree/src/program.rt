//! The program, its definitions and their headings, around the parser of expressions (docs/LANGUAGE.md, "Grammar").
//!
//! Each function takes the tokens from its part on, and gives the part back with the tokens behind it.

ghost use Rattle.std.specs.Prelude.{◌≡◌, [], ◌∷◌, ◌++◌, IfOk, IfErr, MatchResult};
ghost use Rattle.id_text.specs.Tokens.{EndsOnce, Rises};
ghost use Rattle.id_text.specs.declared.token.TokenKind.TheVariants.{Key};
ghost use Rattle.id_grammar.specs.Tree.{Tree, define, tree_of, params_tree, def_tree, program_tree};
ghost use Rattle.id_grammar.specs.declared.tree.Param.{Param};
ghost use Rattle.id_tree.specs.Accepted.{Accepts, RefusedBy, IsMemory};
ghost use Rattle.id_tree.specs.Distinct.{Distinct};
ghost use Rattle.id_tree.specs.Starts.{PlacesAreStarts};
ghost use Rattle.id_grammar.specs.Grammar.{Definition, Parameters};
ghost use Rattle.id_grammar.specs.Machine.{run, Begin, Accepted};
ghost use Rattle.id_grammar.specs.Readers.{first_kind, EndsBy, IsBehind, Leads, Defines, Fails};
ghost use Rattle.id_grammar.specs.Readers.{Declares, Undeclares, Heads};
ghost use Rattle.id_grammar.specs.Readers.{Beheads};

use crate::heads::{expect_end, expect_kind};
use crate::reader::Reader;
use id_grammar::{Def, Param, Part, Program, Tokens, TreeError, Word, fitted, is_sign};
use id_text::{Identifier, Keyword, Sequence, Symbol, Token};
use id_value::Kind;
use std::alloc::Global;

/// The program of these tokens.
///
/// `Unexpected` and `TooDeep` are at the start of the first token with which no accepted list goes
/// on, and `Memory` comes where a growth was refused (docs/LANGUAGE.md, "Nesting").
pub fn parse(alloc: Global, tokens: &[Token]) -> Result<Program, TreeError>
    requires ends { EndsOnce tokens.now }
    requires rises { Rises tokens.now }

    // The list is accepted, and this is its one tree.
    ensures tree { IfOk result (λ p. Accepts tokens.now (program_tree p)) }
    ensures only { (e : Tree) → Accepts tokens.now e →
        MatchResult result (λ p. program_tree p ≡ e) IsMemory }
    ensures distinct { IfOk result (λ p. Distinct (program_tree p)) }
    ensures within { IfOk result (λ p. PlacesAreStarts tokens.now (program_tree p)) }

    ensures refused { IfErr result (RefusedBy tokens.now) }
{
    parse_program(alloc, Tokens { list: tokens })
}

/// `program = { def }`, and then the end
fn parse_program(alloc: Global, tokens: Tokens<'_>) -> Result<Program, TreeError>
    ensures ok { IfOk result (λ p. run 200 tokens.entry.list.now (Begin []) ≡ Accepted (program_tree p)) }
    ensures err { IfErr result (EndsBy (run 200 tokens.entry.list.now (Begin []))) }
{
    let mut defs = Vec::new(alloc);
    let mut rest = tokens;
    'defs: while rest.begins_with(Keyword::Def) {
        let (def, behind) = found!(parse_def(alloc, rest));
        defs.push(def)?;
        rest = behind;
    }
    found!(expect_end(rest));
    Ok(Program {
        defs: Sequence::new(defs),
    })
}

/// `def = "def" NAME "(" [ param { "," param } ] ")" ":" kind "=" expr ";"`
fn parse_def(alloc: Global, tokens: Tokens<'_>) -> Result<(Def, Tokens<'_>), TreeError>
    requires begins { first_kind tokens.list.now ≡ Key Keyword.Def }
    ensures { MatchResult result
        (λ x. IsBehind x.1.list.now tokens.entry.list.now × Defines tokens.entry.list.now x.1.list.now (def_tree x.0))
        (Fails tokens.entry.list.now Definition 0) }
{
    let (_, named) = tokens.split();
    let (name, place, headed) = found!(named.expect_name(alloc));
    let (params, kind, begun) = found!(parse_heading(alloc, headed));
    let reader = Reader {
        tokens: begun,
        depth: 0,
    };
    let (body, rest) = found!(reader.parse_enclosed(alloc, Word::Sign(Symbol::Semicolon)));
    Ok((definition(name, place, params, kind, body), rest))
}

/// The definition of this name, at this place.
#[inline(always)]
fn definition(name: Identifier, place: u32, params: Vec<Param>, kind: Kind, body: Part) -> Def
    ensures { def_tree result
        ≡ define name (params_tree params.items) kind (tree_of body.expr) place }
{
    Def {
        name,
        params: Sequence::new(fitted(params)),
        result: kind,
        body: body.into_expr(),
        place,
    }
}

/// `"(" [ param { "," param } ] ")" ":" kind "="`
fn parse_heading(
    alloc: Global,
    tokens: Tokens<'_>,
) -> Result<(Vec<Param>, Kind, Tokens<'_>), TreeError>
    ensures { MatchResult result
        (λ x. IsBehind x.2.list.now tokens.entry.list.now
        × Heads tokens.entry.list.now x.2.list.now (params_tree x.0.items) x.1)
        (Beheads tokens.entry.list.now) }
{
    let opened = found!(tokens.expect_word(Word::Sign(Symbol::LeftParen)));
    let (params, closed) = found!(parse_params(alloc, opened));
    let (kind, headed) = found!(expect_kind(closed));
    let rest = found!(headed.expect_word(Word::Sign(Symbol::Becomes)));
    Ok((params, kind, rest))
}

/// `[ param { "," param } ] ")"`
fn parse_params(alloc: Global, tokens: Tokens<'_>) -> Result<(Vec<Param>, Tokens<'_>), TreeError>
    ensures { MatchResult result
        (λ x. IsBehind x.1.list.now tokens.entry.list.now
        × Leads tokens.entry.list.now Parameters 0 x.1.list.now (params_tree x.0.items) 0)
        (Fails tokens.entry.list.now Parameters 0) }
{
    let mut params = Vec::with_capacity(alloc, 2)?;
    let rest = found!(add_params(alloc, &mut params, tokens));
    Ok((params, rest))
}

/// The same, where the parameters are added to a list that has none.
///
/// Gives the tokens behind them.
#[inline(always)]
fn add_params<'a>(
    alloc: Global,
    params: &mut Vec<Param>,
    tokens: Tokens<'a>,
) -> Result<Tokens<'a>, TreeError>
    requires none { params.old.items ≡ [] }
    ensures { MatchResult result
        (λ rest. IsBehind rest.list.now tokens.entry.list.now
        × Leads tokens.entry.list.now Parameters 0 rest.list.now (params_tree params.new.items) 0)
        (Fails tokens.entry.list.now Parameters 0) }
{
    let (first, closed) = tokens.split();
    if is_sign(first, Symbol::RightParen) {
        return Ok(closed);
    }
    let mut rest = found!(add_param(alloc, params, tokens));
    'params: while rest.begins_with_sign(Symbol::Comma) {
        let (_, named) = rest.split();
        rest = found!(add_param(alloc, params, named));
    }
    let (last, closed) = rest.split();
    if is_sign(last, Symbol::RightParen) {
        Ok(closed)
    } else {
        Err(rest.unexpected())
    }
}

/// `param = NAME ":" kind`
///
/// Adds the parameter to the list, and gives the tokens behind it.
fn add_param<'a>(
    alloc: Global,
    params: &mut Vec<Param>,
    tokens: Tokens<'a>,
) -> Result<Tokens<'a>, TreeError>
    ensures { MatchResult result
        (λ rest. IsBehind rest.list.now tokens.entry.list.now × ((p : Param)
        × (params.new.items ≡ params.old.items ++ p ∷ []) × Declares tokens.entry.list.now rest.list.now p))
        (Undeclares tokens.entry.list.now) }
{
    let (name, place, typed) = found!(tokens.expect_name(alloc));
    let (kind, rest) = found!(expect_kind(typed));
    params.push(Param { name, kind, place })?;
    Ok(rest)
}
