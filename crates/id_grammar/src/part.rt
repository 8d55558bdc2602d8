//! Parts that were read, and how the expressions round them are made of them.

ghost use Rattle.std.specs.Prelude.{Ok, Err, ◌≡◌, ◌+◌, ◌<◌, ◌^◌, [], ◌∷◌, ◌++◌};
ghost use Rattle.std.specs.Prelude.{IfOk, IfErr, MatchResult, max};
ghost use Rattle.id_grammar.specs.declared.tree.TreeError.TheVariants.{Memory};
ghost use Rattle.id_value.specs.declared.Constant.TheVariants as constant;
ghost use Rattle.id_grammar.specs.Tree.{tree_of, stmt_tree, none};
ghost use Rattle.id_grammar.specs.Tree as tree;
ghost use Rattle.id_grammar.specs.Readers.{onto, passed};

use crate::tokens::Tokens;
use crate::tree::{Block, Call, Expr, For, Loop, Pair, Stmt, TreeError, Triple};
use id_text::Identifier;
use id_value::{BinaryOp, Constant, UnaryOp};
use std::alloc::Global;

/// An expression that was read, and its height.
pub struct Part {
    pub expr: Expr,
    pub height: usize,
}

/// A drop of its own, so that a reader which gives up lets each part go by one call.
impl Drop for Part {
    fn drop(self) {
        let Part { expr: _, height: _ } = self;
    }
}

/// A statement that was read, and the greatest height of its parts.
pub struct Statement {
    pub stmt: Stmt,
    pub height: usize,
}

/// A drop of its own, like that of `Part`.
impl Drop for Statement {
    fn drop(self) {
        let Statement { stmt: _, height: _ } = self;
    }
}

/// Statements that were read, in order, and the greatest height of a part.
pub struct StatementList {
    pub list: Vec<Stmt>,
    pub height: usize,
}

/// A drop of its own, like that of `Part`.
impl Drop for StatementList {
    fn drop(self) {
        let StatementList { list: _, height: _ } = self;
    }
}

/// Arguments that were read, in order, and the greatest height of one.
pub struct ArgumentList {
    pub list: Vec<Expr>,
    pub height: usize,
}

/// A drop of its own, like that of `Part`.
impl Drop for ArgumentList {
    fn drop(self) {
        let ArgumentList { list: _, height: _ } = self;
    }
}

/// The index of a `for`, at its name, and its bounds, with the greater height of the two.
pub struct IndexPart {
    pub name: Identifier,
    pub place: u32,
    pub low: Expr,
    pub high: Expr,
    pub height: usize,
}

/// A drop of its own, like that of `Part`.
impl Drop for IndexPart {
    fn drop(self) {
        let IndexPart {
            name: _,
            place: _,
            low: _,
            high: _,
            height: _,
        } = self;
    }
}

impl Part {
    /// The expression alone.
    pub fn into_expr(self) -> Expr
        ensures { result ≡ self.expr }
    {
        let Part { expr, height: _ } = self;
        expr
    }
}

impl Statement {
    /// The statement alone.
    fn into_stmt(self) -> Stmt
        ensures { result ≡ self.stmt }
    {
        let Statement { stmt, height: _ } = self;
        stmt
    }
}

impl StatementList {
    /// The statements alone.
    fn into_list(self) -> Vec<Stmt>
        ensures { result ≡ self.list }
    {
        let StatementList { list, height: _ } = self;
        list
    }
}

impl IndexPart {
    /// The `for` of the index, with these statements and this last expression.
    fn into_for(self, statements: Vec<Stmt>, last: Expr) -> For
        ensures name { result.name ≡ self.name }
        ensures index { result.index ≡ self.place }
        ensures low { result.low ≡ self.low }
        ensures high { result.high ≡ self.high }
        ensures statements { result.statements ≡ statements }
        ensures last { result.last ≡ last }
    {
        let IndexPart {
            name,
            place,
            low,
            high,
            height: _,
        } = self;
        For {
            name,
            index: place,
            low,
            high,
            statements,
            last,
        }
    }
}

impl ArgumentList {
    /// The arguments alone.
    fn into_list(self) -> Vec<Expr>
        ensures { result ≡ self.list }
    {
        let ArgumentList { list, height: _ } = self;
        list
    }
}

/// The number as an expression.
pub fn number(value: &i64, place: u32) -> Part
    ensures height { result.height ≡ 1 }
    ensures tree { tree_of result.expr ≡ tree.literal (constant.Int value.now) place }
{
    let value = Constant::Int(*value);
    let expr = Expr::Literal { place, value };
    Part { expr, height: 1 }
}

/// The truth value as an expression.
pub fn truth(value: bool, place: u32) -> Part
    ensures height { result.height ≡ 1 }
    ensures tree { tree_of result.expr ≡ tree.literal (constant.Bool value) place }
{
    let value = Constant::Bool(value);
    let expr = Expr::Literal { place, value };
    Part { expr, height: 1 }
}

/// The name as an expression.
pub fn name(name: Identifier, place: u32) -> Part
    ensures height { result.height ≡ 1 }
    ensures tree { tree_of result.expr ≡ tree.name name place }
{
    let expr = Expr::Name { place, name };
    Part { expr, height: 1 }
}

/// The procedure's name with the arguments.
pub fn call(
    alloc: Global,
    name: Identifier,
    args: ArgumentList,
    place: u32,
) -> Result<Part, TreeError>
    requires { args.height < 2 ^ 63 }
    ensures { MatchResult result
        (λ p. (p.height ≡ args.height + 1)
        × (tree_of p.expr ≡ tree.call name (passed args.list.items none) place))
        (λ e. e ≡ Memory) }
{
    let height = args.height + 1;
    let args = fitted(args.into_list());
    let inside = Box::new(alloc, Call { name, args })?;
    let expr = Expr::Call { place, inside };
    Ok(Part { expr, height })
}

/// The operand behind an operator.
pub fn unary(alloc: Global, op: UnaryOp, operand: Part, place: u32) -> Result<Part, TreeError>
    requires { operand.height < 2 ^ 63 }
    ensures { MatchResult result
        (λ p. (p.height ≡ operand.height + 1)
        × (tree_of p.expr ≡ tree.unary op (tree_of operand.expr) place))
        (λ e. e ≡ Memory) }
{
    let height = operand.height + 1;
    let operand = Box::new(alloc, operand.into_expr())?;
    let expr = Expr::Unary { op, place, operand };
    Ok(Part { expr, height })
}

/// Two parts in a box.
fn pair(alloc: Global, first: Part, second: Part) -> Result<Box<Pair>, TreeError>
    ensures first { IfOk result (λ b. b.value.first ≡ first.expr) }
    ensures second { IfOk result (λ b. b.value.second ≡ second.expr) }
    ensures err { IfErr result (λ e. e ≡ Memory) }
{
    let first = first.into_expr();
    let second = second.into_expr();
    let both = Box::new(alloc, Pair { first, second })?;
    Ok(both)
}

/// Three parts in a box.
fn triple(alloc: Global, first: Part, second: Part, third: Part) -> Result<Box<Triple>, TreeError>
    ensures first { IfOk result (λ b. b.value.first ≡ first.expr) }
    ensures second { IfOk result (λ b. b.value.second ≡ second.expr) }
    ensures third { IfOk result (λ b. b.value.third ≡ third.expr) }
    ensures err { IfErr result (λ e. e ≡ Memory) }
{
    let first = first.into_expr();
    let second = second.into_expr();
    let third = third.into_expr();
    let all = Box::new(
        alloc,
        Triple {
            first,
            second,
            third,
        },
    )?;
    Ok(all)
}

/// The operands on both sides of an operator.
pub fn binary(
    alloc: Global,
    op: BinaryOp,
    left: Part,
    right: Part,
    place: u32,
) -> Result<Part, TreeError>
    requires low { left.height < 2 ^ 63 }
    requires high { right.height < 2 ^ 63 }
    ensures { MatchResult result
        (λ p. (p.height ≡ max left.height right.height + 1)
        × (tree_of p.expr ≡ tree.binary op (tree_of left.expr) (tree_of right.expr) place))
        (λ e. e ≡ Memory) }
{
    let height = left.height.max(right.height) + 1;
    let inside = found!(pair(alloc, left, right));
    let expr = Expr::Binary { op, place, inside };
    Ok(Part { expr, height })
}

/// The predicate and the arms of an `if`.
pub fn conditional(
    alloc: Global,
    test: Part,
    then: Part,
    otherwise: Part,
    place: u32,
) -> Result<Part, TreeError>
    requires low { test.height < 2 ^ 63 }
    requires middle { then.height < 2 ^ 63 }
    requires high { otherwise.height < 2 ^ 63 }
    ensures { MatchResult result
        (λ p. (p.height ≡ max (max test.height then.height) otherwise.height + 1)
        × (tree_of p.expr ≡ tree.conditional (tree_of test.expr) (tree_of then.expr) (tree_of otherwise.expr) place))
        (λ e. e ≡ Memory) }
{
    let height = test.height.max(then.height).max(otherwise.height) + 1;
    let inside = found!(triple(alloc, test, then, otherwise));
    let expr = Expr::If { place, inside };
    Ok(Part { expr, height })
}

/// The bounds of a new structure, which is nested or not.
pub fn array(
    alloc: Global,
    nested: bool,
    low: Part,
    high: Part,
    place: u32,
) -> Result<Part, TreeError>
    requires low { low.height < 2 ^ 63 }
    requires high { high.height < 2 ^ 63 }
    ensures { MatchResult result
        (λ p. (p.height ≡ max low.height high.height + 1)
        × (tree_of p.expr ≡ tree.array nested (tree_of low.expr) (tree_of high.expr) place))
        (λ e. e ≡ Memory) }
{
    let height = low.height.max(high.height) + 1;
    let inside = found!(pair(alloc, low, high));
    let expr = Expr::Array {
        place,
        nested,
        inside,
    };
    Ok(Part { expr, height })
}

/// The structure and the index of an element.
pub fn fetch(alloc: Global, target: Part, index: Part, place: u32) -> Result<Part, TreeError>
    requires low { target.height < 2 ^ 63 }
    requires high { index.height < 2 ^ 63 }
    ensures { MatchResult result
        (λ p. (p.height ≡ max target.height index.height + 1)
        × (tree_of p.expr ≡ tree.fetch (tree_of target.expr) (tree_of index.expr) place))
        (λ e. e ≡ Memory) }
{
    let height = target.height.max(index.height) + 1;
    let inside = found!(pair(alloc, target, index));
    let expr = Expr::Fetch { place, inside };
    Ok(Part { expr, height })
}

/// The part, if it was made, with the tokens behind it.
#[inline(always)]
pub fn with_rest<'t>(
    whole: Result<Part, TreeError>,
    rest: Tokens<'t>,
) -> Result<(Part, Tokens<'t>), TreeError>
    ensures { MatchResult result
        (λ x. (whole ≡ Ok x.0) × (x.1 ≡ rest.entry))
        (λ e. whole ≡ Err e) }
{
    let whole = found!(whole);
    Ok((whole, rest))
}

/// The name for the value of an expression.
pub fn binding(name: Identifier, value: Part, place: u32) -> Statement
    ensures height { result.height ≡ value.height }
    ensures tree { stmt_tree result.stmt ≡ tree.binding name (tree_of value.expr) place }
{
    let height = value.height;
    let value = value.into_expr();
    let stmt = Stmt::Binding { place, name, value };
    Statement { stmt, height }
}

/// The next value of a loop's variable.
pub fn next(name: Identifier, value: Part, place: u32) -> Statement
    ensures height { result.height ≡ value.height }
    ensures tree { stmt_tree result.stmt ≡ tree.next name (tree_of value.expr) place }
{
    let height = value.height;
    let value = value.into_expr();
    let stmt = Stmt::Next { place, name, value };
    Statement { stmt, height }
}

/// The value of a structure's element.
pub fn store(
    alloc: Global,
    target: Part,
    index: Part,
    value: Part,
    place: u32,
) -> Result<Statement, TreeError>
    ensures { MatchResult result
        (λ s. (s.height ≡ max (max target.height index.height) value.height)
        × (stmt_tree s.stmt ≡ tree.store (tree_of target.expr) (tree_of index.expr) (tree_of value.expr) place))
        (λ e. e ≡ Memory) }
{
    let height = target.height.max(index.height).max(value.height);
    let inside = found!(triple(alloc, target, index, value));
    let stmt = Stmt::Store { place, inside };
    Ok(Statement { stmt, height })
}

/// No arguments.
pub fn no_arguments(alloc: Global) -> ArgumentList
    ensures items { result.list.items ≡ [] }
    ensures height { result.height ≡ 0 }
{
    let list = Vec::new(alloc);
    ArgumentList { list, height: 0 }
}

/// The first argument. Most calls have no other, so there is room for no more.
pub fn first_argument(alloc: Global, arg: Part) -> Result<ArgumentList, TreeError>
    ensures { MatchResult result
        (λ a. (a.list.items ≡ arg.expr ∷ []) × (a.height ≡ arg.height))
        (λ e. e ≡ Memory) }
{
    let height = arg.height;
    let mut list = Vec::with_capacity(alloc, 1)?;
    list.push(arg.into_expr())?;
    Ok(ArgumentList { list, height })
}

/// Adds the argument behind those before it.
pub fn add_argument(args: &mut ArgumentList, arg: Part) -> Result<(), TreeError>
    ensures { MatchResult result
        (λ _. (args.new.list.items ≡ args.old.list.items ++ arg.expr ∷ [])
        × (args.new.height ≡ max args.old.height arg.height))
        (λ e. e ≡ Memory) }
{
    args.height = args.height.max(arg.height);
    args.list.push(arg.into_expr())?;
    Ok(())
}

/// No statements.
pub fn no_statements(alloc: Global) -> StatementList
    ensures items { result.list.items ≡ [] }
    ensures height { result.height ≡ 0 }
{
    let list = Vec::new(alloc);
    StatementList { list, height: 0 }
}

/// Adds the statement behind those before it.
#[inline(always)]
pub fn add_statement(statements: &mut StatementList, statement: Statement) -> Result<(), TreeError>
    ensures { MatchResult result
        (λ _. (statements.new.list.items ≡ statements.old.list.items ++ statement.stmt ∷ [])
        × (statements.new.height ≡ max statements.old.height statement.height))
        (λ e. e ≡ Memory) }
{
    statements.height = statements.height.max(statement.height);
    statements.list.push(statement.into_stmt())?;
    Ok(())
}

/// The statements round the body.
pub fn block(
    alloc: Global,
    statements: StatementList,
    body: Part,
    place: u32,
) -> Result<Part, TreeError>
    requires low { statements.height < 2 ^ 63 }
    requires high { body.height < 2 ^ 63 }
    ensures { MatchResult result
        (λ p. (p.height ≡ max statements.height body.height + 1)
        × (tree_of p.expr ≡ tree.block (onto statements.list.items none) (tree_of body.expr) place))
        (λ e. e ≡ Memory) }
{
    let height = statements.height.max(body.height) + 1;
    let statements = fitted(statements.into_list());
    let body = body.into_expr();
    let inside = Box::new(alloc, Block { statements, body })?;
    let expr = Expr::Block { place, inside };
    Ok(Part { expr, height })
}

/// The predicate, the statements and the last expression of a loop.
pub fn whole_loop(
    alloc: Global,
    test: Part,
    statements: StatementList,
    last: Part,
    place: u32,
) -> Result<Part, TreeError>
    requires low { test.height < 2 ^ 63 }
    requires middle { statements.height < 2 ^ 63 }
    requires high { last.height < 2 ^ 63 }
    ensures { MatchResult result
        (λ p. (p.height ≡ max (max test.height statements.height) last.height + 1)
        × (tree_of p.expr
        ≡ tree.loop (tree_of test.expr) (onto statements.list.items none) (tree_of last.expr) place))
        (λ e. e ≡ Memory) }
{
    let height = test.height.max(statements.height).max(last.height) + 1;
    let statements = fitted(statements.into_list());
    let test = test.into_expr();
    let last = last.into_expr();
    let inside = Box::new(
        alloc,
        Loop {
            test,
            statements,
            last,
        },
    )?;
    let expr = Expr::Loop { place, inside };
    Ok(Part { expr, height })
}

/// An index between two bounds.
pub fn indexed(name: Identifier, place: u32, low: Part, high: Part) -> IndexPart
    ensures name { result.name ≡ name }
    ensures place { result.place ≡ place }
    ensures low { result.low ≡ low.expr }
    ensures high { result.high ≡ high.expr }
    ensures height { result.height ≡ max low.height high.height }
{
    let height = low.height.max(high.height);
    let low = low.into_expr();
    let high = high.into_expr();
    IndexPart {
        name,
        place,
        low,
        high,
        height,
    }
}

/// The index, the statements and the last expression of a `for`.
pub fn whole_for(
    alloc: Global,
    index: IndexPart,
    statements: StatementList,
    last: Part,
    place: u32,
) -> Result<Part, TreeError>
    requires low { index.height < 2 ^ 63 }
    requires middle { statements.height < 2 ^ 63 }
    requires high { last.height < 2 ^ 63 }
    ensures { MatchResult result
        (λ p. (p.height ≡ max (max index.height statements.height) last.height + 1)
        × (tree_of p.expr ≡ tree.for_loop index.name index.place (tree_of index.low) (tree_of index.high)
        (onto statements.list.items none) (tree_of last.expr) place))
        (λ e. e ≡ Memory) }
{
    let height = index.height.max(statements.height).max(last.height) + 1;
    let statements = fitted(statements.into_list());
    let last = last.into_expr();
    let inside = Box::new(alloc, index.into_for(statements, last))?;
    let expr = Expr::For { place, inside };
    Ok(Part { expr, height })
}

/// A list of fewer things is short.
const FEW: usize = 32;

/// The list. A short one, of which a text may have very many, keeps no room for more.
pub fn fitted<T>(list: Vec<T>) -> Vec<T>
    ensures { result.items ≡ list.items }
{
    let mut list = list;
    if list.len() < FEW {
        list.shrink_to_fit();
    }
    list
}
