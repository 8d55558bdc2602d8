//! The walk over the tree, in which a name gets its number where it first stands.

ghost use Rattle.std.specs.Prelude.{◌≡◌, codes, IfOk, OnOk};
ghost use Rattle.id_grammar.specs.Tree.{unary, conditional, call, block, binding, loop as loop_tree, for_loop, store};
ghost use Rattle.id_grammar.specs.Tree.{tree_of, stmt_tree, def_tree, defs_tree, program_tree};
ghost use Rattle.id_table.specs.Rows.{in_top, add, add_arguments, parts_of, rows_of};
ghost use Rattle.id_table.specs.Making.{add_argument, add_body, add_counting, add_next, add_statements, pair_tree};
ghost use Rattle.id_table.specs.Making.{parts, exprs_tree, stmts_tree, IsAdded, IsStart};

use crate::maker::Maker;
use crate::names::names_of;
use crate::node::{Pairing, other_side, pair_node, stand_in};
use crate::room::{about_names, about_rows};
use crate::row::{Node, Stand, Table};
use id_grammar::{Block, Call, Def, Expr, For, Loop, Pair, Program, Stmt, Triple};
use id_text::Identifier;
use id_value::UnaryOp;
use std::alloc::{AllocError, Global};

/// The table of the program.
pub fn table_of(alloc: Global, program: &Program) -> Result<Table, AllocError>
    ensures rows { IfOk result (λ t. t.rows.items ≡ rows_of (program_tree program.now)) }
    ensures names { IfOk result (λ t. t.names.items ≡ (parts_of (program_tree program.now)).names) }
{
    let main = Identifier::new(alloc, "main")?;
    table_from(alloc, program, &main)
}

/// The table of the program, with this as the name `main`.
fn table_from(alloc: Global, program: &Program, main: &Identifier) -> Result<Table, AllocError>
    requires { main.now ≡ codes "main" }
    ensures rows { IfOk result (λ t. t.rows.items ≡ rows_of (program_tree program.now)) }
    ensures names { IfOk result (λ t. t.names.items ≡ (parts_of (program_tree program.now)).names) }
{
    let maker = walked(alloc, program, main)?;
    let Maker { rows, numbers } = maker;
    let names = names_of(alloc, numbers)?;
    Ok(Table { rows, names })
}

/// The maker behind the walk over the program, with this as the name `main`.
fn walked<'a>(
    alloc: Global,
    program: &'a Program,
    main: &'a Identifier,
) -> Result<Maker<'a>, AllocError>
    requires { main.now ≡ codes "main" }
    ensures { IfOk result (λ m. parts m ≡ parts_of (program_tree program.now)) }
{
    let mut maker = Maker::new(alloc, about_rows(program), about_names(program), main)?;
    add_program(&mut maker, program)?;
    Ok(maker)
}

/// Adds the rows of the definitions, and the last row.
fn add_program<'a>(maker: &mut Maker<'a>, program: &'a Program) -> Result<(), AllocError>
    ensures { OnOk result (IsStart maker.old → parts maker.new ≡ parts_of (program_tree program.now)) }
{
    add_defs(maker, program.defs.as_slice())?;
    let stand = stand_in(0)?;
    maker.put(stand, 0, 0, Node::Program)
}

fn add_defs<'a>(maker: &mut Maker<'a>, defs: &'a [Def]) -> Result<(), AllocError>
    ensures { OnOk result (parts maker.new ≡ add (in_top 0) (parts maker.old) (defs_tree defs.now)) }
{
    for def in defs {
        add_def(maker, def)?;
    }
    Ok(())
}

fn add_def<'a>(maker: &mut Maker<'a>, def: &'a Def) -> Result<(), AllocError>
    ensures { OnOk result (parts maker.new ≡ add (in_top 0) (parts maker.old) (def_tree def.now)) }
{
    let stand = maker.begin_def(def.place)?;
    maker.add_params(stand, def.params.as_slice())?;
    let body = add_expr(maker, stand, &def.body)?;
    maker.end_def(stand, def, body)
}

/// Adds the rows of an expression, and gives the number of its own.
#[cycle(add)]
fn add_expr<'a>(maker: &mut Maker<'a>, stand: Stand, expr: &'a Expr) -> Result<usize, AllocError>
    ensures { IfOk result (λ i. IsAdded i (parts maker.new) (add stand (parts maker.old) (tree_of expr.now))) }
{
    match expr {
        Expr::Literal { place, value } => maker.add_literal(stand, *value, *place),
        Expr::Name { place, name } => maker.add_name(stand, name, *place),
        Expr::Unary { op, place, operand } => add_unary(maker, stand, *op, operand, *place),
        Expr::Binary { op, place, inside } => {
            add_pair(maker, stand, Pairing::Binary { op: *op }, inside, *place)
        }
        Expr::If { place, inside } => add_conditional(maker, stand, inside, *place),
        Expr::Call { place, inside } => add_call(maker, stand, inside, *place),
        Expr::Block { place, inside } => add_block(maker, stand, inside, *place),
        Expr::Loop { place, inside } => add_loop(maker, stand, inside, *place),
        Expr::For { place, inside } => add_for(maker, stand, inside, *place),
        Expr::Array {
            place,
            nested,
            inside,
        } => {
            let form = Pairing::Array { nested: *nested };
            add_pair(maker, stand, form, inside, *place)
        }
        Expr::Fetch { place, inside } => add_pair(maker, stand, Pairing::Fetch, inside, *place),
    }
}

#[cycle(add)]
fn add_unary<'a>(
    maker: &mut Maker<'a>,
    stand: Stand,
    op: UnaryOp,
    operand: &'a Expr,
    place: u32,
) -> Result<usize, AllocError>
    ensures { IfOk result (λ i. IsAdded i (parts maker.new)
        (add stand (parts maker.old) (unary op (tree_of operand.now) place))) }
{
    let first = maker.rows.len();
    let operand = add_expr(maker, stand, operand)?;
    maker.push(stand, place, first, Node::Unary { op, operand })
}

/// Adds the rows of a form of two expressions.
#[cycle(add)]
fn add_pair<'a>(
    maker: &mut Maker<'a>,
    stand: Stand,
    form: Pairing,
    inside: &'a Pair,
    place: u32,
) -> Result<usize, AllocError>
    ensures { IfOk result (λ i. IsAdded i (parts maker.new) (add stand (parts maker.old)
        (pair_tree form (tree_of inside.now.first) (tree_of inside.now.second) place))) }
{
    let start = maker.rows.len();
    let first = add_expr(maker, stand, &inside.first)?;
    let second = add_expr(maker, stand, &inside.second)?;
    maker.push(stand, place, start, pair_node(form, first, second))
}

#[cycle(add)]
fn add_conditional<'a>(
    maker: &mut Maker<'a>,
    stand: Stand,
    inside: &'a Triple,
    place: u32,
) -> Result<usize, AllocError>
    ensures { IfOk result (λ i. IsAdded i (parts maker.new) (add stand (parts maker.old)
        (conditional (tree_of inside.now.first) (tree_of inside.now.second) (tree_of inside.now.third) place))) }
{
    let first = maker.rows.len();
    let test = add_expr(maker, stand, &inside.first)?;
    let side = maker.push_sides(stand, place, first, Node::Split { test })?;
    let then = add_expr(maker, side, &inside.second)?;
    let otherwise = add_expr(maker, other_side(side), &inside.third)?;
    maker.push_if(stand, place, first, side, then, otherwise)
}

#[cycle(add)]
fn add_call<'a>(
    maker: &mut Maker<'a>,
    stand: Stand,
    inside: &'a Call,
    place: u32,
) -> Result<usize, AllocError>
    ensures { IfOk result (λ i. IsAdded i (parts maker.new) (add stand (parts maker.old)
        (call inside.now.name (exprs_tree inside.now.args.items) place))) }
{
    let enter = maker.push_enter(stand, &inside.name, place)?;
    let args = inside.args.as_slice();
    add_arguments(maker, stand, place, enter, args)?;
    let count = args.len();
    maker.push(stand, place, enter, Node::Call { enter, count })
}

#[cycle(add)]
fn add_arguments<'a>(
    maker: &mut Maker<'a>,
    stand: Stand,
    place: u32,
    enter: usize,
    args: &'a [Expr],
) -> Result<(), AllocError>
    ensures { OnOk result (parts maker.new
        ≡ add_arguments stand place enter 0 (parts maker.old) (exprs_tree args.now)) }
{
    let mut index = 0;
    for argument in args {
        add_argument(maker, stand, place, enter, index, argument)?;
        index += 1;
    }
    Ok(())
}

/// Adds the rows of the argument of this index.
#[cycle(add)]
fn add_argument<'a>(
    maker: &mut Maker<'a>,
    stand: Stand,
    place: u32,
    enter: usize,
    index: usize,
    argument: &'a Expr,
) -> Result<(), AllocError>
    ensures { OnOk result (parts maker.new
        ≡ add_argument stand place enter index (parts maker.old) (tree_of argument.now)) }
{
    let value = add_expr(maker, stand, argument)?;
    maker.push_arg(stand, place, enter, index, value)
}

#[cycle(add)]
fn add_block<'a>(
    maker: &mut Maker<'a>,
    stand: Stand,
    inside: &'a Block,
    place: u32,
) -> Result<usize, AllocError>
    ensures { IfOk result (λ i. IsAdded i (parts maker.new) (add stand (parts maker.old)
        (block (stmts_tree inside.now.statements.items) (tree_of inside.now.body) place))) }
{
    let first = maker.rows.len();
    add_statements(maker, stand, inside.statements.as_slice())?;
    let body = add_expr(maker, stand, &inside.body)?;
    maker.push(stand, place, first, Node::Block { body })
}

#[cycle(add)]
fn add_statements<'a>(
    maker: &mut Maker<'a>,
    stand: Stand,
    statements: &'a [Stmt],
) -> Result<(), AllocError>
    ensures { OnOk result (parts maker.new ≡ add stand (parts maker.old) (stmts_tree statements.now)) }
{
    for statement in statements {
        add_statement(maker, stand, statement)?;
    }
    Ok(())
}

/// Adds the rows of a statement of a block, or of one of a loop that is no `next`.
#[cycle(add)]
fn add_statement<'a>(
    maker: &mut Maker<'a>,
    stand: Stand,
    statement: &'a Stmt,
) -> Result<(), AllocError>
    ensures { OnOk result (parts maker.new ≡ add stand (parts maker.old) (stmt_tree statement.now)) }
{
    match statement {
        Stmt::Binding { place, name, value } => add_binding(maker, stand, name, value, *place),
        Stmt::Next { place, name, value } => add_binding(maker, stand, name, value, *place),
        Stmt::Store { place, inside } => add_store(maker, stand, inside, *place),
    }
}

#[cycle(add)]
fn add_loop<'a>(
    maker: &mut Maker<'a>,
    stand: Stand,
    round: &'a Loop,
    place: u32,
) -> Result<usize, AllocError>
    ensures { IfOk result (λ i. IsAdded i (parts maker.new) (add stand (parts maker.old)
        (loop_tree (tree_of round.now.test) (stmts_tree round.now.statements.items)
        (tree_of round.now.last) place))) }
{
    let start = maker.rows.len();
    let statements = round.statements.as_slice();
    let inside = maker.begin_loop(stand, statements, place)?;
    let entered = maker.rows.len();
    let test = add_expr(maker, inside, &round.test)?;
    let body = maker.push_sides(inside, place, entered, Node::Switches { test })?;
    add_body(maker, body, statements, place)?;
    let behind = other_side(body);
    let closed = maker.rows.len();
    let last = add_expr(maker, behind, &round.last)?;
    maker.end_loop(stand, behind, place, start, start, closed, last)
}

#[cycle(add)]
fn add_for<'a>(
    maker: &mut Maker<'a>,
    stand: Stand,
    round: &'a For,
    place: u32,
) -> Result<usize, AllocError>
    ensures { IfOk result (λ i. IsAdded i (parts maker.new) (add stand (parts maker.old)
        (for_loop round.now.name round.now.index (tree_of round.now.low) (tree_of round.now.high)
        (stmts_tree round.now.statements.items) (tree_of round.now.last) place))) }
{
    let first = maker.rows.len();
    let low = add_expr(maker, stand, &round.low)?;
    let high = add_expr(maker, stand, &round.high)?;
    maker.put(stand, place, first, Node::Bounds { low, high })?;
    let start = maker.rows.len();
    let statements = round.statements.as_slice();
    let body = maker.begin_for(stand, statements, round.index, place)?;
    add_counting(maker, body, &round.name, round.index, statements, place)?;
    let behind = other_side(body);
    let closed = maker.rows.len();
    let last = add_expr(maker, behind, &round.last)?;
    maker.end_loop(stand, behind, place, first, start, closed, last)
}

/// Adds the rows of the body of a `for` with this index.
#[cycle(add)]
fn add_counting<'a>(
    maker: &mut Maker<'a>,
    stand: Stand,
    name: &'a Identifier,
    index: u32,
    statements: &'a [Stmt],
    place: u32,
) -> Result<(), AllocError>
    ensures { OnOk result (parts maker.new
        ≡ add_counting stand (parts maker.old) name.now index (stmts_tree statements.now) place) }
{
    let begun = maker.begin_counting(stand, name, index, place)?;
    add_loop_statements(maker, stand, 3, begun, statements, place)
}

/// Adds the rows of the body of a loop.
#[cycle(add)]
fn add_body<'a>(
    maker: &mut Maker<'a>,
    stand: Stand,
    statements: &'a [Stmt],
    place: u32,
) -> Result<(), AllocError>
    ensures { OnOk result (parts maker.new ≡ add_body stand (parts maker.old) (stmts_tree statements.now) place) }
{
    let begun = maker.push_turn(stand, place)?;
    add_loop_statements(maker, stand, 0, begun, statements, place)
}

/// Adds the rows of the statements of a loop, of whose entries so many stand before those of its variables, and the end
/// of its body, whose rows begin at `begun`.
#[cycle(add)]
fn add_loop_statements<'a>(
    maker: &mut Maker<'a>,
    stand: Stand,
    carried: u32,
    begun: usize,
    statements: &'a [Stmt],
    place: u32,
) -> Result<(), AllocError>
    ensures { OnOk result (parts maker.new
        ≡ add_statements stand carried begun (parts maker.old) (stmts_tree statements.now) place) }
{
    let mut index = carried as usize;
    for statement in statements {
        match statement {
            Stmt::Next { place, name, value } => {
                add_next(maker, stand, index, name, value, *place)?;
                index += 1;
            }
            _ => add_statement(maker, stand, statement)?,
        }
    }
    maker.put(stand, place, begun, Node::Body)
}

/// Adds the rows of the `next` statement of this index.
#[cycle(add)]
fn add_next<'a>(
    maker: &mut Maker<'a>,
    stand: Stand,
    index: usize,
    name: &'a Identifier,
    expr: &'a Expr,
    place: u32,
) -> Result<(), AllocError>
    ensures { OnOk result (parts maker.new
        ≡ add_next stand index (parts maker.old) name.now (tree_of expr.now) place) }
{
    let outer = maker.rows.len();
    let number = maker.push_use(stand, name, place)?;
    let value = add_expr(maker, stand, expr)?;
    maker.push_next(stand, place, number, index, outer, value)
}

#[cycle(add)]
fn add_binding<'a>(
    maker: &mut Maker<'a>,
    stand: Stand,
    name: &'a Identifier,
    value: &'a Expr,
    place: u32,
) -> Result<(), AllocError>
    ensures { OnOk result (parts maker.new
        ≡ add stand (parts maker.old) (binding name.now (tree_of value.now) place)) }
{
    let first = maker.rows.len();
    let value = add_expr(maker, stand, value)?;
    maker.push_binding(stand, name, place, first, value)
}

#[cycle(add)]
fn add_store<'a>(
    maker: &mut Maker<'a>,
    stand: Stand,
    inside: &'a Triple,
    place: u32,
) -> Result<(), AllocError>
    ensures { OnOk result (parts maker.new ≡ add stand (parts maker.old)
        (store (tree_of inside.now.first) (tree_of inside.now.second) (tree_of inside.now.third) place)) }
{
    let first = maker.rows.len();
    let target = add_expr(maker, stand, &inside.first)?;
    let index = add_expr(maker, stand, &inside.second)?;
    let address = maker.push(stand, place, first, Node::Address { target, index })?;
    let value = add_expr(maker, stand, &inside.third)?;
    maker.put(stand, place, first, Node::Store { address, value })
}
