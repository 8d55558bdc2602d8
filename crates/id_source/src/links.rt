//! Which rows' facts lead to facts of which rows (docs/MEANING.md, "Rules").

ghost use Rattle.std.specs.Prelude.{◌≡◌, ◌<◌, [], ◌∷◌, ◌++◌, IfOk, OnOk};
ghost use Rattle.id_table.specs.Rows.{at};
ghost use Rattle.id_check.specs.Programs.{binder, rows};
ghost use Rattle.id_source.specs.Links.{AreArgs, AreReads, AreTurns, Gains, GainsFrom, GainsTo, Statements};
ghost use Rattle.id_source.specs.Links.{StatementsRise, TakesAll, asker_of, awaited, beyond, far, far_from, index_of};
ghost use Rattle.id_source.specs.Links.{bounds_parts, linked_of, nexts_turned, parts_turned, some_row};
ghost use Rattle.id_source.specs.Links.{store_parts, switches_of, target_of, test_of, test_of_loop};
ghost use Rattle.id_table.specs.Loops.{lower_at, upper_at};
ghost use Rattle.id_table.specs.Tables.{is_within};

use crate::edges::Edges;
use crate::nodes::{block_of, node_of};
use id_check::Checked;
use id_table::{Node, Row};
use std::alloc::{AllocError, Global};

/// What each row leads to.
#[derive(Drop)]
pub struct Links {
    /// From each expression, and from the switches of each loop, to those that it turns On.
    pub turns: Edges,
    /// From each row to those but names that read its value, and from an `Enter` to its call.
    pub reads: Edges,
    /// From each `Enter` to its arguments, and from each loop's head to its `next`s.
    pub args: Edges,
}

/// A binding with the row of its expression, or a store with its own.
#[derive(Clone, Copy)]
pub struct Statement {
    pub row: usize,
    pub value: usize,
}

/// The links of a program's rows.
pub fn link(alloc: Global, checked: &Checked) -> Result<Links, AllocError>
    ensures turns { IfOk result (λ l. AreTurns (rows checked.now) l.turns) }
    ensures reads { IfOk result (λ l. AreReads checked.now l.reads) }
    ensures args { IfOk result (λ l. AreArgs checked.now l.args) }
{
    Ok(Links {
        turns: turns(alloc, checked.table.rows.as_slice())?,
        reads: reads(alloc, checked)?,
        args: args(alloc, checked)?,
    })
}

/// What each expression turns On.
fn turns(alloc: Global, rows: &[Row]) -> Result<Edges, AllocError>
    ensures { IfOk result (λ e. AreTurns rows.now e) }
{
    let mut turns = Edges::new(alloc, rows.len())?;
    let mut waiting = Vec::new(alloc);
    for (n, row) in rows.iter().enumerate() {
        add_parts(&mut turns, rows, n, row.node)?;
        add_next(&mut turns, rows, row)?;
        add_statements(&mut turns, rows, &mut waiting, n, row)?;
    }
    Ok(turns)
}

/// Adds that the switches of a loop turn the expression of this row On, if it is a `next`.
fn add_next(turns: &mut Edges, rows: &[Row], row: &Row) -> Result<(), AllocError>
    ensures { OnOk result (GainsFrom turns.old turns.new (switches_of rows.now row.now) (nexts_turned row.now.node)) }
{
    match row.node {
        Node::Next { value, .. } => add_from(turns, switches_of(rows, row), value as usize),
        _ => Ok(()),
    }
}

/// Lets a binding wait for its block, and adds that a block, or the switches before the body of a loop, turn its
/// statements On.
fn add_statements(
    turns: &mut Edges,
    rows: &[Row],
    waiting: &mut Vec<Statement>,
    n: usize,
    row: &Row,
) -> Result<(), AllocError>
    requires { StatementsRise waiting.old.items }
    ensures { OnOk result
        (Statements rows.now turns.old turns.new waiting.old.items waiting.new.items n row.now) }
{
    match row.node {
        Node::Block { .. } => take_statements(turns, waiting, row.first as usize, Some(n)),
        Node::Body => take_statements(turns, waiting, row.first as usize, switches_of(rows, row)),
        Node::Binding { value, .. } => {
            waiting.push(Statement { row: n, value })?;
            Ok(())
        }
        Node::Store { .. } => {
            waiting.push(Statement { row: n, value: n })?;
            Ok(())
        }
        _ => Ok(()),
    }
}

/// The switches whose true side the row is right in, if it is in one.
fn switches_of(rows: &[Row], row: &Row) -> Option<usize>
    ensures { result ≡ switches_of rows.now row.now }
{
    let head = row.region.head as usize;
    if row.region.side && head < rows.len() && matches!(rows[head].node, Node::Switches { .. }) {
        Some(head)
    } else {
        None
    }
}

/// Adds the parts that a row turns On, but for statements.
fn add_parts(turns: &mut Edges, rows: &[Row], n: usize, node: Node) -> Result<(), AllocError>
    ensures { OnOk result (Gains turns.old turns.new n (parts_turned rows.now node)) }
{
    match node {
        Node::Unary { operand, .. } => turns.add(n, operand),
        Node::Binary { left, right, .. } => add_two(turns, n, left, right),
        Node::If { split, .. } => add_some(turns, n, test_at(rows, split as usize)),
        Node::Loop { head, .. } => add_bounds(turns, rows, n, head as usize),
        Node::Block { body } => turns.add(n, body),
        Node::Array { low, high, .. } => add_two(turns, n, low, high),
        Node::Fetch { target, index } => add_two(turns, n, target, index),
        Node::Store { address, value } => add_store_parts(turns, rows, n, address, value),
        _ => Ok(()),
    }
}

/// Adds edges to both rows.
fn add_two(turns: &mut Edges, n: usize, first: usize, second: usize) -> Result<(), AllocError>
    ensures { OnOk result (Gains turns.old turns.new n (first ∷ second ∷ [])) }
{
    turns.add(n, first)?;
    turns.add(n, second)
}

/// Adds the parts of the store with this address and this value.
fn add_store_parts(
    turns: &mut Edges,
    rows: &[Row],
    n: usize,
    address: usize,
    value: usize,
) -> Result<(), AllocError>
    ensures { OnOk result (Gains turns.old turns.new n (store_parts rows.now address value)) }
{
    add_some(turns, n, target_at(rows, address))?;
    add_some(turns, n, index_at(rows, address))?;
    turns.add(n, value)
}

/// Adds the bounds of the index of the loop with this head, if it has one.
fn add_bounds(turns: &mut Edges, rows: &[Row], n: usize, head: usize) -> Result<(), AllocError>
    ensures { OnOk result (Gains turns.old turns.new n (bounds_parts rows.now head)) }
{
    add_some(turns, n, lower_at(rows, head))?;
    add_some(turns, n, upper_at(rows, head))
}

/// The lower bound of the index of the loop with this head, if it has one.
pub fn lower_at(rows: &[Row], head: usize) -> Option<usize>
    ensures { result ≡ lower_at rows.now head }
{
    let bounds = head.saturating_sub(2);
    if bounds >= rows.len() {
        return None;
    }
    match rows[bounds].node {
        Node::Bounds { low, .. } => Some(low),
        _ => None,
    }
}

/// The upper bound of the index of the loop with this head, if it has one.
pub fn upper_at(rows: &[Row], head: usize) -> Option<usize>
    ensures { result ≡ upper_at rows.now head }
{
    let bounds = head.saturating_sub(2);
    if bounds >= rows.len() {
        return None;
    }
    match rows[bounds].node {
        Node::Bounds { high, .. } => Some(high),
        _ => None,
    }
}

/// Adds an edge to the row, if there is one.
fn add_some(turns: &mut Edges, n: usize, row: Option<usize>) -> Result<(), AllocError>
    ensures { OnOk result (Gains turns.old turns.new n (some_row row)) }
{
    match row {
        Some(row) => turns.add(n, row),
        None => Ok(()),
    }
}

/// The predicate that the row follows, if it is a split.
fn test_at(rows: &[Row], split: usize) -> Option<usize>
    ensures { result ≡ test_of (at rows.now split).node }
{
    if split >= rows.len() {
        return None;
    }
    match rows[split].node {
        Node::Split { test } => Some(test),
        _ => None,
    }
}

/// The predicate that a row of this node follows, if it is the switches of a loop that has one.
pub fn test_of_loop(rows: &[Row], node: Node) -> Option<usize>
    ensures { result ≡ test_of_loop rows.now node }
{
    match node {
        Node::Switches { test } if !is_within(rows, test) => Some(test),
        _ => None,
    }
}

/// Whether what a `for` has in the place of a predicate is at the row.
fn is_within(rows: &[Row], test: usize) -> bool
    ensures { result ≡ is_within (at rows.now test).node }
{
    test < rows.len() && matches!(rows[test].node, Node::Within { .. })
}

/// The target of the store whose address is at the row, if it is one.
fn target_at(rows: &[Row], address: usize) -> Option<usize>
    ensures { result ≡ target_of (at rows.now address).node }
{
    if address >= rows.len() {
        return None;
    }
    match rows[address].node {
        Node::Address { target, .. } => Some(target),
        _ => None,
    }
}

/// The index of the store whose address is at the row, if it is one.
fn index_at(rows: &[Row], address: usize) -> Option<usize>
    ensures { result ≡ index_of (at rows.now address).node }
{
    if address >= rows.len() {
        return None;
    }
    match rows[address].node {
        Node::Address { index, .. } => Some(index),
        _ => None,
    }
}

/// Takes the statements from the row `first` on, and adds that this row turns them On, if there is one.
fn take_statements(
    turns: &mut Edges,
    waiting: &mut Vec<Statement>,
    first: usize,
    from: Option<usize>,
) -> Result<(), AllocError>
    requires { StatementsRise waiting.old.items }
    ensures { OnOk result (TakesAll turns.old turns.new waiting.old.items waiting.new.items first from) }
{
    while let Some(statement) = waiting.pop() {
        if statement.row < first {
            waiting.push(statement)?;
            return Ok(());
        }
        add_from(turns, from, statement.value)?;
    }
    Ok(())
}

/// Adds an edge to the row, if there is one to come from.
fn add_from(turns: &mut Edges, from: Option<usize>, to: usize) -> Result<(), AllocError>
    ensures { OnOk result (GainsFrom turns.old turns.new from (to ∷ [])) }
{
    match from {
        Some(from) => turns.add(from, to),
        None => Ok(()),
    }
}

/// Which rows but names read each row.
fn reads(alloc: Global, checked: &Checked) -> Result<Edges, AllocError>
    ensures { IfOk result (λ e. AreReads checked.now e) }
{
    let mut reads = Edges::new(alloc, checked.table.rows.len())?;
    for (n, row) in checked.table.rows.as_slice().iter().enumerate() {
        add_reads(
            &mut reads,
            checked.table.rows.as_slice(),
            n,
            beyond(checked, n, row.node),
            row.node,
        )?;
    }
    Ok(reads)
}

/// Adds the rows that a row reads which may look at this row beyond its parts.
fn add_reads(
    reads: &mut Edges,
    rows: &[Row],
    n: usize,
    beyond: Option<usize>,
    node: Node,
) -> Result<(), AllocError>
    ensures { OnOk result (GainsTo reads.old reads.new (linked_of rows.now beyond node) n) }
{
    match node {
        Node::Unary { operand, .. } => add_read(reads, n, Some(operand)),
        Node::Binary { left, right, .. } => add_both(reads, n, left, right),
        Node::If {
            then,
            otherwise,
            ..
        } => add_if_reads(reads, n, beyond, then as usize, otherwise as usize),
        Node::Arg { value, .. } => add_read(reads, n, Some(value as usize)),
        Node::Call { enter, .. } => add_read(reads, n, Some(enter)),
        Node::Loop { head, .. } => add_bounds_reads(reads, rows, n, head as usize),
        Node::Switches { .. } => add_read(reads, n, test_of_loop(rows, node)),
        Node::Next { value, .. } => add_read(reads, n, Some(value as usize)),
        Node::Block { body } => add_read(reads, n, Some(body)),
        Node::Binding { value, .. } => add_read(reads, n, Some(value)),
        Node::Array { low, high, .. } => add_both(reads, n, low, high),
        Node::Fetch { target, index } => add_both(reads, n, target, index),
        Node::Store { address, value } => add_store_reads(reads, rows, n, address, value),
        _ => Ok(()),
    }
}

/// Adds what a conditional reads: its predicate, if there is one, and its arms.
fn add_if_reads(
    reads: &mut Edges,
    n: usize,
    test: Option<usize>,
    then: usize,
    otherwise: usize,
) -> Result<(), AllocError>
    ensures { OnOk result (GainsTo reads.old reads.new (some_row test ++ then ∷ otherwise ∷ []) n) }
{
    add_read(reads, n, test)?;
    add_both(reads, n, then, otherwise)
}

/// Adds what the store with this address and this value reads.
fn add_store_reads(
    reads: &mut Edges,
    rows: &[Row],
    n: usize,
    address: usize,
    value: usize,
) -> Result<(), AllocError>
    ensures { OnOk result (GainsTo reads.old reads.new (store_parts rows.now address value) n) }
{
    add_read(reads, n, target_at(rows, address))?;
    add_read(reads, n, index_at(rows, address))?;
    add_read(reads, n, Some(value))
}

/// Adds the bounds of the index that the loop with this head reads, if it has one.
fn add_bounds_reads(
    reads: &mut Edges,
    rows: &[Row],
    n: usize,
    head: usize,
) -> Result<(), AllocError>
    ensures { OnOk result (GainsTo reads.old reads.new (bounds_parts rows.now head) n) }
{
    add_read(reads, n, lower_at(rows, head))?;
    add_read(reads, n, upper_at(rows, head))
}

fn add_both(reads: &mut Edges, n: usize, left: usize, right: usize) -> Result<(), AllocError>
    ensures { OnOk result (GainsTo reads.old reads.new (left ∷ right ∷ []) n) }
{
    add_read(reads, n, Some(left))?;
    add_read(reads, n, Some(right))
}

fn add_read(reads: &mut Edges, n: usize, row: Option<usize>) -> Result<(), AllocError>
    ensures { OnOk result (GainsTo reads.old reads.new (some_row row) n) }
{
    match row {
        Some(row) => {
            reads.add(row, n)?;
            Ok(())
        }
        None => Ok(()),
    }
}

/// Which rows are arguments of each `Enter`, and which are `next`s of each loop's head.
fn args(alloc: Global, checked: &Checked) -> Result<Edges, AllocError>
    ensures { IfOk result (λ e. AreArgs checked.now e) }
{
    let mut args = Edges::new(alloc, checked.table.rows.len())?;
    for (n, row) in checked.table.rows.as_slice().iter().enumerate() {
        add_read(&mut args, n, asker_of(row.block as usize, row.node))?;
    }
    Ok(args)
}

/// The row that asks for a row of this node in this block: the `Enter` of an argument, the loop's head of a `next`.
fn asker_of(block: usize, node: Node) -> Option<usize>
    ensures { result ≡ asker_of block node }
{
    match node {
        Node::Arg { enter, .. } => Some(enter as usize),
        Node::Next { .. } => Some(block),
        _ => None,
    }
}

/// What the row waits for: a name for its binder, a `next` for that of its name outside, an index for its upper bound.
pub fn awaited(checked: &Checked, user: usize) -> Option<usize>
    ensures { result ≡ awaited checked.now user }
{
    match node_of(checked, user) {
        Node::Name { .. } => binder_of(checked, user),
        Node::Next { outer, .. } => binder_of(checked, outer as usize),
        Node::Index { .. } => upper_at(checked.table.rows.as_slice(), block_of(checked, user)),
        _ => None,
    }
}

/// How many loops stand between the row of this node and the row beyond its parts that it looks at.
pub fn far(checked: &Checked, n: usize, node: Node) -> usize
    ensures { result ≡ far checked.now n node }
{
    match node {
        Node::Name { .. } => distance(checked, n, binder_of(checked, n)),
        _ => 0,
    }
}

/// How many loops stand between the row and the binder, if there is one.
pub fn distance(checked: &Checked, n: usize, binder: Option<usize>) -> usize
    ensures { result ≡ far_from checked.now n binder }
{
    match binder {
        Some(binder) => checked.depth(n).saturating_sub(checked.depth(binder)),
        None => 0,
    }
}

/// The row beyond its own parts that a row of this node looks at: a name at its binder, a conditional at its predicate.
pub fn beyond(checked: &Checked, n: usize, node: Node) -> Option<usize>
    ensures { result ≡ beyond checked.now n node }
{
    match node {
        Node::Name { .. } => binder_of(checked, n),
        Node::If { split, .. } => test_at(checked.table.rows.as_slice(), split as usize),
        _ => None,
    }
}

/// The binder of the name at the row, if a name stands there.
pub fn binder_of(checked: &Checked, n: usize) -> Option<usize>
    ensures { result ≡ binder checked.now n }
{
    checked.binder(n)
}
