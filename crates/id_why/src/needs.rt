//! What a thing needs for a value (docs/MEANING.md, "Why there is none").

ghost use Rattle.std.specs.Prelude.{◌≡◌, ◌∷◌, ◌++◌, ◌+◌, [], IfOk, OnOk, nat_eq};
ghost use Rattle.id_check.specs.Programs.{rows};
ghost use Rattle.id_why.specs.Found.{arguments, arguments_of, argument_by, arms, arm_by, before, body_by, filler_at};
ghost use Rattle.id_why.specs.Found.{fillers, filler, first_by, has_value, head_in, lacking, may_be, may_fill, needs};
ghost use Rattle.id_why.specs.Found.{others, passed, passed_at, passed_by, seen_at, some_if, stored, tested};
ghost use Rattle.id_why.specs.Found.{things_at, turn_by, turns_at, wanted};
ghost use Rattle.id_why.specs.Known.{known_facts};
ghost use Rattle.id_why.specs.Needs.{node_at};
ghost use Rattle.id_source.specs.Links.{bounds_parts, some_row};
ghost use Rattle.id_facts.specs.RowFacts.{same_value};
ghost use Rattle.id_facts.specs.Cells.{told};
ghost use Rattle.id_meaning.specs.Effects.{body_in, callee_of, is_row};

use crate::known::{Cell, Known};
use id_check::Checked;
use id_facts::{Point, RowFact, RowValue, Trail};
use id_source::{
    Links, beyond, binder_of, distance, far, lower_at, node_of, test_of_loop, upper_at,
};
use id_table::Node;
use std::alloc::{AllocError, Global};

/// What the thing needs, which asks for these cells.
pub fn needs_of(
    alloc: Global,
    checked: &Checked,
    links: &Links,
    known: &Known,
    point: Point,
    cells: &[Cell],
) -> Result<Vec<Point>, AllocError>
    ensures { IfOk result (λ v. v.items ≡ needs checked.now links.now known.now point cells.now) }
{
    let mut found = Vec::new(alloc);
    add_parts(&mut found, checked, point.path, node_of(checked, point.row))?;
    add_others(alloc, &mut found, checked, links, known, point)?;
    add_fillers(alloc, &mut found, checked, known, cells)?;
    Ok(found)
}

/// Adds the thing at the row at the path.
fn add_row(found: &mut Vec<Point>, path: Trail, row: usize) -> Result<(), AllocError>
    ensures { OnOk result (found.new.items ≡ found.old.items ++ things_at path (row ∷ [])) }
{
    found.push(Point { path, row })?;
    Ok(())
}

/// Adds the things at two rows at the path.
fn add_two(
    found: &mut Vec<Point>,
    path: Trail,
    first: usize,
    second: usize,
) -> Result<(), AllocError>
    ensures { OnOk result (found.new.items ≡ found.old.items ++ things_at path (first ∷ second ∷ [])) }
{
    add_row(found, path, first)?;
    add_row(found, path, second)
}

/// Adds the thing at the row at the path, if there is one.
fn add_some(found: &mut Vec<Point>, path: Trail, row: Option<usize>) -> Result<(), AllocError>
    ensures { OnOk result (found.new.items ≡ found.old.items ++ things_at path (some_row row)) }
{
    match row {
        Some(row) => add_row(found, path, row),
        None => Ok(()),
    }
}

/// Adds what a row of this node needs at its own path.
fn add_parts(
    found: &mut Vec<Point>,
    checked: &Checked,
    path: Trail,
    node: Node,
) -> Result<(), AllocError>
    ensures { OnOk result (found.new.items ≡ found.old.items ++ things_at path (wanted (rows checked.now) node)) }
{
    match node {
        Node::Unary { operand, .. } => add_row(found, path, operand),
        Node::Binary { left, right, .. } => add_two(found, path, left, right),
        Node::If { .. } => add_some(found, path, beyond(checked, 0, node)),
        Node::Loop { head, .. } => add_bounds(found, checked, path, head as usize),
        Node::Block { body } => add_row(found, path, body),
        Node::Binding { value, .. } => add_row(found, path, value),
        Node::Array { low, high, .. } => add_two(found, path, low, high),
        Node::Fetch { target, index } => add_two(found, path, target, index),
        Node::Store { address, value } => {
            add_stored(found, path, node_of(checked, address), value)
        }
        _ => Ok(()),
    }
}

/// Adds the bounds of the index of the loop with this head, if it has one.
fn add_bounds(
    found: &mut Vec<Point>,
    checked: &Checked,
    path: Trail,
    head: usize,
) -> Result<(), AllocError>
    ensures { OnOk result (found.new.items ≡ found.old.items
        ++ things_at path (bounds_parts (rows checked.now) head)) }
{
    let rows = checked.table.rows.as_slice();
    add_some(found, path, lower_at(rows, head))?;
    add_some(found, path, upper_at(rows, head))
}

/// Adds the parts of a store whose address has this node.
fn add_stored(
    found: &mut Vec<Point>,
    path: Trail,
    address: Node,
    value: usize,
) -> Result<(), AllocError>
    ensures { OnOk result (found.new.items ≡ found.old.items ++ things_at path (stored address value)) }
{
    match address {
        Node::Address { target, index } => {
            add_two(found, path, target, index)?;
            add_row(found, path, value)
        }
        _ => add_row(found, path, value),
    }
}

/// Adds what the thing needs beyond its own path's rows.
fn add_others(
    alloc: Global,
    found: &mut Vec<Point>,
    checked: &Checked,
    links: &Links,
    known: &Known,
    point: Point,
) -> Result<(), AllocError>
    ensures { OnOk result (found.new.items ≡ found.old.items
        ++ others checked.now links.now known.now point.path point.row (node_at checked.now point.row)) }
{
    let Point { path, row } = point;
    let node = node_of(checked, row);
    match node {
        Node::Name { .. } => {
            let outside = known.cells.out_of(path, far(checked, row, node));
            add_seen(found, outside, beyond(checked, row, node))
        }
        Node::If {
            then,
            otherwise,
            ..
        } => {
            let tests = tested(alloc, known, path, beyond(checked, row, node))?;
            add_arms(
                found,
                path,
                then as usize,
                otherwise as usize,
                tests.as_slice(),
            )
        }
        Node::Call { enter, .. } => {
            let body = body_in(callee(checked, enter));
            add_body(found, known.cells.find(path, row), body)
        }
        Node::Param { .. } => add_passed(found, checked, links, known, row, path),
        Node::Loop { switches, last, .. } => {
            let rows = checked.table.rows.as_slice();
            let test = test_of_loop(rows, node_of(checked, switches as usize));
            add_turns(
                found,
                known,
                last as usize,
                test,
                known.cells.find(path, row),
            )
        }
        Node::Next { outer, value, .. } => {
            add_before(found, checked, known, outer as usize, value as usize, path)
        }
        _ => Ok(()),
    }
}

/// Adds what the thing at the row at the path is seen through, if there is one.
fn add_seen(found: &mut Vec<Point>, path: Trail, row: Option<usize>) -> Result<(), AllocError>
    ensures { OnOk result (found.new.items ≡ found.old.items ++ seen_at path row) }
{
    match row {
        Some(row) => add_row(found, path, row),
        None => Ok(()),
    }
}

/// What the predicate Has at the path, if there is one.
fn tested(
    alloc: Global,
    known: &Known,
    path: Trail,
    test: Option<usize>,
) -> Result<Vec<RowValue>, AllocError>
    ensures { IfOk result (λ v. v.items ≡ tested known.now path test) }
{
    match test {
        Some(test) => known.values(alloc, path, test),
        None => Ok(Vec::new(alloc)),
    }
}

/// Adds the arms that these values of the predicate turn on.
fn add_arms(
    found: &mut Vec<Point>,
    path: Trail,
    then: usize,
    otherwise: usize,
    tests: &[RowValue],
) -> Result<(), AllocError>
    ensures { OnOk result (found.new.items ≡ found.old.items ++ arms path then otherwise tests.now) }
{
    for test in tests {
        add_arm(found, path, then, otherwise, *test)?;
    }
    Ok(())
}

/// Adds the arm that this value of the predicate turns on.
fn add_arm(
    found: &mut Vec<Point>,
    path: Trail,
    then: usize,
    otherwise: usize,
    test: RowValue,
) -> Result<(), AllocError>
    ensures { OnOk result (found.new.items ≡ found.old.items ++ arm_by path then otherwise test) }
{
    match test {
        RowValue::Bool(true) => add_row(found, path, then),
        RowValue::Bool(false) => add_row(found, path, otherwise),
        _ => Ok(()),
    }
}

/// What stands where the `Enter` at the row has its binder.
fn callee(checked: &Checked, enter: usize) -> Node
    ensures { result ≡ callee_of checked.now enter }
{
    match binder_of(checked, enter) {
        Some(row) => node_of(checked, row),
        None => Node::Head,
    }
}

/// The body of a procedure that stands so.
fn body_in(node: Node) -> Option<usize>
    ensures { result ≡ body_in node }
{
    match node {
        Node::Def { body, .. } => Some(body as usize),
        _ => None,
    }
}

/// The head of a procedure that stands so.
fn head_in(node: Node) -> Option<usize>
    ensures { result ≡ head_in node }
{
    match node {
        Node::Def { head, .. } => Some(head as usize),
        _ => None,
    }
}

/// Adds the body of a procedure, where the call is On by the fact of this number.
fn add_body(
    found: &mut Vec<Point>,
    spot: Option<usize>,
    body: Option<usize>,
) -> Result<(), AllocError>
    ensures { OnOk result (found.new.items ≡ found.old.items ++ body_by spot body) }
{
    match (spot, body) {
        (Some(spot), Some(body)) => add_row(found, Trail::Below { spot, number: 0 }, body),
        _ => Ok(()),
    }
}

/// Adds the argument for the parameter at the row, at a path in a call.
fn add_passed(
    found: &mut Vec<Point>,
    checked: &Checked,
    links: &Links,
    known: &Known,
    row: usize,
    path: Trail,
) -> Result<(), AllocError>
    ensures { OnOk result (found.new.items ≡ found.old.items
        ++ passed checked.now links.now (known_facts known.now) row path) }
{
    match path {
        Trail::Below { spot, number } if number == 0 => {
            add_passed_by(found, checked, links, row, known.cells.fact(spot))
        }
        _ => Ok(()),
    }
}

/// Adds the argument for the parameter at the row, of the call that is On by the fact.
fn add_passed_by(
    found: &mut Vec<Point>,
    checked: &Checked,
    links: &Links,
    row: usize,
    began: RowFact,
) -> Result<(), AllocError>
    ensures { OnOk result (found.new.items ≡ found.old.items ++ passed_by checked.now links.now row began) }
{
    match began {
        RowFact::On { path, row: call } => {
            let point = Point { path, row };
            add_passed_at(found, checked, links, point, node_of(checked, call))
        }
        _ => Ok(()),
    }
}

/// Adds the argument for the parameter at the row, of a call of this node.
fn add_passed_at(
    found: &mut Vec<Point>,
    checked: &Checked,
    links: &Links,
    point: Point,
    call: Node,
) -> Result<(), AllocError>
    ensures { OnOk result (found.new.items ≡ found.old.items
        ++ passed_at checked.now links.now point.path point.row call) }
{
    match call {
        Node::Call { enter, .. } => {
            let head = head_in(callee(checked, enter));
            add_arguments_of(found, checked, links, point, enter, head)
        }
        _ => Ok(()),
    }
}

/// Adds the argument for the parameter at the row, of the call of an `Enter`, if its procedure has a head.
fn add_arguments_of(
    found: &mut Vec<Point>,
    checked: &Checked,
    links: &Links,
    point: Point,
    enter: usize,
    head: Option<usize>,
) -> Result<(), AllocError>
    ensures { OnOk result (found.new.items ≡ found.old.items
        ++ arguments_of checked.now links.now point.path point.row enter head) }
{
    match head {
        Some(head) => add_arguments(found, checked, point, enter, head, links.args.of(enter)),
        None => Ok(()),
    }
}

/// Adds those of these rows that are the argument for the parameter at the row.
fn add_arguments(
    found: &mut Vec<Point>,
    checked: &Checked,
    point: Point,
    enter: usize,
    head: usize,
    args: &[usize],
) -> Result<(), AllocError>
    ensures { OnOk result (found.new.items ≡ found.old.items
        ++ arguments checked.now point.path point.row enter head args.now) }
{
    for arg in args {
        add_argument(found, point, enter, head, node_of(checked, *arg))?;
    }
    Ok(())
}

/// Adds the argument of this node, if it is that for the parameter at the row.
fn add_argument(
    found: &mut Vec<Point>,
    point: Point,
    enter: usize,
    head: usize,
    node: Node,
) -> Result<(), AllocError>
    ensures { OnOk result (found.new.items ≡ found.old.items
        ++ argument_by point.path point.row enter head node) }
{
    match node {
        Node::Arg {
            enter: other,
            index,
            value,
        } if other as usize == enter && is_param(point.row, head, index as usize) => {
            add_row(found, point.path, value as usize)
        }
        _ => Ok(()),
    }
}

/// Whether the parameter of this index, behind its head, is at the row.
fn is_param(row: usize, head: usize, index: usize) -> bool
    ensures { result ≡ nat_eq row (head + 1 + index) }
{
    head < row && row - head - 1 == index
}

/// Adds the predicate and the last expression of the loop that is On by the fact of this number, where they are On.
fn add_turns(
    found: &mut Vec<Point>,
    known: &Known,
    last: usize,
    test: Option<usize>,
    spot: Option<usize>,
) -> Result<(), AllocError>
    ensures { OnOk result (found.new.items ≡ found.old.items ++ turns_at known.now last test spot) }
{
    match spot {
        Some(spot) => add_turned(found, known, last, test, spot, known.turns.of(spot)),
        None => Ok(()),
    }
}

/// Adds those of these facts that turn on the predicate or the last expression of the loop.
fn add_turned(
    found: &mut Vec<Point>,
    known: &Known,
    last: usize,
    test: Option<usize>,
    spot: usize,
    numbers: &[usize],
) -> Result<(), AllocError>
    ensures { OnOk result (found.new.items ≡ found.old.items
        ++ told (turn_by spot last test) (known_facts known.now) numbers.now) }
{
    for number in numbers {
        if let Some(point) = turn_by(known.cells.fact(*number), spot, last, test) {
            found.push(point)?;
        }
    }
    Ok(())
}

/// The predicate or the last expression of the loop, if the fact turns it on.
fn turn_by(fact: RowFact, spot: usize, last: usize, test: Option<usize>) -> Option<Point>
    ensures { result ≡ turn_by spot last test fact }
{
    match fact {
        RowFact::On {
            path: Trail::Below {
                spot: there,
                number,
            },
            row,
        } if there == spot && (row == last || is_row(test, row)) => Some(Point {
            path: Trail::Below {
                spot: there,
                number,
            },
            row,
        }),
        _ => None,
    }
}

/// Whether it is this row.
fn is_row(one: Option<usize>, row: usize) -> bool
    ensures { result ≡ is_row one row }
{
    match one {
        Some(one) => one == row,
        None => false,
    }
}

/// Adds what a variable needs, with this use of its name outside and this expression of its `next`.
fn add_before(
    found: &mut Vec<Point>,
    checked: &Checked,
    known: &Known,
    outer: usize,
    value: usize,
    path: Trail,
) -> Result<(), AllocError>
    ensures { OnOk result (found.new.items ≡ found.old.items
        ++ before checked.now (known_facts known.now) outer value path) }
{
    match path {
        Trail::Below { spot, number } => {
            if number == 0 {
                add_first(found, checked, known, outer, known.cells.fact(spot))
            } else {
                let before = Trail::Below {
                    spot,
                    number: number - 1,
                };
                add_row(found, before, value)
            }
        }
        Trail::Outermost => Ok(()),
    }
}

/// Adds what the name of a variable means outside of the loop that is On by the fact.
fn add_first(
    found: &mut Vec<Point>,
    checked: &Checked,
    known: &Known,
    outer: usize,
    began: RowFact,
) -> Result<(), AllocError>
    ensures { OnOk result (found.new.items ≡ found.old.items
        ++ first_by checked.now (known_facts known.now) outer began) }
{
    match began {
        RowFact::On { path, row } => {
            let binder = binder_of(checked, outer);
            let outside = known.cells.out_of(path, distance(checked, row, binder));
            add_seen(found, outside, binder)
        }
        _ => Ok(()),
    }
}

/// Adds the stores that may fill one of these cells.
fn add_fillers(
    alloc: Global,
    found: &mut Vec<Point>,
    checked: &Checked,
    known: &Known,
    cells: &[Cell],
) -> Result<(), AllocError>
    ensures { OnOk result (found.new.items ≡ found.old.items ++ fillers checked.now known.now cells.now) }
{
    for cell in cells {
        add_filled(alloc, found, checked, known, *cell, known.stores.as_slice())?;
    }
    Ok(())
}

/// Adds those of the stores that are On by these facts that may fill the cell.
fn add_filled(
    alloc: Global,
    found: &mut Vec<Point>,
    checked: &Checked,
    known: &Known,
    cell: Cell,
    numbers: &[usize],
) -> Result<(), AllocError>
    ensures { OnOk result (found.new.items ≡ found.old.items
        ++ told (filler checked.now known.now cell) (known_facts known.now) numbers.now) }
{
    for number in numbers {
        let fact = known.cells.fact(*number);
        if let Some(point) = filler(alloc, checked, known, cell, fact)? {
            found.push(point)?;
        }
    }
    Ok(())
}

/// The store that is On by the fact, if it is one that may fill the cell.
fn filler(
    alloc: Global,
    checked: &Checked,
    known: &Known,
    cell: Cell,
    fact: RowFact,
) -> Result<Option<Point>, AllocError>
    ensures { IfOk result (λ o. o ≡ filler checked.now known.now cell fact) }
{
    match fact {
        RowFact::On { path, row } => {
            let point = Point { path, row };
            filler_at(alloc, checked, known, cell, point, node_of(checked, row))
        }
        _ => Ok(None),
    }
}

/// The store at the row of this node at the path, if it is one that may fill the cell.
fn filler_at(
    alloc: Global,
    checked: &Checked,
    known: &Known,
    cell: Cell,
    point: Point,
    node: Node,
) -> Result<Option<Point>, AllocError>
    ensures { IfOk result (λ o. o ≡ filler_at checked.now known.now cell point.path point.row node) }
{
    match node {
        Node::Store { address, .. } => {
            let may = may_fill(alloc, known, point.path, cell, node_of(checked, address))?;
            Ok(some_if(may, point))
        }
        _ => Ok(None),
    }
}

/// The thing, if this is so.
fn some_if(so: bool, point: Point) -> Option<Point>
    ensures { result ≡ some_if so point }
{
    if so { Some(point) } else { None }
}

/// Whether the store with this address may fill the cell.
fn may_fill(
    alloc: Global,
    known: &Known,
    path: Trail,
    cell: Cell,
    address: Node,
) -> Result<bool, AllocError>
    ensures { IfOk result (λ b. b ≡ may_fill known.now path cell address) }
{
    match address {
        Node::Address { target, index } => {
            let targets = known.values(alloc, path, target)?;
            let indices = known.values(alloc, path, index)?;
            Ok(
                may_be(targets.as_slice(), RowValue::Name(cell.name))
                    && may_be(indices.as_slice(), RowValue::Int(cell.index)),
            )
        }
        _ => Ok(false),
    }
}

/// Whether there is none of these values, or one is this.
fn may_be(values: &[RowValue], value: RowValue) -> bool
    ensures { result ≡ may_be values.now value }
{
    values.is_empty() || has_value(values, value)
}

/// Whether one of these values is this.
fn has_value(values: &[RowValue], value: RowValue) -> bool
    ensures { result ≡ has_value value values.now }
{
    for other in values {
        if same_value(*other, value) {
            return true;
        }
    }
    false
}

/// Whether the two values are one.
fn same_value(a: RowValue, b: RowValue) -> bool
    ensures { result ≡ same_value a b }
{
    match (a, b) {
        (RowValue::Int(m), RowValue::Int(n)) => m == n,
        (RowValue::Bool(m), RowValue::Bool(n)) => m == n,
        (RowValue::Name(m), RowValue::Name(n)) => m == n,
        _ => false,
    }
}

/// Adds those of the things that lack a value.
pub fn add_lacking(
    found: &mut Vec<Point>,
    known: &Known,
    points: &[Point],
) -> Result<(), AllocError>
    ensures { OnOk result (found.new.items ≡ found.old.items ++ lacking known.now points.now) }
{
    for point in points {
        if !known.is_given(*point) {
            found.push(*point)?;
        }
    }
    Ok(())
}
