//! The arcs to the instructions of a row (docs/GRAPH.md, "Schemas").

ghost use Rattle.std.specs.Prelude.{◌≡◌, ◌++◌, ◌<◌, ◌+◌, ◌-◌, ◌^◌, ◌∷◌, [], length};
ghost use Rattle.std.specs.Prelude.{map, true, false, OnOk};
ghost use Rattle.id_check.specs.Programs as programs;
ghost use Rattle.id_desugar.specs.Regions as regions;
ghost use Rattle.id_build.specs.Rows.{body_of, entry_feeds, feeds, feeds_of, first_binder, import_feeds};
ghost use Rattle.id_build.specs.Rows.{bounds_feeds, carried_feeds, turn_feeds};
ghost use Rattle.id_build.specs.Rows as rows;
ghost use Rattle.id_table.specs.declared.row.Node.TheVariants.{Start, Count};
ghost use Rattle.id_table.specs.Rows.{at};
ghost use Rattle.id_table.specs.Tables.{is_thing};
ghost use Rattle.id_instr.specs.declared.dests.Port.TheVariants.{Zero, One};
ghost use Rattle.id_desugar.specs.Ends.{end_of, next_of};
ghost use Rattle.id_build.specs.Made.{arc_to, is_of_loop};
ghost use Rattle.id_build.specs.Passes.{arcs_of, firsts_of, program_of};

use crate::arc::{Arc, Origin};
use crate::loops::{first_binder, imports_at, nexts_at, turn_row};
use crate::origins::{name_in, origin, output, part_of, trigger_of};
use crate::slots::{Slots, number_at};
use id_desugar::{carried_count, has_index, row_at};
use id_instr::Port;
use id_table::{Node, Region, Row};
use std::alloc::AllocError;

/// Adds the arcs to the instructions of the row n.
pub fn push_feeds(slots: &Slots<'_>, n: usize, arcs: &mut Vec<Arc>) -> Result<(), AllocError>
    ensures { OnOk result (arcs.new.items
        ≡ arcs.old.items ++ arcs_of slots.now n (feeds (program_of slots.now) n)) }
{
    let row = row_at(slots.kernel.checked, n);
    match row.node {
        Node::Param { .. } | Node::Name { .. } | Node::Block { .. } | Node::Index { .. } => Ok(()),
        Node::Call { .. } | Node::Loop { .. } | Node::Def { .. } => Ok(()),
        Node::Literal { .. } => push_first(slots, trigger_of(row.region), n, arcs),
        Node::Unary { operand, .. } | Node::Binding { value: operand, .. } => {
            push_value(slots, n, operand, arcs)
        }
        Node::Next { value, .. } => push_value(slots, n, value as usize, arcs),
        Node::Binary { left, right, .. }
        | Node::Array {
            low: left,
            high: right,
            ..
        } => push_operands(slots, n, left, right, arcs),
        Node::Store { address, value } => push_behind(slots, n, address, value, arcs),
        Node::If {
            then,
            otherwise,
            ..
        } => push_arms(slots, n, then as usize, otherwise as usize, arcs),
        Node::Fetch { target, index } => push_fetch(slots, n, target, index, arcs),
        _ => push_marker(slots, n, row, arcs),
    }
}

/// Adds the arcs to the instructions of the row n, which is a marker and no thing of the text.
#[inline(always)]
fn push_marker(slots: &Slots<'_>, n: usize, row: Row, arcs: &mut Vec<Arc>) -> Result<(), AllocError>
    requires row { row ≡ at (programs.rows (program_of slots.now)) n }
    requires marker { is_thing row.node ≡ false }
    ensures { OnOk result (arcs.new.items
        ≡ arcs.old.items ++ arcs_of slots.now n (feeds (program_of slots.now) n)) }
{
    match row.node {
        Node::Head => push_result(slots, n, arcs),
        Node::Enter { .. } => push_first(slots, trigger_of(row.region), n, arcs),
        Node::Reset { value } => push_value(slots, n, value, arcs),
        Node::Address { target, index } => push_operands(slots, n, target, index, arcs),
        Node::Arg { enter, value, .. } => {
            push_behind(slots, n, enter as usize, value as usize, arcs)
        }
        Node::Split { test } | Node::Switches { test } => {
            push_split(slots, n, row.region, test, arcs)
        }
        Node::Bounds { .. } | Node::Start | Node::LoopHead { .. } | Node::Carried { .. } => {
            push_of_loop(slots, n, row, arcs)
        }
        Node::Variable | Node::Entries | Node::Count | Node::Turn => {
            push_of_loop(slots, n, row, arcs)
        }
        _ => Ok(()),
    }
}

/// Adds the arcs to the instructions of the row n, which is a marker of a loop that has some.
#[inline(always)]
fn push_of_loop(
    slots: &Slots<'_>,
    n: usize,
    row: Row,
    arcs: &mut Vec<Arc>,
) -> Result<(), AllocError>
    requires row { row ≡ at (programs.rows (program_of slots.now)) n }
    requires marker { is_of_loop row.node ≡ true }
    ensures { OnOk result (arcs.new.items
        ≡ arcs.old.items ++ arcs_of slots.now n (feeds (program_of slots.now) n)) }
{
    match row.node {
        Node::Bounds { low, high } => push_bounds(slots, n, low, high, arcs),
        Node::Start => push_start(slots, n, row.region, arcs),
        Node::LoopHead { .. } => push_loop_head(slots, n, arcs),
        Node::Carried { .. } => push_carried(slots, n, row.block as usize, arcs),
        Node::Count => push_count(slots, n, row.region, arcs),
        Node::Variable => push_variable(slots, n, arcs),
        Node::Entries => push_entries(slots, n, row.block as usize, arcs),
        Node::Turn => push_turn(slots, n, row.region, row.block as usize, arcs),
        _ => Ok(()),
    }
}

/// Adds the arc from the last expression of the procedure with the head n to its way back.
fn push_result(slots: &Slots<'_>, n: usize, arcs: &mut Vec<Arc>) -> Result<(), AllocError>
    ensures { let P = program_of slots.now in OnOk result (arcs.new.items ≡ arcs.old.items ++ arcs_of slots.now n
        (rows.feed (rows.origin P (body_of (rows.node P (end_of P n)))) 1 One ∷ [])) }
{
    let checked = slots.kernel.checked;
    let body = body_of(row_at(checked, slots.kernel.end_of(n)).node);
    let first = number_at(slots, n);
    push_arc(slots, origin(slots, body), first + 1, Port::One, arcs)
}

/// Adds the arc from the value of an expression to the first instruction of the row n.
fn push_value(
    slots: &Slots<'_>,
    n: usize,
    value: usize,
    arcs: &mut Vec<Arc>,
) -> Result<(), AllocError>
    ensures { OnOk result (arcs.new.items ≡ arcs.old.items ++ arcs_of slots.now n
        (rows.feed (rows.origin (program_of slots.now) value) 0 Zero ∷ [])) }
{
    push_first(slots, origin(slots, value), n, arcs)
}

/// Adds the arcs from the values of two operands to the two ports of the first instruction of the row n.
#[inline(always)]
fn push_operands(
    slots: &Slots<'_>,
    n: usize,
    left: usize,
    right: usize,
    arcs: &mut Vec<Arc>,
) -> Result<(), AllocError>
    ensures { let P = program_of slots.now in OnOk result (arcs.new.items ≡ arcs.old.items ++ arcs_of slots.now n
        (rows.feed (rows.origin P left) 0 Zero ∷ rows.feed (rows.origin P right) 0 One ∷ [])) }
{
    let left = origin(slots, left);
    let right = origin(slots, right);
    let first = number_at(slots, n);
    push_two(slots, left, right, first, arcs)
}

/// Adds the arcs from the first instruction of a row and from the value of an expression to the two ports of the first
/// instruction of the row n.
fn push_behind(
    slots: &Slots<'_>,
    n: usize,
    row: usize,
    value: usize,
    arcs: &mut Vec<Arc>,
) -> Result<(), AllocError>
    ensures { OnOk result (arcs.new.items ≡ arcs.old.items ++ arcs_of slots.now n
        (rows.feed (rows.output row) 0 Zero ∷ rows.feed (rows.origin (program_of slots.now) value) 0 One ∷ [])) }
{
    let value = origin(slots, value);
    let first = number_at(slots, n);
    push_two(slots, output(row), value, first, arcs)
}

/// Adds the arcs from the values of the arms of the conditional at the row n.
fn push_arms(
    slots: &Slots<'_>,
    n: usize,
    then: usize,
    otherwise: usize,
    arcs: &mut Vec<Arc>,
) -> Result<(), AllocError>
    ensures { let P = program_of slots.now in OnOk result (arcs.new.items ≡ arcs.old.items ++ arcs_of slots.now n
        (rows.feed (rows.origin P then) 0 Zero ∷ rows.feed (rows.origin P otherwise) 0 Zero
        ∷ [])) }
{
    let first = number_at(slots, n);
    push_arc(slots, origin(slots, then), first, Port::Zero, arcs)?;
    push_arc(slots, origin(slots, otherwise), first, Port::Zero, arcs)
}

/// Adds the arcs to the address and the `fetch` of the fetch at the row n.
fn push_fetch(
    slots: &Slots<'_>,
    n: usize,
    target: usize,
    index: usize,
    arcs: &mut Vec<Arc>,
) -> Result<(), AllocError>
    ensures { let P = program_of slots.now in OnOk result (arcs.new.items ≡ arcs.old.items ++ arcs_of slots.now n
        (rows.feed (rows.origin P target) 0 Zero ∷ rows.feed (rows.origin P index) 0 One
        ∷ rows.feed (rows.output n) 1 Zero ∷ [])) }
{
    push_operands(slots, n, target, index, arcs)?;
    let first = number_at(slots, n);
    push_arc(slots, output(n), first + 1, Port::Zero, arcs)
}

/// Adds the arcs to the switches of the conditional or loop that are at n in this region, with this predicate: to the
/// trigger's, and to that of each import.
fn push_split(
    slots: &Slots<'_>,
    n: usize,
    region: Region,
    test: usize,
    arcs: &mut Vec<Arc>,
) -> Result<(), AllocError>
    ensures { let P = program_of slots.now in OnOk result (arcs.new.items ≡ arcs.old.items ++ arcs_of slots.now n
        (rows.feed (rows.origin P test) 0 Zero ∷ rows.feed (rows.trigger_of region) 0 One
        ∷ import_feeds P (rows.origin P test) region 1 (regions.imports_of P n))) }
{
    let test = origin(slots, test);
    let first = number_at(slots, n);
    push_two(slots, test, trigger_of(region), first, arcs)?;
    push_imports(slots, n, test, region, 1, imports_at(slots.kernel, n), arcs)
}

/// Adds the arcs to the parts of the row n from this one on, one part for each of these binders: from the source, and
/// from where the region has the binder.
fn push_imports(
    slots: &Slots<'_>,
    n: usize,
    source: Origin,
    region: Region,
    part: usize,
    binders: &[u32],
    arcs: &mut Vec<Arc>,
) -> Result<(), AllocError>
    requires source { source.part < 2 ^ 62 }
    requires few { part < 2 ^ 62 }
    ensures { OnOk result (arcs.new.items ≡ arcs.old.items
        ++ arcs_of slots.now n (import_feeds (program_of slots.now) source region part binders.now)) }
{
    let mut to = number_at(slots, n) + part;
    for binder in binders {
        let binder = *binder as usize;
        push_two(slots, source, name_in(slots, region, binder), to, arcs)?;
        to += 1;
    }
    Ok(())
}

/// Adds the arcs to the `enter` and the `send`s of the loop that begins at the row n in this region.
fn push_start(
    slots: &Slots<'_>,
    n: usize,
    region: Region,
    arcs: &mut Vec<Arc>,
) -> Result<(), AllocError>
    requires { rows.node (program_of slots.now) n ≡ Start }
    ensures { OnOk result (arcs.new.items
        ≡ arcs.old.items ++ arcs_of slots.now n (feeds_of (program_of slots.now) n region Start)) }
{
    let head = n + 1;
    push_first(slots, trigger_of(region), n, arcs)?;
    push_bounds_sends(slots, n, arcs)?;
    let first = 1 + carried_count(slots.kernel.checked, head);
    let nexts = nexts_at(slots.kernel, head);
    push_firsts(slots, n, region, first, nexts, arcs)?;
    let imports = imports_at(slots.kernel, head);
    let from = first + nexts.len();
    push_imports(slots, n, output(n), region, from, imports, arcs)
}

/// Adds the arcs to what tells whether the loop with an index between these bounds has a first one, at the row n.
fn push_bounds(
    slots: &Slots<'_>,
    n: usize,
    low: usize,
    high: usize,
    arcs: &mut Vec<Arc>,
) -> Result<(), AllocError>
    ensures { let P = program_of slots.now in OnOk result (arcs.new.items ≡ arcs.old.items ++ arcs_of slots.now n
        (rows.feed (rows.origin P low) 0 Zero ∷ rows.feed (rows.origin P high) 0 One
        ∷ rows.feed (rows.output n) 1 Zero ∷ rows.feed (rows.origin P low) 1 One ∷ [])) }
{
    push_operands(slots, n, low, high, arcs)?;
    let first = number_at(slots, n);
    push_two(slots, output(n), origin(slots, low), first + 1, arcs)
}

/// Adds the arcs to the `send`s of what the loop that begins at the row n carries on, if it has an index.
fn push_bounds_sends(slots: &Slots<'_>, n: usize, arcs: &mut Vec<Arc>) -> Result<(), AllocError>
    ensures { let P = program_of slots.now in OnOk result (arcs.new.items ≡ arcs.old.items ++ arcs_of slots.now n
        (bounds_feeds P n (rows.node P (n - 1)))) }
{
    let bounds = n.saturating_sub(1);
    match row_at(slots.kernel.checked, bounds).node {
        Node::Bounds { high, .. } => {
            let first = number_at(slots, n);
            push_two(slots, output(n), part_of(bounds, 1), first + 1, arcs)?;
            push_two(slots, output(n), origin(slots, high), first + 2, arcs)?;
            push_two(slots, output(n), output(bounds), first + 3, arcs)
        }
        _ => Ok(()),
    }
}

/// Adds the arc to the entry at the row n of what the loop with this head carries on.
fn push_carried(
    slots: &Slots<'_>,
    n: usize,
    head: usize,
    arcs: &mut Vec<Arc>,
) -> Result<(), AllocError>
    requires { n - head < 2 ^ 62 }
    ensures { OnOk result (arcs.new.items ≡ arcs.old.items ++ arcs_of slots.now n
        (rows.feed (rows.part_of (rows.turn_row (program_of slots.now) head) (n - head)) 0 Zero ∷ [])) }
{
    let turn = turn_row(slots.kernel, head);
    push_first(slots, part_of(turn, n.saturating_sub(head)), n, arcs)
}

/// Adds the arc to the entry at the row n, which is that of a variable.
#[inline(always)]
fn push_variable(slots: &Slots<'_>, n: usize, arcs: &mut Vec<Arc>) -> Result<(), AllocError>
    ensures { OnOk result (arcs.new.items ≡ arcs.old.items ++ arcs_of slots.now n
        (rows.feed (rows.output (next_of (program_of slots.now) n)) 0 Zero ∷ [])) }
{
    let next = slots.kernel.next_of(n);
    push_first(slots, output(next as usize), n, arcs)
}

/// Adds the arcs to what tells whether a loop has a next index, and gives that, at the row n in this region.
fn push_count(
    slots: &Slots<'_>,
    n: usize,
    region: Region,
    arcs: &mut Vec<Arc>,
) -> Result<(), AllocError>
    ensures { OnOk result (arcs.new.items
        ≡ arcs.old.items ++ arcs_of slots.now n (feeds_of (program_of slots.now) n region Count)) }
{
    let head = row_at(slots.kernel.checked, n).block as usize;
    let first = number_at(slots, n);
    let index = output(head + 1);
    let bound = name_in(slots, region, head + 2);
    push_two(slots, index, bound, first, arcs)?;
    push_two(slots, output(n), trigger_of(region), first + 1, arcs)?;
    push_two(slots, output(n), index, first + 2, arcs)?;
    push_arc(slots, part_of(n, 1), first + 3, Port::Zero, arcs)?;
    push_two(slots, part_of(n, 2), part_of(n, 3), first + 4, arcs)
}

/// Adds the arcs to what hands on what the loop with this head carries on, at the row n in this region.
fn push_carried_turns(
    slots: &Slots<'_>,
    n: usize,
    region: Region,
    head: usize,
    arcs: &mut Vec<Arc>,
) -> Result<(), AllocError>
    ensures { OnOk result (arcs.new.items ≡ arcs.old.items
        ++ arcs_of slots.now n (carried_feeds (program_of slots.now) n region head)) }
{
    if !has_index(slots.kernel.checked, head) {
        return Ok(());
    }
    let first = number_at(slots, n);
    let count = n.saturating_sub(1);
    push_arc(slots, part_of(count, 4), first + 1, Port::Zero, arcs)?;
    let bound = name_in(slots, region, head + 2);
    push_arc(slots, bound, first + 2, Port::Zero, arcs)?;
    push_arc(slots, output(count), first + 3, Port::Zero, arcs)
}

/// Adds the arcs to the `send`s of the first values of the variables with these `next` statements, of which the first
/// is the part `first`, in the loop that begins at the row n in this region.
fn push_firsts(
    slots: &Slots<'_>,
    n: usize,
    region: Region,
    first: usize,
    nexts: &[u32],
    arcs: &mut Vec<Arc>,
) -> Result<(), AllocError>
    requires { first < 2 ^ 61 }
    ensures { let P = program_of slots.now in OnOk result (arcs.new.items ≡ arcs.old.items ++ arcs_of slots.now n
        (import_feeds P (rows.output n) region first (map (first_binder P) nexts.now))) }
{
    let mut to = number_at(slots, n) + first;
    for next in nexts {
        let binder = first_binder(slots.kernel.checked, *next as usize);
        push_two(slots, output(n), name_in(slots, region, binder), to, arcs)?;
        to += 1;
    }
    Ok(())
}

/// Adds the arcs to the trigger and to the way back of the loop with the head n.
fn push_loop_head(slots: &Slots<'_>, n: usize, arcs: &mut Vec<Arc>) -> Result<(), AllocError>
    ensures { let P = program_of slots.now in OnOk result (arcs.new.items ≡ arcs.old.items ++ arcs_of slots.now n
        (rows.feed (rows.output (rows.turn_row P n)) 0 Zero ∷ rows.feed (rows.output (end_of P n - 2)) 1 One ∷ [])) }
{
    let first = number_at(slots, n);
    let turn = turn_row(slots.kernel, n);
    push_arc(slots, output(turn), first, Port::Zero, arcs)?;
    let reset = slots.kernel.end_of(n).saturating_sub(2);
    push_arc(slots, output(reset), first + 1, Port::One, arcs)
}

/// Adds the arcs to the entries of the imports of the loop with this head, which are at the row n.
fn push_entries(
    slots: &Slots<'_>,
    n: usize,
    head: usize,
    arcs: &mut Vec<Arc>,
) -> Result<(), AllocError>
    ensures { let P = program_of slots.now in OnOk result (arcs.new.items ≡ arcs.old.items ++ arcs_of slots.now n
        (entry_feeds (rows.turn_row P head) (1 + length (regions.carried P head)) 0
        (regions.imports_of P head))) }
{
    let first = number_at(slots, n);
    let turn = turn_row(slots.kernel, head);
    let handed = 1 + carried_count(slots.kernel.checked, head);
    for part in 0..imports_at(slots.kernel, head).len() {
        push_arc(
            slots,
            part_of(turn, part + handed),
            first + part,
            Port::Zero,
            arcs,
        )?;
    }
    Ok(())
}

/// Adds the arcs to what hands on the trigger and the imports of the loop with this head, at the row n in this region.
fn push_turn(
    slots: &Slots<'_>,
    n: usize,
    region: Region,
    head: usize,
    arcs: &mut Vec<Arc>,
) -> Result<(), AllocError>
    ensures { let P = program_of slots.now in OnOk result (arcs.new.items ≡ arcs.old.items ++ arcs_of slots.now n
        (rows.feed (rows.trigger_of region) 0 Zero ∷ carried_feeds P n region head
        ++ turn_feeds P region (1 + length (regions.carried P head))
        (regions.imports_of P head))) }
{
    let first = number_at(slots, n);
    push_arc(slots, trigger_of(region), first, Port::Zero, arcs)?;
    push_carried_turns(slots, n, region, head, arcs)?;
    let mut to = first + carried_count(slots.kernel.checked, head);
    for binder in imports_at(slots.kernel, head) {
        to += 1;
        let binder = *binder as usize;
        push_arc(slots, name_in(slots, region, binder), to, Port::Zero, arcs)?;
    }
    Ok(())
}

/// Adds an arc from an origin to a port of the instruction `to`.
#[inline(always)]
fn push_arc(
    slots: &Slots<'_>,
    origin: Origin,
    to: usize,
    port: Port,
    arcs: &mut Vec<Arc>,
) -> Result<(), AllocError>
    requires { origin.part < 2 ^ 62 }
    ensures { OnOk result (arcs.new.items ≡ arcs.old.items ++ arc_to (firsts_of slots.now) origin to port ∷ []) }
{
    let from = number_at(slots, origin.row) + origin.part;
    arcs.push(Arc {
        from,
        side: origin.side,
        to,
        port,
    })?;
    Ok(())
}

/// Adds an arc to the first instruction of the row n.
fn push_first(
    slots: &Slots<'_>,
    origin: Origin,
    n: usize,
    arcs: &mut Vec<Arc>,
) -> Result<(), AllocError>
    requires { origin.part < 2 ^ 62 }
    ensures { OnOk result (arcs.new.items ≡ arcs.old.items ++ arcs_of slots.now n (rows.feed origin 0 Zero ∷ [])) }
{
    let first = number_at(slots, n);
    push_arc(slots, origin, first, Port::Zero, arcs)
}

/// Adds an arc to each of the two ports of the instruction `to`.
fn push_two(
    slots: &Slots<'_>,
    zero: Origin,
    one: Origin,
    to: usize,
    arcs: &mut Vec<Arc>,
) -> Result<(), AllocError>
    requires zero { zero.part < 2 ^ 62 }
    requires one { one.part < 2 ^ 62 }
    ensures { OnOk result (arcs.new.items ≡ arcs.old.items
        ++ arc_to (firsts_of slots.now) zero to Zero ∷ arc_to (firsts_of slots.now) one to One ∷ []) }
{
    push_arc(slots, zero, to, Port::Zero, arcs)?;
    push_arc(slots, one, to, Port::One, arcs)
}

/// The body of the definition at a row of this node.
fn body_of(node: Node) -> usize
    ensures { result ≡ body_of node }
{
    match node {
        Node::Def { body, .. } => body as usize,
        _ => 0,
    }
}
