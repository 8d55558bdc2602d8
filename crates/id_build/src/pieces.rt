//! The instructions of a row (docs/GRAPH.md, "Schemas").

ghost use Rattle.std.specs.Prelude.{[], ◌∷◌, ◌≡◌, ◌++◌, ◌<◌, ◌^◌, pos, length, map, false};
ghost use Rattle.std.specs.Prelude.{true, OnOk};
ghost use Rattle.id_check.specs.Programs as programs;
ghost use Rattle.id_table.specs.Tables.{is_thing};
ghost use Rattle.id_table.specs.declared.row.Node.TheVariants.{Start};
ghost use Rattle.id_desugar.specs.Regions.{carried, is_loop_head};
ghost use Rattle.id_value.specs.declared.Arithmetic.TheVariants.{Add};
ghost use Rattle.id_value.specs.declared.Comparison.TheVariants.{Lt, Le};
ghost use Rattle.id_value.specs.declared.Constant.TheVariants as constant;
ghost use Rattle.id_instr.specs.declared.instr.Dyadic.TheVariants as dyadic;
ghost use Rattle.id_build.specs.Made.{is_of_loop};
ghost use Rattle.id_build.specs.Rows.{for_each, import_entries, loop_entries, made, made_of, result_of, send_to};
ghost use Rattle.id_build.specs.Rows.{param_entry, switches, variable_entries};
ghost use Rattle.id_build.specs.Rows as rows;
ghost use Rattle.id_build.specs.declared.arc.Form.TheVariants.{Plain, EnterAt, FetchAt};
ghost use Rattle.id_instr.specs.declared.instr.Op.TheVariants.{Merge, Back, Next, Switch, Address};
ghost use Rattle.id_instr.specs.declared.instr.Op.TheVariants.{Store, Binary, Const};
ghost use Rattle.id_instr.specs.declared.instr.PortKind.TheVariants.{Signal, Int};

use crate::arc::{Form, Piece};
use crate::calls::{called, param_of};
use crate::loops::{entries_row, imports_at, nexts_at};
use crate::operators::{binary_op, holds_array, port_at, port_of};
use id_check::Checked;
use id_desugar::{Kernel, carried_count, first_variable, row_at};
use id_instr::{Dyadic, Op, PortKind};
use id_table::Node;
use id_value::{Arithmetic, Comparison, Constant, Kind};
use std::alloc::AllocError;

/// Adds the instructions of the row n.
pub fn push_pieces(kernel: &Kernel<'_>, n: usize, pieces: &mut Vec<Piece>) -> Result<(), AllocError>
    ensures { OnOk result (pieces.new.items ≡ pieces.old.items ++ made kernel.now.checked.now n) }
{
    let row = row_at(kernel.checked, n);
    push_row(kernel, n, row.place as usize, row.node, pieces)
}

/// Adds the instructions of the row n of this place and node.
fn push_row(
    kernel: &Kernel<'_>,
    n: usize,
    place: usize,
    node: Node,
    pieces: &mut Vec<Piece>,
) -> Result<(), AllocError>
    requires node { node ≡ rows.node kernel.now.checked.now n }
    ensures { OnOk result (pieces.new.items ≡ pieces.old.items ++ made_of kernel.now.checked.now n place node) }
{
    let checked = kernel.checked;
    match node {
        Node::Param { .. } | Node::Binding { .. } | Node::If { .. } | Node::Call { .. } => {
            push(pieces, Op::Merge(port_at(checked, n)), place)
        }
        Node::Literal { value } => push(pieces, Op::Const(value), place),
        Node::Unary { op, .. } => push(pieces, Op::Unary(op), place),
        Node::Binary { op, left, .. } => push(
            pieces,
            Op::Binary(binary_op(op, port_at(checked, left))),
            place,
        ),
        Node::Name { .. } | Node::Block { .. } | Node::Index { .. } | Node::Def { .. } => Ok(()),
        Node::Next { .. } => push(pieces, Op::Next(port_at(checked, n)), place),
        Node::Loop { .. } => push(pieces, Op::Merge(port_at(checked, n)), place),
        Node::Array { nested, .. } => push(pieces, Op::Alloc { nested }, place),
        Node::Fetch { .. } => push_fetch(checked, n, place, pieces),
        Node::Store { address, .. } => push_store(checked, address, place, pieces),
        _ => push_marker(kernel, n, place, node, pieces),
    }
}

/// Adds the instructions of the row n of this place and node, which is a marker and no thing of the text.
#[inline(always)]
fn push_marker(
    kernel: &Kernel<'_>,
    n: usize,
    place: usize,
    node: Node,
    pieces: &mut Vec<Piece>,
) -> Result<(), AllocError>
    requires node { node ≡ rows.node kernel.now.checked.now n }
    requires marker { is_thing node ≡ false }
    ensures { OnOk result (pieces.new.items ≡ pieces.old.items ++ made_of kernel.now.checked.now n place node) }
{
    let checked = kernel.checked;
    match node {
        Node::Head => {
            let result = result_of(row_at(checked, kernel.end_of(n)).node);
            push_head(port_of(result), place, pieces)
        }
        Node::Split { .. } | Node::Switches { .. } => {
            push_switches(checked, imports_at(kernel, n), place, pieces)
        }
        Node::Enter { .. } => {
            let call = kernel.end_of(n);
            push_enter(called(checked, n), call, place, pieces)
        }
        Node::Arg { enter, index, .. } => {
            let param = param_of(checked, enter as usize, index as usize);
            push_send(checked, param, param, 0, place, pieces)
        }
        Node::Bounds { .. } | Node::Start | Node::LoopHead { .. } | Node::Carried { .. } => {
            push_of_loop(kernel, n, place, node, pieces)
        }
        Node::Variable | Node::Entries | Node::Count | Node::Turn => {
            push_of_loop(kernel, n, place, node, pieces)
        }
        Node::Reset { value } => push(pieces, Op::Reset(port_at(checked, value)), place),
        Node::Address { .. } => push_address(checked, n, place, pieces),
        Node::Program => push_answer(checked, pieces),
        _ => Ok(()),
    }
}

/// Adds the instructions of the row n of this place and node, which is a marker of a loop that has some.
#[inline(always)]
fn push_of_loop(
    kernel: &Kernel<'_>,
    n: usize,
    place: usize,
    node: Node,
    pieces: &mut Vec<Piece>,
) -> Result<(), AllocError>
    requires node { node ≡ rows.node kernel.now.checked.now n }
    requires marker { is_of_loop node ≡ true }
    ensures { OnOk result (pieces.new.items ≡ pieces.old.items ++ made_of kernel.now.checked.now n place node) }
{
    let checked = kernel.checked;
    match node {
        Node::Bounds { .. } => push_bounds(place, pieces),
        Node::Start => push_start(kernel, n, place, pieces),
        Node::LoopHead { .. } => { push_head(port_at(checked, kernel.end_of(n)), place, pieces) }
        Node::Carried { kind } => push(pieces, Op::Merge(port_of(kind)), place),
        Node::Count => push_count(place, pieces),
        Node::Variable => {
            let next = kernel.next_of(n) as usize;
            push(pieces, Op::Merge(port_at(checked, next)), place)
        }
        Node::Entries => {
            let head = row_at(checked, n).block as usize;
            push_entries(checked, imports_at(kernel, head), place, pieces)
        }
        Node::Turn => {
            let head = row_at(checked, n).block as usize;
            push_turn(checked, imports_at(kernel, head), head, place, pieces)
        }
        _ => Ok(()),
    }
}

/// Adds the trigger and the way back of a block whose result goes to ports of this kind.
fn push_head(kind: PortKind, place: usize, pieces: &mut Vec<Piece>) -> Result<(), AllocError>
    ensures { OnOk result (pieces.new.items ≡ pieces.old.items
        ++ rows.piece (Plain (Merge Signal)) place ∷ rows.piece (Plain (Back kind)) place ∷ []) }
{
    push(pieces, Op::Merge(PortKind::Signal), place)?;
    push(pieces, Op::Back(kind), place)?;
    Ok(())
}

/// Adds the switches of a conditional or a loop with these imports: the trigger's, and one for each import.
fn push_switches(
    checked: &Checked,
    imports: &[u32],
    place: usize,
    pieces: &mut Vec<Piece>,
) -> Result<(), AllocError>
    ensures { OnOk result (pieces.new.items ≡ pieces.old.items
        ++ rows.piece (Plain (Switch Signal)) place ∷ switches checked.now place imports.now) }
{
    push(pieces, Op::Switch(PortKind::Signal), place)?;
    for import in imports {
        push(
            pieces,
            Op::Switch(port_at(checked, *import as usize)),
            place,
        )?;
    }
    Ok(())
}

/// Adds the entries of a loop's imports.
fn push_entries(
    checked: &Checked,
    imports: &[u32],
    place: usize,
    pieces: &mut Vec<Piece>,
) -> Result<(), AllocError>
    ensures { OnOk result (pieces.new.items
        ≡ pieces.old.items ++ for_each checked.now Merge place imports.now) }
{
    for import in imports {
        push(pieces, Op::Merge(port_at(checked, *import as usize)), place)?;
    }
    Ok(())
}

/// Adds what tells whether a loop with an index has a first one, and the switch of that.
fn push_bounds(place: usize, pieces: &mut Vec<Piece>) -> Result<(), AllocError>
    ensures { OnOk result (pieces.new.items ≡ pieces.old.items
        ++ rows.piece (Plain (Binary (dyadic.Comparison Le))) place
        ∷ rows.piece (Plain (Switch Int)) place ∷ []) }
{
    let within = Op::Binary(Dyadic::Comparison(Comparison::Le));
    push(pieces, within, place)?;
    push(pieces, Op::Switch(PortKind::Int), place)
}

/// Adds what tells whether a loop with an index has a next one, and what gives that.
fn push_count(place: usize, pieces: &mut Vec<Piece>) -> Result<(), AllocError>
    ensures { OnOk result (pieces.new.items ≡ pieces.old.items
        ++ rows.piece (Plain (Binary (dyadic.Comparison Lt))) place
        ∷ rows.piece (Plain (Switch Signal)) place ∷ rows.piece (Plain (Switch Int)) place
        ∷ rows.piece (Plain (Const (constant.Int (pos 1)))) place
        ∷ rows.piece (Plain (Binary (dyadic.Arithmetic Add))) place ∷ []) }
{
    let below = Op::Binary(Dyadic::Comparison(Comparison::Lt));
    push(pieces, below, place)?;
    push(pieces, Op::Switch(PortKind::Signal), place)?;
    push(pieces, Op::Switch(PortKind::Int), place)?;
    push(pieces, Op::Const(Constant::Int(1)), place)?;
    let add = Op::Binary(Dyadic::Arithmetic(Arithmetic::Add));
    push(pieces, add, place)
}

/// Adds what hands the trigger, what the loop with this head carries on, and these imports on to the next iteration.
fn push_turn(
    checked: &Checked,
    imports: &[u32],
    head: usize,
    place: usize,
    pieces: &mut Vec<Piece>,
) -> Result<(), AllocError>
    ensures { OnOk result (pieces.new.items ≡ pieces.old.items
        ++ rows.piece (Plain (Next Signal)) place
        ∷ for_each checked.now Next place (carried checked.now head ++ imports.now)) }
{
    push(pieces, Op::Next(PortKind::Signal), place)?;
    for part in 0..carried_count(checked, head) {
        let entry = head + 1 + part;
        push(pieces, Op::Next(port_at(checked, entry)), place)?;
    }
    for import in imports {
        push(pieces, Op::Next(port_at(checked, *import as usize)), place)?;
    }
    Ok(())
}

/// Adds the `enter` of the loop that begins at the row n, and the `send`s to its entries.
fn push_start(
    kernel: &Kernel<'_>,
    n: usize,
    place: usize,
    pieces: &mut Vec<Piece>,
) -> Result<(), AllocError>
    requires { rows.node kernel.now.checked.now n ≡ Start }
    ensures { OnOk result (pieces.new.items ≡ pieces.old.items ++ made_of kernel.now.checked.now n place Start) }
{
    let head = n + 1;
    push_enter(head, kernel.end_of(head), place, pieces)?;
    push_sends(kernel, head, place, pieces)
}

/// Adds the `send`s to the entries of the loop with this head.
#[inline]
fn push_sends(
    kernel: &Kernel<'_>,
    head: usize,
    place: usize,
    pieces: &mut Vec<Piece>,
) -> Result<(), AllocError>
    requires { is_loop_head (rows.node kernel.now.checked.now head) ≡ true }
    ensures { OnOk result (pieces.new.items
        ≡ pieces.old.items ++ map (send_to kernel.now.checked.now place) (loop_entries kernel.now.checked.now head)) }
{
    push_carried_sends(kernel.checked, head, place, pieces)?;
    let nexts = nexts_at(kernel, head);
    let first = first_variable(kernel.checked, head);
    push_variable_sends(kernel.checked, nexts, first, place, pieces)?;
    let entries = entries_row(kernel, head);
    push_import_sends(
        kernel.checked,
        imports_at(kernel, head),
        entries,
        place,
        pieces,
    )
}

/// Adds the `send`s to the entries of what the loop with this head carries on beside its variables.
fn push_carried_sends(
    checked: &Checked,
    head: usize,
    place: usize,
    pieces: &mut Vec<Piece>,
) -> Result<(), AllocError>
    ensures { OnOk result (pieces.new.items
        ≡ pieces.old.items ++ map (send_to checked.now place) (map param_entry (carried checked.now head))) }
{
    for part in 0..carried_count(checked, head) {
        let entry = head + 1 + part;
        push_send(checked, entry, entry, 0, place, pieces)?;
    }
    Ok(())
}

/// Adds the `send`s to the entries of the variables with these `next` statements, which are the rows from this one on.
fn push_variable_sends(
    checked: &Checked,
    nexts: &[u32],
    first: usize,
    place: usize,
    pieces: &mut Vec<Piece>,
) -> Result<(), AllocError>
    requires few { first < 2 ^ 63 }
    ensures { OnOk result (pieces.new.items
        ≡ pieces.old.items ++ map (send_to checked.now place) (variable_entries first nexts.now)) }
{
    for (index, next) in nexts.iter().enumerate() {
        push_send(checked, *next as usize, first + index, 0, place, pieces)?;
    }
    Ok(())
}

/// Adds the `send`s to the entries of these imports, the parts of a row.
fn push_import_sends(
    checked: &Checked,
    imports: &[u32],
    entries: usize,
    place: usize,
    pieces: &mut Vec<Piece>,
) -> Result<(), AllocError>
    ensures { OnOk result (pieces.new.items
        ≡ pieces.old.items ++ map (send_to checked.now place) (import_entries entries 0 imports.now)) }
{
    for (part, import) in imports.iter().enumerate() {
        push_send(checked, *import as usize, entries, part, place, pieces)?;
    }
    Ok(())
}

/// Adds the `enter` of the block with this head, whose result comes to the row `reply`.
fn push_enter(
    head: usize,
    reply: usize,
    place: usize,
    pieces: &mut Vec<Piece>,
) -> Result<(), AllocError>
    ensures { OnOk result
        (pieces.new.items ≡ pieces.old.items ++ rows.piece (EnterAt head reply) place ∷ []) }
{
    push_form(pieces, Form::EnterAt { head, call: reply }, place)
}

/// Adds the `send` of a binder's value to an entry, the part of a row.
fn push_send(
    checked: &Checked,
    binder: usize,
    row: usize,
    part: usize,
    place: usize,
    pieces: &mut Vec<Piece>,
) -> Result<(), AllocError>
    ensures { OnOk result (pieces.new.items ≡ pieces.old.items
        ++ send_to checked.now place (record { binder = binder; row = row; part = part }) ∷ []) }
{
    let kind = port_at(checked, binder);
    push_form(pieces, Form::SendTo { kind, row, part }, place)
}

/// Adds the address of the cell that the row n is about, which is a fetch or a store's address.
fn push_address(
    checked: &Checked,
    n: usize,
    place: usize,
    pieces: &mut Vec<Piece>,
) -> Result<(), AllocError>
    ensures { OnOk result (pieces.new.items ≡ pieces.old.items
        ++ rows.piece (Plain (Address (rows.holds_array checked.now n))) place ∷ []) }
{
    let nested = holds_array(checked, n);
    push(pieces, Op::Address { nested }, place)
}

/// Adds the `store` of the store whose address is at this row.
fn push_store(
    checked: &Checked,
    address: usize,
    place: usize,
    pieces: &mut Vec<Piece>,
) -> Result<(), AllocError>
    ensures { OnOk result (pieces.new.items ≡ pieces.old.items
        ++ rows.piece (Plain (Store (rows.holds_array checked.now address))) place ∷ []) }
{
    let nested = holds_array(checked, address);
    push(pieces, Op::Store { nested }, place)
}

/// Adds the address, the `fetch` and the merge for the reply of the fetch at the row n.
fn push_fetch(
    checked: &Checked,
    n: usize,
    place: usize,
    pieces: &mut Vec<Piece>,
) -> Result<(), AllocError>
    ensures { OnOk result (pieces.new.items ≡ pieces.old.items
        ++ rows.piece (Plain (Address (rows.holds_array checked.now n))) place
        ∷ rows.piece (FetchAt (rows.holds_array checked.now n) n) place
        ∷ rows.piece (Plain (Merge (rows.port_at checked.now n))) place ∷ []) }
{
    let nested = holds_array(checked, n);
    push_address(checked, n, place, pieces)?;
    push_form(pieces, Form::FetchAt { nested, row: n }, place)?;
    push(pieces, Op::Merge(port_at(checked, n)), place)?;
    Ok(())
}

/// Adds the answer's instruction.
fn push_answer(checked: &Checked, pieces: &mut Vec<Piece>) -> Result<(), AllocError>
    ensures { OnOk result (pieces.new.items ≡ pieces.old.items
        ++ rows.piece (Plain (Merge (rows.port_of (result_of (rows.node checked.now checked.now.main)))))
        (programs.place checked.now checked.now.main) ∷ []) }
{
    let main = row_at(checked, checked.main);
    push(
        pieces,
        Op::Merge(port_of(result_of(main.node))),
        main.place as usize,
    )
}

/// The result kind of the definition at a row of this node.
fn result_of(node: Node) -> Kind
    ensures { result ≡ result_of node }
{
    match node {
        Node::Def { result, .. } => result,
        _ => Kind::Int,
    }
}

fn push(pieces: &mut Vec<Piece>, op: Op, place: usize) -> Result<(), AllocError>
    ensures { OnOk result (pieces.new.items ≡ pieces.old.items ++ rows.piece (Plain op) place ∷ []) }
{
    push_form(pieces, Form::Plain(op), place)
}

fn push_form(pieces: &mut Vec<Piece>, form: Form, place: usize) -> Result<(), AllocError>
    ensures { OnOk result (pieces.new.items ≡ pieces.old.items ++ rows.piece form place ∷ []) }
{
    pieces.push(Piece { form, place })?;
    Ok(())
}
