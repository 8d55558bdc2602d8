//! The operators: what an instruction does with its operands (docs/MACHINE.md, "Firing").
//!
//! Keeps: nothing beyond its values.
//! Errors: none; nothing here takes memory.
//! Read first: `specs/Operators.antt`, then `fire`.
//! Not here: what operators give (`id_value`), matching operands (`id_match`), sending outputs (`id_record`,
//! `id_step`).
#![tactic(auto)]

ghost use Rattle.std.specs.Prelude.{◌≡◌, ◌≢◌, ◌<◌, ◌-◌, ◌^◌};
ghost use Rattle.id_instr.specs.declared.instr.Op.TheVariants.{Next};
ghost use Rattle.id_instr.specs.declared.instr.PortKind.{PortKind};
ghost use Rattle.id_ops.specs.declared.Fired.TheVariants.{Nothing};
ghost use Rattle.id_ops.specs.Operands.{Suits, IsOfKind};
ghost use Rattle.id_ops.specs.Operators.{constant_value, fired_by, fired_const, fired_unary, fired_binary, fired_merge};
ghost use Rattle.id_ops.specs.Operators.{fired_switch, fired_back, fired_enter, tag_within, fired_send, fired_next};
ghost use Rattle.id_ops.specs.Operators.{fired_reset, structure_in, fired_alloc, address_in};
ghost use Rattle.id_ops.specs.Operators.{fired_address, fired_fetch, fired_store, fired, may_hold};

mod plain_fired;

use id_instr::{Dyadic, Instr, Op, PortKind};
use id_tag::{Cell, Context, Structure, Tag, Value};
use id_value::{
    Constant, FaultKind, Outcome, UnaryOp, bounds_are_good, calculate, compare, decide, is_inside,
    unary_result,
};
pub use plain_fired::{PlainFired, Target, fire_one, fire_two};

/// The operands of one firing, by port.
#[derive(Clone, Copy)]
pub enum Operands {
    One(Value),
    Two(Value, Value),
}

/// The next numbers of the element that fires: the next context, its own number, and the number of
/// the next structure.
#[derive(Clone, Copy)]
pub struct Fresh {
    pub context: Context,
    pub element: u32,
    pub structure: u64,
}

/// What a firing does.
#[derive(Clone, Copy, PartialEq, Eq)]
pub enum Fired {
    /// The value goes to each destination under the tag of the operands.
    Out(Value),
    /// The value goes to each destination on this side, under the tag of the operands.
    Side(bool, Value),
    /// The value goes to each destination at this iteration, in the context of the operands.
    Moved(u64, Value),
    /// A block is entered in this fresh context, which goes to each destination under the tag of the
    /// operands.
    Entered(Context),
    /// The value goes to port 0 of this tag.
    Sent(Tag, Value),
    /// The cell is asked for its value, which is to go to port 0 of the tag `reply`.
    Asked {
        cell: Cell,
        reply: Tag,
    },
    /// The value goes to the cell, from the store of the tag `origin`.
    Stored {
        cell: Cell,
        value: Value,
        origin: Tag,
    },
    /// The operator fails.
    Failed(FaultKind),
    /// The operands are of no kind that the operator takes: nothing is sent.
    Nothing,
}

/// What the instruction does under this tag with its operands. `next` looks at the tag's iteration, which is
/// to have a next one; `fetch` and `store` name tags by it, and no other operator looks at it. Of the next
/// numbers `enter` looks at the next context, and `alloc` at the element and the next structure. Takes no
/// memory (docs/MACHINE.md, "Firing").
pub fn fire(instr: &Instr, tag: Tag, operands: Operands, fresh: Fresh) -> Fired
    requires { (k : PortKind) → instr.now.op ≡ Next k → tag.iteration < 2 ^ 64 - 1 }
    ensures table { result ≡ fired instr.now.op tag operands fresh }

    // Operands that the ports take fire, and no others; what is sent is of the kind that is said.
    ensures fires { Suits instr.now.op operands → result ≢ Nothing }
    ensures suits { result ≢ Nothing → Suits instr.now.op operands }
    ensures kind { IsOfKind instr.now.op result }
{
    fire_op(instr.op, tag, operands, fresh)
}

// By the operator alone.
fn fire_op(op: Op, tag: Tag, operands: Operands, fresh: Fresh) -> Fired
    requires { (k : PortKind) → op ≡ Next k → tag.iteration < 2 ^ 64 - 1 }
    ensures { result ≡ fired op tag operands fresh }
{
    match op {
        Op::Const(constant) => fire_const(constant, operands),
        Op::Unary(operator) => fire_unary(operator, operands),
        Op::Binary(operator) => fire_binary(operator, operands),
        Op::Merge(kind) => fire_merge(kind, operands),
        Op::Switch(kind) => fire_switch(kind, operands),
        Op::Back(kind) => fire_back(kind, operands),
        Op::Enter { .. } => fire_enter(fresh.context, operands),
        Op::Send { kind, target } => fire_send(kind, target, operands),
        Op::Next(kind) => fire_next(kind, tag.iteration, operands),
        Op::Reset(kind) => fire_reset(kind, operands),
        Op::Alloc { nested } => fire_alloc(nested, fresh, operands),
        Op::Address { nested } => fire_address(nested, operands),
        Op::Fetch { nested, reply } => fire_fetch(nested, reply, tag, operands),
        Op::Store { nested } => fire_store(nested, tag, operands),
    }
}

fn fire_const(constant: Constant, operands: Operands) -> Fired
    ensures { result ≡ fired_const constant operands }
{
    match operands {
        Operands::One(Value::Signal) => Fired::Out(value_of(constant)),
        _ => Fired::Nothing,
    }
}

/// A constant as the value of a token.
pub fn value_of(constant: Constant) -> Value
    ensures { result ≡ constant_value constant }
{
    match constant {
        Constant::Int(number) => Value::Int(number),
        Constant::Bool(truth) => Value::Bool(truth),
    }
}

fn fire_unary(operator: UnaryOp, operands: Operands) -> Fired
    ensures { result ≡ fired_unary operator operands }
{
    match operands {
        Operands::One(Value::Int(number)) => fired_by(unary_result(
            operator,
            Constant::Int(number),
        )),
        Operands::One(Value::Bool(truth)) => fired_by(unary_result(
            operator,
            Constant::Bool(truth),
        )),
        _ => Fired::Nothing,
    }
}

fn fire_binary(operator: Dyadic, operands: Operands) -> Fired
    ensures { result ≡ fired_binary operator operands }
{
    match (operator, operands) {
        (Dyadic::Arithmetic(operator), Operands::Two(Value::Int(left), Value::Int(right))) => {
            fired_by(calculate(operator, left, right))
        }
        (Dyadic::Comparison(operator), Operands::Two(Value::Int(left), Value::Int(right))) => {
            Fired::Out(Value::Bool(compare(operator, left, right)))
        }
        (Dyadic::Truth(operator), Operands::Two(Value::Bool(left), Value::Bool(right))) => {
            Fired::Out(Value::Bool(decide(operator, left, right)))
        }
        _ => Fired::Nothing,
    }
}

// What an operator comes to, as a firing.
fn fired_by(outcome: Outcome) -> Fired
    ensures { result ≡ fired_by outcome }
{
    match outcome {
        Outcome::Gives(constant) => Fired::Out(value_of(constant)),
        Outcome::Fails(cause) => Fired::Failed(cause),
        Outcome::Lacks => Fired::Nothing,
    }
}

fn fire_merge(kind: PortKind, operands: Operands) -> Fired
    ensures { result ≡ fired_merge kind operands }
{
    match operands {
        Operands::One(value) if value.has_kind(kind) => Fired::Out(value),
        _ => Fired::Nothing,
    }
}

fn fire_switch(kind: PortKind, operands: Operands) -> Fired
    ensures { result ≡ fired_switch kind operands }
{
    match operands {
        Operands::Two(Value::Bool(side), value) if value.has_kind(kind) => Fired::Side(side, value),
        _ => Fired::Nothing,
    }
}

fn fire_back(kind: PortKind, operands: Operands) -> Fired
    ensures { result ≡ fired_back kind operands }
{
    match operands {
        Operands::Two(Value::Continuation(caller), value) if value.has_kind(kind) => {
            Fired::Sent(caller, value)
        }
        _ => Fired::Nothing,
    }
}

fn fire_enter(next: Context, operands: Operands) -> Fired
    ensures { result ≡ fired_enter next operands }
{
    match operands {
        Operands::One(Value::Signal) => Fired::Entered(next),
        _ => Fired::Nothing,
    }
}

fn fire_send(kind: PortKind, target: u32, operands: Operands) -> Fired
    ensures { result ≡ fired_send kind target operands }
{
    match operands {
        Operands::Two(Value::Context(context), value) if value.has_kind(kind) => {
            Fired::Sent(tag_within(context, target), value)
        }
        _ => Fired::Nothing,
    }
}

fn fire_next(kind: PortKind, iteration: u64, operands: Operands) -> Fired
    requires { iteration < 2 ^ 64 - 1 }
    ensures { result ≡ fired_next kind iteration operands }
{
    match operands {
        Operands::One(value) if value.has_kind(kind) => Fired::Moved(iteration + 1, value),
        _ => Fired::Nothing,
    }
}

fn fire_reset(kind: PortKind, operands: Operands) -> Fired
    ensures { result ≡ fired_reset kind operands }
{
    match operands {
        Operands::One(value) if value.has_kind(kind) => Fired::Moved(0, value),
        _ => Fired::Nothing,
    }
}

fn fire_alloc(nested: bool, fresh: Fresh, operands: Operands) -> Fired
    ensures { result ≡ fired_alloc nested fresh operands }
{
    match operands {
        Operands::Two(Value::Int(low), Value::Int(high)) => structure_in(nested, fresh, low, high),
        _ => Fired::Nothing,
    }
}

fn structure_in(nested: bool, fresh: Fresh, low: i64, high: i64) -> Fired
    ensures { result ≡ structure_in nested fresh low high }
{
    if bounds_are_good(low, high) {
        Fired::Out(Value::Structure(Structure {
            element: fresh.element,
            serial: fresh.structure,
            low,
            high,
            nested,
        }))
    } else {
        Fired::Failed(FaultKind::BadBounds)
    }
}

fn fire_address(nested: bool, operands: Operands) -> Fired
    ensures { result ≡ fired_address nested operands }
{
    match operands {
        Operands::Two(Value::Structure(structure), Value::Int(index))
            if structure.nested == nested => address_in(structure, index),
        _ => Fired::Nothing,
    }
}

fn address_in(structure: Structure, index: i64) -> Fired
    ensures { result ≡ address_in structure index }
{
    if is_inside(structure.low, structure.high, index) {
        Fired::Out(Value::Address(Cell { structure, index }))
    } else {
        Fired::Failed(FaultKind::OutOfBounds)
    }
}

fn fire_fetch(nested: bool, reply: u32, tag: Tag, operands: Operands) -> Fired
    ensures { result ≡ fired_fetch nested reply tag operands }
{
    match operands {
        Operands::One(Value::Address(cell)) if cell.structure.nested == nested => Fired::Asked {
            cell,
            reply: Tag {
                instr: reply,
                ..tag
            },
        },
        _ => Fired::Nothing,
    }
}

fn fire_store(nested: bool, tag: Tag, operands: Operands) -> Fired
    ensures { result ≡ fired_store nested tag operands }
{
    match operands {
        Operands::Two(Value::Address(cell), value) if may_hold(nested, cell, value) => {
            Fired::Stored {
                cell,
                value,
                origin: tag,
            }
        }
        _ => Fired::Nothing,
    }
}

/// Whether a value is for the cells of structures that are nested or not, of which this cell is one.
fn may_hold(nested: bool, cell: Cell, value: Value) -> bool
    ensures { result ≡ may_hold nested cell value }
{
    cell.structure.nested == nested && value.has_kind(PortKind::of_held(nested))
}

/// The tag of an instruction in a context, at iteration 0. Takes no memory.
pub fn tag_within(context: Context, instr: u32) -> Tag
    ensures { result ≡ tag_within context instr }
{
    Tag {
        context,
        iteration: 0,
        instr,
    }
}
