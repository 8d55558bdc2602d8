//! What an instruction fires in small numbers, on plain operands: what most fire.

ghost use Rattle.std.specs.Prelude.{◌≡◌, ◌≢◌, ◌<◌, ◌-◌, ◌^◌, Bool, true, false, None};
ghost use Rattle.std.specs.Prelude.{IfSome};
ghost use Rattle.std.specs.Option.{is_some};
ghost use Rattle.id_instr.specs.declared.instr.Op.TheVariants.{Address, Alloc, Next};
ghost use Rattle.id_instr.specs.declared.instr.PortKind.{PortKind};
ghost use Rattle.id_tag.specs.Plains.{cell_of, context_of, is_word, structure_of, whole};
ghost use Rattle.id_tag.specs.declared.Tag.{Tag};
ghost use Rattle.id_tag.specs.declared.Value.TheVariants as values;
ghost use Rattle.id_tag.specs.declared.plain.Plain.{Plain};
ghost use Rattle.id_ops.specs.declared.Fired.TheVariants as fired;
ghost use Rattle.id_ops.specs.declared.Fresh.{Fresh};
ghost use Rattle.id_ops.specs.declared.Operands.TheVariants.{One, Two};
ghost use Rattle.id_ops.specs.Operators.{address_in, constant_value, fired, fired_address, fired_back, fired_binary};
ghost use Rattle.id_ops.specs.Operators.{fired_by, fired_const, fired_fetch, fired_send, fired_store, fired_switch};
ghost use Rattle.id_ops.specs.Operators.{fired_unary};
ghost use Rattle.id_ops.specs.PlainFired.{MakesNone, fired_of, is_sent, target_tag};

use crate::Fired;
use id_instr::{Dyadic, Op, PortKind};
use id_tag::{
    Context, Plain, PlainCell, Tag, Value, element_of, plain_cell_in, plain_truth, serial_of,
};
use id_value::{Constant, Outcome, UnaryOp, calculate, compare, decide, is_inside, unary_result};

/// What an instruction fires in small numbers.
#[derive(Clone, Copy)]
pub enum PlainFired {
    Nothing,
    /// The value goes to each destination under the tag of the operands.
    Out(Plain),
    /// The value goes to each destination on this side, under the tag of the operands.
    Side(bool, Plain),
    /// The value goes to each destination at this iteration, in the context of the operands.
    Moved(u32, Plain),
    /// The value goes to port 0 of this tag.
    Sent(Target, Plain),
    /// The address of the cell goes to each destination under the tag of the operands.
    Addressed(PlainCell),
    /// The cell is asked for its value, which is to go to port 0 of the instruction of this number, in the context and
    /// at the iteration of the operands.
    Asked(PlainCell, u32),
    /// The value goes to the cell, from the store of the tag of the operands.
    Stored(PlainCell, Plain),
}

/// A tag in small numbers.
#[derive(Clone, Copy)]
pub struct Target {
    /// The serial number of the context.
    pub serial: u32,
    pub iteration: u32,
    pub instr: u32,
    /// The element of the context.
    pub element: u8,
}

impl Target {
    /// The same tag, in full. Takes no memory.
    #[inline(always)]
    pub fn tag(self) -> Tag
        ensures { result ≡ target_tag self }
    {
        Tag {
            context: Context {
                element: u32::from(self.element),
                serial: u64::from(self.serial),
            },
            iteration: u64::from(self.iteration),
            instr: self.instr,
        }
    }
}

impl PlainFired {
    /// The same as any firing, on operands of this tag. Takes no memory.
    #[inline(always)]
    pub fn fired(self, tag: Tag) -> Fired
        ensures { result ≡ fired_of tag self }
    {
        match self {
            PlainFired::Nothing => Fired::Nothing,
            PlainFired::Out(value) => Fired::Out(value.value()),
            PlainFired::Side(side, value) => Fired::Side(side, value.value()),
            PlainFired::Moved(iteration, value) => {
                Fired::Moved(u64::from(iteration), value.value())
            }
            PlainFired::Sent(target, value) => Fired::Sent(target.tag(), value.value()),
            PlainFired::Addressed(cell) => Fired::Out(Value::Address(cell.cell())),
            PlainFired::Asked(cell, instr) => Fired::Asked {
                cell: cell.cell(),
                reply: Tag { instr, ..tag },
            },
            PlainFired::Stored(cell, value) => Fired::Stored {
                cell: cell.cell(),
                value: value.value(),
                origin: tag,
            },
        }
    }
}

/// What an operator of one port fires on a plain operand at this iteration, in small numbers: `enter` and what fails
/// are not for this. Takes no memory.
#[inline(always)]
pub fn fire_one(op: Op, iteration: u32, operand: Plain) -> Option<PlainFired>
    requires { (k : PortKind) → op ≡ Next k → iteration < 2 ^ 32 - 1 }
    ensures exact { (t : Tag) (f : Fresh) → t.iteration ≡ iteration
        → is_some result ≡ is_sent (fired op t (One (whole operand)) f) }
    ensures fired { IfSome result (λ p. (t : Tag) (f : Fresh) → t.iteration ≡ iteration
        → fired op t (One (whole operand)) f ≡ fired_of t p) }
    ensures makes_none { IfSome result (λ p. MakesNone p operand) }
{
    match op {
        Op::Const(constant) => plain_const(constant, operand),
        Op::Unary(operator) => Some(PlainFired::Out(plain_unary(operator, operand)?)),
        Op::Merge(kind) if operand.kind() == kind => Some(PlainFired::Out(operand)),
        Op::Next(kind) if operand.kind() == kind => Some(PlainFired::Moved(iteration + 1, operand)),
        Op::Reset(kind) if operand.kind() == kind => Some(PlainFired::Moved(0, operand)),
        Op::Fetch { nested, reply } => plain_fetch(nested, operand.cell()?, reply),
        _ => None,
    }
}

/// What an operator of two ports fires on plain operands, in small numbers: `alloc`, the address of a cell of large
/// numbers and what fails are not for this. Takes no memory.
#[inline(always)]
pub fn fire_two(op: Op, left: Plain, right: Plain) -> Option<PlainFired>
    ensures fired { IfSome result
        (λ p. (t : Tag) (f : Fresh) → fired op t (Two (whole left) (whole right)) f ≡ fired_of t p) }
    ensures none { result ≡ None → ((b : Bool) → op ≢ Alloc b) → ((b : Bool) → op ≢ Address b)
        → (t : Tag) (f : Fresh) → is_sent (fired op t (Two (whole left) (whole right)) f) ≡ false }
    ensures makes_none { IfSome result (λ p. (v : Plain) → MakesNone p v) }
    ensures takes_none { IfSome result (λ _. (b : Bool) → op ≢ Alloc b) }
{
    match op {
        Op::Binary(operator) => Some(PlainFired::Out(plain_binary(operator, left, right)?)),
        Op::Switch(kind) => plain_switch(kind, left, right),
        Op::Send { kind, target } => plain_send(kind, target, left, right),
        Op::Back(kind) => plain_back(kind, left, right),
        Op::Address { nested } => plain_address(nested, left, right),
        Op::Store { nested } => plain_store(nested, left.cell()?, right),
        _ => None,
    }
}

#[inline(always)]
fn plain_const(constant: Constant, operand: Plain) -> Option<PlainFired>
    ensures exact { is_some result ≡ is_sent (fired_const constant (One (whole operand))) }
    ensures fired { IfSome result (λ p. (t : Tag) → fired_const constant (One (whole operand)) ≡ fired_of t p) }
    ensures makes_none { IfSome result (λ p. MakesNone p operand) }
{
    match operand {
        Plain::Signal => Some(PlainFired::Out(plain_constant(constant))),
        _ => None,
    }
}

/// A constant as a plain value.
#[inline(always)]
fn plain_constant(constant: Constant) -> Plain
    ensures value { whole result ≡ constant_value constant }
    ensures word { is_word result ≡ true }
{
    match constant {
        Constant::Int(number) => Plain::Int(number),
        Constant::Bool(truth) => plain_truth(truth),
    }
}

/// The word that goes out of an operator on one value, where it gives one.
fn plain_unary(operator: UnaryOp, operand: Plain) -> Option<Plain>
    ensures exact { is_some result ≡ is_sent (fired_unary operator (One (whole operand))) }
    ensures out { IfSome result (λ w. fired_unary operator (One (whole operand)) ≡ fired.Out (whole w)) }
    ensures word { IfSome result (λ w. is_word w ≡ true) }
{
    match operand {
        Plain::Int(number) => plain_outcome(unary_result(operator, Constant::Int(number))),
        Plain::Bool(truth) => plain_outcome(unary_result(operator, Constant::Bool(truth != 0))),
        _ => None,
    }
}

/// The word that goes out of an operator on two values, where it gives one.
#[inline(always)]
fn plain_binary(operator: Dyadic, left: Plain, right: Plain) -> Option<Plain>
    ensures exact { is_some result ≡ is_sent (fired_binary operator (Two (whole left) (whole right))) }
    ensures out { IfSome result (λ w. fired_binary operator (Two (whole left) (whole right)) ≡ fired.Out (whole w)) }
    ensures word { IfSome result (λ w. is_word w ≡ true) }
{
    match (operator, left, right) {
        (Dyadic::Arithmetic(operator), Plain::Int(left), Plain::Int(right)) => {
            plain_outcome(calculate(operator, left, right))
        }
        (Dyadic::Comparison(operator), Plain::Int(left), Plain::Int(right)) => {
            Some(plain_truth(compare(operator, left, right)))
        }
        (Dyadic::Truth(operator), Plain::Bool(left), Plain::Bool(right)) => {
            Some(plain_truth(decide(operator, left != 0, right != 0)))
        }
        _ => None,
    }
}

/// What an operator comes to, as a word, where it gives a value.
#[inline(always)]
fn plain_outcome(outcome: Outcome) -> Option<Plain>
    ensures exact { is_some result ≡ is_sent (fired_by outcome) }
    ensures out { IfSome result (λ w. fired_by outcome ≡ fired.Out (whole w)) }
    ensures word { IfSome result (λ w. is_word w ≡ true) }
{
    match outcome {
        Outcome::Gives(constant) => Some(plain_constant(constant)),
        Outcome::Fails(_) | Outcome::Lacks => None,
    }
}

#[inline(always)]
fn plain_switch(kind: PortKind, left: Plain, right: Plain) -> Option<PlainFired>
    ensures exact { is_some result ≡ is_sent (fired_switch kind (Two (whole left) (whole right))) }
    ensures fired { IfSome result
        (λ p. (t : Tag) → fired_switch kind (Two (whole left) (whole right)) ≡ fired_of t p) }
    ensures makes_none { IfSome result (λ p. (v : Plain) → MakesNone p v) }
{
    match left.truth() {
        Some(side) if right.kind() == kind => Some(PlainFired::Side(side, right)),
        _ => None,
    }
}

#[inline(always)]
fn plain_send(kind: PortKind, target: u32, left: Plain, right: Plain) -> Option<PlainFired>
    ensures exact { is_some result ≡ is_sent (fired_send kind target (Two (whole left) (whole right))) }
    ensures fired { IfSome result
        (λ p. (t : Tag) → fired_send kind target (Two (whole left) (whole right)) ≡ fired_of t p) }
    ensures makes_none { IfSome result (λ p. (v : Plain) → MakesNone p v) }
{
    match left {
        Plain::Context(name) if right.kind() == kind => {
            Some(PlainFired::Sent(target_in(name, 0, target), right))
        }
        _ => None,
    }
}

#[inline(always)]
fn plain_back(kind: PortKind, left: Plain, right: Plain) -> Option<PlainFired>
    ensures exact { is_some result ≡ is_sent (fired_back kind (Two (whole left) (whole right))) }
    ensures fired { IfSome result
        (λ p. (t : Tag) → fired_back kind (Two (whole left) (whole right)) ≡ fired_of t p) }
    ensures makes_none { IfSome result (λ p. (v : Plain) → MakesNone p v) }
{
    match left {
        Plain::Continuation(name, iteration, instr) if right.kind() == kind => {
            Some(PlainFired::Sent(target_in(name, iteration, instr), right))
        }
        _ => None,
    }
}

/// The tag of an instruction at an iteration in the context of a name.
#[inline(always)]
fn target_in(name: u32, iteration: u32, instr: u32) -> Target
    ensures { target_tag result
        ≡ record { context = context_of name; iteration = iteration; instr = instr } }
{
    Target {
        serial: serial_of(name),
        iteration,
        instr,
        element: element_of(name),
    }
}

/// What an `address` into structures that are nested or not fires, where that is an address in small numbers.
#[inline(always)]
fn plain_address(nested: bool, left: Plain, right: Plain) -> Option<PlainFired>
    ensures fired { IfSome result
        (λ p. (t : Tag) → fired_address nested (Two (whole left) (whole right)) ≡ fired_of t p) }
    ensures makes_none { IfSome result (λ p. (v : Plain) → MakesNone p v) }
{
    match (left, right) {
        (Plain::Structure(name, low, high), Plain::Int(index))
            if left.kind() == PortKind::of_structure(nested) => {
            Some(PlainFired::Addressed(plain_cell(name, low, high, index)?))
        }
        _ => None,
    }
}

/// What a `fetch` from structures that are nested or not fires on the address of this cell.
#[inline(always)]
fn plain_fetch(nested: bool, cell: PlainCell, reply: u32) -> Option<PlainFired>
    ensures exact { (t : Tag)
        → is_some result ≡ is_sent (fired_fetch nested reply t (One (values.Address (cell_of cell)))) }
    ensures fired { IfSome result
        (λ p. (t : Tag) → fired_fetch nested reply t (One (values.Address (cell_of cell))) ≡ fired_of t p) }
    ensures makes_none { IfSome result (λ p. (v : Plain) → MakesNone p v) }
{
    if cell.is_nested() == nested {
        Some(PlainFired::Asked(cell, reply))
    } else {
        None
    }
}

/// What a `store` to structures that are nested or not fires on this value for a cell.
#[inline(always)]
fn plain_store(nested: bool, cell: PlainCell, value: Plain) -> Option<PlainFired>
    ensures exact { (t : Tag)
        → is_some result ≡ is_sent (fired_store nested t (Two (values.Address (cell_of cell)) (whole value))) }
    ensures fired { IfSome result (λ p. (t : Tag)
        → fired_store nested t (Two (values.Address (cell_of cell)) (whole value)) ≡ fired_of t p) }
    ensures makes_none { IfSome result (λ p. (v : Plain) → MakesNone p v) }
{
    if cell.is_nested() == nested && value.kind() == PortKind::of_held(nested) {
        Some(PlainFired::Stored(cell, value))
    } else {
        None
    }
}

/// The cell of the structure of a name at an index, where that is inside its bounds and the numbers are small.
#[inline(always)]
fn plain_cell(name: u32, low: i32, high: i32, index: i64) -> Option<PlainCell>
    ensures { IfSome result
        (λ c. address_in (structure_of name low high) index ≡ fired.Out (values.Address (cell_of c))) }
{
    if is_inside(i64::from(low), i64::from(high), index) {
        plain_cell_in(name, low, high, index)
    } else {
        None
    }
}
