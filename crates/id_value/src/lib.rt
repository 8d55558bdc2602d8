//! Values, operators by class, what operators give, and bounds, told once for the meaning and the machine; and lists.
//!
//! Keeps: nothing beyond its values.
//! Errors: none; nothing here takes memory. A fault is a result (`FaultKind`).
//! Read first: docs/MEANING.md ("Operators"), `specs/Results.antt`, `specs/Bounds.antt`, then `calculate`;
//! `specs/List.antt`, then `Sequence`.
//! Not here: values that are no constants, as the machine's signals (`id_tag`).
#![tactic(auto)]

ghost use Rattle.std.specs.Prelude.{◌≡◌, neg_ℤ, MatchOption};
ghost use Rattle.id_value.specs.Bounds.{are_good, is_inside};
ghost use Rattle.id_value.specs.Results.{calculated, compared, decided, result_of_binary, result_of_unary, whole};

mod list;

pub use list::Sequence;
/// The most elements that a structure may have.
pub const MAX_ELEMENTS: i64 = 1_000_000;

/// The kind of a value.
#[derive(Clone, Copy, PartialEq, Eq)]
pub enum Kind {
    Int,
    Bool,
    /// An array of numbers.
    Array,
    /// An array of such arrays.
    Nested,
}

impl Kind {
    ghost use Rattle.id_value.specs.Kinds.{array_kind, element_kind, is_array, is_nested};

    /// The kind of an array, by whether it is nested.
    pub fn of_array(nested: bool) -> Kind
        ensures { result ≡ array_kind nested }
    {
        if nested { Kind::Nested } else { Kind::Array }
    }

    /// Whether the kind is one of arrays.
    pub fn is_array(self) -> bool
        ensures { result ≡ is_array self }
    {
        match self {
            Kind::Int | Kind::Bool => false,
            Kind::Array | Kind::Nested => true,
        }
    }

    /// Whether the kind is that of arrays of arrays.
    pub fn is_nested(self) -> bool
        ensures { result ≡ is_nested self }
    {
        match self {
            Kind::Int | Kind::Bool | Kind::Array => false,
            Kind::Nested => true,
        }
    }

    /// The kind of what an element holds: of a nested array it is an array, of any other a number.
    pub fn element(self) -> Kind
        ensures { result ≡ element_kind self }
    {
        match self {
            Kind::Int | Kind::Bool | Kind::Array => Kind::Int,
            Kind::Nested => Kind::Array,
        }
    }
}

/// What a literal stands for.
#[derive(Clone, Copy, PartialEq, Eq)]
pub enum Constant {
    Int(i64),
    Bool(bool),
}

/// An operator before its operand.
#[derive(Clone, Copy, PartialEq, Eq)]
pub enum UnaryOp {
    /// Unary minus, on numbers.
    Neg,
    /// The other truth value.
    Not,
}

/// An operator from two numbers to a number.
#[derive(Clone, Copy, PartialEq, Eq)]
pub enum Arithmetic {
    Add,
    Sub,
    Mul,
    Div,
    Rem,
}

/// A comparison: of two numbers each, of two truth values `Eq` and `Ne`.
#[derive(Clone, Copy, PartialEq, Eq)]
pub enum Comparison {
    Lt,
    Le,
    Gt,
    Ge,
    Eq,
    Ne,
}

/// A connective of the language, on two truth values.
#[derive(Clone, Copy, PartialEq, Eq)]
pub enum Logic {
    And,
    Or,
}

/// An operator of the language between its operands.
#[derive(Clone, Copy, PartialEq, Eq)]
pub enum BinaryOp {
    Arithmetic(Arithmetic),
    Comparison(Comparison),
    Logic(Logic),
}

/// An operator from two truth values to one.
#[derive(Clone, Copy, PartialEq, Eq)]
pub enum Truth {
    /// Whether they are one.
    Eqb,
    /// Whether they differ.
    Neb,
    And,
    Or,
}

/// Why an operator fails.
#[derive(Clone, Copy, Debug, PartialEq, Eq)]
pub enum FaultKind {
    /// A number outside 64 bits with a sign: `9223372036854775807 + 1`
    Overflow,
    /// A division by 0: `1 div 0`
    DivisionByZero,
    /// Bounds that no structure has: `array(2, 0)`, `array(1, 1000001)`
    BadBounds,
    /// An index below the lower bound or above the upper one.
    OutOfBounds,
}

/// What an operator comes to: it gives a value, it fails for a cause, or it has no result, since an
/// operand is of no kind that it takes.
#[derive(Clone, Copy)]
pub enum Outcome {
    Gives(Constant),
    Fails(FaultKind),
    Lacks,
}

/// What an operator before its operand comes to.
pub fn unary_result(op: UnaryOp, operand: Constant) -> Outcome
    ensures { result ≡ result_of_unary op operand }
{
    match (op, operand) {
        (UnaryOp::Neg, Constant::Int(number)) => negate(number),
        (UnaryOp::Not, Constant::Bool(truth)) => Outcome::Gives(Constant::Bool(!truth)),
        _ => Outcome::Lacks,
    }
}

/// What an operator between its operands comes to.
pub fn binary_result(op: BinaryOp, left: Constant, right: Constant) -> Outcome
    ensures { result ≡ result_of_binary op left right }
{
    match (left, right) {
        (Constant::Int(left), Constant::Int(right)) => of_numbers(op, left, right),
        (Constant::Bool(left), Constant::Bool(right)) => of_truths(op, left, right),
        _ => Outcome::Lacks,
    }
}

fn of_numbers(op: BinaryOp, left: i64, right: i64) -> Outcome
    ensures { result ≡ result_of_binary op (Constant.Int left) (Constant.Int right) }
{
    match op {
        BinaryOp::Arithmetic(op) => calculate(op, left, right),
        BinaryOp::Comparison(op) => Outcome::Gives(Constant::Bool(compare(op, left, right))),
        BinaryOp::Logic(_) => Outcome::Lacks,
    }
}

fn of_truths(op: BinaryOp, left: bool, right: bool) -> Outcome
    ensures { result ≡ result_of_binary op (Constant.Bool left) (Constant.Bool right) }
{
    let truth = match op {
        BinaryOp::Comparison(Comparison::Eq) => Truth::Eqb,
        BinaryOp::Comparison(Comparison::Ne) => Truth::Neb,
        BinaryOp::Logic(Logic::And) => Truth::And,
        BinaryOp::Logic(Logic::Or) => Truth::Or,
        _ => return Outcome::Lacks,
    };
    Outcome::Gives(Constant::Bool(decide(truth, left, right)))
}

/// The number with the other sign; the least number overflows.
pub fn negate(number: i64) -> Outcome
    ensures { result ≡ whole (neg_ℤ number) }
{
    given_or_overflow(number.checked_neg())
}

/// The exact result of two numbers, if it is a number of the language.
pub fn calculate(op: Arithmetic, left: i64, right: i64) -> Outcome
    ensures { result ≡ calculated op left right }
{
    match op {
        Arithmetic::Add => given_or_overflow(left.checked_add(right)),
        Arithmetic::Sub => given_or_overflow(left.checked_sub(right)),
        Arithmetic::Mul => given_or_overflow(left.checked_mul(right)),
        Arithmetic::Div => divide(left, right),
        Arithmetic::Rem => remain(left, right),
    }
}

/// Whether two numbers compare so.
pub fn compare(op: Comparison, left: i64, right: i64) -> bool
    ensures { result ≡ compared op left right }
{
    match op {
        Comparison::Lt => left < right,
        Comparison::Le => left <= right,
        Comparison::Gt => left > right,
        Comparison::Ge => left >= right,
        Comparison::Eq => left == right,
        Comparison::Ne => left != right,
    }
}

/// What an operator makes of two truth values.
pub fn decide(op: Truth, left: bool, right: bool) -> bool
    ensures { result ≡ decided op left right }
{
    match op {
        Truth::Eqb => left == right,
        Truth::Neb => left != right,
        Truth::And => left && right,
        Truth::Or => left || right,
    }
}

/// Whether a structure may have these bounds: it has at least no element, and at most `MAX_ELEMENTS`.
pub fn bounds_are_good(lo: i64, hi: i64) -> bool
    ensures { result ≡ are_good lo hi }
{
    match hi.checked_sub(lo) {
        Some(last) => -1 <= last && last < MAX_ELEMENTS,
        None => false,
    }
}

/// Whether the index is one of an element between these bounds.
pub fn is_inside(lo: i64, hi: i64, index: i64) -> bool
    ensures { result ≡ is_inside lo hi index }
{
    lo <= index && index <= hi
}

// The quotient without its fraction: -7 by 2 is -3.
fn divide(left: i64, right: i64) -> Outcome
    ensures { result ≡ calculated Arithmetic.Div left right }
{
    if right == 0 {
        return Outcome::Fails(FaultKind::DivisionByZero);
    }
    given_or_overflow(left.checked_div(right))
}

// What is left of the dividend: of -7 by 2 it is -1.
fn remain(left: i64, right: i64) -> Outcome
    ensures { result ≡ calculated Arithmetic.Rem left right }
{
    if right == 0 {
        return Outcome::Fails(FaultKind::DivisionByZero);
    }
    given_or_overflow(left.checked_rem(right))
}

fn given_or_overflow(number: Option<i64>) -> Outcome
    ensures { MatchOption number
        (result ≡ Outcome.Fails FaultKind.Overflow)
        (λ n. result ≡ Outcome.Gives (Constant.Int n)) }
{
    match number {
        Some(number) => Outcome::Gives(Constant::Int(number)),
        None => Outcome::Fails(FaultKind::Overflow),
    }
}
