//! The tree of a program. The place of a thing is the byte offset of its head token.

use id_text::{Identifier, Sequence};
use id_value::{BinaryOp, Constant, Kind, UnaryOp};
use std::alloc::{AllocError, AllocFailed};

/// The most nesting that a program may have.
pub const MAX_NESTING: usize = 200;

/// An expression. Parentheses leave no trace in it. It takes 24 bytes: what stands inside one is in one box.
#[derive(Drop)]
#[cycle(tree)]
pub enum Expr {
    /// A number, at its first digit, or a truth value, at its word.
    Literal {
        place: u32,
        value: Constant,
    },
    /// An operator and its operand, at the operator.
    Unary {
        op: UnaryOp,
        place: u32,
        operand: Box<Expr>,
    },
    /// An operator and its operands, at the operator.
    Binary {
        op: BinaryOp,
        place: u32,
        inside: Box<Pair>,
    },
    /// A name, at itself.
    Name {
        place: u32,
        name: Identifier,
    },
    /// A predicate, the arm where it holds and the other one, at the word `if`.
    If {
        place: u32,
        inside: Box<Triple>,
    },
    /// A call, at the name.
    Call {
        place: u32,
        inside: Box<Call>,
    },
    /// A block, at the brace.
    Block {
        place: u32,
        inside: Box<Block>,
    },
    /// A loop with a predicate, at the brace.
    Loop {
        place: u32,
        inside: Box<Loop>,
    },
    /// A loop with an index, at the brace.
    For {
        place: u32,
        inside: Box<For>,
    },
    /// A new structure between its lower and its upper bound, which is nested or not, at the first word `array`.
    Array {
        place: u32,
        nested: bool,
        inside: Box<Pair>,
    },
    /// The element of a structure at an index, at the `[`.
    Fetch {
        place: u32,
        inside: Box<Pair>,
    },
}

/// Two expressions, in order.
#[derive(Drop)]
#[cycle(tree)]
pub struct Pair {
    pub first: Expr,
    pub second: Expr,
}

/// Three expressions, in order.
#[derive(Drop)]
#[cycle(tree)]
pub struct Triple {
    pub first: Expr,
    pub second: Expr,
    pub third: Expr,
}

/// The name of a procedure, with the arguments in order.
#[derive(Drop)]
#[cycle(tree)]
pub struct Call {
    pub name: Identifier,
    pub args: Vec<Expr>,
}

/// Statements in whatever order, and the body that gives the value.
#[derive(Drop)]
#[cycle(tree)]
pub struct Block {
    pub statements: Vec<Stmt>,
    pub body: Expr,
}

/// A predicate, statements in whatever order, and the last expression, which gives the value.
#[derive(Drop)]
#[cycle(tree)]
pub struct Loop {
    pub test: Expr,
    pub statements: Vec<Stmt>,
    pub last: Expr,
}

/// The name and the place of an index, its lower and its upper bound, statements in whatever order, and the last
/// expression, which gives the value.
#[derive(Drop)]
#[cycle(tree)]
pub struct For {
    pub name: Identifier,
    pub index: u32,
    pub low: Expr,
    pub high: Expr,
    pub statements: Vec<Stmt>,
    pub last: Expr,
}

/// A statement of a block or of a loop.
#[derive(Drop)]
#[cycle(tree)]
pub enum Stmt {
    /// A name for the value of an expression, at the name.
    Binding {
        place: u32,
        name: Identifier,
        value: Expr,
    },
    /// A loop's variable and the expression of its next value, at the word `next`.
    Next {
        place: u32,
        name: Identifier,
        value: Expr,
    },
    /// A structure, which is a name or a fetch from a name, an index, and the value of the element there, at the last
    /// `[` before the value.
    Store {
        place: u32,
        inside: Box<Triple>,
    },
}

/// A parameter of a definition, at its name.
#[derive(Drop)]
pub struct Param {
    pub name: Identifier,
    pub kind: Kind,
    pub place: u32,
}

/// A definition, at its name, with its parameters in order.
pub struct Def {
    pub name: Identifier,
    pub params: Sequence<Param>,
    pub place: u32,
    pub result: Kind,
    pub body: Expr,
}

/// A drop of its own, so that who holds definitions lets each go by one call.
impl Drop for Def {
    fn drop(self) {
        let Def {
            name: _,
            params: _,
            place: _,
            result: _,
            body: _,
        } = self;
    }
}

/// The definitions of a text, in order.
pub struct Program {
    pub defs: Sequence<Def>,
}

/// A drop of its own, so that who holds a program lets it go by one call.
impl Drop for Program {
    fn drop(self) {
        let Program { defs: _ } = self;
    }
}

/// Why a list of tokens is no program.
#[derive(Clone, Copy)]
pub enum TreeError {
    /// No program begins with the tokens up to and with the one at this place: `def +`
    Unexpected { at: usize },
    /// Programs do so begin, but each of them has nesting above 200.
    TooDeep { at: usize },
    /// A growth was refused.
    Memory,
}

impl From<AllocError> for TreeError {
    ghost use Rattle.std.specs.Prelude.{◌≡◌};
    ghost use Rattle.id_grammar.specs.declared.tree.TreeError.TheVariants.{Memory};

    ghost from_gives = { λ _ e. e ≡ Memory };

    fn from(_error: AllocError) -> TreeError {
        TreeError::Memory
    }
}

impl<T: Drop> From<AllocFailed<T>> for TreeError {
    ghost use Rattle.std.specs.Prelude.{◌≡◌};
    ghost use Rattle.id_grammar.specs.declared.tree.TreeError.TheVariants.{Memory};

    ghost from_gives = { λ _ e. e ≡ Memory };

    fn from(_error: AllocFailed<T>) -> TreeError {
        TreeError::Memory
    }
}
