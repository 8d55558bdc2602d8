//! Instructions and blocks (docs/GRAPH.md, "Operators").

ghost use Rattle.std.specs.Prelude.{◌≡◌};
ghost use Rattle.id_instr.specs.Ports.{constant_kind, operand_kind, outcome_kind, port_kind, sends, two_ports};
ghost use Rattle.id_instr.specs.Ports.{two_sides, unary_kind};
ghost use Rattle.id_instr.specs.Graph.{false_arcs};

use crate::dests::{Dest, Dests, Others, Port};
use id_value::{Arithmetic, Comparison, Constant, Sequence, Truth, UnaryOp};

/// The kind of what a port takes.
#[derive(Clone, Copy, Debug, PartialEq, Eq)]
pub enum PortKind {
    Signal,
    Int,
    Bool,
    /// A structure whose cells hold numbers.
    Structure,
    /// A nested structure, whose cells hold such structures.
    Structures,
    /// The address of a cell of a structure that is not nested.
    Address,
    /// The address of a cell of a nested structure.
    Addresses,
    Context,
    Continuation,
}

impl PortKind {
    ghost use Rattle.id_instr.specs.Held.{address_kind, held_kind, structure_kind};

    /// The kind of what a cell of a structure holds, by whether that is nested. Takes no memory.
    #[inline(always)]
    pub fn of_held(nested: bool) -> PortKind
        ensures { result ≡ held_kind nested }
    {
        if nested {
            PortKind::Structure
        } else {
            PortKind::Int
        }
    }

    /// The kind of the ports that take a structure, by whether it is nested. Takes no memory.
    #[inline(always)]
    pub fn of_structure(nested: bool) -> PortKind
        ensures { result ≡ structure_kind nested }
    {
        if nested {
            PortKind::Structures
        } else {
            PortKind::Structure
        }
    }

    /// The kind of the ports that take the address of a cell of a structure, by whether that is nested. Takes no
    /// memory.
    #[inline(always)]
    pub fn of_address(nested: bool) -> PortKind
        ensures { result ≡ address_kind nested }
    {
        if nested {
            PortKind::Addresses
        } else {
            PortKind::Address
        }
    }
}

/// An operator on two values, by class.
#[derive(Clone, Copy, PartialEq, Eq)]
pub enum Dyadic {
    /// From two numbers to a number.
    Arithmetic(Arithmetic),
    /// From two numbers to a truth value.
    Comparison(Comparison),
    /// From two truth values to one.
    Truth(Truth),
}

impl Dyadic {
    /// The kind of its operands. Takes no memory.
    pub fn operand_kind(self) -> PortKind
        ensures { result ≡ operand_kind self }
    {
        match self {
            Dyadic::Arithmetic(_) | Dyadic::Comparison(_) => PortKind::Int,
            Dyadic::Truth(_) => PortKind::Bool,
        }
    }

    /// The kind of its result. Takes no memory.
    pub fn outcome_kind(self) -> PortKind
        ensures { result ≡ outcome_kind self }
    {
        match self {
            Dyadic::Arithmetic(_) => PortKind::Int,
            Dyadic::Comparison(_) | Dyadic::Truth(_) => PortKind::Bool,
        }
    }
}

/// What an instruction does.
#[derive(Clone, Copy, PartialEq, Eq)]
pub enum Op {
    /// Sends its constant when a signal comes.
    Const(Constant),
    /// An operator on one value.
    Unary(UnaryOp),
    /// An operator on two values.
    Binary(Dyadic),
    /// Sends on whatever comes, of one kind.
    Merge(PortKind),
    /// Sends a value of one kind to its first list of destinations where a truth value is true, and
    /// to its second list where it is false.
    Switch(PortKind),
    /// Sends a value of one kind to the continuation that came with it.
    Back(PortKind),
    /// Makes a context, sends it on, and starts the block with this first instruction in it; what
    /// the block gives comes back to the instruction `reply`.
    Enter { block: u32, reply: u32 },
    /// Sends a value of one kind to an entry, the instruction `target`, in the context that came
    /// with it.
    Send { kind: PortKind, target: u32 },
    /// Sends on whatever comes, of one kind, at the next iteration.
    Next(PortKind),
    /// Sends on whatever comes, of one kind, at iteration 0.
    Reset(PortKind),
    /// Makes a structure, nested or not, from its two bounds.
    Alloc { nested: bool },
    /// Makes an address from a structure, nested or not, and a number.
    Address { nested: bool },
    /// Asks for the value of the cell at an address, of a structure that is nested or not; that value comes to the
    /// instruction `reply`.
    Fetch { nested: bool, reply: u32 },
    /// Stores what it holds in the cell at an address: a structure in one of a nested structure, else a number.
    Store { nested: bool },
}

impl Op {
    /// Whether the operator has a second port; each has a first. Takes no memory.
    pub fn two_ports(self) -> bool
        ensures { result ≡ two_ports self }
    {
        self.port_kind(Port::One).is_some()
    }

    /// The kind of what a port takes, if the operator has that port. Takes no memory.
    pub fn port_kind(self, port: Port) -> Option<PortKind>
        ensures { result ≡ port_kind self port }
    {
        match (self, port) {
            (Op::Const(_) | Op::Enter { .. }, Port::Zero) => Some(PortKind::Signal),
            (Op::Unary(operator), Port::Zero) => Some(unary_kind(operator)),
            (Op::Binary(operator), _) => Some(operator.operand_kind()),
            (Op::Merge(kind) | Op::Next(kind) | Op::Reset(kind), Port::Zero) => Some(kind),
            (Op::Switch(_), Port::Zero) => Some(PortKind::Bool),
            (Op::Switch(kind) | Op::Back(kind) | Op::Send { kind, .. }, Port::One) => Some(kind),
            (Op::Back(_), Port::Zero) => Some(PortKind::Continuation),
            (Op::Send { .. }, Port::Zero) => Some(PortKind::Context),
            (Op::Alloc { .. }, _) | (Op::Address { .. }, Port::One) => Some(PortKind::Int),
            (Op::Address { nested }, Port::Zero) => Some(PortKind::of_structure(nested)),
            (Op::Fetch { nested, .. } | Op::Store { nested }, Port::Zero) => {
                Some(PortKind::of_address(nested))
            }
            (Op::Store { nested }, Port::One) => Some(PortKind::of_held(nested)),
            (Op::Const(_) | Op::Unary(_) | Op::Merge(_) | Op::Enter { .. }, Port::One) => None,
            (Op::Next(_) | Op::Reset(_) | Op::Fetch { .. }, Port::One) => None,
        }
    }

    /// The kind of what the operator sends to its destinations, if it sends anything there.
    /// Takes no memory.
    pub fn sends(self) -> Option<PortKind>
        ensures { result ≡ sends self }
    {
        match self {
            Op::Const(constant) => Some(constant_kind(constant)),
            Op::Unary(operator) => Some(unary_kind(operator)),
            Op::Binary(operator) => Some(operator.outcome_kind()),
            Op::Merge(kind) | Op::Switch(kind) | Op::Next(kind) | Op::Reset(kind) => Some(kind),
            Op::Enter { .. } => Some(PortKind::Context),
            Op::Alloc { nested } => Some(PortKind::of_structure(nested)),
            Op::Address { nested } => Some(PortKind::of_address(nested)),
            Op::Back(_) | Op::Send { .. } | Op::Fetch { .. } | Op::Store { .. } => None,
        }
    }

    /// Whether the operator has two sides, each with its destinations: a switch alone has. Takes no
    /// memory.
    pub fn two_sides(self) -> bool
        ensures { result ≡ two_sides self }
    {
        matches!(self, Op::Switch(_))
    }
}

/// The kind of a constant.
fn constant_kind(constant: Constant) -> PortKind
    ensures { result ≡ constant_kind constant }
{
    match constant {
        Constant::Int(_) => PortKind::Int,
        Constant::Bool(_) => PortKind::Bool,
    }
}

/// The kind of the operand and of the result of an operator on one value.
fn unary_kind(operator: UnaryOp) -> PortKind
    ensures { result ≡ unary_kind operator }
{
    match operator {
        UnaryOp::Neg => PortKind::Int,
        UnaryOp::Not => PortKind::Bool,
    }
}

/// An instruction: what it does, where its results go, and the place in the text that it came from.
/// `others` is the false side of a switch, and is ignored elsewhere.
#[derive(Drop)]
pub struct Instr {
    pub op: Op,
    pub dests: Dests,
    pub others: Others,
    pub place: usize,
}

impl Instr {
    /// The second list of destinations, as far as it counts: of a switch. Takes no memory.
    pub fn false_arcs(&self) -> &[Dest]
        ensures { result.now ≡ false_arcs self.now }
    {
        if self.op.two_sides() {
            self.others.as_slice()
        } else {
            &[]
        }
    }
}

/// A block: the number of its first instruction, and those of its entries.
#[derive(Drop)]
pub struct Block {
    pub first: u32,
    pub entries: Sequence<u32>,
}
