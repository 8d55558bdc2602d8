//! Where values come from, and arcs.

use id_instr::{Op, Port, PortKind};

/// Where a value comes from: the instruction that is this part of a row's, and which side of it; what is no
/// switch has the true side alone.
#[derive(Clone, Copy)]
pub struct Origin {
    pub row: usize,
    pub part: usize,
    pub side: bool,
}

/// What feeds a row's instruction, its part of this number, at a port.
#[derive(Clone, Copy)]
pub struct Feed {
    pub origin: Origin,
    pub part: usize,
    pub port: Port,
}

/// An arc between instructions by their numbers.
#[derive(Clone, Copy)]
pub struct Arc {
    pub from: usize,
    pub side: bool,
    pub to: usize,
    pub port: Port,
}

/// An operator, where what names other instructions names them by row and part.
#[derive(Clone, Copy)]
pub enum Form {
    Plain(Op),
    /// An `enter` of the block with this head, whose result comes to the call or the loop at the row `call`.
    EnterAt {
        head: usize,
        call: usize,
    },
    /// A `send` of values of a kind to an entry: a part of a row.
    SendTo {
        kind: PortKind,
        row: usize,
        part: usize,
    },
    /// The `fetch` of the fetch at the row `row`, from a structure that is nested or not, whose reply comes to the last
    /// part of it.
    FetchAt {
        nested: bool,
        row: usize,
    },
}

/// An instruction without its arcs.
#[derive(Clone, Copy)]
pub struct Piece {
    pub form: Form,
    pub place: usize,
}
