//! Rows and the table that they stand in.

ghost use Rattle.std.proofs.Props.{props};
ghost use Rattle.id_table.specs.Tables.{AreNamed, IsFormed, IsNested};

use id_text::Identifier;
use id_value::{BinaryOp, Constant, Kind, UnaryOp};

/// A stretch of rows that is turned on as a whole, by one side of what its head makes: the body of a
/// procedure by its `Head`, an arm of a conditional by its `Split`; a loop's beginning by its `LoopHead`, its body
/// by the true side of its `Switches`, and what is behind its body by the false side.
#[derive(Clone, Copy, PartialEq, Eq)]
pub struct Region {
    pub head: u32,
    pub side: bool,
}

/// Where parts stand: in the block of the graph with this head, in this region of it.
#[derive(Clone, Copy)]
pub struct Stand {
    pub block: u32,
    pub region: Region,
}

/// A part of the program. Its own parts are the rows from `first` up to it. Its numbers are of 32 bits, since the rows
/// are the largest thing that the front end makes.
#[derive(Clone, Copy)]
pub struct Row {
    /// The byte offset of its head token; a marker has that of its construct, `Program` has 0.
    pub place: u32,
    pub first: u32,
    /// The row of the head of the block of the graph that it stands in.
    pub block: u32,
    pub region: Region,
    /// The row that gives its value: a block's is its body's, any other's itself.
    pub value: u32,
    pub node: Node,
}

/// What a part is. It names its own parts by the numbers of their rows, and names by their numbers. Where there are
/// three numbers they have 32 bits, so that a node takes 24 bytes, and a row 48.
#[derive(Clone, Copy)]
pub enum Node {
    /// The beginning of a definition: its trigger and its way back.
    Head,
    Param {
        name: usize,
        kind: Kind,
    },
    Literal {
        value: Constant,
    },
    Name {
        name: usize,
    },
    Unary {
        op: UnaryOp,
        operand: usize,
    },
    Binary {
        op: BinaryOp,
        left: usize,
        right: usize,
    },
    /// The switches of a conditional, at its place, behind the predicate and before the arms.
    Split {
        test: usize,
    },
    /// A conditional behind its arms: the row of its switches, and what gives its value where the predicate is true,
    /// and where it is not.
    If {
        split: u32,
        then: u32,
        otherwise: u32,
    },
    /// The beginning of a call, at its place: the context that it makes for the procedure of this name.
    Enter {
        name: usize,
    },
    /// What an argument sends to the parameter of its index, from 0, at the call's place, right behind the argument:
    /// the row of the call's `Enter`, and what gives the value.
    Arg {
        enter: u32,
        index: u32,
        value: u32,
    },
    /// A call behind its arguments: the row of its `Enter`, and how many arguments it has.
    Call {
        enter: usize,
        count: usize,
    },
    /// The bounds of an index, behind them, outside of the loop and right before its `Start`: whether the lower one is
    /// at most the upper one, and the first index where it is.
    Bounds {
        low: usize,
        high: usize,
    },
    /// The beginning of a loop, outside of it: the context that it makes for the loop, and what is sent into it.
    Start,
    /// The head of a loop's block: its trigger and its way back. The row before it is the `Start`.
    LoopHead {
        start: usize,
    },
    /// The entry of what a `for` carries on beside its variables, right behind the `LoopHead`: first the index, at its
    /// name, then the upper bound, then the flag, whether there is an index in the iteration.
    Carried {
        kind: Kind,
    },
    /// The entry of a variable of the loop, at the word of its `Next`, which has its name; they stand behind the
    /// `LoopHead` and what a `for` carries on, in the order of their `Next`s.
    Variable,
    /// The entries of the names that the loop imports.
    Entries,
    /// What a `for` has in the place of a predicate: the row of the entry of its flag, which gives its value; it makes
    /// nothing.
    Within {
        flag: usize,
    },
    /// The switches of a loop, behind the predicate and before the body.
    Switches {
        test: usize,
    },
    /// The next index and the next flag of a `for`, right behind its switches.
    Count,
    /// What hands the trigger, what a `for` carries on, and the imported names on to the next iteration, at the
    /// beginning of the body.
    Turn,
    /// The index of a `for`, at its name, behind the `Turn`; it makes nothing, since its value comes to its entry.
    Index {
        name: usize,
    },
    /// The use that a `next` statement makes of the name outside of the loop, for the first value; it makes nothing.
    NextUse {
        name: usize,
    },
    /// A `next` statement behind its expression: how many entries stand before that of its variable, the row of its
    /// `NextUse`, and what gives the value.
    Next {
        name: u32,
        index: u32,
        outer: u32,
        value: u32,
    },
    /// The end of a loop's body, in which its bindings are seen; it makes nothing.
    Body,
    /// What sends the value of the last expression out of the loop, right behind that.
    Reset {
        value: usize,
    },
    /// The end of the rows in which a loop's variables are seen, outside of it and behind its `Reset`; it makes
    /// nothing.
    Span,
    /// A loop behind its `Span`, outside of it: the rows of its `LoopHead` and its `Switches`, and what gives the
    /// value where the predicate is not true, or there is no index.
    Loop {
        head: u32,
        switches: u32,
        last: u32,
    },
    /// What makes a structure, which is nested or not: the rows of its bounds.
    Array {
        nested: bool,
        low: usize,
        high: usize,
    },
    Fetch {
        target: usize,
        index: usize,
    },
    /// The address of the cell that a store fills, at the place of the store, behind the index and before the value.
    Address {
        target: usize,
        index: usize,
    },
    /// A store behind its value: the row of its `Address`, and what gives the value.
    Store {
        address: usize,
        value: usize,
    },
    /// Statements in whatever order, and the body that gives the value.
    Block {
        body: usize,
    },
    Binding {
        name: usize,
        value: usize,
    },
    Def {
        name: u32,
        head: u32,
        result: Kind,
        body: u32,
    },
    /// The end of the table: the answer.
    Program,
}

/// The parts of a program: its rows, and the names in them, each once. The name of number 0 is `main`.
#[derive(Drop)]
pub struct Table {
    pub rows: Vec<Row>,
    pub names: Vec<Identifier>,
    pub ghost formed: { IsFormed rows.items } by { Prim.hlevel props },
    pub ghost nested: { IsNested rows.items } by { Prim.hlevel props },
    pub ghost named: { AreNamed rows.items names.items } by { Prim.hlevel props },
}
