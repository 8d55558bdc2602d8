//! The nodes of rows, and where rows stand: what the maker adds, with its numbers in 32 bits.

ghost use Rattle.std.specs.Prelude.{◌≡◌, true, IfOk};
ghost use Rattle.id_table.specs.Rows.{arm, in_top};
ghost use Rattle.id_table.specs.declared.row.Node.TheVariants as variant;
ghost use Rattle.id_table.specs.declared.row.Node.TheVariants.{If, Arg, Next};
ghost use Rattle.id_table.specs.Nodes.{other_side, pair_node};

use crate::row::{Node, Region, Stand};
use id_value::{BinaryOp, Kind};
use std::alloc::AllocError;

/// The greatest number of 32 bits.
const GREATEST: usize = 0xffff_ffff;

/// The number in 32 bits. A greater one, which no text leads to, is told as want of memory.
pub fn short(number: usize) -> Result<u32, AllocError>
    ensures { IfOk result (λ n. n ≡ number) }
{
    if number <= GREATEST {
        Ok(number as u32)
    } else {
        Err(AllocError)
    }
}

/// The node of a definition. Takes no memory.
pub fn def_node(name: usize, head: u32, kind: Kind, body: usize) -> Result<Node, AllocError>
    ensures { IfOk result (λ n. n ≡ variant.Def name head kind body) }
{
    Ok(Node::Def {
        name: short(name)?,
        head,
        result: kind,
        body: short(body)?,
    })
}

/// The node of a conditional. Takes no memory.
pub fn if_node(split: u32, then: usize, otherwise: usize) -> Result<Node, AllocError>
    ensures { IfOk result (λ n. n ≡ If split then otherwise) }
{
    Ok(Node::If {
        split,
        then: short(then)?,
        otherwise: short(otherwise)?,
    })
}

/// A form of two expressions.
#[derive(Clone, Copy)]
pub enum Pairing {
    Binary { op: BinaryOp },
    Array { nested: bool },
    Fetch,
}

/// The node of this form with these parts. Takes no memory.
pub fn pair_node(form: Pairing, first: usize, second: usize) -> Node
    ensures { result ≡ pair_node form first second }
{
    match form {
        Pairing::Binary { op } => Node::Binary {
            op,
            left: first,
            right: second,
        },
        Pairing::Array { nested } => Node::Array {
            nested,
            low: first,
            high: second,
        },
        Pairing::Fetch => Node::Fetch {
            target: first,
            index: second,
        },
    }
}

/// The node of an argument. Takes no memory.
pub fn arg_node(enter: usize, index: usize, value: usize) -> Result<Node, AllocError>
    ensures { IfOk result (λ n. n ≡ Arg enter index value) }
{
    Ok(Node::Arg {
        enter: short(enter)?,
        index: short(index)?,
        value: short(value)?,
    })
}

/// The node of a `next` statement. Takes no memory.
pub fn next_node(name: usize, index: usize, outer: usize, value: usize) -> Result<Node, AllocError>
    ensures { IfOk result (λ n. n ≡ Next name index outer value) }
{
    Ok(Node::Next {
        name: short(name)?,
        index: short(index)?,
        outer: short(outer)?,
        value: short(value)?,
    })
}

/// Where the body of the procedure with this head stands.
pub fn stand_in(head: usize) -> Result<Stand, AllocError>
    ensures { IfOk result (λ s. s ≡ in_top head) }
{
    let head = short(head)?;
    Ok(Stand {
        block: head,
        region: Region { head, side: true },
    })
}

/// Where the true side of the switches at the row `split` stands.
pub fn in_arm(stand: Stand, split: usize) -> Result<Stand, AllocError>
    ensures { IfOk result (λ s. s ≡ arm stand split true) }
{
    let split = short(split)?;
    Ok(Stand {
        block: stand.block,
        region: Region {
            head: split,
            side: true,
        },
    })
}

/// Where the other side of the switches stands, behind their true side.
pub fn other_side(stand: Stand) -> Stand
    ensures { result ≡ other_side stand }
{
    Stand {
        block: stand.block,
        region: Region {
            head: stand.region.head,
            side: false,
        },
    }
}
