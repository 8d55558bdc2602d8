//! The graphs of the rows, made by hand.

use id_graph::{
    Arithmetic, Block, Comparison, Constant, Dest, Dests, Dyadic, Graph, Instr, Op, Others, Port,
    PortKind,
};
use id_valid::{Valid, validate};
use id_value::Sequence;
use std::alloc::{AllocError, Global};
use std::process::Abort;
use std::test::Fail;

/// An instruction: its operator, where it sends, its second list of destinations, and its place.
type Row<'a> = (Op, &'a [(u32, Port)], &'a [(u32, Port)], usize);

fn dests(alloc: Global, arcs: &[(u32, Port)]) -> Result<Dests, AllocError> {
    let mut dests = Dests::new(alloc);
    for (instr, port) in arcs {
        dests.push(Dest {
            instr: *instr,
            port: *port,
        })?;
    }
    Ok(dests)
}

fn others(alloc: Global, arcs: &[(u32, Port)]) -> Result<Others, AllocError> {
    let mut others = Others::none();
    for (instr, port) in arcs {
        let dest = Dest {
            instr: *instr,
            port: *port,
        };
        others.push(alloc, dest)?;
    }
    Ok(others)
}

/// Puts the instructions of these rows behind the list.
fn add(alloc: Global, list: &mut Vec<Instr>, rows: &[Row<'_>]) -> Result<(), AllocError> {
    for (op, first, second, place) in rows {
        list.push(Instr {
            op: *op,
            dests: dests(alloc, first)?,
            others: others(alloc, second)?,
            place: *place,
        })?;
    }
    Ok(())
}

fn instrs(alloc: Global, rows: &[Row<'_>]) -> Result<Vec<Instr>, AllocError> {
    let mut list = Vec::new(alloc);
    add(alloc, &mut list, rows)?;
    Ok(list)
}

fn number(n: i64) -> Op {
    Op::Const(Constant::Int(n))
}

/// The instructions of `def main(): int = 2 + 3 * 4;`, with this operator at 4, and 6 sending to this number.
pub(crate) fn sum_and_product(alloc: Global, four: Op, sum: u32) -> Result<Vec<Instr>, AllocError> {
    let trigger = [(3, Port::Zero), (4, Port::Zero), (5, Port::Zero)];
    instrs(
        alloc,
        &[
            (Op::Merge(PortKind::Int), &[], &[], 4),
            (Op::Merge(PortKind::Signal), &trigger, &[], 4),
            (Op::Back(PortKind::Int), &[], &[], 4),
            (number(2), &[(7, Port::Zero)], &[], 18),
            (four, &[(6, Port::Zero)], &[], 22),
            (number(4), &[(6, Port::One)], &[], 26),
            (
                Op::Binary(Dyadic::Arithmetic(Arithmetic::Mul)),
                &[(sum, Port::One)],
                &[],
                24,
            ),
            (
                Op::Binary(Dyadic::Arithmetic(Arithmetic::Add)),
                &[(2, Port::One)],
                &[],
                20,
            ),
        ],
    )
}

/// The instructions of `def main(): int = if true then 1 else 2;`, with this number in the false list of the switch.
/// The second list of 5 is no port of the graph, and is ignored.
pub(crate) fn either(alloc: Global, second: u32) -> Result<Vec<Instr>, AllocError> {
    let merge = Op::Merge(PortKind::Int);
    let truth = Op::Const(Constant::Bool(true));
    let switch = Op::Switch(PortKind::Signal);
    let trigger = [(3, Port::Zero), (4, Port::One)];
    instrs(
        alloc,
        &[
            (merge, &[], &[], 4),
            (Op::Merge(PortKind::Signal), &trigger, &[], 4),
            (Op::Back(PortKind::Int), &[], &[], 4),
            (truth, &[(4, Port::Zero)], &[], 21),
            (switch, &[(5, Port::Zero)], &[(second, Port::Zero)], 18),
            (number(1), &[(7, Port::Zero)], &[(8, Port::Zero)], 31),
            (number(2), &[(7, Port::Zero)], &[], 38),
            (merge, &[(2, Port::One)], &[], 18),
        ],
    )
}

/// The instructions of `def f(n: int): int = n; def main(): int = f(7);`, with these operators for the `enter` at 6 and
/// the `send` at 8. The block of f is 1 to 3, that of main 4 to 9, where 9 is the result of the call.
pub(crate) fn call(alloc: Global, enter: Op, send: Op) -> Result<Vec<Instr>, AllocError> {
    let merge = Op::Merge(PortKind::Int);
    let trigger = Op::Merge(PortKind::Signal);
    let back = Op::Back(PortKind::Int);
    let mut list = instrs(
        alloc,
        &[
            (merge, &[], &[], 28),
            (trigger, &[], &[], 4),
            (back, &[], &[], 4),
            (merge, &[(2, Port::One)], &[], 6),
        ],
    )?;
    add(
        alloc,
        &mut list,
        &[
            (trigger, &[(6, Port::Zero), (7, Port::Zero)], &[], 28),
            (back, &[], &[], 28),
            (enter, &[(8, Port::Zero)], &[], 42),
            (number(7), &[(8, Port::One)], &[], 44),
            (send, &[], &[], 42),
            (merge, &[(5, Port::One)], &[], 42),
        ],
    )?;
    Ok(list)
}

/// The instructions of `def main(n: int): int = { while n > 0 do next n = n - 1; finally n };`, as docs/GRAPH.md has
/// them. The block of main is 1 to 6, that of the loop 7 to 18, where 9 is its variable.
fn count_down(alloc: Global) -> Result<Vec<Instr>, AllocError> {
    let mut list = before_loop(alloc)?;
    add_predicate(alloc, &mut list)?;
    add_turns(alloc, &mut list)?;
    Ok(list)
}

/// 0 to 6, the answer and the block of main.
fn before_loop(alloc: Global) -> Result<Vec<Instr>, AllocError> {
    let merge = Op::Merge(PortKind::Int);
    let enter = Op::Enter { block: 7, reply: 6 };
    let send = Op::Send {
        kind: PortKind::Int,
        target: 9,
    };
    instrs(
        alloc,
        &[
            (merge, &[], &[], 4),
            (Op::Merge(PortKind::Signal), &[(4, Port::Zero)], &[], 4),
            (Op::Back(PortKind::Int), &[], &[], 4),
            (merge, &[(5, Port::One)], &[], 9),
            (enter, &[(5, Port::Zero)], &[], 24),
            (send, &[], &[], 24),
            (merge, &[(2, Port::One)], &[], 24),
        ],
    )
}

/// 7 to 13, what a turn of the loop begins with, its predicate, and the switches on that.
fn add_predicate(alloc: Global, list: &mut Vec<Instr>) -> Result<(), AllocError> {
    let trigger = [(10, Port::Zero), (12, Port::One)];
    let variable = [(11, Port::Zero), (13, Port::One)];
    let greater = Op::Binary(Dyadic::Comparison(Comparison::Gt));
    let signals = Op::Switch(PortKind::Signal);
    let numbers = Op::Switch(PortKind::Int);
    let within = [(14, Port::Zero), (15, Port::Zero)];
    let rows: [Row<'_>; 7] = [
        (Op::Merge(PortKind::Signal), &trigger, &[], 24),
        (Op::Back(PortKind::Int), &[], &[], 24),
        (Op::Merge(PortKind::Int), &variable, &[], 41),
        (number(0), &[(11, Port::One)], &[], 36),
        (greater, &[(12, Port::Zero), (13, Port::Zero)], &[], 34),
        (signals, &within, &[], 24),
        (numbers, &[(16, Port::Zero)], &[(18, Port::Zero)], 24),
    ];
    add(alloc, list, &rows)
}

/// 14 to 18, what goes to the next turn, and what leaves the loop.
fn add_turns(alloc: Global, list: &mut Vec<Instr>) -> Result<(), AllocError> {
    let less_one = Op::Binary(Dyadic::Arithmetic(Arithmetic::Sub));
    let rows: [Row<'_>; 5] = [
        (Op::Next(PortKind::Signal), &[(7, Port::Zero)], &[], 24),
        (number(1), &[(16, Port::One)], &[], 54),
        (less_one, &[(17, Port::Zero)], &[], 52),
        (Op::Next(PortKind::Int), &[(9, Port::Zero)], &[], 41),
        (Op::Reset(PortKind::Int), &[(8, Port::One)], &[], 24),
    ];
    add(alloc, list, &rows)
}

/// The blocks that begin at these numbers, each with its one entry.
fn blocks_of_one(alloc: Global, firsts: &[(u32, u32)]) -> Result<Vec<Block>, AllocError> {
    let mut list = Vec::new(alloc);
    for (first, entry) in firsts {
        let mut entries = Vec::new(alloc);
        entries.push(*entry)?;
        list.push(Block {
            first: *first,
            entries: Sequence::new(entries),
        })?;
    }
    Ok(list)
}

/// The graph of `count_down`.
pub(crate) fn countdown(rt: &impl Abort, alloc: Global) -> Result<Valid, Fail> {
    let blocks = blocks_of_one(alloc, &[(1, 3), (7, 9)])?;
    let list = count_down(alloc)?;
    assert!(rt; list.len() == 19);
    let graph = Graph::new(blocks, list)?;
    Ok(validate(alloc, graph)?)
}

/// The instructions of `def main(): int = 7;`.
fn only_seven(alloc: Global) -> Result<Vec<Instr>, AllocError> {
    instrs(
        alloc,
        &[
            (Op::Merge(PortKind::Int), &[], &[], 4),
            (Op::Merge(PortKind::Signal), &[(3, Port::Zero)], &[], 4),
            (Op::Back(PortKind::Int), &[], &[], 4),
            (number(7), &[(2, Port::One)], &[], 18),
        ],
    )
}

/// The one block, which begins at this number.
pub(crate) fn block(alloc: Global, first: u32) -> Result<Vec<Block>, AllocError> {
    let mut list = Vec::new(alloc);
    list.push(Block {
        first,
        entries: Sequence::new(Vec::new(alloc)),
    })?;
    Ok(list)
}

/// The blocks of `call`.
pub(crate) fn called_blocks(alloc: Global) -> Result<Vec<Block>, AllocError> {
    let mut list = Vec::new(alloc);
    let mut entries = Vec::new(alloc);
    entries.push(3)?;
    list.push(Block {
        first: 1,
        entries: Sequence::new(entries),
    })?;
    list.push(Block {
        first: 4,
        entries: Sequence::new(Vec::new(alloc)),
    })?;
    Ok(list)
}

/// The graph of `def main(): int = 7;`.
pub(crate) fn seven(rt: &impl Abort, alloc: Global) -> Result<Valid, Fail> {
    let blocks = block(alloc, 1)?;
    let list = only_seven(alloc)?;
    assert!(rt; list.len() == 4);
    let graph = Graph::new(blocks, list)?;
    Ok(validate(alloc, graph)?)
}

/// The instructions of `def main(): int = { x = 7; in x };`, where 3 sends its 7 to 4 three times.
fn seven_thrice(alloc: Global) -> Result<Vec<Instr>, AllocError> {
    let merge = Op::Merge(PortKind::Int);
    instrs(
        alloc,
        &[
            (merge, &[], &[], 4),
            (Op::Merge(PortKind::Signal), &[(3, Port::Zero)], &[], 4),
            (Op::Back(PortKind::Int), &[], &[], 4),
            (number(7), &[(4, Port::Zero); 3], &[], 24),
            (merge, &[(2, Port::One)], &[], 20),
        ],
    )
}

/// The graph of `seven_thrice`.
pub(crate) fn thrice(rt: &impl Abort, alloc: Global) -> Result<Valid, Fail> {
    let blocks = block(alloc, 1)?;
    let list = seven_thrice(alloc)?;
    assert!(rt; list.len() == 5);
    let graph = Graph::new(blocks, list)?;
    Ok(validate(alloc, graph)?)
}
