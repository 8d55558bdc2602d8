//! Instructions with their arcs (docs/GRAPH.md, "Schemas").

ghost use Rattle.std.specs.Prelude.{◌≡◌, ◌<◌, ◌^◌, ◌++◌, [], fold, length, vec_len, OnOk, All};
ghost use Rattle.id_build.specs.Rows.{op_by};
ghost use Rattle.id_build.specs.Made.{Fits, instrs_from, IsBetween, connected, number_by, with_dest};
ghost use Rattle.id_build.specs.Passes.{firsts_of};

use crate::arc::{Arc, Form, Piece};
use crate::slots::{Slots, number_at};
use id_instr::{Dest, Dests, Instr, Op, Others};
use std::alloc::{AllocError, Global};

/// Adds the instructions of these pieces, without arcs.
pub fn push_bare(
    alloc: Global,
    slots: &Slots<'_>,
    pieces: &[Piece],
    instrs: &mut Vec<Instr>,
) -> Result<(), AllocError>
    requires { All (λ p. Fits (firsts_of slots.now) p.form) pieces.now }
    ensures { OnOk result (instrs.new.items ≡ instrs.old.items ++ instrs_from (firsts_of slots.now) 0 pieces.now []) }
{
    for piece in pieces {
        instrs.push(Instr {
            op: op_by(slots, piece.form),
            dests: Dests::new(alloc),
            others: Others::none(),
            place: piece.place,
        })?;
    }
    Ok(())
}

/// The operator of this form.
fn op_by(slots: &Slots<'_>, form: Form) -> Op
    requires { Fits (firsts_of slots.now) form }
    ensures { result ≡ op_by (number_by (firsts_of slots.now)) form }
{
    match form {
        Form::Plain(op) => op,
        Form::EnterAt { head, call } => Op::Enter {
            block: number_at(slots, head) as u32,
            reply: number_at(slots, call) as u32,
        },
        Form::SendTo { kind, row, part } => Op::Send {
            kind,
            target: (number_at(slots, row) + part) as u32,
        },
        Form::FetchAt { nested, row } => Op::Fetch {
            nested,
            reply: (number_at(slots, row) + 2) as u32,
        },
    }
}

/// Adds the arcs to the instructions that they come from.
pub fn connect_all(alloc: Global, instrs: &mut Vec<Instr>, arcs: &[Arc]) -> Result<(), AllocError>
    requires from { All (IsBetween (length instrs.old.items)) arcs.now }
    requires few { length instrs.old.items < 2 ^ 32 }
    ensures { OnOk result (instrs.new.items ≡ fold connected instrs.old.items arcs.now) }
{
    for arc in arcs {
        connect(alloc, instrs, arc)?;
    }
    Ok(())
}

/// Adds an arc to the instruction that it comes from.
fn connect(alloc: Global, instrs: &mut Vec<Instr>, arc: &Arc) -> Result<(), AllocError>
    requires from { arc.now.from < vec_len instrs.old }
    requires to { arc.now.to < 2 ^ 32 }
    ensures { OnOk result (instrs.new.items ≡ connected instrs.old.items arc.now) }
{
    let dest = Dest {
        instr: arc.to as u32,
        port: arc.port,
    };
    add_dest(alloc, &mut instrs[arc.from], arc.side, dest)
}

/// Adds a destination on a side of an instruction.
#[inline]
fn add_dest(alloc: Global, instr: &mut Instr, side: bool, dest: Dest) -> Result<(), AllocError>
    ensures { OnOk result (instr.new ≡ with_dest side instr.old dest) }
{
    if side {
        instr.dests.push(dest)
    } else {
        instr.others.push(alloc, dest)
    }
}
