//! Where values come from (docs/GRAPH.md, "Sources").

ghost use Rattle.std.specs.Prelude.{◌≡◌, ◌<◌, ◌^◌};
ghost use Rattle.id_build.specs.Rows.{handed_by, name_in, named_in, node, origin, output, part_of, reply};
ghost use Rattle.id_build.specs.Rows.{same_region, trigger_of};
ghost use Rattle.id_build.specs.Passes.{program_of};

use crate::arc::Origin;
use crate::loops::{entries_row, home, label};
use crate::slots::{Slots, slot_of};
use id_desugar::{binder_at, row_at};
use id_table::{Node, Region};

/// What the first instruction of a row gives.
pub fn output(row: usize) -> Origin
    ensures { result ≡ output row }
{
    Origin {
        row,
        part: 0,
        side: true,
    }
}

/// What a fetch at a row gives.
fn reply(row: usize) -> Origin
    ensures { result ≡ reply row }
{
    Origin {
        row,
        part: 2,
        side: true,
    }
}

/// This part of a row, on its true side.
pub fn part_of(row: usize, part: usize) -> Origin
    ensures { result ≡ part_of row part }
{
    Origin {
        row,
        part,
        side: true,
    }
}

/// What turns a region on.
pub fn trigger_of(region: Region) -> Origin
    ensures { result ≡ trigger_of region }
{
    Origin {
        row: region.head as usize,
        part: 0,
        side: region.side,
    }
}

/// Where the value of the expression at a row comes from.
pub fn origin(slots: &Slots<'_>, expr: usize) -> Origin
    ensures origin { result ≡ origin (program_of slots.now) expr }
    ensures few { result.part < 2 ^ 62 }
{
    let checked = slots.kernel.checked;
    let value = row_at(checked, expr).value as usize;
    let row = row_at(checked, value);
    match row.node {
        Node::Name { .. } => named_in(slots, row.region, value, binder_at(checked, value)),
        Node::Fetch { .. } => reply(value),
        _ => output(value),
    }
}

/// Where the value of the name at a row comes from, in its region, which has this binder.
fn named_in(slots: &Slots<'_>, region: Region, name: usize, binder: Option<usize>) -> Origin
    ensures origin { result ≡ named_in (program_of slots.now) region name binder }
    ensures few { result.part < 2 ^ 62 }
{
    match binder {
        Some(binder) => name_in(slots, region, binder),
        None => output(name),
    }
}

/// Where the value of a binder comes from in a region.
#[inline(always)]
pub fn name_in(slots: &Slots<'_>, region: Region, binder: usize) -> Origin
    ensures origin { result ≡ name_in (program_of slots.now) region binder }
    ensures few { result.part < 2 ^ 62 }
{
    let checked = slots.kernel.checked;
    if same_region(row_at(checked, home(checked, binder)).region, region) {
        output(label(checked, binder))
    } else {
        handed(slots, region, binder)
    }
}

/// Where the head of a region hands in the value of a binder.
fn handed(slots: &Slots<'_>, region: Region, binder: usize) -> Origin
    ensures origin { result ≡ handed_by (program_of slots.now) region binder (node (program_of slots.now) region.head) }
    ensures few { result.part < 2 ^ 62 }
{
    let slot = slot_of(slots, region.head as usize, binder);
    match row_at(slots.kernel.checked, region.head as usize).node {
        Node::LoopHead { .. } => Origin {
            row: entries_row(slots.kernel, region.head as usize),
            part: slot,
            side: true,
        },
        _ => Origin {
            row: region.head as usize,
            part: slot + 1,
            side: region.side,
        },
    }
}

fn same_region(left: Region, right: Region) -> bool
    ensures { result ≡ same_region left right }
{
    left.head == right.head && left.side == right.side
}
