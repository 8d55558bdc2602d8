//! How many loops are round each row, and how many arguments each call has: both are found in one pass over the rows,
//! since each pass over them costs.

ghost use Rattle.std.specs.Prelude.{◌≡◌, ◌+◌, length, IfOk, OnOk, Some};
ghost use Rattle.std.specs.Option.{option_or};
ghost use Rattle.id_table.specs.Lent.{list_of};
ghost use Rattle.id_table.specs.Loops.{depth};
ghost use Rattle.id_check.specs.Counts.{AreCounts};
ghost use Rattle.id_check.specs.Depths.{AreDepths};

use id_table::{Node, Rows};
use std::alloc::{AllocError, Global};

/// The most loops that a row may be in, and the most arguments that are counted. No text comes near it.
const MOST: usize = 0xffff_ffff;

/// What is counted in the rows of a program.
#[derive(Drop)]
pub struct Numbers {
    /// How many loops of its procedure each row is in.
    pub depths: Vec<u32>,
    /// The number of arguments of the call with each `Enter`, by row.
    pub counts: Vec<Option<u32>>,
}

/// How many loops each row is in, and how many arguments each call has.
#[inline(never)]
pub fn find_numbers(alloc: Global, rows: &Rows<'_>) -> Result<Numbers, AllocError>
    ensures depths { IfOk result (λ n. AreDepths (list_of rows.now) (length (list_of rows.now)) n.depths.items) }
    ensures counts { IfOk result (λ n. AreCounts (list_of rows.now) (length (list_of rows.now)) n.counts.items) }
{
    let mut counts = vec![in alloc; None; rows.len()]?;
    let mut depths = Vec::with_capacity(alloc, rows.len())?;
    for i in 0..rows.len() {
        count_call(rows, &mut counts, i)?;
        let depth = depth_of(rows, depths.as_slice(), i);
        if depth > MOST {
            return Err(AllocError);
        }
        depths.push(depth as u32)?;
    }
    Ok(Numbers { depths, counts })
}

/// How many loops the row is in, where the depths of the rows before it are known: one more than the `Start` of the
/// innermost one is, if there is one. Takes no memory.
fn depth_of(rows: &Rows<'_>, depths: &[u32], i: usize) -> usize
    requires { AreDepths (list_of rows.now) i depths.now }
    ensures { result ≡ depth (list_of rows.now) i }
{
    match rows.at(rows.at(i).block as usize).node {
        Node::LoopHead { start } => depths[start] as usize + 1,
        _ => 0,
    }
}

/// Notes the number of a row's arguments, if it is a call. Takes no memory.
fn count_call(rows: &Rows<'_>, counts: &mut Vec<Option<u32>>, i: usize) -> Result<(), AllocError>
    requires { AreCounts (list_of rows.now) i counts.old.items }
    ensures { OnOk result (AreCounts (list_of rows.now) (i + 1) counts.new.items) }
{
    if let Node::Call { enter, count } = rows.at(i).node {
        if count > MOST {
            return Err(AllocError);
        }
        counts[enter] = first_count(counts[enter], count as u32);
    }
    Ok(())
}

/// The first of the two numbers.
fn first_count(earlier: Option<u32>, count: u32) -> Option<u32>
    ensures { result ≡ option_or earlier (Some count) }
{
    match earlier {
        Some(earlier) => Some(earlier),
        None => Some(count),
    }
}
