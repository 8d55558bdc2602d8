//! Where a kernel's instructions and imports stand: the number of each row's first instruction, and where an import is
//! among those of its head, by a look through the list where it is short, and else by one look-up for each use
//! (docs/GRAPH.md, "Sources").

ghost use Rattle.std.specs.Prelude.{◌≡◌, ◌<◌, ◌≤◌, ◌^◌, None, IfOk, OnOk};
ghost use Rattle.std.specs.HashMap.{get};
ghost use Rattle.std.specs.Option.{option_or};
ghost use Rattle.std.proofs.Props.{props};
ghost use Rattle.id_desugar.specs.Regions.{imports_of, order_of};
ghost use Rattle.id_build.specs.Made.{AreFirsts, number_by};
ghost use Rattle.id_build.specs.Rows.{size, slot_of};
ghost use Rattle.id_build.specs.Slots.{AreNoted, AreShort, noted, noted_all, same_import};

use crate::loops::imports_at;
use id_desugar::{Kernel, MOST};
use std::alloc::{AllocError, Global};
use std::collections::HashMap;

/// Up to so many imports of a head, one is looked for in the list itself. Most heads have fewer.
const SHORT: usize = 16;

/// A binder that a head imports.
#[derive(Clone, Copy, PartialEq, Eq, Hash)]
pub struct Import {
    pub head: u32,
    pub binder: u32,
}

/// A kernel, lent, with where its instructions and imports stand: what the passes over its rows go by.
///
/// Keeps: the kernel's graph has at most 1,000,000 instructions; `firsts` has the numbers that they get in the kernel's
/// order; `numbers` has for each head with more than `SHORT` imports how many of them stand before each.
#[derive(Drop)]
pub struct Slots<'k> {
    pub kernel: &'k Kernel<'k>,
    /// For each row the number of its first instruction.
    pub firsts: Vec<u32>,
    pub numbers: HashMap<Import, u32>,
    pub ghost few: { size kernel.now.checked.now ≤ 1000000 } by { Prim.hlevel props },
    pub ghost numbered: { AreFirsts kernel.now.checked.now (order_of kernel.now.checked.now)
        firsts.items } by { Prim.hlevel props },
    pub ghost short: { AreShort (get same_import numbers) } by { Prim.hlevel props },
    pub ghost placed: { AreNoted kernel.now.checked.now (get same_import numbers) } by { Prim.hlevel props },
}

/// The slots of this kernel, whose rows' first instructions have these numbers.
pub fn find_slots<'k>(
    alloc: Global,
    kernel: &'k Kernel<'k>,
    firsts: Vec<u32>,
) -> Result<Slots<'k>, AllocError>
    requires few { size kernel.now.checked.now ≤ 1000000 }
    requires firsts { AreFirsts kernel.now.checked.now (order_of kernel.now.checked.now) firsts.items }
    ensures { IfOk result (λ s. s.kernel.now.checked.now ≡ kernel.now.checked.now) }
{
    let count = kernel.imports.listed();
    if count > MOST {
        return Err(AllocError);
    }
    let mut numbers = HashMap::new(alloc);
    for head in 0..count {
        let imports = imports_at(kernel, head);
        if imports.len() > SHORT {
            note_all(&mut numbers, head as u32, imports)?;
        }
    }
    Ok(Slots {
        kernel,
        firsts,
        numbers,
    })
}

/// Notes where the binders stand that a head imports, where nothing was noted yet.
fn note_all(
    numbers: &mut HashMap<Import, u32>,
    head: u32,
    imports: &[u32],
) -> Result<(), AllocError>
    requires { AreShort (get same_import numbers.old) }
    ensures short { OnOk result (AreShort (get same_import numbers.new)) }
    ensures numbers { OnOk result ((i : Import) → get same_import numbers.new i
        ≡ option_or (get same_import numbers.old i) (noted_all head imports.now i)) }
{
    if imports.len() > MOST {
        return Err(AllocError);
    }
    for (slot, binder) in imports.iter().enumerate() {
        let import = Import {
            head,
            binder: *binder,
        };
        note(numbers, import, slot as u32)?;
    }
    Ok(())
}

/// Notes where an import stands, where nothing was noted yet.
fn note(numbers: &mut HashMap<Import, u32>, import: Import, slot: u32) -> Result<(), AllocError>
    ensures { OnOk result ((i : Import) → get same_import numbers.new i
        ≡ option_or (get same_import numbers.old i) (noted import slot i)) }
{
    if numbers.get(&import).is_none() {
        numbers.insert(import, slot)?;
    }
    Ok(())
}

/// How many stand before the binder among those that a head imports.
pub fn slot_of(slots: &Slots<'_>, head: usize, binder: usize) -> usize
    ensures slot { result ≡ slot_of (imports_of slots.now.kernel.now.checked.now head) binder }
    ensures within { result < 2 ^ 61 }
{
    let imports = imports_at(slots.kernel, head);
    if imports.len() <= SHORT {
        return position(imports, binder);
    }
    let count = imports.len();
    if head > MOST || binder > MOST {
        return count;
    }
    let import = Import {
        head: head as u32,
        binder: binder as u32,
    };
    match slots.numbers.get(&import) {
        Some(slot) => *slot as usize,
        None => count,
    }
}

/// The number of the first instruction of a row.
pub fn number_at(slots: &Slots<'_>, row: usize) -> usize
    ensures number { result ≡ number_by slots.now.firsts.items row 0 }
    ensures few { result < 2 ^ 32 }
{
    match slots.firsts.get(row) {
        Some(number) => *number as usize,
        None => 0,
    }
}

/// How many of these rows stand before the first that is this one.
fn position(rows: &[u32], wanted: usize) -> usize
    ensures { result ≡ slot_of rows.now wanted }
{
    for (slot, row) in rows.iter().enumerate() {
        if *row as usize == wanted {
            return slot;
        }
    }
    rows.len()
}
