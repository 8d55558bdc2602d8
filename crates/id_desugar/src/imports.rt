//! The names that regions import (docs/GRAPH.md, "Imports"). First what each construct uses from outside: that of an
//! inner one is found before that of the one round it, which takes it over. A loop's own first values are among it,
//! since what is round the loop uses them; they are no imports of the loop, which are gathered after that.

ghost use Rattle.std.specs.Prelude.{◌≡◌, ◌↔◌, IsTrue, ◌≤◌, ◌<◌, ◌+◌, ◌⊎◌};
ghost use Rattle.std.specs.Prelude.{true, [], length, get_or};
ghost use Rattle.std.specs.Prelude.{◌++◌, replicate, IfOk, IfSome, OnOk, Some, None};
ghost use Rattle.id_check.specs.Programs as programs;
ghost use Rattle.id_desugar.specs.Ends.{end_row};
ghost use Rattle.id_desugar.specs.Regions.{all_imports, imports, imports_of, is_loop_head, nexts_of, taken, with_use};
ghost use Rattle.id_desugar.specs.Gathering.{AllCount, AreFilled, AreGathered, AreMarked, AreMarks, AreNotedTo};
ghost use Rattle.id_desugar.specs.Gathering.{AreTurned, EndsNothing, is_opening, used_in, with_uses};
ghost use Rattle.id_value.specs.List.{Among};
ghost use Rattle.id_table.specs.Rows.{at};
ghost use Rattle.id_table.specs.Tables as table;

use crate::access::{
    first_variable, has_index, is_opening, is_variable, may_import, row_at, used_at,
};
use crate::ends::{Ends, EndsAndNexts, begun_at};
use crate::list::{AllImports, Imports};
use id_check::Checked;
use id_table::Node;
use std::alloc::{AllocError, Global};

/// The rows from `lo` up to `hi`, of which uses are gathered: first values of the loop with the head `own`, if one is
/// given, do not count. What is noted gets the mark.
#[derive(Clone, Copy)]
struct Span {
    lo: usize,
    hi: usize,
    own: Option<usize>,
    mark: u32,
}

/// The imports of each row: none but those of conditionals, loops and their switches.
pub fn all_imports(alloc: Global, spans: &EndsAndNexts<'_>) -> Result<AllImports, AllocError>
    ensures { IfOk result (λ a. a ≡ all_imports spans.now.ends.checked.now) }
{
    let checked = spans.ends.checked;
    if import_nothing(checked) {
        return Ok(AllImports::none(checked.table.rows.len()));
    }
    let lists = all_lists(alloc, spans)?;
    Ok(AllImports::new(lists))
}

/// Whether no row may import anything. Takes no memory.
fn import_nothing(checked: &Checked) -> bool
    ensures { IsTrue result → all_imports checked.now ≡ replicate (length (programs.rows checked.now)) [] }
{
    for row in 0..checked.table.rows.len() {
        if may_import(row_at(checked, row).node) {
            return false;
        }
    }
    true
}

/// The list of each row.
fn all_lists(alloc: Global, spans: &EndsAndNexts<'_>) -> Result<Vec<Imports>, AllocError>
    ensures { IfOk result (λ v. v.items ≡ all_imports spans.now.ends.checked.now) }
{
    let count = spans.ends.checked.table.rows.len();
    let mut lists = all_uses(alloc, &spans.ends)?;
    let mut marks = vec![in alloc; 0u32; count]?;
    for row in 0..count {
        turn(alloc, spans, &mut lists, &mut marks, row)?;
    }
    Ok(lists)
}

/// What each construct uses from outside, by the row where it begins.
fn all_uses(alloc: Global, ends: &Ends<'_>) -> Result<Vec<Imports>, AllocError>
    ensures { let P = ends.now.checked.now in IfOk result (λ v. AreFilled P (length (programs.rows P)) v.items) }
{
    let count = ends.checked.table.rows.len();
    let mut lists = none_yet(alloc, count)?;
    let mut marks = vec![in alloc; 0u32; count]?;
    for end in 0..count {
        fill(alloc, ends, &mut lists, &mut marks, end)?;
    }
    Ok(lists)
}

/// So many empty lists.
fn none_yet(alloc: Global, count: usize) -> Result<Vec<Imports>, AllocError>
    ensures { IfOk result (λ v. (length v.items ≡ count) × ((h : _) → get_or v.items h [] ≡ [])) }
{
    let mut lists = Vec::with_capacity(alloc, count)?;
    for _row in 0..count {
        lists.push(Imports::none())?;
    }
    Ok(lists)
}

/// Gives the construct that ends at a row what it uses.
fn fill(
    alloc: Global,
    ends: &Ends<'_>,
    lists: &mut Vec<Imports>,
    marks: &mut Vec<u32>,
    end: usize,
) -> Result<(), AllocError>
    requires lists { AreFilled ends.now.checked.now end lists.old.items }
    requires marks { AreMarks ends.now.checked.now (end + 1) marks.old.items }
    ensures lists { OnOk result (AreFilled ends.now.checked.now (end + 1) lists.new.items) }
    ensures marks { OnOk result (AreMarks ends.now.checked.now (end + 2) marks.new.items) }
{
    if let Some(opening) = opening_ended(ends, end) {
        let span = Span {
            lo: opening + 1,
            hi: end,
            own: None,
            mark: end as u32 + 1,
        };
        let list = gather(alloc, ends, lists.as_slice(), marks, span)?;
        let uses = Imports::new(alloc, list)?;
        lists[opening] = uses;
    }
    Ok(())
}

/// The row where the construct begins that ends at a row, if one does. Takes no memory.
fn opening_ended(ends: &Ends<'_>, end: usize) -> Option<usize>
    ensures some { let P = ends.now.checked.now in
        IfSome result (λ s. (s < length (programs.rows P)) × (end_row P s ≡ Some end)
        × is_opening (at (programs.rows P) s).node ≡ true) }
    ensures none { result ≡ None → EndsNothing ends.now.checked.now end }
{
    let begun = begun_at(row_at(ends.checked, end).node);
    match begun {
        Some(opening) if is_ended(ends, opening, end) => Some(opening),
        _ => None,
    }
}

/// Whether a construct begins at a row and ends at the row `end`. Takes no memory.
fn is_ended(ends: &Ends<'_>, opening: usize, end: usize) -> bool
    ensures { let P = ends.now.checked.now in IsTrue result
        ↔ (opening < length (programs.rows P)) × (end_row P opening ≡ Some end)
        × is_opening (at (programs.rows P) opening).node ≡ true }
{
    opening < ends.column.len()
        && is_row(ends.column.get(opening), end)
        && is_opening(row_at(ends.checked, opening).node)
}

/// Whether it is the row.
fn is_row(row: Option<u32>, wanted: usize) -> bool
    ensures { IsTrue result ↔ (row ≡ Some wanted) }
{
    match row {
        Some(row) => row as usize == wanted,
        None => false,
    }
}

/// Puts a row's imports in the place of what it uses: a loop's, without its own first values, and those of its
/// switches.
fn turn(
    alloc: Global,
    spans: &EndsAndNexts<'_>,
    lists: &mut Vec<Imports>,
    marks: &mut Vec<u32>,
    row: usize,
) -> Result<(), AllocError>
    requires lists { AreTurned spans.now.ends.checked.now row lists.old.items }
    requires marks { AreMarks spans.now.ends.checked.now (row + 1) marks.old.items }
    ensures lists { OnOk result (AreTurned spans.now.ends.checked.now (row + 1) lists.new.items) }
    ensures marks { OnOk result (AreMarks spans.now.ends.checked.now (row + 2) marks.new.items) }
{
    match row_at(spans.ends.checked, row).node {
        Node::LoopHead { .. } => {
            let imports = imports_of_loop(alloc, &spans.ends, lists.as_slice(), marks, row)?;
            lists[row] = imports;
        }
        Node::Switches { .. } => {
            let imports = handed_on(alloc, spans, lists.as_slice(), row)?;
            lists[row] = imports;
        }
        _ => {}
    }
    Ok(())
}

/// The imports of the loop with this head.
fn imports_of_loop(
    alloc: Global,
    ends: &Ends<'_>,
    lists: &[Imports],
    marks: &mut Vec<u32>,
    head: usize,
) -> Result<Imports, AllocError>
    requires head { is_loop_head (at (programs.rows ends.now.checked.now) head).node ≡ true }
    requires lists { AreTurned ends.now.checked.now head lists.now }
    requires marks { AreMarks ends.now.checked.now (head + 1) marks.old.items }
    ensures list { IfOk result (λ i. i ≡ taken ends.now.checked.now head) }
    ensures marks { OnOk result (AreMarks ends.now.checked.now (head + 2) marks.new.items) }
{
    let span = Span {
        lo: head + 1,
        hi: ends.end_of(head),
        own: Some(head),
        mark: head as u32 + 1,
    };
    let list = gather(alloc, ends, lists, marks, span)?;
    let imports = Imports::new(alloc, list)?;
    Ok(imports)
}

/// What the switches of a loop hand on: the upper bound of its index, if it has one, its variables, and what its head
/// imports.
fn handed_on(
    alloc: Global,
    spans: &EndsAndNexts<'_>,
    lists: &[Imports],
    switches: usize,
) -> Result<Imports, AllocError>
    requires lists { AreTurned spans.now.ends.checked.now switches lists.now }
    requires node { table.is_switches (at (programs.rows spans.now.ends.checked.now) switches).node ≡ true }
    ensures { IfOk result (λ i. i ≡ imports_of spans.now.ends.checked.now switches) }
{
    let checked = spans.ends.checked;
    let head = row_at(checked, switches).block as usize;
    let mut list = Vec::new(alloc);
    if has_index(checked, head) {
        list.push((head + 2) as u32)?;
    }
    add_nexts(spans, &mut list, head)?;
    list.extend_from_slice(lists[head].as_slice())?;
    Imports::new(alloc, list)
}

/// Adds the rows of the `next`s of the loop with this head, in order.
fn add_nexts(spans: &EndsAndNexts<'_>, list: &mut Vec<u32>, head: usize) -> Result<(), AllocError>
    requires { is_loop_head (at (programs.rows spans.now.ends.checked.now) head).node ≡ true }
    ensures { OnOk result (list.new.items ≡ list.old.items ++ nexts_of spans.now.ends.checked.now head) }
{
    let checked = spans.ends.checked;
    for row in first_variable(checked, head)..checked.table.rows.len() {
        if !is_variable(row_at(checked, row).node) {
            break;
        }
        list.push(spans.next_of(row))?;
    }
    Ok(())
}

/// The binders outside the span that uses in it mean, each once, in order of first use.
fn gather(
    alloc: Global,
    ends: &Ends<'_>,
    lists: &[Imports],
    marks: &mut Vec<u32>,
    span: Span,
) -> Result<Vec<u32>, AllocError>
    requires within { span.hi < length (programs.rows ends.now.checked.now) }
    requires lists { AreGathered ends.now.checked.now span.lo span.hi lists.now }
    requires count { AllCount ends.now.checked.now span.own span.lo span.hi }
    requires marks { AreMarks ends.now.checked.now span.mark marks.old.items }
    ensures list { IfOk result (λ v. v.items ≡ imports (used_in ends.now.checked.now span.own) span.lo span.hi) }
    ensures marks { OnOk result (AreMarks ends.now.checked.now (span.mark + 1) marks.new.items) }
{
    let mut list = Vec::new(alloc);
    let mut row = span.lo;
    while row < span.hi {
        row = note_row(ends, lists, marks, &mut list, span, row)?;
    }
    Ok(list)
}

/// Notes what a row of the span uses, and where an inner construct begins, what that uses. Gives the row to go on with.
fn note_row(
    ends: &Ends<'_>,
    lists: &[Imports],
    marks: &mut Vec<u32>,
    list: &mut Vec<u32>,
    span: Span,
    row: usize,
) -> Result<usize, AllocError>
    requires within { span.hi < length (programs.rows ends.now.checked.now) }
    requires row { (span.lo ≤ row) × (row < span.hi) }
    requires lists { AreGathered ends.now.checked.now span.lo span.hi lists.now }
    requires count { AllCount ends.now.checked.now span.own span.lo span.hi }
    requires noted { AreNotedTo ends.now.checked.now span row marks.old.items list.old.items }
    ensures row { IfOk result (λ r. (row < r) × (r ≤ span.hi)) }
    ensures noted { IfOk result (λ r. AreNotedTo ends.now.checked.now span r marks.new.items list.new.items) }
{
    note_used(marks, list, span, used_at(ends.checked, span.own, row))?;
    let next = inner_end(ends, row);
    if row < next && next < span.hi {
        note_all(marks, list, span, lists[row].as_slice())?;
        return Ok(next);
    }
    Ok(row + 1)
}

/// The row where the construct ends that begins at a row, or 0. Takes no memory.
fn inner_end(ends: &Ends<'_>, row: usize) -> usize
    ensures { let P = ends.now.checked.now in result ≡ 0 ⊎ ((end_row P row ≡ Some result)
        × (is_opening (at (programs.rows P) row).node ≡ true)) }
{
    if !is_opening(row_at(ends.checked, row).node) {
        return 0;
    }
    match ends.column.get(row) {
        Some(end) => end as usize,
        None => 0,
    }
}

/// Notes the binder of what a row uses, if it uses something.
fn note_used(
    marks: &mut Vec<u32>,
    list: &mut Vec<u32>,
    span: Span,
    binder: Option<u32>,
) -> Result<(), AllocError>
    requires marks { AreMarked span.mark marks.old.items list.old.items }
    requires binder { IfSome binder (λ b. b < length marks.old.items) }
    ensures list { OnOk result (list.new.items ≡ with_use span.lo span.hi list.old.items binder) }
    ensures long { length marks.new.items ≡ length marks.old.items }
    ensures marks { OnOk result (AreMarked span.mark marks.new.items list.new.items) }
{
    match binder {
        Some(binder) => note(marks, list, span, binder),
        None => Ok(()),
    }
}

/// Notes these binders, one after another.
fn note_all(
    marks: &mut Vec<u32>,
    list: &mut Vec<u32>,
    span: Span,
    binders: &[u32],
) -> Result<(), AllocError>
    requires marks { AreMarked span.mark marks.old.items list.old.items }
    requires binders { (b : _) → Among b binders.now → b < length marks.old.items }
    ensures list { OnOk result (list.new.items ≡ with_uses span.lo span.hi list.old.items binders.now) }
    ensures long { length marks.new.items ≡ length marks.old.items }
    ensures marks { OnOk result (AreMarked span.mark marks.new.items list.new.items) }
{
    for binder in binders {
        note(marks, list, span, *binder)?;
    }
    Ok(())
}

/// Notes a binder that a use means, if it is outside the span and not noted yet.
fn note(
    marks: &mut Vec<u32>,
    list: &mut Vec<u32>,
    span: Span,
    binder: u32,
) -> Result<(), AllocError>
    requires marks { AreMarked span.mark marks.old.items list.old.items }
    requires binder { binder < length marks.old.items }
    ensures list { OnOk result (list.new.items ≡ with_use span.lo span.hi list.old.items (Some binder)) }
    ensures long { length marks.new.items ≡ length marks.old.items }
    ensures marks { OnOk result (AreMarked span.mark marks.new.items list.new.items) }
{
    let at = binder as usize;
    let is_outside = at < span.lo || span.hi <= at;
    if is_outside && marks[at] != span.mark {
        list.push(binder)?;
        marks[at] = span.mark;
    }
    Ok(())
}
