//! The check of a program: its table, the binders and kinds of its rows, and the first cause to refuse it.

ghost use Rattle.std.specs.Prelude.{◌≡◌, get_or, length, IfOk, IfErr, IfNone, IfSome, None, Some};
ghost use Rattle.id_grammar.specs.Tree.{Tree, program_tree};
ghost use Rattle.id_tree.specs.Distinct.{Distinct};
ghost use Rattle.id_table.specs.Lent.{list_of};
ghost use Rattle.id_table.specs.Rows.{parts_of, rows_of};
ghost use Rattle.id_table.specs.Trees.{IsProgramTree};
ghost use Rattle.id_check.specs.Causes.{HasNoMain, IsInside, IsMain, IsRefusedFor, causes, causes_below};
ghost use Rattle.id_check.specs.Causes as cause;
ghost use Rattle.id_check.specs.Counts.{AreCounts};
ghost use Rattle.id_check.specs.Depths.{AreDepths};
ghost use Rattle.id_check.specs.Firsts.{IsFirstOf, Notes};
ghost use Rattle.id_check.specs.Judged.{IsJudged};
ghost use Rattle.id_check.specs.Kinds.{AreKinds};
ghost use Rattle.id_check.specs.Noted.{tree_in};
ghost use Rattle.id_check.specs.Scopes.{AreBinders};

use crate::cause::{CheckCause, CheckError};
use crate::checked::Checked;
use crate::kinds::find_kinds;
use crate::literals::see_literals;
use crate::numbers::{Numbers, find_numbers};
use crate::scope::{Found, find_binders};
use crate::tabled::Tabled;
use crate::typed::Typed;
use id_table::{Node, Row, Rows, Table, table_of};
use id_tree::{Kind, Program};
use once_cell::race::{Note, OnceBox};
use std::alloc::{AllocError, Global};

/// What is found in the rows of a program: their binders, kinds and depths, and the first cause in them.
#[derive(Drop)]
struct Columns {
    binders: Vec<Option<u32>>,
    kinds: Vec<Option<Kind>>,
    depths: Vec<u32>,
    first: Option<CheckCause>,
}

/// The program, checked, or the first cause to refuse it: the one at the smallest place, of two at one
/// place the one with the smaller number, and where there is none, that it has no `main`. Where it is accepted its tree
/// gives its memory back; where it is refused it is handed back.
pub fn check(alloc: Global, program: Program) -> Result<Checked, CheckError>
    requires distinct { Distinct (program_tree program) }
    ensures ok { IfOk result (λ c. c.tree.known ≡ Some program) }
    ensures back { IfErr result (λ e. e.program ≡ program) }
    ensures refused { IfErr result (λ e. IsRefusedFor (rows_of (program_tree program)) e.cause) }
    ensures inside { IfErr result (λ e. IsInside (program_tree program) e.cause) }
{
    match judge_tree(alloc, &program) {
        Ok((table, main, columns)) => match noted(alloc, program) {
            Ok(tree) => Ok(with_columns(Tabled { tree, table }, main, columns)),
            Err(program) => Err(CheckError {
                program,
                cause: CheckCause::Memory,
            }),
        },
        Err(cause) => Err(CheckError { program, cause }),
    }
}

/// The table of the program, whose tree gives its memory back. Where memory is refused the program is lost; `check`
/// hands it back.
pub fn into_table(alloc: Global, program: Program) -> Result<Tabled, AllocError>
    requires distinct { Distinct (program_tree program) }
    ensures { IfOk result (λ t. t.tree.known ≡ Some program) }
{
    let table = table_of(alloc, &program)?;
    match noted(alloc, program) {
        Ok(tree) => Ok(Tabled { tree, table }),
        Err(_) => Err(AllocError),
    }
}

/// The program of the table, checked, or the first cause to refuse it: what `check` says of a program, in less memory.
pub fn check_table(alloc: Global, tabled: Tabled) -> Result<Checked, CheckCause>
    ensures ok { IfOk result (λ c. c.tree.known ≡ tabled.tree.known) }
    ensures refused { IfErr result (IsRefusedFor (rows_of (tree_in tabled.tree.known))) }
    ensures inside { IfErr result (IsInside (tree_in tabled.tree.known)) }
{
    match judge_rows(alloc, &tabled.table) {
        Ok((main, columns)) => Ok(with_columns(tabled, main, columns)),
        Err(cause) => Err(cause),
    }
}

/// A note of the program, which gives its memory back; or the program, where memory is refused.
fn noted(alloc: Global, program: Program) -> Result<Note<Program>, Program>
    ensures ok { IfOk result (λ n. n.known ≡ Some program) }
    ensures back { IfErr result (λ p. p ≡ program) }
{
    let cell = OnceBox::new(alloc);
    let mut note = cell.note();
    match Box::new(alloc, program) {
        Ok(boxed) => match cell.set_as(boxed, &mut note) {
            Ok(()) => Ok(note),
            Err(boxed) => Err(Box::into_inner(boxed)),
        },
        Err(failed) => Err(failed.value),
    }
}

/// The table of the program, the row of `main` in it, and what else is found there; or why the program is refused.
fn judge_tree(alloc: Global, program: &Program) -> Result<(Table, usize, Columns), CheckCause>
    ensures tabled { IfOk result (λ f. f.0.rows.items ≡ rows_of (program_tree program.now)) }
    ensures named { IfOk result (λ f. f.0.names.items ≡ (parts_of (program_tree program.now)).names) }
    ensures judged { IfOk result (λ f. IsJudged f.0.rows.items f.1 f.2) }
    ensures refused { IfErr result (IsRefusedFor (rows_of (program_tree program.now))) }
{
    match table_of(alloc, program) {
        Ok(table) => match judge_rows(alloc, &table) {
            Ok((main, columns)) => Ok((table, main, columns)),
            Err(cause) => Err(cause),
        },
        Err(_) => Err(CheckCause::Memory),
    }
}

/// The row of `main` in a table of a program's tree, and what else is found there; or the first cause to refuse the
/// program.
fn judge_rows(alloc: Global, table: &Table) -> Result<(usize, Columns), CheckCause>
    requires { (t : Tree) × IsProgramTree t × (table.now.rows.items ≡ rows_of t) }
    ensures judged { IfOk result (λ f. IsJudged table.now.rows.items f.0 f.1) }
    ensures refused { IfErr result (IsRefusedFor table.now.rows.items) }
{
    match Rows::new(table) {
        Ok(rows) => judge(alloc, &rows),
        Err(_) => Err(CheckCause::Memory),
    }
}

/// The row of `main`, and what else is found in the rows of a program; or the first cause to refuse the program.
fn judge(alloc: Global, rows: &Rows<'_>) -> Result<(usize, Columns), CheckCause>
    ensures judged { IfOk result (λ f. IsJudged (list_of rows.now) f.0 f.1) }
    ensures refused { IfErr result (IsRefusedFor (list_of rows.now)) }
{
    match find_columns(alloc, rows) {
        Ok(columns) => settle(rows, columns),
        Err(_) => Err(CheckCause::Memory),
    }
}

/// The row of `main`, with these columns; or why the program is refused in whose rows they are found. Takes no memory.
fn settle(rows: &Rows<'_>, columns: Columns) -> Result<(usize, Columns), CheckCause>
    requires bound { AreBinders (list_of rows.now) (λ i. get_or columns.binders.items i None) }
    requires kinded { AreKinds (list_of rows.now)
        (λ i. get_or columns.binders.items i None) (λ i. get_or columns.kinds.items i None) }
    requires deep { AreDepths (list_of rows.now) (length (list_of rows.now)) columns.depths.items }
    requires first { IsFirstOf columns.first (causes (list_of rows.now)
        (λ i. get_or columns.binders.items i None) (λ i. get_or columns.kinds.items i None)) }
    ensures judged { IfOk result (λ f. IsJudged (list_of rows.now) f.0 f.1) }
    ensures refused { IfErr result (IsRefusedFor (list_of rows.now)) }
{
    if let Some(cause) = columns.first {
        return Err(cause);
    }
    match find_main(rows.table.rows.as_slice()) {
        Some(main) => Ok((main, columns)),
        None => Err(CheckCause::NoMain),
    }
}

/// The checked program of a table with what is found in it.
fn with_columns(tabled: Tabled, main: usize, columns: Columns) -> Checked
    requires { IsJudged tabled.table.rows.items main columns }
    ensures { result.tree ≡ tabled.tree }
{
    see_literals(tabled.table.rows.as_slice());
    let Tabled { tree, table } = tabled;
    let Columns {
        binders,
        kinds,
        depths,
        ..
    } = columns;
    Checked {
        tree,
        table,
        main,
        binders,
        kinds,
        depths,
    }
}

/// What is found in the rows of a program. Each of the passes is kept apart from the others by `inline(never)`: in one
/// function of all of them the values of a loop are kept in memory.
fn find_columns(alloc: Global, rows: &Rows<'_>) -> Result<Columns, AllocError>
    ensures bound { IfOk result (λ c. AreBinders (list_of rows.now) (λ i. get_or c.binders.items i None)) }
    ensures kinded { IfOk result (λ c. AreKinds (list_of rows.now)
        (λ i. get_or c.binders.items i None) (λ i. get_or c.kinds.items i None)) }
    ensures deep { IfOk result (λ c. AreDepths (list_of rows.now) (length (list_of rows.now)) c.depths.items) }
    ensures first { IfOk result (λ c. IsFirstOf c.first (causes (list_of rows.now)
        (λ i. get_or c.binders.items i None) (λ i. get_or c.kinds.items i None))) }
{
    let found = find_binders(alloc, rows)?;
    let kinds = find_kinds(alloc, rows, found.binders.as_slice())?;
    let numbers = find_numbers(alloc, rows)?;
    Ok(with_first(rows, found, kinds, numbers))
}

/// What is found in the rows of a program, whose binders, kinds and numbers are these: the first cause is noted. Takes
/// no memory.
fn with_first(rows: &Rows<'_>, found: Found, kinds: Vec<Option<Kind>>, numbers: Numbers) -> Columns
    requires counts { AreCounts (list_of rows.now) (length (list_of rows.now)) numbers.counts.items }
    ensures bound { result.binders ≡ found.binders }
    ensures kinded { result.kinds ≡ kinds }
    ensures deep { result.depths ≡ numbers.depths }
    ensures first { Notes found.first (causes_below (list_of rows.now) (λ i. get_or found.binders.items i None)
        (λ i. get_or kinds.items i None) (length (list_of rows.now))) result.first }
{
    let Found { binders, mut first } = found;
    let Numbers { depths, counts } = numbers;
    let typed = Typed {
        rows,
        binders: binders.as_slice(),
        kinds: kinds.as_slice(),
        counts: counts.as_slice(),
    };
    typed.note_rows(&mut first);
    Columns {
        binders,
        kinds,
        depths,
        first,
    }
}

/// The row of the first definition of `main`.
fn find_main(rows: &[Row]) -> Option<usize>
    ensures found { IfSome result (λ n. IsMain rows.now n) }
    ensures none { IfNone result (HasNoMain rows.now) }
{
    for n in 0..rows.len() {
        if defines_main(rows[n].node) {
            return Some(n);
        }
    }
    None
}

/// Whether `main`, the name of number 0, is defined at a row of this node.
fn defines_main(node: Node) -> bool
    ensures { result ≡ cause.defines_main node }
{
    match node {
        Node::Def { name, .. } => name == 0,
        _ => false,
    }
}
