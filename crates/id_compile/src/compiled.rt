//! From a text to its graph: tokens, tree, checks, schemas.

ghost use Rattle.std.specs.Prelude.{◌≡◌, ◌<◌, ◌≤◌, length, IfErr, IfOk, OnOk};
ghost use Rattle.id_build.specs.Rows.{size};
ghost use Rattle.id_build.specs.Own.{IsOwn};
ghost use Rattle.id_tree.specs.Distinct.{Distinct};
ghost use Rattle.id_check.specs.Noted.{tree_in};
ghost use Rattle.id_grammar.specs.Tree.{program_tree};
ghost use Rattle.id_compile.specs.Programs.{ArePlacedWithin, HasProgram, IsProgramOf, IsPlacedWithin, IsRefusedBy};
ghost use Rattle.id_compile.specs.Programs.{IsTreeOf};
ghost use Rattle.id_compile.specs.Programs.{IsRefusedGraph};
ghost use Rattle.id_compile.specs.Refusals.{IsCauseInside};

use id_build::{BuildError, build, is_small, is_small_and_plain, is_surely_small};
use id_check::{CheckCause, Checked, Tabled, check_table, into_table};
use id_desugar::regions;
use id_instr::Graph;
use id_text::{TextError, lex};
use id_tree::{Program, TreeError, parse};
use id_valid::Valid;
use std::alloc::Global;
use std::marker::Model;

/// A text with its program and that program's own graph, the one of those that the schemas give it that `build` makes.
///
/// Keeps: the text is one that may be compiled, by its length, and the places of the program lie in it.
#[derive(Drop)]
pub struct Compiled<'t> {
    text: &'t str,
    checked: Checked,
    valid: Valid,
}

impl<'t> Model for Compiled<'t> {
    ghost use Rattle.id_compile.specs.Codes.{coded_compiled};
    ghost use Rattle.id_compile.specs.Programs.{CompiledView, IsCompiled};

    ghost Value = { CompiledView };

    ghost coded = { coded_compiled };

    ghost view = { λ c. record { text = c.text.now; checked = c.checked; graph = c.valid } };

    ghost invariant = { λ c. IsCompiled c.text.now c.checked c.valid };
}

impl<'t> Compiled<'t> {
    ghost use Rattle.std.specs.Prelude.{◌≡◌, ◌≤◌, length};
    ghost use Rattle.id_build.specs.Own.{IsOwn};
    ghost use Rattle.id_compile.specs.Programs.{IsPlacedWithin, IsProgramOf};

    /// The text. Takes no memory.
    pub fn text(&self) -> &'t str
        ensures value { result.now ≡ self.now.text }
        ensures program { IsProgramOf self.now.text self.now.checked }

        // What the printers rest on.
        ensures within { IsPlacedWithin (length self.now.text) self.now.checked }
        ensures short { length self.now.text ≤ 1048576 }
    {
        self.text
    }

    /// The program. Takes no memory.
    pub fn checked(&self) -> &Checked
        ensures { result.now ≡ self.now.checked }
    {
        &self.checked
    }

    /// The program's graph. Takes no memory.
    pub fn valid(&self) -> &Valid
        ensures value { result.now ≡ self.now.graph }
        ensures kept { IsOwn self.now.checked self.now.graph }
    {
        &self.valid
    }

    /// The program's graph: the program gives its memory back.
    pub fn into_valid(self) -> Valid
        ensures value { result ≡ self.entry.graph }
        ensures kept { IsOwn self.entry.checked self.entry.graph }
    {
        let Compiled { valid, .. } = self;
        valid
    }
}

/// Why a text has no graph.
#[derive(Clone, Copy)]
pub enum CompileError {
    /// The text has no tokens: refusals 1 to 3.
    Text(TextError),
    /// The tokens have no tree: refusals 5 and 6.
    Tree(TreeError),
    /// The program is refused: refusals 7 to 10, 12 and 13.
    Check(CheckCause),
    /// The graph would have more than 1,000,000 instructions: refusal 14.
    TooLarge,
    /// A growth was refused.
    Memory,
}

/// The tree of a text.
fn tree_of(alloc: Global, text: &str) -> Result<Program, CompileError>
    ensures tree { IfOk result (λ p. IsTreeOf text.now (program_tree p)) }
    ensures distinct { IfOk result (λ p. Distinct (program_tree p)) }
    ensures within { IfOk result (λ p. ArePlacedWithin (length text.now) (program_tree p)) }
    ensures short { OnOk result (length text.now ≤ 1048576) }
    ensures refused { IfErr result (IsRefusedBy text.now) }
    ensures inside { IfErr result (IsCauseInside text.now) }
{
    let tokens = match lex(alloc, text) {
        Ok(tokens) => tokens,
        Err(error) => return Err(CompileError::Text(error)),
    };
    match parse(alloc, tokens.as_slice()) {
        Ok(program) => Ok(program),
        Err(error) => Err(CompileError::Tree(error)),
    }
}

/// The table of a text's tree, which gives its memory back.
fn table_of(alloc: Global, text: &str) -> Result<Tabled, CompileError>
    ensures tree { IfOk result (λ t. IsTreeOf text.now (tree_in t.tree.known)) }
    ensures within { IfOk result (λ t. ArePlacedWithin (length text.now) (tree_in t.tree.known)) }
    ensures short { OnOk result (length text.now ≤ 1048576) }
    ensures refused { IfErr result (IsRefusedBy text.now) }
    ensures inside { IfErr result (IsCauseInside text.now) }
{
    let program = tree_of(alloc, text)?;
    match into_table(alloc, program) {
        Ok(table) => Ok(table),
        Err(_) => Err(CompileError::Memory),
    }
}

/// The checked program of a text.
fn checked_program(alloc: Global, text: &str) -> Result<Checked, CompileError>
    ensures program { IfOk result (IsProgramOf text.now) }
    ensures within { IfOk result (IsPlacedWithin (length text.now)) }
    ensures short { OnOk result (length text.now ≤ 1048576) }
    ensures refused { IfErr result (IsRefusedBy text.now) }
    ensures inside { IfErr result (IsCauseInside text.now) }
{
    let table = table_of(alloc, text)?;
    match check_table(alloc, table) {
        Ok(checked) => Ok(checked),
        Err(cause) => Err(CompileError::Check(cause)),
    }
}

/// The own graph of a checked program, which the law says is valid, as it says of each that the schemas give.
fn valid_of(checked: &Checked, graph: Graph) -> Valid
    requires { IsOwn checked.now graph }
    ensures { result ≡ graph }
{
    let _ = checked;
    id_laws::valid();
    Valid::known(graph)
}

/// The own graph of a checked program.
fn own_graph(alloc: Global, checked: &Checked) -> Result<Graph, BuildError>
    ensures own { IfOk result (IsOwn checked.now) }
    ensures small { OnOk result (size checked.now ≤ 1000000) }
    ensures large { IfErr result (λ e. e ≡ BuildError.TooLarge → 1000000 < size checked.now) }
{
    let kernel = regions(alloc, checked)?;
    build(alloc, &kernel)
}

/// The own graph of a checked program, as a valid one.
fn graph_of(alloc: Global, checked: &Checked) -> Result<Valid, CompileError>
    ensures own { IfOk result (IsOwn checked.now) }
    ensures small { OnOk result (size checked.now ≤ 1000000) }
    ensures refused { IfErr result (IsRefusedGraph checked.now) }
{
    match own_graph(alloc, checked) {
        Ok(graph) => Ok(valid_of(checked, graph)),
        Err(BuildError::TooLarge) => Err(CompileError::TooLarge),
        Err(BuildError::Memory) => Err(CompileError::Memory),
    }
}

/// The program of a text, and its graph; or why it has none.
pub fn compile<'t>(alloc: Global, text: &'t str) -> Result<Compiled<'t>, CompileError>
    ensures text { IfOk result (λ c. c.text ≡ text.now) }
    ensures program { IfOk result (λ c. IsProgramOf text.now c.checked) }
    ensures small { IfOk result (λ c. size c.checked ≤ 1000000) }

    // What the printers rest on.
    ensures within { IfOk result (λ c. IsPlacedWithin (length text.now) c.checked) }
    ensures short { OnOk result (length text.now ≤ 1048576) }

    ensures refused { IfErr result (IsRefusedBy text.now) }
    ensures inside { IfErr result (IsCauseInside text.now) }
{
    let checked = checked_program(alloc, text)?;
    match graph_of(alloc, &checked) {
        Ok(valid) => Ok(Compiled {
            text,
            checked,
            valid,
        }),
        Err(error) => Err(error),
    }
}

/// Whether a text has a program of which a graph can be built: what `compile` would answer, without making the graph.
pub fn accept(alloc: Global, text: &str) -> Result<(), CompileError>
    ensures program { OnOk result (HasProgram text.now) }
    ensures refused { IfErr result (IsRefusedBy text.now) }
    ensures inside { IfErr result (IsCauseInside text.now) }
{
    let checked = checked_program(alloc, text)?;
    match has_graph(alloc, &checked) {
        Ok(()) => Ok(()),
        Err(error) => Err(error),
    }
}

/// Whether a checked program has a graph.
fn has_graph(alloc: Global, checked: &Checked) -> Result<(), CompileError>
    ensures small { OnOk result (size checked.now ≤ 1000000) }
    ensures refused { IfErr result (IsRefusedGraph checked.now) }
{
    if is_small_and_plain(checked) {
        return Ok(());
    }
    match is_surely_small(alloc, checked) {
        Ok(true) => return Ok(()),
        Ok(false) => {}
        Err(_) => return Err(CompileError::Memory),
    }
    let Ok(kernel) = regions(alloc, checked) else {
        return Err(CompileError::Memory);
    };
    if is_small(&kernel) {
        Ok(())
    } else {
        Err(CompileError::TooLarge)
    }
}
