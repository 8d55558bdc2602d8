//! The commands that run nothing: whether a text is accepted, its graph, its facts.

ghost use Rattle.std.specs.Prelude.{◌≡◌, ◌≢◌, ◌≤◌, length, map, IfOk, IfErr, OnOk, string_bytes};
ghost use Rattle.id_build.specs.Own.{IsOwn};
ghost use Rattle.id_source.specs.Computed.{AreFacts};
ghost use Rattle.id_source.specs.Sources.{source};
ghost use Rattle.id_facts.specs.Listed.{facts_in};
ghost use Rattle.id_sink.specs.Told.{Prints};
ghost use Rattle.id_print.specs.Texts.{facts_text};
ghost use Rattle.id_engine.specs.Found.{facts_found};
ghost use Rattle.id_graph.specs.Dot.{dot_text};
ghost use Rattle.id_engine.specs.Commands.{AreFactsOf, Check, Draw_graph, Facts, IsListingOf, IsPictureOf, List_graph};
ghost use Rattle.id_engine.specs.Commands.{ShowsAll, ShowsFront};
ghost use Rattle.id_compile.specs.Programs.{HasProgram};
ghost use Rattle.id_compile.specs.Refusals.{AreRefusedFacts, AreTakenFacts, IsInsideOf, IsRefusedText};
ghost use Rattle.id_engine.specs.Reports.{AreRefusedRounds};

use id_compile::{Compiled, EngineError, Prepared, accept, compile, prepare};
use id_graph::{draw, list};
use id_meaning::{Round, RoundsError, find_round};
use id_print::{PrintError, Sink, put, write_round};
use std::alloc::Global;

/// Writes `ok` where the text is accepted, and answers the status, 0.
pub fn check_text<W: Sink>(alloc: Global, text: &str, out: &mut W) -> Result<u8, EngineError>
    ensures shown { IfOk result (ShowsAll Check text.now (W.told out.old) (W.told out.new)) }
    ensures cut { result ≡ Err EngineError.Write → ShowsFront Check text.now (W.told out.old) (W.told out.new) }
    ensures silent { IfErr result (λ e. e ≢ EngineError.Write → W.told out.new ≡ W.told out.old) }
    ensures taken { OnOk result (HasProgram text.now) }
    ensures refused { IfErr result (IsRefusedText text.now) }
    ensures inside { IfErr result (IsInsideOf text.now) }
{
    accept_text(alloc, text)?;
    match put(out, b"ok\n") {
        Ok(()) => Ok(0),
        Err(_) => Err(EngineError::Write),
    }
}

/// Whether the text is accepted.
fn accept_text(alloc: Global, text: &str) -> Result<(), EngineError>
    ensures program { OnOk result (HasProgram text.now) }
    ensures refused { IfErr result (IsRefusedText text.now) }
    ensures inside { IfErr result (IsInsideOf text.now) }
    ensures not_write { IfErr result (λ e. e ≢ EngineError.Write) }
{
    match accept(alloc, text) {
        Ok(()) => Ok(()),
        Err(error) => Err(EngineError::Compile(error)),
    }
}

/// Writes the listing of the text's graph, and answers the status, 0.
pub fn graph_text<W: Sink>(alloc: Global, text: &str, out: &mut W) -> Result<u8, EngineError>
    ensures shown { IfOk result (ShowsAll List_graph text.now (W.told out.old) (W.told out.new)) }
    ensures cut { result ≡ Err EngineError.Write
        → ShowsFront List_graph text.now (W.told out.old) (W.told out.new) }
    ensures silent { IfErr result (λ e. e ≢ EngineError.Write → W.told out.new ≡ W.told out.old) }
    ensures taken { OnOk result (HasProgram text.now) }
    ensures refused { IfErr result (IsRefusedText text.now) }
    ensures inside { IfErr result (IsInsideOf text.now) }
{
    let listing = listing_of(alloc, text)?;
    match put(out, listing.as_str().as_bytes()) {
        Ok(()) => Ok(0),
        Err(_) => Err(EngineError::Write),
    }
}

/// The listing of the text's graph.
fn listing_of(alloc: Global, text: &str) -> Result<String, EngineError>
    ensures listing { IfOk result (λ s. IsListingOf text.now (string_bytes s)) }
    ensures program { OnOk result (HasProgram text.now) }
    ensures refused { IfErr result (IsRefusedText text.now) }
    ensures inside { IfErr result (IsInsideOf text.now) }
    ensures not_write { IfErr result (λ e. e ≢ EngineError.Write) }
{
    match compile(alloc, text) {
        Ok(compiled) => list_compiled(alloc, compiled),
        Err(error) => Err(EngineError::Compile(error)),
    }
}

/// The listing of a compiled text's graph.
fn list_compiled(alloc: Global, compiled: Compiled<'_>) -> Result<String, EngineError>
    ensures listing { IfOk result (λ s. IsListingOf compiled.entry.text (string_bytes s)) }
    ensures memory { IfErr result (λ e. e ≡ EngineError.Memory) }
{
    let text = compiled.text();
    let valid = compiled.into_valid();
    match list(alloc, valid.graph(), text) {
        Ok(listing) => Ok(listing),
        Err(_) => Err(EngineError::Memory),
    }
}

/// Writes the picture of the text's graph, and answers the status, 0.
pub fn draw_text<W: Sink>(alloc: Global, text: &str, out: &mut W) -> Result<u8, EngineError>
    ensures shown { IfOk result (ShowsAll Draw_graph text.now (W.told out.old) (W.told out.new)) }
    ensures cut { result ≡ Err EngineError.Write
        → ShowsFront Draw_graph text.now (W.told out.old) (W.told out.new) }
    ensures silent { IfErr result (λ e. e ≢ EngineError.Write → W.told out.new ≡ W.told out.old) }
    ensures taken { OnOk result (HasProgram text.now) }
    ensures refused { IfErr result (IsRefusedText text.now) }
    ensures inside { IfErr result (IsInsideOf text.now) }
{
    let picture = picture_of(alloc, text)?;
    match put(out, picture.as_str().as_bytes()) {
        Ok(()) => Ok(0),
        Err(_) => Err(EngineError::Write),
    }
}

/// The picture of the text's graph.
fn picture_of(alloc: Global, text: &str) -> Result<String, EngineError>
    ensures picture { IfOk result (λ s. IsPictureOf text.now (string_bytes s)) }
    ensures program { OnOk result (HasProgram text.now) }
    ensures refused { IfErr result (IsRefusedText text.now) }
    ensures inside { IfErr result (IsInsideOf text.now) }
    ensures not_write { IfErr result (λ e. e ≢ EngineError.Write) }
{
    match compile(alloc, text) {
        Ok(compiled) => draw_compiled(alloc, &compiled),
        Err(error) => Err(EngineError::Compile(error)),
    }
}

/// The picture of a compiled text's graph, which is the program's own.
fn draw_compiled(alloc: Global, compiled: &Compiled<'_>) -> Result<String, EngineError>
    ensures picture { IfOk result (λ s. string_bytes s ≡ dot_text compiled.now.text compiled.now.graph) }
    ensures own { IsOwn compiled.now.checked compiled.now.graph }
    ensures memory { IfErr result (λ e. e ≡ EngineError.Memory) }
{
    match draw(alloc, compiled.valid().graph(), compiled.text()) {
        Ok(picture) => Ok(picture),
        Err(_) => Err(EngineError::Memory),
    }
}

/// Writes the facts of a round of the text on these input words, a line for each, and answers the status, 0.
pub fn facts_text<W: Sink>(
    alloc: Global,
    text: &str,
    inputs: &[&str],
    round: u32,
    out: &mut W,
) -> Result<u8, EngineError>
    ensures shown { IfOk result
        (ShowsAll (Facts round (map (λ w. w.now) inputs.now)) text.now (W.told out.old) (W.told out.new)) }
    ensures cut { result ≡ Err EngineError.Write
        → ShowsFront (Facts round (map (λ w. w.now) inputs.now)) text.now (W.told out.old) (W.told out.new) }
    ensures silent { IfErr result (λ e. e ≢ EngineError.Write → W.told out.new ≡ W.told out.old) }
    ensures taken { OnOk result (AreTakenFacts text.now (map (λ w. w.now) inputs.now) round) }
    ensures refused { IfErr result (AreRefusedFacts text.now (map (λ w. w.now) inputs.now) round) }
    ensures inside { IfErr result (IsInsideOf text.now) }
{
    let found = facts_of(alloc, text, inputs, round)?;
    match print_found(found, out) {
        Ok(()) => Ok(0),
        Err(_) => Err(EngineError::Write),
    }
}

/// A text's program with its inputs, and the facts of a round of it.
#[derive(Drop)]
struct Found<'t> {
    prepared: Prepared<'t>,
    round: Round,
}

/// Writes the facts that were found, a line for each. Takes no memory.
fn print_found<W: Sink>(found: Found<'_>, out: &mut W) -> Result<(), PrintError>
    ensures { Prints (W.told out.old) (W.told out.new)
        (facts_text found.entry.prepared.compiled.text (facts_found found.entry)) result }
{
    let Found { prepared, round } = found;
    let compiled = &prepared.compiled;
    write_round(round, compiled.checked(), compiled.text(), out)
}

/// The facts of a round of the text on these input words.
fn facts_of<'t>(
    alloc: Global,
    text: &'t str,
    inputs: &[&str],
    round: u32,
) -> Result<Found<'t>, EngineError>
    ensures text { IfOk result (λ f. f.prepared.compiled.text ≡ text.now) }
    ensures facts { IfOk result
        (λ f. AreFactsOf text.now (map (λ w. w.now) inputs.now) round (facts_found f)) }
    ensures taken { OnOk result (AreTakenFacts text.now (map (λ w. w.now) inputs.now) round) }
    ensures refused { IfErr result (AreRefusedFacts text.now (map (λ w. w.now) inputs.now) round) }
    ensures inside { IfErr result (IsInsideOf text.now) }
    ensures not_write { IfErr result (λ e. e ≢ EngineError.Write) }
{
    match prepare(alloc, text, inputs) {
        Ok(prepared) => match facts_of_prepared(alloc, &prepared, round) {
            Ok(round) => Ok(Found { prepared, round }),
            Err(error) => Err(error),
        },
        Err(error) => Err(error),
    }
}

/// The facts of a round of a compiled program on its inputs.
fn facts_of_prepared(
    alloc: Global,
    prepared: &Prepared<'_>,
    round: u32,
) -> Result<Round, EngineError>
    ensures facts { IfOk result (λ r. AreFacts (source prepared.now.compiled.checked prepared.now.inputs.values) round
        (facts_in prepared.now.compiled.checked r.paths r.rows.items)) }
    ensures few { IfOk result (λ r. (round ≤ 10000)
        × (length (facts_in prepared.now.compiled.checked r.paths r.rows.items) ≤ 1000000)) }
    ensures refused { IfErr result
        (AreRefusedRounds (source prepared.now.compiled.checked prepared.now.inputs.values) round) }
{
    match find_round(alloc, prepared.compiled.checked(), &prepared.inputs, round) {
        Ok(facts) => Ok(facts),
        Err(RoundsError::BadRounds) => Err(EngineError::BadRounds),
        Err(RoundsError::TooManyFacts) => Err(EngineError::TooManyFacts),
        Err(RoundsError::Memory) => Err(EngineError::Memory),
    }
}
