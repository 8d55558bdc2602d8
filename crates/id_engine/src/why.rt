//! The command that says why there is no answer.

ghost use Rattle.std.specs.Prelude.{◌≡◌, ◌≢◌, ◌≤◌, map, IfOk, IfErr, OnOk};
ghost use Rattle.id_source.specs.Sources.{source};
ghost use Rattle.id_sink.specs.Told.{Prints};
ghost use Rattle.id_print.specs.Reasons.{reasons_text};
ghost use Rattle.id_why.specs.Rounds.{AreReasons};
ghost use Rattle.id_engine.specs.Commands.{ShowsAll, ShowsFront, Why};
ghost use Rattle.id_engine.specs.Reasoned.{AreReasonsOf, AreTakenReasons};
ghost use Rattle.id_compile.specs.Refusals.{AreRefusedFacts, IsInsideOf};
ghost use Rattle.id_engine.specs.Reports.{AreRefusedRounds};

use id_compile::{EngineError, Prepared, prepare};
use id_meaning::RoundsError;
use id_print::{PrintError, Sink, write_reasons};
use id_why::{Reasons, find_reasons};
use std::alloc::Global;

/// Writes the answer of a round of the text on these input words, and what lacks a value in it, a line for each thing,
/// and answers the status, 0.
pub fn reasons_text<W: Sink>(
    alloc: Global,
    text: &str,
    inputs: &[&str],
    round: u32,
    out: &mut W,
) -> Result<u8, EngineError>
    ensures shown { IfOk result
        (ShowsAll (Why round (map (λ w. w.now) inputs.now)) text.now (W.told out.old) (W.told out.new)) }
    ensures cut { result ≡ Err EngineError.Write
        → ShowsFront (Why round (map (λ w. w.now) inputs.now)) text.now (W.told out.old) (W.told out.new) }
    ensures silent { IfErr result (λ e. e ≢ EngineError.Write → W.told out.new ≡ W.told out.old) }
    ensures taken { OnOk result (AreTakenReasons text.now (map (λ w. w.now) inputs.now) round) }
    ensures refused { IfErr result (AreRefusedFacts text.now (map (λ w. w.now) inputs.now) round) }
    ensures inside { IfErr result (IsInsideOf text.now) }
{
    let reasoned = reasons_of(alloc, text, inputs, round)?;
    match print_reasoned(reasoned, round, out) {
        Ok(()) => Ok(0),
        Err(_) => Err(EngineError::Write),
    }
}

/// A text's program with its inputs, and what lacks a value in a round of it.
#[derive(Drop)]
struct Reasoned<'t> {
    prepared: Prepared<'t>,
    reasons: Reasons,
}

/// Writes what was found, a line for each thing. Takes no memory.
fn print_reasoned<W: Sink>(
    reasoned: Reasoned<'_>,
    round: u32,
    out: &mut W,
) -> Result<(), PrintError>
    ensures { Prints (W.told out.old) (W.told out.new) (reasons_text (record {
      text = reasoned.entry.prepared.compiled.text;
      checked = reasoned.entry.prepared.compiled.checked;
      facts = reasoned.entry.reasons.paths;
    }) round reasoned.entry.reasons) result }
{
    let Reasoned { prepared, reasons } = reasoned;
    let compiled = &prepared.compiled;
    write_reasons(reasons, compiled.checked(), round, compiled.text(), out)
}

/// What lacks a value in a round of the text on these input words.
fn reasons_of<'t>(
    alloc: Global,
    text: &'t str,
    inputs: &[&str],
    round: u32,
) -> Result<Reasoned<'t>, EngineError>
    ensures text { IfOk result (λ r. r.prepared.compiled.text ≡ text.now) }
    ensures reasons { IfOk result (λ r. AreReasonsOf text.now (map (λ w. w.now) inputs.now) round
        r.prepared.compiled.checked r.reasons) }
    ensures taken { OnOk result (AreTakenReasons text.now (map (λ w. w.now) inputs.now) round) }
    ensures refused { IfErr result (AreRefusedFacts text.now (map (λ w. w.now) inputs.now) round) }
    ensures inside { IfErr result (IsInsideOf text.now) }
    ensures not_write { IfErr result (λ e. e ≢ EngineError.Write) }
{
    match prepare(alloc, text, inputs) {
        Ok(prepared) => match reasons_of_prepared(alloc, &prepared, round) {
            Ok(reasons) => Ok(Reasoned { prepared, reasons }),
            Err(error) => Err(error),
        },
        Err(error) => Err(error),
    }
}

/// What lacks a value in a round of a compiled program on its inputs.
fn reasons_of_prepared(
    alloc: Global,
    prepared: &Prepared<'_>,
    round: u32,
) -> Result<Reasons, EngineError>
    ensures reasons { IfOk result
        (AreReasons (source prepared.now.compiled.checked prepared.now.inputs.values) round) }
    ensures few { OnOk result (round ≤ 10000) }
    ensures refused { IfErr result
        (AreRefusedRounds (source prepared.now.compiled.checked prepared.now.inputs.values) round) }
{
    match find_reasons(alloc, prepared.compiled.checked(), &prepared.inputs, round) {
        Ok(reasons) => Ok(reasons),
        Err(RoundsError::BadRounds) => Err(EngineError::BadRounds),
        Err(RoundsError::TooManyFacts) => Err(EngineError::TooManyFacts),
        Err(RoundsError::Memory) => Err(EngineError::Memory),
    }
}
