//! A run by hand: the messages of a compiled text are delivered in an order of this crate's own (docs/LIBRARY.md).
//!
//! Keeps: nothing.
//! Errors: `Failure`.
//! Read first: `specs/ByHand.antt`, then `answer_by_hand`.
//! Not here: what comes of a text with its inputs (`id_compile`), machines (`id_core`), the laws (`id_laws`).
#![tactic(auto)]

ghost use Rattle.std.specs.Prelude.{◌≡◌, map, IfOk, OnOk};
ghost use Rattle.id_core.specs.Machines.{IsQuiet};
ghost use Rattle.id_core.specs.Observed.{answer};
ghost use Rattle.id_source.specs.Rounds.{IsAnswer};
ghost use Rattle.id_source.specs.Sources.{source};
ghost use Rattle.id_by_hand.specs.ByHand.{IsAnswerOf, IsLater};

use id_compile::{Prepared, prepare};
use id_core::{Machine, TakeError};
use id_source::SourceValue;
use std::alloc::Global;
use std::io;

/// A number of the row 0, 1, 1, 2, 3, 5, ..
const FIB: &str = "def fib(n: int): int = if n < 2 then n else fib(n - 1) + fib(n - 2);\n\
    def main(n: int): int = fib(n);\n";

/// How many elements the machine has, and the most deliveries.
const ELEMENTS: u32 = 4;

const MOST: u32 = 100_000;

/// Why there is no answer.
#[derive(Clone, Copy)]
enum Failure {
    /// The text or its inputs are refused.
    Refused,
    /// There was no memory, the deliveries were too few, or an event was a fault.
    NotQuiet,
}

/// Delivers the last message each time, until none is in flight, and at most `MOST` times.
fn last_first(machine: &mut Machine<'_>) -> Result<(), TakeError>
    ensures { OnOk result (IsLater machine.old machine.new) }
{
    for _ in 0..MOST {
        let count = machine.in_flight().len();
        if count == 0 {
            return Ok(());
        }
        let _ = machine.deliver(count - 1)?;
    }
    Ok(())
}

/// The answer of a program with its inputs, if it has one: by a run of this crate's own, which fell quiet.
fn answer_of(alloc: Global, prepared: &Prepared<'_>) -> Result<Option<SourceValue>, Failure>
    ensures { IfOk result (IsAnswer (source prepared.now.compiled.checked prepared.now.inputs.values)) }
{
    id_laws::inputs_fit();
    id_laws::complete();
    let graph = prepared.compiled.valid();
    let Ok(mut machine) = Machine::new(alloc, graph, &prepared.inputs, ELEMENTS) else {
        return Err(Failure::NotQuiet);
    };
    match last_first(&mut machine) {
        Ok(()) => quiet_answer(alloc, &machine),
        Err(_) => Err(Failure::NotQuiet),
    }
}

/// The answer that a machine shows, where it is quiet.
fn quiet_answer(alloc: Global, machine: &Machine<'_>) -> Result<Option<SourceValue>, Failure>
    ensures quiet { OnOk result (IsQuiet machine.now.world) }
    ensures shown { IfOk result (λ o. o ≡ answer machine.now.graph machine.now.world) }
{
    if !machine.is_quiet() {
        return Err(Failure::NotQuiet);
    }
    match machine.answer(alloc) {
        Ok(answer) => Ok(answer),
        Err(_) => Err(Failure::NotQuiet),
    }
}

/// The answer of the text's program on the inputs that these words give.
fn answer_by_hand(alloc: Global, text: &str, words: &[&str]) -> Result<Option<SourceValue>, Failure>
    ensures { IfOk result (IsAnswerOf text.now (map (λ w. w.now) words.now)) }
{
    match prepare(alloc, text, words) {
        Ok(prepared) => answer_of(alloc, &prepared),
        Err(_) => Err(Failure::Refused),
    }
}

fn main(rt: HostRuntime) -> io::Result<()> {
    match answer_by_hand(rt.alloc(), FIB, &["n=10"]) {
        Ok(Some(SourceValue::Int(answer))) => println!(rt; "answer {answer}"),
        Ok(Some(_)) => println!(rt; "another answer"),
        Ok(None) => println!(rt; "no answer"),
        Err(Failure::Refused) => println!(rt; "refused"),
        Err(Failure::NotQuiet) => println!(rt; "not quiet"),
    }
}
