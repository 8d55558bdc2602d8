//! A text with its inputs.

ghost use Rattle.std.specs.Prelude.{◌≡◌, ◌≢◌, ◌≤◌, length, map, IfOk, IfErr, OnOk};
ghost use Rattle.id_source.specs.Sources.{AreInputs};
ghost use Rattle.id_source.specs.Inputs.{AreInputsOf};
ghost use Rattle.id_build.specs.Rows.{size};
ghost use Rattle.id_compile.specs.Kept.{AreInputs-prop};
ghost use Rattle.id_compile.specs.Programs.{IsPlacedWithin, IsProgramOf};
ghost use Rattle.id_compile.specs.Refusals.{AreRefusedFor, IsInsideOf, IsRefusedSource};

use crate::compiled::{Compiled, compile};
use crate::error::EngineError;
use id_check::Checked;
use id_source::{InputError, Inputs, param_name, read_inputs};
use std::alloc::Global;

/// A text with its program, the graph of that, and the inputs of its `main`.
pub struct Prepared<'t> {
    pub compiled: Compiled<'t>,
    pub inputs: Inputs,
    pub ghost own: { AreInputs compiled.checked inputs.values } by { AreInputs-prop compiled.checked inputs.values },
}

/// A drop of its own, so that who holds a text with its inputs lets it go by one call.
impl<'t> Drop for Prepared<'t> {
    fn drop(self) {
        let Prepared {
            compiled: _,
            inputs: _,
        } = self;
    }
}

/// The inputs that these words give a program.
fn inputs_of(alloc: Global, checked: &Checked, words: &[&str]) -> Result<Inputs, EngineError>
    ensures inputs { IfOk result (λ i. AreInputsOf checked.now (map (λ w. w.now) words.now) i.values) }
    ensures own { IfOk result (λ i. AreInputs checked.now i.values) }
    ensures refused { IfErr result (AreRefusedFor checked.now (map (λ w. w.now) words.now)) }
{
    match read_inputs(alloc, checked, words) {
        Ok(inputs) => Ok(inputs),
        Err(InputError::UnknownInput { word }) => Err(EngineError::UnknownInput { word }),
        Err(InputError::RepeatedInput { word }) => Err(EngineError::RepeatedInput { word }),
        Err(InputError::BadInput { word }) => Err(EngineError::BadInput { word }),
        Err(InputError::MissingInput { param }) => {
            let param = param_name(alloc, checked, param)?;
            Err(EngineError::MissingInput { param })
        }
        Err(InputError::Memory) => Err(EngineError::Memory),
    }
}

/// A program with its graph and the inputs that these words give it.
fn with_inputs<'t>(
    alloc: Global,
    compiled: Compiled<'t>,
    words: &[&str],
) -> Result<Prepared<'t>, EngineError>
    ensures same { IfOk result (λ p. p.compiled ≡ compiled.entry) }
    ensures inputs { IfOk result (λ p. AreInputsOf p.compiled.checked (map (λ w. w.now) words.now) p.inputs.values) }
    ensures refused { IfErr result (AreRefusedFor compiled.entry.checked (map (λ w. w.now) words.now)) }
{
    match inputs_of(alloc, compiled.checked(), words) {
        Ok(inputs) => Ok(Prepared { compiled, inputs }),
        Err(error) => {
            drop(compiled);
            Err(error)
        }
    }
}

/// The program of a text, its graph, and the inputs that the words give it; or why there are none.
pub fn prepare<'t>(
    alloc: Global,
    text: &'t str,
    words: &[&str],
) -> Result<Prepared<'t>, EngineError>
    ensures text { IfOk result (λ p. p.compiled.text ≡ text.now) }
    ensures program { IfOk result (λ p. IsProgramOf text.now p.compiled.checked) }
    ensures small { IfOk result (λ p. size p.compiled.checked ≤ 1000000) }
    ensures inputs { IfOk result (λ p. AreInputsOf p.compiled.checked (map (λ w. w.now) words.now) p.inputs.values) }
    ensures own { IfOk result (λ p. AreInputs p.compiled.checked p.inputs.values) }

    // What the printers rest on.
    ensures within { IfOk result (λ p. IsPlacedWithin (length text.now) p.compiled.checked) }
    ensures short { OnOk result (length text.now ≤ 1048576) }

    ensures refused { IfErr result (IsRefusedSource text.now (map (λ w. w.now) words.now)) }
    ensures inside { IfErr result (IsInsideOf text.now) }
    ensures not_write { IfErr result (λ e. e ≢ EngineError.Write) }
{
    match compile(alloc, text) {
        Ok(compiled) => with_inputs(alloc, compiled, words),
        Err(error) => Err(EngineError::Compile(error)),
    }
}
