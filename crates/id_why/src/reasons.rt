//! The things that lack a value in a round of a source.

ghost use Rattle.std.specs.Prelude.{◌≡◌, ◌≤◌, ◌<◌, suc, true, IfErr, IfOk, OnOk};
ghost use Rattle.id_source.specs.Sources.{main_body, source};
ghost use Rattle.id_source.specs.Computed.{HasMoreFacts};
ghost use Rattle.id_facts.specs.Listed.{IsRound};
ghost use Rattle.id_facts.specs.declared.facts.Trail.TheVariants.{Outermost};
ghost use Rattle.id_why.specs.Known.{AreIndexed, known_facts, values};
ghost use Rattle.id_why.specs.Lines.{Explain};
ghost use Rattle.id_why.specs.Rounds.{AreReasons, first_of};
ghost use Rattle.id_why.specs.Walks.{AreApart};

use crate::known::Known;
use crate::lines::{Line, explain};
use id_check::Checked;
use id_facts::{Facts, RowValue, Trail};
use id_meaning::{MAX_ROUNDS, Paths, RoundsError, facts_of_round};
use id_source::{Inputs, link, main_body};
use id_value::Constant;
use std::alloc::{AllocError, Global};

/// The facts of a round, the answer by them, and the things that lack a value in it.
#[derive(Drop)]
pub struct Reasons {
    pub paths: Paths,
    pub answer: Option<RowValue>,
    pub lines: Vec<Line>,
    /// Whether the next round adds no fact.
    pub ended: bool,
}

/// What lacks a value in round n.
///
/// The refusals are those of `id_meaning::rounds`. Takes memory for each row of the program and for each fact.
pub fn find_reasons(
    alloc: Global,
    checked: &Checked,
    inputs: &Inputs,
    n: u32,
) -> Result<Reasons, RoundsError>
    ensures reasons { IfOk result (AreReasons (source checked.now inputs.now.values) n) }
    ensures few_rounds { OnOk result (n ≤ 10000) }
    ensures bad_rounds { IfErr result (λ e. e ≡ RoundsError.BadRounds → 10000 < n) }
    ensures rounds_first { IfErr result (λ e. (e ≡ RoundsError.BadRounds → ⊥) → n ≤ 10000) }
    ensures too_many_facts { IfErr result (λ e. e ≡ RoundsError.TooManyFacts
        → HasMoreFacts (source checked.now inputs.now.values) n 1000000) }
{
    if n > MAX_ROUNDS {
        return Err(RoundsError::BadRounds);
    }
    let facts = facts_of_round(alloc, checked, inputs.values.as_slice(), n)?;
    let ended = has_ended(alloc, checked, inputs.values.as_slice(), n, &facts)?;
    let known = Known::new(alloc, checked, &facts)?;
    let answer = answer_in(alloc, checked, &known)?;
    let lines = lines_in(alloc, checked, &known)?;
    let paths = Paths::new(alloc, facts)?;
    Ok(Reasons {
        paths,
        answer,
        lines,
        ended,
    })
}

/// Whether the round behind n adds no fact to these, which are those of round n.
fn has_ended(
    alloc: Global,
    checked: &Checked,
    inputs: &[Constant],
    n: u32,
    facts: &Facts,
) -> Result<bool, AllocError>
    requires few { n ≤ 10000 }
    requires facts { IsRound (source checked.now inputs.now) n facts.now }
    ensures { IfOk result (λ b. b ≡ true → IsRound (source checked.now inputs.now) (suc n) facts.now) }
{
    match facts_of_round(alloc, checked, inputs, n + 1) {
        Ok(next) => Ok(next.len() == facts.len()),
        Err(RoundsError::Memory) => Err(AllocError),
        Err(_) => Ok(false),
    }
}

/// The answer by the facts, if they give one.
fn answer_in(
    alloc: Global,
    checked: &Checked,
    known: &Known,
) -> Result<Option<RowValue>, AllocError>
    ensures { IfOk result (λ o. o ≡ first_of (values known.now Outermost (main_body checked.now))) }
{
    let values = known.values(alloc, Trail::Outermost, main_body(checked))?;
    Ok(first_of(values.as_slice()))
}

/// The first of these values, if there is one.
fn first_of(values: &[RowValue]) -> Option<RowValue>
    ensures { result ≡ first_of values.now }
{
    match values.first() {
        Some(value) => Some(*value),
        None => None,
    }
}

/// The lines of the things that lack a value by the facts.
fn lines_in(alloc: Global, checked: &Checked, known: &Known) -> Result<Vec<Line>, AllocError>
    requires indexed { AreIndexed checked.now known.now }
    requires apart { AreApart (known_facts known.now) }
    ensures { IfOk result (λ v. Explain checked.now (known_facts known.now) v.items) }
{
    let links = link(alloc, checked)?;
    explain(alloc, checked, &links, known)
}
