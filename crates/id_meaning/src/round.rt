//! The facts of a round, as they are held and as a list (docs/MEANING.md, "Rounds").

ghost use Rattle.std.specs.Prelude.{◌≡◌, ◌≤◌, ◌<◌, length, IfOk, IfErr, OnOk};
ghost use Rattle.id_source.specs.Sources.{source};
ghost use Rattle.id_source.specs.Computed.{AreFacts, HasMoreFacts};
ghost use Rattle.id_facts.specs.Listed.{facts_in};

use crate::paths::Paths;
use crate::run::facts_of_round;
use id_check::Checked;
use id_facts::{RowFact, facts_in, sorted};
use id_source::{Fact, Inputs};
use std::alloc::{AllocError, Global};

/// The most rounds that may be asked for.
pub const MAX_ROUNDS: u32 = 10_000;

/// The most facts that a round may have.
pub const MAX_FACTS: usize = 1_000_000;

/// Why the facts of a round are not given.
#[derive(Clone, Copy)]
pub enum RoundsError {
    /// More rounds were asked for than `MAX_ROUNDS`.
    BadRounds,
    /// Some round up to that one has more than `MAX_FACTS` facts.
    TooManyFacts,
    /// A growth was refused.
    Memory,
}

/// The facts of a round in the order in which they came, for their paths, and in order.
#[derive(Drop)]
pub struct Round {
    pub paths: Paths,
    pub rows: Vec<RowFact>,
}

/// The facts of round n, each once: On by path and place, then Has by path, place and value, then Shape by name and
/// bounds, then Put by cell, store and value, then Ask by fetch and cell.
///
/// `BadRounds` where n is above `MAX_ROUNDS`, which takes no memory; `TooManyFacts` where some round up to n has
/// more than `MAX_FACTS` facts; `Memory` where a growth was refused. Takes memory for each row of the program and
/// for each fact, and none for the steps of its path; a round takes time for the rows alone that the news of the round
/// before lead to, and none goes on where there are more than `MAX_FACTS` facts.
pub fn find_round(
    alloc: Global,
    checked: &Checked,
    inputs: &Inputs,
    n: u32,
) -> Result<Round, RoundsError>
    ensures facts { IfOk result
        (λ r. AreFacts (source checked.now inputs.now.values) n (facts_in checked.now r.paths r.rows.items)) }
    ensures few_rounds { OnOk result (n ≤ 10000) }
    ensures few_facts { IfOk result (λ r. length (facts_in checked.now r.paths r.rows.items) ≤ 1000000) }
    ensures bad_rounds { IfErr result (λ e. e ≡ RoundsError.BadRounds → 10000 < n) }
    ensures rounds_first { IfErr result (λ e. (e ≡ RoundsError.BadRounds → ⊥) → n ≤ 10000) }
    ensures too_many_facts { IfErr result (λ e. e ≡ RoundsError.TooManyFacts
        → HasMoreFacts (source checked.now inputs.now.values) n 1000000) }
{
    if n > MAX_ROUNDS {
        return Err(RoundsError::BadRounds);
    }
    let facts = facts_of_round(alloc, checked, inputs.values.as_slice(), n)?;
    let paths = Paths::new(alloc, facts)?;
    let rows = sorted(alloc, checked, paths.tree())?;
    Ok(Round { paths, rows })
}

/// The facts of round n, in order, as `find_round` gives them, with their paths.
///
/// The refusals are those of `find_round`. Takes memory for each step of a fact's path, too.
pub fn rounds(
    alloc: Global,
    checked: &Checked,
    inputs: &Inputs,
    n: u32,
) -> Result<Vec<Fact>, RoundsError>
    ensures facts { IfOk result (λ v. AreFacts (source checked.now inputs.now.values) n v.items) }
    ensures few_rounds { OnOk result (n ≤ 10000) }
    ensures few_facts { IfOk result (λ v. length v.items ≤ 1000000) }
    ensures bad_rounds { IfErr result (λ e. e ≡ RoundsError.BadRounds → 10000 < n) }
    ensures rounds_first { IfErr result (λ e. (e ≡ RoundsError.BadRounds → ⊥) → n ≤ 10000) }
    ensures too_many_facts { IfErr result (λ e. e ≡ RoundsError.TooManyFacts
        → HasMoreFacts (source checked.now inputs.now.values) n 1000000) }
{
    let round = match find_round(alloc, checked, inputs, n) {
        Ok(round) => round,
        Err(error) => return Err(error),
    };
    let facts = round.paths.tree().facts();
    let all = facts_in(alloc, checked, facts, round.rows.as_slice())?;
    Ok(all)
}

impl From<AllocError> for RoundsError {
    ghost use Rattle.std.specs.Prelude.{◌≡◌};
    ghost use Rattle.id_meaning.specs.declared.round.RoundsError.TheVariants.{Memory};

    ghost from_gives = { λ _ e. e ≡ Memory };

    fn from(_error: AllocError) -> RoundsError {
        RoundsError::Memory
    }
}
