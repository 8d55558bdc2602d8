//! What the rows of a program have after n rounds (docs/MEANING.md, "Rounds").

ghost use Rattle.std.specs.Prelude.{◌≡◌, ◌≤◌, ◌<◌, [], drop, length, IfErr, IfOk, OnOk};
ghost use Rattle.id_source.specs.Sources.{source};
ghost use Rattle.id_source.specs.Computed.{HasMoreFacts};
ghost use Rattle.id_facts.specs.Cells.{items};
ghost use Rattle.id_facts.specs.RowFacts.{AreBefore};
ghost use Rattle.id_facts.specs.Listed.{IsRound};
ghost use Rattle.id_meaning.specs.Following.{AreFirst, FollowsNews, Goes, IsFewRound, IsStop, StartsWith, read_of};

use crate::followed::Followed;
use crate::round::{MAX_FACTS, RoundsError};
use crate::rules::Rules;
use id_check::Checked;
use id_facts::{Facts, RowFact, first_facts};
use id_value::Constant;
use std::alloc::{AllocError, Global};

/// The facts of round n of the program with these inputs, unless some round up to it has more than `MAX_FACTS`: then
/// no more are looked for. Each round looks only at what the news of the one before lead to.
pub fn facts_of_round(
    alloc: Global,
    checked: &Checked,
    inputs: &[Constant],
    n: u32,
) -> Result<Facts, RoundsError>
    ensures facts { IfOk result (λ v. IsRound (source checked.now inputs.now) n v) }
    ensures few { IfOk result (λ v. length v ≤ 1000000) }
    ensures asked { IfErr result (λ e. e ≡ RoundsError.BadRounds → ⊥) }
    ensures too_many { IfErr result
        (λ e. e ≡ RoundsError.TooManyFacts → HasMoreFacts (source checked.now inputs.now) n 1000000) }
{
    let mut facts = Facts::new(alloc)?;
    if n == 0 {
        return Ok(facts);
    }
    if let Err(error) = learn(alloc, &mut facts, checked, inputs, n) {
        return Err(error);
    }
    Ok(facts)
}

/// Learns the facts of round n, where there are none so far.
fn learn(
    alloc: Global,
    facts: &mut Facts,
    checked: &Checked,
    inputs: &[Constant],
    n: u32,
) -> Result<(), RoundsError>
    requires none { facts.old ≡ [] }
    requires some { 0 < n }
    ensures facts { OnOk result (IsFewRound (source checked.now inputs.now) n facts.new) }
    ensures stop { IfErr result (IsStop (source checked.now inputs.now) n) }
{
    if let Err(error) = learn_first(alloc, facts, checked, inputs) {
        return Err(error);
    }
    let mut followed = Followed::new(alloc, checked)?;
    for _round in 1..n {
        if followed.len() == facts.len() {
            return Ok(());
        }
        followed = learn_next(alloc, facts, followed)?;
        if facts.len() > MAX_FACTS {
            return Err(RoundsError::TooManyFacts);
        }
    }
    Ok(())
}

/// Learns the facts of the first round, where there are none so far.
fn learn_first(
    alloc: Global,
    facts: &mut Facts,
    checked: &Checked,
    inputs: &[Constant],
) -> Result<(), RoundsError>
    requires { facts.old ≡ [] }
    ensures first { OnOk result (AreFirst checked.now inputs.now facts.new) }
    ensures stop { IfErr result (IsStop (source checked.now inputs.now) 1) }
{
    let first = first_facts(alloc, checked, inputs)?;
    facts.learn_all(first.as_slice())?;
    if facts.len() > MAX_FACTS {
        return Err(RoundsError::TooManyFacts);
    }
    Ok(())
}

/// Adds the news among the facts to those that have been followed, and learns what follows from them, until there are
/// more than `MAX_FACTS`.
fn learn_next<'a>(
    alloc: Global,
    facts: &mut Facts,
    followed: Followed<'a>,
) -> Result<Followed<'a>, AllocError>
    requires front { StartsWith (items followed.cells) facts.old }
    requires before { AreBefore facts.old }
    ensures { IfOk result (λ b. FollowsNews followed.entry b facts.old facts.new) }
{
    let done = followed.len();
    let followed = followed.with(facts)?;
    learn_behind(alloc, facts, &followed.rules(), done)?;
    Ok(followed)
}

/// Learns what follows from the facts of the cells behind the first `done`, until there are more than `MAX_FACTS`.
fn learn_behind(
    alloc: Global,
    facts: &mut Facts,
    rules: &Rules<'_>,
    done: usize,
) -> Result<(), AllocError>
    requires { done ≤ length (items rules.now.cells.now) }
    ensures { OnOk result
        (Goes (read_of rules.now) (drop done (items rules.now.cells.now)) facts.old facts.new) }
{
    learn_effects(alloc, facts, rules, &rules.cells.items.as_slice()[done..])
}

/// Learns what follows from these facts, with others that the cells have, until there are more than `MAX_FACTS`.
fn learn_effects(
    alloc: Global,
    facts: &mut Facts,
    rules: &Rules<'_>,
    news: &[RowFact],
) -> Result<(), AllocError>
    ensures { OnOk result (Goes (read_of rules.now) news.now facts.old facts.new) }
{
    let mut found = Vec::new(alloc);
    for fact in news {
        found.clear();
        rules.add_effects(alloc, &mut found, *fact)?;
        facts.learn_all(found.as_slice())?;
        if facts.len() > MAX_FACTS {
            return Ok(());
        }
    }
    Ok(())
}
