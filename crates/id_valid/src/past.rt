//! Numbers past the end of a graph that a block names: what it asks for is not there.

ghost use Rattle.std.specs.Prelude.{ℕ, ◌+◌, ◌||◌, ◌==◌, Bool, length};
ghost use Rattle.std.specs.List.{list_any};
ghost use Rattle.id_valid.specs.Roles.{is_entry, is_first, is_second};
ghost use Rattle.id_valid.specs.Past.{has_role, FirstPast, Least};

use id_instr::Graph;

/// The first faulty instruction past the end, if there is one. There instruction 0 is faulty, and
/// those with a role.
pub fn first_past(graph: &Graph) -> Option<u64>
    ensures { FirstPast graph.now result }
{
    if graph.instrs().is_empty() {
        Some(0)
    } else {
        least_past(graph)
    }
}

/// The least number past the end that is the first or second instruction of a block or an entry,
/// if there is one.
fn least_past(graph: &Graph) -> Option<u64>
    ensures { Least (has_role graph.now) (length graph.now.instrs) result }
{
    let end = graph.instrs().len() as u64;
    let roles = earlier(least_first(graph, end), least_second(graph, end));
    earlier(roles, least_entry(graph, end))
}

/// The least number from the end on that is the first instruction of a block, if there is one.
fn least_first(graph: &Graph, end: u64) -> Option<u64>
    ensures { Least (is_first graph.now) end result }
{
    let mut least = None;
    for block in graph.blocks() {
        least = lower(least, end, u64::from(block.first));
    }
    least
}

/// The least number from the end on that is the second instruction of a block, if there is one.
fn least_second(graph: &Graph, end: u64) -> Option<u64>
    ensures { Least (is_second graph.now) end result }
{
    let mut least = None;
    for block in graph.blocks() {
        least = lower(least, end, u64::from(block.first) + 1);
    }
    least
}

/// The least number from the end on that is an entry of a block, if there is one.
fn least_entry(graph: &Graph, end: u64) -> Option<u64>
    ensures { Least (is_entry graph.now) end result }
{
    let mut least = None;
    for block in graph.blocks() {
        least = earlier(least, least_of(block.entries.as_slice(), end));
    }
    least
}

/// The least of the numbers from the end on, if there is one.
fn least_of(numbers: &[u32], end: u64) -> Option<u64>
    ensures { Least (λ k. list_any (λ e. e == k) numbers.now) end result }
{
    let mut least = None;
    for number in numbers {
        least = lower(least, end, u64::from(*number));
    }
    least
}

/// The least so far, or the number if it is past the end and less.
fn lower(least: Option<u64>, end: u64, number: u64) -> Option<u64>
    ensures { (test : ℕ → Bool) → Least test end least →
        Least (λ k. test k || (number == k)) end result }
{
    if number < end {
        least
    } else {
        earlier(least, Some(number))
    }
}

/// The lesser of two numbers, of those that there are.
fn earlier(a: Option<u64>, b: Option<u64>) -> Option<u64>
    ensures { (p q : ℕ → Bool) (end : ℕ) → Least p end a → Least q end b →
        Least (λ k. p k || q k) end result }
{
    match (a, b) {
        (Some(m), Some(n)) => Some(m.min(n)),
        (Some(m), None) => Some(m),
        (None, b) => b,
    }
}
