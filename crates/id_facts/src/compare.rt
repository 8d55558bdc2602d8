//! How facts compare by path and row, as the facts of the source that they are (docs/MEANING.md, "Order").

ghost use Rattle.std.specs.Prelude.{◌≡◌, ◌<◌, ◌+◌, false};
ghost use Rattle.std.specs.Cmp.Lexicographic.{slice_cmp};
ghost use Rattle.id_source.specs.Orders.{kind_of, step_cmp};
ghost use Rattle.id_facts.specs.Listed.{fact_cmp, fact_of, name_at, path_at, point_cmp, site_cmp, sort_of, value_at};
ghost use Rattle.id_facts.specs.Listed.{steps_in_all, value_cmp};
ghost use Rattle.id_facts.specs.RowFacts.{same_trail};
ghost use Rattle.std.specs.Ordering.{int_cmp, ordering_then};
ghost use Rattle.id_check.specs.Programs.{place};
ghost use Rattle.id_facts.specs.Depths.{compared, last_step};

use crate::facts::{RowFact, RowValue, Trail, path_of, row_of, same_trail};
use crate::tree::{Tree, last_step, place_of};
use id_check::Checked;
use std::cmp::Ordering;

/// How two facts compare: by their kinds, then as facts of one kind.
pub fn compare(checked: &Checked, tree: &Tree, a: RowFact, b: RowFact) -> Ordering
    ensures { result ≡ fact_cmp (fact_of checked.now tree.now a) (fact_of checked.now tree.now b) }
{
    match (a, b) {
        (
            RowFact::On { path, row },
            RowFact::On {
                path: other,
                row: there,
            },
        ) => compare_points(checked, tree, path, row, other, there),
        (
            RowFact::Has { path, row, value },
            RowFact::Has {
                path: other,
                row: there,
                value: second,
            },
        ) => match compare_points(checked, tree, path, row, other, there) {
            Ordering::Equal => compare_values(checked, tree, value, second),
            points => points,
        },
        (
            RowFact::Shape { name, low, high },
            RowFact::Shape {
                name: other,
                low: first,
                high: last,
            },
        ) => match compare_names(checked, tree, name, other) {
            Ordering::Equal => match low.cmp(&first) {
                Ordering::Equal => high.cmp(&last),
                lows => lows,
            },
            names => names,
        },
        (
            RowFact::Put {
                path,
                row,
                name,
                index,
                value,
            },
            RowFact::Put {
                path: other,
                row: there,
                name: second,
                index: next,
                value: last,
            },
        ) => match compare_cells(checked, tree, name, index, second, next) {
            Ordering::Equal => match compare_points(checked, tree, path, row, other, there) {
                Ordering::Equal => compare_values(checked, tree, value, last),
                stores => stores,
            },
            cells => cells,
        },
        (
            RowFact::Ask {
                path,
                row,
                name,
                index,
            },
            RowFact::Ask {
                path: other,
                row: there,
                name: second,
                index: next,
            },
        ) => match compare_points(checked, tree, path, row, other, there) {
            Ordering::Equal => compare_cells(checked, tree, name, index, second, next),
            fetches => fetches,
        },
        _ => kind_of(a).cmp(&kind_of(b)),
    }
}

/// 0 for On, 1 for Has, 2 for Shape, 3 for Put, 4 for Ask.
fn kind_of(fact: RowFact) -> usize
    ensures { (P : _) → (fs : _) → result ≡ kind_of (fact_of P fs fact) }
{
    match fact {
        RowFact::On { .. } => 0,
        RowFact::Has { .. } => 1,
        RowFact::Shape { .. } => 2,
        RowFact::Put { .. } => 3,
        RowFact::Ask { .. } => 4,
    }
}

/// How two facts compare by path and then by place.
fn compare_points(
    checked: &Checked,
    tree: &Tree,
    path: Trail,
    row: usize,
    other: Trail,
    there: usize,
) -> Ordering
    ensures { result ≡ point_cmp (path_at checked.now tree.now path) (place checked.now row)
        (path_at checked.now tree.now other) (place checked.now there) }
{
    match compare_paths(checked, tree, path, other) {
        Ordering::Equal => place_of(checked, row).cmp(&place_of(checked, there)),
        paths => paths,
    }
}

/// How two values compare: numbers before truth values, and these before structures.
fn compare_values(checked: &Checked, tree: &Tree, a: RowValue, b: RowValue) -> Ordering
    ensures { result ≡ value_cmp (value_at checked.now tree.now a) (value_at checked.now tree.now b) }
{
    match (a, b) {
        (RowValue::Int(first), RowValue::Int(second)) => first.cmp(&second),
        (RowValue::Bool(first), RowValue::Bool(second)) => first.cmp(&second),
        (RowValue::Name(first), RowValue::Name(second)) => {
            compare_names(checked, tree, first, second)
        }
        _ => sort_of(a).cmp(&sort_of(b)),
    }
}

/// 0 for a number, 1 for a truth value, 2 for a structure.
fn sort_of(value: RowValue) -> usize
    ensures { (P : _) → (fs : _) → result ≡ sort_of (value_at P fs value) }
{
    match value {
        RowValue::Int(_) => 0,
        RowValue::Bool(_) => 1,
        RowValue::Name(_) => 2,
    }
}

/// How the names of two structures compare, by path and then by place.
fn compare_names(checked: &Checked, tree: &Tree, name: usize, other: usize) -> Ordering
    ensures { result ≡ site_cmp (name_at checked.now tree.now name) (name_at checked.now tree.now other) }
{
    let made = tree.fact(name);
    let there = tree.fact(other);
    compare_points(
        checked,
        tree,
        path_of(made),
        row_of(made),
        path_of(there),
        row_of(there),
    )
}

/// How two cells compare, by structure and then by index.
fn compare_cells(
    checked: &Checked,
    tree: &Tree,
    name: usize,
    index: i64,
    other: usize,
    there: i64,
) -> Ordering
    ensures { result ≡ ordering_then
        (site_cmp (name_at checked.now tree.now name) (name_at checked.now tree.now other)) (int_cmp index there) }
{
    match compare_names(checked, tree, name, other) {
        Ordering::Equal => index.cmp(&there),
        names => names,
    }
}

/// How two paths compare by their steps. From the deeper one on it goes outwards, until both are one.
fn compare_paths(checked: &Checked, tree: &Tree, a: Trail, b: Trail) -> Ordering
    ensures { result
        ≡ slice_cmp step_cmp (path_at checked.now tree.now a).steps (path_at checked.now tree.now b).steps }
{
    let mut first = a;
    let mut second = b;
    let mut found = Ordering::Equal;
    while !same_trail(first, second) {
        let (outer, other, last) = outwards(checked, tree, first, second, found);
        first = outer;
        second = other;
        found = last;
    }
    found
}

/// Two paths that compare as these do, with what was found at their last steps: the deeper one without its last step,
/// and of two that are as deep both.
fn outwards(
    checked: &Checked,
    tree: &Tree,
    a: Trail,
    b: Trail,
    found: Ordering,
) -> (Trail, Trail, Ordering)
    requires { same_trail a b ≡ false }
    ensures same { compared checked.now tree.now result.0 result.1 result.2
        ≡ compared checked.now tree.now a b found }
    ensures nearer { steps_in_all result.0 + steps_in_all result.1 < steps_in_all a + steps_in_all b }
{
    let deep = tree.depth(a);
    let there = tree.depth(b);
    if deep < there {
        (a, tree.outside(b), Ordering::Less)
    } else if there < deep {
        (tree.outside(a), b, Ordering::Greater)
    } else {
        let last = compare_last(checked, tree, a, b, found);
        (tree.outside(a), tree.outside(b), last)
    }
}

/// How the last steps of two paths compare, and where they are one, this.
fn compare_last(checked: &Checked, tree: &Tree, a: Trail, b: Trail, behind: Ordering) -> Ordering
    ensures { result
        ≡ ordering_then (step_cmp (last_step checked.now tree.now a) (last_step checked.now tree.now b)) behind }
{
    match last_step(checked, tree, a).cmp(&last_step(checked, tree, b)) {
        Ordering::Equal => behind,
        steps => steps,
    }
}
