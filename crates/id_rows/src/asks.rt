//! What fetches ask for and which of them wait, as runs of whole programs show it.

use crate::kept::observed;
use crate::workers::{graph_of, run_on};
use id_core::Open;
use id_source::{Ask, Site};
use std::alloc::AllocError;
use std::process::Abort;
use std::sync::Wait;
use std::test::Fail;
use std::thread::Threads;

/// An ask outside of calls and loops: the place of the fetch, that of the array, and the index.
type Row = (usize, usize, i64);

/// Whether the site is outside of calls and loops, at this place.
fn is_at(site: &Site, place: usize) -> bool {
    site.path.steps.as_slice().is_empty() && site.place == place
}

/// Whether the ask is that of the row.
fn is_row(ask: &Ask, row: Row) -> bool {
    let (fetch, array, index) = row;
    is_at(&ask.fetch, fetch) && is_at(&ask.name, array) && ask.index == index
}

/// Whether these are the asks of the rows, in some order.
fn are_rows(asks: &[Ask], rows: &[Row]) -> bool {
    let all = rows
        .iter()
        .all(|row| asks.iter().any(|ask| is_row(ask, *row)));
    all && asks.len() == rows.len()
}

/// Whether the run of a text on so many elements shows that these fetches ask, and that these wait.
fn is_shown<R: Abort + AllocGlobal + Threads + Wait + Sync>(
    rt: &R,
    text: &str,
    elements: u32,
    asks: &[Row],
    waiting: &[Row],
) -> Result<bool, AllocError> {
    let graph = graph_of(rt.alloc(), text)?;
    match run_on(rt, &graph, elements, elements, &Open) {
        Ok(run) => {
            let shown = observed(rt.alloc(), run.machine())?;
            let asked = are_rows(shown.asks.as_slice(), asks);
            Ok(asked && are_rows(shown.waiting.as_slice(), waiting))
        }
        Err(_) => Ok(false),
    }
}

#[test]
fn each_fetch_asks_and_those_of_empty_cells_wait(rt: HostRuntime) -> Result<(), Fail> {
    let unfilled = "def main(): int = { a = array(1, 2); in a[1] + a[1] };";
    let filled = "def main(): int = { a = array(1, 2); a[1] = 5; in a[1] + a[2] };";
    let twice: &[Row] = &[(41, 24, 1), (48, 24, 1)];
    let both: &[Row] = &[(51, 24, 1), (58, 24, 2)];
    let table = [
        (unfilled, twice, twice, "nothing is stored"),
        (filled, both, &both[1..], "a[1] is stored, a[2] is not"),
    ];
    for (text, asks, waiting, why) in table {
        for elements in [1, 3] {
            let shown = is_shown(&rt, text, elements, asks, waiting)?;
            assert!(rt; shown, "on {elements} elements: {why}");
        }
    }
    Ok(())
}
