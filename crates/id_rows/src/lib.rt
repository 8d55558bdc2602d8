//! Worked rows of the machine, of its worker threads and of merged logs: calls whose answers were worked by hand from
//! docs/GRAPH.md, docs/MACHINE.md and docs/RUNTIMES.md.
//!
//! Keeps: nothing. All of it is tests, in a crate of their own, so that no crate below is proved once more for them.
//! Read first: `rows`.
//! Not here: whole programs (`idc`).
#![tactic(auto)]

#[cfg(test)]
mod asks;
#[cfg(test)]
mod countdown;
#[cfg(test)]
mod graphs;
#[cfg(test)]
mod kept;
#[cfg(test)]
mod memory;
#[cfg(test)]
mod merging;
#[cfg(test)]
mod onward;
#[cfg(test)]
mod rows;
#[cfg(test)]
mod workers;
