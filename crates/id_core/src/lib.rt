//! The machine: elements, the messages in flight between them, and runs from the start.
//!
//! Keeps: 1 to 64 elements in order of their numbers, and in flight only what fits the graph, in the order in which it
//! was sent.
//! Errors: `TakeError` and `MachineError`; after each of them nothing has changed.
//! Read first: `specs/Machines.antt`, then `Machine::deliver`.
//! Not here: elements (`id_step`), records (`id_record`), what they show (`id_observe`): their names are handed on.
#![tactic(auto)]

mod counts;
mod entering;
mod machine;

pub use counts::{Count, MAX_ELEMENTS};
pub use entering::{Start, takes_inputs};
pub use id_observe::{CellValue, Holdings, Merged, Observed, merge_records, observe_records};
pub use id_record::{Event, Events, Fault, Keeps, Outputs, Step};
pub use id_step::{Element, Gate, Handling, Open, TakeError, fits};
pub use machine::{Machine, MachineError, fresh_elements, start_flight};
