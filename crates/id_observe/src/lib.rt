//! What the records of elements show: the answer, what binders have, structures, fetches and the faults.
//!
//! Keeps: nothing beyond its values; it copies no event.
//! Errors: want of memory alone.
//! Read first: `specs/Paths.antt` (the path of each tag), `specs/Merged.antt` (records as one list, by stamp, then by
//! element), `specs/Observed.antt`, then `merge_records`, `observe_records` and `observe_holdings`.
//! Not here: the records (`id_record`), the elements (`id_step`), how what is shown is printed (`id_print`).
#![tactic(auto)]

mod answered;
mod asks;
mod faults;
mod first;
mod holdings;
mod merge;
mod observe;
mod paths;
mod records;
mod shown;
mod sourced;

pub use answered::answer;
pub use first::first_fault;
pub use holdings::{Holdings, observe_holdings};
pub use merge::{Merged, merge_records};
pub use observe::{Observed, observe_names, observe_records};
pub use paths::main_tag;
pub use records::Records;
pub use shown::CellValue;
