//! The edge of the program: where a text comes from, where printed bytes go, and how numbers, places, values,
//! structures and cells are put there.
//!
//! Keeps: a failed write ends a text at once, so what went out is a front of it.
//! Errors: `SourceFault`, of a read; `SinkFault` and `PrintError`, only where a write failed.
//! Read first: `Sink`, `specs/Told.antt`, then `specs/Texts.antt`; `specs/Reading.antt`, then `read_text`;
//! `specs/Writing.antt`, then `write_some`.
//! Not here: whole lines, reports and facts (`id_print`), traces (`id_trace`), the words and streams of the process
//! (`idc`).
#![tactic(auto)]

mod cursor;
mod line;
mod sink;
mod source;
mod stream;
mod texts;

pub use cursor::{Cursor, Series, Spot};
pub use line::Piece;
pub use sink::{PrintError, Sink, SinkFault, put};
pub use source::{
    Disk, Folder, ReadFault, Source, SourceFault, SystemFolder, read_text, source_fault,
};
pub use stream::{Device, Stream, write_some};
pub use texts::{
    put_ask, put_at, put_bounds, put_cell, put_content, put_filled, put_index, put_int, put_long,
    put_number, put_numbers, put_place, put_point, put_point_value, put_shape, put_site,
    put_site_behind, put_steps, put_value, truth_bytes,
};
