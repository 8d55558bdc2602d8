//! The whole program over any words, any source of texts, any logs and any sinks.

ghost use Rattle.std.specs.Prelude.{map};
ghost use Rattle.std.specs.Result.{result_map_both};
ghost use Rattle.id_engine.specs.Served.{AnswersWords, ServesWords};
ghost use Rattle.id_engine.specs.Settled.{AnswersSettled};

use crate::memory::keep_memory;
use crate::program::drive_asked;
use crate::stream::settle;
use id_args::{Request, Unasked, read_words};
use id_compile::Source;
use id_log::Logs;
use id_print::Sink;
use id_sink::{Device, Stream};
use std::alloc::Global;
use std::convert::AsStr;
use std::sync::Wait;
use std::thread::Threads;

/// Whether a text's program is all that is asked for.
fn is_compiled(asked: &Result<Request<'_>, Unasked>) -> bool {
    matches!(
        asked,
        Ok(Request::Check { .. } | Request::Graph { .. } | Request::Draw { .. })
    )
}

/// The whole program: does what the words ask for, the program's own name left out, and answers the status. It reads
/// texts from `source` and logs from `logs`, writes what was asked for to `out` and refusals to `err`.
pub fn drive<R: Threads + Wait + Sync, N: AsStr, S: Source, T: Logs, O: Sink, E: Sink>(
    rt: &R,
    alloc: Global,
    words: &[N],
    source: &mut S,
    logs: &mut T,
    out: &mut O,
    err: &mut E,
) -> u8
    ensures { ServesWords (map N.text words.now) (S.told source.old) (T.told logs.old) (O.told out.old)
        (O.told out.new) (E.told err.old) (E.told err.new) result }
{
    let asked = read_words(alloc, words);
    if is_compiled(&asked) {
        keep_memory(alloc);
    }
    drive_asked(rt, alloc, &asked, source, logs, out, err)
}

/// Serves the words, or answers why they could not be had.
fn answer_words<R: Threads + Wait + Sync, N: AsStr + Drop, S: Source, T: Logs, O: Sink, E: Sink>(
    rt: &R,
    alloc: Global,
    words: Result<Vec<N>, Unasked>,
    source: &mut S,
    logs: &mut T,
    out: &mut O,
    err: &mut E,
) -> u8
    ensures { AnswersWords (result_map_both (λ ws. map N.text ws.items) (λ u. u) words) (S.told source.old)
        (T.told logs.old) (O.told out.old) (O.told out.new) (E.told err.old) (E.told err.new) result }
{
    match words {
        Ok(words) => drive(rt, alloc, words.as_slice(), source, logs, out, err),
        Err(unasked) => drive_asked(rt, alloc, &Err(unasked), source, logs, out, err),
    }
}

/// The whole program on its two streams: does what the words ask for, as `drive` does, or answers why they could not be
/// had, then sends on what standard output and standard error still hold back, and answers the status.
pub fn drive_settled<
    R: Threads + Wait + Sync,
    N: AsStr + Drop,
    S: Source,
    T: Logs,
    D: Device + Drop,
    F: Device + Drop,
>(
    rt: &R,
    alloc: Global,
    words: Result<Vec<N>, Unasked>,
    source: &mut S,
    logs: &mut T,
    out: &mut Stream<D>,
    err: &mut Stream<F>,
) -> u8
    ensures { AnswersSettled (result_map_both (λ ws. map N.text ws.items) (λ u. u) words) (S.told source.old)
        (T.told logs.old) (D.view out.old.writer) (D.view out.new.writer) (F.view err.old.writer)
        (F.view err.new.writer) result }
{
    let status = answer_words(rt, alloc, words, source, logs, out, err);
    let settled = settle(out, err, status);
    let _ = err.writer.send_on();
    settled
}
