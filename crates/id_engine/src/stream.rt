//! What a stream still holds back at the end.

ghost use Rattle.std.specs.Io.KnownBytes.{Keeps};
ghost use Rattle.id_engine.specs.Settled.{Settles};

use id_compile::{Cause, plain, refuse};
use id_print::Sink;
use id_sink::{Device, Stream};

/// Sends on what the device of a stream still holds back, and answers the status of the whole: this one, or, where that
/// fails, the one of a failed write, whose line it prints. After a failed write nothing more is sent on. Bytes that are
/// known stay as they were.
pub fn settle<D: Device + Drop, E: Sink>(out: &mut Stream<D>, err: &mut E, status: u8) -> u8
    ensures settled { Settles (D.view out.old.writer) (D.view out.new.writer) (E.told err.old) (E.told err.new)
        status result }
    ensures bytes { Keeps (D.view out.old.writer).contents (D.view out.new.writer).contents }
{
    if status == Cause::Write.status() {
        return status;
    }
    match out.writer.send_on() {
        Ok(()) => status,
        Err(_) => refuse(&plain(Cause::Write), "", err),
    }
}
