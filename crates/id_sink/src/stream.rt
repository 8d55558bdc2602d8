//! Where printed bytes leave the program.

ghost use Rattle.std.specs.Prelude.{◌≡◌, ◌≤◌, ◌↔◌, length, IfOk, IfSome, IsErr, IsNone, MatchOption};
ghost use Rattle.std.specs.Io.Buffered.{writer_buffer, writer_contents};
ghost use Rattle.std.specs.Io.KnownBytes.{Keeps, WriteAppends};
ghost use Rattle.std.specs.IoError.{error_kind};
ghost use Rattle.id_sink.specs.Writing.{DeviceView, IsAttempt, IsSentOn, IsWritten, told_of};

use crate::sink::{Sink, SinkFault};
use std::alloc::Allocator;
use std::io;
use std::io::{BufWriter, ErrorKind, Stderr, Stdout, Write};

/// Something that takes bytes, and may hold them back.
pub trait Device {
    /// What it told so far and what comes next, where it tells that; what it holds back; and all bytes that were
    /// written to it, held back or not, where those are known.
    ghost view: { Self → DeviceView };

    /// One write: how many bytes it took from the front of these, or that it failed, or nothing where a signal cut it
    /// short.
    fn attempt(&mut self, bytes: &[u8]) -> Option<Result<usize, SinkFault>>
        ensures bound { IfSome result (λ answer. IfOk answer (λ n. n ≤ length bytes.now)) }
        ensures outlook { IsAttempt (view self.old).outlook (view self.new).outlook bytes.now result }
        ensures bytes { MatchOption result (Keeps (view self.old).contents (view self.new).contents)
            (λ answer. WriteAppends (view self.old).contents (view self.new).contents answer bytes.now) };

    /// Sends on all that it holds back.
    fn send_on(&mut self) -> Result<(), SinkFault>
        ensures { IsSentOn (view self.old) (view self.new) result };
}

/// A writer of the system that holds nothing back: a standard stream of the process.
pub trait Unheld: Write {}

impl Unheld for Stdout {}

impl Unheld for Stderr {}

/// It tells nothing of what comes.
impl<W: Unheld> Device for W {
    ghost use Rattle.std.specs.Prelude.{None, []};

    ghost view = { λ writer. record { outlook = None; held = []; contents = W.contents writer } };

    #[inline(always)]
    fn attempt(&mut self, bytes: &[u8]) -> Option<Result<usize, SinkFault>> {
        attempt_on(self, bytes)
    }

    fn send_on(&mut self) -> Result<(), SinkFault> {
        Ok(())
    }
}

/// A buffer before a writer, which tells what it holds back, and nothing of what comes.
impl<W: Write + Drop, A: Allocator> Device for BufWriter<W, A> {
    ghost use Rattle.std.specs.Prelude.{None};

    ghost view = { λ buffer. record {
      outlook = None;
      held = writer_buffer buffer;
      contents = writer_contents W.contents buffer;
    } };

    #[inline(always)]
    fn attempt(&mut self, bytes: &[u8]) -> Option<Result<usize, SinkFault>>
        ensures bound { IfSome result (λ answer. IfOk answer (λ n. n ≤ length bytes.now)) }
        ensures outlook { IsAttempt None None bytes.now result }
        ensures bytes { MatchOption result
            (Keeps (writer_contents W.contents self.old) (writer_contents W.contents self.new))
            (λ answer. WriteAppends
            (writer_contents W.contents self.old) (writer_contents W.contents self.new) answer bytes.now) }
    {
        attempt_on(self, bytes)
    }

    fn send_on(&mut self) -> Result<(), SinkFault>
        ensures { IsSentOn (record {
          outlook = None;
          held = writer_buffer self.old;
          contents = writer_contents W.contents self.old;
        })
            (record {
              outlook = None;
              held = writer_buffer self.new;
              contents = writer_contents W.contents self.new;
            }) result }
    {
        match self.flush() {
            Ok(()) => Ok(()),
            Err(_) => Err(SinkFault),
        }
    }
}

/// A device as a sink, which tells what the device told, and knows its bytes where the device does.
#[derive(Drop)]
pub struct Stream<D: Device + Drop> {
    pub writer: D,
}

impl<D: Device + Drop> Sink for Stream<D> {
    ghost told = { λ stream. told_of (D.view stream.writer) };

    #[inline(always)]
    fn write(&mut self, bytes: &[u8]) -> Result<usize, SinkFault> {
        write_some(&mut self.writer, bytes)
    }
}

/// How many times a write that a signal cuts short is made.
const TRIES: u64 = u64::MAX;

/// One write of the device's, and how many bytes it took from the front of these, or that it failed.
/// A write that a signal cut short is made again.
#[inline(always)]
pub fn write_some<D: Device>(device: &mut D, bytes: &[u8]) -> Result<usize, SinkFault>
    ensures bound { IfOk result (λ n. n ≤ length bytes.now) }
    ensures outlook { IsWritten (D.view device.old).outlook (D.view device.new).outlook bytes.now result }
    ensures bytes { WriteAppends (D.view device.old).contents (D.view device.new).contents result bytes.now }
{
    let mut cuts = 0;
    while cuts < TRIES {
        match device.attempt(bytes) {
            Some(answer) => return answer,
            None => cuts += 1,
        }
    }
    Err(SinkFault)
}

/// One write of the writer's.
#[inline(always)]
fn attempt_on<W: Write>(writer: &mut W, bytes: &[u8]) -> Option<Result<usize, SinkFault>>
    ensures bound { IfSome result (λ answer. IfOk answer (λ n. n ≤ length bytes.now)) }
    ensures bytes { MatchOption result (Keeps (W.contents writer.old) (W.contents writer.new))
        (λ answer. WriteAppends (W.contents writer.old) (W.contents writer.new) answer bytes.now) }
{
    match writer.write(bytes) {
        Ok(n) => Some(Ok(n)),
        Err(error) => failure_of(&error),
    }
}

/// What a write came to that ended so: nothing where a signal cut it short.
fn failure_of(error: &io::Error) -> Option<Result<usize, SinkFault>>
    ensures cut { IsNone result ↔ error_kind error.now ≡ ErrorKind.Interrupted }
    ensures failed { IfSome result (λ answer. IsErr answer) }
{
    match error.kind() {
        ErrorKind::Interrupted => None,
        _ => Some(Err(SinkFault)),
    }
}
