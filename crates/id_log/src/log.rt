//! What a log is, and where one comes from.

ghost use Rattle.std.specs.Prelude.{◌≡◌, ◌≤◌, ◌<◌, ◌↔◌, take, length, IfErr, IfOk, List, Option, ℕ};
ghost use Rattle.std.specs.IoError.{error_kind};
ghost use Rattle.id_log.specs.Logs.{Ahead, Gives, IsLost, IsOver, MayBreak};

use std::alloc::{AllocError, Global};
use std::io;
use std::io::{ErrorKind, Read};

/// Why a log can't be opened, or a read of it failed.
#[derive(Clone, Copy)]
pub enum LogFault {
    /// It can't be read.
    File,
    /// A growth was refused.
    Memory,
}

impl From<AllocError> for LogFault {
    ghost use Rattle.std.specs.Prelude.{◌≡◌};
    ghost use Rattle.id_log.specs.declared.log.LogFault.TheVariants.{Memory};

    ghost from_gives = { λ _ fault. fault ≡ Memory };

    fn from(_error: AllocError) -> LogFault {
        LogFault::Memory
    }
}

/// Something that gives its bytes as they come.
pub trait Log {
    /// The bytes that it has ahead, and how they end, where that is known.
    ghost ahead: { Self → Option Ahead };

    /// Reads some bytes to the front of the room, and says how many: none only at the end, or where there is no room.
    /// Want of memory can stand in the place of any answer.
    fn read(&mut self, room: &mut [u8]) -> Result<usize, LogFault>
        ensures bound { IfOk result (λ n. n ≤ length room.new) }
        ensures gives { IfOk result (λ n. Gives (ahead self.old) (ahead self.new) (take n room.new)) }
        ensures over { IfOk result (λ n. n ≡ 0 → 0 < length room.new → IsOver (ahead self.new)) }
        ensures lost { IfErr result (IsLost (ahead self.old)) };
}

/// Something that has logs under names.
pub trait Logs {
    /// What it opens.
    type Log: Log + Drop;

    /// What the log of this name has ahead, where that is known.
    ghost told: { Self → List ℕ → Option Ahead };

    /// The log of this name. Want of memory can stand in the place of any answer.
    fn open(&mut self, alloc: Global, name: &str) -> Result<Self::Log, LogFault>
        ensures opened { IfOk result (λ log. Self.Log.ahead log ≡ told self.old name.now) }
        ensures lost { IfErr result (MayBreak (told self.old name.now)) }
        ensures kept { (n : List ℕ) → told self.new n ≡ told self.old n };
}

/// A reader as a log, which has the reader's bytes ahead, where those are known; any read of them may fail.
#[derive(Drop)]
pub struct Opened<R: Read + Drop> {
    pub reader: R,
}

/// How many times a read that a signal cuts short is made.
const TRIES: u64 = u64::MAX;

impl<R: Read + Drop> Log for Opened<R> {
    ghost use Rattle.id_log.specs.Logs.{ahead_of};

    ghost ahead = { λ log. ahead_of (R.remaining log.reader) };

    /// A read that a signal cuts short is made again.
    fn read(&mut self, room: &mut [u8]) -> Result<usize, LogFault> {
        let mut cuts = 0;
        while cuts < TRIES {
            match self.reader.read(room) {
                Ok(n) => return Ok(n),
                Err(error) => match fault_of(&error) {
                    Some(fault) => return Err(fault),
                    None => cuts += 1,
                },
            }
        }
        Err(LogFault::File)
    }
}

/// Why a read that failed so gave no bytes, and nothing where a signal cut it short.
pub(crate) fn fault_of(error: &io::Error) -> Option<LogFault> {
    match error.kind() {
        ErrorKind::Interrupted => None,
        ErrorKind::OutOfMemory => Some(LogFault::Memory),
        _ => Some(LogFault::File),
    }
}

/// Bytes in memory as a log, no read of which fails.
#[derive(Drop)]
pub struct InMemory<'a> {
    pub bytes: &'a [u8],
}

impl Log for InMemory<'_> {
    ghost use Rattle.std.specs.Prelude.{Some};
    ghost use Rattle.id_log.specs.Logs.{ends};

    ghost ahead = { λ log. Some (record { bytes = log.bytes.now; end = ends }) };

    fn read(&mut self, room: &mut [u8]) -> Result<usize, LogFault> {
        let n = room.len().min(self.bytes.len());
        room[..n].copy_from_slice(&self.bytes[..n]);
        self.bytes = &self.bytes[n..];
        Ok(n)
    }
}
