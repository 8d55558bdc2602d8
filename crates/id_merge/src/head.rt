//! A log with what was read of it.

ghost use Rattle.std.specs.Prelude.{◌≡◌, ◌≤◌, ◌+◌, ◌<◌, IfErr, IfOk, drop, false, length, min, take};
ghost use Rattle.id_log.specs.Logs.{IsLost};
ghost use Rattle.id_merge.specs.Heads.{IsStill, are_enough, told_behind};
ghost use Rattle.id_merge.specs.Lines.{line_length, rank};

use crate::lines::{MAX_LINE, line_length, rank};
use id_log::{Log, LogFault, keep_last, read_on};

/// A log, and what was read of it.
#[derive(Drop)]
pub struct Head<L: Log + Drop> {
    pub log: L,
    pub bytes: Vec<u8>,
    /// How many of the bytes were given on.
    pub from: usize,
    /// Whether the log is over.
    pub over: bool,
}

impl<L: Log + Drop> Head<L> {
    /// The bytes that were read and not given on.
    pub fn rest(&self) -> &[u8]
        ensures { result.now ≡ drop self.now.from self.now.bytes.items }
    {
        if self.from > self.bytes.len() {
            return &[];
        }
        &self.bytes.as_slice()[self.from..]
    }

    /// Whether what was read tells the first line.
    pub fn is_ready(&self) -> bool
        ensures { result ≡ are_enough (drop self.now.from self.now.bytes.items) self.now.over }
    {
        let rest = self.rest();
        self.over || line_length(rest) < rest.len() || rest.len() >= MAX_LINE
    }

    /// The rank of the first line of what was read.
    pub fn rank(&self) -> u128
        ensures { result ≡ rank (drop self.now.from self.now.bytes.items) }
    {
        rank(self.rest())
    }

    /// Reads on in the log.
    pub fn read_on(&mut self) -> Result<(), LogFault>
        requires { self.old.over ≡ false }
        ensures still { IfOk result (λ _.
            IsStill (told_behind (L.ahead self.old.log) (drop self.old.from self.old.bytes.items) self.old.over)
            (told_behind (L.ahead self.new.log) (drop self.new.from self.new.bytes.items) self.new.over)) }
        ensures lost { IfErr result (IsLost (L.ahead self.old.log)) }
    {
        let left = self.rest().len();
        keep_last(&mut self.bytes, left);
        self.from = 0;
        self.over = read_on(&mut self.log, &mut self.bytes)?;
        Ok(())
    }

    /// Gives on what was read of the first line, as far as there is room, and says how many bytes.
    pub fn give(&mut self, room: &mut [u8]) -> usize
        ensures many { result
            ≡ min (length room.old) (min (line_length (drop self.old.from self.old.bytes.items) + 1)
            (length (drop self.old.from self.old.bytes.items))) }
        ensures room { length room.new ≡ length room.old }
        ensures given { take result room.new ≡ take result (drop self.old.from self.old.bytes.items) }
        ensures left { self.new ≡ record self.old { from = self.old.from + result } }
    {
        let rest = self.rest();
        let count = room.len().min(rest.len().min(line_length(rest) + 1));
        room[..count].copy_from_slice(&rest[..count]);
        self.from += count;
        count
    }
}
