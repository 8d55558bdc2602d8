//! The bytes of a log that were read, and that nothing was done with yet.

ghost use Rattle.std.specs.Prelude.{◌≡◌, ◌≤◌, ◌-◌, drop, length, IfErr, IfOk};
ghost use Rattle.id_log.specs.Logs.{IsLost, ReadsOn};

use crate::log::{Log, LogFault};

/// How many bytes of a log are asked for at a time.
pub const PIECE: usize = 8192;

/// Reads a piece of the log behind these bytes, and says whether the log is over.
pub fn read_on<L: Log>(log: &mut L, bytes: &mut Vec<u8>) -> Result<bool, LogFault>
    ensures reads { IfOk result
        (ReadsOn (L.ahead log.old) (L.ahead log.new) bytes.old.items bytes.new.items) }
    ensures lost { IfErr result (IsLost (L.ahead log.old)) }
{
    let mut room = [0u8; PIECE];
    let n = log.read(&mut room)?;
    bytes.extend_from_slice(&room[..n])?;
    Ok(n == 0)
}

/// Keeps the last of these bytes, so many.
pub fn keep_last(bytes: &mut Vec<u8>, left: usize)
    requires { left ≤ length bytes.old.items }
    ensures { bytes.new.items ≡ drop (length bytes.old.items - left) bytes.old.items }
{
    let gone = bytes.len() - left;
    bytes.rotate_left(gone);
    bytes.truncate(left);
}
