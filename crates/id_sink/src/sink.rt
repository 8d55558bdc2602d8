//! Where printed bytes go.

ghost use Rattle.std.specs.Prelude.{◌≡◌, ◌≤◌, length, IfOk};
ghost use Rattle.id_sink.specs.Told.{SinkView, AfterWrite, Prints};

/// A write that failed.
#[derive(Clone, Copy)]
pub struct SinkFault;

/// Why a text was not printed whole: a write failed, and what went out is a front of the text.
#[derive(Clone, Copy)]
pub struct PrintError;

/// Something that takes bytes.
pub trait Sink {
    /// The bytes that it said it took and how many of its writes failed, where it tells them; and all bytes that stand
    /// where it puts them, where those are known.
    ghost told: { Self → SinkView };

    /// Takes bytes from the front of `bytes`, and says how many. A write that takes none of some
    /// bytes failed, as one that answers an error.
    fn write(&mut self, bytes: &[u8]) -> Result<usize, SinkFault>
        ensures bound { IfOk result (λ n. n ≤ length bytes.now) }
        ensures told { AfterWrite (told self.old) (told self.new) bytes.now result };
}

/// Writes all the bytes, in as many writes as it takes.
#[inline(always)]
pub fn put<W: Sink>(sink: &mut W, bytes: &[u8]) -> Result<(), PrintError>
    ensures { Prints (W.told sink.old) (W.told sink.new) bytes.now result }
{
    let mut rest = bytes;
    while !rest.is_empty() {
        match sink.write(rest) {
            Err(_) | Ok(0) => return Err(PrintError),
            Ok(n) => rest = &rest[n..],
        }
    }
    Ok(())
}
