//! A log, judged line by line as it is read.

ghost use Rattle.std.specs.Prelude.{◌≡◌, ◌<◌, [], IfErr, IfNone, IfOk, IfSome, IsFalse, IsTrue, List, None, Ok, OnOk};
ghost use Rattle.std.specs.Prelude.{length, true, ℕ};
ghost use Rattle.id_value.specs.declared.Constant.{Constant};
ghost use Rattle.id_instr.specs.Graph.{Parts};
ghost use Rattle.id_record.specs.declared.kept.Keeps.{Keeps};
ghost use Rattle.id_judge.specs.Ends.{IsEnough};
ghost use Rattle.id_judge.specs.Judging.{HasRead, IsReady, JudgesOn};
ghost use Rattle.id_judge.specs.Lines.{IsLineVerdict};
ghost use Rattle.id_log.specs.Logs.{Hears, MayBreak, MayFollow};
ghost use Rattle.id_judge.specs.Listening.{HearsAll, HearsWrong, ReadsFront, RefusesBefore};

use crate::judge::{Judge, MAX_LINE};
use crate::verdict::{Cause, Verdict};
use id_log::{Log, LogFault, keep_last, read_on};
use std::alloc::{AllocError, Global};

/// Whether a text is enough to tell its first line; where `over` says so, nothing stands behind it.
fn is_ready(text: &[u8], over: bool) -> bool
    ensures some { IsTrue result → 0 < length text.now }
    ensures enough { IsTrue result → (more : List ℕ) → MayFollow over more → IsEnough text.now more }
    ensures none { IsFalse result → over ≡ true → text.now ≡ [] }
{
    if over {
        return !text.is_empty();
    }
    text.len() >= MAX_LINE || text.contains(&b'\n')
}

/// Reads the lines of a text of which there is enough, and says how many bytes are left; or says why no event of one of
/// them can follow, which is the next one behind those that were read.
fn read_ready(
    judge: &mut Judge<'_>,
    text: &[u8],
    over: bool,
) -> Result<Result<usize, Cause>, AllocError>
    requires { IsReady judge.old }
    ensures ready { IfOk result (λ r. IfOk r (λ left. IsReady judge.new)) }
    ensures reads { IfOk result (λ r. IfOk r (λ left. ReadsFront judge.old text.now left judge.new)) }
    ensures all { IfOk result (λ r. IfOk r (λ left. over ≡ true → left ≡ 0)) }
    ensures refuses { IfOk result (λ r. IfErr r (RefusesBefore judge.old text.now over judge.new.lines)) }
{
    let mut rest = text;
    while is_ready(rest, over) {
        match judge.line(rest)? {
            Ok(tail) => rest = tail,
            Err(cause) => return Ok(Err(cause)),
        }
    }
    Ok(Ok(rest.len()))
}

/// Reads all lines of a log; or says why no event of one of them can follow, which is the next one behind those that
/// were read. It keeps no more of the log than a piece and a line.
fn read_log<L: Log>(
    alloc: Global,
    judge: &mut Judge<'_>,
    log: &mut L,
) -> Result<Option<Cause>, LogFault>
    requires { IsReady judge.old }
    ensures ready { result ≡ Ok None → IsReady judge.new }
    ensures heard { IfOk result (λ o. IfNone o (HearsAll (L.ahead log.old) judge.old judge.new)) }
    ensures refuses { IfOk result (λ o. IfSome o (HearsWrong (L.ahead log.old) judge.old judge.new.lines)) }
    ensures broken { IfErr result (MayBreak (L.ahead log.old)) }
{
    let mut bytes = Vec::new(alloc);
    for _ in 0..u64::MAX {
        let over = read_on(log, &mut bytes)?;
        match read_ready(judge, bytes.as_slice(), over)? {
            Ok(left) => keep_last(&mut bytes, left),
            Err(cause) => return Ok(Some(cause)),
        }
        if over {
            return Ok(None);
        }
    }
    Err(LogFault::Memory)
}

/// What a judge that has read nothing says of a log.
pub fn hear<'a, L: Log>(
    alloc: Global,
    judge: Judge<'a>,
    log: &mut L,
) -> Result<Verdict<'a>, LogFault>
    requires { IsReady judge }
    ensures verdict { IfOk result (λ v. (g : Parts) (vs : List Constant) (count : ℕ) (keeps : Keeps)
        → JudgesOn g count keeps judge.entry → HasRead vs [] judge.entry
        → Hears (L.ahead log.old) (λ trace. IsLineVerdict g vs count keeps trace v)) }
    ensures broken { IfErr result (MayBreak (L.ahead log.old)) }
{
    let mut judge = judge;
    match read_log(alloc, &mut judge, log)? {
        None => {
            let lines = judge.lines();
            let machine = judge.end(alloc)?;
            Ok(Verdict::Legal(machine, lines))
        }
        Some(cause) => Ok(Verdict::CannotFollow(judge.lines(), cause)),
    }
}
