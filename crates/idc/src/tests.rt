use id_args::read_words;
use id_engine::{
    Device, Log, LogFault, Logs, Request, Source, SourceFault, Stream, drive, drive_asked, settle,
};
use id_sink::{Sink, SinkFault, put};
use std::alloc::{AllocError, Global};
use std::io;
use std::io::{BufWriter, ErrorKind, Write};
use std::process::Abort;
use std::sync::Wait;
use std::test::Fail;
use std::thread::Threads;

/// A sink with room for some bytes, which tells those that it took. A write beyond fails.
#[derive(Drop)]
struct Telling<'a, R: Abort> {
    rt: &'a R,
    room: usize,
    bytes: Vec<u8>,
    failures: u64,
}

impl<R: Abort> Sink for Telling<'_, R> {
    ghost use Rattle.std.specs.Prelude.{Some};

    ghost told = { λ s. record {
      told = Some (record { bytes = s.bytes.items; failures = s.failures });
      contents = Some s.bytes.items;
    } };

    fn write(&mut self, bytes: &[u8]) -> Result<usize, SinkFault> {
        if bytes.len() > self.room {
            assert!(self.rt; self.failures < 1_000_000);
            self.failures += 1;
            return Err(SinkFault);
        }
        assert!(self.rt; self.bytes.extend_from_slice(bytes).is_ok());
        self.room -= bytes.len();
        Ok(bytes.len())
    }
}

/// A sink that has taken nothing, with room for so many bytes.
fn with_room<R: Abort + AllocGlobal>(rt: &R, room: usize) -> Telling<'_, R> {
    Telling {
        rt,
        room,
        bytes: Vec::new(rt.alloc()),
        failures: 0,
    }
}

/// The trace that the source below has: the first events of a run of `def main(): int = 7;` on one element.
const TRACE: &[u8] = b"1 0 token c0.0#0 1.0 signal\n2 0 token c0.0#0 3.0 signal\n";

/// A source with one text, named `text.id`.
#[derive(Drop)]
struct OneText<'a> {
    text: &'a str,
}

impl Source for OneText<'_> {
    ghost use Rattle.std.specs.Prelude.{None};

    ghost told = { λ _ _. None };

    fn read(&mut self, alloc: Global, name: &str) -> Result<String, SourceFault> {
        if name != "text.id" {
            return Err(SourceFault::File);
        }
        String::from_str(alloc, self.text).map_err(|_| SourceFault::Memory)
    }
}

/// A log that gives the first so many bytes of the trace, at most so many by a read, and then fails, or ends.
#[derive(Drop)]
struct Piecewise {
    at: usize,
    most: usize,
    end: usize,
    fails: bool,
}

impl Log for Piecewise {
    ghost use Rattle.std.specs.Prelude.{None};

    ghost ahead = { λ _. None };

    fn read(&mut self, room: &mut [u8]) -> Result<usize, LogFault> {
        let end = self.end.min(TRACE.len());
        if self.at >= end {
            return if self.fails {
                Err(LogFault::File)
            } else {
                Ok(0)
            };
        }
        let n = room.len().min(self.most).min(end - self.at);
        room[..n].copy_from_slice(&TRACE[self.at..self.at + n]);
        self.at += n;
        Ok(n)
    }
}

/// Logs of which there is one, named `trace`: it is read in such pieces, up to there.
#[derive(Drop)]
struct OneLog {
    most: usize,
    end: usize,
    fails: bool,
}

impl Logs for OneLog {
    ghost use Rattle.std.specs.Prelude.{None};

    type Log = Piecewise;

    ghost told = { λ _ _. None };

    fn open(&mut self, alloc: Global, name: &str) -> Result<Piecewise, LogFault> {
        let _ = alloc;
        if name != "trace" {
            return Err(LogFault::File);
        }
        Ok(Piecewise {
            at: 0,
            most: self.most,
            end: self.end,
            fails: self.fails,
        })
    }
}

/// The log of which a read gives the whole trace.
fn whole_log() -> OneLog {
    OneLog {
        most: 1_000_000,
        end: 1_000_000,
        fails: false,
    }
}

/// What a run printed, and its status.
#[derive(Drop)]
struct Printed {
    out: Vec<u8>,
    err: Vec<u8>,
    status: u8,
}

/// Runs a text on the words of a line, with bars between them, and room for so many bytes on standard output.
fn print<R: Abort + AllocGlobal + Threads + Wait + Sync>(
    rt: &R,
    text: &str,
    line: &str,
    room: usize,
) -> Result<Printed, AllocError> {
    print_of(rt, text, line, &mut whole_log(), room)
}

/// The same, with these logs.
fn print_of<R: Abort + AllocGlobal + Threads + Wait + Sync>(
    rt: &R,
    text: &str,
    line: &str,
    logs: &mut OneLog,
    room: usize,
) -> Result<Printed, AllocError> {
    let alloc = rt.alloc();
    let mut words = Vec::new(alloc);
    for word in line.split('|') {
        words.push(word)?;
    }
    let mut source = OneText { text };
    let mut out = with_room(rt, room);
    let mut err = with_room(rt, 1_000_000);
    let status = drive(
        rt,
        alloc,
        words.as_slice(),
        &mut source,
        logs,
        &mut out,
        &mut err,
    );
    Ok(Printed {
        out: out.bytes,
        err: err.bytes,
        status,
    })
}

/// Words, then what they print of a text as one line: on standard output, or on standard error where it begins
/// with `refused`; then the text.
const ROWS: &str = "\
run|text.id / answer 14 / def main(): int = 2 + 3 * 4;
run|text.id|--steps|11 / answer 14 / def main(): int = 2 + 3 * 4;
run|text.id|--steps|100000000 / answer 14 / def main(): int = 2 + 3 * 4;
run|text.id|--elements|64 / answer 14 / def main(): int = 2 + 3 * 4;
run|text.id|--order|0 / answer 14 / def main(): int = 2 + 3 * 4;
run|text.id|--order|18446744073709551615|--elements|64 / answer 14 / def main(): int = 2 + 3 * 4;
run|text.id / fault overflow at @1:49 / def main(): int = (0 - 9223372036854775807 - 1) div (0 - 1);
check|text.id / ok / def main(n: int): int = n;
facts|text.id|1 / on @1:21 / def main(): int = 1 + 2;
run|text.id|d=4|a=1|c=3|b=2 / answer 10 / def main(a: int, b: int, c: int, d: int): int = a + b + c + d;
run|text.id / refused 3 NumberTooLarge at 1:19 / def main(): int = 9223372036854775808;
run|text.id / refused 12 WrongKind at 1:23 wanted int found bool / def main(): int = 1 + true;
run|text.id|m=1|n=x / refused 16 UnknownInput m=1 / def main(n: int): int = n;
run|text.id / refused 15 MissingInput n / def main(n: int): int = n;
run|text.id|n=0 / fault division by zero at /1:55@1:24 / def f(n: int): int = 1 div n; def main(n: int): int = f(n);
run|text.id / answer 7 / def k(x: int, y: int): int = x; def main(): int = { r = k(7, r); in r };
run|text.id / refused 11 WrongCount at 1:19 / def main(): int = main(1);
run|other.id / refused 4 File / def main(): int = 1;
";

/// Whether this line was printed where it belongs, and nothing else.
fn is_line(got: &Printed, line: &[u8]) -> bool {
    if line.starts_with("refused".as_bytes()) {
        got.err.as_slice() == line && got.out.is_empty() && got.status > 1
    } else {
        got.out.as_slice() == line && got.err.is_empty() && got.status < 2
    }
}

/// Whether a row's words print its line of its text.
fn is_row<R: Abort + AllocGlobal + Threads + Wait + Sync>(rt: &R, row: &str) -> Result<bool, Fail> {
    let mut parts = row.split(" / ");
    let (Some(words), Some(line), Some(text)) = (parts.next(), parts.next(), parts.next()) else {
        return Ok(false);
    };
    let got = print(rt, text, words, 1_000_000)?;
    let line = format!(in rt.alloc(); "{line}\n")?;
    Ok(is_line(&got, line.as_bytes()))
}

#[test]
fn does_what_the_rows_say(rt: HostRuntime) -> Result<(), Fail> {
    let mut rows = 0usize;
    for row in ROWS.lines() {
        let printed = is_row(&rt, row)?;
        assert!(&rt; printed, "{row}");
        rows = rows.saturating_add(1);
    }
    assert_eq!(&rt; rows, 18);
    Ok(())
}

/// Whether a write to standard output failed, which alone was said.
fn is_cut(got: &Printed) -> bool {
    got.err.as_slice() == "refused Write\n".as_bytes() && got.status == 5
}

#[test]
fn prints_its_help(rt: HostRuntime) -> Result<(), Fail> {
    let got = print(&rt, "", "run|--help", 1_000_000)?;
    let ends = got.out.as_slice().ends_with("--steps 1000\n".as_bytes());
    assert!(&rt; ends && got.err.is_empty() && got.status == 0);
    Ok(())
}

#[test]
fn refuses_a_help_that_is_not_written(rt: HostRuntime) -> Result<(), Fail> {
    let got = print(&rt, "", "run|--help", 10)?;
    assert!(&rt; is_cut(&got));
    Ok(())
}

/// A writer that is interrupted, then takes two bytes, then none, and then fails.
#[derive(Drop)]
struct Halting {
    turn: u8,
}

impl Write for Halting {
    fn write(&mut self, buf: &[u8]) -> io::Result<usize> {
        self.turn = self.turn.saturating_add(1);
        match self.turn {
            1 => Err(io::Error::from(ErrorKind::Interrupted)),
            2 => Ok(buf.len().min(2)),
            3 => Ok(0),
            _ => Err(io::Error::from(ErrorKind::BrokenPipe)),
        }
    }

    fn flush(&mut self) -> io::Result<()> {
        Ok(())
    }
}

/// The same as a device.
impl Device for Halting {
    ghost use Rattle.std.specs.Prelude.{None, []};

    ghost view = { λ _. record { outlook = None; held = []; contents = None } };

    fn attempt(&mut self, bytes: &[u8]) -> Option<Result<usize, SinkFault>> {
        match self.write(bytes) {
            Ok(n) => Some(Ok(n)),
            Err(error) if error.kind() == ErrorKind::Interrupted => None,
            Err(_) => Some(Err(SinkFault)),
        }
    }

    fn send_on(&mut self) -> Result<(), SinkFault> {
        Ok(())
    }
}

#[test]
fn says_what_the_system_says(rt: HostRuntime) {
    let mut stream = Stream {
        writer: Halting { turn: 0 },
    };
    let short = stream.write("abc".as_bytes());
    assert!(&rt; matches!(&short, Ok(2)), "goes on after an interrupt");
    let none = stream.write("c".as_bytes());
    assert!(&rt; matches!(&none, Ok(0)));
    let failed = stream.write("c".as_bytes());
    assert!(&rt; failed.is_err());
    let mut again = Stream {
        writer: Halting { turn: 0 },
    };
    let whole = put(&mut again, "abc".as_bytes());
    assert!(&rt; whole.is_err(), "a write that takes nothing fails");
}

/// Whether a failed write is told once, whatever the status was.
fn is_settled<R: Abort>(
    out: &mut Stream<BufWriter<Halting>>,
    err: &mut Telling<'_, R>,
    status: u8,
) -> bool {
    settle(out, err, status) == 5 && err.bytes.as_slice() == "refused Write\n".as_bytes()
}

#[test]
fn refuses_once_what_a_buffer_cannot_send_on(rt: HostRuntime) -> Result<(), Fail> {
    let mut out = Stream {
        writer: BufWriter::new(rt.alloc(), Halting { turn: 3 })?,
    };
    let mut err = with_room(&rt, 100);
    let gathered = put(&mut out, "answer 1\n".as_bytes());
    assert!(&rt; gathered.is_ok());
    let settled = is_settled(&mut out, &mut err, 0) && is_settled(&mut out, &mut err, 5);
    assert!(&rt; settled);
    Ok(())
}

/// Whether a run on so many elements, each for at most so many messages, is refused with this line.
fn is_refused<R: Abort + AllocGlobal + Threads + Wait + Sync>(
    rt: &R,
    count: u32,
    steps: u64,
    line: &str,
) -> bool {
    let alloc = rt.alloc();
    let asked = Ok(Request::Run {
        file: "text.id",
        inputs: Vec::new(alloc),
        count,
        trace: true,
        steps,
        order: None,
        names: false,
    });
    let mut source = OneText {
        text: "def main(): int = 1;",
    };
    let mut out = Stream {
        writer: Halting { turn: 0 },
    };
    let mut err = with_room(rt, 100);
    let status = drive_asked(
        rt,
        alloc,
        &asked,
        &mut source,
        &mut whole_log(),
        &mut out,
        &mut err,
    );
    status == 4 && err.bytes.as_slice() == line.as_bytes()
}

#[test]
fn allows_a_million_steps_on_one_element(rt: HostRuntime) {
    let words = ["run", "text.id"];
    let read = read_words(rt.alloc(), &words);
    let defaults = matches!(
        &read,
        Ok(Request::Run {
            count: 1,
            trace: false,
            steps: 1_000_000,
            order: None,
            names: false,
            ..
        })
    );
    assert!(&rt; defaults);
}

#[test]
fn refuses_no_steps_and_elements_beyond_64(rt: HostRuntime) {
    assert!(&rt; is_refused(&rt, 1, 0, "refused 20 BadSteps\n"));
    assert!(&rt; is_refused(&rt, 0, 0, "refused 19 BadElements\n"));
    assert!(&rt; is_refused(&rt, 65, 1, "refused 19 BadElements\n"));
}

#[test]
fn judges_a_log_as_it_comes(rt: HostRuntime) -> Result<(), Fail> {
    // pieces of a byte; the first line, and a front of it; a read that fails behind the last line, or a wrong one
    let (seven, given) = ("def main(): int = 7;", "def main(n: int): int = n;");
    for (text, words, most, end, fails, out, err, status) in [
        (
            seven,
            "",
            1,
            100,
            false,
            "legal 2\nstopped\nanswer none\n",
            "",
            3,
        ),
        (
            seven,
            "",
            7,
            28,
            false,
            "legal 1\nstopped\nanswer none\n",
            "",
            3,
        ),
        (
            seven,
            "",
            7,
            27,
            false,
            "event 1: this is no line of an event\n",
            "",
            6,
        ),
        (seven, "", 9, 100, true, "", "refused 4 File\n", 5),
        (
            given,
            "|n=1",
            9,
            100,
            true,
            "event 2: no such message is in flight\n",
            "",
            6,
        ),
    ] {
        let mut logs = OneLog { most, end, fails };
        let line = format!(in rt.alloc(); "judge|text.id|trace{words}")?;
        let got = print_of(&rt, text, line.as_str(), &mut logs, 1_000_000)?;
        assert!(&rt;
            got.out.as_slice() == out.as_bytes() && got.status == status,
            "{most} {end}"
        );
        assert!(&rt; got.err.as_slice() == err.as_bytes(), "{most} {end}");
    }
    Ok(())
}

#[test]
fn judges_a_trace(rt: HostRuntime) -> Result<(), Fail> {
    let got = print(
        &rt,
        "def main(): int = 7;",
        "judge|text.id|trace|--names",
        1_000_000,
    )?;
    let legal = got.out.as_slice() == "legal 2\nstopped\nanswer none\n".as_bytes();
    assert!(&rt; legal && got.err.is_empty() && got.status == 3);
    let got = print(
        &rt,
        "def main(n: int): int = n;",
        "judge|text.id|trace|n=1",
        1_000_000,
    )?;
    let other = got.out.as_slice() == "event 2: no such message is in flight\n".as_bytes();
    assert!(&rt; other && got.err.is_empty() && got.status == 6);
    let got = print(
        &rt,
        "def main(): int = 7;",
        "judge|text.id|other",
        1_000_000,
    )?;
    let unread = got.err.as_slice() == "refused 4 File\n".as_bytes();
    assert!(&rt; unread && got.out.is_empty() && got.status == 5);
    // the same line of two logs, one behind the other
    let got = print(
        &rt,
        "def main(): int = 7;",
        "judge|text.id|trace|trace",
        1_000_000,
    )?;
    let twice = got.out.as_slice() == "event 2: no such message is in flight\n".as_bytes();
    assert!(&rt; twice && got.err.is_empty() && got.status == 6);
    let got = print(&rt, "def main(): int = 7;", "judge|text.id|trace", 10)?;
    assert!(&rt; is_cut(&got));
    Ok(())
}

/// The trace of `def main(): int = 7;`, and its answer.
const TRACED: &str = "\
1 0 token c0.0#0 1.0 signal
2 0 token c0.0#0 2.0 k0.0#0:0
3 0 token c0.0#0 3.0 signal
4 0 token c0.0#0 2.1 7
5 0 token c0.0#0 0.0 7
answer 7
";

#[test]
fn prints_the_trace_before_the_answer(rt: HostRuntime) -> Result<(), Fail> {
    let got = print(
        &rt,
        "def main(): int = 7;",
        "run|text.id|--trace",
        1_000_000,
    )?;
    assert!(&rt; got.out.as_slice() == TRACED.as_bytes() && got.err.is_empty() && got.status == 0);
    Ok(())
}

#[test]
fn refuses_a_trace_that_is_not_written(rt: HostRuntime) -> Result<(), Fail> {
    let got = print(&rt, "def main(): int = 7;", "run|text.id|--trace", 40)?;
    assert!(&rt; TRACED.as_bytes().starts_with(got.out.as_slice()) && is_cut(&got));
    Ok(())
}

/// A sink with room for some bytes, which takes at most so many of each write and tells nothing. Without room a write
/// fails.
#[derive(Drop)]
struct Sparing<'a, R: Abort> {
    rt: &'a R,
    most: usize,
    room: usize,
    bytes: Vec<u8>,
}

impl<R: Abort> Sink for Sparing<'_, R> {
    ghost use Rattle.std.specs.Prelude.{None};

    ghost told = { λ _. record { told = None; contents = None } };

    fn write(&mut self, bytes: &[u8]) -> Result<usize, SinkFault> {
        if self.room == 0 {
            return Err(SinkFault);
        }
        let n = bytes.len().min(self.most).min(self.room);
        assert!(self.rt; self.bytes.extend_from_slice(&bytes[..n]).is_ok());
        self.room -= n;
        Ok(n)
    }
}

/// What the run of `def main(): int = 7;` prints with its trace, at most so many bytes of each write and of all.
fn print_sparing<R: Abort + AllocGlobal + Threads + Wait + Sync>(
    rt: &R,
    most: usize,
    room: usize,
) -> Printed {
    let alloc = rt.alloc();
    let words = ["run", "text.id", "--trace"];
    let mut source = OneText {
        text: "def main(): int = 7;",
    };
    let bytes = Vec::new(alloc);
    let mut out = Sparing {
        rt,
        most,
        room,
        bytes,
    };
    let mut err = with_room(rt, 100);
    let status = drive(
        rt,
        alloc,
        &words,
        &mut source,
        &mut whole_log(),
        &mut out,
        &mut err,
    );
    Printed {
        out: out.bytes,
        err: err.bytes,
        status,
    }
}

#[test]
fn prints_a_front_wherever_a_write_fails(rt: HostRuntime) {
    for room in 0..TRACED.len() {
        let got = print_sparing(&rt, 1_000_000, room);
        let front = TRACED.as_bytes().starts_with(got.out.as_slice());
        assert!(&rt; front && got.out.len() == room && is_cut(&got), "{room}");
    }
}

#[test]
fn goes_on_where_a_write_takes_one_byte(rt: HostRuntime) {
    let got = print_sparing(&rt, 1, 1_000_000);
    let whole = got.out.as_slice() == TRACED.as_bytes();
    assert!(&rt; whole && got.err.is_empty() && got.status == 0);
}

#[test]
fn refuses_a_write_that_takes_no_byte(rt: HostRuntime) {
    let got = print_sparing(&rt, 0, 1_000_000);
    assert!(&rt; got.out.is_empty() && is_cut(&got));
}
