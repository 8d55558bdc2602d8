//! What several logs come to, merged, whose lines are in order or not.

use id_log::{Log, LogFault, Logs, read_on};
use id_merge::open_merged;
use std::alloc::Global;

/// A text as a log, which is read in pieces of so many bytes.
#[derive(Drop)]
struct Text {
    bytes: Vec<u8>,
    at: usize,
    most: usize,
}

impl Log for Text {
    ghost use Rattle.std.specs.Prelude.{None};

    ghost ahead = { λ _. None };

    fn read(&mut self, room: &mut [u8]) -> Result<usize, LogFault> {
        if self.at > self.bytes.len() {
            return Err(LogFault::File);
        }
        let rest = &self.bytes.as_slice()[self.at..];
        let n = room.len().min(rest.len().min(self.most));
        room[..n].copy_from_slice(&rest[..n]);
        self.at += n;
        Ok(n)
    }
}

/// Logs whose names are their texts.
#[derive(Drop)]
struct Texts {
    most: usize,
}

impl Logs for Texts {
    ghost use Rattle.std.specs.Prelude.{None};

    type Log = Text;

    ghost told = { λ _ _. None };

    fn open(&mut self, alloc: Global, name: &str) -> Result<Text, LogFault> {
        Ok(Text {
            bytes: Vec::from_slice(alloc, name.as_bytes())?,
            at: 0,
            most: self.most,
        })
    }
}

/// What logs with these texts come to, merged.
fn merge(alloc: Global, texts: &[&str], most: usize) -> Result<Vec<u8>, LogFault> {
    let mut log = open_merged(alloc, &mut Texts { most }, texts)?;
    let mut bytes = Vec::new(alloc);
    for _ in 0..1000 {
        if read_on(&mut log, &mut bytes)? {
            return Ok(bytes);
        }
    }
    Err(LogFault::File)
}

#[test]
fn merges_lines_by_stamp_and_element(rt: HostRuntime) {
    for (first, second, third, wanted, why) in [
        (
            "1 0 a\n3 0 c\n",
            "2 1 b\n4 1 d\n",
            "",
            "1 0 a\n2 1 b\n3 0 c\n4 1 d\n",
            "by stamp",
        ),
        ("1 1 b\n", "1 0 a\n", "", "1 0 a\n1 1 b\n", "by element"),
        ("10 0 a\n", "9 0 b\n", "", "9 0 b\n10 0 a\n", "as numbers"),
        ("1 0 a\n", "1 0 b\n", "", "1 0 a\n1 0 b\n", "by log"),
        (
            "3 0 a\n1 0 b\n",
            "2 1 c\n",
            "",
            "2 1 c\n3 0 a\n1 0 b\n",
            "a log in its order",
        ),
        (
            "1 0 a\n",
            "2 1 b\nx\n3 1 c\n",
            "2 2 d\n",
            "1 0 a\n2 1 b\nx\n2 2 d\n3 1 c\n",
            "a line without numbers at once",
        ),
        (
            "1 0 a",
            "2 1 b",
            "3 2 c\n",
            "3 2 c\n1 0 a2 1 b",
            "what has no line feed at the end",
        ),
        ("", "", "", "", "nothing"),
    ] {
        for most in [1, 4, 8192] {
            let got = merge(rt.alloc(), &[first, second, third], most);
            let is = matches!(&got, Ok(bytes) if bytes.as_slice() == wanted.as_bytes());
            assert!(&rt; is, "{why} {most}");
        }
    }
}
