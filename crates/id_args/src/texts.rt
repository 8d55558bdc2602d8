//! What is told beside `clap`'s own texts: what stands below the pages of help, and of words that are refused here.

// A text, the statuses of the program, and an example.
macro_rules! with_statuses {
    ($text:literal) => {
        concat!(
            $text,
            "Statuses:
  0  the run is quiet, or what was asked for is done
  1  the run stopped at a fault, which is printed
  2  the text or an input is refused
  3  the run stopped at the step limit, or messages are left, or there are too many facts
  4  the command line is refused
  5  a file can't be read, memory ran out, or a write failed
  6  the trace is none of a run

Example:
  idc run examples/sum.id --steps 1000"
        )
    };
}

/// What stands below the help of `run`.
pub(crate) const STATUSES: &str = with_statuses!("");

/// What stands below the first page of help: the options of the commands, the statuses and an example.
pub(crate) const OVERVIEW: &str = with_statuses!(
    "Options of run:
      --elements <N>  How many elements the machine has, from 1 to 64 [default: 1]
      --steps <N>     The most messages that each element handles [default: 1000000]
      --order <SEED>  Delivers messages in the random order that this number gives, by one thread
      --names         Prints the value of each name
      --trace         Prints each event before the answer

Options of graph:
      --dot           Prints it in the language of Graphviz

Options of why:
      --rounds <N>    How often the rules are used, at most 10000 [default: 300]

Options of judge:
      --elements <N>  How many elements the machine had, from 1 to 64 [default: 1]
      --names         Prints the value of each name

"
);

/// What help calls a word of `judge` behind its file.
pub(crate) const JUDGED: &str =
    "A log: the events of a run, a line each, as run prints them with --trace; - is standard input. Or \
    a value for the parameter of main with that name";

/// What stands below the help of `facts`.
pub(crate) const FACTS_HELP: &str = "Statuses:
  0  the facts of the round are printed
  2  the text or an input is refused
  3  there are too many facts
  4  the command line is refused
  5  a file can't be read, memory ran out, or a write failed

Example:
  idc facts examples/factorial.id 5 n=3";

/// What stands below the help of `why`.
pub(crate) const WHY_HELP: &str = "Statuses:
  0  the answer, and what lacks a value, are printed
  2  the text or an input is refused
  3  there are too many facts
  4  the command line is refused
  5  a file can't be read, memory ran out, or a write failed

Example:
  idc why examples/each_other.id";

/// What stands below the help of `judge`.
pub(crate) const JUDGE_HELP: &str =
    "Several logs are merged as they are read, whole lines by stamp and then by element.

Statuses:
  0  it is the trace of a run that is quiet
  1  it is that of a run that stopped at a fault
  2  the text or an input is refused
  3  it is that of a run in which messages are left
  4  the command line is refused
  5  a file can't be read, memory ran out, or a write failed
  6  the trace is none of a run

Example:
  idc judge examples/factorial.id LOG.0 LOG.1 n=10 --elements 2";

/// What is told of words that `clap` takes and that ask for nothing: those of `judge` alone may be such.
pub(crate) const BAD_LOGS: &str =
    "error: judge takes from 1 to 64 logs, and standard input, which is '-', once

Usage: idc judge [OPTIONS] <FILE> <LOG|NAME=VALUE>...

For more information, try '--help'.
";

/// What is told of words that can't be read.
pub(crate) const UNREAD: &str = "error: a word of the command line isn't UTF-8\n";
