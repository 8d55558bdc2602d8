//! The logs of the system: files, and what comes on standard input.

ghost use Rattle.std.specs.Prelude.{◌≡◌};

use crate::log::{Log, LogFault, Logs, Opened, fault_of};
use std::alloc::Global;
use std::fs::File;
use std::io::{Read, Stdin};
use std::rt::Files;

/// The files of the system by their names, and by the name `-` what comes on standard input. Nothing is known of them
/// beforehand.
#[derive(Drop)]
pub struct SystemLogs<'a, R: Files> {
    pub rt: &'a R,
    pub input: Stdin,
}

/// A file of the system, or standard input.
#[derive(Drop)]
pub enum SystemLog<F: Read + Drop> {
    /// A file.
    File(Opened<F>),
    /// Standard input.
    Input(Opened<Stdin>),
}

impl<F: Read + Drop> Log for SystemLog<F> {
    ghost use Rattle.std.specs.Prelude.{None};

    ghost ahead = { λ _. None };

    fn read(&mut self, room: &mut [u8]) -> Result<usize, LogFault> {
        match self {
            SystemLog::File(log) => log.read(room),
            SystemLog::Input(log) => log.read(room),
        }
    }
}

impl<R: Files> Logs for SystemLogs<'_, R> {
    ghost use Rattle.std.specs.Prelude.{None};

    type Log = SystemLog<R::File>;

    ghost told = { λ _ _. None };

    fn open(&mut self, alloc: Global, name: &str) -> Result<SystemLog<R::File>, LogFault> {
        let _ = alloc;
        if name == "-" {
            return Ok(SystemLog::Input(Opened { reader: self.input }));
        }
        match File::open(self.rt, name) {
            Ok(file) => Ok(SystemLog::File(Opened { reader: file })),
            Err(error) => Err(fault_of(&error).unwrap_or(LogFault::File)),
        }
    }
}
