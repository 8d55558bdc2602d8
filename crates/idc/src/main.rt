//! The program: the words, the files and the streams of the process, joined to the engine.
//!
//! Keeps: nothing of its own.
//! Errors: each has its line on standard error and its status (docs/LANGUAGE.md, "Output").
//! Read first: `main`, then `drive_settled` of `id_engine`.
//! Not here: what words ask for (`id_args`), what is done then (`id_engine`).
#![tactic(auto)]

#[cfg(test)]
mod tests;

use id_args::arguments;
use id_engine::{Disk, Stream, SystemFolder, SystemLogs, Unasked, drive_settled};
use std::io::BufWriter;
use std::process::ExitCode;
use std::rt::{Env, Files};
use std::sync::Wait;
use std::thread::Threads;

/// Answers the words of the process on the streams of the host. The parts of a line gather in a buffer on their way to
/// standard output, where there is memory for one.
fn serve_process<R: Env + Files + AllocGlobal + Threads + Wait + Sync>(
    rt: &R,
    host: &HostRuntime,
) -> u8 {
    let alloc = rt.alloc();
    let mut source = Disk {
        folder: SystemFolder { rt },
    };
    let mut logs = SystemLogs {
        rt,
        input: host.stdin(),
    };
    let mut err = Stream {
        writer: host.stderr(),
    };
    match BufWriter::new(alloc, host.stdout()) {
        Ok(writer) => {
            let mut out = Stream { writer };
            drive_settled(
                rt,
                alloc,
                arguments(rt),
                &mut source,
                &mut logs,
                &mut out,
                &mut err,
            )
        }
        Err(_) => {
            let mut out = Stream {
                writer: host.stdout(),
            };
            let words: Result<Vec<String>, Unasked> = Err(Unasked::Memory);
            drive_settled(rt, alloc, words, &mut source, &mut logs, &mut out, &mut err)
        }
    }
}

fn main(rt: HostRuntime) -> ExitCode {
    ExitCode::from(serve_process(&rt, &rt))
}
