//! The program `pyimport`, over the files of the current folder.

ghost use Rattle.std.specs.Prelude.{◌≡◌};
ghost use Rattle.std.specs.Process.{exit_status};
ghost use Rattle.pyimport.specs.Status.{status_of};

use crate::{OpenGate, Report, pyimport};
use base_types::{NoMemory, Text};
use std::env;
use std::io::ErrorKind;
use std::mem::forget;
use std::process::ExitCode;
use std::sync::Wait;
use std::thread::Threads;
use tree_system::{RealTree, StdSink};

/// The words after the program's name. Words that are not UTF-8 are refused, as no words are.
fn words_of(rt: &HostRuntime) -> Result<Vec<String>, NoMemory> {
    let mut words = Vec::new(rt.alloc());
    match env::args(rt) {
        Ok(all) => {
            for word in all.skip(1) {
                words.push(word)?;
            }
            Ok(words)
        }
        Err(error) if error.kind() == ErrorKind::OutOfMemory => Err(NoMemory),
        Err(_) => Ok(words),
    }
}

/// How the program ends: with the status of its report, and with 6 where it has none. The process ends here, so the
/// memory of the history is left to the system, which takes it back as a whole.
fn exit_of(report: Option<Report>) -> ExitCode
    ensures { exit_status result ≡ status_of report }
{
    match report {
        Some(
            Report {
                status,
                plan,
                history,
            },
        ) => {
            drop(plan);
            forget(history);
            ExitCode::from(status)
        }
        None => ExitCode::from(6),
    }
}

/// Does what the words of the command line ask for over the current folder, several scripts on threads
/// of `threads`, and gives the exit status of the program.
pub fn run_program<R: Threads + Wait + Sync>(rt: HostRuntime, threads: &R) -> ExitCode {
    let alloc = rt.alloc();
    let Ok(words) = words_of(&rt) else {
        return exit_of(None);
    };
    let mut tree = RealTree::at(rt, Text::new(alloc));
    let mut out = StdSink::out(rt);
    let mut err = StdSink::err(rt);
    let report = pyimport(
        threads,
        alloc,
        words.as_slice(),
        &mut tree,
        &mut out,
        &mut err,
        &OpenGate,
    );
    exit_of(Some(report))
}
