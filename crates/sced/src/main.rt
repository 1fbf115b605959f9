//! `sced`: clears the market of one interval of an electricity network, and checks the tables that say how flows split.
#![tactic(auto)]

ghost use Rattle.std.specs.Prelude.{◌≡◌};
ghost use Rattle.std.specs.Process.{exit_status};
ghost use Rattle.command_answers.specs.Status.{code_of};

pub mod laws;
pub mod run;

use command_answers::Status;
use outside_store::{FileStore, OutSink};
use run::run;
use std::process::ExitCode;
use std::{env, io};

/// The words of this run. Words that are no text are none that the program takes, so an empty
/// list stands for them.
fn collected(rt: &HostRuntime) -> Result<Vec<String>, Status> {
    let mut words = Vec::new(rt.alloc());
    match env::args(rt) {
        Ok(args) => {
            for word in args {
                if words.push(word).is_err() {
                    return Err(Status::Memory);
                }
            }
            Ok(words)
        }
        Err(error) if error.kind() == io::ErrorKind::OutOfMemory => Err(Status::Memory),
        Err(_) => Ok(words),
    }
}

/// The exit code of a status.
fn exit_code(status: Status) -> ExitCode
    ensures { exit_status result ≡ code_of status }
{
    ExitCode::from(status.code())
}

/// Hands the words of this run, the real files and standard output to `run`, and ends with the exit code of its status.
fn main(rt: HostRuntime) -> ExitCode {
    let status = match collected(&rt) {
        Ok(words) => {
            let mut store = FileStore::new(rt);
            let mut out = OutSink::new(rt);
            run(rt.alloc(), words.as_slice(), &mut store, &mut out)
        }
        Err(status) => status,
    };
    exit_code(status)
}

#[cfg(test)]
mod check_tests;
#[cfg(test)]
mod clear_tests;
#[cfg(test)]
mod factor_tests;
#[cfg(test)]
mod fixture;
#[cfg(test)]
mod reserve_tests;
#[cfg(test)]
mod task_tests;
#[cfg(test)]
mod tests;
