// How the programs read their files, and how they end.
#![tactic(auto)]

mod failure;
#[cfg(test)]
mod tests;

ghost use Rattle.std.specs.Prelude.{◌≡◌, IsOk, IsErr, IfErr};
ghost use Rattle.std.specs.Process.{exit_status};
ghost use Rattle.console.specs.Failures.{IsUnread};

pub use failure::Failure;
use std::fmt::Display;
use std::fs;
use std::fs::Files;
use std::process::ExitCode;

/// The bytes of a file; where it cannot be read, that is said of its name.
pub fn contents<R: Files + Alloc, E: Display>(
    rt: &R,
    name: &'static str,
) -> Result<Vec<u8, R::A>, Failure<E>>
    ensures { IfErr result (IsUnread name.now) }
{
    fs::read(rt, name).map_err(|error| Failure::Unread(name, error))
}

/// Ends a program: a failure is said in one line on standard error.
pub fn end<E: Display + Drop>(rt: &impl Eprint, outcome: Result<(), Failure<E>>) -> ExitCode
    ensures success { IsOk outcome → exit_status result ≡ 0 }
    ensures failure { IsErr outcome → exit_status result ≡ 1 }
{
    match outcome {
        Ok(()) => ExitCode::SUCCESS,
        Err(failure) => {
            // where standard error takes no more, the status says it alone
            let _ = eprintln!(rt; "{failure}");
            ExitCode::FAILURE
        }
    }
}
