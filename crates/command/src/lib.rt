//! What the programs over standard input share: their arguments, and how they end.
#![tactic(auto)]

use std::alloc::AllocError;
use std::env;
use std::io::{self, ErrorKind};
use std::process::ExitCode;
use std::rt::Env;
use thiserror::Error;

/// What keeps a program from going on.
#[derive(Debug, Drop, Error)]
pub enum Failure {
    /// There is no memory for the input or its answer.
    #[error("out of memory")]
    Memory(#[from] AllocError),
    /// The arguments or the input cannot be read.
    #[error("cannot read the input: {0}")]
    Input(io::Error),
    /// The answers cannot be written.
    #[error("cannot write the output: {0}")]
    Output(io::Error),
    /// There are arguments other than `--help`.
    #[error("the only argument is --help")]
    Arguments,
}

/// What the arguments of a program ask for that takes none but `--help`.
#[derive(Clone, Copy, PartialEq, Eq, Debug)]
pub enum Asked {
    /// The work that it is for.
    Work,
    /// How it is called.
    Usage,
}

/// What the arguments ask for.
pub fn arguments<R: Env + AllocGlobal>(rt: &R) -> Result<Asked, Failure> {
    let args = env::args(rt).map_err(Failure::Input)?;
    let args: Vec<String> = args.skip(1).collect(rt.alloc())?;
    match args.as_slice() {
        [] => Ok(Asked::Work),
        [help] if help.as_str() == "--help" => Ok(Asked::Usage),
        _ => Err(Failure::Arguments),
    }
}

/// Ends a program of a name: a failure is told in a sentence on standard error, with a failing
/// status. Where the reader of the output has gone, it has read enough, and the program ends quietly.
pub fn end(rt: &impl Eprint, name: &str, outcome: Result<(), Failure>) -> ExitCode {
    match outcome {
        Ok(()) => ExitCode::SUCCESS,
        Err(Failure::Output(e)) if e.kind() == ErrorKind::BrokenPipe => ExitCode::SUCCESS,
        Err(failure) => {
            // Where that cannot be written either, the exit status still says so.
            let _ = rt.eprintln(format_args!("{name}: {failure}"));
            ExitCode::FAILURE
        }
    }
}
