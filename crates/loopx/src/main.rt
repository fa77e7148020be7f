//! The program: carries out the loop-transforming directives in a C text from standard input, and writes plain C, or runs
//! it.
#![tactic(auto)]

mod command;
mod line;
mod reading;
mod run;
mod running;
mod status;
#[cfg(test)]
mod tests;
mod told;
mod translating;
mod words;

use outside_io::{StdSink, StdSource};
use run::run;
use status::exit_code;
use std::process::ExitCode;
use words::program_words;

/// Runs on the words after the program's name and on the standard streams, and ends with the status. Where there is no
/// memory for the words, it ends with status 5; where the system refuses them for another cause, with status 10.
fn main(rt: HostRuntime) -> ExitCode {
    let words = match program_words(&rt) {
        Ok(words) => words,
        Err(code) => return ExitCode::from(code),
    };
    let status = run(
        rt.alloc(),
        words.as_slice(),
        &mut StdSource::new(rt.stdin()),
        &mut StdSink::new(rt.stdout()),
        &mut StdSink::new(rt.stderr()),
    );
    ExitCode::from(exit_code(status))
}
