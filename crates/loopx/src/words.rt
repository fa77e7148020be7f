//! The words of the command line.

use std::env;
use std::io::ErrorKind;
use std::rt::Env;

/// The exit status where there is no memory for the words.
const NO_MEMORY: u8 = 5;

/// The exit status where the system refuses the words.
const NO_WORDS: u8 = 10;

/// The words after the program's name, or the exit status where there are none to be had. A word that isn't UTF-8 stands
/// in no list of words, so it gives the empty list, which asks for the usage line.
pub fn program_words<R: Env + AllocGlobal>(rt: &R) -> Result<Vec<String>, u8> {
    match env::args(rt) {
        Ok(args) => args.skip(1).collect(rt.alloc()).map_err(|_| NO_MEMORY),
        Err(e) => match e.kind() {
            ErrorKind::InvalidData => Ok(Vec::new(rt.alloc())),
            ErrorKind::OutOfMemory => Err(NO_MEMORY),
            _ => Err(NO_WORDS),
        },
    }
}
