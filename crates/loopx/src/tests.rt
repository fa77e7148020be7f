//! What `run` answers over sources and sinks in memory.

ghost use Rattle.std.specs.Prelude.{◌≤◌};

mod declared_names;
mod depths;
mod loop_rules;
mod loop_rules_in_order;
mod loop_rules_of_clauses;
mod loop_rules_of_counts;
mod loop_rules_of_heads;
mod loop_rules_of_structure;
mod name_rules;
mod printed_forms;
mod refusals;
mod reversed_loops;
mod run_edges;
mod runs;
mod streams;
mod syntax_faults;
mod translations;
mod turns;

use crate::run::run;
use crate::status::Status;
use outside_io::{CleanSink, CleanSource, MemSink, MemSource};
use std::alloc::{AllocError, Global};

/// How the program answered, and what stands on its streams.
#[derive(Drop)]
struct Answer {
    status: Status,
    out: Vec<u8>,
    diag: Vec<u8>,
}

/// The calls that fail, by their numbers from 1.
#[derive(Clone, Copy)]
struct Failing<'a> {
    reads: &'a [u64],
    out_writes: &'a [u64],
    diag_writes: &'a [u64],
}

const NOTHING_FAILS: Failing<'static> = Failing {
    reads: &[],
    out_writes: &[],
    diag_writes: &[],
};

fn word_list(alloc: Global, words: &[&str]) -> Result<Vec<String>, AllocError> {
    let mut list = Vec::new(alloc);
    for word in words {
        list.push(String::from_str(alloc, word)?)?;
    }
    Ok(list)
}

/// Runs over a source that gives at most `most` bytes in a read, and sinks that take at most 5 in a write.
fn answer_in_pieces(
    alloc: Global,
    words: &[&str],
    text: &[u8],
    most: usize,
    failing: &Failing<'_>,
) -> Result<Answer, AllocError>
    requires { 1 ≤ most }
{
    let words = word_list(alloc, words)?;
    let mut source = MemSource::new(
        Vec::from_slice(alloc, text)?,
        most,
        Vec::from_slice(alloc, failing.reads)?,
    );
    let mut out = MemSink::new(alloc, 4096, 5, Vec::from_slice(alloc, failing.out_writes)?)?;
    let mut diag = MemSink::new(alloc, 4096, 5, Vec::from_slice(alloc, failing.diag_writes)?)?;
    let status = run(alloc, words.as_slice(), &mut source, &mut out, &mut diag);
    Ok(Answer {
        status,
        out: Vec::from_slice(alloc, out.bytes())?,
        diag: Vec::from_slice(alloc, diag.bytes())?,
    })
}

/// Runs over a source that gives at most 3 bytes in a read, and sinks that take at most 5 in a write.
fn answer_to(
    alloc: Global,
    words: &[&str],
    text: &[u8],
    failing: &Failing<'_>,
) -> Result<Answer, AllocError> {
    answer_in_pieces(alloc, words, text, 3, failing)
}

/// Runs over a source and sinks that never fail and give and take up to 4096 bytes at once; `out` has room for `room`.
fn answer_at_once(
    alloc: Global,
    words: &[String],
    text: Vec<u8>,
    room: usize,
) -> Result<Answer, AllocError> {
    let mut source = CleanSource::new(text, 4096);
    let mut out = CleanSink::new(alloc, room, 4096)?;
    let mut diag = CleanSink::new(alloc, 4096, 4096)?;
    let status = run(alloc, words, &mut source, &mut out, &mut diag);
    Ok(Answer {
        status,
        out: Vec::from_slice(alloc, out.bytes())?,
        diag: Vec::from_slice(alloc, diag.bytes())?,
    })
}

/// The program with these lines in `main`, the first of which is line 3.
fn in_main(alloc: Global, lines: &str) -> Result<String, AllocError> {
    format!(in alloc; "void print(long long);\nint main(void) {{\n{lines}\n}}\n")
}
