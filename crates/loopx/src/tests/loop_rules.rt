//! Texts by the loop rules: each is translated, or refused with its line.

use super::{answer_at_once, in_main, word_list};
use crate::status::Status;
use std::alloc::Global;
use std::process::Abort;
use std::test::Fail;

/// A text, or lines of `main`, and the line that refuses it; none where it is translated.
pub type Row = (&'static str, &'static str);

fn answers_to(rt: &impl Abort, alloc: Global, text: &[u8], row: &Row) -> Result<(), Fail> {
    let words = word_list(alloc, &["translate"])?;
    let text = Vec::from_slice(alloc, text)?;
    let got = answer_at_once(alloc, words.as_slice(), text, 1 << 16)?;
    let want = if row.1.is_empty() {
        Status::Done
    } else {
        Status::Refused
    };
    assert_eq!(rt; got.diag.as_slice(), row.1.as_bytes(), "{}", row.0);
    assert_eq!(rt; got.status, want, "{}", row.0);
    Ok(())
}

/// The rows are lines of `main`, the first of which is line 3.
pub fn answers(rt: &impl Abort, alloc: Global, rows: &[Row]) -> Result<(), Fail> {
    for row in rows {
        let text = in_main(alloc, row.0)?;
        answers_to(rt, alloc, text.as_bytes(), row)?;
    }
    Ok(())
}

/// The rows are whole texts.
pub fn whole_answers(rt: &impl Abort, alloc: Global, rows: &[Row]) -> Result<(), Fail> {
    for row in rows {
        answers_to(rt, alloc, row.0.as_bytes(), row)?;
    }
    Ok(())
}
