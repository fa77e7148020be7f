//! Texts in which phrases stand in one another, and the heights of what is read of them.

use pragma_grammar::phrase::Phrase;
use std::alloc::{AllocError, Global};
use std::process::Abort;

/// A text made of `before` a number of times, `middle`, and `after` as often.
#[derive(Clone, Copy)]
pub struct Nest {
    pub before: &'static str,
    pub middle: &'static str,
    pub after: &'static str,
}

fn repeat(text: &mut String, part: &str, count: usize) -> Result<(), AllocError> {
    for _ in 0..count {
        text.push_str(part)?;
    }
    Ok(())
}

pub fn nested(alloc: Global, nest: Nest, count: usize) -> Result<String, AllocError> {
    let mut text = String::new(alloc);
    repeat(&mut text, nest.before, count)?;
    text.push_str(nest.middle)?;
    repeat(&mut text, nest.after, count)?;
    Ok(text)
}

/// The height of the phrase, or else the place of what is too deep; it is the whole text but for its end.
pub fn show_height<T: Drop>(
    rt: &impl Abort,
    alloc: Global,
    phrase: Phrase<T>,
    end: usize,
) -> Result<String, AllocError> {
    match phrase {
        Phrase::Whole { height, next, .. } => {
            assert!(rt; next == end);
            format!(in alloc; "height {height}")
        }
        Phrase::Deep { place, next } => {
            assert!(rt; next == end);
            format!(in alloc; "deep {place}")
        }
    }
}
