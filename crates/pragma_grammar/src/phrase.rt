//! What a reader of phrases answers.

use std::alloc::AllocError;

/// A whole phrase: its tree with its height, or, where the height is above 256, the place of the first token of that
/// subtree of height 257 which ends first. `next` is the index of the token after the phrase.
#[derive(Debug, Drop)]
pub enum Phrase<T> {
    Whole { tree: T, height: u64, next: usize },
    Deep { place: u64, next: usize },
}

/// What is wrong with the tokens of a text.
#[derive(Clone, Copy, Debug, PartialEq, Eq)]
pub enum ParseKind {
    /// A token that no phrase can have at its place.
    Syntax,

    /// Such a token, which is a word or punctuator outside the profile.
    Outside,

    /// A tree of a height above 256.
    TooDeep,
}

/// Why tokens have no tree: what is wrong, with its place in bytes, or no memory was left.
#[derive(Clone, Copy, Debug, PartialEq, Eq)]
pub enum ParseFault {
    At(ParseKind, u64),
    Memory,
}

impl From<AllocError> for ParseFault {
    ghost use Rattle.std.specs.Prelude.{◌≡◌};
    ghost use Rattle.pragma_grammar.specs.declared.phrase.ParseFault.TheVariants.{Memory};

    ghost from_gives = { λ _ fault. fault ≡ Memory };

    fn from(_: AllocError) -> ParseFault {
        ParseFault::Memory
    }
}
