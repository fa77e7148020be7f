//! The words of directives.

ghost use Rattle.std.specs.Prelude.{◌≡◌, bytes_eq};
ghost use Rattle.pragma_grammar.specs.Words.{kind_of, clause_of, is_nothing};

use c_tree::tree::Kind;

/// The name of a clause.
#[derive(Clone, Copy, Debug, PartialEq, Eq)]
pub enum ClauseWord {
    Sizes,
    Permutation,
    Counts,
    LoopRange,
    Full,
    Partial,
    Apply,
}

fn same_word(a: &[u8], b: &[u8]) -> bool
    ensures { result ≡ bytes_eq a.now b.now }
{
    a == b
}

/// The directive that a word names.
#[tactic(auto, unfolding(crate::specs::Words::kind_of))]
pub fn kind_of(word: &[u8]) -> Option<Kind>
    ensures { result ≡ kind_of word.now }
{
    if same_word(word, b"tile") {
        Some(Kind::Tile)
    } else if same_word(word, b"unroll") {
        Some(Kind::Unroll)
    } else if same_word(word, b"interchange") {
        Some(Kind::Interchange)
    } else if same_word(word, b"reverse") {
        Some(Kind::Reverse)
    } else if same_word(word, b"split") {
        Some(Kind::Split)
    } else if same_word(word, b"fuse") {
        Some(Kind::Fuse)
    } else {
        None
    }
}

/// The clause that a word names.
#[tactic(auto, unfolding(crate::specs::Words::clause_of))]
pub fn clause_of(word: &[u8]) -> Option<ClauseWord>
    ensures { result ≡ clause_of word.now }
{
    if same_word(word, b"sizes") {
        Some(ClauseWord::Sizes)
    } else if same_word(word, b"permutation") {
        Some(ClauseWord::Permutation)
    } else if same_word(word, b"counts") {
        Some(ClauseWord::Counts)
    } else if same_word(word, b"looprange") {
        Some(ClauseWord::LoopRange)
    } else if same_word(word, b"full") {
        Some(ClauseWord::Full)
    } else if same_word(word, b"partial") {
        Some(ClauseWord::Partial)
    } else if same_word(word, b"apply") {
        Some(ClauseWord::Apply)
    } else {
        None
    }
}

/// Is the word the item that does nothing?
#[tactic(auto, unfolding(crate::specs::Words::is_nothing))]
pub fn is_nothing(word: &[u8]) -> bool
    ensures { result ≡ is_nothing word.now }
{
    same_word(word, b"nothing")
}
