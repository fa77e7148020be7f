//! What is known of the loops of a nest.

use c_tree::items::Items;
use c_tree::tree::Kind;

/// Positions of loops in a nest, from 1 for the outermost, ascending.
pub type PositionList = Items<u64>;

/// What is known of how often a loop turns, before its construct is entered.
#[derive(Debug, Drop)]
pub enum CountKind {
    /// The count is this number.
    Known(u64),
    /// The count is fixed when the construct is entered.
    Entry,
    /// The count depends on the iterations of the loops at these positions of the same nest.
    Depends(PositionList),
}

/// A construct: a directive that no other directive takes.
#[derive(Clone, Copy, Debug, PartialEq, Eq)]
pub struct Construct {
    pub kind: Kind,
    /// Where the directive's name stands: a byte offset in the text.
    pub place: u64,
}
