//! Laws of the rewrites.

ghost use Rattle.permute_reverse.specs.Laws.{ReversedDenotes};

/// Where a loop from 0 denotes a tree, the reversed loop denotes the loop over its children in reverse.
pub fn reversed_denotes()
    ensures { ReversedDenotes }
{}
