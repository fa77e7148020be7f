//! What a directive says: its transformation, with the values of the arguments, and the items of its `apply` clauses by
//! position.

use c_tree::items::Items;

/// A transformation with the values of its arguments.
#[derive(Debug, Drop)]
pub enum Transformation {
    Tile(Items<u64>),
    Interchange(Items<u64>),
    Reverse,
    Split(Items<Option<u64>>),
    Fuse(Option<(u64, u64)>),
    UnrollFull,
    UnrollPartial(u64),
}

/// A transformation, the place of its directive's name, and what is applied to the loops that it gives, the last
/// position first.
#[cycle(plans)]
#[derive(Debug, Drop)]
pub struct Plan {
    pub transformation: Transformation,
    pub place: u64,
    pub items: Items<Applied>,
}

/// A directive at a position of the generated loops, from 1.
#[cycle(plans)]
#[derive(Debug, Drop)]
pub struct Applied {
    pub position: u64,
    pub plan: Plan,
}
