//! What is answered of the loops that a statement gives to a directive round it.

use canonical_nests::nest::CountKind;
use std::alloc::AllocError;

/// A nest of loops, the outermost first, as the kind of each count.
#[derive(Debug, Drop)]
pub struct PartShape {
    pub loops: Vec<CountKind>,
}

/// The parts that a statement gives, in their order.
#[derive(Debug, Drop)]
pub struct Shape {
    pub parts: Vec<PartShape>,
}

/// Why a statement has no shape.
#[derive(Clone, Copy, Debug, PartialEq, Eq)]
pub enum ShapeFault {
    /// The loop whose word `for` stands here isn't canonical, and is affected.
    NotCanonical(u64),
    /// A rule of structure is broken here.
    NoShape(u64),
    Memory,
}

impl From<AllocError> for ShapeFault {
    ghost use Rattle.std.specs.Prelude.{◌≡◌};
    ghost use Rattle.loop_shapes.specs.declared.shapes.ShapeFault.TheVariants.{Memory};

    ghost from_gives = { λ _ fault. fault ≡ Memory };

    fn from(_: AllocError) -> ShapeFault {
        ShapeFault::Memory
    }
}
