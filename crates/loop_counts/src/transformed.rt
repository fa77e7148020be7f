//! What a transformation makes of parts, before the items of `apply` act.

ghost use Rattle.std.specs.Prelude.{◌≡◌, [], ◌∷◌, ◌++◌, map, IfOk};
ghost use Rattle.canonical_nests.specs.Kinds as kinds;
ghost use Rattle.canonical_nests.specs.Plans.{seen_transformation};

use crate::fusing::fused_parts;
use crate::interchanging::interchanged;
use crate::moves::{Move, moved_all, settled};
use crate::part::{Part, beyond, kind_at, one_part, part_at, push_kinds, up_to};
use crate::splitting::split_parts;
use crate::tiling::{chunk_kind, tiled};
use c_tree::items::Items;
use canonical_nests::nest::CountKind;
use canonical_nests::plan::Transformation;
use std::alloc::{AllocError, Global};

fn unrolled(alloc: Global, factor: u64, part: &[CountKind]) -> Result<Vec<CountKind>, AllocError>
    ensures { IfOk result (λ all. all.items ≡ kinds.chunk_kind (kinds.kind_at part.now 0) factor ∷ []) }
{
    let mut all = Vec::new(alloc);
    let kind = kind_at(alloc, part, 0)?;
    all.push(chunk_kind(alloc, &kind, factor)?)?;
    Ok(all)
}

fn copied(alloc: Global, part: &[CountKind]) -> Result<Vec<CountKind>, AllocError>
    ensures { IfOk result (λ all. all.items ≡ part.now) }
{
    let mut all = Vec::new(alloc);
    push_kinds(alloc, &mut all, part)?;
    Ok(all)
}

/// The parts that a transformation makes of the loops of a part below so many others, each without these.
fn inner_kinds(
    alloc: Global,
    c: &Transformation,
    round: u64,
    part: &[CountKind],
) -> Result<Vec<Part>, AllocError>
    ensures { IfOk result (λ all. all.items ≡ kinds.inner_kinds (seen_transformation c.now) round part.now) }
{
    match c {
        Transformation::Tile(sizes) => {
            one_part(alloc, tiled(alloc, round, sizes.as_slice(), part)?)
        }
        Transformation::Interchange(permutation) => {
            one_part(alloc, interchanged(alloc, permutation.as_slice(), part)?)
        }
        Transformation::Split(counts) => {
            let kind = kind_at(alloc, part, 0)?;
            split_parts(alloc, &kind, beyond(part, 1), counts.as_slice())
        }
        Transformation::UnrollFull => one_part(alloc, Vec::new(alloc)),
        Transformation::UnrollPartial(factor) => {
            one_part(alloc, unrolled(alloc, *factor, part)?)
        }
        Transformation::Reverse | Transformation::Fuse(_) => {
            one_part(alloc, copied(alloc, part)?)
        }
    }
}

/// A part below other loops.
fn below(alloc: Global, round: &[CountKind], part: &[CountKind]) -> Result<Part, AllocError>
    ensures { IfOk result (λ all. all ≡ kinds.settled (round.now ++ part.now)) }
{
    let mut all = copied(alloc, round)?;
    push_kinds(alloc, &mut all, part)?;
    Ok(Items::from_items(settled(alloc, all.as_slice())?))
}

/// Each part below other loops.
#[tactic(auto, using(crate::proofs::Transforms::transforms))]
fn each_below(alloc: Global, round: &[CountKind], parts: &[Part]) -> Result<Vec<Part>, AllocError>
    ensures { IfOk result (λ all. all.items ≡ map (λ part. kinds.settled (round.now ++ part)) parts.now) }
{
    let mut all = Vec::new(alloc);
    'each: for part in parts {
        all.push(below(alloc, round, part.as_slice())?)?;
    }
    Ok(all)
}

/// The parts that a transformation makes of a part, below its first loops.
fn part_kinds(
    alloc: Global,
    c: &Transformation,
    round: u64,
    part: &[CountKind],
) -> Result<Vec<Part>, AllocError>
    ensures { IfOk result (λ all. all.items ≡ kinds.part_kinds (seen_transformation c.now) round part.now) }
{
    let new = moved_all(alloc, Move::Below(round, c), part)?;
    let inner = inner_kinds(alloc, c, round, beyond(new.as_slice(), round))?;
    each_below(alloc, up_to(new.as_slice(), round), inner.as_slice())
}

/// The parts that a transformation makes of these, below the first so many loops. Only `fuse` takes several parts, and
/// it stands below no loop.
pub fn transformed_kinds(
    alloc: Global,
    c: &Transformation,
    round: u64,
    parts: &[Part],
) -> Result<Vec<Part>, AllocError>
    ensures { IfOk result (λ all. all.items ≡ kinds.transformed_kinds (seen_transformation c.now) round parts.now) }
{
    match c {
        Transformation::Fuse(range) => fused_parts(alloc, range, parts),
        _ => part_kinds(alloc, c, round, part_at(parts, 0)),
    }
}
