//! Where the loops of a part go, and the kinds that depend on them.

ghost use Rattle.std.specs.Prelude.{◌≡◌, ◌+◌, [], ◌∷◌, map, flat_map, IfOk, nat_le, if◌then◌else◌};
ghost use Rattle.canonical_nests.specs.Kinds as kinds;
ghost use Rattle.canonical_nests.specs.Plans.{seen_transformation};
ghost use Rattle.loop_counts.specs.Moves.{move_of};

use crate::positions::{copy_kind, on_positions, place_among};
use canonical_nests::depths::{only, sum};
use canonical_nests::nest::CountKind;
use canonical_nests::plan::Transformation;
use std::alloc::{AllocError, Global};

/// Where the loops of a part go.
#[derive(Clone, Copy)]
pub enum Move<'a> {
    /// Each stays up to this position, and there is none below it.
    UpTo(u64),
    /// The loops below so many others are transformed.
    Below(u64, &'a Transformation),
    /// Each goes one further in.
    Inward,
}

/// The positions of a loop that `tile` takes or leaves, with so many sizes: its grid loop's, and its own.
fn tile_positions(alloc: Global, sizes: u64, position: u64) -> Result<Vec<u64>, AllocError>
    ensures { IfOk result (λ all. all.items ≡ (if nat_le position sizes then position ∷ (sizes + position) ∷ [] else (sizes + position) ∷ [])) }
{
    let inner = sum(sizes, position)?;
    if position <= sizes {
        let mut all = only(alloc, position)?;
        all.push(inner)?;
        return Ok(all);
    }
    only(alloc, inner)
}

/// The new positions of a loop, both counted within the loops that are transformed.
fn new_positions(alloc: Global, c: &Transformation, position: u64) -> Result<Vec<u64>, AllocError>
    ensures { IfOk result (λ all. all.items ≡ kinds.new_positions (seen_transformation c.now) position) }
{
    match c {
        Transformation::Tile(sizes) => tile_positions(alloc, sizes.len() as u64, position),
        Transformation::Interchange(permutation) => {
            if position <= permutation.len() as u64 {
                only(
                    alloc,
                    sum(place_among(position, permutation.as_slice()), 1)?,
                )
            } else {
                only(alloc, position)
            }
        }
        Transformation::Reverse
        | Transformation::Split(_)
        | Transformation::Fuse(_)
        | Transformation::UnrollFull
        | Transformation::UnrollPartial(_) => only(alloc, position),
    }
}

/// The positions where so many loops more stand round them.
#[tactic(auto, using(crate::proofs::MovedKinds::moves))]
fn lifted(alloc: Global, round: u64, positions: &[u64]) -> Result<Vec<u64>, AllocError>
    ensures { IfOk result (λ all. all.items ≡ map (λ q. round + q) positions.now) }
{
    let mut all = Vec::new(alloc);
    'each: for position in positions {
        all.push(sum(round, *position)?)?;
    }
    Ok(all)
}

fn positions_below(
    alloc: Global,
    round: u64,
    c: &Transformation,
    position: u64,
) -> Result<Vec<u64>, AllocError>
    ensures { IfOk result (λ all. all.items ≡ kinds.positions_below round (seen_transformation c.now) position) }
{
    if position <= round {
        return only(alloc, position);
    }
    let inner = new_positions(alloc, c, position - round)?;
    lifted(alloc, round, inner.as_slice())
}

fn up_to(alloc: Global, most: u64, position: u64) -> Result<Vec<u64>, AllocError>
    ensures { IfOk result (λ all. all.items ≡ kinds.position_up_to most position) }
{
    if position <= most {
        only(alloc, position)
    } else {
        Ok(Vec::new(alloc))
    }
}

/// The positions to which the loop at a position goes.
fn places(alloc: Global, to: Move, position: u64) -> Result<Vec<u64>, AllocError>
    ensures { IfOk result (λ all. all.items ≡ move_of to.entry position) }
{
    match to {
        Move::UpTo(most) => up_to(alloc, most, position),
        Move::Below(round, c) => positions_below(alloc, round, c, position),
        Move::Inward => only(alloc, sum(position, 1)?),
    }
}

#[tactic(auto, using(crate::proofs::MovedKinds::moves))]
fn all_places(alloc: Global, to: Move, positions: &[u64]) -> Result<Vec<u64>, AllocError>
    ensures { IfOk result (λ all. all.items ≡ flat_map (move_of to.entry) positions.now) }
{
    let mut all = Vec::new(alloc);
    'each: for position in positions {
        let here = places(alloc, to, *position)?;
        all.extend_from_slice(here.as_slice())?;
    }
    Ok(all)
}

/// The kind of a loop once the loops on which its count depends have gone where they go.
fn moved(alloc: Global, to: Move, kind: &CountKind) -> Result<CountKind, AllocError>
    ensures { IfOk result (λ new. new ≡ kinds.moved (move_of to.entry) kind.now) }
{
    match kind {
        CountKind::Depends(positions) => {
            let all = all_places(alloc, to, positions.as_slice())?;
            on_positions(alloc, all.as_slice())
        }
        CountKind::Known(_) | CountKind::Entry => copy_kind(alloc, kind),
    }
}

/// The same of each loop of a part.
#[tactic(auto, using(crate::proofs::MovedKinds::moves))]
pub fn moved_all(alloc: Global, to: Move, part: &[CountKind]) -> Result<Vec<CountKind>, AllocError>
    ensures { IfOk result (λ all. all.items ≡ map (kinds.moved (move_of to.entry)) part.now) }
{
    let mut all = Vec::new(alloc);
    'each: for kind in part {
        all.push(moved(alloc, to, kind)?)?;
    }
    Ok(all)
}

/// The part, where no count depends on a position that it doesn't have.
pub fn settled(alloc: Global, part: &[CountKind]) -> Result<Vec<CountKind>, AllocError>
    ensures { IfOk result (λ all. all.items ≡ kinds.settled part.now) }
{
    moved_all(alloc, Move::UpTo(part.len() as u64), part)
}
