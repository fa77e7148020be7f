//! Positions of loops in a nest, and the kinds that depend on them.

ghost use Rattle.std.specs.Prelude.{◌≡◌, IfOk};
ghost use Rattle.c_semantics.specs.Loops.Transformations.{place_of};
ghost use Rattle.canonical_nests.specs.Kinds as kinds;

use c_tree::items::Items;
use canonical_nests::nest::CountKind;
use std::alloc::{AllocError, Global};

/// A position in its place among ascending ones, each once.
#[tactic(auto, using(crate::proofs::PositionLists::positions))]
fn with_position(alloc: Global, position: u64, others: &[u64]) -> Result<Vec<u64>, AllocError>
    ensures { IfOk result (λ all. all.items ≡ kinds.with_position position others.now) }
{
    let mut all = Vec::new(alloc);
    'each: for (i, other) in others.iter().enumerate() {
        if position < *other {
            all.push(position)?;
            all.extend_from_slice(&others[i..])?;
            return Ok(all);
        }
        if position == *other {
            all.extend_from_slice(&others[i..])?;
            return Ok(all);
        }
        all.push(*other)?;
    }
    all.push(position)?;
    Ok(all)
}

/// The positions in ascending order, each once.
#[tactic(auto, using(crate::proofs::PositionLists::ascents))]
fn ascending(alloc: Global, positions: &[u64]) -> Result<Vec<u64>, AllocError>
    ensures { IfOk result (λ all. all.items ≡ kinds.ascending positions.now) }
{
    let mut all = Vec::new(alloc);
    let mut left = positions.len();
    'each: while left > 0 {
        left -= 1;
        all = with_position(alloc, positions[left], all.as_slice())?;
    }
    Ok(all)
}

/// What depends on the loops at these positions; on none what is fixed at the entry.
#[tactic(auto, using(crate::proofs::PositionLists::dependences))]
pub fn on_positions(alloc: Global, positions: &[u64]) -> Result<CountKind, AllocError>
    ensures { IfOk result (λ kind. kind ≡ kinds.on_positions positions.now) }
{
    let all = ascending(alloc, positions)?;
    if all.is_empty() {
        return Ok(CountKind::Entry);
    }
    Ok(CountKind::Depends(Items::from_items(all)))
}

/// The place of the first such number, from 0; how many there are where it isn't among them.
#[tactic(auto, using(crate::proofs::PositionLists::positions))]
pub fn place_among(number: u64, numbers: &[u64]) -> u64
    ensures { result ≡ place_of number numbers.now }
{
    'each: for (i, other) in numbers.iter().enumerate() {
        if number == *other {
            return i as u64;
        }
    }
    numbers.len() as u64
}

/// The same kind.
pub fn copy_kind(alloc: Global, kind: &CountKind) -> Result<CountKind, AllocError>
    ensures { IfOk result (λ copy. copy ≡ kind.now) }
{
    match kind {
        CountKind::Known(count) => Ok(CountKind::Known(*count)),
        CountKind::Entry => Ok(CountKind::Entry),
        CountKind::Depends(positions) => {
            let positions = Vec::from_slice(alloc, positions.as_slice())?;
            Ok(CountKind::Depends(Items::from_items(positions)))
        }
    }
}
