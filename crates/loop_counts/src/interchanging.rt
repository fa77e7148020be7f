//! The kinds of the loops that `interchange` gives (OpenMP 6.0, 11.4).

ghost use Rattle.std.specs.Prelude.{◌≡◌, ◌-◌, ◌++◌, map, flat_map, IfOk, OnOk};
ghost use Rattle.c_semantics.specs.Structure.Parts as parts;
ghost use Rattle.canonical_nests.specs.Kinds as kinds;

use crate::known::{all_known, each_count, has_zero};
use crate::part::{beyond, kind_at, push_kinds, up_to};
use crate::positions::on_positions;
use canonical_nests::nest::CountKind;
use std::alloc::{AllocError, Global};

/// The positions on which the counts of these loops depend.
#[tactic(auto, using(crate::proofs::Interchanges::interchanges))]
fn dependences(alloc: Global, part: &[CountKind]) -> Result<Vec<u64>, AllocError>
    ensures { IfOk result (λ all. all.items ≡ flat_map kinds.depends_on part.now) }
{
    let mut all = Vec::new(alloc);
    'each: for kind in part {
        if let CountKind::Depends(positions) = kind {
            all.extend_from_slice(positions.as_slice())?;
        }
    }
    Ok(all)
}

/// The outermost loop that is given, of this kind where none of the taken ones is without a turn.
fn first_kind(alloc: Global, kind: CountKind, taken: &[CountKind]) -> Result<CountKind, AllocError>
    ensures { IfOk result (λ first. first ≡ kinds.first_known (parts.all_known (map kinds.known_count taken.now)) kind taken.now) }
{
    let counts = each_count(alloc, taken)?;
    match all_known(alloc, counts.as_slice())? {
        None => on_positions(alloc, dependences(alloc, taken)?.as_slice()),
        Some(counts) => {
            if has_zero(counts.as_slice()) {
                Ok(CountKind::Known(0))
            } else {
                Ok(kind)
            }
        }
    }
}

/// Puts the kinds of the loops at these positions at the end.
#[tactic(auto, using(crate::proofs::Interchanges::interchanges))]
fn push_permuted(
    alloc: Global,
    all: &mut Vec<CountKind>,
    permutation: &[u64],
    part: &[CountKind],
) -> Result<(), AllocError>
    ensures { OnOk result (all.new.items ≡ all.old.items ++ map (λ p. kinds.kind_at part.now (p - 1)) permutation.now) }
{
    'each: for position in permutation {
        all.push(kind_at(alloc, part, position.saturating_sub(1))?)?;
    }
    Ok(())
}

/// The part that `interchange` makes of one.
#[tactic(auto, using(crate::proofs::Interchanges::interchanges))]
pub fn interchanged(
    alloc: Global,
    permutation: &[u64],
    part: &[CountKind],
) -> Result<Vec<CountKind>, AllocError>
    ensures { IfOk result (λ all. all.items ≡ kinds.interchanged permutation.now part.now) }
{
    let count = permutation.len() as u64;
    let mut all = Vec::new(alloc);
    if let Some((first, rest)) = permutation.split_first() {
        let kind = kind_at(alloc, part, first.saturating_sub(1))?;
        all.push(first_kind(alloc, kind, up_to(part, count))?)?;
        push_permuted(alloc, &mut all, rest, part)?;
    }
    push_kinds(alloc, &mut all, beyond(part, count))?;
    Ok(all)
}
