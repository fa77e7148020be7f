//! Known counts.

ghost use Rattle.std.specs.Prelude.{◌≡◌, map, IfOk};
ghost use Rattle.std.specs.Option.{option_map};
ghost use Rattle.c_semantics.specs.Loops.Transformations.{any_zero};
ghost use Rattle.c_semantics.specs.Structure.Parts as parts;
ghost use Rattle.canonical_nests.specs.Kinds as kinds;

use crate::part::Part;
use canonical_nests::nest::CountKind;
use std::alloc::{AllocError, Global};

/// The count, where it is known.
pub fn known_count(kind: &CountKind) -> Option<u64>
    ensures { result ≡ kinds.known_count kind.now }
{
    match kind {
        CountKind::Known(count) => Some(*count),
        CountKind::Entry | CountKind::Depends(_) => None,
    }
}

/// The count of a part's outermost loop, where it has one and its count is known.
#[tactic(auto, using(crate::proofs::KnownCounts::known))]
pub fn first_count(part: &[CountKind]) -> Option<u64>
    ensures { result ≡ kinds.known_count (kinds.kind_at part.now 0) }
{
    if part.is_empty() {
        None
    } else {
        known_count(&part[0])
    }
}

/// The count of each loop.
#[tactic(auto, using(crate::proofs::KnownCounts::known))]
pub fn each_count(alloc: Global, part: &[CountKind]) -> Result<Vec<Option<u64>>, AllocError>
    ensures { IfOk result (λ counts. counts.items ≡ map kinds.known_count part.now) }
{
    let mut counts = Vec::new(alloc);
    'each: for kind in part {
        counts.push(known_count(kind))?;
    }
    Ok(counts)
}

/// The count of each part's outermost loop.
#[tactic(auto, using(crate::proofs::KnownCounts::known))]
pub fn first_counts(alloc: Global, given: &[Part]) -> Result<Vec<Option<u64>>, AllocError>
    ensures { IfOk result (λ counts. counts.items ≡ map (λ part. kinds.known_count (kinds.kind_at part 0)) given.now) }
{
    let mut counts = Vec::new(alloc);
    'each: for part in given {
        counts.push(first_count(part.as_slice()))?;
    }
    Ok(counts)
}

/// The counts, where all are known.
#[tactic(auto, using(crate::proofs::KnownCounts::known))]
pub fn all_known(alloc: Global, counts: &[Option<u64>]) -> Result<Option<Vec<u64>>, AllocError>
    ensures { IfOk result (λ all. option_map (λ v. v.items) all ≡ parts.all_known counts.now) }
{
    let mut all = Vec::new(alloc);
    'each: for count in counts {
        match *count {
            None => return Ok(None),
            Some(count) => all.push(count)?,
        }
    }
    Ok(Some(all))
}

/// Whether one of the counts is 0.
#[tactic(auto, using(crate::proofs::KnownCounts::known))]
pub fn has_zero(counts: &[u64]) -> bool
    ensures { result ≡ any_zero counts.now }
{
    'each: for count in counts {
        if *count == 0 {
            return true;
        }
    }
    false
}

/// The greatest count, 0 where there is none.
#[tactic(auto, using(crate::proofs::KnownCounts::known))]
pub fn greatest(counts: &[u64]) -> u64
    ensures { result ≡ parts.greatest counts.now }
{
    let mut most = 0;
    'each: for count in counts {
        most = most.max(*count);
    }
    most
}
