//! Parts of what a directive gives: copies of them, and of what they hold.

ghost use Rattle.std.specs.Prelude.{◌≡◌, [], ◌∷◌, ◌++◌, take, drop, get_or, IfOk, OnOk};
ghost use Rattle.canonical_nests.specs.Kinds as kinds;

use crate::positions::copy_kind;
use c_tree::items::Items;
use canonical_nests::nest::CountKind;
use std::alloc::{AllocError, Global};

/// A nest of loops, the outermost first, as the kind of each count.
pub type Part = Items<CountKind>;

/// The first so many.
#[tactic(auto, using(crate::proofs::Parts::cuts))]
pub fn up_to<T>(items: &[T], count: u64) -> &[T]
    ensures { result.now ≡ take count items.now }
{
    if count < items.len() as u64 {
        &items[..count as usize]
    } else {
        items
    }
}

/// All but the first so many.
#[tactic(auto, using(crate::proofs::Parts::cuts))]
pub fn beyond<T>(items: &[T], count: u64) -> &[T]
    ensures { result.now ≡ drop count items.now }
{
    if count < items.len() as u64 {
        &items[count as usize..]
    } else {
        &items[items.len()..]
    }
}

/// The kind of the loop at a place, from 0.
#[tactic(auto, using(crate::proofs::Parts::cuts))]
pub fn kind_at(alloc: Global, part: &[CountKind], place: u64) -> Result<CountKind, AllocError>
    ensures { IfOk result (λ kind. kind ≡ kinds.kind_at part.now place) }
{
    if place < part.len() as u64 {
        copy_kind(alloc, &part[place as usize])
    } else {
        Ok(CountKind::Entry)
    }
}

/// Puts a copy of each kind at the end.
#[tactic(auto, using(crate::proofs::Parts::copied))]
pub fn push_kinds(
    alloc: Global,
    all: &mut Vec<CountKind>,
    part: &[CountKind],
) -> Result<(), AllocError>
    ensures { OnOk result (all.new.items ≡ all.old.items ++ part.now) }
{
    'each: for kind in part {
        all.push(copy_kind(alloc, kind)?)?;
    }
    Ok(())
}

/// The same part.
pub fn copy_part(alloc: Global, part: &[CountKind]) -> Result<Part, AllocError>
    ensures { IfOk result (λ copy. copy ≡ part.now) }
{
    let mut all = Vec::new(alloc);
    push_kinds(alloc, &mut all, part)?;
    Ok(Items::from_items(all))
}

/// Puts a copy of each part at the end.
#[tactic(auto, using(crate::proofs::Parts::copied))]
pub fn push_parts(alloc: Global, all: &mut Vec<Part>, parts: &[Part]) -> Result<(), AllocError>
    ensures { OnOk result (all.new.items ≡ all.old.items ++ parts.now) }
{
    'each: for part in parts {
        all.push(copy_part(alloc, part.as_slice())?)?;
    }
    Ok(())
}

/// A list of one part.
pub fn one_part(alloc: Global, part: Vec<CountKind>) -> Result<Vec<Part>, AllocError>
    ensures { IfOk result (λ parts. parts.items ≡ part.items ∷ []) }
{
    let mut parts = Vec::new(alloc);
    parts.push(Items::from_items(part))?;
    Ok(parts)
}

/// The part at a place, from 0, and one without loops past the last.
#[tactic(auto, using(crate::proofs::Parts::cuts))]
pub fn part_at(parts: &[Part], place: u64) -> &[CountKind]
    ensures { result.now ≡ get_or parts.now place kinds.no_part }
{
    if place < parts.len() as u64 {
        parts[place as usize].as_slice()
    } else {
        &[]
    }
}
