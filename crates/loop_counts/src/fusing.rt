//! The kinds of the loops that `fuse` gives (OpenMP 6.0, 11.3).

ghost use Rattle.std.specs.Prelude.{◌≡◌, IfOk};
ghost use Rattle.canonical_nests.specs.Kinds as kinds;

use crate::known::{all_known, first_counts, greatest};
use crate::part::{Part, beyond, push_parts, up_to};
use c_tree::items::Items;
use canonical_nests::nest::CountKind;
use std::alloc::{AllocError, Global};

/// The part that parts are fused to.
fn fused(alloc: Global, given: &[Part]) -> Result<Part, AllocError>
    ensures { IfOk result (λ part. part ≡ kinds.fused given.now) }
{
    let counts = first_counts(alloc, given)?;
    let kind = match all_known(alloc, counts.as_slice())? {
        None => CountKind::Entry,
        Some(counts) => CountKind::Known(greatest(counts.as_slice())),
    };
    let mut all = Vec::new(alloc);
    all.push(kind)?;
    Ok(Items::from_items(all))
}

/// The parts that `fuse` makes of a sequence: all of them fused, or so many from the one numbered `first`.
pub fn fused_parts(
    alloc: Global,
    range: &Option<(u64, u64)>,
    given: &[Part],
) -> Result<Vec<Part>, AllocError>
    ensures { IfOk result (λ all. all.items ≡ kinds.fused_parts range.now given.now) }
{
    let mut all = Vec::new(alloc);
    match range {
        None => all.push(fused(alloc, given)?)?,
        Some((first, count)) => {
            let before = first.saturating_sub(1);
            push_parts(alloc, &mut all, up_to(given, before))?;
            let taken = up_to(beyond(given, before), *count);
            all.push(fused(alloc, taken)?)?;
            push_parts(
                alloc,
                &mut all,
                beyond(given, before.saturating_add(*count)),
            )?;
        }
    }
    Ok(all)
}
