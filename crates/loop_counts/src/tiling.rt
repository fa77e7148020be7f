//! The kinds of the loops that `tile` and a partial `unroll` give (OpenMP 6.0, 11.8 and 11.9).

ghost use Rattle.std.specs.Prelude.{◌≡◌, ◌%◌, ◌<◌, ◌==◌, ◌++◌, IfOk, OnOk};
ghost use Rattle.c_semantics.specs.Loops.Transformations as transformations;
ghost use Rattle.canonical_nests.specs.Kinds as kinds;

use crate::part::{beyond, push_kinds};
use crate::positions::{copy_kind, on_positions};
use canonical_nests::depths::{only, sum};
use canonical_nests::nest::CountKind;
use std::alloc::{AllocError, Global};

/// The quotient, rounded up; by 0, 1 for any number but 0.
#[tactic(auto, using(crate::proofs::Quotients::quotients))]
fn div_up(n: u64, k: u64) -> u64
    ensures { result ≡ transformations.div_up n k }
{
    if k == 0 {
        return n.min(1);
    }
    let whole = n / k;
    if n % k == 0 { whole } else { whole + 1 }
}

/// The grid loop of `tile`, or the loop of a partial `unroll`.
pub fn chunk_kind(alloc: Global, kind: &CountKind, size: u64) -> Result<CountKind, AllocError>
    ensures { IfOk result (λ chunk. chunk ≡ kinds.chunk_kind kind.now size) }
{
    match kind {
        CountKind::Known(count) => Ok(CountKind::Known(div_up(*count, size))),
        CountKind::Entry | CountKind::Depends(_) => copy_kind(alloc, kind),
    }
}

#[tactic(auto, using(crate::proofs::Quotients::quotients))]
fn divides(size: u64, count: u64) -> bool
    requires { size < count }
    ensures { result ≡ (count % size == 0) }
{
    size != 0 && count % size == 0
}

fn known_tile(alloc: Global, grid: u64, count: u64, size: u64) -> Result<CountKind, AllocError>
    ensures { IfOk result (λ tile. tile ≡ kinds.tile_kind grid (CountKind.Known count) size) }
{
    if count <= size {
        return Ok(CountKind::Known(count));
    }
    if divides(size, count) {
        return Ok(CountKind::Known(size));
    }
    on_positions(alloc, only(alloc, grid)?.as_slice())
}

/// The tile loop whose grid loop is at a position.
fn tile_kind(alloc: Global, grid: u64, kind: &CountKind, size: u64) -> Result<CountKind, AllocError>
    ensures { IfOk result (λ tile. tile ≡ kinds.tile_kind grid kind.now size) }
{
    match kind {
        CountKind::Known(count) => known_tile(alloc, grid, *count, size),
        CountKind::Entry => on_positions(alloc, only(alloc, grid)?.as_slice()),
        CountKind::Depends(positions) => {
            let mut all = only(alloc, grid)?;
            all.extend_from_slice(positions.as_slice())?;
            on_positions(alloc, all.as_slice())
        }
    }
}

#[tactic(auto, using(crate::proofs::Tiles::tiles))]
fn push_grid(
    alloc: Global,
    all: &mut Vec<CountKind>,
    part: &[CountKind],
    sizes: &[u64],
) -> Result<(), AllocError>
    ensures { OnOk result (all.new.items ≡ all.old.items ++ kinds.grid_kinds part.now sizes.now) }
{
    'each: for (i, size) in sizes.iter().enumerate() {
        if part.len() <= i {
            return Ok(());
        }
        all.push(chunk_kind(alloc, &part[i], *size)?)?;
    }
    Ok(())
}

#[tactic(auto, using(crate::proofs::Tiles::tiles))]
fn push_tiles(
    alloc: Global,
    all: &mut Vec<CountKind>,
    grid: u64,
    part: &[CountKind],
    sizes: &[u64],
) -> Result<(), AllocError>
    ensures { OnOk result (all.new.items ≡ all.old.items ++ kinds.tile_kinds grid part.now sizes.now) }
{
    'each: for (i, size) in sizes.iter().enumerate() {
        if part.len() <= i {
            return Ok(());
        }
        let position = sum(grid, i as u64)?;
        all.push(tile_kind(alloc, position, &part[i], *size)?)?;
    }
    Ok(())
}

/// The part that `tile` makes of one, below so many other loops.
#[tactic(auto, using(crate::proofs::Tiles::tiles))]
pub fn tiled(
    alloc: Global,
    round: u64,
    sizes: &[u64],
    part: &[CountKind],
) -> Result<Vec<CountKind>, AllocError>
    ensures { IfOk result (λ all. all.items ≡ kinds.tiled round sizes.now part.now) }
{
    let mut all = Vec::new(alloc);
    push_grid(alloc, &mut all, part, sizes)?;
    push_tiles(alloc, &mut all, sum(round, 1)?, part, sizes)?;
    push_kinds(alloc, &mut all, beyond(part, sizes.len() as u64))?;
    Ok(all)
}
