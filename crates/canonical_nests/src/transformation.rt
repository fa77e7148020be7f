//! The transformation that a directive says, with the values of its arguments.

ghost use Rattle.std.specs.Prelude.{◌≡◌, [], ◌∷◌, map, Some, IfOk};
ghost use Rattle.c_tree.specs.BareOf.{bare_clause, bare_clauses};
ghost use Rattle.c_semantics.specs.Loops.Directives as directives;
ghost use Rattle.canonical_nests.specs.Held.{ClauseIsHeld, ClausesAreHeld};
ghost use Rattle.canonical_nests.specs.FirstClauses as first;
ghost use Rattle.canonical_nests.specs.Plans.{seen_transformation};

use crate::clauses::{Constants, Sort, count_numbers, first_of, number, numbers};
use crate::plan::Transformation;
use c_tree::items::Items;
use c_tree::tree::{Clause, ClauseKind, Kind};
use std::alloc::{AllocError, Global};

fn own_sizes<C: Constants>(
    alloc: Global,
    constants: &C,
    clause: &Clause,
) -> Result<Items<u64>, AllocError>
    requires held { C.are_held constants.now }
    requires literals { ClauseIsHeld (bare_clause clause.now) }
    ensures { IfOk result (λ sizes. sizes ≡ map (directives.number (C.defines constants.now)) (first.sizes_from (Some (bare_clause clause.now)))) }
{
    match &clause.kind {
        ClauseKind::Sizes(es) => Ok(Items::from_items(numbers(alloc, constants, es.as_slice())?)),
        ClauseKind::Permutation(_)
        | ClauseKind::Counts(_)
        | ClauseKind::LoopRange(_, _)
        | ClauseKind::Full
        | ClauseKind::Partial(_)
        | ClauseKind::Apply { .. } => Ok(Items::new(alloc)),
    }
}

/// The sizes of the first `sizes` clause.
#[tactic(auto, using(crate::proofs::FirstOfSort::firsts))]
fn sizes<C: Constants>(
    alloc: Global,
    constants: &C,
    clauses: &[Clause],
) -> Result<Items<u64>, AllocError>
    requires held { C.are_held constants.now }
    requires literals { ClausesAreHeld (bare_clauses clauses.now) }
    ensures { IfOk result (λ sizes. sizes ≡ map (directives.number (C.defines constants.now)) (directives.sizes_in (bare_clauses clauses.now))) }
{
    match first_of(Sort::Sizes, clauses) {
        None => Ok(Items::new(alloc)),
        Some(clause) => own_sizes(alloc, constants, clause),
    }
}

/// The loops in the order that `interchange` takes without a clause.
fn swapped(alloc: Global) -> Result<Items<u64>, AllocError>
    ensures { IfOk result (λ items. items ≡ 2 ∷ 1 ∷ []) }
{
    let mut items = Vec::new(alloc);
    items.push(2)?;
    items.push(1)?;
    Ok(Items::from_items(items))
}

fn own_permutation<C: Constants>(
    alloc: Global,
    constants: &C,
    clause: &Clause,
) -> Result<Items<u64>, AllocError>
    requires held { C.are_held constants.now }
    requires literals { ClauseIsHeld (bare_clause clause.now) }
    ensures { IfOk result (λ items. items ≡ first.permutation_from (C.defines constants.now) (Some (bare_clause clause.now))) }
{
    match &clause.kind {
        ClauseKind::Permutation(es) => {
            Ok(Items::from_items(numbers(alloc, constants, es.as_slice())?))
        }
        ClauseKind::Sizes(_)
        | ClauseKind::Counts(_)
        | ClauseKind::LoopRange(_, _)
        | ClauseKind::Full
        | ClauseKind::Partial(_)
        | ClauseKind::Apply { .. } => swapped(alloc),
    }
}

/// The items of the first `permutation` clause, and 2, 1 where there is none.
#[tactic(auto, using(crate::proofs::FirstOfSort::firsts))]
fn permutation<C: Constants>(
    alloc: Global,
    constants: &C,
    clauses: &[Clause],
) -> Result<Items<u64>, AllocError>
    requires held { C.are_held constants.now }
    requires literals { ClausesAreHeld (bare_clauses clauses.now) }
    ensures { IfOk result (λ items. items ≡ directives.permutation_in (C.defines constants.now) (bare_clauses clauses.now)) }
{
    match first_of(Sort::Permutation, clauses) {
        None => swapped(alloc),
        Some(clause) => own_permutation(alloc, constants, clause),
    }
}

fn own_counts<C: Constants>(
    alloc: Global,
    constants: &C,
    clause: &Clause,
) -> Result<Items<Option<u64>>, AllocError>
    requires held { C.are_held constants.now }
    requires literals { ClauseIsHeld (bare_clause clause.now) }
    ensures { IfOk result (λ counts. counts ≡ map (directives.count_of (C.defines constants.now)) (first.counts_from (Some (bare_clause clause.now)))) }
{
    match &clause.kind {
        ClauseKind::Counts(counts) => {
            Ok(Items::from_items(count_numbers(alloc, constants, counts.as_slice())?))
        }
        ClauseKind::Sizes(_)
        | ClauseKind::Permutation(_)
        | ClauseKind::LoopRange(_, _)
        | ClauseKind::Full
        | ClauseKind::Partial(_)
        | ClauseKind::Apply { .. } => Ok(Items::new(alloc)),
    }
}

/// The items of the first `counts` clause.
#[tactic(auto, using(crate::proofs::FirstOfSort::firsts))]
fn counts<C: Constants>(
    alloc: Global,
    constants: &C,
    clauses: &[Clause],
) -> Result<Items<Option<u64>>, AllocError>
    requires held { C.are_held constants.now }
    requires literals { ClausesAreHeld (bare_clauses clauses.now) }
    ensures { IfOk result (λ counts. counts ≡ map (directives.count_of (C.defines constants.now)) (directives.counts_in (bare_clauses clauses.now))) }
{
    match first_of(Sort::Counts, clauses) {
        None => Ok(Items::new(alloc)),
        Some(clause) => own_counts(alloc, constants, clause),
    }
}

fn own_range<C: Constants>(constants: &C, clause: &Clause) -> Option<(u64, u64)>
    requires held { C.are_held constants.now }
    requires literals { ClauseIsHeld (bare_clause clause.now) }
    ensures { result ≡ first.range_from (C.defines constants.now) (Some (bare_clause clause.now)) }
{
    match &clause.kind {
        ClauseKind::LoopRange(first, count) => {
            Some((number(constants, first), number(constants, count)))
        }
        ClauseKind::Sizes(_)
        | ClauseKind::Permutation(_)
        | ClauseKind::Counts(_)
        | ClauseKind::Full
        | ClauseKind::Partial(_)
        | ClauseKind::Apply { .. } => None,
    }
}

/// The first loop and the number of loops of the first `looprange` clause.
#[tactic(auto, using(crate::proofs::FirstOfSort::firsts))]
fn range<C: Constants>(constants: &C, clauses: &[Clause]) -> Option<(u64, u64)>
    requires held { C.are_held constants.now }
    requires literals { ClausesAreHeld (bare_clauses clauses.now) }
    ensures { result ≡ directives.range_in (C.defines constants.now) (bare_clauses clauses.now) }
{
    match first_of(Sort::LoopRange, clauses) {
        None => None,
        Some(clause) => own_range(constants, clause),
    }
}

#[tactic(auto, using(crate::proofs::FirstOfSort::firsts))]
fn is_full(clauses: &[Clause]) -> bool
    requires { ClausesAreHeld (bare_clauses clauses.now) }
    ensures { result ≡ directives.full_in (bare_clauses clauses.now) }
{
    match first_of(Sort::Full, clauses) {
        None => false,
        Some(_) => true,
    }
}

fn own_factor<C: Constants>(constants: &C, clause: &Clause) -> u64
    requires held { C.are_held constants.now }
    requires literals { ClauseIsHeld (bare_clause clause.now) }
    ensures { result ≡ first.factor_from (C.defines constants.now) (Some (bare_clause clause.now)) }
{
    match &clause.kind {
        ClauseKind::Partial(Some(factor)) => number(constants, factor),
        ClauseKind::Partial(None)
        | ClauseKind::Sizes(_)
        | ClauseKind::Permutation(_)
        | ClauseKind::Counts(_)
        | ClauseKind::LoopRange(_, _)
        | ClauseKind::Full
        | ClauseKind::Apply { .. } => 4,
    }
}

/// The factor of the first `partial` clause, and 4 where there is none.
#[tactic(auto, using(crate::proofs::FirstOfSort::firsts))]
fn factor<C: Constants>(constants: &C, clauses: &[Clause]) -> u64
    requires held { C.are_held constants.now }
    requires literals { ClausesAreHeld (bare_clauses clauses.now) }
    ensures { result ≡ directives.factor_in (C.defines constants.now) (bare_clauses clauses.now) }
{
    match first_of(Sort::Partial, clauses) {
        None => 4,
        Some(clause) => own_factor(constants, clause),
    }
}

/// The transformation that a directive with these clauses says. Of a clause that stands twice the first counts.
pub fn transformation_of<C: Constants>(
    alloc: Global,
    constants: &C,
    kind: Kind,
    clauses: &[Clause],
) -> Result<Transformation, AllocError>
    requires held { C.are_held constants.now }
    requires literals { ClausesAreHeld (bare_clauses clauses.now) }
    ensures { IfOk result (λ c. seen_transformation c ≡ directives.transformation_of (C.defines constants.now) kind (bare_clauses clauses.now)) }
{
    match kind {
        Kind::Tile => Ok(Transformation::Tile(sizes(alloc, constants, clauses)?)),
        Kind::Unroll => {
            if is_full(clauses) {
                Ok(Transformation::UnrollFull)
            } else {
                Ok(Transformation::UnrollPartial(factor(constants, clauses)))
            }
        }
        Kind::Interchange => {
            Ok(Transformation::Interchange(permutation(alloc, constants, clauses)?))
        }
        Kind::Reverse => Ok(Transformation::Reverse),
        Kind::Split => Ok(Transformation::Split(counts(alloc, constants, clauses)?)),
        Kind::Fuse => Ok(Transformation::Fuse(range(constants, clauses))),
    }
}
