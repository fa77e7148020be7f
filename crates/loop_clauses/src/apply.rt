//! The clause `apply`: its modifier, its items and the loops to which they go.

ghost use Rattle.std.specs.Prelude.{◌≡◌, ◌++◌, IfOk, OnOk, Some};
ghost use Rattle.std.specs.List.{list_any};
ghost use Rattle.c_tree.specs.BareOf.{bare_exprs};
ghost use Rattle.c_tree.specs.PlacedOf.{placed_exprs, placed_item, placed_items};
ghost use Rattle.c_tree.specs.Constants.{EachLiteralIsHeld};
ghost use Rattle.canonical_nests.specs.LoopRules.BreachSets.{least};
ghost use Rattle.canonical_nests.specs.LoopRules.Clauses as rules;
ghost use Rattle.loop_clauses.specs.Items.{put_one};

use crate::arguments::{are_from_one_to, numbers_of};
use crate::numbers::{all_different, one_to, shares};
use c_tree::name::Name;
use c_tree::tree::{ApplyItem, Expr, Kind};
use canonical_nests::clauses::Constants;
use canonical_nests::depths::sum;
use canonical_nests::directive_plan::loops_before;
use canonical_nests::least::{breach_if, lesser};
use canonical_nests::rules::{LoopBreach, LoopRule};
use std::alloc::{AllocError, Global};

/// What an `apply` clause says.
#[derive(Clone, Copy)]
pub struct Apply<'a> {
    pub modifier: &'a Option<Name>,
    pub indices: &'a [Expr],
    pub items: &'a [ApplyItem],
}

/// Whether a modifier is one of the directive's.
#[tactic(auto, using(crate::proofs::Modifiers::modifiers))]
fn is_modifier(kind: Kind, name: &Name) -> bool
    ensures { result ≡ rules.fits_modifier kind (Some name.now) }
{
    match kind {
        Kind::Tile => name.is(b"grid") || name.is(b"intratile"),
        Kind::Interchange => name.is(b"interchanged"),
        Kind::Reverse => name.is(b"reversed"),
        Kind::Split => name.is(b"split"),
        Kind::Fuse => name.is(b"fused"),
        Kind::Unroll => name.is(b"unrolled"),
    }
}

fn fits_modifier(kind: Kind, modifier: &Option<Name>) -> bool
    ensures { result ≡ rules.fits_modifier kind modifier.now }
{
    match modifier {
        Some(name) => is_modifier(kind, name),
        None => match kind {
            Kind::Tile => false,
            Kind::Interchange => true,
            Kind::Reverse => true,
            Kind::Split => true,
            Kind::Fuse => true,
            Kind::Unroll => true,
        },
    }
}

fn is_fuse(item: &ApplyItem) -> bool
    ensures { result ≡ rules.is_fuse (placed_item item.now) }
{
    match item {
        ApplyItem::Nothing(_) => false,
        ApplyItem::Apply(directive) => match directive.kind {
            Kind::Fuse => true,
            Kind::Tile => false,
            Kind::Interchange => false,
            Kind::Reverse => false,
            Kind::Split => false,
            Kind::Unroll => false,
        },
    }
}

#[tactic(auto, using(crate::proofs::ItemWalks::item_walks))]
fn has_fuse(items: &[ApplyItem]) -> bool
    ensures { result ≡ list_any rules.is_fuse (rules.item_list (placed_items items.now)) }
{
    'each: for item in items {
        if is_fuse(item) {
            return true;
        }
    }
    false
}

/// Whether the indices, where there are any, are constants from 1 to the number of loops, each once, and as many as the
/// items.
#[tactic(auto, using(crate::proofs::Indices::indices))]
fn indices_fit<C: Constants>(
    alloc: Global,
    constants: &C,
    loops: u64,
    apply: Apply,
) -> Result<bool, AllocError>
    requires held { C.are_held constants.now }
    requires literals { EachLiteralIsHeld (bare_exprs apply.indices.now) }
    ensures { IfOk result (λ b. b ≡ rules.indices_fit (C.defines constants.now) loops (placed_exprs apply.entry.indices.now) (placed_items apply.entry.items.now)) }
{
    if apply.indices.is_empty() {
        return Ok(true);
    }
    if !are_from_one_to(constants, loops, apply.indices) {
        return Ok(false);
    }
    let values = numbers_of(alloc, constants, apply.indices)?;
    Ok(all_different(values.as_slice()) && apply.indices.len() == apply.items.len())
}

/// The numbers, from 1 and within their kind, of the loops to which the items go.
#[tactic(auto, using(crate::proofs::Indices::indices))]
fn loop_numbers<C: Constants>(
    alloc: Global,
    constants: &C,
    apply: Apply,
) -> Result<Vec<u64>, AllocError>
    requires held { C.are_held constants.now }
    requires literals { EachLiteralIsHeld (bare_exprs apply.indices.now) }
    ensures { IfOk result (λ numbers. numbers.items ≡ rules.loop_numbers (C.defines constants.now) (placed_exprs apply.entry.indices.now) (placed_items apply.entry.items.now)) }
{
    if apply.indices.is_empty() {
        let numbers = one_to(alloc, apply.items.len())?;
        return Ok(numbers);
    }
    let numbers = numbers_of(alloc, constants, apply.indices)?;
    Ok(numbers)
}

/// Adds the position on which an item puts a directive, if it does.
fn put_one(
    positions: &mut Vec<u64>,
    before: u64,
    number: u64,
    item: &ApplyItem,
) -> Result<(), AllocError>
    ensures { OnOk result (positions.new.items ≡ positions.old.items ++ put_one before number (placed_item item.now)) }
{
    match item {
        ApplyItem::Nothing(_) => Ok(()),
        ApplyItem::Apply(_) => {
            positions.push(sum(before, number)?)?;
            Ok(())
        }
    }
}

/// The positions on which items put directives, where they go to the loops with these numbers after so many others. A
/// position past 64 bits counts as want of memory.
#[tactic(auto, using(crate::proofs::ItemWalks::item_walks))]
fn positions_put(
    alloc: Global,
    before: u64,
    numbers: &[u64],
    items: &[ApplyItem],
) -> Result<Vec<u64>, AllocError>
    ensures { IfOk result (λ positions. positions.items ≡ rules.positions_put before numbers.now (rules.item_list (placed_items items.now))) }
{
    let mut positions = Vec::new(alloc);
    'each: for (i, item) in items.iter().enumerate() {
        if i >= numbers.len() {
            return Ok(positions);
        }
        put_one(&mut positions, before, numbers[i], item)?;
    }
    Ok(positions)
}

fn apply_positions<C: Constants>(
    alloc: Global,
    constants: &C,
    loops: u64,
    apply: Apply,
) -> Result<Vec<u64>, AllocError>
    requires held { C.are_held constants.now }
    requires literals { EachLiteralIsHeld (bare_exprs apply.indices.now) }
    ensures { IfOk result (λ positions. positions.items ≡ rules.apply_positions (C.defines constants.now) loops apply.entry.modifier.now (placed_exprs apply.entry.indices.now) (placed_items apply.entry.items.now)) }
{
    let numbers = loop_numbers(alloc, constants, apply)?;
    let before = loops_before(loops, apply.modifier);
    positions_put(alloc, before, numbers.as_slice(), apply.items)
}

/// The least breach of an `apply` clause at a place (L23 to L25), without those of its items. Taken are the positions on
/// which earlier clauses of the directive put directives; a directive generates so many loops of each kind.
#[tactic(auto, using(crate::proofs::ItemWalks::item_walks))]
pub fn apply_breach<C: Constants>(
    alloc: Global,
    constants: &C,
    kind: Kind,
    loops: u64,
    taken: &[u64],
    place: u64,
    apply: Apply,
) -> Result<Option<LoopBreach>, AllocError>
    requires held { C.are_held constants.now }
    requires literals { EachLiteralIsHeld (bare_exprs apply.indices.now) }
    ensures { IfOk result (λ b. b ≡ least (rules.apply_breaches (C.defines constants.now) kind loops taken.now apply.entry.modifier.now (placed_exprs apply.entry.indices.now) (placed_items apply.entry.items.now) place)) }
{
    let wrong = !fits_modifier(kind, apply.modifier) || has_fuse(apply.items);
    let modifier = breach_if(wrong, LoopRule::L23, place);
    let many = loops < apply.items.len() as u64;
    let items = breach_if(many, LoopRule::L24, place);
    let fit = indices_fit(alloc, constants, loops, apply)?;
    let positions = apply_positions(alloc, constants, loops, apply)?;
    let misplaced = !fit || shares(positions.as_slice(), taken);
    let indices = breach_if(misplaced, LoopRule::L25, place);
    Ok(lesser(modifier, lesser(items, indices)))
}

/// Adds the positions on which a clause puts directives.
pub fn take_positions<C: Constants>(
    alloc: Global,
    constants: &C,
    loops: u64,
    apply: Apply,
    taken: &mut Vec<u64>,
) -> Result<(), AllocError>
    requires held { C.are_held constants.now }
    requires literals { EachLiteralIsHeld (bare_exprs apply.indices.now) }
    ensures { OnOk result (taken.new.items ≡ taken.old.items ++ rules.apply_positions (C.defines constants.now) loops apply.entry.modifier.now (placed_exprs apply.entry.indices.now) (placed_items apply.entry.items.now)) }
{
    let positions = apply_positions(alloc, constants, loops, apply)?;
    taken.extend_from_slice(positions.as_slice())?;
    Ok(())
}
