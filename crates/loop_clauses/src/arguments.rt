//! The arguments of clauses, which are constants.

ghost use Rattle.std.specs.Prelude.{◌≡◌, map, IfOk};
ghost use Rattle.std.specs.Option.{option_map};
ghost use Rattle.c_tree.specs.BareOf.{bare_expr, bare_exprs, bare_count};
ghost use Rattle.c_tree.specs.Placed.{expr_list};
ghost use Rattle.c_tree.specs.PlacedOf.{placed_expr, placed_exprs, placed_count};
ghost use Rattle.c_tree.specs.Constants.{LiteralsAreHeld, EachLiteralIsHeld};
ghost use Rattle.canonical_nests.specs.Held.{CountIsHeld, CountsAreHeld, OptionIsHeld};
ghost use Rattle.canonical_nests.specs.LoopRules.BreachSets.{least};
ghost use Rattle.canonical_nests.specs.LoopRules.Clauses as rules;
ghost use Rattle.loop_clauses.specs.Counts.{one_count};

use crate::numbers::all_different;
use c_tree::tree::{Count, Expr};
use canonical_nests::clauses::{Constants, number, numbers};
use canonical_nests::least::{breach_if, lesser};
use canonical_nests::rules::{LoopBreach, LoopRule};
use std::alloc::{AllocError, Global};

/// Whether an expression is a constant of at least this one.
#[tactic(auto, using(crate::proofs::ArgumentWalks::bares))]
pub fn is_constant_from<C: Constants>(constants: &C, least: u32, e: &Expr) -> bool
    requires held { C.are_held constants.now }
    requires literals { LiteralsAreHeld (bare_expr e.now) }
    ensures { result ≡ rules.is_constant_from (C.defines constants.now) least (placed_expr e.now) }
{
    match constants.value(e) {
        None => false,
        Some(value) => i64::from(least) <= value,
    }
}

/// The number that an argument means.
#[tactic(auto, using(crate::proofs::ArgumentWalks::bares))]
pub fn placed_number<C: Constants>(constants: &C, e: &Expr) -> u64
    requires held { C.are_held constants.now }
    requires literals { LiteralsAreHeld (bare_expr e.now) }
    ensures { result ≡ rules.placed_number (C.defines constants.now) (placed_expr e.now) }
{
    number(constants, e)
}

/// The numbers that arguments mean.
#[tactic(auto, using(crate::proofs::ArgumentWalks::arguments))]
pub fn numbers_of<C: Constants>(
    alloc: Global,
    constants: &C,
    es: &[Expr],
) -> Result<Vec<u64>, AllocError>
    requires held { C.are_held constants.now }
    requires literals { EachLiteralIsHeld (bare_exprs es.now) }
    ensures { IfOk result (λ values. values.items ≡ rules.numbers (C.defines constants.now) (placed_exprs es.now)) }
{
    numbers(alloc, constants, es)
}

/// Whether each is a constant from 1 to the greatest.
#[tactic(auto, using(crate::proofs::ArgumentWalks::arguments))]
pub fn are_from_one_to<C: Constants>(constants: &C, greatest: u64, es: &[Expr]) -> bool
    requires held { C.are_held constants.now }
    requires literals { EachLiteralIsHeld (bare_exprs es.now) }
    ensures { result ≡ rules.are_from_one_to (C.defines constants.now) greatest (placed_exprs es.now) }
{
    'each: for e in es {
        let within = is_constant_from(constants, 1, e) && placed_number(constants, e) <= greatest;
        if !within {
            return false;
        }
    }
    true
}

/// The least breach of a `sizes` clause (L10).
#[tactic(auto, using(crate::proofs::ArgumentWalks::arguments))]
pub fn sizes_breach<C: Constants>(constants: &C, es: &[Expr]) -> Option<LoopBreach>
    requires held { C.are_held constants.now }
    requires literals { EachLiteralIsHeld (bare_exprs es.now) }
    ensures { result ≡ least (rules.size_breaches (C.defines constants.now) (expr_list (placed_exprs es.now))) }
{
    let mut found = None;
    'each: for e in es {
        let wrong = !is_constant_from(constants, 1, e);
        found = lesser(found, breach_if(wrong, LoopRule::L10, e.span().start));
    }
    found
}

/// Whether arguments are the numbers from 1 on, each once, and two at least (L14).
#[tactic(auto, using(crate::proofs::ArgumentWalks::arguments))]
pub fn is_permutation<C: Constants>(
    alloc: Global,
    constants: &C,
    es: &[Expr],
) -> Result<bool, AllocError>
    requires held { C.are_held constants.now }
    requires literals { EachLiteralIsHeld (bare_exprs es.now) }
    ensures { IfOk result (λ b. b ≡ rules.is_permutation_of (C.defines constants.now) (placed_exprs es.now)) }
{
    let count = es.len() as u64;
    if !are_from_one_to(constants, count, es) {
        return Ok(false);
    }
    let values = numbers_of(alloc, constants, es)?;
    Ok(all_different(values.as_slice()) && 2 <= count)
}

/// The breach of a factor (L15).
pub fn factor_breach<C: Constants>(constants: &C, factor: &Option<Expr>) -> Option<LoopBreach>
    requires held { C.are_held constants.now }
    requires literals { OptionIsHeld (option_map bare_expr factor.now) }
    ensures { result ≡ least (rules.factor_breaches (C.defines constants.now) (option_map placed_expr factor.now)) }
{
    match factor {
        None => None,
        Some(e) => {
            let wrong = !is_constant_from(constants, 1, e);
            breach_if(wrong, LoopRule::L15, e.span().start)
        }
    }
}

fn is_fill(count: &Count) -> bool
    ensures { result ≡ rules.is_fill (placed_count count.now) }
{
    match count {
        Count::Fill(_) => true,
        Count::Given(_) => false,
    }
}

/// How many counts are `omp_fill`.
#[tactic(auto, using(crate::proofs::ArgumentWalks::counts))]
pub fn fills(counts: &[Count]) -> usize
    ensures { result ≡ rules.fills (map placed_count counts.now) }
{
    let mut seen = 0;
    'each: for count in counts {
        if is_fill(count) {
            seen += 1;
        }
    }
    seen
}

/// The breach of one count (L18).
fn count_breach<C: Constants>(constants: &C, count: &Count) -> Option<LoopBreach>
    requires held { C.are_held constants.now }
    requires literals { CountIsHeld (bare_count count.now) }
    ensures { result ≡ least (one_count (C.defines constants.now) (placed_count count.now)) }
{
    match count {
        Count::Fill(_) => None,
        Count::Given(e) => {
            let wrong = !is_constant_from(constants, 0, e);
            breach_if(wrong, LoopRule::L18, e.span().start)
        }
    }
}

/// The least breach of a `counts` clause in its numbers (L18).
#[tactic(auto, using(crate::proofs::ArgumentWalks::counts))]
pub fn counts_breach<C: Constants>(constants: &C, counts: &[Count]) -> Option<LoopBreach>
    requires held { C.are_held constants.now }
    requires literals { CountsAreHeld (map bare_count counts.now) }
    ensures { result ≡ least (rules.count_breaches (C.defines constants.now) (map placed_count counts.now)) }
{
    let mut found = None;
    'each: for count in counts {
        found = lesser(found, count_breach(constants, count));
    }
    found
}
