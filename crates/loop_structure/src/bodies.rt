//! What stands in a directive's body, where none of it breaks a rule.

ghost use Rattle.std.specs.Prelude.{◌≡◌, ◌<◌, ◌+◌, ◌^◌, map, IfOk};
ghost use Rattle.c_tree.specs.BareOf.{bare_directive, bare_stmts};
ghost use Rattle.c_tree.specs.PlacedOf.{placed_stmt, placed_stmts, placed_kind, placed_clauses, placed_directive};
ghost use Rattle.c_tree.specs.WellFormed.{WellFormedDirective, WellFormedStmts};
ghost use Rattle.canonical_nests.specs.LoopRules.BreachSets.{least};
ghost use Rattle.canonical_nests.specs.LoopRules.Structure as structure;
ghost use Rattle.canonical_nests.specs.Plans.{seen_transformation, seen_plan};
ghost use Rattle.loop_structure.specs.Members.{is_range};

use crate::found::finds_all;
use crate::members::{has_zero, is_loop, member_breach, parts_of, parts_of_all};
use crate::plans::{items_breach, plan_breach};
use crate::unwrapped::unwrapped;
use c_tree::tree::{Clause, ClauseKind, Directive, Stmt};
use canonical_nests::clauses::Constants;
use canonical_nests::depths::transformed_depths;
use canonical_nests::directive_plan::plan_of;
use canonical_nests::least::{breach_if, lesser};
use canonical_nests::plan::{Plan, Transformation};
use canonical_nests::rules::{LoopBreach, LoopRule};
use std::alloc::{AllocError, Global};

/// The breach where a statement gives several parts (L21), else the least of the directive over its part.
#[tactic(auto, using(crate::proofs::BodyWalks::nests))]
fn nest_breach(
    alloc: Global,
    plan: &Plan,
    place: u64,
    parts: &[u64],
) -> Result<Option<LoopBreach>, AllocError>
    ensures { IfOk result (λ b. b ≡ least (structure.nest_breaches (seen_plan plan.now) place parts.now)) }
{
    if parts.len() != 1 {
        return Ok(breach_if(true, LoopRule::L21, place));
    }
    let below = plan_breach(alloc, plan, parts[0])?;
    Ok(below)
}

/// The least breach of a directive over one loop nest (L1, L7, L21, L22).
#[tactic(auto, using(crate::proofs::BodyWalks::one_loop))]
fn one_loop_breach<C: Constants>(
    alloc: Global,
    constants: &C,
    plan: &Plan,
    place: u64,
    list: &[Stmt],
) -> Result<Option<LoopBreach>, AllocError>
    requires held { C.are_held constants.now }
    requires well_formed { WellFormedStmts (bare_stmts list.now) }
    ensures { IfOk result (λ b. b ≡ least (structure.one_loop_breaches (C.defines constants.now) (seen_plan plan.now) place (map placed_stmt list.now))) }
{
    if list.len() == 0 {
        return Ok(breach_if(true, LoopRule::L1, place));
    }
    let first = &list[0];
    let begins = first.span().start;
    if list.len() != 1 {
        let unlike = breach_if(!is_loop(first), LoopRule::L1, begins);
        return Ok(lesser(unlike, breach_if(true, LoopRule::L21, place)));
    }
    if !is_loop(first) {
        return Ok(breach_if(true, LoopRule::L1, begins));
    }
    let parts = parts_of(alloc, constants, first)?;
    let below = nest_breach(alloc, plan, place, parts.as_slice())?;
    Ok(below)
}

/// Whether the range of a `fuse` ends within so many parts.
#[tactic(auto, using(crate::proofs::BodyWalks::nests))]
fn ends_within(c: &Transformation, parts: u64) -> bool
    requires { parts + 1 < 2 ^ 64 }
    ensures { result ≡ structure.ends_within (seen_transformation c.now) parts }
{
    match c {
        Transformation::Fuse(Some((first, count))) => match first.checked_add(*count) {
            None => false,
            Some(end) => end <= parts + 1,
        },
        Transformation::Fuse(None) => true,
        Transformation::Tile(_) => true,
        Transformation::Interchange(_) => true,
        Transformation::Reverse => true,
        Transformation::Split(_) => true,
        Transformation::UnrollFull => true,
        Transformation::UnrollPartial(_) => true,
    }
}

fn is_range(clause: &ClauseKind) -> bool
    ensures { result ≡ is_range (placed_kind clause.now) }
{
    match clause {
        ClauseKind::LoopRange(_, _) => true,
        ClauseKind::Sizes(_) => false,
        ClauseKind::Permutation(_) => false,
        ClauseKind::Counts(_) => false,
        ClauseKind::Full => false,
        ClauseKind::Partial(_) => false,
        ClauseKind::Apply { .. } => false,
    }
}

/// The place of the first `looprange` clause, else this one.
#[tactic(auto, using(crate::proofs::BodyWalks::ranges))]
fn range_place(otherwise: u64, clauses: &[Clause]) -> u64
    ensures { result ≡ structure.range_place otherwise (placed_clauses clauses.now) }
{
    'each: for clause in clauses {
        if is_range(&clause.kind) {
            return clause.span.start;
        }
    }
    otherwise
}

/// The least breach of a `fuse` over parts of these depths (L19, L22), else of its items (L7, L22).
#[tactic(auto, using(crate::proofs::BodyWalks::sequences))]
fn sequence_breach(
    alloc: Global,
    plan: &Plan,
    range: u64,
    parts: &[u64],
) -> Result<Option<LoopBreach>, AllocError>
    ensures { IfOk result (λ b. b ≡ least (structure.sequence_breaches (seen_plan plan.now) range parts.now)) }
{
    let c = &plan.transformation;
    let empty = breach_if(has_zero(parts), LoopRule::L22, plan.place);
    let past = breach_if(!ends_within(c, parts.len() as u64), LoopRule::L19, range);
    if let Some(breach) = lesser(empty, past) {
        return Ok(Some(breach));
    }
    let given = transformed_depths(alloc, c, parts)?;
    let below = items_breach(alloc, c, plan.items.as_slice(), given)?;
    Ok(below)
}

/// The least breach of a `fuse` over a sequence (L1, L20), else over its parts.
#[tactic(auto, using(crate::proofs::BodyWalks::one_loop))]
fn loops_breach<C: Constants>(
    alloc: Global,
    constants: &C,
    plan: &Plan,
    place: u64,
    clauses: &[Clause],
    list: &[Stmt],
) -> Result<Option<LoopBreach>, AllocError>
    requires held { C.are_held constants.now }
    requires well_formed { WellFormedStmts (bare_stmts list.now) }
    ensures { IfOk result (λ b. b ≡ least (structure.loops_breaches (C.defines constants.now) (seen_plan plan.now) place (placed_clauses clauses.now) (map placed_stmt list.now))) }
{
    if list.len() == 0 {
        return Ok(breach_if(true, LoopRule::L1, place));
    }
    if let Some(breach) = member_breach(list) {
        return Ok(Some(breach));
    }
    let parts = parts_of_all(alloc, constants, list)?;
    let below = sequence_breach(alloc, plan, range_place(place, clauses), parts.as_slice())?;
    Ok(below)
}

/// The least breach of structure by a directive in whose body none breaks a rule (L1, L7, L19 to L22).
#[tactic(auto, using(crate::proofs::BodyWalks::whole))]
pub fn body_breach<C: Constants>(
    alloc: Global,
    constants: &C,
    directive: &Directive,
    body: &[Stmt],
) -> Result<Option<LoopBreach>, AllocError>
    requires held { C.are_held constants.now }
    requires directive { WellFormedDirective (bare_directive directive.now) }
    requires body { WellFormedStmts (bare_stmts body.now) }
    ensures { IfOk result (λ b. b ≡ least (structure.body_breaches (C.defines constants.now) (placed_directive directive.now) (placed_stmts body.now))) }
{
    let plan = plan_of(alloc, constants, directive)?;
    let place = directive.span.start;
    let list = unwrapped(body);
    if finds_all(directive.kind) {
        let clauses = directive.clauses.as_slice();
        let found = loops_breach(alloc, constants, &plan, place, clauses, list)?;
        return Ok(found);
    }
    let found = one_loop_breach(alloc, constants, &plan, place, list)?;
    Ok(found)
}
