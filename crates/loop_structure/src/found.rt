//! The depths of the nests that a statement gives to a directive round it.

ghost use Rattle.std.specs.Prelude.{◌≡◌, IfOk};
ghost use Rattle.std.specs.Option.{option_map};
ghost use Rattle.c_tree.specs.BareOf.{bare_directive, bare_stmt, bare_stmts};
ghost use Rattle.c_tree.specs.PlacedOf.{placed_directive};
ghost use Rattle.c_tree.specs.WellFormed.{WellFormedDirective, WellFormedStmt, WellFormedStmts};
ghost use Rattle.c_semantics.specs.Loops.Need as need;
ghost use Rattle.c_semantics.specs.Loops.StatementDepths as statements;
ghost use Rattle.canonical_nests.specs.LoopRules.PlacedPlans.{forget_plan, placed_plan};
ghost use Rattle.canonical_nests.specs.Plans.{seen_plan};
ghost use Rattle.loop_structure.specs.Members.{finds_all, standing_depths, standing_at};

use c_tree::tree::{Directive, Kind, Stmt};
use canonical_nests::clauses::Constants;
use canonical_nests::depths::{depths, only, sum};
use canonical_nests::directive_plan::plan_of;
use canonical_nests::plan::Plan;
use std::alloc::{AllocError, Global};

/// How a statement stands in a body: as the one statement, or among the members of a sequence.
#[derive(Clone, Copy, Debug, PartialEq, Eq)]
pub enum Standing {
    Alone,
    Within,
    Last,
}

fn standing_at(last: bool) -> Standing
    ensures { result ≡ standing_at last }
{
    if last {
        Standing::Last
    } else {
        Standing::Within
    }
}

/// Whether a directive finds all members of its body, as `fuse` does, or the one statement.
pub fn finds_all(kind: Kind) -> bool
    ensures { result ≡ finds_all kind }
{
    match kind {
        Kind::Fuse => true,
        Kind::Tile => false,
        Kind::Unroll => false,
        Kind::Interchange => false,
        Kind::Reverse => false,
        Kind::Split => false,
    }
}

/// The depth of a loop's body: of the one part in it, else 0.
fn body_depth(found: &Option<Vec<u64>>) -> u64
    ensures { result ≡ statements.body_depth (option_map (λ v. v.items) found.now) }
{
    match found {
        None => 0,
        Some(depths) => match depths.as_slice() {
            [depth] => *depth,
            _ => 0,
        },
    }
}

/// The depths that a directive gives over what it found.
fn depths_over(
    alloc: Global,
    plan: &Plan,
    found: Option<Vec<u64>>,
) -> Result<Option<Vec<u64>>, AllocError>
    ensures { IfOk result (λ given. option_map (λ v. v.items) given ≡ need.if_some (option_map (λ v. v.items) found) (need.depths (forget_plan (seen_plan plan.now)))) }
{
    match found {
        None => Ok(None),
        Some(over) => {
            let given = depths(alloc, plan, over.as_slice())?;
            Ok(given)
        }
    }
}

/// The plan of a well-formed directive.
#[tactic(auto, using(crate::proofs::WantedWalks::held))]
fn plan_said<C: Constants>(
    alloc: Global,
    constants: &C,
    directive: &Directive,
) -> Result<Plan, AllocError>
    requires held { C.are_held constants.now }
    requires well_formed { WellFormedDirective (bare_directive directive.now) }
    ensures { IfOk result (λ plan. seen_plan plan ≡ placed_plan (C.defines constants.now) (placed_directive directive.now)) }
{
    plan_of(alloc, constants, directive)
}

/// The depth of each part that a `for` or a directive gives. `None` exactly for any other statement, and where a
/// directive or an item doesn't find the loops that it takes; a block stands for its list, unless it is a member with
/// others after it. A depth past 64 bits counts as want of memory.
#[tactic(auto, using(crate::proofs::FoundDepths::found_depths))]
#[cycle(stmt_depths)]
pub fn stmt_depths<C: Constants>(
    alloc: Global,
    constants: &C,
    stmt: &Stmt,
    standing: Standing,
) -> Result<Option<Vec<u64>>, AllocError>
    requires held { C.are_held constants.now }
    requires well_formed { WellFormedStmt (bare_stmt stmt.now) }
    ensures { IfOk result (λ given. option_map (λ v. v.items) given ≡ standing_depths (C.defines constants.now) (bare_stmt stmt.now) standing) }
{
    match stmt {
        Stmt::For { body, .. } => {
            let found = single_depths(alloc, constants, body.as_slice())?;
            let depth = sum(1, body_depth(&found))?;
            Ok(Some(only(alloc, depth)?))
        }
        Stmt::Block { body, .. } => match standing {
            Standing::Alone => {
                let found = single_depths(alloc, constants, body.as_slice())?;
                Ok(found)
            }
            Standing::Within => Ok(None),
            Standing::Last => {
                let found = member_depths(alloc, constants, body.as_slice())?;
                Ok(found)
            }
        },
        Stmt::Omp {
            directive,
            body,
            ..
        } => {
            let plan = plan_said(alloc, constants, directive)?;
            if finds_all(directive.kind) {
                let found = member_depths(alloc, constants, body.as_slice())?;
                let given = depths_over(alloc, &plan, found)?;
                return Ok(given);
            }
            let found = single_depths(alloc, constants, body.as_slice())?;
            let given = depths_over(alloc, &plan, found)?;
            Ok(given)
        }
        Stmt::Decl { .. } => Ok(None),
        Stmt::Set { .. } => Ok(None),
        Stmt::Step { .. } => Ok(None),
        Stmt::Print { .. } => Ok(None),
        Stmt::Input { .. } => Ok(None),
        Stmt::If { no: None, .. } => Ok(None),
        Stmt::If { no: Some(_), .. } => Ok(None),
        Stmt::While { .. } => Ok(None),
        Stmt::Do { .. } => Ok(None),
        Stmt::Break { .. } => Ok(None),
        Stmt::Continue { .. } => Ok(None),
        Stmt::Empty { .. } => Ok(None),
        Stmt::Call { .. } => Ok(None),
    }
}

/// The depths of a list with one statement.
#[tactic(auto, using(crate::proofs::FoundDepths::found_depths))]
#[cycle(stmt_depths)]
fn single_depths<C: Constants>(
    alloc: Global,
    constants: &C,
    stmts: &[Stmt],
) -> Result<Option<Vec<u64>>, AllocError>
    requires held { C.are_held constants.now }
    requires well_formed { WellFormedStmts (bare_stmts stmts.now) }
    ensures { IfOk result (λ given. option_map (λ v. v.items) given ≡ statements.single_depths (C.defines constants.now) (bare_stmts stmts.now)) }
{
    if stmts.len() != 1 {
        return Ok(None);
    }
    let found = stmt_depths(alloc, constants, &stmts[0], Standing::Alone)?;
    Ok(found)
}

/// The depths of all members of a sequence.
#[tactic(auto, using(crate::proofs::MemberWalks::member_walks))]
#[cycle(stmt_depths)]
fn member_depths<C: Constants>(
    alloc: Global,
    constants: &C,
    stmts: &[Stmt],
) -> Result<Option<Vec<u64>>, AllocError>
    requires held { C.are_held constants.now }
    requires well_formed { WellFormedStmts (bare_stmts stmts.now) }
    ensures { IfOk result (λ given. option_map (λ v. v.items) given ≡ statements.member_depths (C.defines constants.now) (bare_stmts stmts.now)) }
{
    let mut all: Vec<u64> = Vec::new(alloc);
    'each: for (i, stmt) in stmts.iter().enumerate() {
        let standing = standing_at(i + 1 == stmts.len());
        match stmt_depths(alloc, constants, stmt, standing)? {
            None => return Ok(None),
            Some(own) => all.extend_from_slice(own.as_slice())?,
        }
    }
    Ok(Some(all))
}
