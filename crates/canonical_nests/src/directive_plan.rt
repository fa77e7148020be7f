//! The plan of a directive: its transformation, the place of its name, and the items of its `apply` clauses by position.

ghost use Rattle.std.specs.Prelude.{◌≡◌, ◌≤◌, ◌+◌, [], map, length, IfOk, OnOk};
ghost use Rattle.c_tree.specs.Placed.{expr_list};
ghost use Rattle.c_tree.specs.BareOf.{bare_exprs, bare_directive, bare_kind, bare_clauses, bare_item, bare_items};
ghost use Rattle.c_tree.specs.PlacedOf.{placed_exprs, placed_directive, placed_kind, placed_clauses, placed_item, placed_items};
ghost use Rattle.c_tree.specs.Forget.{forget_expr, forget_directive};
ghost use Rattle.c_tree.specs.Constants.{EachLiteralIsHeld};
ghost use Rattle.c_tree.specs.WellFormed.{WellFormedDirective};
ghost use Rattle.c_semantics.specs.Loops.Directives as directives;
ghost use Rattle.c_semantics.specs.Loops.Need as need;
ghost use Rattle.canonical_nests.specs.Held.{ClauseIsHeld, ClausesAreHeld, DirectiveIsHeld, ItemIsHeld, ItemsAreHeld};
ghost use Rattle.canonical_nests.specs.LoopRules.PlacedPlans as plans;
ghost use Rattle.canonical_nests.specs.Plans.{seen_plan, seen_item, gather, place_among};

use crate::clauses::{Constants, number};
use crate::depths::sum;
use crate::need::loops_asked;
use crate::plan::{Applied, Plan};
use crate::tall_height::sizes_count;
use crate::transformation::transformation_of;
use c_tree::items::Items;
use c_tree::name::Name;
use c_tree::tree::{ApplyItem, Clause, ClauseKind, Directive, Expr};
use std::alloc::{AllocError, Global};

/// The loops before those that a modifier means: the tile loops stand after as many grid loops as there are sizes.
#[tactic(auto, using(crate::proofs::Texts::texts))]
pub fn loops_before(sizes: u64, modifier: &Option<Name>) -> u64
    ensures { result ≡ directives.before sizes modifier.now }
{
    match modifier {
        None => 0,
        Some(name) => { if name.is(b"intratile") { sizes } else { 0 } }
    }
}

/// The positions that indices mean below a modifier.
#[tactic(auto, using(crate::proofs::Positions::positions))]
fn positions<C: Constants>(
    alloc: Global,
    constants: &C,
    sizes: u64,
    modifier: &Option<Name>,
    indices: &[Expr],
) -> Result<Vec<u64>, AllocError>
    requires held { C.are_held constants.now }
    requires literals { EachLiteralIsHeld (bare_exprs indices.now) }
    ensures { IfOk result (λ ps. ps.items ≡ map (λ e. directives.before sizes modifier.now + directives.number (C.defines constants.now) (forget_expr e)) (expr_list (placed_exprs indices.now))) }
{
    let before = loops_before(sizes, modifier);
    let mut positions = Vec::new(alloc);
    'each: for e in indices {
        positions.push(sum(before, number(constants, e))?)?;
    }
    Ok(positions)
}

/// How many items stand before a new one at a position: those at its position or further in.
#[tactic(auto, using(crate::proofs::Insertions::insertions))]
fn place_among(applied: &[Applied], position: u64) -> usize
    ensures within { result ≤ length applied.now }
    ensures place { result ≡ place_among position (map seen_item applied.now) }
{
    'each: for (i, item) in applied.iter().enumerate() {
        if item.position < position {
            return i;
        }
    }
    applied.len()
}

/// Puts a plan at a position, where the last position stands first.
#[tactic(auto, using(crate::proofs::Insertions::insertions))]
fn insert(applied: &mut Vec<Applied>, position: u64, plan: Plan) -> Result<(), AllocError>
    ensures { OnOk result (gather (map seen_item applied.new.items) ≡ plans.insert position (seen_plan plan) (gather (map seen_item applied.old.items))) }
{
    let at = place_among(applied.as_slice(), position);
    applied.insert(at, Applied { position, plan })?;
    Ok(())
}

/// The place that the indices give to the next item, else the next one.
fn first_place(places: &[u64], next: u64) -> u64
    ensures { result ≡ directives.first_place places.now next }
{
    match places {
        [] => next,
        [place, ..] => *place,
    }
}

fn later_places(places: &[u64]) -> &[u64]
    ensures { result.now ≡ directives.later_places places.now }
{
    match places {
        [] => places,
        [_, later @ ..] => later,
    }
}

/// The plan of a directive. Of a clause that stands twice the first counts. A position past 64 bits counts as want of
/// memory. Each literal has a value that its type holds.
#[cycle(plan_of)]
pub fn plan_of<C: Constants>(
    alloc: Global,
    constants: &C,
    directive: &Directive,
) -> Result<Plan, AllocError>
    requires held { C.are_held constants.now }
    requires literals { DirectiveIsHeld (bare_directive directive.now) }
    ensures { IfOk result (λ plan. seen_plan plan ≡ plans.placed_plan (C.defines constants.now) (placed_directive directive.now)) }
{
    let clauses = directive.clauses.as_slice();
    let transformation = transformation_of(alloc, constants, directive.kind, clauses)?;
    let mut items = Vec::new(alloc);
    put_clauses(alloc, constants, clauses, sizes_count(clauses), &mut items)?;
    Ok(Plan {
        transformation,
        place: directive.span.start,
        items: Items::from_items(items),
    })
}

/// Puts the items of the clauses of a directive with so many sizes.
#[tactic(auto, using(crate::proofs::PutItems::put_clauses))]
#[cycle(plan_of)]
fn put_clauses<C: Constants>(
    alloc: Global,
    constants: &C,
    clauses: &[Clause],
    sizes: u64,
    applied: &mut Vec<Applied>,
) -> Result<(), AllocError>
    requires held { C.are_held constants.now }
    requires literals { ClausesAreHeld (bare_clauses clauses.now) }
    ensures { OnOk result (gather (map seen_item applied.new.items) ≡ plans.clauses_items (C.defines constants.now) sizes (placed_clauses clauses.now) (gather (map seen_item applied.old.items))) }
{
    'each: for clause in clauses {
        put_clause(alloc, constants, &clause.kind, sizes, applied)?;
    }
    Ok(())
}

#[cycle(plan_of)]
fn put_clause<C: Constants>(
    alloc: Global,
    constants: &C,
    clause: &ClauseKind,
    sizes: u64,
    applied: &mut Vec<Applied>,
) -> Result<(), AllocError>
    requires held { C.are_held constants.now }
    requires literals { ClauseIsHeld (bare_kind clause.now) }
    ensures { OnOk result (gather (map seen_item applied.new.items) ≡ plans.clause_items (C.defines constants.now) sizes (placed_kind clause.now) (gather (map seen_item applied.old.items))) }
{
    match clause {
        ClauseKind::Apply {
            modifier,
            indices,
            items,
        } => {
            let places = positions(alloc, constants, sizes, modifier, indices.as_slice())?;
            let next = sum(loops_before(sizes, modifier), 1)?;
            put_items(
                alloc,
                constants,
                items.as_slice(),
                places.as_slice(),
                next,
                applied,
            )?;
            Ok(())
        }
        ClauseKind::Sizes(_)
        | ClauseKind::Permutation(_)
        | ClauseKind::Counts(_)
        | ClauseKind::LoopRange(_, _)
        | ClauseKind::Full
        | ClauseKind::Partial(_) => Ok(()),
    }
}

/// Puts items at these places, else one after another from the next place on.
#[tactic(auto, using(crate::proofs::PutItems::put_each))]
#[cycle(plan_of)]
fn put_items<C: Constants>(
    alloc: Global,
    constants: &C,
    items: &[ApplyItem],
    places: &[u64],
    next: u64,
    applied: &mut Vec<Applied>,
) -> Result<(), AllocError>
    requires held { C.are_held constants.now }
    requires literals { ItemsAreHeld (bare_items items.now) }
    ensures { OnOk result (gather (map seen_item applied.new.items) ≡ plans.put_items (C.defines constants.now) places.now next (placed_items items.now) (gather (map seen_item applied.old.items))) }
{
    let mut left = places;
    let mut following = next;
    'each: for item in items {
        put_item(
            alloc,
            constants,
            item,
            first_place(left, following),
            applied,
        )?;
        left = later_places(left);
        following = sum(following, 1)?;
    }
    Ok(())
}

#[cycle(plan_of)]
fn put_item<C: Constants>(
    alloc: Global,
    constants: &C,
    item: &ApplyItem,
    position: u64,
    applied: &mut Vec<Applied>,
) -> Result<(), AllocError>
    requires held { C.are_held constants.now }
    requires literals { ItemIsHeld (bare_item item.now) }
    ensures { OnOk result (gather (map seen_item applied.new.items) ≡ plans.put_item (C.defines constants.now) position (placed_item item.now) (gather (map seen_item applied.old.items))) }
{
    match item {
        ApplyItem::Nothing(_) => Ok(()),
        ApplyItem::Apply(directive) => {
            let plan = plan_of(alloc, constants, directive)?;
            insert(applied, position, plan)
        }
    }
}

/// What a directive asks of its body where each of its parts is wanted to have a depth of at least `wanted`: its need,
/// or as many loops as it takes where no number serves.
#[tactic(auto, using(crate::proofs::ForgottenPlans::forgotten_plans, crate::proofs::HeldTrees::directive_held))]
pub fn loops_asked_by<C: Constants>(
    alloc: Global,
    constants: &C,
    directive: &Directive,
    wanted: u64,
) -> Result<u64, AllocError>
    requires held { C.are_held constants.now }
    requires well_formed { WellFormedDirective (bare_directive directive.now) }
    ensures { IfOk result (λ n. n ≡ need.loops_asked (directives.plan_of (C.defines constants.now) (forget_directive (placed_directive directive.now))) wanted) }
{
    let plan = plan_of(alloc, constants, directive)?;
    loops_asked(alloc, &plan, wanted)
}
