//! The clauses of a directive and of all its items.

ghost use Rattle.std.specs.Prelude.{◌≡◌, [], IfOk, OnOk};
ghost use Rattle.c_tree.specs.BareOf.{bare_kind, bare_clause, bare_clauses, bare_directive, bare_item, bare_items};
ghost use Rattle.c_tree.specs.PlacedOf.{placed_kind, placed_clause, placed_clauses, placed_directive, placed_item, placed_items};
ghost use Rattle.canonical_nests.specs.Held.{ClauseIsHeld, ClausesAreHeld, DirectiveIsHeld, ItemIsHeld, ItemsAreHeld};
ghost use Rattle.canonical_nests.specs.LoopRules.BreachSets.{least};
ghost use Rattle.canonical_nests.specs.LoopRules.Clauses as rules;
ghost use Rattle.loop_clauses.specs.Items.{item_breaches};
ghost use Rattle.loop_clauses.specs.Taken.{one_clause};

use crate::apply::{Apply, apply_breach, take_positions};
use crate::arguments::{
    counts_breach, factor_breach, fills, is_constant_from, is_permutation, sizes_breach,
};
use crate::earlier::Earlier;
use crate::written::{belongs, loops_of_kind, required_breach};
use c_tree::tree::{ApplyItem, Clause, ClauseKind, Directive, Kind};
use canonical_nests::clauses::Constants;
use canonical_nests::least::{breach_if, lesser};
use canonical_nests::rules::{LoopBreach, LoopRule};
use std::alloc::{AllocError, Global};

/// A directive, and how many loops it generates of each kind.
#[derive(Clone, Copy)]
struct Generating {
    kind: Kind,
    loops: u64,
}

/// Adds the positions on which a clause puts directives, if it is an `apply`.
fn also_take<C: Constants>(
    alloc: Global,
    constants: &C,
    clause: &ClauseKind,
    loops: u64,
    taken: &mut Vec<u64>,
) -> Result<(), AllocError>
    requires held { C.are_held constants.now }
    requires literals { ClauseIsHeld (bare_kind clause.now) }
    ensures { OnOk result (taken.new.items ≡ rules.also_taken (C.defines constants.now) loops (placed_kind clause.now) taken.old.items) }
{
    match clause {
        ClauseKind::Apply {
            modifier,
            indices,
            items,
        } => {
            let apply = Apply {
                modifier,
                indices: indices.as_slice(),
                items: items.as_slice(),
            };
            take_positions(alloc, constants, loops, apply, taken)
        }
        ClauseKind::Sizes(_) => Ok(()),
        ClauseKind::Permutation(_) => Ok(()),
        ClauseKind::Counts(_) => Ok(()),
        ClauseKind::LoopRange(_, _) => Ok(()),
        ClauseKind::Full => Ok(()),
        ClauseKind::Partial(_) => Ok(()),
    }
}

/// The least breach of a clause rule by a directive or one of its items (L10 to L15, L17 to L19 and L23 to L25), and
/// `None` exactly where there is none. Each literal has a value that its type holds.
#[cycle(directive_breach)]
pub fn directive_breach<C: Constants>(
    alloc: Global,
    constants: &C,
    directive: &Directive,
) -> Result<Option<LoopBreach>, AllocError>
    requires held { C.are_held constants.now }
    requires literals { DirectiveIsHeld (bare_directive directive.now) }
    ensures { IfOk result (λ b. b ≡ least (rules.directive_breaches (C.defines constants.now) (placed_directive directive.now))) }
{
    let clauses = directive.clauses.as_slice();
    let kind = directive.kind;
    let required = required_breach(kind, clauses, directive.span.start);
    let loops = loops_of_kind(kind, clauses);
    let own = clauses_breach(alloc, constants, clauses, Generating { kind, loops })?;
    Ok(lesser(required, own))
}

#[tactic(auto, using(crate::proofs::ClauseSteps::clause_steps))]
#[cycle(directive_breach)]
fn clauses_breach<C: Constants>(
    alloc: Global,
    constants: &C,
    clauses: &[Clause],
    of: Generating,
) -> Result<Option<LoopBreach>, AllocError>
    requires held { C.are_held constants.now }
    requires literals { ClausesAreHeld (bare_clauses clauses.now) }
    ensures { IfOk result (λ b. b ≡ least (rules.clauses_breaches (C.defines constants.now) of.kind of.loops [] [] (placed_clauses clauses.now))) }
{
    let mut found = None;
    let mut earlier = Earlier::none();
    let mut taken = Vec::new(alloc);
    'each: for clause in clauses {
        let here = clause_breach(alloc, constants, clause, of, earlier, taken.as_slice())?;
        found = lesser(found, here);
        also_take(alloc, constants, &clause.kind, of.loops, &mut taken)?;
        earlier = earlier.with(&clause.kind);
    }
    Ok(found)
}

/// The least breach at one clause after others.
#[cycle(directive_breach)]
fn clause_breach<C: Constants>(
    alloc: Global,
    constants: &C,
    clause: &Clause,
    of: Generating,
    earlier: Earlier,
    taken: &[u64],
) -> Result<Option<LoopBreach>, AllocError>
    requires held { C.are_held constants.now }
    requires literals { ClauseIsHeld (bare_clause clause.now) }
    ensures { IfOk result (λ b. b ≡ least (one_clause (C.defines constants.now) of.kind of.loops earlier taken.now (placed_clause clause.now))) }
{
    let place = clause.span.start;
    let twice = breach_if(earlier.excludes(&clause.kind), LoopRule::L12, place);
    let foreign = breach_if(!belongs(of.kind, &clause.kind), LoopRule::L13, place);
    let own = kind_breach(alloc, constants, &clause.kind, of, taken, place)?;
    Ok(lesser(twice, lesser(foreign, own)))
}

#[cycle(directive_breach)]
fn kind_breach<C: Constants>(
    alloc: Global,
    constants: &C,
    clause: &ClauseKind,
    of: Generating,
    taken: &[u64],
    place: u64,
) -> Result<Option<LoopBreach>, AllocError>
    requires held { C.are_held constants.now }
    requires literals { ClauseIsHeld (bare_kind clause.now) }
    ensures { IfOk result (λ b. b ≡ least (rules.clause_breaches (C.defines constants.now) of.kind of.loops taken.now place (placed_kind clause.now))) }
{
    match clause {
        ClauseKind::Sizes(es) => Ok(sizes_breach(constants, es.as_slice())),
        ClauseKind::Permutation(es) => {
            let fits = is_permutation(alloc, constants, es.as_slice())?;
            Ok(breach_if(!fits, LoopRule::L14, place))
        }
        ClauseKind::Counts(counts) => {
            let filled = fills(counts.as_slice()) == 1;
            let fill = breach_if(!filled, LoopRule::L17, place);
            Ok(lesser(fill, counts_breach(constants, counts.as_slice())))
        }
        ClauseKind::LoopRange(first, count) => {
            let fits = is_constant_from(constants, 1, first)
                && is_constant_from(constants, 1, count);
            Ok(breach_if(!fits, LoopRule::L19, place))
        }
        ClauseKind::Full => Ok(None),
        ClauseKind::Partial(factor) => Ok(factor_breach(constants, factor)),
        ClauseKind::Apply {
            modifier,
            indices,
            items,
        } => {
            let apply = Apply {
                modifier,
                indices: indices.as_slice(),
                items: items.as_slice(),
            };
            let own = apply_breach(alloc, constants, of.kind, of.loops, taken, place, apply)?;
            let below = items_breach(alloc, constants, items.as_slice())?;
            Ok(lesser(own, below))
        }
    }
}

#[tactic(auto, using(crate::proofs::ClauseSteps::item_steps))]
#[cycle(directive_breach)]
fn items_breach<C: Constants>(
    alloc: Global,
    constants: &C,
    items: &[ApplyItem],
) -> Result<Option<LoopBreach>, AllocError>
    requires held { C.are_held constants.now }
    requires literals { ItemsAreHeld (bare_items items.now) }
    ensures { IfOk result (λ b. b ≡ least (rules.items_breaches (C.defines constants.now) (placed_items items.now))) }
{
    let mut found = None;
    'each: for item in items {
        let here = item_breach(alloc, constants, item)?;
        found = lesser(found, here);
    }
    Ok(found)
}

#[cycle(directive_breach)]
fn item_breach<C: Constants>(
    alloc: Global,
    constants: &C,
    item: &ApplyItem,
) -> Result<Option<LoopBreach>, AllocError>
    requires held { C.are_held constants.now }
    requires literals { ItemIsHeld (bare_item item.now) }
    ensures { IfOk result (λ b. b ≡ least (item_breaches (C.defines constants.now) (placed_item item.now))) }
{
    match item {
        ApplyItem::Nothing(_) => Ok(None),
        ApplyItem::Apply(directive) => directive_breach(alloc, constants, directive),
    }
}
