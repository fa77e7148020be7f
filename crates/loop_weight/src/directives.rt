//! The weights that directives add: 40 times 1 and the generated loops, of a directive and of all its items.

ghost use Rattle.std.specs.Prelude.{◌≡◌, ◌+◌, ◌*◌};
ghost use Rattle.c_tree.specs.BareOf.{bare_directive, bare_clause, bare_clauses, bare_item, bare_items};
ghost use Rattle.canonical_nests.specs.Weight as weight;
ghost use Rattle.canonical_nests.specs.Weight.{capped_weight};
ghost use Rattle.canonical_nests.specs.TallHeight.{generated};

use crate::capped::{plus, times};
use c_tree::tree::{ApplyItem, Clause, ClauseKind, Directive, Kind};
use canonical_nests::tall_height::generated;

#[tactic(auto, using(crate::proofs::Caps::products))]
fn own_weight(kind: Kind, clauses: &[Clause]) -> u64
    ensures { result ≡ capped_weight (40 * (1 + generated kind (bare_clauses clauses.now))) }
{
    times(40, plus(1, generated(kind, clauses)))
}

/// What a directive and its items add, up to the cap.
#[tactic(auto, using(crate::proofs::Caps::sums))]
#[cycle(added_weight)]
pub fn added_weight(directive: &Directive) -> u64
    ensures { result ≡ capped_weight (weight.added_weight (bare_directive directive.now)) }
{
    let clauses = directive.clauses.as_slice();
    plus(own_weight(directive.kind, clauses), clauses_weight(clauses))
}

#[tactic(auto, using(crate::proofs::Caps::sums, crate::proofs::Lists::lists))]
#[cycle(added_weight)]
fn clauses_weight(clauses: &[Clause]) -> u64
    ensures { result ≡ capped_weight (weight.clauses_weight (bare_clauses clauses.now)) }
{
    let mut all = 0;
    'each: for clause in clauses {
        all = plus(all, clause_weight(clause));
    }
    all
}

#[cycle(added_weight)]
fn clause_weight(clause: &Clause) -> u64
    ensures { result ≡ capped_weight (weight.clause_weight (bare_clause clause.now)) }
{
    match &clause.kind {
        ClauseKind::Apply { items, .. } => items_weight(items.as_slice()),
        ClauseKind::Sizes(_)
        | ClauseKind::Permutation(_)
        | ClauseKind::Counts(_)
        | ClauseKind::LoopRange(_, _)
        | ClauseKind::Full
        | ClauseKind::Partial(_) => 0,
    }
}

#[tactic(auto, using(crate::proofs::Caps::sums, crate::proofs::Lists::lists))]
#[cycle(added_weight)]
fn items_weight(items: &[ApplyItem]) -> u64
    ensures { result ≡ capped_weight (weight.items_weight (bare_items items.now)) }
{
    let mut all = 0;
    'each: for item in items {
        all = plus(all, item_weight(item));
    }
    all
}

#[cycle(added_weight)]
fn item_weight(item: &ApplyItem) -> u64
    ensures { result ≡ capped_weight (weight.item_weight (bare_item item.now)) }
{
    match item {
        ApplyItem::Nothing(_) => 0,
        ApplyItem::Apply(directive) => added_weight(directive),
    }
}
