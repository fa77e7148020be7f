//! What is written in a directive: which clauses it has, which belong to it, and how many loops it generates of each kind.

ghost use Rattle.std.specs.Prelude.{◌≡◌, length, map};
ghost use Rattle.c_tree.specs.Placed.{expr_list};
ghost use Rattle.c_tree.specs.PlacedOf.{placed_exprs, placed_count, placed_kind, placed_clauses};
ghost use Rattle.canonical_nests.specs.LoopRules.BreachSets.{least};
ghost use Rattle.canonical_nests.specs.LoopRules.Clauses as rules;
ghost use Rattle.loop_clauses.specs.Sorts as sorts;

use c_tree::tree::{Clause, ClauseKind, Count, Expr, Kind};
use canonical_nests::clauses::Sort;
use canonical_nests::least::breach_if;
use canonical_nests::rules::{LoopBreach, LoopRule};

fn is_of(sort: Sort, clause: &ClauseKind) -> bool
    ensures { result ≡ sorts.is_of sort (placed_kind clause.now) }
{
    match clause {
        ClauseKind::Sizes(_) => sort == Sort::Sizes,
        ClauseKind::Permutation(_) => sort == Sort::Permutation,
        ClauseKind::Counts(_) => sort == Sort::Counts,
        ClauseKind::LoopRange(_, _) => sort == Sort::LoopRange,
        ClauseKind::Full => sort == Sort::Full,
        ClauseKind::Partial(_) => sort == Sort::Partial,
        ClauseKind::Apply { .. } => false,
    }
}

/// Whether a clause of the sort is among these.
#[tactic(auto, using(crate::proofs::ClauseWalks::clause_walks))]
pub fn has(sort: Sort, clauses: &[Clause]) -> bool
    ensures { result ≡ rules.has_kind (sorts.is_of sort) (placed_clauses clauses.now) }
{
    'each: for clause in clauses {
        if is_of(sort, &clause.kind) {
            return true;
        }
    }
    false
}

/// How many expressions a list has.
#[tactic(auto, using(crate::proofs::ArgumentWalks::lengths))]
fn count_of(es: &[Expr]) -> u64
    ensures { result ≡ length (expr_list (placed_exprs es.now)) }
{
    es.len() as u64
}

/// How many counts a list has.
#[tactic(auto, using(crate::proofs::ArgumentWalks::lengths))]
fn count_of_counts(counts: &[Count]) -> u64
    ensures { result ≡ length (map placed_count counts.now) }
{
    counts.len() as u64
}

/// How many arguments a clause has, where they count loops.
fn arguments(clause: &ClauseKind) -> Option<u64>
    ensures { result ≡ rules.arguments (placed_kind clause.now) }
{
    match clause {
        ClauseKind::Sizes(es) => Some(count_of(es.as_slice())),
        ClauseKind::Permutation(es) => Some(count_of(es.as_slice())),
        ClauseKind::Counts(counts) => Some(count_of_counts(counts.as_slice())),
        ClauseKind::LoopRange(_, _) => None,
        ClauseKind::Full => None,
        ClauseKind::Partial(_) => None,
        ClauseKind::Apply { .. } => None,
    }
}

fn first_some(found: Option<u64>, other: u64) -> u64
    ensures { result ≡ rules.first_some found other }
{
    match found {
        None => other,
        Some(found) => found,
    }
}

/// How many arguments the first clause of the sort has, else this many.
#[tactic(auto, using(crate::proofs::ClauseWalks::clause_walks))]
fn arguments_of(sort: Sort, otherwise: u64, clauses: &[Clause]) -> u64
    ensures { result ≡ rules.arguments_of (sorts.is_of sort) otherwise (placed_clauses clauses.now) }
{
    'each: for clause in clauses {
        if is_of(sort, &clause.kind) {
            return first_some(arguments(&clause.kind), otherwise);
        }
    }
    otherwise
}

/// How many loops a directive generates of each kind.
pub fn loops_of_kind(kind: Kind, clauses: &[Clause]) -> u64
    ensures { result ≡ rules.loops_of_kind kind (placed_clauses clauses.now) }
{
    match kind {
        Kind::Tile => arguments_of(Sort::Sizes, 0, clauses),
        Kind::Interchange => arguments_of(Sort::Permutation, 2, clauses),
        Kind::Split => arguments_of(Sort::Counts, 0, clauses),
        Kind::Unroll => { if has(Sort::Full, clauses) { 0 } else { 1 } }
        Kind::Reverse => 1,
        Kind::Fuse => 1,
    }
}

/// The breach where a clause is missing that must stand (L11).
pub fn required_breach(kind: Kind, clauses: &[Clause], place: u64) -> Option<LoopBreach>
    ensures { result ≡ least (rules.required_breaches kind (placed_clauses clauses.now) place) }
{
    match kind {
        Kind::Tile => breach_if(!has(Sort::Sizes, clauses), LoopRule::L11, place),
        Kind::Split => breach_if(!has(Sort::Counts, clauses), LoopRule::L11, place),
        Kind::Unroll => None,
        Kind::Interchange => None,
        Kind::Reverse => None,
        Kind::Fuse => None,
    }
}

/// Whether a directive may have a clause.
pub fn belongs(kind: Kind, clause: &ClauseKind) -> bool
    ensures { result ≡ rules.belongs kind (placed_kind clause.now) }
{
    match clause {
        ClauseKind::Sizes(_) => kind == Kind::Tile,
        ClauseKind::Permutation(_) => kind == Kind::Interchange,
        ClauseKind::Counts(_) => kind == Kind::Split,
        ClauseKind::LoopRange(_, _) => kind == Kind::Fuse,
        ClauseKind::Full => kind == Kind::Unroll,
        ClauseKind::Partial(_) => kind == Kind::Unroll,
        ClauseKind::Apply { .. } => true,
    }
}
