//! The breaches in expressions and directives.

ghost use Rattle.std.specs.Prelude.{◌≡◌, map, length};
ghost use Rattle.c_tree.specs.Placed.{expr_list};
ghost use Rattle.std.specs.Option.{option_map};
ghost use Rattle.c_tree.specs.PlacedOf.{placed_expr, placed_exprs, placed_target, placed_count, placed_directive, placed_clause, placed_clauses, placed_item, placed_items};
ghost use Rattle.c_tree.specs.NameRules.Breaches as breaches;
ghost use Rattle.c_tree.specs.NameRules.BreachSets.{least};

use crate::known::Table;
use crate::least::{breach_if, lesser};
use c_tree::name_rule::{Breach, Entity, NameRule};
use c_tree::tree::{ApplyItem, Clause, ClauseKind, Count, Directive, Expr, Target};

/// The breach at a name with so many subscripts (N1, N3, N10).
fn use_breach(meaning: Option<Entity>, subs: usize, at: u64) -> Option<Breach>
    ensures { result ≡ least (breaches.use_breaches meaning subs at) }
{
    match meaning {
        None => breach_if(true, NameRule::N1, at),
        Some(Entity::Define(_)) => breach_if(subs != 0, NameRule::N3, at),
        Some(Entity::Variable { dims }) => breach_if(subs != dims, NameRule::N3, at),
        Some(Entity::Function { .. }) => breach_if(true, NameRule::N10, at),
    }
}

/// The breach at a name that is assigned (N4).
fn assign_breach(meaning: Option<Entity>, at: u64) -> Option<Breach>
    ensures { result ≡ least (breaches.assign_breaches meaning at) }
{
    match meaning {
        Some(Entity::Define(_)) => breach_if(true, NameRule::N4, at),
        _ => None,
    }
}

/// How many expressions a list has.
#[tactic(auto, using(crate::proofs::Order::leasts))]
pub fn count_of(es: &[Expr]) -> usize
    ensures { result ≡ length (expr_list (placed_exprs es.now)) }
{
    es.len()
}

/// The least breach in an expression.
#[tactic(auto, using(crate::proofs::Order::leasts))]
#[cycle(expr_breach)]
pub fn expr_breach(known: &Table, e: &Expr) -> Option<Breach>
    ensures { result ≡ least (breaches.expr_breaches known.now.scope (placed_expr e.now)) }
{
    match e {
        Expr::Num { .. } => None,
        Expr::Read { name, span } => use_breach(known.meaning(name), 0, span.start),
        Expr::Item { name, subs, span } => lesser(
            use_breach(known.meaning(name), count_of(subs.as_slice()), span.start),
            exprs_breach(known, subs.as_slice()),
        ),
        Expr::Un { of, .. } | Expr::Cast { of, .. } => expr_breach(known, of.get()),
        Expr::Bin { left, right, .. } => {
            lesser(
                expr_breach(known, left.get()),
                expr_breach(known, right.get()),
            )
        }
        Expr::Cond { test, yes, no, .. } => lesser(
            expr_breach(known, test.get()),
            lesser(expr_breach(known, yes.get()), expr_breach(known, no.get())),
        ),
    }
}

/// The least breach in a list of expressions.
#[tactic(auto, using(crate::proofs::Order::leasts))]
#[cycle(expr_breach)]
pub fn exprs_breach(known: &Table, es: &[Expr]) -> Option<Breach>
    ensures { result ≡ least (breaches.exprs_breaches known.now.scope (placed_exprs es.now)) }
{
    let mut found = None;
    'each: for e in es {
        found = lesser(found, expr_breach(known, e));
    }
    found
}

/// The least breach in an expression that may be absent.
pub fn option_breach(known: &Table, e: &Option<Expr>) -> Option<Breach>
    ensures { result ≡ least (breaches.option_breaches known.now.scope (option_map placed_expr e.now)) }
{
    match e {
        None => None,
        Some(e) => expr_breach(known, e),
    }
}

/// The least breach in a target (N1, N3, N4, N10).
#[tactic(auto, using(crate::proofs::Order::leasts))]
pub fn target_breach(known: &Table, target: &Target) -> Option<Breach>
    ensures { result ≡ least (breaches.target_breaches known.now.scope (placed_target target.now)) }
{
    let meaning = known.meaning(&target.name);
    let at = target.span.start;
    lesser(
        use_breach(meaning, count_of(target.subs.as_slice()), at),
        lesser(
            assign_breach(meaning, at),
            exprs_breach(known, target.subs.as_slice()),
        ),
    )
}

fn count_breach(known: &Table, count: &Count) -> Option<Breach>
    ensures { result ≡ least (breaches.count_breaches known.now.scope (placed_count count.now)) }
{
    match count {
        Count::Fill(_) => None,
        Count::Given(e) => expr_breach(known, e),
    }
}

#[tactic(auto, using(crate::proofs::Clauses::clauses))]
fn counts_breach(known: &Table, counts: &[Count]) -> Option<Breach>
    ensures { result ≡ least (breaches.counts_breaches known.now.scope (map placed_count counts.now)) }
{
    let mut found = None;
    'each: for count in counts {
        found = lesser(found, count_breach(known, count));
    }
    found
}

/// The least breach in a directive, whose expressions use names like any other.
#[cycle(directive_breach)]
pub fn directive_breach(known: &Table, directive: &Directive) -> Option<Breach>
    ensures { result ≡ least (breaches.directive_breaches known.now.scope (placed_directive directive.now)) }
{
    clauses_breach(known, directive.clauses.as_slice())
}

#[tactic(auto, using(crate::proofs::Clauses::clauses))]
#[cycle(directive_breach)]
fn clauses_breach(known: &Table, clauses: &[Clause]) -> Option<Breach>
    ensures { result ≡ least (breaches.clauses_breaches known.now.scope (placed_clauses clauses.now)) }
{
    let mut found = None;
    'each: for clause in clauses {
        found = lesser(found, clause_breach(known, clause));
    }
    found
}

#[cycle(directive_breach)]
fn clause_breach(known: &Table, clause: &Clause) -> Option<Breach>
    ensures { result ≡ least (breaches.clause_breaches known.now.scope (placed_clause clause.now)) }
{
    match &clause.kind {
        ClauseKind::Sizes(es) | ClauseKind::Permutation(es) => exprs_breach(known, es.as_slice()),
        ClauseKind::Counts(counts) => counts_breach(known, counts.as_slice()),
        ClauseKind::LoopRange(first, count) => {
            lesser(expr_breach(known, first), expr_breach(known, count))
        }
        ClauseKind::Full => None,
        ClauseKind::Partial(factor) => option_breach(known, factor),
        ClauseKind::Apply { indices, items, .. } => lesser(
            exprs_breach(known, indices.as_slice()),
            items_breach(known, items.as_slice()),
        ),
    }
}

#[tactic(auto, using(crate::proofs::Clauses::clauses))]
#[cycle(directive_breach)]
fn items_breach(known: &Table, items: &[ApplyItem]) -> Option<Breach>
    ensures { result ≡ least (breaches.items_breaches known.now.scope (placed_items items.now)) }
{
    let mut found = None;
    'each: for item in items {
        found = lesser(found, item_breach(known, item));
    }
    found
}

#[cycle(directive_breach)]
fn item_breach(known: &Table, item: &ApplyItem) -> Option<Breach>
    ensures { result ≡ least (breaches.item_breaches known.now.scope (placed_item item.now)) }
{
    match item {
        ApplyItem::Nothing(_) => None,
        ApplyItem::Apply(directive) => directive_breach(known, directive),
    }
}
