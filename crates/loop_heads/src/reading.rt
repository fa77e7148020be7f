//! What the bounds of affected loops read: L6, and L8 of the variables of the loops round them.

ghost use Rattle.std.specs.Prelude.{◌≡◌, is_some, Some};
ghost use Rattle.std.specs.Option.{option_map};
ghost use Rattle.c_tree.specs.PlacedOf.{placed_expr, placed_exprs, placed_stmt, placed_head, maybe_stmt};
ghost use Rattle.canonical_nests.specs.Canonical.{seen_loop};
ghost use Rattle.canonical_nests.specs.LoopRules.BreachSets.{least};
ghost use Rattle.canonical_nests.specs.LoopRules.Heads as rules;
ghost use Rattle.loop_heads.specs.Reading as walks;

use crate::assigning::is_assigned;
use crate::calling::some_may_assign;
use crate::functions::Functions;
use crate::name_stack::NameStack;
use c_tree::boxed::Boxed;
use c_tree::name::Name;
use c_tree::tree::{Expr, ForHead, Stmt};
use canonical_nests::canonical::CanonLoop;
use canonical_nests::least::{breach_if, lesser};
use canonical_nests::rules::{LoopBreach, LoopRule};
use loop_counts::heads::is_read;
use loop_counts::scope::Scope;

/// A canonical loop at its place in a construct: what is known there, the body of the construct, and the loops round this
/// one.
#[derive(Clone, Copy)]
pub struct Place<'a, 'p> {
    pub functions: &'a Functions,
    pub scope: &'a Scope,
    pub construct: &'a [Stmt],
    pub round: &'a NameStack<'p>,
    pub canon: CanonLoop<'a>,
}

/// Whether a name means a file-scope variable.
#[tactic(auto, using(crate::proofs::HeadForms::none_of_map))]
pub fn is_file_variable(scope: &Scope, name: &Name) -> bool
    ensures { result ≡ rules.is_file_variable scope.now.state name.now }
{
    scope.local_type(name).is_none()
}

/// Whether a construct changes a variable that is visible where it begins.
fn is_changed(functions: &Functions, scope: &Scope, construct: &[Stmt], name: &Name) -> bool
    ensures { result ≡ rules.is_changed functions.now scope.now.state (walks.changes_of construct.now) name.now }
{
    let assigned = is_assigned(name, construct);
    let file = is_file_variable(scope, name);
    assigned || (file && some_may_assign(functions, name, construct))
}

fn name_breach(place: &Place, name: &Name, at: u64) -> Option<LoopBreach>
    ensures { result ≡ least (walks.name_breaches place.now.functions.now place.now.scope.now.state (walks.changes_of place.now.construct.now) place.now.round.now (is_some place.now.canon.ty) place.now.canon.var.now name.now at) }
{
    let own = place.canon.var == name;
    if place.canon.ty.is_some() && own {
        return breach_if(true, LoopRule::L6, at);
    }
    if place.round.has(name) {
        return breach_if(true, LoopRule::L8, at);
    }
    let changed = is_changed(place.functions, place.scope, place.construct, name);
    breach_if(own || changed, LoopRule::L6, at)
}

#[cycle(bound_breach)]
fn bound_breach(place: &Place, e: &Expr) -> Option<LoopBreach>
    ensures { result ≡ least (walks.bound_breaches place.now.functions.now place.now.scope.now.state (walks.changes_of place.now.construct.now) place.now.round.now (is_some place.now.canon.ty) place.now.canon.var.now (placed_expr e.now)) }
{
    match e {
        Expr::Num { .. } => None,
        Expr::Read { name, span } => name_breach(place, name, span.start),
        Expr::Item { name, subs, span } => lesser(
            name_breach(place, name, span.start),
            each_breach(place, subs.as_slice()),
        ),
        Expr::Un { of, .. } => bound_breach(place, of.get()),
        Expr::Bin { left, right, .. } => {
            lesser(
                bound_breach(place, left.get()),
                bound_breach(place, right.get()),
            )
        }
        Expr::Cond { test, yes, no, .. } => {
            let test = bound_breach(place, test.get());
            let yes = bound_breach(place, yes.get());
            let no = bound_breach(place, no.get());
            lesser(test, lesser(yes, no))
        }
        Expr::Cast { of, .. } => bound_breach(place, of.get()),
    }
}

#[tactic(auto, using(crate::proofs::Bounds::bounds))]
#[cycle(bound_breach)]
fn each_breach(place: &Place, es: &[Expr]) -> Option<LoopBreach>
    ensures { result ≡ least (walks.each_breaches place.now.functions.now place.now.scope.now.state (walks.changes_of place.now.construct.now) place.now.round.now (is_some place.now.canon.ty) place.now.canon.var.now (placed_exprs es.now)) }
{
    let mut found = None;
    'each: for e in es {
        found = lesser(found, bound_breach(place, e));
    }
    found
}

/// The lower bound that the first part of a head has.
fn lower_bound<'a>(part: &'a Option<Boxed<Stmt>>) -> Option<&'a Expr>
    ensures { walks.reads_if (option_map (λ e. placed_expr e.now) result) ≡ rules.lower_bound (maybe_stmt (option_map placed_stmt part.now)) }
{
    match part {
        None => None,
        Some(stmt) => bound_in(stmt.get()),
    }
}

fn bound_in<'a>(stmt: &'a Stmt) -> Option<&'a Expr>
    ensures { walks.reads_if (option_map (λ e. placed_expr e.now) result) ≡ rules.lower_bound (maybe_stmt (Some (placed_stmt stmt.now))) }
{
    match stmt {
        Stmt::Decl { init: Some(e), .. } => Some(e),
        Stmt::Set { value, .. } => Some(value),
        _ => None,
    }
}

/// The bound that a test has, which stands beside the variable.
#[tactic(auto, using(crate::proofs::Bounds::sides))]
fn upper_bound<'a>(var: &Name, test: &'a Option<Expr>) -> Option<&'a Expr>
    ensures { walks.reads_if (option_map (λ e. placed_expr e.now) result) ≡ rules.upper_bound var.now (option_map placed_expr test.now) }
{
    match test {
        Some(Expr::Bin { left, right, .. }) => {
            if is_read(var, left.get()) {
                Some(right.get())
            } else {
                Some(left.get())
            }
        }
        _ => None,
    }
}

fn some_breach(place: &Place, bound: Option<&Expr>) -> Option<LoopBreach>
    ensures { result ≡ least (walks.breaches_if place.now.functions.now place.now.scope.now.state (walks.changes_of place.now.construct.now) place.now.round.now (is_some place.now.canon.ty) place.now.canon.var.now (option_map (λ e. placed_expr e.now) bound.entry)) }
{
    match bound {
        None => None,
        Some(e) => bound_breach(place, e),
    }
}

/// The least breach of L6 and L8 by the bounds of a loop. `None` exactly where there is none.
pub fn read_breach(place: &Place, head: &ForHead) -> Option<LoopBreach>
    ensures { result ≡ least (rules.read_breaches place.now.functions.now place.now.scope.now.state (walks.changes_of place.now.construct.now) place.now.round.now (seen_loop place.now.canon) (rules.bound_reads place.now.canon.var.now (placed_head head.now))) }
{
    let lower = lower_bound(&head.init);
    let upper = upper_bound(place.canon.var, &head.test);
    let first = some_breach(place, lower);
    let second = some_breach(place, upper);
    lesser(first, second)
}
