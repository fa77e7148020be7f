//! The heads of the loops that a construct's directives ask for, and what stands in their bodies.

ghost use Rattle.std.specs.Prelude.{◌≡◌, ◌<◌, IfOk, OnOk, Some, None};
ghost use Rattle.std.specs.Option.{option_map};
ghost use Rattle.c_tree.specs.BareOf.{bare_directive, bare_stmt, bare_stmts, bare_head, maybe_stmt};
ghost use Rattle.c_tree.specs.PlacedOf.{placed_directive, placed_stmt, placed_stmts, placed_head};
ghost use Rattle.c_tree.specs.WellFormed.{WellFormedDirective, WellFormedHead, WellFormedStmt, WellFormedStmts};
ghost use Rattle.c_semantics.specs.Loops.CanonicalForm as form;
ghost use Rattle.c_semantics.specs.Structure.Skeleton as skeleton;
ghost use Rattle.canonical_nests.specs.Canonical.{seen_loop};
ghost use Rattle.canonical_nests.specs.LoopRules.BreachSets.{least};
ghost use Rattle.canonical_nests.specs.LoopRules.Heads as rules;
ghost use Rattle.loop_heads.specs.Constructs as walks;
ghost use Rattle.loop_heads.specs.Reading.{changes_of};

use crate::assigning::assign_breach;
use crate::breaking::break_breach;
use crate::calling::call_breach;
use crate::form_rules::form_breach;
use crate::functions::Functions;
use crate::name_stack::NameStack;
use crate::reading::{Place, is_file_variable, read_breach};
use c_tree::boxed::Boxed;
use c_tree::tree::{Directive, ForHead, Stmt};
use canonical_nests::canonical::CanonLoop;
use canonical_nests::directive_plan::loops_asked_by;
use canonical_nests::least::lesser;
use canonical_nests::rules::LoopBreach;
use loop_counts::heads::canonical;
use loop_counts::scope::Scope;
use loop_counts::trip::loop_type;
use std::alloc::{AllocError, Global};

/// The construct that is looked at: its body, and what is known of functions.
#[derive(Clone, Copy)]
struct Within<'a, 'p> {
    alloc: Global,
    functions: &'a Functions,
    construct: &'p [Stmt],
}

/// The least breach of L5 and L28 by the calls in a loop's body, where its variable is a file-scope one.
fn file_breach(place: &Place, body: &[Stmt]) -> Option<LoopBreach>
    ensures { result ≡ least (walks.call_breaches_of place.now.functions.now place.now.scope.now.state (seen_loop place.now.canon) (placed_stmts body.now)) }
{
    let canon = place.canon;
    if canon.ty.is_none() && is_file_variable(place.scope, canon.var) {
        call_breach(place.functions, canon.var, body)
    } else {
        None
    }
}

/// The least breach of the rules that look at the variable and at the bounds of a canonical head.
fn loop_breach(place: &Place, head: &ForHead, body: &[Stmt]) -> Option<LoopBreach>
    ensures { result ≡ least (rules.loop_breaches place.now.functions.now place.now.scope.now.state (changes_of place.now.construct.now) place.now.round.now (placed_head head.now) (placed_stmts body.now) (Some (seen_loop place.now.canon))) }
{
    let read = read_breach(place, head);
    let assigned = assign_breach(place.canon.var, body);
    let called = file_breach(place, body);
    lesser(read, lesser(assigned, called))
}

/// Makes the variable visible that the first part of a head declares.
fn enter_part(scope: &mut Scope, part: &Option<Boxed<Stmt>>) -> Result<(), AllocError>
    ensures { OnOk result (scope.new ≡ record scope.old { state = skeleton.scope_in (maybe_stmt (option_map bare_stmt part.now)) scope.old.state }) }
{
    match part {
        None => Ok(()),
        Some(stmt) => enter(scope, stmt.get()),
    }
}

fn enter(scope: &mut Scope, stmt: &Stmt) -> Result<(), AllocError>
    ensures { OnOk result (scope.new ≡ record scope.old { state = skeleton.scope_after (bare_stmt stmt.now) scope.old.state }) }
{
    match stmt {
        Stmt::Decl { ty, name, .. } => scope.declare(name, *ty),
        Stmt::If { no: None, .. } => Ok(()),
        Stmt::If { no: Some(_), .. } => Ok(()),
        _ => Ok(()),
    }
}

/// The breaches that look at the variable and at the bounds of a canonical head, and then the scope of its body, where
/// the variable is a private copy.
#[tactic(auto, using(crate::proofs::Nests::entering))]
fn enter_canonical<'a, 'p>(
    at: Within<'a, 'p>,
    scope: &mut Scope,
    round: &mut NameStack<'p>,
    head: &'p ForHead,
    body: &'p [Stmt],
    canon: CanonLoop<'p>,
) -> Result<Option<LoopBreach>, AllocError>
    ensures breach { IfOk result (λ b. b ≡ least (rules.loop_breaches at.entry.functions.now scope.old.state (changes_of at.entry.construct.now) round.old (placed_head head.now) (placed_stmts body.now) (Some (seen_loop canon.entry)))) }
    ensures scope { OnOk result (scope.new ≡ record scope.old { state = rules.scope_below scope.old.defines scope.old.state (rules.init_of (placed_head head.now)) (Some (seen_loop canon.entry)) }) }
    ensures round { OnOk result (round.new ≡ rules.round_with (Some (seen_loop canon.entry)) round.old) }
{
    let place = Place {
        functions: at.functions,
        scope: &*scope,
        construct: at.construct,
        round: &*round,
        canon,
    };
    let here = loop_breach(&place, head, body);
    let ty = loop_type(scope, &canon);
    scope.declare(canon.var, ty)?;
    round.enter(canon.var)?;
    Ok(here)
}

/// The same of any head.
#[tactic(auto, using(crate::proofs::Nests::entering))]
fn enter_head<'a, 'p>(
    at: Within<'a, 'p>,
    scope: &mut Scope,
    round: &mut NameStack<'p>,
    head: &'p ForHead,
    body: &'p [Stmt],
) -> Result<Option<LoopBreach>, AllocError>
    requires { WellFormedHead (bare_head head.now) }
    ensures breach { IfOk result (λ b. b ≡ least (rules.loop_breaches at.entry.functions.now scope.old.state (changes_of at.entry.construct.now) round.old (placed_head head.now) (placed_stmts body.now) (form.canonical scope.old.defines (bare_head head.now)))) }
    ensures scope { OnOk result (scope.new ≡ record scope.old { state = rules.scope_below scope.old.defines scope.old.state (rules.init_of (placed_head head.now)) (form.canonical scope.old.defines (bare_head head.now)) }) }
    ensures round { OnOk result (round.new ≡ rules.round_with (form.canonical scope.old.defines (bare_head head.now)) round.old) }
{
    match canonical(scope, head) {
        None => {
            enter_part(scope, &head.init)?;
            Ok(None)
        }
        Some(canon) => enter_canonical(at, scope, round, head, body, canon),
    }
}

/// The breaches of an affected loop itself, and then the scope of its body.
#[tactic(auto, using(crate::proofs::Nests::entering))]
fn enter_loop<'a, 'p>(
    at: Within<'a, 'p>,
    scope: &mut Scope,
    round: &mut NameStack<'p>,
    head: &'p ForHead,
    body: &'p [Stmt],
) -> Result<Option<LoopBreach>, AllocError>
    requires { WellFormedHead (bare_head head.now) }
    ensures breach { IfOk result (λ b. b ≡ least (walks.here_breaches scope.old.defines at.entry.functions.now (changes_of at.entry.construct.now) scope.old.state round.old (placed_head head.now) (placed_stmts body.now) (form.canonical scope.old.defines (bare_head head.now)))) }
    ensures scope { OnOk result (scope.new ≡ record scope.old { state = rules.scope_below scope.old.defines scope.old.state (rules.init_of (placed_head head.now)) (form.canonical scope.old.defines (bare_head head.now)) }) }
    ensures round { OnOk result (round.new ≡ rules.round_with (form.canonical scope.old.defines (bare_head head.now)) round.old) }
{
    let form = form_breach(scope, head);
    let breaks = break_breach(body);
    let own = enter_head(at, scope, round, head, body)?;
    Ok(lesser(form, lesser(breaks, own)))
}

/// The least breach of a head rule by the loops that a directive asks for, where it wants so many of a statement, one at
/// least.
#[cycle(stmts_breach)]
fn stmt_breach<'a, 'p>(
    at: Within<'a, 'p>,
    scope: &mut Scope,
    round: &mut NameStack<'p>,
    stmt: &'p Stmt,
    wanted: u64,
) -> Result<Option<LoopBreach>, AllocError>
    requires well_formed { WellFormedStmt (bare_stmt stmt.now) }
    requires some { 0 < wanted }
    ensures breach { IfOk result (λ b. b ≡ least (walks.wanted_breaches scope.old.defines at.entry.functions.now (changes_of at.entry.construct.now) scope.old.state round.old wanted (placed_stmt stmt.now))) }
    ensures scope { OnOk result (scope.new ≡ scope.old) }
    ensures round { OnOk result (round.new ≡ round.old) }
{
    match stmt {
        Stmt::For { head, body, .. } => {
            let found = for_breach(at, scope, round, body.as_slice(), head, wanted - 1)?;
            Ok(found)
        }
        Stmt::Block { body, .. } => {
            let below = stmts_breach(at, scope, round, body.as_slice(), wanted)?;
            Ok(below)
        }
        Stmt::Omp {
            directive,
            body,
            ..
        } => {
            let asked = loops_asked_by(at.alloc, scope, directive, wanted)?;
            let below = stmts_breach(at, scope, round, body.as_slice(), asked)?;
            Ok(below)
        }
        Stmt::Decl { .. } => Ok(None),
        Stmt::Set { .. } => Ok(None),
        Stmt::Step { .. } => Ok(None),
        Stmt::Print { .. } => Ok(None),
        Stmt::Input { .. } => Ok(None),
        Stmt::If { no: None, .. } => Ok(None),
        Stmt::If { no: Some(_), .. } => Ok(None),
        Stmt::While { .. } => Ok(None),
        Stmt::Do { .. } => Ok(None),
        Stmt::Break { .. } => Ok(None),
        Stmt::Continue { .. } => Ok(None),
        Stmt::Empty { .. } => Ok(None),
        Stmt::Call { .. } => Ok(None),
    }
}

/// The least breach of a head rule by a loop, and by so many loops that are wanted in its body.
#[tactic(auto, using(crate::proofs::Nests::nests))]
#[cycle(stmts_breach)]
fn for_breach<'a, 'p>(
    at: Within<'a, 'p>,
    scope: &mut Scope,
    round: &mut NameStack<'p>,
    body: &'p [Stmt],
    head: &'p ForHead,
    wanted: u64,
) -> Result<Option<LoopBreach>, AllocError>
    requires head { WellFormedHead (bare_head head.now) }
    requires body { WellFormedStmts (bare_stmts body.now) }
    ensures breach { IfOk result (λ b. b ≡ least (walks.for_breaches scope.old.defines at.entry.functions.now (changes_of at.entry.construct.now) scope.old.state round.old wanted (placed_head head.now) (placed_stmts body.now) (form.canonical scope.old.defines (bare_head head.now)))) }
    ensures scope { OnOk result (scope.new ≡ scope.old) }
    ensures round { OnOk result (round.new ≡ round.old) }
{
    let len = scope.len();
    let depth = round.len();
    let here = enter_loop(at, scope, round, head, body)?;
    let below = stmts_breach(at, scope, round, body, wanted)?;
    scope.keep(len);
    round.keep(depth);
    Ok(lesser(here, below))
}

#[tactic(auto, using(crate::proofs::Nests::walks))]
#[cycle(stmts_breach)]
fn stmts_breach<'a, 'p>(
    at: Within<'a, 'p>,
    scope: &mut Scope,
    round: &mut NameStack<'p>,
    stmts: &'p [Stmt],
    wanted: u64,
) -> Result<Option<LoopBreach>, AllocError>
    requires { WellFormedStmts (bare_stmts stmts.now) }
    ensures breach { IfOk result (λ b. b ≡ least (rules.stmts_breaches scope.old.defines at.entry.functions.now (changes_of at.entry.construct.now) scope.old.state round.old wanted (placed_stmts stmts.now))) }
    ensures scope { OnOk result (scope.new ≡ scope.old) }
    ensures round { OnOk result (round.new ≡ round.old) }
{
    if wanted == 0 {
        return Ok(None);
    }
    let mut found = None;
    'each: for stmt in stmts {
        let here = stmt_breach(at, scope, round, stmt, wanted)?;
        found = lesser(found, here);
    }
    Ok(found)
}

/// The least breach of a rule of heads in a construct (L2 to L6, the source loops of L8, L9 and L28), by place and then by
/// rule, and `None` exactly where there is none: in the loops that its directives ask for and what stands in their bodies,
/// where these functions are known. The scope is the one where the construct stands, and is left as it was.
pub fn construct_breach(
    alloc: Global,
    functions: &Functions,
    scope: &mut Scope,
    directive: &Directive,
    body: &[Stmt],
) -> Result<Option<LoopBreach>, AllocError>
    requires directive { WellFormedDirective (bare_directive directive.now) }
    requires body { WellFormedStmts (bare_stmts body.now) }
    ensures breach { IfOk result (λ b. b ≡ least (rules.construct_breaches scope.old.defines functions.now scope.old.state (placed_directive directive.now) (placed_stmts body.now))) }
    ensures scope { OnOk result (scope.new ≡ scope.old) }
{
    let asked = loops_asked_by(alloc, scope, directive, 0)?;
    let mut round = NameStack::new(alloc);
    let at = Within {
        alloc,
        functions,
        construct: body,
    };
    let found = stmts_breach(at, scope, &mut round, body, asked)?;
    Ok(found)
}
