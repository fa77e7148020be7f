//! The loops that a statement gives to a directive round it, with the kind of each count (OpenMP 6.0, 6.4).

ghost use Rattle.std.specs.Prelude.{◌≡◌, ◌-◌, ◌<◌, [], ◌∷◌, IfOk, OnOk};
ghost use Rattle.c_tree.specs.BareOf.{bare_head, bare_stmt, bare_stmts};
ghost use Rattle.c_tree.specs.WellFormed.{WellFormedHead, WellFormedStmt, WellFormedStmts};
ghost use Rattle.c_semantics.specs.Structure.Skeleton as skeleton;
ghost use Rattle.canonical_nests.specs.Shapes as shapes;
ghost use Rattle.loop_counts.specs.Wanted.{in_head, wanted_kinds, last_kinds, member_of};

use crate::heads::canonical;
use crate::moves::{Move, moved_all};
use crate::part::{Part, push_kinds, push_parts};
use crate::plan_kinds::plan_kinds;
use crate::planned::planned;
use crate::scope::Scope;
use crate::trip::source_count;
use c_tree::boxed::Boxed;
use c_tree::items::Items;
use c_tree::tree::{ForHead, Kind, Stmt};
use canonical_nests::need::loops_asked;
use canonical_nests::nest::CountKind;
use std::alloc::{AllocError, Global};

/// What is visible after a statement.
pub fn declare(scope: &mut Scope, stmt: &Stmt) -> Result<(), AllocError>
    ensures { OnOk result (scope.new ≡ record scope.old { state = skeleton.scope_after (bare_stmt stmt.now) scope.old.state }) }
{
    match stmt {
        Stmt::Decl { ty, name, .. } => scope.declare(name, *ty),
        _ => Ok(()),
    }
}

/// What is visible in a loop with this head.
#[tactic(auto, using(c_tree::proofs::Heads::heads))]
pub fn enter(scope: &mut Scope, head: &ForHead) -> Result<(), AllocError>
    ensures { OnOk result (scope.new ≡ record scope.old { state = in_head (bare_head head.now) scope.old.state }) }
{
    match &head.init {
        None => Ok(()),
        Some(stmt) => declare(scope, stmt.get()),
    }
}

/// The kind of the count of a source loop.
fn source_kind(scope: &Scope, head: &ForHead) -> CountKind
    requires { WellFormedHead (bare_head head.now) }
    ensures { result ≡ shapes.source_kind scope.now.defines scope.now.state (bare_head head.now) }
{
    match canonical(scope, head) {
        None => CountKind::Entry,
        Some(l) => match source_count(scope, &l) {
            None => CountKind::Entry,
            Some(count) => CountKind::Known(count),
        },
    }
}

/// The loops below a source loop: those of the one part of its body.
fn below_source(alloc: Global, inner: &[Part]) -> Result<Vec<CountKind>, AllocError>
    ensures { IfOk result (λ part. part.items ≡ shapes.below_source inner.now) }
{
    match inner {
        [part] => moved_all(alloc, Move::Inward, part.as_slice()),
        _ => Ok(Vec::new(alloc)),
    }
}

/// A source loop round the loops of its body.
fn with_source(alloc: Global, kind: CountKind, inner: &[Part]) -> Result<Vec<Part>, AllocError>
    ensures { IfOk result (λ parts. parts.items ≡ (kind ∷ shapes.below_source inner.now) ∷ []) }
{
    let below = below_source(alloc, inner)?;
    let mut all = Vec::new(alloc);
    all.push(kind)?;
    push_kinds(alloc, &mut all, below.as_slice())?;
    let mut parts = Vec::new(alloc);
    parts.push(Items::from_items(all))?;
    Ok(parts)
}

/// The parts of a statement where so many loops are wanted of it. Afterwards the same is visible as before.
#[tactic(auto, using(crate::proofs::WantedKinds::wanted))]
#[cycle(stmt_kinds)]
pub fn stmt_kinds(
    alloc: Global,
    stmt: &Stmt,
    wanted: u64,
    scope: &mut Scope,
) -> Result<Vec<Part>, AllocError>
    requires { WellFormedStmt (bare_stmt stmt.now) }
    ensures parts { IfOk result (λ parts. parts.items ≡ shapes.stmt_kinds scope.old.defines scope.old.state wanted (bare_stmt stmt.now)) }
    ensures scope { OnOk result (scope.new ≡ scope.old) }
{
    if wanted == 0 {
        return Ok(Vec::new(alloc));
    }
    some_kinds(alloc, stmt, wanted, scope)
}

/// The same where at least one is wanted.
#[cycle(stmt_kinds)]
fn some_kinds(
    alloc: Global,
    stmt: &Stmt,
    wanted: u64,
    scope: &mut Scope,
) -> Result<Vec<Part>, AllocError>
    requires well_formed { WellFormedStmt (bare_stmt stmt.now) }
    requires wanted { 0 < wanted }
    ensures parts { IfOk result (λ parts. parts.items ≡ wanted_kinds scope.old.defines scope.old.state wanted (bare_stmt stmt.now)) }
    ensures scope { OnOk result (scope.new ≡ scope.old) }
{
    match stmt {
        Stmt::For { head, body, .. } => for_kinds(alloc, body.as_slice(), head, wanted, scope),
        Stmt::Block { body, .. } => single_kinds(alloc, body.as_slice(), wanted, scope),
        Stmt::Omp {
            directive,
            body,
            ..
        } => {
            let plan = planned(alloc, scope, directive)?;
            let asked = loops_asked(alloc, &plan, wanted)?;
            let found = body_kinds(alloc, body.as_slice(), directive.kind, asked, scope)?;
            plan_kinds(alloc, &plan, 0, found.as_slice())
        }
        Stmt::Decl { .. }
        | Stmt::Set { .. }
        | Stmt::Step { .. }
        | Stmt::Print { .. }
        | Stmt::Input { .. }
        | Stmt::If { no: None, .. }
        | Stmt::If { no: Some(_), .. }
        | Stmt::While { .. }
        | Stmt::Do { .. }
        | Stmt::Break { .. }
        | Stmt::Continue { .. }
        | Stmt::Empty { .. }
        | Stmt::Call { .. } => Ok(Vec::new(alloc)),
    }
}

#[tactic(auto, using(crate::proofs::WantedKinds::left))]
#[cycle(stmt_kinds)]
fn for_kinds(
    alloc: Global,
    body: &[Stmt],
    head: &ForHead,
    wanted: u64,
    scope: &mut Scope,
) -> Result<Vec<Part>, AllocError>
    requires body { WellFormedStmts (bare_stmts body.now) }
    requires head { WellFormedHead (bare_head head.now) }
    requires wanted { 0 < wanted }
    ensures parts { IfOk result (λ parts. parts.items ≡ (shapes.source_kind scope.old.defines scope.old.state (bare_head head.now) ∷ shapes.below_source (shapes.single_kinds scope.old.defines (in_head (bare_head head.now) scope.old.state) (wanted - 1) (bare_stmts body.now))) ∷ []) }
    ensures scope { OnOk result (scope.new ≡ scope.old) }
{
    let kind = source_kind(scope, head);
    let len = scope.len();
    enter(scope, head)?;
    let inner = single_kinds(alloc, body, wanted - 1, scope)?;
    scope.keep(len);
    with_source(alloc, kind, inner.as_slice())
}

/// The parts of a list with one statement.
#[tactic(auto, using(crate::proofs::WantedKinds::singles))]
#[cycle(stmt_kinds)]
fn single_kinds(
    alloc: Global,
    stmts: &[Stmt],
    wanted: u64,
    scope: &mut Scope,
) -> Result<Vec<Part>, AllocError>
    requires { WellFormedStmts (bare_stmts stmts.now) }
    ensures parts { IfOk result (λ parts. parts.items ≡ shapes.single_kinds scope.old.defines scope.old.state wanted (bare_stmts stmts.now)) }
    ensures scope { OnOk result (scope.new ≡ scope.old) }
{
    if stmts.len() == 1 {
        let first = 0;
        stmt_kinds(alloc, &stmts[first], wanted, scope)
    } else {
        Ok(Vec::new(alloc))
    }
}

/// The parts of all members of a sequence.
#[tactic(auto, using(crate::proofs::WantedKinds::members, canonical_nests::proofs::HeldTrees::held_trees))]
#[cycle(stmt_kinds)]
fn member_kinds(
    alloc: Global,
    stmts: &[Stmt],
    wanted: u64,
    scope: &mut Scope,
) -> Result<Vec<Part>, AllocError>
    requires { WellFormedStmts (bare_stmts stmts.now) }
    ensures parts { IfOk result (λ parts. parts.items ≡ shapes.member_kinds scope.old.defines scope.old.state wanted (bare_stmts stmts.now)) }
    ensures scope { OnOk result (scope.new ≡ scope.old) }
{
    let mut all = Vec::new(alloc);
    let mut left = stmts.len();
    'each: for stmt in stmts {
        left -= 1;
        let last = left == 0;
        let given = one_member(alloc, stmt, last, wanted, scope)?;
        push_parts(alloc, &mut all, given.as_slice())?;
    }
    Ok(all)
}

/// The parts of a member, which may be the last.
#[cycle(stmt_kinds)]
fn one_member(
    alloc: Global,
    stmt: &Stmt,
    last: bool,
    wanted: u64,
    scope: &mut Scope,
) -> Result<Vec<Part>, AllocError>
    requires { WellFormedStmt (bare_stmt stmt.now) }
    ensures parts { IfOk result (λ parts. parts.items ≡ member_of last scope.old.defines scope.old.state wanted (bare_stmt stmt.now)) }
    ensures scope { OnOk result (scope.new ≡ scope.old) }
{
    if last {
        last_kinds(alloc, stmt, wanted, scope)
    } else {
        stmt_kinds(alloc, stmt, wanted, scope)
    }
}

/// The parts of the last member: of a block those of the members in it.
#[cycle(stmt_kinds)]
fn last_kinds(
    alloc: Global,
    stmt: &Stmt,
    wanted: u64,
    scope: &mut Scope,
) -> Result<Vec<Part>, AllocError>
    requires { WellFormedStmt (bare_stmt stmt.now) }
    ensures parts { IfOk result (λ parts. parts.items ≡ last_kinds scope.old.defines scope.old.state wanted (bare_stmt stmt.now)) }
    ensures scope { OnOk result (scope.new ≡ scope.old) }
{
    match stmt {
        Stmt::Block { body, .. } => member_kinds(alloc, body.as_slice(), wanted, scope),
        Stmt::For { .. } | Stmt::Omp { .. } => stmt_kinds(alloc, stmt, wanted, scope),
        Stmt::Decl { .. }
        | Stmt::Set { .. }
        | Stmt::Step { .. }
        | Stmt::Print { .. }
        | Stmt::Input { .. }
        | Stmt::If { no: None, .. }
        | Stmt::If { no: Some(_), .. }
        | Stmt::While { .. }
        | Stmt::Do { .. }
        | Stmt::Break { .. }
        | Stmt::Continue { .. }
        | Stmt::Empty { .. }
        | Stmt::Call { .. } => Ok(Vec::new(alloc)),
    }
}

/// What a directive of this kind finds in its body, where so many loops are wanted of each part: `fuse` the parts of all
/// members, any other those of the one statement.
#[cycle(stmt_kinds)]
pub fn body_kinds(
    alloc: Global,
    body: &[Stmt],
    kind: Kind,
    wanted: u64,
    scope: &mut Scope,
) -> Result<Vec<Part>, AllocError>
    requires { WellFormedStmts (bare_stmts body.now) }
    ensures parts { IfOk result (λ parts. parts.items ≡ shapes.found_by kind (shapes.single_kinds scope.old.defines scope.old.state wanted (bare_stmts body.now)) (shapes.member_kinds scope.old.defines scope.old.state wanted (bare_stmts body.now))) }
    ensures scope { OnOk result (scope.new ≡ scope.old) }
{
    match kind {
        Kind::Fuse => member_kinds(alloc, body, wanted, scope),
        Kind::Tile | Kind::Unroll | Kind::Interchange | Kind::Reverse | Kind::Split => {
            single_kinds(alloc, body, wanted, scope)
        }
    }
}
