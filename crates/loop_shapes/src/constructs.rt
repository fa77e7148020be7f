//! The constructs of a program: the directives that no other directive takes.

ghost use Rattle.std.specs.Prelude.{◌≡◌, ◌++◌, map, IfOk, OnOk};
ghost use Rattle.c_tree.specs.BareOf.{bare_directive, bare_program, bare_stmt, bare_stmts, bare_top};
ghost use Rattle.c_tree.specs.PlacedOf.{placed_directive, placed_program, placed_stmt, placed_stmts, placed_top};
ghost use Rattle.c_tree.specs.Forget.{forget_directive};
ghost use Rattle.c_tree.specs.WellFormed.{WellFormedDirective, WellFormedStmt, WellFormedStmts, WellFormedTop, WellFormedTops};
ghost use Rattle.c_semantics.specs.Loops.Directives as directives;
ghost use Rattle.c_semantics.specs.Loops.Need as need;
ghost use Rattle.canonical_nests.specs.Constructs as listed;
ghost use Rattle.loop_shapes.specs.Own.{own_constructs};

use c_tree::tree::{Directive, Item, Program, Stmt};
use canonical_nests::admitted::Admitted;
use canonical_nests::directive_plan::loops_asked_by;
use canonical_nests::nest::Construct;
use loop_counts::scope::Scope;
use std::alloc::{AllocError, Global};

/// Lists a directive as a construct, unless a directive round it takes it.
#[tactic(auto, using(crate::proofs::Listed::own))]
fn list_own(
    directive: &Directive,
    wanted: u64,
    found: &mut Vec<Construct>,
) -> Result<(), AllocError>
    ensures { OnOk result (found.new.items ≡ found.old.items ++ own_constructs wanted (placed_directive directive.now)) }
{
    if wanted == 0 {
        found.push(Construct {
            kind: directive.kind,
            place: directive.span.start,
        })?;
    }
    Ok(())
}

/// Lists the constructs in a statement of which a directive round it wants so many loops, 0 where none does.
#[tactic(auto, using(crate::proofs::Listed::kinds))]
#[cycle(stmt_constructs)]
fn list_stmt(
    alloc: Global,
    stmt: &Stmt,
    scope: &Scope,
    wanted: u64,
    found: &mut Vec<Construct>,
) -> Result<(), AllocError>
    requires { WellFormedStmt (bare_stmt stmt.now) }
    ensures { OnOk result (found.new.items ≡ found.old.items ++ listed.stmt_constructs scope.now.defines wanted (placed_stmt stmt.now)) }
{
    match stmt {
        Stmt::If { yes, no: None, .. } => {
            list_stmts(alloc, yes.as_slice(), scope, 0, found)?;
            Ok(())
        }
        Stmt::If {
            yes,
            no: Some(no),
            ..
        } => {
            list_stmts(alloc, yes.as_slice(), scope, 0, found)?;
            list_stmts(alloc, no.as_slice(), scope, 0, found)?;
            Ok(())
        }
        Stmt::While { body, .. } => {
            list_stmts(alloc, body.as_slice(), scope, 0, found)?;
            Ok(())
        }
        Stmt::Do { body, .. } => {
            list_stmts(alloc, body.as_slice(), scope, 0, found)?;
            Ok(())
        }
        Stmt::For { body, .. } => {
            let below = wanted.saturating_sub(1);
            list_stmts(alloc, body.as_slice(), scope, below, found)?;
            Ok(())
        }
        Stmt::Block { body, .. } => {
            list_stmts(alloc, body.as_slice(), scope, wanted, found)?;
            Ok(())
        }
        Stmt::Omp {
            directive,
            body,
            ..
        } => {
            list_directive(alloc, body.as_slice(), directive, scope, wanted, found)?;
            Ok(())
        }
        Stmt::Decl { .. }
        | Stmt::Set { .. }
        | Stmt::Step { .. }
        | Stmt::Print { .. }
        | Stmt::Input { .. }
        | Stmt::Break { .. }
        | Stmt::Continue { .. }
        | Stmt::Empty { .. }
        | Stmt::Call { .. } => Ok(()),
    }
}

/// Lists a directive, where no directive round it takes it, and the constructs in its body.
#[cycle(stmt_constructs)]
fn list_directive(
    alloc: Global,
    body: &[Stmt],
    directive: &Directive,
    scope: &Scope,
    wanted: u64,
    found: &mut Vec<Construct>,
) -> Result<(), AllocError>
    requires body { WellFormedStmts (bare_stmts body.now) }
    requires directive { WellFormedDirective (bare_directive directive.now) }
    ensures { OnOk result (found.new.items ≡ (found.old.items ++ own_constructs wanted (placed_directive directive.now)) ++ listed.stmts_constructs scope.now.defines (need.loops_asked (directives.plan_of scope.now.defines (forget_directive (placed_directive directive.now))) wanted) (placed_stmts body.now)) }
{
    list_own(directive, wanted, found)?;
    let asked = loops_asked_by(alloc, scope, directive, wanted)?;
    list_stmts(alloc, body, scope, asked, found)?;
    Ok(())
}

/// Lists the constructs in statements one after another, of each of which a directive round them wants so many loops.
#[tactic(auto, using(crate::proofs::Listed::lists))]
#[cycle(stmt_constructs)]
fn list_stmts(
    alloc: Global,
    stmts: &[Stmt],
    scope: &Scope,
    wanted: u64,
    found: &mut Vec<Construct>,
) -> Result<(), AllocError>
    requires { WellFormedStmts (bare_stmts stmts.now) }
    ensures { OnOk result (found.new.items ≡ found.old.items ++ listed.stmts_constructs scope.now.defines wanted (placed_stmts stmts.now)) }
{
    'each: for stmt in stmts {
        list_stmt(alloc, stmt, scope, wanted, found)?;
    }
    Ok(())
}

/// Lists the constructs in an item of the file.
#[tactic(auto, using(crate::proofs::Listed::items))]
fn list_item(
    alloc: Global,
    item: &Item,
    scope: &Scope,
    found: &mut Vec<Construct>,
) -> Result<(), AllocError>
    requires { WellFormedTop (bare_top item.now) }
    ensures { OnOk result (found.new.items ≡ found.old.items ++ listed.top_constructs scope.now.defines (placed_top item.now)) }
{
    match item {
        Item::Function { body, .. } => {
            list_stmts(alloc, body.as_slice(), scope, 0, found)?;
            Ok(())
        }
        Item::Main { body, .. } => {
            list_stmts(alloc, body.as_slice(), scope, 0, found)?;
            Ok(())
        }
        Item::Define { .. } | Item::Extern { .. } | Item::Global { .. } => Ok(()),
    }
}

/// Lists the constructs in items.
#[tactic(auto, using(crate::proofs::Listed::programs))]
fn list_items(
    alloc: Global,
    items: &[Item],
    scope: &mut Scope,
    found: &mut Vec<Construct>,
) -> Result<(), AllocError>
    requires { WellFormedTops (map bare_top items.now) }
    ensures { OnOk result (found.new.items ≡ found.old.items ++ listed.constructs_from scope.old.defines (map placed_top items.now)) }
{
    'each: for item in items {
        list_item(alloc, item, &*scope, found)?;
        scope.add_item(item)?;
    }
    Ok(())
}

/// The constructs of a well-formed program.
fn program_constructs(alloc: Global, program: &Program) -> Result<Vec<Construct>, AllocError>
    requires { WellFormedTops (bare_program program.now) }
    ensures { IfOk result (λ list. list.items ≡ listed.constructs (placed_program program.now)) }
{
    let mut scope = Scope::new(alloc);
    let mut found = Vec::new(alloc);
    list_items(alloc, program.items.as_slice(), &mut scope, &mut found)?;
    Ok(found)
}

/// The constructs of a program in the order of the text, those in the bodies of others included. They are numbered from 1
/// in this order.
pub fn constructs(alloc: Global, admitted: &Admitted) -> Result<Vec<Construct>, AllocError>
    ensures { IfOk result (λ list. list.items ≡ listed.constructs (placed_program admitted.now)) }
{
    let list = program_constructs(alloc, admitted.checked().program())?;
    Ok(list)
}
