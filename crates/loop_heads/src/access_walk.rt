//! The file-scope variables that statements may read and may assign, by themselves and by the functions that they call.

ghost use Rattle.std.specs.Prelude.{◌≡◌, ◌<◌, ◌≤◌, [], ◌∷◌, length, map, IfOk, OnOk, Some};
ghost use Rattle.std.specs.Option.{option_map};
ghost use Rattle.c_tree.specs.BareOf.{bare_expr, bare_exprs, bare_param, bare_target, bare_stmt, bare_stmts, bare_head, bare_directive, maybe_stmt};
ghost use Rattle.c_tree.specs.WellFormed.{WellFormedDirective, WellFormedHead, WellFormedPart, WellFormedStmt, WellFormedStmts};
ghost use Rattle.c_semantics.specs.Loops.CanonicalForm as form;
ghost use Rattle.c_semantics.specs.Loops.Directives as directives;
ghost use Rattle.c_semantics.specs.Loops.Need as need;
ghost use Rattle.c_semantics.specs.Meaning.FileVariables as files;
ghost use Rattle.c_semantics.specs.Meaning.State.{keep};
ghost use Rattle.loop_heads.specs.Affected as walks;
ghost use Rattle.loop_heads.specs.Touching.{Gains};

use crate::accessing::{Hidden, assign, read, read_all, read_if, set, touch_head, update};
use crate::functions::{Functions, Touched};
use crate::name_stack::NameStack;
use c_tree::boxed::Boxed;
use c_tree::name::Name;
use c_tree::tree::{Directive, Expr, ForHead, Param, SetOp, Stmt, Target};
use canonical_nests::directive_plan::loops_asked_by;
use loop_counts::heads::canonical;
use loop_counts::scope::Scope;
use std::alloc::{AllocError, Global};

/// What is known where a function stands.
#[derive(Clone, Copy)]
struct Known<'a> {
    alloc: Global,
    functions: &'a Functions,
    scope: &'a Scope,
}

/// All of these names hide.
#[tactic(auto, using(crate::proofs::Scopes::scopes))]
fn hidden_by<'a, 'p>(names: &'a NameStack<'p>) -> Hidden<'a, 'p>
    ensures { keep result.len result.names.now ≡ names.now }
{
    Hidden {
        names,
        len: names.len(),
    }
}

fn read_here(names: &NameStack, into: &mut Touched, e: &Expr) -> Result<(), AllocError>
    ensures { OnOk result (Gains into.old (files.reading (files.free_names names.now (bare_expr e.now))) into.new) }
{
    read(hidden_by(names), into, e)
}

fn read_if_here(names: &NameStack, into: &mut Touched, e: &Option<Expr>) -> Result<(), AllocError>
    ensures { OnOk result (Gains into.old (files.reading (files.free_names_if names.now (option_map bare_expr e.now))) into.new) }
{
    read_if(hidden_by(names), into, e)
}

fn read_all_here(names: &NameStack, into: &mut Touched, es: &[Expr]) -> Result<(), AllocError>
    ensures { OnOk result (Gains into.old (files.reading (files.free_names_each names.now (bare_exprs es.now))) into.new) }
{
    read_all(hidden_by(names), into, es)
}

fn set_here(
    names: &NameStack,
    into: &mut Touched,
    op: SetOp,
    target: &Target,
) -> Result<(), AllocError>
    ensures { OnOk result (Gains into.old (files.setting names.now op (bare_target target.now)) into.new) }
{
    set(hidden_by(names), into, op, target)
}

/// A declaration, whose initial value may name what it declares.
#[tactic(auto, using(crate::proofs::Scopes::scopes))]
fn declaration<'p>(
    names: &mut NameStack<'p>,
    into: &mut Touched,
    name: &'p Name,
    init: &Option<Expr>,
) -> Result<(), AllocError>
    ensures access { OnOk result (Gains into.old (files.reading (files.free_names_if (name.now ∷ names.old) (option_map bare_expr init.now))) into.new) }
    ensures names { OnOk result (names.new ≡ names.old) }
{
    let len = names.len();
    names.enter(name)?;
    read_if_here(names, into, init)?;
    names.keep(len);
    Ok(())
}

/// An assignment.
fn assignment(
    names: &NameStack,
    into: &mut Touched,
    op: SetOp,
    target: &Target,
    value: &Expr,
) -> Result<(), AllocError>
    ensures { OnOk result (Gains into.old (files.both (files.setting names.now op (bare_target target.now)) (files.reading (files.free_names names.now (bare_expr value.now)))) into.new) }
{
    set_here(names, into, op, target)?;
    read_here(names, into, value)?;
    Ok(())
}

fn step_here(names: &NameStack, into: &mut Touched, target: &Target) -> Result<(), AllocError>
    ensures { OnOk result (Gains into.old (files.updating names.now (bare_target target.now)) into.new) }
{
    update(hidden_by(names), into, target)
}

fn input_here(names: &NameStack, into: &mut Touched, target: &Target) -> Result<(), AllocError>
    ensures { OnOk result (Gains into.old (files.assigning names.now (bare_target target.now)) into.new) }
{
    assign(hidden_by(names), into, target)
}

/// All that a called function may touch.
#[tactic(auto, using(crate::proofs::Touches::gains_none))]
fn called(functions: &Functions, into: &mut Touched, function: &Name) -> Result<(), AllocError>
    ensures { OnOk result (Gains into.old (files.access_of functions.now function.now) into.new) }
{
    match functions.touched(function) {
        None => Ok(()),
        Some(touched) => into.add_all(touched),
    }
}

/// A call, with its arguments.
fn call(
    functions: &Functions,
    names: &NameStack,
    into: &mut Touched,
    function: &Name,
    args: &[Expr],
) -> Result<(), AllocError>
    ensures { OnOk result (Gains into.old (files.both (files.access_of functions.now function.now) (files.reading (files.free_names_each names.now (bare_exprs args.now)))) into.new) }
{
    called(functions, into, function)?;
    read_all_here(names, into, args)?;
    Ok(())
}

/// Enters the name that a statement declares.
fn enter<'p>(names: &mut NameStack<'p>, stmt: &'p Stmt) -> Result<(), AllocError>
    ensures { OnOk result (names.new ≡ files.scope_after (bare_stmt stmt.now) names.old) }
{
    match stmt {
        Stmt::Decl { name, .. } => names.enter(name),
        Stmt::If { no: None, .. } => Ok(()),
        Stmt::If { no: Some(_), .. } => Ok(()),
        _ => Ok(()),
    }
}

fn enter_part<'p>(
    names: &mut NameStack<'p>,
    part: &'p Option<Boxed<Stmt>>,
) -> Result<(), AllocError>
    ensures { OnOk result (names.new ≡ files.scope_in (maybe_stmt (option_map bare_stmt part.now)) names.old) }
{
    match part {
        None => Ok(()),
        Some(stmt) => enter(names, stmt.get()),
    }
}

/// What a well-formed directive asks of its body, by what is left of it without its places.
#[tactic(auto, using(crate::proofs::Scopes::directives))]
fn bare_loops_asked(
    alloc: Global,
    scope: &Scope,
    directive: &Directive,
    wanted: u64,
) -> Result<u64, AllocError>
    requires { WellFormedDirective (bare_directive directive.now) }
    ensures { IfOk result (λ n. n ≡ need.loops_asked (directives.plan_of scope.now.defines (bare_directive directive.now)) wanted) }
{
    loops_asked_by(alloc, scope, directive, wanted)
}

/// A condition, and then statements.
#[cycle(stmts_access)]
fn tested<'p>(
    at: Known,
    names: &mut NameStack<'p>,
    into: &mut Touched,
    stmts: &'p [Stmt],
    test: &Expr,
) -> Result<(), AllocError>
    requires { WellFormedStmts (bare_stmts stmts.now) }
    ensures access { OnOk result (Gains into.old (files.both (files.reading (files.free_names names.old (bare_expr test.now))) (files.all_accesses at.entry.scope.now.defines at.entry.functions.now names.old (bare_stmts stmts.now))) into.new) }
    ensures names { OnOk result (names.new ≡ names.old) }
{
    read_here(names, into, test)?;
    stmts_access(at, names, into, stmts)?;
    Ok(())
}

/// Statements, and then a condition.
#[cycle(stmts_access)]
fn repeated<'p>(
    at: Known,
    names: &mut NameStack<'p>,
    into: &mut Touched,
    stmts: &'p [Stmt],
    test: &Expr,
) -> Result<(), AllocError>
    requires { WellFormedStmts (bare_stmts stmts.now) }
    ensures access { OnOk result (Gains into.old (files.both (files.all_accesses at.entry.scope.now.defines at.entry.functions.now names.old (bare_stmts stmts.now)) (files.reading (files.free_names names.old (bare_expr test.now)))) into.new) }
    ensures names { OnOk result (names.new ≡ names.old) }
{
    stmts_access(at, names, into, stmts)?;
    read_here(names, into, test)?;
    Ok(())
}

#[cycle(stmts_access)]
fn part_access<'p>(
    at: Known,
    names: &mut NameStack<'p>,
    into: &mut Touched,
    part: &'p Option<Boxed<Stmt>>,
) -> Result<(), AllocError>
    requires { WellFormedPart (maybe_stmt (option_map bare_stmt part.now)) }
    ensures access { OnOk result (Gains into.old (files.maybe_accesses at.entry.scope.now.defines at.entry.functions.now names.old (maybe_stmt (option_map bare_stmt part.now))) into.new) }
    ensures names { OnOk result (names.new ≡ names.old) }
{
    match part {
        None => Ok(()),
        Some(stmt) => stmt_access(at, names, into, stmt.get()),
    }
}

/// The parts of a head, in whose scope the names stay.
#[tactic(auto, using(crate::proofs::Scopes::heads))]
#[cycle(stmts_access)]
fn head_access<'p>(
    at: Known,
    names: &mut NameStack<'p>,
    into: &mut Touched,
    head: &'p ForHead,
) -> Result<(), AllocError>
    requires { WellFormedHead (bare_head head.now) }
    ensures access { OnOk result (Gains into.old (walks.head_access at.entry.scope.now.defines at.entry.functions.now names.old (bare_head head.now)) into.new) }
    ensures names { OnOk result (names.new ≡ walks.head_scope names.old (bare_head head.now)) }
{
    part_access(at, names, into, &head.init)?;
    enter_part(names, &head.init)?;
    read_if_here(names, into, &head.test)?;
    part_access(at, names, into, &head.step)?;
    Ok(())
}

#[cycle(stmts_access)]
fn stmt_access<'p>(
    at: Known,
    names: &mut NameStack<'p>,
    into: &mut Touched,
    stmt: &'p Stmt,
) -> Result<(), AllocError>
    requires { WellFormedStmt (bare_stmt stmt.now) }
    ensures access { OnOk result (Gains into.old (files.accesses at.entry.scope.now.defines at.entry.functions.now names.old (bare_stmt stmt.now)) into.new) }
    ensures names { OnOk result (names.new ≡ names.old) }
{
    match stmt {
        Stmt::Decl { name, init, .. } => declaration(names, into, name, init),
        Stmt::Set {
            target,
            op,
            value,
            ..
        } => assignment(names, into, *op, target, value),
        Stmt::Step { target, .. } => step_here(names, into, target),
        Stmt::Print { value, .. } => read_here(names, into, value),
        Stmt::Input { target, .. } => input_here(names, into, target),
        Stmt::If { test, yes, no, .. } => match no {
            None => tested(at, names, into, yes.as_slice(), test),
            Some(no) => {
                tested(at, names, into, yes.as_slice(), test)?;
                stmts_access(at, names, into, no.as_slice())?;
                Ok(())
            }
        },
        Stmt::While { test, body, .. } => tested(at, names, into, body.as_slice(), test),
        Stmt::Do { body, test, .. } => repeated(at, names, into, body.as_slice(), test),
        Stmt::For { head, body, .. } => {
            let len = names.len();
            head_access(at, names, into, head)?;
            stmts_access(at, names, into, body.as_slice())?;
            names.keep(len);
            Ok(())
        }
        Stmt::Block { body, .. } => stmts_access(at, names, into, body.as_slice()),
        Stmt::Omp {
            directive,
            body,
            ..
        } => construct_access(at, names, into, body.as_slice(), directive),
        Stmt::Call { name, args, .. } => call(at.functions, names, into, name, args.as_slice()),
        Stmt::Break { .. } => Ok(()),
        Stmt::Continue { .. } => Ok(()),
        Stmt::Empty { .. } => Ok(()),
    }
}

/// The loops that a directive asks for.
#[cycle(stmts_access)]
fn construct_access<'p>(
    at: Known,
    names: &mut NameStack<'p>,
    into: &mut Touched,
    body: &'p [Stmt],
    directive: &Directive,
) -> Result<(), AllocError>
    requires body { WellFormedStmts (bare_stmts body.now) }
    requires directive { WellFormedDirective (bare_directive directive.now) }
    ensures access { OnOk result (Gains into.old (files.nests_accesses at.entry.scope.now.defines at.entry.functions.now names.old names.old (need.loops_asked (directives.plan_of at.entry.scope.now.defines (bare_directive directive.now)) 0) (bare_stmts body.now)) into.new) }
    ensures names { OnOk result (names.new ≡ names.old) }
{
    let asked = bare_loops_asked(at.alloc, at.scope, directive, 0)?;
    let len = names.len();
    nests_access(at, names, into, body, len, asked)?;
    Ok(())
}

/// Statements one after another, after which their declarations are left.
#[tactic(auto, using(crate::proofs::AccessLists::walks))]
#[cycle(stmts_access)]
fn stmts_access<'p>(
    at: Known,
    names: &mut NameStack<'p>,
    into: &mut Touched,
    stmts: &'p [Stmt],
) -> Result<(), AllocError>
    requires { WellFormedStmts (bare_stmts stmts.now) }
    ensures access { OnOk result (Gains into.old (files.all_accesses at.entry.scope.now.defines at.entry.functions.now names.old (bare_stmts stmts.now)) into.new) }
    ensures names { OnOk result (names.new ≡ names.old) }
{
    let len = names.len();
    'each: for stmt in stmts {
        stmt_access(at, names, into, stmt)?;
        enter(names, stmt)?;
    }
    names.keep(len);
    Ok(())
}

/// The body of an affected loop, of which so many loops are wanted.
#[cycle(stmts_access)]
fn body_access<'p>(
    at: Known,
    names: &mut NameStack<'p>,
    into: &mut Touched,
    body: &'p [Stmt],
    len: usize,
    wanted: u64,
) -> Result<(), AllocError>
    requires well_formed { WellFormedStmts (bare_stmts body.now) }
    requires len { len ≤ length names.old }
    ensures access { OnOk result (Gains into.old (walks.body_access at.entry.scope.now.defines at.entry.functions.now (keep len names.old) names.old wanted (bare_stmts body.now)) into.new) }
    ensures names { OnOk result (names.new ≡ names.old) }
{
    if wanted == 0 {
        stmts_access(at, names, into, body)
    } else {
        nests_access(at, names, into, body, len, wanted)
    }
}

/// An affected loop, of which so many loops are wanted in its body.
#[cycle(stmts_access)]
fn for_access<'p>(
    at: Known,
    names: &mut NameStack<'p>,
    into: &mut Touched,
    body: &'p [Stmt],
    head: &'p ForHead,
    len: usize,
    wanted: u64,
) -> Result<(), AllocError>
    requires head { WellFormedHead (bare_head head.now) }
    requires body { WellFormedStmts (bare_stmts body.now) }
    requires len { len ≤ length names.old }
    ensures access { OnOk result (Gains into.old (walks.for_access at.entry.scope.now.defines at.entry.functions.now (keep len names.old) names.old wanted (bare_stmts body.now) (form.canonical at.entry.scope.now.defines (bare_head head.now))) into.new) }
    ensures names { OnOk result (names.new ≡ names.old) }
{
    match canonical(at.scope, head) {
        None => {
            body_access(at, names, into, body, len, wanted)?;
            Ok(())
        }
        Some(canon) => {
            let here = Hidden {
                names: &*names,
                len,
            };
            touch_head(here, into, &canon)?;
            let inside = names.len();
            names.enter(canon.var)?;
            body_access(at, names, into, body, len, wanted)?;
            names.keep(inside);
            Ok(())
        }
    }
}

/// A statement of which a directive round it wants so many loops, one at least. The bounds of its loops can see what the
/// earliest names don't hide.
#[cycle(stmts_access)]
fn nest_access<'p>(
    at: Known,
    names: &mut NameStack<'p>,
    into: &mut Touched,
    stmt: &'p Stmt,
    len: usize,
    wanted: u64,
) -> Result<(), AllocError>
    requires well_formed { WellFormedStmt (bare_stmt stmt.now) }
    requires len { len ≤ length names.old }
    requires some { 0 < wanted }
    ensures access { OnOk result (Gains into.old (walks.wanted_access at.entry.scope.now.defines at.entry.functions.now (keep len names.old) names.old wanted (bare_stmt stmt.now)) into.new) }
    ensures names { OnOk result (names.new ≡ names.old) }
{
    match stmt {
        Stmt::For { head, body, .. } => {
            for_access(at, names, into, body.as_slice(), head, len, wanted - 1)
        }
        Stmt::Block { body, .. } => nests_access(at, names, into, body.as_slice(), len, wanted),
        Stmt::Omp {
            directive,
            body,
            ..
        } => {
            let asked = bare_loops_asked(at.alloc, at.scope, directive, wanted)?;
            nests_access(at, names, into, body.as_slice(), len, asked)?;
            Ok(())
        }
        Stmt::Decl { .. } => Ok(()),
        Stmt::Set { .. } => Ok(()),
        Stmt::Step { .. } => Ok(()),
        Stmt::Print { .. } => Ok(()),
        Stmt::Input { .. } => Ok(()),
        Stmt::If { no: None, .. } => Ok(()),
        Stmt::If { no: Some(_), .. } => Ok(()),
        Stmt::While { .. } => Ok(()),
        Stmt::Do { .. } => Ok(()),
        Stmt::Break { .. } => Ok(()),
        Stmt::Continue { .. } => Ok(()),
        Stmt::Empty { .. } => Ok(()),
        Stmt::Call { .. } => Ok(()),
    }
}

#[tactic(auto, using(crate::proofs::AccessLists::nests))]
#[cycle(stmts_access)]
fn nests_access<'p>(
    at: Known,
    names: &mut NameStack<'p>,
    into: &mut Touched,
    stmts: &'p [Stmt],
    len: usize,
    wanted: u64,
) -> Result<(), AllocError>
    requires well_formed { WellFormedStmts (bare_stmts stmts.now) }
    requires len { len ≤ length names.old }
    ensures access { OnOk result (Gains into.old (files.nests_accesses at.entry.scope.now.defines at.entry.functions.now (keep len names.old) names.old wanted (bare_stmts stmts.now)) into.new) }
    ensures names { OnOk result (names.new ≡ names.old) }
{
    if wanted == 0 {
        return Ok(());
    }
    'each: for stmt in stmts {
        nest_access(at, names, into, stmt, len, wanted)?;
    }
    Ok(())
}

/// Enters the parameters of a function, the first one latest.
#[tactic(auto, using(crate::proofs::Parameters::names))]
fn enter_params<'p>(names: &mut NameStack<'p>, params: &'p [Param]) -> Result<(), AllocError>
    requires { names.old ≡ [] }
    ensures { OnOk result (names.new ≡ files.param_names (map bare_param params.now)) }
{
    let mut left = params.len();
    'each: while left > 0 {
        left -= 1;
        let param = &params[left];
        names.enter(&param.name)?;
    }
    Ok(())
}

/// What a call of a function reads and assigns, where these functions are known and this is visible.
pub fn function_access<'p>(
    alloc: Global,
    params: &'p [Param],
    body: &'p [Stmt],
    functions: &Functions,
    scope: &Scope,
) -> Result<Touched, AllocError>
    requires { WellFormedStmts (bare_stmts body.now) }
    ensures { IfOk result (λ touched. Gains files.no_access (files.all_accesses scope.now.defines functions.now (files.param_names (map bare_param params.now)) (bare_stmts body.now)) touched) }
{
    let mut names = NameStack::new(alloc);
    enter_params(&mut names, params)?;
    let mut touched = Touched::new(alloc);
    let at = Known {
        alloc,
        functions,
        scope,
    };
    stmts_access(at, &mut names, &mut touched, body)?;
    Ok(touched)
}
