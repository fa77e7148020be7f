//! The heads of canonical loops at a place (OpenMP 6.0, 6.4.1, canonical loop nest form), part by part.

ghost use Rattle.std.specs.Prelude.{◌≡◌, Some, IfSome};
ghost use Rattle.std.specs.Option.{option_map};
ghost use Rattle.c_tree.specs.Bare.{set, a_stmt};
ghost use Rattle.c_tree.specs.BareOf.{bare_expr, bare_stmt, bare_head, bare_target};
ghost use Rattle.c_tree.specs.Constants.{LiteralsAreHeld};
ghost use Rattle.c_tree.specs.WellFormed.{WellFormedHead};
ghost use Rattle.c_semantics.specs.Loops.CanonicalForm as form;
ghost use Rattle.c_semantics.specs.Meaning.Expressions as meaning;
ghost use Rattle.canonical_nests.specs.Canonical.{seen_loop, test_op, left_op, is_scalar, small, PartIsHeld, HeadIsHeld};
ghost use Rattle.loop_counts.specs.Heads.{seen_init, seen_test};

use crate::scope::Scope;
use c_tree::boxed::Boxed;
use c_tree::name::Name;
use c_tree::tree::{BinOp, Expr, ForHead, SetOp, Stmt, Target, Ty};
use canonical_nests::canonical::{CanonLoop, Test};
use canonical_nests::clauses::Constants;

/// `var = lb`, or `type var = lb`.
#[derive(Clone, Copy)]
pub struct Init<'a> {
    pub var: &'a Name,
    pub ty: Option<Ty>,
    pub lb: &'a Expr,
}

/// A test with its bound, seen from the variable.
#[derive(Clone, Copy)]
pub struct TestPart<'a> {
    pub test: Test,
    pub ub: &'a Expr,
}

/// `var = lb`, and `None` for any other assignment.
#[tactic(auto, using(canonical_nests::proofs::Targets::targets))]
fn assigned_init<'a>(target: &'a Target, op: SetOp, value: &'a Expr) -> Option<Init<'a>>
    ensures { option_map seen_init result ≡ form.init (a_stmt (set (bare_target target.now) op (bare_expr value.now))) }
{
    match op {
        SetOp::Plain => {
            if target.subs.is_empty() {
                Some(Init {
                    var: &target.name,
                    ty: None,
                    lb: value,
                })
            } else {
                None
            }
        }
        _ => None,
    }
}

/// The first part of a canonical head.
pub fn init_of<'a>(stmt: &'a Stmt) -> Option<Init<'a>>
    ensures { option_map seen_init result ≡ form.init (a_stmt (bare_stmt stmt.now)) }
{
    match stmt {
        Stmt::Decl {
            ty,
            name,
            init: Some(lb),
            ..
        } => Some(Init {
            var: name,
            ty: Some(*ty),
            lb,
        }),
        Stmt::Set {
            target,
            op,
            value,
            ..
        } => assigned_init(target, *op, value),
        _ => None,
    }
}

/// Whether an expression is the variable.
pub fn is_read(name: &Name, e: &Expr) -> bool
    ensures { result ≡ form.is_read name.now (bare_expr e.now) }
{
    match e {
        Expr::Read { name: read, .. } => name == read,
        _ => false,
    }
}

/// A comparison that may be a test, where the variable stands on its left.
fn test_from_left(op: BinOp) -> Option<Test>
    ensures { option_map test_op result ≡ left_op op }
{
    match op {
        BinOp::Lt => Some(Test::Lt),
        BinOp::Le => Some(Test::Le),
        BinOp::Gt => Some(Test::Gt),
        BinOp::Ge => Some(Test::Ge),
        BinOp::Ne => Some(Test::Ne),
        _ => None,
    }
}

/// The same where the variable stands on its right.
fn test_from_right(op: BinOp) -> Option<Test>
    ensures { option_map test_op result ≡ form.turned op }
{
    match op {
        BinOp::Lt => Some(Test::Gt),
        BinOp::Le => Some(Test::Ge),
        BinOp::Gt => Some(Test::Lt),
        BinOp::Ge => Some(Test::Le),
        BinOp::Ne => Some(Test::Ne),
        _ => None,
    }
}

/// The test of a canonical head.
pub fn test_part<'a>(name: &Name, test: &'a Expr) -> Option<TestPart<'a>>
    ensures { option_map seen_test result ≡ form.test name.now (Some (bare_expr test.now)) }
{
    match test {
        Expr::Bin {
            op,
            left,
            right,
            ..
        } => {
            if is_read(name, left.get()) {
                let test = test_from_left(*op)?;
                return Some(TestPart {
                    test,
                    ub: right.get(),
                });
            }
            if is_read(name, right.get()) {
                let test = test_from_right(*op)?;
                return Some(TestPart {
                    test,
                    ub: left.get(),
                });
            }
            None
        }
        _ => None,
    }
}

/// The number, unless it is the least of its type, whose size no step has.
fn small(value: Option<i64>) -> Option<i64>
    ensures { result ≡ small value }
{
    match value {
        None => None,
        Some(i64::MIN) => None,
        Some(value) => Some(value),
    }
}

fn small_negated(value: Option<i64>) -> Option<i64>
    ensures { result ≡ small (form.negated value) }
{
    match value {
        None => None,
        Some(i64::MIN) => None,
        Some(value) => Some(-value),
    }
}

/// The value of a constant expression.
fn constant(scope: &Scope, e: &Expr) -> Option<i64>
    requires { LiteralsAreHeld (bare_expr e.now) }
    ensures { result ≡ meaning.constant scope.now.defines (bare_expr e.now) }
{
    scope.value(e)
}

/// The constant that is added to the variable.
fn added(scope: &Scope, name: &Name, value: &Expr) -> Option<i64>
    requires { LiteralsAreHeld (bare_expr value.now) }
    ensures { result ≡ small (form.added scope.now.defines name.now (bare_expr value.now)) }
{
    match value {
        Expr::Bin {
            op: BinOp::Add,
            left,
            right,
            ..
        } => {
            if is_read(name, left.get()) {
                return small(constant(scope, right.get()));
            }
            if is_read(name, right.get()) {
                return small(constant(scope, left.get()));
            }
            None
        }
        Expr::Bin {
            op: BinOp::Sub,
            left,
            right,
            ..
        } => {
            if is_read(name, left.get()) {
                return small_negated(constant(scope, right.get()));
            }
            None
        }
        _ => None,
    }
}

/// Whether a target is this variable, and no array's element.
#[tactic(auto, using(canonical_nests::proofs::Targets::targets))]
fn is_variable(target: &Target, name: &Name) -> bool
    ensures { result ≡ is_scalar name.now (bare_target target.now) }
{
    target.subs.is_empty() && name == &target.name
}

/// The change of the variable in one turn, where it is in the range of steps.
#[tactic(auto, using(canonical_nests::proofs::Targets::targets))]
fn increment(scope: &Scope, name: &Name, stmt: &Stmt) -> Option<i64>
    requires { PartIsHeld (a_stmt (bare_stmt stmt.now)) }
    ensures { result ≡ small (form.increment scope.now.defines name.now (a_stmt (bare_stmt stmt.now))) }
{
    match stmt {
        Stmt::Step { target, up, .. } => {
            if !is_variable(target, name) {
                return None;
            }
            if *up { Some(1) } else { Some(-1) }
        }
        Stmt::Set {
            target,
            op,
            value,
            ..
        } => {
            if !is_variable(target, name) {
                return None;
            }
            match op {
                SetOp::Add => small(constant(scope, value)),
                SetOp::Sub => small_negated(constant(scope, value)),
                SetOp::Plain => added(scope, name, value),
                _ => None,
            }
        }
        _ => None,
    }
}

fn fits_test(test: Test, step: i64) -> bool
    ensures { result ≡ form.fits_test (test_op test) step }
{
    match test {
        Test::Lt | Test::Le => step > 0,
        Test::Gt | Test::Ge => step < 0,
        Test::Ne => step == 1 || step == -1,
    }
}

/// The parts of a canonical head.
fn canonical_head<'a>(scope: &Scope, head: &'a ForHead) -> Option<CanonLoop<'a>>
    requires { HeadIsHeld (bare_head head.now) }
    ensures { option_map seen_loop result ≡ form.canonical scope.now.defines (bare_head head.now) }
{
    let init = init_of(head.init.as_ref()?.get())?;
    let test = test_part(init.var, head.test.as_ref()?)?;
    let step = increment(scope, init.var, head.step.as_ref()?.get())?;
    if !fits_test(test.test, step) {
        return None;
    }
    Some(CanonLoop {
        var: init.var,
        ty: init.ty,
        lb: init.lb,
        ub: test.ub,
        test: test.test,
        step,
    })
}

/// The parts of a canonical head, and `None` exactly where it isn't canonical. The literals in its bounds have values
/// that their types hold.
#[tactic(auto, using(crate::proofs::HeldBounds::bounds))]
pub fn canonical<'a>(scope: &Scope, head: &'a ForHead) -> Option<CanonLoop<'a>>
    requires { WellFormedHead (bare_head head.now) }
    ensures canonical { option_map seen_loop result ≡ form.canonical scope.now.defines (bare_head head.now) }
    ensures lb { IfSome result (λ l. LiteralsAreHeld (bare_expr l.lb.now)) }
    ensures ub { IfSome result (λ l. LiteralsAreHeld (bare_expr l.ub.now)) }
{
    canonical_head(scope, head)
}
