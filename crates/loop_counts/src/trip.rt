//! How often a loop turns whose bounds are constants (OpenMP 6.0, 6.4.1, logical iterations).

ghost use Rattle.std.specs.Prelude.{◌≡◌, ◌<◌, ◌^◌, Some, Ok, pos, ◌-ℤ◌, ◌≤ℤ◌};
ghost use Rattle.c_tree.specs.Arithmetic as numbers;
ghost use Rattle.c_tree.specs.BareOf.{bare_expr};
ghost use Rattle.c_tree.specs.Constants.{LiteralsAreHeld};
ghost use Rattle.c_semantics.specs.Loops.TripCount as trip;
ghost use Rattle.c_semantics.specs.Structure.Skeleton as skeleton;
ghost use Rattle.canonical_nests.specs.Canonical.{seen_loop, test_op};
ghost use Rattle.loop_counts.specs.Turns.{as_number, turns_of, entry_turns};

use crate::evaluate::{evaluate, name_type};
use crate::scope::Scope;
use c_tree::arithmetic::{Trap, apply_bin, convert};
use c_tree::tree::{BinOp, Ty};
use canonical_nests::canonical::{CanonLoop, Test};

/// How far one number is above another; `Overflow` above 2^63 - 1.
#[tactic(auto, using(crate::proofs::TripCounts::distances))]
fn distance(low: i64, high: i64) -> Result<u64, Trap>
    requires { low ≤ℤ high }
    ensures { as_number result ≡ trip.small (high -ℤ low) }
{
    let distance = apply_bin(BinOp::Sub, Ty::Long, high, low)?;
    Ok(distance as u64)
}

/// The turns over a distance by steps of a size; `Overflow` above 2^63 - 1.
#[tactic(auto, using(crate::proofs::TripCounts::turns))]
fn turns_over(inclusive: bool, distance: u64, size: u64) -> Result<u64, Trap>
    requires { distance < 2 ^ 63 }
    ensures { result ≡ turns_of inclusive size (pos distance) }
{
    if !inclusive && distance == 0 {
        return Ok(0);
    }
    let over = if inclusive { distance } else { distance - 1 };
    let whole = if size == 0 { 0 } else { over / size };
    if whole < 0x7fff_ffff_ffff_ffff {
        Ok(whole + 1)
    } else {
        Err(Trap::Overflow)
    }
}

/// The turns from one number up to another.
#[tactic(auto, using(crate::proofs::TripCounts::ranges))]
fn turns(inclusive: bool, size: u64, low: i64, high: i64) -> Result<u64, Trap>
    ensures { result ≡ numbers.and_then (trip.small (high -ℤ low)) (turns_of inclusive size) }
{
    if high < low {
        return Ok(0);
    }
    turns_over(inclusive, distance(low, high)?, size)
}

fn is_inclusive(test: Test) -> bool
    ensures { result ≡ trip.inclusive (test_op test) }
{
    match test {
        Test::Le | Test::Ge => true,
        Test::Lt | Test::Gt | Test::Ne => false,
    }
}

#[tactic(auto, using(crate::proofs::TripCounts::counts))]
fn count(test: Test, step: i64, lb: i64, ub: i64) -> Result<u64, Trap>
    ensures { result ≡ trip.count (test_op test) step lb ub }
{
    if step < 0 {
        turns(is_inclusive(test), step.unsigned_abs(), ub, lb)
    } else {
        turns(is_inclusive(test), step.unsigned_abs(), lb, ub)
    }
}

/// The turns of a loop whose variable has this type, from what its bounds are worth.
fn turns_between(
    ty: Ty,
    test: Test,
    step: i64,
    lb: Result<i64, Trap>,
    ub: Result<i64, Trap>,
) -> Result<u64, Trap>
    ensures { result ≡ entry_turns ty (test_op test) step lb ub }
{
    let lb = convert(ty, lb?)?;
    let ub = convert(ty, ub?)?;
    count(test, step, lb, ub)
}

/// The type of a loop's variable: as its head declares it, else as it was declared before.
pub fn loop_type(scope: &Scope, l: &CanonLoop) -> Ty
    ensures { result ≡ trip.loop_type scope.now.defines scope.now.state (seen_loop l.now) }
{
    match l.ty {
        Some(ty) => ty,
        None => name_type(scope, l.var),
    }
}

/// The count of a loop, known where its bounds are constants and its entry doesn't trap.
#[tactic(auto, using(crate::proofs::TripCounts::entries))]
pub fn source_count(scope: &Scope, l: &CanonLoop) -> Option<u64>
    requires lb { LiteralsAreHeld (bare_expr l.now.lb.now) }
    requires ub { LiteralsAreHeld (bare_expr l.now.ub.now) }
    ensures { result ≡ skeleton.source_count scope.now.defines scope.now.state (Some (seen_loop l.now)) }
{
    let lb = evaluate(scope, true, l.lb)?;
    let ub = evaluate(scope, true, l.ub)?;
    let ty = loop_type(scope, l);
    turns_between(ty, l.test, l.step, lb.value, ub.value).ok()
}
