//! The weights of expressions: 1 and the weights of the parts.

ghost use Rattle.std.specs.Prelude.{◌≡◌};
ghost use Rattle.std.specs.Option.{option_map};
ghost use Rattle.c_tree.specs.BareOf.{bare_expr, bare_exprs, bare_target};
ghost use Rattle.canonical_nests.specs.Weight as weight;
ghost use Rattle.canonical_nests.specs.Weight.{capped_weight};

use crate::capped::plus;
use c_tree::tree::{Expr, Target};

/// The weight of an expression, up to the cap.
#[tactic(auto, using(crate::proofs::Caps::sums))]
#[cycle(expr_weight)]
pub fn expr_weight(e: &Expr) -> u64
    ensures { result ≡ capped_weight (weight.expr_weight (bare_expr e.now)) }
{
    match e {
        Expr::Num { .. } | Expr::Read { .. } => 1,
        Expr::Item { subs, .. } => plus(1, exprs_weight(subs.as_slice())),
        Expr::Un { of, .. } | Expr::Cast { of, .. } => plus(1, expr_weight(of.get())),
        Expr::Bin { left, right, .. } => {
            plus(plus(1, expr_weight(left.get())), expr_weight(right.get()))
        }
        Expr::Cond { test, yes, no, .. } => plus(
            plus(plus(1, expr_weight(test.get())), expr_weight(yes.get())),
            expr_weight(no.get()),
        ),
    }
}

/// The weight of a list of expressions, up to the cap.
#[tactic(auto, using(crate::proofs::Caps::sums, crate::proofs::Lists::lists))]
#[cycle(expr_weight)]
pub fn exprs_weight(es: &[Expr]) -> u64
    ensures { result ≡ capped_weight (weight.exprs_weight (bare_exprs es.now)) }
{
    let mut all = 0;
    'each: for e in es {
        all = plus(all, expr_weight(e));
    }
    all
}

/// The weight of an expression that may be absent, up to the cap.
pub fn option_weight(e: &Option<Expr>) -> u64
    ensures { result ≡ capped_weight (weight.option_weight (option_map bare_expr e.now)) }
{
    match e {
        None => 0,
        Some(e) => expr_weight(e),
    }
}

/// The weight of the subscripts of a target, up to the cap.
pub fn target_weight(target: &Target) -> u64
    ensures { result ≡ capped_weight (weight.target_weight (bare_target target.now)) }
{
    exprs_weight(target.subs.as_slice())
}
