//! The clauses of a directive: the first of each sort, and the numbers in it.

ghost use Rattle.std.specs.Prelude.{◌≡◌, [], ◌∷◌, ◌++◌, map, IfOk, IfSome};
ghost use Rattle.std.specs.Option.{option_map};
ghost use Rattle.c_tree.specs.Bare.{expr_list};
ghost use Rattle.c_tree.specs.BareOf.{bare_expr, bare_exprs, bare_count, bare_clause, bare_clauses};
ghost use Rattle.c_tree.specs.Constants.{LiteralsAreHeld, EachLiteralIsHeld, DefinesAreHeld};
ghost use Rattle.c_semantics.specs.Meaning.Expressions as expressions;
ghost use Rattle.c_semantics.specs.Loops.Directives as directives;
ghost use Rattle.canonical_nests.specs.Held.{CountIsHeld, CountsAreHeld, ClauseIsHeld, ClausesAreHeld};
ghost use Rattle.canonical_nests.specs.FirstClauses as first;

use c_tree::tree::{Clause, ClauseKind, Count, Expr, Program};
use std::alloc::{AllocError, Global};

/// What gives the values of constant expressions.
pub trait Constants {
    ghost use Rattle.std.specs.Prelude.{List};
    ghost use Rattle.c_semantics.specs.Meaning.Expressions.{Define};

    /// The defines, of which the first of a name counts.
    ghost defines: { Self → List Define };

    /// Whether each define has a value that its type holds.
    ghost are_held: { Self → Type 0 };

    /// The value of a constant expression, and `None` exactly where it isn't one. Each literal has a value that its type
    /// holds.
    fn value(&self, e: &Expr) -> Option<i64>
        requires held { are_held self.now }
        requires literals { LiteralsAreHeld (bare_expr e.now) }
        ensures { result ≡ expressions.constant (defines self.now) (bare_expr e.now) };
}

impl Constants for Program {
    ghost use Rattle.c_tree.specs.BareOf.{bare_program};
    ghost use Rattle.c_tree.specs.Constants.{DefinesAreHeld};
    ghost use Rattle.canonical_nests.specs.Canonical.{program_defines};

    ghost defines = { λ program. program_defines (bare_program program) };

    ghost are_held = { λ program. DefinesAreHeld (bare_program program) };

    fn value(&self, e: &Expr) -> Option<i64> {
        crate::canonical::constant_of(self, e)
    }
}

/// A clause's argument, which is a constant expression; 0 where it is none.
pub fn number<C: Constants>(constants: &C, e: &Expr) -> u64
    requires held { C.are_held constants.now }
    requires literals { LiteralsAreHeld (bare_expr e.now) }
    ensures { result ≡ directives.number (C.defines constants.now) (bare_expr e.now) }
{
    match constants.value(e) {
        None => 0,
        Some(value) => value.unsigned_abs(),
    }
}

/// The arguments of a clause.
#[tactic(auto, using(crate::proofs::Numbers::numbers))]
pub fn numbers<C: Constants>(
    alloc: Global,
    constants: &C,
    es: &[Expr],
) -> Result<Vec<u64>, AllocError>
    requires held { C.are_held constants.now }
    requires literals { EachLiteralIsHeld (bare_exprs es.now) }
    ensures { IfOk result (λ values. values.items ≡ map (directives.number (C.defines constants.now)) (expr_list (bare_exprs es.now))) }
{
    let mut values = Vec::new(alloc);
    'each: for e in es {
        values.push(number(constants, e))?;
    }
    Ok(values)
}

fn count_number<C: Constants>(constants: &C, count: &Count) -> Option<u64>
    requires held { C.are_held constants.now }
    requires literals { CountIsHeld (bare_count count.now) }
    ensures { result ≡ directives.count_of (C.defines constants.now) (bare_count count.now) }
{
    match count {
        Count::Fill(_) => None,
        Count::Given(e) => Some(number(constants, e)),
    }
}

/// The items of a `counts` clause, `None` for `omp_fill`.
#[tactic(auto, using(crate::proofs::Numbers::numbers))]
pub fn count_numbers<C: Constants>(
    alloc: Global,
    constants: &C,
    counts: &[Count],
) -> Result<Vec<Option<u64>>, AllocError>
    requires held { C.are_held constants.now }
    requires literals { CountsAreHeld (map bare_count counts.now) }
    ensures { IfOk result (λ values. values.items ≡ map (directives.count_of (C.defines constants.now)) (map bare_count counts.now)) }
{
    let mut values = Vec::new(alloc);
    'each: for count in counts {
        values.push(count_number(constants, count))?;
    }
    Ok(values)
}

/// The sorts of clauses that say what a directive does.
#[derive(Clone, Copy, Debug, PartialEq, Eq)]
pub enum Sort {
    Sizes,
    Permutation,
    Counts,
    LoopRange,
    Full,
    Partial,
}

fn is_of(sort: Sort, clause: &Clause) -> bool
    ensures { result ≡ first.is_of sort (bare_clause clause.now) }
{
    match &clause.kind {
        ClauseKind::Sizes(_) => sort == Sort::Sizes,
        ClauseKind::Permutation(_) => sort == Sort::Permutation,
        ClauseKind::Counts(_) => sort == Sort::Counts,
        ClauseKind::LoopRange(_, _) => sort == Sort::LoopRange,
        ClauseKind::Full => sort == Sort::Full,
        ClauseKind::Partial(_) => sort == Sort::Partial,
        ClauseKind::Apply { .. } => false,
    }
}

/// The first clause of a sort.
#[tactic(auto, using(crate::proofs::Numbers::numbers))]
pub fn first_of<'a>(sort: Sort, clauses: &'a [Clause]) -> Option<&'a Clause>
    requires { ClausesAreHeld (bare_clauses clauses.now) }
    ensures first { option_map (λ clause. bare_clause clause.now) result ≡ first.first_of sort (bare_clauses clauses.now) }
    ensures held { IfSome result (λ clause. ClauseIsHeld (bare_clause clause.now)) }
{
    'each: for clause in clauses {
        if is_of(sort, clause) {
            return Some(clause);
        }
    }
    None
}
