//! Prints directives.

ghost use Rattle.std.specs.Prelude.{◌≡◌, ◌++◌, map, OnOk};
ghost use Rattle.std.specs.Option.{option_map};
ghost use Rattle.c_tree.specs.BareOf.{bare_expr, bare_exprs, bare_count, bare_directive, bare_clause, bare_clauses, bare_item, bare_items};
ghost use Rattle.c_tree.specs.Bare.{partial};
ghost use Rattle.c_printer.specs.Layout.{text, parens};
ghost use Rattle.c_printer.specs.Expressions.{listed};
ghost use Rattle.c_printer.specs.Directives.{kind_word, count_form, further_counts, listed_counts, indices, modifier_form, clause_form, clauses_form, directive_form, item_form, items_after, listed_items};

use crate::expressions::{print_expr, print_further, print_listed};
use crate::tokens::push_separator;
use c_tree::name::Name;
use c_tree::tree::{ApplyItem, Clause, ClauseKind, Count, Directive, Expr, Kind};
use std::alloc::AllocError;

fn kind_word(kind: Kind) -> &'static [u8]
    ensures { result.now ≡ kind_word kind }
{
    match kind {
        Kind::Tile => b"tile",
        Kind::Unroll => b"unroll",
        Kind::Interchange => b"interchange",
        Kind::Reverse => b"reverse",
        Kind::Split => b"split",
        Kind::Fuse => b"fuse",
    }
}

/// Prints an element of a `counts` clause.
fn print_count(out: &mut Vec<u8>, element: &Count) -> Result<(), AllocError>
    ensures { OnOk result (out.new.items ≡ out.old.items ++ text (count_form (bare_count element.now))) }
{
    match element {
        Count::Fill(_) => out.extend_from_slice(b"omp_fill"),
        Count::Given(e) => print_expr(out, e),
    }
}

fn print_further_counts(out: &mut Vec<u8>, counts: &[Count]) -> Result<(), AllocError>
    ensures { OnOk result (out.new.items ≡ out.old.items ++ text (further_counts (map bare_count counts.now))) }
{
    'each: for element in counts {
        out.extend_from_slice(b", ")?;
        print_count(out, element)?;
    }
    Ok(())
}

fn print_counts(out: &mut Vec<u8>, counts: &[Count]) -> Result<(), AllocError>
    ensures { OnOk result (out.new.items ≡ out.old.items ++ text (listed_counts (map bare_count counts.now))) }
{
    match counts {
        [] => Ok(()),
        [first, rest @ ..] => {
            print_count(out, first)?;
            print_further_counts(out, rest)
        }
    }
}

/// Prints the indices of an `apply`, in parentheses, if there are any.
fn print_indices(out: &mut Vec<u8>, es: &[Expr]) -> Result<(), AllocError>
    ensures { OnOk result (out.new.items ≡ out.old.items ++ text (indices (bare_exprs es.now))) }
{
    match es {
        [] => Ok(()),
        [first, rest @ ..] => {
            out.extend_from_slice(b"(")?;
            print_expr(out, first)?;
            print_further(out, rest)?;
            out.extend_from_slice(b")")
        }
    }
}

fn print_in_parentheses(out: &mut Vec<u8>, es: &[Expr]) -> Result<(), AllocError>
    ensures { OnOk result (out.new.items ≡ out.old.items ++ text (parens (listed (bare_exprs es.now)))) }
{
    out.extend_from_slice(b"(")?;
    print_listed(out, es)?;
    out.extend_from_slice(b")")
}

/// Prints which loops the items of an `apply` are for.
fn print_modifier(out: &mut Vec<u8>, modifier: &Option<Name>, es: &[Expr]) -> Result<(), AllocError>
    ensures { OnOk result (out.new.items ≡ out.old.items ++ text (modifier_form modifier.now (bare_exprs es.now))) }
{
    match modifier {
        None => Ok(()),
        Some(name) => {
            out.extend_from_slice(name.bytes())?;
            print_indices(out, es)?;
            out.extend_from_slice(b": ")
        }
    }
}

/// Prints a `partial` clause, with its factor if it has one.
fn print_partial(out: &mut Vec<u8>, factor: &Option<Expr>) -> Result<(), AllocError>
    ensures { OnOk result (out.new.items ≡ out.old.items ++ text (clause_form (partial (option_map bare_expr factor.now)))) }
{
    match factor {
        None => out.extend_from_slice(b"partial"),
        Some(e) => {
            out.extend_from_slice(b"partial(")?;
            print_expr(out, e)?;
            out.extend_from_slice(b")")
        }
    }
}

/// Prints a directive from its name on.
#[cycle(directives)]
pub fn print_directive(out: &mut Vec<u8>, directive: &Directive) -> Result<(), AllocError>
    ensures { OnOk result (out.new.items ≡ out.old.items ++ text (directive_form (bare_directive directive.now))) }
{
    out.extend_from_slice(kind_word(directive.kind))?;
    print_clauses(out, directive.clauses.as_slice())
}

/// Prints clauses, each after a space.
#[cycle(directives)]
fn print_clauses(out: &mut Vec<u8>, clauses: &[Clause]) -> Result<(), AllocError>
    ensures { OnOk result (out.new.items ≡ out.old.items ++ text (clauses_form (bare_clauses clauses.now))) }
{
    'each: for element in clauses {
        out.extend_from_slice(b" ")?;
        print_clause(out, element)?;
    }
    Ok(())
}

#[cycle(directives)]
fn print_clause(out: &mut Vec<u8>, element: &Clause) -> Result<(), AllocError>
    ensures { OnOk result (out.new.items ≡ out.old.items ++ text (clause_form (bare_clause element.now))) }
{
    match &element.kind {
        ClauseKind::Sizes(es) => {
            out.extend_from_slice(b"sizes")?;
            print_in_parentheses(out, es.as_slice())
        }
        ClauseKind::Permutation(es) => {
            out.extend_from_slice(b"permutation")?;
            print_in_parentheses(out, es.as_slice())
        }
        ClauseKind::Counts(counts) => {
            out.extend_from_slice(b"counts(")?;
            print_counts(out, counts.as_slice())?;
            out.extend_from_slice(b")")
        }
        ClauseKind::LoopRange(first, number) => {
            out.extend_from_slice(b"looprange(")?;
            print_expr(out, first)?;
            out.extend_from_slice(b", ")?;
            print_expr(out, number)?;
            out.extend_from_slice(b")")
        }
        ClauseKind::Full => out.extend_from_slice(b"full"),
        ClauseKind::Partial(factor) => print_partial(out, factor),
        ClauseKind::Apply {
            modifier,
            indices,
            items,
        } => {
            out.extend_from_slice(b"apply(")?;
            print_modifier(out, modifier, indices.as_slice())?;
            print_items(out, items.as_slice())?;
            out.extend_from_slice(b")")
        }
    }
}

#[cycle(directives)]
fn print_item(out: &mut Vec<u8>, item: &ApplyItem) -> Result<(), AllocError>
    ensures { OnOk result (out.new.items ≡ out.old.items ++ text (item_form (bare_item item.now))) }
{
    match item {
        ApplyItem::Nothing(_) => out.extend_from_slice(b"nothing"),
        ApplyItem::Apply(directive) => print_directive(out, directive),
    }
}

/// Prints the items of an `apply`, with commas between them.
#[cycle(directives)]
fn print_items(out: &mut Vec<u8>, items: &[ApplyItem]) -> Result<(), AllocError>
    ensures { OnOk result (out.new.items ≡ out.old.items ++ text (listed_items (bare_items items.now))) }
{
    let mut first = true;
    'each: for item in items {
        push_separator(out, first)?;
        print_item(out, item)?;
        first = false;
    }
    Ok(())
}
