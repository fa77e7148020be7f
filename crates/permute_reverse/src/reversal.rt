//! Reversed loops (OpenMP 6.0, 11.5, the reverse construct).

ghost use Rattle.std.specs.Prelude.{◌≡◌, IfOk, OnOk};
ghost use Rattle.c_tree.specs.Bare as b;
ghost use Rattle.c_tree.specs.BareOf.{bare_expr, bare_stmt};
ghost use Rattle.c_tree.specs.declared.tree.BinOp.TheVariants.{Sub};
ghost use Rattle.loop_normal.specs.Gens.{let_stmt};
ghost use Rattle.loop_normal.specs.GenOf.{bare_gen, bare_loop, bare_parts};
ghost use Rattle.loop_normal.specs.DrawnNames.{after_draw, drawn};
ghost use Rattle.loop_normal.specs.FromZero.{after_from_zero, from_zero};
ghost use Rattle.loop_normal.specs.Templates.{ll, on_first};
ghost use Rattle.permute_reverse.specs.Reversed as r;

use c_tree::boxed::Boxed;
use c_tree::copy::copy_expr;
use c_tree::name::Name;
use c_tree::tree::{BinOp, Expr, Stmt, Ty};
use loop_normal::fresh::Fresh;
use loop_normal::generated::{Gen, GenLoop, GenPart, PartList};
use loop_normal::pieces::{binary, declaration, literal, no_parts, part_before, read, split_first};
use loop_normal::ranges::{rebase, with_let};
use std::alloc::{AllocError, Global};

/// `long long name = end - 1LL - counter;`
fn mirrored(alloc: Global, name: Name, end: Expr, counter: &Name) -> Result<Stmt, AllocError>
    ensures { IfOk result (λ stmt. bare_stmt stmt ≡ let_stmt name (b.bin Sub (b.bin Sub (bare_expr end) (ll 1)) (b.read counter.now))) }
{
    let last = binary(alloc, BinOp::Sub, end, literal(1))?;
    let value = binary(alloc, BinOp::Sub, last, read(alloc, counter)?)?;
    Ok(declaration(Ty::Long, name, value))
}

/// The loop with its turns in reverse, where its counter runs from 0: `counter` is the new counter.
fn reversed(alloc: Global, looped: GenLoop, counter: Name) -> Result<GenLoop, AllocError>
    ensures { IfOk result (λ answer. bare_loop answer ≡ r.reversed counter (bare_loop looped)) }
{
    let GenLoop {
        lets,
        counter: old,
        from: _,
        to,
        inner,
    } = looped;
    let stmt = mirrored(alloc, old, copy_expr(alloc, &to)?, &counter)?;
    let inner = with_let(alloc, stmt, inner)?;
    Ok(GenLoop {
        lets,
        counter,
        from: literal(0),
        to,
        inner,
    })
}

fn reversed_first(alloc: Global, parts: PartList, counter: Name) -> Result<PartList, AllocError>
    ensures { IfOk result (λ answer. bare_parts answer ≡ on_first (r.reversed counter) (bare_parts parts)) }
{
    let (first, rest) = match split_first(parts) {
        None => return Ok(no_parts(alloc)),
        Some(split) => split,
    };
    match first {
        GenPart::Loop(looped) => {
            let looped = reversed(alloc, looped.into_inner(), counter)?;
            part_before(GenPart::Loop(Boxed::new(alloc, looped)?), rest)
        }
        GenPart::Plain(list) => part_before(GenPart::Plain(list), rest),
    }
}

/// The Gen with the loop of its first part reversed. The loop is brought to begin at 0 first; then one name is drawn, for
/// the new counter. Bodies are moved.
pub fn reverse(alloc: Global, nest: Gen, fresh: &mut Fresh) -> Result<Gen, AllocError>
    ensures template { IfOk result (λ gen. bare_gen gen ≡ r.reversed_gen (drawn (after_from_zero fresh.old (bare_gen nest))) (from_zero fresh.old (bare_gen nest))) }
    ensures drawn { OnOk result (fresh.new ≡ after_draw (after_from_zero fresh.old (bare_gen nest))) }
{
    let nest = rebase(alloc, nest, fresh)?;
    let counter = fresh.next()?;
    let Gen { front, parts } = nest;
    let parts = reversed_first(alloc, parts, counter)?;
    Ok(Gen { front, parts })
}
