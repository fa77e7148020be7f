//! A loop of a nest with its known count as its end.

ghost use Rattle.std.specs.Prelude.{◌≡◌, ◌⊎◌, IfOk, OnErr, OnOk};
ghost use Rattle.loop_normal.specs.GenOf.{bare_body, bare_gen, bare_loop, bare_parts};
ghost use Rattle.loop_normal.specs.Templates.{fixed, on_first};
ghost use Rattle.nest_normal.specs.NestTexts as t;

use crate::unread::without_unread;
use c_tree::boxed::Boxed;
use c_tree::name::Name;
use c_tree::tree::{BinOp, Ty};
use loop_normal::fresh::Fresh;
use loop_normal::generated::{Gen, GenBody, GenLoop, GenPart, PartList};
use loop_normal::pieces::{binary, declaration, literal, no_parts, part_before, read, split_first};
use loop_normal::ranges::{is_zero_literal, with_let};
use std::alloc::{AllocError, Global};

/// Whether no loop is that many loops down, or one that begins at the literal 0.
#[tactic(auto, using(crate::proofs::Depths::depths))]
#[cycle(zero_at)]
fn zero_at(looped: &GenLoop, depth: usize) -> bool
    ensures { result ≡ t.zero_at depth (bare_loop looped.now) }
{
    if depth == 0 {
        return is_zero_literal(&looped.from);
    }
    zero_below(&looped.inner, depth - 1)
}

#[cycle(zero_at)]
fn zero_below(inner: &GenBody, depth: usize) -> bool
    ensures { result ≡ t.zero_below depth (bare_body inner.now) }
{
    match inner {
        GenBody::Nest(next) => zero_at(next.get(), depth),
        GenBody::Seq(_) => true,
    }
}

fn zero_in(parts: &[GenPart], depth: usize) -> bool
    ensures { result ≡ t.zero_in depth (bare_parts parts.now) }
{
    match parts {
        [] => true,
        [first, ..] => match first {
            GenPart::Loop(looped) => zero_at(looped.get(), depth),
            GenPart::Plain(_) => true,
        },
    }
}

/// The loop from 0 to the count by a new counter; the old one is what it began at and the new one.
fn recounted(
    alloc: Global,
    looped: GenLoop,
    count: u64,
    counter: Name,
) -> Result<GenLoop, AllocError>
    ensures { IfOk result (λ answer. bare_loop answer ≡ fixed count counter (bare_loop looped)) }
{
    let GenLoop {
        lets,
        counter: old,
        from,
        to: _,
        inner,
    } = looped;
    let value = binary(alloc, BinOp::Add, from, read(alloc, &counter)?)?;
    let inner = with_let(alloc, declaration(Ty::Long, old, value), inner)?;
    Ok(GenLoop {
        lets,
        counter,
        from: literal(0),
        to: literal(count),
        inner,
    })
}

fn counted_to(
    alloc: Global,
    looped: GenLoop,
    count: u64,
    counter: Option<Name>,
) -> Result<GenLoop, AllocError>
    ensures { IfOk result (λ answer. bare_loop answer ≡ t.counted_to count counter (bare_loop looped)) }
{
    match counter {
        Some(counter) => recounted(alloc, looped, count, counter),
        None => {
            let GenLoop {
                lets,
                counter,
                from,
                to: _,
                inner,
            } = looped;
            Ok(GenLoop {
                lets,
                counter,
                from,
                to: literal(count),
                inner,
            })
        }
    }
}

/// The loop that many loops down runs to the count.
#[tactic(auto, using(crate::proofs::Depths::depths))]
#[cycle(counted_at)]
fn counted_at(
    alloc: Global,
    looped: GenLoop,
    depth: usize,
    count: u64,
    counter: Option<Name>,
) -> Result<GenLoop, AllocError>
    ensures { IfOk result (λ answer. bare_loop answer ≡ t.at_loop depth (t.counted_to count counter) (bare_loop looped)) }
{
    if depth == 0 {
        return counted_to(alloc, looped, count, counter);
    }
    let GenLoop {
        lets,
        counter: own,
        from,
        to,
        inner,
    } = looped;
    let inner = counted_below(alloc, inner, depth - 1, count, counter)?;
    Ok(GenLoop {
        lets,
        counter: own,
        from,
        to,
        inner,
    })
}

#[cycle(counted_at)]
fn counted_below(
    alloc: Global,
    inner: GenBody,
    depth: usize,
    count: u64,
    counter: Option<Name>,
) -> Result<GenBody, AllocError>
    ensures { IfOk result (λ answer. bare_body answer ≡ t.at_below depth (t.counted_to count counter) (bare_body inner)) }
{
    match inner {
        GenBody::Nest(next) => {
            let next = counted_at(alloc, next.into_inner(), depth, count, counter)?;
            Ok(GenBody::Nest(Boxed::new(alloc, next)?))
        }
        GenBody::Seq(parts) => Ok(GenBody::Seq(parts)),
    }
}

/// The same, without the declarations that nothing reads any more.
fn known_at(
    alloc: Global,
    looped: GenLoop,
    depth: usize,
    count: u64,
    counter: Option<Name>,
) -> Result<GenLoop, AllocError>
    ensures { IfOk result (λ answer. bare_loop answer ≡ t.known_at depth count counter (bare_loop looped)) }
{
    let looped = counted_at(alloc, looped, depth, count, counter)?;
    without_unread(alloc, looped)
}

fn first_known(
    alloc: Global,
    parts: PartList,
    depth: usize,
    count: u64,
    counter: Option<Name>,
) -> Result<PartList, AllocError>
    ensures { IfOk result (λ answer. bare_parts answer ≡ on_first (t.known_at depth count counter) (bare_parts parts)) }
{
    let (first, rest) = match split_first(parts) {
        None => return Ok(no_parts(alloc)),
        Some(split) => split,
    };
    match first {
        GenPart::Loop(looped) => {
            let looped = known_at(alloc, looped.into_inner(), depth, count, counter)?;
            part_before(GenPart::Loop(Boxed::new(alloc, looped)?), rest)
        }
        GenPart::Plain(list) => part_before(GenPart::Plain(list), rest),
    }
}

/// A name for a new counter, where the loop that many loops down doesn't begin at the literal 0.
fn new_counter(nest: &Gen, depth: usize, fresh: &mut Fresh) -> Result<Option<Name>, AllocError>
    ensures name { IfOk result (λ name. name ≡ t.new_counter fresh.old depth (bare_gen nest.now)) }
    ensures drawn { OnOk result (fresh.new ≡ t.after_counter fresh.old depth (bare_gen nest.now)) }
    ensures unchanged { OnErr result (fresh.new ≡ fresh.old) }
{
    if zero_in(nest.parts.as_slice(), depth) {
        return Ok(None);
    }
    Ok(Some(fresh.next()?))
}

/// The nest with a loop of it running to the literal `count`: the loop that stands within `depth` loops of the nest (OpenMP
/// 6.0, 6.4.1: the logical iterations of a loop are counted from 0). Where that loop begins at the literal 0, its end is
/// replaced. Else one name is drawn, for a new counter from 0, and below it the old counter is declared, as what it began at
/// and the new one. Declarations before loops of the nest that nothing reads any more are dropped. Bodies are moved.
///
/// The answer does the same where the nest is the first part, and the loop always has that many turns; where there is no
/// such loop, no end is replaced.
///
/// At want of memory the nest is dropped. Then either no name was drawn, or just the one for the new counter.
pub fn fix_count(
    alloc: Global,
    nest: Gen,
    depth: usize,
    count: u64,
    fresh: &mut Fresh,
) -> Result<Gen, AllocError>
    ensures template { IfOk result (λ gen. bare_gen gen ≡ t.with_count depth count (t.new_counter fresh.old depth (bare_gen nest)) (bare_gen nest)) }
    ensures drawn { OnOk result (fresh.new ≡ t.after_counter fresh.old depth (bare_gen nest)) }
    ensures at_want { OnErr result ((fresh.new ≡ fresh.old) ⊎ (fresh.new ≡ t.after_counter fresh.old depth (bare_gen nest))) }
{
    let counter = new_counter(&nest, depth, fresh)?;
    let Gen { front, parts } = nest;
    let parts = first_known(alloc, parts, depth, count, counter)?;
    Ok(Gen { front, parts })
}
