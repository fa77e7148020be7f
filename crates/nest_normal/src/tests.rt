//! What no clause says: with ample memory each call has an answer, which shows as worked out by hand.

use crate::known_count::fix_count;
use crate::round::normal_round;
use c_tree::boxed::Boxed;
use c_tree::name::Name;
use c_tree::tree::{BinOp, Expr, Stmt, StmtList, Ty};
use loop_normal::fresh::Fresh;
use loop_normal::generated::{Gen, GenBody, GenLoop, GenPart};
use loop_normal::normal::{OwnedLoop, normal_leaf};
use loop_normal::pieces::{
    declaration, literal, no_parts, no_stmts, part_before, read, stmt_before,
};
use std::alloc::{AllocError, Global};
use std::test::Fail;

fn show_name(shown: &mut String, name: &Name) -> Result<(), AllocError> {
    for byte in name.bytes() {
        shown.push(char::from(*byte))?;
    }
    Ok(())
}

/// A number, a name, or a larger expression.
fn show_bound(shown: &mut String, bound: &Expr) -> Result<(), AllocError> {
    match bound {
        Expr::Num { value, .. } => write!(shown, "{value}"),
        Expr::Read { name, .. } => show_name(shown, name),
        _ => shown.push_str(".."),
    }
}

/// The names that a list declares, and its blocks.
fn show_list(shown: &mut String, list: &[Stmt]) -> Result<(), AllocError> {
    for stmt in list {
        match stmt {
            Stmt::Decl { name, .. } => show_name(shown, name)?,
            Stmt::Block { .. } => shown.push_str("{}")?,
            _ => shown.push('?')?,
        }
        shown.push(' ')?;
    }
    Ok(())
}

fn show_plain(shown: &mut String, parts: &[GenPart]) -> Result<(), AllocError> {
    for part in parts {
        match part {
            GenPart::Plain(list) => show_list(shown, list.as_slice())?,
            GenPart::Loop(_) => shown.push('?')?,
        }
    }
    Ok(())
}

/// The loops of a nest from the outermost on, and the list below them.
fn show_loop(shown: &mut String, looped: &GenLoop) -> Result<(), AllocError> {
    show_list(shown, looped.lets.as_slice())?;
    show_name(shown, &looped.counter)?;
    shown.push('=')?;
    show_bound(shown, &looped.from)?;
    shown.push('<')?;
    show_bound(shown, &looped.to)?;
    shown.push_str(": ")?;
    match &looped.inner {
        GenBody::Nest(next) => show_loop(shown, next.get()),
        GenBody::Seq(parts) => show_plain(shown, parts.as_slice()),
    }
}

/// The front, and the nests.
fn show(alloc: Global, code: &Gen) -> Result<String, AllocError> {
    let mut shown = String::new(alloc);
    show_list(&mut shown, code.front.as_slice())?;
    for part in code.parts.as_slice() {
        match part {
            GenPart::Loop(looped) => show_loop(&mut shown, looped.get())?,
            GenPart::Plain(list) => show_list(&mut shown, list.as_slice())?,
        }
    }
    Ok(shown)
}

/// `for (int var = 1; var < end; var += 2)`
fn head(alloc: Global, var: &[u8], end: &[u8]) -> Result<OwnedLoop, AllocError> {
    Ok(OwnedLoop {
        var: Name::new(alloc, var)?,
        ty: Ty::Int,
        lb: literal(1),
        ub: read(alloc, &Name::new(alloc, end)?)?,
        test: BinOp::Lt,
        step: 2,
    })
}

/// A loop over `i` round one over `j`.
fn two_loops(alloc: Global, fresh: &mut Fresh) -> Result<Gen, AllocError> {
    let inner = normal_leaf(alloc, head(alloc, b"j", b"m")?, no_stmts(alloc), fresh)?;
    normal_round(alloc, head(alloc, b"i", b"n")?, inner, fresh)
}

fn one_part(alloc: Global, looped: GenLoop) -> Result<Gen, AllocError> {
    let parts = part_before(GenPart::Loop(Boxed::new(alloc, looped)?), no_parts(alloc))?;
    Ok(Gen {
        front: no_stmts(alloc),
        parts,
    })
}

/// A loop from 3 to 8 with the counter `c`.
fn from_three(alloc: Global) -> Result<Gen, AllocError> {
    let looped = GenLoop {
        lets: no_stmts(alloc),
        counter: Name::new(alloc, b"c")?,
        from: literal(3),
        to: literal(8),
        inner: GenBody::Seq(no_parts(alloc)),
    };
    one_part(alloc, looped)
}

/// `long long a = 8; long long b = a; long long d = 0;`
fn declarations(alloc: Global) -> Result<StmtList, AllocError> {
    let a = Name::new(alloc, b"a")?;
    let value = read(alloc, &a)?;
    let d = declaration(Ty::Long, Name::new(alloc, b"d")?, literal(0));
    let last = stmt_before(d, no_stmts(alloc))?;
    let b = declaration(Ty::Long, Name::new(alloc, b"b")?, value);
    let lets = stmt_before(b, last)?;
    stmt_before(declaration(Ty::Long, a, literal(8)), lets)
}

/// A loop from 0 to `d` with the counter `e`.
fn to_the_last(alloc: Global) -> Result<GenLoop, AllocError> {
    Ok(GenLoop {
        lets: no_stmts(alloc),
        counter: Name::new(alloc, b"e")?,
        from: literal(0),
        to: read(alloc, &Name::new(alloc, b"d")?)?,
        inner: GenBody::Seq(no_parts(alloc)),
    })
}

/// Three declarations before a loop from 0 to `b` with the counter `c`, round one from 0 to `d` with the counter `e`.
fn behind_declarations(alloc: Global) -> Result<Gen, AllocError> {
    let inner = Boxed::new(alloc, to_the_last(alloc)?)?;
    let looped = GenLoop {
        lets: declarations(alloc)?,
        counter: Name::new(alloc, b"c")?,
        from: literal(0),
        to: read(alloc, &Name::new(alloc, b"b")?)?,
        inner: GenBody::Nest(inner),
    };
    one_part(alloc, looped)
}

#[test]
fn puts_loops_round_a_nest(rt: HostRuntime) -> Result<(), Fail> {
    let alloc = rt.alloc();
    let mut fresh = Fresh::beside(alloc, Vec::new(alloc))?;
    let nest = two_loops(alloc, &mut fresh)?;
    assert_eq!(rt;
        show(alloc, &nest)?.as_str(),
        "omp_t4 omp_t5 omp_t6 omp_t0 omp_t1 omp_t2 omp_t7=0<omp_t6: omp_t3=0<omp_t2: i j {} "
    );
    // Its variable is hidden by the one of the same name.
    let nest = normal_round(alloc, head(alloc, b"j", b"k")?, nest, &mut fresh)?;
    assert_eq!(rt;
        show(alloc, &nest)?.as_str(),
        "omp_t8 omp_t9 omp_t10 omp_t4 omp_t5 omp_t6 omp_t0 omp_t1 omp_t2 omp_t11=0<omp_t10: omp_t7=0<omp_t6: omp_t3=0<omp_t2: i j {} "
    );
    Ok(())
}

#[test]
fn fixes_the_count_of_a_loop(rt: HostRuntime) -> Result<(), Fail> {
    let alloc = rt.alloc();
    let mut fresh = Fresh::beside(alloc, Vec::new(alloc))?;
    let nest = two_loops(alloc, &mut fresh)?;
    let nest = fix_count(alloc, nest, 1, 5, &mut fresh)?;
    assert_eq!(rt;
        show(alloc, &nest)?.as_str(),
        "omp_t4 omp_t5 omp_t6 omp_t0 omp_t1 omp_t2 omp_t7=0<omp_t6: omp_t3=0<5: i j {} "
    );
    let nest = fix_count(alloc, from_three(alloc)?, 0, 5, &mut fresh)?;
    assert_eq!(rt; show(alloc, &nest)?.as_str(), "omp_t8=0<5: c ");
    Ok(())
}

#[test]
fn drops_declarations_that_nothing_reads_any_more(rt: HostRuntime) -> Result<(), Fail> {
    let alloc = rt.alloc();
    let mut fresh = Fresh::beside(alloc, Vec::new(alloc))?;
    let outer = fix_count(alloc, behind_declarations(alloc)?, 0, 8, &mut fresh)?;
    assert_eq!(rt; show(alloc, &outer)?.as_str(), "d c=0<8: e=0<d: ");
    let inner = fix_count(alloc, behind_declarations(alloc)?, 1, 0, &mut fresh)?;
    assert_eq!(rt; show(alloc, &inner)?.as_str(), "a b c=0<b: e=0<0: ");
    let both = fix_count(alloc, outer, 1, 0, &mut fresh)?;
    assert_eq!(rt; show(alloc, &both)?.as_str(), "c=0<8: e=0<0: ");
    Ok(())
}
