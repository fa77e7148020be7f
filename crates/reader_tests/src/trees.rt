//! What no clause says: each call once with ample memory, and numbers worked out by hand.

use c_tree::boxed::Boxed;
use c_tree::copy::copy_stmt;
use c_tree::height::height;
use c_tree::items::Items;
use c_tree::name::Name;
use c_tree::place::line_col;
use c_tree::tree::{
    ApplyItem, ApplyList, BinOp, Clause, ClauseKind, ClauseList, Count, CountList, Directive, Expr,
    ForHead, Item, Kind, Param, Port, Program, SetOp, Span, Stmt, StmtList, Target, Ty, UnOp,
};
use std::alloc::{AllocError, Global};
use std::collections::HashMap;
use std::test::Fail;

const SPAN: Span = Span { start: 3, end: 7 };

fn one<T: Drop>(alloc: Global, item: T) -> Result<Items<T>, AllocError> {
    let mut list = Items::new(alloc);
    list.push(item)?;
    Ok(list)
}

fn x(alloc: Global) -> Result<Name, AllocError> {
    Name::new(alloc, b"x")
}

fn literal(value: u64) -> Expr {
    Expr::Num {
        value,
        ty: Ty::Int,
        span: SPAN,
    }
}

// x + 1
fn sum(alloc: Global) -> Result<Expr, AllocError> {
    let read = Expr::Read {
        name: x(alloc)?,
        span: SPAN,
    };
    Ok(Expr::Bin {
        op: BinOp::Add,
        left: Boxed::new(alloc, read)?,
        right: Boxed::new(alloc, literal(1))?,
        span: SPAN,
    })
}

// x[x + 1 ? (long long)2 : -3]
fn element(alloc: Global) -> Result<Expr, AllocError> {
    let cast = Expr::Cast {
        ty: Ty::Long,
        of: Boxed::new(alloc, literal(2))?,
        span: SPAN,
    };
    let negative = Expr::Un {
        op: UnOp::Neg,
        of: Boxed::new(alloc, literal(3))?,
        span: SPAN,
    };
    let choice = Expr::Cond {
        test: Boxed::new(alloc, sum(alloc)?)?,
        yes: Boxed::new(alloc, cast)?,
        no: Boxed::new(alloc, negative)?,
        span: SPAN,
    };
    Ok(Expr::Item {
        name: x(alloc)?,
        subs: one(alloc, choice)?,
        span: SPAN,
    })
}

// x[0]
fn target(alloc: Global) -> Result<Target, AllocError> {
    Ok(Target {
        name: x(alloc)?,
        subs: one(alloc, literal(0))?,
        span: SPAN,
    })
}

// int x = x + 1;
fn declaration(alloc: Global) -> Result<Stmt, AllocError> {
    Ok(Stmt::Decl {
        ty: Ty::Int,
        name: x(alloc)?,
        name_span: SPAN,
        init: Some(sum(alloc)?),
        span: SPAN,
    })
}

// x[0]--;
fn step(alloc: Global) -> Result<Stmt, AllocError> {
    Ok(Stmt::Step {
        target: target(alloc)?,
        up: false,
        span: SPAN,
    })
}

// for (int x = x + 1; x + 1; x[0]--) ;
fn for_loop(alloc: Global) -> Result<Stmt, AllocError> {
    let head = ForHead {
        init: Some(Boxed::new(alloc, declaration(alloc)?)?),
        init_at: 4,
        test: Some(sum(alloc)?),
        test_at: 5,
        step: Some(Boxed::new(alloc, step(alloc)?)?),
        step_at: 6,
    };
    Ok(Stmt::For {
        head,
        body: one(alloc, Stmt::Empty { span: SPAN })?,
        span: SPAN,
    })
}

fn with_clause(alloc: Global, kind: ClauseKind) -> Result<Directive, AllocError> {
    Ok(Directive {
        kind: Kind::Tile,
        clauses: one(alloc, Clause { kind, span: SPAN })?,
        span: SPAN,
    })
}

// apply(x(1): nothing, tile partial(2))
fn apply(alloc: Global) -> Result<ClauseKind, AllocError> {
    let mut items = ApplyList::new(alloc);
    items.push(ApplyItem::Nothing(SPAN))?;
    let partial = ClauseKind::Partial(Some(literal(2)));
    items.push(ApplyItem::Apply(with_clause(alloc, partial)?))?;
    Ok(ClauseKind::Apply {
        modifier: Some(x(alloc)?),
        indices: one(alloc, literal(1))?,
        items,
    })
}

fn clause_kinds(alloc: Global) -> Result<Items<ClauseKind>, AllocError> {
    let mut counts = CountList::new(alloc);
    counts.push(Count::Fill(SPAN))?;
    counts.push(Count::Given(literal(2)))?;
    let mut kinds = Items::new(alloc);
    kinds.push(ClauseKind::Sizes(one(alloc, literal(4))?))?;
    kinds.push(ClauseKind::Permutation(one(alloc, literal(1))?))?;
    kinds.push(ClauseKind::Counts(counts))?;
    kinds.push(ClauseKind::LoopRange(literal(1), literal(2)))?;
    kinds.push(ClauseKind::Full)?;
    kinds.push(ClauseKind::Partial(None))?;
    kinds.push(apply(alloc)?)?;
    Ok(kinds)
}

fn directive(alloc: Global) -> Result<Directive, AllocError> {
    let mut clauses = ClauseList::new(alloc);
    for kind in clause_kinds(alloc)?.into_items() {
        clauses.push(Clause { kind, span: SPAN })?;
    }
    Ok(Directive {
        kind: Kind::Split,
        clauses,
        span: SPAN,
    })
}

fn simple_statements(alloc: Global) -> Result<StmtList, AllocError> {
    let mut list = StmtList::new(alloc);
    list.push(declaration(alloc)?)?;
    list.push(Stmt::Set {
        target: target(alloc)?,
        op: SetOp::Mul,
        value: element(alloc)?,
        span: SPAN,
    })?;
    list.push(step(alloc)?)?;
    list.push(Stmt::Print {
        value: element(alloc)?,
        span: SPAN,
    })?;
    list.push(Stmt::Input {
        target: target(alloc)?,
        input_at: 6,
        span: SPAN,
    })?;
    list.push(Stmt::Break { span: SPAN })?;
    list.push(Stmt::Continue { span: SPAN })?;
    list.push(Stmt::Empty { span: SPAN })?;
    list.push(Stmt::Call {
        name: x(alloc)?,
        name_span: SPAN,
        args: one(alloc, literal(1))?,
        span: SPAN,
    })?;
    Ok(list)
}

fn compound_statements(alloc: Global) -> Result<StmtList, AllocError> {
    let mut list = StmtList::new(alloc);
    list.push(Stmt::If {
        test: sum(alloc)?,
        yes: simple_statements(alloc)?,
        no: Some(simple_statements(alloc)?),
        span: SPAN,
    })?;
    list.push(Stmt::While {
        test: sum(alloc)?,
        body: simple_statements(alloc)?,
        span: SPAN,
    })?;
    list.push(Stmt::Do {
        body: simple_statements(alloc)?,
        test: sum(alloc)?,
        span: SPAN,
    })?;
    list.push(for_loop(alloc)?)?;
    list.push(Stmt::Block {
        body: simple_statements(alloc)?,
        span: SPAN,
    })?;
    list.push(Stmt::Omp {
        directive: directive(alloc)?,
        body: one(alloc, for_loop(alloc)?)?,
        span: SPAN,
    })?;
    Ok(list)
}

fn shown(alloc: Global, stmt: &Stmt) -> Result<String, Fail> {
    Ok(format!(in alloc; "{stmt:?}")?)
}

fn copies_show_the_same(alloc: Global, stmts: &[Stmt]) -> Result<bool, Fail> {
    for stmt in stmts {
        let copy = copy_stmt(alloc, stmt)?;
        if shown(alloc, &copy)? != shown(alloc, stmt)? {
            return Ok(false);
        }
    }
    Ok(true)
}

#[test]
fn a_copy_of_each_kind_of_statement_shows_the_same(rt: HostRuntime) -> Result<(), Fail> {
    let alloc = rt.alloc();
    let simple = simple_statements(alloc)?;
    let compound = compound_statements(alloc)?;
    assert!(rt; copies_show_the_same(alloc, simple.as_slice())?);
    assert!(rt; copies_show_the_same(alloc, compound.as_slice())?);
    Ok(())
}

fn height_of(alloc: Global, item: Item) -> Result<u64, AllocError> {
    let program = Program {
        items: one(alloc, item)?,
    };
    Ok(height(&program))
}

// static void x(int x) { x[0]--; }
fn function(alloc: Global) -> Result<Item, AllocError> {
    let param = Param {
        ty: Ty::Int,
        name: x(alloc)?,
        name_span: SPAN,
    };
    Ok(Item::Function {
        name: x(alloc)?,
        name_span: SPAN,
        params: one(alloc, param)?,
        body: one(alloc, step(alloc)?)?,
        span: SPAN,
    })
}

// #define x -3LL
fn define(alloc: Global) -> Result<Item, AllocError> {
    Ok(Item::Define {
        name: x(alloc)?,
        negative: true,
        value: 3,
        ty: Ty::Long,
        name_span: SPAN,
    })
}

// int x[x + 1];
fn array(alloc: Global) -> Result<Item, AllocError> {
    Ok(Item::Global {
        ty: Ty::Int,
        name: x(alloc)?,
        name_span: SPAN,
        dims: one(alloc, sum(alloc)?)?,
        init: None,
    })
}

fn main_of(body: StmtList) -> Item {
    Item::Main { body, span: SPAN }
}

#[test]
fn heights_are_those_worked_out_by_hand(rt: HostRuntime) -> Result<(), Fail> {
    let alloc = rt.alloc();
    let print = Item::Extern {
        port: Port::Print,
        span: SPAN,
    };
    let tiled = Stmt::Omp {
        directive: with_clause(alloc, ClauseKind::Sizes(one(alloc, literal(4))?))?,
        body: one(alloc, for_loop(alloc)?)?,
        span: SPAN,
    };
    let cases = [
        (define(alloc)?, 0),
        (print, 0),
        (array(alloc)?, 3),
        (function(alloc)?, 3),
        (main_of(StmtList::new(alloc)), 1),
        (main_of(one(alloc, tiled)?), 6),
    ];
    for (item, wanted) in cases {
        assert_eq!(rt; height_of(alloc, item)?, wanted);
    }
    Ok(())
}

#[test]
fn a_list_keeps_its_items_in_order(rt: HostRuntime) -> Result<(), Fail> {
    let alloc = rt.alloc();
    let mut list: Items<u64> = Items::new(alloc);
    assert!(rt; list.is_empty());
    for item in [5, 3, 8] {
        list.push(item)?;
    }
    assert_eq!(rt; list.len(), 3);
    assert_eq!(rt; list.get(1), Some(&3));
    assert_eq!(rt; list.get(3), None);
    assert_eq!(rt; list.as_slice(), [5, 3, 8].as_slice());
    let again = Items::from_items(list.into_items());
    assert_eq!(rt; again.len(), 3);
    Ok(())
}

#[test]
fn a_box_gives_its_value_back(rt: HostRuntime) -> Result<(), Fail> {
    let boxed = Boxed::new(rt.alloc(), 7)?;
    assert_eq!(rt; *boxed.get(), 7);
    assert_eq!(rt; boxed.into_inner(), 7);
    Ok(())
}

#[test]
fn names_are_told_by_their_bytes(rt: HostRuntime) -> Result<(), Fail> {
    let alloc = rt.alloc();
    let row = Name::new(alloc, b"row")?;
    let copy = row.copy(alloc)?;
    let rows = Name::new(alloc, b"rows")?;
    assert_eq!(rt; row.bytes(), b"row".as_slice());
    assert!(rt; row.is(b"row") && !row.is(b"ro"));
    assert!(rt; row == copy && row != rows);
    let mut lines: HashMap<Name, u64> = HashMap::new(alloc);
    lines.insert(row, 4)?;
    assert_eq!(rt; lines.get(&copy), Some(&4));
    assert_eq!(rt; lines.get(&rows), None);
    Ok(())
}

#[test]
fn places_are_counted_in_lines_and_bytes(rt: HostRuntime) {
    let text = b"ab\r\n\nc";
    for (place, wanted) in [
        (0, (1, 1)),
        (2, (1, 3)),
        (3, (1, 4)),
        (4, (2, 1)),
        (5, (3, 1)),
        (6, (3, 2)),
    ] {
        assert_eq!(rt; line_col(text, place), wanted, "at {place}");
    }
    assert_eq!(rt; line_col(b"", 0), (1, 1));
    assert_eq!(rt; line_col(b"\n", 1), (2, 1));
}
