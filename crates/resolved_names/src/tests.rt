//! What no clause says: a program that declares its names has a resolved one, with ample memory, and another has none.

use crate::resolve::{Unresolved, resolve};
use crate::tree::{Expr, Item, Stmt};
use c_tree::items::Items;
use c_tree::name::Name;
use c_tree::tree as named;
use c_tree::tree::{Span, Ty};
use std::alloc::{AllocError, Global};
use std::test::Fail;

const SPAN: Span = Span { start: 3, end: 7 };

fn one<T: Drop>(alloc: Global, item: T) -> Result<Items<T>, AllocError> {
    let mut list = Items::new(alloc);
    list.push(item)?;
    Ok(list)
}

// int a;
fn variable(alloc: Global) -> Result<named::Item, AllocError> {
    Ok(named::Item::Global {
        ty: Ty::Int,
        name: Name::new(alloc, b"a")?,
        name_span: SPAN,
        dims: Items::new(alloc),
        init: None,
    })
}

// void main(void) { int b = a; }
fn main_item(alloc: Global) -> Result<named::Item, AllocError> {
    let read = named::Expr::Read {
        name: Name::new(alloc, b"a")?,
        span: SPAN,
    };
    let declaration = named::Stmt::Decl {
        ty: Ty::Int,
        name: Name::new(alloc, b"b")?,
        name_span: SPAN,
        init: Some(read),
        span: SPAN,
    };
    Ok(named::Item::Main {
        body: one(alloc, declaration)?,
        span: SPAN,
    })
}

// The number of a declaration in `main`, and that of its initial value.
fn numbers(item: Option<&Item>) -> Option<(usize, usize)> {
    match item {
        Some(Item::Main { body }) => match body.get(0) {
            Some(
                Stmt::Decl {
                    name,
                    init: Some(Expr::Read { name: read }),
                    ..
                },
            ) => Some((*name, *read)),
            _ => None,
        },
        _ => None,
    }
}

#[test]
fn numbers_names_in_the_order_of_their_declarations(rt: HostRuntime) -> Result<(), Fail> {
    let alloc = rt.alloc();
    let mut items = one(alloc, variable(alloc)?)?;
    items.push(main_item(alloc)?)?;
    let resolved = resolve(alloc, items.as_slice()).map_err(|_| "no memory")?;
    assert_eq!(rt; numbers(resolved.get(1)), Some((1, 0)));
    Ok(())
}

#[test]
fn has_no_number_for_a_name_that_is_not_declared(rt: HostRuntime) -> Result<(), Fail> {
    let alloc = rt.alloc();
    let items = one(alloc, main_item(alloc)?)?;
    assert_eq!(rt; resolve(alloc, items.as_slice()).err(), Some(Unresolved));
    Ok(())
}
