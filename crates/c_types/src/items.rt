//! The breaches in the items of a file, and what is known after them.

ghost use Rattle.std.specs.Prelude.{◌≡◌, ◌≤◌, ◌+◌, IfOk, OnOk, map, min, length, true, false, if◌then◌else◌};
ghost use Rattle.std.specs.Option.{option_map};
ghost use Rattle.c_tree.specs.BareOf.{bare_expr, bare_exprs, bare_top};
ghost use Rattle.c_tree.specs.Constants.{LiteralsAreHeld, EachLiteralIsHeld, IsHeld};
ghost use Rattle.c_tree.specs.PlacedOf.{placed_expr, placed_exprs, placed_param, placed_stmts, placed_top};
ghost use Rattle.c_tree.specs.WellFormed.{WellFormedTop, WellFormedExprs, WellFormedOption};
ghost use Rattle.c_tree.specs.NameRules.Scopes as scopes;
ghost use Rattle.c_tree.specs.NameRules.DeclaredNames as names;
ghost use Rattle.c_tree.specs.NameRules.CallDepth as depths;
ghost use Rattle.c_tree.specs.NameRules.Breaches as breaches;
ghost use Rattle.c_tree.specs.NameRules.Programs as programs;
ghost use Rattle.c_tree.specs.NameRules.BreachSets.{least, lesser};

use crate::expressions::{count_of, expr_breach};
use crate::known::Table;
use crate::least::{breach_if, lesser};
use crate::statements::{Seen, Within, declare_breach, list_seen, stmts_seen};
use c_tree::arithmetic::holds;
use c_tree::constant::{TypedValue, constant_over, defined_as};
use c_tree::name::Name;
use c_tree::name_rule::{Breach, Entity, NameRule};
use c_tree::tree::{Expr, Item, Param, Stmt, Ty};
use std::alloc::AllocError;

const MOST_ELEMENTS: u64 = 0x100_0000;

const MOST_DIMS: usize = 8;

// ---- arrays

fn in_bounds(z: i64) -> u64
    ensures value { result ≡ programs.in_bounds z }
    ensures most { result ≤ programs.most_elements }
{
    if 1 <= z && z <= 0x100_0000 {
        z as u64
    } else {
        0
    }
}

/// The number that a dimension asks for, and 0 where it breaks N5.
#[tactic(auto, using(crate::proofs::Bares::bares))]
fn dimension(known: &Table, index: usize, e: &Expr) -> u64
    requires { LiteralsAreHeld (bare_expr e.now) }
    ensures value { result ≡ programs.dimension known.now.scope index (placed_expr e.now) }
    ensures most { result ≤ programs.most_elements }
{
    if index == MOST_DIMS {
        return 0;
    }
    in_bounds(constant_over(known, e).unwrap_or(0))
}

/// What was found in the dimensions of an array: the least breach, and the product, where one more than the limit stands
/// for any greater number.
#[derive(Clone, Copy)]
struct Dims {
    breach: Option<Breach>,
    product: u64,
}

#[tactic(auto, using(crate::proofs::Dimensions::dimensions))]
fn dims_seen(known: &Table, dims: &[Expr]) -> Dims
    requires { EachLiteralIsHeld (bare_exprs dims.now) }
    ensures breach { result.breach ≡ least (programs.dims_breaches known.now.scope 0 (placed_exprs dims.now)) }
    ensures product { result.product ≡ min (programs.dims_product known.now.scope 0 (placed_exprs dims.now)) (programs.most_elements + 1) }
{
    let mut breach = None;
    let mut product = 1;
    'each: for (index, e) in dims.iter().enumerate() {
        let asked = dimension(known, index, e);
        let wrong = breach_if(asked == 0, NameRule::N5, e.span().start);
        breach = lesser(breach, lesser(expr_breach(known, e), wrong));
        product = (product * asked).min(MOST_ELEMENTS + 1);
    }
    Dims { breach, product }
}

/// The elements of all arrays with those of this one.
#[tactic(auto, using(crate::proofs::Dimensions::sums))]
fn elements_with(known: &Table, dims: &[Expr], product: u64) -> u64
    requires { product ≡ min (programs.dims_product known.now.scope 0 (placed_exprs dims.now)) (programs.most_elements + 1) }
    ensures value { result ≡ min (known.now.elements + programs.elements_of known.now.scope (placed_exprs dims.now)) (programs.most_elements + 1) }
    ensures most { result ≤ programs.most_elements + 1 }
{
    if dims.len() == 0 {
        known.elements()
    } else {
        (known.elements() + product).min(MOST_ELEMENTS + 1)
    }
}

/// The breach where the arrays have too many elements (N8).
#[tactic(auto, using(crate::proofs::Dimensions::sums))]
fn size_breach(elements: u64, at: u64, dims: &[Expr]) -> Option<Breach>
    ensures { result ≡ least (programs.size_breaches elements at (placed_exprs dims.now)) }
{
    breach_if(
        dims.len() != 0 && MOST_ELEMENTS < elements,
        NameRule::N8,
        at,
    )
}

// ---- initial values

fn is_held(ty: Ty, value: Option<i64>) -> bool
    ensures { result ≡ programs.is_held ty value }
{
    match value {
        None => false,
        Some(value) => holds(ty, value),
    }
}

/// The least breach in a file-scope initial value (N9).
#[tactic(auto, using(crate::proofs::Bares::bares))]
fn initial_breach(known: &Table, ty: Ty, init: &Option<Expr>) -> Option<Breach>
    requires { WellFormedOption (option_map bare_expr init.now) }
    ensures { result ≡ least (programs.initial_breaches known.now.scope ty (option_map placed_expr init.now)) }
{
    match init {
        None => None,
        Some(e) => {
            let held = is_held(ty, constant_over(known, e));
            lesser(
                expr_breach(known, e),
                breach_if(!held, NameRule::N9, e.span().start),
            )
        }
    }
}

// ---- items

fn define_breach(
    known: &mut Table,
    name: &Name,
    constant: TypedValue,
    at: u64,
) -> Result<Option<Breach>, AllocError>
    ensures breach { IfOk result (λ breach. breach ≡ least (breaches.breach_if (names.is_among name.now known.old.names) NameRule.N2 at)) }
    ensures known { OnOk result (known.new ≡ record known.old {
      scope = (if names.is_among name.now known.old.names then known.old.scope else scopes.add name.now (Entity.Define constant) known.old.scope);
      names = names.with_name name.now known.old.names;
    }) }
{
    let again = known.is_among(name);
    known.define(name, constant)?;
    Ok(breach_if(again, NameRule::N2, at))
}

#[tactic(auto, using(crate::proofs::Bares::bares))]
fn global_breach(
    known: &mut Table,
    ty: Ty,
    name: &Name,
    at: u64,
    dims: &[Expr],
    init: &Option<Expr>,
) -> Result<Option<Breach>, AllocError>
    requires dims { WellFormedExprs (bare_exprs dims.now) }
    requires init { WellFormedOption (option_map bare_expr init.now) }
    ensures breach { IfOk result (λ breach. breach ≡ least (programs.global_breaches known.old ty name.now at (placed_exprs dims.now) (option_map placed_expr init.now))) }
    ensures known { OnOk result (known.new ≡ programs.with_array known.old name.now (placed_exprs dims.now)) }
{
    let again = declare_breach(known, name, at);
    let count = count_of(dims);
    known.declare(name, Entity::Variable { dims: count })?;
    let seen = dims_seen(known, dims);
    let elements = elements_with(known, dims, seen.product);
    known.set_elements(elements);
    let size = size_breach(elements, at, dims);
    let initial = initial_breach(known, ty, init);
    Ok(lesser(again, lesser(seen.breach, lesser(size, initial))))
}

/// The parameters of a function, which they make visible in the present scope.
#[tactic(auto, using(crate::proofs::Params::params))]
fn params_breach(known: &mut Table, params: &[Param]) -> Result<Option<Breach>, AllocError>
    ensures breach { IfOk result (λ breach. breach ≡ least (programs.params_breaches known.old.scope (map placed_param params.now))) }
    ensures scope { OnOk result (known.new.scope ≡ scopes.with_params known.old.scope (map placed_param params.now)) }
    ensures names { OnOk result (known.new.names ≡ names.with_params known.old.names (map placed_param params.now)) }
    ensures elements { OnOk result (known.new.elements ≡ known.old.elements) }
{
    let mut breach = None;
    'each: for param in params {
        let again = declare_breach(known, &param.name, param.name_span.start);
        known.declare(&param.name, Entity::Variable { dims: 0 })?;
        breach = lesser(breach, again);
    }
    Ok(breach)
}

/// What was found in a function, in the scope of its parameters: the least breach, and its depth.
#[tactic(auto, using(crate::proofs::Params::rounds))]
fn inside_breach(known: &mut Table, params: &[Param], body: &[Stmt]) -> Result<Seen, AllocError>
    ensures breach { IfOk result (λ seen. seen.breach ≡ lesser (least (programs.params_breaches (scopes.inner known.old.scope) (map placed_param params.now))) (least (breaches.stmts_breaches true false (programs.in_params known.old.scope (map placed_param params.now)) (placed_stmts body.now)))) }
    ensures depth { IfOk result (λ seen. seen.depth ≡ depths.function_depth (programs.in_params known.old.scope (map placed_param params.now)) (placed_stmts body.now)) }
    ensures known { OnOk result (known.new ≡ record known.old { names = names.with_stmts (names.with_params known.old.names (map placed_param params.now)) (placed_stmts body.now) }) }
{
    let round = known.round();
    known.enter();
    let params = params_breach(known, params)?;
    let within = Within {
        function: true,
        a_loop: false,
    };
    let body = stmts_seen(known, within, body)?;
    known.leave(round);
    Ok(Seen {
        breach: lesser(params, body.breach),
        depth: body.depth.saturating_add(1).min(16),
    })
}

/// A function is visible after its closing brace.
fn function_breach(
    known: &mut Table,
    name: &Name,
    at: u64,
    params: &[Param],
    body: &[Stmt],
) -> Result<Option<Breach>, AllocError>
    ensures breach { IfOk result (λ breach. breach ≡ least (programs.function_breaches known.old name.now at (map placed_param params.now) (placed_stmts body.now))) }
    ensures known { OnOk result (known.new ≡ programs.with_function known.old name.now (map placed_param params.now) (placed_stmts body.now)) }
{
    let again = declare_breach(known, name, at);
    let seen = inside_breach(known, params, body)?;
    let entity = Entity::Function {
        params: params.len(),
        depth: seen.depth,
    };
    known.declare(name, entity)?;
    Ok(lesser(again, seen.breach))
}

/// The least breach in an item. What is known afterwards is what an item makes known.
#[tactic(auto, using(crate::proofs::Initials::initials))]
pub fn item_breach(known: &mut Table, item: &Item) -> Result<Option<Breach>, AllocError>
    requires { WellFormedTop (bare_top item.now) }
    ensures breach { IfOk result (λ breach. breach ≡ least (programs.top_breaches known.old (placed_top item.now))) }
    ensures known { OnOk result (known.new ≡ programs.known_after known.old (placed_top item.now)) }
{
    match item {
        Item::Define {
            name,
            negative,
            value,
            ty,
            name_span,
        } => define_breach(
            known,
            name,
            defined_as(*negative, *value, *ty),
            name_span.start,
        ),
        Item::Extern { port, .. } => {
            known.make_known(*port);
            Ok(None)
        }
        Item::Global {
            ty,
            name,
            name_span,
            dims,
            init,
        } => global_breach(known, *ty, name, name_span.start, dims.as_slice(), init),
        Item::Function {
            name,
            name_span,
            params,
            body,
            ..
        } => function_breach(
            known,
            name,
            name_span.start,
            params.as_slice(),
            body.as_slice(),
        ),
        Item::Main { body, .. } => {
            let within = Within {
                function: false,
                a_loop: false,
            };
            let seen = list_seen(known, within, body.as_slice())?;
            Ok(seen.breach)
        }
    }
}
