//! Prints programs.

ghost use Rattle.std.specs.Prelude.{◌≡◌, ◌++◌, ◌≤◌, ◌<◌, ◌^◌, ◌+◌, map, codes, IfOk, OnOk};
ghost use Rattle.std.specs.Option.{option_map};
ghost use Rattle.c_tree.specs.BareOf.{bare_expr, bare_exprs, bare_stmts, bare_param, bare_top, bare_program};
ghost use Rattle.c_tree.specs.Height.{stmts_height, top_height, program_height};
ghost use Rattle.c_tree.specs.Bare.{define, extern_, global, function, main};
ghost use Rattle.c_printer.specs.Layout.{text, parens, gap, ◌&◌};
ghost use Rattle.c_printer.specs.Programs.{define_value, extern_form, param_form, further_params, params_form, return_line, top_form, program_form, printed};

use crate::expressions::print_subscripts;
use crate::statements::{print_braces, print_initial, print_stmts};
use crate::tokens::{push_declared, push_number};
use c_tree::name::Name;
use c_tree::tree::{Expr, Item, Param, Port, Program, Stmt, Ty};
use std::alloc::{AllocError, Global};

/// Prints the value of a define, a negative one in parentheses.
fn print_define_value(
    out: &mut Vec<u8>,
    negative: bool,
    value: u64,
    ty: Ty,
) -> Result<(), AllocError>
    ensures { OnOk result (out.new.items ≡ out.old.items ++ text (define_value negative value ty)) }
{
    if negative {
        out.extend_from_slice(b"(-")?;
        push_number(out, value, ty)?;
        out.extend_from_slice(b")")
    } else {
        push_number(out, value, ty)
    }
}

fn print_param(out: &mut Vec<u8>, given: &Param) -> Result<(), AllocError>
    ensures { OnOk result (out.new.items ≡ out.old.items ++ text (param_form (bare_param given.now))) }
{
    push_declared(out, given.ty, &given.name)
}

fn print_further_params(out: &mut Vec<u8>, params: &[Param]) -> Result<(), AllocError>
    ensures { OnOk result (out.new.items ≡ out.old.items ++ text (further_params (map bare_param params.now))) }
{
    'each: for given in params {
        out.extend_from_slice(b", ")?;
        print_param(out, given)?;
    }
    Ok(())
}

fn print_params(out: &mut Vec<u8>, params: &[Param]) -> Result<(), AllocError>
    ensures { OnOk result (out.new.items ≡ out.old.items ++ text (params_form (map bare_param params.now))) }
{
    match params {
        [] => out.extend_from_slice(b"void"),
        [first, rest @ ..] => {
            print_param(out, first)?;
            print_further_params(out, rest)
        }
    }
}

fn extern_line(port: Port) -> &'static [u8]
    ensures { result.now ≡ text (top_form (extern_ port)) }
{
    match port {
        Port::Print => b"extern void print(long long);\n",
        Port::Input => b"extern long long input(void);\n",
    }
}

/// Prints a define.
fn print_define(
    out: &mut Vec<u8>,
    name: &Name,
    negative: bool,
    value: u64,
    ty: Ty,
) -> Result<(), AllocError>
    ensures { OnOk result (out.new.items ≡ out.old.items ++ text (top_form (define name.now negative value ty))) }
{
    out.extend_from_slice(b"#define ")?;
    out.extend_from_slice(name.bytes())?;
    out.extend_from_slice(b" ")?;
    print_define_value(out, negative, value, ty)?;
    out.extend_from_slice(b"\n")
}

/// Prints a variable of the file.
fn print_global(
    out: &mut Vec<u8>,
    ty: Ty,
    name: &Name,
    dims: &[Expr],
    init: &Option<Expr>,
) -> Result<(), AllocError>
    ensures { OnOk result (out.new.items ≡ out.old.items ++ text (top_form (global ty name.now (bare_exprs dims.now) (option_map bare_expr init.now)))) }
{
    push_declared(out, ty, name)?;
    print_subscripts(out, dims)?;
    print_initial(out, init)?;
    out.extend_from_slice(b";\n")
}

fn print_function(
    out: &mut Vec<u8>,
    name: &Name,
    params: &[Param],
    body: &[Stmt],
) -> Result<(), AllocError>
    requires { stmts_height (bare_stmts body.now) ≤ 256 }
    ensures { OnOk result (out.new.items ≡ out.old.items ++ text (top_form (function name.now (map bare_param params.now) (bare_stmts body.now)))) }
{
    print_function_head(out, name, params)?;
    print_braces(out, 0, body)?;
    out.extend_from_slice(b"\n")
}

/// Prints a function's name and parameters, up to its body.
fn print_function_head(out: &mut Vec<u8>, name: &Name, params: &[Param]) -> Result<(), AllocError>
    ensures { OnOk result (out.new.items ≡ out.old.items ++ (codes "static void " ++ (name.now ++ text (parens (params_form (map bare_param params.now)) & gap)))) }
{
    out.extend_from_slice(b"static void ")?;
    out.extend_from_slice(name.bytes())?;
    print_parenthesized(out, params)?;
    Ok(())
}

/// Prints parameters in parentheses, and a space.
fn print_parenthesized(out: &mut Vec<u8>, params: &[Param]) -> Result<(), AllocError>
    ensures { OnOk result (out.new.items ≡ out.old.items ++ text (parens (params_form (map bare_param params.now)) & gap)) }
{
    out.extend_from_slice(b"(")?;
    print_params(out, params)?;
    out.extend_from_slice(b") ")
}

/// The last statement of a printed `main`, and its closing brace.
fn main_end() -> &'static [u8]
    ensures { result.now ≡ text return_line ++ codes "}\n" }
{
    b"    return 0;\n}\n"
}

fn print_main(out: &mut Vec<u8>, body: &[Stmt]) -> Result<(), AllocError>
    requires { stmts_height (bare_stmts body.now) ≤ 256 }
    ensures { OnOk result (out.new.items ≡ out.old.items ++ text (top_form (main (bare_stmts body.now)))) }
{
    out.extend_from_slice(b"int main(void) {\n")?;
    print_stmts(out, 1, body)?;
    out.extend_from_slice(main_end())?;
    Ok(())
}

/// Prints an item on lines of its own.
fn print_item(out: &mut Vec<u8>, item: &Item) -> Result<(), AllocError>
    requires { top_height (bare_top item.now) ≤ 256 }
    ensures { OnOk result (out.new.items ≡ out.old.items ++ text (top_form (bare_top item.now))) }
{
    match item {
        Item::Define {
            name,
            negative,
            value,
            ty,
            ..
        } => print_define(out, name, *negative, *value, *ty),
        Item::Extern { port, .. } => out.extend_from_slice(extern_line(*port)),
        Item::Global {
            ty,
            name,
            dims,
            init,
            ..
        } => print_global(out, *ty, name, dims.as_slice(), init),
        Item::Function {
            name,
            params,
            body,
            ..
        } => print_function(out, name, params.as_slice(), body.as_slice()),
        Item::Main { body, .. } => print_main(out, body.as_slice()),
    }
}

/// The printed form of a program: each statement on lines of its own, bodies in braces, four spaces for each level,
/// parentheses only where they are needed.
///
/// The height is at most 256, so that the recursion isn't deeper.
///
/// # Errors
///
/// Want of memory.
pub fn print(alloc: Global, program: &Program) -> Result<Vec<u8>, AllocError>
    requires { program_height (bare_program program.now) ≤ 256 }
    ensures { IfOk result (λ bytes. bytes.items ≡ printed (bare_program program.now)) }
{
    let mut out = Vec::new(alloc);
    let items = program.items.as_slice();
    'each: for item in items {
        print_item(&mut out, item)?;
    }
    Ok(out)
}
