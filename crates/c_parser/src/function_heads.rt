//! The heads of functions (C11 6.9.1) and of `main` (5.1.2.2.1), taken from the tokens that are left after their first
//! word, through the `{` of their bodies.

ghost use Rattle.std.specs.Prelude.{◌≡◌, ◌∷◌, [], ◌++◌, IfOk};
ghost use Rattle.c_parser.specs.FunctionHeads.{params_goal, parameters_goal, void_or_params, IsParamTypeTaken, AreParamsRead, IsFunctionHeadTaken, IsMainHeadTaken};

use crate::beginnings::{Beginning, beginning_of};
use crate::cursor::{Class, Cursor};
use crate::heads::long_rest;
use crate::terminals::name;
use c_tree::items::Items;
use c_tree::name::Name;
use c_tree::tree::{Param, ParamList, Span, Ty};
use pragma_grammar::phrase::ParseFault;
use pragma_grammar::terminal::terminal_of;
use std::alloc::{AllocError, Global};

/// What stands before the body of a function that gives no value: its name with its place, and its parameters.
#[derive(Drop)]
pub struct FunctionHead {
    pub name: Name,
    pub name_span: Span,
    pub params: ParamList,
}

/// Takes the type of a parameter, which has to stand first.
fn param_type(cursor: &mut Cursor) -> Result<Ty, ParseFault>
    ensures { IsParamTypeTaken cursor.old result cursor.new }
{
    match beginning_of(terminal_of(cursor.first())) {
        Beginning::Int => {
            cursor.advance();
            Ok(Ty::Int)
        }
        Beginning::Long => {
            cursor.advance();
            long_rest(cursor)?;
            Ok(Ty::Long)
        }
        _ => Err(cursor.blamed()),
    }
}

/// The parameters with one more.
fn add_param(params: ParamList, last: Param) -> Result<ParamList, AllocError>
    ensures { IfOk result (λ r. r ≡ params ++ last ∷ []) }
{
    let mut params = params;
    params.push(last)?;
    Ok(params)
}

/// Takes parameters with commas between them, through `)`.
fn params(alloc: Global, cursor: &mut Cursor) -> Result<ParamList, ParseFault>
    ensures { AreParamsRead params_goal cursor.old result cursor.new }
{
    let mut params = Items::new(alloc);
    loop {
        let ty = param_type(cursor)?;
        let (name, name_span) = name(alloc, cursor)?;
        let param = Param {
            ty,
            name,
            name_span,
        };
        params = add_param(params, param)?;
        match cursor.may(Class::Comma) {
            Some(_) => {}
            None => {
                cursor.take(Class::RoundClose)?;
                return Ok(params);
            }
        }
    }
}

/// Takes `)`, or `void )`, or parameters through their `)`.
fn parameters(alloc: Global, cursor: &mut Cursor) -> Result<ParamList, ParseFault>
    ensures { AreParamsRead parameters_goal cursor.old result cursor.new }
{
    match cursor.may(Class::RoundClose) {
        Some(_) => Ok(Items::new(alloc)),
        None => void_or_params(alloc, cursor),
    }
}

fn void_or_params(alloc: Global, cursor: &mut Cursor) -> Result<ParamList, ParseFault>
    ensures { AreParamsRead void_or_params cursor.old result cursor.new }
{
    match cursor.may(Class::Void) {
        Some(_) => {
            cursor.take(Class::RoundClose)?;
            Ok(Items::new(alloc))
        }
        None => params(alloc, cursor),
    }
}

/// Takes the rest of a function's head after the word `static`, through `{`.
pub fn function_head(alloc: Global, cursor: &mut Cursor) -> Result<FunctionHead, ParseFault>
    ensures { IsFunctionHeadTaken cursor.old result cursor.new }
{
    cursor.take(Class::Void)?;
    let (name, name_span) = name(alloc, cursor)?;
    cursor.take(Class::RoundOpen)?;
    let params = parameters(alloc, cursor)?;
    cursor.take(Class::CurlyOpen)?;
    Ok(FunctionHead {
        name,
        name_span,
        params,
    })
}

/// Takes the rest of the head of `main` after its name, through `{`.
pub fn main_head(cursor: &mut Cursor) -> Result<(), ParseFault>
    ensures { IsMainHeadTaken cursor.old result cursor.new }
{
    cursor.take(Class::RoundOpen)?;
    cursor.may(Class::Void);
    cursor.take(Class::RoundClose)?;
    cursor.take(Class::CurlyOpen)?;
    Ok(())
}
