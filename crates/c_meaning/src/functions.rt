//! Calls of functions: the function that a name means, and the frame that holds its arguments.

ghost use Rattle.std.specs.Prelude.{◌≡◌, [], ◌∷◌, ◌++◌, map, drop, reverse, OnOk, IfOk, IfErr, IfSome, IfNone};
ghost use Rattle.resolved_names.specs.Numbered.{number_name, numbered_top, numbered_exprs, numbered_param};
ghost use Rattle.c_meaning.specs.Held.{HeldExprs};
ghost use Rattle.c_semantics.specs.Meaning.State.{scalar};
ghost use Rattle.c_semantics.specs.Meaning.SimpleStatements as meaning;
ghost use Rattle.c_meaning.specs.Functions.{IsKnown, Stops, argument_at};
ghost use Rattle.c_meaning.specs.Runnable.{RunnableTops};
ghost use Rattle.c_meaning.specs.Scopes.{env_of};

use crate::expressions::eval;
use crate::frame::Frame;
use crate::machine::Machine;
use crate::scope::Scope;
use crate::variable::Cell;
use c_tree::arithmetic::{Trap, convert};
use resolved_names::tree::{Expr, Item, Param, Stmt};
use std::alloc::{AllocError, Global};

/// A function, with what is known in its body.
#[derive(Clone, Copy, Debug)]
pub struct Known<'p> {
    pub name: usize,
    pub params: &'p [Param],
    pub body: &'p [Stmt],
    pub scope: Scope<'p>,
}

/// Why there is no frame.
#[derive(Clone, Copy, Debug, PartialEq, Eq)]
pub enum Stop {
    Trap(Trap),
    Memory,
}

/// The last function of a name among the items, which is sought where the table tells. Its body knows what stands before
/// it.
#[tactic(auto, using(crate::proofs::Calls::functions))]
pub fn function_named<'p>(scope: &Scope<'p>, name: usize) -> Option<Known<'p>>
    requires { RunnableTops (map numbered_top scope.now.items.now) }
    ensures found { IfSome result (λ f. IsKnown scope.now (number_name name) f) }
    ensures none { IfNone result (meaning.function_named (number_name name) (env_of scope.now).functions ≡ None) }
{
    let mut left = scope.last.up_to_function(name).min(scope.items.len());
    'each: while left > 0 {
        left -= 1;
        if let Item::Function {
            name: defined,
            params,
            body,
            ..
        } = &scope.items[left]
        {
            if name == *defined {
                return Some(Known {
                    name: *defined,
                    params: params.as_slice(),
                    body: body.as_slice(),
                    scope: Scope {
                        bound: scope.bound,
                        items: &scope.items[..left],
                        last: scope.last,
                    },
                });
            }
        }
    }
    None
}

/// The value of an argument, converted to its parameter's type; a missing argument has none.
#[tactic(auto, using(crate::proofs::Calls::one_argument))]
fn argument(
    scope: &Scope,
    m: &Machine,
    param: &Param,
    args: &[Expr],
    index: usize,
) -> Result<Option<i64>, Trap>
    requires known { RunnableTops (map numbered_top scope.now.items.now) }
    requires well_formed { HeldExprs (numbered_exprs args.now) }
    ensures { result ≡ argument_at (env_of scope.now).defines m.now param.now.ty (drop index args.now) }
{
    if index >= args.len() {
        return Ok(None);
    }
    let value = eval(scope, m, &args[index])?.value;
    Ok(Some(convert(param.ty, value)?))
}

/// A parameter's variable becomes the innermost of a frame.
fn push_argument(frame: &mut Frame, param: &Param, value: Option<i64>) -> Result<(), AllocError>
    ensures { OnOk result (frame.new ≡ record { name = number_name param.now.name; cell = scalar param.now.ty value } ∷ frame.old) }
{
    let cell = Cell::Scalar {
        ty: param.ty,
        value,
    };
    frame.push(param.name, cell)
}

/// A frame with the arguments, which are evaluated from left to right (C11 6.5.2.2). A parameter without an argument is
/// unset.
#[tactic(auto, using(crate::proofs::Calls::calls))]
pub fn arguments(
    scope: &Scope,
    m: &Machine,
    mut frame: Frame,
    params: &[Param],
    args: &[Expr],
) -> Result<Frame, Stop>
    requires empty { frame ≡ [] }
    requires known { RunnableTops (map numbered_top scope.now.items.now) }
    requires well_formed { HeldExprs (numbered_exprs args.now) }
    ensures frame { IfOk result (λ vs. meaning.arguments (env_of scope.now).defines m.now (map numbered_param params.now) (numbered_exprs args.now) [] ≡ Ok vs) }
    ensures trap { IfErr result (λ e. Stops e (meaning.arguments (env_of scope.now).defines m.now (map numbered_param params.now) (numbered_exprs args.now) [])) }
{
    'each: for (index, param) in params.iter().enumerate() {
        let value = match argument(scope, m, param, args, index) {
            Ok(value) => value,
            Err(trap) => return Err(Stop::Trap(trap)),
        };
        match push_argument(&mut frame, param, value) {
            Ok(()) => {}
            Err(_) => return Err(Stop::Memory),
        }
    }
    Ok(frame)
}
