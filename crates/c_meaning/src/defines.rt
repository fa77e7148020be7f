//! The defines that are known at a place.

ghost use Rattle.std.specs.Prelude.{◌≡◌, map};
ghost use Rattle.resolved_names.specs.Numbered.{number_name, numbered_top};
ghost use Rattle.c_meaning.specs.Runnable.{RunnableTops};
ghost use Rattle.c_meaning.specs.Scopes.{env_of, constant_in};

use crate::scope::Scope;
use c_tree::constant::{TypedValue, defined_as};
use resolved_names::tree::Item;

/// What the last define of a name stands for. The search begins where the table tells.
#[tactic(auto, using(crate::proofs::Scopes::scopes))]
pub fn define_named(scope: &Scope, name: usize) -> Option<TypedValue>
    requires { RunnableTops (map numbered_top scope.now.items.now) }
    ensures { result ≡ constant_in (env_of scope.now).defines (number_name name) }
{
    let mut left = scope.last.up_to_define(name).min(scope.items.len());
    'each: while left > 0 {
        left -= 1;
        if let Item::Define {
            name: defined,
            negative,
            value,
            ty,
            ..
        } = &scope.items[left]
        {
            if name == *defined {
                return Some(defined_as(*negative, *value, *ty));
            }
        }
    }
    None
}
