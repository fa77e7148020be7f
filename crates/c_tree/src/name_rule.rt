//! The name rules of a program, and where a program breaks one.

use crate::constant::TypedValue;
use crate::name::Name;

/// A name rule. A program that breaks one is refused.
#[derive(Clone, Copy, Debug, PartialEq, Eq)]
pub enum NameRule {
    /// A name is used that nothing before it makes visible; or `print` or `input`, which no item before makes known.
    N1,
    /// A name is declared again in the same scope, or is declared or defined after a define of it, or is defined
    /// after a declaration of it in any scope.
    N2,
    /// The number of subscripts isn't the number of dimensions.
    N3,
    /// A define is assigned, stepped or read into.
    N4,
    /// A dimension isn't a constant from 1 to 2^24, or is the ninth.
    N5,
    /// `break` stands in no loop.
    N6,
    /// `continue` stands in no loop.
    N7,
    /// The arrays so far have more than 2^24 elements.
    N8,
    /// A file-scope initial value isn't a constant that the type holds.
    N9,
    /// A function's name is used other than in a call, or a call names a variable or a define.
    N10,
    /// The number of arguments isn't the number of parameters.
    N11,
    /// In a function, a function of depth 16 is called.
    N12,
}

impl NameRule {
    ghost use Rattle.std.specs.Prelude.{◌≡◌};
    ghost use Rattle.c_tree.specs.NameRules.BreachSets.{rule_number};

    /// The number in the rule's name.
    pub fn number(&self) -> u8
        ensures { result ≡ rule_number self.now }
    {
        match self {
            NameRule::N1 => 1,
            NameRule::N2 => 2,
            NameRule::N3 => 3,
            NameRule::N4 => 4,
            NameRule::N5 => 5,
            NameRule::N6 => 6,
            NameRule::N7 => 7,
            NameRule::N8 => 8,
            NameRule::N9 => 9,
            NameRule::N10 => 10,
            NameRule::N11 => 11,
            NameRule::N12 => 12,
        }
    }
}

/// A name rule that is broken, and the place of the breach: a byte offset in the text.
#[derive(Clone, Copy, Debug, PartialEq, Eq)]
pub struct Breach {
    pub place: u64,
    pub rule: NameRule,
}

/// What a name stands for.
#[derive(Clone, Copy, Debug, PartialEq, Eq)]
pub enum Entity {
    /// A define, which stands for its constant.
    Define(TypedValue),
    /// A variable, with the number of its dimensions, 0 for a scalar.
    Variable { dims: usize },
    /// A function, with the number of its parameters and its depth.
    Function { params: usize, depth: u64 },
}

/// A name with what it was declared as.
#[derive(Debug, Drop)]
pub struct Declaration {
    pub name: Name,
    pub entity: Entity,
}
