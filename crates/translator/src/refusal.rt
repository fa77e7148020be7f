//! Why a text is refused.

ghost use Rattle.std.specs.Prelude.{ℕ, List};
ghost use Rattle.c_lexer.specs.Cut.{IsFault};
ghost use Rattle.translator.specs.Answers.{IsOfRules, IsRefused};

use c_lexer::token::{LexFault, LexKind};
use c_tree::name_rule::NameRule;
use canonical_nests::rules::LoopRule;
use pragma_grammar::phrase::ParseKind;
use std::alloc::AllocError;

/// Why a text has no translation. Each place is a byte offset in the text.
#[derive(Clone, Copy, Debug, PartialEq, Eq)]
pub enum Refusal {
    /// It can't be cut into tokens: the first lexical fault.
    Lex(LexKind, u64),

    /// Its tokens spell no program, or one that is nested too deeply.
    Parse(ParseKind, u64),

    /// Its program breaks a name rule: the least breach, by place and then by rule.
    Names(NameRule, u64),

    /// Its program breaks a loop rule: the least breach of L1 to L25 and L28, by place and then by rule, else L26, else
    /// L27.
    Loops(LoopRule, u64),

    /// Its program can't be carried out yet: the place of the first directive or item that isn't carried out yet.
    NotBuilt(u64),

    /// There was no memory for the answer.
    Memory,
}

impl From<AllocError> for Refusal {
    ghost use Rattle.std.specs.Prelude.{◌≡◌};
    ghost use Rattle.translator.specs.declared.refusal.Refusal.TheVariants.{Memory};

    ghost from_gives = { λ _ refusal. refusal ≡ Memory };

    fn from(_: AllocError) -> Refusal {
        Refusal::Memory
    }
}

/// The refusal that a lexical fault is.
pub fn lexical(fault: LexFault) -> Refusal
    ensures refused { (text : List ℕ) → IsFault text fault → IsRefused result text }
    ensures of_rules { IsOfRules result }
{
    match fault {
        LexFault::At(kind, place) => Refusal::Lex(kind, place),
        LexFault::Memory => Refusal::Memory,
    }
}
