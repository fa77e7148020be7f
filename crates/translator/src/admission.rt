//! The program of a text, as an admitted one.

ghost use Rattle.std.specs.Prelude.{◌≡◌, ◌<◌, ◌≤◌, ◌^◌, ℕ, List, length, IfOk, IfErr, OnOk};
ghost use Rattle.c_tree.specs.BareOf.{bare_program};
ghost use Rattle.c_tree.specs.Checked.{most_height};
ghost use Rattle.c_tree.specs.Height.{program_height};
ghost use Rattle.c_tree.specs.PlacedOf.{placed_program};
ghost use Rattle.c_tree.specs.WellFormed.{WellFormed};
ghost use Rattle.c_tree.specs.NameRules.BreachSets.{HasNone};
ghost use Rattle.c_tree.specs.NameRules.Programs.{breaches};
ghost use Rattle.c_lexer.specs.Cut.{Cut};
ghost use Rattle.c_grammar.specs.Reading.{IsTree};
ghost use Rattle.canonical_nests.specs.Admitted as loop_rules;
ghost use Rattle.translator.specs.Answers.{SpellsChecked, SpellsAdmitted, IsAdmittedText, IsOfRules, IsRefused, TokensRefused, BreaksNames, BreaksLoops};

use crate::refusal::{Refusal, lexical};
use c_grammar::laws::trees_may_be_checked;
use c_lexer::lexer::lex;
use c_lexer::token::Token;
use c_parser::program::parse;
use c_tree::checked::Checked;
use c_tree::laws::places_only_are_forgotten;
use c_tree::tree::Program;
use c_types::check::{CheckFault, check};
use canonical_nests::admitted::Admitted;
use pragma_grammar::phrase::ParseFault;
use restrictions::admit::{Breach, admit};
use std::alloc::Global;

/// The program that the tokens of a text spell, no part of which is too deep.
fn read(alloc: Global, tokens: &[Token]) -> Result<Program, Refusal>
    requires { (text : List ℕ) × Cut text tokens.now }
    ensures tree { IfOk result (λ program. IsTree tokens.now (placed_program program)) }
    ensures well_formed { IfOk result (λ program. WellFormed (bare_program program)) }
    ensures height { IfOk result (λ program. program_height (bare_program program) ≤ most_height) }
    ensures refused { IfErr result (λ refusal. TokensRefused refusal tokens.now) }
    ensures of_rules { IfErr result IsOfRules }
{
    trees_may_be_checked();
    match parse(alloc, tokens) {
        Ok(program) => {
            places_only_are_forgotten(&program);
            Ok(program)
        }
        Err(ParseFault::At(kind, place)) => Err(Refusal::Parse(kind, place)),
        Err(ParseFault::Memory) => Err(Refusal::Memory),
    }
}

/// The program as a checked one, where it breaks no name rule.
fn checked(alloc: Global, program: Program) -> Result<Checked, Refusal>
    requires well_formed { WellFormed (bare_program program) }
    requires height { program_height (bare_program program) ≤ most_height }
    ensures same { IfOk result (λ checked. checked ≡ program) }
    ensures no_breach { IfOk result (λ checked. HasNone (breaches (placed_program program))) }
    ensures refused { IfErr result (λ refusal. BreaksNames refusal (placed_program program)) }
    ensures of_rules { IfErr result IsOfRules }
{
    match check(alloc, program) {
        Ok(checked) => Ok(checked),
        Err(CheckFault::At(rule, place)) => Err(Refusal::Names(rule, place)),
        Err(CheckFault::Memory) => Err(Refusal::Memory),
    }
}

/// The program of the tokens of a text, which breaks no name rule.
fn checked_tree(alloc: Global, tokens: &[Token]) -> Result<Checked, Refusal>
    requires { (text : List ℕ) × Cut text tokens.now }
    ensures spelled { IfOk result (λ checked. SpellsChecked tokens.now (placed_program checked)) }
    ensures refused { IfErr result (λ refusal. TokensRefused refusal tokens.now) }
    ensures of_rules { IfErr result IsOfRules }
{
    let program = read(alloc, tokens)?;
    checked(alloc, program)
}

/// The program as an admitted one, where it breaks no loop rule.
fn admitted(alloc: Global, checked: Checked) -> Result<Admitted, Refusal>
    ensures same { IfOk result (λ admitted. admitted ≡ checked) }
    ensures no_breach { OnOk result (loop_rules.BreaksNone checked) }
    ensures refused { IfErr result (λ refusal. BreaksLoops refusal (placed_program checked)) }
    ensures of_rules { IfErr result IsOfRules }
{
    match admit(alloc, checked) {
        Ok(admitted) => Ok(admitted),
        Err(Breach::At(rule, place)) => Err(Refusal::Loops(rule, place)),
        Err(Breach::Memory) => Err(Refusal::Memory),
    }
}

/// The program of the tokens of a text, its directives in force.
///
/// # Errors
///
/// `Parse`, `Names` and `Loops` exactly where they are the first that applies. `Memory` where there is no memory for the
/// answer.
pub fn admit_tokens(alloc: Global, tokens: &[Token]) -> Result<Admitted, Refusal>
    requires { (text : List ℕ) × Cut text tokens.now }
    ensures spelled { IfOk result (λ admitted. SpellsAdmitted tokens.now (placed_program admitted)) }
    ensures refused { IfErr result (λ refusal. TokensRefused refusal tokens.now) }
    ensures of_rules { IfErr result IsOfRules }
{
    let checked = checked_tree(alloc, tokens)?;
    admitted(alloc, checked)
}

/// Likewise for a text.
///
/// # Errors
///
/// `Lex` exactly where a lexical fault is the first that applies; the others are those of [`admit_tokens`].
pub fn admit_text(alloc: Global, text: &[u8]) -> Result<Admitted, Refusal>
    requires { length text.now < 2 ^ 63 }
    ensures admitted { IfOk result (λ admitted. IsAdmittedText text.now (placed_program admitted)) }
    ensures refused { IfErr result (λ refusal. IsRefused refusal text.now) }
    ensures of_rules { IfErr result IsOfRules }
{
    match lex(alloc, text) {
        Ok(tokens) => admit_tokens(alloc, tokens.as_slice()),
        Err(fault) => Err(lexical(fault)),
    }
}
