//! Laws over the definitions alone. Each stands on a function that does nothing.

ghost use Rattle.std.specs.Prelude.{◌≡◌, List};
ghost use Rattle.c_tree.specs.Placed.{Expr, Directive};
ghost use Rattle.c_tree.specs.declared.tree.Span.{Span};
ghost use Rattle.pragma_grammar.specs.Symbols.{Symbol, symbols};
ghost use Rattle.pragma_grammar.specs.Reading.{EndsText, Stops, SpelledExpr, DeepWhereAbove, DirectiveDeepWhereAbove};

use c_lexer::token::Token;

/// A text's tokens spell at most one whole expression at their start, with one place and one rest.
#[tactic(auto, using(crate::proofs::OneTree::one_expression))]
pub fn one_expression(tokens: &[Token])
    requires { EndsText tokens.now }
    ensures { (p q : Expr × Span) (us vs : List Symbol) → SpelledExpr p (symbols tokens.now) us → Stops us → SpelledExpr q (symbols tokens.now) vs → Stops vs → (p ≡ q) × (us ≡ vs) }
{}

/// A tree is too deep somewhere exactly where its height is above 256.
#[tactic(auto, using(crate::proofs::OneTree::deep_where_above))]
pub fn deep_where_above()
    ensures { (e : Expr) → DeepWhereAbove e }
{}

/// A directive is too deep somewhere exactly where its height is above 256.
#[tactic(auto, using(crate::proofs::DirectiveHeights::directive_deep_where_above))]
pub fn directives_are_deep_where_above()
    ensures { (d : Directive) → DirectiveDeepWhereAbove d }
{}
