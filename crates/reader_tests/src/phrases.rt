//! Texts of expressions and of directives, read alone.

mod directive_heights;
mod directive_texts;
mod expression_heights;
mod expression_texts;
mod nest;
mod read;
mod show;
mod show_directive;
mod show_expr;
