//! Worked examples of the printed form.

ghost use Rattle.c_printer.specs.Examples.{Expressions, Directives, Statements, Programs};

/// Expressions: where parentheses stand and where they don't.
pub fn expressions()
    ensures { Expressions }
{}

/// Directives with each of their clauses.
pub fn directives()
    ensures { Directives }
{}

/// Each form of a statement, of a `for` head, and of what a directive is applied to.
pub fn statements()
    ensures { Statements }
{}

/// Each form of an item, and a whole program.
pub fn programs()
    ensures { Programs }
{}
