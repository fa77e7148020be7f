//! What a program does when its constructs are carried out.

ghost use Rattle.apply_rewrite.specs.Laws.{CarriedOutKeepsItsForm, CarriedOutRunsAlike, OutcomesAgree, StatementsRunAlike};

/// A statement does the same when stacks of reverse directives in it are replaced by the blocks that stand for them: in
/// every state that has the variables of its scope, with their types, and at every bound on the turns.
pub fn statements_run_alike()
    ensures { StatementsRunAlike }
{}

/// A program has the same outcome and the same turns, on every input and at every bound, when stacks of reverse directives
/// in its functions and in `main` are replaced by the blocks that stand for them.
pub fn outcomes_agree()
    ensures { OutcomesAgree }
{}

/// A well-formed program all of whose directives are `reverse`, those of `apply` too, over canonical loops that no `break`
/// leaves and whose variables have types, has the same outcome and the same turns when its constructs are carried out; no
/// directive is left then.
pub fn carried_out_runs_alike()
    ensures { CarriedOutRunsAlike }
{}

/// Such a program then has exactly the loops and the leaves that its directives asked for, and is well formed.
pub fn carried_out_keeps_its_form()
    ensures { CarriedOutKeepsItsForm }
{}
