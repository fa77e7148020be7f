//! What runs keep of the names and the types of variables.

ghost use Rattle.c_scopes.specs.Laws.{StatementsKeepTypes, BlocksKeepTypes, ProgramsKeepTypes, CallsHaveTypes, ItemsHaveTypes, LaterScopes};

/// Where a state has the variables of a scope, with their types, a statement that ends without a jump leaves a state that
/// has those of the scope after it; and a statement that declares nothing one that has the same, however it ends.
pub fn statements_keep_types()
    ensures { StatementsKeepTypes }
{}

/// However a block, a turn of a loop or a construct ends, the state has the variables of the scope round it again.
pub fn blocks_keep_types()
    ensures { BlocksKeepTypes }
{}

/// The functions of a program keep the names and the types of the file's variables.
pub fn programs_keep_types()
    ensures { ProgramsKeepTypes }
{}

/// The frame of a call has the parameters, with their types, whatever the caller's frame is.
pub fn calls_have_types()
    ensures { CallsHaveTypes }
{}

/// After an item of the file its variables are those of the scope after it.
pub fn items_have_types()
    ensures { ItemsHaveTypes }
{}

/// What the scope after an item says of the file's variables, the scope before it says too.
pub fn later_scopes()
    ensures { LaterScopes }
{}
