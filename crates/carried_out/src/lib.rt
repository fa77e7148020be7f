//! What becomes of a program when its constructs are carried out, and which programs that is for: definitions, on which
//! the laws of carried-out programs and the code that makes them stand. No code.
#![tactic(auto)]
