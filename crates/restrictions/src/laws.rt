//! What the loop rules of statements depend on.

ghost use Rattle.restrictions.specs.Alike.{BreachesOfAlike};

/// The breaches in statements depend on what is known of functions only by which variables a call may assign and read,
/// and not by how often or in which order these are told.
pub fn breaches_of_alike_functions()
    ensures { BreachesOfAlike }
{}
