// Clauses, and logs of clauses.
use crate::Lit;
use rst_outside::Items;

/// A clause: a list of literals, of which at least one is to hold.
pub type Clause = Items<Lit>;

/// A log: clauses in the order in which they were derived.
pub type Log = Items<Clause>;
