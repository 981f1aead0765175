// Whether the literals of a log are in range.
ghost use Rattle.std.specs.Prelude.{◌↔◌, IsTrue};
ghost use Rattle.rst_clause.specs.Literals.{AreLiterals, AreClauses};

use rst_clause::{Clause, Log};

// Whether each literal has a variable of 1 to `vars`.
fn is_in_range(vars: u32, clause: &Clause) -> bool
    ensures { IsTrue result ↔ AreLiterals vars clause.now }
{
    for i in 0..clause.len() {
        if clause.get(i).variable() > vars {
            return false;
        }
    }
    true
}

/// Whether each literal of the log has a variable of 1 to `vars`.
pub fn are_in_range(vars: u32, log: &Log) -> bool
    ensures { IsTrue result ↔ AreClauses vars log.now }
{
    for i in 0..log.len() {
        if !is_in_range(vars, log.get(i)) {
            return false;
        }
    }
    true
}
