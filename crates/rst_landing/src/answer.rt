use rst_clause::Log;
use rst_gate::{Bits, Sequence};
use rst_pair::Journal;

/// Where a pattern leads the pairs of power-up states, with the work of the search.
#[derive(Debug, Drop)]
pub enum Landing {
    /// No pair lands in a blocked cube: a log that refutes the posed query.
    Inside {
        log: Log,
        journal: Journal,
    },
    /// Behind this filling of the pattern, the pair of the left state `a` and the right state `b` lies
    /// in the blocked cube of this number, counted from 0, and in none before it.
    Outside {
        a: Bits,
        b: Bits,
        fill: Sequence,
        cube: u32,
        journal: Journal,
    },
    /// As many units of work as were allowed.
    Spent {
        journal: Journal,
    },
}
