use rst_clause::Log;
use rst_gate::{Bits, Sequence};
use rst_pair::{Hop, Journal};

/// What is decided of a pattern, with the work of the search.
///
/// States have a bit for each register. A sequence and a word have an input for each cycle.
#[derive(Drop)]
pub enum Decision {
    /// Signed: behind every filling of the pattern every two power-up states are related, and related
    /// states behave the same.
    Signed {
        /// Which registers are marked: those that related states have equal.
        equal: Bits,
        /// Hops whose cubes hold no related pair.
        blocked: Vec<Hop>,
        /// Refutes that a related pair has different outputs or successors that are not related.
        split: Log,
        /// Refutes that a pair of power-up states lies in a blocked cube behind a filling.
        land: Log,
        journal: Journal,
    },
    /// Not signed: behind the sequence, a filling of the pattern, the word tells two power-up states
    /// apart by their outputs.
    Refuted {
        seq: Sequence,
        a: Bits,
        b: Bits,
        word: Sequence,
        journal: Journal,
    },
    /// The budget was spent before anything was found.
    Unknown {
        /// Which registers are marked.
        equal: Bits,
        journal: Journal,
    },
}
