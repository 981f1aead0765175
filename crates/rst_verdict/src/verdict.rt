use rst_clause::Log;
use rst_gate::{Bits, Pattern, Sequence};
use rst_outside::Items;
use rst_pair::{Hop, Journal};

/// Hops in the order in which they were found; the next hop of each is an earlier one.
pub type Hops = Items<Hop>;

/// What was found of a design, with the evidence for it.
///
/// States have a bit for each register, inputs a bit for each input, and the cube of a hop the left
/// state's places, then the right one's. A sequence and a word have an input for each cycle.
#[derive(Drop)]
pub enum Verdict {
    /// Signed: three-valued simulation from all X knows every register behind the pattern, with X at
    /// each free bit.
    SignedKnown {
        /// The inputs, cycle by cycle. Unknown places are free bits.
        seq: Pattern,
    },
    /// Signed: behind the pattern every two power-up states are related, and related states behave the
    /// same.
    SignedRelation {
        /// The inputs, cycle by cycle. Unknown places are free bits.
        seq: Pattern,
        /// Which registers are marked: those that related states have equal.
        equal: Bits,
        /// Hops whose cubes hold no related pair.
        blocked: Hops,
        /// Shows that related states have the same outputs and related successors.
        split: Log,
        /// Shows that every two power-up states are related behind the pattern.
        land: Log,
    },
    /// Not signed: behind the sequence two power-up states have different outputs within the word.
    Refuted {
        seq: Sequence,
        a: Bits,
        b: Bits,
        word: Sequence,
    },
    /// Not resettable: no word aligns the two power-up states.
    Never {
        a: Bits,
        b: Bits,
        /// Hops that tell the pairs of their cubes apart.
        blocked: Hops,
        /// Hops that align the pairs of their cubes.
        freed: Hops,
        /// Shows that no input leads a blocked pair that isn't freed to another kind of pair.
        escape: Log,
    },
    /// Resettable, but no sequence was built within the bound of cycles.
    Alignable {
        /// What was built of a sequence.
        seq: Sequence,
        /// Two power-up states that the sequence doesn't align.
        a: Bits,
        b: Bits,
        /// Aligns the two behind the sequence.
        word: Sequence,
        /// Hops that tell the pairs of their cubes apart.
        blocked: Hops,
        /// Hops that align the pairs of their cubes.
        freed: Hops,
        /// Shows that pairs which aren't blocked behave the same.
        split: Log,
        /// Shows that every blocked pair is freed.
        stuck: Log,
    },
    /// The budget was spent before anything was found.
    Unknown {
        /// Which registers are marked.
        equal: Bits,
        /// The work that was done.
        journal: Journal,
    },
}
