use rst_gate::{Pattern, Sequence};

/// What is asked of a pair of designs with a front.
#[derive(Debug, Drop)]
pub enum Query {
    /// A pair of the relation whose outputs differ or whose successors lie in a blocked cube.
    Split,
    /// A pair that lies in a blocked cube behind the sequence.
    Land(Sequence),
    /// A pair, and free bits, behind whose filling of the pattern it lies in a blocked cube.
    LandFree(Pattern),
    /// A pair in a blocked and in no freed cube that an input leads into no blocked cube, or into a
    /// freed one.
    Escape,
    /// A pair in a blocked and in no freed cube.
    Stuck,
}

/// A query by its kind: `Land` stands for that of a sequence and of a pattern.
#[derive(Clone, Copy, Debug, PartialEq, Eq)]
pub enum Kind {
    Split,
    Land,
    Escape,
    Stuck,
}
