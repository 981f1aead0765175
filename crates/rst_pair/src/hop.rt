use rst_gate::{Bits, Cube};

/// A cube of pairs, an input, and where the input leads every pair of the cube.
///
/// The cube has the left registers' places, then the right ones'. `next` is the place of an earlier
/// hop of the same list, into whose cube the input leads. Without one, the outputs of a blocked hop
/// differ, and a freed hop leads into no blocked cube.
#[derive(Debug, Drop)]
pub struct Hop {
    pub cube: Cube,
    pub input: Bits,
    pub next: Option<u32>,
}
