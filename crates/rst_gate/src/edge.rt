ghost use Rattle.std.specs.Prelude.{◌≡◌};
ghost use Rattle.rst_gate.specs.SharedGates.{constant_edge, turned};

/// A reading of a node: its value, or the opposite where the edge is inverted.
#[derive(Clone, Copy, Debug, PartialEq, Eq, Hash)]
pub struct Edge {
    pub node: u32,
    pub inverted: bool,
}

impl Edge {
    /// The edge of a constant: node 0 is false.
    pub fn constant(bit: bool) -> Edge
        ensures { result ≡ constant_edge bit }
    {
        Edge {
            node: 0,
            inverted: bit,
        }
    }

    /// The edge, inverted once more where the bit is true.
    pub fn turned(self, bit: bool) -> Edge
        ensures { result ≡ turned bit self }
    {
        Edge {
            node: self.node,
            inverted: bit != self.inverted,
        }
    }
}

/// A gate over edges to earlier nodes.
///
/// `Mux` has the select first, then the value where it is one, then the value where it is zero.
#[derive(Clone, Copy, Debug, PartialEq, Eq, Hash)]
pub enum Gate {
    And(Edge, Edge),
    Xor(Edge, Edge),
    Mux(Edge, Edge, Edge),
}
