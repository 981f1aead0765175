// The order of a graph: again and again the first vertex whose predecessors all stand already.

ghost use Rattle.std.specs.Prelude.{◌≡◌, ℕ, ◌<◌, IfOk, IfErr, List};
ghost use Rattle.rst_order.specs.Graphs.{graph_of, IsGraph, OnCycle, HasCycle};
ghost use Rattle.rst_order.specs.Orders.{IsOrder};
ghost use Rattle.rst_order.specs.declared.orders.OrderError.TheVariants.{Cycle, NoMemory};

use crate::marks::first_missing;
use crate::progress::Progress;
use crate::successors::successors_of;
use std::alloc::{AllocError, Global};

/// Why a graph has no order.
#[derive(Clone, Copy, PartialEq, Eq, Debug)]
pub enum OrderError {
    /// Some vertex lies on a cycle.
    Cycle,
    /// Memory ran out.
    NoMemory,
}

impl From<AllocError> for OrderError {
    ghost from_gives = { λ _ e. e ≡ NoMemory };

    fn from(_: AllocError) -> OrderError {
        OrderError::NoMemory
    }
}

/// The order of all vertices in which each stands behind its predecessors: again and again comes the first vertex that doesn't
/// stand yet and whose predecessors all stand already. `Cycle` comes exactly where some vertex lies on a cycle; a graph with an
/// order has none.
///
/// It takes time in proportion to the vertices and the edges, but for a logarithm of the number of vertices that wait.
pub fn dependency_order(
    alloc: Global,
    predecessors: &[Vec<usize>],
) -> Result<Vec<usize>, OrderError>
    requires { IsGraph (graph_of predecessors.now) }
    ensures order { IfOk result (λ order. IsOrder (graph_of predecessors.now) order.items) }
    ensures acyclic { IfOk result (λ _. (v : ℕ) → OnCycle (graph_of predecessors.now) v → ⊥) }
    ensures cycle { IfErr result (λ e. e ≡ Cycle → HasCycle (graph_of predecessors.now)) }
{
    let successors = successors_of(alloc, predecessors)?;
    let mut progress = Progress::new(alloc, predecessors)?;
    while progress.advance(predecessors, &successors)? {}
    match first_missing(&progress.placed) {
        None => Ok(progress.order),
        Some(_) => Err(OrderError::Cycle),
    }
}
