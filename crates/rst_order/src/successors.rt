// The successors of each vertex.

ghost use Rattle.std.specs.Prelude.{◌≡◌, ℕ, ◌<◌, length, IfOk, OnOk, slice_index_or, List, []};
ghost use Rattle.std.specs.List.{Contains};
ghost use Rattle.rst_order.specs.Graphs.{Graph, graph_of, IsGraph};
ghost use Rattle.rst_order.specs.Walks.{HasSuccessors, AddsSuccessor, IsBounded};

use crate::marks::predecessors_of;
use std::alloc::{AllocError, AllocFailed, Global};

/// The vertices to which an edge leads from each vertex.
pub fn successors_of(
    alloc: Global,
    predecessors: &[Vec<usize>],
) -> Result<Vec<Vec<usize>>, AllocError>
    requires { IsGraph (graph_of predecessors.now) }
    ensures { IfOk result (λ successors. HasSuccessors (graph_of predecessors.now) (graph_of successors.items)) }
{
    let mut successors = Vec::with_capacity(alloc, predecessors.len())?;
    'empty: for _ in 0..predecessors.len() {
        successors.push(Vec::new(alloc))?;
    }
    for vertex in 0..predecessors.len() {
        add_successor(
            &mut successors,
            predecessors_of(predecessors, vertex),
            vertex,
        )?;
    }
    Ok(successors)
}

/// One more successor of each of these vertices.
fn add_successor(
    successors: &mut [Vec<usize>],
    vertices: &[usize],
    successor: usize,
) -> Result<(), AllocFailed<usize>>
    requires bounded { (a : ℕ) → Contains vertices.now a → a < length successors.old }
    ensures { OnOk result (AddsSuccessor (graph_of successors.old) (graph_of successors.new) vertices.now (length vertices.now) successor) }
{
    for vertex in vertices {
        let vertex = *vertex;
        prove!(vertex < successors.len());
        let list = &mut successors[vertex];
        list.push(successor)?;
    }
    Ok(())
}
