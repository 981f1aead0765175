// Whether a vertex lies on a cycle.

ghost use Rattle.std.specs.Prelude.{◌≡◌, ℕ, ◌<◌, ◌↔◌, IfOk, OnOk, length, IsTrue};
ghost use Rattle.std.specs.List.{Contains};
ghost use Rattle.rst_order.specs.Graphs.{graph_of, IsGraph, OnCycle};
ghost use Rattle.rst_order.specs.Walks.{IsMarking};

use crate::marks::{none_of, predecessors_of};
use std::alloc::{AllocError, AllocFailed, Global};

/// Whether a path of one edge or more leads from a vertex to itself. It takes time in proportion to the vertices and the edges.
pub fn lies_on_cycle(
    alloc: Global,
    predecessors: &[Vec<usize>],
    vertex: usize,
) -> Result<bool, AllocError>
    requires graph { IsGraph (graph_of predecessors.now) }
    requires vertex { vertex < length predecessors.now }
    ensures { IfOk result (λ found. IsTrue found ↔ OnCycle (graph_of predecessors.now) vertex) }
{
    // The vertices that reach this one, and those of them whose predecessors are still to be looked at.
    let mut marks = none_of(alloc, predecessors.len())?;
    let mut waiting = Vec::new(alloc);
    mark(
        predecessors_of(predecessors, vertex),
        &mut marks,
        &mut waiting,
    )?;
    while let Some(next) = waiting.pop() {
        mark(
            predecessors_of(predecessors, next),
            &mut marks,
            &mut waiting,
        )?;
    }
    Ok(marks[vertex])
}

/// Marks vertices, and puts those that weren't marked to the others that wait.
fn mark(
    vertices: &[usize],
    marks: &mut [bool],
    waiting: &mut Vec<usize>,
) -> Result<(), AllocFailed<usize>>
    requires bounded { (v : ℕ) → Contains vertices.now v → v < length marks.old }
    ensures { OnOk result (IsMarking vertices.now (length vertices.now) marks.old waiting.old.items marks.new waiting.new.items) }
{
    for vertex in vertices {
        let vertex = *vertex;
        prove!(vertex < marks.len());
        if !marks[vertex] {
            marks[vertex] = true;
            waiting.push(vertex)?;
        }
    }
    Ok(())
}
