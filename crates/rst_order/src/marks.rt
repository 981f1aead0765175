// Sets of vertices as one mark for each vertex.

ghost use Rattle.std.specs.Prelude.{◌≡◌, ℕ, ◌<◌, Bool, true, false, length, slice_index_or, IfOk, IfSome, IfNone, replicate, []};
ghost use Rattle.rst_order.specs.Graphs.{graph_of};
ghost use Rattle.rst_order.specs.Walks.{stands};

use std::alloc::{AllocError, Global};

/// The predecessors of a vertex.
pub fn predecessors_of<'a>(predecessors: &'a [Vec<usize>], vertex: usize) -> &'a [usize]
    requires { vertex < length predecessors.now }
    ensures { result.now ≡ slice_index_or (graph_of predecessors.now) vertex [] }
{
    &predecessors[vertex]
}

/// No vertex.
pub fn none_of(alloc: Global, count: usize) -> Result<Vec<bool>, AllocError>
    ensures { IfOk result (λ marks. marks.items ≡ replicate count false) }
{
    vec![in alloc; false; count]
}

/// The first vertex that isn't marked.
pub fn first_missing(marks: &[bool]) -> Option<usize>
    ensures none { IfNone result ((v : ℕ) → v < length marks.now → stands marks.now v ≡ true) }
    ensures some { IfSome result (λ v. (v < length marks.now) × (stands marks.now v ≡ false)) }
{
    for (vertex, mark) in marks.iter().enumerate() {
        if !*mark {
            return Some(vertex);
        }
    }
    None
}
