// How far the order of a graph has come.

ghost use Rattle.std.specs.Prelude.{◌≡◌, ℕ, ◌+◌, ◌<◌, ◌≤◌, Bool, true, false, length, ◌⊎◌, IfOk, OnOk, IfSome, IfNone, OnSome, slice_index_or, [], ◌∷◌, ◌++◌, List};
ghost use Rattle.std.specs.List.{Contains};
ghost use Rattle.rst_order.specs.Graphs.{graph_of, IsGraph};
ghost use Rattle.rst_order.specs.Walks.{IsLookedThrough, IsStage, HasSuccessors, stands, missing, queued, preds, count_of, HasSources};
ghost use Rattle.rst_order.specs.Stages.{stage};

use crate::marks::{none_of, predecessors_of};
use std::alloc::{AllocError, AllocFailed, Global};
use std::collections::BTreeSet;

/// Which vertices stand, and which may stand next.
#[derive(Drop)]
pub struct Progress {
    /// For each vertex how many of its first predecessors are known to stand.
    pub passed: Vec<usize>,
    pub placed: Vec<bool>,
    /// The vertices that don't stand yet and whose predecessors all stand.
    pub ready: BTreeSet<usize>,
    /// The vertices that stand, in their order.
    pub order: Vec<usize>,
}

impl Progress {
    pub fn new(alloc: Global, predecessors: &[Vec<usize>]) -> Result<Progress, AllocError>
        ensures { IfOk result (λ p. IsStage (graph_of predecessors.now) [] 0 (stage p)) }
    {
        let passed = vec![in alloc; 0usize; predecessors.len()]?;
        let placed = none_of(alloc, predecessors.len())?;
        let ready = sources(alloc, predecessors)?;
        Ok(Progress {
            passed,
            placed,
            ready,
            order: Vec::new(alloc),
        })
    }

    /// Lets the next vertex stand, where there is one.
    pub fn advance(
        &mut self,
        predecessors: &[Vec<usize>],
        successors: &[Vec<usize>],
    ) -> Result<bool, AllocError>
        requires graph { IsGraph (graph_of predecessors.now) }
        requires successors { HasSuccessors (graph_of predecessors.now) (graph_of successors.now) }
        requires stage { IsStage (graph_of predecessors.now) [] 0 (stage self.old) }
        ensures stage { OnOk result (IsStage (graph_of predecessors.now) [] 0 (stage self.new)) }
        ensures placed { IfOk result (λ placed. placed ≡ true → missing self.new.placed.items + 1 ≡ missing self.old.placed.items) }
        ensures none { IfOk result (λ placed. placed ≡ false → (v : ℕ) → queued self.new.ready v ≡ false) }
    {
        let Some(vertex) = take_least(&mut self.ready) else {
            return Ok(false);
        };
        self.placed[vertex] = true;
        self.order.push(vertex)?;
        let pending = predecessors_of(successors, vertex);
        for successor in pending {
            self.look_again(predecessors_of(predecessors, *successor), *successor)?;
        }
        Ok(true)
    }

    /// Looks again how many of a vertex's first predecessors stand.
    fn look_again(
        &mut self,
        predecessors: &[usize],
        vertex: usize,
    ) -> Result<(), AllocFailed<usize>>
        requires passed { vertex < length self.old.passed.items }
        requires placed { vertex < length self.old.placed.items }
        requires within { count_of self.old.passed.items vertex ≤ length predecessors.now }
        ensures placed { self.new.placed.items ≡ self.old.placed.items }
        ensures order { self.new.order.items ≡ self.old.order.items }
        ensures others { (v : ℕ) → (v ≡ vertex → ⊥) → count_of self.new.passed.items v ≡ count_of self.old.passed.items v }
        ensures length { length self.new.passed.items ≡ length self.old.passed.items }
        ensures passed { IsLookedThrough predecessors.now self.old.placed.items (count_of self.old.passed.items vertex) (count_of self.new.passed.items vertex) }
        ensures ready { OnOk result (count_of self.new.passed.items vertex ≡ length predecessors.now → stands self.old.placed.items vertex ≡ false → queued self.new.ready vertex ≡ true) }
        ensures kept { OnOk result ((v : ℕ) → queued self.old.ready v ≡ true → queued self.new.ready v ≡ true) }
        ensures added { OnOk result ((v : ℕ) → queued self.new.ready v ≡ true → (queued self.old.ready v ≡ true)
            ⊎ ((v ≡ vertex) × (stands self.old.placed.items vertex ≡ false) × (count_of self.new.passed.items vertex ≡ length predecessors.now))) }
    {
        let passed = standing(predecessors, &self.placed, self.passed[vertex]);
        self.passed[vertex] = passed;
        if passed == predecessors.len() && !self.placed[vertex] {
            put(&mut self.ready, vertex)?;
        }
        Ok(())
    }
}

/// Takes the least vertex out of a set.
fn take_least(set: &mut BTreeSet<usize>) -> Option<usize>
    ensures member { IfSome result (λ v. queued set.old v ≡ true) }
    ensures least { IfSome result (λ v. (u : ℕ) → u < v → queued set.old u ≡ false) }
    ensures gone { IfSome result (λ v. queued set.new v ≡ false) }
    ensures others { IfSome result (λ v. (u : ℕ) → (u ≡ v → ⊥) → queued set.new u ≡ queued set.old u) }
    ensures none { IfNone result ((v : ℕ) → queued set.new v ≡ false) }
    ensures unchanged { IfNone result (set.new.keys ≡ set.old.keys) }
{
    set.pop_first()
}

/// Puts a vertex into a set.
fn put(set: &mut BTreeSet<usize>, vertex: usize) -> Result<(), AllocFailed<usize>>
    ensures member { OnOk result (queued set.new vertex ≡ true) }
    ensures others { OnOk result ((u : ℕ) → (u ≡ vertex → ⊥) → queued set.new u ≡ queued set.old u) }
{
    set.insert(vertex)?;
    Ok(())
}

/// How many of the first predecessors stand, of which at least `from` do: all of them, or those in front of one that doesn't.
fn standing(predecessors: &[usize], placed: &[bool], from: usize) -> usize
    requires { from ≤ length predecessors.now }
    ensures { IsLookedThrough predecessors.now placed.now from result }
{
    for i in from..predecessors.len() {
        if !is_marked(placed, predecessors[i]) {
            return i;
        }
    }
    predecessors.len()
}

fn is_marked(marks: &[bool], vertex: usize) -> bool
    ensures { result ≡ stands marks.now vertex }
{
    if vertex < marks.len() {
        marks[vertex]
    } else {
        false
    }
}

/// The vertices without a predecessor.
fn sources(alloc: Global, predecessors: &[Vec<usize>]) -> Result<BTreeSet<usize>, AllocError>
    ensures { IfOk result (λ set. HasSources (graph_of predecessors.now) (queued set) (length predecessors.now)) }
{
    let mut set = BTreeSet::new(alloc);
    for vertex in 0..predecessors.len() {
        if predecessors_of(predecessors, vertex).is_empty() {
            put(&mut set, vertex)?;
        }
    }
    Ok(set)
}
