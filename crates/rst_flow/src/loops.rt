// Cycles of units.

ghost use Rattle.std.specs.Prelude.{◌≡◌, ℕ, ◌<◌, length, IfOk, MatchBool, slice_get, Some};
ghost use Rattle.std.specs.Option.{ForSome};
ghost use Rattle.rst_order.specs.Graphs.{graph_of, IsGraph, OnCycle};
ghost use Rattle.rst_flow.specs.Ranking.{AllRise};
ghost use Rattle.rst_flow.specs.Tables.{table_of, IsAround, IsBounded, IsFirstAround};
ghost use Rattle.rst_flow.specs.declared.drives.Drive.{Drive};

use crate::drives::{Drive, drives_at};
use crate::ranks::{Ranks, all_rise, is_alone, ranks_of};
use rst_order::lies_on_cycle;
use std::alloc::{AllocError, Global};

fn is_on_cycle(
    alloc: Global,
    predecessors: &[Vec<usize>],
    ranks: &Option<Ranks>,
    drive: Drive,
) -> Result<bool, AllocError>
    requires graph { IsGraph (graph_of predecessors.now) }
    requires ranks { ForSome ranks.now (λ r. AllRise r.rank.items r.alone.items (graph_of predecessors.now)) }
    requires vertex { drive.unit < length predecessors.now }
    ensures { IfOk result (λ around. MatchBool around ((0 < drive.width) × OnCycle (graph_of predecessors.now) drive.unit) (0 < drive.width → OnCycle (graph_of predecessors.now) drive.unit → ⊥)) }
{
    if drive.width == 0 {
        return Ok(false);
    }
    if let Some(ranks) = ranks {
        if is_alone(ranks, drive.unit) {
            return Ok(false);
        }
    }
    lies_on_cycle(alloc, predecessors, drive.unit)
}

fn is_around(
    alloc: Global,
    predecessors: &[Vec<usize>],
    ranks: &Option<Ranks>,
    drives: &[Drive],
) -> Result<bool, AllocError>
    requires graph { IsGraph (graph_of predecessors.now) }
    requires ranks { ForSome ranks.now (λ r. AllRise r.rank.items r.alone.items (graph_of predecessors.now)) }
    requires bounded { (k : ℕ) (drive : Drive) → slice_get drives.now k ≡ Some drive → drive.unit < length predecessors.now }
    ensures { IfOk result (λ around. MatchBool around (IsAround (graph_of predecessors.now) drives.now) (IsAround (graph_of predecessors.now) drives.now → ⊥)) }
{
    for drive in drives {
        if is_on_cycle(alloc, predecessors, ranks, *drive)? {
            return Ok(true);
        }
    }
    Ok(false)
}

/// Ranks that rise along all edges.
fn rising_ranks(alloc: Global, predecessors: &[Vec<usize>]) -> Result<Option<Ranks>, AllocError>
    ensures { IfOk result (λ ranks. ForSome ranks (λ r. AllRise r.rank.items r.alone.items (graph_of predecessors.now))) }
{
    let ranks = ranks_of(alloc, predecessors)?;
    if all_rise(&ranks, predecessors) {
        Ok(Some(ranks))
    } else {
        Ok(None)
    }
}

fn first_around(
    alloc: Global,
    predecessors: &[Vec<usize>],
    ranks: &Option<Ranks>,
    drives: &[Vec<Drive>],
) -> Result<Option<usize>, AllocError>
    requires graph { IsGraph (graph_of predecessors.now) }
    requires ranks { ForSome ranks.now (λ r. AllRise r.rank.items r.alone.items (graph_of predecessors.now)) }
    requires bounded { IsBounded (length predecessors.now) (table_of drives.now) }
    ensures { IfOk result (IsFirstAround (graph_of predecessors.now) (table_of drives.now)) }
{
    for signal in 0..drives.len() {
        if is_around(alloc, predecessors, ranks, drives_at(drives, signal))? {
            return Ok(Some(signal));
        }
    }
    Ok(None)
}

/// The first signal that has a bit driven by a unit on a cycle. It takes time in proportion to the units and the edges.
pub fn first_looped(
    alloc: Global,
    predecessors: &[Vec<usize>],
    drives: &[Vec<Drive>],
) -> Result<Option<usize>, AllocError>
    requires graph { IsGraph (graph_of predecessors.now) }
    requires bounded { IsBounded (length predecessors.now) (table_of drives.now) }
    ensures { IfOk result (IsFirstAround (graph_of predecessors.now) (table_of drives.now)) }
{
    let ranks = rising_ranks(alloc, predecessors)?;
    first_around(alloc, predecessors, &ranks, drives)
}
