// Ranks of units along their edges. They come from one search for the groups of units that lie on cycles together (Tarjan 1972), in
// time linear in the units and the edges. Nothing rests on the search: what the ranks say is tested before it is used.

ghost use Rattle.std.specs.Prelude.{◌≡◌, ℕ, ◌<◌, true, [], length, slice_index_or};
ghost use Rattle.rst_order.specs.Graphs.{graph_of};
ghost use Rattle.rst_flow.specs.Ranking.{rises, AllRise};

use std::alloc::{AllocError, AllocFailed, Global};

/// For each unit a rank, and whether it lies on no cycle.
#[derive(Drop)]
pub struct Ranks {
    pub rank: Vec<usize>,
    pub alone: Vec<bool>,
}

fn number_at(table: &[usize], place: usize) -> usize
    ensures { result ≡ slice_index_or table.now place 0 }
{
    if place < table.len() { table[place] } else { 0 }
}

fn mark_at(marks: &[bool], place: usize) -> bool
    ensures { result ≡ slice_index_or marks.now place true }
{
    if place < marks.len() {
        marks[place]
    } else {
        true
    }
}

/// Whether the ranks say of a unit that it lies on no cycle.
pub fn is_alone(ranks: &Ranks, unit: usize) -> bool
    ensures { result ≡ slice_index_or ranks.now.alone.items unit true }
{
    mark_at(&ranks.alone, unit)
}

/// Whether an edge leads to a higher rank, or to the same rank between units that may lie on a cycle.
fn rises(ranks: &Ranks, from: usize, to: usize) -> bool
    ensures { result ≡ rises ranks.now.rank.items ranks.now.alone.items from to }
{
    let first = number_at(&ranks.rank, from);
    let second = number_at(&ranks.rank, to);
    first < second || (first == second && (!is_alone(ranks, from) && !is_alone(ranks, to)))
}

fn all_rise_to(ranks: &Ranks, predecessors: &[usize], unit: usize) -> bool
    ensures { result ≡ true → (k : ℕ) → k < length predecessors.now → rises ranks.now.rank.items ranks.now.alone.items (slice_index_or predecessors.now k 0) unit ≡ true }
{
    for before in predecessors {
        if !rises(ranks, *before, unit) {
            return false;
        }
    }
    true
}

/// The predecessors of a unit.
fn row_of<'a>(predecessors: &'a [Vec<usize>], unit: usize) -> &'a [usize]
    ensures { result.now ≡ slice_index_or (graph_of predecessors.now) unit [] }
{
    if unit < predecessors.len() {
        &predecessors[unit]
    } else {
        &[]
    }
}

/// Whether all edges rise.
pub fn all_rise(ranks: &Ranks, predecessors: &[Vec<usize>]) -> bool
    ensures { result ≡ true → AllRise ranks.now.rank.items ranks.now.alone.items (graph_of predecessors.now) }
{
    for unit in 0..predecessors.len() {
        if !all_rise_to(ranks, row_of(predecessors, unit), unit) {
            return false;
        }
    }
    true
}

/// How far the search has come.
#[derive(Drop)]
struct Search {
    /// When a unit was met first, from 1, or 0.
    met: Vec<usize>,
    /// The earliest unit on the path that it is known to reach.
    low: Vec<usize>,
    /// Whether a unit was met whose group isn't whole yet.
    open_: Vec<bool>,
    /// These units.
    group: Vec<usize>,
    /// The units on the path, and how many of their predecessors were looked at.
    path: Vec<(usize, usize)>,
    count: usize,
    groups: usize,
    ranks: Ranks,
}

fn put(table: &mut Vec<usize>, place: usize, number: usize) {
    if place < table.len() {
        table[place] = number;
    }
}

fn mark(marks: &mut Vec<bool>, place: usize, value: bool) {
    if place < marks.len() {
        marks[place] = value;
    }
}

fn predecessor(predecessors: &[Vec<usize>], unit: usize, place: usize) -> Option<usize> {
    row_of(predecessors, unit).get(place).copied()
}

fn leads_to_itself(predecessors: &[Vec<usize>], unit: usize) -> bool {
    row_of(predecessors, unit).contains(&unit)
}

impl Search {
    fn new(alloc: Global, units: usize) -> Result<Search, AllocError> {
        let met = vec![in alloc; 0usize; units]?;
        let low = vec![in alloc; 0usize; units]?;
        let open_ = vec![in alloc; false; units]?;
        let rank = vec![in alloc; 0usize; units]?;
        let alone = vec![in alloc; false; units]?;
        Ok(Search {
            met,
            low,
            open_,
            group: Vec::new(alloc),
            path: Vec::new(alloc),
            count: 0,
            groups: 0,
            ranks: Ranks { rank, alone },
        })
    }

    fn enter(&mut self, unit: usize) -> Result<(), AllocError> {
        self.count = self.count.saturating_add(1);
        put(&mut self.met, unit, self.count);
        put(&mut self.low, unit, self.count);
        mark(&mut self.open_, unit, true);
        self.group.push(unit)?;
        self.path.push((unit, 0))?;
        Ok(())
    }

    fn reaches(&mut self, unit: usize, earlier: usize) {
        if earlier < number_at(&self.low, unit) {
            put(&mut self.low, unit, earlier);
        }
    }

    /// Closes the group of a unit, which all units met behind it belong to.
    fn close(&mut self, predecessors: &[Vec<usize>], unit: usize) {
        self.groups = self.groups.saturating_add(1);
        let mut others = false;
        while let Some(member) = self.group.pop() {
            mark(&mut self.open_, member, false);
            put(&mut self.ranks.rank, member, self.groups);
            if member == unit {
                let alone = !others && !leads_to_itself(predecessors, unit);
                mark(&mut self.ranks.alone, unit, alone);
                return;
            }
            others = true;
        }
    }

    /// One step along the path; false where it is empty.
    fn step(&mut self, predecessors: &[Vec<usize>]) -> Result<bool, AllocError> {
        let Some((unit, place)) = self.path.pop() else {
            return Ok(false);
        };
        match predecessor(predecessors, unit, place) {
            Some(before) => {
                self.path.push((unit, place.saturating_add(1)))?;
                let met = number_at(&self.met, before);
                if met == 0 {
                    self.enter(before)?;
                } else if mark_at(&self.open_, before) {
                    self.reaches(unit, met);
                }
            }
            None => self.leave(predecessors, unit),
        }
        Ok(true)
    }

    fn leave(&mut self, predecessors: &[Vec<usize>], unit: usize) {
        let low = number_at(&self.low, unit);
        if low == number_at(&self.met, unit) {
            self.close(predecessors, unit);
        } else if let Some((above, _)) = self.path.last().copied() {
            self.reaches(above, low);
        }
    }

    fn walk(&mut self, predecessors: &[Vec<usize>], unit: usize) -> Result<(), AllocError> {
        if number_at(&self.met, unit) == 0 {
            self.enter(unit)?;
            for _ in 0..u64::MAX {
                if !self.step(predecessors)? {
                    return Ok(());
                }
            }
        }
        Ok(())
    }
}

/// Ranks of all units.
pub fn ranks_of(alloc: Global, predecessors: &[Vec<usize>]) -> Result<Ranks, AllocError> {
    let mut search = Search::new(alloc, predecessors.len())?;
    for unit in 0..predecessors.len() {
        search.walk(predecessors, unit)?;
    }
    Ok(search.ranks)
}
