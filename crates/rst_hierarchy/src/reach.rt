// Which modules lead to which, how deep the hierarchy is, and how many instances it has.

ghost use Rattle.std.specs.Prelude.{◌≡◌, List, true, get_or, map, min, slice_get, Some, IfOk};
ghost use Rattle.std.specs.List.{list_any};
ghost use Rattle.rst_tree.specs.Modules.{PlainModule};
ghost use Rattle.rst_hierarchy.specs.Hierarchy.{reaches, is_deep, instance_count};
ghost use Rattle.rst_hierarchy.specs.Tables.{plain_modules, placed, is_place, mark_at, mark_in, rows_of, direct_row, leads_over, doubled_row, doubled, one_marked, counted, IsTable};

use crate::modules::Modules;
use std::alloc::{AllocError, Global};

// Whether the mark at this place is set.
pub fn is_marked(marks: &[bool], place: usize) -> bool
    ensures { result ≡ mark_at marks.now place }
{
    match marks.get(place) {
        Some(mark) => *mark,
        None => false,
    }
}

// Whether the mark in this row at this place is set.
pub fn is_marked_in(rows: &[Vec<bool>], row: usize, place: usize) -> bool
    ensures { result ≡ mark_in (map (λ r. r.items) rows.now) row place }
{
    match rows.get(row) {
        Some(marks) => is_marked(marks, place),
        None => false,
    }
}

// Whether the place that is looked for is this one.
pub fn is_place(wanted: Option<usize>, place: usize) -> bool
    ensures { result ≡ is_place wanted place }
{
    match wanted {
        Some(wanted) => place == wanted,
        None => false,
    }
}

// Whether one of these is the place that is looked for.
fn has_place(places: &[usize], wanted: Option<usize>) -> bool
    ensures { result ≡ list_any (is_place wanted) places.now }
{
    for place in places {
        if is_place(wanted, *place) {
            return true;
        }
    }
    false
}

// For each module whether one instance leads to it from the module that places these.
fn direct_row(alloc: Global, modules: &Modules, places: &[usize]) -> Result<Vec<bool>, AllocError>
    requires { IsTable modules.now }
    ensures { IfOk result (λ row. row.items ≡ direct_row (plain_modules modules.now) places.now) }
{
    let mut row = Vec::new(alloc);
    for module in &modules.list {
        row.push(has_place(places, modules.place(&module.name)))?;
    }
    Ok(row)
}

// For each two modules whether one instance leads from the first to the second.
fn direct_rows(
    alloc: Global,
    modules: &Modules,
    below: &[Vec<usize>],
) -> Result<Vec<Vec<bool>>, AllocError>
    requires { IsTable modules.now }
    ensures { IfOk result (λ rows. map (λ r. r.items) rows.items ≡ map (direct_row (plain_modules modules.now)) (map (λ v. v.items) below.now)) }
{
    let mut rows = Vec::new(alloc);
    for places in below {
        let row = direct_row(alloc, modules, places)?;
        rows.push(row)?;
    }
    Ok(rows)
}

// A module that the row marks leads to this place.
fn leads_over(rows: &[Vec<bool>], row: &[bool], to: usize) -> bool
    ensures { result ≡ leads_over (map (λ r. r.items) rows.now) row.now to }
{
    for (over, mark) in row.iter().enumerate() {
        if *mark && is_marked_in(rows, over, to) {
            return true;
        }
    }
    false
}

fn doubled_row(alloc: Global, rows: &[Vec<bool>], row: &[bool]) -> Result<Vec<bool>, AllocError>
    ensures { IfOk result (λ made. made.items ≡ doubled_row (map (λ r. r.items) rows.now) row.now) }
{
    let mut made = Vec::new(alloc);
    for (to, mark) in row.iter().enumerate() {
        made.push(*mark || leads_over(rows, row, to))?;
    }
    Ok(made)
}

// At most twice as many instances lead from one to the other.
fn doubled(alloc: Global, rows: &[Vec<bool>]) -> Result<Vec<Vec<bool>>, AllocError>
    ensures { IfOk result (λ made. map (λ r. r.items) made.items ≡ doubled (map (λ r. r.items) rows.now)) }
{
    let mut made = Vec::new(alloc);
    for row in rows {
        let next = doubled_row(alloc, rows, row)?;
        made.push(next)?;
    }
    Ok(made)
}

// For each two modules whether at most 256 instances lead from the first to the second.
pub fn reaches(
    alloc: Global,
    modules: &Modules,
    below: &[Vec<usize>],
) -> Result<Vec<Vec<bool>>, AllocError>
    requires table { IsTable modules.now }
    requires placed { map (λ v. v.items) below.now ≡ map (placed (plain_modules modules.now)) (plain_modules modules.now) }
    ensures { IfOk result (λ rows. map (λ r. r.items) rows.items ≡ rows_of (reaches (plain_modules modules.now)) (plain_modules modules.now)) }
{
    let mut rows = direct_rows(alloc, modules, below)?;
    for _turn in 0..8_usize {
        rows = doubled(alloc, &rows)?;
    }
    Ok(rows)
}

fn one_marked(marks: &[bool], places: &[usize]) -> bool
    ensures { result ≡ one_marked marks.now places.now }
{
    for place in places {
        if is_marked(marks, *place) {
            return true;
        }
    }
    false
}

fn deeper(alloc: Global, below: &[Vec<usize>], marks: &[bool]) -> Result<Vec<bool>, AllocError>
    ensures { IfOk result (λ made. made.items ≡ map (one_marked marks.now) (map (λ v. v.items) below.now)) }
{
    let mut made = Vec::new(alloc);
    for places in below {
        made.push(one_marked(marks, places))?;
    }
    Ok(made)
}

fn all_marked(alloc: Global, below: &[Vec<usize>]) -> Result<Vec<bool>, AllocError>
    ensures { IfOk result (λ marks. marks.items ≡ map (λ v. true) below.now) }
{
    let mut marks = Vec::new(alloc);
    for _places in below {
        marks.push(true)?;
    }
    Ok(marks)
}

// Whether 16 instances stand below the module, one inside the other.
pub fn is_too_deep(alloc: Global, below: &[Vec<usize>], top: usize) -> Result<bool, AllocError>
    ensures { IfOk result (λ deep. (modules : List PlainModule) → map (λ v. v.items) below.now ≡ map (placed modules) modules → (m : PlainModule) → slice_get modules top ≡ Some m → deep ≡ is_deep 16 modules m) }
{
    let mut marks = all_marked(alloc, below)?;
    for _turn in 0..16_usize {
        marks = deeper(alloc, below, &marks)?;
    }
    Ok(is_marked(&marks, top))
}

// The most that is counted: one more instance than is allowed.
const MOST: u32 = 1025;

fn count_at(counts: &[u32], place: usize) -> u32
    ensures { result ≡ get_or counts.now place 0 }
{
    match counts.get(place) {
        Some(count) => *count,
        None => 0,
    }
}

fn counted(counts: &[u32], places: &[usize]) -> u32
    ensures { result ≡ counted counts.now places.now }
{
    let mut sum = 1u32;
    for place in places {
        sum = sum.saturating_add(count_at(counts, *place)).min(MOST);
    }
    sum
}

fn counted_all(alloc: Global, below: &[Vec<usize>], counts: &[u32]) -> Result<Vec<u32>, AllocError>
    ensures { IfOk result (λ made. made.items ≡ map (counted counts.now) (map (λ v. v.items) below.now)) }
{
    let mut made = Vec::new(alloc);
    for places in below {
        made.push(counted(counts, places))?;
    }
    Ok(made)
}

fn all_one(alloc: Global, below: &[Vec<usize>]) -> Result<Vec<u32>, AllocError>
    ensures { IfOk result (λ counts. counts.items ≡ map (λ v. 1) below.now) }
{
    let mut counts = Vec::new(alloc);
    for _places in below {
        counts.push(1)?;
    }
    Ok(counts)
}

// How many instances an instance of the module is, to a depth of 16; 1,025 stands for all above 1,024.
pub fn instance_count(alloc: Global, below: &[Vec<usize>], top: usize) -> Result<u32, AllocError>
    ensures { IfOk result (λ count. (modules : List PlainModule) → map (λ v. v.items) below.now ≡ map (placed modules) modules → (m : PlainModule) → slice_get modules top ≡ Some m → count ≡ min (instance_count 16 modules m) 1025) }
{
    let mut counts = all_one(alloc, below)?;
    for _turn in 0..16_usize {
        counts = counted_all(alloc, below, &counts)?;
    }
    Ok(count_at(&counts, top))
}
