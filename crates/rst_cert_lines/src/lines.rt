// The lines of certificates.
ghost use Rattle.std.specs.Prelude.{◌≡◌};
ghost use Rattle.rst_cert_lines.specs.Reading.{Gives};
ghost use Rattle.rst_cert_lines.specs.Readers.{step_at, free_step_at, counted_at, state_at, clause_at, target_at, hop_at, hop_line_at, pair_at, first_bit, candidate_at, kind_at, fits_query, least_places, more_places, conflict_at, built_at, blocked_entry_at, freed_entry_at, entry_at};

use crate::{Cursor, LineFault};
use rst_clause::Clause;
use rst_gate::{Bits, Cube};
use rst_pair::{Entry, Hop, Kind};
use std::alloc::Global;

/// How many register and input bits the design has.
#[derive(Clone, Copy)]
pub struct Shape {
    pub registers: u16,
    pub inputs: u16,
}

/// Where a unit of work stands.
#[derive(Clone, Copy)]
pub struct Place {
    /// How many register and input bits the design has.
    pub shape: Shape,
    /// How many registers are marked.
    pub marked: u16,
    /// Whether bits may be free: in version 2.
    pub free: bool,
    /// How many blocked hops stand before.
    pub blocked: u32,
    /// How many freed hops stand before.
    pub freed: u32,
}

/// Reads the input of a cycle.
#[tactic(auto, unfolding(crate::specs::Readers::step_at))]
pub fn step(cursor: &mut Cursor, alloc: Global, inputs: u16) -> Result<Bits, LineFault>
    ensures { Gives (step_at inputs cursor.old) result cursor.new }
{
    cursor.after(b"step =")?;
    cursor.bits(alloc, inputs as usize)
}

/// Reads the input of a cycle, whose bits may be free.
#[tactic(auto, unfolding(crate::specs::Readers::free_step_at))]
pub fn free_step(cursor: &mut Cursor, alloc: Global, inputs: u16) -> Result<Cube, LineFault>
    ensures { Gives (free_step_at inputs cursor.old) result cursor.new }
{
    cursor.after(b"step =")?;
    cursor.places(alloc, inputs as usize)
}

/// Reads a word and a number.
#[tactic(auto, unfolding(crate::specs::Readers::counted_at))]
pub fn counted(cursor: &mut Cursor, word: &[u8]) -> Result<u64, LineFault>
    ensures { Gives (counted_at word.now cursor.old) result cursor.new }
{
    cursor.after(word)?;
    cursor.after(b" ")?;
    cursor.number()
}

/// Reads a word and so many bits.
#[tactic(auto, unfolding(crate::specs::Readers::state_at))]
pub fn state(cursor: &mut Cursor, alloc: Global, word: &[u8], count: u16) -> Result<Bits, LineFault>
    ensures { Gives (state_at word.now count cursor.old) result cursor.new }
{
    cursor.after(word)?;
    cursor.after(b" =")?;
    cursor.bits(alloc, count as usize)
}

/// Reads a clause of a log.
#[tactic(auto, unfolding(crate::specs::Readers::clause_at))]
pub fn clause(cursor: &mut Cursor, alloc: Global) -> Result<Clause, LineFault>
    ensures { Gives (clause_at cursor.old) result cursor.new }
{
    cursor.after(b"clause ")?;
    cursor.literals(alloc)
}

// Where a hop leads that has so many before it.
#[tactic(auto, unfolding(crate::specs::Readers::target_at))]
fn target(cursor: &mut Cursor, word: &[u8], before: u32) -> Result<Option<u32>, LineFault>
    ensures { Gives (target_at word.now before cursor.old) result cursor.new }
{
    if cursor.after(word).is_ok() {
        return Ok(None);
    }
    cursor.after(b"to ")?;
    let next = cursor.number()?;
    if next < u64::from(before) {
        Ok(Some(next as u32))
    } else {
        Err(LineFault::Wrong)
    }
}

// A hop that has so many before it.
#[tactic(auto, unfolding(crate::specs::Readers::hop_at))]
fn hop(
    cursor: &mut Cursor,
    alloc: Global,
    shape: Shape,
    word: &[u8],
    before: u32,
) -> Result<Hop, LineFault>
    ensures { Gives (hop_at shape word.now before cursor.old) result cursor.new }
{
    cursor.after(b"=")?;
    let cube = cursor.places(alloc, 2 * shape.registers as usize)?;
    cursor.after(b" via =")?;
    let input = cursor.bits(alloc, shape.inputs as usize)?;
    cursor.after(b" ")?;
    let next = target(cursor, word, before)?;
    Ok(Hop { cube, input, next })
}

/// Reads a hop that has so many before it.
#[tactic(auto, unfolding(crate::specs::Readers::hop_line_at))]
pub fn hop_line(
    cursor: &mut Cursor,
    alloc: Global,
    shape: Shape,
    word: &[u8],
    before: u32,
) -> Result<Hop, LineFault>
    ensures { Gives (hop_line_at shape word.now before cursor.old) result cursor.new }
{
    cursor.after(b"cube ")?;
    hop(cursor, alloc, shape, word, before)
}

// The pair that a hop was found for.
#[tactic(auto, unfolding(crate::specs::Readers::pair_at))]
fn pair(cursor: &mut Cursor, alloc: Global, registers: u16) -> Result<Bits, LineFault>
    ensures { Gives (pair_at registers cursor.old) result cursor.new }
{
    cursor.after(b" pair =")?;
    cursor.bits(alloc, 2 * registers as usize)
}

fn first_bit(bits: &[bool]) -> bool
    ensures { result ≡ first_bit bits.now }
{
    match bits.first() {
        Some(bit) => *bit,
        None => false,
    }
}

// An input bit and its level.
#[tactic(auto, unfolding(crate::specs::Readers::candidate_at))]
fn candidate(cursor: &mut Cursor, alloc: Global) -> Result<Entry, LineFault>
    ensures { Gives (candidate_at cursor.old) result cursor.new }
{
    let input = cursor.number()?;
    if input > 4_294_967_295 {
        return Err(LineFault::Wrong);
    }
    cursor.after(b" ")?;
    let level = cursor.bits(alloc, 1)?;
    Ok(Entry::Candidate(input as u32, first_bit(level.as_slice())))
}

#[tactic(auto, unfolding(crate::specs::Readers::kind_at))]
fn kind(cursor: &mut Cursor) -> Result<Kind, LineFault>
    ensures { Gives (kind_at cursor.old) result cursor.new }
{
    if cursor.after(b"split").is_ok() {
        return Ok(Kind::Split);
    }
    if cursor.after(b"land").is_ok() {
        return Ok(Kind::Land);
    }
    if cursor.after(b"escape").is_ok() {
        return Ok(Kind::Escape);
    }
    cursor.after(b"stuck")?;
    Ok(Kind::Stuck)
}

fn least_places(shape: Shape, marked: u16, kind: Kind) -> usize
    ensures { result ≡ least_places shape marked kind }
{
    let registers = shape.registers as usize;
    let inputs = shape.inputs as usize;
    match kind {
        Kind::Split => inputs + (registers + registers.saturating_sub(marked as usize)),
        Kind::Land | Kind::Stuck => registers + registers,
        Kind::Escape => inputs + (registers + registers),
    }
}

fn more_places(free: bool, kind: Kind) -> usize
    ensures { result ≡ more_places free kind }
{
    match kind {
        Kind::Land => if free { 1024 } else { 0 },
        _ => 0,
    }
}

fn fits_query(shape: Shape, marked: u16, free: bool, kind: Kind, count: usize) -> bool
    ensures { result ≡ fits_query shape marked free kind count }
{
    let least = least_places(shape, marked, kind);
    let more = more_places(free, kind);
    least <= count && count - least <= more
}

// A path of a query, up to the end.
#[tactic(auto, unfolding(crate::specs::Readers::conflict_at))]
fn conflict(
    cursor: &mut Cursor,
    alloc: Global,
    shape: Shape,
    marked: u16,
    free: bool,
) -> Result<Entry, LineFault>
    ensures { Gives (conflict_at shape marked free cursor.old) result cursor.new }
{
    let kind = kind(cursor)?;
    cursor.after(b" =")?;
    let count = cursor.len();
    if !fits_query(shape, marked, free, kind, count) {
        return Err(LineFault::Wrong);
    }
    let cube = cursor.places(alloc, count)?;
    Ok(Entry::Conflict(kind, cube))
}

// Two states.
#[tactic(auto, unfolding(crate::specs::Readers::built_at))]
fn built(cursor: &mut Cursor, alloc: Global, registers: u16) -> Result<Entry, LineFault>
    ensures { Gives (built_at registers cursor.old) result cursor.new }
{
    cursor.after(b"=")?;
    let a = cursor.bits(alloc, registers as usize)?;
    cursor.after(b" =")?;
    let b = cursor.bits(alloc, registers as usize)?;
    Ok(Entry::Built(a, b))
}

#[tactic(auto, unfolding(crate::specs::Readers::blocked_entry_at))]
fn blocked(
    cursor: &mut Cursor,
    alloc: Global,
    shape: Shape,
    before: u32,
) -> Result<Entry, LineFault>
    ensures { Gives (blocked_entry_at shape before cursor.old) result cursor.new }
{
    let hop = hop(cursor, alloc, shape, b"out", before)?;
    let pair = pair(cursor, alloc, shape.registers)?;
    Ok(Entry::Blocked(hop, pair))
}

#[tactic(auto, unfolding(crate::specs::Readers::freed_entry_at))]
fn freed(cursor: &mut Cursor, alloc: Global, shape: Shape, before: u32) -> Result<Entry, LineFault>
    ensures { Gives (freed_entry_at shape before cursor.old) result cursor.new }
{
    let hop = hop(cursor, alloc, shape, b"in", before)?;
    let pair = pair(cursor, alloc, shape.registers)?;
    Ok(Entry::Freed(hop, pair))
}

/// Reads a unit of work, by its first word.
#[tactic(auto, unfolding(crate::specs::Readers::entry_at))]
pub fn entry(cursor: &mut Cursor, alloc: Global, place: Place) -> Result<Entry, LineFault>
    ensures { Gives (entry_at place cursor.old) result cursor.new }
{
    if cursor.after(b"candidate ").is_ok() {
        return candidate(cursor, alloc);
    }
    if cursor.after(b"conflict ").is_ok() {
        return conflict(cursor, alloc, place.shape, place.marked, place.free);
    }
    if cursor.after(b"blocked ").is_ok() {
        return blocked(cursor, alloc, place.shape, place.blocked);
    }
    if cursor.after(b"freed ").is_ok() {
        return freed(cursor, alloc, place.shape, place.freed);
    }
    cursor.after(b"built ")?;
    built(cursor, alloc, place.shape.registers)
}
