// The literals of states and inputs: free bits, shared ones and constants.

ghost use Rattle.std.specs.Prelude.{◌≡◌, ℕ, ◌+◌, ◌^◌, ◌<◌, ◌≤◌, pos, false, if◌then◌else◌, [], ◌∷◌, length, IfOk, slice_index_or, unsigned_abs};
ghost use Rattle.rst_clause.specs.Literals.{AreLiterals, IsLiteral};
ghost use Rattle.rst_gate.specs.Patterns.{free_of, free_count};
ghost use Rattle.rst_pair.specs.Queries.{open_count};
ghost use Rattle.rst_pose.specs.Posed.{free_literals, sharing_literals, cycle_literals};

use rst_clause::Lit;
use rst_outside::NoMemory;
use rst_value::Tern;
use std::alloc::Global;

// So many free bits, behind those before.
pub(crate) fn free_literals(alloc: Global, before: u32, count: u32) -> Result<Vec<Lit>, NoMemory>
    requires { before + count < 2 ^ 31 }
    ensures value { IfOk result (λ lits. lits.items ≡ free_literals before count) }
    ensures count { IfOk result (λ lits. length lits.items ≡ count) }
    ensures held { IfOk result (λ lits. AreLiterals (before + count) lits.items) }
{
    let mut lits = Vec::new(alloc);
    for i in 0..count {
        lits.push(Lit::of_variable(before + i + 1))?;
    }
    Ok(lits)
}

// The literal of an input, and the last free bit behind it.
fn place_literal(low: Lit, place: Tern, last: u32) -> (Lit, u32)
    requires few { last + free_of place < 2 ^ 31 }
    requires low { unsigned_abs low < 2 ^ 31 }
    ensures value { cycle_literals low (place ∷ []) last ≡ result.0 ∷ [] }
    ensures last { result.1 ≡ last + free_of place }
{
    match place {
        Tern::Zero => (low, last),
        Tern::One => (low.opposite(), last),
        Tern::Unknown => (Lit::of_variable(last + 1), last + 1),
    }
}

// Whether the register is marked. None is behind the end of the marks.
fn is_marked(marks: &[bool], i: usize) -> bool
    ensures { result ≡ slice_index_or marks.now i false }
{
    if i < marks.len() { marks[i] } else { false }
}

// One where the register isn't marked.
fn open_at(marks: &[bool], i: usize) -> u32
    ensures { result ≡ (if slice_index_or marks.now i false then 0 else 1) }
{
    if is_marked(marks, i) { 0 } else { 1 }
}

// How many of the registers aren't marked.
pub(crate) fn open_count(count: u32, marks: &[bool]) -> u32
    ensures value { result ≡ open_count count marks.now }
    ensures most { result ≤ count }
{
    let mut open = 0;
    for i in 0..count {
        open += open_at(marks, i as usize);
    }
    open
}

// The literal of a register of the right state: that of the left one where it is marked, and
// elsewhere the next free bit.
fn register_literal(marks: &[bool], left: &[Lit], i: usize, last: u32) -> Lit
    requires marks { length marks.now ≡ length left.now }
    requires few { last + 1 < 2 ^ 31 }
    requires held { AreLiterals last left.now }
    ensures value { result ≡ (if slice_index_or marks.now i false then slice_index_or left.now i (pos 0) else pos (last + 1)) }
    ensures held { IsLiteral (last + (if slice_index_or marks.now i false then 0 else 1)) result }
{
    if is_marked(marks, i) {
        left[i]
    } else {
        Lit::of_variable(last + 1)
    }
}

// The literals of the right state: those of the left one where registers are marked, and elsewhere
// the next free bits.
pub(crate) fn sharing_literals(
    alloc: Global,
    count: u32,
    marks: &[bool],
    left: &[Lit],
    before: u32,
) -> Result<Vec<Lit>, NoMemory>
    requires marks { length marks.now ≡ length left.now }
    requires held { AreLiterals before left.now }
    requires few { before + count < 2 ^ 31 }
    ensures value { IfOk result (λ lits. lits.items ≡ sharing_literals count marks.now left.now before) }
    ensures count { IfOk result (λ lits. length lits.items ≡ count) }
    ensures held { IfOk result (λ lits. AreLiterals (before + open_count count marks.now) lits.items) }
{
    let mut lits = Vec::new(alloc);
    let mut last = before;
    for i in 0..count {
        let lit = register_literal(marks, left, i as usize, last);
        lits.push(lit)?;
        last += open_at(marks, i as usize);
    }
    Ok(lits)
}

// The inputs of a cycle: constants by the false literal, and at its free places the next free bits.
pub(crate) fn cycle_literals(
    alloc: Global,
    low: Lit,
    places: &[Tern],
    before: u32,
) -> Result<Vec<Lit>, NoMemory>
    requires few { before + free_count places.now < 2 ^ 31 }
    requires low { unsigned_abs low < 2 ^ 31 }
    ensures value { IfOk result (λ lits. lits.items ≡ cycle_literals low places.now before) }
    ensures count { IfOk result (λ lits. length lits.items ≡ length places.now) }
    ensures held { IfOk result (λ lits. (n : ℕ) → before + free_count places.now ≤ n → IsLiteral n low → AreLiterals n lits.items) }
{
    let mut lits = Vec::new(alloc);
    let mut last = before;
    for place in places {
        let (lit, next) = place_literal(low, *place, last);
        lits.push(lit)?;
        last = next;
    }
    Ok(lits)
}
