// A pattern, cycle by cycle on both sides.

ghost use Rattle.std.specs.Prelude.{◌≡◌, ℕ, ◌+◌, ◌*◌, ◌^◌, ◌<◌, ◌≤◌, ◌++◌, length, IfOk};
ghost use Rattle.rst_gate.specs.Patterns.{IsPattern, free_bits, free_count};
ghost use Rattle.rst_clause.specs.Literals.{IsLiteral, AreLiterals};
ghost use Rattle.rst_pair.specs.Sides.{left_machine};
ghost use Rattle.rst_pose.specs.Posed.{free_literals, cycle_literals, framed, pattern_literals};
ghost use Rattle.rst_pose.specs.Posing.{IsSmall, Grows, framed_by, IsCycleOf};

use crate::gate::{Cycle, both_sides};
use crate::states::{cycle_literals, free_literals};
use rst_clause::{ClauseDomain, Lit};
use rst_gate::{Cube, free_places};
use rst_outside::NoMemory;
use rst_pair::Pair;
use rst_value::Tern;
use std::alloc::Global;

// The literals of the left side, then those of the right one.
pub(crate) fn joined(alloc: Global, left: &[Lit], right: &[Lit]) -> Result<Vec<Lit>, NoMemory>
    ensures value { IfOk result (λ lits. lits.items ≡ left.now ++ right.now) }
    ensures count { IfOk result (λ lits. length lits.items ≡ length left.now + length right.now) }
    ensures held { IfOk result (λ lits. (n : ℕ) → AreLiterals n left.now → AreLiterals n right.now → AreLiterals n lits.items) }
{
    let mut lits = Vec::from_slice(alloc, left)?;
    lits.extend_from_slice(right)?;
    Ok(lits)
}

// One cycle of a pattern on both sides, whose free bits follow those before.
fn turn(
    alloc: Global,
    pair: &Pair,
    dom: &mut ClauseDomain,
    low: Lit,
    places: &[Tern],
    before: u32,
    left: &[Lit],
    right: &[Lit],
) -> Result<Cycle, NoMemory>
    requires small_left { IsSmall pair.now.left }
    requires small_right { IsSmall pair.now.right }
    requires each_input { length places.now ≡ pair.now.left.inputs }
    requires each_left { length left.now ≡ pair.now.left.states }
    requires each_right { length right.now ≡ pair.now.right.states }
    requires low { IsLiteral dom.old.clauses.vars low }
    requires before { before + free_count places.now ≤ dom.old.clauses.vars }
    requires left { AreLiterals dom.old.clauses.vars left.now }
    requires right { AreLiterals dom.old.clauses.vars right.now }
    requires room { dom.old.clauses.vars + 132610 < 2 ^ 31 }
    ensures gives { IfOk result (λ c. framed pair.now (cycle_literals low places.now before) left.now right.now dom.old.clauses.fixed ≡ framed_by c dom.new.clauses.fixed) }
    ensures held { IfOk result (λ c. IsCycleOf pair.now dom.new.clauses.vars c) }
    ensures grows { IfOk result (λ _. Grows 132610 dom.old dom.new) }
{
    let inputs = cycle_literals(alloc, low, places, before)?;
    both_sides(alloc, pair, dom, inputs.as_slice(), left, right)
}

// The literals of the pair behind a pattern.
pub(crate) fn behind_pattern(
    alloc: Global,
    pair: &Pair,
    dom: &mut ClauseDomain,
    low: Lit,
    pattern: &[Cube],
) -> Result<Vec<Lit>, NoMemory>
    requires small_left { IsSmall pair.now.left }
    requires small_right { IsSmall pair.now.right }
    requires pattern { IsPattern (left_machine pair.now) pattern.now }
    requires cycles { length pattern.now ≤ 128 }
    requires low { IsLiteral dom.old.clauses.vars low }
    requires free { pair.now.left.states + pair.now.right.states + free_bits pattern.now ≤ dom.old.clauses.vars }
    requires room { dom.old.clauses.vars + 132610 * length pattern.now < 2 ^ 31 }
    ensures gives { IfOk result (λ lits. pattern_literals pair.now low pattern.now (pair.now.left.states + pair.now.right.states) (free_literals 0 pair.now.left.states) (free_literals pair.now.left.states pair.now.right.states) dom.old.clauses.fixed ≡ (lits.items, dom.new.clauses.fixed)) }
    ensures count { IfOk result (λ lits. length lits.items ≡ pair.now.left.states + pair.now.right.states) }
    ensures held { IfOk result (λ lits. AreLiterals dom.new.clauses.vars lits.items) }
    ensures grows { IfOk result (λ _. Grows (132610 * length pattern.now) dom.old dom.new) }
{
    let left_gates = pair.left;
    let right_gates = pair.right;
    let mut left = free_literals(alloc, 0, left_gates.states)?;
    let mut right = free_literals(alloc, left_gates.states, right_gates.states)?;
    let mut before = left_gates.states + right_gates.states;
    for cube in pattern {
        let places = cube.as_slice();
        let cycle = turn(
            alloc,
            pair,
            dom,
            low,
            places,
            before,
            left.as_slice(),
            right.as_slice(),
        )?;
        let Cycle {
            left: first,
            right: second,
        } = cycle;
        left = first.nexts;
        right = second.nexts;
        before += free_places(cube) as u32;
    }
    joined(alloc, left.as_slice(), right.as_slice())
}

// How many places of a pattern are free.
pub(crate) fn free_bits(pair: &Pair, pattern: &[Cube]) -> u32
    requires small { IsSmall pair.now.left }
    requires pattern { IsPattern (left_machine pair.now) pattern.now }
    requires cycles { length pattern.now ≤ 128 }
    ensures value { result ≡ free_bits pattern.now }
    ensures few { result ≤ 32768 }
{
    let mut count = 0;
    for cube in pattern {
        count += free_places(cube) as u32;
    }
    count
}
