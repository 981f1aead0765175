// Posing a query: its free bits, then the gates and cubes that it reads, then what is required.

ghost use Rattle.std.specs.Prelude.{◌≡◌, ◌+◌, ◌^◌, ◌<◌, ◌≤◌, ◌++◌, length, IfOk, OnOk};
ghost use Rattle.rst_gate.specs.Patterns.{free_bits};
ghost use Rattle.rst_clause.specs.Literals.{IsLiteral, AreLiterals};
ghost use Rattle.rst_pair.specs.declared.query.Query.TheVariants.{Split, Land, LandFree, Escape, Stuck};
ghost use Rattle.rst_pose.specs.Posed.{true_literal, asked_split, asked_blocked, asked_land, asked_stuck, asked_leaving, asked_escape, posed};
ghost use Rattle.rst_pose.specs.Posing.{IsWithin, IsPosable, posed_of, Asks};

use crate::cubes::{in_cubes, in_none, outs_differ, require_each_false};
use crate::gate::both_sides;
use crate::land::{behind_pattern, free_bits, joined};
use crate::states::{free_literals, open_count, sharing_literals};
use rst_clause::{ClauseDomain, Clauses, Lit};
use rst_gate::{Bits, Pattern, known_pattern};
use rst_outside::NoMemory;
use rst_pair::{Front, Pair, Query};
use std::alloc::Global;

// The literal that is true where so many bits are free.
fn true_literal(free: u32) -> Lit
    requires { free < 2 ^ 30 }
    ensures value { result ≡ true_literal free }
    ensures held { IsLiteral (free + 1) result }
{
    Lit::of_variable(free + 1).opposite()
}

// Asks that the pair splits.
fn ask_split(
    alloc: Global,
    pair: &Pair,
    front: &Front,
    dom: &mut ClauseDomain,
    inputs: &[Lit],
    left: &[Lit],
    right: &[Lit],
) -> Result<(), NoMemory>
    requires within { IsWithin pair.now front.now }
    requires each_input { length inputs.now ≡ pair.now.left.inputs }
    requires each_left { length left.now ≡ pair.now.left.states }
    requires each_right { length right.now ≡ pair.now.right.states }
    requires inputs { AreLiterals dom.old.clauses.vars inputs.now }
    requires left { AreLiterals dom.old.clauses.vars left.now }
    requires right { AreLiterals dom.old.clauses.vars right.now }
    requires few { dom.old.clauses.vars ≤ 65536 }
    ensures { OnOk result (Asks 204932866 (asked_split pair.now front.now (true_literal dom.old.clauses.free) inputs.now left.now right.now dom.old.clauses.fixed) dom.old dom.new) }
{
    let high = true_literal(dom.clauses.free);
    let blocked = front.blocked.as_slice();
    let cycle = both_sides(alloc, pair, dom, inputs, left, right)?;
    let now = joined(alloc, left, right)?;
    let next = joined(
        alloc,
        cycle.left.nexts.as_slice(),
        cycle.right.nexts.as_slice(),
    )?;
    let held = in_cubes(alloc, dom, high, blocked, now.as_slice())?;
    let mut leaves = outs_differ(
        alloc,
        dom,
        cycle.left.outs.as_slice(),
        cycle.right.outs.as_slice(),
    )?;
    let reached = in_cubes(alloc, dom, high, blocked, next.as_slice())?;
    leaves.extend_from_slice(reached.as_slice())?;
    require_each_false(dom, held.as_slice())?;
    dom.require(leaves.as_slice())?;
    Ok(())
}

// Asks that the pair lies in a blocked cube.
fn ask_blocked(
    alloc: Global,
    pair: &Pair,
    front: &Front,
    dom: &mut ClauseDomain,
    both: &[Lit],
) -> Result<(), NoMemory>
    requires within { IsWithin pair.now front.now }
    requires each { length both.now ≡ pair.now.left.states + pair.now.right.states }
    requires both { AreLiterals dom.old.clauses.vars both.now }
    requires few { dom.old.clauses.vars ≤ 17104896 }
    ensures { OnOk result (Asks 102400000 (asked_blocked front.now (true_literal dom.old.clauses.free) both.now dom.old.clauses.fixed) dom.old dom.new) }
{
    let high = true_literal(dom.clauses.free);
    let found = in_cubes(alloc, dom, high, front.blocked.as_slice(), both)?;
    dom.require(found.as_slice())?;
    Ok(())
}

// Asks that the pair lies in a blocked and in no freed cube.
fn ask_stuck(
    alloc: Global,
    pair: &Pair,
    front: &Front,
    dom: &mut ClauseDomain,
    both: &[Lit],
) -> Result<(), NoMemory>
    requires within { IsWithin pair.now front.now }
    requires each { length both.now ≡ pair.now.left.states + pair.now.right.states }
    requires both { AreLiterals dom.old.clauses.vars both.now }
    requires few { dom.old.clauses.vars ≤ 198146 }
    ensures { OnOk result (Asks 204800000 (asked_stuck front.now (true_literal dom.old.clauses.free) both.now dom.old.clauses.fixed) dom.old dom.new) }
{
    let high = true_literal(dom.clauses.free);
    let blocked = in_cubes(alloc, dom, high, front.blocked.as_slice(), both)?;
    let freed = in_cubes(alloc, dom, high, front.freed.as_slice(), both)?;
    dom.require(blocked.as_slice())?;
    require_each_false(dom, freed.as_slice())
}

// Asks that the pair lies in no blocked cube or in a freed one.
fn ask_leaving(
    alloc: Global,
    pair: &Pair,
    front: &Front,
    dom: &mut ClauseDomain,
    both: &[Lit],
) -> Result<(), NoMemory>
    requires within { IsWithin pair.now front.now }
    requires each { length both.now ≡ pair.now.left.states + pair.now.right.states }
    requires both { AreLiterals dom.old.clauses.vars both.now }
    requires few { dom.old.clauses.vars ≤ 204998146 }
    ensures { OnOk result (Asks 204900000 (asked_leaving front.now (true_literal dom.old.clauses.free) both.now dom.old.clauses.fixed) dom.old dom.new) }
{
    let high = true_literal(dom.clauses.free);
    let none = in_none(dom, high, front.blocked.as_slice(), both)?;
    let mut leaves = Vec::from_slice(alloc, &[none])?;
    let freed = in_cubes(alloc, dom, high, front.freed.as_slice(), both)?;
    leaves.extend_from_slice(freed.as_slice())?;
    dom.require(leaves.as_slice())?;
    Ok(())
}

// Asks that the pair is stuck, and that its successors leave.
fn ask_escape(
    alloc: Global,
    pair: &Pair,
    front: &Front,
    dom: &mut ClauseDomain,
    inputs: &[Lit],
    left: &[Lit],
    right: &[Lit],
) -> Result<(), NoMemory>
    requires within { IsWithin pair.now front.now }
    requires each_input { length inputs.now ≡ pair.now.left.inputs }
    requires each_left { length left.now ≡ pair.now.left.states }
    requires each_right { length right.now ≡ pair.now.right.states }
    requires inputs { AreLiterals dom.old.clauses.vars inputs.now }
    requires left { AreLiterals dom.old.clauses.vars left.now }
    requires right { AreLiterals dom.old.clauses.vars right.now }
    requires few { dom.old.clauses.vars ≤ 65536 }
    ensures { OnOk result (Asks 409832610 (asked_escape pair.now front.now (true_literal dom.old.clauses.free) inputs.now left.now right.now dom.old.clauses.fixed) dom.old dom.new) }
{
    let cycle = both_sides(alloc, pair, dom, inputs, left, right)?;
    let now = joined(alloc, left, right)?;
    let next = joined(
        alloc,
        cycle.left.nexts.as_slice(),
        cycle.right.nexts.as_slice(),
    )?;
    ask_stuck(alloc, pair, front, dom, now.as_slice())?;
    ask_leaving(alloc, pair, front, dom, next.as_slice())?;
    Ok(())
}

// The clauses of Split.
fn pose_split(alloc: Global, pair: &Pair, front: &Front) -> Result<Clauses, NoMemory>
    requires { IsWithin pair.now front.now }
    ensures { IfOk result (λ c. posed_of c ≡ posed pair.now front.now Split) }
{
    let left_gates = pair.left;
    let right_gates = pair.right;
    let behind = left_gates.inputs + left_gates.states;
    let marks = front.equal.as_slice();
    let free = behind + open_count(right_gates.states, marks);
    let inputs = free_literals(alloc, 0, left_gates.inputs)?;
    let left = free_literals(alloc, left_gates.inputs, left_gates.states)?;
    let right = sharing_literals(alloc, right_gates.states, marks, left.as_slice(), behind)?;
    let mut dom = ClauseDomain::new(alloc, free)?;
    ask_split(
        alloc,
        pair,
        front,
        &mut dom,
        inputs.as_slice(),
        left.as_slice(),
        right.as_slice(),
    )?;
    Ok(dom.finish())
}

// The clauses of Land, of a pattern.
fn pose_land(
    alloc: Global,
    pair: &Pair,
    front: &Front,
    pattern: &Pattern,
) -> Result<Clauses, NoMemory>
    requires { IsPosable pair.now front.now (LandFree pattern.now) }
    ensures { IfOk result (λ c. posed_of c ≡ posed pair.now front.now (LandFree pattern.now)) }
{
    let left_gates = pair.left;
    let right_gates = pair.right;
    let cycles = pattern.as_slice();
    let free = left_gates.states + right_gates.states + free_bits(pair, cycles);
    let mut dom = ClauseDomain::new(alloc, free)?;
    let low = true_literal(free).opposite();
    let last = behind_pattern(alloc, pair, &mut dom, low, cycles)?;
    ask_blocked(alloc, pair, front, &mut dom, last.as_slice())?;
    Ok(dom.finish())
}

// The clauses of Land, of a word: those of the pattern without free bits.
fn pose_word(alloc: Global, pair: &Pair, front: &Front, word: &[Bits]) -> Result<Clauses, NoMemory>
    requires { IsPosable pair.now front.now (Land word.now) }
    ensures { IfOk result (λ c. posed_of c ≡ posed pair.now front.now (Land word.now)) }
{
    let pattern = known_pattern(alloc, word)?;
    pose_land(alloc, pair, front, &pattern)
}

// The clauses of Escape.
fn pose_escape(alloc: Global, pair: &Pair, front: &Front) -> Result<Clauses, NoMemory>
    requires { IsWithin pair.now front.now }
    ensures { IfOk result (λ c. posed_of c ≡ posed pair.now front.now Escape) }
{
    let left_gates = pair.left;
    let right_gates = pair.right;
    let behind = left_gates.inputs + left_gates.states;
    let free = behind + right_gates.states;
    let inputs = free_literals(alloc, 0, left_gates.inputs)?;
    let left = free_literals(alloc, left_gates.inputs, left_gates.states)?;
    let right = free_literals(alloc, behind, right_gates.states)?;
    let mut dom = ClauseDomain::new(alloc, free)?;
    ask_escape(
        alloc,
        pair,
        front,
        &mut dom,
        inputs.as_slice(),
        left.as_slice(),
        right.as_slice(),
    )?;
    Ok(dom.finish())
}

// The clauses of Stuck.
fn pose_stuck(alloc: Global, pair: &Pair, front: &Front) -> Result<Clauses, NoMemory>
    requires { IsWithin pair.now front.now }
    ensures { IfOk result (λ c. posed_of c ≡ posed pair.now front.now Stuck) }
{
    let left_gates = pair.left;
    let right_gates = pair.right;
    let free = left_gates.states + right_gates.states;
    let both = free_literals(alloc, 0, free)?;
    let mut dom = ClauseDomain::new(alloc, free)?;
    ask_stuck(alloc, pair, front, &mut dom, both.as_slice())?;
    Ok(dom.finish())
}

/// Poses a query about a pair of designs: clauses whose solutions, read on the free bits, are the
/// cases of the query.
///
/// The free bits are the inputs and the left state, then the right state's bits that aren't marked,
/// for `Split`; an input and both states for `Escape`; and both states for the other queries, behind
/// which `LandFree` has the free bits of its pattern, cycle by cycle. The variable behind them is
/// false. The further variables are those of the gates, the left side's before the right one's, cycle
/// by cycle, and then those of the cubes, in the order of their lists.
///
/// Gates, hops and cycles are within the limits of every call, so that fewer than 2^29 variables are
/// taken. It is refused for want of memory alone.
pub fn pose(alloc: Global, pair: &Pair, front: &Front, query: &Query) -> Result<Clauses, NoMemory>
    requires { IsPosable pair.now front.now query.now }
    ensures { IfOk result (λ c. posed_of c ≡ posed pair.now front.now query.now) }
{
    match query {
        Query::Split => pose_split(alloc, pair, front),
        Query::Land(word) => pose_word(alloc, pair, front, word.as_slice()),
        Query::LandFree(pattern) => pose_land(alloc, pair, front, pattern),
        Query::Escape => pose_escape(alloc, pair, front),
        Query::Stuck => pose_stuck(alloc, pair, front),
    }
}
