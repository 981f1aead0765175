// The lines that refute the posed question, from what the kept solver learnt. The question has the
// gates of both sides apart, and a chain of conjunctions for each cube, which the solver doesn't have:
// lines that say what the solver took for granted come first.

use crate::draft::Draft;
use crate::lits::{joined, lit_at, lit_of, lits_of, narrow, not, of_number, of_variable, said};
use crate::names::Names;
use crate::net::{Three, clauses_of};
use rst_cdcl::{Hint, Log};
use rst_gate::Gate;
use rst_outside::NoMemory;
use rst_pair::{Hop, Pair};
use rst_value::Tern;
use std::alloc::Global;

/// What the solver learnt, and what of it is what.
#[derive(Clone, Copy)]
pub(crate) struct Learnt<'a> {
    pub(crate) log: &'a Log,
    pub(crate) vars: u32,
    /// How many clauses were added before those that deny the cubes.
    pub(crate) clauses: u32,
    /// The nodes of both sides.
    pub(crate) first: &'a [u32],
    pub(crate) second: &'a [u32],
    /// The registers of both sides.
    pub(crate) both: &'a [u32],
    /// For each output the literal that has it differ.
    pub(crate) differ: &'a [u32],
    /// How long the log was when each way out was closed.
    pub(crate) closings: &'a [usize],
}

// In place of the number of a line that isn't there.
const NO_LINE: u32 = 0xFFFF_FFFF;

// The most literals of a clause that the solver doesn't call by its number.
const SHORT: u32 = 3;

fn known_count(cube: &[Tern]) -> u32 {
    let mut count = 0u32;
    for place in cube {
        match place {
            Tern::Zero | Tern::One => count = count.saturating_add(1),
            Tern::Unknown => {}
        }
    }
    count
}

// The variables of the chains of all cubes: of each the one before its first.
fn chains(alloc: Global, names: &mut Names, hops: &[Hop]) -> Result<Vec<u32>, NoMemory> {
    let mut starts = Vec::new(alloc);
    for hop in hops {
        starts.push(names.count)?;
        names.count = names.count.saturating_add(known_count(hop.cube.as_slice()));
    }
    Ok(starts)
}

// The literal of a chain behind so many others.
fn link(start: u32, place: usize) -> u32 {
    of_variable(start.saturating_add(narrow(place)).saturating_add(1))
}

// The clauses of the right side's gates by the names of what the solver has, and that gates which it
// has once are the same on both sides.
fn push_sides(
    alloc: Global,
    draft: &mut Draft,
    names: &Names,
    gates: &[Gate],
    second: &[u32],
) -> Result<(), NoMemory> {
    let called = names.of_all(alloc, second)?;
    let posed = names.right.as_slice();
    let from = second.len().saturating_sub(gates.len());
    for i in 0..gates.len() {
        let at = from.saturating_add(i);
        let own = lit_at(posed, at);
        let read = clauses_of(alloc, gates[i], own, posed)?;
        let rights = clauses_of(alloc, gates[i], own, called.as_slice())?;
        push_all_alike(draft, rights.as_slice(), read.as_slice())?;
        let left = lit_at(called.as_slice(), at);
        if left != own {
            let lefts = clauses_of(alloc, gates[i], left, called.as_slice())?;
            draft.push_twins(gates[i], left, lefts.as_slice(), own, rights.as_slice())?;
        }
    }
    Ok(())
}

fn push_all_alike(draft: &mut Draft, first: &[Three], second: &[Three]) -> Result<(), NoMemory> {
    for i in 0..first.len() {
        if i < second.len() {
            draft.push_alike(first[i], second[i])?;
        }
    }
    Ok(())
}

// The clauses of the outputs' differing, by the names of what the solver has.
fn push_outs(draft: &mut Draft, names: &Names, pair: &Pair, net: &Learnt) -> Result<(), NoMemory> {
    let one = pair.left;
    let other = pair.right;
    let outs = one.outs.as_slice();
    let shown = other.outs.as_slice();
    for i in 0..net.differ.len() {
        if i >= outs.len() || i >= shown.len() {
            return Ok(());
        }
        let differ = not(names.of(net.differ[i]));
        let left = names.of(lit_of(net.first, outs[i]));
        let called = names.of(lit_of(net.second, shown[i]));
        let posed = lit_of(names.right.as_slice(), shown[i]);
        draft.push_alike(Three(differ, left, called), Three(differ, left, posed))?;
        draft.push_alike(
            Three(differ, not(left), not(called)),
            Three(differ, not(left), not(posed)),
        )?;
    }
    Ok(())
}

// The cubes whose denials are used, or that the solver doesn't call by a number.
fn used(alloc: Global, hops: &[Hop], net: &Learnt) -> Result<Vec<bool>, NoMemory> {
    let mut used = Vec::new(alloc);
    for hop in hops {
        used.push(known_count(hop.cube.as_slice()) <= SHORT)?;
    }
    for i in 0..net.log.len() {
        for hint in net.log.hints(i) {
            if let Hint::Given(number) = *hint {
                let place = number.saturating_sub(net.clauses) as usize;
                if place < used.len() {
                    used[place] = true;
                }
            }
        }
    }
    Ok(used)
}

// That a cube doesn't hold the pair, by its chain. The known places have these literals.
fn push_denial(
    alloc: Global,
    draft: &mut Draft,
    known: &[u32],
    start: u32,
) -> Result<(), NoMemory> {
    let mut line = Vec::new(alloc);
    for i in 0..known.len() {
        let no = not(known[i]);
        if i == 0 {
            draft.by_two(link(start, i), no)?;
        } else {
            draft.by_three(Three(link(start, i), not(link(start, i - 1)), no))?;
        }
        line.push(no)?;
    }
    draft.push(line.as_slice())
}

// That the cubes that are used don't hold the pair. Of each cube the number of that line.
fn push_denials(
    alloc: Global,
    draft: &mut Draft,
    hops: &[Hop],
    net: &Learnt,
    both: &[u32],
    held: &[u32],
) -> Result<Vec<u32>, NoMemory> {
    let used = used(alloc, hops, net)?;
    let mut numbers = Vec::new(alloc);
    for i in 0..hops.len() {
        if i < used.len() && used[i] {
            numbers.push(draft.len())?;
            let known = said(alloc, hops[i].cube.as_slice(), both)?;
            push_denial(alloc, draft, known.as_slice(), lit_at(held, i))?;
        } else {
            numbers.push(NO_LINE)?;
        }
    }
    Ok(numbers)
}

// What the successors are that lie in a cube, as the question and as the solver has them.
#[derive(Drop)]
struct Nexts {
    posed: Vec<u32>,
    called: Vec<u32>,
}

fn nexts_of(alloc: Global, pair: &Pair, names: &Names, net: &Learnt) -> Result<Nexts, NoMemory> {
    let one = pair.left;
    let other = pair.right;
    let lefts = names.of_all(alloc, net.first)?;
    let rights = names.of_all(alloc, net.second)?;
    let first = lits_of(alloc, one.nexts.as_slice(), lefts.as_slice())?;
    let second = lits_of(alloc, other.nexts.as_slice(), names.right.as_slice())?;
    let named = lits_of(alloc, other.nexts.as_slice(), rights.as_slice())?;
    Ok(Nexts {
        posed: joined(alloc, first.as_slice(), second.as_slice())?,
        called: joined(alloc, first.as_slice(), named.as_slice())?,
    })
}

// From the last literal of a cube's chain to what it says of the successors.
fn by_chain(
    alloc: Global,
    draft: &mut Draft,
    cube: &[Tern],
    nexts: &Nexts,
    start: u32,
) -> Result<(), NoMemory> {
    let known = said(alloc, cube, nexts.posed.as_slice())?;
    let called = said(alloc, cube, nexts.called.as_slice())?;
    for i in (0..known.len()).rev() {
        let own = link(start, i);
        if i > 0 {
            draft.by_two(not(own), link(start, i - 1))?;
        }
        draft.by_two(not(own), known[i])?;
        draft.carry(known[i], lit_at(called.as_slice(), i))?;
    }
    Ok(())
}

// By a clause that the solver used, where its own lines come behind so many others.
fn by_hint(
    draft: &mut Draft,
    names: &Names,
    clauses: u32,
    denials: &[u32],
    before: u32,
    hint: Hint,
) -> Result<(), NoMemory> {
    match hint {
        Hint::Line(line) => draft.by(Hint::Line(before.saturating_add(line))),
        Hint::Given(number) => {
            let place = number.saturating_sub(clauses) as usize;
            if place < denials.len() && denials[place] != NO_LINE {
                draft.by(Hint::Line(denials[place]))?;
            }
            Ok(())
        }
        Hint::Two(a, b) => draft.by_two(names.of(of_number(a)), names.of(of_number(b))),
        Hint::Three(a, b, c) => draft.by_three(Three(
            names.of(of_number(a)),
            names.of(of_number(b)),
            names.of(of_number(c)),
        )),
    }
}

// What was learnt, with that a way out is closed in the place of the line that closed it.
fn push_learnt(
    alloc: Global,
    draft: &mut Draft,
    names: &Names,
    hops: &[Hop],
    net: &Learnt,
    nexts: &Nexts,
    denials: &[u32],
    reached: &[u32],
) -> Result<(), NoMemory> {
    let before = draft.len();
    let outs = net.differ.len();
    let mut way = 0usize;
    for i in 0..net.log.len() {
        let mut line = Vec::new(alloc);
        if way < net.closings.len() && net.closings[way] == i + 1 {
            if way < outs {
                line.push(not(names.of(net.differ[way])))?;
            } else if way - outs < hops.len() {
                let cube = hops[way - outs].cube.as_slice();
                let start = lit_at(reached, way - outs);
                by_chain(alloc, draft, cube, nexts, start)?;
                let last = known_count(cube).saturating_sub(1);
                line.push(not(link(start, last as usize)))?;
            }
            way += 1;
        } else {
            for number in net.log.get(i) {
                line.push(names.of(of_number(*number)))?;
            }
        }
        for hint in net.log.hints(i) {
            by_hint(draft, names, net.clauses, denials, before, *hint)?;
        }
        draft.push(line.as_slice())?;
    }
    Ok(())
}

/// The lines, with what each is derived from. They promise nothing.
pub(crate) fn lines(
    alloc: Global,
    pair: &Pair,
    hops: &[Hop],
    net: &Learnt,
) -> Result<Log, NoMemory> {
    let other = pair.right;
    let mut draft = Draft::new(alloc);
    let mut names = Names::new(alloc, pair, net.vars, net.first, net.second)?;
    let held = chains(alloc, &mut names, hops)?;
    for lit in net.differ {
        let variable = names.next();
        names.set(*lit, variable);
    }
    let reached = chains(alloc, &mut names, hops)?;
    push_sides(
        alloc,
        &mut draft,
        &names,
        other.gates.as_slice(),
        net.second,
    )?;
    push_outs(&mut draft, &names, pair, net)?;
    let both = names.of_all(alloc, net.both)?;
    let denials = push_denials(
        alloc,
        &mut draft,
        hops,
        net,
        both.as_slice(),
        held.as_slice(),
    )?;
    let nexts = nexts_of(alloc, pair, &names, net)?;
    push_learnt(
        alloc,
        &mut draft,
        &names,
        hops,
        net,
        &nexts,
        denials.as_slice(),
        reached.as_slice(),
    )?;
    draft.push(&[])?;
    Ok(draft.log)
}
