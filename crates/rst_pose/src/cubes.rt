// Whether a pair lies in cubes, and whether outputs differ, as literals.

ghost use Rattle.std.specs.Prelude.{◌≡◌, ◌+◌, ◌*◌, ◌^◌, ◌<◌, ◌≤◌, ◌∷◌, [], length, IfOk, OnOk};
ghost use Rattle.std.specs.List.{All};
ghost use Rattle.rst_clause.specs.Literals.{IsLiteral, AreLiterals};
ghost use Rattle.rst_pair.specs.Hops.{cubes_of};
ghost use Rattle.rst_pose.specs.Posed.{with_place, in_cube, in_cubes, with_none, in_none, outs_differ, each_false};
ghost use Rattle.rst_pose.specs.Posing.{Grows, Requires};

use crate::gate::{both, differ};
use rst_clause::{ClauseDomain, Lit};
use rst_outside::NoMemory;
use rst_pair::Hop;
use rst_value::Tern;
use std::alloc::Global;

// The literal so far, and the value of a place where it is known.
fn with_place(dom: &mut ClauseDomain, so_far: Lit, place: Tern, value: Lit) -> Result<Lit, NoMemory>
    requires so_far { IsLiteral dom.old.clauses.vars so_far }
    requires value { IsLiteral dom.old.clauses.vars value }
    requires room { dom.old.clauses.vars + 1 < 2 ^ 31 }
    ensures gives { IfOk result (λ z. with_place so_far place value dom.old.clauses.fixed ≡ (z, dom.new.clauses.fixed)) }
    ensures held { IfOk result (λ z. IsLiteral dom.new.clauses.vars z) }
    ensures grows { IfOk result (λ _. Grows 1 dom.old dom.new) }
{
    match place {
        Tern::Zero => both(dom, so_far, value.opposite()),
        Tern::One => both(dom, so_far, value),
        Tern::Unknown => Ok(so_far),
    }
}

// The literal so far, and each known place of the cube.
fn in_cube(
    dom: &mut ClauseDomain,
    high: Lit,
    cube: &[Tern],
    values: &[Lit],
) -> Result<Lit, NoMemory>
    requires wide { length cube.now ≡ length values.now }
    requires high { IsLiteral dom.old.clauses.vars high }
    requires values { AreLiterals dom.old.clauses.vars values.now }
    requires room { dom.old.clauses.vars + length cube.now < 2 ^ 31 }
    ensures gives { IfOk result (λ z. in_cube high cube.now values.now dom.old.clauses.fixed ≡ (z, dom.new.clauses.fixed)) }
    ensures held { IfOk result (λ z. IsLiteral dom.new.clauses.vars z) }
    ensures grows { IfOk result (λ _. Grows (length cube.now) dom.old dom.new) }
{
    let mut so_far = high;
    for i in 0..cube.len() {
        so_far = with_place(dom, so_far, cube[i], values[i])?;
    }
    Ok(so_far)
}

// Of each hop, the literal that its cube holds the pair.
pub(crate) fn in_cubes(
    alloc: Global,
    dom: &mut ClauseDomain,
    high: Lit,
    hops: &[Hop],
    values: &[Lit],
) -> Result<Vec<Lit>, NoMemory>
    requires wide { All (λ cube. length cube ≡ length values.now) (cubes_of hops.now) }
    requires few { length values.now ≤ 1024 }
    requires high { IsLiteral dom.old.clauses.vars high }
    requires values { AreLiterals dom.old.clauses.vars values.now }
    requires room { dom.old.clauses.vars + 1024 * length hops.now < 2 ^ 31 }
    ensures gives { IfOk result (λ found. in_cubes high (cubes_of hops.now) values.now dom.old.clauses.fixed ≡ (found.items, dom.new.clauses.fixed)) }
    ensures held { IfOk result (λ found. AreLiterals dom.new.clauses.vars found.items) }
    ensures grows { IfOk result (λ _. Grows (1024 * length hops.now) dom.old dom.new) }
{
    let mut found = Vec::new(alloc);
    for hop in hops {
        let one = in_cube(dom, high, hop.cube.as_slice(), values)?;
        found.push(one)?;
    }
    Ok(found)
}

// The literal so far, and that the cube doesn't hold the pair.
fn with_none(
    dom: &mut ClauseDomain,
    high: Lit,
    so_far: Lit,
    cube: &[Tern],
    values: &[Lit],
) -> Result<Lit, NoMemory>
    requires wide { length cube.now ≡ length values.now }
    requires high { IsLiteral dom.old.clauses.vars high }
    requires so_far { IsLiteral dom.old.clauses.vars so_far }
    requires values { AreLiterals dom.old.clauses.vars values.now }
    requires room { dom.old.clauses.vars + length cube.now + 1 < 2 ^ 31 }
    ensures gives { IfOk result (λ z. with_none high so_far cube.now values.now dom.old.clauses.fixed ≡ (z, dom.new.clauses.fixed)) }
    ensures held { IfOk result (λ z. IsLiteral dom.new.clauses.vars z) }
    ensures grows { IfOk result (λ _. Grows (length cube.now + 1) dom.old dom.new) }
{
    let one = in_cube(dom, high, cube, values)?;
    both(dom, so_far, one.opposite())
}

// The literal that no hop's cube holds the pair.
pub(crate) fn in_none(
    dom: &mut ClauseDomain,
    high: Lit,
    hops: &[Hop],
    values: &[Lit],
) -> Result<Lit, NoMemory>
    requires wide { All (λ cube. length cube ≡ length values.now) (cubes_of hops.now) }
    requires few { length values.now ≤ 1024 }
    requires high { IsLiteral dom.old.clauses.vars high }
    requires values { AreLiterals dom.old.clauses.vars values.now }
    requires room { dom.old.clauses.vars + 1025 * length hops.now < 2 ^ 31 }
    ensures gives { IfOk result (λ z. in_none high high (cubes_of hops.now) values.now dom.old.clauses.fixed ≡ (z, dom.new.clauses.fixed)) }
    ensures held { IfOk result (λ z. IsLiteral dom.new.clauses.vars z) }
    ensures grows { IfOk result (λ _. Grows (1025 * length hops.now) dom.old dom.new) }
{
    let mut so_far = high;
    for hop in hops {
        so_far = with_none(dom, high, so_far, hop.cube.as_slice(), values)?;
    }
    Ok(so_far)
}

// Of each two outputs, the literal that they differ.
pub(crate) fn outs_differ(
    alloc: Global,
    dom: &mut ClauseDomain,
    lefts: &[Lit],
    rights: &[Lit],
) -> Result<Vec<Lit>, NoMemory>
    requires same { length lefts.now ≡ length rights.now }
    requires lefts { AreLiterals dom.old.clauses.vars lefts.now }
    requires rights { AreLiterals dom.old.clauses.vars rights.now }
    requires room { dom.old.clauses.vars + length lefts.now < 2 ^ 31 }
    ensures gives { IfOk result (λ found. outs_differ lefts.now rights.now dom.old.clauses.fixed ≡ (found.items, dom.new.clauses.fixed)) }
    ensures held { IfOk result (λ found. AreLiterals dom.new.clauses.vars found.items) }
    ensures grows { IfOk result (λ _. Grows (length lefts.now) dom.old dom.new) }
{
    let mut found = Vec::new(alloc);
    for i in 0..lefts.len() {
        let one = differ(dom, lefts[i], rights[i])?;
        found.push(one)?;
    }
    Ok(found)
}

// Asks that each of the literals is false, by a clause of its own.
pub(crate) fn require_each_false(dom: &mut ClauseDomain, lits: &[Lit]) -> Result<(), NoMemory>
    requires held { AreLiterals dom.old.clauses.vars lits.now }
    requires few { dom.old.clauses.vars < 2 ^ 31 }
    ensures { OnOk result (Requires (each_false lits.now) dom.old dom.new) }
{
    for i in 0..lits.len() {
        dom.require(&[lits[i].opposite()])?;
    }
    Ok(())
}
