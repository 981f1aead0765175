// Gates over literals: one alone, and those of both sides in one cycle.

ghost use Rattle.std.specs.Prelude.{◌≡◌, ◌+◌, ◌^◌, ◌<◌, length, IfOk};
ghost use Rattle.rst_gate.specs.NamedResults.{frame_gives};
ghost use Rattle.rst_clause.specs.Literals.{IsLiteral, AreLiterals};
ghost use Rattle.rst_clause.specs.Results.{clause_results};
ghost use Rattle.rst_pose.specs.Posed.{framed};
ghost use Rattle.rst_pose.specs.Posing.{IsSmall, Grows, framed_by, IsCycleOf};

use rst_clause::{ClauseDomain, Lit};
use rst_gate::{Frame, Gates, eval};
use rst_outside::NoMemory;
use rst_pair::Pair;
use rst_value::Domain;
use std::alloc::Global;

// The literal that both hold.
pub(crate) fn both(dom: &mut ClauseDomain, a: Lit, b: Lit) -> Result<Lit, NoMemory>
    requires a { IsLiteral dom.old.clauses.vars a }
    requires b { IsLiteral dom.old.clauses.vars b }
    requires room { dom.old.clauses.vars + 1 < 2 ^ 31 }
    ensures gives { IfOk result (λ z. clause_results.both dom.old.clauses.fixed a b ≡ (z, dom.new.clauses.fixed)) }
    ensures held { IfOk result (λ z. IsLiteral dom.new.clauses.vars z) }
    ensures grows { IfOk result (λ _. Grows 1 dom.old dom.new) }
{
    dom.and(a, b)
}

// The literal that the two differ.
pub(crate) fn differ(dom: &mut ClauseDomain, a: Lit, b: Lit) -> Result<Lit, NoMemory>
    requires a { IsLiteral dom.old.clauses.vars a }
    requires b { IsLiteral dom.old.clauses.vars b }
    requires room { dom.old.clauses.vars + 1 < 2 ^ 31 }
    ensures gives { IfOk result (λ z. clause_results.differ dom.old.clauses.fixed a b ≡ (z, dom.new.clauses.fixed)) }
    ensures held { IfOk result (λ z. IsLiteral dom.new.clauses.vars z) }
    ensures grows { IfOk result (λ _. Grows 1 dom.old dom.new) }
{
    dom.xor(a, b)
}

// A cycle of one side.
fn one_side(
    alloc: Global,
    gates: &Gates,
    dom: &mut ClauseDomain,
    inputs: &[Lit],
    states: &[Lit],
) -> Result<Frame<Lit>, NoMemory>
    requires small { IsSmall gates.now }
    requires each_input { length inputs.now ≡ gates.now.inputs }
    requires each_state { length states.now ≡ gates.now.states }
    requires inputs { AreLiterals dom.old.clauses.vars inputs.now }
    requires states { AreLiterals dom.old.clauses.vars states.now }
    requires room { dom.old.clauses.vars + 66305 < 2 ^ 31 }
    ensures gives { IfOk result (λ f. frame_gives clause_results gates.now inputs.now states.now dom.old.clauses.fixed ≡ (f.outs, f.nexts, dom.new.clauses.fixed)) }
    ensures each_out { IfOk result (λ f. length f.outs ≡ length gates.now.outs) }
    ensures each_next { IfOk result (λ f. length f.nexts ≡ gates.now.states) }
    ensures outs { IfOk result (λ f. AreLiterals dom.new.clauses.vars f.outs) }
    ensures nexts { IfOk result (λ f. AreLiterals dom.new.clauses.vars f.nexts) }
    ensures grows { IfOk result (λ _. Grows 66305 dom.old dom.new) }
{
    eval(alloc, gates, dom, inputs, states)
}

// A cycle of both sides: outputs and successors of the left one and of the right one.
#[derive(Drop)]
pub(crate) struct Cycle {
    pub(crate) left: Frame<Lit>,
    pub(crate) right: Frame<Lit>,
}

// A cycle of both sides, the left gates first.
pub(crate) fn both_sides(
    alloc: Global,
    pair: &Pair,
    dom: &mut ClauseDomain,
    inputs: &[Lit],
    left: &[Lit],
    right: &[Lit],
) -> Result<Cycle, NoMemory>
    requires small_left { IsSmall pair.now.left }
    requires small_right { IsSmall pair.now.right }
    requires each_input { length inputs.now ≡ pair.now.left.inputs }
    requires each_left { length left.now ≡ pair.now.left.states }
    requires each_right { length right.now ≡ pair.now.right.states }
    requires inputs { AreLiterals dom.old.clauses.vars inputs.now }
    requires left { AreLiterals dom.old.clauses.vars left.now }
    requires right { AreLiterals dom.old.clauses.vars right.now }
    requires room { dom.old.clauses.vars + 132610 < 2 ^ 31 }
    ensures gives { IfOk result (λ c. framed pair.now inputs.now left.now right.now dom.old.clauses.fixed ≡ framed_by c dom.new.clauses.fixed) }
    ensures held { IfOk result (λ c. IsCycleOf pair.now dom.new.clauses.vars c) }
    ensures grows { IfOk result (λ _. Grows 132610 dom.old dom.new) }
{
    let left_gates = pair.left;
    let right_gates = pair.right;
    let first = one_side(alloc, left_gates, dom, inputs, left)?;
    let second = one_side(alloc, right_gates, dom, inputs, right)?;
    Ok(Cycle {
        left: first,
        right: second,
    })
}
