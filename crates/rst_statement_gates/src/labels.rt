// What the reads of statements see, and the tests of arms.
ghost use Rattle.std.specs.Prelude.{◌≡◌, ◌+◌, ◌*◌, ◌^◌, ◌≤◌, length, map, OnOk, IfOk};
ghost use Rattle.std.specs.List.{All, AllByRecursion};
ghost use Rattle.rst_gate.specs.Circuits.{IsBelow};
ghost use Rattle.rst_gate.specs.GateLists.{next_node};
ghost use Rattle.rst_width.specs.Typed.{plain_typed};
ghost use Rattle.rst_net.specs.Statements.{plain_label};
ghost use Rattle.rst_terms.specs.declared.kinds.Connective.TheVariants.{Or};
ghost use Rattle.rst_terms.specs.Recurrences.{reduced, equal};
ghost use Rattle.rst_word_gates.specs.GateAlgebra.{gates_so_far};
ghost use Rattle.rst_typed_terms.specs.Expressions.{expression_bits};
ghost use Rattle.rst_typed_terms.specs.Weights.{expression_weight};
ghost use Rattle.rst_lower.specs.WireWords.{widths_of};
ghost use Rattle.rst_statement_terms.specs.Statements.{seen, unmasked, label_bits};
ghost use Rattle.rst_statement_terms.specs.Weights.{labels_weight};
ghost use Rattle.rst_statement_values.specs.Fits.{ExpressionFits, LabelFits};
ghost use Rattle.rst_statement_gates.specs.Sights.{sight_of, AreWires};

use rst_gate::{Edge, GateBuilder};
use rst_lower::{Wires, expression};
use rst_net::TypedLabel;
use rst_outside::NoMemory;
use rst_terms::Connective;
use rst_width::TypedExpr;
use rst_word_gates::{all_bits, equal};
use std::alloc::Global;

/// The edges of an expression in a statement, by what its reads see.
#[tactic(auto, using(crate::proofs::Reading::reads))]
pub fn read(
    alloc: Global,
    gates: &mut GateBuilder,
    held: &Wires,
    clocked: bool,
    wires: &Wires,
    expr: &TypedExpr,
) -> Result<Vec<Edge>, NoMemory>
    requires fit { ExpressionFits (widths_of wires.now) (plain_typed expr.now) }
    requires are { AreWires (next_node gates.old) clocked held.now wires.now }
    requires room { next_node gates.old + expression_weight (widths_of wires.now) (plain_typed expr.now) ≤ 2 ^ 31 }
    ensures gates { OnOk result (gates.new ≡ (expression_bits gates_so_far (seen (sight_of clocked held.now) wires.now) gates.old (plain_typed expr.now)).0) }
    ensures bits { IfOk result (λ r. r.items ≡ (expression_bits gates_so_far (seen (sight_of clocked held.now) wires.now) gates.old (plain_typed expr.now)).1) }
    ensures stand { IfOk result (λ r. All (IsBelow (next_node gates.new)) r.items) }
    ensures width { IfOk result (λ r. length r.items ≡ expr.now.width) }
    ensures grows { OnOk result (next_node gates.old ≤ next_node gates.new) }
    ensures few { OnOk result (next_node gates.new ≤ next_node gates.old + expression_weight (widths_of wires.now) (plain_typed expr.now)) }
{
    if clocked {
        expression(alloc, gates, held, expr)
    } else {
        expression(alloc, gates, wires, expr)
    }
}

/// The edge of a condition: the `or` of its bits.
pub fn condition(
    alloc: Global,
    gates: &mut GateBuilder,
    held: &Wires,
    clocked: bool,
    wires: &Wires,
    expr: &TypedExpr,
) -> Result<Edge, NoMemory>
    requires fit { ExpressionFits (widths_of wires.now) (plain_typed expr.now) }
    requires are { AreWires (next_node gates.old) clocked held.now wires.now }
    requires room { next_node gates.old + (expression_weight (widths_of wires.now) (plain_typed expr.now) + expr.now.width) ≤ 2 ^ 31 }
    ensures gates { OnOk result (let c = expression_bits gates_so_far (seen (sight_of clocked held.now) wires.now) gates.old (plain_typed expr.now) in gates.new ≡ (reduced gates_so_far Or c.0 c.1).0) }
    ensures edge { IfOk result (λ e. let c = expression_bits gates_so_far (seen (sight_of clocked held.now) wires.now) gates.old (plain_typed expr.now) in e ≡ (reduced gates_so_far Or c.0 c.1).1) }
    ensures stands { IfOk result (λ e. IsBelow (next_node gates.new) e) }
    ensures grows { OnOk result (next_node gates.old ≤ next_node gates.new) }
    ensures few { OnOk result (next_node gates.new ≤ next_node gates.old + (expression_weight (widths_of wires.now) (plain_typed expr.now) + expr.now.width)) }
{
    let bits = read(alloc, gates, held, clocked, wires, expr)?;
    all_bits(gates, Connective::Or, bits.as_slice())
}

// The bits that a mask leaves in.
#[tactic(auto, using(crate::proofs::Reading::unmasked_turns))]
fn unmasked(alloc: Global, mask: u64, word: &[Edge]) -> Result<Vec<Edge>, NoMemory>
    ensures { IfOk result (λ r. r.items ≡ unmasked mask word.now) }
{
    let mut bits = Vec::new(alloc);
    let mut left = mask;
    for k in 0..word.len() {
        if left % 2 != 1 {
            bits.push(word[k])?;
        }
        left /= 2;
    }
    Ok(bits)
}

// Whether the selector is equal to a label at each bit that isn't masked.
#[tactic(auto, using(crate::proofs::Reading::unmasked_words))]
fn label(
    alloc: Global,
    gates: &mut GateBuilder,
    held: &Wires,
    clocked: bool,
    wires: &Wires,
    selector: &[Edge],
    label: &TypedLabel,
) -> Result<Edge, NoMemory>
    requires fit { LabelFits (widths_of wires.now) (length selector.now) (plain_label label.now) }
    requires are { AreWires (next_node gates.old) clocked held.now wires.now }
    requires selector_stands { All (IsBelow (next_node gates.old)) selector.now }
    requires room { next_node gates.old + (expression_weight (widths_of wires.now) (plain_label label.now).value + 2 * length selector.now) ≤ 2 ^ 31 }
    ensures gates { OnOk result (let e = expression_bits gates_so_far (seen (sight_of clocked held.now) wires.now) gates.old (plain_label label.now).value in gates.new ≡ (equal gates_so_far e.0 (unmasked label.now.mask selector.now) (unmasked label.now.mask e.1)).0) }
    ensures edge { IfOk result (λ m. let e = expression_bits gates_so_far (seen (sight_of clocked held.now) wires.now) gates.old (plain_label label.now).value in m ≡ (equal gates_so_far e.0 (unmasked label.now.mask selector.now) (unmasked label.now.mask e.1)).1) }
    ensures stands { IfOk result (λ m. IsBelow (next_node gates.new) m) }
    ensures grows { OnOk result (next_node gates.old ≤ next_node gates.new) }
    ensures few { OnOk result (next_node gates.new ≤ next_node gates.old + (expression_weight (widths_of wires.now) (plain_label label.now).value + 2 * length selector.now)) }
{
    let value = read(alloc, gates, held, clocked, wires, &label.value)?;
    let left = unmasked(alloc, label.mask, selector)?;
    let right = unmasked(alloc, label.mask, value.as_slice())?;
    equal(alloc, gates, left.as_slice(), right.as_slice())
}

// The matches of an arm's labels.
fn matches(
    alloc: Global,
    gates: &mut GateBuilder,
    held: &Wires,
    clocked: bool,
    wires: &Wires,
    selector: &[Edge],
    labels: &[TypedLabel],
) -> Result<Vec<Edge>, NoMemory>
    requires fit { AllByRecursion (LabelFits (widths_of wires.now) (length selector.now)) (map plain_label labels.now) }
    requires are { AreWires (next_node gates.old) clocked held.now wires.now }
    requires selector_stands { All (IsBelow (next_node gates.old)) selector.now }
    requires room { next_node gates.old + labels_weight (widths_of wires.now) (length wires.now) (length selector.now) (map plain_label labels.now) ≤ 2 ^ 31 }
    ensures gates { OnOk result (gates.new ≡ (label_bits gates_so_far (seen (sight_of clocked held.now) wires.now) selector.now gates.old (map plain_label labels.now)).0) }
    ensures bits { IfOk result (λ r. r.items ≡ (label_bits gates_so_far (seen (sight_of clocked held.now) wires.now) selector.now gates.old (map plain_label labels.now)).1) }
    ensures stand { IfOk result (λ r. All (IsBelow (next_node gates.new)) r.items) }
    ensures grows { OnOk result (next_node gates.old ≤ next_node gates.new) }
    ensures few { IfOk result (λ r. next_node gates.new + length r.items ≤ next_node gates.old + labels_weight (widths_of wires.now) (length wires.now) (length selector.now) (map plain_label labels.now)) }
{
    let mut bits = Vec::new(alloc);
    for one in labels {
        let bit = label(alloc, gates, held, clocked, wires, selector, one)?;
        bits.push(bit)?;
    }
    Ok(bits)
}

/// The test of an arm: the `or` of its labels' matches.
pub fn arm_test(
    alloc: Global,
    gates: &mut GateBuilder,
    held: &Wires,
    clocked: bool,
    wires: &Wires,
    selector: &[Edge],
    labels: &[TypedLabel],
) -> Result<Edge, NoMemory>
    requires fit { AllByRecursion (LabelFits (widths_of wires.now) (length selector.now)) (map plain_label labels.now) }
    requires are { AreWires (next_node gates.old) clocked held.now wires.now }
    requires selector_stands { All (IsBelow (next_node gates.old)) selector.now }
    requires room { next_node gates.old + labels_weight (widths_of wires.now) (length wires.now) (length selector.now) (map plain_label labels.now) ≤ 2 ^ 31 }
    ensures gates { OnOk result (let m = label_bits gates_so_far (seen (sight_of clocked held.now) wires.now) selector.now gates.old (map plain_label labels.now) in gates.new ≡ (reduced gates_so_far Or m.0 m.1).0) }
    ensures edge { IfOk result (λ e. let m = label_bits gates_so_far (seen (sight_of clocked held.now) wires.now) selector.now gates.old (map plain_label labels.now) in e ≡ (reduced gates_so_far Or m.0 m.1).1) }
    ensures stands { IfOk result (λ e. IsBelow (next_node gates.new) e) }
    ensures grows { OnOk result (next_node gates.old ≤ next_node gates.new) }
    ensures few { OnOk result (next_node gates.new ≤ next_node gates.old + labels_weight (widths_of wires.now) (length wires.now) (length selector.now) (map plain_label labels.now)) }
{
    let bits = matches(alloc, gates, held, clocked, wires, selector, labels)?;
    all_bits(gates, Connective::Or, bits.as_slice())
}
