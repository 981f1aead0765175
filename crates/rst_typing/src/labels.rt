// The labels of cases, and whether they match every value of the selector.

ghost use Rattle.std.specs.Prelude.{◌≡◌, ◌<◌, ◌≤◌, ◌^◌, [], not, map, IfOk, OnOk, IfErr};
ghost use Rattle.std.specs.List.{All, list_any, list_all};
ghost use Rattle.rst_tree.specs.Trees.{plain, plain_all};
ghost use Rattle.rst_width.specs.Scopes.{names_of};
ghost use Rattle.rst_width.specs.Typed.{plain_typed, names_signal};
ghost use Rattle.rst_width.specs.Fit.{IsFit};
ghost use Rattle.rst_width.specs.Answers.{placed_answer};
ghost use Rattle.rst_net.specs.Statements.{plain_label};
ghost use Rattle.rst_typing.specs.Typing.{typed_label, typed_labels, answer_faults, label_faults, mask_of, matches, inner_width, brought_value, all_below, is_full};
ghost use Rattle.rst_typing.specs.Refusals.{IsFirst, labels_in, AreFit};

use crate::typing::placed_at;
use rst_net::{TypedArm, TypedLabel};
use rst_tree::Expr;
use rst_width::{Scope, Shape, TypedExpr, TypedNode, WidthFault, constant_word, names_signal};
use rst_word::Word;
use std::alloc::Global;

// The bits of a label that match anything.
fn mask_of(label: &Expr) -> u64
    ensures { result ≡ mask_of (plain label.now) }
{
    match label {
        Expr::Number(literal) => literal.mask,
        _ => 0,
    }
}

// A label of a case that is sized to this shape.
#[tactic(auto, using(crate::proofs::Faults::firsts))]
fn typed_label(
    alloc: Global,
    names: &Scope,
    shape: Shape,
    label: &Expr,
) -> Result<TypedLabel, WidthFault>
    ensures exact { IfOk result (λ l. plain_label l ≡ typed_label (names_of names.now) shape (plain label.now)) }
    ensures fit { IfOk result (λ l. IsFit (plain_typed l.value.value)) }
    ensures passes { OnOk result (answer_faults (placed_answer (names_of names.now) (plain label.now) shape) ≡ []) }
    ensures refused { IfErr result (λ e. IsFirst e (answer_faults (placed_answer (names_of names.now) (plain label.now) shape))) }
{
    let value = placed_at(alloc, names, label, shape)?;
    Ok(TypedLabel {
        value,
        mask: mask_of(label),
    })
}

// The labels of an arm.
#[tactic(auto, using(crate::proofs::Loops::turns))]
pub fn typed_labels(
    alloc: Global,
    names: &Scope,
    shape: Shape,
    labels: &[Expr],
) -> Result<Vec<TypedLabel>, WidthFault>
    ensures exact { IfOk result (λ ls. map plain_label ls.items ≡ typed_labels (names_of names.now) shape (plain_all labels.now)) }
    ensures fit { IfOk result (λ ls. All (λ l. IsFit (plain_typed l.value.value)) ls.items) }
    ensures passes { OnOk result (label_faults (names_of names.now) shape (plain_all labels.now) ≡ []) }
    ensures refused { IfErr result (λ e. IsFirst e (label_faults (names_of names.now) shape (plain_all labels.now))) }
{
    let mut made = Vec::new(alloc);
    for label in labels {
        let label = typed_label(alloc, names, shape, label)?;
        made.push(label)?;
    }
    Ok(made)
}

// Whether the labels of an arm name no signal.
fn are_constant(labels: &[TypedLabel]) -> bool
    ensures { result ≡ list_all (λ l. not (names_signal l.value)) (map plain_label labels.now) }
{
    for label in labels {
        if names_signal(&label.value) {
            return false;
        }
    }
    true
}

// Whether the labels of all arms name no signal.
fn all_constant(arms: &[TypedArm]) -> bool
    ensures { result ≡ list_all (λ l. not (names_signal l.value)) (labels_in arms.now) }
{
    for arm in arms {
        if !are_constant(&arm.labels) {
            return false;
        }
    }
    true
}

fn label_matches(value: u64, label: &TypedLabel) -> bool
    requires { IsFit (plain_typed label.now.value.value) }
    ensures { result ≡ matches value (plain_label label.now) }
{
    let compared = value - (value & label.mask);
    compared == constant_word(&label.value).value
}

// Whether a label of an arm matches.
fn one_matches(value: u64, labels: &[TypedLabel]) -> bool
    requires { All (λ l. IsFit (plain_typed l.value.value)) labels.now }
    ensures { result ≡ list_any (matches value) (map plain_label labels.now) }
{
    for label in labels {
        if label_matches(value, label) {
            return true;
        }
    }
    false
}

// Whether a label of one of the arms matches.
fn any_matches(value: u64, arms: &[TypedArm]) -> bool
    requires { AreFit arms.now }
    ensures { result ≡ list_any (matches value) (labels_in arms.now) }
{
    for arm in arms {
        if one_matches(value, &arm.labels) {
            return true;
        }
    }
    false
}

// The width of what is extended, where the topmost node is an extension.
fn inner_width(selector: &TypedExpr) -> u8
    requires { IsFit (plain_typed selector.now) }
    ensures exact { result ≡ inner_width (plain_typed selector.now) }
    ensures some_bits { 0 < result }
    ensures narrower { result ≤ selector.now.width }
{
    match &selector.node {
        TypedNode::Extend(inner) => inner.width,
        _ => selector.width,
    }
}

// A value of this many bits, at the width and sign of a case.
fn brought_value(shape: Shape, width: u8, value: u64) -> u64
    requires some_bits { 0 < width }
    requires narrower { width ≤ shape.width }
    requires at_most_64 { shape.width ≤ 64 }
    requires fits { value < 2 ^ width }
    ensures { result ≡ brought_value shape width value }
{
    let word = Word::new(width, shape.signed, value);
    word.extend(shape.width, shape.signed).value
}

// Whether each value of a selector of at most 8 bits matches a label.
fn all_match(shape: Shape, width: u8, arms: &[TypedArm]) -> bool
    requires some_bits { 0 < width }
    requires at_most_8 { width ≤ 8 }
    requires narrower { width ≤ shape.width }
    requires at_most_64 { shape.width ≤ 64 }
    requires labels { AreFit arms.now }
    ensures { result ≡ all_below (2 ^ width) (λ v. list_any (matches (brought_value shape width v)) (labels_in arms.now)) }
{
    let count = 1u64 << width;
    for value in 0..count {
        if !any_matches(brought_value(shape, width, value), arms) {
            return false;
        }
    }
    true
}

// Whether a case is full: its labels are constant, its selector has at most 8 bits by itself and is its own value extended, and a
// label matches whatever value it has.
pub fn is_full(own_width: u8, selector: &TypedExpr, arms: &[TypedArm]) -> bool
    requires selector { IsFit (plain_typed selector.now) }
    requires labels { AreFit arms.now }
    ensures { result ≡ is_full own_width (plain_typed selector.now) (labels_in arms.now) }
{
    let shape = Shape {
        width: selector.width,
        signed: selector.signed,
    };
    own_width <= 8
        && (inner_width(selector) == own_width
            && (all_constant(arms) && all_match(shape, own_width, arms)))
}
