// Constant expressions, and the words that they stand for.

ghost use Rattle.std.specs.Prelude.{◌≡◌, ◌<◌, ◌≤◌, ◌+◌, Option, ◌-◌, ◌*◌, ◌^◌};
ghost use Rattle.rst_word.specs.Plain.{plain_word};
ghost use Rattle.rst_width.specs.Typed.{plain_typed, plain_node, plain_all, plain_vec, sized_as, names_signal, list_names};
ghost use Rattle.rst_width.specs.Values.{number_at, constant_word, joined_parts, joined_behind, repeated};
ghost use Rattle.rst_width.specs.Fronts.{width_of_front, behind_front};
ghost use Rattle.rst_width.specs.Fit.{IsShape, IsFit, IsFitNode, AreFit, widths};

use crate::typed_expr::{TypedExpr, TypedNode};
use rst_word::Word;

/// Whether a typed expression names a signal. One that names none is constant.
#[cycle(names)]
#[tactic(auto, using(crate::proofs::Rows::rows))]
pub fn names_signal(expr: &TypedExpr) -> bool
    ensures { result ≡ names_signal (plain_typed expr.now) }
{
    match &expr.node {
        TypedNode::Word(_) => false,
        TypedNode::Signal(_) | TypedNode::Slice(_, _, _) | TypedNode::Pick(_, _) => true,
        TypedNode::Unary(_, a) | TypedNode::Extend(a) | TypedNode::Sign(a) => names_signal(a),
        TypedNode::Binary(_, a, b) => names_signal(a) || names_signal(b),
        TypedNode::Choose(test, a, b) => {
            names_signal(test) || (names_signal(a) || names_signal(b))
        }
        TypedNode::Join(parts) => list_names(parts),
        TypedNode::Repeat(_, parts) => list_names(parts),
    }
}

// Whether one of some expressions names a signal.
#[cycle(names)]
fn list_names(parts: &[TypedExpr]) -> bool
    ensures { result ≡ list_names (plain_all parts.now) }
{
    for part in parts {
        if names_signal(part) {
            return true;
        }
    }
    false
}

/// The word of a typed expression that names no signal, by the operators in two values. In another one each signal counts as 0.
///
/// The widths inside have to fit together, as they do in every answer of [`typed`](crate::typed) and
/// [`typed_in`](crate::typed_in).
#[cycle(words)]
pub fn constant_word(expr: &TypedExpr) -> Word
    requires { IsFit (plain_typed expr.now) }
    ensures { plain_word result ≡ constant_word (plain_typed expr.now) }
{
    let value = constant_value(expr.width, expr.signed, &expr.node);
    Word::new(expr.width, expr.signed, value)
}

// The number that the bits of a place of this width and sign spell.
#[cycle(words)]
#[tactic(auto, using(crate::proofs::Rows::rows))]
fn constant_value(width: u8, signed: bool, node: &TypedNode) -> u64
    requires shape { IsShape (sized_as width signed) }
    requires fit { IsFitNode (sized_as width signed) (plain_node node.now) }
    ensures exact { result ≡ number_at (λ _. 0) (sized_as width signed) (plain_node node.now) }
    ensures fits { result < 2 ^ width }
{
    match node {
        TypedNode::Word(word) => word.value,
        TypedNode::Signal(_) | TypedNode::Slice(_, _, _) | TypedNode::Pick(_, _) => 0,
        TypedNode::Unary(op, a) => Word::unary(*op, constant_word(a)).value,
        TypedNode::Binary(op, a, b) => {
            Word::binary(*op, constant_word(a), constant_word(b)).value
        }
        TypedNode::Choose(test, a, b) => {
            if constant_word(test).is_true() {
                constant_word(a).value
            } else {
                constant_word(b).value
            }
        }
        TypedNode::Join(parts) => joined_parts(parts).value,
        TypedNode::Repeat(count, parts) => repeated(*count, joined_parts(parts)).value,
        TypedNode::Extend(a) => constant_word(a).extend(width, signed).value,
        TypedNode::Sign(a) => constant_word(a).value,
    }
}

// The bits of the first part above those of the others.
#[cycle(words)]
fn joined_parts(parts: &Vec<TypedExpr>) -> Word
    requires some_bits { 0 < widths (plain_vec parts.now) }
    requires at_most_64 { widths (plain_vec parts.now) ≤ 64 }
    requires fit { AreFit (plain_vec parts.now) }
    ensures exact { plain_word result ≡ joined_parts (λ _. 0) (plain_vec parts.now) }
    ensures width { result.width ≡ widths (plain_vec parts.now) }
{
    let mut joined = None;
    for part in parts {
        joined = Some(behind(joined, constant_word(part)));
    }
    match joined {
        Some(word) => word,
        None => unreachable!(),
    }
}

// A word behind others.
fn behind(front: Option<Word>, word: Word) -> Word
    requires { width_of_front front + word.width ≤ 64 }
    ensures exact { plain_word result ≡ behind_front front (plain_word word) }
    ensures width { result.width ≡ width_of_front front + word.width }
{
    match front {
        None => word,
        Some(front) => Word::concat2(front, word),
    }
}

// A word, this many times.
fn repeated(count: u8, word: Word) -> Word
    requires some { 0 < count }
    requires at_most_64 { count * word.width ≤ 64 }
    ensures exact { plain_word result ≡ repeated (count - 1) (plain_word word) (plain_word word) }
    ensures width { result.width ≡ count * word.width }
{
    let mut front = word;
    for _ in 1..count {
        front = Word::concat2(front, word);
    }
    front
}
