// Typed targets and sets.

ghost use Rattle.std.specs.Prelude.{◌≡◌, ◌++◌, [], IfOk, OnOk, IfErr};
ghost use Rattle.rst_tree.specs.Trees.{plain};
ghost use Rattle.rst_tree.specs.Targets.{plain_target};
ghost use Rattle.rst_width.specs.Scopes.{names_of};
ghost use Rattle.rst_width.specs.Sized.{Answer};
ghost use Rattle.rst_width.specs.Typed.{plain_typed, plain_all};
ghost use Rattle.rst_width.specs.Plain.{plain_answer};
ghost use Rattle.rst_width.specs.Fit.{IsFit};
ghost use Rattle.rst_width.specs.Answers.{Gives, typed_answer, placed_answer};
ghost use Rattle.rst_net.specs.Statements.{plain_set};
ghost use Rattle.rst_typing.specs.Typing.{typed_or, typed_at, slices_of, slices_of_all, is_settable, are_settable, target_answer, target_slices, target_width, typed_set, set_faults, answer_faults};
ghost use Rattle.rst_typing.specs.Refusals.{IsFirst};

use rst_net::{Slice, TypedSet};
use rst_outside::NoMemory;
use rst_tree::{Expr, Target};
use rst_width::{Scope, Shape, TypedExpr, TypedNode, WidthFault, typed, typed_in, typed_target};
use rst_word::Word;
use std::alloc::{AllocError, Global};

/// The typed form, or a plain default where there is a fault.
pub fn typed_or(answer: Result<TypedExpr, WidthFault>) -> Result<TypedExpr, NoMemory>
    ensures exact { IfOk result (λ e. plain_typed e ≡ typed_or (plain_answer answer)) }
    // What was given as an answer is the typed form, or the default, of that answer.
    ensures given { (a : Answer) → Gives plain_typed answer a → IfOk result (λ e. plain_typed e ≡ typed_or a) }
{
    match answer {
        Ok(typed) => Ok(typed),
        Err(WidthFault::NoMemory) => Err(NoMemory),
        Err(_) => Ok(TypedExpr {
            width: 1,
            signed: false,
            node: TypedNode::Word(Word::new(1, false, 0)),
        }),
    }
}

// The typed form of an expression in a context of this width, 0 for none.
#[tactic(auto, using(crate::proofs::Faults::firsts))]
pub fn typed_at(
    alloc: Global,
    names: &Scope,
    expr: &Expr,
    width: u8,
) -> Result<Box<TypedExpr>, WidthFault>
    ensures exact { IfOk result (λ e. plain_typed e.value ≡ typed_at (names_of names.now) (plain expr.now) width) }
    ensures passes { OnOk result (answer_faults (typed_answer (names_of names.now) (plain expr.now) width) ≡ []) }
    ensures refused { IfErr result (λ e. IsFirst e (answer_faults (typed_answer (names_of names.now) (plain expr.now) width))) }
{
    let made = typed(alloc, expr, names, width)?;
    Ok(Box::new(alloc, made)?)
}

// The typed form of an expression in a context of this width and sign.
#[tactic(auto, using(crate::proofs::Faults::firsts))]
pub fn placed_at(
    alloc: Global,
    names: &Scope,
    expr: &Expr,
    shape: Shape,
) -> Result<Box<TypedExpr>, WidthFault>
    ensures exact { IfOk result (λ e. plain_typed e.value ≡ typed_or (placed_answer (names_of names.now) (plain expr.now) shape)) }
    ensures fit { IfOk result (λ e. IsFit (plain_typed e.value)) }
    ensures passes { OnOk result (answer_faults (placed_answer (names_of names.now) (plain expr.now) shape) ≡ []) }
    ensures refused { IfErr result (λ e. IsFirst e (answer_faults (placed_answer (names_of names.now) (plain expr.now) shape))) }
{
    let made = typed_in(alloc, expr, names, shape)?;
    Ok(Box::new(alloc, made)?)
}

// The parts of a target, the most significant first.
#[cycle(slices)]
#[tactic(auto, using(rst_width::proofs::Rows::rows))]
fn push_slices(target: &TypedExpr, made: &mut Vec<Slice>) -> Result<(), AllocError>
    ensures { OnOk result (made.new.items ≡ made.old.items ++ slices_of (plain_typed target.now)) }
{
    match &target.node {
        TypedNode::Signal(signal) => {
            made.push(Slice {
                signal: *signal,
                low: 0,
                width: target.width,
            })?;
            Ok(())
        }
        TypedNode::Slice(signal, low, width) => {
            made.push(Slice {
                signal: *signal,
                low: *low,
                width: *width,
            })?;
            Ok(())
        }
        TypedNode::Join(parts) => push_all(parts, made),
        _ => Ok(()),
    }
}

#[cycle(slices)]
fn push_all(parts: &[TypedExpr], made: &mut Vec<Slice>) -> Result<(), AllocError>
    ensures { OnOk result (made.new.items ≡ made.old.items ++ slices_of_all (plain_all parts.now)) }
{
    for part in parts {
        push_slices(part, made)?;
    }
    Ok(())
}

/// The parts of a target, the most significant first; none of a part that cannot be set.
pub fn slices_of(alloc: Global, target: &TypedExpr) -> Result<Vec<Slice>, AllocError>
    ensures { IfOk result (λ v. v.items ≡ slices_of (plain_typed target.now)) }
{
    let mut made = Vec::new(alloc);
    push_slices(target, &mut made)?;
    Ok(made)
}

/// Whether all parts can be set: signals, and bits of them that are fixed.
#[cycle(settable)]
#[tactic(auto, using(rst_width::proofs::Rows::rows))]
pub fn is_settable(target: &TypedExpr) -> bool
    ensures { result ≡ is_settable (plain_typed target.now) }
{
    match &target.node {
        TypedNode::Signal(_) | TypedNode::Slice(_, _, _) => true,
        TypedNode::Join(parts) => are_settable(parts),
        _ => false,
    }
}

#[cycle(settable)]
fn are_settable(parts: &[TypedExpr]) -> bool
    ensures { result ≡ are_settable (plain_all parts.now) }
{
    for part in parts {
        if !is_settable(part) {
            return false;
        }
    }
    true
}

// The parts of a target, and its width.
#[tactic(auto, using(crate::proofs::Faults::firsts))]
fn target_parts(
    alloc: Global,
    names: &Scope,
    target: &Target,
) -> Result<(Vec<Slice>, u8), WidthFault>
    ensures exact { IfOk result (λ t. t.0.items ≡ target_slices (names_of names.now) (plain_target target.now)) }
    ensures width { IfOk result (λ t. t.1 ≡ target_width (names_of names.now) (plain_target target.now)) }
    ensures passes { OnOk result (answer_faults (target_answer (names_of names.now) (plain_target target.now)) ≡ []) }
    ensures refused { IfErr result (λ e. IsFirst e (answer_faults (target_answer (names_of names.now) (plain_target target.now)))) }
{
    let made = typed_target(alloc, target, names)?;
    let slices = slices_of(alloc, &made)?;
    Ok((slices, made.width))
}

/// A set: the value works at the larger of its own width and the target's (IEEE 1364-2001, clause 4.4.2).
///
/// The faults are those of the target's typed form, and then those of the value's. `NoMemory` comes where memory runs out.
#[tactic(auto, using(crate::proofs::Faults::firsts))]
pub fn typed_set(
    alloc: Global,
    names: &Scope,
    target: &Target,
    value: &Expr,
    blocking: bool,
) -> Result<TypedSet, WidthFault>
    ensures exact { IfOk result (λ s. plain_set s ≡ typed_set (names_of names.now) (plain_target target.now) (plain value.now) blocking) }
    ensures passes { OnOk result (set_faults (names_of names.now) (plain_target target.now) (plain value.now) ≡ []) }
    ensures refused { IfErr result (λ e. IsFirst e (set_faults (names_of names.now) (plain_target target.now) (plain value.now))) }
{
    let (slices, width) = target_parts(alloc, names, target)?;
    let value = typed_at(alloc, names, value, width)?;
    Ok(TypedSet {
        target: slices,
        value,
        blocking,
    })
}
