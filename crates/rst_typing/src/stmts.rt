// Typed statements.

ghost use Rattle.std.specs.Prelude.{◌≡◌, [], false, IfOk, OnOk, IfErr};
ghost use Rattle.rst_tree.specs.Trees.{plain, plain_all};
ghost use Rattle.rst_tree.specs.Targets.{plain_target};
ghost use Rattle.rst_tree.specs.Statements.{plain_stmt as plain_tree, plain_stmts as plain_trees, plain_arm, plain_arms as plain_tree_arms, Arms, no_arm};
ghost use Rattle.rst_tree.specs.Statements as tree;
ghost use Rattle.rst_width.specs.Scopes.{names_of};
ghost use Rattle.rst_width.specs.Sized.{larger};
ghost use Rattle.rst_width.specs.Typed.{plain_typed};
ghost use Rattle.rst_width.specs.Fit.{IsFit};
ghost use Rattle.rst_net.specs.Statements.{plain_stmt, plain_arms, Case};
ghost use Rattle.rst_typing.specs.Typing.{typed_stmt, stmt_faults, arms_faults, is_full};
ghost use Rattle.rst_typing.specs.Parts.{Left, cut_labels, cut_arms, plain_default};
ghost use Rattle.rst_typing.specs.Refusals.{IsFirst, AreFit, labels_in};

use crate::labels::{is_full, typed_labels};
use crate::typing::{placed_at, typed_at, typed_set};
use rst_net::{TypedArm, TypedCase, TypedStmt};
use rst_outside::NoMemory;
use rst_tree::{Arm, Expr, SetStmt, Stmt};
use rst_width::{Scope, Shape, TypedExpr, WidthFault, own_shape};
use std::alloc::Global;

fn larger(a: Shape, b: Shape) -> Shape
    ensures { result ≡ larger a b }
{
    Shape {
        width: a.width.max(b.width),
        signed: a.signed && b.signed,
    }
}

// The larger of a shape and those of labels. As the own shapes are, it is cut at 65 bits.
fn shape_with_labels(
    alloc: Global,
    names: &Scope,
    own: Shape,
    labels: &[Expr],
) -> Result<Shape, NoMemory>
    ensures { IfOk result (λ shape. shape ≡ cut_labels (names_of names.now) own (plain_all labels.now)) }
{
    let mut shape = own;
    for label in labels {
        shape = larger(shape, own_shape(alloc, label, names)?);
    }
    Ok(shape)
}

fn shape_with_arm(alloc: Global, names: &Scope, shape: Shape, arm: &Arm) -> Result<Shape, NoMemory>
    ensures { (others : Arms) → IfOk result (λ next. cut_arms (names_of names.now) next others ≡ cut_arms (names_of names.now) shape (plain_arm arm.now others)) }
{
    match arm {
        Arm::Labels(labels, _) => shape_with_labels(alloc, names, shape, labels),
        Arm::Otherwise(_) => Ok(shape),
    }
}

// The shape that selector and labels are sized to: the widest of them, signed where all are.
fn case_shape(alloc: Global, names: &Scope, own: Shape, arms: &[Arm]) -> Result<Shape, NoMemory>
    ensures { IfOk result (λ shape. shape ≡ cut_arms (names_of names.now) own (plain_tree_arms arms.now)) }
{
    let mut shape = own;
    for arm in arms {
        shape = shape_with_arm(alloc, names, shape, arm)?;
    }
    Ok(shape)
}

/// The typed form of a statement (IEEE 1364-2001, clauses 9.2, 9.4 and 9.5).
///
/// Of several faults the first in the order of the text is answered. `NoMemory` comes where memory runs out.
#[cycle(typed_stmts)]
#[tactic(auto, using(rst_tree::proofs::Rows::statement_rows, crate::proofs::Faults::firsts))]
pub fn typed_stmt(alloc: Global, names: &Scope, stmt: &Stmt) -> Result<TypedStmt, WidthFault>
    ensures exact { IfOk result (λ s. plain_stmt s ≡ typed_stmt (names_of names.now) (plain_tree stmt.now)) }
    ensures passes { OnOk result (stmt_faults (names_of names.now) (plain_tree stmt.now) ≡ []) }
    ensures refused { IfErr result (λ e. IsFirst e (stmt_faults (names_of names.now) (plain_tree stmt.now))) }
{
    match stmt {
        Stmt::Block(parts) => typed_block(alloc, names, parts),
        Stmt::If(condition, then, None) => {
            let condition = typed_at(alloc, names, condition, 0)?;
            let then = boxed_stmt(alloc, names, then)?;
            let otherwise = Box::new(alloc, TypedStmt::Empty)?;
            Ok(TypedStmt::If(condition, then, otherwise))
        }
        Stmt::If(condition, then, Some(otherwise)) => {
            let condition = typed_at(alloc, names, condition, 0)?;
            let then = boxed_stmt(alloc, names, then)?;
            let otherwise = boxed_stmt(alloc, names, otherwise)?;
            Ok(TypedStmt::If(condition, then, otherwise))
        }
        Stmt::Case(case) => typed_case(alloc, names, &case.arms, &case.selector),
        Stmt::Set(set) => set_stmt(alloc, names, set),
        Stmt::Empty => Ok(TypedStmt::Empty),
    }
}

// A set as a statement.
#[tactic(auto, using(crate::proofs::Faults::firsts))]
fn set_stmt(alloc: Global, names: &Scope, set: &SetStmt) -> Result<TypedStmt, WidthFault>
    ensures exact { IfOk result (λ s. plain_stmt s ≡ typed_stmt (names_of names.now) (tree.Set (plain_target set.now.target) (plain set.now.value) set.now.blocking)) }
    ensures passes { OnOk result (stmt_faults (names_of names.now) (tree.Set (plain_target set.now.target) (plain set.now.value) set.now.blocking) ≡ []) }
    ensures refused { IfErr result (λ e. IsFirst e (stmt_faults (names_of names.now) (tree.Set (plain_target set.now.target) (plain set.now.value) set.now.blocking))) }
{
    let made = typed_set(alloc, names, &set.target, &set.value, set.blocking)?;
    let made = Box::new(alloc, made)?;
    Ok(TypedStmt::Set(made))
}

#[cycle(typed_stmts)]
#[tactic(auto, using(crate::proofs::Faults::firsts))]
fn boxed_stmt(alloc: Global, names: &Scope, stmt: &Stmt) -> Result<Box<TypedStmt>, WidthFault>
    ensures exact { IfOk result (λ s. plain_stmt s.value ≡ typed_stmt (names_of names.now) (plain_tree stmt.now)) }
    ensures passes { OnOk result (stmt_faults (names_of names.now) (plain_tree stmt.now) ≡ []) }
    ensures refused { IfErr result (λ e. IsFirst e (stmt_faults (names_of names.now) (plain_tree stmt.now))) }
{
    let made = typed_stmt(alloc, names, stmt)?;
    Ok(Box::new(alloc, made)?)
}

#[cycle(typed_stmts)]
#[tactic(auto, using(crate::proofs::Loops::statement_turns))]
fn typed_block(alloc: Global, names: &Scope, parts: &[Stmt]) -> Result<TypedStmt, WidthFault>
    ensures exact { IfOk result (λ s. plain_stmt s ≡ typed_stmt (names_of names.now) (tree.Block (plain_trees parts.now))) }
    ensures passes { OnOk result (stmt_faults (names_of names.now) (tree.Block (plain_trees parts.now)) ≡ []) }
    ensures refused { IfErr result (λ e. IsFirst e (stmt_faults (names_of names.now) (tree.Block (plain_trees parts.now)))) }
{
    let mut made = Vec::new(alloc);
    for part in parts {
        let part = typed_stmt(alloc, names, part)?;
        made.push(part)?;
    }
    Ok(TypedStmt::Block(made))
}

// The arms that were read so far, and the statement of `default`.
#[derive(Drop)]
struct ReadArms {
    arms: Vec<TypedArm>,
    otherwise: Option<Box<TypedStmt>>,
}

#[cycle(typed_stmts)]
fn push_arm(
    alloc: Global,
    names: &Scope,
    shape: Shape,
    arm: &Arm,
    made: &mut ReadArms,
) -> Result<(), WidthFault>
    ensures exact { OnOk result ((others all : Arms) → Left (names_of names.now) shape made.old (plain_arm arm.now others) all → Left (names_of names.now) shape made.new others all) }
    ensures refused { IfErr result (λ e. (others : Arms) → IsFirst e (arms_faults (names_of names.now) shape (plain_arm arm.now others))) }
{
    match arm {
        Arm::Labels(labels, body) => {
            let labels = typed_labels(alloc, names, shape, labels)?;
            let body = typed_stmt(alloc, names, body)?;
            made.arms.push(TypedArm { labels, body })?;
            Ok(())
        }
        Arm::Otherwise(body) => {
            let body = boxed_stmt(alloc, names, body)?;
            if made.otherwise.is_none() {
                made.otherwise = Some(body);
            }
            Ok(())
        }
    }
}

#[cycle(typed_stmts)]
#[tactic(auto, using(crate::proofs::Loops::statement_turns))]
fn typed_arms(
    alloc: Global,
    names: &Scope,
    shape: Shape,
    arms: &[Arm],
) -> Result<ReadArms, WidthFault>
    ensures exact { IfOk result (λ made. Left (names_of names.now) shape made no_arm (plain_tree_arms arms.now)) }
    ensures refused { IfErr result (λ e. IsFirst e (arms_faults (names_of names.now) shape (plain_tree_arms arms.now))) }
{
    let mut made = ReadArms {
        arms: Vec::new(alloc),
        otherwise: None,
    };
    for arm in arms {
        push_arm(alloc, names, shape, arm, &mut made)?;
    }
    Ok(made)
}

// A case of a selector and arms.
#[tactic(auto, using(crate::proofs::Rows::rows))]
fn case_of(own_width: u8, selector: Box<TypedExpr>, made: ReadArms) -> TypedStmt
    requires selector { IsFit (plain_typed selector.value) }
    requires labels { AreFit made.arms.items }
    ensures { plain_stmt result ≡ Case (plain_typed selector.value) (plain_arms made.arms.items) (plain_default made.otherwise) (is_full own_width (plain_typed selector.value) (labels_in made.arms.items)) }
{
    let full = is_full(own_width, &selector, &made.arms);
    let ReadArms { arms, otherwise } = made;
    TypedStmt::Case(TypedCase {
        selector,
        arms,
        otherwise,
        full,
    })
}

// A case. Whether it is a `casez` changes nothing: what the bits of a label match stands in its literal.
#[cycle(typed_stmts)]
fn typed_case(
    alloc: Global,
    names: &Scope,
    arms: &[Arm],
    selector: &Expr,
) -> Result<TypedStmt, WidthFault>
    ensures exact { IfOk result (λ s. plain_stmt s ≡ typed_stmt (names_of names.now) (tree.Case false (plain selector.now) (plain_tree_arms arms.now))) }
    ensures passes { OnOk result (stmt_faults (names_of names.now) (tree.Case false (plain selector.now) (plain_tree_arms arms.now)) ≡ []) }
    ensures refused { IfErr result (λ e. IsFirst e (stmt_faults (names_of names.now) (tree.Case false (plain selector.now) (plain_tree_arms arms.now)))) }
{
    let own = own_shape(alloc, selector, names)?;
    let shape = case_shape(alloc, names, own, arms)?;
    let selector = placed_at(alloc, names, selector, shape)?;
    let made = typed_arms(alloc, names, shape, arms)?;
    Ok(case_of(own.width, selector, made))
}
