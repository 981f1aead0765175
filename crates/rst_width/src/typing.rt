// Typing in a context.

ghost use Rattle.std.specs.Prelude.{◌≡◌, ◌≤◌, Bool, Ok, true, IsTrue, IfOk};
ghost use Rattle.rst_width.specs.Typed.{plain_typed, plain_node, typed, Binary, Choose};
ghost use Rattle.rst_width.specs.Plain.{plain_sized, plain_answer, plain_found};
ghost use Rattle.rst_width.specs.Sized.{Leaf, larger, own, brought, is_division, operated, in_context, by_itself};
ghost use Rattle.rst_width.specs.Steps.{unary_step, binary_step, shift_step, choose_step};
ghost use Rattle.rst_width.specs.Cut.{IsFitSized};
ghost use Rattle.rst_width.specs.Fit.{IsFit, FitsIn};

use crate::sized::{Answer, Found, SizedExpr};
use crate::typed_expr::{Shape, TypedExpr, TypedNode, WidthFault};
use crate::values::{constant_word, names_signal};
use rst_word::{BinaryOp, UnaryOp};
use std::alloc::{AllocError, Global};

// The larger of two widths, signed where both are.
pub fn larger(a: Shape, b: Shape) -> Shape
    ensures { result ≡ larger a b }
{
    Shape {
        width: a.width.max(b.width),
        signed: a.signed && b.signed,
    }
}

// The own width and sign.
pub fn own(sized: &SizedExpr) -> Shape
    ensures { result ≡ own (plain_sized sized.now) }
{
    match sized {
        SizedExpr::Leaf(shape, _) => *shape,
        SizedExpr::Unary(_, a) | SizedExpr::Shift(_, a, _) => own(a),
        SizedExpr::Binary(_, a, b) | SizedExpr::Choose(_, a, b) => larger(own(a), own(b)),
    }
}

// What stands at a place with this width and sign.
fn at(shape: Shape, node: TypedNode) -> TypedExpr
    ensures { plain_typed result ≡ typed shape (plain_node node) }
{
    TypedExpr {
        width: shape.width,
        signed: shape.signed,
        node,
    }
}

// What doesn't work in its context, with its own width and sign, brought to those of the context.
fn brought(
    alloc: Global,
    shape: Shape,
    node: TypedNode,
    context: Shape,
) -> Result<TypedExpr, AllocError>
    ensures { IfOk result (λ e. plain_typed e ≡ brought shape (plain_node node) context) }
{
    if shape.width < context.width {
        let inner = Box::new(alloc, at(shape, node))?;
        Ok(at(context, TypedNode::Extend(inner)))
    } else {
        Ok(at(context, node))
    }
}

// A leaf in its context.
fn leaf_in(alloc: Global, shape: Shape, found: Found, context: Shape) -> Result<Answer, AllocError>
    ensures { IfOk result (λ answer. (tests : Bool) → plain_answer answer ≡ in_context tests (Leaf shape (plain_found found)) context) }
{
    match found {
        Found::Earlier(fault) => Ok(Err(fault)),
        Found::Own(fault) => {
            if context.width > 64 {
                drop(fault);
                return Ok(Err(WidthFault::TooWide));
            }
            Ok(Err(fault))
        }
        Found::Good(node) => {
            if context.width > 64 {
                drop(node);
                return Ok(Err(WidthFault::TooWide));
            }
            let typed = brought(alloc, shape, node, context)?;
            Ok(Ok(typed))
        }
    }
}

// An operator over its operand.
fn unary_in(alloc: Global, op: UnaryOp, a: Answer, context: Shape) -> Result<Answer, AllocError>
    ensures { IfOk result (λ answer. plain_answer answer ≡ unary_step op (plain_answer a) context) }
{
    match a {
        Err(fault) => Ok(Err(fault)),
        Ok(a) => {
            let a = Box::new(alloc, a)?;
            Ok(Ok(at(context, TypedNode::Unary(op, a))))
        }
    }
}

// Two values, each in a box.
pub fn both_boxed<A: Drop, B: Drop>(
    alloc: Global,
    a: A,
    b: B,
) -> Result<(Box<A>, Box<B>), AllocError>
    ensures { IfOk result (λ x. (x.0.value ≡ a) × (x.1.value ≡ b)) }
{
    let a = Box::new(alloc, a)?;
    Ok((a, Box::new(alloc, b)?))
}

// An operator over its operands.
fn binary(
    alloc: Global,
    op: BinaryOp,
    a: TypedExpr,
    b: TypedExpr,
    context: Shape,
) -> Result<TypedExpr, AllocError>
    ensures { IfOk result (λ e. plain_typed e ≡ typed context (Binary op (plain_typed a) (plain_typed b))) }
{
    let (a, b) = both_boxed(alloc, a, b)?;
    Ok(at(context, TypedNode::Binary(op, a, b)))
}

fn is_division(op: BinaryOp) -> bool
    ensures { result ≡ is_division op }
{
    matches!(op, BinaryOp::Div | BinaryOp::Rem)
}

// An operator in context over its operands. Where `tests` is false, a divisor is not looked at.
fn operated(
    alloc: Global,
    op: BinaryOp,
    a: TypedExpr,
    b: TypedExpr,
    context: Shape,
    tests: bool,
) -> Result<Answer, AllocError>
    requires { IsTrue tests → IsFit (plain_typed b) }
    ensures { IfOk result (λ answer. plain_answer answer ≡ operated tests context op (plain_typed a) (plain_typed b)) }
{
    if is_division(op) {
        if names_signal(&a) || names_signal(&b) {
            drop((a, b));
            return Ok(Err(WidthFault::NotConstant));
        }
        if tests && constant_word(&b).value == 0 {
            drop((a, b));
            return Ok(Err(WidthFault::ZeroDivisor));
        }
    }
    let typed = binary(alloc, op, a, b, context)?;
    Ok(Ok(typed))
}

fn binary_in(
    alloc: Global,
    op: BinaryOp,
    a: Answer,
    b: Answer,
    context: Shape,
    tests: bool,
) -> Result<Answer, AllocError>
    requires { IsTrue tests → IfOk b (λ e. IsFit (plain_typed e)) }
    ensures { IfOk result (λ answer. plain_answer answer ≡ binary_step tests op (plain_answer a) (plain_answer b) context) }
{
    match (a, b) {
        (Err(fault), b) => {
            drop(b);
            Ok(Err(fault))
        }
        (Ok(a), Err(fault)) => {
            drop(a);
            Ok(Err(fault))
        }
        (Ok(a), Ok(b)) => operated(alloc, op, a, b, context, tests),
    }
}

fn shift_in(
    alloc: Global,
    op: BinaryOp,
    a: Answer,
    amount: Answer,
    context: Shape,
) -> Result<Answer, AllocError>
    ensures { IfOk result (λ answer. plain_answer answer ≡ shift_step op (plain_answer a) (plain_answer amount) context) }
{
    match (a, amount) {
        (Err(fault), amount) => {
            drop(amount);
            Ok(Err(fault))
        }
        (Ok(a), Err(fault)) => {
            drop(a);
            Ok(Err(fault))
        }
        (Ok(a), Ok(amount)) => {
            let typed = binary(alloc, op, a, amount, context)?;
            Ok(Ok(typed))
        }
    }
}

// A choice over its parts.
fn choice(
    alloc: Global,
    test: TypedExpr,
    a: TypedExpr,
    b: TypedExpr,
    context: Shape,
) -> Result<TypedExpr, AllocError>
    ensures { IfOk result (λ e. plain_typed e ≡ typed context (Choose (plain_typed test) (plain_typed a) (plain_typed b))) }
{
    match both_boxed(alloc, a, b) {
        Ok((a, b)) => {
            let test = Box::new(alloc, test)?;
            Ok(at(context, TypedNode::Choose(test, a, b)))
        }
        Err(no_memory) => {
            drop(test);
            Err(no_memory)
        }
    }
}

fn choose_in(
    alloc: Global,
    test: Answer,
    a: Answer,
    b: Answer,
    context: Shape,
) -> Result<Answer, AllocError>
    ensures { IfOk result (λ answer. plain_answer answer ≡ choose_step (plain_answer test) (plain_answer a) (plain_answer b) context) }
{
    let test = match test {
        Ok(test) => test,
        Err(fault) => {
            drop((a, b));
            return Ok(Err(fault));
        }
    };
    match (a, b) {
        (Err(fault), b) => {
            drop((test, b));
            Ok(Err(fault))
        }
        (Ok(a), Err(fault)) => {
            drop((test, a));
            Ok(Err(fault))
        }
        (Ok(a), Ok(b)) => {
            let typed = choice(alloc, test, a, b, context)?;
            Ok(Ok(typed))
        }
    }
}

// A walk over an expression in a context that is at least as wide. Where `tests` is false, a divisor is not looked at.
pub fn walk(
    alloc: Global,
    sized: SizedExpr,
    context: Shape,
    tests: bool,
) -> Result<Answer, AllocError>
    requires fit { IsFitSized (plain_sized sized) }
    requires inside { (own (plain_sized sized)).width ≤ context.width }
    ensures { IfOk result (λ answer. plain_answer answer ≡ in_context tests (plain_sized sized) context) }
{
    match sized {
        SizedExpr::Leaf(shape, found) => leaf_in(alloc, shape, found, context),
        SizedExpr::Unary(op, a) => {
            let a = walk(alloc, Box::into_inner(a), context, tests)?;
            unary_in(alloc, op, a, context)
        }
        SizedExpr::Binary(op, a, b) => {
            let a = walk(alloc, Box::into_inner(a), context, tests)?;
            match walk(alloc, Box::into_inner(b), context, tests) {
                Ok(b) => binary_in(alloc, op, a, b, context, tests),
                Err(no_memory) => {
                    drop(a);
                    Err(no_memory)
                }
            }
        }
        SizedExpr::Shift(op, a, amount) => {
            match walk(alloc, Box::into_inner(a), context, tests) {
                Ok(a) => shift_in(alloc, op, a, amount, context),
                Err(no_memory) => {
                    drop(amount);
                    Err(no_memory)
                }
            }
        }
        SizedExpr::Choose(test, a, b) => {
            let a = match walk(alloc, Box::into_inner(a), context, tests) {
                Ok(a) => a,
                Err(no_memory) => {
                    drop((test, b));
                    return Err(no_memory);
                }
            };
            match walk(alloc, Box::into_inner(b), context, tests) {
                Ok(b) => choose_in(alloc, test, a, b, context),
                Err(no_memory) => {
                    drop((test, a));
                    Err(no_memory)
                }
            }
        }
    }
}

// An expression in a context that is at least as wide.
pub fn in_context(alloc: Global, sized: SizedExpr, context: Shape) -> Result<Answer, AllocError>
    requires fit { IsFitSized (plain_sized sized) }
    requires inside { (own (plain_sized sized)).width ≤ context.width }
    ensures exact { IfOk result (λ answer. plain_answer answer ≡ in_context true (plain_sized sized) context) }
    ensures fit { IfOk result (λ answer. FitsIn context (plain_answer answer)) }
{
    let answer = walk(alloc, sized, context, true)?;
    Ok(answer)
}

// An expression at its own width and sign.
pub fn by_itself(alloc: Global, sized: SizedExpr) -> Result<Answer, AllocError>
    requires { IsFitSized (plain_sized sized) }
    ensures exact { IfOk result (λ answer. plain_answer answer ≡ by_itself (plain_sized sized)) }
    ensures fit { IfOk result (λ answer. FitsIn (own (plain_sized sized)) (plain_answer answer)) }
{
    let context = own(&sized);
    let answer = in_context(alloc, sized, context)?;
    Ok(answer)
}
