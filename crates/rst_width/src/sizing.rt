// Sizing an expression.

ghost use Rattle.std.specs.Prelude.{◌≡◌, ◌≤◌, IfOk};
ghost use Rattle.rst_tree.specs.Trees.{plain};
ghost use Rattle.rst_tree.specs.Trees as tree;
ghost use Rattle.rst_width.specs.Typed.{plain_typed, plain_node};
ghost use Rattle.rst_width.specs.Plain.{plain_answer, plain_meaning, plain_sized, plain_parts};
ghost use Rattle.rst_width.specs.Scopes.{names_with};
ghost use Rattle.rst_width.specs.Sized.{by_itself, Shift};
ghost use Rattle.rst_width.specs.Sizing.{one_bit, Comparing, Moving, Deciding, decided, number_sized, named, part_sized, unary_sized, binary_sized, kind_of, cast_sized, sized, sized_parts};
ghost use Rattle.rst_width.specs.Selects.{open_shape};
ghost use Rattle.rst_width.specs.Cut.{cut, cut_parts, HasWidth, IsFitSized};
ghost use Rattle.rst_width.specs.Fit.{IsFit};

use crate::names::{Meaning, UnshapedNames, stands_for};
use crate::parts::{Parts, join_sized, repeat_sized, with_next};
use crate::scope::Scope;
use crate::selects::{bit_found, number_of_part, part_found, part_shape, signal_at};
use crate::sized::{Answer, Found, SizedExpr};
use crate::typed_expr::{Shape, TypedExpr, TypedNode, WidthFault};
use crate::typing::{both_boxed, by_itself, in_context, larger, own};
use rst_lex::Literal;
use rst_outside::{Name, NoMemory};
use rst_tree::Expr;
use rst_word::{BinaryOp, UnaryOp, Word};
use std::alloc::{AllocError, Global};

// One unsigned bit.
pub fn one_bit() -> Shape
    ensures { result ≡ one_bit }
{
    Shape {
        width: 1,
        signed: false,
    }
}

// What a fault leaves open.
fn open_shape() -> Shape
    ensures { result ≡ open_shape }
{
    Shape {
        width: 0,
        signed: true,
    }
}

// A literal has its own width and sign.
fn number_sized(number: Literal) -> SizedExpr
    ensures { plain_sized result ≡ number_sized number }
{
    let shape = Shape {
        width: number.width,
        signed: number.signed,
    };
    let word = Word::new(number.width, number.signed, number.value);
    SizedExpr::Leaf(shape, Found::Good(TypedNode::Word(word)))
}

// A signal or a parameter has the width and sign of its declaration.
pub fn named(
    alloc: Global,
    constant: bool,
    name: &Name,
    meaning: Option<Meaning>,
) -> Result<SizedExpr, NoMemory>
    ensures { IfOk result (λ s. plain_sized s ≡ named constant name.now (plain_meaning meaning)) }
{
    match meaning {
        None => {
            let name = Name::new(alloc, name.as_slice())?;
            let found = Found::Earlier(WidthFault::NoName(name));
            Ok(SizedExpr::Leaf(open_shape(), found))
        }
        Some(Meaning::Signal(signal, declared)) => {
            let shape = Shape {
                width: declared.width,
                signed: declared.signed,
            };
            let found = signal_at(constant, TypedNode::Signal(signal));
            Ok(SizedExpr::Leaf(shape, found))
        }
        Some(Meaning::Param(word)) => {
            let shape = Shape {
                width: word.width,
                signed: word.signed,
            };
            Ok(SizedExpr::Leaf(shape, Found::Good(TypedNode::Word(word))))
        }
        Some(Meaning::Later(_)) => {
            Ok(SizedExpr::Leaf(open_shape(), Found::Own(WidthFault::NotConstant)))
        }
    }
}

// A part-select.
pub fn part_sized(
    alloc: Global,
    constant: bool,
    name: &Name,
    meaning: Option<Meaning>,
    high: Answer,
    low: Answer,
) -> Result<SizedExpr, NoMemory>
    requires high_fits { IfOk high (λ e. IsFit (plain_typed e)) }
    requires low_fits { IfOk low (λ e. IsFit (plain_typed e)) }
    ensures { IfOk result (λ s. plain_sized s ≡ cut (part_sized constant name.now (plain_meaning meaning) (plain_answer high) (plain_answer low))) }
{
    let shape = part_shape(number_of_part(&high), number_of_part(&low));
    let found = part_found(alloc, constant, name, meaning, high, low)?;
    Ok(SizedExpr::Leaf(shape, found))
}

// An operator with one operand. `!` and the reductions take it by itself, the others in context.
fn unary_sized(alloc: Global, op: UnaryOp, operand: SizedExpr) -> Result<SizedExpr, AllocError>
    requires { IsFitSized (plain_sized operand) }
    ensures { IfOk result (λ s. plain_sized s ≡ unary_sized op (plain_sized operand)) }
{
    match op {
        UnaryOp::Plus | UnaryOp::Minus | UnaryOp::Invert => {
            Ok(SizedExpr::Unary(op, Box::new(alloc, operand)?))
        }
        _ => {
            let found = match by_itself(alloc, operand)? {
                Ok(operand) => Found::Good(TypedNode::Unary(op, Box::new(alloc, operand)?)),
                Err(fault) => Found::Earlier(fault),
            };
            Ok(SizedExpr::Leaf(one_bit(), found))
        }
    }
}

// An operator above two operands that are typed, or the first fault of them.
fn above_both(
    alloc: Global,
    op: BinaryOp,
    left: Answer,
    right: Answer,
) -> Result<SizedExpr, AllocError>
    ensures { IfOk result (λ s. plain_sized s ≡ decided op (plain_answer left) (plain_answer right)) }
{
    let found = match (left, right) {
        (Err(fault), right) => {
            drop(right);
            Found::Earlier(fault)
        }
        (Ok(left), Err(fault)) => {
            drop(left);
            Found::Earlier(fault)
        }
        (Ok(left), Ok(right)) => {
            let (left, right) = both_boxed(alloc, left, right)?;
            Found::Good(TypedNode::Binary(op, left, right))
        }
    };
    Ok(SizedExpr::Leaf(one_bit(), found))
}

// A comparison, whose operands are sized to the larger of the two.
fn compared(
    alloc: Global,
    op: BinaryOp,
    left: SizedExpr,
    right: SizedExpr,
) -> Result<SizedExpr, AllocError>
    requires left { IsFitSized (plain_sized left) }
    requires right { IsFitSized (plain_sized right) }
    ensures { IfOk result (λ s. plain_sized s ≡ binary_sized Comparing op (plain_sized left) (plain_sized right)) }
{
    let both = larger(own(&left), own(&right));
    let left = match in_context(alloc, left, both) {
        Ok(left) => left,
        Err(no_memory) => {
            drop(right);
            return Err(no_memory);
        }
    };
    match in_context(alloc, right, both) {
        Ok(right) => above_both(alloc, op, left, right),
        Err(no_memory) => {
            drop(left);
            Err(no_memory)
        }
    }
}

// A shift, whose amount stands by itself.
fn shifted(
    alloc: Global,
    op: BinaryOp,
    left: SizedExpr,
    right: SizedExpr,
) -> Result<SizedExpr, AllocError>
    requires { IsFitSized (plain_sized right) }
    ensures { IfOk result (λ s. plain_sized s ≡ binary_sized Moving op (plain_sized left) (plain_sized right)) }
{
    match by_itself(alloc, right) {
        Ok(amount) => moved(alloc, op, left, amount),
        Err(no_memory) => {
            drop(left);
            Err(no_memory)
        }
    }
}

// A shift by an amount that is typed.
fn moved(
    alloc: Global,
    op: BinaryOp,
    left: SizedExpr,
    amount: Answer,
) -> Result<SizedExpr, AllocError>
    ensures { IfOk result (λ s. plain_sized s ≡ Shift op (plain_sized left) (plain_answer amount)) }
{
    match Box::new(alloc, left) {
        Ok(left) => Ok(SizedExpr::Shift(op, left, amount)),
        Err(failed) => {
            drop(amount);
            Err(AllocError::from(failed))
        }
    }
}

// An operator on two truth values, whose operands stand by themselves.
fn decided(
    alloc: Global,
    op: BinaryOp,
    left: SizedExpr,
    right: SizedExpr,
) -> Result<SizedExpr, AllocError>
    requires left { IsFitSized (plain_sized left) }
    requires right { IsFitSized (plain_sized right) }
    ensures { IfOk result (λ s. plain_sized s ≡ binary_sized Deciding op (plain_sized left) (plain_sized right)) }
{
    let left = match by_itself(alloc, left) {
        Ok(left) => left,
        Err(no_memory) => {
            drop(right);
            return Err(no_memory);
        }
    };
    match by_itself(alloc, right) {
        Ok(right) => above_both(alloc, op, left, right),
        Err(no_memory) => {
            drop(left);
            Err(no_memory)
        }
    }
}

// An operator with two operands.
fn binary_sized(
    alloc: Global,
    op: BinaryOp,
    left: SizedExpr,
    right: SizedExpr,
) -> Result<SizedExpr, AllocError>
    requires left { IsFitSized (plain_sized left) }
    requires right { IsFitSized (plain_sized right) }
    ensures { IfOk result (λ s. plain_sized s ≡ binary_sized (kind_of op) op (plain_sized left) (plain_sized right)) }
{
    match op {
        BinaryOp::Shl | BinaryOp::Shr | BinaryOp::ArithShl | BinaryOp::ArithShr => {
            shifted(alloc, op, left, right)
        }
        BinaryOp::Lt | BinaryOp::Le | BinaryOp::Gt | BinaryOp::Ge | BinaryOp::Eq | BinaryOp::Ne =>
            compared(alloc, op, left, right),
        BinaryOp::LogicAnd | BinaryOp::LogicOr => { decided(alloc, op, left, right) }
        _ => {
            let (left, right) = both_boxed(alloc, left, right)?;
            Ok(SizedExpr::Binary(op, left, right))
        }
    }
}

// `$signed(e)` and `$unsigned(e)`.
fn cast_sized(alloc: Global, signed: bool, inner: SizedExpr) -> Result<SizedExpr, AllocError>
    requires { IsFitSized (plain_sized inner) }
    ensures { IfOk result (λ s. plain_sized s ≡ cast_sized signed (plain_sized inner)) }
{
    let shape = Shape {
        width: own(&inner).width,
        signed,
    };
    let found = match by_itself(alloc, inner)? {
        Ok(inner) => Found::Good(TypedNode::Sign(Box::new(alloc, inner)?)),
        Err(fault) => Found::Earlier(fault),
    };
    Ok(SizedExpr::Leaf(shape, found))
}

// An expression, sized. Where `constant` is true, a signal is NotConstant.
#[cycle(sizing)]
pub fn sized(
    alloc: Global,
    constant: bool,
    expr: &Expr,
    scope: &Scope,
    unshaped: &UnshapedNames,
) -> Result<SizedExpr, NoMemory>
    ensures exact { IfOk result (λ s. plain_sized s ≡ cut (sized constant (names_with scope.now unshaped.now) (plain expr.now))) }
    ensures fit { IfOk result (λ s. IsFitSized (plain_sized s)) }
{
    sized_node(alloc, constant, expr, scope, unshaped)
}

#[cycle(sizing)]
#[tactic(auto, using(crate::proofs::SizingCuts::sizing_cuts))]
fn sized_node(
    alloc: Global,
    constant: bool,
    expr: &Expr,
    scope: &Scope,
    unshaped: &UnshapedNames,
) -> Result<SizedExpr, NoMemory>
    ensures { IfOk result (λ s. plain_sized s ≡ cut (sized constant (names_with scope.now unshaped.now) (plain expr.now))) }
{
    match expr {
        Expr::Number(number) => Ok(number_sized(*number)),
        Expr::Name(name) => named(alloc, constant, name, stands_for(scope, unshaped, name)),
        Expr::Bit(name, index) => {
            let index = sized_by_itself(alloc, constant, index, scope, unshaped)?;
            let found = bit_found(
                alloc,
                constant,
                name,
                stands_for(scope, unshaped, name),
                index,
            )?;
            Ok(SizedExpr::Leaf(one_bit(), found))
        }
        Expr::Part(name, high, low) => {
            let high = sized_by_itself(alloc, constant, high, scope, unshaped)?;
            match sized_by_itself(alloc, constant, low, scope, unshaped) {
                Ok(low) => part_sized(
                    alloc,
                    constant,
                    name,
                    stands_for(scope, unshaped, name),
                    high,
                    low,
                ),
                Err(no_memory) => {
                    drop(high);
                    Err(no_memory)
                }
            }
        }
        Expr::Paren(inner) => sized_node(alloc, constant, inner, scope, unshaped),
        Expr::Unary(op, operand) => {
            let operand = sized(alloc, constant, operand, scope, unshaped)?;
            Ok(unary_sized(alloc, *op, operand)?)
        }
        Expr::Binary(op, left, right) => {
            let left = sized(alloc, constant, left, scope, unshaped)?;
            match sized(alloc, constant, right, scope, unshaped) {
                Ok(right) => Ok(binary_sized(alloc, *op, left, right)?),
                Err(no_memory) => {
                    drop(left);
                    Err(no_memory)
                }
            }
        }
        Expr::Choose(test, yes, no) => {
            let yes = Box::new(alloc, sized_node(alloc, constant, yes, scope, unshaped)?)?;
            let no = Box::new(alloc, sized_node(alloc, constant, no, scope, unshaped)?)?;
            let test = sized_by_itself(alloc, constant, test, scope, unshaped)?;
            Ok(SizedExpr::Choose(test, yes, no))
        }
        Expr::Join(parts) => Ok(join_sized(sized_parts(alloc, constant, parts, scope, unshaped)?)),
        Expr::Repeat(count, parts) => {
            let count = sized_by_itself(alloc, constant, count, scope, unshaped)?;
            match sized_parts(alloc, constant, parts, scope, unshaped) {
                Ok(parts) => Ok(repeat_sized(count, parts)),
                Err(no_memory) => {
                    drop(count);
                    Err(no_memory)
                }
            }
        }
        Expr::Signed(inner) => {
            let inner = sized(alloc, constant, inner, scope, unshaped)?;
            Ok(cast_sized(alloc, true, inner)?)
        }
        Expr::Unsigned(inner) => {
            let inner = sized(alloc, constant, inner, scope, unshaped)?;
            Ok(cast_sized(alloc, false, inner)?)
        }
    }
}

// An expression by itself.
#[cycle(sizing)]
#[tactic(auto, using(crate::proofs::SizingCuts::sizing_cuts))]
pub fn sized_by_itself(
    alloc: Global,
    constant: bool,
    expr: &Expr,
    scope: &Scope,
    unshaped: &UnshapedNames,
) -> Result<Answer, NoMemory>
    ensures exact { IfOk result (λ answer. plain_answer answer ≡ by_itself (sized constant (names_with scope.now unshaped.now) (plain expr.now))) }
    ensures fit { IfOk result (λ answer. IfOk answer (λ e. IsFit (plain_typed e))) }
{
    let sized = sized(alloc, constant, expr, scope, unshaped)?;
    Ok(by_itself(alloc, sized)?)
}

// The parts of a join or a repetition.
#[cycle(sizing)]
fn sized_parts(
    alloc: Global,
    constant: bool,
    exprs: &[Expr],
    scope: &Scope,
    unshaped: &UnshapedNames,
) -> Result<Parts, NoMemory>
    ensures exact { IfOk result (λ p. plain_parts p ≡ cut_parts (sized_parts constant (names_with scope.now unshaped.now) (tree.plain_all exprs.now))) }
    ensures has_width { IfOk result (λ p. IfOk (plain_parts p).list (HasWidth p.width)) }
{
    let mut parts = Parts {
        width: 0,
        list: Ok(Vec::new(alloc)),
    };
    for expr in exprs {
        let next = sized(alloc, constant, expr, scope, unshaped)?;
        parts = with_next(alloc, parts, next)?;
    }
    Ok(parts)
}
